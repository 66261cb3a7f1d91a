// UFO's GLIF, written: a file with other points in its contours.
#![tactic(auto)]

mod contours;
mod put;
mod write;

pub use crate::write::write_glif;
