// UFO's GLIF, read into rows.
#![tactic(auto)]

mod enter;
mod read;

pub use crate::read::{Counts, read_glif};
