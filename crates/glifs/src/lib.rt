// UFO's GLIF crunched: bytes in, bytes out, each contour by the crunch entry's own definition.
#![tactic(auto)]

mod entry;
mod lent;

pub use crate::entry::crunch_glif;
