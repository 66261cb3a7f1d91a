// OpenType's simple glyph descriptions, crunched: bytes in, bytes out, each contour by the crunch entry's own
// definition.
#![tactic(auto)]

mod clear;
mod contours;
mod entry;
mod renew;

pub use crate::clear::{clear_i16, clear_u8, clear_u16};
pub use crate::entry::crunch_glyph;
pub use crate::renew::crunch_rows;
