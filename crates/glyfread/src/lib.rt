// OpenType's simple glyph descriptions, read into rows.
#![tactic(auto)]

mod read;
mod row;
mod walk;

pub use crate::read::{Counts, read_glyph};
