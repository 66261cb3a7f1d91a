// OpenType's simple glyph descriptions, written from rows.
#![tactic(auto)]

mod bounds;
mod difference;
mod flags;
mod put;
mod write;

pub use crate::write::write_glyph;
