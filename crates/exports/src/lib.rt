// The entries for C and Rust programs, but for the three of `fontcrunch`. A row goes by pointer and length; what each
// row and number means stands in include/fontcrunch.h.
#![tactic(auto)]

pub mod both_editions;
pub mod cleaning;
pub mod from_cubics;
pub mod glif_files;
pub mod glyph;
pub mod idle_controls;
pub mod reasons;
pub mod written_out;
