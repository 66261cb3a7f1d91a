// The entries of `exports` for C and Rust programs: a static library of exports, each of which calls the function of its own name and promises the
// same. What each row and number means stands in include/fontcrunch.h.
#![tactic(auto)]

pub mod both_editions;
pub mod cleaning;
pub mod from_cubics;
pub mod glif_files;
pub mod glyph;
pub mod idle_controls;
pub mod reasons;
pub mod written_out;
