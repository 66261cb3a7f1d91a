// UFO's GLIF, read byte by byte: the open elements, the names, and the points of the contours.
#![tactic(auto)]

mod names;
mod outline;
mod scan;
mod tree;

pub use crate::outline::Sum;
pub use crate::scan::{Scan, Totals, fresh_scan, judge, turn};
pub use crate::tree::Tree;
