// Two editions of a contour, print and screen, from one sampling. Each run is surveyed once, while any
// edition's work goes on; then each edition takes its step on it, lent the samples and the breaks to be read
// alone. What an edition is handed back and left is what the crunch entry promises it by itself.
#![tactic(auto)]

mod entry;
mod own;
mod work;

pub use crate::entry::{Editions, crunch_editions};
pub use crate::work::Order;
