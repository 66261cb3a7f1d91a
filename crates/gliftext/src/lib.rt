// The text of UFO's GLIF, a small XML: the table of docs/GLIF.md, and what is remembered of names, values and points.
#![tactic(auto)]

mod action;
mod choice;
mod row;
mod table;
mod text;
mod utf8;
mod word;

pub use crate::action::Action;
pub use crate::choice::{both, either, less, more, pick, plus};
pub use crate::row::{at, store};
pub use crate::table::{action_of, class_of, move_of};
pub use crate::text::{Declaration, Kind, Name, Point, Text, Value, fresh_text, text_of};
pub use crate::utf8::is_utf8;
pub use crate::word::{Number, Progress};
