// The text of our programs, on lent slices: a line of whole numbers is read into rows, and numbers are
// written as text. Each contract equates what is left with a definition of specs/.
#![tactic(auto)]

mod answer;
mod line;
mod put;
mod stream;
mod word;

pub use answer::{put_ok, put_refused};
pub use line::parse;
pub use put::{put_all, put_bits, put_byte, put_number, put_signed};
pub use stream::{Fed, feed};
pub use word::{end_of, read_size};
