// The lines of the input, answered as they end. Nothing is read or written here.
ghost use Rattle.std.specs.Prelude.{◌≤◌, length, take};
ghost use Rattle.lines.specs.Text.{Put};
ghost use Rattle.fontcrunch_cli.specs.Output.{output_of};
ghost use Rattle.fontcrunch_cli.specs.Stream.{Keeps, Takes};

use crate::out;
use lines::Fed;
use words::Order;

#[derive(Clone, Copy, Debug, PartialEq, Eq)]
pub struct Taken {
    // bytes of the line under way, at the start of its buffer
    pub used: usize,
    // bytes of the answers, at the start of the text
    pub at: usize,
    // the place in the chunk that was come to
    pub next: usize,
}

// The lines that end in the chunk from place `first` on, until the text may not have room for one more answer.
pub fn take_lines(
    text: &mut [u8],
    line: &mut [u8],
    from: usize,
    chunk: &[u8],
    first: usize,
    order: Order,
) -> Taken
    requires keeps { Keeps line.old from }
    requires first_in_bounds { first ≤ length chunk.now }
    ensures { Takes order text line from chunk.now first result }
{
    let mut used = from;
    let mut at = 0;
    let mut i = first;
    while i < chunk.len() {
        match lines::feed(line, used, chunk, i) {
            Fed::Line(n, next) => {
                at = answering::put_answer(text, at, &line[..n], order);
                used = 0;
                i = next;
                if !out::has_room(text.len(), at) {
                    return Taken { used, at, next };
                }
            }
            Fed::Part(n) => {
                return Taken {
                    used: n,
                    at,
                    next: chunk.len(),
                };
            }
        }
    }
    Taken { used, at, next: i }
}

// A last line with no line end counts where it is not empty.
pub fn put_last(text: &mut [u8], line: &[u8], used: usize, order: Order) -> usize
    requires { Keeps line.now used }
    ensures { Put text.old 0 (output_of order (take used line.now)) text.new result }
{
    if used == 0 {
        return 0;
    }
    answering::put_answer(text, 0, &line[..used], order)
}
