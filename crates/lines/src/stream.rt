// Lines of a stream that arrives in chunks. The bytes of the line under way are kept in a buffer; what
// does not fit is dropped. With one byte more than a line may have, a full buffer is a line too long.
ghost use Rattle.std.specs.Prelude.{◌≤◌, length};
ghost use Rattle.lines.specs.Stream.{Feeds, Room};

use crate::put::put_all;
use crate::word::end_of;

#[derive(Clone, Copy, Debug, PartialEq, Eq)]
pub enum Fed {
    // The line is whole: so many bytes of the buffer, and the place in the chunk after its end.
    Line(usize, usize),
    // The chunk is used up: so many bytes of the line are kept.
    Part(usize),
}

// The line under way, of which `used` bytes are kept, with the bytes of the chunk from `from` on.
pub fn feed(buffer: &mut [u8], used: usize, chunk: &[u8], from: usize) -> Fed
    requires { from ≤ length chunk.now }
    ensures room { Room (length buffer.old) from (length chunk.now) result }
    ensures feeds { Feeds buffer.old used chunk.now from buffer.new result }
{
    let e = end_of(chunk, from, 10);
    let kept = put_all(buffer, used, &chunk[from..e]);
    if e < chunk.len() {
        Fed::Line(kept, e + 1)
    } else {
        Fed::Part(kept)
    }
}
