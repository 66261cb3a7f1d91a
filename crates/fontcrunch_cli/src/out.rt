// Answers are put into a buffer, which is written out when it may not have room for the next one.
ghost use Rattle.std.specs.Prelude.{◌≡◌, ◌+◌, ◌≤◌, leb, length, take, OnOk};
ghost use Rattle.std.specs.Io.KnownBytes.{Appends};

use std::io;
use std::io::Write;

pub fn flush<W: Write>(to: &mut W, text: &[u8], at: usize) -> io::Result<()>
    ensures { OnOk result (at ≤ length text.now → Appends (W.contents to.old) (W.contents to.new) (take at text.now)) }
{
    if at <= text.len() {
        to.write_all(&text[..at])?;
    }
    Ok(())
}

// Whether the longest answer, 16,384 points of at most 18 bytes, has room from `at` on.
pub fn has_room(n: usize, at: usize) -> bool
    ensures { result ≡ leb (at + 300000) n }
{
    if n < 300000 {
        return false;
    }
    at <= n - 300000
}
