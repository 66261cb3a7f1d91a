// Doubles on standard input, one a line; for each the steps of its root, as `float::root` takes them, to
// be held beside a paper. A line of 16 digits in base 16 is an f64's bits; one of at most 15 decimal
// digits is a whole number. The first 65,536 bytes of the input are read.
#![tactic(auto)]

mod given;
mod steps;
mod text;

ghost use Rattle.std.specs.Io.{ReadsAtMost};

use std::io;
use std::io::{Read, Write};

// The steps of one line, or that it is malformed.
fn put_line(out: &mut [u8], line: &[u8]) -> usize {
    let a = lines::put_all(out, 0, line);
    match given::read(line) {
        Some(x) => {
            let b = lines::put_byte(out, a, b'\n');
            let t = steps::put_root(out, b, x);
            lines::put_byte(out, t.at, b'\n')
        }
        None => lines::put_all(out, a, b": malformed\n\n"),
    }
}

fn flush<W: Write>(to: &mut W, text: &[u8], at: usize) -> io::Result<()> {
    if at <= text.len() {
        to.write_all(&text[..at])?;
    }
    Ok(())
}

// The longest answer has some 5,000 bytes. Of a longer line that is malformed as much is shown as there
// is room for.
fn answer<W: Write>(to: &mut W, line: &[u8]) -> io::Result<()> {
    let mut out = [0u8; 8192];
    let end = put_line(&mut out, line);
    flush(to, &out, end)
}

// Each line ends with byte 10, and the last one may go without.
fn answer_all<W: Write>(to: &mut W, input: &[u8]) -> io::Result<()> {
    let mut i = 0;
    while i < input.len() {
        let e = lines::end_of(input, i, 10);
        answer(to, &input[i..e])?;
        if e == input.len() {
            return Ok(());
        }
        i = e + 1;
    }
    Ok(())
}

// Reads until buf is full or the input ends, and says how many bytes it put at the start of buf.
fn read_full<R: Read>(from: &mut R, buf: &mut [u8]) -> io::Result<usize>
    ensures { ReadsAtMost result buf.new }
{
    let mut done = 0;
    while done < buf.len() {
        let n = from.read(&mut buf[done..])?;
        if n == 0 {
            break;
        }
        done += n;
    }
    Ok(done)
}

fn main(rt: HostRuntime) -> io::Result<()> {
    let mut input = [0u8; 65536];
    let n = read_full(&mut rt.stdin(), &mut input)?;
    answer_all(&mut rt.stdout(), &input[..n])
}
