// Contours on standard input, one a line, `x y f x y f ...`; a line out for each: `ok PAIRS x y f ...`,
// `refused K`, or `malformed`. Streaming: memory does not grow with the lines. `--penalty N` asks for another
// penalty, in sixteenths; with `--fallen` each answer but `malformed` ends with ` fallen N`, the lookups that fell.
#![tactic(auto)]

mod out;
mod stream;

ghost use Rattle.std.specs.Prelude.{IfOk};
ghost use Rattle.fontcrunch_cli.specs.Stream.{Keeps, Chunked};

use std::env::{Env, FillError};
use std::io;
use std::io::{Read, Write};
use words::Order;

// What a chunk's lines are answered goes out before more input is waited for.
fn take_chunk<W: Write>(
    to: &mut W,
    text: &mut [u8],
    line: &mut [u8],
    from: usize,
    chunk: &[u8],
    order: Order,
) -> io::Result<usize>
    requires { Keeps line.old from }
    ensures { IfOk result (λ left. Chunked order line from chunk.now left) }
{
    let mut used = from;
    let mut i = 0;
    while i < chunk.len() {
        let t = stream::take_lines(text, line, used, chunk, i, order);
        let at = t.at;
        out::flush(to, text, at)?;
        used = t.used;
        i = t.next;
    }
    Ok(used)
}

fn serve<R: Read, W: Write>(
    input: &mut R,
    to: &mut W,
    text: &mut [u8],
    line: &mut [u8],
    order: Order,
) -> io::Result<()>
    requires { Keeps line.old 0 }
{
    let mut chunk = [0u8; 65536];
    let mut used = 0;
    for _ in 0..u64::MAX {
        let n = input.read(&mut chunk)?;
        if n == 0 {
            let at = stream::put_last(text, line, used, order);
            return out::flush(to, text, at);
        }
        used = take_chunk(to, text, line, used, &chunk[..n], order)?;
    }
    Ok(())
}

fn run<R: Read, W: Write>(input: &mut R, to: &mut W, order: Order) -> io::Result<()> {
    let mut line = [0u8; 65537];
    let mut text = [0u8; 524288];
    serve(input, to, &mut text, &mut line, order)
}

// What the words after the program's name ask for; the row holds them. None, where they are wrong: words that
// it has no room for are more than this program knows.
fn asked<E: Env>(env: &E, row: &mut [u8]) -> Option<Order> {
    let mut at = 0;
    for i in 1..usize::MAX {
        if row.len() <= at {
            return None;
        }
        match env.arg(i, &mut row[at..]) {
            Ok(k) => at = lines::put_byte(row, at + k, 0),
            Err(FillError::NotPresent) => break,
            Err(FillError::TooLong) => return None,
        }
    }
    if row.len() <= at {
        return None;
    }
    words::read(&row[..at])
}

fn main(rt: HostRuntime) -> io::Result<()> {
    let mut row = [0u8; 4096];
    match asked(&rt, &mut row) {
        Some(order) => run(&mut rt.stdin(), &mut rt.stdout(), order),
        None => rt.eprintln(
            "usage: fontcrunch_cli [--penalty N] [--whole-units] [--closed] [--fallen]   N sixteenths, 1 to 256, 32 where none is said; of several the last counts",
        ),
    }
}
