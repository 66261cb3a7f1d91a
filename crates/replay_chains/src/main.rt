// The chain entry and the checker, with the crate's settings, on runs from standard input, one a line: `16 0 K x y f x y f
// ...`, in the places of a point the settings that it was recorded with, which are not looked at, and a run number, then
// a contour. A line out for each: `refused N`,
// `pairs P unchanged`, or `pairs P score S chain C` with START END CX CY of each piece, floats by their bits, and then two
// verdicts: on this chain, and on it with a score that is one more.
#![tactic(auto)]

ghost use Rattle.std.specs.Io.{ReadsAtMost};

use chains::Chained;
use refusals::Refusal;
use settings::Settings;
use std::io;
use std::io::{Read, Write};

fn put_word(text: &mut [u8], at: usize, n: u64) -> usize {
    let a = lines::put_byte(text, at, b' ');
    lines::put_number(text, a, n)
}

fn put_float(text: &mut [u8], at: usize, x: f64) -> usize {
    let a = lines::put_byte(text, at, b' ');
    lines::put_bits(text, a, x)
}

// The pieces of these rows, which are equally long.
fn put_pieces(
    text: &mut [u8],
    from: usize,
    starts: &[u32],
    ends: &[u32],
    cxs: &[f64],
    cys: &[f64],
) -> usize {
    let mut at = from;
    for (((start, end), cx), cy) in starts.iter().zip(ends).zip(cxs).zip(cys) {
        at = put_word(text, at, u64::from(*start));
        at = put_word(text, at, u64::from(*end));
        at = put_float(text, at, *cx);
        at = put_float(text, at, *cy);
    }
    at
}

fn put_verdict(text: &mut [u8], at: usize, v: Result<bool, Refusal>) -> usize {
    match v {
        Err(k) => put_word(text, at, u64::from(k.number())),
        Ok(true) => lines::put_all(text, at, b" yes"),
        Ok(false) => lines::put_all(text, at, b" no"),
    }
}

// What the checker says of a chain for run k, in scratch rows with document 01's full rooms.
fn put_checked(
    text: &mut [u8],
    at: usize,
    xs: &[i16],
    ys: &[i16],
    flags: &[u8],
    k: usize,
    starts: &[u32],
    ends: &[u32],
    cxs: &[f64],
    cys: &[f64],
    score: f64,
) -> usize {
    let mut samples = [[0.0; 4]; 16384];
    let mut breaks = [[0.0; 6]; 2048];
    let mut answers = [[0.0; 3]; 4096];
    let mut links = [0u32; 4096];
    let v = checks::check_chain(
        xs,
        ys,
        flags,
        k,
        Settings::of_crate(),
        starts,
        ends,
        cxs,
        cys,
        score,
        &mut samples,
        &mut breaks,
        &mut answers,
        &mut links,
    );
    let verdict = v.verdict;
    put_verdict(text, at, verdict)
}

// A chain in these rows, then the verdict on it and on it with a score that is one more.
fn put_chain(
    text: &mut [u8],
    from: usize,
    xs: &[i16],
    ys: &[i16],
    flags: &[u8],
    k: usize,
    starts: &[u32],
    ends: &[u32],
    cxs: &[f64],
    cys: &[f64],
    score: f64,
) -> usize {
    let a = lines::put_all(text, from, b" score");
    let b = put_float(text, a, score);
    let c = lines::put_all(text, b, b" chain");
    let d = put_word(text, c, starts.len() as u64);
    let e = put_pieces(text, d, starts, ends, cxs, cys);
    let f = lines::put_all(text, e, b" ;");
    let g = put_checked(text, f, xs, ys, flags, k, starts, ends, cxs, cys, score);
    put_checked(
        text,
        g,
        xs,
        ys,
        flags,
        k,
        starts,
        ends,
        cxs,
        cys,
        score + 1.0,
    )
}

fn put_pairs(text: &mut [u8], at: usize, pairs: usize) -> usize {
    let a = lines::put_all(text, at, b"pairs");
    put_word(text, a, pairs as u64)
}

// Run k of a contour, in rows with document 01's full rooms.
fn put_run(text: &mut [u8], xs: &[i16], ys: &[i16], flags: &[u8], k: usize) -> usize {
    let mut starts = [0u32; 2047];
    let mut ends = [0u32; 2047];
    let mut cxs = [0.0; 2047];
    let mut cys = [0.0; 2047];
    let mut spans = [[0u32; 2]; 2047];
    let mut samples = [[0.0; 4]; 16384];
    let mut breaks = [[0.0; 6]; 2048];
    let mut answers = [[0.0; 3]; 4096];
    let mut links = [0u32; 4096];
    match chains::chain_of_run(
        xs,
        ys,
        flags,
        k,
        Settings::of_crate(),
        &mut starts,
        &mut ends,
        &mut cxs,
        &mut cys,
        &mut spans,
        &mut samples,
        &mut breaks,
        &mut answers,
        &mut links,
    ) {
        Err(k) => lines::put_refused(text, 0, k.number()),
        Ok(Chained::Unchanged(t)) => {
            let a = put_pairs(text, 0, t.pairs);
            lines::put_all(text, a, b" unchanged")
        }
        Ok(Chained::Pieces(n, score, t)) => {
            let a = put_pairs(text, 0, t.pairs);
            let m = n.min(2047);
            put_chain(
                text,
                a,
                xs,
                ys,
                flags,
                k,
                &starts[..m],
                &ends[..m],
                &cxs[..m],
                &cys[..m],
                score,
            )
        }
    }
}

// The contour stands after the run number.
fn put_line(text: &mut [u8], line: &[u8]) -> usize {
    let mut xs = [0i16; 1026];
    let mut ys = [0i16; 1026];
    let mut flags = [0u8; 1026];
    match lines::parse(line, &mut xs, &mut ys, &mut flags) {
        None | Some(0) => lines::put_all(text, 0, b"malformed"),
        Some(n) => {
            let k = usize::from(flags[0]);
            let m = n.min(1026);
            put_run(text, &xs[1..m], &ys[1..m], &flags[1..m], k)
        }
    }
}

fn write_out<W: Write>(to: &mut W, text: &[u8], n: usize) -> io::Result<bool> {
    if n <= text.len() {
        to.write_all(&text[..n])?;
        return Ok(true);
    }
    Ok(false)
}

fn answer<W: Write>(to: &mut W, text: &mut [u8], line: &[u8]) -> io::Result<bool> {
    let end = put_line(text, line);
    let n = lines::put_byte(text, end, b'\n');
    write_out(to, text, n)
}

// Each line that ends.
fn serve<W: Write>(to: &mut W, text: &mut [u8], input: &[u8]) -> io::Result<()> {
    let mut i = 0;
    while i < input.len() {
        let e = lines::end_of(input, i, b'\n');
        if e == input.len() {
            break;
        }
        if !answer(to, text, &input[i..e])? {
            break;
        }
        i = e + 1;
    }
    Ok(())
}

// Reads until buf is full or the input ends, and says how many bytes it put at the start of buf.
fn read_full<R: Read>(from: &mut R, buf: &mut [u8]) -> io::Result<usize>
    ensures { ReadsAtMost result buf.new }
{
    let mut done = 0;
    while done < buf.len() {
        let n = from.read(&mut buf[done..])?;
        if n == 0 {
            break;
        }
        done += n;
    }
    Ok(done)
}

fn main(rt: HostRuntime) -> io::Result<()> {
    let mut input = [0u8; 65536];
    let mut text = [0u8; 65536];
    read_full(&mut rt.stdin(), &mut input)?;
    serve(&mut rt.stdout(), &mut text, &input)
}
