// Reads f64s as bit patterns of 8 bytes, lowest first, and writes for each the patterns of its two
// roots: the stepped one, then the quick one. A NaN's pattern is 0x7ff8000000000000.
#![tactic(auto)]

ghost use Rattle.std.specs.Prelude.{◌+◌, ◌<◌, ◌≤◌, length};
ghost use Rattle.std.specs.Io.{ReadsAtMost};

use std::io;
use std::io::{Read, Write};

// The pattern at a place of the input.
fn pattern(input: &[u8; 32768], at: usize) -> u64
    requires { at + 8 ≤ 32768 }
{
    let mut bytes = [0u8; 8];
    bytes.copy_from_slice(&input[at..at + 8]);
    u64::from_le_bytes(bytes)
}

fn put(output: &mut [u8], at: usize, w: u64)
    requires { at + 8 ≤ length output.old }
{
    output[at..at + 8].copy_from_slice(&w.to_le_bytes());
}

// The roots of one pattern.
fn answer(input: &[u8; 32768], output: &mut [u8], i: usize)
    requires { (i < 4096) × (65536 ≤ length output.old) }
{
    let x = float::of_bits(pattern(input, i * 8));
    let r = quickroot::roots_agree(x, x);
    put(output, i * 16, r.stepped);
    put(output, i * 16 + 8, r.quick);
}

// The roots of the first count patterns.
fn answers(input: &[u8; 32768], output: &mut [u8], count: usize)
    requires { (count ≤ 4096) × (65536 ≤ length output.old) }
{
    for i in 0..count {
        answer(input, output, i);
    }
}

// Reads until buf is full or the input ends, and says how many bytes it put at the start of buf.
fn read_full<R: Read>(input: &mut R, buf: &mut [u8]) -> io::Result<usize>
    ensures { ReadsAtMost result buf.new }
{
    let mut done = 0;
    while done < buf.len() {
        let n = input.read(&mut buf[done..])?;
        if n == 0 {
            break;
        }
        done += n;
    }
    Ok(done)
}

// Reads a block of patterns and writes their roots. False at the end of the input.
fn block<R: Read, W: Write>(from: &mut R, to: &mut W) -> io::Result<bool> {
    let mut input = [0u8; 32768];
    let mut output = [0u8; 65536];
    let count = read_full(from, &mut input)? / 8;
    answers(&input, &mut output, count);
    to.write_all(&output[..count * 16])?;
    Ok(count == 4096)
}

// A proved loop has to end, so the turns are counted up to a number that no run comes to.
fn main(rt: HostRuntime) -> io::Result<()> {
    let mut input = rt.stdin();
    let mut output = rt.stdout();
    for _ in 0..u64::MAX {
        if !block(&mut input, &mut output)? {
            break;
        }
    }
    Ok(())
}
