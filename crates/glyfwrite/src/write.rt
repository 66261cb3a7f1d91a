// Rows into bytes: the rows are judged, the description is measured, and then it is put.
ghost use Rattle.std.specs.Prelude.{◌≡◌, [], ◌<◌, ◌≤◌, length};
ghost use Rattle.glyf.specs.Layout.{glyph, too_large, bytes_of, fitting};
ghost use Rattle.glyfwrite.specs.Puts.{Put};
ghost use Rattle.glyfwrite.specs.Entry.{glyph_given, Promise};
ghost use Rattle.glyfwrite.specs.Writes.{head_text, code_text, points_text, Counted, Judges, Writes};

use crate::bounds::put_box;
use crate::difference::{put_steps, steps_fit};
use crate::flags::put_flags;
use crate::put::{put_bytes, put_word, put_words};
use glyf::{count_of, ends_rise};
use refusals::Refusal;

// 14: the counts, then each difference.
fn too_large(ends: &[u16], xs: &[i16], ys: &[i16], instructions: &[u8]) -> bool
    ensures { result ≡ too_large (glyph ends.now xs.now ys.now [] instructions.now) }
{
    if 32767 < ends.len() {
        return true;
    }
    if 65535 < instructions.len() {
        return true;
    }
    !steps_fit(xs) || !steps_fit(ys)
}

// How many points are to be written: 1, 12, 13, 14.
fn judge(
    ends: &[u16],
    xs: &[i16],
    ys: &[i16],
    flags: &[u8],
    instructions: &[u8],
) -> Result<usize, Refusal>
    ensures { Judges (glyph ends.now xs.now ys.now flags.now instructions.now) result }
{
    if xs.len() != ys.len() {
        return Err(Refusal::UnevenRows);
    }
    if xs.len() != flags.len() {
        return Err(Refusal::UnevenRows);
    }
    let n = count_of(ends);
    if flags.len() < n {
        return Err(Refusal::CutShort);
    }
    if !ends_rise(ends) {
        return Err(Refusal::EndsNotRising);
    }
    if too_large(ends, &xs[..n], &ys[..n], instructions) {
        return Err(Refusal::TooLarge);
    }
    Ok(n)
}

// The number of contours, the box and the ends.
fn put_head(out: &mut [u8], ends: &[u16], xs: &[i16], ys: &[i16]) -> usize
    requires { length ends.now ≤ 32767 }
    ensures put { Put out.old 0 (head_text ends.now xs.now ys.now) out.new result }
    ensures upper_bound { result ≤ 65544 }
{
    let box_at = put_word(out, 0, ends.len() as u16);
    let ends_at = put_box(out, box_at, xs, ys);
    put_words(out, ends_at, ends)
}

// The length of the instructions and their bytes.
fn put_code(out: &mut [u8], at: usize, instructions: &[u8]) -> usize
    requires { (at ≤ 65544) × (length instructions.now ≤ 65535) }
    ensures put { Put out.old at (code_text instructions.now) out.new result }
    ensures upper_bound { result ≤ 131081 }
{
    let from = put_word(out, at, instructions.len() as u16);
    put_bytes(out, from, instructions)
}

// Flags, x differences, y differences.
fn put_points(out: &mut [u8], at: usize, xs: &[i16], ys: &[i16], flags: &[u8]) -> usize
    requires { (at ≤ 131081) × (length flags.now ≤ 65536) × (length xs.now ≡ length flags.now) × (length ys.now ≡ length flags.now) }
    ensures { Put out.old at (points_text xs.now ys.now flags.now) out.new result }
{
    let xs_at = put_flags(out, at, xs, ys, flags);
    let ys_at = put_steps(out, xs_at, xs);
    put_steps(out, ys_at, ys)
}

// The whole description, of rows as long as there are points.
fn put_glyph(
    out: &mut [u8],
    ends: &[u16],
    xs: &[i16],
    ys: &[i16],
    flags: &[u8],
    instructions: &[u8],
) -> usize
    requires { Counted ends.now xs.now ys.now flags.now instructions.now }
    ensures { Put out.old 0
        (bytes_of (glyph ends.now xs.now ys.now flags.now instructions.now)) out.new result }
{
    let code_at = put_head(out, ends, xs, ys);
    let points_at = put_code(out, code_at, instructions);
    put_points(out, points_at, xs, ys, flags)
}

// How many bytes. Measured into a row of no places, and put where there is room: 9.
fn put_fitting(
    out: &mut [u8],
    ends: &[u16],
    xs: &[i16],
    ys: &[i16],
    flags: &[u8],
    instructions: &[u8],
) -> Result<usize, Refusal>
    requires { Counted ends.now xs.now ys.now flags.now instructions.now }
    ensures { Writes (fitting (length out.old)
        (bytes_of (glyph ends.now xs.now ys.now flags.now instructions.now)))
        out.old out.new result }
{
    let size = put_glyph(&mut out[..0], ends, xs, ys, flags, instructions);
    if out.len() < size {
        return Err(Refusal::OutputTooShort);
    }
    put_glyph(out, ends, xs, ys, flags, instructions);
    Ok(size)
}

pub fn write_glyph(
    ends: &[u16],
    xs: &[i16],
    ys: &[i16],
    flags: &[u8],
    instructions: &[u8],
    out: &mut [u8],
) -> Result<usize, Refusal>
    ensures { Promise (glyph_given ends xs ys flags instructions) out result }
{
    let n = judge(ends, xs, ys, flags, instructions)?;
    put_fitting(out, ends, &xs[..n], &ys[..n], &flags[..n], instructions)
}
