// Bytes into rows: a first pass judges and finds the places of the parts, then the rows are filled.
ghost use Rattle.std.specs.Prelude.{◌≡◌, ◌+◌, ◌*◌, ◌<◌, ◌≤◌, length};
ghost use Rattle.glyf.specs.Layout.{count_of};
ghost use Rattle.glyfread.specs.Steps.{words_at};
ghost use Rattle.glyfread.specs.Reads.{Headed, Finds, Stands, Judges, lacking};
ghost use Rattle.glyfread.specs.Entry.{filled, Promise};

use crate::row::{copy_bytes, copy_words, word_at, words_rise};
use crate::walk::{Scan, fill_points, points_fit, scan_flags, start};
use glyf::wide;
use refusals::Refusal;

// How many contours, points and instruction bytes.
#[derive(Clone, Copy, Debug, PartialEq, Eq)]
pub struct Counts {
    pub contours: usize,
    pub points: usize,
    pub instructions: usize,
}

// How many contours and points; the instructions' place and how many; the places of flags, x and y
// differences.
#[derive(Clone, Copy, Debug, PartialEq, Eq)]
pub struct Places {
    pub contours: usize,
    pub points: usize,
    pub code: usize,
    pub size: usize,
    pub flags: usize,
    pub xs: usize,
    pub ys: usize,
}

fn points_of(bytes: &[u8], contours: usize) -> usize
    requires { (contours < 32768) × (10 + 2 * contours ≤ length bytes.now) }
    ensures value { result ≡ count_of (words_at bytes.now 10 contours) }
    ensures upper_bound { result ≤ 65536 }
{
    if contours == 0 {
        return 0;
    }
    wide(word_at(bytes, 8 + 2 * contours)) + 1
}

// The points' parts, after the instructions.
fn locate_points(bytes: &[u8], contours: usize, code: usize, size: usize) -> Result<Places, Refusal>
    requires { Headed bytes.now contours code size }
    ensures { Finds bytes.now result }
{
    let points = points_of(bytes, contours);
    let flags = code + size;
    let Some(Scan { xs, wide_x, wide_y }) = scan_flags(bytes, flags, points) else {
        return Err(Refusal::CutShort);
    };
    let ys = xs + wide_x;
    if bytes.len() < ys + wide_y {
        return Err(Refusal::CutShort);
    }
    Ok(Places {
        contours,
        points,
        code,
        size,
        flags,
        xs,
        ys,
    })
}

// 15 and 12.
fn locate(bytes: &[u8]) -> Result<Places, Refusal>
    ensures { Finds bytes.now result }
{
    if bytes.len() < 2 {
        return Err(Refusal::CutShort);
    }
    let contours = wide(word_at(bytes, 0));
    if 32768 <= contours {
        return Err(Refusal::Composite);
    }
    let tail = 10 + 2 * contours;
    if bytes.len() < tail + 2 {
        return Err(Refusal::CutShort);
    }
    let size = wide(word_at(bytes, tail));
    if bytes.len() < tail + 2 + size {
        return Err(Refusal::CutShort);
    }
    locate_points(bytes, contours, tail + 2, size)
}

// 13, then 14, of a description that is whole.
fn judge_at(bytes: &[u8], p: Places) -> Result<Places, Refusal>
    requires { Stands bytes.now p }
    ensures { Judges bytes.now result }
{
    if !words_rise(bytes, 10, p.contours) {
        return Err(Refusal::EndsNotRising);
    }
    if !points_fit(bytes, start(p.flags, p.xs, p.ys), p.points) {
        return Err(Refusal::TooLarge);
    }
    Ok(p)
}

// 15, 12, 13, 14.
fn judge(bytes: &[u8]) -> Result<Places, Refusal>
    ensures { Judges bytes.now result }
{
    let p = locate(bytes)?;
    judge_at(bytes, p)
}

// Whether a row is too short for what is to be filled in.
fn lacks_room(p: Places, ends: usize, code: usize, xs: usize, ys: usize, flags: usize) -> bool
    ensures { result ≡ lacking p ends code xs ys flags }
{
    ends < p.contours || code < p.size || xs < p.points || ys < p.points || flags < p.points
}

pub fn read_glyph(
    bytes: &[u8],
    ends: &mut [u16],
    xs: &mut [i16],
    ys: &mut [i16],
    flags: &mut [u8],
    instructions: &mut [u8],
) -> Result<Counts, Refusal>
    ensures { Promise bytes.now (filled ends xs ys flags instructions) result }
{
    let p = judge(bytes)?;
    if lacks_room(
        p,
        ends.len(),
        instructions.len(),
        xs.len(),
        ys.len(),
        flags.len(),
    ) {
        return Err(Refusal::OutputTooShort);
    }
    copy_words(bytes, 10, ends, p.contours);
    copy_bytes(bytes, p.code, instructions, p.size);
    fill_points(bytes, start(p.flags, p.xs, p.ys), p.points, xs, ys, flags);
    Ok(Counts {
        contours: p.contours,
        points: p.points,
        instructions: p.size,
    })
}
