// A file with the insides of its contours replaced.
ghost use Rattle.std.specs.Prelude.{◌≡◌, ◌≤◌, length};
ghost use Rattle.glifwrite.specs.Puts.{put};
ghost use Rattle.glifwrite.specs.Contours.{even, rows_refused};
ghost use Rattle.glifwrite.specs.Writes.{given, no_copy, copying, copy_on, write_all, answer_as};
ghost use Rattle.glifwrite.specs.Entry.{rows_given, lent, Promise};

use crate::contours::{end_at, put_contour, some_empty, start_of};
use crate::put::put_range;
use glif::{Scan, fresh_scan, judge, turn};
use gliftext::{both, either, less, more, pick};
use refusals::Refusal;

// The file from `from` on is still to be copied; the last `<` stands at `tag`; the next contour is number k;
// the next place of the output.
#[derive(Clone, Copy, Debug, PartialEq, Eq)]
pub struct Copy {
    pub from: usize,
    pub tag: usize,
    pub k: usize,
    pub at: usize,
}

fn no_copy() -> Copy
    ensures { result ≡ no_copy }
{
    Copy {
        from: 0,
        tag: 0,
        k: 0,
        at: 0,
    }
}

// A contour that opens: what stands before its inside is copied, and its points are put. One that closes: what
// stands from its end tag on is to be copied.
fn copy_on(
    bytes: &[u8],
    ends: &[u16],
    xs: &[i16],
    ys: &[i16],
    flags: &[u8],
    i: usize,
    s: Scan,
    t: Scan,
    c: Copy,
    out: &mut [u8],
) -> Copy
    ensures { copying result out.new
        ≡ copy_on bytes.now (given ends.now xs.now ys.now flags.now) i s t (copying c out.old) }
{
    let old = s.tree;
    let new = t.tree;
    let text = t.text;
    let opens = both(old.level == 2, new.level == 3);
    let closes = both(old.level == 3, new.level == 2);
    let tag = pick(text.state == 15, i, c.tag);
    let a = put_range(bytes, c.from, pick(opens, more(i), c.from), out, c.at);
    let to = pick(opens, end_at(ends, c.k), 0);
    let b = put_contour(xs, ys, flags, start_of(ends, c.k), to, out, a);
    Copy {
        from: pick(closes, tag, c.from),
        tag,
        k: pick(opens, more(c.k), c.k),
        at: b,
    }
}

// The first n bytes.
fn write_all(
    bytes: &[u8],
    n: usize,
    ends: &[u16],
    xs: &[i16],
    ys: &[i16],
    flags: &[u8],
    out: &mut [u8],
) -> usize
    requires { n ≤ length bytes.now }
    ensures { put result out.new
        ≡ write_all bytes.now (given ends.now xs.now ys.now flags.now) n out.old }
{
    let mut names = [0; 256];
    let mut none = [[0; 3]; 1];
    let mut s = fresh_scan();
    let mut c = no_copy();
    for i in 0..n {
        let t = turn(bytes, i, s, &mut names, &mut none);
        c = copy_on(bytes, ends, xs, ys, flags, i, s, t, c, out);
        s = t;
    }
    put_range(bytes, c.from, n, out, c.at)
}

// Whether the rows belong together and to the file; rows without any point are refused by 2.
fn is_even(contours: usize, ends: &[u16], xs: usize, ys: usize, flags: usize) -> bool
    ensures { result ≡ even contours ends.now xs ys flags }
{
    let last = end_at(ends, less(ends.len(), 1));
    both(
        both(xs == ys, xs == flags),
        both(either(xs == last, xs == 0), ends.len() == contours),
    )
}

// What the file is refused for, else 1 where the rows do not belong together, and 2 where a contour has no
// point.
fn refuse(
    refusal: Option<Refusal>,
    contours: usize,
    ends: &[u16],
    xs: usize,
    ys: usize,
    flags: usize,
) -> Option<Refusal>
    ensures { result ≡ rows_refused refusal contours ends.now xs ys flags }
{
    let even = is_even(contours, ends, xs, ys, flags);
    let empty = either(some_empty(ends), both(xs == 0, 0 < ends.len()));
    let two = pick(empty, Some(Refusal::NoPoint), None);
    let rows = pick(even, two, Some(Refusal::UnevenRows));
    refusal.or(rows)
}

fn answer_as(refusal: Option<Refusal>, size: usize) -> Result<usize, Refusal>
    ensures { result ≡ answer_as refusal size }
{
    match refusal {
        Some(k) => Err(k),
        None => Ok(size),
    }
}

// How many bytes. The file is judged, and measured into a row of one place; where it is refused, none of it is
// copied.
pub fn write_glif(
    bytes: &[u8],
    ends: &[u16],
    xs: &[i16],
    ys: &[i16],
    flags: &[u8],
    out: &mut [u8],
) -> Result<usize, Refusal>
    ensures { Promise bytes.now (rows_given ends xs ys flags) (lent out) result }
{
    let mut none = [[0; 3]; 1];
    let f = judge(bytes, &mut none);
    let k = refuse(f.refusal, f.contours, ends, xs.len(), ys.len(), flags.len());
    let mut nothing = [0; 1];
    let n = pick(k.is_some(), 0, bytes.len());
    let size = write_all(bytes, n, ends, xs, ys, flags, &mut nothing);
    let short = pick(out.len() < size, Some(Refusal::OutputTooShort), None);
    let refusal = k.or(short);
    let m = pick(refusal.is_some(), 0, bytes.len());
    write_all(bytes, m, ends, xs, ys, flags, out);
    answer_as(refusal, size)
}
