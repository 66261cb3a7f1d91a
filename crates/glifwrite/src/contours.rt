// The points of a contour, and what is asked of the rows.
ghost use Rattle.std.specs.Prelude.{◌≡◌, ◌-◌};
ghost use Rattle.glifwrite.specs.Puts.{put};
ghost use Rattle.glifwrite.specs.Contours.{is_on, end_at, start_of, put_place, put_to, some_empty};

use crate::put::put_point;
use gliftext::{at, either, less, pick, plus};

fn is_on(flags: &[u8], i: usize) -> bool
    ensures { result ≡ is_on flags.now i }
{
    if i < flags.len() {
        flags[i] % 2 == 1
    } else {
        false
    }
}

// The place after contour k's last point.
pub fn end_at(ends: &[u16], k: usize) -> usize
    ensures { result ≡ end_at ends.now k }
{
    if k < ends.len() {
        plus(usize::from(ends[k]), 1)
    } else {
        0
    }
}

// The place of contour k's first point.
pub fn start_of(ends: &[u16], k: usize) -> usize
    ensures { result ≡ start_of ends.now k }
{
    pick(k == 0, 0, end_at(ends, less(k, 1)))
}

// Place i of a contour from one place to another; before its first point stands its last.
fn put_place(
    xs: &[i16],
    ys: &[i16],
    flags: &[u8],
    from: usize,
    to: usize,
    i: usize,
    out: &mut [u8],
    at: usize,
) -> usize
    ensures { put result out.new
        ≡ put_place xs.now ys.now flags.now from to i (put at out.old) }
{
    let last = pick(i == from, less(to, 1), less(i, 1));
    let before = is_on(flags, last);
    put_point(
        gliftext::at(xs, i, 0),
        gliftext::at(ys, i, 0),
        is_on(flags, i),
        before,
        out,
        at,
    )
}

pub fn put_contour(
    xs: &[i16],
    ys: &[i16],
    flags: &[u8],
    from: usize,
    to: usize,
    out: &mut [u8],
    at: usize,
) -> usize
    ensures { put result out.new
        ≡ put_to xs.now ys.now flags.now from to (to - from) (put at out.old) }
{
    let mut a = at;
    for k in 0..less(to, from) {
        a = put_place(xs, ys, flags, from, to, plus(from, k), out, a);
    }
    a
}

// Whether a contour has no point: its end is not above the one before it.
pub fn some_empty(ends: &[u16]) -> bool
    ensures { result ≡ some_empty ends.now }
{
    let mut found = false;
    for k in 0..ends.len() {
        found = either(found, end_at(ends, k) <= start_of(ends, k));
    }
    found
}
