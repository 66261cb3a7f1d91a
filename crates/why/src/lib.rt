// Why a run stops where it does: which of the tests that make a segment's start a corner hold there. A contour is
// three rows: x, y, and flags whose bit 0 means on-curve. No row is written.
#![tactic(auto)]

ghost use Rattle.std.specs.Prelude.{◌≡◌};
ghost use Rattle.rows.specs.Lent.{contour};
ghost use Rattle.outline.specs.Segments.{seg_at, arriving_of, previous};
ghost use Rattle.corners.specs.Corners.{state_at};
ghost use Rattle.why.specs.Tests.{either, reasons_of};
ghost use Rattle.why.specs.Entry.{Promise};

use geometry::Point;
use refusals::Refusal;

// Which of the five tests hold: a sign turn in x, in y; a zero tangent before, after; an angle.
#[derive(Clone, Copy, Debug, PartialEq, Eq)]
pub struct Marks {
    pub x: bool,
    pub y: bool,
    pub before: bool,
    pub after: bool,
    pub angle: bool,
}

// A function of its own, so that the proof of `reasons` has no branches to join.
fn either(a: bool, b: bool) -> bool
    ensures { result ≡ either a b }
{
    a || b
}

// What step k is compared with, in a round that starts with a state. The place is carried along.
fn state_at(xs: &[i16], ys: &[i16], flags: &[u8], from: Point, k: usize) -> Point
    ensures { result ≡ state_at xs.now ys.now flags.now from k }
{
    let mut s = from;
    let mut a = 0;
    for _i in 0..k {
        let c = outline::read_from(xs, ys, flags, a).chord();
        s = corners::after_turn(corners::turns(s, c), s, c);
        a = outline::end_of(flags, a);
    }
    s
}

// The index before k, of m, going round.
fn previous(m: usize, k: usize) -> usize
    ensures { result ≡ previous m k }
{
    if 0 < k { k - 1 } else { m.saturating_sub(1) }
}

// The tangent at the end of segment k.
fn arriving_at(xs: &[i16], ys: &[i16], flags: &[u8], k: usize) -> Point
    ensures { result ≡ arriving_of (seg_at xs.now ys.now flags.now k) }
{
    outline::read_from(xs, ys, flags, outline::start_of(flags, k)).arriving()
}

// The five tests at index k, of m segments. Both rounds of signs are looked at: the second starts with the state that
// the first ended with.
fn reasons(xs: &[i16], ys: &[i16], flags: &[u8], m: usize, k: usize) -> Marks
    ensures { result ≡ reasons_of xs.now ys.now flags.now m k }
{
    let origin = Point { x: 0.0, y: 0.0 };
    let first = state_at(xs, ys, flags, origin, k);
    let ended = state_at(xs, ys, flags, origin, m);
    let second = state_at(xs, ys, flags, ended, k);
    let here = outline::read_from(xs, ys, flags, outline::start_of(flags, k));
    let c = here.chord();
    let d0 = arriving_at(xs, ys, flags, previous(m, k));
    let d1 = here.leaving();
    Marks {
        x: either(corners::turns_x(first, c), corners::turns_x(second, c)),
        y: either(corners::turns_y(first, c), corners::turns_y(second, c)),
        before: corners::is_zero(d0),
        after: corners::is_zero(d1),
        angle: corners::is_angle(d0, d1),
    }
}

// The entry. Where no reason holds, the index is no corner.
pub fn why(xs: &[i16], ys: &[i16], flags: &[u8], k: usize) -> Result<Marks, Refusal>
    ensures { Promise (contour xs ys flags) k result }
{
    refusals::judge(xs, ys, flags)?;
    let m = outline::count(flags);
    if m <= k {
        return Err(Refusal::NoSuchSegment);
    }
    Ok(reasons(xs, ys, flags, m, k))
}
