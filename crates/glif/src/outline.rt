// The points of the contours as they stand in the file, and what is refused of them.
ghost use Rattle.std.specs.Prelude.{◌≡◌};
ghost use Rattle.gliftext.specs.Pick.{pick};
ghost use Rattle.glif.specs.Outline.{is_number, is_far, offset_of, no_sum, begun, ended, cubic_of};
ghost use Rattle.glif.specs.Outline.{wrong_point, with_point, point_met, contour_met, contour_left, summed, mark_of, kept_point};

use crate::tree::{Tree, on_path, opens_tag};
use gliftext::{Action, Kind, Number, Point, both, either, less, more, pick, plus, store};

fn is_number(n: Number) -> bool
    ensures { result ≡ is_number n }
{
    n.state.digit_last()
}

// Outside 16 bits.
fn is_far(n: Number) -> bool
    ensures { result ≡ is_far n }
{
    pick(n.minus, 32768 < n.size, 32767 < n.size)
}

// A coordinate counted from -32768, so that it is never below zero; one outside 16 bits is refused.
fn offset_of(n: Number) -> usize
    ensures { result ≡ offset_of n }
{
    pick(n.minus, less(32768, n.size), plus(32768, n.size))
}

// How many contours, points as they stand, and points as they enter; then of this contour how many points,
// whether one is on-curve, whether the first is off-curve or a line, and whether the last is off-curve; then
// what is refused: 19, 20, 14, 21.
#[derive(Clone, Copy, Debug, PartialEq, Eq)]
pub struct Sum {
    pub contours: usize,
    pub points: usize,
    pub full: usize,
    pub here: usize,
    pub on: bool,
    pub lead: bool,
    pub straight: bool,
    pub off: bool,
    pub wrong: bool,
    pub cubic: bool,
    pub far: bool,
    pub bare: bool,
}

pub fn no_sum() -> Sum
    ensures { result ≡ no_sum }
{
    Sum {
        contours: 0,
        points: 0,
        full: 0,
        here: 0,
        on: false,
        lead: false,
        straight: false,
        off: false,
        wrong: false,
        cubic: false,
        far: false,
        bare: false,
    }
}

fn begin_contour(s: Sum) -> Sum
    ensures { result ≡ begun s }
{
    Sum {
        contours: s.contours,
        points: s.points,
        full: s.full,
        here: 0,
        on: false,
        lead: false,
        straight: false,
        off: false,
        wrong: s.wrong,
        cubic: s.cubic,
        far: s.far,
        bare: s.bare,
    }
}

// Going round, the last point stands before the first.
fn end_contour(s: Sum) -> Sum
    ensures { result ≡ ended s }
{
    let full = pick(both(s.lead, s.off), more(s.full), s.full);
    Sum {
        contours: more(s.contours),
        points: s.points,
        full,
        here: s.here,
        on: s.on,
        lead: s.lead,
        straight: s.straight,
        off: s.off,
        wrong: either(s.wrong, both(s.straight, s.off)),
        cubic: s.cubic,
        far: either(s.far, 65536 < full),
        bare: either(s.bare, !s.on),
    }
}

// A point that is open or cubic, or not whole.
fn is_cubic(p: Point) -> bool
    ensures { result ≡ cubic_of p }
{
    let x = p.x;
    let y = p.y;
    either(
        either(p.kind == Kind::Move, p.kind == Kind::Curve),
        either(x.part, y.part),
    )
}

// Coordinates that are no numbers; an unknown type; a move that is not first; a line after an off-curve point.
fn wrong_point(s: Sum, p: Point) -> bool
    ensures { result ≡ wrong_point s p }
{
    let numbers = both(is_number(p.x), is_number(p.y));
    let later = both(0 < s.here, p.kind == Kind::Move);
    let line = both(both(0 < s.here, s.off), p.kind == Kind::Line);
    either(
        either(!numbers, p.kind == Kind::Unknown),
        either(later, line),
    )
}

fn add_point(s: Sum, p: Point) -> Sum
    ensures { result ≡ with_point s p }
{
    let off = p.kind == Kind::Offcurve;
    let first = s.here == 0;
    Sum {
        contours: s.contours,
        points: more(s.points),
        full: pick(both(off, s.off), more(more(s.full)), more(s.full)),
        here: more(s.here),
        on: either(s.on, !off),
        lead: pick(first, off, s.lead),
        straight: pick(first, p.kind == Kind::Line, s.straight),
        off: off,
        wrong: either(s.wrong, wrong_point(s, p)),
        cubic: either(s.cubic, is_cubic(p)),
        far: either(s.far, either(is_far(p.x), is_far(p.y))),
        bare: s.bare,
    }
}

// A point's tag; the tag of a contour; the end of one.
pub fn point_met(t: Tree, action: Action, word: usize) -> bool
    ensures { result ≡ point_met t action word }
{
    both(opens_tag(action), both(t.level == 3, on_path(t, word)))
}

fn contour_met(t: Tree, action: Action, word: usize) -> bool
    ensures { result ≡ contour_met t action word }
{
    both(opens_tag(action), both(t.level == 2, on_path(t, word)))
}

fn contour_left(t: Tree, action: Action, word: usize) -> bool
    ensures { result ≡ contour_left t action word }
{
    let closes = both(action == Action::Closes, both(t.level == 3, t.depth == 3));
    either(
        closes,
        both(action == Action::Empty, contour_met(t, action, word)),
    )
}

pub fn sum_of(s: Sum, t: Tree, action: Action, word: usize, p: Point) -> Sum
    ensures { result ≡ summed s t action word p }
{
    let a = pick(contour_met(t, action, word), begin_contour(s), s);
    let b = pick(point_met(t, action, word), add_point(a, p), a);
    pick(contour_left(t, action, word), end_contour(b), b)
}

// A place of the scratch row holds x, y, and a number: 1 for on-curve, and 2 more for the first of a contour.
fn mark_of(first: bool, off: bool) -> usize
    ensures { result ≡ mark_of first off }
{
    pick(first, pick(off, 2, 3), pick(off, 0, 1))
}

pub fn keep_point(points: &mut [[usize; 3]], met: bool, s: Sum, p: Point)
    ensures { points.new ≡ kept_point points.old met s p }
{
    let mark = mark_of(s.here == 0, p.kind == Kind::Offcurve);
    let place = pick(met, s.points, 18446744073709551615);
    store(points, place, [offset_of(p.x), offset_of(p.y), mark]);
}
