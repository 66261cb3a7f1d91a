// Module 3: the corners among the segments of a contour. Each contract equates the result with a definition of specs/, and asks nothing.
#![tactic(auto)]

ghost use Rattle.std.specs.Prelude.{◌≡◌, ◌-◌, length};
ghost use Rattle.outline.specs.Segments.{count_of, seg_at, arriving_of};
ghost use Rattle.corners.specs.Corners.{turns_x, turns_y, turns, kept_of, after_turn, zero_tangent, angle_corner, tangent_corner};
ghost use Rattle.corners.specs.Corners.{none, mark_if, marked, state_at, turn_at, tangent_at, corners_of};

use geometry::Point;

// A sign turn in x: the step compared with, and this one.
pub fn turns_x(s: Point, c: Point) -> bool
    ensures { result ≡ turns_x s c }
{
    s.x * c.x < 0.0
}

pub fn turns_y(s: Point, c: Point) -> bool
    ensures { result ≡ turns_y s c }
{
    s.y * c.y < 0.0
}

pub fn turns(s: Point, c: Point) -> bool
    ensures { result ≡ turns s c }
{
    turns_x(s, c) || turns_y(s, c)
}

fn kept(old: f64, new: f64) -> f64
    ensures { result ≡ kept_of old new }
{
    if float::is_close(old, 0.0) { new } else { old }
}

// What the next step is compared with.
pub fn after_turn(turned: bool, s: Point, c: Point) -> Point
    ensures { result ≡ after_turn turned s c }
{
    if turned {
        return c;
    }
    Point {
        x: kept(s.x, c.x),
        y: kept(s.y, c.y),
    }
}

pub fn is_zero(d: Point) -> bool
    ensures { result ≡ zero_tangent d }
{
    float::is_close(d.x, 0.0) && float::is_close(d.y, 0.0)
}

// A corner by angle: a half turn is none. The square of 0.02 lies between 1 / 4096 and 1 / 2048, and only
// what the squares leave open takes roots.
pub fn is_angle(d0: Point, d1: Point) -> bool
    ensures { result ≡ angle_corner d0 d1 }
{
    let bend = d1.x * d0.y - d0.x * d1.y;
    let both = d0.square_norm() * d1.square_norm();
    if 0.5 < both && both < 1e20 {
        if 0.00048828125 * both < bend * bend {
            return true;
        }
        if bend * bend < 0.000244140625 * both {
            return false;
        }
    }
    float::abs(bend / (d0.norm() * d1.norm())) > 0.02
}

// Whether the tangents before and after make a corner.
fn bends(d0: Point, d1: Point) -> bool
    ensures { result ≡ tangent_corner d0 d1 }
{
    is_zero(d0) || is_zero(d1) || is_angle(d0, d1)
}

fn mark_if(test: bool, marks: &mut [bool], k: usize)
    ensures { marks.new ≡ mark_if test marks.old k }
{
    if test && k < marks.len() {
        marks[k] = true;
    }
}

// One round of the signs, from a state to the state after it.
fn sign_round(
    xs: &[i16],
    ys: &[i16],
    flags: &[u8],
    m: usize,
    from: Point,
    marks: &mut [bool],
) -> Point
    ensures marks { marks.new ≡ marked (turn_at xs.now ys.now flags.now from) m marks.old }
    ensures state { result ≡ state_at xs.now ys.now flags.now from m }
{
    let mut s = from;
    let mut a = 0;
    for k in 0..m {
        let c = outline::read_from(xs, ys, flags, a).chord();
        let turned = turns(s, c);
        mark_if(turned, marks, k);
        s = after_turn(turned, s, c);
        a = outline::end_of(flags, a);
    }
    s
}

fn last_of(m: usize) -> usize
    ensures { result ≡ m - 1 }
{
    m.saturating_sub(1)
}

// The tangent at the end of the last of m segments, which the first one follows.
fn last_arriving(xs: &[i16], ys: &[i16], flags: &[u8], m: usize) -> Point
    ensures { result ≡ arriving_of (seg_at xs.now ys.now flags.now (m - 1)) }
{
    let last = outline::start_of(flags, last_of(m));
    outline::read_from(xs, ys, flags, last).arriving()
}

fn tangent_round(xs: &[i16], ys: &[i16], flags: &[u8], m: usize, marks: &mut [bool])
    ensures { marks.new ≡ marked (tangent_at xs.now ys.now flags.now m) m marks.old }
{
    let mut before = last_arriving(xs, ys, flags, m);
    let mut a = 0;
    for k in 0..m {
        let s = outline::read_from(xs, ys, flags, a);
        mark_if(bends(before, s.leaving()), marks, k);
        before = s.arriving();
        a = outline::end_of(flags, a);
    }
}

// Marks the corners among the segments, and nothing else; says how many segments there are. An index past
// the row has no mark.
pub fn segment_sp(xs: &[i16], ys: &[i16], flags: &[u8], marks: &mut [bool]) -> usize
    ensures marks { marks.new ≡ corners_of xs.now ys.now flags.now (length marks.old) }
    ensures count { result ≡ count_of flags.now }
{
    marks.fill(false);
    let m = outline::count(flags);
    let s = sign_round(xs, ys, flags, m, Point { x: 0.0, y: 0.0 }, marks);
    sign_round(xs, ys, flags, m, s, marks);
    tangent_round(xs, ys, flags, m, marks);
    m
}
