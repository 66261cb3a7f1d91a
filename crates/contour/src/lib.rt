// Module 9: the points of a contour, written to a row of [x, y, flag]; then reversed, with implied points
// dropped. Each contract equates what is left in the row with a definition of specs/.
#![tactic(auto)]

ghost use Rattle.std.specs.Prelude.{◌≡◌, false, [], ◌∷◌, ◌++◌, reverse, ◌-◌, ◌<◌, ◌≤◌, pos, ◌+ℤ◌, length, take, drop, get_or};
ghost use Rattle.outline.specs.Segments.{previous};
ghost use Rattle.contour.specs.Points.{on_point, off_point, point_as, start_point, points_of, piece_points, unchanged_points, came_to, unchanged_in};
ghost use Rattle.contour.specs.Writing.{written, Wrote, Appended, Closed, Holds};
ghost use Rattle.contour.specs.Implied.{cut_of, middle_of, off_curve, halfway, midway_by, is_implied, implied_at, removed, first_place, drop_implied, finished};
ghost use Rattle.contour.specs.Output.{column, flag_of, flags, front, outputs, with_points};

use geometry::{Point, Quad};
use outline::Seg;

// So many points are written; over: there were more than the row takes. Once over, it stays over.
#[derive(Clone, Copy, Debug, PartialEq, Eq)]
pub struct Written {
    pub count: usize,
    pub over: bool,
}

// ---- writing

fn on_curve(p: Point) -> [i16; 3]
    ensures { result ≡ on_point p }
{
    [float::to_i16(p.x), float::to_i16(p.y), 1]
}

fn off_curve(p: Point) -> [i16; 3]
    ensures { result ≡ off_point p }
{
    [float::to_i16(p.x), float::to_i16(p.y), 0]
}

// One point more.
pub fn push(points: &mut [[i16; 3]], w: Written, p: [i16; 3]) -> Written
    ensures { Appended points.old w points.new result (p ∷ []) }
{
    let at = w.count;
    if at < points.len() {
        points[at] = p;
        return Written {
            count: at + 1,
            over: w.over,
        };
    }
    Written {
        count: points.len(),
        over: true,
    }
}

// A segment's points after its start.
pub fn push_seg(points: &mut [[i16; 3]], w: Written, s: Seg) -> Written
    ensures { Appended points.old w points.new result (points_of s) }
{
    match s {
        Seg::Line(_, _, x1, y1) => push(points, w, on_curve(Point { x: x1, y: y1 })),
        Seg::Quad(_, _, x1, y1, x2, y2) => {
            let v = push(points, w, off_curve(Point { x: x1, y: y1 }));
            push(points, v, on_curve(Point { x: x2, y: y2 }))
        }
    }
}

// A piece's points after its start.
pub fn push_piece(points: &mut [[i16; 3]], w: Written, q: Quad) -> Written
    ensures { Appended points.old w points.new result (piece_points q) }
{
    if q.is_line() {
        return push(points, w, on_curve(q.p2));
    }
    let v = push(points, w, off_curve(q.p1));
    push(points, v, on_curve(q.p2))
}

// A contour's coordinate at a place, 0 where it has no such point.
fn coordinate(row: &[i16], i: usize) -> i16
    ensures { result ≡ get_or row.now i (pos 0) }
{
    row.get(i).copied().unwrap_or(0)
}

// The point at a place, on-curve or off.
pub fn point_as(on: bool, xs: &[i16], ys: &[i16], i: usize) -> [i16; 3]
    ensures { result ≡ point_as on xs.now ys.now i }
{
    [coordinate(xs, i), coordinate(ys, i), if on { 1 } else { 0 }]
}

// No point yet.
pub fn nothing() -> Written
    ensures { result ≡ record { count = 0; over = false } }
{
    Written {
        count: 0,
        over: false,
    }
}

// The start point alone.
pub fn start(xs: &[i16], ys: &[i16], points: &mut [[i16; 3]]) -> Written
    ensures { Wrote points.new result (written (length points.old) (start_point xs.now ys.now ∷ [])) }
{
    push(points, nothing(), point_as(true, xs, ys, 0))
}

// The contour as it came: its start, and each segment's points. The closing segment is one of its own, so the
// start comes again at the end.
pub fn unchanged(xs: &[i16], ys: &[i16], flags: &[u8], points: &mut [[i16; 3]]) -> Written
    ensures { Wrote points.new result
        (written (length points.old) (unchanged_points xs.now ys.now flags.now)) }
{
    let m = outline::count(flags);
    let mut w = start(xs, ys, points);
    let mut a = 0;
    for _k in 0..m {
        w = push_seg(points, w, outline::read_from(xs, ys, flags, a));
        a = outline::end_of(flags, a);
    }
    w
}

// In closed mode: the points in their order, the start not again.
fn unchanged_closed(xs: &[i16], ys: &[i16], flags: &[u8], points: &mut [[i16; 3]]) -> Written
    ensures { Wrote points.new result
        (written (length points.old) (came_to xs.now ys.now flags.now (length flags.now))) }
{
    let mut w = nothing();
    for (i, flag) in flags.iter().enumerate() {
        w = push(points, w, point_as(refusals::is_on(*flag), xs, ys, i));
    }
    w
}

// The contour itself, by the mode.
pub fn unchanged_in(
    xs: &[i16],
    ys: &[i16],
    flags: &[u8],
    closed: bool,
    points: &mut [[i16; 3]],
) -> Written
    ensures { Wrote points.new result
        (written (length points.old) (unchanged_in xs.now ys.now flags.now closed)) }
{
    if closed {
        return unchanged_closed(xs, ys, flags, points);
    }
    unchanged(xs, ys, flags, points)
}

// ---- going round

// The point s before the first n, whose last goes.
fn put_first(points: &mut [[i16; 3]], n: usize, s: [i16; 3])
    requires { n ≤ length points.old }
    ensures { points.new ≡ take n (s ∷ points.old) ++ drop n points.old }
{
    let mut carried = s;
    for i in 0..n {
        let p = points[i];
        points[i] = carried;
        carried = p;
    }
}

// The start first, and the last piece's end, for which it stands, not again.
pub fn close(points: &mut [[i16; 3]], w: Written, s: [i16; 3]) -> Written
    ensures { Closed points.old w points.new result s }
{
    if w.over {
        return w;
    }
    if w.count == 0 {
        return push(points, w, s);
    }
    if w.count <= points.len() {
        put_first(points, w.count, s);
    }
    w
}

// ---- reversal

// Reverses the first n points.
pub fn reverse(points: &mut [[i16; 3]], n: usize)
    requires { n ≤ length points.old }
    ensures { points.new ≡ reverse (take n points.old) ++ drop n points.old }
{
    points[..n].reverse();
}

// ---- implied points

// The sum cut to 16 bits.
pub fn wrapping_add_i16(a: i16, b: i16) -> i16
    ensures { result ≡ cut_of (a +ℤ b) }
{
    let s = (a as i32) + (b as i32);
    if 32767 < s {
        return (s - 65536) as i16;
    }
    if s < -32768 {
        return (s + 65536) as i16;
    }
    s as i16
}

// The cut sum, halved toward zero.
pub fn middle(a: i16, b: i16) -> i16
    ensures { result ≡ middle_of a b }
{
    wrapping_add_i16(a, b) / 2
}

fn is_off(p: [i16; 3]) -> bool
    ensures { result ≡ off_curve p }
{
    p[2] == 0
}

// Whether twice this coordinate is the full sum of its neighbours': 32 bits hold both.
fn is_halfway(prev: i16, this: i16, next: i16) -> bool
    ensures { result ≡ halfway prev this next }
{
    (this as i32) + (this as i32) == (prev as i32) + (next as i32)
}

// Whether this coordinate is the middle of its neighbours', by the mode: OpenType's in closed mode, else by the cut sum.
fn is_midway(prev: i16, this: i16, next: i16, closed: bool) -> bool
    ensures { result ≡ midway_by closed prev this next }
{
    if closed {
        return is_halfway(prev, this, next);
    }
    this == middle(prev, next)
}

// Whether a point is implied: on-curve between two off-curve ones, and midway in each coordinate.
#[tactic(auto, unfolding(crate::specs::Implied::is_implied))]
pub fn is_implied(prev: [i16; 3], this: [i16; 3], next: [i16; 3], closed: bool) -> bool
    ensures { result ≡ is_implied closed prev this next }
{
    !is_off(this)
        && is_off(prev)
        && is_off(next)
        && is_midway(prev[0], this[0], next[0], closed)
        && is_midway(prev[1], this[1], next[1], closed)
}

// The place before i, of n, going round.
fn before(i: usize, n: usize) -> usize
    requires { 0 < n }
    ensures { result ≡ previous n i }
{
    if i == 0 { n - 1 } else { i - 1 }
}

// Whether the point at place i of the first n is implied.
fn implied_at(points: &[[i16; 3]], i: usize, n: usize, closed: bool) -> bool
    requires { (i < n) × (n ≤ length points.now) }
    ensures { result ≡ implied_at (is_implied closed) (take n points.now) i }
{
    let prev = before(i, n);
    let next = (i + 1) % n;
    is_implied(points[prev], points[i], points[next], closed)
}

// Takes the point at place at out of the first n; those after it move up.
fn remove(points: &mut [[i16; 3]], at: usize, n: usize)
    requires { (at < n) × (n ≤ length points.old) }
    ensures { Holds points.new (n - 1) (removed (take n points.old) at) }
{
    for i in at + 1..n {
        points[i - 1] = points[i];
    }
}

// Where implied points are looked for first: in closed mode the point at place 0 stays.
fn first_place(closed: bool) -> usize
    ensures { result ≡ first_place closed }
{
    if closed { 1 } else { 0 }
}

// Drops the implied points of the first n, by the mode, and says how many are left.
pub fn drop_implied(points: &mut [[i16; 3]], n: usize, closed: bool) -> usize
    requires { n ≤ length points.old }
    ensures { Holds points.new result (drop_implied closed (take n points.old)) }
{
    let mut left = n;
    let mut i = first_place(closed);
    while i < left {
        if implied_at(points, i, left, closed) {
            remove(points, i, left);
            left -= 1;
        } else {
            i += 1;
        }
    }
    left
}

// The written points, reversed in the crate's mode, without those that are implied: how many are left.
pub fn finish(points: &mut [[i16; 3]], w: Written, closed: bool) -> usize
    requires { w.count ≤ length points.old }
    ensures { Holds points.new result (finished closed (take w.count points.old)) }
{
    if !closed {
        reverse(points, w.count);
    }
    drop_implied(points, w.count, closed)
}

// ---- output

fn flag(p: [i16; 3]) -> u8
    ensures { result ≡ flag_of p }
{
    if is_off(p) { 0 } else { 1 }
}

// Number k of each of the first n points, to the first n places of a row.
fn copy_column(points: &[[i16; 3]], n: usize, k: usize, out: &mut [i16])
    requires { (n ≤ length points.now) × (n ≤ length out.old) × (k < 3) }
    ensures { out.new ≡ front (column k (take n points.now)) out.old }
{
    for i in 0..n {
        out[i] = points[i][k];
    }
}

fn copy_flags(points: &[[i16; 3]], n: usize, out: &mut [u8])
    requires { (n ≤ length points.now) × (n ≤ length out.old) }
    ensures { out.new ≡ front (flags (take n points.now)) out.old }
{
    for i in 0..n {
        out[i] = flag(points[i]);
    }
}

// The first n points, to the first n places of the output rows.
pub fn copy_out(points: &[[i16; 3]], n: usize, ox: &mut [i16], oy: &mut [i16], of: &mut [u8])
    requires { (n ≤ length points.now) × (n ≤ length ox.old) × (n ≤ length oy.old) × (n ≤ length of.old) }
    ensures { outputs ox.new oy.new of.new
        ≡ with_points (take n points.now) (outputs ox.old oy.old of.old) }
{
    copy_column(points, n, 0, ox);
    copy_column(points, n, 1, oy);
    copy_flags(points, n, of);
}
