// Module 3: the segments of a contour. A contour is three rows: x, y, and flags whose bit 0 means on-curve. Each contract equates the
// result with a definition of specs/, and asks nothing.
#![tactic(auto)]

ghost use Rattle.std.specs.Prelude.{◌≡◌};
ghost use Rattle.outline.specs.Segments.{coordinate, on_at, count_of, next_of, end_of, place_after, start_of, line_from, quad_from, seg_from};
ghost use Rattle.outline.specs.Segments.{is_quad_of, chord_of, leaving_of, arriving_of};

use geometry::Point;

#[derive(Clone, Copy, Debug, PartialEq)]
pub enum Seg {
    Line(f64, f64, f64, f64),
    Quad(f64, f64, f64, f64, f64, f64),
}

// A coordinate as a float, 0 past the end.
fn coordinate(row: &[i16], i: usize) -> f64
    ensures { result ≡ coordinate row.now i }
{
    if i < row.len() { row[i] as f64 } else { 0.0 }
}

fn on_at(flags: &[u8], i: usize) -> bool
    ensures { result ≡ on_at flags.now i }
{
    i < flags.len() && refusals::is_on(flags[i])
}

// How many segments: each on-curve point starts one.
pub fn count(flags: &[u8]) -> usize
    ensures { result ≡ count_of flags.now }
{
    flags.iter().filter(|flag| refusals::is_on(**flag)).count()
}

// The next of n places, going round.
fn next(i: usize, n: usize) -> usize
    ensures { result ≡ next_of i n }
{
    if n == 0 {
        return 0;
    }
    if i < n - 1 { i + 1 } else { 0 }
}

// Where the segment that starts at place a ends.
pub fn end_of(flags: &[u8], a: usize) -> usize
    ensures { result ≡ end_of flags.now a }
{
    let n = flags.len();
    let b = next(a, n);
    if on_at(flags, b) { b } else { next(b, n) }
}

// Where the k segments from place a on end.
pub fn place_after(flags: &[u8], a: usize, k: usize) -> usize
    ensures { result ≡ place_after flags.now a k }
{
    let mut place = a;
    for _i in 0..k {
        place = end_of(flags, place);
    }
    place
}

// Where segment k starts. A walk over many segments carries its place along instead.
pub fn start_of(flags: &[u8], k: usize) -> usize
    ensures { result ≡ start_of flags.now k }
{
    place_after(flags, 0, k)
}

fn line_from(xs: &[i16], ys: &[i16], a: usize, b: usize) -> Seg
    ensures { result ≡ line_from xs.now ys.now a b }
{
    Seg::Line(
        coordinate(xs, a),
        coordinate(ys, a),
        coordinate(xs, b),
        coordinate(ys, b),
    )
}

fn quad_from(xs: &[i16], ys: &[i16], a: usize, b: usize, c: usize) -> Seg
    ensures { result ≡ quad_from xs.now ys.now a b c }
{
    Seg::Quad(
        coordinate(xs, a),
        coordinate(ys, a),
        coordinate(xs, b),
        coordinate(ys, b),
        coordinate(xs, c),
        coordinate(ys, c),
    )
}

// The segment that starts at place a; the next one starts at `end_of(flags, a)`.
pub fn read_from(xs: &[i16], ys: &[i16], flags: &[u8], a: usize) -> Seg
    ensures { result ≡ seg_from xs.now ys.now flags.now a }
{
    let n = flags.len();
    let b = next(a, n);
    if on_at(flags, b) {
        return line_from(xs, ys, a, b);
    }
    quad_from(xs, ys, a, b, next(b, n))
}

impl Seg {
    pub fn is_quad(self) -> bool
        ensures { result ≡ is_quad_of self }
    {
        matches!(self, Seg::Quad(..))
    }

    // The step from start to end.
    pub fn chord(self) -> Point
        ensures { result ≡ chord_of self }
    {
        match self {
            Seg::Line(x0, y0, x1, y1) => Point {
                x: x1 - x0,
                y: y1 - y0,
            },
            Seg::Quad(x0, y0, _, _, x2, y2) => Point {
                x: x2 - x0,
                y: y2 - y0,
            },
        }
    }

    // The tangent at the start.
    pub fn leaving(self) -> Point
        ensures { result ≡ leaving_of self }
    {
        match self {
            Seg::Line(x0, y0, x1, y1) => Point {
                x: x1 - x0,
                y: y1 - y0,
            },
            Seg::Quad(x0, y0, x1, y1, _, _) => Point {
                x: x1 - x0,
                y: y1 - y0,
            },
        }
    }

    // The tangent at the end.
    pub fn arriving(self) -> Point
        ensures { result ≡ arriving_of self }
    {
        match self {
            Seg::Line(x0, y0, x1, y1) => Point {
                x: x1 - x0,
                y: y1 - y0,
            },
            Seg::Quad(_, _, x1, y1, x2, y2) => Point {
                x: x2 - x1,
                y: y2 - y1,
            },
        }
    }
}
