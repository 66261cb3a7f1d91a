// Module 2: points and quads, by value. Each contract equates the result with a definition of
// specs/Geometry.antt, and asks nothing.
#![tactic(auto)]

ghost use Rattle.std.specs.Prelude.{◌≡◌};
ghost use Rattle.geometry.specs.Geometry.{along_of, lerp_of, is_close, square_distance_of, distance_of, square_norm_of, norm_of, unitize_of, round_point_of};
ghost use Rattle.geometry.specs.Geometry.{is_int, is_whole, line_quad, is_line, is_smooth, point_at_t, offset_of, crossed_at, intersect_of};

#[derive(Clone, Copy, Debug, PartialEq)]
pub struct Point {
    pub x: f64,
    pub y: f64,
}

#[derive(Clone, Copy, Debug, PartialEq)]
pub struct Quad {
    pub p0: Point,
    pub p1: Point,
    pub p2: Point,
}

#[derive(Clone, Copy, Debug, PartialEq)]
pub struct Break {
    pub s: f64,
    pub xy: Point,
    pub dir: Point,
}

// One coordinate of lerp.
fn along(a: f64, b: f64, t: f64) -> f64
    ensures { result ≡ along_of a b t }
{
    a + t * (b - a)
}

// Whether f is a whole number, or next to the one below it. Most often it is one, which is soon known.
pub fn is_int(f: f64) -> bool
    ensures { result ≡ is_int f }
{
    let d = f - float::floor(f);
    d == 0.0 || float::is_close(d, 0.0)
}

impl Point {
    pub fn lerp(self, other: Point, t: f64) -> Point
        ensures { result ≡ lerp_of self other t }
    {
        Point {
            x: along(self.x, other.x, t),
            y: along(self.y, other.y, t),
        }
    }

    pub fn is_close(self, other: Point) -> bool
        ensures { result ≡ is_close self other }
    {
        float::is_close(self.x, other.x) && float::is_close(self.y, other.y)
    }

    pub fn square_distance(self, other: Point) -> f64
        ensures { result ≡ square_distance_of self other }
    {
        let dx = self.x - other.x;
        let dy = self.y - other.y;
        dx * dx + dy * dy
    }

    pub fn distance(self, other: Point) -> f64
        ensures { result ≡ distance_of self other }
    {
        float::root(self.square_distance(other))
    }

    // The square of the Euclidean length.
    pub fn square_norm(self) -> f64
        ensures { result ≡ square_norm_of self }
    {
        self.x * self.x + self.y * self.y
    }

    // The Euclidean length.
    pub fn norm(self) -> f64
        ensures { result ≡ norm_of self }
    {
        float::root(self.square_norm())
    }

    pub fn unitize(self) -> Point
        ensures { result ≡ unitize_of self }
    {
        let scale = 1.0 / self.norm();
        Point {
            x: self.x * scale,
            y: self.y * scale,
        }
    }

    pub fn round(self) -> Point
        ensures { result ≡ round_point_of self }
    {
        Point {
            x: float::round(self.x),
            y: float::round(self.y),
        }
    }

    // Whole units in both coordinates.
    pub fn is_whole(self) -> bool
        ensures { result ≡ is_whole self }
    {
        is_int(self.x) && is_int(self.y)
    }
}

impl Quad {
    // The straight piece.
    pub fn line(p0: Point, p2: Point) -> Quad
        ensures { result ≡ line_quad p0 p2 }
    {
        let p1 = p0.lerp(p2, 0.5);
        Quad { p0, p1, p2 }
    }

    pub fn is_line(self) -> bool
        ensures { result ≡ is_line self }
    {
        let a = self.p0;
        let b = self.p1;
        let c = self.p2;
        b.is_close(a.lerp(c, 0.5))
    }

    // Whether this quad goes over into the next without a bend at their join.
    pub fn is_smooth(self, next: Quad) -> bool
        ensures { result ≡ is_smooth self next }
    {
        let before = self.p1;
        let after = next.p1;
        let join = next.p0;
        before.lerp(after, 0.5).is_close(join)
    }

    pub fn point_at_t(self, t: f64) -> Point
        ensures { result ≡ point_at_t self t }
    {
        let a = self.p0;
        let b = self.p1;
        let c = self.p2;
        let p01 = a.lerp(b, t);
        let p12 = b.lerp(c, t);
        p01.lerp(p12, t)
    }
}

// How far the line through p along d lies from the origin, times d's length.
fn offset(p: Point, d: Point) -> f64
    ensures { result ≡ offset_of p d }
{
    p.y * d.x - p.x * d.y
}

fn crossed_at(det: f64, a: f64, b: f64, d0: Point, d1: Point) -> Point
    ensures { result ≡ crossed_at det a b d0 d1 }
{
    Point {
        x: (a * d1.x - b * d0.x) / det,
        y: (a * d1.y - b * d0.y) / det,
    }
}

// The crossing of the line through p0 along d0 and the line through p1 along d1, or none.
pub fn intersect(p0: Point, d0: Point, p1: Point, d1: Point) -> Option<Point>
    ensures { result ≡ intersect_of p0 d0 p1 d1 }
{
    let det = d0.x * d1.y - d0.y * d1.x;
    if float::abs(det) < 0.0000000000000002220446049250313 {
        return None;
    }
    Some(crossed_at(det, offset(p0, d0), offset(p1, d1), d0, d1))
}
