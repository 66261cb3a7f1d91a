// One piece of a chain, by value.
ghost use Rattle.std.specs.Prelude.{◌≡◌, ◌||◌};
ghost use Rattle.chain.specs.Valid.{equals, equal_points, straight, bent, follows_curve, valid_piece};

use geometry::{Break, Point, Quad};

// Equal as f64 values, NaN equal to NaN.
#[tactic(auto, using(crate::proofs::Single::ne_self))]
pub fn equals(a: f64, b: f64) -> bool
    ensures { result ≡ equals a b }
{
    a == b || (a != a && b != b)
}

fn equal_points(p: Point, q: Point) -> bool
    ensures { result ≡ equal_points p q }
{
    equals(p.x, q.x) && equals(p.y, q.y)
}

fn is_straight(a: Break, b: Break, c: Point) -> bool
    ensures { result ≡ straight a b c }
{
    equal_points(c, a.xy.lerp(b.xy, 0.5))
}

fn is_bent(a: Break, b: Break, c: Point) -> bool
    ensures { result ≡ bent a b c }
{
    let Some(p) = geometry::intersect(a.xy, a.dir, b.xy, b.dir) else {
        return false;
    };
    equal_points(c, p.round())
}

pub fn follows_curve(before: Option<Quad>, q: Quad) -> bool
    ensures { result ≡ follows_curve before q }
{
    match before {
        None => false,
        Some(p) => !p.is_line() && p.is_smooth(q),
    }
}

// A piece that starts at a whole-unit break.
fn is_valid_whole(a: Break, b: Break, c: Point) -> bool
    ensures { result ≡ (straight a b c || bent a b c) }
{
    is_straight(a, b, c) || is_bent(a, b, c)
}

#[tactic(auto, using(crate::proofs::Single::from_whole, crate::proofs::Single::from_half))]
pub fn is_valid(before: Option<Quad>, a: Break, b: Break, c: Point) -> bool
    ensures { result ≡ valid_piece before a b c }
{
    if a.xy.is_whole() {
        return is_valid_whole(a, b, c);
    }
    let q = Quad {
        p0: a.xy,
        p1: c,
        p2: b.xy,
    };
    !q.is_line() && follows_curve(before, q) && is_bent(a, b, c)
}
