// The lookups of module 5, fast: a place and a direction in a row of samples [x, y, direction x, y], both at once.
#![tactic(auto)]

ghost use Rattle.std.specs.Prelude.{◌≡◌, ◌^◌, ◌<◌};
ghost use Rattle.std.specs.Float.Ieee.{to_unsigned};
ghost use Rattle.float.specs.Float.{fract_of};
ghost use Rattle.lookup.specs.Lookup.{point_from};
ghost use Rattle.quicklookup.specs.Spots.{spot_between, spot_at};

use geometry::Point;

// What the samples have at a length: the place and the direction.
#[derive(Clone, Copy)]
pub struct Spot {
    pub xy: Point,
    pub dir: Point,
}

// The place of a sample.
fn place(p: [f64; 4]) -> Point
    ensures { result ≡ point_from 0 p }
{
    Point { x: p[0], y: p[1] }
}

// The direction of a sample.
fn direction(p: [f64; 4]) -> Point
    ensures { result ≡ point_from 2 p }
{
    Point { x: p[2], y: p[3] }
}

// Between two samples: u of the way from p to q.
fn between(p: [f64; 4], q: [f64; 4], u: f64) -> Spot
    ensures { result ≡ spot_between p q u }
{
    Spot {
        xy: place(p).lerp(place(q), u),
        dir: direction(p).lerp(direction(q), u),
    }
}

// The fraction of s, whose place b is known: above 0 one subtraction.
fn part(s: f64, b: usize) -> f64
    requires { b ≡ to_unsigned 64 s }
    ensures { result ≡ fract_of s }
{
    if s > 0.0 {
        if b < 0x20_0000_0000_0000 {
            return s - (b as f64);
        }
    }
    float::fract(s)
}

// Place and direction at the length s. None at the last stored place: refusal 8.
pub fn lookup(row: &[[f64; 4]], s: f64) -> Option<Spot>
    ensures { result ≡ spot_at row.now s }
{
    let b = float::to_index(s);
    if row.len() <= b {
        return Some(Spot {
            xy: Point { x: 0.0, y: 0.0 },
            dir: Point { x: 0.0, y: 0.0 },
        });
    }
    if row.len() - b <= 1 {
        return None;
    }
    Some(between(row[b], row[b + 1], part(s, b)))
}

// The place of s, most often: 2^52 and s less half a unit is rounded to 2^52 and s cut, whose last digits
// are the place. Its contract needs no more, since the guess is tested.
fn likely(s: f64) -> usize
    ensures { result < 2 ^ 32 }
{
    let half_below = 4503599627370495.5;
    let z = s + half_below;
    if z > half_below {
        return (f64::to_bits(z) & 0xffff_ffff) as usize;
    }
    0
}

// The same, quick for what is most often asked for, an s with a fraction between two stored places. It is
// a function of its own, so that the one loop that asks so often has it in place.
pub fn quick_lookup(row: &[[f64; 4]], s: f64) -> Option<Spot>
    ensures { result ≡ spot_at row.now s }
{
    let b = likely(s);
    let f = b as f64;
    if f < s {
        if s < ((b + 1) as f64) {
            if b + 1 < row.len() {
                return Some(between(row[b], row[b + 1], s - f));
            }
        }
    }
    lookup(row, s)
}
