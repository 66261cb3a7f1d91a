// The lookups of module 5, the Rust's `Thetas::xy` and `Thetas::dir`: a place and a direction in a row of samples [x, y, direction x, y],
// each looked up by itself.
#![tactic(auto)]

ghost use Rattle.std.specs.Prelude.{◌≡◌, ◌<◌};
ghost use Rattle.lookup.specs.Lookup.{point_from, looked_up, xy_at, dir_at, Falls};

use geometry::Point;

// The numbers k and k + 1 of a sample.
fn pair(p: [f64; 4], k: usize) -> Point
    requires { k < 3 }
    ensures { result ≡ point_from k p }
{
    Point {
        x: p[k],
        y: p[k + 1],
    }
}

// The numbers k and k + 1 at the length s: (0, 0) at or past the row's length. None at the last stored place: refusal 8.
fn look_up(row: &[[f64; 4]], s: f64, k: usize) -> Option<Point>
    requires { k < 3 }
    ensures { result ≡ looked_up k row.now s }
{
    let b = float::to_index(s);
    if row.len() <= b {
        return Some(Point { x: 0.0, y: 0.0 });
    }
    if row.len() - b <= 1 {
        return None;
    }
    let p = pair(row[b], k);
    let q = pair(row[b + 1], k);
    Some(p.lerp(q, float::fract(s)))
}

pub fn xy(row: &[[f64; 4]], s: f64) -> Option<Point>
    ensures { result ≡ xy_at row.now s }
{
    look_up(row, s, 0)
}

pub fn dir(row: &[[f64; 4]], s: f64) -> Option<Point>
    ensures { result ≡ dir_at row.now s }
{
    look_up(row, s, 2)
}

// How many of these two fall off the row.
pub fn fallen(row: &[[f64; 4]], s: f64) -> usize
    ensures { Falls row.now s result }
{
    if row.len() <= float::to_index(s) {
        2
    } else {
        0
    }
}
