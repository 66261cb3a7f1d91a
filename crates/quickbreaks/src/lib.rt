// Module 7, fast: the breaks of a run. Distances to the grid are held by their squares, and a root is taken only where two squares are
// close. Each contract equates the result, and what is left in the row, with a definition of breaks/specs/Breaks.antt.
#![tactic(auto)]

ghost use Rattle.std.specs.Prelude.{◌≡◌, true, ◌≤◌, length, take};
ghost use Rattle.std.specs.Float.Ieee.{lt};
ghost use Rattle.float.specs.Float.{root_of};
ghost use Rattle.breaks.specs.Breaks.{placed_by, place_at, join_of, joined_by, breaks_of, count_joined, breaks_in, count_found};
ghost use Rattle.quickbreaks.specs.Squares.{root_none};

use breaks::{Distances, Grid, Placed, Progress, Stopped};
use geometry::Break;

// Distances held by their squares.
pub struct Squares;

// The place at the length s, with the square of its distance.
fn place(samples: &[[f64; 4]], g: Grid, s: f64) -> Result<Placed, Stopped>
    ensures { placed_by root_of result ≡ place_at samples.now g s }
{
    if samples.len() <= float::to_index(s) {
        return Err(Stopped::Past);
    }
    let spot = quicklookup::lookup(samples, s).ok_or(Stopped::Missing)?;
    let o = spot.xy;
    let dir = spot.dir;
    let xy = g.point(o);
    Ok(Placed {
        place: Break { s, xy, dir },
        dist: xy.square_distance(o),
    })
}

// True only if the root of a is the less. A square that is less by a thousandth has the lesser root; a
// NaN has none, nor has a number below 0.
fn surely_less(a: f64, b: f64) -> bool
    ensures { result ≡ true → lt (root_of a) (root_of b) ≡ true }
{
    if 0.0 <= a {
        if a < b {
            return a * 1.0009765625 < b;
        }
    }
    false
}

// Whether the root of a is less than that of b. The roots are taken only where the squares are close.
fn nearer(a: f64, b: f64) -> bool
    ensures { result ≡ lt (root_of a) (root_of b) }
{
    if surely_less(a, b) {
        return true;
    }
    if surely_less(b, a) {
        return false;
    }
    quickroot::root(a) < quickroot::root(b)
}

// The breaks so far, with a break that the next place would be.
fn join(row: &mut [[f64; 6]], p: Progress, b: Break, square: f64) -> Result<Progress, Stopped>
    requires { p.count ≤ length row.old }
    ensures row { join_of (length row.old) (take p.count row.old) (root_of p.opened) b (root_of square) ≡ joined_by root_of row.new result }
    ensures count { count_joined result ≤ length row.old }
{
    let n = p.count;
    if breaks::opens(row, n, b.xy) {
        return breaks::push(row, n, b, square);
    }
    if nearer(square, p.opened) {
        row[n - 1] = breaks::packed(b);
        return Ok(p);
    }
    Ok(p)
}

// The breaks of a run of this length: how many there are.
pub fn find_breaks(
    samples: &[[f64; 4]],
    len: f64,
    g: Grid,
    row: &mut [[f64; 6]],
) -> Result<usize, Stopped>
    ensures row { breaks_of (length row.old) samples.now g len ≡ breaks_in row.new result }
    ensures count { count_found result ≤ length row.old }
{
    let n = breaks::places(len);
    let mut p = Progress {
        count: 0,
        opened: 0.0,
    };
    for i in 0..=n {
        let next = place(samples, g, len * (i as f64) / (n as f64))?;
        p = join(row, p, next.place, next.dist)?;
    }
    Ok(p.count)
}

impl Distances for Squares {
    ghost distance = { root_of };

    ghost none = { root_none };

    fn place(samples: &[[f64; 4]], g: Grid, s: f64) -> Result<Placed, Stopped> {
        place(samples, g, s)
    }

    fn is_less(a: f64, b: f64) -> bool {
        nearer(a, b)
    }
}
