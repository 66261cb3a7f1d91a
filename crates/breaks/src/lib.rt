// Module 7: the breaks of a run, a row of [s, x, y, dx, dy]. Each contract equates the result, and what
// is left in the row, with a definition of specs/Breaks.antt.
#![tactic(auto)]

ghost use Rattle.std.specs.Prelude.{◌≡◌, ◌≤◌, ◌<◌, length, take, refl, Float};
ghost use Rattle.std.specs.Float.Ieee.{lt};
ghost use Rattle.float.specs.Numbers.{nought};
ghost use Rattle.breaks.specs.Breaks.{half_grid, whole_grid, on_grid, grid_point, packed_of, break_at, places_of, place_at, opens, opened};
ghost use Rattle.breaks.specs.Breaks.{placed_by, join_of, breaks_of, joined_by, count_joined, breaks_in, count_found};

use geometry::{Break, Point};

// A coordinate is brought to step * round(per * x).
#[derive(Clone, Copy)]
pub struct Grid {
    pub per: f64,
    pub step: f64,
}

// Why a run has no breaks.
#[derive(Clone, Copy, Debug, PartialEq, Eq)]
pub enum Stopped {
    // more than the row takes: refusal 7
    Full,
    // a sample at the last stored place: refusal 8
    Missing,
    // a length past the samples: the contour is unchanged
    Past,
}

// A place of the run: the break it would be, and its distance to its own unrounded point.
#[derive(Clone, Copy)]
pub struct Placed {
    pub place: Break,
    pub dist: f64,
}

// How many breaks there are, and the distance of the place that first opened the last one.
#[derive(Clone, Copy)]
pub struct Progress {
    pub count: usize,
    pub opened: f64,
}

// How the distances of places are held: as they are, or as what is sooner known and compares alike. It is for callers in other crates, who
// may have a way of their own: `find_breaks` goes the plain way and that of `quickbreaks` goes by squares, and neither asks which.
pub trait Distances {
    // The distance that is held as this number.
    ghost distance: { Float → Float };

    // The place at the length s.
    fn place(samples: &[[f64; 4]], g: Grid, s: f64) -> Result<Placed, Stopped>
        ensures { placed_by distance result ≡ place_at samples.now g s };

    // Whether the first distance is less than the second.
    fn is_less(a: f64, b: f64) -> bool
        ensures { result ≡ lt (distance a) (distance b) };

    ghost none: { distance nought ≡ nought };
}

// Distances as they are.
pub struct Plain;

impl Grid {
    // Half units: 0.5 * round(2 * x).
    pub fn half() -> Grid
        ensures { result ≡ half_grid }
    {
        Grid {
            per: 2.0,
            step: 0.5,
        }
    }

    // Whole units: 1 * round(1 * x), which is round(x).
    pub fn whole() -> Grid
        ensures { result ≡ whole_grid }
    {
        Grid {
            per: 1.0,
            step: 1.0,
        }
    }

    pub fn coordinate(self, x: f64) -> f64
        ensures { result ≡ on_grid self x }
    {
        self.step * float::round(self.per * x)
    }

    pub fn point(self, p: Point) -> Point
        ensures { result ≡ grid_point self p }
    {
        Point {
            x: self.coordinate(p.x),
            y: self.coordinate(p.y),
        }
    }
}

// A break as a row has it.
pub fn packed(b: Break) -> [f64; 6]
    ensures { result ≡ packed_of b }
{
    [b.s, b.xy.x, b.xy.y, b.dir.x, b.dir.y, 0.0]
}

// Break i of a row.
pub fn read(row: &[[f64; 6]], i: usize) -> Break
    requires { i < length row.now }
    ensures { result ≡ break_at row.now i }
{
    let b = row[i];
    Break {
        s: b[0],
        xy: Point { x: b[1], y: b[2] },
        dir: Point { x: b[3], y: b[4] },
    }
}

// round(10 * length), as the Rust's i32.
pub fn places(len: f64) -> usize
    ensures { result ≡ places_of len }
{
    float::to_index(float::round(10.0 * len)).min(0x7fff_ffff)
}

// The place at the length s.
fn place(samples: &[[f64; 4]], g: Grid, s: f64) -> Result<Placed, Stopped>
    ensures { result ≡ place_at samples.now g s }
{
    if samples.len() <= float::to_index(s) {
        return Err(Stopped::Past);
    }
    let o = lookup::xy(samples, s).ok_or(Stopped::Missing)?;
    let dir = lookup::dir(samples, s).ok_or(Stopped::Missing)?;
    let xy = g.point(o);
    Ok(Placed {
        place: Break { s, xy, dir },
        dist: xy.distance(o),
    })
}

// Whether a place opens a break: the first does, and one that is not close to the last of n.
pub fn opens(row: &[[f64; 6]], n: usize, p: Point) -> bool
    requires { n ≤ length row.now }
    ensures { result ≡ opens (take n row.now) p }
{
    if n == 0 {
        return true;
    }
    let b = read(row, n - 1);
    !p.is_close(b.xy)
}

// A break more, where there is room.
pub fn push(row: &mut [[f64; 6]], n: usize, b: Break, dist: f64) -> Result<Progress, Stopped>
    requires { n ≤ length row.old }
    ensures row { (distance : Float → Float) → opened (length row.old) (take n row.old) b (distance dist) ≡ joined_by distance row.new result }
    ensures count { count_joined result ≤ length row.old }
{
    if row.len() <= n {
        return Err(Stopped::Full);
    }
    row[n] = packed(b);
    Ok(Progress {
        count: n + 1,
        opened: dist,
    })
}

// The breaks so far, with a break that the next place would be.
fn join(row: &mut [[f64; 6]], p: Progress, b: Break, dist: f64) -> Result<Progress, Stopped>
    requires { p.count ≤ length row.old }
    ensures row { join_of (length row.old) (take p.count row.old) p.opened b dist ≡ joined_by (λ d. d) row.new result }
    ensures count { count_joined result ≤ length row.old }
{
    let n = p.count;
    if opens(row, n, b.xy) {
        return push(row, n, b, dist);
    }
    if dist < p.opened {
        row[n - 1] = packed(b);
        return Ok(p);
    }
    Ok(p)
}

// The breaks of a run of this length: how many there are.
pub fn find_breaks(
    samples: &[[f64; 4]],
    len: f64,
    g: Grid,
    row: &mut [[f64; 6]],
) -> Result<usize, Stopped>
    ensures row { breaks_of (length row.old) samples.now g len ≡ breaks_in row.new result }
    ensures count { count_found result ≤ length row.old }
{
    let n = places(len);
    let mut p = Progress {
        count: 0,
        opened: 0.0,
    };
    for i in 0..=n {
        let next = place(samples, g, len * (i as f64) / (n as f64))?;
        p = join(row, p, next.place, next.dist)?;
    }
    Ok(p.count)
}

impl Distances for Plain {
    ghost distance = { λ d. d };

    ghost none = { refl };

    fn place(samples: &[[f64; 4]], g: Grid, s: f64) -> Result<Placed, Stopped> {
        place(samples, g, s)
    }

    fn is_less(a: f64, b: f64) -> bool {
        a < b
    }
}
