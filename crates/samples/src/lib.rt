// Module 5, the Rust's `Thetas::new`: the samples of a run, a row of [x, y, direction x, y] at each whole arc length, by 100 steps a quad.
// Each contract equates what is left in the row with a definition of specs/Samples.antt.
#![tactic(auto)]

ghost use Rattle.std.specs.Prelude.{◌≡◌, ◌≤◌, length, take};
ghost use Rattle.float.specs.Numbers.{nought};
ghost use Rattle.arclen.specs.Arclen.{arclen_functor_of};
ghost use Rattle.geometry.specs.Geometry.{unitize_of};
ghost use Rattle.samples.specs.Samples.{quad_of, quads_of, sample_from, sample_at, step_at, fill_to, sweep_from, length_after};
ghost use Rattle.samples.specs.Samples.{finished, thetas_of, start, walked_in, filled_in, places_filled};
ghost use Rattle.samples.specs.Samples.{swept_in, places_swept, length_swept, run_in, places_sampled};

use arclen::ArclenFunctor;
use geometry::{Point, Quad};
use outline::Seg;

// A step along a quad: the place, the derivative and the length there.
#[derive(Clone, Copy)]
pub struct Step {
    pub xy: Point,
    pub d: Point,
    pub s: f64,
}

// A row after some samples: the places used, and the next whole length.
#[derive(Clone, Copy)]
pub struct Filled {
    pub count: usize,
    pub ix: f64,
}

// Where the walk along a run stands: the places used, the next whole length, the last step, and the
// length so far.
#[derive(Clone, Copy)]
pub struct Walk {
    pub n: usize,
    pub ix: f64,
    pub last: Step,
    pub len: f64,
}

// The samples of a run: the places used, and the length.
#[derive(Clone, Copy)]
pub struct Thetas {
    pub count: usize,
    pub length: f64,
}

// How a direction gets the length 1: as the Rust does, or quicker.
pub trait Unitize {
    fn unitize(p: Point) -> Point
        ensures { result ≡ unitize_of p };
}

// How a quad is sampled: as the Rust does, or quicker. It is for callers in other crates, who may have a way of their own: `sample_run`
// goes the plain way and that of `quicksamples` the quick one, and neither asks which.
pub trait Sampling: Unitize {
    // 100 steps over one quad. None: the row is full.
    fn sweep(row: &mut [[f64; 4]], from: Walk, q: Quad) -> Option<Walk>
        requires { from.n ≤ length row.old }
        ensures row { sweep_from 100 (length row.old) q nought from.len (walked_in row.old from) ≡ swept_in row.new result }
        ensures places { places_swept result ≤ length row.old }
        ensures length { length_swept (length_after q from.len) result ≡ length_after q from.len };
}

// Step by step, as the Rust does.
pub struct Plain;

// A segment as a quad: a line's control is the lerp of its ends at 0.5.
pub fn as_quad(s: Seg) -> Quad
    ensures { result ≡ quad_of s }
{
    match s {
        Seg::Line(x0, y0, x1, y1) => Quad::line(Point { x: x0, y: y0 }, Point { x: x1, y: y1 }),
        Seg::Quad(x0, y0, x1, y1, x2, y2) => {
            let p0 = Point { x: x0, y: y0 };
            let p1 = Point { x: x1, y: y1 };
            let p2 = Point { x: x2, y: y2 };
            Quad { p0, p1, p2 }
        }
    }
}

// A place and a direction, as a row has them.
pub fn packed(p: Point, d: Point) -> [f64; 4]
    ensures { result ≡ sample_from p d }
{
    [p.x, p.y, d.x, d.y]
}

// The sample at the length ix, between the last step and this one.
fn sample(last: Step, this: Step, ix: f64) -> [f64; 4]
    ensures { result ≡ sample_at last this ix }
{
    let u = (ix - last.s) / (this.s - last.s);
    let from = last.xy;
    let turn = last.d;
    packed(from.lerp(this.xy, u), turn.lerp(this.d, u).unitize())
}

// Samples while the next whole length is at most limit. None: the row is full.
pub fn fill(
    row: &mut [[f64; 4]],
    n: usize,
    ix: f64,
    last: Step,
    this: Step,
    limit: f64,
) -> Option<Filled>
    requires { n ≤ length row.old }
    ensures row { fill_to (length row.old) this limit (take n row.old) ix last ≡ filled_in row.new last result }
    ensures places { places_filled result ≤ length row.old }
{
    let mut m = n;
    let mut x = ix;
    while x <= limit {
        if row.len() <= m {
            return None;
        }
        row[m] = sample(last, this, x);
        m += 1;
        x = x + 1.0;
    }
    Some(Filled { count: m, ix: x })
}

// Where the quad is at the time t, with the length y there.
pub fn step_at(q: Quad, f: ArclenFunctor, t: f64, y: f64) -> Step
    requires { f ≡ arclen_functor_of q }
    ensures { result ≡ step_at q t y }
{
    let xy = q.point_at_t(t);
    let d = f.deriv(t);
    Step { xy, d, s: y }
}

// 100 steps over one quad. None: the row is full.
fn sweep(row: &mut [[f64; 4]], from: Walk, q: Quad) -> Option<Walk>
    requires { from.n ≤ length row.old }
    ensures row { sweep_from 100 (length row.old) q nought from.len (walked_in row.old from) ≡ swept_in row.new result }
    ensures places { places_swept result ≤ length row.old }
    ensures length { length_swept (length_after q from.len) result ≡ length_after q from.len }
{
    let f = ArclenFunctor::new(q);
    let h = 1.0 / 100.0;
    let mut n = from.n;
    let mut ix = from.ix;
    let mut last = from.last;
    let mut t = 0.0;
    let mut y = from.len;
    for _ in 0..100usize {
        let this = step_at(q, f, t, y);
        let filled = fill(row, n, ix, last, this, y)?;
        n = filled.count;
        ix = filled.ix;
        last = this;
        y = arclen::rk4(f, h, t, y);
        t = t + h;
    }
    Some(Walk {
        n,
        ix,
        last,
        len: y,
    })
}

// The samples after the last step, up to the length + 2. None: the row is full, refusal 6.
pub fn finish(row: &mut [[f64; 4]], w: Walk, q: Quad) -> Option<Thetas>
    requires { w.n ≤ length row.old }
    ensures row { finished (length row.old) q w.len (walked_in row.old w) ≡ run_in row.new result }
    ensures places { places_sampled result ≤ length row.old }
{
    let f = ArclenFunctor::new(q);
    let xy = q.p2;
    let d = f.deriv(1.0);
    let len = w.len;
    let last = w.last;
    let this = Step { xy, d, s: len };
    let filled = fill(row, w.n, w.ix, last, this, len + 2.0)?;
    Some(Thetas {
        count: filled.count,
        length: len,
    })
}

// Before the first segment.
pub fn begin() -> Walk
    ensures { result ≡ start }
{
    let here = Point { x: 0.0, y: 0.0 };
    Walk {
        n: 0,
        ix: 0.0,
        last: Step {
            xy: here,
            d: here,
            s: -1.0,
        },
        len: 0.0,
    }
}

// The run of `count` segments from segment `first` on. Each starts at the place where the one before it ended. None: the row is full, refusal 6.
pub fn sample_run(
    xs: &[i16],
    ys: &[i16],
    flags: &[u8],
    first: usize,
    count: usize,
    row: &mut [[f64; 4]],
) -> Option<Thetas>
    ensures row { thetas_of (length row.old) (quads_of xs.now ys.now flags.now first count)
        ≡ run_in row.new result }
    ensures places { places_sampled result ≤ length row.old }
{
    let here = Point { x: 0.0, y: 0.0 };
    let mut q = Quad {
        p0: here,
        p1: here,
        p2: here,
    };
    let mut w = begin();
    let mut a = outline::start_of(flags, first);
    for _ in 0..count {
        q = as_quad(outline::read_from(xs, ys, flags, a));
        w = sweep(row, w, q)?;
        a = outline::end_of(flags, a);
    }
    finish(row, w, q)
}

impl Unitize for Plain {
    fn unitize(p: Point) -> Point {
        p.unitize()
    }
}

impl Sampling for Plain {
    fn sweep(row: &mut [[f64; 4]], from: Walk, q: Quad) -> Option<Walk> {
        sweep(row, from, q)
    }
}
