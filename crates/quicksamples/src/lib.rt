// Module 5, fast: the samples of a run, by ten steps at a time. Each contract equates what is left in the row with a definition of
// samples/specs/Samples.antt.
#![tactic(auto)]

ghost use Rattle.std.specs.Prelude.{◌≡◌, ◌≤◌, false, length, take};
ghost use Rattle.float.specs.Numbers.{nought};
ghost use Rattle.geometry.specs.Geometry.{unitize_of};
ghost use Rattle.arclen.specs.Arclen.{arclen_functor_of};
ghost use Rattle.samples.specs.Samples.{quads_of, sample_at, fill_to, sweep_from, length_after};
ghost use Rattle.samples.specs.Samples.{thetas_of, walked_in, filled_in, places_filled};
ghost use Rattle.samples.specs.Samples.{swept_in, places_swept, length_swept, run_in, places_sampled};
ghost use Rattle.quicksamples.specs.Tens.{NoneDue, TenSteps};

use arclen::ArclenFunctor;
use geometry::{Point, Quad};
use samples::{Filled, Sampling, Step, Thetas, Unitize, Walk};

// Ten steps at a time, of which most have no sample to work out.
pub struct Quick;

// A direction of length 1.
fn unitize(p: Point) -> Point
    ensures { result ≡ unitize_of p }
{
    let scale = 1.0 / quickroot::root(p.square_norm());
    Point {
        x: p.x * scale,
        y: p.y * scale,
    }
}

// The sample at the length ix, between the last step and this one.
fn sample(last: Step, this: Step, ix: f64) -> [f64; 4]
    ensures { result ≡ sample_at last this ix }
{
    let u = (ix - last.s) / (this.s - last.s);
    let from = last.xy;
    let turn = last.d;
    samples::packed(from.lerp(this.xy, u), unitize(turn.lerp(this.d, u)))
}

// Samples while the next whole length is at most limit. None: the row is full.
fn fill(
    row: &mut [[f64; 4]],
    n: usize,
    ix: f64,
    last: Step,
    this: Step,
    limit: f64,
) -> Option<Filled>
    requires { n ≤ length row.old }
    ensures row { fill_to (length row.old) this limit (take n row.old) ix last ≡ filled_in row.new last result }
    ensures places { places_filled result ≤ length row.old }
{
    let mut m = n;
    let mut x = ix;
    while x <= limit {
        if row.len() <= m {
            return None;
        }
        row[m] = sample(last, this, x);
        m += 1;
        x = x + 1.0;
    }
    Some(Filled { count: m, ix: x })
}

// Whether a sample is due in ten steps that start at these lengths.
fn is_due(starts: &[f64; 11], ix: f64) -> bool
    requires { length starts.now ≡ 11 }
    ensures { result ≡ false → NoneDue starts.now ix 10 }
{
    let mut due = false;
    for i in 0..10usize {
        due = due | (ix <= starts[i]);
    }
    due
}

// Ten steps from the time t on, which start at these lengths, each with the samples up to it. None: the row
// is full.
fn fill_steps(
    row: &mut [[f64; 4]],
    from: Walk,
    q: Quad,
    f: ArclenFunctor,
    t: f64,
    starts: &[f64; 11],
) -> Option<Walk>
    requires { (f ≡ arclen_functor_of q) × (from.n ≤ length row.old) × (length starts.now ≡ 11) }
    ensures { TenSteps q t starts.now from row.old row.new result }
{
    let h = 1.0 / 100.0;
    let mut n = from.n;
    let mut ix = from.ix;
    let mut last = from.last;
    let mut time = t;
    for i in 0..10usize {
        let y = starts[i];
        let this = samples::step_at(q, f, time, y);
        let filled = fill(row, n, ix, last, this, y)?;
        n = filled.count;
        ix = filled.ix;
        last = this;
        time = time + h;
    }
    Some(Walk {
        n,
        ix,
        last,
        len: starts[10],
    })
}

// The same; where no sample is due, only the last of the steps is worked out.
fn ten_steps(
    row: &mut [[f64; 4]],
    from: Walk,
    q: Quad,
    f: ArclenFunctor,
    t: f64,
    starts: &[f64; 11],
) -> Option<Walk>
    requires { (f ≡ arclen_functor_of q) × (from.n ≤ length row.old) × (length starts.now ≡ 11) }
    ensures { TenSteps q t starts.now from row.old row.new result }
{
    let n = from.n;
    let ix = from.ix;
    if is_due(starts, ix) {
        return fill_steps(row, from, q, f, t, starts);
    }
    let last = samples::step_at(q, f, quickarclen::later(1.0 / 100.0, t, 9), starts[9]);
    Some(Walk {
        n,
        ix,
        last,
        len: starts[10],
    })
}

// 100 steps over one quad, ten at a time. Of a straight one all speeds are one; of another the last of ten
// steps' is the first of the next ten's. None: the row is full.
fn sweep(row: &mut [[f64; 4]], from: Walk, q: Quad) -> Option<Walk>
    requires { from.n ≤ length row.old }
    ensures row { sweep_from 100 (length row.old) q nought from.len (walked_in row.old from) ≡ swept_in row.new result }
    ensures places { places_swept result ≤ length row.old }
    ensures length { length_swept (length_after q from.len) result ≡ length_after q from.len }
{
    let f = ArclenFunctor::new(q);
    let h = 1.0 / 100.0;
    let straight = quickarclen::is_straight(f);
    let mut v = quickarclen::same_speeds(f, 0.0);
    let mut w = from;
    let mut t = 0.0;
    for _ in 0..10usize {
        if !straight {
            quickarclen::speeds_on(f, h, t, &mut v);
        }
        let starts = quickarclen::lengths(h, w.len, &v);
        w = ten_steps(row, w, q, f, t, &starts)?;
        t = quickarclen::later(h, t, 10);
    }
    Some(w)
}

// The run of `count` segments from segment `first` on. Each starts at the place where the one before it ended. None: the row is full, refusal 6.
pub fn sample_run(
    xs: &[i16],
    ys: &[i16],
    flags: &[u8],
    first: usize,
    count: usize,
    row: &mut [[f64; 4]],
) -> Option<Thetas>
    ensures row { thetas_of (length row.old) (quads_of xs.now ys.now flags.now first count)
        ≡ run_in row.new result }
    ensures places { places_sampled result ≤ length row.old }
{
    let here = Point { x: 0.0, y: 0.0 };
    let mut q = Quad {
        p0: here,
        p1: here,
        p2: here,
    };
    let mut w = samples::begin();
    let mut a = outline::start_of(flags, first);
    for _ in 0..count {
        q = samples::as_quad(outline::read_from(xs, ys, flags, a));
        w = sweep(row, w, q)?;
        a = outline::end_of(flags, a);
    }
    samples::finish(row, w, q)
}

impl Unitize for Quick {
    fn unitize(p: Point) -> Point {
        unitize(p)
    }
}

impl Sampling for Quick {
    fn sweep(row: &mut [[f64; 4]], from: Walk, q: Quad) -> Option<Walk> {
        sweep(row, from, q)
    }
}
