// Module 6, fast: how far a quad is from the samples, by RK4 over two values, the length and the error, in its
// flat form. The rate of the length looks at the time alone, so that the 40 stages are known before the
// first lookup, no root is taken twice, and no lookup waits for a term.
#![tactic(auto)]

ghost use Rattle.std.specs.Prelude.{true, ◌≡◌, ◌<◌, length, get_or};
ghost use Rattle.std.specs.Float.{nan};
ghost use Rattle.quickarclen.specs.Stages.{Written};
ghost use Rattle.measure.specs.Measure.{walked_by, measure_functor_of, measure_of};
ghost use Rattle.quickmeasure.specs.Terms.{node_of, rate_at, term_in, sums_of, Looks, Before};
ghost use Rattle.measure.specs.NotNegative.{Measurable};
ghost use Rattle.measure.specs.Fallen.{fallen_at, fallen_by, fallen_of, Counts};
ghost use Rattle.quickmeasure.specs.Counting.{fallen_below};
ghost use Rattle.quickmeasure.specs.Early.{node_in, rate_by, step_by, Shown, Shows, Sealed, Judges};
ghost use Rattle.quickmeasure.specs.Ahead.{WellBefore, EvenStep, Even};
ghost use Rattle.quickmeasure.specs.Turned.{Off, Turned};

use arclen::ArclenFunctor;
use geometry::{Point, Quad};
use measure::{Counted, Measure, MeasureFunctor};

// A measure that may stop early.
#[derive(Clone, Copy)]
pub enum Judged {
    Measured(Counted),
    // No sample that is asked for is missing, no lookup fell, and the error is so large that it cannot win.
    Over,
}

// Where a quad is at a time, and its derivative there.
#[derive(Clone, Copy)]
struct Node {
    p: Point,
    d: Point,
}

fn node_at(af: ArclenFunctor, q: Quad, t: f64) -> Node
    ensures { result ≡ node_of af q t }
{
    let p = q.point_at_t(t);
    let d = af.deriv(t);
    Node { p, d }
}

// The rate of the error at a node with the speed v, where the samples have the place and the direction
// seen.
fn term(n: Node, v: f64, seen: [f64; 4]) -> f64
    ensures { result ≡ rate_at n v seen }
{
    let xy = Point {
        x: seen[0],
        y: seen[1],
    };
    let dir = Point {
        x: seen[2],
        y: seen[3],
    };
    measure::error(v, n.d, n.p, xy, dir)
}

// The error from the 40 stages and what is seen there. The two middle stages of a step have one node, and
// a step's last node is the next one's first: 21 nodes serve ten steps.
fn total(af: ArclenFunctor, q: Quad, stages: &[[f64; 3]; 40], seen: &[[f64; 4]; 40]) -> f64
    requires { Written af stages.now }
    ensures { result ≡ sums_of (term_in af q stages.now seen.now) 10 }
{
    let h = 1.0 / 10.0;
    let mut e = 0.0;
    let mut n = node_at(af, q, 0.0);
    for i in 0..10usize {
        let first = stages[4 * i];
        let second = stages[4 * i + 1];
        let third = stages[4 * i + 2];
        let last = stages[4 * i + 3];
        let middle = node_at(af, q, second[0]);
        let end = node_at(af, q, last[0]);
        let a = term(n, first[1], seen[4 * i]);
        let b = term(middle, second[1], seen[4 * i + 1]);
        let c = term(middle, third[1], seen[4 * i + 2]);
        let d = term(end, last[1], seen[4 * i + 3]);
        e = arclen::grown(h, e, a, b, c, d);
        n = end;
    }
    e
}

// Writes what the samples have at the 40 stages, [x, y, direction x, y], before any term is taken. The
// first refused lookup ends it.
fn look(
    m: MeasureFunctor,
    row: &[[f64; 4]],
    stages: &[[f64; 3]; 40],
    seen: &mut [[f64; 4]; 40],
) -> bool
    requires { Written m.af stages.now × (length seen.old ≡ 40) }
    ensures { Looks row.now m stages.now seen.new result }
{
    for k in 0..40usize {
        let stage = stages[k];
        let Some(spot) = quicklookup::quick_lookup(row, m.s0 + stage[2] * m.ss) else {
            return false;
        };
        let xy = spot.xy;
        let dir = spot.dir;
        seen[k] = [xy.x, xy.y, dir.x, dir.y];
    }
    true
}

// The error from the 40 stages, of which the first refused one ends the work.
fn walk(m: MeasureFunctor, row: &[[f64; 4]], stages: &[[f64; 3]; 40]) -> Option<Measure>
    requires { Written m.af stages.now }
    ensures { result ≡ walked_by row.now m }
{
    let af = m.af;
    let q = m.q;
    let mut seen = [[0.0; 4]; 40];
    if look(m, row, stages, &mut seen) {
        return Some(Measure {
            error: total(af, q, stages, &seen),
        });
    }
    None
}

// The work on q between the lengths s0 and s1, with its 40 stages written.
fn set_out(s0: f64, s1: f64, q: Quad, stages: &mut [[f64; 3]; 40]) -> MeasureFunctor
    requires { length stages.old ≡ 40 }
    ensures { (result ≡ measure_functor_of s0 s1 q) × Written result.af stages.new }
{
    let af = ArclenFunctor::new(q);
    let ss = measure::stretch(s0, s1, quickarclen::walk(af, stages));
    MeasureFunctor { s0, ss, af, q }
}

// Whether the 40 stages all lie before the length `end` along the samples.
fn all_before(m: MeasureFunctor, stages: &[[f64; 3]; 40], end: f64) -> bool
    ensures { result ≡ true → Before m stages.now end 40 }
{
    for k in 0..40usize {
        let stage = stages[k];
        if !(m.s0 + stage[2] * m.ss < end) {
            return false;
        }
    }
    true
}

// Whether every sample asked for at the 40 stages lies before the last stored place: then no lookup is refused, and none falls.
// No sample is read. A row of more than 2^53 samples, whose last place an f64 may not hold, gets no.
fn surely(m: MeasureFunctor, row: &[[f64; 4]], stages: &[[f64; 3]; 40]) -> bool
    ensures { result ≡ true → Shown row.now m stages.now }
{
    let n = row.len();
    if n < 2 || n > 0x20_0000_0000_0000 {
        return false;
    }
    all_before(m, stages, (n - 1) as f64)
}

// Whether the way from the length s0 to s1, times the factor, ends before the last stored place: then no stage that is ahead by less asks
// for a sample at or past that place.
fn well_before(row: &[[f64; 4]], s0: f64, s1: f64, factor: f64) -> bool
    ensures { result ≡ true → WellBefore row.now s0 s1 factor }
{
    let n = row.len();
    if n < 2 || n > 0x20_0000_0000_0000 {
        return false;
    }
    let last = n - 1;
    let ahead = s1 - s0;
    s0 >= 0.0 && ahead > 0.0009765625 && ahead < 16777216.0 && s0 + factor * ahead < (last as f64)
}

// Whether the speeds of a step differ little, by their squares at its start, middle and end: the start is at most twice as fast as the
// middle, and twice the middle's square is at most that of both ends, as it is but for rounding where a derivative goes straight; a
// thirty-second is left for that. Of squares that are very small or large nothing is said.
fn is_even_step(a: f64, b: f64, d: f64) -> bool
    ensures { result ≡ true → EvenStep a b d }
{
    let ends = a + d;
    a < 4.0 * b && 1.9375 * b < ends && b > 0.0009765625 && ends < 1152921504606846976.0
}

// Whether the speed of a quad changes evenly, in each of ten steps. No root is taken.
fn is_even_in_steps(f: ArclenFunctor) -> bool
    ensures { result ≡ true → Even f 10 }
{
    let h = 1.0 / 10.0;
    let mut time = 0.0;
    let mut first = f.deriv(time).square_norm();
    for _ in 0..10usize {
        let middle = f.deriv(time + h * 0.5).square_norm();
        time = time + h;
        let end = f.deriv(time).square_norm();
        if !is_even_step(first, middle, end) {
            return false;
        }
        first = end;
    }
    true
}

// The same as is_even_in_steps: the squares of a straight piece's speeds are all equal, so that one step tells of all ten.
fn is_even(f: ArclenFunctor) -> bool
    ensures { result ≡ true → Even f 10 }
{
    if quickarclen::is_straight(f) {
        let a = f.deriv(0.0).square_norm();
        return is_even_step(a, a, a);
    }
    is_even_in_steps(f)
}

// Whether every sample that the measure of a quad between the lengths s0 and s1 asks for is there, and no lookup falls, whatever the
// quad: no stage of RK4 is more than 1.37 of the quad's length ahead, since a coordinate of the derivative falls and then rises. A little
// is left for what rounding adds.
fn shows_any(row: &[[f64; 4]], s0: f64, s1: f64) -> bool
    ensures { result ≡ true → (q : Quad) → Shows row.now s0 s1 q }
{
    well_before(row, s0, s1, 1.375)
}

// The same of the quad q. Where fewer samples follow it is still known without a root if the quad's speed changes evenly: then no stage is
// more than 1.12 times its length ahead.
fn shows(row: &[[f64; 4]], s0: f64, s1: f64, q: Quad) -> bool
    ensures { result ≡ true → Shows row.now s0 s1 q }
{
    if shows_any(row, s0, s1) {
        return true;
    }
    if well_before(row, s0, s1, 1.125) && is_even(ArclenFunctor::new(q)) {
        return true;
    }
    let mut stages = [[0.0; 3]; 40];
    let m = set_out(s0, s1, q, &mut stages);
    surely(m, row, &stages)
}

// These two, for a caller that knows of no stages.
pub fn sees_any(row: &[[f64; 4]], s0: f64, s1: f64) -> bool
    ensures { result ≡ true → (q : Quad) → Measurable row.now s0 s1 q }
{
    shows_any(row, s0, s1)
}

pub fn sees_all(row: &[[f64; 4]], s0: f64, s1: f64, q: Quad) -> bool
    ensures { result ≡ true → Measurable row.now s0 s1 q }
{
    shows(row, s0, s1, q)
}

// How many of the two lookups at a stage fall: the place and the direction, or neither.
fn fallen_at(m: MeasureFunctor, row: &[[f64; 4]], stage: [f64; 3]) -> usize
    ensures { result ≡ fallen_at row.now m (get_or stage 2 nan) }
{
    lookup::fallen(row, m.s0 + stage[2] * m.ss)
}

// How many fall at the 40 stages.
fn count(m: MeasureFunctor, row: &[[f64; 4]], stages: &[[f64; 3]; 40]) -> usize
    ensures { result ≡ fallen_below row.now m stages.now 40 }
{
    let mut n = 0usize;
    for k in 0..40usize {
        n += fallen_at(m, row, stages[k]);
    }
    n
}

// The same: most often none, which is soon known. `sure` tells whether it is known already that every sample asked for at the stages is
// there, since a few comparisons often tell it of all 40.
fn fallen(m: MeasureFunctor, row: &[[f64; 4]], stages: &[[f64; 3]; 40], sure: bool) -> usize
    requires { sure ≡ true → Shown row.now m stages.now }
    ensures { result ≡ fallen_below row.now m stages.now 40 }
{
    if sure {
        return 0;
    }
    if surely(m, row, stages) {
        return 0;
    }
    count(m, row, stages)
}

// How far q is from the samples between the lengths s0 and s1. None where a sample is asked for at the last stored place: refusal 8.
pub fn measure_quad(row: &[[f64; 4]], s0: f64, s1: f64, q: Quad) -> Option<Counted>
    ensures { Counts (measure_of row.now s0 s1 q) (fallen_of row.now s0 s1 q) result }
{
    let mut stages = [[0.0; 3]; 40];
    let m = set_out(s0, s1, q, &mut stages);
    let measure = walk(m, row, &stages)?;
    Some(Counted {
        measure,
        fallen: fallen(m, row, &stages, shows_any(row, s0, s1)),
    })
}

// The term of a stage at its node.
fn rate(m: MeasureFunctor, row: &[[f64; 4]], n: Node, stage: [f64; 3]) -> Option<Measure>
    ensures { result ≡ rate_by row.now m n stage }
{
    let spot = quicklookup::quick_lookup(row, m.s0 + stage[2] * m.ss)?;
    Some(Measure {
        error: measure::error(stage[1], n.d, n.p, spot.xy, spot.dir),
    })
}

// The node of a step's stage k: that of its start, of its middle twice, of its end.
fn node_of(k: usize, n: Node, middle: Node, end: Node) -> Node
    ensures { result ≡ node_in n middle end k }
{
    if k == 0 {
        return n;
    }
    if k < 3 {
        return middle;
    }
    end
}

// The error after the step i, from the error e before it and the nodes of its start, middle and end. The
// first refused lookup ends it. The four stages are a loop, since what is called in one place is compiled in
// place.
fn step(
    m: MeasureFunctor,
    row: &[[f64; 4]],
    stages: &[[f64; 3]; 40],
    i: usize,
    e: f64,
    n: Node,
    middle: Node,
    end: Node,
) -> Option<Measure>
    requires { i < 10 }
    ensures { result ≡ step_by row.now m stages.now i e n middle end }
{
    let mut rates = [0.0; 4];
    for k in 0..4usize {
        let r = rate(m, row, node_of(k, n, middle, end), stages[4 * i + k])?;
        rates[k] = r.error;
    }
    Some(Measure {
        error: arclen::grown(1.0 / 10.0, e, rates[0], rates[1], rates[2], rates[3]),
    })
}

// Whether a score cannot fall below the limit any more: the error so far is e, and no term is negative. `sure` as in fallen: where it is
// known already that every sample is there, no stage is looked at.
fn beyond(
    m: MeasureFunctor,
    row: &[[f64; 4]],
    stages: &[[f64; 3]; 40],
    base: f64,
    e: f64,
    limit: f64,
    sure: bool,
) -> bool
    requires { sure ≡ true → Shown row.now m stages.now }
    ensures { result ≡ true → Sealed row.now m stages.now base e limit }
{
    if base + e < limit {
        return false;
    }
    if base > 0.0 {
        if sure {
            return true;
        }
        return surely(m, row, stages);
    }
    false
}

// The error of ten steps, or that a score of base and the error is not less than the limit, as soon as that
// is known. `sure` as in fallen: it is told once, before the steps.
fn judge(
    m: MeasureFunctor,
    row: &[[f64; 4]],
    stages: &[[f64; 3]; 40],
    base: f64,
    limit: f64,
    sure: bool,
) -> Option<Judged>
    requires { Written m.af stages.now × (sure ≡ true → Shown row.now m stages.now) }
    ensures { Judges (walked_by row.now m) (fallen_by row.now m) base limit result }
{
    let mut e = 0.0;
    let mut n = node_at(m.af, m.q, 0.0);
    for i in 0..10usize {
        let middle = node_at(m.af, m.q, stages[4 * i + 1][0]);
        let end = node_at(m.af, m.q, stages[4 * i + 3][0]);
        let r = step(m, row, stages, i, e, n, middle, end)?;
        e = r.error;
        n = end;
        if beyond(m, row, stages, base, e, limit, sure) {
            return Some(Judged::Over);
        }
    }
    Some(Judged::Measured(Counted {
        measure: Measure { error: e },
        fallen: fallen(m, row, stages, sure),
    }))
}

// No less than the root of x * x + y * y, and little more: the larger and half of the other, where neither is negative. No contract is
// needed, since its square is tested.
fn no_shorter(x: f64, y: f64) -> f64 {
    if x < y {
        return 1.0009765625 * (y + 0.5 * x);
    }
    1.0009765625 * (x + 0.5 * y)
}

// Whether the first stage alone tells that a score of base and the error is not less than the limit, where d is the derivative at the
// start. Its sample is that of the length s0, however long the quad, and no other term is negative. Of the speed it is enough to know a
// w that is no less; a thousandth is left for what rounding does to the squares.
fn is_off(row: &[[f64; 4]], s0: f64, d: Point, w: f64, base: f64, limit: f64) -> bool
    ensures { result ≡ true → Off row.now s0 d w base limit }
{
    let Some(spot) = quicklookup::lookup(row, s0) else {
        return false;
    };
    let dir = spot.dir;
    let o = dir.x * d.y - dir.y * d.x;
    let h = 1.0 / 10.0;
    if base + h / 6.0 * (5.0 * (o * o / w)) < limit {
        return false;
    }
    if base > 0.0 {
        if w > 0.0009765625 {
            if w < 16777216.0 {
                return 1.0009765625 * d.square_norm() < w * w;
            }
        }
    }
    false
}

// Whether a straight piece cannot win since the samples start out in another direction, whatever s1 is. No root is taken and no length
// is known. Of a curve nothing is said: it most often starts in the direction of the samples.
fn turned(row: &[[f64; 4]], s0: f64, q: Quad, base: f64, limit: f64) -> bool
    ensures { result ≡ true → Turned row.now s0 q base limit }
{
    let f = ArclenFunctor::new(q);
    if quickarclen::is_straight(f) {
        let d = f.deriv(0.0);
        let w = no_shorter(float::abs(d.x), float::abs(d.y));
        return is_off(row, s0, d, w, base, limit);
    }
    false
}

// How far q is from the samples between the lengths s0 and s1, unless a score of base and that error is not
// less than the limit: then the measure may stop as soon as that is known. Of a straight piece that is most often known before any root.
pub fn measure_below(
    row: &[[f64; 4]],
    s0: f64,
    s1: f64,
    q: Quad,
    base: f64,
    limit: f64,
) -> Option<Judged>
    ensures { Judges (measure_of row.now s0 s1 q) (fallen_of row.now s0 s1 q) base limit result }
{
    if turned(row, s0, q, base, limit) && shows(row, s0, s1, q) {
        return Some(Judged::Over);
    }
    let mut stages = [[0.0; 3]; 40];
    let m = set_out(s0, s1, q, &mut stages);
    judge(m, row, &stages, base, limit, shows_any(row, s0, s1))
}
