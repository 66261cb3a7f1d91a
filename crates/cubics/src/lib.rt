// Cubic outlines made quads. A contour is three rows: x, y, and flags whose bit 0 means on-curve; off-curve points
// stand in pairs, the controls of a cubic, and a last pair leads back to the start. A cubic is halved until each
// coordinate of its third difference is at most 8 in size; then it is the quad with the control that document 02
// names. Each f64 here is exact; only a point that is written is rounded.
#![tactic(auto)]

ghost use Rattle.std.specs.Prelude.{◌≡◌, false, ◌&&◌, ◌||◌, List, [], ◌∷◌, ℕ, ◌+◌, ◌*◌, ◌^◌, ◌<◌, ◌≤◌, ℤ, pos, length, get_or};
ghost use Rattle.refusals.specs.Refusals.{is_on};
ghost use Rattle.rows.specs.Lent.{before, after, contour};
ghost use Rattle.contour.specs.Points.{Points};
ghost use Rattle.halving.specs.Cubic.{Curve, outside, rounded, control_point, start_point, between};
ghost use Rattle.float.specs.Dyadic.{Exact};
ghost use Rattle.halving.specs.Exact.{ExactAxis, ExactCubic, Roomy, Reach};
ghost use Rattle.cubics.specs.Replacing.{after_pair, four_at, curve_at, on_at, points_at, points_of, outside_point};
ghost use Rattle.cubics.specs.Making.{stored, Makes, MadeOf};
ghost use Rattle.cubics.specs.Refusing.{unpaired, off_after, off_pairs, judged_cubics};
ghost use Rattle.cubics.specs.Entry.{lent, WrittenOut, Promise};

use contour::Written;
use halving::{Axis, Cubic};
use refusals::Refusal;

// So many points are made; over: there were more than the row takes; far: one of them is outside 16 bits. What was
// made goes on to count after either, since `over` is refused before `far`, and both before a short output row.
#[derive(Clone, Copy, Debug, PartialEq, Eq)]
pub struct Made {
    pub count: usize,
    pub over: bool,
    pub far: bool,
}

// ---- points

// One point more.
fn put(points: &mut [[i16; 3]], m: Made, p: [i16; 3], far: bool) -> Made
    ensures { (q : List ℤ) → p ≡ stored q → far ≡ outside_point q → Makes (before points) m (after points) result (q ∷ []) }
{
    let w = Written {
        count: m.count,
        over: m.over,
    };
    let v = contour::push(points, w, p);
    Made {
        count: v.count,
        over: v.over,
        far: m.far | far,
    }
}

// A point rounded: on is 1 on-curve, 0 off.
fn put_rounded(points: &mut [[i16; 3]], m: Made, x: f64, y: f64, on: i16) -> Made
    ensures { (z w : ℤ) (e b : ℕ) → Roomy e b → Exact x z e b → Exact y w e b → outside on ≡ false →
        Makes (before points) m (after points) result (rounded e z w on ∷ []) }
{
    let a = halving::nearest(x);
    let b = halving::nearest(y);
    put(points, m, [a.value, b.value, on], a.far | b.far)
}

fn put_start(points: &mut [[i16; 3]], m: Made, c: Cubic) -> Made
    ensures { (n : Curve) (e b : ℕ) → Roomy e b → ExactCubic c n e b → Makes (before points) m (after points) result (start_point e n ∷ []) }
{
    put_rounded(points, m, c.x.p0, c.y.p0, 1)
}

fn put_control(points: &mut [[i16; 3]], m: Made, c: Cubic) -> Made
    ensures { (n : Curve) (e b : ℕ) → Roomy (e + 2) (8 * b) → ExactCubic c n e b → Makes (before points) m (after points) result (control_point e n ∷ []) }
{
    put_rounded(points, m, c.x.control(), c.y.control(), 0)
}

// The points between a cubic's ends: of one that is not halved its control; else those of its first half, the
// point where the halves meet, and those of the second. With 16-bit points there are always halvings left.
fn between(points: &mut [[i16; 3]], m: Made, c: Cubic, left: usize) -> Made
    ensures { (n : Curve) (e b : ℕ) → Reach left e b → ExactCubic c n e b → Makes (before points) m (after points) result (between left e n) }
{
    if left == 0 || !c.is_bent() {
        return put_control(points, m, c);
    }
    let second = c.second();
    let first = between(points, m, c.first(), left - 1);
    let met = put_start(points, first, second);
    between(points, met, second, left - 1)
}

// ---- the contour

// A coordinate by its place, 0 past the end.
fn coordinate(row: &[i16], i: usize) -> i16
    ensures { result ≡ get_or row.now i (pos 0) }
{
    row.get(i).copied().unwrap_or(0)
}

// Whether the point at a place is there and is on-curve.
fn on_at(flags: &[u8], i: usize) -> bool
    ensures { result ≡ on_at flags.now i }
{
    i < flags.len() && refusals::is_on(flags[i])
}

// The place after a pair whose first stands at i, of n, going round.
fn after_pair(i: usize, n: usize) -> usize
    requires { i < n }
    ensures { result ≡ after_pair i n }
{
    if 2 < n - i { i + 2 } else { 0 }
}

fn float_at(row: &[i16], i: usize) -> f64
    ensures { Exact result (get_or row.now i (pos 0)) 0 (2 ^ 15) }
{
    coordinate(row, i) as f64
}

// A coordinate of the cubic whose first control stands at place i: the row has n places.
fn axis_at(row: &[i16], i: usize, n: usize) -> Axis
    requires { (0 < i) × (i < n) }
    ensures { ExactAxis result (four_at row.now n i) 0 (2 ^ 15) }
{
    Axis {
        p0: float_at(row, i - 1),
        p1: float_at(row, i),
        p2: float_at(row, i + 1),
        p3: float_at(row, after_pair(i, n)),
    }
}

fn cubic_at(xs: &[i16], ys: &[i16], i: usize, n: usize) -> Cubic
    requires { (0 < i) × (i < n) }
    ensures { ExactCubic result (curve_at xs.now ys.now n i) 0 (2 ^ 15) }
{
    Cubic {
        x: axis_at(xs, i, n),
        y: axis_at(ys, i, n),
    }
}

// The points that stand for place i: an on-curve point itself; for the first of a pair those between the cubic's
// ends; for the second none.
fn put_place(
    xs: &[i16],
    ys: &[i16],
    flags: &[u8],
    points: &mut [[i16; 3]],
    m: Made,
    i: usize,
) -> Made
    requires { (i < length flags.now) × (m.count ≤ length points.old) }
    ensures { Makes (before points) m (after points) result (points_at xs.now ys.now flags.now i) }
{
    if on_at(flags, i) {
        return put(points, m, [coordinate(xs, i), coordinate(ys, i), 1], false);
    }
    if 0 < i && on_at(flags, i - 1) {
        return between(points, m, cubic_at(xs, ys, i, flags.len()), 5);
    }
    m
}

fn replace(xs: &[i16], ys: &[i16], flags: &[u8], points: &mut [[i16; 3]]) -> Made
    ensures { MadeOf (length (before points)) (after points) result (points_of xs.now ys.now flags.now) }
{
    let mut m = Made {
        count: 0,
        over: false,
        far: false,
    };
    for i in 0..flags.len() {
        m = put_place(xs, ys, flags, points, m, i);
    }
    m
}

// ---- refusals

// Whether so many off-curve points next to each other are neither none nor a pair.
fn unpaired(n: usize) -> bool
    ensures { result ≡ unpaired n }
{
    n != 0 && n != 2
}

// Whether a stretch of n off-curve points before this flag ends there, and is not two long.
fn ends_unpaired(flag: u8, n: usize) -> bool
    ensures { result ≡ (is_on flag && unpaired n) }
{
    refusals::is_on(flag) && unpaired(n)
}

// How many off-curve points stand next to each other up to this flag, where there were n before it.
fn off_after(flag: u8, n: usize) -> usize
    requires { n < 18446744073709551615 }
    ensures { result ≡ off_after (is_on flag) n }
{
    if refusals::is_on(flag) {
        return 0;
    }
    n + 1
}

// Refusal 5 of cubics: a stretch of off-curve points that is not two long.
fn off_pairs(flags: &[u8]) -> bool
    ensures { result ≡ off_pairs flags.now }
{
    let mut n = 0;
    for i in 0..flags.len() {
        if ends_unpaired(flags[i], n) {
            return true;
        }
        n = off_after(flags[i], n);
    }
    unpaired(n)
}

// Refusals 1, 2, 4 and 5, in their order.
fn judge(xs: &[i16], ys: &[i16], flags: &[u8]) -> Result<(), Refusal>
    ensures { result ≡ judged_cubics xs.now ys.now flags.now }
{
    if refusals::rows_differ(xs.len(), ys.len(), flags.len()) {
        return Err(Refusal::UnevenRows);
    }
    if refusals::no_point(flags.len()) {
        return Err(Refusal::NoPoint);
    }
    if refusals::first_off(flags) {
        return Err(Refusal::StartsOffCurve);
    }
    if off_pairs(flags) {
        return Err(Refusal::OffCurveNeighbours);
    }
    Ok(())
}

// ---- the entry

// What was made, written out if nothing refuses it.
fn write_made(
    points: &[[i16; 3]],
    m: Made,
    ox: &mut [i16],
    oy: &mut [i16],
    of: &mut [u8],
) -> Result<usize, Refusal>
    requires { m.count ≤ length points.now }
    ensures { (ps : Points) → MadeOf 1024 points.now m ps → WrittenOut ps (lent ox oy of) result }
{
    if m.over {
        return Err(Refusal::TooManyPoints);
    }
    if m.far {
        return Err(Refusal::Outside16Bits);
    }
    let n = m.count;
    if rows::least(rows::least(ox.len(), oy.len()), of.len()) < n {
        return Err(Refusal::OutputTooShort);
    }
    contour::copy_out(points, n, ox, oy, of);
    Ok(n)
}

fn replace_fine(
    xs: &[i16],
    ys: &[i16],
    flags: &[u8],
    ox: &mut [i16],
    oy: &mut [i16],
    of: &mut [u8],
) -> Result<usize, Refusal>
    ensures { WrittenOut (points_of xs.now ys.now flags.now) (lent ox oy of) result }
{
    let mut points = [[0i16; 3]; 1024];
    let m = replace(xs, ys, flags, &mut points);
    write_made(&points, m, ox, oy, of)
}

// The entry: the quads of the cubics to the first places of the output rows.
pub fn from_cubics(
    xs: &[i16],
    ys: &[i16],
    flags: &[u8],
    ox: &mut [i16],
    oy: &mut [i16],
    of: &mut [u8],
) -> Result<usize, Refusal>
    ensures { Promise (contour xs ys flags) (lent ox oy of) result }
{
    judge(xs, ys, flags)?;
    replace_fine(xs, ys, flags, ox, oy, of)
}
