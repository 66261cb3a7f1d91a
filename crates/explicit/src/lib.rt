// Implied points written out. A contour is three rows: x, y, and flags whose bit 0 means on-curve. It is turned to
// its first on-curve point, and between two off-curve points that follow each other their middle is put in,
// on-curve, each coordinate rounded with halves away from zero.
#![tactic(auto)]

ghost use Rattle.std.specs.Prelude.{◌≡◌, [], ◌∷◌, ◌++◌, ◌<◌, ◌≤◌, ◌+ℤ◌, length};
ghost use Rattle.std.specs.Int.Signed.{mag};
ghost use Rattle.outline.specs.Segments.{on_at};
ghost use Rattle.rows.specs.Lent.{before, after, contour};
ghost use Rattle.contour.specs.Points.{Points, point_as};
ghost use Rattle.contour.specs.Writing.{written, Wrote, Appended};
ghost use Rattle.contour.specs.Implied.{off_curve};
ghost use Rattle.halving.specs.Cubic.{nearest};
ghost use Rattle.explicit.specs.Explicit.{both_off, middle, implied_point, implied_between, first_on, place_from, explicit_from};
ghost use Rattle.explicit.specs.Entry.{judged_rows, lent, WrittenOut, Promise};

use contour::Written;
use refusals::Refusal;

// ---- the middle

// 32 bits hold the sum.
fn sum(a: i16, b: i16) -> i32
    ensures { result ≡ a +ℤ b }
{
    (a as i32) + (b as i32)
}

// Halves away from zero: the division cuts toward it.
fn half_away(s: i32) -> i16
    requires { mag (nearest 1 s) < 32768 }
    ensures { result ≡ nearest 1 s }
{
    if s < 0 {
        return ((s - 1) / 2) as i16;
    }
    ((s + 1) / 2) as i16
}

fn middle(a: i16, b: i16) -> i16
    ensures { result ≡ middle a b }
{
    half_away(sum(a, b))
}

// The point that is implied between two.
fn implied(p: [i16; 3], q: [i16; 3]) -> [i16; 3]
    ensures { result ≡ implied_point p q }
{
    [middle(p[0], q[0]), middle(p[1], q[1]), 1]
}

// ---- the points

fn is_off(p: [i16; 3]) -> bool
    ensures { result ≡ off_curve p }
{
    p[2] == 0
}

fn both_off(p: [i16; 3], q: [i16; 3]) -> bool
    ensures { result ≡ both_off p q }
{
    is_off(p) && is_off(q)
}

// The point p after prev, with the implied one between them where both are off-curve.
fn put_next(points: &mut [[i16; 3]], w: Written, prev: [i16; 3], p: [i16; 3]) -> Written
    ensures { Appended (before points) w (after points) result (implied_between prev p ++ (p ∷ [])) }
{
    if both_off(prev, p) {
        let v = contour::push(points, w, implied(prev, p));
        return contour::push(points, v, p);
    }
    contour::push(points, w, p)
}

// The place of the first on-curve point, or how many points there are.
fn first_on(flags: &[u8]) -> usize
    ensures { result ≡ first_on flags.now }
{
    for i in 0..flags.len() {
        if refusals::is_on(flags[i]) {
            return i;
        }
    }
    flags.len()
}

// Place k from the start, of n, going round.
fn place_from(start: usize, n: usize, k: usize) -> usize
    requires { (start ≤ n) × (k < n) }
    ensures { result ≡ place_from start n k }
{
    if k < n - start {
        start + k
    } else {
        k - (n - start)
    }
}

fn point_at(xs: &[i16], ys: &[i16], flags: &[u8], i: usize) -> [i16; 3]
    requires { i < length flags.now }
    ensures { result ≡ point_as (on_at flags.now i) xs.now ys.now i }
{
    contour::point_as(refusals::is_on(flags[i]), xs, ys, i)
}

// From the start round to it. Before the first point stands an on-curve one that is not written, so that nothing is
// put between them.
fn put_all(xs: &[i16], ys: &[i16], flags: &[u8], start: usize, points: &mut [[i16; 3]]) -> Written
    requires { start ≤ length flags.now }
    ensures { Wrote (after points) result (written (length (before points)) (explicit_from start (contour xs ys flags))) }
{
    let mut w = contour::nothing();
    let mut prev = [0i16, 0, 1];
    for k in 0..flags.len() {
        let p = point_at(xs, ys, flags, place_from(start, flags.len(), k));
        w = put_next(points, w, prev, p);
        prev = p;
    }
    w
}

// ---- refusals

// Refusals 1, 2 and 21, in their order.
fn judge(xs: &[i16], ys: &[i16], flags: &[u8]) -> Result<(), Refusal>
    ensures { result ≡ judged_rows xs.now ys.now flags.now }
{
    if refusals::rows_differ(xs.len(), ys.len(), flags.len()) {
        return Err(Refusal::UnevenRows);
    }
    if refusals::no_point(flags.len()) {
        return Err(Refusal::NoPoint);
    }
    if first_on(flags) == flags.len() {
        return Err(Refusal::NoOnCurve);
    }
    Ok(())
}

// ---- the entry

// What was put in the row of points, written out if nothing refuses it.
fn write_out(
    points: &[[i16; 3]],
    w: Written,
    ox: &mut [i16],
    oy: &mut [i16],
    of: &mut [u8],
) -> Result<usize, Refusal>
    requires { w.count ≤ length points.now }
    ensures { (ps : Points) → Wrote points.now w (written 1024 ps) → WrittenOut ps (lent ox oy of) result }
{
    if w.over {
        return Err(Refusal::TooManyPoints);
    }
    let n = w.count;
    if rows::least(rows::least(ox.len(), oy.len()), of.len()) < n {
        return Err(Refusal::OutputTooShort);
    }
    contour::copy_out(points, n, ox, oy, of);
    Ok(n)
}

fn explicit_fine(
    xs: &[i16],
    ys: &[i16],
    flags: &[u8],
    ox: &mut [i16],
    oy: &mut [i16],
    of: &mut [u8],
) -> Result<usize, Refusal>
    ensures { WrittenOut (explicit_from (first_on flags.now) (contour xs ys flags)) (lent ox oy of) result }
{
    let mut points = [[0i16; 3]; 1024];
    let w = put_all(xs, ys, flags, first_on(flags), &mut points);
    write_out(&points, w, ox, oy, of)
}

// The entry: the contour from its first on-curve point on, with its implied points, to the first places of the
// output rows.
pub fn explicit_contour(
    xs: &[i16],
    ys: &[i16],
    flags: &[u8],
    ox: &mut [i16],
    oy: &mut [i16],
    of: &mut [u8],
) -> Result<usize, Refusal>
    ensures { Promise (contour xs ys flags) (lent ox oy of) result }
{
    judge(xs, ys, flags)?;
    explicit_fine(xs, ys, flags, ox, oy, of)
}
