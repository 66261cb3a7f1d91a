// Why nothing is done, `Refusal`, with the numbers 1 to 21. And what a contour is refused for before it is worked: document 01's
// numbers 1 to 5, each a test of its own, and their order. A contour is three rows: x, y, and flags whose bit 0 means on-curve.
// Each contract equates the result with a definition of specs/, and asks nothing.
#![tactic(auto)]

mod refusal;

ghost use Rattle.std.specs.Prelude.{◌≡◌};
ghost use Rattle.refusals.specs.Refusals.{is_on, both_off, rows_differ, no_point, too_many, first_off, off_neighbours, judged};

pub use refusal::Refusal;

pub fn is_on(flag: u8) -> bool
    ensures { result ≡ is_on flag }
{
    flag % 2 == 1
}

fn both_off(a: u8, b: u8) -> bool
    ensures { result ≡ both_off a b }
{
    !is_on(a) && !is_on(b)
}

// Refusal 1, of the lengths of the rows.
pub fn rows_differ(x: usize, y: usize, flag: usize) -> bool
    ensures { result ≡ rows_differ x y flag }
{
    x != y || x != flag
}

// Refusal 2, of the number of points.
pub fn no_point(n: usize) -> bool
    ensures { result ≡ no_point n }
{
    n == 0
}

// Refusal 3, of the number of points.
pub fn too_many(n: usize) -> bool
    ensures { result ≡ too_many n }
{
    1024 < n
}

// Refusal 4.
pub fn first_off(flags: &[u8]) -> bool
    ensures { result ≡ first_off flags.now }
{
    !flags.is_empty() && !is_on(flags[0])
}

// Refusal 5: the last and the first are no neighbours in the row.
pub fn off_neighbours(flags: &[u8]) -> bool
    ensures { result ≡ off_neighbours flags.now }
{
    for i in 1..flags.len() {
        if both_off(flags[i - 1], flags[i]) {
            return true;
        }
    }
    false
}

// The five tests, in their order: the first that holds refuses the contour.
pub fn judge(xs: &[i16], ys: &[i16], flags: &[u8]) -> Result<(), Refusal>
    ensures { result ≡ judged xs.now ys.now flags.now }
{
    if rows_differ(xs.len(), ys.len(), flags.len()) {
        return Err(Refusal::UnevenRows);
    }
    if no_point(flags.len()) {
        return Err(Refusal::NoPoint);
    }
    if too_many(flags.len()) {
        return Err(Refusal::TooManyPoints);
    }
    if first_off(flags) {
        return Err(Refusal::StartsOffCurve);
    }
    if off_neighbours(flags) {
        return Err(Refusal::OffCurveNeighbours);
    }
    Ok(())
}
