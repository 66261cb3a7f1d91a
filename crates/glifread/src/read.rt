// A file into rows: it is judged whole, with its points in the scratch row; then the contours enter the rows.
ghost use Rattle.std.specs.Prelude.{◌≡◌, length, replicate};
ghost use Rattle.glifread.specs.Enter.{no_place};
ghost use Rattle.glifread.specs.Reads.{refusal, answer_of};
ghost use Rattle.glifread.specs.Entry.{lent, Promise};

use crate::enter::enter_all;
use glif::{Totals, judge};
use gliftext::pick;
use refusals::Refusal;

// How many contours and points were read.
#[derive(Clone, Copy, Debug, PartialEq, Eq)]
pub struct Counts {
    pub contours: usize,
    pub points: usize,
}

// What the file is refused for, else 9 where a row is too short.
fn refuse(
    f: Totals,
    ends: usize,
    xs: usize,
    ys: usize,
    flags: usize,
    points: usize,
) -> Option<Refusal>
    ensures { result ≡ refusal f ends xs ys flags points }
{
    let nine = Some(Refusal::OutputTooShort);
    let output = pick(
        xs < f.full,
        nine,
        pick(ys < f.full, nine, pick(flags < f.full, nine, None)),
    );
    let short = pick(
        ends < f.contours,
        nine,
        pick(points < f.points, nine, output),
    );
    f.refusal.or(short)
}

fn answer_of(f: Totals, k: Option<Refusal>) -> Result<Counts, Refusal>
    ensures { result ≡ answer_of f k }
{
    match k {
        Some(e) => Err(e),
        None => Ok(Counts {
            contours: f.contours,
            points: f.full,
        }),
    }
}

pub fn clear(points: &mut [[usize; 3]])
    ensures { points.new ≡ replicate (length points.old) no_place }
{
    for i in 0..points.len() {
        points[i] = [0; 3];
    }
}

// Where the file is refused, no contour enters.
pub fn read_glif(
    bytes: &[u8],
    ends: &mut [u16],
    xs: &mut [i16],
    ys: &mut [i16],
    flags: &mut [u8],
    points: &mut [[usize; 3]],
) -> Result<Counts, Refusal>
    ensures { Promise bytes.now (lent ends xs ys flags points) result }
{
    clear(points);
    let f = judge(bytes, points);
    let k = refuse(f, ends.len(), xs.len(), ys.len(), flags.len(), points.len());
    enter_all(
        points,
        f.points,
        pick(k.is_some(), 0, f.contours),
        ends,
        xs,
        ys,
        flags,
    );
    clear(points);
    answer_of(f, k)
}
