// The crunch entry: a contour in three rows, its points out in three others, and five scratch rows, which
// are left zero throughout whatever they held. It is made of two steps: crunching into the scratch row for
// points, and copying out.
#![tactic(auto)]

ghost use Rattle.std.specs.Prelude.{◌≡◌, ◌≤◌, length};
ghost use Rattle.rows.specs.Lent.{before, after, room, contour};
ghost use Rattle.contour.specs.Output.{outputs};
ghost use Rattle.edition.specs.Scratch.{rooms_in, scratch};
ghost use Rattle.crunch.specs.Crunch.{crunch_of};
ghost use Rattle.crunch.specs.Entry.{rows, Promise};
ghost use Rattle.crunch.specs.Stands.{Gives, outcome_by, outcome_in, Counted, Fits};
ghost use Rattle.crunch.specs.Steps.{copied, Answered};

use assembly::{Crunching, Progress};
use optimize::Tally;
use refusals::Refusal;
use settings::Settings;

// Points written, and the pairs tried and the lookups that fell in them.
#[derive(Clone, Copy)]
pub struct Crunched {
    pub points: usize,
    pub tally: Tally,
}

// Reversed in the crate's mode, without implied points; or there were more points than the room.
fn finish_points(p: Progress, closed: bool, points: &mut [[i16; 3]]) -> Result<Crunched, Refusal>
    requires { p.w.count ≤ length points.old }
    ensures { Gives (after points) (outcome_by closed (before points) p) result }
{
    let w = p.w;
    let tally = p.tally;
    if w.over {
        return Err(Refusal::OutputTooShort);
    }
    let points = contour::finish(points, w, closed);
    Ok(Crunched { points, tally })
}

// What the work comes to.
pub fn finish(
    c: Result<Crunching, Refusal>,
    closed: bool,
    points: &mut [[i16; 3]],
) -> Result<Crunched, Refusal>
    requires { Counted points.old c }
    ensures { Gives (after points) (outcome_in closed (before points) c) result }
{
    match c? {
        Crunching::Ended(p) => finish_points(p, closed, points),
        Crunching::Going(p) => finish_points(p, closed, points),
    }
}

// A contour crunched into the row for points, whose first places then hold what is to be written. The rows
// that it was worked in are left as they are.
pub fn crunch_into(
    xs: &[i16],
    ys: &[i16],
    flags: &[u8],
    settings: Settings,
    samples: &mut [[f64; 4]],
    breaks: &mut [[f64; 6]],
    answers: &mut [[f64; 3]],
    links: &mut [u32],
    points: &mut [[i16; 3]],
) -> Result<Crunched, Refusal>
    ensures { Gives (after points)
        (crunch_of (rooms_in samples breaks answers links) (room points) settings xs.now ys.now flags.now) result }
{
    settings.judge(xs, ys, flags)?;
    let c = assembly::crunch_points(
        xs, ys, flags, settings, samples, breaks, answers, links, points,
    );
    finish(c, settings.closed, points)
}

// The first points of the row, to the output rows.
pub fn put_out(
    c: Result<Crunched, Refusal>,
    points: &[[i16; 3]],
    ox: &mut [i16],
    oy: &mut [i16],
    of: &mut [u8],
)
    requires { Fits points.now (outputs ox.old oy.old of.old) c }
    ensures { outputs (after ox) (after oy) (after of) ≡ copied c points.now (outputs (before ox) (before oy) (before of)) }
{
    if let Ok(crunched) = c {
        contour::copy_out(points, crunched.points, ox, oy, of);
    }
}

// The whole, but for the scratch rows, which are left as they are.
fn crunch(
    xs: &[i16],
    ys: &[i16],
    flags: &[u8],
    settings: Settings,
    ox: &mut [i16],
    oy: &mut [i16],
    of: &mut [u8],
    samples: &mut [[f64; 4]],
    breaks: &mut [[f64; 6]],
    answers: &mut [[f64; 3]],
    links: &mut [u32],
    points: &mut [[i16; 3]],
) -> Result<Crunched, Refusal>
    ensures { Answered (contour xs ys flags) settings (rows ox oy of (scratch samples breaks answers links) points) result }
{
    let room = rows::least(
        rows::least(ox.len(), oy.len()),
        rows::least(of.len(), points.len()),
    );
    let c = crunch_into(
        xs,
        ys,
        flags,
        settings,
        samples,
        breaks,
        answers,
        links,
        &mut points[..room],
    );
    put_out(c, points, ox, oy, of);
    c
}

pub fn crunch_contour(
    xs: &[i16],
    ys: &[i16],
    flags: &[u8],
    settings: Settings,
    ox: &mut [i16],
    oy: &mut [i16],
    of: &mut [u8],
    samples: &mut [[f64; 4]],
    breaks: &mut [[f64; 6]],
    answers: &mut [[f64; 3]],
    links: &mut [u32],
    points: &mut [[i16; 3]],
) -> Result<Crunched, Refusal>
    ensures { Promise (contour xs ys flags) settings (rows ox oy of (scratch samples breaks answers links) points) result }
{
    let r = crunch(
        xs, ys, flags, settings, ox, oy, of, samples, breaks, answers, links, points,
    );
    rows::clear_work(samples, breaks, answers, links);
    rows::clear_points(points);
    r
}
