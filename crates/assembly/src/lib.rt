// A contour's runs, worked in order into the scratch row for points.
#![tactic(auto)]

ghost use Rattle.std.specs.Prelude.{◌≡◌, ◌≤◌, length};
ghost use Rattle.rows.specs.Lent.{before, after, room};
ghost use Rattle.runs.specs.Runs.{between, stops_of};
ghost use Rattle.settings.specs.Settings.{penalty_of};
ghost use Rattle.contour.specs.Points.{unchanged_in};
ghost use Rattle.survey.specs.Survey.{survey_in};
ghost use Rattle.optimize.specs.Tally.{untried};
ghost use Rattle.optimize.specs.Fallen.{Upto};
ghost use Rattle.edition.specs.Edition.{edition_of, after_survey, FoundBreaks};
ghost use Rattle.edition.specs.Scratch.{rooms_in};
ghost use Rattle.assembly.specs.Assembly.{going, added, result_of, after_run, crunch_all, crunch_round, crunch_runs};
ghost use Rattle.assembly.specs.Stands.{Stands, Sighted, Onward, Adds, ClosesUp};

use contour::Written;
use edition::Worked;
use optimize::Tally;
use refusals::Refusal;
use runs::Run;
use settings::Settings;
use survey::Surveyed;

// The points written, and what was counted: the pairs tried, and the lookups that fell in them.
#[derive(Clone, Copy)]
pub struct Progress {
    pub w: Written,
    pub tally: Tally,
}

#[derive(Clone, Copy)]
pub enum Crunching {
    // a run left the contour unchanged: later runs are not seen
    Ended(Progress),
    Going(Progress),
}

// One edition's step on a surveyed run: the answers, then the points of the pieces after those so far.
pub fn step(
    xs: &[i16],
    ys: &[i16],
    flags: &[u8],
    settings: Settings,
    p: Progress,
    samples: &[[f64; 4]],
    breaks: &[[f64; 6]],
    answers: &mut [[f64; 3]],
    links: &mut [u32],
    points: &mut [[i16; 3]],
) -> Result<Crunching, Refusal>
    requires { FoundBreaks breaks.now × Upto 1024 p.tally }
    ensures { Adds (added (unchanged_in xs.now ys.now flags.now settings.closed)
        (edition_of (room answers) (room links) samples.now breaks.now (penalty_of settings))) points p result }
{
    let sofar = p.tally;
    match edition::edition(samples, breaks, answers, links, settings.per_piece())? {
        Worked::Unchanged(t) => {
            let tally = sofar.plus(t);
            let w = contour::unchanged_in(xs, ys, flags, settings.closed, points);
            Ok(Crunching::Ended(Progress { w, tally }))
        }
        Worked::Done(n, k, t) => {
            let tally = sofar.plus(t);
            let w = pieces::push_chain(&breaks[..n], answers, links, k, points, p.w);
            Ok(Crunching::Going(Progress { w, tally }))
        }
    }
}

// One edition's step after the survey of a run, whose rows it is lent to be read alone.
pub fn after_survey(
    xs: &[i16],
    ys: &[i16],
    flags: &[u8],
    settings: Settings,
    p: Progress,
    s: Result<Option<Surveyed>, Refusal>,
    samples: &[[f64; 4]],
    breaks: &[[f64; 6]],
    answers: &mut [[f64; 3]],
    links: &mut [u32],
    points: &mut [[i16; 3]],
) -> Result<Crunching, Refusal>
    requires { Sighted samples.now breaks.now s × Upto 1024 p.tally }
    ensures { Adds (added (unchanged_in xs.now ys.now flags.now settings.closed)
        (after_survey (room answers) (room links) (penalty_of settings) (survey_in samples.now breaks.now s))) points p result }
{
    match s? {
        None => {
            let tally = p.tally;
            let w = contour::unchanged_in(xs, ys, flags, settings.closed, points);
            Ok(Crunching::Ended(Progress { w, tally }))
        }
        Some(
            Surveyed {
                samples: n,
                breaks: m,
            },
        ) => {
            step(
                xs,
                ys,
                flags,
                settings,
                p,
                &samples[..n],
                &breaks[..m],
                answers,
                links,
                points,
            )
        }
    }
}

// A run that is worked: the survey, then the step on it.
fn work_run(
    xs: &[i16],
    ys: &[i16],
    flags: &[u8],
    first: usize,
    count: usize,
    settings: Settings,
    p: Progress,
    samples: &mut [[f64; 4]],
    breaks: &mut [[f64; 6]],
    answers: &mut [[f64; 3]],
    links: &mut [u32],
    points: &mut [[i16; 3]],
) -> Result<Crunching, Refusal>
    requires { Upto 1024 p.tally }
    ensures { Adds (added (unchanged_in xs.now ys.now flags.now settings.closed)
        (result_of (rooms_in samples breaks answers links) settings
        xs.now ys.now flags.now (record { first = first; count = count }))) points p result }
{
    let s = quicksurvey::survey(
        xs,
        ys,
        flags,
        first,
        count,
        settings.grid(),
        samples,
        breaks,
    );
    after_survey(
        xs, ys, flags, settings, p, s, samples, breaks, answers, links, points,
    )
}

// The run of `count` segments from segment `first` on: a line is copied.
fn crunch_run(
    xs: &[i16],
    ys: &[i16],
    flags: &[u8],
    first: usize,
    count: usize,
    settings: Settings,
    p: Progress,
    samples: &mut [[f64; 4]],
    breaks: &mut [[f64; 6]],
    answers: &mut [[f64; 3]],
    links: &mut [u32],
    points: &mut [[i16; 3]],
) -> Result<Crunching, Refusal>
    requires { Upto 1024 p.tally }
    ensures { Adds (after_run (rooms_in samples breaks answers links) settings
        xs.now ys.now flags.now (record { first = first; count = count })) points p result }
{
    let a = outline::start_of(flags, first);
    if runs::is_copied_from(xs, ys, flags, a, count) {
        let tally = p.tally;
        let w = contour::push_seg(points, p.w, outline::read_from(xs, ys, flags, a));
        return Ok(Crunching::Going(Progress { w, tally }));
    }
    work_run(
        xs, ys, flags, first, count, settings, p, samples, breaks, answers, links, points,
    )
}

// The runs between listed stops, in order.
fn crunch_runs(
    xs: &[i16],
    ys: &[i16],
    flags: &[u8],
    stops: &[usize],
    settings: Settings,
    from: Progress,
    samples: &mut [[f64; 4]],
    breaks: &mut [[f64; 6]],
    answers: &mut [[f64; 3]],
    links: &mut [u32],
    points: &mut [[i16; 3]],
) -> Result<Crunching, Refusal>
    requires { (length stops.now ≤ 1025) × (from.tally ≡ untried) }
    ensures { Onward (λ ps tally. crunch_all (rooms_in samples breaks answers links) settings xs.now ys.now flags.now
        (between stops.now) (going ps tally)) (before points) (after points) from (room points) result }
{
    let mut p = from;
    for k in 0..stops.len() {
        let Some(Run { first, count }) = runs::run_at(stops, k) else {
            return Ok(Crunching::Going(p));
        };
        match crunch_run(
            xs, ys, flags, first, count, settings, p, samples, breaks, answers, links, points,
        )? {
            Crunching::Going(q) => {
                p = q;
            }
            Crunching::Ended(q) => {
                return Ok(Crunching::Ended(q));
            }
        }
    }
    Ok(Crunching::Going(p))
}

// Closed: round from the start s.
pub fn close_up(
    c: Result<Crunching, Refusal>,
    points: &mut [[i16; 3]],
    s: [i16; 3],
) -> Result<Crunching, Refusal>
    ensures { ClosesUp (before points) (after points) c s result }
{
    match c? {
        Crunching::Ended(p) => Ok(Crunching::Ended(p)),
        Crunching::Going(p) => {
            let tally = p.tally;
            let w = contour::close(points, p.w, s);
            Ok(Crunching::Going(Progress { w, tally }))
        }
    }
}

// Closed mode: the runs from the first corner round to it. No corner leaves the contour unchanged.
fn crunch_round(
    xs: &[i16],
    ys: &[i16],
    flags: &[u8],
    stops: &[usize],
    settings: Settings,
    samples: &mut [[f64; 4]],
    breaks: &mut [[f64; 6]],
    answers: &mut [[f64; 3]],
    links: &mut [u32],
    points: &mut [[i16; 3]],
) -> Result<Crunching, Refusal>
    requires { length stops.now ≤ 1025 }
    ensures { Stands (room points) (after points)
        (crunch_round (rooms_in samples breaks answers links) settings xs.now ys.now flags.now stops.now) result }
{
    if stops.len() == 0 {
        let w = contour::unchanged_in(xs, ys, flags, settings.closed, points);
        return Ok(Crunching::Ended(Progress {
            w,
            tally: Tally {
                pairs: 0,
                fallen: 0,
            },
        }));
    }
    let s = contour::point_as(true, xs, ys, outline::start_of(flags, stops[0]));
    let c = crunch_runs(
        xs,
        ys,
        flags,
        stops,
        settings,
        Progress {
            w: contour::nothing(),
            tally: Tally {
                pairs: 0,
                fallen: 0,
            },
        },
        samples,
        breaks,
        answers,
        links,
        points,
    );
    close_up(c, points, s)
}

// The points of a contour by its stops, which are listed.
fn crunch_listed(
    xs: &[i16],
    ys: &[i16],
    flags: &[u8],
    stops: &[usize],
    settings: Settings,
    samples: &mut [[f64; 4]],
    breaks: &mut [[f64; 6]],
    answers: &mut [[f64; 3]],
    links: &mut [u32],
    points: &mut [[i16; 3]],
) -> Result<Crunching, Refusal>
    requires { (length stops.now ≤ 1025) × (stops.now ≡ stops_of settings.closed xs.now ys.now flags.now) }
    ensures { Stands (room points) (after points)
        (crunch_runs (rooms_in samples breaks answers links) settings xs.now ys.now flags.now) result }
{
    if settings.closed {
        return crunch_round(
            xs, ys, flags, stops, settings, samples, breaks, answers, links, points,
        );
    }
    let w = contour::start(xs, ys, points);
    crunch_runs(
        xs,
        ys,
        flags,
        stops,
        settings,
        Progress {
            w,
            tally: Tally {
                pairs: 0,
                fallen: 0,
            },
        },
        samples,
        breaks,
        answers,
        links,
        points,
    )
}

// Those of a contour of few points, whose stops a short list holds, so that the long one is not zeroed for it.
fn crunch_few(
    xs: &[i16],
    ys: &[i16],
    flags: &[u8],
    settings: Settings,
    samples: &mut [[f64; 4]],
    breaks: &mut [[f64; 6]],
    answers: &mut [[f64; 3]],
    links: &mut [u32],
    points: &mut [[i16; 3]],
) -> Result<Crunching, Refusal>
    requires { length flags.now ≤ 32 }
    ensures { Stands (room points) (after points)
        (crunch_runs (rooms_in samples breaks answers links) settings xs.now ys.now flags.now) result }
{
    let mut list = [0usize; 33];
    let n = runs::list_stops::<32>(xs, ys, flags, settings.closed, &mut list);
    crunch_listed(
        xs,
        ys,
        flags,
        &list[..n],
        settings,
        samples,
        breaks,
        answers,
        links,
        points,
    )
}

// The points of a contour that none of refusals 1 to 5 and 16 is given for, in the scratch row.
pub fn crunch_points(
    xs: &[i16],
    ys: &[i16],
    flags: &[u8],
    settings: Settings,
    samples: &mut [[f64; 4]],
    breaks: &mut [[f64; 6]],
    answers: &mut [[f64; 3]],
    links: &mut [u32],
    points: &mut [[i16; 3]],
) -> Result<Crunching, Refusal>
    ensures { Stands (room points) (after points)
        (crunch_runs (rooms_in samples breaks answers links) settings xs.now ys.now flags.now) result }
{
    if flags.len() <= 32 {
        return crunch_few(
            xs, ys, flags, settings, samples, breaks, answers, links, points,
        );
    }
    let mut list = [0usize; 1025];
    let n = runs::list_stops::<1024>(xs, ys, flags, settings.closed, &mut list);
    crunch_listed(
        xs,
        ys,
        flags,
        &list[..n],
        settings,
        samples,
        breaks,
        answers,
        links,
        points,
    )
}
