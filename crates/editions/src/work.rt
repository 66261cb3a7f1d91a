// Both editions' work on the runs of a contour. Samples and breaks are written by the survey alone.
ghost use Rattle.std.specs.Prelude.{◌≡◌, ◌++◌, ◌≤◌, length};
ghost use Rattle.rows.specs.Lent.{before, after, room};
ghost use Rattle.runs.specs.Runs.{between};
ghost use Rattle.settings.specs.Settings.{penalty_of};
ghost use Rattle.survey.specs.Survey.{survey_in};
ghost use Rattle.edition.specs.Edition.{after_survey};
ghost use Rattle.edition.specs.Scratch.{rooms_in};
ghost use Rattle.contour.specs.Points.{points_of, unchanged_in};
ghost use Rattle.assembly.specs.Assembly.{going, added, result_of, onward, crunch_all};
ghost use Rattle.optimize.specs.Tally.{untried};
ghost use Rattle.optimize.specs.Fallen.{Upto};
ghost use Rattle.assembly.specs.Stands.{Sighted, tally_in};
ghost use Rattle.editions.specs.Editions.{settings_a, settings_b, while_going};
ghost use Rattle.editions.specs.Stands.{over_in, Carries, Moves};

use assembly::{Crunching, Progress};
use outline::Seg;
use refusals::Refusal;
use runs::Run;
use settings::Settings;
use survey::Surveyed;

// What an order chooses. A penalty is an edition's own; the grid and the mode are shared, since the breaks
// and the list of runs come of them.
#[derive(Clone, Copy)]
pub struct Order {
    pub penalty_a: u32,
    pub penalty_b: u32,
    pub whole_units: bool,
    pub closed: bool,
}

impl Order {
    pub fn a(self) -> Settings
        ensures { result ≡ settings_a self }
    {
        Settings {
            penalty: self.penalty_a,
            whole_units: self.whole_units,
            closed: self.closed,
        }
    }

    pub fn b(self) -> Settings
        ensures { result ≡ settings_b self }
    {
        Settings {
            penalty: self.penalty_b,
            whole_units: self.whole_units,
            closed: self.closed,
        }
    }
}

// How far each edition is.
#[derive(Clone, Copy)]
pub struct Both {
    pub a: Result<Crunching, Refusal>,
    pub b: Result<Crunching, Refusal>,
}

// Whether an edition's work has ended, or was refused.
fn is_over(c: Result<Crunching, Refusal>) -> bool
    ensures { result ≡ over_in c }
{
    !matches!(c, Ok(Crunching::Going(_)))
}

// ---- one edition

// A run that is one line is copied.
fn copy_line(
    c: Result<Crunching, Refusal>,
    g: Seg,
    points: &mut [[i16; 3]],
) -> Result<Crunching, Refusal>
    ensures { Moves (while_going (λ ps tally. going (ps ++ points_of g) tally)) (before points) (after points) c result }
{
    match c? {
        Crunching::Ended(p) => Ok(Crunching::Ended(p)),
        Crunching::Going(p) => {
            let tally = p.tally;
            let w = contour::push_seg(points, p.w, g);
            Ok(Crunching::Going(Progress { w, tally }))
        }
    }
}

// A run that is worked: the step on its survey.
fn take_step(
    xs: &[i16],
    ys: &[i16],
    flags: &[u8],
    settings: Settings,
    c: Result<Crunching, Refusal>,
    s: Result<Option<Surveyed>, Refusal>,
    samples: &[[f64; 4]],
    breaks: &[[f64; 6]],
    answers: &mut [[f64; 3]],
    links: &mut [u32],
    points: &mut [[i16; 3]],
) -> Result<Crunching, Refusal>
    requires { Sighted samples.now breaks.now s × Upto 1024 (tally_in c) }
    ensures { Moves (while_going (added (unchanged_in xs.now ys.now flags.now settings.closed)
        (after_survey (room answers) (room links) (penalty_of settings) (survey_in samples.now breaks.now s)))) (before points) (after points) c result }
{
    match c? {
        Crunching::Ended(p) => Ok(Crunching::Ended(p)),
        Crunching::Going(p) => assembly::after_survey(
            xs, ys, flags, settings, p, s, samples, breaks, answers, links, points,
        ),
    }
}

// ---- both editions

// The survey of a run, once, then the step of each.
fn step_both(
    xs: &[i16],
    ys: &[i16],
    flags: &[u8],
    first: usize,
    count: usize,
    order: Order,
    c: Both,
    samples: &mut [[f64; 4]],
    breaks: &mut [[f64; 6]],
    answers_a: &mut [[f64; 3]],
    links_a: &mut [u32],
    points_a: &mut [[i16; 3]],
    answers_b: &mut [[f64; 3]],
    links_b: &mut [u32],
    points_b: &mut [[i16; 3]],
) -> Both
    requires { Upto 1024 (tally_in c.a) × Upto 1024 (tally_in c.b) }
    ensures a { Moves (while_going (added (unchanged_in xs.now ys.now flags.now order.closed)
        (result_of (rooms_in samples breaks answers_a links_a) (settings_a order) xs.now ys.now flags.now
        (record { first = first; count = count })))) (before points_a) (after points_a) c.a result.a }
    ensures b { Moves (while_going (added (unchanged_in xs.now ys.now flags.now order.closed)
        (result_of (rooms_in samples breaks answers_b links_b) (settings_b order) xs.now ys.now flags.now
        (record { first = first; count = count })))) (before points_b) (after points_b) c.b result.b }
{
    let s = quicksurvey::survey(
        xs,
        ys,
        flags,
        first,
        count,
        order.a().grid(),
        samples,
        breaks,
    );
    let ca = c.a;
    let a = take_step(
        xs,
        ys,
        flags,
        order.a(),
        ca,
        s,
        samples,
        breaks,
        answers_a,
        links_a,
        points_a,
    );
    let cb = c.b;
    let b = take_step(
        xs,
        ys,
        flags,
        order.b(),
        cb,
        s,
        samples,
        breaks,
        answers_b,
        links_b,
        points_b,
    );
    Both { a, b }
}

// The run of `count` segments from segment `first` on. Where both works are over nothing is surveyed.
fn run_both(
    xs: &[i16],
    ys: &[i16],
    flags: &[u8],
    first: usize,
    count: usize,
    order: Order,
    c: Both,
    samples: &mut [[f64; 4]],
    breaks: &mut [[f64; 6]],
    answers_a: &mut [[f64; 3]],
    links_a: &mut [u32],
    points_a: &mut [[i16; 3]],
    answers_b: &mut [[f64; 3]],
    links_b: &mut [u32],
    points_b: &mut [[i16; 3]],
) -> Both
    requires { Upto 1024 (tally_in c.a) × Upto 1024 (tally_in c.b) }
    ensures a { Moves (onward (rooms_in samples breaks answers_a links_a) (settings_a order)
        xs.now ys.now flags.now (record { first = first; count = count })) (before points_a) (after points_a) c.a result.a }
    ensures b { Moves (onward (rooms_in samples breaks answers_b links_b) (settings_b order)
        xs.now ys.now flags.now (record { first = first; count = count })) (before points_b) (after points_b) c.b result.b }
{
    let ca = c.a;
    let cb = c.b;
    if is_over(ca) && is_over(cb) {
        return c;
    }
    let at = outline::start_of(flags, first);
    if runs::is_copied_from(xs, ys, flags, at, count) {
        let g = outline::read_from(xs, ys, flags, at);
        let a = copy_line(ca, g, points_a);
        let b = copy_line(cb, g, points_b);
        return Both { a, b };
    }
    step_both(
        xs, ys, flags, first, count, order, c, samples, breaks, answers_a, links_a, points_a,
        answers_b, links_b, points_b,
    )
}

// The runs between listed stops, in order.
pub fn crunch_runs(
    xs: &[i16],
    ys: &[i16],
    flags: &[u8],
    stops: &[usize],
    order: Order,
    from: Both,
    samples: &mut [[f64; 4]],
    breaks: &mut [[f64; 6]],
    answers_a: &mut [[f64; 3]],
    links_a: &mut [u32],
    points_a: &mut [[i16; 3]],
    answers_b: &mut [[f64; 3]],
    links_b: &mut [u32],
    points_b: &mut [[i16; 3]],
) -> Both
    requires { (length stops.now ≤ 1025) × (tally_in from.a ≡ untried) × (tally_in from.b ≡ untried) }
    ensures a { Carries (crunch_all (rooms_in samples breaks answers_a links_a) (settings_a order)
        xs.now ys.now flags.now (between stops.now)) (before points_a) (after points_a) from.a result.a }
    ensures b { Carries (crunch_all (rooms_in samples breaks answers_b links_b) (settings_b order)
        xs.now ys.now flags.now (between stops.now)) (before points_b) (after points_b) from.b result.b }
{
    let mut c = from;
    for k in 0..stops.len() {
        let Some(Run { first, count }) = runs::run_at(stops, k) else {
            return c;
        };
        c = run_both(
            xs, ys, flags, first, count, order, c, samples, breaks, answers_a, links_a, points_a,
            answers_b, links_b, points_b,
        );
    }
    c
}
