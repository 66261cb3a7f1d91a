// The checker's entry: a contour in three rows, a run number, a chain in four rows with its score; and four
// scratch rows, which are left zero throughout whatever they held. Answers and links are lent for their
// rooms alone: the checker has the same rooms as the optimiser.
#![tactic(auto)]

ghost use Rattle.std.specs.Prelude.{◌≡◌, ◌<◌, ◌≤◌, length};
ghost use Rattle.rows.specs.Lent.{room, contour};
ghost use Rattle.runs.specs.Runs.{numbered_run};
ghost use Rattle.settings.specs.Settings.{grid_of, penalty_of, judged_for};
ghost use Rattle.survey.specs.Survey.{surveyed, survey_of};
ghost use Rattle.rows.specs.Scratch.{scratch};
ghost use Rattle.checks.specs.Checks.{refusing, verdict_of, of_survey, of_run, after_judging};
ghost use Rattle.checks.specs.Entry.{chain_given, Promise};

use refusals::Refusal;
use runs::Run;
use settings::Settings;
use survey::Surveyed;

// Whether the chain is accepted, and the lookups that fell in measuring it; none where it is refused.
#[derive(Clone, Copy)]
pub struct Ruling {
    pub verdict: Result<bool, Refusal>,
    pub fallen: usize,
}

fn refused(k: Refusal) -> Ruling
    ensures { result ≡ refusing k }
{
    Ruling {
        verdict: Err(k),
        fallen: 0,
    }
}

// A chain of which nothing is said asks for a sample at the last stored place.
fn verdict_of(c: Option<bool>) -> Result<bool, Refusal>
    ensures { result ≡ verdict_of c }
{
    c.ok_or(Refusal::PastLastSample)
}

// A surveyed run; half: half the shortest answer row, a room for breaks.
fn check_surveyed(
    samples: &[[f64; 4]],
    breaks: &[[f64; 6]],
    half: usize,
    settings: Settings,
    starts: &[u32],
    ends: &[u32],
    cxs: &[f64],
    cys: &[f64],
    score: f64,
) -> Ruling
    requires { (0 < length breaks.now) × (length breaks.now ≤ 2048) }
    ensures { result ≡ of_survey half (penalty_of settings) (chain_given starts ends cxs cys score)
        (surveyed samples.now breaks.now) }
{
    if half < breaks.len() {
        return refused(Refusal::TooManyBreaks);
    }
    let c = chain::check(
        samples,
        breaks,
        starts,
        ends,
        cxs,
        cys,
        score,
        settings.per_piece(),
    );
    let said = c.said;
    Ruling {
        verdict: verdict_of(said),
        fallen: c.fallen,
    }
}

// The run of `count` segments from segment `first` on.
fn check_run(
    xs: &[i16],
    ys: &[i16],
    flags: &[u8],
    first: usize,
    count: usize,
    starts: &[u32],
    ends: &[u32],
    cxs: &[f64],
    cys: &[f64],
    score: f64,
    half: usize,
    settings: Settings,
    samples: &mut [[f64; 4]],
    breaks: &mut [[f64; 6]],
) -> Ruling
    ensures { result ≡ of_survey half (penalty_of settings) (chain_given starts ends cxs cys score)
        (survey_of (room samples) (room breaks) xs.now ys.now flags.now first count (grid_of settings)) }
{
    match survey::survey(
        xs,
        ys,
        flags,
        first,
        count,
        settings.grid(),
        samples,
        breaks,
    ) {
        Err(k) => refused(k),
        Ok(None) => refused(Refusal::PastLastSample),
        Ok(
            Some(
                Surveyed {
                    samples: n,
                    breaks: m,
                },
            ),
        ) => {
            check_surveyed(
                &samples[..n],
                &breaks[..m],
                half,
                settings,
                starts,
                ends,
                cxs,
                cys,
                score,
            )
        }
    }
}

// Run k of a contour that none of refusals 1 to 5 and 16 is given for.
fn check_fine(
    xs: &[i16],
    ys: &[i16],
    flags: &[u8],
    k: usize,
    starts: &[u32],
    ends: &[u32],
    cxs: &[f64],
    cys: &[f64],
    score: f64,
    half: usize,
    settings: Settings,
    samples: &mut [[f64; 4]],
    breaks: &mut [[f64; 6]],
) -> Ruling
    ensures { result ≡ of_run half settings (chain_given starts ends cxs cys score)
        (room samples) (room breaks) xs.now ys.now flags.now (numbered_run settings.closed xs.now ys.now flags.now k) }
{
    match runs::numbered_run(xs, ys, flags, settings.closed, k) {
        None => refused(Refusal::NoSuchRun),
        Some(Run { first, count }) => {
            check_run(
                xs, ys, flags, first, count, starts, ends, cxs, cys, score, half, settings,
                samples, breaks,
            )
        }
    }
}

fn check_judged(
    xs: &[i16],
    ys: &[i16],
    flags: &[u8],
    k: usize,
    starts: &[u32],
    ends: &[u32],
    cxs: &[f64],
    cys: &[f64],
    score: f64,
    half: usize,
    settings: Settings,
    samples: &mut [[f64; 4]],
    breaks: &mut [[f64; 6]],
) -> Ruling
    ensures { result ≡ after_judging (judged_for settings xs.now ys.now flags.now) (of_run half settings (chain_given starts ends cxs cys score)
        (room samples) (room breaks) xs.now ys.now flags.now (numbered_run settings.closed xs.now ys.now flags.now k)) }
{
    match settings.judge(xs, ys, flags) {
        Err(k) => refused(k),
        Ok(()) => {
            check_fine(
                xs, ys, flags, k, starts, ends, cxs, cys, score, half, settings, samples, breaks,
            )
        }
    }
}

pub fn check_chain(
    xs: &[i16],
    ys: &[i16],
    flags: &[u8],
    k: usize,
    settings: Settings,
    starts: &[u32],
    ends: &[u32],
    cxs: &[f64],
    cys: &[f64],
    score: f64,
    samples: &mut [[f64; 4]],
    breaks: &mut [[f64; 6]],
    answers: &mut [[f64; 3]],
    links: &mut [u32],
) -> Ruling
    ensures { Promise (contour xs ys flags) settings k (chain_given starts ends cxs cys score) (scratch samples breaks answers links) result }
{
    let half = rows::least(answers.len(), links.len()) / 2;
    let r = check_judged(
        xs, ys, flags, k, starts, ends, cxs, cys, score, half, settings, samples, breaks,
    );
    rows::clear_work(samples, breaks, answers, links);
    r
}
