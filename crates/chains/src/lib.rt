// The chain entry: a contour in three rows and a run number; the optimiser's chain of that run out in five
// rows, start break, end break, control x, control y, and the segments that hold both breaks; and four
// scratch rows, which are left zero throughout whatever they held.
#![tactic(auto)]

ghost use Rattle.std.specs.Prelude.{◌≡◌, ◌≤◌, Float, length, take, Some, Result};
ghost use Rattle.rows.specs.Lent.{before, room, contour};
ghost use Rattle.breaks.specs.Breaks.{Row};
ghost use Rattle.segments.specs.Segments.{carried};
ghost use Rattle.attempt.specs.Answers.{Statelet};
ghost use Rattle.optimize.specs.Stored.{Anywhere, Holds};
ghost use Rattle.runs.specs.Runs.{numbered_run};
ghost use Rattle.edition.specs.Edition.{RunOutcome, solved, edition_of, FoundBreaks, Works};
ghost use Rattle.edition.specs.Scratch.{rooms_in, scratch};
ghost use Rattle.contour.specs.Output.{front};
ghost use Rattle.pieces.specs.Slots.{Held};
ghost use Rattle.chains.specs.Chains.{chain_out, of_run, chain_of};
ghost use Rattle.chains.specs.Spans.{spans_from, breaks_of, breaks_at};
ghost use Rattle.chains.specs.Entry.{room_in, chain_in, Promise};
ghost use Rattle.chains.specs.Steps.{Hands, Readable};

use edition::Worked;
use optimize::Tally;
use refusals::Refusal;
use runs::Run;
use settings::Settings;
use survey::Surveyed;

#[derive(Clone, Copy)]
pub enum Chained {
    // the run leaves the contour unchanged: no piece; the pairs tried and the lookups that fell in them
    Unchanged(Tally),
    // pieces written, the score, and the same
    Pieces(usize, f64, Tally),
}

// The segments of n pieces, of which starts and ends tell the breaks.
fn put_spans(breaks: &[[f64; 6]], starts: &[u32], ends: &[u32], n: usize, spans: &mut [[u32; 2]])
    requires { (n ≤ length starts.now) × (n ≤ length ends.now) × (n ≤ length spans.old) }
    ensures { spans.new ≡ front (spans_from breaks.now (take n starts.now) (take n ends.now)) (before spans) }
{
    for i in 0..n {
        let a = segments::segment_at(breaks, starts[i] as usize);
        let b = segments::segment_at(breaks, ends[i] as usize);
        spans[i] = [a, b];
    }
}

// The chain of stored answer k.
fn put_solved(
    breaks: &[[f64; 6]],
    answers: &[[f64; 3]],
    links: &[u32],
    k: usize,
    tally: Tally,
    starts: &mut [u32],
    ends: &mut [u32],
    cxs: &mut [f64],
    cys: &mut [f64],
    spans: &mut [[u32; 2]],
) -> Result<Chained, Refusal>
    requires { Held answers.now links.now k }
    ensures { (b : Row) (a : Statelet) → Holds Anywhere b answers.now links.now k a →
        Hands (chain_out (room_in (chain_in starts ends cxs cys spans).entry) (solved a tally)) breaks.now (chain_in starts ends cxs cys spans) result }
{
    let Some(n) = pieces::put_chain(answers, links, k, spans.len(), starts, ends, cxs, cys) else {
        return Err(Refusal::OutputTooShort);
    };
    put_spans(breaks, starts, ends, n, spans);
    Ok(Chained::Pieces(n, answers[k][0], tally))
}

fn put_worked(
    worked: Result<Worked, Refusal>,
    breaks: &[[f64; 6]],
    answers: &[[f64; 3]],
    links: &[u32],
    starts: &mut [u32],
    ends: &mut [u32],
    cxs: &mut [f64],
    cys: &mut [f64],
    spans: &mut [[u32; 2]],
) -> Result<Chained, Refusal>
    requires { Readable answers.now links.now worked }
    ensures { (penalty : Float) (b : Row) (x : RunOutcome) → Works penalty b answers.now links.now x worked →
        Hands (chain_out (room_in (chain_in starts ends cxs cys spans).entry) x) breaks.now (chain_in starts ends cxs cys spans) result }
{
    match worked? {
        Worked::Unchanged(tally) => Ok(Chained::Unchanged(tally)),
        Worked::Done(_, k, tally) => {
            put_solved(
                breaks, answers, links, k, tally, starts, ends, cxs, cys, spans,
            )
        }
    }
}

// A surveyed run: the breaks get the numbers of their segments after they have been worked.
fn chain_surveyed(
    xs: &[i16],
    ys: &[i16],
    flags: &[u8],
    first: usize,
    count: usize,
    penalty: f64,
    starts: &mut [u32],
    ends: &mut [u32],
    cxs: &mut [f64],
    cys: &mut [f64],
    spans: &mut [[u32; 2]],
    samples: &[[f64; 4]],
    breaks: &mut [[f64; 6]],
    answers: &mut [[f64; 3]],
    links: &mut [u32],
) -> Result<Chained, Refusal>
    requires { FoundBreaks breaks.old × (first ≤ 2048) × (count ≤ 2048) }
    ensures { Hands (chain_out (room_in (chain_in starts ends cxs cys spans).entry)
        (edition_of (room answers) (room links) samples.now (before breaks) penalty))
        (carried xs.now ys.now flags.now first count (before breaks)) (chain_in starts ends cxs cys spans) result }
{
    let worked = edition::edition(samples, breaks, answers, links, penalty);
    segments::name(xs, ys, flags, first, count, breaks);
    put_worked(
        worked, breaks, answers, links, starts, ends, cxs, cys, spans,
    )
}

// The run of `count` segments from segment `first` on.
fn chain_run(
    xs: &[i16],
    ys: &[i16],
    flags: &[u8],
    first: usize,
    count: usize,
    settings: Settings,
    starts: &mut [u32],
    ends: &mut [u32],
    cxs: &mut [f64],
    cys: &mut [f64],
    spans: &mut [[u32; 2]],
    samples: &mut [[f64; 4]],
    breaks: &mut [[f64; 6]],
    answers: &mut [[f64; 3]],
    links: &mut [u32],
) -> Result<Chained, Refusal>
    requires { (first ≤ 2048) × (count ≤ 2048) }
    ensures { Hands (of_run (rooms_in samples breaks answers links) (room_in (chain_in starts ends cxs cys spans).entry) settings
        xs.now ys.now flags.now (Some (record { first = first; count = count })))
        (breaks_of (rooms_in samples breaks answers links) settings xs.now ys.now flags.now (Some (record { first = first; count = count })))
        (chain_in starts ends cxs cys spans) result }
{
    let penalty = settings.per_piece();
    match quicksurvey::survey(
        xs,
        ys,
        flags,
        first,
        count,
        settings.grid(),
        samples,
        breaks,
    )? {
        None => Ok(Chained::Unchanged(Tally {
            pairs: 0,
            fallen: 0,
        })),
        Some(
            Surveyed {
                samples: n,
                breaks: m,
            },
        ) => {
            chain_surveyed(
                xs,
                ys,
                flags,
                first,
                count,
                penalty,
                starts,
                ends,
                cxs,
                cys,
                spans,
                &samples[..n],
                &mut breaks[..m],
                answers,
                links,
            )
        }
    }
}

// Run k of a contour that none of refusals 1 to 5 and 16 is given for.
fn chain_fine(
    xs: &[i16],
    ys: &[i16],
    flags: &[u8],
    k: usize,
    settings: Settings,
    starts: &mut [u32],
    ends: &mut [u32],
    cxs: &mut [f64],
    cys: &mut [f64],
    spans: &mut [[u32; 2]],
    samples: &mut [[f64; 4]],
    breaks: &mut [[f64; 6]],
    answers: &mut [[f64; 3]],
    links: &mut [u32],
) -> Result<Chained, Refusal>
    requires { length flags.now ≤ 1024 }
    ensures { Hands (of_run (rooms_in samples breaks answers links) (room_in (chain_in starts ends cxs cys spans).entry) settings
        xs.now ys.now flags.now (numbered_run settings.closed xs.now ys.now flags.now k))
        (breaks_at (rooms_in samples breaks answers links) settings xs.now ys.now flags.now k) (chain_in starts ends cxs cys spans) result }
{
    match runs::numbered_run(xs, ys, flags, settings.closed, k) {
        None => Err(Refusal::NoSuchRun),
        Some(Run { first, count }) => {
            chain_run(
                xs, ys, flags, first, count, settings, starts, ends, cxs, cys, spans, samples,
                breaks, answers, links,
            )
        }
    }
}

fn chain_judged(
    xs: &[i16],
    ys: &[i16],
    flags: &[u8],
    k: usize,
    settings: Settings,
    starts: &mut [u32],
    ends: &mut [u32],
    cxs: &mut [f64],
    cys: &mut [f64],
    spans: &mut [[u32; 2]],
    samples: &mut [[f64; 4]],
    breaks: &mut [[f64; 6]],
    answers: &mut [[f64; 3]],
    links: &mut [u32],
) -> Result<Chained, Refusal>
    ensures { Hands (chain_of (rooms_in samples breaks answers links) (room_in (chain_in starts ends cxs cys spans).entry) settings
        xs.now ys.now flags.now k)
        (breaks_at (rooms_in samples breaks answers links) settings xs.now ys.now flags.now k) (chain_in starts ends cxs cys spans) result }
{
    settings.judge(xs, ys, flags)?;
    chain_fine(
        xs, ys, flags, k, settings, starts, ends, cxs, cys, spans, samples, breaks, answers, links,
    )
}

pub fn chain_of_run(
    xs: &[i16],
    ys: &[i16],
    flags: &[u8],
    k: usize,
    settings: Settings,
    starts: &mut [u32],
    ends: &mut [u32],
    cxs: &mut [f64],
    cys: &mut [f64],
    spans: &mut [[u32; 2]],
    samples: &mut [[f64; 4]],
    breaks: &mut [[f64; 6]],
    answers: &mut [[f64; 3]],
    links: &mut [u32],
) -> Result<Chained, Refusal>
    ensures { Promise (contour xs ys flags) settings k (chain_in starts ends cxs cys spans) (scratch samples breaks answers links) result }
{
    let r = chain_judged(
        xs, ys, flags, k, settings, starts, ends, cxs, cys, spans, samples, breaks, answers, links,
    );
    rows::clear_work(samples, breaks, answers, links);
    r
}
