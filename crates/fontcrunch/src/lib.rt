// The entries for C and Rust programs. A row goes by pointer and length; what each row, room and number
// means stands in include/fontcrunch.h.
#![tactic(auto)]

ghost use Rattle.std.specs.Prelude.{◌≡◌, T, Ok};
ghost use Rattle.std.specs.Float.{binary64};
ghost use Rattle.std.specs.Float.Ieee.{fits};
ghost use Rattle.rows.specs.Lent.{contour, Shown};
ghost use Rattle.settings.specs.Settings.{settings_of};
ghost use Rattle.edition.specs.Scratch.{scratch};
ghost use Rattle.crunch.specs.Entry as Crunch;
ghost use Rattle.chains.specs.Entry as Chains;
ghost use Rattle.chains.specs.declared.Chained.TheVariants.{Pieces};
ghost use Rattle.checks.specs.Entry as Checks;
ghost use Rattle.fontcrunch.specs.Exports.{crunch_report, chain_report, check_report, ChainShown};

use chains::Chained;
use checks::Ruling;
use crunch::Crunched;
use optimize::Tally;
use refusals::Refusal;
use settings::Settings;

// The number of a refusal, or 0; points written; pairs tried; lookups that fell off the samples in them.
#[repr(C)]
#[derive(Clone, Copy)]
pub struct CrunchReport {
    pub number: u32,
    pub points: usize,
    pub pairs: usize,
    pub fallen: usize,
}

// The number of a refusal, or 0; pieces written; pairs tried; the score's bits; lookups that fell.
#[repr(C)]
#[derive(Clone, Copy)]
pub struct ChainReport {
    pub number: u32,
    pub pieces: usize,
    pub pairs: usize,
    pub score_bits: u64,
    pub fallen: usize,
}

// The number of a refusal, or 0; 1 where the chain is accepted; lookups that fell in measuring it.
#[repr(C)]
#[derive(Clone, Copy)]
pub struct CheckReport {
    pub number: u32,
    pub accepted: u32,
    pub fallen: usize,
}

fn crunch_report(c: Result<Crunched, Refusal>) -> CrunchReport
    ensures { result ≡ crunch_report c }
{
    match c {
        Err(k) => CrunchReport {
            number: k.number() as u32,
            points: 0,
            pairs: 0,
            fallen: 0,
        },
        Ok(Crunched { points, tally }) => CrunchReport {
            number: 0,
            points,
            pairs: tally.pairs,
            fallen: tally.fallen,
        },
    }
}

// Of a chain that was written.
fn pieces_report(score: f64, pieces: usize, t: Tally) -> ChainReport
    ensures is { result ≡ chain_report (Ok (Pieces pieces score t)) }
    ensures double { T (fits binary64 score) }
{
    ChainReport {
        number: 0,
        pieces,
        pairs: t.pairs,
        score_bits: float::bits(score),
        fallen: t.fallen,
    }
}

fn chain_report(c: Result<Chained, Refusal>) -> ChainReport
    ensures is { result ≡ chain_report c }
    ensures double { T (fits binary64 (Chains.report c).score) }
{
    match c {
        Err(k) => ChainReport {
            number: k.number() as u32,
            pieces: 0,
            pairs: 0,
            score_bits: 0,
            fallen: 0,
        },
        Ok(Chained::Unchanged(t)) => ChainReport {
            number: 0,
            pieces: 0,
            pairs: t.pairs,
            score_bits: 0,
            fallen: t.fallen,
        },
        Ok(Chained::Pieces(pieces, score, t)) => pieces_report(score, pieces, t),
    }
}

fn check_report(v: Ruling) -> CheckReport
    ensures { result ≡ check_report v }
{
    let verdict = v.verdict;
    match verdict {
        Err(k) => CheckReport {
            number: k.number() as u32,
            accepted: 0,
            fallen: 0,
        },
        Ok(true) => CheckReport {
            number: 0,
            accepted: 1,
            fallen: v.fallen,
        },
        Ok(false) => CheckReport {
            number: 0,
            accepted: 0,
            fallen: v.fallen,
        },
    }
}

#[unsafe(no_mangle)]
pub extern "C" fn fontcrunch_crunch(
    xs: &[i16],
    ys: &[i16],
    flags: &[u8],
    penalty: u32,
    whole_units: u32,
    closed: u32,
    ox: &mut [i16],
    oy: &mut [i16],
    of: &mut [u8],
    samples: &mut [[f64; 4]],
    breaks: &mut [[f64; 6]],
    answers: &mut [[f64; 3]],
    links: &mut [u32],
    points: &mut [[i16; 3]],
) -> CrunchReport
    ensures { Shown crunch_report (Crunch.Promise (contour xs ys flags) (settings_of penalty whole_units closed)
        (Crunch.rows ox oy of (scratch samples breaks answers links) points)) result }
{
    crunch_report(crunch::crunch_contour(
        xs,
        ys,
        flags,
        Settings {
            penalty,
            whole_units: whole_units != 0,
            closed: closed != 0,
        },
        ox,
        oy,
        of,
        samples,
        breaks,
        answers,
        links,
        points,
    ))
}

#[unsafe(no_mangle)]
pub extern "C" fn fontcrunch_chain(
    xs: &[i16],
    ys: &[i16],
    flags: &[u8],
    k: usize,
    penalty: u32,
    whole_units: u32,
    closed: u32,
    starts: &mut [u32],
    ends: &mut [u32],
    cxs: &mut [f64],
    cys: &mut [f64],
    spans: &mut [[u32; 2]],
    samples: &mut [[f64; 4]],
    breaks: &mut [[f64; 6]],
    answers: &mut [[f64; 3]],
    links: &mut [u32],
) -> ChainReport
    ensures { ChainShown (Chains.Promise (contour xs ys flags) (settings_of penalty whole_units closed) k (Chains.chain_in starts ends cxs cys spans)
        (scratch samples breaks answers links)) result }
{
    chain_report(chains::chain_of_run(
        xs,
        ys,
        flags,
        k,
        Settings {
            penalty,
            whole_units: whole_units != 0,
            closed: closed != 0,
        },
        starts,
        ends,
        cxs,
        cys,
        spans,
        samples,
        breaks,
        answers,
        links,
    ))
}

#[unsafe(no_mangle)]
pub extern "C" fn fontcrunch_check(
    xs: &[i16],
    ys: &[i16],
    flags: &[u8],
    k: usize,
    penalty: u32,
    whole_units: u32,
    closed: u32,
    starts: &[u32],
    ends: &[u32],
    cxs: &[f64],
    cys: &[f64],
    score: f64,
    samples: &mut [[f64; 4]],
    breaks: &mut [[f64; 6]],
    answers: &mut [[f64; 3]],
    links: &mut [u32],
) -> CheckReport
    ensures { Shown check_report (Checks.Promise (contour xs ys flags) (settings_of penalty whole_units closed) k
        (Checks.chain_given starts ends cxs cys score) (scratch samples breaks answers links)) result }
{
    check_report(checks::check_chain(
        xs,
        ys,
        flags,
        k,
        Settings {
            penalty,
            whole_units: whole_units != 0,
            closed: closed != 0,
        },
        starts,
        ends,
        cxs,
        cys,
        score,
        samples,
        breaks,
        answers,
        links,
    ))
}
