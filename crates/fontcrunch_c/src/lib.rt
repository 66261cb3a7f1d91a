// The entries of `fontcrunch` for C and Rust programs: a static library of exports, each of which calls the function of its own name and promises
// the same. What each row, room and number means stands in include/fontcrunch.h.
#![tactic(auto)]

ghost use Rattle.rows.specs.Lent.{contour, Shown};
ghost use Rattle.settings.specs.Settings.{settings_of};
ghost use Rattle.edition.specs.Scratch.{scratch};
ghost use Rattle.crunch.specs.Entry as Crunch;
ghost use Rattle.chains.specs.Entry as Chains;
ghost use Rattle.checks.specs.Entry as Checks;
ghost use Rattle.fontcrunch.specs.Exports.{crunch_report, check_report, ChainShown};

use fontcrunch::{ChainReport, CheckReport, CrunchReport};

#[unsafe(no_mangle)]
pub extern "C" fn fontcrunch_crunch(
    xs: &[i16],
    ys: &[i16],
    flags: &[u8],
    penalty: u32,
    whole_units: u32,
    closed: u32,
    ox: &mut [i16],
    oy: &mut [i16],
    of: &mut [u8],
    samples: &mut [[f64; 4]],
    breaks: &mut [[f64; 6]],
    answers: &mut [[f64; 3]],
    links: &mut [u32],
    points: &mut [[i16; 3]],
) -> CrunchReport
    ensures { Shown crunch_report (Crunch.Promise (contour xs ys flags) (settings_of penalty whole_units closed)
        (Crunch.rows ox oy of (scratch samples breaks answers links) points)) result }
{
    fontcrunch::fontcrunch_crunch(
        xs,
        ys,
        flags,
        penalty,
        whole_units,
        closed,
        ox,
        oy,
        of,
        samples,
        breaks,
        answers,
        links,
        points,
    )
}

#[unsafe(no_mangle)]
pub extern "C" fn fontcrunch_chain(
    xs: &[i16],
    ys: &[i16],
    flags: &[u8],
    k: usize,
    penalty: u32,
    whole_units: u32,
    closed: u32,
    starts: &mut [u32],
    ends: &mut [u32],
    cxs: &mut [f64],
    cys: &mut [f64],
    spans: &mut [[u32; 2]],
    samples: &mut [[f64; 4]],
    breaks: &mut [[f64; 6]],
    answers: &mut [[f64; 3]],
    links: &mut [u32],
) -> ChainReport
    ensures { ChainShown (Chains.Promise (contour xs ys flags) (settings_of penalty whole_units closed) k (Chains.chain_in starts ends cxs cys spans)
        (scratch samples breaks answers links)) result }
{
    fontcrunch::fontcrunch_chain(
        xs,
        ys,
        flags,
        k,
        penalty,
        whole_units,
        closed,
        starts,
        ends,
        cxs,
        cys,
        spans,
        samples,
        breaks,
        answers,
        links,
    )
}

#[unsafe(no_mangle)]
pub extern "C" fn fontcrunch_check(
    xs: &[i16],
    ys: &[i16],
    flags: &[u8],
    k: usize,
    penalty: u32,
    whole_units: u32,
    closed: u32,
    starts: &[u32],
    ends: &[u32],
    cxs: &[f64],
    cys: &[f64],
    score: f64,
    samples: &mut [[f64; 4]],
    breaks: &mut [[f64; 6]],
    answers: &mut [[f64; 3]],
    links: &mut [u32],
) -> CheckReport
    ensures { Shown check_report (Checks.Promise (contour xs ys flags) (settings_of penalty whole_units closed) k
        (Checks.chain_given starts ends cxs cys score) (scratch samples breaks answers links)) result }
{
    fontcrunch::fontcrunch_check(
        xs,
        ys,
        flags,
        k,
        penalty,
        whole_units,
        closed,
        starts,
        ends,
        cxs,
        cys,
        score,
        samples,
        breaks,
        answers,
        links,
    )
}
