// Two editions of a contour.
ghost use Rattle.std.specs.Prelude.{◌≡◌};
ghost use Rattle.rows.specs.Lent.{contour, Shown};
ghost use Rattle.editions.specs.Editions.{order_of};
ghost use Rattle.editions.specs.Entry.{own, rows, Promise};
ghost use Rattle.exports.specs.BothEditions.{report_one, report};

use crunch::Crunched;
use editions::{Editions, Order};
use refusals::Refusal;

// Of one edition the number of a refusal, or 0; points written; pairs tried; lookups that fell in them.
#[repr(C)]
#[derive(Clone, Copy)]
pub struct EditionReport {
    pub number: u32,
    pub points: usize,
    pub pairs: usize,
    pub fallen: usize,
}

#[repr(C)]
#[derive(Clone, Copy)]
pub struct EditionsReport {
    pub a: EditionReport,
    pub b: EditionReport,
}

fn report_of(c: Result<Crunched, Refusal>) -> EditionReport
    ensures { result ≡ report_one c }
{
    match c {
        Err(k) => EditionReport {
            number: k.number() as u32,
            points: 0,
            pairs: 0,
            fallen: 0,
        },
        Ok(Crunched { points, tally }) => EditionReport {
            number: 0,
            points,
            pairs: tally.pairs,
            fallen: tally.fallen,
        },
    }
}

fn report_both(r: Editions) -> EditionsReport
    ensures { result ≡ report r }
{
    let ra = r.a;
    let rb = r.b;
    let a = report_of(ra);
    let b = report_of(rb);
    EditionsReport { a, b }
}

#[unsafe(no_mangle)]
pub extern "C" fn fontcrunch_editions(
    xs: &[i16],
    ys: &[i16],
    flags: &[u8],
    penalty_a: u32,
    penalty_b: u32,
    whole_units: u32,
    closed: u32,
    samples: &mut [[f64; 4]],
    breaks: &mut [[f64; 6]],
    answers_a: &mut [[f64; 3]],
    links_a: &mut [u32],
    points_a: &mut [[i16; 3]],
    ox_a: &mut [i16],
    oy_a: &mut [i16],
    of_a: &mut [u8],
    answers_b: &mut [[f64; 3]],
    links_b: &mut [u32],
    points_b: &mut [[i16; 3]],
    ox_b: &mut [i16],
    oy_b: &mut [i16],
    of_b: &mut [u8],
) -> EditionsReport
    ensures { Shown report (Promise (contour xs ys flags) (order_of penalty_a penalty_b whole_units closed)
        (rows samples breaks (own answers_a links_a points_a ox_a oy_a of_a) (own answers_b links_b points_b ox_b oy_b of_b))) result }
{
    report_both(editions::crunch_editions(
        xs,
        ys,
        flags,
        Order {
            penalty_a,
            penalty_b,
            whole_units: whole_units != 0,
            closed: closed != 0,
        },
        samples,
        breaks,
        answers_a,
        links_a,
        points_a,
        ox_a,
        oy_a,
        of_a,
        answers_b,
        links_b,
        points_b,
        ox_b,
        oy_b,
        of_b,
    ))
}
