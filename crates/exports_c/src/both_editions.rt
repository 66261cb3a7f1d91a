// Two editions of a contour.
ghost use Rattle.rows.specs.Lent.{contour, Shown};
ghost use Rattle.editions.specs.Editions.{order_of};
ghost use Rattle.editions.specs.Entry.{own, rows, Promise};
ghost use Rattle.exports.specs.BothEditions.{report};

use exports::both_editions::EditionsReport;

#[unsafe(no_mangle)]
pub extern "C" fn fontcrunch_editions(
    xs: &[i16],
    ys: &[i16],
    flags: &[u8],
    penalty_a: u32,
    penalty_b: u32,
    whole_units: u32,
    closed: u32,
    samples: &mut [[f64; 4]],
    breaks: &mut [[f64; 6]],
    answers_a: &mut [[f64; 3]],
    links_a: &mut [u32],
    points_a: &mut [[i16; 3]],
    ox_a: &mut [i16],
    oy_a: &mut [i16],
    of_a: &mut [u8],
    answers_b: &mut [[f64; 3]],
    links_b: &mut [u32],
    points_b: &mut [[i16; 3]],
    ox_b: &mut [i16],
    oy_b: &mut [i16],
    of_b: &mut [u8],
) -> EditionsReport
    ensures { Shown report (Promise (contour xs ys flags) (order_of penalty_a penalty_b whole_units closed)
        (rows samples breaks (own answers_a links_a points_a ox_a oy_a of_a) (own answers_b links_b points_b ox_b oy_b of_b))) result }
{
    exports::both_editions::fontcrunch_editions(
        xs,
        ys,
        flags,
        penalty_a,
        penalty_b,
        whole_units,
        closed,
        samples,
        breaks,
        answers_a,
        links_a,
        points_a,
        ox_a,
        oy_a,
        of_a,
        answers_b,
        links_b,
        points_b,
        ox_b,
        oy_b,
        of_b,
    )
}
