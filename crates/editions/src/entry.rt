// The entry: two editions of a contour.
ghost use Rattle.std.specs.Prelude.{◌≡◌, min};
ghost use Rattle.rows.specs.Lent.{after, room, contour};
ghost use Rattle.edition.specs.Scratch.{rooms_in};
ghost use Rattle.crunch.specs.Crunch.{crunch_of};
ghost use Rattle.crunch.specs.Stands.{Gives};
ghost use Rattle.editions.specs.Editions.{settings_a, settings_b, work_of};
ghost use Rattle.editions.specs.Entry.{own, rows, Promise};

use crate::own::{begin, end, hand_over};
use crate::work::{Both, Order, crunch_runs};
use crunch::Crunched;
use refusals::Refusal;

#[derive(Clone, Copy)]
pub struct Editions {
    pub a: Result<Crunched, Refusal>,
    pub b: Result<Crunched, Refusal>,
}

// Of a contour that none of 1 to 5 is given for.
fn work_both(
    xs: &[i16],
    ys: &[i16],
    flags: &[u8],
    order: Order,
    samples: &mut [[f64; 4]],
    breaks: &mut [[f64; 6]],
    answers_a: &mut [[f64; 3]],
    links_a: &mut [u32],
    points_a: &mut [[i16; 3]],
    answers_b: &mut [[f64; 3]],
    links_b: &mut [u32],
    points_b: &mut [[i16; 3]],
) -> Editions
    ensures a { Gives (after points_a) (work_of (rooms_in samples breaks answers_a links_a) (settings_a order)
        xs.now ys.now flags.now (room points_a)) result.a }
    ensures b { Gives (after points_b) (work_of (rooms_in samples breaks answers_b links_b) (settings_b order)
        xs.now ys.now flags.now (room points_b)) result.b }
{
    let mut list = [0usize; 1025];
    let n = runs::list_stops::<1024>(xs, ys, flags, order.closed, &mut list);
    let begun_a = begin(xs, ys, flags, &list[..n], order.a(), points_a);
    let begun_b = begin(xs, ys, flags, &list[..n], order.b(), points_b);
    let c = crunch_runs(
        xs,
        ys,
        flags,
        &list[..n],
        order,
        Both {
            a: begun_a,
            b: begun_b,
        },
        samples,
        breaks,
        answers_a,
        links_a,
        points_a,
        answers_b,
        links_b,
        points_b,
    );
    let ca = c.a;
    let a = end(xs, ys, flags, &list[..n], order.closed, ca, points_a);
    let cb = c.b;
    let b = end(xs, ys, flags, &list[..n], order.closed, cb, points_b);
    Editions { a, b }
}

// Both editions in the rows for points, whose first places then hold what is to be written. 1 to 5 go to
// both.
fn both_into(
    xs: &[i16],
    ys: &[i16],
    flags: &[u8],
    order: Order,
    samples: &mut [[f64; 4]],
    breaks: &mut [[f64; 6]],
    answers_a: &mut [[f64; 3]],
    links_a: &mut [u32],
    points_a: &mut [[i16; 3]],
    answers_b: &mut [[f64; 3]],
    links_b: &mut [u32],
    points_b: &mut [[i16; 3]],
) -> Editions
    ensures a { Gives (after points_a) (crunch_of (rooms_in samples breaks answers_a links_a) (room points_a) (settings_a order)
        xs.now ys.now flags.now) result.a }
    ensures b { Gives (after points_b) (crunch_of (rooms_in samples breaks answers_b links_b) (room points_b) (settings_b order)
        xs.now ys.now flags.now) result.b }
{
    match refusals::judge(xs, ys, flags) {
        Err(k) => Editions {
            a: Err(k),
            b: Err(k),
        },
        Ok(()) => work_both(
            xs, ys, flags, order, samples, breaks, answers_a, links_a, points_a, answers_b,
            links_b, points_b,
        ),
    }
}

// The shortest of an edition's output rows and its row for points.
fn shortest(x: usize, y: usize, f: usize, points: usize) -> usize
    ensures { result ≡ min (min x y) (min f points) }
{
    rows::least(rows::least(x, y), rows::least(f, points))
}

pub fn crunch_editions(
    xs: &[i16],
    ys: &[i16],
    flags: &[u8],
    order: Order,
    samples: &mut [[f64; 4]],
    breaks: &mut [[f64; 6]],
    answers_a: &mut [[f64; 3]],
    links_a: &mut [u32],
    points_a: &mut [[i16; 3]],
    ox_a: &mut [i16],
    oy_a: &mut [i16],
    of_a: &mut [u8],
    answers_b: &mut [[f64; 3]],
    links_b: &mut [u32],
    points_b: &mut [[i16; 3]],
    ox_b: &mut [i16],
    oy_b: &mut [i16],
    of_b: &mut [u8],
) -> Editions
    ensures { Promise (contour xs ys flags) order
        (rows samples breaks (own answers_a links_a points_a ox_a oy_a of_a) (own answers_b links_b points_b ox_b oy_b of_b)) result }
{
    let room_a = shortest(ox_a.len(), oy_a.len(), of_a.len(), points_a.len());
    let room_b = shortest(ox_b.len(), oy_b.len(), of_b.len(), points_b.len());
    let r = both_into(
        xs,
        ys,
        flags,
        order,
        samples,
        breaks,
        answers_a,
        links_a,
        &mut points_a[..room_a],
        answers_b,
        links_b,
        &mut points_b[..room_b],
    );
    let a = r.a;
    hand_over(
        a, samples, breaks, answers_a, links_a, points_a, ox_a, oy_a, of_a,
    );
    let b = r.b;
    hand_over(
        b, samples, breaks, answers_b, links_b, points_b, ox_b, oy_b, of_b,
    );
    r
}
