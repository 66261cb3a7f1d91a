// What an edition does by itself: how its work begins, what it comes to, and how its rows are handed back.
ghost use Rattle.rows.specs.Lent.{before, after, room};
ghost use Rattle.settings.specs.Settings.{settings_fine};
ghost use Rattle.contour.specs.Output.{outputs};
ghost use Rattle.edition.specs.Scratch.{scratch};
ghost use Rattle.crunch.specs.Crunch.{outcome_of};
ghost use Rattle.crunch.specs.Entry.{rows};
ghost use Rattle.crunch.specs.Stands.{Fits};
ghost use Rattle.editions.specs.Editions.{begins, ends};
ghost use Rattle.editions.specs.Stands.{Begins, Stood, Comes, HandedOver};

use assembly::{Crunching, Progress};
use crunch::Crunched;
use optimize::Tally;
use refusals::Refusal;
use settings::Settings;

// The work's beginning, with refusal 16. In closed mode no corner leaves the contour unchanged.
pub fn begin(
    xs: &[i16],
    ys: &[i16],
    flags: &[u8],
    stops: &[usize],
    settings: Settings,
    points: &mut [[i16; 3]],
) -> Result<Crunching, Refusal>
    ensures { Begins (room points) (after points) (begins settings xs.now ys.now flags.now (settings_fine settings) stops.now) result }
{
    if settings.is_fine() {
        if settings.closed {
            if stops.len() == 0 {
                let w = contour::unchanged_in(xs, ys, flags, settings.closed, points);
                return Ok(Crunching::Ended(Progress {
                    w,
                    tally: Tally {
                        pairs: 0,
                        fallen: 0,
                    },
                }));
            }
            return Ok(Crunching::Going(Progress {
                w: contour::nothing(),
                tally: Tally {
                    pairs: 0,
                    fallen: 0,
                },
            }));
        }
        let w = contour::start(xs, ys, points);
        return Ok(Crunching::Going(Progress {
            w,
            tally: Tally {
                pairs: 0,
                fallen: 0,
            },
        }));
    }
    Err(Refusal::NoSuchPenalty)
}

// The end of it: closed up in closed mode, and what it comes to.
pub fn end(
    xs: &[i16],
    ys: &[i16],
    flags: &[u8],
    stops: &[usize],
    closed: bool,
    c: Result<Crunching, Refusal>,
    points: &mut [[i16; 3]],
) -> Result<Crunched, Refusal>
    requires { Stood points.old c }
    ensures { Comes (λ x. outcome_of closed (room points) (ends xs.now ys.now flags.now closed stops.now x))
        (before points) (after points) c result }
{
    if closed {
        if stops.len() == 0 {
            return crunch::finish(c, closed, points);
        }
        let s = contour::point_as(true, xs, ys, outline::start_of(flags, stops[0]));
        let d = assembly::close_up(c, points, s);
        return crunch::finish(d, closed, points);
    }
    crunch::finish(c, closed, points)
}

// The points to the output rows; then the rows that the edition was worked in are made zero.
pub fn hand_over(
    c: Result<Crunched, Refusal>,
    samples: &mut [[f64; 4]],
    breaks: &mut [[f64; 6]],
    answers: &mut [[f64; 3]],
    links: &mut [u32],
    points: &mut [[i16; 3]],
    ox: &mut [i16],
    oy: &mut [i16],
    of: &mut [u8],
)
    requires { Fits points.old (outputs ox.old oy.old of.old) c }
    ensures { HandedOver (rows ox oy of (scratch samples breaks answers links) points) c }
{
    crunch::put_out(c, points, ox, oy, of);
    rows::clear_work(samples, breaks, answers, links);
    rows::clear_points(points);
}
