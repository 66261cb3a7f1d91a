// The contours of a glyph, crunched one after the other into one row of points.
ghost use Rattle.std.specs.Prelude.{◌-◌, ◌≤◌, ◌<◌, length};
ghost use Rattle.rows.specs.Lent.{before, after, room};
ghost use Rattle.edition.specs.Scratch.{rooms_in};
ghost use Rattle.crunch.specs.Crunch.{crunch_of};
ghost use Rattle.glyphs.specs.Glyphs.{stretch, contours_from, crunch_each};
ghost use Rattle.glyphs.specs.Stands.{Numbers, Part, Adds, Apart, Gathers};

use crunch::Crunched;
use refusals::Refusal;
use settings::Settings;

// The number of the last of so many points. More than 65,536 have none: they are refused once all contours
// are crunched.
fn last_of(total: usize) -> u16
    ensures { Numbers total result }
{
    if total == 0 {
        return 0;
    }
    if 65536 < total {
        return 65535;
    }
    (total - 1) as u16
}

// The contour from one point to another, crunched after the points so far.
fn crunch_part(
    xs: &[i16],
    ys: &[i16],
    flags: &[u8],
    from: usize,
    to: usize,
    settings: Settings,
    samples: &mut [[f64; 4]],
    breaks: &mut [[f64; 6]],
    answers: &mut [[f64; 3]],
    links: &mut [u32],
    points: &mut [[i16; 3]],
    at: usize,
) -> Result<Crunched, Refusal>
    requires part { Part from to (length xs.now) (length ys.now) (length flags.now) }
    requires at_in_bounds { at ≤ length points.old }
    ensures adds { Adds (before points) at (after points)
        (crunch_of (rooms_in samples breaks answers links) (room points - at) settings
        (stretch from to xs.now) (stretch from to ys.now) (stretch from to flags.now)) result }
    ensures points_bound { room points < 18446744073709551616 }
{
    crunch::crunch_into(
        &xs[from..to],
        &ys[from..to],
        &flags[from..to],
        settings,
        samples,
        breaks,
        answers,
        links,
        &mut points[at..],
    )
}

// Each contour up to its end, which becomes the end of what it is crunched to. How many points all of them have.
pub fn crunch_contours(
    ends: &mut [u16],
    xs: &[i16],
    ys: &[i16],
    flags: &[u8],
    settings: Settings,
    samples: &mut [[f64; 4]],
    breaks: &mut [[f64; 6]],
    answers: &mut [[f64; 3]],
    links: &mut [u32],
    points: &mut [[i16; 3]],
) -> Result<usize, Refusal>
    requires { Apart ends.old (length xs.now) (length ys.now) (length flags.now) }
    ensures { Gathers (after points) (after ends)
        (crunch_each (rooms_in samples breaks answers links) settings (room points)
        (contours_from 0 (before ends) xs.now ys.now flags.now)) result }
{
    let mut from = 0;
    let mut at = 0;
    for k in 0..ends.len() {
        let to = glyf::wide(ends[k]) + 1;
        let part = crunch_part(
            xs, ys, flags, from, to, settings, samples, breaks, answers, links, points, at,
        )?;
        at += part.points;
        ends[k] = last_of(at);
        from = to;
    }
    Ok(at)
}
