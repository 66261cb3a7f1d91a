// Contours that stand in rows, crunched, and what they became put in their place.
ghost use Rattle.std.specs.Prelude.{length, take};
ghost use Rattle.rows.specs.Lent.{before, after, room};
ghost use Rattle.edition.specs.Scratch.{rooms_in};
ghost use Rattle.glyphs.specs.Glyphs.{contours_from, least_of, crunch_rows};
ghost use Rattle.glyphs.specs.Stands.{Fits, FitsIn, Copies, CopiesAll, Held, Renews};

use crate::contours::crunch_contours;
use refusals::Refusal;
use settings::Settings;

// The new points into the rows that the old ones stood in.
fn copy_points(
    n: usize,
    settings: Settings,
    points: &[[i16; 3]],
    xs: &mut [i16],
    ys: &mut [i16],
    flags: &mut [u8],
) -> Result<usize, Refusal>
    requires { Fits (length points.now) (length xs.old) (length ys.old) (length flags.old) n }
    ensures { Copies settings points.now n (after xs) (after ys) (after flags) result }
{
    if !settings.is_fine() {
        return Err(Refusal::NoSuchPenalty);
    }
    if 65536 < n {
        return Err(Refusal::TooLarge);
    }
    contour::copy_out(points, n, xs, ys, flags);
    Ok(n)
}

fn copy_gathered(
    g: Result<usize, Refusal>,
    settings: Settings,
    points: &[[i16; 3]],
    xs: &mut [i16],
    ys: &mut [i16],
    flags: &mut [u8],
) -> Result<usize, Refusal>
    requires { FitsIn (length points.now) (length xs.old) (length ys.old) (length flags.old) g }
    ensures { CopiesAll settings points.now g (after xs) (after ys) (after flags) result }
{
    let n = g?;
    copy_points(n, settings, points, xs, ys, flags)
}

// So many contours, of so many points, in the first places of the rows.
pub fn crunch_rows(
    contours: usize,
    count: usize,
    settings: Settings,
    ends: &mut [u16],
    xs: &mut [i16],
    ys: &mut [i16],
    flags: &mut [u8],
    samples: &mut [[f64; 4]],
    breaks: &mut [[f64; 6]],
    answers: &mut [[f64; 3]],
    links: &mut [u32],
    points: &mut [[i16; 3]],
) -> Result<usize, Refusal>
    requires { Held ends.old (length xs.old) (length ys.old) (length flags.old) contours count }
    ensures { Renews (take contours (after ends)) (after xs) (after ys) (after flags)
        (crunch_rows (rooms_in samples breaks answers links) settings (least_of (room xs) (room ys) (room flags) (room points))
        (contours_from 0 (take contours (before ends)) (take count (before xs)) (take count (before ys)) (take count (before flags)))) result }
{
    let room = rows::least(
        rows::least(xs.len(), ys.len()),
        rows::least(flags.len(), points.len()),
    );
    let g = crunch_contours(
        &mut ends[..contours],
        &xs[..count],
        &ys[..count],
        &flags[..count],
        settings,
        samples,
        breaks,
        answers,
        links,
        &mut points[..room],
    );
    copy_gathered(g, settings, points, xs, ys, flags)
}
