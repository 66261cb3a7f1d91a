// Bytes in, bytes out: read, crunch contour by contour, write.
ghost use Rattle.std.specs.Prelude.{◌≡◌, length, take, replicate};
ghost use Rattle.rows.specs.Lent.{before, after, room};
ghost use Rattle.edition.specs.Scratch.{scratch, rooms_in};
ghost use Rattle.glifread.specs.Enter.{no_place};
ghost use Rattle.glifread.specs.Entry.{lent};
ghost use Rattle.glifwrite.specs.Writes.{given};
ghost use Rattle.glifs.specs.Glifs.{renewed_of};
ghost use Rattle.glifs.specs.Stands.{InRows, Writes};
ghost use Rattle.glifs.specs.Entry.{rows, whole_of, Promise};

use crate::lent::{belongs, clear_rows};
use refusals::Refusal;
use settings::Settings;

// The contours that stand in the first places of the rows. That these belong together is tested, and never fails.
fn crunch_read(
    bytes: &[u8],
    contours: usize,
    count: usize,
    settings: Settings,
    out: &mut [u8],
    ends: &mut [u16],
    xs: &mut [i16],
    ys: &mut [i16],
    flags: &mut [u8],
    samples: &mut [[f64; 4]],
    breaks: &mut [[f64; 6]],
    answers: &mut [[f64; 3]],
    links: &mut [u32],
    points: &mut [[i16; 3]],
) -> Result<usize, Refusal>
    requires { InRows (length ends.old) (length xs.old) (length ys.old) (length flags.old) contours count }
    ensures { Writes bytes.now (before out) (after out)
        (renewed_of (rooms_in samples breaks answers links) settings (room xs) (room ys) (room flags) (room points)
        (given (take contours (before ends)) (take count (before xs)) (take count (before ys)) (take count (before flags)))) result }
{
    if !belongs(&ends[..contours], count) {
        return Err(Refusal::UnevenRows);
    }
    let n = glyphs::crunch_rows(
        contours, count, settings, ends, xs, ys, flags, samples, breaks, answers, links, points,
    )?;
    glifwrite::write_glif(
        bytes,
        &ends[..contours],
        &xs[..n],
        &ys[..n],
        &flags[..n],
        out,
    )
}

// The whole, but for the scratch rows, which are left as they are.
fn crunch_bytes(
    bytes: &[u8],
    settings: Settings,
    out: &mut [u8],
    ends: &mut [u16],
    xs: &mut [i16],
    ys: &mut [i16],
    flags: &mut [u8],
    marks: &mut [[usize; 3]],
    samples: &mut [[f64; 4]],
    breaks: &mut [[f64; 6]],
    answers: &mut [[f64; 3]],
    links: &mut [u32],
    points: &mut [[i16; 3]],
) -> Result<usize, Refusal>
    ensures writes { Writes bytes.now (before out) (after out)
        (whole_of bytes.now settings (rows out (lent ends xs ys flags marks) (scratch samples breaks answers links) points).entry) result }
    ensures marks_value { after marks ≡ replicate (room marks) no_place }
{
    clear_rows(ends, xs, ys, flags);
    let read = glifread::read_glif(bytes, ends, xs, ys, flags, marks)?;
    crunch_read(
        bytes,
        read.contours,
        read.points,
        settings,
        out,
        ends,
        xs,
        ys,
        flags,
        samples,
        breaks,
        answers,
        links,
        points,
    )
}

pub fn crunch_glif(
    bytes: &[u8],
    settings: Settings,
    out: &mut [u8],
    ends: &mut [u16],
    xs: &mut [i16],
    ys: &mut [i16],
    flags: &mut [u8],
    marks: &mut [[usize; 3]],
    samples: &mut [[f64; 4]],
    breaks: &mut [[f64; 6]],
    answers: &mut [[f64; 3]],
    links: &mut [u32],
    points: &mut [[i16; 3]],
) -> Result<usize, Refusal>
    ensures { Promise bytes.now settings (rows out (lent ends xs ys flags marks) (scratch samples breaks answers links) points) result }
{
    let r = crunch_bytes(
        bytes, settings, out, ends, xs, ys, flags, marks, samples, breaks, answers, links, points,
    );
    clear_rows(ends, xs, ys, flags);
    rows::clear_work(samples, breaks, answers, links);
    rows::clear_points(points);
    r
}
