// Bytes in, bytes out: read, crunch contour by contour, write.
ghost use Rattle.rows.specs.Lent.{before, after};
ghost use Rattle.edition.specs.Scratch.{scratch};
ghost use Rattle.glyf.specs.Layout.{glyph};
ghost use Rattle.glyfread.specs.Entry.{filled};
ghost use Rattle.glyfwrite.specs.Writes.{Writes};
ghost use Rattle.glyphs.specs.Glyphs.{crunched_of};
ghost use Rattle.glyphs.specs.Stands.{first_of, Stood};
ghost use Rattle.glyphs.specs.Entry.{rows, rooms_of, whole_of, Promise};

use crate::clear::clear_glyph;
use crate::renew::crunch_rows;
use refusals::Refusal;
use settings::Settings;

// The glyph that stands in the first places of the rows.
fn crunch_read(
    contours: usize,
    count: usize,
    size: usize,
    settings: Settings,
    out: &mut [u8],
    ends: &mut [u16],
    xs: &mut [i16],
    ys: &mut [i16],
    flags: &mut [u8],
    instructions: &mut [u8],
    samples: &mut [[f64; 4]],
    breaks: &mut [[f64; 6]],
    answers: &mut [[f64; 3]],
    links: &mut [u32],
    points: &mut [[i16; 3]],
) -> Result<usize, Refusal>
    requires { Stood (glyph ends.old xs.old ys.old flags.old instructions.old) contours count size }
    ensures { Writes
        (crunched_of (rooms_of (rows out (filled ends xs ys flags instructions) (scratch samples breaks answers links) points).entry) settings
        (first_of contours count size (filled ends xs ys flags instructions).entry)) (before out) (after out) result }
{
    let n = crunch_rows(
        contours, count, settings, ends, xs, ys, flags, samples, breaks, answers, links, points,
    )?;
    glyfwrite::write_glyph(
        &ends[..contours],
        &xs[..n],
        &ys[..n],
        &flags[..n],
        &instructions[..size],
        out,
    )
}

// The whole, but for the scratch rows, which are left as they are.
fn crunch_bytes(
    bytes: &[u8],
    settings: Settings,
    out: &mut [u8],
    ends: &mut [u16],
    xs: &mut [i16],
    ys: &mut [i16],
    flags: &mut [u8],
    instructions: &mut [u8],
    samples: &mut [[f64; 4]],
    breaks: &mut [[f64; 6]],
    answers: &mut [[f64; 3]],
    links: &mut [u32],
    points: &mut [[i16; 3]],
) -> Result<usize, Refusal>
    ensures { Writes
        (whole_of bytes.now settings (rows out (filled ends xs ys flags instructions) (scratch samples breaks answers links) points).entry)
        (before out) (after out) result }
{
    let read = glyfread::read_glyph(bytes, ends, xs, ys, flags, instructions)?;
    crunch_read(
        read.contours,
        read.points,
        read.instructions,
        settings,
        out,
        ends,
        xs,
        ys,
        flags,
        instructions,
        samples,
        breaks,
        answers,
        links,
        points,
    )
}

pub fn crunch_glyph(
    bytes: &[u8],
    settings: Settings,
    out: &mut [u8],
    ends: &mut [u16],
    xs: &mut [i16],
    ys: &mut [i16],
    flags: &mut [u8],
    instructions: &mut [u8],
    samples: &mut [[f64; 4]],
    breaks: &mut [[f64; 6]],
    answers: &mut [[f64; 3]],
    links: &mut [u32],
    points: &mut [[i16; 3]],
) -> Result<usize, Refusal>
    ensures { Promise bytes.now settings (rows out (filled ends xs ys flags instructions) (scratch samples breaks answers links) points) result }
{
    let r = crunch_bytes(
        bytes,
        settings,
        out,
        ends,
        xs,
        ys,
        flags,
        instructions,
        samples,
        breaks,
        answers,
        links,
        points,
    );
    clear_glyph(ends, xs, ys, flags, instructions);
    rows::clear_work(samples, breaks, answers, links);
    rows::clear_points(points);
    r
}
