// Glyph descriptions read, written and crunched.
ghost use Rattle.rows.specs.Lent.{Shown};
ghost use Rattle.settings.specs.Settings.{settings_of};
ghost use Rattle.edition.specs.Scratch.{scratch};
ghost use Rattle.glyfread.specs.Entry as Reading;
ghost use Rattle.glyfwrite.specs.Entry as Writing;
ghost use Rattle.glyphs.specs.Entry as Crunching;
ghost use Rattle.exports.specs.Glyph.{read_report, write_report};

use exports::glyph::{GlyphReadReport, GlyphWriteReport};

#[unsafe(no_mangle)]
pub extern "C" fn fontcrunch_read_glyph(
    bytes: &[u8],
    ends: &mut [u16],
    xs: &mut [i16],
    ys: &mut [i16],
    flags: &mut [u8],
    instructions: &mut [u8],
) -> GlyphReadReport
    ensures { Shown read_report (Reading.Promise bytes.now (Reading.filled ends xs ys flags instructions)) result }
{
    exports::glyph::fontcrunch_read_glyph(bytes, ends, xs, ys, flags, instructions)
}

#[unsafe(no_mangle)]
pub extern "C" fn fontcrunch_write_glyph(
    ends: &[u16],
    xs: &[i16],
    ys: &[i16],
    flags: &[u8],
    instructions: &[u8],
    out: &mut [u8],
) -> GlyphWriteReport
    ensures { Shown write_report (Writing.Promise (Writing.glyph_given ends xs ys flags instructions) out) result }
{
    exports::glyph::fontcrunch_write_glyph(ends, xs, ys, flags, instructions, out)
}

#[unsafe(no_mangle)]
pub extern "C" fn fontcrunch_crunch_glyph(
    bytes: &[u8],
    penalty: u32,
    whole_units: u32,
    closed: u32,
    out: &mut [u8],
    ends: &mut [u16],
    xs: &mut [i16],
    ys: &mut [i16],
    flags: &mut [u8],
    instructions: &mut [u8],
    samples: &mut [[f64; 4]],
    breaks: &mut [[f64; 6]],
    answers: &mut [[f64; 3]],
    links: &mut [u32],
    points: &mut [[i16; 3]],
) -> GlyphWriteReport
    ensures { Shown write_report (Crunching.Promise bytes.now (settings_of penalty whole_units closed)
        (Crunching.rows out (Reading.filled ends xs ys flags instructions) (scratch samples breaks answers links) points)) result }
{
    exports::glyph::fontcrunch_crunch_glyph(
        bytes,
        penalty,
        whole_units,
        closed,
        out,
        ends,
        xs,
        ys,
        flags,
        instructions,
        samples,
        breaks,
        answers,
        links,
        points,
    )
}
