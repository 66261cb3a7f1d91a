// Glyph descriptions read, written and crunched.
ghost use Rattle.std.specs.Prelude.{◌≡◌};
ghost use Rattle.rows.specs.Lent.{Shown};
ghost use Rattle.settings.specs.Settings.{settings_of};
ghost use Rattle.edition.specs.Scratch.{scratch};
ghost use Rattle.glyfread.specs.Entry as Reading;
ghost use Rattle.glyfwrite.specs.Entry as Writing;
ghost use Rattle.glyphs.specs.Entry as Crunching;
ghost use Rattle.exports.specs.Glyph.{read_report, write_report};

use glyfread::Counts;
use refusals::Refusal;
use settings::Settings;

// The number of a refusal, or 0; how many contours, points and instruction bytes were read.
#[repr(C)]
#[derive(Clone, Copy)]
pub struct GlyphReadReport {
    pub number: u32,
    pub contours: usize,
    pub points: usize,
    pub instructions: usize,
}

fn read_report(r: Result<Counts, Refusal>) -> GlyphReadReport
    ensures { result ≡ read_report r }
{
    match r {
        Err(k) => GlyphReadReport {
            number: k.number() as u32,
            contours: 0,
            points: 0,
            instructions: 0,
        },
        Ok(
            Counts {
                contours,
                points,
                instructions,
            },
        ) => GlyphReadReport {
            number: 0,
            contours,
            points,
            instructions,
        },
    }
}

#[unsafe(no_mangle)]
pub extern "C" fn fontcrunch_read_glyph(
    bytes: &[u8],
    ends: &mut [u16],
    xs: &mut [i16],
    ys: &mut [i16],
    flags: &mut [u8],
    instructions: &mut [u8],
) -> GlyphReadReport
    ensures { Shown read_report (Reading.Promise bytes.now (Reading.filled ends xs ys flags instructions)) result }
{
    read_report(glyfread::read_glyph(bytes, ends, xs, ys, flags, instructions))
}

// The number of a refusal, or 0; how many bytes were written.
#[repr(C)]
#[derive(Clone, Copy)]
pub struct GlyphWriteReport {
    pub number: u32,
    pub bytes: usize,
}

fn write_report(r: Result<usize, Refusal>) -> GlyphWriteReport
    ensures { result ≡ write_report r }
{
    match r {
        Err(k) => GlyphWriteReport {
            number: k.number() as u32,
            bytes: 0,
        },
        Ok(bytes) => GlyphWriteReport { number: 0, bytes },
    }
}

#[unsafe(no_mangle)]
pub extern "C" fn fontcrunch_write_glyph(
    ends: &[u16],
    xs: &[i16],
    ys: &[i16],
    flags: &[u8],
    instructions: &[u8],
    out: &mut [u8],
) -> GlyphWriteReport
    ensures { Shown write_report (Writing.Promise (Writing.glyph_given ends xs ys flags instructions) out) result }
{
    write_report(glyfwrite::write_glyph(ends, xs, ys, flags, instructions, out))
}

#[unsafe(no_mangle)]
pub extern "C" fn fontcrunch_crunch_glyph(
    bytes: &[u8],
    penalty: u32,
    whole_units: u32,
    closed: u32,
    out: &mut [u8],
    ends: &mut [u16],
    xs: &mut [i16],
    ys: &mut [i16],
    flags: &mut [u8],
    instructions: &mut [u8],
    samples: &mut [[f64; 4]],
    breaks: &mut [[f64; 6]],
    answers: &mut [[f64; 3]],
    links: &mut [u32],
    points: &mut [[i16; 3]],
) -> GlyphWriteReport
    ensures { Shown write_report (Crunching.Promise bytes.now (settings_of penalty whole_units closed)
        (Crunching.rows out (Reading.filled ends xs ys flags instructions) (scratch samples breaks answers links) points)) result }
{
    write_report(glyphs::crunch_glyph(
        bytes,
        Settings {
            penalty,
            whole_units: whole_units != 0,
            closed: closed != 0,
        },
        out,
        ends,
        xs,
        ys,
        flags,
        instructions,
        samples,
        breaks,
        answers,
        links,
        points,
    ))
}
