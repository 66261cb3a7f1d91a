// GLIF read, written and crunched.
ghost use Rattle.std.specs.Prelude.{◌≡◌};
ghost use Rattle.rows.specs.Lent.{Shown};
ghost use Rattle.settings.specs.Settings.{settings_of};
ghost use Rattle.edition.specs.Scratch.{scratch};
ghost use Rattle.glifread.specs.Entry as Reading;
ghost use Rattle.glifwrite.specs.Entry as Writing;
ghost use Rattle.glifs.specs.Entry as Crunching;
ghost use Rattle.exports.specs.Glif.{read_report, write_report};

use glifread::Counts;
use refusals::Refusal;
use settings::Settings;

// The number of a refusal, or 0; how many contours and points were read.
#[repr(C)]
#[derive(Clone, Copy, Debug, PartialEq, Eq)]
pub struct GlifReadReport {
    pub number: u32,
    pub contours: usize,
    pub points: usize,
}

fn read_report(r: Result<Counts, Refusal>) -> GlifReadReport
    ensures { result ≡ read_report r }
{
    match r {
        Err(k) => GlifReadReport {
            number: k.number() as u32,
            contours: 0,
            points: 0,
        },
        Ok(Counts { contours, points }) => GlifReadReport {
            number: 0,
            contours,
            points,
        },
    }
}

#[unsafe(no_mangle)]
pub extern "C" fn fontcrunch_read_glif(
    bytes: &[u8],
    ends: &mut [u16],
    xs: &mut [i16],
    ys: &mut [i16],
    flags: &mut [u8],
    points: &mut [[usize; 3]],
) -> GlifReadReport
    ensures { Shown read_report (Reading.Promise bytes.now (Reading.lent ends xs ys flags points)) result }
{
    read_report(glifread::read_glif(bytes, ends, xs, ys, flags, points))
}

// The number of a refusal, or 0; how many bytes were written.
#[repr(C)]
#[derive(Clone, Copy, Debug, PartialEq, Eq)]
pub struct GlifWriteReport {
    pub number: u32,
    pub bytes: usize,
}

fn write_report(r: Result<usize, Refusal>) -> GlifWriteReport
    ensures { result ≡ write_report r }
{
    match r {
        Err(k) => GlifWriteReport {
            number: k.number() as u32,
            bytes: 0,
        },
        Ok(bytes) => GlifWriteReport { number: 0, bytes },
    }
}

#[unsafe(no_mangle)]
pub extern "C" fn fontcrunch_write_glif(
    bytes: &[u8],
    ends: &[u16],
    xs: &[i16],
    ys: &[i16],
    flags: &[u8],
    out: &mut [u8],
) -> GlifWriteReport
    ensures { Shown write_report (Writing.Promise bytes.now (Writing.rows_given ends xs ys flags) (Writing.lent out)) result }
{
    write_report(glifwrite::write_glif(bytes, ends, xs, ys, flags, out))
}

#[unsafe(no_mangle)]
pub extern "C" fn fontcrunch_crunch_glif(
    bytes: &[u8],
    penalty: u32,
    whole_units: u32,
    closed: u32,
    out: &mut [u8],
    ends: &mut [u16],
    xs: &mut [i16],
    ys: &mut [i16],
    flags: &mut [u8],
    marks: &mut [[usize; 3]],
    samples: &mut [[f64; 4]],
    breaks: &mut [[f64; 6]],
    answers: &mut [[f64; 3]],
    links: &mut [u32],
    points: &mut [[i16; 3]],
) -> GlifWriteReport
    ensures { Shown write_report (Crunching.Promise bytes.now (settings_of penalty whole_units closed)
        (Crunching.rows out (Reading.lent ends xs ys flags marks) (scratch samples breaks answers links) points)) result }
{
    write_report(glifs::crunch_glif(
        bytes,
        Settings {
            penalty,
            whole_units: whole_units != 0,
            closed: closed != 0,
        },
        out,
        ends,
        xs,
        ys,
        flags,
        marks,
        samples,
        breaks,
        answers,
        links,
        points,
    ))
}
