// GLIF read, written and crunched.
ghost use Rattle.rows.specs.Lent.{Shown};
ghost use Rattle.settings.specs.Settings.{settings_of};
ghost use Rattle.edition.specs.Scratch.{scratch};
ghost use Rattle.glifread.specs.Entry as Reading;
ghost use Rattle.glifwrite.specs.Entry as Writing;
ghost use Rattle.glifs.specs.Entry as Crunching;
ghost use Rattle.exports.specs.Glif.{read_report, write_report};

use exports::glif_files::{GlifReadReport, GlifWriteReport};

#[unsafe(no_mangle)]
pub extern "C" fn fontcrunch_read_glif(
    bytes: &[u8],
    ends: &mut [u16],
    xs: &mut [i16],
    ys: &mut [i16],
    flags: &mut [u8],
    points: &mut [[usize; 3]],
) -> GlifReadReport
    ensures { Shown read_report (Reading.Promise bytes.now (Reading.lent ends xs ys flags points)) result }
{
    exports::glif_files::fontcrunch_read_glif(bytes, ends, xs, ys, flags, points)
}

#[unsafe(no_mangle)]
pub extern "C" fn fontcrunch_write_glif(
    bytes: &[u8],
    ends: &[u16],
    xs: &[i16],
    ys: &[i16],
    flags: &[u8],
    out: &mut [u8],
) -> GlifWriteReport
    ensures { Shown write_report (Writing.Promise bytes.now (Writing.rows_given ends xs ys flags) (Writing.lent out)) result }
{
    exports::glif_files::fontcrunch_write_glif(bytes, ends, xs, ys, flags, out)
}

#[unsafe(no_mangle)]
pub extern "C" fn fontcrunch_crunch_glif(
    bytes: &[u8],
    penalty: u32,
    whole_units: u32,
    closed: u32,
    out: &mut [u8],
    ends: &mut [u16],
    xs: &mut [i16],
    ys: &mut [i16],
    flags: &mut [u8],
    marks: &mut [[usize; 3]],
    samples: &mut [[f64; 4]],
    breaks: &mut [[f64; 6]],
    answers: &mut [[f64; 3]],
    links: &mut [u32],
    points: &mut [[i16; 3]],
) -> GlifWriteReport
    ensures { Shown write_report (Crunching.Promise bytes.now (settings_of penalty whole_units closed)
        (Crunching.rows out (Reading.lent ends xs ys flags marks) (scratch samples breaks answers links) points)) result }
{
    exports::glif_files::fontcrunch_crunch_glif(
        bytes,
        penalty,
        whole_units,
        closed,
        out,
        ends,
        xs,
        ys,
        flags,
        marks,
        samples,
        breaks,
        answers,
        links,
        points,
    )
}
