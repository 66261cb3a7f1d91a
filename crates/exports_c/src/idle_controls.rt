// Idle controls dropped, and put back. The answers are those of cleaning, and so are the reports.
ghost use Rattle.rows.specs.Lent.{contour, Shown};
ghost use Rattle.clean.specs.Entry.{lent, lent_outputs};
ghost use Rattle.idle.specs.Entry.{Promise, PutPromise};
ghost use Rattle.exports.specs.IdleControls.{report, put_report};

use exports::cleaning::{CleanReport, PutReport};

#[unsafe(no_mangle)]
pub extern "C" fn fontcrunch_drop_idle(
    xs: &[i16],
    ys: &[i16],
    flags: &[u8],
    ox: &mut [i16],
    oy: &mut [i16],
    of: &mut [u8],
    list: &mut [[u32; 2]],
) -> CleanReport
    ensures { Shown report (Promise (contour xs ys flags) (lent ox oy of list)) result }
{
    exports::idle_controls::fontcrunch_drop_idle(xs, ys, flags, ox, oy, of, list)
}

#[unsafe(no_mangle)]
pub extern "C" fn fontcrunch_put_back_idle(
    xs: &[i16],
    ys: &[i16],
    flags: &[u8],
    list: &[[u32; 2]],
    ox: &mut [i16],
    oy: &mut [i16],
    of: &mut [u8],
) -> PutReport
    ensures { Shown put_report (PutPromise (contour xs ys flags) list.now (lent_outputs ox oy of)) result }
{
    exports::idle_controls::fontcrunch_put_back_idle(xs, ys, flags, list, ox, oy, of)
}
