// Cleaning an upload, and putting back what was dropped.
ghost use Rattle.rows.specs.Lent.{contour, Shown};
ghost use Rattle.clean.specs.Entry.{lent, Promise, lent_outputs, PutPromise};
ghost use Rattle.exports.specs.Cleaning.{report, put_report};

use exports::cleaning::{CleanReport, PutReport};

#[unsafe(no_mangle)]
pub extern "C" fn fontcrunch_clean(
    xs: &[i16],
    ys: &[i16],
    flags: &[u8],
    ox: &mut [i16],
    oy: &mut [i16],
    of: &mut [u8],
    list: &mut [[u32; 2]],
) -> CleanReport
    ensures { Shown report (Promise (contour xs ys flags) (lent ox oy of list)) result }
{
    exports::cleaning::fontcrunch_clean(xs, ys, flags, ox, oy, of, list)
}

#[unsafe(no_mangle)]
pub extern "C" fn fontcrunch_put_back(
    xs: &[i16],
    ys: &[i16],
    flags: &[u8],
    list: &[[u32; 2]],
    ox: &mut [i16],
    oy: &mut [i16],
    of: &mut [u8],
) -> PutReport
    ensures { Shown put_report (PutPromise (contour xs ys flags) list.now (lent_outputs ox oy of)) result }
{
    exports::cleaning::fontcrunch_put_back(xs, ys, flags, list, ox, oy, of)
}
