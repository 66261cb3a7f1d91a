// Implied points written out.
ghost use Rattle.rows.specs.Lent.{contour, Shown};
ghost use Rattle.explicit.specs.Entry.{lent, Promise};
ghost use Rattle.exports.specs.WrittenOut.{report};

use exports::written_out::ExplicitReport;

#[unsafe(no_mangle)]
pub extern "C" fn fontcrunch_explicit(
    xs: &[i16],
    ys: &[i16],
    flags: &[u8],
    ox: &mut [i16],
    oy: &mut [i16],
    of: &mut [u8],
) -> ExplicitReport
    ensures { Shown report (Promise (contour xs ys flags) (lent ox oy of)) result }
{
    exports::written_out::fontcrunch_explicit(xs, ys, flags, ox, oy, of)
}
