// Cubic outlines made quads.
ghost use Rattle.rows.specs.Lent.{contour, Shown};
ghost use Rattle.cubics.specs.Entry.{lent, Promise};
ghost use Rattle.exports.specs.FromCubics.{report};

use exports::from_cubics::CubicReport;

#[unsafe(no_mangle)]
pub extern "C" fn fontcrunch_from_cubics(
    xs: &[i16],
    ys: &[i16],
    flags: &[u8],
    ox: &mut [i16],
    oy: &mut [i16],
    of: &mut [u8],
) -> CubicReport
    ensures { Shown report (Promise (contour xs ys flags) (lent ox oy of)) result }
{
    exports::from_cubics::fontcrunch_from_cubics(xs, ys, flags, ox, oy, of)
}
