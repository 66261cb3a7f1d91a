// Why a segment starts at a corner.
ghost use Rattle.rows.specs.Lent.{contour, Shown};
ghost use Rattle.why.specs.Entry.{Promise};
ghost use Rattle.exports.specs.Reasons.{report};

use exports::reasons::WhyReport;

#[unsafe(no_mangle)]
pub extern "C" fn fontcrunch_why(xs: &[i16], ys: &[i16], flags: &[u8], k: usize) -> WhyReport
    ensures { Shown report (Promise (contour xs ys flags) k) result }
{
    exports::reasons::fontcrunch_why(xs, ys, flags, k)
}
