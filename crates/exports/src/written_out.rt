// Implied points written out.
ghost use Rattle.std.specs.Prelude.{◌≡◌};
ghost use Rattle.rows.specs.Lent.{contour, Shown};
ghost use Rattle.explicit.specs.Entry.{lent, Promise};
ghost use Rattle.exports.specs.WrittenOut.{report};

use refusals::Refusal;

// The number of a refusal, or 0; points written.
#[repr(C)]
#[derive(Clone, Copy)]
pub struct ExplicitReport {
    pub number: u32,
    pub points: usize,
}

fn explicit_report(e: Result<usize, Refusal>) -> ExplicitReport
    ensures { result ≡ report e }
{
    match e {
        Err(k) => ExplicitReport {
            number: k.number() as u32,
            points: 0,
        },
        Ok(points) => ExplicitReport { number: 0, points },
    }
}

#[unsafe(no_mangle)]
pub extern "C" fn fontcrunch_explicit(
    xs: &[i16],
    ys: &[i16],
    flags: &[u8],
    ox: &mut [i16],
    oy: &mut [i16],
    of: &mut [u8],
) -> ExplicitReport
    ensures { Shown report (Promise (contour xs ys flags) (lent ox oy of)) result }
{
    explicit_report(explicit::explicit_contour(xs, ys, flags, ox, oy, of))
}
