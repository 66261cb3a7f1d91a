// Cubic outlines made quads.
ghost use Rattle.std.specs.Prelude.{◌≡◌};
ghost use Rattle.rows.specs.Lent.{contour, Shown};
ghost use Rattle.cubics.specs.Entry.{lent, Promise};
ghost use Rattle.exports.specs.FromCubics.{report};

use refusals::Refusal;

// The number of a refusal, or 0; points written.
#[repr(C)]
#[derive(Clone, Copy)]
pub struct CubicReport {
    pub number: u32,
    pub points: usize,
}

fn cubic_report(c: Result<usize, Refusal>) -> CubicReport
    ensures { result ≡ report c }
{
    match c {
        Err(k) => CubicReport {
            number: k.number() as u32,
            points: 0,
        },
        Ok(points) => CubicReport { number: 0, points },
    }
}

#[unsafe(no_mangle)]
pub extern "C" fn fontcrunch_from_cubics(
    xs: &[i16],
    ys: &[i16],
    flags: &[u8],
    ox: &mut [i16],
    oy: &mut [i16],
    of: &mut [u8],
) -> CubicReport
    ensures { Shown report (Promise (contour xs ys flags) (lent ox oy of)) result }
{
    cubic_report(cubics::from_cubics(xs, ys, flags, ox, oy, of))
}
