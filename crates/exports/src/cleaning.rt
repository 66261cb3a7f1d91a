// Cleaning an upload, and putting back what was dropped.
ghost use Rattle.std.specs.Prelude.{◌≡◌};
ghost use Rattle.rows.specs.Lent.{contour, Shown};
ghost use Rattle.clean.specs.Entry.{lent, Promise, lent_outputs, PutPromise};
ghost use Rattle.exports.specs.Cleaning.{report, put_report};

use clean::Cleaned;
use refusals::Refusal;

// The number of a refusal, or 0; points kept; points dropped.
#[repr(C)]
#[derive(Clone, Copy)]
pub struct CleanReport {
    pub number: u32,
    pub kept: usize,
    pub dropped: usize,
}

pub fn clean_report(c: Result<Cleaned, Refusal>) -> CleanReport
    ensures { result ≡ report c }
{
    match c {
        Err(k) => CleanReport {
            number: k.number() as u32,
            kept: 0,
            dropped: 0,
        },
        Ok(Cleaned { kept, dropped }) => CleanReport {
            number: 0,
            kept,
            dropped,
        },
    }
}

#[unsafe(no_mangle)]
pub extern "C" fn fontcrunch_clean(
    xs: &[i16],
    ys: &[i16],
    flags: &[u8],
    ox: &mut [i16],
    oy: &mut [i16],
    of: &mut [u8],
    list: &mut [[u32; 2]],
) -> CleanReport
    ensures { Shown report (Promise (contour xs ys flags) (lent ox oy of list)) result }
{
    clean_report(clean::clean_contour(xs, ys, flags, ox, oy, of, list))
}

// The number of a refusal, or 0; points written.
#[repr(C)]
#[derive(Clone, Copy)]
pub struct PutReport {
    pub number: u32,
    pub points: usize,
}

pub fn put_report(c: Result<usize, Refusal>) -> PutReport
    ensures { result ≡ put_report c }
{
    match c {
        Err(k) => PutReport {
            number: k.number() as u32,
            points: 0,
        },
        Ok(points) => PutReport { number: 0, points },
    }
}

#[unsafe(no_mangle)]
pub extern "C" fn fontcrunch_put_back(
    xs: &[i16],
    ys: &[i16],
    flags: &[u8],
    list: &[[u32; 2]],
    ox: &mut [i16],
    oy: &mut [i16],
    of: &mut [u8],
) -> PutReport
    ensures { Shown put_report (PutPromise (contour xs ys flags) list.now (lent_outputs ox oy of)) result }
{
    put_report(clean::put_back(xs, ys, flags, list, ox, oy, of))
}
