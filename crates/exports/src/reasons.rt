// Why a segment starts at a corner.
ghost use Rattle.std.specs.Prelude.{◌≤◌, ◌≡◌};
ghost use Rattle.rows.specs.Lent.{contour, Shown};
ghost use Rattle.why.specs.Entry.{Promise};
ghost use Rattle.exports.specs.Reasons.{bit_if, bits_of, report};

use refusals::Refusal;
use why::Marks;

// The number of a refusal, or 0; a bit for each reason: 1 x, 2 y, 4 before, 8 after, 16 angle.
#[repr(C)]
#[derive(Clone, Copy)]
pub struct WhyReport {
    pub number: u32,
    pub reasons: u32,
}

fn bit_if(test: bool, bit: u32) -> u32
    ensures is { result ≡ bit_if test bit }
    ensures most { result ≤ bit }
{
    if test { bit } else { 0 }
}

fn bits(m: Marks) -> u32
    ensures { result ≡ bits_of m }
{
    let turns = bit_if(m.x, 1) + bit_if(m.y, 2);
    let zeros = bit_if(m.before, 4) + bit_if(m.after, 8);
    turns + zeros + bit_if(m.angle, 16)
}

fn why_report(e: Result<Marks, Refusal>) -> WhyReport
    ensures { result ≡ report e }
{
    match e {
        Err(k) => WhyReport {
            number: k.number() as u32,
            reasons: 0,
        },
        Ok(m) => WhyReport {
            number: 0,
            reasons: bits(m),
        },
    }
}

#[unsafe(no_mangle)]
pub extern "C" fn fontcrunch_why(xs: &[i16], ys: &[i16], flags: &[u8], k: usize) -> WhyReport
    ensures { Shown report (Promise (contour xs ys flags) k) result }
{
    why_report(why::why(xs, ys, flags, k))
}
