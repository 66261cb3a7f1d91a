// The flags of points, equal ones that follow each other put once with a repeat.
ghost use Rattle.std.specs.Prelude.{◌≡◌, ◌+◌, ◌*◌, ◌<◌, ◌≤◌, ◌&&◌, eqb, ltb, pos, length};
ghost use Rattle.glyf.specs.Layout.{run_of, packed_flags, coded_flags, steps};
ghost use Rattle.glyfwrite.specs.Puts.{Put};
ghost use Rattle.glyfwrite.specs.Differences.{flag_by};
ghost use Rattle.glyfwrite.specs.Runs.{Turned};

use crate::difference::{Difference, between, bits};
use crate::put::put_byte;

// The flag of a point by its two differences; bits 3, 6 and 7 are clear.
fn flag_of(flag: u8, dx: Difference, dy: Difference) -> u8
    ensures value { result ≡ flag_by flag dx dy }
    ensures upper_bound { result < 64 }
{
    flag % 2 + (bits(dx, 2, 16) + bits(dy, 4, 32))
}

// A flag that stands so many times: from three on with a repeat.
fn put_run(out: &mut [u8], at: usize, flag: u8, times: u16) -> usize
    requires { (at < 4294967295) × (flag < 64) × (times ≤ 256) }
    ensures put { Put out.old at (run_of flag times) out.new result }
    ensures upper_bound { result ≤ at + 2 }
{
    if times == 0 {
        return at;
    }
    if times == 1 {
        return put_byte(out, at, flag);
    }
    if times == 2 {
        let next = put_byte(out, at, flag);
        return put_byte(out, next, flag);
    }
    let next = put_byte(out, at, flag + 8);
    put_byte(out, next, (times - 1) as u8)
}

// The place after the flags that are put, and the flag that has stood so many times since.
#[derive(Clone, Copy, Debug, PartialEq, Eq)]
pub struct Run {
    pub at: usize,
    pub flag: u8,
    pub times: u16,
}

// Whether one flag more belongs to the run: at most 256 do.
fn goes_on(run: Run, flag: u8) -> bool
    ensures { result ≡ (eqb flag run.flag && ltb run.times 256) }
{
    flag == run.flag && run.times < 256
}

// One flag more: it goes on with the run, or the run is put and another begins.
fn next_run(out: &mut [u8], run: Run, flag: u8) -> Run
    requires { (run.at < 4294967295) × (run.flag < 64) × (run.times ≤ 256) }
    ensures { Turned out.old run flag out.new result }
{
    if goes_on(run, flag) {
        return Run {
            at: run.at,
            flag: run.flag,
            times: run.times + 1,
        };
    }
    let at = put_run(out, run.at, run.flag, run.times);
    Run { at, flag, times: 1 }
}

pub fn put_flags(out: &mut [u8], from: usize, xs: &[i16], ys: &[i16], flags: &[u8]) -> usize
    requires { (from < 2147483648) × (length flags.now ≤ 65536) × (length xs.now ≡ length flags.now) × (length ys.now ≡ length flags.now) }
    ensures put { Put out.old from
        (packed_flags (coded_flags flags.now (steps (pos 0) xs.now) (steps (pos 0) ys.now)))
        out.new result }
    ensures upper_bound { result ≤ from + 2 * length flags.now + 2 }
{
    let mut run = Run {
        at: from,
        flag: 0,
        times: 0,
    };
    let mut last_x = 0;
    let mut last_y = 0;
    for i in 0..flags.len() {
        let x = xs[i];
        let y = ys[i];
        run = next_run(
            out,
            run,
            flag_of(flags[i], between(last_x, x), between(last_y, y)),
        );
        last_x = x;
        last_y = y;
    }
    put_run(out, run.at, run.flag, run.times)
}
