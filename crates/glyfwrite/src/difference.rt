// A coordinate less the one before it: its flag bits, its bytes, and whether it fits 16 bits.
ghost use Rattle.std.specs.Prelude.{◌≡◌, true, map, ◌+◌, ◌*◌, ◌<◌, ◌≤◌, ◌-ℤ◌, pos, length};
ghost use Rattle.glyf.specs.Layout.{all16, steps, code_of, joined};
ghost use Rattle.glyfwrite.specs.Puts.{Put};
ghost use Rattle.glyfwrite.specs.Differences.{difference_of, bits_in, long_by, code_in, fits_by};

use crate::put::{put_byte, put_word};

// Whether it goes up, and how far.
#[derive(Clone, Copy, Debug, PartialEq, Eq)]
pub struct Difference {
    pub up: bool,
    pub size: u16,
}

pub fn between(from: i16, to: i16) -> Difference
    ensures { result ≡ difference_of (to -ℤ from) }
{
    Difference {
        up: from <= to,
        size: to.abs_diff(from),
    }
}

// Its two flag bits, by their weights.
pub fn bits(d: Difference, short: u8, same: u8) -> u8
    requires { short + same < 64 }
    ensures value { result ≡ bits_in short same d }
    ensures upper_bound { result ≤ short + same }
{
    if d.size == 0 {
        return same;
    }
    if 255 < d.size {
        return 0;
    }
    if d.up {
        return short + same;
    }
    short
}

pub fn fits(d: Difference) -> bool
    ensures { result ≡ fits_by d.up d.size }
{
    if d.up {
        return d.size <= 32767;
    }
    d.size <= 32768
}

// Two's complement.
pub fn long(d: Difference) -> u16
    ensures { result ≡ long_by d.up d.size }
{
    if d.up {
        return d.size;
    }
    if d.size == 0 {
        return 65535;
    }
    65535 - (d.size - 1)
}

fn short(n: u16) -> u8
    requires { n ≤ 255 }
    ensures { result ≡ n }
{
    n as u8
}

fn put_difference(out: &mut [u8], at: usize, d: Difference) -> usize
    requires { at < 4294967295 }
    ensures put { Put out.old at (code_in d) out.new result }
    ensures upper_bound { result ≤ at + 2 }
{
    if d.size == 0 {
        return at;
    }
    if d.size <= 255 {
        return put_byte(out, at, short(d.size));
    }
    put_word(out, at, long(d))
}

// Whether each coordinate of a row is within 16 bits of the one before it, the first of 0.
pub fn steps_fit(row: &[i16]) -> bool
    ensures { result ≡ all16 (steps (pos 0) row.now) }
{
    let mut last = 0;
    for z in row {
        if !fits(between(last, *z)) {
            return false;
        }
        last = *z;
    }
    true
}

pub fn put_steps(out: &mut [u8], from: usize, row: &[i16]) -> usize
    requires { (from < 2147483648) × (length row.now ≤ 65536) }
    ensures put { Put out.old from (joined (map code_of (steps (pos 0) row.now))) out.new result }
    ensures upper_bound { result ≤ from + 2 * length row.now }
{
    let mut at = from;
    let mut last = 0;
    for z in row {
        at = put_difference(out, at, between(last, *z));
        last = *z;
    }
    at
}
