// Float helpers: what Rust's f64 methods and saturating casts give. The contracts of abs, is_close,
// to_index, to_i16, trunc, floor, round, fract, bits, of_bits and root equate the result with a
// definition of specs/Float.antt or of `lib.Ieee`, on the values of `lib.Ieee`, and ask nothing. The
// other functions are steps of these: their contracts speak in the words of specs/Steps.antt, and may
// ask. The steps of the root are public, for the crates quickroot and rootsteps. docs/ROOT.md goes
// through them on paper.
#![tactic(auto)]

ghost use Rattle.std.specs.Prelude.{◌≡◌, ◌+◌, ◌*◌, ◌/◌, ◌^◌, ◌<◌, ◌≤◌};
ghost use Rattle.std.specs.Float.Ieee as Ieee;
ghost use Rattle.float.specs.Float.{abs_of, close_to, trunc_of, floor_of, round_of, fract_of, root_of, root_units, root_near};
ghost use Rattle.float.specs.Steps.{with_sign, Rooted, Turned, up_if_more, scaled, Leaves};

// |x|. A zero comes out as +0.
pub fn abs(x: f64) -> f64
    ensures { result ≡ abs_of x }
{
    if x < 0.0 {
        -x
    } else if x == 0.0 {
        0.0
    } else {
        x
    }
}

// |a - b| < 1e-8.
pub fn is_close(a: f64, b: f64) -> bool
    ensures { result ≡ close_to a b }
{
    abs(a - b) < 1e-8
}

// x cut to a whole number and brought into the range of an index: a NaN and a negative give 0.
pub fn to_index(x: f64) -> usize
    ensures { result ≡ Ieee.to_unsigned 64 x }
{
    if x > -1.0 {
        if x < 18446744073709551616.0 {
            std::num::truncating_f64_to_u64(x) as usize
        } else {
            usize::MAX
        }
    } else {
        0
    }
}

// x cut to a whole number and brought into the range of 16 bits: a NaN gives 0.
pub fn to_i16(x: f64) -> i16
    ensures { result ≡ Ieee.to_signed 15 x }
{
    if x > -32769.0 {
        if x < 32768.0 {
            std::num::truncating_f64_to_i64(x) as i16
        } else {
            32767
        }
    } else if x < 0.0 {
        -32768
    } else {
        0
    }
}

// n with x's sign. A zero x comes back, so that a zero has x's sign too.
fn with_sign(n: u64, x: f64) -> f64
    requires { n ≤ 2 ^ 53 }
    ensures { result ≡ with_sign n x }
{
    if x < 0.0 {
        -(n as f64)
    } else if x > 0.0 {
        n as f64
    } else {
        x
    }
}

// x toward zero. From 2^52 on every f64 is whole.
pub fn trunc(x: f64) -> f64
    ensures { result ≡ trunc_of x }
{
    let y = abs(x);
    if y < 4503599627370496.0 {
        with_sign(std::num::truncating_f64_to_u64(y), x)
    } else {
        x
    }
}

// x downward: its truncation, or one less where x is below that. Above zero, where most numbers are that are asked for, it is x cut.
pub fn floor(x: f64) -> f64
    ensures { result ≡ floor_of x }
{
    if x > 0.0 && x < 4503599627370496.0 {
        return std::num::truncating_f64_to_u64(x) as f64;
    }
    let t = trunc(x);
    if x < t { t - 1.0 } else { t }
}

// x to the nearest whole number, halves away from zero.
pub fn round(x: f64) -> f64
    ensures { result ≡ round_of x }
{
    let y = abs(x);
    if y < 4503599627370496.0 {
        with_sign((std::num::truncating_f64_to_u64(y * 2.0) + 1) / 2, x)
    } else {
        x
    }
}

// x minus its truncation.
pub fn fract(x: f64) -> f64
    ensures { result ≡ fract_of x }
{
    x - trunc(x)
}

// x's bit pattern. All NaNs have one.
pub fn bits(x: f64) -> u64
    ensures { result ≡ Ieee.to_bits Ieee.binary64 x }
{
    if x != x {
        0x7ff8_0000_0000_0000
    } else {
        f64::to_bits(x)
    }
}

// The f64 of a bit pattern. Every NaN pattern gives a NaN.
pub fn of_bits(b: u64) -> f64
    ensures { result ≡ Ieee.of_bits Ieee.binary64 b }
{
    if 0x7ff0_0000_0000_0000 < b & 0x7fff_ffff_ffff_ffff {
        0.0 / 0.0
    } else {
        f64::from_bits(b)
    }
}

// A whole root with what is left over: root * root + rest is the number whose root this is.
#[derive(Clone, Copy, Debug, PartialEq, Eq)]
pub struct WholeRoot {
    pub root: u64,
    pub rest: u64,
}

// A root under way: root * root + rest is what was taken in of a number's digits, and left has the
// digits that were not, from its top.
#[derive(Clone, Copy, Debug, PartialEq, Eq)]
pub struct Underway {
    pub root: u64,
    pub rest: u64,
    pub left: u64,
}

// What a turn has in hand: the rest, with the next two digits written behind it.
pub fn in_hand(s: Underway) -> u64
    requires { s.rest < 2 ^ 54 }
    ensures { result ≡ s.rest * 4 + s.left / 2 ^ 62 }
{
    s.rest * 4 + (s.left >> 62)
}

// What a one as the root's next digit takes of it: (2 * root + 1)^2 is 4 * root^2 and 4 * root + 1.
pub fn trial(s: Underway) -> u64
    requires { s.root < 2 ^ 53 }
    ensures { result ≡ s.root * 4 + 1 }
{
    s.root * 4 + 1
}

// One turn: two digits are taken in, and the root gets one. It is a one where the trial can be taken.
pub fn turn(s: Underway) -> Underway
    requires { (s.root < 2 ^ 53) × (s.rest ≤ 2 * s.root) }
    ensures { Turned s result }
{
    let r = in_hand(s);
    let t = trial(s);
    let left = s.left << 2;
    let root = s.root * 2;
    if t <= r {
        Underway {
            root: root + 1,
            rest: r - t,
            left,
        }
    } else {
        Underway {
            root,
            rest: r,
            left,
        }
    }
}

// The root of the leading 2 * turns binary digits of w, with zeros after the last: each turn takes in
// two of them and gives one digit of the root.
pub fn by_digits(w: u64, turns: u64) -> WholeRoot
    requires { turns ≤ 53 }
    ensures { Rooted (w * 4 ^ turns / 2 ^ 64) result.root result.rest }
{
    let mut s = Underway {
        root: 0,
        rest: 0,
        left: w,
    };
    for _i in 0..turns {
        s = turn(s);
    }
    WholeRoot {
        root: s.root,
        rest: s.rest,
    }
}

// The nearest whole number to the root: one up where the rest is more than the root, since
// (root + 1/2)^2 is root^2 + root + 1/4, which no whole number is.
pub fn rounded(d: WholeRoot) -> u64
    ensures { result ≡ up_if_more d.root d.rest }
{
    let q = d.root;
    if q < d.rest { q + 1 } else { q }
}

// The whole number nearest to the root of w * 2^42.
fn root_digits(w: u64) -> u64
    ensures { result ≡ root_near 53 (w * 2 ^ 42) }
{
    let d = by_digits(w, 53);
    rounded(d)
}

// What is left of a root once its x is read: nothing, or the 53 digits of the root of word * 2^42,
// which count for 2^power times the smallest f64.
#[derive(Clone, Copy, Debug, PartialEq)]
pub enum Radicand {
    Answer(f64),
    Scaled { word: u64, power: u64 },
}

// For m * 2^i times the smallest f64. m is shifted until its leading digit stands at the top, which
// normalises a subnormal too. A root has half as many digits, so where m * 2^i has an odd number of
// them the word is shifted one back.
fn normalised(m: u64, i: u64) -> Radicand
    requires { (0 < m) × (m < 2 ^ 53) × (i < 2046) }
    ensures { Leaves (root_units (m * 2 ^ i)) result }
{
    let zeros = u64::leading_zeros(m) as u64;
    let size = 64 - zeros + i;
    let word = (m << zeros) >> (size % 2);
    let power = (size + 1) / 2 + 484;
    Radicand::Scaled { word, power }
}

// A zero, an infinity, a negative and a NaN have their answer; any other x is taken apart.
pub fn radicand_of(x: f64) -> Radicand
    ensures { Leaves (root_of x) result }
{
    if x > 0.0 {
        if x < 1.0 / 0.0 {
            let b = f64::to_bits(x);
            let field = b >> 52;
            let fraction = b & 0xf_ffff_ffff_ffff;
            if field == 0 {
                normalised(fraction, 0)
            } else {
                normalised(fraction + 0x10_0000_0000_0000, field - 1)
            }
        } else {
            Radicand::Answer(x)
        }
    } else if x == 0.0 {
        Radicand::Answer(x)
    } else {
        Radicand::Answer(0.0 / 0.0)
    }
}

// p * 2^power times the smallest f64, for a p of 53 digits. The leading one adds one to the exponent's
// field.
pub fn from_digits(p: u64, power: u64) -> f64
    requires { (2 ^ 52 ≤ p) × (p < 2 ^ 53) × (power < 2046) }
    ensures { result ≡ scaled p power }
{
    f64::from_bits((power << 52) + p)
}

// The square root of x, rounded once, to nearest even. A zero comes back; a negative and a NaN give
// a NaN.
pub fn root(x: f64) -> f64
    ensures { result ≡ root_of x }
{
    match radicand_of(x) {
        Radicand::Answer(y) => y,
        Radicand::Scaled { word, power } => from_digits(root_digits(word), power),
    }
}
