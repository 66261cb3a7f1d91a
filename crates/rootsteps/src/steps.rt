// The root of an f64 by the functions of the crate float, with what each hands to the next written down.
ghost use Rattle.std.specs.Prelude.{◌≡◌, ◌*◌, ◌/◌, ◌^◌, ◌<◌, ◌≤◌};
ghost use Rattle.float.specs.Float.{root_of, root_near};
ghost use Rattle.float.specs.Steps.{Rooted, Normal, scaled};

use crate::text;
use float::{Radicand, Underway, WholeRoot};

// The place after what was written, and the root, or its digits alone.
#[derive(Clone, Copy)]
pub struct Stepped<T: Copy> {
    pub at: usize,
    pub root: T,
}

// The columns: a turn's number, the two digits that it takes in, what it has in hand, the trial, the
// root's digit, the remainder.
fn put_turn(out: &mut [u8], at: usize, i: u64, s: Underway, next: Underway) -> usize
    requires { (s.root < 2 ^ 53) × (s.rest ≤ 2 * s.root) }
{
    let a = text::put_wide(out, at, i, 1000);
    let b = lines::put_all(out, a, b"      ");
    let c = text::put_binary(out, b, s.left >> 62, 2);
    let d = text::put_wide(out, c, float::in_hand(s), 1000000000000000000);
    let e = text::put_wide(out, d, float::trial(s), 1000000000000000000);
    let f = text::put_wide(out, e, next.root % 2, 10000);
    let g = text::put_wide(out, f, next.rest, 1000000000000000000);
    lines::put_byte(out, g, b'\n')
}

// The turns of `float::by_digits`, 53 of them.
fn put_turns(out: &mut [u8], at: usize, word: u64) -> Stepped<WholeRoot>
    ensures { Rooted (word * 4 ^ 53 / 2 ^ 64) result.root.root result.root.rest }
{
    let mut a = lines::put_all(
        out,
        at,
        b"turn  digits            in hand              trial  bit          remainder\n",
    );
    let mut s = Underway {
        root: 0,
        rest: 0,
        left: word,
    };
    for i in 0..53u64 {
        let next = float::turn(s);
        a = put_turn(out, a, i + 1, s, next);
        s = next;
    }
    let root = WholeRoot {
        root: s.root,
        rest: s.rest,
    };
    Stepped { at: a, root }
}

// A line of a name, ten bytes wide, and a number.
fn put_named(out: &mut [u8], at: usize, name: &[u8], n: u64) -> usize {
    let a = lines::put_all(out, at, name);
    let b = lines::put_number(out, a, n);
    lines::put_byte(out, b, b'\n')
}

// A line of a name and digits in base 2.
fn put_digits(out: &mut [u8], at: usize, name: &[u8], w: u64, digits: u32) -> usize
    requires { digits ≤ 64 }
{
    let a = lines::put_all(out, at, name);
    let b = text::put_binary(out, a, w, digits);
    lines::put_byte(out, b, b'\n')
}

// Why `float::rounded` goes up, or not.
fn put_reason(out: &mut [u8], at: usize, whole: WholeRoot) -> usize {
    if whole.root < whole.rest {
        return lines::put_all(
            out,
            at,
            b"rounding  up: the remainder is more than the root\n",
        );
    }
    lines::put_all(
        out,
        at,
        b"rounding  down: the remainder is not more than the root\n",
    )
}

// The digits, and the rounding.
fn put_rounding(out: &mut [u8], at: usize, whole: WholeRoot) -> usize {
    let a = put_digits(out, at, b"digits    ", whole.root, 53);
    let b = put_named(out, a, b"root      ", whole.root);
    let c = put_named(out, b, b"remainder ", whole.rest);
    let d = put_reason(out, c, whole);
    put_named(out, d, b"rounded   ", float::rounded(whole))
}

// The steps for a word and its power.
fn put_scaled(out: &mut [u8], at: usize, word: u64, power: u64) -> Stepped<f64>
    requires { Normal word × (power < 2046) }
    ensures { result.root ≡ scaled (root_near 53 (word * 2 ^ 42)) power }
{
    let a = put_digits(out, at, b"word      ", word, 64);
    let b = put_named(out, a, b"power     ", power);
    let t = put_turns(out, b, word);
    let c = put_rounding(out, t.at, t.root);
    Stepped {
        at: c,
        root: float::from_digits(float::rounded(t.root), power),
    }
}

// What is read from the bits.
fn put_fields(out: &mut [u8], at: usize, bits: u64) -> usize {
    let a = put_named(out, at, b"sign      ", bits >> 63);
    let b = put_named(out, a, b"field     ", (bits >> 52) % 2048);
    put_digits(out, b, b"fraction  ", bits, 52)
}

// Nothing is left to do where x has its answer at once.
fn put_steps(out: &mut [u8], at: usize, x: f64) -> Stepped<f64>
    ensures { result.root ≡ root_of x }
{
    match float::radicand_of(x) {
        Radicand::Answer(y) => Stepped { at, root: y },
        Radicand::Scaled { word, power } => put_scaled(out, at, word, power),
    }
}

// All that becomes of x. The root is that of the crate float.
pub fn put_root(out: &mut [u8], at: usize, x: f64) -> Stepped<f64>
    ensures { result.root ≡ root_of x }
{
    let a = put_fields(out, at, float::bits(x));
    let t = put_steps(out, a, x);
    let b = lines::put_all(out, t.at, b"result    ");
    let c = lines::put_bits(out, b, t.root);
    Stepped {
        at: lines::put_byte(out, c, b'\n'),
        root: t.root,
    }
}
