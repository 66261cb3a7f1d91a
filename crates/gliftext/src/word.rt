// Words of at most eight bytes as one number, the bytes as digits to the base 256; numbers in attributes; the
// characters that references stand for.
ghost use Rattle.std.specs.Prelude.{◌≡◌, ◌≤◌};
ghost use Rattle.gliftext.specs.Words.{pushed, digit_of, grown, fed_number, named_char, is_char, narrowed, no_number, state_fed};

use crate::choice::{both, either, less, pick};

// A byte more; a word of more than eight bytes is none that is looked for.
pub fn push(word: usize, b: u8) -> usize
    ensures { result ≡ pushed word b }
{
    if word < 72057594037927936 {
        word * 256 + (b as usize)
    } else {
        18446744073709551615
    }
}

// The value of a digit, to the base 10 or 16.
fn digit(b: u8) -> usize
    ensures value { result ≡ digit_of b }
    ensures upper_bound { result ≤ 255 }
{
    if b < 58 {
        return less(b as usize, 48);
    }
    if b < 71 {
        return less(b as usize, 55);
    }
    less(b as usize, 87)
}

// A digit more; a number past every character and every coordinate is let stand.
pub fn grow(base: usize, n: usize, b: u8) -> usize
    requires { base ≤ 16 }
    ensures { result ≡ grown base n b }
{
    if n < 1114112 { n * base + digit(b) } else { n }
}

// How far a number is read: nothing of it, a sign, whole digits, a point, digits after it; or it is no number.
#[derive(Clone, Copy, Debug, PartialEq, Eq)]
pub enum Progress {
    Nothing,
    Sign,
    Whole,
    Dot,
    Part,
    Broken,
}

impl Progress {
    ghost use Rattle.gliftext.specs.Words.{digit_last, before_point, after_digit, after_sign, after_point};

    pub fn digit_last(self) -> bool
        ensures { result ≡ digit_last self }
    {
        matches!(self, Progress::Whole | Progress::Part)
    }

    fn before_point(self) -> bool
        ensures { result ≡ before_point self }
    {
        matches!(self, Progress::Nothing | Progress::Sign | Progress::Whole)
    }

    fn after_digit(self) -> Progress
        ensures { result ≡ after_digit self }
    {
        match self {
            Progress::Nothing | Progress::Sign | Progress::Whole => Progress::Whole,
            Progress::Dot | Progress::Part => Progress::Part,
            Progress::Broken => Progress::Broken,
        }
    }

    fn after_sign(self) -> Progress
        ensures { result ≡ after_sign self }
    {
        match self {
            Progress::Nothing => Progress::Sign,
            _ => Progress::Broken,
        }
    }

    fn after_point(self) -> Progress
        ensures { result ≡ after_point self }
    {
        match self {
            Progress::Whole => Progress::Dot,
            _ => Progress::Broken,
        }
    }
}

// How far the number is read, its size before the point, whether it is below zero, and whether there is a digit
// but 0 after the point.
#[derive(Clone, Copy, Debug, PartialEq, Eq)]
pub struct Number {
    pub state: Progress,
    pub size: usize,
    pub minus: bool,
    pub part: bool,
}

pub fn no_number() -> Number
    ensures { result ≡ no_number }
{
    Number {
        state: Progress::Nothing,
        size: 0,
        minus: false,
        part: false,
    }
}

fn state_fed(state: Progress, digit: bool, sign: bool, point: bool) -> Progress
    ensures { result ≡ state_fed state digit sign point }
{
    let other = pick(point, state.after_point(), Progress::Broken);
    pick(
        digit,
        state.after_digit(),
        pick(sign, state.after_sign(), other),
    )
}

pub fn feed_number(n: Number, b: u8) -> Number
    ensures { result ≡ fed_number n b }
{
    let d = both(47 < b, b < 58);
    let whole = n.state.before_point();
    Number {
        state: state_fed(n.state, d, either(b == 43, b == 45), b == 46),
        size: pick(both(d, whole), grow(10, n.size, b), n.size),
        minus: either(n.minus, b == 45),
        part: either(n.part, both(both(d, !whole), 48 < b)),
    }
}

// lt, gt, amp, apos, quot.
pub fn named_char(word: usize) -> usize
    ensures { result ≡ named_char word }
{
    let quotes = pick(word == 1634758515, 39, pick(word == 1903521652, 34, 0));
    pick(
        word == 27764,
        60,
        pick(word == 26484, 62, pick(word == 6385008, 38, quotes)),
    )
}

// Whether a number is that of a character of XML.
pub fn is_char(n: usize) -> bool
    ensures { result ≡ is_char n }
{
    let blank = either(n == 9, either(n == 10, n == 13));
    let low = both(31 < n, n < 55296);
    let middle = both(57343 < n, n < 65534);
    let high = both(65535 < n, n < 1114112);
    either(blank, either(low, either(middle, high)))
}

// A character as a byte; 255, which stands in no text, for those that are none.
pub fn narrow(n: usize) -> u8
    ensures { result ≡ narrowed n }
{
    if n < 256 { n as u8 } else { 255 }
}
