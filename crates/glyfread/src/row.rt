// Numbers in bytes: words of two, the ends of contours, and bytes copied from row to row.
ghost use Rattle.std.specs.Prelude.{◌≡◌, ◌+◌, ◌*◌, ◌<◌, ◌≤◌, length, set, take, drop, true};
ghost use Rattle.glyf.specs.Layout.{bit, signed, rising};
ghost use Rattle.glyfread.specs.Steps.{word_at, words_at};
ghost use Rattle.glyf.specs.Layout.{laid};

pub fn word_of(high: u8, low: u8) -> u16
    ensures { result ≡ high * 256 + low }
{
    u16::from_be_bytes([high, low])
}

pub fn word_at(bytes: &[u8], at: usize) -> u16
    requires { at + 1 < length bytes.now }
    ensures { result ≡ word_at bytes.now at }
{
    word_of(bytes[at], bytes[at + 1])
}

// Two's complement.
pub fn signed_of(v: u16) -> i32
    ensures { result ≡ signed v }
{
    let w = v as i32;
    if v < 32768 { w } else { w - 65536 }
}

pub fn bit_of(flag: u8, weight: u8) -> bool
    requires { 0 < weight }
    ensures { result ≡ bit weight flag }
{
    flag / weight % 2 == 1
}

// n words of a row of bytes, each above the one before.
pub fn words_rise(bytes: &[u8], from: usize, n: usize) -> bool
    requires { from + 2 * n ≤ length bytes.now }
    ensures { result ≡ rising (words_at bytes.now from n) }
{
    for i in 1..n {
        let at = from + 2 * i;
        if word_at(bytes, at) <= word_at(bytes, at - 2) {
            return false;
        }
    }
    true
}

pub fn copy_words(bytes: &[u8], from: usize, row: &mut [u16], n: usize)
    requires { (from + 2 * n ≤ length bytes.now) × (n ≤ length row.old) }
    ensures { row.new ≡ laid (words_at bytes.now from n) row.old }
{
    for i in 0..n {
        row[i] = word_at(bytes, from + 2 * i);
    }
}

// n bytes into the front of a row.
pub fn copy_bytes(bytes: &[u8], from: usize, row: &mut [u8], n: usize)
    requires { (from + n ≤ length bytes.now) × (n ≤ length row.old) }
    ensures { row.new ≡ laid (take n (drop from bytes.now)) row.old }
{
    for i in 0..n {
        row[i] = bytes[from + i];
    }
}

// A place of a row; past its end nothing is stored.
pub fn store<T: Copy>(row: &mut [T], i: usize, v: T)
    ensures { row.new ≡ set row.old i v }
{
    if i < row.len() {
        row[i] = v;
    }
}
