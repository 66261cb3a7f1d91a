// Bytes put into a row from a place on; the place after them is given. What lies past the row's end is
// not put but counted, so that the same functions measure a description and write it.
ghost use Rattle.std.specs.Prelude.{◌≡◌, [], ◌∷◌, map, ◌+◌, ◌*◌, ◌/◌, ◌%◌, ◌<◌, ◌≤◌, length};
ghost use Rattle.glyf.specs.Layout.{word_bytes, joined};
ghost use Rattle.glyfwrite.specs.Puts.{Put};

pub fn put_byte(out: &mut [u8], at: usize, b: u8) -> usize
    requires { at < 4294967296 }
    ensures { Put out.old at (b ∷ []) out.new result }
{
    if out.len() <= at {
        return at + 1;
    }
    out[at] = b;
    at + 1
}

pub fn put_word(out: &mut [u8], at: usize, v: u16) -> usize
    requires { at < 4294967295 }
    ensures { Put out.old at (word_bytes v) out.new result }
{
    let [high, low] = v.to_be_bytes();
    let next = put_byte(out, at, high);
    put_byte(out, next, low)
}

// All of a row's bytes.
pub fn put_bytes(out: &mut [u8], from: usize, row: &[u8]) -> usize
    requires { (from < 2147483648) × (length row.now ≤ 65535) }
    ensures { Put out.old from row.now out.new result }
{
    let mut at = from;
    for b in row {
        at = put_byte(out, at, *b);
    }
    at
}

pub fn put_words(out: &mut [u8], from: usize, row: &[u16]) -> usize
    requires { (from < 2147483648) × (length row.now ≤ 65535) }
    ensures put { Put out.old from (joined (map word_bytes row.now)) out.new result }
    ensures upper_bound { result ≤ from + 2 * length row.now }
{
    let mut at = from;
    for v in row {
        at = put_word(out, at, *v);
    }
    at
}
