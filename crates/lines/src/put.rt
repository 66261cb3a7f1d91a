// Text put into a buffer from a place on. Each function gives the next place. What does not fit is left
// out, and the next place is then the buffer's length: a text that ends below the length is whole.
ghost use Rattle.std.specs.Prelude.{◌≡◌, [], ◌∷◌, ◌<◌};
ghost use Rattle.lines.specs.Text.{Put, glyph_of, decimal_of, signed_of, hex_from, hex_of};

pub fn put_byte(out: &mut [u8], at: usize, b: u8) -> usize
    ensures { Put out.old at (b ∷ []) out.new result }
{
    if at < out.len() {
        out[at] = b;
        return at + 1;
    }
    out.len()
}

pub fn put_all(out: &mut [u8], at: usize, text: &[u8]) -> usize
    ensures { Put out.old at text.now out.new result }
{
    let mut a = at.min(out.len());
    for &b in text {
        a = put_byte(out, a, b);
    }
    a
}

// In decimal, with no zero in front.
pub fn put_number(out: &mut [u8], at: usize, n: u64) -> usize
    ensures { Put out.old at (decimal_of n) out.new result }
{
    if n < 10 {
        return put_byte(out, at, 48 + (n as u8));
    }
    let a = put_number(out, at, n / 10);
    put_byte(out, a, 48 + ((n % 10) as u8))
}

pub fn put_signed(out: &mut [u8], at: usize, v: i16) -> usize
    ensures { Put out.old at (signed_of v) out.new result }
{
    let size = u64::from(v.unsigned_abs());
    if v < 0 {
        let a = put_byte(out, at, b'-');
        return put_number(out, a, size);
    }
    put_number(out, at, size)
}

fn glyph(d: u64) -> u8
    requires { d < 16 }
    ensures { result ≡ glyph_of d }
{
    if d < 10 {
        48 + (d as u8)
    } else {
        87 + (d as u8)
    }
}

// The 16 digits in base 16, in lower case.
fn put_hex(out: &mut [u8], at: usize, b: u64) -> usize
    ensures { Put out.old at (hex_from 16 b) out.new result }
{
    let mut a = at.min(out.len());
    for k in (0..16u32).rev() {
        a = put_byte(out, a, glyph((b >> (4 * k)) % 16));
    }
    a
}

// The bits of a float in base 16. Every NaN is written as the quiet one without a payload.
pub fn put_bits(out: &mut [u8], at: usize, x: f64) -> usize
    ensures { Put out.old at (hex_of x) out.new result }
{
    if x != x {
        return put_hex(out, at, 0x7ff8_0000_0000_0000);
    }
    put_hex(out, at, f64::to_bits(x))
}
