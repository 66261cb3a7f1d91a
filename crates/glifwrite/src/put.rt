// Bytes put into a row from a place on. Each function gives the next place; what lies past the end of the row
// is not stored but counted, so that the same functions measure a file and write it.
ghost use Rattle.std.specs.Prelude.{◌≡◌, ◌-◌};
ghost use Rattle.glifwrite.specs.Puts.{put, put_range, put_number, put_kind, put_point};

use gliftext::{less, more, pick, plus, store};
use lines::put_signed;

// The bytes from one place to another.
pub fn put_range(bytes: &[u8], from: usize, to: usize, out: &mut [u8], at: usize) -> usize
    ensures { put result out.new ≡ put_range bytes.now from (to - from) (put at out.old) }
{
    let mut a = at;
    for k in 0..less(to, from) {
        store(out, a, gliftext::at(bytes, plus(from, k), 0));
        a = more(a);
    }
    a
}

fn put_number(v: i16, out: &mut [u8], at: usize) -> usize
    ensures { put result out.new ≡ put_number v (put at out.old) }
{
    let mut digits = [0; 8];
    let n = put_signed(&mut digits, 0, v);
    put_range(&digits, 0, n, out, at)
}

// The type of an on-curve point after an on-curve one is a line, after an off-curve one a qcurve.
fn put_kind(on: bool, before: bool, out: &mut [u8], at: usize) -> usize
    ensures { put result out.new ≡ put_kind on before (put at out.old) }
{
    let text = b" type=\"line\"/> type=\"qcurve\"/>/>";
    let from = pick(on, pick(before, 0, 14), 30);
    let to = pick(on, pick(before, 14, 30), 32);
    put_range(text, from, to, out, at)
}

pub fn put_point(x: i16, y: i16, on: bool, before: bool, out: &mut [u8], at: usize) -> usize
    ensures { put result out.new ≡ put_point x y on before (put at out.old) }
{
    let a = put_range(b"<point x=\"", 0, 10, out, at);
    let b = put_number(x, out, a);
    let c = put_range(b"\" y=\"", 0, 5, out, b);
    let d = put_number(y, out, c);
    let e = put_range(b"\"", 0, 1, out, d);
    put_kind(on, before, out, e)
}
