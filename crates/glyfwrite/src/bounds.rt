// The box of the points: the least x and y, the greatest x and y.
ghost use Rattle.std.specs.Prelude.{◌≡◌, map, ◌+◌, ◌<◌, ◌≤◌};
ghost use Rattle.glyf.specs.Layout.{signed_bytes, box_of, joined};
ghost use Rattle.glyfwrite.specs.Puts.{Put};
ghost use Rattle.glyfwrite.specs.Outermost.{further, outermost};

use crate::difference::{between, long};
use crate::put::put_word;

// The greater of two, or the lesser.
fn further_of(high: bool, z: i16, x: i16) -> i16
    ensures { result ≡ further high z x }
{
    if high { z.max(x) } else { z.min(x) }
}

// The greatest of a row, or the least; 0 for none.
fn outermost_of(high: bool, row: &[i16]) -> i16
    ensures { result ≡ outermost high row.now }
{
    if row.is_empty() {
        return 0;
    }
    let mut z = row[0];
    for i in 1..row.len() {
        z = further_of(high, z, row[i]);
    }
    z
}

fn put_signed(out: &mut [u8], at: usize, z: i16) -> usize
    requires { at < 4294967295 }
    ensures { Put out.old at (signed_bytes z) out.new result }
{
    put_word(out, at, long(between(0, z)))
}

pub fn put_box(out: &mut [u8], at: usize, xs: &[i16], ys: &[i16]) -> usize
    requires { at < 2147483648 }
    ensures put { Put out.old at (joined (map signed_bytes (box_of xs.now ys.now))) out.new result }
    ensures upper_bound { result ≤ at + 8 }
{
    let least_y_at = put_signed(out, at, outermost_of(false, xs));
    let greatest_x_at = put_signed(out, least_y_at, outermost_of(false, ys));
    let greatest_y_at = put_signed(out, greatest_x_at, outermost_of(true, xs));
    put_signed(out, greatest_y_at, outermost_of(true, ys))
}
