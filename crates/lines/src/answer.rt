// The line that answers a contour, without its end.
ghost use Rattle.std.specs.Prelude.{◌≤◌, length};
ghost use Rattle.lines.specs.Text.{Put};
ghost use Rattle.lines.specs.Answer.{point_text, points_text, ok_text, refused_text};

use crate::put::{put_all, put_byte, put_number, put_signed};

pub fn put_refused(out: &mut [u8], at: usize, k: u8) -> usize
    ensures { Put out.old at (refused_text k) out.new result }
{
    let a = put_all(out, at, b"refused ");
    put_number(out, a, k as u64)
}

fn put_point(out: &mut [u8], at: usize, x: i16, y: i16, flag: u8) -> usize
    ensures { Put out.old at (point_text x y flag) out.new result }
{
    let a = put_byte(out, at, b' ');
    let b = put_signed(out, a, x);
    let c = put_byte(out, b, b' ');
    let d = put_signed(out, c, y);
    let e = put_byte(out, d, b' ');
    put_number(out, e, flag as u64)
}

fn put_points(out: &mut [u8], at: usize, xs: &[i16], ys: &[i16], flags: &[u8], n: usize) -> usize
    requires { (at ≤ length out.old) × (n ≤ length xs.now) × (n ≤ length ys.now) × (n ≤ length flags.now) }
    ensures { Put out.old at (points_text xs.now ys.now flags.now n 0) out.new result }
{
    let mut a = at;
    for i in 0..n {
        a = put_point(out, a, xs[i], ys[i], flags[i]);
    }
    a
}

// The pairs tried, and the first n points.
pub fn put_ok(
    out: &mut [u8],
    at: usize,
    pairs: usize,
    xs: &[i16],
    ys: &[i16],
    flags: &[u8],
    n: usize,
) -> usize
    requires { (n ≤ length xs.now) × (n ≤ length ys.now) × (n ≤ length flags.now) }
    ensures { Put out.old at (ok_text xs.now ys.now flags.now pairs n) out.new result }
{
    let a = put_all(out, at, b"ok ");
    let b = put_number(out, a, pairs as u64);
    put_points(out, b, xs, ys, flags, n)
}
