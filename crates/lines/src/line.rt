// A line of points, x y f x y f .., read into a row of each.
ghost use Rattle.std.specs.Prelude.{◌≡◌, ◌+◌, ◌≤◌, ◌<◌, length, set};
ghost use Rattle.lines.specs.Line.{point, coordinate_of, flag_of, points_of, parsed_of, laid, Leaves};
ghost use Rattle.lines.specs.Steps.{words_from, onward, Inside};

use crate::word::{end_of, read_coordinate, read_flag};

#[derive(Clone, Copy, Debug, PartialEq, Eq)]
pub struct Point {
    pub x: i16,
    pub y: i16,
    pub flag: u8,
}

fn read_point(x: &[u8], y: &[u8], f: &[u8]) -> Option<Point>
    ensures { result ≡ point (coordinate_of x.now) (coordinate_of y.now) (flag_of f.now) }
{
    Some(Point {
        x: read_coordinate(x)?,
        y: read_coordinate(y)?,
        flag: read_flag(f)?,
    })
}

// The point that the three words from `at` on say, and the place after the blank that ends it.
fn point_at(line: &[u8], at: usize) -> Option<(Point, usize)>
    requires { at ≤ length line.now }
    ensures inside { Inside at (length line.now + 1) result }
    ensures at_value { points_of (words_from line.now at) ≡ onward line.now result }
{
    let a = end_of(line, at, b' ');
    if a == line.len() {
        return None;
    }
    let y = a + 1;
    let b = end_of(line, y, b' ');
    if b == line.len() {
        return None;
    }
    let f = b + 1;
    let c = end_of(line, f, b' ');
    let p = read_point(&line[at..a], &line[y..b], &line[f..c])?;
    Some((p, c + 1))
}

// A place past the row is left out, as `put_byte` leaves it out.
fn lay<T: Copy>(row: &mut [T], n: usize, v: T)
    ensures { row.new ≡ set row.old n v }
{
    if n < row.len() {
        row[n] = v;
    }
}

// Reads a line, which is given without its line end, and counts its points; None is malformed. Points past a row's end are
// counted and not stored.
pub fn parse(line: &[u8], xs: &mut [i16], ys: &mut [i16], flags: &mut [u8]) -> Option<usize>
    ensures { Leaves (laid (parsed_of line.now) 0 xs.old ys.old flags.old)
        result xs.new ys.new flags.new }
{
    if 65536 < line.len() {
        return None;
    }
    if line.len() == 0 {
        return Some(0);
    }
    let mut n = 0;
    let mut at = 0;
    while at <= line.len() {
        let (p, next) = point_at(line, at)?;
        lay(xs, n, p.x);
        lay(ys, n, p.y);
        lay(flags, n, p.flag);
        n += 1;
        at = next;
    }
    Some(n)
}
