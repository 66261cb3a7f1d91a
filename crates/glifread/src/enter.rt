// Contours as they stand in the file into rows: from the first on-curve point on, with the middle of two
// off-curve points between them. Coordinates are counted from -32768 until they are stored.
ghost use Rattle.std.specs.Prelude.{◌≡◌, ◌-◌};
ghost use Rattle.glifread.specs.Enter.{is_off, is_first, middle_of, signed_of, flag_of, end_of, rows, drawn, walked};
ghost use Rattle.glifread.specs.Enter.{put_at, enter_one, enter_to, seek_from, enter_contour, enter_next, enter_all, entering, filled};

use gliftext::{at, both, less, more, pick, plus, store};

fn is_off(mark: usize) -> bool
    ensures { result ≡ is_off mark }
{
    mark % 2 == 0
}

fn is_first(mark: usize) -> bool
    ensures { result ≡ is_first mark }
{
    1 < mark
}

// Halves away from zero: below zero, which is 65536 of the sum, downward.
fn middle(a: usize, b: usize) -> usize
    ensures { result ≡ middle_of a b }
{
    let sum = plus(a, b);
    pick(sum < 65536, sum / 2, more(sum) / 2)
}

fn signed(v: usize) -> i16
    ensures { result ≡ signed_of v }
{
    let below = less(32768, v);
    let above = less(v, 32768);
    if 0 < below {
        return (-(below as i32)) as i16;
    }
    if above < 32768 {
        return above as i16;
    }
    0
}

fn flag_of(off: bool) -> u8
    ensures { result ≡ flag_of off }
{
    if off { 0 } else { 1 }
}

fn end_of(at: usize) -> u16
    ensures { result ≡ end_of at }
{
    (less(at, 1) % 65536) as u16
}

// One point at a place of the three rows.
fn put(xs: &mut [i16], ys: &mut [i16], flags: &mut [u8], i: usize, x: usize, y: usize, off: bool)
    ensures { rows xs.new ys.new flags.new
        ≡ put_at i x y off (rows xs.old ys.old flags.old) }
{
    store(xs, i, signed(x));
    store(ys, i, signed(y));
    store(flags, i, flag_of(off));
}

// The next place of the rows, and the point before it; before a contour's first point none is off-curve.
#[derive(Clone, Copy, Debug, PartialEq, Eq)]
pub struct Pen {
    pub at: usize,
    pub off: bool,
    pub x: usize,
    pub y: usize,
}

// A point, after the middle between it and the one before where both are off-curve.
fn enter_one(p: [usize; 3], pen: Pen, xs: &mut [i16], ys: &mut [i16], flags: &mut [u8]) -> Pen
    ensures { drawn result (rows xs.new ys.new flags.new)
        ≡ enter_one p (drawn pen (rows xs.old ys.old flags.old)) }
{
    let x = p[0];
    let y = p[1];
    let off = is_off(p[2]);
    let between = both(pen.off, off);
    let place = pick(between, pen.at, 18446744073709551615);
    put(
        xs,
        ys,
        flags,
        place,
        middle(pen.x, x),
        middle(pen.y, y),
        false,
    );
    let at = pick(between, more(pen.at), pen.at);
    put(xs, ys, flags, at, x, y, off);
    Pen {
        at: more(at),
        off,
        x,
        y,
    }
}

// The points from one place to another.
fn enter_places(
    points: &[[usize; 3]],
    from: usize,
    to: usize,
    start: Pen,
    xs: &mut [i16],
    ys: &mut [i16],
    flags: &mut [u8],
) -> Pen
    ensures { drawn result (rows xs.new ys.new flags.new)
        ≡ enter_to points.now from (to - from) (drawn start (rows xs.old ys.old flags.old)) }
{
    let mut pen = start;
    for k in 0..less(to, from) {
        let p = at(points, plus(from, k), [0; 3]);
        pen = enter_one(p, pen, xs, ys, flags);
    }
    pen
}

// The first place that is on-curve, or that is the first of a contour; `to` where there is none before it.
fn seek(points: &[[usize; 3]], from: usize, to: usize, first: bool) -> usize
    ensures { result ≡ seek_from first points.now (to - from) from }
{
    for i in from..to {
        let p = at(points, i, [0; 3]);
        if pick(first, is_first(p[2]), !is_off(p[2])) {
            return i;
        }
    }
    from.max(to)
}

// A contour of the places from one to another: from its first on-curve point round to it. The next place.
fn enter_contour(
    points: &[[usize; 3]],
    from: usize,
    to: usize,
    at: usize,
    xs: &mut [i16],
    ys: &mut [i16],
    flags: &mut [u8],
) -> usize
    ensures { walked result (rows xs.new ys.new flags.new)
        ≡ enter_contour points.now from to (walked at (rows xs.old ys.old flags.old)) }
{
    let on = seek(points, from, to, false);
    let start = Pen {
        at,
        off: false,
        x: 0,
        y: 0,
    };
    let middle = enter_places(points, on, to, start, xs, ys, flags);
    let end = enter_places(points, from, on, middle, xs, ys, flags);
    end.at
}

// Where a walk over the contours stands: the next place of the points, and of the rows.
#[derive(Clone, Copy, Debug, PartialEq, Eq)]
pub struct Walk {
    pub from: usize,
    pub at: usize,
}

// The next contour, its number, and its end.
fn enter_next(
    points: &[[usize; 3]],
    n: usize,
    k: usize,
    w: Walk,
    ends: &mut [u16],
    xs: &mut [i16],
    ys: &mut [i16],
    flags: &mut [u8],
) -> Walk
    ensures { entering result ends.new (rows xs.new ys.new flags.new)
        ≡ enter_next points.now n k (entering w ends.old (rows xs.old ys.old flags.old)) }
{
    let to = seek(points, more(w.from), n, true);
    let at = enter_contour(points, w.from, to, w.at, xs, ys, flags);
    store(ends, k, end_of(at));
    Walk { from: to, at }
}

// So many contours of n points.
pub fn enter_all(
    points: &[[usize; 3]],
    n: usize,
    contours: usize,
    ends: &mut [u16],
    xs: &mut [i16],
    ys: &mut [i16],
    flags: &mut [u8],
)
    ensures { filled ends.new (rows xs.new ys.new flags.new)
        ≡ enter_all points.now n contours (filled ends.old (rows xs.old ys.old flags.old)) }
{
    let mut w = Walk { from: 0, at: 0 };
    for k in 0..contours {
        w = enter_next(points, n, k, w, ends, xs, ys, flags);
    }
}
