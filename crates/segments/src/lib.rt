// Which segment of its contour holds each break of a run: the sixth number of a break. It is named after
// the breaks are found and used, so that nothing else can depend on it. Each contract equates the result
// with a definition of specs/Segments.antt.
#![tactic(auto)]

ghost use Rattle.std.specs.Prelude.{◌≡◌, map, ◌-◌, ◌≤◌, length, take};
ghost use Rattle.float.specs.Numbers.{nought};
ghost use Rattle.samples.specs.Samples.{length_after, quads_of};
ghost use Rattle.segments.specs.Segments.{ends_from, place_in, number_of, named_of, carried, segment_at};

use arclen::ArclenFunctor;
use geometry::Quad;

// The length after a quad that starts at the length y: the 100 steps of the sampling.
fn length_after(q: Quad, y: f64) -> f64
    ensures { result ≡ length_after q y }
{
    let f = ArclenFunctor::new(q);
    let h = 1.0 / 100.0;
    let mut t = 0.0;
    let mut at = y;
    for _ in 0..100usize {
        at = arclen::rk4(f, h, t, at);
        t = t + h;
    }
    at
}

// Where n segments end, from segment `first` on, in the first places of the row.
fn fill_ends(xs: &[i16], ys: &[i16], flags: &[u8], first: usize, n: usize, ends: &mut [f64])
    requires { n ≤ length ends.old }
    ensures { take n ends.new ≡ ends_from (quads_of xs.now ys.now flags.now first n) nought }
{
    let mut a = outline::start_of(flags, first);
    let mut y = 0.0;
    for k in 0..n {
        y = length_after(samples::as_quad(outline::read_from(xs, ys, flags, a)), y);
        ends[k] = y;
        a = outline::end_of(flags, a);
    }
}

// Which segment of the run holds the length s, where all but the last have their ends in the row.
fn place_in(ends: &[f64], s: f64) -> usize
    ensures place { result ≡ place_in ends.now s }
    ensures few { result ≤ length ends.now }
{
    if s != s {
        return 0;
    }
    for (k, end) in ends.iter().enumerate() {
        if s <= *end {
            return k;
        }
    }
    ends.len()
}

// The number of a segment that is reached going round a contour of so many.
fn number_of(total: usize, n: usize) -> usize
    ensures number { result ≡ number_of total n }
    ensures few { result ≤ n }
{
    if n < total { n } else { n - total }
}

// A break with the number of its segment.
fn named(ends: &[f64], first: usize, total: usize, b: [f64; 6]) -> [f64; 6]
    requires { (first ≤ 2048) × (length ends.now ≤ 2048) }
    ensures { result ≡ named_of ends.now first total b }
{
    let n = number_of(total, first + place_in(ends, b[0]));
    [b[0], b[1], b[2], b[3], b[4], n as f64]
}

fn name_each(ends: &[f64], first: usize, total: usize, row: &mut [[f64; 6]])
    requires { (first ≤ 2048) × (length ends.now ≤ 2048) }
    ensures { row.new ≡ map (named_of ends.now first total) row.old }
{
    for b in row {
        *b = named(ends, first, total, *b);
    }
}

// Names the segment of every break of the run of `count` segments from segment `first` on. Of the last
// segment no end is needed, so that a run of one segment costs nothing.
pub fn name(xs: &[i16], ys: &[i16], flags: &[u8], first: usize, count: usize, row: &mut [[f64; 6]])
    requires { (first ≤ 2048) × (count ≤ 2048) }
    ensures { row.new ≡ carried xs.now ys.now flags.now first count row.old }
{
    let mut ends = [0.0; 2048];
    let n = count.saturating_sub(1);
    fill_ends(xs, ys, flags, first, n, &mut ends);
    name_each(&ends[..n], first, outline::count(flags), row);
}

// The segment that break i of a row carries; 0 past its end.
pub fn segment_at(row: &[[f64; 6]], i: usize) -> u32
    ensures { result ≡ segment_at row.now i }
{
    if i < row.len() {
        float::to_index(row[i][5]).min(0x7fff_ffff) as u32
    } else {
        0
    }
}
