// The runs of a contour. Its corners are listed once, upward; run k lies between places k and k + 1 of the
// list.
#![tactic(auto)]

ghost use Rattle.std.specs.Prelude.{◌≡◌, ◌-◌, ◌≤◌, ◌<◌, min, length, get_or};
ghost use Rattle.runs.specs.Runs.{marks_from, corner_list, stops_of, between, run_at, copied_from, is_copied, workable, numbered_run, Listed};

// A run, from one corner up to the next: its first segment, and how many it has.
#[derive(Clone, Copy, Debug, PartialEq, Eq)]
pub struct Run {
    pub first: usize,
    pub count: usize,
}

// Writes the marked indices to the first places of the row, upward; says how many.
fn list_marks(marks: &[bool], list: &mut [usize]) -> usize
    requires { length marks.now ≤ length list.old }
    ensures listed { Listed list.new result (marks_from marks.now 0) }
    ensures few { result ≤ length marks.now }
{
    let mut n = 0;
    for (i, marked) in marks.iter().enumerate() {
        if *marked {
            list[n] = i;
            n += 1;
        }
    }
    n
}

// The corners of a contour, in the first places of the row. Past the last segment there is no mark, so
// that the marks of the segments alone are looked at, and of a few segments there need be few.
fn list_corners(
    xs: &[i16],
    ys: &[i16],
    flags: &[u8],
    marks: &mut [bool],
    list: &mut [usize],
) -> usize
    requires { (min (length flags.now) 1024 ≤ length marks.old) × (length marks.old ≤ 1024) × (length marks.old ≤ length list.old) }
    ensures listed { Listed list.new result (corner_list xs.now ys.now flags.now) }
    ensures few { result ≤ length marks.old }
    ensures low { 0 < result → get_or list.new 0 0 ≤ 1024 }
{
    let m = rows::least(corners::segment_sp(xs, ys, flags, marks), 1024);
    list_marks(&marks[..m], list)
}

// Where the runs begin and end, by a row that is lent for the marks: the corners; in closed mode the first
// once more, going round.
fn list_marked(
    xs: &[i16],
    ys: &[i16],
    flags: &[u8],
    closed: bool,
    marks: &mut [bool],
    list: &mut [usize],
) -> usize
    requires { (min (length flags.now) 1024 ≤ length marks.old) × (length marks.old ≤ 1024) × (length marks.old < length list.old) }
    ensures { Listed list.new result (stops_of closed xs.now ys.now flags.now) }
{
    let n = list_corners(xs, ys, flags, marks, list);
    if closed && n > 0 {
        list[n] = list[0] + outline::count(flags);
        return n + 1;
    }
    n
}

// Where the runs begin and end, by a row of N marks: 1024 serve any contour. One of at most N points has no more segments than that, and a
// short row takes less time to clear.
pub fn list_stops<const N: usize>(
    xs: &[i16],
    ys: &[i16],
    flags: &[u8],
    closed: bool,
    list: &mut [usize],
) -> usize
    requires { (min (length flags.now) 1024 ≤ N) × (N ≤ 1024) × (N < length list.old) }
    ensures { Listed list.new result (stops_of closed xs.now ys.now flags.now) }
{
    let mut marks = [false; N];
    list_marked(xs, ys, flags, closed, &mut marks, list)
}

// From one corner to the next.
fn gap(a: usize, b: usize) -> usize
    ensures { result ≡ b - a }
{
    b.saturating_sub(a)
}

// Run k between listed corners, if there is one.
pub fn run_at(corners: &[usize], k: usize) -> Option<Run>
    ensures { result ≡ run_at (between corners.now) k }
{
    if corners.len() == 0 {
        return None;
    }
    if k < corners.len() - 1 {
        let first = corners[k];
        let count = gap(first, corners[k + 1]);
        return Some(Run { first, count });
    }
    None
}

// Whether the run of so many segments from place a on is one line, which is copied.
pub fn is_copied_from(xs: &[i16], ys: &[i16], flags: &[u8], a: usize, count: usize) -> bool
    ensures { result ≡ copied_from xs.now ys.now flags.now a count }
{
    count == 1 && !outline::read_from(xs, ys, flags, a).is_quad()
}

pub fn is_copied(xs: &[i16], ys: &[i16], flags: &[u8], r: Option<Run>) -> bool
    ensures { result ≡ is_copied xs.now ys.now flags.now r }
{
    match r {
        Some(run) => {
            is_copied_from(
                xs,
                ys,
                flags,
                outline::start_of(flags, run.first),
                run.count,
            )
        }
        None => false,
    }
}

// The run itself, or none where it is one copied line.
fn unless_copied(xs: &[i16], ys: &[i16], flags: &[u8], r: Option<Run>) -> Option<Run>
    ensures { result ≡ workable xs.now ys.now flags.now r }
{
    if is_copied(xs, ys, flags, r) {
        return None;
    }
    r
}

// Run k of a contour, for the entries that work one run alone.
pub fn numbered_run(xs: &[i16], ys: &[i16], flags: &[u8], closed: bool, k: usize) -> Option<Run>
    ensures { result ≡ numbered_run closed xs.now ys.now flags.now k }
{
    let mut list = [0usize; 1025];
    let n = list_stops::<1024>(xs, ys, flags, closed, &mut list);
    unless_copied(xs, ys, flags, run_at(&list[..n], k))
}
