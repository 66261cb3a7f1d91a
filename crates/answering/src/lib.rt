// The answer to a line: what becomes of the contour on it, as text.
#![tactic(auto)]

ghost use Rattle.std.specs.Prelude.{◌≡◌, [], ◌∷◌, ◌++◌, ◌≤◌, ◌<◌, length};
ghost use Rattle.contour.specs.Output.{outputs};
ghost use Rattle.crunch.specs.Entry.{report};
ghost use Rattle.lines.specs.Text.{Put};
ghost use Rattle.answering.specs.Answer.{Roomy, NoLonger, fallen_text, entry_text, short_in, answer_text, line_text, places_for, Tries};

use crunch::Crunched;
use refusals::Refusal;
use words::Order;

// The lookups that fell, where they are asked for.
fn put_fallen(text: &mut [u8], at: usize, told: bool, n: usize) -> usize
    ensures { Put text.old at (fallen_text told n) text.new result }
{
    if told {
        let a = lines::put_all(text, at, b" fallen ");
        return lines::put_number(text, a, n as u64);
    }
    at.min(text.len())
}

// What the crunch entry says, with the points that it left in the output rows.
fn put_outcome(
    text: &mut [u8],
    at: usize,
    told: bool,
    c: Result<Crunched, Refusal>,
    ox: &[i16],
    oy: &[i16],
    of: &[u8],
) -> usize
    requires { Roomy (report c).points (outputs ox.now oy.now of.now) }
    ensures { Put text.old at (entry_text told c (outputs ox.now oy.now of.now)) text.new result }
{
    match c {
        Err(k) => {
            let a = lines::put_refused(text, at, k.number());
            put_fallen(text, a, told, 0)
        }
        Ok(Crunched { points, tally }) => {
            let a = lines::put_ok(text, at, tally.pairs, ox, oy, of, points);
            put_fallen(text, a, told, tally.fallen)
        }
    }
}

// In rows with document 01's full rooms. The rows are this function's own: it is called at most once a line.
fn put_full(text: &mut [u8], at: usize, xs: &[i16], ys: &[i16], flags: &[u8], order: Order) -> usize
    ensures { Put text.old at (answer_text order xs.now ys.now flags.now) text.new result }
{
    let mut ox = [0i16; 16384];
    let mut oy = [0i16; 16384];
    let mut of = [0u8; 16384];
    let mut samples = [[0.0; 4]; 16384];
    let mut breaks = [[0.0; 6]; 2048];
    let mut answers = [[0.0; 3]; 4096];
    let mut links = [0u32; 4096];
    let mut points = [[0i16; 3]; 16384];
    let c = crunch::crunch_contour(
        xs,
        ys,
        flags,
        order.settings,
        &mut ox,
        &mut oy,
        &mut of,
        &mut samples,
        &mut breaks,
        &mut answers,
        &mut links,
        &mut points,
    );
    put_outcome(text, at, order.told, c, &ox, &oy, &of)
}

// Whether a contour was refused for want of room.
fn is_short(c: Result<Crunched, Refusal>) -> bool
    ensures { result ≡ short_in c }
{
    matches!(
        c,
        Err(Refusal::TooManySamples | Refusal::TooManyBreaks | Refusal::OutputTooShort)
    )
}

// In rows that are lent, and may be too short: None, where they are, and nothing is put. A contour that they have room for gets the
// answer of the full rooms, by `more_room`.
fn put_lent(
    text: &mut [u8],
    at: usize,
    xs: &[i16],
    ys: &[i16],
    flags: &[u8],
    order: Order,
    ox: &mut [i16],
    oy: &mut [i16],
    of: &mut [u8],
    samples: &mut [[f64; 4]],
    breaks: &mut [[f64; 6]],
    answers: &mut [[f64; 3]],
    links: &mut [u32],
    points: &mut [[i16; 3]],
) -> Option<usize>
    requires { NoLonger samples.old breaks.old answers.old links.old points.old }
    ensures { Tries text.old at (answer_text order xs.now ys.now flags.now) text.new result }
{
    let c = crunch::crunch_contour(
        xs,
        ys,
        flags,
        order.settings,
        ox,
        oy,
        of,
        samples,
        breaks,
        answers,
        links,
        points,
    );
    if is_short(c) {
        return None;
    }
    Some(put_outcome(text, at, order.told, c, ox, oy, of))
}

// In rows of this function's own, with places for so many points, samples, breaks and answers. Shorter ones are cleared in a
// fraction of the time.
fn put_in<const POINTS: usize, const SAMPLES: usize, const BREAKS: usize, const ANSWERS: usize>(
    text: &mut [u8],
    at: usize,
    xs: &[i16],
    ys: &[i16],
    flags: &[u8],
    order: Order,
) -> Option<usize>
    requires { (POINTS ≤ 16384) × (SAMPLES ≤ 16384) × (BREAKS ≤ 2048) × (ANSWERS ≤ 4096) }
    ensures { Tries text.old at (answer_text order xs.now ys.now flags.now) text.new result }
{
    let mut ox = [0i16; POINTS];
    let mut oy = [0i16; POINTS];
    let mut of = [0u8; POINTS];
    let mut samples = [[0.0; 4]; SAMPLES];
    let mut breaks = [[0.0; 6]; BREAKS];
    let mut answers = [[0.0; 3]; ANSWERS];
    let mut links = [0u32; ANSWERS];
    let mut points = [[0i16; 3]; POINTS];
    put_lent(
        text,
        at,
        xs,
        ys,
        flags,
        order,
        &mut ox,
        &mut oy,
        &mut of,
        &mut samples,
        &mut breaks,
        &mut answers,
        &mut links,
        &mut points,
    )
}

fn gap(a: i16, b: i16) -> f64 {
    float::abs(a as f64 - b as f64)
}

// How far it is around a contour, by steps along x and y from point to point and from the last to the first. Past 1000 it is not summed on. In
// floats, where no sum overflows.
fn around(xs: &[i16], ys: &[i16]) -> f64 {
    let n = xs.len().min(ys.len());
    if n == 0 {
        return 0.0;
    }
    let mut sum = 0.0;
    let mut j = n - 1;
    for i in 0..n {
        sum = sum + gap(xs[i], xs[j]) + gap(ys[i], ys[j]);
        if 1000.0 < sum {
            return sum;
        }
        j = i;
    }
    sum
}

// In 3 KiB of rows or 72, the shorter where they nearly always have room for a contour so far around. Only the time hangs on the choice.
fn put_short(
    text: &mut [u8],
    at: usize,
    xs: &[i16],
    ys: &[i16],
    flags: &[u8],
    order: Order,
    far: f64,
) -> Option<usize>
    ensures { Tries text.old at (answer_text order xs.now ys.now flags.now) text.new result }
{
    if far <= 16.0 {
        return put_in::<32, 20, 20, 40>(text, at, xs, ys, flags, order);
    }
    put_in::<1024, 256, 512, 1024>(text, at, xs, ys, flags, order)
}

// In 256 KiB of rows, likewise; None, where they are too short.
fn put_less(
    text: &mut [u8],
    at: usize,
    xs: &[i16],
    ys: &[i16],
    flags: &[u8],
    order: Order,
    far: f64,
) -> Option<usize>
    ensures { Tries text.old at (answer_text order xs.now ys.now flags.now) text.new result }
{
    if far <= 1000.0 {
        return put_in::<1024, 1024, 2048, 4096>(text, at, xs, ys, flags, order);
    }
    None
}

// The answer to a contour so far around, in long rows.
fn put_long(
    text: &mut [u8],
    at: usize,
    xs: &[i16],
    ys: &[i16],
    flags: &[u8],
    order: Order,
    far: f64,
) -> usize
    ensures { Put text.old at (answer_text order xs.now ys.now flags.now) text.new result }
{
    match put_less(text, at, xs, ys, flags, order, far) {
        Some(end) => end,
        None => put_full(text, at, xs, ys, flags, order),
    }
}

// The answer to a contour, tried in short rows first where it is short. The long rows are asked for in two places, whose
// results go different ways: so they are not compiled in place, where every page of them would be touched for a short contour too. No
// place after an answer is past the text.
fn put_crunched(
    text: &mut [u8],
    at: usize,
    xs: &[i16],
    ys: &[i16],
    flags: &[u8],
    order: Order,
) -> usize
    ensures { Put text.old at (answer_text order xs.now ys.now flags.now) text.new result }
{
    let far = around(xs, ys);
    if 250.0 < far {
        return put_long(text, at, xs, ys, flags, order, far);
    }
    match put_short(text, at, xs, ys, flags, order, far) {
        Some(end) => end,
        None => {
            let end = put_long(text, at, xs, ys, flags, order, far);
            end.min(text.len())
        }
    }
}

// The answer to a line that is read into rows of this function's own, which are cleared in a fraction of the time where they are
// short. They have a place for each point that the line can have, or 1,025: so many are refused as more would be.
fn put_read<const N: usize>(text: &mut [u8], at: usize, line: &[u8], order: Order) -> usize
    requires room { places_for line.now ≤ N }
    requires most { N ≤ 1025 }
    ensures { Put text.old at (line_text order line.now) text.new result }
{
    let mut xs = [0i16; N];
    let mut ys = [0i16; N];
    let mut flags = [0u8; N];
    match lines::parse(line, &mut xs, &mut ys, &mut flags) {
        None => lines::put_all(text, at, b"malformed"),
        Some(n) => {
            let m = n.min(1025);
            put_crunched(text, at, &xs[..m], &ys[..m], &flags[..m], order)
        }
    }
}

// The answer to a line, which is given without its end, and a line end after it. A point takes six bytes with the blanks after its
// words, and the last blank is none of the line's.
pub fn put_answer(text: &mut [u8], at: usize, line: &[u8], order: Order) -> usize
    ensures { Put text.old at (line_text order line.now ++ (10 ∷ [])) text.new result }
{
    let is_brief = line.len() < 192;
    let a = if is_brief {
        put_read::<32>(text, at, line, order)
    } else {
        put_read::<1025>(text, at, line, order)
    };
    lines::put_byte(text, a, b'\n')
}
