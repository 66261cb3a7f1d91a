// The pieces of a stored answer. Its links lead from the last piece to the first, so the numbers of the
// stored answers are written down from the end back; then the pieces are gone through in order, to a chain
// or to points.
#![tactic(auto)]

ghost use Rattle.std.specs.Prelude.{◌≡◌, map, ◌<◌, ◌≤◌, ◌-◌, length, drop};
ghost use Rattle.breaks.specs.Breaks.{Row};
ghost use Rattle.contour.specs.Points.{pieces_points};
ghost use Rattle.contour.specs.Writing.{Appended};
ghost use Rattle.attempt.specs.Answers.{Statelet};
ghost use Rattle.optimize.specs.Stored.{Anywhere, Holds};
ghost use Rattle.pieces.specs.Pieces.{pieces_of};
ghost use Rattle.pieces.specs.Slots.{Falls, slots_of, piece_of, stored_quad, quads_of, chain, chained, left, put_of, Legible, Each, Stored, Held};

use chain::Piece;
use contour::Written;
use geometry::Point;

// The stored answers from the start of the run to k stand at the end of the row, from the place given back.
fn slots_to(links: &[u32], k: usize, slots: &mut [u32]) -> usize
    requires { Falls links.now k × (k < length slots.old) × (k < 4096) }
    ensures slots { drop result slots.new ≡ slots_of links.now k }
    ensures place { result < length slots.old }
{
    let mut at = k;
    let mut i = slots.len() - 1;
    slots[i] = at as u32;
    while 2 <= links[at] {
        at = (links[at] - 2) as usize;
        i -= 1;
        slots[i] = at as u32;
    }
    i
}

// Stored answer k as a piece of a chain.
fn piece_of(answers: &[[f64; 3]], links: &[u32], k: usize) -> Piece
    requires { (k < length answers.now) × (k < length links.now) }
    ensures { result ≡ piece_of answers.now links.now k }
{
    let a = answers[k];
    let control = Point { x: a[1], y: a[2] };
    Piece {
        from: optimize::stored::from_break(links[k]),
        to: k / 2,
        control,
    }
}

// The pieces from place `first` of the slots on, to the first places of the chain's rows.
fn put_pieces(
    answers: &[[f64; 3]],
    links: &[u32],
    slots: &[u32],
    first: usize,
    starts: &mut [u32],
    ends: &mut [u32],
    xs: &mut [f64],
    ys: &mut [f64],
)
    requires each { Each (Legible 2048 answers.now links.now) (drop first slots.now) }
    requires first_in_bounds { (length slots.now - first ≤ length starts.old) × (length slots.now - first ≤ length ends.old)
        × (length slots.now - first ≤ length xs.old) × (length slots.now - first ≤ length ys.old) }
    ensures { chain starts.new ends.new xs.new ys.new
        ≡ chained (map (piece_of answers.now links.now) (drop first slots.now))
        (chain starts.old ends.old xs.old ys.old) }
{
    for i in first..slots.len() {
        let p = piece_of(answers, links, slots[i] as usize);
        let c = p.control;
        starts[i - first] = p.from as u32;
        ends[i - first] = p.to as u32;
        xs[i - first] = c.x;
        ys[i - first] = c.y;
    }
}

// The chain of stored answer k, to the first places of the chain's rows: how many pieces are written. All or none of
// it is, and nothing where it has more pieces than the shortest chain row, which is refusal 9, or more than `most`,
// which is the room of a row that is filled after these.
pub fn put_chain(
    answers: &[[f64; 3]],
    links: &[u32],
    k: usize,
    most: usize,
    starts: &mut [u32],
    ends: &mut [u32],
    xs: &mut [f64],
    ys: &mut [f64],
) -> Option<usize>
    requires { Held answers.now links.now k }
    ensures { (breaks : Row) (a : Statelet) → Holds Anywhere breaks answers.now links.now k a →
        put_of most (pieces_of a) (chain starts.old ends.old xs.old ys.old)
        ≡ left result (chain starts.new ends.new xs.new ys.new) }
{
    let mut slots = [0; 4096];
    let first = slots_to(links, k, &mut slots);
    let room = rows::least(
        most,
        rows::least(
            rows::least(starts.len(), ends.len()),
            rows::least(xs.len(), ys.len()),
        ),
    );
    if room < 4096 - first {
        return None;
    }
    put_pieces(answers, links, &slots, first, starts, ends, xs, ys);
    Some(4096 - first)
}

// The points of the pieces from place `first` of the slots on.
fn push_pieces(
    breaks: &[[f64; 6]],
    answers: &[[f64; 3]],
    links: &[u32],
    slots: &[u32],
    first: usize,
    points: &mut [[i16; 3]],
    w: Written,
) -> Written
    requires { (first < length slots.now) × Each (Legible (length breaks.now) answers.now links.now) (drop first slots.now) }
    ensures { Appended points.old w points.new result
        (pieces_points (map (stored_quad breaks.now answers.now links.now) (drop first slots.now))) }
{
    let mut v = w;
    for i in first..slots.len() {
        let k = slots[i] as usize;
        v = contour::push_piece(
            points,
            v,
            optimize::stored::quad_of(breaks, answers, k, links[k]),
        );
    }
    v
}

// What push_chain does, by a row of N numbers of stored answers. They fall along the links, so that N is enough where k is less.
fn push_slots<const N: usize>(
    breaks: &[[f64; 6]],
    answers: &[[f64; 3]],
    links: &[u32],
    k: usize,
    points: &mut [[i16; 3]],
    w: Written,
) -> Written
    requires { Stored breaks.now answers.now links.now k × (k < N) × (N ≤ 4096) }
    ensures { (a : Statelet) → Holds Anywhere breaks.now answers.now links.now k a →
        Appended points.old w points.new result (pieces_points (quads_of a)) }
{
    let mut slots = [0; N];
    let first = slots_to(links, k, &mut slots);
    push_pieces(breaks, answers, links, &slots, first, points, w)
}

// The points of stored answer k, after those that are written. Near the start of a run a short row does: the long one takes longer to zero
// than a short chain to write.
pub fn push_chain(
    breaks: &[[f64; 6]],
    answers: &[[f64; 3]],
    links: &[u32],
    k: usize,
    points: &mut [[i16; 3]],
    w: Written,
) -> Written
    requires { Stored breaks.now answers.now links.now k }
    ensures { (a : Statelet) → Holds Anywhere breaks.now answers.now links.now k a →
        Appended points.old w points.new result (pieces_points (quads_of a)) }
{
    if k < 64 {
        return push_slots::<64>(breaks, answers, links, k, points, w);
    }
    push_slots::<4096>(breaks, answers, links, k, points, w)
}
