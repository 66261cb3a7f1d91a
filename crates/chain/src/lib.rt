// Demand 3: the checker. A chain stands in four rows: start break, end break, control x, control y. Each
// contract equates the result with a definition of specs/Valid.antt.
#![tactic(auto)]

mod shape;
mod sum;
mod valid;

ghost use Rattle.std.specs.Prelude.{◌≡◌, ◌<◌, ◌≤◌, length};
ghost use Rattle.chain.specs.Valid.{check_rows};
ghost use Rattle.chain.specs.Fallen.{fallen_rows};

use geometry::Point;

// A piece: the numbers of the breaks where it starts and ends, and its control.
#[derive(Clone, Copy)]
pub struct Piece {
    pub from: usize,
    pub to: usize,
    pub control: Point,
}

// A sum of scores, or none where a measure was refused by 8; and the lookups that fell in its measures.
#[derive(Clone, Copy)]
pub struct Total {
    pub sum: Option<f64>,
    pub fallen: usize,
}

// Whether a chain is accepted, or none where a measure was refused by 8; and the lookups that fell in the
// measures made for it.
#[derive(Clone, Copy)]
pub struct Checking {
    pub said: Option<bool>,
    pub fallen: usize,
}

#[tactic(auto, using(crate::proofs::Along::good_joined), unfolding(crate::specs::Valid::check_rows, crate::specs::Valid::checked_chain, crate::specs::Fallen::fallen_rows))]
pub fn check(
    samples: &[[f64; 4]],
    breaks: &[[f64; 6]],
    starts: &[u32],
    ends: &[u32],
    xs: &[f64],
    ys: &[f64],
    score: f64,
    penalty: f64,
) -> Checking
    requires { (0 < length breaks.now) × (length breaks.now ≤ 2048) }
    ensures { (result.said ≡ check_rows samples.now breaks.now penalty starts.now ends.now xs.now ys.now score)
        × (result.fallen ≡ fallen_rows samples.now breaks.now penalty starts.now ends.now xs.now ys.now) }
{
    if !shape::are_even(starts, ends, xs, ys) || !shape::is_good(breaks, starts, ends, xs, ys) {
        return Checking {
            said: Some(false),
            fallen: 0,
        };
    }
    let t = sum::sum(samples, breaks, starts, ends, xs, ys, penalty);
    let fallen = t.fallen;
    let Some(s) = t.sum else {
        return Checking { said: None, fallen };
    };
    let said = Some(valid::equals(s, score));
    Checking { said, fallen }
}
