// The shape of a chain: all but the score. Break numbers are tested before any break is read.
ghost use Rattle.std.specs.Prelude.{◌≡◌, true, ◌-◌, ◌<◌, List, length, Float, None};
ghost use Rattle.chain.specs.Valid.{piece_quad, piece_at, chain_in, even_rows, joined, leads, valid_from, good_shape};

use crate::{Piece, valid};
use geometry::{Point, Quad};

pub fn are_even(starts: &[u32], ends: &[u32], xs: &[f64], ys: &[f64]) -> bool
    ensures { result ≡ even_rows starts.now ends.now xs.now ys.now }
{
    let n = starts.len();
    ends.len() == n && xs.len() == n && ys.len() == n
}

pub fn read(starts: &[u32], ends: &[u32], xs: &[f64], ys: &[f64], i: usize) -> Piece
    requires { (i < length starts.now) × (i < length ends.now) × (i < length xs.now) × (i < length ys.now) }
    ensures { result ≡ piece_at starts.now ends.now xs.now ys.now i }
{
    Piece {
        from: starts[i] as usize,
        to: ends[i] as usize,
        control: Point { x: xs[i], y: ys[i] },
    }
}

pub fn quad_of(breaks: &[[f64; 6]], p: Piece) -> Quad
    requires { (p.from < length breaks.now) × (p.to < length breaks.now) }
    ensures { result ≡ piece_quad breaks.now p }
{
    Quad {
        p0: breaks::read(breaks, p.from).xy,
        p1: p.control,
        p2: breaks::read(breaks, p.to).xy,
    }
}

// Break numbers, of a run with two breaks or more: the last is n.
#[tactic(auto, using(crate::proofs::Along::leads_on))]
fn leads(starts: &[u32], ends: &[u32], n: usize) -> bool
    requires { length ends.now ≡ length starts.now }
    ensures { (xs ys : List Float) → result ≡ leads n 0 (chain_in starts.now ends.now xs ys) }
{
    let mut at = 0;
    for i in 0..starts.len() {
        let a = starts[i] as usize;
        let b = ends[i] as usize;
        if a != at || b <= a || n < b {
            return false;
        }
        at = b;
    }
    at == n
}

// A run with one break has one piece, staying there.
#[tactic(auto, using(crate::proofs::Along::alone))]
fn stays(starts: &[u32], ends: &[u32]) -> bool
    requires { length ends.now ≡ length starts.now }
    ensures { (xs ys : List Float) → result ≡ joined 0 (chain_in starts.now ends.now xs ys) }
{
    starts.len() == 1 && starts[0] == 0 && ends[0] == 0
}

fn are_valid(breaks: &[[f64; 6]], starts: &[u32], ends: &[u32], xs: &[f64], ys: &[f64]) -> bool
    requires breaks_nonzero { (0 < length breaks.now) × (even_rows starts.now ends.now xs.now ys.now ≡ true) }
    requires ys_value { joined (length breaks.now - 1) (chain_in starts.now ends.now xs.now ys.now) ≡ true }
    ensures { result ≡ valid_from breaks.now None (chain_in starts.now ends.now xs.now ys.now) }
{
    let mut before = None;
    for i in 0..starts.len() {
        let p = read(starts, ends, xs, ys, i);
        let a = breaks::read(breaks, p.from);
        let b = breaks::read(breaks, p.to);
        if !valid::is_valid(before, a, b, p.control) {
            return false;
        }
        before = Some(quad_of(breaks, p));
    }
    true
}

fn joins(starts: &[u32], ends: &[u32], n: usize) -> bool
    requires { length ends.now ≡ length starts.now }
    ensures { (xs ys : List Float) → result ≡ joined n (chain_in starts.now ends.now xs ys) }
{
    if n == 0 {
        return stays(starts, ends);
    }
    leads(starts, ends, n)
}

#[tactic(auto, unfolding(crate::specs::Valid::good_shape))]
pub fn is_good(breaks: &[[f64; 6]], starts: &[u32], ends: &[u32], xs: &[f64], ys: &[f64]) -> bool
    requires { (0 < length breaks.now) × (even_rows starts.now ends.now xs.now ys.now ≡ true) }
    ensures { result ≡ good_shape breaks.now (chain_in starts.now ends.now xs.now ys.now) }
{
    joins(starts, ends, breaks.len() - 1) && are_valid(breaks, starts, ends, xs, ys)
}
