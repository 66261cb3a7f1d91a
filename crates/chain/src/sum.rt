// The published sum of a chain whose shape is good.
ghost use Rattle.std.specs.Prelude.{◌≡◌, true, ◌-◌, ◌<◌, ◌≤◌, length};
ghost use Rattle.chain.specs.Valid.{joint_of, joined, sum_of, chain_in, even_rows};
ghost use Rattle.chain.specs.Fallen.{fallen_of_sum};

use crate::{Total, shape, valid};
use geometry::Quad;

// 1 for a line or a smooth joint of two curves, else 2.
fn joint(before: Option<Quad>, q: Quad) -> f64
    ensures { result ≡ joint_of before q }
{
    if q.is_line() || valid::follows_curve(before, q) {
        1.0
    } else {
        2.0
    }
}

pub fn sum(
    samples: &[[f64; 4]],
    breaks: &[[f64; 6]],
    starts: &[u32],
    ends: &[u32],
    xs: &[f64],
    ys: &[f64],
    penalty: f64,
) -> Total
    requires breaks_nonzero { (0 < length breaks.now) × (even_rows starts.now ends.now xs.now ys.now ≡ true) × (length breaks.now ≤ 2048) }
    requires ys_value { joined (length breaks.now - 1) (chain_in starts.now ends.now xs.now ys.now) ≡ true }
    ensures { (result.sum ≡ sum_of samples.now breaks.now penalty (chain_in starts.now ends.now xs.now ys.now))
        × (result.fallen ≡ fallen_of_sum samples.now breaks.now penalty (chain_in starts.now ends.now xs.now ys.now)) }
{
    let mut before = None;
    let mut s = 0.0;
    let mut fallen = 0usize;
    for i in 0..starts.len() {
        let p = shape::read(starts, ends, xs, ys, i);
        let q = shape::quad_of(breaks, p);
        let a = breaks::read(breaks, p.from);
        let b = breaks::read(breaks, p.to);
        let Some(counted) = measure::measure_quad(samples, a.s, b.s, q) else {
            return Total {
                sum: None,
                fallen: 0,
            };
        };
        let m = counted.measure;
        s = s + penalty * joint(before, q) + m.error;
        fallen += counted.fallen;
        before = Some(q);
    }
    Total {
        sum: Some(s),
        fallen,
    }
}
