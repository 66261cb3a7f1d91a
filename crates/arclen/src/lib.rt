// Module 4: the derivative of a quad, and its length by RK4 for one value. Each float operation stands where the definition has it, and
// each root is taken by its digits. That this is the RK4 of the definitions is a law over lists of any length, cited for one value here
// and for two in `measure`.
#![tactic(auto)]

ghost use Rattle.std.specs.Prelude.{◌≡◌};
ghost use Rattle.arclen.specs.Rk4.{moved_by, grown_by};
ghost use Rattle.arclen.specs.Arclen.{arclen_functor_of, deriv_of, speed_of, arclen_of};
ghost use Rattle.arclen.specs.One.{RatesOne, StepsOne};

use geometry::{Point, Quad};

// The derivative of a quad: its values at both ends.
#[derive(Clone, Copy, Debug, PartialEq)]
pub struct ArclenFunctor {
    pub dx0: f64,
    pub dy0: f64,
    pub dx1: f64,
    pub dy1: f64,
}

impl ArclenFunctor {
    pub fn new(q: Quad) -> Self
        ensures { result ≡ arclen_functor_of q }
    {
        ArclenFunctor {
            dx0: 2.0 * (q.p1.x - q.p0.x),
            dy0: 2.0 * (q.p1.y - q.p0.y),
            dx1: 2.0 * (q.p2.x - q.p1.x),
            dy1: 2.0 * (q.p2.y - q.p1.y),
        }
    }

    pub fn deriv(self, t: f64) -> Point
        ensures { result ≡ deriv_of self t }
    {
        Point {
            x: self.dx0 + t * (self.dx1 - self.dx0),
            y: self.dy0 + t * (self.dy1 - self.dy0),
        }
    }

    // The speed at the time t.
    pub fn speed(self, t: f64) -> f64
        ensures { result ≡ speed_of self t }
    {
        self.deriv(t).norm()
    }

    // The rate of the length at the time t. It does not look at the length y, as the Rust's `apply` for one value.
    fn rate(self, t: f64, y: f64) -> f64
        ensures { RatesOne self t y result }
    {
        self.speed(t)
    }
}

// One value moved on by the rate k for a while a.
pub fn moved(a: f64, y: f64, k: f64) -> f64
    ensures { result ≡ moved_by a y k }
{
    y + a * k
}

// One value after a step of h, from its four rates.
pub fn grown(h: f64, y: f64, a: f64, b: f64, c: f64, d: f64) -> f64
    ensures { result ≡ grown_by h y a b c d }
{
    y + h / 6.0 * (a + d + 2.0 * (c + b))
}

// One step of h from the length y at the time t.
pub fn rk4(f: ArclenFunctor, h: f64, t: f64, y: f64) -> f64
    ensures { StepsOne f h t y result }
{
    let a = f.rate(t, y);
    let b = f.rate(t + h * 0.5, moved(h * 0.5, y, a));
    let c = f.rate(t + h * 0.5, moved(h * 0.5, y, b));
    let d = f.rate(t + h, moved(h, y, c));
    grown(h, y, a, b, c, d)
}

// The length of a quad, by ten steps.
pub fn arclen(q: Quad) -> f64
    ensures { result ≡ arclen_of q }
{
    let f = ArclenFunctor::new(q);
    let h = 1.0 / 10.0;
    let mut t = 0.0;
    let mut y = 0.0;
    for _i in 0..10usize {
        y = rk4(f, h, t, y);
        t += h;
    }
    y
}
