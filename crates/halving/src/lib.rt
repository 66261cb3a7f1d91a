// One cubic: halved at 1/2 by midpoints, its third difference, and the control of the quad that replaces it. Each
// f64 here is exact for cubics of 16-bit points; `nearest` alone rounds.
#![tactic(auto)]

ghost use Rattle.std.specs.Prelude.{◌≡◌, ℕ, ℤ};
ghost use Rattle.halving.specs.Cubic.{nearest};
ghost use Rattle.float.specs.Dyadic.{Exact};
ghost use Rattle.halving.specs.Exact.{Roomy, Brought};
ghost use Rattle.halving.specs.Steps.{mid_of, first_of, second_of, third_of, bent_of, control_of, first_cubic, second_cubic, bent_cubic};

// One coordinate of a cubic's four points.
#[derive(Clone, Copy)]
pub struct Axis {
    pub p0: f64,
    pub p1: f64,
    pub p2: f64,
    pub p3: f64,
}

#[derive(Clone, Copy)]
pub struct Cubic {
    pub x: Axis,
    pub y: Axis,
}

// A coordinate rounded, and whether that is outside 16 bits. Both are needed: a point outside is counted as one inside
// is, and too many points are refused first.
#[derive(Clone, Copy, Debug, PartialEq, Eq)]
pub struct Rounded {
    pub value: i16,
    pub far: bool,
}

// ---- one coordinate

fn mid(a: f64, b: f64) -> f64
    ensures { result ≡ mid_of a b }
{
    (a + b) * 0.5
}

impl Axis {
    // The half from p0 on.
    pub fn first(self) -> Axis
        ensures { result ≡ first_of self }
    {
        let p01 = mid(self.p0, self.p1);
        let p12 = mid(self.p1, self.p2);
        let p23 = mid(self.p2, self.p3);
        let p012 = mid(p01, p12);
        Axis {
            p0: self.p0,
            p1: p01,
            p2: p012,
            p3: mid(p012, mid(p12, p23)),
        }
    }

    // The half up to p3.
    pub fn second(self) -> Axis
        ensures { result ≡ second_of self }
    {
        let p01 = mid(self.p0, self.p1);
        let p12 = mid(self.p1, self.p2);
        let p23 = mid(self.p2, self.p3);
        let p123 = mid(p12, p23);
        Axis {
            p0: mid(mid(p01, p12), p123),
            p1: p123,
            p2: p23,
            p3: self.p3,
        }
    }

    // The third difference.
    pub fn third(self) -> f64
        ensures { result ≡ third_of self }
    {
        self.p3 - self.p2 * 3.0 + self.p1 * 3.0 - self.p0
    }

    // Whether the third difference is more than 8 in size.
    pub fn is_bent(self) -> bool
        ensures { result ≡ bent_of self }
    {
        8.0 < float::abs(self.third())
    }

    // The control of the quad that replaces the cubic.
    pub fn control(self) -> f64
        ensures { result ≡ control_of self }
    {
        (self.p1 * 3.0 + self.p2 * 3.0 - self.p0 - self.p3) * 0.25
    }
}

// x to the nearest whole number, halves away from zero.
pub fn nearest(x: f64) -> Rounded
    ensures { (z : ℤ) (e b : ℕ) → Roomy e b → Exact x z e b → Brought (nearest e z) result }
{
    let r = float::round(x);
    if r < -32768.0 {
        return Rounded {
            value: float::to_i16(r),
            far: true,
        };
    }
    Rounded {
        value: float::to_i16(r),
        far: 32767.0 < r,
    }
}

impl Cubic {
    pub fn first(self) -> Cubic
        ensures { result ≡ first_cubic self }
    {
        let x = self.x;
        let y = self.y;
        Cubic {
            x: x.first(),
            y: y.first(),
        }
    }

    pub fn second(self) -> Cubic
        ensures { result ≡ second_cubic self }
    {
        let x = self.x;
        let y = self.y;
        Cubic {
            x: x.second(),
            y: y.second(),
        }
    }

    // Whether it is to be halved.
    pub fn is_bent(self) -> bool
        ensures { result ≡ bent_cubic self }
    {
        let x = self.x;
        let y = self.y;
        x.is_bent() || y.is_bent()
    }
}
