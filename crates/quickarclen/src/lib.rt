// Module 4, fast: ten steps of RK4 for one value at a time. The rate of the length does not look at the
// length, so that the two middle rates of a step are one, and a step's last rate is the next one's first:
// 21 speeds serve ten steps, and 20 more the ten after them. Their roots are guessed in a loop of their own, which is
// compiled to take several at a time, and taken by these guesses in another, where they overlap. Of a straight piece all
// speeds are one.
#![tactic(auto)]

ghost use Rattle.std.specs.Prelude.{true, ◌≡◌, ◌<◌, length, get_or};
ghost use Rattle.std.specs.Float.{nan};
ghost use Rattle.arclen.specs.Rk4.{grown_by};
ghost use Rattle.arclen.specs.Arclen.{tenth, deriv_of, speed_of};
ghost use Rattle.quickarclen.specs.Straight.{Unmoved, Straight};
ghost use Rattle.quickarclen.specs.Stages.{time_from, Squares, Ready, Roots, SameSpeeds, Lengths};
ghost use Rattle.quickarclen.specs.Stages.{with_step, Walked};
ghost use Rattle.geometry.specs.Geometry.{square_norm_of};

use arclen::ArclenFunctor;

// Whether what goes from a to b does not move.
fn unmoved(a: f64, b: f64) -> bool
    ensures { result ≡ true → Unmoved a b }
{
    b - a == 0.0
}

// Whether the derivative is one all along, as that of a straight piece is.
pub fn is_straight(f: ArclenFunctor) -> bool
    ensures { result ≡ true → Straight f }
{
    unmoved(f.dx0, f.dx1) && unmoved(f.dy0, f.dy1)
}

// The square of the speed at t.
fn square(f: ArclenFunctor, t: f64) -> f64
    ensures { result ≡ square_norm_of (deriv_of f t) }
{
    f.deriv(t).square_norm()
}

// Writes the squares of the speeds in the middle and at the end of each of ten steps of h from t on.
fn fill_squares(f: ArclenFunctor, h: f64, t: f64, w: &mut [f64; 20])
    requires { length w.old ≡ 20 }
    ensures { Squares f h t w.new 20 }
{
    let mut time = t;
    for i in 0..10 {
        let middle = square(f, time + h * 0.5);
        time += h;
        w[2 * i] = middle;
        w[2 * i + 1] = square(f, time);
    }
}

// Guesses the roots of 20 squares. The loop has no branch.
fn fill_guesses(w: &[f64; 20], guesses: &mut [f64; 20])
    requires { (length w.now ≡ 20) × (length guesses.old ≡ 20) }
    ensures { length guesses.new ≡ 20 }
{
    for k in 0..20 {
        guesses[k] = quickroot::likely(w[k]);
    }
}

// Writes the roots of 20 squares after the first place of v, by guesses of them, which may be any numbers.
fn fill_roots(w: &[f64; 20], guesses: &[f64; 20], v: &mut [f64; 21])
    requires { (length w.now ≡ 20) × (length guesses.now ≡ 20) × (length v.old ≡ 21) }
    ensures { Roots w.now (get_or v.old 0 nan) v.new 20 }
{
    for k in 0..20 {
        v[k + 1] = quickroot::root_by(w[k], guesses[k]);
    }
}

// The 21 speeds of ten steps of h from t on, over those of the ten steps before them, whose last is the
// first of these.
pub fn speeds_on(f: ArclenFunctor, h: f64, t: f64, v: &mut [f64; 21])
    requires { (length v.old ≡ 21) × (get_or v.old 20 nan ≡ speed_of f t) }
    ensures { (length v.new ≡ 21) × Ready f h t v.new 0 }
{
    v[0] = v[20];
    let mut w = [0.0; 20];
    fill_squares(f, h, t, &mut w);
    let mut guesses = [0.0; 20];
    fill_guesses(&w, &mut guesses);
    fill_roots(&w, &guesses, v);
}

// The speed at t, 21 times: all of those that a straight piece has.
pub fn same_speeds(f: ArclenFunctor, t: f64) -> [f64; 21]
    ensures { SameSpeeds f t result }
{
    [quickroot::root(square(f, t)); 21]
}

// The 21 speeds of ten steps of h from t on.
pub fn speeds(f: ArclenFunctor, h: f64, t: f64) -> [f64; 21]
    ensures { Ready f h t result 0 }
{
    let mut v = same_speeds(f, t);
    speeds_on(f, h, t, &mut v);
    v
}

// The lengths where each of ten steps of h starts, from y on and with these speeds, and where the last one ends.
pub fn lengths(h: f64, y: f64, v: &[f64; 21]) -> [f64; 11]
    requires { length v.now ≡ 21 }
    ensures { Lengths h y v.now result 10 }
{
    let mut at = [y; 11];
    for i in 0..10 {
        let middle = v[2 * i + 1];
        at[i + 1] = arclen::grown(h, at[i], v[2 * i], middle, middle, v[2 * i + 2]);
    }
    at
}

// The time after n steps of h from t on.
pub fn later(h: f64, t: f64, n: usize) -> f64
    ensures { result ≡ time_from h t n }
{
    let mut at = t;
    for _i in 0..n {
        at += h;
    }
    at
}

// Writes the four stages of the step i, from the length y at the time t on and with the speeds a, b and d at its start, middle and
// end, and gives the length where it ends.
fn write_step(i: usize, t: f64, y: f64, a: f64, b: f64, d: f64, stages: &mut [[f64; 3]; 40]) -> f64
    requires { (length stages.old ≡ 40) × (i < 10) }
    ensures { (stages.new ≡ with_step stages.old i t y a b d) × (result ≡ grown_by tenth y a b b d) }
{
    let h = 1.0 / 10.0;
    stages[4 * i] = [t, a, y];
    stages[4 * i + 1] = [t + h * 0.5, b, y + h * 0.5 * a];
    stages[4 * i + 2] = [t + h * 0.5, b, y + h * 0.5 * b];
    stages[4 * i + 3] = [t + h, d, y + h * b];
    arclen::grown(h, y, a, b, b, d)
}

// Ten steps along a straight piece: all its speeds are one, and one root serves.
fn walk_straight(f: ArclenFunctor, stages: &mut [[f64; 3]; 40]) -> f64
    requires { Straight f × (length stages.old ≡ 40) }
    ensures { Walked f stages.new result }
{
    let h = 1.0 / 10.0;
    let v = quickroot::root(square(f, 0.0));
    let mut t = 0.0;
    let mut y = 0.0;
    for i in 0..10 {
        y = write_step(i, t, y, v, v, v, stages);
        t += h;
    }
    y
}

// Ten steps along any quad.
fn walk_bent(f: ArclenFunctor, stages: &mut [[f64; 3]; 40]) -> f64
    requires { length stages.old ≡ 40 }
    ensures { Walked f stages.new result }
{
    let h = 1.0 / 10.0;
    let v = speeds(f, h, 0.0);
    let mut t = 0.0;
    let mut y = 0.0;
    for i in 0..10 {
        y = write_step(i, t, y, v[2 * i], v[2 * i + 1], v[2 * i + 2], stages);
        t += h;
    }
    y
}

// Ten steps along a quad: writes the 40 stages, each with its time, the speed there and the length that
// RK4 takes to be reached there, and gives the length.
pub fn walk(f: ArclenFunctor, stages: &mut [[f64; 3]; 40]) -> f64
    requires { length stages.old ≡ 40 }
    ensures { Walked f stages.new result }
{
    if is_straight(f) {
        return walk_straight(f, stages);
    }
    walk_bent(f, stages)
}
