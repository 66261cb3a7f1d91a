// One of two by a test, with no branch: what is said of a value is then one equation.
ghost use Rattle.std.specs.Prelude.{◌≡◌, ◌-◌};
ghost use Rattle.gliftext.specs.Pick.{pick, both, either, more, sum};

pub fn pick<T: Copy>(c: bool, a: T, b: T) -> T
    ensures { result ≡ pick c a b }
{
    if c { a } else { b }
}

pub fn both(a: bool, b: bool) -> bool
    ensures { result ≡ both a b }
{
    pick(a, b, false)
}

pub fn either(a: bool, b: bool) -> bool
    ensures { result ≡ either a b }
{
    pick(a, true, b)
}

// None below zero.
pub fn less(a: usize, b: usize) -> usize
    ensures { result ≡ a - b }
{
    if a < b { 0 } else { a - b }
}

// One more, as far as a usize goes; no file has so many of anything.
pub fn more(a: usize) -> usize
    ensures { result ≡ more a }
{
    if a < 18446744073709551615 { a + 1 } else { a }
}

// As far as a usize goes.
pub fn plus(a: usize, b: usize) -> usize
    ensures { result ≡ sum a b }
{
    if a <= 18446744073709551615 - b {
        a + b
    } else {
        18446744073709551615
    }
}
