// OpenType's simple glyph descriptions: the layout (specs/Layout), and what is asked of a row of ends.
#![tactic(auto)]

ghost use Rattle.std.specs.Prelude.{◌≡◌, ◌<◌, ◌≤◌};
ghost use Rattle.glyf.specs.Layout.{count_of, rising};

pub fn wide(v: u16) -> usize
    ensures value { result ≡ v }
    ensures upper_bound { result < 65536 }
{
    v as usize
}

// How many points: the last end and one, none where there is no contour.
pub fn count_of(ends: &[u16]) -> usize
    ensures value { result ≡ count_of ends.now }
    ensures upper_bound { result ≤ 65536 }
{
    if ends.len() == 0 {
        return 0;
    }
    wide(ends[ends.len() - 1]) + 1
}

pub fn ends_rise(ends: &[u16]) -> bool
    ensures { result ≡ rising ends.now }
{
    for i in 1..ends.len() {
        if ends[i] <= ends[i - 1] {
            return false;
        }
    }
    true
}
