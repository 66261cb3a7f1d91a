// A walk over the points of a description: three places, one in the flags, one in the x differences and
// one in the y differences. No row is lent for flags, so the walk says how often the last flag is due.
ghost use Rattle.std.specs.Prelude.{◌≡◌, true, ◌≤◌, ◌+ℤ◌, pos, neg_ℤ, length, drop};
ghost use Rattle.glyf.specs.Layout.{flags_of};
ghost use Rattle.glyfread.specs.Walks.{start_at, Advances, ahead, fits, Roomy, Walked, xs_in, ys_in, on_in};
ghost use Rattle.glyfread.specs.Steps.{next_flag, width_of, short_at, long_at, delta_at, moved_to, scan_of, FlagWithin, ScanWithin};
ghost use Rattle.glyf.specs.Layout.{laid};

use crate::row::{bit_of, signed_of, store, word_at};

// The next flag: the place after it, how often it is due after this, and the flag.
#[derive(Clone, Copy, Debug, PartialEq, Eq)]
pub struct Flag {
    pub at: usize,
    pub due: u8,
    pub flag: u8,
}

fn next_flag(bytes: &[u8], at: usize, due: u8, flag: u8) -> Option<Flag>
    ensures flag_within { at ≤ length bytes.now → FlagWithin (length bytes.now) result }
    ensures value { result ≡ next_flag bytes.now at due flag }
{
    if 0 < due {
        return Some(Flag {
            at,
            due: due - 1,
            flag,
        });
    }
    if bytes.len() <= at {
        return None;
    }
    let f = bytes[at];
    let next = at + 1;
    if bit_of(f, 8) {
        if bytes.len() <= next {
            return None;
        }
        return Some(Flag {
            at: next + 1,
            due: bytes[next],
            flag: f,
        });
    }
    Some(Flag {
        at: next,
        due: 0,
        flag: f,
    })
}

// How many bytes a difference takes.
fn width(short: bool, same: bool) -> usize
    ensures value { result ≡ width_of short same }
    ensures upper_bound { result ≤ 2 }
{
    if short {
        return 1;
    }
    if same {
        return 0;
    }
    2
}

// One difference, and the place after it.
#[derive(Clone, Copy, Debug, PartialEq, Eq)]
pub struct Delta {
    pub value: i32,
    pub at: usize,
}

fn up(b: u8) -> i32
    ensures { result ≡ pos b }
{
    b as i32
}

fn down(b: u8) -> i32
    ensures { result ≡ neg_ℤ (pos b) }
{
    -(b as i32)
}

fn short_at(bytes: &[u8], at: usize, same: bool) -> Option<Delta>
    ensures { result ≡ short_at bytes.now at same }
{
    if bytes.len() <= at {
        return None;
    }
    if same {
        return Some(Delta {
            value: up(bytes[at]),
            at: at + 1,
        });
    }
    Some(Delta {
        value: down(bytes[at]),
        at: at + 1,
    })
}

fn long_at(bytes: &[u8], at: usize, same: bool) -> Option<Delta>
    ensures { result ≡ long_at bytes.now at same }
{
    if same {
        return Some(Delta { value: 0, at });
    }
    if bytes.len() <= at {
        return None;
    }
    if bytes.len() <= at + 1 {
        return None;
    }
    Some(Delta {
        value: signed_of(word_at(bytes, at)),
        at: at + 2,
    })
}

fn delta_at(bytes: &[u8], at: usize, short: bool, same: bool) -> Option<Delta>
    ensures { result ≡ delta_at bytes.now at short same }
{
    if short {
        return short_at(bytes, at, same);
    }
    long_at(bytes, at, same)
}

// A coordinate moved by a difference, where it stays in 16 bits.
fn move_by(z: i16, d: i32) -> Option<i16>
    ensures { result ≡ moved_to (z +ℤ d) }
{
    i16::try_from((z as i64) + (d as i64)).ok()
}

// The flags of so many points: where they end, and how many bytes x and y differences take after them.
#[derive(Clone, Copy, Debug, PartialEq, Eq)]
pub struct Scan {
    pub xs: usize,
    pub wide_x: usize,
    pub wide_y: usize,
}

pub fn scan_flags(bytes: &[u8], from: usize, count: usize) -> Option<Scan>
    requires { (from ≤ length bytes.now) × (count ≤ 65536) }
    ensures scan_within { ScanWithin (length bytes.now) result }
    ensures value { result ≡ scan_of (length bytes.now) (flags_of count 0 0 (drop from bytes.now)) }
{
    let mut at = from;
    let mut due = 0;
    let mut flag = 0;
    let mut wide_x = 0;
    let mut wide_y = 0;
    for _i in 0..count {
        let next = next_flag(bytes, at, due, flag)?;
        wide_x += width(bit_of(next.flag, 2), bit_of(next.flag, 16));
        wide_y += width(bit_of(next.flag, 4), bit_of(next.flag, 32));
        at = next.at;
        due = next.due;
        flag = next.flag;
    }
    Some(Scan {
        xs: at,
        wide_x,
        wide_y,
    })
}

// Where the walk stands after a point: the places in flags, x and y differences, how often the flag is due,
// and the point.
#[derive(Clone, Copy, Debug, PartialEq, Eq)]
pub struct Walk {
    pub flags: usize,
    pub xs: usize,
    pub ys: usize,
    pub due: u8,
    pub flag: u8,
    pub x: i16,
    pub y: i16,
}

pub fn start(flags: usize, xs: usize, ys: usize) -> Walk
    ensures { result ≡ start_at flags xs ys }
{
    Walk {
        flags,
        xs,
        ys,
        due: 0,
        flag: 0,
        x: 0,
        y: 0,
    }
}

// One point further. A coordinate outside 16 bits and a walk that is cut short are not told apart.
fn advance(bytes: &[u8], w: Walk) -> Option<Walk>
    ensures { Advances bytes.now w result }
{
    let next = next_flag(bytes, w.flags, w.due, w.flag)?;
    let dx = delta_at(bytes, w.xs, bit_of(next.flag, 2), bit_of(next.flag, 16))?;
    let dy = delta_at(bytes, w.ys, bit_of(next.flag, 4), bit_of(next.flag, 32))?;
    let x = move_by(w.x, dx.value)?;
    let y = move_by(w.y, dy.value)?;
    Some(Walk {
        flags: next.at,
        xs: dx.at,
        ys: dy.at,
        due: next.due,
        flag: next.flag,
        x,
        y,
    })
}

// The points into their rows, as far as these go, and whether every coordinate is in 16 bits.
fn walk_points(
    bytes: &[u8],
    from: Walk,
    count: usize,
    xs: &mut [i16],
    ys: &mut [i16],
    flags: &mut [u8],
) -> bool
    ensures value { result ≡ fits (ahead count bytes.now from) }
    ensures walked { Walked (ahead count bytes.now from) count
        xs.old ys.old flags.old xs.new ys.new flags.new }
{
    let mut w = from;
    for i in 0..count {
        let Some(v) = advance(bytes, w) else {
            return false;
        };
        store(xs, i, v.x);
        store(ys, i, v.y);
        store(flags, i, v.flag % 2);
        w = v;
    }
    true
}

// Whether every coordinate is in 16 bits: a walk into rows of no places, so that `advance` has one caller.
pub fn points_fit(bytes: &[u8], from: Walk, count: usize) -> bool
    ensures { result ≡ fits (ahead count bytes.now from) }
{
    let mut xs: [i16; 1] = [0; 1];
    let mut ys: [i16; 1] = [0; 1];
    let mut flags: [u8; 1] = [0; 1];
    walk_points(
        bytes,
        from,
        count,
        &mut xs[..0],
        &mut ys[..0],
        &mut flags[..0],
    )
}

// The points into their rows.
pub fn fill_points(
    bytes: &[u8],
    from: Walk,
    count: usize,
    xs: &mut [i16],
    ys: &mut [i16],
    flags: &mut [u8],
)
    requires roomy { Roomy count (length xs.old) (length ys.old) (length flags.old) }
    requires from_value { fits (ahead count bytes.now from) ≡ true }
    ensures xs_after { xs.new ≡ laid (xs_in (ahead count bytes.now from)) xs.old }
    ensures ys_after { ys.new ≡ laid (ys_in (ahead count bytes.now from)) ys.old }
    ensures flags_after { flags.new ≡ laid (on_in (ahead count bytes.now from)) flags.old }
{
    walk_points(bytes, from, count, xs, ys, flags);
}
