// Cleaning an upload: points that repeat their neighbours go, and a list says which and why, so that they can
// be put back. A contour is three rows: x, y, and flags whose bit 0 means on-curve. Inside, a point goes by its
// number in the upload, and why it goes by a number too: 0 it stays, 1 before, 2 both, 3 first.
#![tactic(auto)]

ghost use Rattle.std.specs.Prelude.{◌≡◌, map, ◌+◌, ◌-◌, ◌<◌, ◌≤◌, eqb, ltb, pos, length, take, get_or};
ghost use Rattle.refusals.specs.Accepted.{Accepted};
ghost use Rattle.contour.specs.Implied.{same};
ghost use Rattle.contour.specs.Output.{front, outputs};
ghost use Rattle.rows.specs.Lent.{before, after, contour};
ghost use Rattle.clean.specs.Clean.{same_place, on_place, is_before, is_both, up_from, clean_of, cleaned};
ghost use Rattle.clean.specs.Pass.{repeats, after_of, counted_as, numbered_as, start_of, passing, ends_first, Closed, Stands, Holds, Roomy};
ghost use Rattle.clean.specs.PutBack.{mark_for, copied_spot, kept_spot, insert_at, restored, put_back, bit_by, spots_of};
ghost use Rattle.clean.specs.Entry.{coordinate_in, bit_in, points_into, cleaning_of, lent, Written, Promise};
ghost use Rattle.clean.specs.Entry.{spot_x, spot_bit, spots_into, judged_back, lent_outputs, PutPromise};

use refusals::Refusal;

// How many points are kept and dropped.
#[derive(Clone, Copy, Debug, PartialEq, Eq)]
pub struct Cleaned {
    pub kept: usize,
    pub dropped: usize,
}

// Where a pass over the points is: the number of the last point kept, and how many are kept and dropped so far.
#[derive(Clone, Copy, Debug, PartialEq, Eq)]
pub struct Passed {
    pub last: usize,
    pub kept: usize,
    pub dropped: usize,
}

// What a row holds at a place, and something else past its end.
fn at_or<T: Copy>(row: &[T], i: usize, past: T) -> T
    ensures { result ≡ get_or row.now i past }
{
    row.get(i).copied().unwrap_or(past)
}

// Whether coordinates a and b of a row are equal.
fn same_in(row: &[i16], a: usize, b: usize) -> bool
    ensures { result ≡ same (get_or row.now a (pos 0)) (get_or row.now b (pos 0)) }
{
    at_or(row, a, 0) == at_or(row, b, 0)
}

// Whether points a and b are equal in x and y.
pub fn same_place(xs: &[i16], ys: &[i16], a: usize, b: usize) -> bool
    ensures { result ≡ same_place xs.now ys.now a b }
{
    same_in(xs, a, b) && same_in(ys, a, b)
}

pub fn on_place(flags: &[u8], i: usize) -> bool
    ensures { result ≡ on_place flags.now i }
{
    refusals::is_on(at_or(flags, i, 0))
}

// The number after i, of n, going round.
pub fn following(i: usize, n: usize) -> usize
    requires { i < n }
    ensures { result ≡ after_of i n }
{
    if i + 1 < n { i + 1 } else { 0 }
}

// Why point i goes, for before: on-curve and equal to the on-curve point before it.
fn is_before(xs: &[i16], ys: &[i16], flags: &[u8], last: usize, i: usize) -> bool
    ensures { result ≡ is_before (on_place flags.now) (same_place xs.now ys.now) 0 last i }
{
    on_place(flags, i) && on_place(flags, last) && same_place(xs, ys, i, last)
}

// For both: off-curve and equal to both neighbours.
fn is_both(xs: &[i16], ys: &[i16], flags: &[u8], last: usize, i: usize, next: usize) -> bool
    ensures { result ≡ is_both (on_place flags.now) (same_place xs.now ys.now) 0 last i next }
{
    !on_place(flags, i) && same_place(xs, ys, i, last) && same_place(xs, ys, i, next)
}

// Why point i goes after the last point kept, whatever comes at the end: 1 before, 2 both, 0 neither.
fn repeats(xs: &[i16], ys: &[i16], flags: &[u8], last: usize, i: usize) -> u32
    requires { i < length flags.now }
    ensures { result ≡ repeats (on_place flags.now) (same_place xs.now ys.now) 0 last i (after_of i (length flags.now)) }
{
    if is_before(xs, ys, flags, last, i) {
        return 1;
    }
    if is_both(xs, ys, flags, last, i, following(i, flags.len())) {
        return 2;
    }
    0
}

impl Cleaned {
    // One point more: kept where w is 0.
    pub fn next(self, w: u32) -> Cleaned
        requires { (self.kept ≤ 1024) × (self.dropped ≤ 1024) }
        ensures { result ≡ counted_as w self }
    {
        match w {
            0 => Cleaned {
                kept: self.kept + 1,
                dropped: self.dropped,
            },
            _ => Cleaned {
                kept: self.kept,
                dropped: self.dropped + 1,
            },
        }
    }
}

impl Passed {
    // Point i passed: kept where w is 0.
    fn next(self, i: usize, w: u32) -> Passed
        requires { (self.kept ≤ 1024) × (self.dropped ≤ 1024) }
        ensures { result ≡ numbered_as w i self }
    {
        match w {
            0 => Passed {
                last: i,
                kept: self.kept + 1,
                dropped: self.dropped,
            },
            _ => Passed {
                last: self.last,
                kept: self.kept,
                dropped: self.dropped + 1,
            },
        }
    }
}

// One pass. Each point is written to both rows, at the next place; it counts in one of them, and in the other the next
// point is written over it.
fn pass(xs: &[i16], ys: &[i16], flags: &[u8], kept: &mut [u32], gone: &mut [[u32; 2]]) -> Passed
    requires { Roomy (length flags.now) (length kept.old) (length gone.old) }
    ensures { Stands (length flags.now) (after kept) (after gone) result
        (passing (on_place flags.now) (same_place xs.now ys.now) 0 start_of (up_from 1 (length flags.now - 1))) }
{
    kept[0] = 0;
    let mut at = Passed {
        last: 0,
        kept: 1,
        dropped: 0,
    };
    for i in 1..flags.len() {
        let w = repeats(xs, ys, flags, at.last, i);
        let k = at.kept;
        let d = at.dropped;
        kept[k] = i as u32;
        gone[d] = [i as u32, w];
        at = at.next(i, w);
    }
    at
}

// Whether the last point kept is on-curve and equal to the first, and is not the first itself.
fn ends_first(xs: &[i16], ys: &[i16], flags: &[u8], at: Passed) -> bool
    ensures { result ≡ ends_first (on_place flags.now) (same_place xs.now ys.now) at }
{
    1 < at.kept && on_place(flags, at.last) && same_place(xs, ys, at.last, 0)
}

// After the pass: the last point kept may go for first.
fn close(xs: &[i16], ys: &[i16], flags: &[u8], gone: &mut [[u32; 2]], at: Passed) -> Passed
    requires { (1 ≤ at.kept) × (at.dropped < length gone.old) × (at.last < 1024) }
    ensures { Closed (ends_first (on_place flags.now) (same_place xs.now ys.now) at) at (before gone) (after gone) result }
{
    if ends_first(xs, ys, flags, at) {
        let d = at.dropped;
        gone[d] = [at.last as u32, 3];
        return Passed {
            last: at.last,
            kept: at.kept - 1,
            dropped: d + 1,
        };
    }
    at
}

// The numbers of the points kept, and the drops in their order, in the first places of two rows.
fn sweep(xs: &[i16], ys: &[i16], flags: &[u8], kept: &mut [u32], gone: &mut [[u32; 2]]) -> Passed
    requires { Accepted xs.now ys.now flags.now × Roomy (length flags.now) (length kept.old) (length gone.old) }
    ensures { Holds (after kept) (after gone) result (clean_of xs.now ys.now flags.now (length flags.now - 1)) }
{
    let at = pass(xs, ys, flags, kept, gone);
    close(xs, ys, flags, gone, at)
}

// ---- output

// The coordinates with the first n numbers, to the first n places of a row.
fn copy_coordinates(row: &[i16], numbers: &[u32], n: usize, out: &mut [i16])
    requires { (n ≤ length numbers.now) × (n ≤ length out.old) }
    ensures { after out ≡ front (map (coordinate_in row.now) (take n numbers.now)) (before out) }
{
    for i in 0..n {
        out[i] = at_or(row, numbers[i] as usize, 0);
    }
}

// Bit 0 of the flags with the first n numbers.
fn copy_flags(row: &[u8], numbers: &[u32], n: usize, out: &mut [u8])
    requires { (n ≤ length numbers.now) × (n ≤ length out.old) }
    ensures { after out ≡ front (map (bit_in row.now) (take n numbers.now)) (before out) }
{
    for i in 0..n {
        out[i] = at_or(row, numbers[i] as usize, 0) % 2;
    }
}

// The first n drops, to the first n places of the list.
fn copy_list(gone: &[[u32; 2]], n: usize, list: &mut [[u32; 2]])
    requires { (n ≤ length gone.now) × (n ≤ length list.old) }
    ensures { after list ≡ front (take n gone.now) (before list) }
{
    list[..n].copy_from_slice(&gone[..n]);
}

// The points with the first n numbers, to the first n places of the output rows.
fn write_points(
    xs: &[i16],
    ys: &[i16],
    flags: &[u8],
    numbers: &[u32],
    n: usize,
    ox: &mut [i16],
    oy: &mut [i16],
    of: &mut [u8],
)
    requires { (n ≤ length numbers.now) × (n ≤ length ox.old) × (n ≤ length oy.old) × (n ≤ length of.old) }
    ensures { outputs (after ox) (after oy) (after of)
        ≡ points_into (contour xs ys flags) (take n numbers.now) (outputs (before ox) (before oy) (before of)) }
{
    copy_coordinates(xs, numbers, n, ox);
    copy_coordinates(ys, numbers, n, oy);
    copy_flags(flags, numbers, n, of);
}

// The first k numbers and the first d drops, written out if the rows have room.
pub fn write_cleaned(
    xs: &[i16],
    ys: &[i16],
    flags: &[u8],
    kept: &[u32],
    k: usize,
    gone: &[[u32; 2]],
    d: usize,
    ox: &mut [i16],
    oy: &mut [i16],
    of: &mut [u8],
    list: &mut [[u32; 2]],
) -> Result<Cleaned, Refusal>
    requires { (k ≤ length kept.now) × (d ≤ length gone.now) }
    ensures { Written (contour xs ys flags) (cleaned (take k kept.now) (take d gone.now)) (lent ox oy of list) result }
{
    if list.len() < d {
        return Err(Refusal::ListTooShort);
    }
    if rows::least(rows::least(ox.len(), oy.len()), of.len()) < k {
        return Err(Refusal::OutputTooShort);
    }
    write_points(xs, ys, flags, kept, k, ox, oy, of);
    copy_list(gone, d, list);
    Ok(Cleaned {
        kept: k,
        dropped: d,
    })
}

// A contour that none of refusals 1 to 5 is given for.
fn clean_fine(
    xs: &[i16],
    ys: &[i16],
    flags: &[u8],
    ox: &mut [i16],
    oy: &mut [i16],
    of: &mut [u8],
    list: &mut [[u32; 2]],
) -> Result<Cleaned, Refusal>
    requires { Accepted xs.now ys.now flags.now }
    ensures { Written (contour xs ys flags) (cleaning_of (contour xs ys flags)) (lent ox oy of list) result }
{
    let mut kept = [0u32; 1024];
    let mut gone = [[0u32; 2]; 1024];
    let at = sweep(xs, ys, flags, &mut kept, &mut gone);
    write_cleaned(
        xs, ys, flags, &kept, at.kept, &gone, at.dropped, ox, oy, of, list,
    )
}

// The entry: the points kept to the first places of the output rows, the drops to those of the list.
pub fn clean_contour(
    xs: &[i16],
    ys: &[i16],
    flags: &[u8],
    ox: &mut [i16],
    oy: &mut [i16],
    of: &mut [u8],
    list: &mut [[u32; 2]],
) -> Result<Cleaned, Refusal>
    ensures { Promise (contour xs ys flags) (lent ox oy of list) result }
{
    refusals::judge(xs, ys, flags)?;
    clean_fine(xs, ys, flags, ox, oy, of, list)
}

// ---- putting back

// How a point put back for a reason differs from the one it copies: 2 off-curve, 1 on-curve.
fn mark(why: u32) -> u32
    ensures { result ≡ mark_for (eqb why 2) }
{
    if why == 2 { 2 } else { 1 }
}

// Place i of the first n, or the place past the kept points.
fn spot_at(spots: &[[u32; 2]], n: usize, i: usize, kept: usize) -> [u32; 2]
    requires { (n ≤ length spots.now) × (kept ≤ 1024) }
    ensures { result ≡ get_or (take n spots.now) i (kept_spot kept) }
{
    spots[..n].get(i).copied().unwrap_or([kept as u32, 0])
}

// Puts v in at place q of the first n: it is put at their end, and changes places until it stands there.
fn insert(spots: &mut [[u32; 2]], n: usize, q: usize, v: [u32; 2])
    requires { (n < length spots.old) × (q ≤ n) }
    ensures { take (n + 1) (after spots) ≡ insert_at q v (take n (before spots)) }
{
    spots[n] = v;
    for i in (q..n).rev() {
        spots[i + 1] = spots[i];
        spots[i] = v;
    }
}

// A drop put back at its place of the first n: for first at their end.
fn put_in(spots: &mut [[u32; 2]], n: usize, place: usize, why: u32, kept: usize)
    requires { (n < length spots.old) × (kept ≤ 1024) }
    ensures { take (n + 1) (after spots) ≡ restored copied_spot (kept_spot kept) place why (take n (before spots)) }
{
    if why == 3 {
        let first = spot_at(spots, n, 0, kept);
        insert(spots, n, n, [first[0], mark(why)]);
        return;
    }
    let from = spot_at(spots, n, place.saturating_sub(1), kept);
    insert(spots, n, rows::least(place, n), [from[0], mark(why)]);
}

pub fn wide(x: u32) -> usize
    ensures { result ≡ x }
{
    x as usize
}

// The kept points alone.
fn put_kept(spots: &mut [[u32; 2]], kept: usize)
    requires { (kept ≤ length spots.old) × (kept ≤ 1024) }
    ensures { take kept (after spots) ≡ map kept_spot (up_from 0 kept) }
{
    for i in 0..kept {
        spots[i] = [i as u32, 0];
    }
}

// Every drop of the list, the last first.
fn put_all(spots: &mut [[u32; 2]], kept: usize, list: &[[u32; 2]])
    requires { (kept + length list.now ≤ length spots.old) × (kept ≤ 1024) }
    ensures { take (kept + length list.now) (after spots)
        ≡ put_back copied_spot (kept_spot kept) 0 list.now (take kept (before spots)) }
{
    let mut n = kept;
    for j in (0..list.len()).rev() {
        put_in(
            spots,
            n,
            wide(list[j][0]).saturating_sub(j),
            list[j][1],
            kept,
        );
        n += 1;
    }
}

fn copy_spots(row: &[i16], spots: &[[u32; 2]], n: usize, out: &mut [i16])
    requires { (n ≤ length spots.now) × (n ≤ length out.old) }
    ensures { after out ≡ front (map (spot_x row.now) (take n spots.now)) (before out) }
{
    for i in 0..n {
        out[i] = at_or(row, wide(spots[i][0]), 0);
    }
}

// A point's own bit, or by its mark.
fn bit_by(mark: u32, own: u8) -> u8
    ensures { result ≡ bit_by mark own }
{
    match mark {
        0 => own,
        1 => 1,
        _ => 0,
    }
}

fn copy_bits(row: &[u8], spots: &[[u32; 2]], n: usize, out: &mut [u8])
    requires { (n ≤ length spots.now) × (n ≤ length out.old) }
    ensures { after out ≡ front (map (spot_bit row.now) (take n spots.now)) (before out) }
{
    for i in 0..n {
        out[i] = bit_by(spots[i][1], at_or(row, wide(spots[i][0]), 0) % 2);
    }
}

// The first n points put back, to the first n places of the output rows.
pub fn write_spots(
    xs: &[i16],
    ys: &[i16],
    flags: &[u8],
    spots: &[[u32; 2]],
    n: usize,
    ox: &mut [i16],
    oy: &mut [i16],
    of: &mut [u8],
)
    requires { (n ≤ length spots.now) × (n ≤ length ox.old) × (n ≤ length oy.old) × (n ≤ length of.old) }
    ensures { outputs (after ox) (after oy) (after of)
        ≡ spots_into (contour xs ys flags) (take n spots.now) (outputs (before ox) (before oy) (before of)) }
{
    copy_spots(xs, spots, n, ox);
    copy_spots(ys, spots, n, oy);
    copy_bits(flags, spots, n, of);
}

// Kept points and a list that together are few enough, and output rows with room for them.
fn put_fine(
    xs: &[i16],
    ys: &[i16],
    flags: &[u8],
    list: &[[u32; 2]],
    ox: &mut [i16],
    oy: &mut [i16],
    of: &mut [u8],
)
    requires { (length flags.now + length list.now ≤ 1024) × (length flags.now + length list.now ≤ length ox.old)
        × (length flags.now + length list.now ≤ length oy.old) × (length flags.now + length list.now ≤ length of.old) }
    ensures { outputs (after ox) (after oy) (after of)
        ≡ spots_into (contour xs ys flags) (spots_of (length flags.now) list.now) (outputs (before ox) (before oy) (before of)) }
{
    let mut spots = [[0u32; 2]; 1024];
    put_kept(&mut spots, flags.len());
    put_all(&mut spots, flags.len(), list);
    write_spots(xs, ys, flags, &spots, flags.len() + list.len(), ox, oy, of);
}

// Whether n and m points are more than 1,024 together.
fn over(n: usize, m: usize) -> bool
    ensures { result ≡ ltb 1024 (n + m) }
{
    1024 < n || 1024 - n < m
}

// Refusals 1, 2, 3 and 9, in their order: of kept rows of these lengths, so many drops, and the shortest output row.
pub fn judge_back(x: usize, y: usize, flag: usize, drops: usize, room: usize) -> Result<(), Refusal>
    ensures { result ≡ judged_back x y flag drops room }
{
    if refusals::rows_differ(x, y, flag) {
        return Err(Refusal::UnevenRows);
    }
    if refusals::no_point(flag) {
        return Err(Refusal::NoPoint);
    }
    if over(flag, drops) {
        return Err(Refusal::TooManyPoints);
    }
    if room < flag + drops {
        return Err(Refusal::OutputTooShort);
    }
    Ok(())
}

// The entry: the upload's points, of those kept and the list.
pub fn put_back(
    xs: &[i16],
    ys: &[i16],
    flags: &[u8],
    list: &[[u32; 2]],
    ox: &mut [i16],
    oy: &mut [i16],
    of: &mut [u8],
) -> Result<usize, Refusal>
    ensures { PutPromise (contour xs ys flags) list.now (lent_outputs ox oy of) result }
{
    let room = rows::least(rows::least(ox.len(), oy.len()), of.len());
    judge_back(xs.len(), ys.len(), flags.len(), list.len(), room)?;
    put_fine(xs, ys, flags, list, ox, oy, of);
    Ok(flags.len() + list.len())
}
