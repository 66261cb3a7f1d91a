// Idle controls dropped, and put back. A contour is three rows: x, y, and flags whose bit 0 means on-curve. An
// off-curve point that equals one of its neighbours, going round, is idle: its curve is the line between its ends. It
// goes, and a list says which place it had and which neighbour it equals: 1 the one before it, 2 the one after it.
// Whether a place is idle hangs on the upload alone, so that one pass finds them all.
#![tactic(auto)]

ghost use Rattle.std.specs.Prelude.{◌≡◌, map, ◌+◌, ◌-◌, ◌<◌, ◌≤◌, length, take};
ghost use Rattle.refusals.specs.Accepted.{Accepted};
ghost use Rattle.contour.specs.Output.{outputs};
ghost use Rattle.rows.specs.Lent.{before, after, contour};
ghost use Rattle.clean.specs.Clean.{up_from};
ghost use Rattle.clean.specs.Pass.{Roomy};
ghost use Rattle.clean.specs.Entry.{lent, Written, spots_into, lent_outputs};
ghost use Rattle.idle.specs.Idle.{before_of, beside_of, idle_of, Sifted};
ghost use Rattle.idle.specs.PutBack.{is_back, passed_as, beside_kept, spot_at, spots_of};
ghost use Rattle.idle.specs.Entry.{Promise, PutPromise};

use clean::Cleaned;
use refusals::Refusal;

// The number before i, of n, going round.
fn preceding(i: usize, n: usize) -> usize
    requires { i < n }
    ensures { result ≡ before_of i n }
{
    if 0 < i { i - 1 } else { n - 1 }
}

// Which neighbour point i is idle on: 1 the one before it, 2 the one after it, the first that holds; 0 it is not idle.
#[tactic(auto, unfolding(crate::specs::Idle::beside_of))]
fn beside(xs: &[i16], ys: &[i16], flags: &[u8], i: usize) -> u32
    requires { i < length flags.now }
    ensures { result ≡ beside_of xs.now ys.now flags.now i }
{
    if clean::on_place(flags, i) {
        return 0;
    }
    if clean::same_place(xs, ys, i, preceding(i, flags.len())) {
        return 1;
    }
    if clean::same_place(xs, ys, i, clean::following(i, flags.len())) {
        return 2;
    }
    0
}

// The numbers of the points kept, and the drops, in the first places of two rows. Each point is written to both, at the
// next place; it counts in one of them, and in the other the next point is written over it.
fn sift(xs: &[i16], ys: &[i16], flags: &[u8], kept: &mut [u32], gone: &mut [[u32; 2]]) -> Cleaned
    requires { Roomy (length flags.now) (length kept.old) (length gone.old) }
    ensures { Sifted (after kept) (after gone) result (idle_of xs.now ys.now flags.now) }
{
    let mut at = Cleaned {
        kept: 0,
        dropped: 0,
    };
    for i in 0..flags.len() {
        let w = beside(xs, ys, flags, i);
        let k = at.kept;
        let d = at.dropped;
        kept[k] = i as u32;
        gone[d] = [i as u32, w];
        at = at.next(w);
    }
    at
}

// A contour that none of refusals 1 to 5 is given for.
fn drop_fine(
    xs: &[i16],
    ys: &[i16],
    flags: &[u8],
    ox: &mut [i16],
    oy: &mut [i16],
    of: &mut [u8],
    list: &mut [[u32; 2]],
) -> Result<Cleaned, Refusal>
    requires { Accepted xs.now ys.now flags.now }
    ensures { Written (contour xs ys flags) (idle_of xs.now ys.now flags.now) (lent ox oy of list) result }
{
    let mut kept = [0u32; 1024];
    let mut gone = [[0u32; 2]; 1024];
    let at = sift(xs, ys, flags, &mut kept, &mut gone);
    clean::write_cleaned(
        xs, ys, flags, &kept, at.kept, &gone, at.dropped, ox, oy, of, list,
    )
}

// The entry: the points kept to the first places of the output rows, the drops to those of the list.
pub fn drop_idle(
    xs: &[i16],
    ys: &[i16],
    flags: &[u8],
    ox: &mut [i16],
    oy: &mut [i16],
    of: &mut [u8],
    list: &mut [[u32; 2]],
) -> Result<Cleaned, Refusal>
    ensures { Promise (contour xs ys flags) (lent ox oy of list) result }
{
    refusals::judge(xs, ys, flags)?;
    drop_fine(xs, ys, flags, ox, oy, of, list)
}

// ---- putting back

// Whether place p is that of drop j: the list names it, or no kept point is left.
fn is_back(list: &[[u32; 2]], kept: usize, p: usize, j: usize) -> bool
    requires { j ≤ p }
    ensures { result ≡ is_back kept list.now p j }
{
    j < list.len() && (clean::wide(list[j][0]) == p || kept <= p - j)
}

// The kept point that a drop with k kept ones before it is put back on: the last of these, or the one after, going round.
fn beside_kept(which: u32, kept: usize, k: usize) -> usize
    ensures { result ≡ beside_kept which kept k }
{
    if which == 1 {
        return k.saturating_sub(1);
    }
    if k < kept { k } else { 0 }
}

// Place p, with j drops before it: the kept point that stands there, or that a drop copies, and how (`write_spots`).
fn spot_at(list: &[[u32; 2]], kept: usize, p: usize, j: usize) -> [u32; 2]
    requires { (j ≤ p) × (p < 1024) × (kept ≤ 1024) }
    ensures { result ≡ spot_at kept list.now p j }
{
    if is_back(list, kept, p, j) {
        return [beside_kept(list[j][1], kept, p - j) as u32, 2];
    }
    [(p - j) as u32, 0]
}

// The drops up to place p and at it.
fn passed(list: &[[u32; 2]], kept: usize, p: usize, j: usize) -> usize
    requires { (j ≤ p) × (p < 1024) }
    ensures { result ≡ passed_as kept list.now p j }
{
    if is_back(list, kept, p, j) { j + 1 } else { j }
}

// The first n places.
fn put_all(list: &[[u32; 2]], kept: usize, n: usize, spots: &mut [[u32; 2]])
    requires { (n ≤ length spots.old) × (n ≤ 1024) × (kept ≤ 1024) }
    ensures { take n (after spots) ≡ spots_of kept list.now n }
{
    let mut j = 0;
    for p in 0..n {
        spots[p] = spot_at(list, kept, p, j);
        j = passed(list, kept, p, j);
    }
}

// Kept points and a list that together are few enough, and output rows with room for them.
fn put_fine(
    xs: &[i16],
    ys: &[i16],
    flags: &[u8],
    list: &[[u32; 2]],
    ox: &mut [i16],
    oy: &mut [i16],
    of: &mut [u8],
)
    requires { (length flags.now + length list.now ≤ 1024) × (length flags.now + length list.now ≤ length ox.old)
        × (length flags.now + length list.now ≤ length oy.old) × (length flags.now + length list.now ≤ length of.old) }
    ensures { outputs (after ox) (after oy) (after of)
        ≡ spots_into (contour xs ys flags) (spots_of (length flags.now) list.now (length flags.now + length list.now))
        (outputs (before ox) (before oy) (before of)) }
{
    let mut spots = [[0u32; 2]; 1024];
    let n = flags.len() + list.len();
    put_all(list, flags.len(), n, &mut spots);
    clean::write_spots(xs, ys, flags, &spots, n, ox, oy, of);
}

// The entry: the upload's points, of those kept and the list.
pub fn put_back(
    xs: &[i16],
    ys: &[i16],
    flags: &[u8],
    list: &[[u32; 2]],
    ox: &mut [i16],
    oy: &mut [i16],
    of: &mut [u8],
) -> Result<usize, Refusal>
    ensures { PutPromise (contour xs ys flags) list.now (lent_outputs ox oy of) result }
{
    let room = rows::least(rows::least(ox.len(), oy.len()), of.len());
    clean::judge_back(xs.len(), ys.len(), flags.len(), list.len(), room)?;
    put_fine(xs, ys, flags, list, ox, oy, of);
    Ok(flags.len() + list.len())
}
