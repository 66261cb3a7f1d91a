// A file read byte by byte: its points into the scratch row, and what is refused of it.
ghost use Rattle.std.specs.Prelude.{◌≡◌, ◌<◌, length};
ghost use Rattle.glif.specs.Scan.{fresh_scan, pass, turned, scanned, refusal_of, totals_of, judged, judged_of};

use crate::names::{keep_name, wrong_names};
use crate::outline::{Sum, keep_point, no_sum, point_met, sum_of};
use crate::tree::{Tree, no_tree, tree_of};
use gliftext::{
    Text, action_of, both, class_of, either, fresh_text, is_utf8, move_of, pick, text_of,
};
use refusals::Refusal;

#[derive(Clone, Copy, Debug, PartialEq, Eq)]
pub struct Scan {
    pub text: Text,
    pub tree: Tree,
    pub sum: Sum,
}

pub fn fresh_scan() -> Scan
    ensures { result ≡ fresh_scan }
{
    Scan {
        text: fresh_text(),
        tree: no_tree(),
        sum: no_sum(),
    }
}

// One byte.
pub fn turn(bytes: &[u8], i: usize, s: Scan, names: &mut [usize], points: &mut [[usize; 3]]) -> Scan
    requires { i < length bytes.now }
    ensures { pass result names.new points.new
        ≡ turned bytes.now i (pass s names.old points.old) }
{
    let old = s.text;
    let tree = s.tree;
    let sum = s.sum;
    let b = bytes[i];
    let m = move_of(old.state, class_of(b));
    let action = action_of(m / 64);
    let text = text_of(old, m % 64, action, b, i);
    let tag = text.tag;
    let name = text.name;
    let wrong = wrong_names(bytes, names, action, tree.depth, old.attributes, name.at);
    keep_name(names, action, tree.depth, old.attributes, tag.at, name.at);
    keep_point(points, point_met(tree, action, tag.word), sum, text.point);
    Scan {
        text,
        tree: tree_of(tree, action, tag.word, wrong),
        sum: sum_of(sum, tree, action, tag.word, text.point),
    }
}

// Every byte.
pub fn scan_bytes(bytes: &[u8], names: &mut [usize], points: &mut [[usize; 3]]) -> Scan
    ensures { pass result names.new points.new
        ≡ scanned bytes.now (length bytes.now) names.old points.old }
{
    let mut s = fresh_scan();
    for i in 0..bytes.len() {
        s = turn(bytes, i, s, names, points);
    }
    s
}

// 19, 20, 14, 21, or none: each over the whole file before the next.
fn refusal_of(s: Scan, utf8: bool) -> Option<Refusal>
    ensures { result ≡ refusal_of s utf8 }
{
    let text = s.text;
    let tree = s.tree;
    let sum = s.sum;
    let whole = both(text.state == 12, both(tree.depth == 0, tree.root));
    let wrong = either(text.wrong, either(tree.wrong, sum.wrong));
    let bare = pick(sum.bare, Some(Refusal::NoOnCurve), None);
    let far = pick(sum.far, Some(Refusal::TooLarge), bare);
    let later = pick(sum.cubic, Some(Refusal::CubicOrOpen), far);
    pick(
        either(wrong, either(!whole, !utf8)),
        Some(Refusal::Malformed),
        later,
    )
}

// What the file is refused for; how many contours, how many points as they stand, and as they enter.
#[derive(Clone, Copy, Debug, PartialEq, Eq)]
pub struct Totals {
    pub refusal: Option<Refusal>,
    pub contours: usize,
    pub points: usize,
    pub full: usize,
}

fn totals_in(s: Scan, utf8: bool) -> Totals
    ensures { result ≡ totals_of s utf8 }
{
    let sum = s.sum;
    Totals {
        refusal: refusal_of(s, utf8),
        contours: sum.contours,
        points: sum.points,
        full: sum.full,
    }
}

// A whole file, its points into the scratch row.
pub fn judge(bytes: &[u8], points: &mut [[usize; 3]]) -> Totals
    ensures { judged result points.new ≡ judged_of bytes.now points.old }
{
    let mut names = [0; 256];
    let s = scan_bytes(bytes, &mut names, points);
    totals_in(s, is_utf8(bytes))
}
