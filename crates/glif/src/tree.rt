// The open elements: how many, and how far they are glyph, outline, contour, point.
ghost use Rattle.std.specs.Prelude.{◌≡◌};
ghost use Rattle.gliftext.specs.Pick.{pick};
ghost use Rattle.glif.specs.Tree.{path_word, on_path, entered, left, text_fits, treed, no_tree, opens_tag};

use gliftext::{Action, both, either, less, more, pick};

// `depth` elements are open, the first `level` of them those of the path; the root was met, and an outline.
#[derive(Clone, Copy, Debug, PartialEq, Eq)]
pub struct Tree {
    pub depth: usize,
    pub level: usize,
    pub root: bool,
    pub outline: bool,
    pub wrong: bool,
}

pub fn no_tree() -> Tree
    ensures { result ≡ no_tree }
{
    Tree {
        depth: 0,
        level: 0,
        root: false,
        outline: false,
        wrong: false,
    }
}

// glyph, outline, contour, point.
fn path_word(level: usize) -> usize
    ensures { result ≡ path_word level }
{
    let inner = pick(
        level == 2,
        27988542884902258,
        pick(level == 3, 482905517684, 0),
    );
    pick(
        level == 0,
        444201529448,
        pick(level == 1, 31372865310387813, inner),
    )
}

// Whether an element of that name is the next on the path.
pub fn on_path(t: Tree, word: usize) -> bool
    ensures { result ≡ on_path t word }
{
    both(t.level == t.depth, word == path_word(t.level))
}

// The root is one glyph; there is one outline; in a contour there are points, and in a point no element.
fn enter(t: Tree, word: usize) -> Tree
    ensures { result ≡ entered t word }
{
    let on = on_path(t, word);
    let root = both(t.depth == 0, either(t.root, !on));
    let inner = both(both(t.level == t.depth, 2 < t.depth), !on);
    let second = both(both(on, t.depth == 1), t.outline);
    let wrong = either(either(root, inner), either(second, 255 < t.depth));
    Tree {
        depth: more(t.depth),
        level: pick(on, more(t.level), t.level),
        root: true,
        outline: either(t.outline, both(on, t.depth == 1)),
        wrong: either(t.wrong, wrong),
    }
}

fn leave(t: Tree) -> Tree
    ensures { result ≡ left t }
{
    let depth = less(t.depth, 1);
    Tree {
        depth,
        level: pick(t.level < depth, t.level, depth),
        root: t.root,
        outline: t.outline,
        wrong: either(t.wrong, t.depth == 0),
    }
}

// Whether text that is not blank may stand here: in the root, and in no contour and no point.
fn text_fits(t: Tree) -> bool
    ensures { result ≡ text_fits t }
{
    both(0 < t.depth, !both(t.level == t.depth, 2 < t.depth))
}

pub fn opens_tag(action: Action) -> bool
    ensures { result ≡ opens_tag action }
{
    either(action == Action::Opens, action == Action::Empty)
}

// An element opens, is empty, or closes; `wrong` is what its names showed.
pub fn tree_of(t: Tree, action: Action, word: usize, wrong: bool) -> Tree
    ensures { result ≡ treed t action word wrong }
{
    let texts = either(
        action == Action::Content,
        either(action == Action::Section, action == Action::TextReference),
    );
    let inside = enter(t, word);
    let after = pick(
        action == Action::Empty,
        leave(inside),
        pick(action == Action::Closes, leave(t), t),
    );
    let next = pick(action == Action::Opens, inside, after);
    Tree {
        depth: next.depth,
        level: next.level,
        root: next.root,
        outline: next.outline,
        wrong: either(next.wrong, either(wrong, both(texts, !text_fits(t)))),
    }
}
