// Names by their places in the file: the open elements' in the front of a row, and those of a tag's attributes
// after them.
ghost use Rattle.std.specs.Prelude.{◌≡◌};
ghost use Rattle.gliftext.specs.Table.{is_name};
ghost use Rattle.glif.specs.Names.{same_name, seen_to, repeated, unclosed, wrong_names, kept_names};

use gliftext::{Action, at, both, class_of, either, less, pick, plus, store};

fn is_name(b: u8) -> bool
    ensures { result ≡ is_name b }
{
    let k = class_of(b);
    either(k == 11, both(15 < k, k < 22))
}

// Whether the names at two places are one.
fn same_name(bytes: &[u8], p: usize, q: usize) -> bool
    ensures { result ≡ same_name bytes.now p q }
{
    let mut i = p;
    let mut j = q;
    while i < bytes.len() {
        if bytes.len() <= j {
            return false;
        }
        let a = bytes[i];
        let b = bytes[j];
        let goes = is_name(a);
        if both(goes, a == b) {
            i += 1;
            j += 1;
        } else {
            return both(!goes, !is_name(b));
        }
    }
    false
}

// Whether the name at a place is one of n names of the row.
fn seen(bytes: &[u8], names: &[usize], from: usize, n: usize, p: usize) -> bool
    ensures { result ≡ seen_to bytes.now names.now from n p }
{
    let mut found = false;
    for k in 0..n {
        found = either(found, same_name(bytes, at(names, plus(from, k), 0), p));
    }
    found
}

// An attribute's value begins: its name is unlike those before it, and there is room for it.
fn repeats(bytes: &[u8], names: &[usize], action: Action, depth: usize, n: usize, p: usize) -> bool
    ensures { result ≡ repeated bytes.now names.now action depth n p }
{
    let k = pick(action == Action::Quote, n, 0);
    let full = both(action == Action::Quote, names.len() <= plus(depth, n));
    either(full, seen(bytes, names, depth, k, p))
}

// An element closes: its name is that of the last one open.
fn unclosed(bytes: &[u8], names: &[usize], action: Action, depth: usize, p: usize) -> bool
    ensures { result ≡ unclosed bytes.now names.now action depth p }
{
    if action == Action::Closes {
        return !same_name(bytes, at(names, less(depth, 1), 0), p);
    }
    false
}

pub fn wrong_names(
    bytes: &[u8],
    names: &[usize],
    action: Action,
    depth: usize,
    n: usize,
    p: usize,
) -> bool
    ensures { result ≡ wrong_names bytes.now names.now action depth n p }
{
    let end = unclosed(bytes, names, action, depth, p);
    either(end, repeats(bytes, names, action, depth, n, p))
}

// The name of an element that opens, and of an attribute, with n before it.
pub fn keep_name(
    names: &mut [usize],
    action: Action,
    depth: usize,
    n: usize,
    tag: usize,
    name: usize,
)
    ensures { names.new ≡ kept_names names.old action depth n tag name }
{
    let attribute = pick(
        action == Action::Quote,
        plus(depth, n),
        18446744073709551615,
    );
    let place = pick(action == Action::Opens, depth, attribute);
    store(names, place, pick(action == Action::Opens, tag, name));
}
