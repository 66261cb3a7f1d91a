// What is remembered of the text while it is read: names, a reference, the value of an attribute, what a point
// says, the declaration. Each is changed by the action of a byte.
ghost use Rattle.std.specs.Prelude.{◌≡◌};
ghost use Rattle.gliftext.specs.Pick.{pick};
ghost use Rattle.gliftext.specs.Text.{named, referred, valued, kind_of, no_point, pointed, said, attributed, wrong_text, fresh_text, texted};

use crate::action::Action;
use crate::choice::{both, either, more, pick};
use crate::word::{Number, feed_number, grow, is_char, named_char, narrow, no_number, push};

// A name: its place in the file, and its word.
#[derive(Clone, Copy, Debug, PartialEq, Eq)]
pub struct Name {
    pub at: usize,
    pub word: usize,
}

fn name_of(n: Name, begins: bool, goes: bool, b: u8, i: usize) -> Name
    ensures { result ≡ named n begins goes b i }
{
    Name {
        at: pick(begins, i, n.at),
        word: pick(begins, push(0, b), pick(goes, push(n.word, b), n.word)),
    }
}

// The word or the number of a reference.
fn refer(r: usize, action: Action, b: u8) -> usize
    ensures { result ≡ referred r action b }
{
    let number = pick(
        action == Action::Decimal,
        grow(10, r, b),
        pick(action == Action::Hexadecimal, grow(16, r, b), r),
    );
    let letter = pick(action == Action::LetterOf, push(r, b), number);
    pick(
        either(action == Action::Reference, action == Action::TextReference),
        0,
        letter,
    )
}

// The value of an attribute, as a number and as a word.
#[derive(Clone, Copy, Debug, PartialEq, Eq)]
pub struct Value {
    pub number: Number,
    pub word: usize,
}

fn value_of(v: Value, action: Action, b: u8, r: usize) -> Value
    ensures { result ≡ valued v action b r }
{
    let begins = either(action == Action::Quote, action == Action::Said);
    let goes = either(
        action == Action::Char,
        either(action == Action::Named, action == Action::Numbered),
    );
    let c = narrow(pick(
        action == Action::Char,
        b as usize,
        pick(action == Action::Named, named_char(r), r),
    ));
    let fed = pick(goes, feed_number(v.number, c), v.number);
    Value {
        number: pick(begins, no_number(), fed),
        word: pick(begins, 0, pick(goes, push(v.word, c), v.word)),
    }
}

// The type of a point; a word that is none of these is refused.
#[derive(Clone, Copy, Debug, PartialEq, Eq)]
pub enum Kind {
    Move,
    Line,
    Curve,
    Qcurve,
    Offcurve,
    Unknown,
}

// move, line, curve, qcurve, offcurve.
fn kind_of(word: usize) -> Kind
    ensures { result ≡ kind_of word }
{
    match word {
        1836021349 => Kind::Move,
        1818848869 => Kind::Line,
        427172197989 => Kind::Curve,
        124671986136677 => Kind::Qcurve,
        8027215963192718949 => Kind::Offcurve,
        _ => Kind::Unknown,
    }
}

// Most bytes end no type, and need no look at the word.
fn kind_after(kind: Kind, ends: bool, word: usize) -> Kind
    ensures { result ≡ pick ends (kind_of word) kind }
{
    if ends { kind_of(word) } else { kind }
}

// What a tag says of a point: x, y, and its type.
#[derive(Clone, Copy, Debug, PartialEq, Eq)]
pub struct Point {
    pub x: Number,
    pub y: Number,
    pub kind: Kind,
}

// A tag without attributes: no x, no y, and offcurve.
pub fn no_point() -> Point
    ensures { result ≡ no_point }
{
    Point {
        x: no_number(),
        y: no_number(),
        kind: Kind::Offcurve,
    }
}

fn point_of(p: Point, action: Action, name: usize, v: Value) -> Point
    ensures { result ≡ pointed p action name v }
{
    let begins = action == Action::Tag;
    let ends = action == Action::Attribute;
    let x = pick(both(ends, name == 120), v.number, p.x);
    let y = pick(both(ends, name == 121), v.number, p.y);
    let kind = kind_after(p.kind, both(ends, name == 1954115685), v.word);
    Point {
        x: pick(begins, no_number(), x),
        y: pick(begins, no_number(), y),
        kind: pick(begins, Kind::Offcurve, kind),
    }
}

// The declaration: nothing of it, its version, its encoding too; or it is wrong.
#[derive(Clone, Copy, Debug, PartialEq, Eq)]
pub enum Declaration {
    Bare,
    Version,
    Encoding,
    Wrong,
}

fn say(d: Declaration, action: Action, name: usize, word: usize) -> Declaration
    ensures { result ≡ said d action name word }
{
    let bare = d == Declaration::Bare;
    let version = both(bare, both(name == 33325589488824174, word == 3223088));
    let utf = either(word == 366486105400, word == 504464026936);
    let encoding = both(
        d == Declaration::Version,
        both(name == 7308888575346044519, utf),
    );
    let told = pick(
        version,
        Declaration::Version,
        pick(encoding, Declaration::Encoding, Declaration::Wrong),
    );
    let ended = pick(bare, Declaration::Wrong, d);
    let begun = pick(name == 7892332, d, Declaration::Wrong);
    pick(
        action == Action::Declared,
        told,
        pick(
            action == Action::Declares,
            ended,
            pick(action == Action::Target, begun, d),
        ),
    )
}

// The state of the text, and what is remembered; `attributes` counts those of the tag.
#[derive(Clone, Copy, Debug, PartialEq, Eq)]
pub struct Text {
    pub state: usize,
    pub tag: Name,
    pub name: Name,
    pub refer: usize,
    pub value: Value,
    pub point: Point,
    pub said: Declaration,
    pub attributes: usize,
    pub wrong: bool,
}

// What is wrong by itself: a reference to no character, a declaration or a section that is none.
fn wrong_text(action: Action, name: usize, r: usize, d: Declaration) -> bool
    ensures { result ≡ wrong_text action name r d }
{
    let named = both(action == Action::Named, named_char(r) == 0);
    let numbered = both(action == Action::Numbered, !is_char(r));
    let section = both(action == Action::Section, !(name == 288907940929));
    either(
        named,
        either(numbered, either(section, d == Declaration::Wrong)),
    )
}

// No more are counted than there is room for names, so that a tag takes time by its length.
fn count_attributes(n: usize, action: Action) -> usize
    ensures { result ≡ attributed n action }
{
    let counted = pick(n < 256, more(n), n);
    pick(
        action == Action::Tag,
        0,
        pick(action == Action::Quote, counted, n),
    )
}

pub fn fresh_text() -> Text
    ensures { result ≡ fresh_text }
{
    Text {
        state: 0,
        tag: Name { at: 0, word: 0 },
        name: Name { at: 0, word: 0 },
        refer: 0,
        value: Value {
            number: no_number(),
            word: 0,
        },
        point: no_point(),
        said: Declaration::Bare,
        attributes: 0,
        wrong: false,
    }
}

pub fn text_of(t: Text, state: usize, action: Action, b: u8, i: usize) -> Text
    ensures { result ≡ texted t state action b i }
{
    let tag = name_of(t.tag, action == Action::Tag, action == Action::TagOn, b, i);
    let name = name_of(
        t.name,
        action == Action::NameStart,
        action == Action::NameOn,
        b,
        i,
    );
    let r = refer(t.refer, action, b);
    let value = value_of(t.value, action, b, r);
    let point = point_of(t.point, action, name.word, value);
    let d = say(t.said, action, name.word, value.word);
    let wrong = wrong_text(action, name.word, r, d);
    Text {
        state,
        tag,
        name,
        refer: r,
        value,
        point,
        said: d,
        attributes: count_attributes(t.attributes, action),
        wrong: either(t.wrong, wrong),
    }
}
