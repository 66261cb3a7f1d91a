// The words of a command line, as what they ask for. They stand in one row, each ended by byte 0, which no
// word has in it. A choice that later words repeat is theirs: the last one counts.
#![tactic(auto)]

ghost use Rattle.std.specs.Prelude.{◌≡◌};
ghost use Rattle.lines.specs.Stream.{ended_by};
ghost use Rattle.words.specs.Words.{option_of, sixteenths, taken, ended, asked_of};

use settings::{DEFAULT_PENALTY, Settings};

// What is asked for: the settings, and whether the lookups that fell are told.
#[derive(Clone, Copy)]
pub struct Order {
    pub settings: Settings,
    pub told: bool,
}

// What the words so far ask for.
#[derive(Clone, Copy)]
pub enum Reading {
    Has(Order),
    // the next word is the penalty
    Penalty(Order),
}

// A word that stands where none is awaited; None is one that is not known.
fn option_of(order: Order, word: &[u8]) -> Option<Reading>
    ensures { result ≡ option_of order word.now }
{
    if word == b"--penalty".as_slice() {
        return Some(Reading::Penalty(order));
    }
    if word == b"--whole-units".as_slice() {
        let settings = Settings {
            whole_units: true,
            ..order.settings
        };
        return Some(Reading::Has(Order { settings, ..order }));
    }
    if word == b"--closed".as_slice() {
        let settings = Settings {
            closed: true,
            ..order.settings
        };
        return Some(Reading::Has(Order { settings, ..order }));
    }
    if word == b"--fallen".as_slice() {
        return Some(Reading::Has(Order {
            told: true,
            ..order
        }));
    }
    None
}

// A penalty of any size is taken: whoever is handed it judges it.
fn sixteenths(order: Order, n: Option<u64>) -> Option<Reading>
    ensures { result ≡ sixteenths order n }
{
    let v = n?;
    if v <= 4294967295 {
        let settings = Settings {
            penalty: v as u32,
            ..order.settings
        };
        return Some(Reading::Has(Order { settings, ..order }));
    }
    None
}

fn take(r: Reading, word: &[u8]) -> Option<Reading>
    ensures { result ≡ taken r word.now }
{
    match r {
        Reading::Has(order) => option_of(order, word),
        Reading::Penalty(order) => sixteenths(order, lines::read_size(word)),
    }
}

fn end(r: Reading) -> Option<Order>
    ensures { result ≡ ended r }
{
    match r {
        Reading::Has(order) => Some(order),
        Reading::Penalty(_) => None,
    }
}

// None: a word that is not known, or a number that is not there or is none.
pub fn read(words: &[u8]) -> Option<Order>
    ensures { result ≡ asked_of (ended_by 0 words.now) }
{
    let mut r = Reading::Has(Order {
        settings: Settings {
            penalty: DEFAULT_PENALTY,
            whole_units: false,
            closed: false,
        },
        told: false,
    });
    let mut at = 0;
    while at < words.len() {
        let e = lines::end_of(words, at, 0);
        r = take(r, &words[at..e])?;
        at = e + 1;
    }
    end(r)
}
