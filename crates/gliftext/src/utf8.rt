// Whether bytes are UTF-8.
ghost use Rattle.std.specs.Prelude.{◌≡◌};
ghost use Rattle.gliftext.specs.Utf8.{is_utf8};

use crate::table::{rune_class, rune_on};

pub fn is_utf8(bytes: &[u8]) -> bool
    ensures { result ≡ is_utf8 bytes.now }
{
    let mut state = 0;
    for &b in bytes {
        state = rune_on(state, rune_class(b));
    }
    state == 0
}
