//! Names that a grant keeps.

use std::marker::Model;

/// A name, as a part of the text that it was read from, without its quotes.
#[derive(Drop)]
pub struct Word<'a> {
    text: &'a [u8],
}

impl<'a> Model for Word<'a> {
    ghost use Rattle.std.specs.Prelude.{List, ℕ};

    ghost Value = { List ℕ };

    ghost view = { λ word. word.text.now };
}

impl<'a> Word<'a> {
    ghost use Rattle.std.specs.Prelude.{◌≡◌};

    pub(crate) fn of(text: &'a [u8]) -> Word<'a>
        ensures { result ≡ text.now }
    {
        Word { text }
    }

    /// The bytes of the name.
    pub fn as_bytes(&self) -> &[u8]
        ensures { result.now ≡ self.now }
    {
        self.text
    }
}
