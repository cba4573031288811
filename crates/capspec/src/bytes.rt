//! How the words of a grant text begin and end.

ghost use Rattle.std.specs.Prelude.{◌≡◌, ◌≢◌, ◌++◌, ℕ, List, MatchOption};
ghost use Rattle.capspec.specs.Bytes.{ends_grant, ends_word};

/// What stands behind `word`, if the text begins with it.
pub(crate) fn strip<'a>(text: &'a [u8], word: &[u8]) -> Option<&'a [u8]>
    ensures { MatchOption result ((rest : List ℕ) → text.now ≢ word.now ++ rest) (λ rest. text.now ≡ word.now ++ rest.now) }
{
    text.strip_prefix(word)
}

/// Whether a word can end before this text.
pub(crate) fn ends_word(text: &[u8]) -> bool
    ensures { result ≡ ends_word text.now }
{
    matches!(text, [] | [b' ' | b'\t' | b'\n' | b',' | b';', ..])
}

/// Whether a grant can end before this text.
pub(crate) fn ends_grant(text: &[u8]) -> bool
    ensures { result ≡ ends_grant text.now }
{
    matches!(text, [] | [b',' | b';', ..])
}
