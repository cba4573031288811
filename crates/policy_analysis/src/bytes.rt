//! What stands behind white space, words and quotes.

ghost use Rattle.std.specs.Prelude.{◌≡◌, ◌≤◌, length};
ghost use Rattle.byte_sets.specs.Sets.{is_white};
ghost use Rattle.capspec.specs.Bytes.{ends_grant};
ghost use Rattle.capspec.specs.Words.{next};
ghost use Rattle.policy_analysis.specs.Scanning.{behind_quote, behind_word, can_end, has_spaces};

/// What follows the white space at the front of a text.
pub fn skip_white(text: &[u8]) -> &[u8]
    ensures { result.now ≡ next text.now }
{
    let mut rest = text;
    while let [first, behind @ ..] = rest {
        if !is_white(*first) {
            break;
        }
        rest = behind;
    }
    rest
}

/// Whether the white space at the front of a text is spaces alone.
pub fn has_spaces(text: &[u8]) -> bool
    ensures { result ≡ has_spaces text.now }
{
    let mut rest = text;
    while let [first, behind @ ..] = rest {
        if *first != b' ' {
            return !is_white(*first);
        }
        rest = behind;
    }
    true
}

/// What follows the word at the front of a text.
pub fn behind_word(text: &[u8]) -> &[u8]
    ensures { result.now ≡ behind_word text.now }
{
    let mut rest = text;
    while let [_, behind @ ..] = rest {
        if can_end(rest) {
            break;
        }
        rest = behind;
    }
    rest
}

/// What follows the next quote of this kind.
pub fn behind_quote(quote: u8, text: &[u8]) -> &[u8]
    ensures { result.now ≡ behind_quote quote text.now }
{
    let mut rest = text;
    while let [first, behind @ ..] = rest {
        if *first == quote {
            return behind;
        }
        rest = behind;
    }
    rest
}

/// Whether a grant can end before this text.
pub fn ends_grant(text: &[u8]) -> bool
    ensures { result ≡ ends_grant text.now }
{
    matches!(text, [] | [b',' | b';', ..])
}

// Whether a word can end before this text: a comma with a digit behind it belongs to the numbers of a gids item.
fn can_end(text: &[u8]) -> bool
    ensures { result ≡ can_end text.now }
{
    match text {
        [] | [b' ' | b'\t' | b'\n' | b';', ..] => true,
        [b',', behind @ ..] => !matches!(behind, [b'0'..=b'9', ..]),
        _ => false,
    }
}

fn is_white(byte: u8) -> bool
    ensures { result ≡ is_white byte }
{
    matches!(byte, b' ' | b'\t' | b'\n')
}
