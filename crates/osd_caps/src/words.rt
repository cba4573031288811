//! Names in a text, with quotes or without.
ghost use Rattle.std.specs.Prelude.{◌≡◌, ◌≤◌, length, None, Some, MatchOption, IfSome};
ghost use Rattle.osd_caps.specs.Words.{quoted_at, string_at, word_at};

use crate::bytes::{some_if_any, split_run, split_while};
use byte_sets::ByteSet;

/// A name without quotes, or what stands between two of one quote, which may be nothing.
#[tactic(auto, unfolding(crate::specs::Words::string_at))]
pub(crate) fn read_string(text: &[u8]) -> Option<(&[u8], &[u8])>
    ensures value { MatchOption result (string_at text.now ≡ None) (λ f. string_at text.now ≡ Some (f.0.now, f.1.now)) }
    ensures shorter { IfSome result (λ f. length f.1.now ≤ length text.now) }
{
    match text {
        [] => None,
        [b'"', inside @ ..] => read_quoted(b'"', inside),
        [b'\'', inside @ ..] => read_quoted(b'\'', inside),
        _ => split_run(ByteSet::BarePath, text),
    }
}

// What stands before the next such quote, and behind it.
#[tactic(auto, unfolding(crate::specs::Words::quoted_at))]
fn read_quoted(quote: u8, text: &[u8]) -> Option<(&[u8], &[u8])>
    ensures value { MatchOption result (quoted_at quote text.now ≡ None) (λ f. quoted_at quote text.now ≡ Some (f.0.now, f.1.now)) }
    ensures shorter { IfSome result (λ f. length f.1.now ≤ length text.now) }
{
    let (inside, closing) = split_while(ByteSet::AllBut(quote), text);
    match closing {
        [] => None,
        [_, rest @ ..] => Some((inside, rest)),
    }
}

/// The same as `read_string`, but not nothing.
#[tactic(auto, unfolding(crate::specs::Words::word_at))]
pub(crate) fn read_word(text: &[u8]) -> Option<(&[u8], &[u8])>
    ensures value { MatchOption result (word_at text.now ≡ None) (λ f. word_at text.now ≡ Some (f.0.now, f.1.now)) }
    ensures shorter { IfSome result (λ f. length f.1.now ≤ length text.now) }
{
    match read_string(text) {
        Some((word, rest)) => some_if_any(word, rest),
        None => None,
    }
}
