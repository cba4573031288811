//! Calls of object classes in a text, which are passed over.
ghost use Rattle.std.specs.Prelude.{◌≡◌, ◌≤◌, length, None, Some, MatchOption, IfSome};
ghost use Rattle.osd_caps.specs.Accesses.{behind_any, behind_calls, behind_class, behind_method, method_at};

use crate::keys::{behind_keyword, behind_spaced, behind_spaces};
use crate::words::read_word;

/// The text behind the keyword, if it stands there.
#[tactic(auto, unfolding(crate::specs::Accesses::behind_any))]
pub(crate) fn behind_any<'a>(text: &'a [u8], keyword: &[u8]) -> &'a [u8]
    ensures value { result.now ≡ behind_any keyword.now text.now }
    ensures shorter { length result.now ≤ length text.now }
{
    match behind_keyword(text, keyword) {
        Some(rest) => rest,
        None => text,
    }
}

/// The text behind calls of classes without letters before them.
#[tactic(auto, unfolding(crate::specs::Accesses::behind_calls))]
pub(crate) fn behind_calls(text: &[u8]) -> Option<&[u8]>
    ensures value { MatchOption result (behind_calls text.now ≡ None) (λ rest. behind_calls text.now ≡ Some rest.now) }
    ensures shorter { IfSome result (λ rest. length rest.now ≤ length text.now) }
{
    if let Some(rest) = behind_keyword(text, b"class-read") {
        return Some(behind_any(rest, b"class-write"));
    }
    if let Some(rest) = behind_keyword(text, b"class-write") {
        return Some(rest);
    }
    behind_class(text)
}

// The text behind a class by its name, and perhaps one of its methods.
#[tactic(auto, unfolding(crate::specs::Accesses::behind_class))]
fn behind_class(text: &[u8]) -> Option<&[u8]>
    ensures value { MatchOption result (behind_class text.now ≡ None) (λ rest. behind_class text.now ≡ Some rest.now) }
    ensures shorter { IfSome result (λ rest. length rest.now ≤ length text.now) }
{
    let Some(name) = behind_spaced(text, b"class") else {
        return None;
    };
    match read_word(name) {
        Some((_, rest)) => Some(behind_method(rest)),
        None => None,
    }
}

// The text behind a word that may follow.
#[tactic(auto, unfolding(crate::specs::Accesses::behind_method))]
fn behind_method(text: &[u8]) -> &[u8]
    ensures value { result.now ≡ behind_method text.now }
    ensures shorter { length result.now ≤ length text.now }
{
    match read_method(text) {
        Some((_, rest)) => rest,
        None => text,
    }
}

fn read_method(text: &[u8]) -> Option<(&[u8], &[u8])>
    ensures value { MatchOption result (method_at text.now ≡ None) (λ f. method_at text.now ≡ Some (f.0.now, f.1.now)) }
    ensures shorter { IfSome result (λ f. length f.1.now ≤ length text.now) }
{
    match behind_spaces(text) {
        Some(word) => read_word(word),
        None => None,
    }
}
