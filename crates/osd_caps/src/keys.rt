//! Keywords, and what stands between them and their values.
ghost use Rattle.std.specs.Prelude.{◌≡◌, ◌≤◌, length, None, Some, MatchOption, IfSome};
ghost use Rattle.osd_caps.specs.Scopes.{behind_equals};
ghost use Rattle.osd_caps.specs.Words.{behind_key, behind_keyword, behind_sign, behind_spaced, behind_spaces, behind_star};

use crate::bytes::{behind, skip, split_run};
use byte_sets::ByteSet;

/// The text behind one space or more.
#[tactic(auto, unfolding(crate::specs::Words::behind_spaces))]
pub(crate) fn behind_spaces(text: &[u8]) -> Option<&[u8]>
    ensures value { MatchOption result (behind_spaces text.now ≡ None) (λ rest. behind_spaces text.now ≡ Some rest.now) }
    ensures shorter { IfSome result (λ rest. length rest.now ≤ length text.now) }
{
    match split_run(ByteSet::AnyWhite, text) {
        Some((_, rest)) => Some(rest),
        None => None,
    }
}

/// The text behind spaces and a keyword.
#[tactic(auto, unfolding(crate::specs::Words::behind_keyword))]
pub(crate) fn behind_keyword<'a>(text: &'a [u8], keyword: &[u8]) -> Option<&'a [u8]>
    ensures value { MatchOption result (behind_keyword keyword.now text.now ≡ None) (λ rest. behind_keyword keyword.now text.now ≡ Some rest.now) }
    ensures shorter { IfSome result (λ rest. length rest.now ≤ length text.now) }
{
    match behind_spaces(text) {
        Some(rest) => behind(rest, keyword),
        None => None,
    }
}

/// The same, where spaces follow the keyword.
#[tactic(auto, unfolding(crate::specs::Words::behind_spaced))]
pub(crate) fn behind_spaced<'a>(text: &'a [u8], keyword: &[u8]) -> Option<&'a [u8]>
    ensures value { MatchOption result (behind_spaced keyword.now text.now ≡ None) (λ rest. behind_spaced keyword.now text.now ≡ Some rest.now) }
    ensures shorter { IfSome result (λ rest. length rest.now ≤ length text.now) }
{
    match behind_keyword(text, keyword) {
        Some(rest) => behind_spaces(rest),
        None => None,
    }
}

/// The text behind `=`, or behind spaces.
#[tactic(auto, unfolding(crate::specs::Words::behind_sign))]
pub(crate) fn behind_sign(text: &[u8]) -> Option<&[u8]>
    ensures value { MatchOption result (behind_sign text.now ≡ None) (λ rest. behind_sign text.now ≡ Some rest.now) }
    ensures shorter { IfSome result (λ rest. length rest.now ≤ length text.now) }
{
    match behind(text, b"=") {
        Some(rest) => Some(rest),
        None => behind_spaces(text),
    }
}

/// The text behind spaces, a keyword, and `=` or spaces.
#[tactic(auto, unfolding(crate::specs::Words::behind_key))]
pub(crate) fn behind_key<'a>(text: &'a [u8], keyword: &[u8]) -> Option<&'a [u8]>
    ensures value { MatchOption result (behind_key keyword.now text.now ≡ None) (λ rest. behind_key keyword.now text.now ≡ Some rest.now) }
    ensures shorter { IfSome result (λ rest. length rest.now ≤ length text.now) }
{
    match behind_keyword(text, keyword) {
        Some(rest) => behind_sign(rest),
        None => None,
    }
}

/// The text behind `=`, which may have spaces round it.
#[tactic(auto, unfolding(crate::specs::Scopes::behind_equals))]
pub(crate) fn behind_equals(text: &[u8]) -> Option<&[u8]>
    ensures value { MatchOption result (behind_equals text.now ≡ None) (λ rest. behind_equals text.now ≡ Some rest.now) }
    ensures shorter { IfSome result (λ rest. length rest.now ≤ length text.now) }
{
    match behind(skip(ByteSet::AnyWhite, text), b"=") {
        Some(rest) => Some(skip(ByteSet::AnyWhite, rest)),
        None => None,
    }
}

/// The text behind `*` or `all`.
#[tactic(auto, unfolding(crate::specs::Words::behind_star))]
pub(crate) fn behind_star(text: &[u8]) -> Option<&[u8]>
    ensures value { MatchOption result (behind_star text.now ≡ None) (λ rest. behind_star text.now ≡ Some rest.now) }
    ensures shorter { IfSome result (λ rest. length rest.now ≤ length text.now) }
{
    match behind(text, b"*") {
        Some(rest) => Some(rest),
        None => behind(text, b"all"),
    }
}
