//! The longest front of a text that a set of bytes allows, and what follows some bytes.
ghost use Rattle.std.specs.Prelude.{◌≡◌, ◌≤◌, length, None, Some, MatchOption, IfSome};
ghost use Rattle.capspec.specs.Words.{front_while, rest_while};
ghost use Rattle.byte_sets.specs.Sets.{is_in};
ghost use Rattle.osd_caps.specs.Words.{behind, if_any, run_at};

use byte_sets::ByteSet;

/// The text behind the longest front that has bytes of the set alone.
pub(crate) fn skip(set: ByteSet, text: &[u8]) -> &[u8]
    ensures rest { result.now ≡ rest_while (is_in set) text.now }
    ensures shorter { length result.now ≤ length text.now }
{
    split_while(set, text).1
}

/// What `split_while` of `byte_sets` answers.
pub(crate) fn split_while(set: ByteSet, text: &[u8]) -> (&[u8], &[u8])
    ensures front { result.0.now ≡ front_while (is_in set) text.now }
    ensures rest { result.1.now ≡ rest_while (is_in set) text.now }
    ensures shorter { length result.1.now ≤ length text.now }
{
    byte_sets::split_while(set, text)
}

/// The same, if that front is not empty.
#[tactic(auto, unfolding(crate::specs::Words::run_at))]
pub(crate) fn split_run(set: ByteSet, text: &[u8]) -> Option<(&[u8], &[u8])>
    ensures value { MatchOption result (run_at set text.now ≡ None) (λ f. run_at set text.now ≡ Some (f.0.now, f.1.now)) }
    ensures shorter { IfSome result (λ f. length f.1.now ≤ length text.now) }
{
    let (front, rest) = split_while(set, text);
    some_if_any(front, rest)
}

/// A front and the rest, if the front is not empty.
pub(crate) fn some_if_any<'a>(front: &'a [u8], rest: &'a [u8]) -> Option<(&'a [u8], &'a [u8])>
    ensures value { MatchOption result (if_any front.now rest.now ≡ None) (λ f. if_any front.now rest.now ≡ Some (f.0.now, f.1.now)) }
    ensures same { IfSome result (λ f. f.1.now ≡ rest.now) }
{
    match front {
        [] => None,
        _ => Some((front, rest)),
    }
}

/// What stands behind these bytes, if the text begins with them.
#[tactic(auto, unfolding(crate::specs::Words::behind))]
pub(crate) fn behind<'a>(text: &'a [u8], bytes: &[u8]) -> Option<&'a [u8]>
    ensures value { MatchOption result (behind bytes.now text.now ≡ None) (λ rest. behind bytes.now text.now ≡ Some rest.now) }
    ensures shorter { IfSome result (λ rest. length rest.now ≤ length text.now) }
{
    if !text.starts_with(bytes) {
        return None;
    }
    let (_, rest) = text.split_at(bytes.len());
    Some(rest)
}
