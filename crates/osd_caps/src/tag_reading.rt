//! Reading of a tag.
ghost use Rattle.std.specs.Prelude.{◌≡◌, ◌≤◌, length, None, Some, MatchOption, IfSome};
ghost use Rattle.osd_caps.specs.Scopes.{pair_at, tag_at, tag_part_at, tag_part_of};

use crate::keys::{behind_equals, behind_spaced, behind_spaces, behind_star};
use crate::scope::{Tag, TagPart};
use crate::word::Word;
use crate::words::read_word;

/// A tag, and what follows.
#[tactic(auto, unfolding(crate::specs::Scopes::tag_at))]
pub(crate) fn read_tag(text: &[u8]) -> Option<(Tag<'_>, &[u8])>
    ensures value { MatchOption result (tag_at text.now ≡ None) (λ f. tag_at text.now ≡ Some (f.0, f.1.now)) }
    ensures shorter { IfSome result (λ f. length f.1.now ≤ length text.now) }
{
    let Some(rest) = behind_spaced(text, b"tag") else {
        return None;
    };
    let Some((application, rest)) = read_word(rest) else {
        return None;
    };
    let Some(rest) = behind_spaces(rest) else {
        return None;
    };
    let Some((key, value, rest)) = read_pair(rest) else {
        return None;
    };
    let application = Word::of(application);
    Some((
        Tag {
            application,
            key,
            value,
        },
        rest,
    ))
}

// A key and its value, and what follows.
#[tactic(auto, unfolding(crate::specs::Scopes::pair_at))]
fn read_pair(text: &[u8]) -> Option<(TagPart<'_>, TagPart<'_>, &[u8])>
    ensures value { MatchOption result (pair_at text.now ≡ None) (λ f. pair_at text.now ≡ Some (f.0, f.1, f.2.now)) }
    ensures shorter { IfSome result (λ f. length f.2.now ≤ length text.now) }
{
    let Some((key, rest)) = read_part(text) else {
        return None;
    };
    let Some(rest) = behind_equals(rest) else {
        return None;
    };
    let Some((value, rest)) = read_part(rest) else {
        return None;
    };
    Some((key, value, rest))
}

// A key or a value, and what follows.
#[tactic(auto, unfolding(crate::specs::Scopes::tag_part_at))]
fn read_part(text: &[u8]) -> Option<(TagPart<'_>, &[u8])>
    ensures value { MatchOption result (tag_part_at text.now ≡ None) (λ f. tag_part_at text.now ≡ Some (f.0, f.1.now)) }
    ensures shorter { IfSome result (λ f. length f.1.now ≤ length text.now) }
{
    if let Some(rest) = behind_star(text) {
        return Some((TagPart::Any, rest));
    }
    match read_word(text) {
        Some((word, rest)) => Some((tag_part(word), rest)),
        None => None,
    }
}

// The key or the value of that name.
#[tactic(auto, unfolding(crate::specs::Scopes::tag_part_of))]
fn tag_part(word: &[u8]) -> TagPart<'_>
    ensures { result ≡ tag_part_of word.now }
{
    if word == b"*".as_slice() {
        TagPart::Any
    } else {
        TagPart::Exact(Word::of(word))
    }
}
