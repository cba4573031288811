//! Reading of what a grant allows.
ghost use Rattle.std.specs.Prelude.{◌≡◌, ◌≤◌, length, None, Some, MatchOption, IfSome};
ghost use Rattle.osd_caps.specs.Accesses.{all_at, letter_at, letters_at, rights_at, spelled_at};

use crate::access::Rights;
use crate::bytes::behind;
use crate::calls::{behind_any, behind_calls};
use crate::keys::{behind_spaces, behind_star};

// To read and to write.
const EVERYTHING: Rights = Rights {
    reads: true,
    writes: true,
};

// Neither of them.
const NOTHING: Rights = Rights {
    reads: false,
    writes: false,
};

/// What a grant allows, and what follows.
#[tactic(auto, unfolding(crate::specs::Accesses::rights_at))]
pub(crate) fn read_rights(text: &[u8]) -> Option<(Rights, &[u8])>
    ensures value { MatchOption result (rights_at text.now ≡ None) (λ f. rights_at text.now ≡ Some (f.0, f.1.now)) }
    ensures shorter { IfSome result (λ f. length f.1.now ≤ length text.now) }
{
    if let Some(found) = read_all(text) {
        Some(found)
    } else if let Some(found) = read_spelled(text) {
        Some(found)
    } else if let Some(rest) = behind_calls(text) {
        Some((NOTHING, rest))
    } else {
        None
    }
}

// `*` or `all`.
#[tactic(auto, unfolding(crate::specs::Accesses::all_at))]
fn read_all(text: &[u8]) -> Option<(Rights, &[u8])>
    ensures value { MatchOption result (all_at text.now ≡ None) (λ f. all_at text.now ≡ Some (f.0, f.1.now)) }
    ensures shorter { IfSome result (λ f. length f.1.now ≤ length text.now) }
{
    let Some(star) = behind_spaces(text) else {
        return None;
    };
    match behind_star(star) {
        Some(rest) => Some((EVERYTHING, rest)),
        None => None,
    }
}

// Letters, and what is allowed of classes behind them.
#[tactic(auto, unfolding(crate::specs::Accesses::spelled_at))]
fn read_spelled(text: &[u8]) -> Option<(Rights, &[u8])>
    ensures value { MatchOption result (spelled_at text.now ≡ None) (λ f. spelled_at text.now ≡ Some (f.0, f.1.now)) }
    ensures shorter { IfSome result (λ f. length f.1.now ≤ length text.now) }
{
    let Some(letters) = behind_spaces(text) else {
        return None;
    };
    match read_letters(letters) {
        Some((rights, rest)) => {
            let rest = behind_any(rest, b"class-read");
            Some((rights, behind_any(rest, b"class-write")))
        }
        None => None,
    }
}

// The letters r, w and x in this order, at least one of them.
#[tactic(auto, unfolding(crate::specs::Accesses::letters_at))]
fn read_letters(text: &[u8]) -> Option<(Rights, &[u8])>
    ensures value { MatchOption result (letters_at text.now ≡ None) (λ f. letters_at text.now ≡ Some (f.0, f.1.now)) }
    ensures shorter { IfSome result (λ f. length f.1.now ≤ length text.now) }
{
    let (reads, rest) = read_letter(text, b"r");
    let (writes, rest) = read_letter(rest, b"w");
    let (calls, rest) = read_letter(rest, b"x");
    if reads || writes || calls {
        Some((Rights { reads, writes }, rest))
    } else {
        None
    }
}

// Whether the letter stands there, and what follows it.
#[tactic(auto, unfolding(crate::specs::Accesses::letter_at))]
fn read_letter<'a>(text: &'a [u8], letter: &[u8]) -> (bool, &'a [u8])
    ensures stands { result.0 ≡ (letter_at letter.now text.now).0 }
    ensures rest { result.1.now ≡ (letter_at letter.now text.now).1 }
    ensures shorter { length result.1.now ≤ length text.now }
{
    match behind(text, letter) {
        Some(rest) => (true, rest),
        None => (false, text),
    }
}
