//! The grants of a text, one after the other.

ghost use Rattle.std.specs.Prelude.{◌≡◌, List, [], IfOk};
ghost use Rattle.capspec.specs.declared.grant.Grant.{Grant};
ghost use Rattle.byte_sets.specs.Sets.{is_mark};
ghost use Rattle.capspec.specs.Grants.{Reads};
ghost use Rattle.capspec.specs.Separated.{AreSeparated};
ghost use Rattle.policy_analysis.specs.Scanning.{wrong_between};
ghost use Rattle.policy_analysis.specs.Ceph16Syntax.{AreReported, GrantText, Stands, why_each};

use crate::bytes::{has_spaces, skip_white};
use crate::items::scan_grant;
use capspec::Key;
use std::alloc::{AllocError, Global};

/// Why Ceph 16 does not read a grant as it stands in its text: the first thing from the left.
#[derive(Clone, Copy)]
pub enum Unread {
    /// White space other than spaces stands beside the separator before it.
    WhiteSpace,
    /// Its fsname is `*`.
    AnyFileSystem,
    /// An item with the first key stands behind one with the second, and Ceph 16 reads it before that.
    Order {
        /// What the item speaks of that stands too late.
        first: Key,
        /// What that speaks of behind which it stands.
        second: Key,
    },
}

/// Of each grant of a text, in their order, why Ceph 16 does not read it as it stands; None where that holds nothing against it.
/// Whether Ceph 16 reads what the grant says in any text is another question.
pub fn unread_grants(alloc: Global, text: &[u8]) -> Result<Vec<Option<Unread>>, AllocError>
    ensures reported { (grants : List Grant) → Reads text.now grants → IfOk result (λ reported. AreReported text.now grants reported.items) }
    // However the text is divided into grants.
    ensures exact { (texts_of_grants : List GrantText) → AreSeparated is_mark Stands text.now texts_of_grants → IfOk result (λ reported. reported.items ≡ why_each [] texts_of_grants) }
{
    let mut reported = Vec::new(alloc);
    let mut before = None;
    let mut rest = text;
    loop {
        let (found, behind) = scan_grant(before, rest);
        reported.push(found)?;
        let Some((_, more)) = skip_white(behind).split_first() else {
            return Ok(reported);
        };
        before = wrong_between(behind, more);
        rest = more;
    }
}

// What is wrong with the white space on both sides of a separator.
fn wrong_between(before: &[u8], behind: &[u8]) -> Option<Unread>
    ensures { result ≡ wrong_between before.now behind.now }
{
    if has_spaces(before) && has_spaces(behind) {
        None
    } else {
        Some(Unread::WhiteSpace)
    }
}
