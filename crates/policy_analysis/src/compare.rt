//! What one list of grants allows and another denies.

ghost use Rattle.std.specs.Prelude.{◌≤◌, length, IsTrue, IfOk, IfSome, MatchOption};
ghost use Rattle.policy_analysis.specs.Comparing.{Covers, CoversBut, IsWitness, is_root};

use crate::asking::Accesses;
use crate::search::Search;
use crate::witness::Witness;
use capspec::{Grant, Grants};
use std::alloc::{AllocError, Global};

/// A question that the new grants allow and the old ones deny, or None where every question that the new grants allow is
/// allowed by the old ones too: on every file system, by every caller, for every path, owner, group, mode and access. The
/// question is one of root only where no other shows it.
pub fn gained<'a>(
    alloc: Global,
    old: &Grants,
    new: &'a Grants,
) -> Result<Option<Witness<'a>>, AllocError>
    ensures exact { IfOk result (λ found. MatchOption found (Covers old.now new.now) (IsWitness old.now new.now)) }
    ensures root_last { IfOk result (λ found. IfSome found (λ w. IsTrue (is_root w.caller) → CoversBut is_root old.now new.now)) }
{
    difference(alloc, old.as_slice(), new.as_slice())
}

/// A question that the old grants allow and the new ones deny, or None where every question that the old grants allow is
/// allowed by the new ones too. The question is one of root only where no other shows it.
pub fn lost<'a>(
    alloc: Global,
    old: &'a Grants,
    new: &Grants,
) -> Result<Option<Witness<'a>>, AllocError>
    ensures exact { IfOk result (λ found. MatchOption found (Covers new.now old.now) (IsWitness new.now old.now)) }
    ensures root_last { IfOk result (λ found. IfSome found (λ w. IsTrue (is_root w.caller) → CoversBut is_root new.now old.now)) }
{
    gained(alloc, new, old)
}

// A question that some grant of the new list allows and every grant of the old one denies, if there is one. It is one of root only where
// no other shows the difference.
pub(crate) fn difference<'a>(
    alloc: Global,
    old: &[Grant],
    new: &'a [Grant],
) -> Result<Option<Witness<'a>>, AllocError>
    requires old { length old.now ≤ 16 }
    requires new { length new.now ≤ 16 }
    ensures exact { IfOk result (λ found. MatchOption found (Covers old.now new.now) (IsWitness old.now new.now)) }
    ensures root_last { IfOk result (λ found. IfSome found (λ w. IsTrue (is_root w.caller) → CoversBut is_root old.now new.now)) }
{
    let search = Search::of(alloc, Accesses::All, old, new)?;
    if let Some(witness) = search.find(alloc, false)? {
        return Ok(Some(witness));
    }
    search.find(alloc, true)
}
