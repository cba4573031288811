//! A law of conflicts. No program needs to call it.

ghost use Rattle.std.specs.Prelude.{◌≡◌, ◌≢◌, ◌↔◌, None};
ghost use Rattle.locktable.specs.Conflicts.{AreApart};
ghost use Rattle.cluster_audit.specs.declared.conflict.Holding.{Holding};
ghost use Rattle.cluster_audit.specs.Conflicts.{conflict_of};

/// Of two clients there is a conflict except where what they hold is apart: no cap of the one conflicts, by the rule of
/// the locks, with one of the other.
pub fn conflict_where_not_apart()
    ensures { (one other : Holding) → one.client ≢ other.client → (conflict_of one other ≡ None) ↔ AreApart one.caps other.caps }
{}
