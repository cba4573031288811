//! Laws of the sessions. No program needs to call them.

ghost use Rattle.std.specs.Prelude.{◌≡◌, ◌≢◌, ℕ, List, None, IsTrue};
ghost use Rattle.std.specs.FinMap as map;
ghost use Rattle.capbits.specs.declared.caller.Caller.{Caller};
ghost use Rattle.capbits.specs.Refusal.{first_failing};
ghost use Rattle.capspec.specs.declared.grant.Grant.{Grant};
ghost use Rattle.sessiontab.specs.Table.{SessionTable};
ghost use Rattle.sessiontab.specs.Calls.{has_session, with_session};
ghost use Rattle.sessiontab.specs.Tests.{new_session_tests};

/// A new session leaves that of every other client, and so each session that is there, where its client may have a new
/// one.
pub fn a_new_session_changes_no_other()
    ensures others { (t : SessionTable) (client : ℕ) (caller : Caller) (grants : List Grant) (other : ℕ) → other ≢ client
        → map.get (with_session t client caller grants).sessions other ≡ map.get t.sessions other }
    ensures connected { (t : SessionTable) (client : ℕ) (caller : Caller) (grants : List Grant) (other : ℕ)
        → first_failing (new_session_tests t client) ≡ None → IsTrue (has_session t other)
        → map.get (with_session t client caller grants).sessions other ≡ map.get t.sessions other }
{}
