//! Cases of sessions: what is kept of each client, and why each call on them is refused.
#![tactic(auto)]

ghost use Rattle.std.specs.Prelude.{◌≡◌, [], ◌∷◌, ℕ, Some, None, true, false};
ghost use Rattle.std.specs.FinMap as map;
ghost use Rattle.std.specs.FinSet as set;
ghost use Rattle.capbits.specs.Refusal.{first_failing};
ghost use Rattle.capbits.specs.declared.refusal.Refusal.TheVariants as refusal;
ghost use Rattle.capspec.specs.declared.flags.Flags4.TheVariants.{Rwp, Rws};
ghost use Rattle.sessiontab.specs.Calls.{has_session, with_evicted};
ghost use Rattle.sessiontab.specs.Table.{SessionTable};
ghost use Rattle.sessiontab.specs.Tests.{new_session_tests};
ghost use Rattle.sessiontab.specs.declared.session.Session.{Session};
ghost use Rattle.sessiontab.specs.declared.session.Status.TheVariants.{Stale};
ghost use Rattle.tests_core.specs.Scenes.{all_granted, session};
ghost use Rattle.tests_core.specs.Sessions.{after, closes, coming_and_going, found, gets_grants, is_blocked, is_let_in, is_not_heard_of, is_thrown_out, opens, renews};
ghost use Rattle.tests_core.specs.Sessions.{to_be_stale, to_close, to_evict, to_open, to_renew, to_unblock};
ghost use Rattle.tests_core.specs.Verdicts.{allow};

/// Each client has its own session: as others connect, are thrown out, become stale, get other grants and go, it stays.
pub fn each_has_its_own_session()
    ensures stays { found coming_and_going 1 ≡ Some (session 1 (allow Rws ∷ [])) }
    ensures thrown_out { found coming_and_going 2 ≡ None }
    ensures stale_with_other_grants { found coming_and_going 3 ≡ Some (record (session 3 (allow Rwp ∷ [])) { status = Stale }) }
    ensures stays_too { found coming_and_going 4 ≡ Some (session 4 all_granted) }
    ensures gone { found coming_and_going 5 ≡ None }
    ensures never_here { found coming_and_going 9 ≡ None }
    ensures stays_unblocked { is_blocked coming_and_going 1 ≡ false }
    ensures thrown_out_is_blocked { is_blocked coming_and_going 2 ≡ true }
    ensures stale_is_not_blocked { is_blocked coming_and_going 3 ≡ false }
    ensures gone_is_not_blocked { is_blocked coming_and_going 5 ≡ false }
    ensures never_blocked { is_blocked coming_and_going 9 ≡ false }
{}

/// Who has no session has none to end or to change, and who was not thrown out can't be let in again.
pub fn without_a_session()
    ensures close { to_close [] 1 ≡ Some refusal.NoSession }
    ensures stale { to_be_stale [] 1 ≡ Some refusal.NoSession }
    ensures renew { to_renew [] 1 ≡ Some refusal.NoSession }
    ensures regrant { has_session (after []) 1 ≡ false }
    ensures evict { to_evict [] 1 ≡ Some refusal.NoSession }
    ensures unblock { to_unblock [] 1 ≡ Some refusal.NotBlocked }
    ensures open { to_open [] 1 ≡ None }
    ensures another_has_one { has_session (after (opens 1 all_granted ∷ [])) 2 ≡ false }
{}

/// An open session isn't opened or renewed again. It may become stale, get other grants, and end.
pub fn with_an_open_session()
    ensures open { to_open (opens 1 all_granted ∷ []) 1 ≡ Some refusal.SessionOpen }
    ensures renew { to_renew (opens 1 all_granted ∷ []) 1 ≡ Some refusal.NotStale }
    ensures stale { to_be_stale (opens 1 all_granted ∷ []) 1 ≡ None }
    ensures regrant { has_session (after (opens 1 all_granted ∷ [])) 1 ≡ true }
    ensures evict { to_evict (opens 1 all_granted ∷ []) 1 ≡ None }
    ensures close { to_close (opens 1 all_granted ∷ []) 1 ≡ None }
{}

/// A stale session is there still: it isn't opened, nor marked again. It gets other grants, is renewed, and ends.
pub fn with_a_stale_session()
    ensures open { to_open (opens 1 all_granted ∷ is_not_heard_of 1 ∷ []) 1 ≡ Some refusal.SessionOpen }
    ensures stale { to_be_stale (opens 1 all_granted ∷ is_not_heard_of 1 ∷ []) 1 ≡ Some refusal.SessionStale }
    ensures regrant { has_session (after (opens 1 all_granted ∷ is_not_heard_of 1 ∷ [])) 1 ≡ true }
    ensures renew { to_renew (opens 1 all_granted ∷ is_not_heard_of 1 ∷ gets_grants 1 [] ∷ []) 1 ≡ None }
    ensures renewed { found (opens 1 all_granted ∷ is_not_heard_of 1 ∷ gets_grants 1 [] ∷ renews 1 ∷ []) 1 ≡ Some (session 1 []) }
    ensures evict { to_evict (opens 1 all_granted ∷ is_not_heard_of 1 ∷ renews 1 ∷ []) 1 ≡ None }
    ensures close { to_close (opens 1 all_granted ∷ is_not_heard_of 1 ∷ []) 1 ≡ None }
{}

/// Who was thrown out has no session and gets none, until it is let in again.
pub fn thrown_out_and_let_in()
    ensures evict { to_evict (opens 1 all_granted ∷ is_thrown_out 1 ∷ []) 1 ≡ Some refusal.NoSession }
    ensures renew { to_renew (opens 1 all_granted ∷ is_thrown_out 1 ∷ []) 1 ≡ Some refusal.NoSession }
    ensures regrant { has_session (after (opens 2 all_granted ∷ is_thrown_out 2 ∷ [])) 2 ≡ false }
    ensures open { to_open (opens 1 all_granted ∷ is_thrown_out 1 ∷ []) 1 ≡ Some refusal.Blocklisted }
    ensures another_opens { to_open (opens 1 all_granted ∷ is_thrown_out 1 ∷ []) 65 ≡ None }
    ensures another_closes { to_open (opens 1 all_granted ∷ opens 2 all_granted ∷ is_thrown_out 1 ∷ closes 2 ∷ []) 1 ≡ Some refusal.Blocklisted }
    ensures unblock { to_unblock (opens 1 all_granted ∷ is_thrown_out 1 ∷ []) 1 ≡ None }
    ensures unblock_again { to_unblock (opens 1 all_granted ∷ is_thrown_out 1 ∷ is_let_in 1 ∷ []) 1 ≡ Some refusal.NotBlocked }
    ensures open_again { to_open (opens 1 all_granted ∷ is_thrown_out 1 ∷ is_let_in 1 ∷ []) 1 ≡ None }
{}

/// At most 64 clients are connected. Where more than one test fails, the first answers; and who goes makes room.
pub fn no_more_sessions()
    ensures one_more { (table : SessionTable) (client : ℕ) → map.get table.sessions client ≡ None → set.contains table.blocked client ≡ false → map.len table.sessions ≡ 63
        → first_failing (new_session_tests table client) ≡ None }
    ensures no_more { (table : SessionTable) (client : ℕ) → map.get table.sessions client ≡ None → set.contains table.blocked client ≡ false → map.len table.sessions ≡ 64
        → first_failing (new_session_tests table client) ≡ Some refusal.Limit }
    ensures has_one { (table : SessionTable) (client : ℕ) (s : Session) → map.get table.sessions client ≡ Some s → set.contains table.blocked client ≡ false → map.len table.sessions ≡ 64
        → first_failing (new_session_tests table client) ≡ Some refusal.SessionOpen }
    ensures blocked { (table : SessionTable) (client : ℕ) → set.contains table.blocked client ≡ true → map.len table.sessions ≡ 64
        → first_failing (new_session_tests table client) ≡ Some refusal.Blocklisted }
    ensures room_for_another { (table : SessionTable) (s : Session) → map.get table.sessions 1 ≡ Some s → map.get table.sessions 65 ≡ None → set.contains table.blocked 65 ≡ false → map.len table.sessions ≡ 64
        → first_failing (new_session_tests (with_evicted table 1) 65) ≡ None }
{}
