//! Cases of whole scenes: which move comes next, what is revoked, and how a request is judged when it is served.
#![tactic(auto)]

ghost use Rattle.std.specs.Prelude.{◌≡◌, [], ◌∷◌, codes, Some, None};
ghost use Rattle.capbits.specs.Text.{text_of};
ghost use Rattle.capbits.specs.declared.cap.Part.TheVariants.{A, F};
ghost use Rattle.capgrant.specs.declared.access.Access.TheVariants.{Chmod};
ghost use Rattle.capgrant.specs.declared.rule.Rule.TheVariants.{Path};
ghost use Rattle.captable.specs.Calls.{acked};
ghost use Rattle.captable.specs.Table.{holder};
ghost use Rattle.locktable.specs.declared.states.StableState.TheVariants.{Excl, Lock, Mix, Sync};
ghost use Rattle.locktable.specs.declared.states.LockState.TheVariants.{Gather, Stable};
ghost use Rattle.lockmachine.specs.Moves.{first_move};
ghost use Rattle.lockmachine.specs.Scene.{against, pending_of};
ghost use Rattle.lockmachine.specs.declared.moves.Move.TheVariants.{Begin, End, Serve, Settled};
ghost use Rattle.capstep.specs.Finish.{issuable};
ghost use Rattle.capstep.specs.Serving.{judged_again};
ghost use Rattle.capstep.specs.declared.rejection.Rejection.TheVariants.{ByPolicy};
ghost use Rattle.tests_core.specs.Clients.{first, second};
ghost use Rattle.tests_core.specs.Entries.{file, reading, table};
ghost use Rattle.tests_core.specs.Scenes.{all_granted, asked, attributes, chmod, holds_all, holds_mixed, holds_pin, in_a, inner, moved_up, opens, shared};
ghost use Rattle.tests_core.specs.Scenes.{shares};

/// The first client has the file to itself, and the second opens it to read. The lock of its data gathers for MIX until the first
/// has acknowledged what it loses; then both are due what they want and MIX allows.
pub fn opened_beside_another()
    ensures lock_begins { first_move (shared all_granted (holds_all ∷ opens ∷ []) (Stable (Excl first))) ≡ Begin file F Mix }
    ensures second_gains { text_of (issuable (shared all_granted (holds_all ∷ opens ∷ []) (Gather (Excl first) Mix)) opens) ≡ codes "p" }
    ensures is_revoked { text_of (against (shared all_granted (holds_all ∷ holds_pin ∷ []) (Gather (Excl first) Mix)) holds_all) ≡ codes "Fsxcb" }
    ensures first_is_to_know { text_of (pending_of (shared all_granted (holds_all ∷ holds_pin ∷ []) (Gather (Excl first) Mix)) holds_all) ≡ codes "pFrw" }
    ensures gather_stays_open { first_move (shared all_granted (holds_all ∷ holds_pin ∷ []) (Gather (Excl first) Mix)) ≡ Settled }
    ensures gather_ends { first_move (shared all_granted (holds_mixed ∷ holds_pin ∷ []) (Gather (Excl first) Mix)) ≡ End file F }
    ensures lock_rests { first_move (shared all_granted (holds_mixed ∷ holds_pin ∷ []) (Stable Mix)) ≡ Settled }
    ensures first_keeps { text_of (issuable (shared all_granted (holds_mixed ∷ holds_pin ∷ []) (Stable Mix)) holds_mixed) ≡ codes "pFrw" }
    ensures second_reads { text_of (issuable (shared all_granted (holds_mixed ∷ holds_pin ∷ []) (Stable Mix)) holds_pin) ≡ codes "pFr" }
{}

/// A third client waits to change the mode of a file whose attributes two clients share, and the file is moved meanwhile. The request
/// is served when both have acknowledged, and judged where the file lies then: it is denied by the path of the client's grant.
pub fn served_after_a_move()
    ensures lock_begins { first_move (asked in_a (shares first attributes ∷ shares second attributes ∷ []) (Stable Sync) (chmod ∷ [])) ≡ Begin inner A Lock }
    ensures is_revoked { text_of (against (asked in_a (shares first attributes ∷ shares second attributes ∷ []) (Gather Sync Lock) (chmod ∷ [])) (shares second attributes)) ≡ codes "As" }
    ensures second_is_to_know { text_of (pending_of (asked in_a (shares first attributes ∷ shares second attributes ∷ []) (Gather Sync Lock) (chmod ∷ [])) (shares second attributes)) ≡ codes "pFscr" }
    ensures gather_stays_open { first_move (asked moved_up (shares first reading ∷ shares second attributes ∷ []) (Gather Sync Lock) (chmod ∷ [])) ≡ Settled }
    ensures gather_ends { first_move (asked moved_up (shares first reading ∷ shares second reading ∷ []) (Gather Sync Lock) (chmod ∷ [])) ≡ End inner A }
    ensures is_served { first_move (asked moved_up (shares first reading ∷ shares second reading ∷ []) (Stable Lock) (chmod ∷ [])) ≡ Serve chmod.ticket }
    ensures passes_in_its_path { judged_again (asked in_a (shares first reading ∷ shares second reading ∷ []) (Stable Lock) (chmod ∷ [])) chmod ≡ None }
    ensures is_denied_out_of_it { judged_again (asked moved_up (shares first reading ∷ shares second reading ∷ []) (Stable Lock) (chmod ∷ [])) chmod ≡ Some (ByPolicy Chmod (Path ∷ [])) }
    ensures lock_goes_back { first_move (asked moved_up (shares first reading ∷ shares second reading ∷ []) (Stable Lock) []) ≡ Begin inner A Sync }
    ensures second_gains { text_of (issuable (asked moved_up (shares first reading ∷ shares second reading ∷ []) (Stable Sync) []) (shares second reading)) ≡ codes "pAsFscr" }
{}

/// The first client's grants are taken away. All that it holds is revoked and no lock moves for that; what it acknowledges ends its
/// entry, and the lock goes where another wants it.
pub fn grants_taken_away()
    ensures all_is_revoked { text_of (against (shared [] (holds_all ∷ []) (Stable (Excl first))) holds_all) ≡ codes "pFsxcrwb" }
    ensures nothing_is_to_know { text_of (pending_of (shared [] (holds_all ∷ []) (Stable (Excl first))) holds_all) ≡ codes "-" }
    ensures no_lock_moves { first_move (shared [] (holds_all ∷ []) (Stable (Excl first))) ≡ Settled }
    ensures entry_ends { (acked (table (holds_all ∷ [])) (holder first file) (against (shared [] (holds_all ∷ []) (Stable (Excl first))) holds_all)).rows ≡ [] }
    ensures lock_goes_to_another { first_move (shared [] (opens ∷ []) (Stable (Excl first))) ≡ Begin file F Sync }
    ensures another_reads { text_of (issuable (shared [] (opens ∷ []) (Stable Sync)) opens) ≡ codes "pFscr" }
{}
