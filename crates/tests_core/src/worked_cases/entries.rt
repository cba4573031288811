//! Cases of one file on which two clients have an entry: what each may hold, is told, and acknowledges.
#![tactic(auto, unfolding(crate::proofs::Unfolded::locks))]

ghost use Rattle.std.specs.Prelude.{◌≡◌, [], ◌∷◌, codes, Some, None, true, false};
ghost use Rattle.capbits.specs.Sets.{minus, no_caps};
ghost use Rattle.capbits.specs.Text.{text_of};
ghost use Rattle.capbits.specs.declared.cap.Part.TheVariants.{F};
ghost use Rattle.capbits.specs.declared.refusal.Refusal.TheVariants as refusal;
ghost use Rattle.locktable.specs.declared.states.StableState.TheVariants.{Excl, Mix};
ghost use Rattle.locktable.specs.declared.states.LockState.TheVariants.{Gather, Stable};
ghost use Rattle.captable.specs.Table.{holder};
ghost use Rattle.captable.specs.Calls.{acked, renumbered};
ghost use Rattle.lockmachine.specs.Lock.{may_end_in};
ghost use Rattle.lockmachine.specs.Under.{against_under, allowed_under, pending_under};
ghost use Rattle.tests_core.specs.Clients.{first};
ghost use Rattle.tests_core.specs.Entries.{ack, all, entry, file, mixed, of_first, of_second, pin, reading, table, under};

/// The first client has all that it wants of the file, and the second opens it to read: the second may hold the pin alone of what it wants, the first is to know what is left to it, and the gather stays open.
pub fn beside_another()
    ensures alone { text_of (allowed_under (under (Stable (Excl first))) (of_first (entry no_caps all 0 0 0))) ≡ codes "pAsLsXsFsxcrwb" }
    ensures second_may_hold { text_of (allowed_under (under (Gather (Excl first) Mix)) (of_second (entry no_caps reading 0 0 0))) ≡ codes "pAsLsXs" }
    ensures first_may_hold { text_of (allowed_under (under (Gather (Excl first) Mix)) (of_first (entry all all 1 0 1))) ≡ codes "pAsLsXsFrw" }
    ensures is_revoked { text_of (against_under (under (Gather (Excl first) Mix)) (of_first (entry all all 1 0 1))) ≡ codes "Fsxcb" }
    ensures first_is_to_know { text_of (pending_under all (under (Gather (Excl first) Mix)) (of_first (entry all all 1 0 1))) ≡ codes "pFrw" }
    ensures gather_is_open { may_end_in (table (of_first (entry all all 1 0 1) ∷ of_second (entry pin reading 1 0 0) ∷ [])) (2, F) (Some (Gather (Excl first) Mix)) ≡ false }
{}

/// An entry has a new number where its client is to know another set, and this is the number of a revocation too where a cap went.
pub fn renumberings()
    ensures cap_went { renumbered all mixed (entry all all 1 0 1) ≡ entry all all 2 2 1 }
    ensures cap_came { renumbered no_caps pin (entry pin reading 0 0 0) ≡ entry pin reading 1 0 0 }
    ensures one_of_each { renumbered mixed reading (entry reading all 2 2 2) ≡ entry reading all 3 3 2 }
    ensures the_same { renumbered mixed mixed (entry all all 2 2 1) ≡ entry all all 2 2 1 }
{}

/// The first client acknowledges by the number of which it was told. What was revoked of it is gone then, and the gather may end.
pub fn acknowledged()
    ensures before_it_was_told { ack (of_first (entry all all 2 2 1) ∷ of_second (entry pin reading 1 0 1) ∷ []) 2 (minus all mixed) ≡ Some refusal.BadSeq }
    ensures by_an_old_number { ack (of_first (entry all all 2 2 2) ∷ of_second (entry pin reading 1 0 1) ∷ []) 1 (minus all mixed) ≡ Some (refusal.OldSeq 2) }
    ensures by_a_number_to_come { ack (of_first (entry all all 2 2 2) ∷ of_second (entry pin reading 1 0 1) ∷ []) 3 (minus all mixed) ≡ Some refusal.BadSeq }
    ensures passes { ack (of_first (entry all all 2 2 2) ∷ of_second (entry pin reading 1 0 1) ∷ []) 2 (minus all mixed) ≡ None }
    ensures takes { acked (table (of_first (entry all all 2 2 2) ∷ of_second (entry pin reading 1 0 1) ∷ [])) (holder first file) (minus all mixed)
        ≡ table (of_first (entry mixed all 2 2 2) ∷ of_second (entry pin reading 1 0 1) ∷ []) }
    ensures again { ack (of_first (entry mixed all 2 2 2) ∷ of_second (entry pin reading 1 0 1) ∷ []) 2 no_caps ≡ Some refusal.NothingToAck }
    ensures gather_may_end { may_end_in (table (of_first (entry mixed all 2 2 2) ∷ of_second (entry pin reading 1 0 1) ∷ [])) (2, F) (Some (Gather (Excl first) Mix)) ≡ true }
    ensures second_may_hold { text_of (allowed_under (under (Stable Mix)) (of_second (entry pin reading 1 0 1))) ≡ codes "pAsLsXsFrwl" }
{}

/// A client that is permitted nothing any more is to know that it holds nothing, and its acknowledgement ends its entry.
pub fn without_grants()
    ensures nothing_is_to_know { text_of (pending_under no_caps (under (Stable (Excl first))) (of_first (entry all all 1 0 1))) ≡ codes "-" }
    ensures is_renumbered { renumbered all no_caps (entry all all 1 0 1) ≡ entry all all 2 2 1 }
    ensures passes { ack (of_first (entry all all 2 2 2) ∷ []) 2 all ≡ None }
    ensures takes { (acked (table (of_first (entry all all 2 2 2) ∷ of_second (entry pin reading 1 0 1) ∷ [])) (holder first file) all).rows ≡ of_second (entry pin reading 1 0 1) ∷ [] }
    ensures no_entry { ack (of_second (entry pin reading 1 0 1) ∷ []) 2 no_caps ≡ Some refusal.NoEntry }
{}
