//! Cases of the table of entries: what each keeps, and the orders in which they stand.
#![tactic(auto, unfolding(crate::proofs::Unfolded::locks))]

ghost use Rattle.std.specs.Prelude.{◌≡◌, [], ◌∷◌, ◌++◌, Some, None, length, take, true, false};
ghost use Rattle.capbits.specs.Sets.{caps_in, no_caps};
ghost use Rattle.capbits.specs.declared.cap.Cap.TheVariants.{As, Fb, Fc, Fr, Fs, Fw, Fx, P};
ghost use Rattle.capbits.specs.declared.refusal.Refusal.TheVariants as refusal;
ghost use Rattle.capbits.specs.Refusal.{first_failing};
ghost use Rattle.cap_arena.specs.Calls.{add_tests};
ghost use Rattle.cap_arena.specs.Lists.{Lists, count};
ghost use Rattle.captable.specs.Calls.{newer_in};
ghost use Rattle.captable.specs.Table.{Table, entry_at};
ghost use Rattle.captable.specs.declared.entry.Entry.{Entry};
ghost use Rattle.captable.specs.declared.entry.Holder.{Holder};
ghost use Rattle.captable.specs.declared.entry.Slot.{Slot};
ghost use Rattle.tests_core.specs.Entries.{all, entry, mixed, pin, reading};
ghost use Rattle.tests_core.specs.Tables.{ack_refusal, acks, asked, at, beside, due, found, gets, goes, is_asked, is_told, keeps, lost_twice, of_client, on};
ghost use Rattle.tests_core.specs.Tables.{one_regained, one_released, open_refusal, opens, order, permits, read_only, recalls, regained, release_refusal, releases};
ghost use Rattle.tests_core.specs.Tables.{renumbers, three, three_files, told_twice, touches, two, view, wants};

/// The first client has a file for itself and is to release all but reading and writing, while the second has it open. Then it
/// releases more, and holds more anew.
pub fn shared_file()
    ensures nothing_before { found [] (at 1 2) ≡ None }
    ensures opened { found (opens (at 1 2) ∷ []) (at 1 2) ≡ Some (entry no_caps no_caps 0 0 0) }
    ensures client_and_inode_exchanged { found (opens (at 1 2) ∷ []) (at 2 1) ≡ None }
    ensures alone { found two (at 1 2) ≡ Some (entry all all 1 0 1) }
    ensures loses { found (two ++ renumbers (at 1 2) all mixed ∷ []) (at 1 2) ≡ Some (entry all all 2 2 1) }
    ensures neither_holds_nor_wants_what_it_released { found one_released (at 1 2) ≡ Some (entry mixed mixed 2 2 2) }
    ensures does_not_hold_it_any_more { release_refusal one_released (at 1 2) (Fx ∷ Fw ∷ []) ≡ Some refusal.NotHeld }
    ensures has_no_other_entry { release_refusal one_released (at 1 3) (Fw ∷ []) ≡ Some refusal.NoEntry }
    ensures gains_and_loses_nothing { found one_regained (at 1 2) ≡ Some (entry regained mixed 3 2 2) }
    ensures second_has_its_own { found one_regained (at 2 2) ≡ Some (entry pin reading 1 0 0) }
    ensures both_are_on_the_file { on 2 one_regained ≡ at 1 2 ∷ at 2 2 ∷ [] }
    ensures pin_takes_the_entry { found (one_regained ++ releases (at 1 2) (P ∷ Fs ∷ Fc ∷ Fr ∷ Fw ∷ []) ∷ []) (at 1 2) ≡ None }
    ensures out_of_the_order { order (one_regained ++ releases (at 1 2) (P ∷ Fs ∷ Fc ∷ Fr ∷ Fw ∷ []) ∷ []) ≡ at 2 2 ∷ [] }
    ensures off_the_file { on 2 (one_regained ++ releases (at 1 2) (P ∷ Fs ∷ Fc ∷ Fr ∷ Fw ∷ []) ∷ []) ≡ at 2 2 ∷ [] }
{}

/// A client with a file for itself is told twice what it keeps, and hears of the first time alone. An acknowledgement takes what is
/// revoked and is held; where two tests fail, the first answers.
pub fn acknowledgements()
    ensures no_entry { ack_refusal [] (at 1 2) (P ∷ []) 0 ≡ Some refusal.NoEntry }
    ensures nothing_of_it_is_held { ack_refusal lost_twice (at 1 2) (As ∷ []) 9 ≡ Some refusal.NothingToAck }
    ensures not_told_yet { ack_refusal lost_twice (at 1 2) (Fs ∷ Fx ∷ Fc ∷ Fw ∷ Fb ∷ []) 2 ≡ Some refusal.BadSeq }
    ensures by_an_old_number { ack_refusal lost_twice (at 1 2) (Fs ∷ Fx ∷ Fc ∷ Fw ∷ Fb ∷ []) 1 ≡ Some (refusal.OldSeq 3) }
    ensures holds_all_yet { found lost_twice (at 1 2) ≡ Some (entry all all 3 3 1) }
    ensures by_a_number_to_come { ack_refusal told_twice (at 1 2) (Fs ∷ Fx ∷ Fc ∷ Fw ∷ Fb ∷ []) 4 ≡ Some refusal.BadSeq }
    ensures passes { ack_refusal told_twice (at 1 2) (As ∷ Fs ∷ Fx ∷ Fc ∷ Fw ∷ Fb ∷ []) 3 ≡ None }
    ensures wants_it_still { found (told_twice ++ acks (at 1 2) (As ∷ Fs ∷ Fx ∷ Fc ∷ Fw ∷ Fb ∷ []) ∷ []) (at 1 2) ≡ Some (entry read_only all 3 3 3) }
    ensures again { ack_refusal (told_twice ++ acks (at 1 2) (As ∷ Fs ∷ Fx ∷ Fc ∷ Fw ∷ Fb ∷ []) ∷ []) (at 1 2) (Fs ∷ Fx ∷ Fc ∷ Fw ∷ Fb ∷ []) 3 ≡ Some refusal.NothingToAck }
    ensures pin_may_go { ack_refusal (told_twice ++ acks (at 1 2) (As ∷ Fs ∷ Fx ∷ Fc ∷ Fw ∷ Fb ∷ []) ∷ []) (at 1 2) (P ∷ Fr ∷ []) 3 ≡ None }
    ensures pin_takes_the_entry { found (told_twice ++ acks (at 1 2) (As ∷ Fs ∷ Fx ∷ Fc ∷ Fw ∷ Fb ∷ []) ∷ acks (at 1 2) (P ∷ Fr ∷ []) ∷ []) (at 1 2) ≡ None }
    ensures without_a_pin { ack_refusal (opens (at 1 2) ∷ gets (at 1 2) (caps_in (Fr ∷ [])) ∷ []) (at 1 2) (P ∷ Fr ∷ []) 0 ≡ None }
    ensures pin_not_held_takes_nothing { found (opens (at 1 2) ∷ gets (at 1 2) (caps_in (Fr ∷ [])) ∷ acks (at 1 2) (P ∷ Fr ∷ []) ∷ []) (at 1 2) ≡ Some (entry no_caps no_caps 0 0 0) }
{}

/// The orders of making and of recall are kept apart.
pub fn orders_apart()
    ensures empty { order [] ≡ [] }
    ensures recall { order (three ++ touches (at 1 2) ∷ touches (at 2 3) ∷ []) ≡ at 1 3 ∷ at 2 2 ∷ at 1 2 ∷ [] }
    ensures on_an_inode { on 2 (three ++ touches (at 1 2) ∷ []) ≡ at 1 2 ∷ at 2 2 ∷ [] }
    ensures on_another { on 3 (opens (at 1 2) ∷ opens (at 2 2) ∷ []) ≡ [] }
    ensures of_a_client { of_client 1 (three ++ touches (at 1 2) ∷ []) ≡ at 1 2 ∷ at 1 3 ∷ [] }
    ensures none_behind_the_last { newer_in (order three) (at 2 2) ≡ None }
    ensures found_no_more { found (three ++ goes 1 ∷ []) (at 1 3) ≡ None }
    ensures recall_without_a_client { order (three ++ goes 1 ∷ []) ≡ at 2 2 ∷ [] }
    ensures on_an_inode_without_it { on 2 (three ++ goes 1 ∷ []) ≡ at 2 2 ∷ [] }
    ensures of_that_client { of_client 1 (three ++ goes 1 ∷ []) ≡ [] }
{}

/// A recall asks those whose entries were left alone longest, and a message takes the mark away and leaves the order.
pub fn recalls_the_oldest()
    ensures none { asked (three_files ++ touches (at 1 2) ∷ recalls 0 ∷ []) ≡ [] }
    ensures two { asked (three_files ++ touches (at 1 2) ∷ recalls 2 ∷ []) ≡ at 1 3 ∷ at 1 4 ∷ [] }
    ensures two_named { take 2 (order (three_files ++ touches (at 1 2) ∷ [])) ≡ at 1 3 ∷ at 1 4 ∷ [] }
    ensures all { asked (three_files ++ touches (at 1 2) ∷ recalls 9 ∷ []) ≡ at 1 2 ∷ at 1 3 ∷ at 1 4 ∷ [] }
    ensures all_named { take 9 (order (three_files ++ touches (at 1 2) ∷ recalls 2 ∷ [])) ≡ at 1 3 ∷ at 1 4 ∷ at 1 2 ∷ [] }
    ensures told { asked (three_files ++ touches (at 1 2) ∷ recalls 9 ∷ is_asked (at 1 3) false ∷ []) ≡ at 1 2 ∷ at 1 4 ∷ [] }
    ensures order_stays { order (three_files ++ touches (at 1 2) ∷ recalls 9 ∷ is_asked (at 1 3) false ∷ []) ≡ at 1 3 ∷ at 1 4 ∷ at 1 2 ∷ [] }
    ensures making_stays { of_client 1 (three_files ++ touches (at 1 2) ∷ recalls 9 ∷ []) ≡ at 1 2 ∷ at 1 3 ∷ at 1 4 ∷ [] }
{}

/// An entry is due while its client is asked for caps, or was not told of the last change.
pub fn due_entries()
    ensures new_is_not { due 1 three_files ≡ [] }
    ensures asked_is { due 1 (three_files ++ is_asked (at 1 3) true ∷ is_asked (at 1 4) true ∷ is_asked (at 1 2) true ∷ []) ≡ at 1 2 ∷ at 1 3 ∷ at 1 4 ∷ [] }
    ensures not_asked_any_more { due 1 (three_files ++ is_asked (at 1 3) true ∷ is_asked (at 1 2) true ∷ is_asked (at 1 2) false ∷ []) ≡ at 1 3 ∷ [] }
    ensures changed_is { due 1 (three_files ++ is_asked (at 1 3) true ∷ gets (at 1 2) pin ∷ renumbers (at 1 2) no_caps pin ∷ []) ≡ at 1 2 ∷ at 1 3 ∷ [] }
    ensures told_is_not { due 1 (three_files ++ is_asked (at 1 3) true ∷ gets (at 1 2) pin ∷ renumbers (at 1 2) no_caps pin ∷ is_told (at 1 2) ∷ []) ≡ at 1 3 ∷ [] }
    ensures of_no_other { due 2 (three_files ++ opens (at 2 2) ∷ is_asked (at 1 3) true ∷ []) ≡ [] }
{}

/// There are at most 65,536 entries, and as many nodes of them; who has an entry needs none.
pub fn as_many_as_there_may_be()
    ensures no_more { (table : Table) (k : Holder) → entry_at table k ≡ None → length table.rows ≡ 65536 → open_refusal table k ≡ Some refusal.Limit }
    ensures one_more { (table : Table) (k : Holder) → entry_at table k ≡ None → length table.rows ≡ 65535 → table.made ≡ 65536 → open_refusal table k ≡ None }
    ensures has_one { (table : Table) (k : Holder) (e : Entry) → entry_at table k ≡ Some e → open_refusal table k ≡ None }
    ensures no_more_nodes { (lists : Lists Slot) → count lists ≡ 65536 → first_failing (add_tests lists) ≡ Some refusal.Limit }
    ensures one_more_node { (lists : Lists Slot) → count lists ≡ 65535 → first_failing (add_tests lists) ≡ None }
{}

/// What is kept beside an entry comes and goes with it, and is no part of it.
pub fn kept_beside_entries()
    ensures without_an_entry { beside (permits (at 1 2) read_only ∷ keeps (at 1 2) pin read_only ∷ []) (at 1 2) ≡ None }
    ensures with_a_new_one { beside (permits (at 1 2) read_only ∷ opens (at 1 2) ∷ []) (at 1 2) ≡ Some (view no_caps no_caps) }
    ensures permitted { beside (opens (at 1 2) ∷ opens (at 2 2) ∷ permits (at 1 2) read_only ∷ []) (at 1 2) ≡ Some (view no_caps read_only) }
    ensures both { beside (opens (at 1 2) ∷ opens (at 2 2) ∷ keeps (at 1 2) pin mixed ∷ permits (at 1 2) read_only ∷ []) (at 1 2) ≡ Some (view pin read_only) }
    ensures of_another { beside (opens (at 1 2) ∷ opens (at 2 2) ∷ keeps (at 1 2) pin mixed ∷ permits (at 1 2) read_only ∷ []) (at 2 2) ≡ Some (view no_caps no_caps) }
    ensures entry_stays { found (opens (at 1 2) ∷ wants (at 1 2) mixed ∷ gets (at 1 2) read_only ∷ keeps (at 1 2) pin mixed ∷ permits (at 1 2) pin ∷ []) (at 1 2) ≡ Some (entry read_only mixed 0 0 0) }
    ensures stays_as_the_entry_changes { beside (opens (at 1 2) ∷ keeps (at 1 2) pin read_only ∷ wants (at 1 2) mixed ∷ gets (at 1 2) read_only ∷ []) (at 1 2) ≡ Some (view pin read_only) }
    ensures released { beside (opens (at 1 2) ∷ gets (at 1 2) read_only ∷ permits (at 1 2) pin ∷ releases (at 1 2) (P ∷ Fr ∷ []) ∷ []) (at 1 2) ≡ None }
    ensures opened_again { beside (opens (at 1 2) ∷ gets (at 1 2) read_only ∷ permits (at 1 2) pin ∷ releases (at 1 2) (P ∷ Fr ∷ []) ∷ opens (at 1 2) ∷ []) (at 1 2) ≡ Some (view no_caps no_caps) }
    ensures acknowledged { beside (opens (at 1 2) ∷ gets (at 1 2) pin ∷ permits (at 1 2) read_only ∷ acks (at 1 2) (P ∷ []) ∷ []) (at 1 2) ≡ None }
    ensures gone_with_its_client { beside (opens (at 2 2) ∷ opens (at 1 2) ∷ permits (at 1 2) read_only ∷ goes 1 ∷ []) (at 1 2) ≡ None }
    ensures of_who_stays { beside (opens (at 2 2) ∷ opens (at 1 2) ∷ permits (at 2 2) (caps_in (P ∷ Fw ∷ [])) ∷ goes 1 ∷ []) (at 2 2) ≡ Some (view no_caps (caps_in (P ∷ Fw ∷ []))) }
{}
