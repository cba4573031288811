//! Cases of the moves that locks make for what is wanted and held, of the gathers' counts, and of who waits.
#![tactic(auto, unfolding(crate::proofs::Unfolded::locks))]

ghost use Rattle.std.specs.Prelude.{◌≡◌, [], ◌∷◌, codes, Some, None, true, false};
ghost use Rattle.capbits.specs.Refusal.{first_failing};
ghost use Rattle.capbits.specs.Sets.{caps_in};
ghost use Rattle.capbits.specs.Text.{text_of};
ghost use Rattle.capbits.specs.declared.cap.Cap.TheVariants.{As, Ax, Fa, Fb, Fc, Fr, Fs, Fw, Fx, Ls, Lx, P, Xs, Xx};
ghost use Rattle.capbits.specs.declared.cap.Part.TheVariants.{A, F, L, X};
ghost use Rattle.capbits.specs.declared.refusal.Refusal.TheVariants.{Limit};
ghost use Rattle.locktable.specs.GatherCounts.{no_counts, with_count_in};
ghost use Rattle.locktable.specs.declared.states.StableState.{StableState};
ghost use Rattle.locktable.specs.declared.states.StableState.TheVariants.{Excl, Mix, Sync};
ghost use Rattle.locktable.specs.declared.states.LockState.TheVariants.{Gather, Stable};
ghost use Rattle.lockmachine.specs.Counts.{given_up, holders_outside};
ghost use Rattle.lockmachine.specs.Inodes.{in_sync};
ghost use Rattle.lockmachine.specs.Lock.{ends_by_count};
ghost use Rattle.lockmachine.specs.Locks.{lock_at, no_locks, oldest_of, queue_tests, with_ino, with_request, without_ino, without_request, without_requests_of};
ghost use Rattle.lockmachine.specs.Moves.{first_move, moved};
ghost use Rattle.lockmachine.specs.Scene.{loner, wanted};
ghost use Rattle.lockmachine.specs.declared.moves.Move.TheVariants.{Begin, End, Serve, Settled};
ghost use Rattle.lockmachine.specs.declared.request.Operation.TheVariants.{Get};
ghost use Rattle.tests_core.specs.Clients.{fifth, first, fourth, second, third};
ghost use Rattle.tests_core.specs.Entries.{file, table};
ghost use Rattle.tests_core.specs.LockMoves.{asks, ends_after, files, has, many, other, to_read, to_write, waiting, wants, with_data};

/// What does not count moves no lock: what all may have in SYNC, what is not permitted, what a stale client wants or one without a
/// session, and what is wanted of an inode that is not there or has no locks.
pub fn nothing_moves()
    ensures nobody { first_move (with_data [] (Stable Sync)) ≡ Settled }
    ensures pin_alone { first_move (with_data (wants first [] ∷ []) (Stable Sync)) ≡ Settled }
    ensures one_reads { first_move (with_data (wants first to_read ∷ []) (Stable Sync)) ≡ Settled }
    ensures both_read { first_move (with_data (wants first to_read ∷ wants second to_read ∷ []) (Stable Sync)) ≡ Settled }
    ensures other_parts_are_shared { first_move (with_data (wants first (As ∷ Ls ∷ Xs ∷ []) ∷ wants second [] ∷ []) (Stable Sync)) ≡ Settled }
    ensures not_permitted { first_move (with_data (wants first [] ∷ wants third (As ∷ Ax ∷ Ls ∷ Lx ∷ Xs ∷ Xx ∷ Fs ∷ Fx ∷ Fc ∷ Fr ∷ Fw ∷ Fb ∷ []) ∷ []) (Stable Sync)) ≡ Settled }
    ensures stale_or_not_connected { first_move (with_data (wants fourth to_write ∷ wants fifth to_write ∷ []) (Stable Sync)) ≡ Settled }
    ensures no_inode_or_no_locks { first_move (with_data (has first (record { 0 = 9 }) to_write [] ∷ has first (record { 0 = 1 }) (As ∷ Ax ∷ []) [] ∷ []) (Stable Sync)) ≡ Settled }
    ensures none_of_two_writes { first_move (with_data (wants first (As ∷ Ax ∷ Fs ∷ Fx ∷ Fc ∷ Fb ∷ []) ∷ wants second (As ∷ Ax ∷ Fs ∷ Fc ∷ Fr ∷ []) ∷ []) (Stable Sync)) ≡ Settled }
{}

/// A lock goes to what is wanted, and stays where it is when nobody wants its part.
pub fn goals()
    ensures loner_writes_begins { first_move (with_data (wants first (Fw ∷ []) ∷ []) (Stable Sync)) ≡ Begin file F (Excl first) }
    ensures loner_writes_ends { first_move (with_data (wants first (Fw ∷ []) ∷ []) (Gather Sync (Excl first))) ≡ End file F }
    ensures loner_writes_rests { first_move (with_data (wants first (Fw ∷ []) ∷ []) (Stable (Excl first))) ≡ Settled }
    ensures nobody_wants { first_move (with_data (wants first [] ∷ []) (Stable (Excl first))) ≡ Settled }
    ensures another_is_alone_begins { first_move (with_data (wants first [] ∷ wants second to_write ∷ []) (Stable (Excl first))) ≡ Begin file F (Excl second) }
    ensures another_is_alone_ends { first_move (with_data (wants first [] ∷ wants second to_write ∷ []) (Gather (Excl first) (Excl second))) ≡ End file F }
    ensures another_is_alone_rests { first_move (with_data (wants first [] ∷ wants second to_write ∷ []) (Stable (Excl second))) ≡ Settled }
    ensures one_of_two_writes_begins { first_move (with_data (wants first (As ∷ []) ∷ wants second to_write ∷ []) (Stable (Excl second))) ≡ Begin file F Mix }
    ensures one_of_two_writes_ends { first_move (with_data (wants first (As ∷ []) ∷ wants second to_write ∷ []) (Gather (Excl second) Mix)) ≡ End file F }
    ensures one_of_two_writes_rests { first_move (with_data (wants first (As ∷ []) ∷ wants second to_write ∷ []) (Stable Mix)) ≡ Settled }
    ensures none_of_two_writes_begins { first_move (with_data (wants first (As ∷ []) ∷ wants second to_read ∷ []) (Stable Mix)) ≡ Begin file F Sync }
    ensures none_of_two_writes_ends { first_move (with_data (wants first (As ∷ []) ∷ wants second to_read ∷ []) (Gather Mix Sync)) ≡ End file F }
    ensures none_of_two_writes_rests { first_move (with_data (wants first (As ∷ []) ∷ wants second to_read ∷ []) (Stable Sync)) ≡ Settled }
    ensures loner_changes_auth { first_move (files (wants first (As ∷ Ax ∷ Ls ∷ Lx ∷ Xs ∷ Xx ∷ []) ∷ wants second [] ∷ []) in_sync in_sync []) ≡ Begin file A (Excl first) }
    ensures auth_is_changed { first_move (files (wants first (As ∷ Ax ∷ Ls ∷ Lx ∷ Xs ∷ Xx ∷ []) ∷ wants second [] ∷ []) (record in_sync { auth = Gather Sync (Excl first) }) in_sync []) ≡ End file A }
    ensures loner_changes_link { first_move (files (wants first (As ∷ Ax ∷ Ls ∷ Lx ∷ Xs ∷ Xx ∷ []) ∷ wants second [] ∷ []) (record in_sync { auth = Stable (Excl first) }) in_sync []) ≡ Begin file L (Excl first) }
    ensures link_is_changed { first_move (files (wants first (As ∷ Ax ∷ Ls ∷ Lx ∷ Xs ∷ Xx ∷ []) ∷ wants second [] ∷ []) (record in_sync { auth = Stable (Excl first); link = Gather Sync (Excl first) }) in_sync []) ≡ End file L }
    ensures loner_changes_xattr { first_move (files (wants first (As ∷ Ax ∷ Ls ∷ Lx ∷ Xs ∷ Xx ∷ []) ∷ wants second [] ∷ []) (record in_sync { auth = Stable (Excl first); link = Stable (Excl first) }) in_sync []) ≡ Begin file X (Excl first) }
    ensures xattr_is_changed { first_move (files (wants first (As ∷ Ax ∷ Ls ∷ Lx ∷ Xs ∷ Xx ∷ []) ∷ wants second [] ∷ []) (record in_sync { auth = Stable (Excl first); link = Stable (Excl first); xattr = Gather Sync (Excl first) }) in_sync []) ≡ End file X }
    ensures all_are_changed { first_move (files (wants first (As ∷ Ax ∷ Ls ∷ Lx ∷ Xs ∷ Xx ∷ []) ∷ wants second [] ∷ []) (record in_sync { auth = Stable (Excl first); link = Stable (Excl first); xattr = Stable (Excl first) }) in_sync []) ≡ Settled }
{}

/// A gather waits for what is held that its target does not let be held.
pub fn gathers_wait()
    ensures one_holds { first_move (with_data (has first file to_write (P ∷ to_write) ∷ wants second to_read ∷ []) (Stable (Excl first))) ≡ Begin file F Mix }
    ensures stays_open { first_move (with_data (has first file to_write (P ∷ to_write) ∷ wants second to_read ∷ []) (Gather (Excl first) Mix)) ≡ Settled }
    ensures half_is_given_up { first_move (with_data (has first file (Fx ∷ Fr ∷ Fw ∷ Fb ∷ []) (P ∷ Fx ∷ Fr ∷ Fw ∷ Fb ∷ []) ∷ wants second to_read ∷ []) (Gather (Excl first) Mix)) ≡ Settled }
    ensures all_is_given_up { first_move (with_data (has first file (Fr ∷ Fw ∷ []) (P ∷ Fr ∷ Fw ∷ []) ∷ wants second to_read ∷ []) (Gather (Excl first) Mix)) ≡ End file F }
    ensures mix_rests { first_move (with_data (has first file (Fr ∷ Fw ∷ []) (P ∷ Fr ∷ Fw ∷ []) ∷ wants second to_read ∷ []) (Stable Mix)) ≡ Settled }
    ensures nothing_to_give_up_begins { first_move (with_data (has first file (Fr ∷ []) (P ∷ Fr ∷ []) ∷ wants second to_read ∷ []) (Stable Mix)) ≡ Begin file F Sync }
    ensures nothing_to_give_up_ends { first_move (with_data (has first file (Fr ∷ []) (P ∷ Fr ∷ []) ∷ wants second to_read ∷ []) (Gather Mix Sync)) ≡ End file F }
    ensures nothing_to_give_up_rests { first_move (with_data (has first file (Fr ∷ []) (P ∷ Fr ∷ []) ∷ wants second to_read ∷ []) (Stable Sync)) ≡ Settled }
{}

/// A gather that two clients keep open ends with the last cap of the second.
pub fn two_holders()
    ensures both_may_read { first_move (with_data (has first file to_read (P ∷ to_read) ∷ has second file to_read (P ∷ to_read) ∷ []) (Stable Sync)) ≡ Settled }
    ensures first_is_to_write { first_move (with_data (has first file to_write (P ∷ to_read) ∷ has second file to_read (P ∷ to_read) ∷ []) (Stable Sync)) ≡ Begin file F Mix }
    ensures stays_open { first_move (with_data (has first file to_write (P ∷ to_read) ∷ has second file to_read (P ∷ to_read) ∷ []) (Gather Sync Mix)) ≡ Settled }
    ensures half_of_one { first_move (with_data (has first file to_write (P ∷ to_read) ∷ has second file (Fc ∷ Fr ∷ []) (P ∷ Fc ∷ Fr ∷ []) ∷ []) (Gather Sync Mix)) ≡ Settled }
    ensures all_of_the_other { first_move (with_data (has first file (Fx ∷ Fr ∷ Fw ∷ Fb ∷ []) (P ∷ Fr ∷ []) ∷ has second file (Fc ∷ Fr ∷ []) (P ∷ Fc ∷ Fr ∷ []) ∷ []) (Gather Sync Mix)) ≡ Settled }
    ensures all_of_both { first_move (with_data (has first file (Fx ∷ Fr ∷ Fw ∷ Fb ∷ []) (P ∷ Fr ∷ []) ∷ has second file (Fr ∷ []) (P ∷ Fr ∷ []) ∷ []) (Gather Sync Mix)) ≡ End file F }
    ensures second_is_to_be_alone { first_move (with_data (has first file [] (P ∷ Fr ∷ []) ∷ has second file to_write (P ∷ Fr ∷ []) ∷ []) (Stable Mix)) ≡ Begin file F (Excl second) }
    ensures stays_open_for_the_first { first_move (with_data (has first file [] (P ∷ Fr ∷ []) ∷ has second file to_write (P ∷ Fr ∷ []) ∷ []) (Gather Mix (Excl second))) ≡ Settled }
    ensures second_is_alone { first_move (with_data (has first file [] (P ∷ []) ∷ has second file to_write (P ∷ Fr ∷ []) ∷ []) (Gather Mix (Excl second))) ≡ End file F }
{}

/// How many clients a gather waits for when it begins, and by how much that falls with what a client gives up: by one, with the last cap of the part alone.
pub fn who_is_waited_for()
    ensures both { holders_outside (table (has first file [] (P ∷ to_read) ∷ has second file [] (P ∷ to_read) ∷ [])) file F Mix ≡ 2 }
    ensures one_of_both { holders_outside (table (has first file [] (P ∷ Fr ∷ []) ∷ has second file [] (P ∷ Fc ∷ Fr ∷ []) ∷ [])) file F Mix ≡ 1 }
    ensures neither { holders_outside (table (has first file [] (P ∷ Fr ∷ []) ∷ has second file [] (P ∷ Fr ∷ []) ∷ [])) file F Mix ≡ 0 }
    ensures by_its_own_target { holders_outside (table (has first file [] (P ∷ Fr ∷ []) ∷ has second file [] (P ∷ Fr ∷ []) ∷ [])) file F (Excl second) ≡ 1 }
    ensures another_inode { holders_outside (table (has first file [] (P ∷ to_read) ∷ [])) other F Mix ≡ 0 }
    ensures half_is_given_up { given_up (has second file [] (P ∷ to_read)) (caps_in (P ∷ Fc ∷ Fr ∷ [])) (2, F) (Some (Gather Sync Mix)) ≡ 0 }
    ensures the_last_is_given_up { given_up (has second file [] (P ∷ Fc ∷ Fr ∷ [])) (caps_in (P ∷ Fr ∷ [])) (2, F) (Some (Gather Sync Mix)) ≡ 1 }
    ensures of_another_inode { given_up (has second file [] (P ∷ Fc ∷ Fr ∷ [])) (caps_in (P ∷ Fr ∷ [])) (3, F) (Some (Gather Sync Mix)) ≡ 0 }
    ensures of_no_gather { given_up (has second file [] (P ∷ Fc ∷ Fr ∷ [])) (caps_in (P ∷ Fr ∷ [])) (2, F) (Some (Stable Sync)) ≡ 0 }
{}

/// A gather ends when its count is 0. The counts of other locks don't matter, and no count falls below 0.
pub fn ends_by_its_count()
    ensures other_parts { ends_after (with_count_in A 1 (with_count_in F 2 no_counts)) (A ∷ L ∷ []) ≡ false }
    ensures one_of_two { ends_after (with_count_in A 1 (with_count_in F 2 no_counts)) (A ∷ L ∷ F ∷ []) ≡ false }
    ensures both { ends_after (with_count_in A 1 (with_count_in F 2 no_counts)) (A ∷ L ∷ F ∷ F ∷ []) ≡ true }
    ensures one_more { ends_after (with_count_in A 1 (with_count_in F 2 no_counts)) (A ∷ L ∷ F ∷ F ∷ F ∷ []) ≡ true }
    ensures no_gather { ends_by_count 0 (Some (Stable Mix)) ≡ false }
    ensures no_lock { ends_by_count 0 None ≡ false }
{}

/// A gather ends where it was to end, though its goal is another by then; the next gather goes there. What a stale client wants does not count; what it holds does.
pub fn a_goal_changes()
    ensures ends_as_it_was_to { first_move (with_data (has first file (Fr ∷ Fw ∷ []) (P ∷ Fr ∷ Fw ∷ []) ∷ wants second [] ∷ []) (Gather (Excl first) Mix)) ≡ End file F }
    ensures goes_there_next { first_move (with_data (has first file (Fr ∷ Fw ∷ []) (P ∷ Fr ∷ Fw ∷ []) ∷ wants second [] ∷ []) (Stable Mix)) ≡ Begin file F (Excl first) }
    ensures is_there { first_move (with_data (has first file (Fr ∷ Fw ∷ []) (P ∷ Fr ∷ Fw ∷ []) ∷ wants second [] ∷ []) (Gather Mix (Excl first))) ≡ End file F }
    ensures stale_does_not_want { first_move (with_data (has first file [] (P ∷ Fr ∷ Fw ∷ []) ∷ has second file to_write [] ∷ has fourth file to_write (P ∷ Fs ∷ Fr ∷ []) ∷ []) (Stable (Excl first))) ≡ Begin file F (Excl second) }
    ensures both_hold { first_move (with_data (has first file [] (P ∷ Fr ∷ Fw ∷ []) ∷ has second file to_write [] ∷ has fourth file to_write (P ∷ Fs ∷ Fr ∷ []) ∷ []) (Gather (Excl first) (Excl second))) ≡ Settled }
    ensures stale_holds { first_move (with_data (has first file [] (P ∷ []) ∷ has second file to_write [] ∷ has fourth file to_write (P ∷ Fs ∷ Fr ∷ []) ∷ []) (Gather (Excl first) (Excl second))) ≡ Settled }
    ensures stale_gives_up { first_move (with_data (has first file [] (P ∷ []) ∷ has second file to_write [] ∷ has fourth file (Fx ∷ Fc ∷ Fw ∷ Fb ∷ []) (P ∷ []) ∷ []) (Gather (Excl first) (Excl second))) ≡ End file F }
{}

/// An end comes before a beginning, and of either the lesser inode first.
pub fn moves_in_order()
    ensures lesser_begins { first_move (files (has first other to_write [] ∷ wants first to_write ∷ []) in_sync in_sync []) ≡ Begin file F (Excl first) }
    ensures lesser_ends { first_move (files (has first other to_write [] ∷ wants first to_write ∷ []) (record in_sync { file = Gather Sync (Excl first) }) in_sync []) ≡ End file F }
    ensures greater_begins { first_move (files (has first other to_write [] ∷ wants first to_write ∷ []) (record in_sync { file = Stable (Excl first) }) in_sync []) ≡ Begin other F (Excl first) }
    ensures greater_ends { first_move (files (has first other to_write [] ∷ wants first to_write ∷ []) (record in_sync { file = Stable (Excl first) }) (record in_sync { file = Gather Sync (Excl first) }) []) ≡ End other F }
    ensures both_rest { first_move (files (has first other to_write [] ∷ wants first to_write ∷ []) (record in_sync { file = Stable (Excl first) }) (record in_sync { file = Stable (Excl first) }) []) ≡ Settled }
    ensures lesser_is_to_share { first_move (files (has first other to_write to_write ∷ has first file to_write to_write ∷ has second other to_read [] ∷ wants second to_read ∷ []) (record in_sync { file = Stable (Excl first) }) (record in_sync { file = Stable (Excl first) }) []) ≡ Begin file F Mix }
    ensures greater_is_to_share { first_move (files (has first other to_write to_write ∷ has first file to_write to_write ∷ has second other to_read [] ∷ wants second to_read ∷ []) (record in_sync { file = Gather (Excl first) Mix }) (record in_sync { file = Stable (Excl first) }) []) ≡ Begin other F Mix }
    ensures both_stay_open { first_move (files (has first other to_write to_write ∷ has first file to_write to_write ∷ has second other to_read [] ∷ wants second to_read ∷ []) (record in_sync { file = Gather (Excl first) Mix }) (record in_sync { file = Gather (Excl first) Mix }) []) ≡ Settled }
    ensures lesser_shares { first_move (files (has first other (Fr ∷ Fw ∷ []) (Fr ∷ Fw ∷ []) ∷ has first file (Fr ∷ Fw ∷ []) (Fr ∷ Fw ∷ []) ∷ has second other to_read [] ∷ wants second to_read ∷ []) (record in_sync { file = Gather (Excl first) Mix }) (record in_sync { file = Gather (Excl first) Mix }) []) ≡ End file F }
    ensures greater_shares { first_move (files (has first other (Fr ∷ Fw ∷ []) (Fr ∷ Fw ∷ []) ∷ has first file (Fr ∷ Fw ∷ []) (Fr ∷ Fw ∷ []) ∷ has second other to_read [] ∷ wants second to_read ∷ []) (record in_sync { file = Stable Mix }) (record in_sync { file = Gather (Excl first) Mix }) []) ≡ End other F }
    ensures both_share { first_move (files (has first other (Fr ∷ Fw ∷ []) (Fr ∷ Fw ∷ []) ∷ has first file (Fr ∷ Fw ∷ []) (Fr ∷ Fw ∷ []) ∷ has second other to_read [] ∷ wants second to_read ∷ []) (record in_sync { file = Stable Mix }) (record in_sync { file = Stable Mix }) []) ≡ Settled }
    ensures end_before_beginning { first_move (files (has first other (Fr ∷ Fw ∷ []) (P ∷ Fr ∷ Fw ∷ []) ∷ has first file [] (P ∷ []) ∷ has second other to_read [] ∷ wants second (Ls ∷ Lx ∷ []) ∷ []) (record in_sync { file = Stable Mix }) (record in_sync { file = Gather (Excl first) Mix }) []) ≡ End other F }
    ensures then_the_beginning { first_move (files (has first other (Fr ∷ Fw ∷ []) (P ∷ Fr ∷ Fw ∷ []) ∷ has first file [] (P ∷ []) ∷ has second other to_read [] ∷ wants second (Ls ∷ Lx ∷ []) ∷ []) (record in_sync { file = Stable Mix }) (record in_sync { file = Stable Mix }) []) ≡ Begin file L (Excl second) }
{}

/// SYNC serves who reads. Shared writing does not, and so it is left until all are served.
pub fn requests_are_served()
    ensures in_sync_at_once { first_move (files ([]) in_sync in_sync (asks 1 third file F ∷ [])) ≡ Serve (record { 0 = 1 }) }
    ensures out_of_mix { first_move (files (wants first to_write ∷ wants second to_read ∷ []) (record in_sync { file = Stable Mix }) in_sync (asks 3 second file F ∷ [])) ≡ Begin file F Sync }
    ensures to_sync { first_move (files (wants first to_write ∷ wants second to_read ∷ []) (record in_sync { file = Gather Mix Sync }) in_sync (asks 3 second file F ∷ [])) ≡ End file F }
    ensures in_sync { first_move (files (wants first to_write ∷ wants second to_read ∷ []) in_sync in_sync (asks 3 second file F ∷ [])) ≡ Serve (record { 0 = 3 }) }
    ensures back_to_mix { first_move (files (wants first to_write ∷ wants second to_read ∷ []) in_sync in_sync []) ≡ Begin file F Mix }
    ensures oldest_first { first_move (files ([]) in_sync in_sync (asks 2 second file F ∷ asks 4 second other A ∷ [])) ≡ Serve (record { 0 = 2 }) }
{}

/// A request waits behind all others under the next number, and a client's requests are dropped together or the oldest first, and nobody else's.
pub fn who_waits()
    ensures first_number { with_request (waiting [] 0) third file (Get F) ≡ waiting (asks 1 third file F ∷ []) 1 }
    ensures next_number { with_request (waiting (asks 2 first file F ∷ asks 3 second file F ∷ []) 3) first other (Get F) ≡ waiting (asks 2 first file F ∷ asks 3 second file F ∷ asks 4 first other F ∷ []) 4 }
    ensures all_of_a_client { without_requests_of (waiting (asks 2 first file F ∷ asks 3 second file F ∷ asks 4 first other F ∷ []) 4) first ≡ waiting (asks 3 second file F ∷ []) 4 }
    ensures nobody { oldest_of (waiting [] 0) first ≡ None }
    ensures another { oldest_of (waiting (asks 1 first file F ∷ asks 2 second file F ∷ asks 3 first other A ∷ asks 4 second other A ∷ asks 5 first file F ∷ []) 5) third ≡ None }
    ensures oldest { oldest_of (waiting (asks 1 first file F ∷ asks 2 second file F ∷ asks 3 first other A ∷ asks 4 second other A ∷ asks 5 first file F ∷ []) 5) first ≡ Some (record { 0 = 1 }) }
    ensures oldest_is_dropped { without_request (waiting (asks 1 first file F ∷ asks 2 second file F ∷ asks 3 first other A ∷ asks 4 second other A ∷ asks 5 first file F ∷ []) 5) 1
        ≡ waiting (asks 2 second file F ∷ asks 3 first other A ∷ asks 4 second other A ∷ asks 5 first file F ∷ []) 5 }
    ensures next_is_dropped { oldest_of (waiting (asks 2 second file F ∷ asks 3 first other A ∷ asks 4 second other A ∷ asks 5 first file F ∷ []) 5) first ≡ Some (record { 0 = 3 }) }
    ensures last_is_dropped { oldest_of (waiting (asks 2 second file F ∷ asks 4 second other A ∷ asks 5 first file F ∷ []) 5) first ≡ Some (record { 0 = 5 }) }
    ensures none_is_left { oldest_of (waiting (asks 2 second file F ∷ asks 4 second other A ∷ []) 5) first ≡ None }
    ensures who_was_served { oldest_of (waiting (asks 4 second other A ∷ []) 5) second ≡ Some (record { 0 = 4 }) }
{}

/// No more than 1,024 requests wait; one that is dropped makes room, and the next number is given all the same.
pub fn no_more_wait()
    ensures room_for_one { first_failing (queue_tests (waiting (many 1023) 1023)) ≡ None }
    ensures full { first_failing (queue_tests (waiting (many 1024) 1024)) ≡ Some Limit }
    ensures all_are_dropped { without_requests_of (waiting (many 1024) 1024) third ≡ waiting [] 1024 }
    ensures another_drops_its_own { without_requests_of (waiting (many 1024) 1024) first ≡ waiting (many 1024) 1024 }
    ensures next { with_request (waiting [] 1024) first file (Get A) ≡ waiting (asks 1025 first file A ∷ []) 1025 }
{}

/// An inode has locks from its making, each in SYNC, to its end.
pub fn locks_of_inodes()
    ensures no_inode { lock_at no_locks 1 F ≡ None }
    ensures auth { lock_at (with_ino no_locks 2) 2 A ≡ Some (Stable Sync) }
    ensures link { lock_at (with_ino no_locks 2) 2 L ≡ Some (Stable Sync) }
    ensures xattr { lock_at (with_ino no_locks 2) 2 X ≡ Some (Stable Sync) }
    ensures file_data { lock_at (with_ino no_locks 2) 2 F ≡ Some (Stable Sync) }
    ensures last_of_all { lock_at (with_ino (with_ino no_locks 2) 18446744073709551615) 18446744073709551615 F ≡ Some (Stable Sync) }
    ensures last_is_forgotten { lock_at (without_ino (with_ino (with_ino no_locks 2) 18446744073709551615) 18446744073709551615) 18446744073709551615 F ≡ None }
    ensures forgotten_in_vain { lock_at (without_ino (with_ino (with_ino no_locks 2) 3) 1) 3 X ≡ Some (Stable Sync) }
    ensures forgotten { lock_at (without_ino (with_ino (with_ino no_locks 2) 3) 2) 2 F ≡ None }
    ensures another_is_left { lock_at (without_ino (with_ino (with_ino no_locks 2) 3) 2) 3 F ≡ Some (Stable Sync) }
    ensures made_again { lock_at (with_ino (without_ino (without_ino (with_ino (with_ino no_locks 2) 3) 2) 2) 2) 2 A ≡ Some (Stable Sync) }
{}

/// What somebody wants counts as far as it is permitted, and by whom it is wanted alone.
pub fn wants_as_permitted()
    ensures nobody { text_of (wanted (with_data [] (Stable Sync)) 2) ≡ codes "-" }
    ensures pin { text_of (wanted (with_data (wants first [] ∷ []) (Stable Sync)) 2) ≡ codes "p" }
    ensures pin_is_nobodys { loner (with_data (wants first [] ∷ []) (Stable Sync)) 2 ≡ None }
    ensures one_alone { loner (with_data (wants first (Fr ∷ []) ∷ []) (Stable Sync)) 2 ≡ Some (first, caps_in (P ∷ Fr ∷ [])) }
    ensures two { text_of (wanted (with_data (wants first (Fr ∷ []) ∷ wants second (As ∷ []) ∷ []) (Stable Sync)) 2) ≡ codes "pAsFr" }
    ensures neither_is_alone { loner (with_data (wants first (Fr ∷ []) ∷ wants second (As ∷ []) ∷ []) (Stable Sync)) 2 ≡ None }
    ensures alone_beside_a_pin { loner (with_data (wants first [] ∷ wants second (As ∷ []) ∷ []) (Stable Sync)) 2 ≡ Some (second, caps_in (P ∷ As ∷ [])) }
    ensures none_may_extend { loner (with_data (wants first [] ∷ wants second (Fr ∷ Fa ∷ []) ∷ []) (Stable Sync)) 2 ≡ Some (second, caps_in (P ∷ Fr ∷ [])) }
    ensures to_extend_is_no_more { text_of (wanted (with_data (wants first [] ∷ wants second (Fa ∷ []) ∷ []) (Stable Sync)) 2) ≡ codes "p" }
    ensures a_reader_may_not_write { loner (with_data (wants first [] ∷ wants second (Fa ∷ []) ∷ wants third to_write ∷ []) (Stable Sync)) 2 ≡ Some (third, caps_in (P ∷ to_read)) }
    ensures stale_and_another_inode { loner (with_data (wants third to_write ∷ wants fourth to_write ∷ has first other to_write [] ∷ []) (Stable Sync)) 2
        ≡ Some (third, caps_in (P ∷ to_read)) }
{}

/// A lock that begins is in a gather from where it was, and one that ends where the gather was to end; whoever is served waits no more.
pub fn what_moves_do()
    ensures begins { (state : StableState) (to : StableState) → lock_at (moved (with_data [] (Stable state)).locks (Begin file F to)) 2 F ≡ Some (Gather state to) }
    ensures ends { (state : StableState) (to : StableState) → lock_at (moved (with_data [] (Gather state to)).locks (End file F)) 2 F ≡ Some (Stable to) }
    ensures serves { moved (waiting (asks 2 first file F ∷ asks 3 second file F ∷ []) 3) (Serve (record { 0 = 2 })) ≡ waiting (asks 3 second file F ∷ []) 3 }
{}
