//! Cases of views: what they answer behind what they are told, and what readers are told of each change.
#![tactic(auto)]

ghost use Rattle.std.specs.Prelude.{◌≡◌, [], ◌∷◌, codes, true, false, Ok, Err};
ghost use Rattle.capspec.specs.declared.flags.Flags4.TheVariants.{R, Rws};
ghost use Rattle.capgrant.specs.declared.access.Access.TheVariants.{Chmod, Read, Snapshot, Write};
ghost use Rattle.capgrant.specs.declared.access.Attr.{Attr};
ghost use Rattle.capgrant.specs.declared.answer.Verdict.TheVariants.{Allowed, Denied};
ghost use Rattle.capgrant.specs.declared.rule.Rule.TheVariants as rule;
ghost use Rattle.inotree.specs.Calls.{changed, forgotten, moved, unlinked, with_new};
ghost use Rattle.inotree.specs.Inodes.{with_attribute, with_setting, with_snapshot, without_snapshot};
ghost use Rattle.inotree.specs.Tree.{Nodes};
ghost use Rattle.inotree.specs.declared.node.Kind.TheVariants.{Directory, File};
ghost use Rattle.inotree.specs.declared.node.Setting.TheVariants.{Mode, Size, Time};
ghost use Rattle.sessiontab.specs.Calls.{with_evicted, with_grants, with_session, with_status, without_blocked, without_session};
ghost use Rattle.sessiontab.specs.Table.{SessionTable};
ghost use Rattle.sessiontab.specs.declared.session.Status.TheVariants.{Open, Stale};
ghost use Rattle.policy_view.specs.Answers.{IsAnswer};
ghost use Rattle.policy_view.specs.Changes.{AreChanges};
ghost use Rattle.policy_view.specs.declared.answer.Question.{Question};
ghost use Rattle.policy_view.specs.declared.answer.Unknown.TheVariants as unknown;
ghost use Rattle.policy_view.specs.declared.view.View.{View};
ghost use Rattle.capstep.specs.NotedChanges.{view};
ghost use Rattle.tests_core.specs.Trees.{root_alone, with_file};
ghost use Rattle.tests_core.specs.Verdicts.{allow, caller, owned};
ghost use Rattle.tests_core.specs.Views.{all_moved, answer, asks, by_mode_bits, client_gone, client_reads, file_forgotten, file_moved, file_removed};
ghost use Rattle.tests_core.specs.Views.{first_keeps_snapshots, first_reads, is_ended, is_forgotten, is_made, is_moved, is_opened, is_regranted, is_removed};
ghost use Rattle.tests_core.specs.Views.{is_settled, two_directories, without_snapshot_kept};

/// What a view answers.
pub fn answers_of_views()
    ensures { (view : View) (asked : Question) → IsAnswer (codes "cephfs") view asked (answer view asked) }
{}

/// An inode is judged where it stands, also where a directory above it was moved.
pub fn judged_where_it_stands()
    ensures in_its_path { answer two_directories (asks 3 4 Read) ≡ Ok (Allowed 1) }
    ensures out_of_it { answer two_directories (asks 3 3 Read) ≡ Ok (Denied (rule.Path ∷ [])) }
    ensures anywhere { answer two_directories (asks 1 3 Write) ≡ Ok (Allowed 1) }
    ensures no_inode { answer two_directories (asks 3 9 Read) ≡ Err unknown.NoIno }
    ensures no_session { answer two_directories (asks 9 4 Read) ≡ Err unknown.NoSession }
    ensures neither { answer two_directories (asks 9 9 Read) ≡ Err unknown.NoSession }
    ensures moved_out { answer file_moved (asks 3 4 Read) ≡ Ok (Denied (rule.Path ∷ [])) }
    ensures moved_anywhere { answer file_moved (asks 1 4 Read) ≡ Ok (Allowed 1) }
    ensures moved_in_with_its_directory { answer all_moved (asks 3 4 Read) ≡ Ok (Allowed 1) }
{}

/// What is gone has no verdict, be it the inode or the client.
pub fn gone_without_a_verdict()
    ensures stray { answer file_removed (asks 1 2 Read) ≡ Err unknown.Gone }
    ensures stray_and_no_session { answer file_removed (asks 9 2 Read) ≡ Err unknown.NoSession }
    ensures gone { answer file_forgotten (asks 1 2 Read) ≡ Err unknown.NoIno }
    ensures client { answer client_gone (asks 1 3 Read) ≡ Err unknown.NoSession }
    ensures client_again { answer client_reads (asks 1 3 Write) ≡ Ok (Denied (rule.NoWrite ∷ [])) }
    ensures directory_with_a_snapshot { answer without_snapshot_kept (asks 1 2 Read) ≡ Err unknown.NoIno }
    ensures another_directory { answer without_snapshot_kept (asks 1 3 Read) ≡ Ok (Allowed 1) }
{}

/// An inode is judged by whose it is, and a client by its last grants.
pub fn judged_by_the_last_of_each()
    ensures owner_writes { answer (by_mode_bits (owned 10 10 0o640)) (asks 1 2 Write) ≡ Ok (Allowed 1) }
    ensures owner_sets_the_mode { answer (by_mode_bits (owned 10 10 0o640)) (asks 1 2 Chmod) ≡ Ok (Allowed 1) }
    ensures owner_may_not_write { answer (by_mode_bits (owned 10 10 0o400)) (asks 1 2 Write) ≡ Ok (Denied (rule.ModeBits ∷ [])) }
    ensures owner_may_read { answer (by_mode_bits (owned 10 10 0o400)) (asks 1 2 Read) ≡ Ok (Allowed 1) }
    ensures another_writes { answer (by_mode_bits (owned 11 10 0o666)) (asks 1 2 Write) ≡ Ok (Allowed 1) }
    ensures another_may_not_set_the_mode { answer (by_mode_bits (owned 11 10 0o666)) (asks 1 2 Chmod) ≡ Ok (Denied (rule.NotOwner ∷ [])) }
    ensures reads_now { answer first_reads (asks 1 1 Write) ≡ Ok (Denied (rule.NoWrite ∷ [])) }
    ensures as_before { answer first_reads (asks 2 1 Write) ≡ Ok (Allowed 1) }
    ensures not_connected { answer first_reads (asks 9 1 Read) ≡ Err unknown.NoSession }
    ensures granted_again { answer first_keeps_snapshots (asks 1 1 Snapshot) ≡ Ok (Allowed 1) }
{}

/// What readers are told of an inode that is made, moved, unlinked, forgotten or settled. Of sizes, times, attributes and snapshots
/// they are told nothing.
pub fn changes_of_inodes()
    ensures file { (attr : Attr) (table : SessionTable) → AreChanges (is_made 2 1 (codes "f") attr false ∷ []) (view root_alone table.sessions)
        (view (with_new root_alone File 1 (codes "f") attr) table.sessions) }
    ensures directory { (attr : Attr) (table : SessionTable) → AreChanges (is_made 2 1 (codes "a") attr true ∷ []) (view root_alone table.sessions)
        (view (with_new root_alone Directory 1 (codes "a") attr) table.sessions) }
    ensures another_place { (tree : Nodes) (table : SessionTable) → AreChanges (is_moved 3 4 (codes "c") ∷ []) (view tree table.sessions)
        (view (moved tree 3 4 (codes "c")) table.sessions) }
    ensures stray { (tree : Nodes) (table : SessionTable) → AreChanges (is_removed 2 ∷ []) (view tree table.sessions) (view (unlinked tree 2) table.sessions) }
    ensures gone { (tree : Nodes) (table : SessionTable) → AreChanges (is_forgotten 2 ∷ []) (view tree table.sessions) (view (forgotten tree 2) table.sessions) }
    ensures removed { (tree : Nodes) (table : SessionTable) → AreChanges (is_removed 3 ∷ is_forgotten 3 ∷ []) (view tree table.sessions)
        (view (forgotten (unlinked tree 3) 3) table.sessions) }
    ensures mode { (table : SessionTable) → AreChanges (is_settled 2 (owned 1 1 0o600) ∷ []) (view (with_file root_alone 1 (codes "g")) table.sessions)
        (view (changed (with_setting (Mode 0o600)) (with_file root_alone 1 (codes "g")) 2) table.sessions) }
    ensures size { (tree : Nodes) (table : SessionTable) → AreChanges [] (view tree table.sessions) (view (changed (with_setting (Size 7)) tree 5) table.sessions) }
    ensures time { (tree : Nodes) (table : SessionTable) → AreChanges [] (view tree table.sessions) (view (changed (with_setting (Time 9)) tree 5) table.sessions) }
    ensures attribute { (tree : Nodes) (table : SessionTable) → AreChanges [] (view tree table.sessions)
        (view (changed (with_attribute (codes "user.a") (codes "10")) tree 5) table.sessions) }
    ensures new_snapshot { (tree : Nodes) (table : SessionTable) → AreChanges [] (view tree table.sessions) (view (changed (with_snapshot (codes "s")) tree 3) table.sessions) }
    ensures snapshot_goes { (tree : Nodes) (table : SessionTable) → AreChanges [] (view tree table.sessions)
        (view (changed (without_snapshot (codes "s")) tree 3) table.sessions) }
{}

/// What readers are told of a client that comes, has other grants, or goes, and takes its strays along. Of whether it is stale or
/// blocked they are told nothing.
pub fn changes_of_clients()
    ensures comes { (tree : Nodes) (table : SessionTable) → AreChanges (is_opened 1 10 (allow Rws ∷ []) ∷ []) (view tree table.sessions)
        (view tree (with_session table 1 (caller 10 10) (allow Rws ∷ [])).sessions) }
    ensures other_grants { (tree : Nodes) (table : SessionTable) → AreChanges (is_regranted 2 (allow R ∷ []) ∷ []) (view tree table.sessions)
        (view tree (with_grants table 2 (allow R ∷ [])).sessions) }
    ensures no_grants { (tree : Nodes) (table : SessionTable) → AreChanges (is_regranted 2 [] ∷ []) (view tree table.sessions)
        (view tree (with_grants table 2 []).sessions) }
    ensures closes { (tree : Nodes) (table : SessionTable) → AreChanges (is_ended 2 ∷ []) (view tree table.sessions) (view tree (without_session table 2).sessions) }
    ensures is_evicted { (tree : Nodes) (table : SessionTable) → AreChanges (is_ended 2 ∷ []) (view tree table.sessions) (view tree (with_evicted table 2).sessions) }
    ensures with_its_strays { (tree : Nodes) (table : SessionTable) → AreChanges (is_ended 1 ∷ is_forgotten 2 ∷ is_forgotten 3 ∷ is_forgotten 4 ∷ is_forgotten 6 ∷ [])
        (view tree table.sessions) (view (forgotten (forgotten (forgotten (forgotten tree 2) 3) 4) 6) (without_session table 1).sessions) }
    ensures stale { (tree : Nodes) (table : SessionTable) → AreChanges [] (view tree table.sessions) (view tree (with_status table 2 Stale).sessions) }
    ensures renewed { (tree : Nodes) (table : SessionTable) → AreChanges [] (view tree table.sessions) (view tree (with_status table 2 Open).sessions) }
    ensures unblocked { (tree : Nodes) (table : SessionTable) → AreChanges [] (view tree table.sessions) (view tree (without_blocked table 2).sessions) }
{}
