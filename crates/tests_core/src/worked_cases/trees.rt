//! Cases of trees: where inodes stand, and what calls are refused as. Where two tests fail, the first answers.
#![tactic(auto)]

ghost use Rattle.std.specs.Prelude.{◌≡◌, [], ◌∷◌, codes, Some, None};
ghost use Rattle.capbits.specs.declared.refusal.Refusal.TheVariants as refusal;
ghost use Rattle.inotree.specs.Alike.{attr_of};
ghost use Rattle.inotree.specs.Tree.{child, follow, parent, path_of, presence};
ghost use Rattle.inotree.specs.declared.node.Presence.TheVariants.{Gone};
ghost use Rattle.inotree.specs.declared.node.Setting.TheVariants.{Size};
ghost use Rattle.tests_core.specs.Trees.{beside_a_stray, create_refusal, deep, given_away, kept_once, one_removed, remove_xattr_refusal, rename_refusal};
ghost use Rattle.tests_core.specs.Trees.{rmdir_refusal, root_alone, set_refusal, set_xattr_refusal, side_by_side, small, snap_add_refusal};
ghost use Rattle.tests_core.specs.Trees.{snap_remove_refusal, two_strays, unlink_refusal, with_directory, with_value, without_file};
ghost use Rattle.tests_core.specs.Verdicts.{owned};

/// Where a file and a stray stand; then the file is a stray too.
pub fn where_inodes_stand()
    ensures by_names { follow beside_a_stray.nodes (Some 1) (codes "d" ∷ codes "f" ∷ []) ≡ Some 3 }
    ensures in_its_directory { child beside_a_stray.nodes 2 (codes "f") ≡ Some 3 }
    ensures directory { parent beside_a_stray.nodes 3 ≡ Some 2 }
    ensures path { path_of beside_a_stray.nodes 3 ≡ Some (codes "d" ∷ codes "f" ∷ []) }
    ensures stray { presence beside_a_stray.nodes 4 ≡ Gone }
    ensures last { beside_a_stray.last ≡ 4 }
    ensures owner_group_and_mode { attr_of given_away.nodes 3 ≡ Some (owned 5 6 0o640) }
    ensures not_by_names { follow two_strays.nodes (Some 1) (codes "d" ∷ codes "f" ∷ []) ≡ None }
    ensures no_path { path_of two_strays.nodes 3 ≡ None }
    ensures next { two_strays.last ≡ 5 }
{}

/// A new inode needs a directory, and a name there that can be given and is free.
pub fn refused_makings()
    ensures first { create_refusal root_alone 1 (codes "a") ≡ None }
    ensures second { create_refusal (with_directory root_alone 1 (codes "a")) 2 (codes "b") ≡ None }
    ensures nowhere { create_refusal small 9 [] ≡ Some refusal.NoIno }
    ensures in_a_file { create_refusal small 4 (codes "..") ≡ Some refusal.NotDir }
    ensures by_dots { create_refusal small 1 (codes "..") ≡ Some refusal.NameBad }
    ensures name_is_taken { create_refusal small 1 (codes "f") ≡ Some refusal.Exists }
{}

/// The root stays, nothing is moved into what lies below it, and the name there has to be free, also of what is moved.
pub fn refused_moves()
    ensures below_itself { rename_refusal small 2 3 (codes "c") ≡ Some refusal.Loop }
    ensures below_itself_by_dots { rename_refusal small 2 3 (codes "..") ≡ Some refusal.NameBad }
    ensures root { rename_refusal small 1 2 (codes "z") ≡ Some refusal.Root }
    ensures root_nowhere { rename_refusal small 1 9 (codes "z") ≡ Some refusal.Root }
    ensures nothing_nowhere { rename_refusal small 9 9 (codes "z") ≡ Some refusal.NoIno }
    ensures into_a_file { rename_refusal small 3 4 (codes "..") ≡ Some refusal.NotDir }
    ensures to_where_it_is { rename_refusal small 3 2 (codes "b") ≡ Some refusal.Exists }
    ensures into_itself { rename_refusal small 2 2 (codes "b") ≡ Some refusal.Exists }
    ensures up { rename_refusal without_file 3 1 (codes "b") ≡ None }
{}

/// A directory is removed once nothing stands in it and it has no snapshot, and a file is unlinked.
pub fn refused_removals()
    ensures not_empty { rmdir_refusal small 2 ≡ Some refusal.NotEmpty }
    ensures root { rmdir_refusal small 1 ≡ Some refusal.Root }
    ensures file { rmdir_refusal small 4 ≡ Some refusal.NotDir }
    ensures has_a_snapshot { rmdir_refusal kept_once 3 ≡ Some refusal.NotEmpty }
    ensures empty { rmdir_refusal side_by_side 2 ≡ None }
    ensures again { rmdir_refusal one_removed 2 ≡ Some refusal.Gone }
    ensures unlinked_root { unlink_refusal small 1 ≡ Some refusal.Root }
    ensures unlinked_directory { unlink_refusal small 2 ≡ Some refusal.IsDir }
    ensures unlinked_file { unlink_refusal small 4 ≡ None }
    ensures unlinked_again { unlink_refusal without_file 4 ≡ Some refusal.Gone }
{}

/// A file alone has a size, and a directory alone snapshots.
pub fn refused_settings()
    ensures size_of_a_directory { set_refusal small 2 (Size 5) ≡ Some refusal.IsDir }
    ensures size { set_refusal small 4 (Size 5) ≡ None }
    ensures no_name { set_xattr_refusal small 4 [] ≡ Some refusal.NameBad }
    ensures attribute { set_xattr_refusal small 4 (codes "user.a") ≡ None }
    ensures another_is_removed { remove_xattr_refusal with_value 4 (codes "user.b") ≡ Some refusal.NoXattr }
    ensures is_removed { remove_xattr_refusal with_value 4 (codes "user.a") ≡ None }
    ensures snapshot_of_a_file { snap_add_refusal small 4 [] ≡ Some refusal.NotDir }
    ensures snapshot { snap_add_refusal small 3 (codes "s") ≡ None }
    ensures snapshot_twice { snap_add_refusal kept_once 3 (codes "s") ≡ Some refusal.Exists }
    ensures another_goes { snap_remove_refusal kept_once 3 (codes "t") ≡ Some refusal.NoEnt }
    ensures snapshot_goes { snap_remove_refusal kept_once 3 (codes "s") ≡ None }
{}

/// A stray is refused as gone before all else.
pub fn strays_are_gone()
    ensures made_in { create_refusal without_file 4 [] ≡ Some refusal.Gone }
    ensures moved_into { rename_refusal without_file 3 4 [] ≡ Some refusal.Gone }
    ensures size { set_refusal without_file 4 (Size 5) ≡ Some refusal.Gone }
    ensures snapshot { snap_remove_refusal without_file 4 (codes "s") ≡ Some refusal.Gone }
{}

/// A path has at most 32 names.
pub fn paths_of_32_names()
    ensures one_more { create_refusal deep 33 (codes "f") ≡ Some refusal.TooDeep }
    ensures one_more_by_dots { create_refusal deep 33 (codes "..") ≡ Some refusal.NameBad }
    ensures file_moves_down { rename_refusal deep 34 33 (codes "f") ≡ Some refusal.TooDeep }
    ensures into_itself { rename_refusal deep 33 33 (codes "f") ≡ Some refusal.Loop }
    ensures one_less { rename_refusal deep 34 32 (codes "f") ≡ None }
{}
