//! Laws of the tree. No program needs to call them.

ghost use Rattle.std.specs.Prelude.{◌≡◌, ◌≢◌, ◌↔◌, ◌+◌, ◌-◌, ◌<◌, true, false, ℕ, List, [], ◌∷◌, ◌++◌, length, None, Some};
ghost use Rattle.std.specs.FinMap as map;
ghost use Rattle.capbits.specs.Refusal.{first_failing};
ghost use Rattle.capgrant.specs.declared.access.Attr.{Attr};
ghost use Rattle.inotree.specs.declared.node.Kind.{Kind};
ghost use Rattle.inotree.specs.declared.node.Node.{Node};
ghost use Rattle.inotree.specs.declared.node.Presence.TheVariants.{Gone};
ghost use Rattle.inotree.specs.declared.node.Setting.{Setting};
ghost use Rattle.inotree.specs.Inodes.{InodeMap, with_attribute, with_setting, with_snapshot, without_attribute, without_snapshot};
ghost use Rattle.inotree.specs.Tree.{Climbs, IsChildless, IsTree, IsUnder, Nodes, child, depth, descends, is_within, path_of, presence};
ghost use Rattle.inotree.specs.Calls.{changed, forgotten, moved, unlinked, with_new};
ghost use Rattle.inotree.specs.Alike.{IsAlike};
ghost use Rattle.inotree.specs.Tests.{directory_test, empty_test, file_test, inode_tests, new_attribute_tests, rename_tests, root_test};

/// An inode lies within another exactly where some names lead from it up to the other. The depth of an inode that has a path is the
/// number of its names. An inode is what a directory has under a name exactly where it stands in that directory under that name. A
/// move of an inode into a directory is too deep exactly where the path of something at or below the inode would have more than 32
/// names: those of the directory, the new one, and those that lead up to the inode.
pub fn names_lead_up()
    ensures within { (tree : Nodes) (ino above : ℕ) → IsTree tree → (is_within tree.nodes ino above ≡ true) ↔ ((up : List (List ℕ)) × Climbs tree.nodes ino up above) }
    ensures depth { (nodes : InodeMap) (ino : ℕ) (names : List (List ℕ)) → path_of nodes ino ≡ Some names → depth nodes ino ≡ length names }
    ensures child { (tree : Nodes) (ino dir : ℕ) (name : List ℕ) → IsTree tree → (child tree.nodes dir name ≡ Some ino) ↔ IsUnder tree.nodes ino dir name }
    ensures too_deep { (nodes : InodeMap) (ino dir : ℕ) → (descends (32 - depth nodes dir) nodes ino ≡ true) ↔ ((below : ℕ) × (up : List (List ℕ)) × Climbs nodes below up ino × (32 < depth nodes dir + 1 + length up)) }
{}

/// A new inode, and a stray that is forgotten, leave the path, the owner, the group and the mode of every other. A change of an inode
/// that leaves where it stands, its owner, its group and its mode, leaves those of every inode, and each path. A snapshot that comes
/// or goes is such a change.
pub fn what_is_made_or_set_changes_no_other()
    ensures new { (tree : Nodes) (kind : Kind) (dir : ℕ) (name : List ℕ) (attr : Attr) (ino : ℕ) → IsTree tree → ino ≢ tree.last + 1
        → IsAlike tree (with_new tree kind dir name attr) ino }
    ensures forgotten { (tree : Nodes) (stray ino : ℕ) → IsTree tree → presence tree.nodes stray ≡ Gone → ino ≢ stray
        → IsAlike tree (forgotten tree stray) ino }
    ensures any { (tree : Nodes) (f : Node → Node) (at ino : ℕ)
        → ((n : Node) → (f n).site ≡ n.site) → ((n : Node) → (f n).attr ≡ n.attr)
        → IsAlike tree (changed f tree at) ino }
    ensures comes { (tree : Nodes) (name : List ℕ) (at ino : ℕ) → IsAlike tree (changed (with_snapshot name) tree at) ino }
    ensures goes { (tree : Nodes) (name : List ℕ) (at ino : ℕ) → IsAlike tree (changed (without_snapshot name) tree at) ino }
{}

/// A change of one inode makes none and takes none. Where the inode stays where it stands, so do the path and the presence of
/// every inode, and each other keeps its owner, its group and its mode. A field that is set is such a change; an attribute
/// that comes or goes leaves the owner, the group and the mode of its own inode too.
pub fn a_change_of_one_inode_changes_no_other()
    ensures exist { (tree : Nodes) (f : Node → Node) (ino other : ℕ) → map.contains_key (changed f tree ino).nodes other ≡ map.contains_key tree.nodes other }
    ensures last { (tree : Nodes) (f : Node → Node) (ino : ℕ) → (changed f tree ino).last ≡ tree.last }
    ensures alike { (tree : Nodes) (f : Node → Node) (ino other : ℕ) → ((n : Node) → (f n).site ≡ n.site) → other ≢ ino
        → IsAlike tree (changed f tree ino) other }
    ensures paths { (tree : Nodes) (f : Node → Node) (ino other : ℕ) → ((n : Node) → (f n).site ≡ n.site)
        → path_of (changed f tree ino).nodes other ≡ path_of tree.nodes other }
    ensures presences { (tree : Nodes) (f : Node → Node) (ino other : ℕ) → ((n : Node) → (f n).site ≡ n.site)
        → presence (changed f tree ino).nodes other ≡ presence tree.nodes other }
    ensures set { (tree : Nodes) (setting : Setting) (ino other : ℕ) → other ≢ ino → IsAlike tree (changed (with_setting setting) tree ino) other }
    ensures set_presences { (tree : Nodes) (setting : Setting) (ino other : ℕ) → presence (changed (with_setting setting) tree ino).nodes other ≡ presence tree.nodes other }
    ensures comes { (tree : Nodes) (name value : List ℕ) (ino other : ℕ) → IsAlike tree (changed (with_attribute name value) tree ino) other }
    ensures comes_presences { (tree : Nodes) (name value : List ℕ) (ino other : ℕ) → presence (changed (with_attribute name value) tree ino).nodes other ≡ presence tree.nodes other }
    ensures goes { (tree : Nodes) (name : List ℕ) (ino other : ℕ) → IsAlike tree (changed (without_attribute name) tree ino) other }
    ensures goes_presences { (tree : Nodes) (name : List ℕ) (ino other : ℕ) → presence (changed (without_attribute name) tree ino).nodes other ≡ presence tree.nodes other }
{}

/// An inode in which none stands, and that becomes a stray, leaves the path, the presence, the owner, the group and the mode
/// of every other. None stands in a file, nor in a directory that is empty.
pub fn an_inode_without_children_changes_no_other()
    ensures alike { (tree : Nodes) (ino other : ℕ) → IsChildless tree.nodes ino → other ≢ ino → IsAlike tree (unlinked tree ino) other }
    ensures presences { (tree : Nodes) (ino other : ℕ) → other ≢ ino → presence (unlinked tree ino).nodes other ≡ presence tree.nodes other }
    ensures file { (tree : Nodes) (ino : ℕ) → IsTree tree → first_failing (file_test tree ino ∷ []) ≡ None → IsChildless tree.nodes ino }
    ensures empty { (tree : Nodes) (ino : ℕ) → first_failing (directory_test tree ino ∷ empty_test tree ino ∷ []) ≡ None → IsChildless tree.nodes ino }
{}

/// A move leaves the path, the owner, the group and the mode of every inode that is not within the one that moves, and the
/// presence of every other. Where its tests were passed, it leaves a tree a tree.
pub fn a_move_changes_only_what_is_below()
    ensures alike { (tree : Nodes) (ino dir : ℕ) (name : List ℕ) (other : ℕ) → is_within tree.nodes other ino ≡ false
        → IsAlike tree (moved tree ino dir name) other }
    ensures presences { (tree : Nodes) (ino dir : ℕ) (name : List ℕ) (other : ℕ) → other ≢ ino
        → presence (moved tree ino dir name).nodes other ≡ presence tree.nodes other }
    ensures tree { (tree : Nodes) (ino dir : ℕ) (name : List ℕ) → IsTree tree → first_failing (rename_tests tree ino dir name) ≡ None
        → IsTree (moved tree ino dir name) }
{}

/// A change of one inode whose tests were passed leaves a tree a tree. A field that is set, and an attribute that goes, need
/// no test for it.
pub fn a_change_that_may_be_made_keeps_the_tree()
    ensures set { (tree : Nodes) (setting : Setting) (ino : ℕ) → IsTree tree → IsTree (changed (with_setting setting) tree ino) }
    ensures comes { (tree : Nodes) (name value : List ℕ) (ino : ℕ) → IsTree tree → first_failing (new_attribute_tests tree ino name value) ≡ None
        → IsTree (changed (with_attribute name value) tree ino) }
    ensures goes { (tree : Nodes) (name : List ℕ) (ino : ℕ) → IsTree tree → IsTree (changed (without_attribute name) tree ino) }
    ensures childless { (tree : Nodes) (ino : ℕ) → IsTree tree → first_failing (root_test tree ino ∷ []) ≡ None → IsChildless tree.nodes ino
        → IsTree (unlinked tree ino) }
    ensures file { (tree : Nodes) (ino : ℕ) → IsTree tree → first_failing (inode_tests tree ino ++ root_test tree ino ∷ []) ≡ None
        → first_failing (file_test tree ino ∷ []) ≡ None → IsTree (unlinked tree ino) }
    ensures empty { (tree : Nodes) (ino : ℕ) → IsTree tree → first_failing (inode_tests tree ino ++ root_test tree ino ∷ []) ≡ None
        → first_failing (directory_test tree ino ∷ empty_test tree ino ∷ []) ≡ None → IsTree (unlinked tree ino) }
{}
