//! Laws of requests that are served. No program needs to call them.

ghost use Rattle.std.specs.Prelude.{◌≡◌, ◌≢◌, ℕ, true, false};
ghost use Rattle.std.specs.FinMap as map;
ghost use Rattle.inotree.specs.Alike.{IsAlike};
ghost use Rattle.inotree.specs.Tree.{IsTree, is_within, presence};
ghost use Rattle.capstep.specs.declared.outcome.Outcome.{Outcome};
ghost use Rattle.capstep.specs.Changing.{tree_after};
ghost use Rattle.capstep.specs.Serving.{MayEndAs};
ghost use Rattle.lockmachine.specs.Scene.{Scene};
ghost use Rattle.lockmachine.specs.declared.request.Request.{Request};
ghost use Rattle.step_acts.specs.Served.{is_rename};

/// However a request ends that is served, every other inode than its own has the same path, owner, group and mode, unless the
/// request is to move its inode and the other lies below it; and the tree stays a tree.
pub fn a_serving_changes_what_it_moves()
    ensures others { (s : Scene) (q : Request) (o : Outcome) (ino : ℕ) → IsTree s.tree → MayEndAs s q o → ino ≢ q.ino.0
        → (is_rename q.operation ≡ true → is_within s.tree.nodes ino q.ino.0 ≡ false) → IsAlike s.tree (tree_after s.tree q o) ino }
    ensures tree { (s : Scene) (q : Request) (o : Outcome) → IsTree s.tree → MayEndAs s q o → IsTree (tree_after s.tree q o) }
{}

/// A request that is served, a rename too, makes no inode and forgets none; every other inode than its own stays in the tree,
/// or a stray; and no number is given.
pub fn a_serving_keeps_what_exists()
    ensures exist { (s : Scene) (q : Request) (o : Outcome) (ino : ℕ) → MayEndAs s q o
        → map.contains_key (tree_after s.tree q o).nodes ino ≡ map.contains_key s.tree.nodes ino }
    ensures others { (s : Scene) (q : Request) (o : Outcome) (ino : ℕ) → MayEndAs s q o → ino ≢ q.ino.0
        → presence (tree_after s.tree q o).nodes ino ≡ presence s.tree.nodes ino }
    ensures last { (s : Scene) (q : Request) (o : Outcome) → MayEndAs s q o
        → (tree_after s.tree q o).last ≡ s.tree.last }
{}
