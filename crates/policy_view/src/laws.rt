//! Laws of views. No program needs to call them.

ghost use Rattle.std.specs.Prelude.{◌≡◌, ℕ, List, [], ◌∷◌, ◌++◌, Some, Result};
ghost use Rattle.capgrant.specs.declared.access.Attr.{Attr};
ghost use Rattle.capgrant.specs.declared.answer.Verdict.{Verdict};
ghost use Rattle.inotree.specs.declared.node.Node.{Node};
ghost use Rattle.inotree.specs.Alike.{attr_of};
ghost use Rattle.inotree.specs.Inodes.{with_attr};
ghost use Rattle.inotree.specs.Calls.{changed};
ghost use Rattle.inotree.specs.Tree.{Nodes, path_of, presence};
ghost use Rattle.sessiontab.specs.declared.session.Session.{Session};
ghost use Rattle.sessiontab.specs.Connected.{SessionMap, change_session};
ghost use Rattle.policy_view.specs.declared.answer.Question.{Question};
ghost use Rattle.policy_view.specs.declared.answer.Unknown.{Unknown};
ghost use Rattle.policy_view.specs.declared.change.ViewChange.{ViewChange};
ghost use Rattle.policy_view.specs.declared.view.View.{View};
ghost use Rattle.policy_view.specs.Answers.{IsAnswer};
ghost use Rattle.policy_view.specs.Changes.{AreChanges, view_by};
ghost use Rattle.policy_view.specs.Visible.{AreSameClients, IsLike, Shows, connected_client_of, visible_of};

/// Views that show the same do so after a change of both. Each shows itself, and what is shown by one that another shows is
/// shown by that other one.
pub fn views_alike_stay_alike()
    ensures stay { (copied real : View) (change : ViewChange) → Shows copied real → Shows (view_by copied change) (view_by real change) }
    ensures itself { (view : View) → Shows view view }
    ensures through { (copied middle real : View) → Shows copied middle → Shows middle real → Shows copied real }
{}

/// In views that show the same, each inode has the same path, the same presence, and the same owner, group and mode; and a
/// question has the same answer.
pub fn views_alike_answer_alike()
    ensures paths { (copied real : Nodes) (ino : ℕ) → IsLike copied real → path_of copied.nodes ino ≡ path_of real.nodes ino }
    ensures presences { (copied real : Nodes) (ino : ℕ) → IsLike copied real → presence copied.nodes ino ≡ presence real.nodes ino }
    ensures attrs { (copied real : Nodes) (ino : ℕ) → IsLike copied real → attr_of copied.nodes ino ≡ attr_of real.nodes ino }
    ensures answers { (fs : List ℕ) (copied real : View) (asked : Question) (answer : Result Verdict Unknown) → Shows copied real
        → IsAnswer fs copied asked answer → IsAnswer fs real asked answer }
{}

/// No changes lead from a view to itself; one more leads on to the view after it; and they lead to all that shows the same.
pub fn changes_are_followed_one_after_another()
    ensures none { (view : View) → AreChanges [] view view }
    ensures more { (changes : List ViewChange) (old new : View) (change : ViewChange) → AreChanges changes old new
        → AreChanges (changes ++ change ∷ []) old (view_by new change) }
    ensures alike { (changes : List ViewChange) (old new other : View) → AreChanges changes old new → Shows new other
        → AreChanges changes old other }
{}

/// A change of an inode or of a session of which readers see nothing leaves the view one that shows the same. And whatever
/// sets the owner, the group or the mode of an inode is told by what they are then.
pub fn what_no_reader_sees_keeps_views_alike()
    ensures inodes { (tree : Nodes) (f : Node → Node) (ino : ℕ) → ((node : Node) → visible_of (f node) ≡ visible_of node)
        → IsLike tree (changed f tree ino) }
    ensures sessions { (sessions : SessionMap) (f : Session → Session) (client : ℕ)
        → ((session : Session) → connected_client_of (f session) ≡ connected_client_of session) → AreSameClients sessions (change_session f sessions client) }
    ensures settled { (tree : Nodes) (f : Node → Node) (ino : ℕ) (attr : Attr)
        → ((node : Node) → (f node).kind ≡ node.kind) → ((node : Node) → (f node).site ≡ node.site)
        → attr_of (changed f tree ino).nodes ino ≡ Some attr → IsLike (changed (with_attr attr) tree ino) (changed f tree ino) }
{}
