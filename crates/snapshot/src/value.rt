//! What is published, and what brings it up to date.
ghost use Rattle.std.specs.Prelude.{◌≡◌, [], ◌∷◌, IfOk};

use crate::beginning::{Counted, Rows};
use crate::place::Origin;
use capspec::FsName;
use inotree::Tree;
use left_right::Absorb;
use policy_view::{View, ViewChange};
use sessiontab::Sessions;
use std::alloc::AllocError;

/// What readers see: a beginning of the history, the view to which it leads, and of which server it is.
pub struct Published {
    /// The beginning of the history.
    pub rows: Counted,
    pub view: View,
    /// Of which server it is, which never changes.
    pub origin: Origin,
}

// Not derived: so the proof of a function that drops one has a single call there.
impl Drop for Published {
    fn drop(self) {
        let Published {
            rows: _,
            view: _,
            origin: _,
        } = self;
    }
}

impl Published {
    // What a server publishes first that opens with these, and has this book.
    pub(crate) fn first(
        rows: &Rows,
        fs: &FsName,
        tree: &Tree,
        sessions: &Sessions,
    ) -> Result<Published, AllocError>
        requires { rows.now.log ≡ [] }
        ensures rows { IfOk result (λ first. first.rows.seen ≡ rows.now) }
        ensures view { IfOk result (λ first. first.view ≡ record { tree = tree.now; sessions = sessions.now.sessions }) }
        ensures fs { IfOk result (λ first. first.origin.fs.log ≡ fs.now ∷ []) }
        ensures tree { IfOk result (λ first. first.origin.tree.log ≡ tree.now ∷ []) }
        ensures book { IfOk result (λ first. first.origin.rows ≡ rows.now) }
    {
        let view = View::of(tree, sessions)?;
        let rows = Counted {
            seen: rows.again(),
            count: 0,
        };
        let origin = Origin::of(fs, tree, &rows.seen);
        Ok(Published { rows, view, origin })
    }

    // A copy of the value.
    pub(crate) fn copy(&self) -> Result<Published, AllocError>
        ensures { IfOk result (λ copy. copy ≡ self.now) }
    {
        let view = self.view.copy()?;
        let rows = self.rows.again();
        let origin = self.origin.again();
        Ok(Published { rows, view, origin })
    }
}

/// What brings a published value up to date, one step at a time: each is made as a whole or not at all.
pub enum Stage {
    /// There are more rows.
    Rows(Counted),
    /// The view follows by one change. It is boxed, as a view is, since each event stages rows: what most stages are stays small.
    Change(Box<ViewChange>),
    /// The view is this one, whatever it was.
    Whole(Box<View>),
}

// Not derived: so the proof of a function that drops one has a single call there.
impl Drop for Stage {
    fn drop(self) {
        match self {
            Stage::Rows(_) => {}
            Stage::Change(_) => {}
            Stage::Whole(_) => {}
        }
    }
}

impl Absorb<Stage> for Published {
    ghost use Rattle.snapshot.specs.Value.{staged};

    type State = Published;

    ghost state = { λ value. value };

    ghost applied = { staged };

    fn absorb_first(&mut self, stage: &Stage, _other: &Published) -> Result<(), AllocError> {
        match stage {
            Stage::Rows(rows) => {
                self.rows = rows.again();
                Ok(())
            }
            Stage::Change(change) => self.view.follow(change),
            Stage::Whole(view) => {
                self.view = view.copy()?;
                Ok(())
            }
        }
    }
}
