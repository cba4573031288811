//! A question on policy, answered by a view.
ghost use Rattle.std.specs.Prelude.{◌≡◌, Some};
ghost use Rattle.std.specs.FinMap as map;
ghost use Rattle.policy_view.specs.declared.view.View.{View};
ghost use Rattle.policy_view.specs.Visible.{Shows};
ghost use Rattle.inotree.specs.declared.node.Presence.TheVariants.{Here};
ghost use Rattle.inotree.specs.Tree.{presence};
ghost use Rattle.policy_view.specs.Answers.{IsAnswer, IsJudged};

use crate::view::View;
use capbits::{ClientId, Ino};
use capgrant::{Access, Verdict, verdict};
use capspec::FsName;
use inotree::Presence;
use sessiontab::Session;
use thiserror::Error;

/// May a client make this access to an inode?
#[derive(Clone, Copy)]
pub struct Question {
    pub client: ClientId,
    pub ino: Ino,
    pub access: Access,
}

/// Why a question has no verdict. Each prints as its name.
#[derive(Clone, Copy, Debug, Error)]
pub enum Unknown {
    /// The client is not connected.
    #[error("NoSession")]
    NoSession,
    /// There is no such inode.
    #[error("NoIno")]
    NoIno,
    /// The inode is a stray, which has no path.
    #[error("Gone")]
    Gone,
    /// No view could be read. A view never answers this.
    #[error("NoView")]
    NoView,
}

impl View {
    /// The verdict of the client's grants on the access, by where the inode stands and whose it is. It is the answer of every
    /// view that this one shows, too.
    pub fn explain(&self, fs: &FsName, question: &Question) -> Result<Verdict, Unknown>
        ensures { (real : View) → Shows self.now real → IsAnswer fs.now real question.now result }
    {
        self.answer(fs, question)
    }

    // The answer of this view.
    fn answer(&self, fs: &FsName, question: &Question) -> Result<Verdict, Unknown>
        ensures { IsAnswer fs.now self.now question.now result }
    {
        let Some(session) = self.sessions.get(question.client) else {
            return Err(Unknown::NoSession);
        };
        match self.tree.presence(question.ino) {
            Presence::NoIno => Err(Unknown::NoIno),
            Presence::Gone => Err(Unknown::Gone),
            Presence::Here => Ok(self.judged(fs, session, question)),
        }
    }

    // The verdict on an inode that has a path, by the grants of a session.
    fn judged(&self, fs: &FsName, session: &Session, question: &Question) -> Verdict
        requires here { presence self.now.tree.nodes question.now.ino.0 ≡ Here }
        requires session { map.get self.now.sessions question.now.client.0 ≡ Some session.now }
        ensures { IsJudged fs.now self.now question.now result }
    {
        let Some(path) = self.tree.path_of(question.ino) else {
            unreachable!()
        };
        let Some(node) = self.tree.node(question.ino) else {
            unreachable!()
        };
        verdict(
            session.grants.grants(),
            fs,
            &session.caller,
            path.as_slice(),
            &node.attr,
            question.access,
        )
    }
}
