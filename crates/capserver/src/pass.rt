//! A caller's pass.
ghost use Rattle.std.specs.Prelude.{◌≡◌, ◌≢◌, ◌<◌, ◌+◌, Err, length, IsTrue};
ghost use mathlib.Core.List.{IsPrefix};
ghost use Rattle.policy_view.specs.declared.answer.Unknown.TheVariants as unknown;
ghost use Rattle.capserver.specs.Answers.{IsAnswered};
ghost use Rattle.snapshot.specs.Rows.{Legal};
ghost use Rattle.capserver.specs.Passes.{pass_state};

use crate::reader::Reader;
use capbits::PassId;
use capgrant::Verdict;
use capspec::FsName;
use policy_view::{Question, Unknown};
use snapshot::{Beginning, Recorder, Server};
use std::marker::Model;
use std::sync::ledger::{Book, Share};

/// Lets its holder call the server. To contracts it is its number, how many of its calls were answered, and the rows that it knows.
pub struct Pass<L: Server> {
    number: PassId,
    // One part of the ledger, with the number of the answered calls as its amount.
    share: Share<L>,
    // The pass's reader of what is published.
    reader: Reader<L>,
}

// Not derived: so the proof of a function that drops one has a single call there.
impl<L: Server> Drop for Pass<L> {
    fn drop(self) {
        let Pass {
            number: _,
            share: _,
            reader: _,
        } = self;
    }
}

impl<L: Server> Model for Pass<L> {
    ghost use Rattle.std.specs.Prelude.{◌≡◌};
    ghost use Rattle.capserver.specs.Passes.{PassState, pass_state, pass_state_code};

    ghost Value = { PassState };

    ghost coded = { pass_state_code };

    ghost view = { λ p. pass_state p.number.0 p.share.amount p.reader };

    ghost invariant = { λ p. p.share.parts ≡ 1 };
}

impl<L: Server> Pass<L> {
    /// A pass over one part of the ledger.
    pub fn new(number: PassId, share: Share<L>, reader: Reader<L>) -> Pass<L>
        requires { share.parts ≡ 1 }
        ensures { result ≡ pass_state number.0 share.amount reader }
    {
        Pass {
            number,
            share,
            reader,
        }
    }

    /// Its number.
    pub fn number(&self) -> PassId
        ensures { result.0 ≡ self.now.number }
    {
        self.number
    }

    /// Counts one answered call, in the pass and in the book.
    pub fn count(&mut self, calls: &mut Book<L>)
        ensures pass { self.new ≡ record self.old { calls = self.old.calls + 1 } }
        ensures book { calls.new.total ≡ calls.old.total + 1 }
    {
        calls.add(&mut self.share, 1);
    }

    /// Answers a question by what is published, and knows it from then on.
    pub fn explain(&mut self, fs: &FsName, question: &Question) -> Result<Verdict, Unknown>
        requires { fs.now ≡ L.opening.scene.fs }
        ensures same { self.new ≡ record self.old { known = self.new.known } }
        ensures known { IsPrefix self.old.known self.new.known }
        ensures legal { Legal L.opening self.new.known }
        ensures answer { result ≢ Err unknown.NoView → IsAnswered L.opening self.new.known question.now result }
        ensures no_view { result ≡ Err unknown.NoView → self.new ≡ self.old }
    {
        self.reader.explain(fs, question)
    }

    /// Knows what is published from then on.
    pub fn look(&mut self)
        ensures same { self.new ≡ record self.old { known = self.new.known } }
        ensures known { IsPrefix self.old.known self.new.known }
        ensures legal { Legal L.opening self.new.known }
    {
        self.reader.look();
    }

    /// Knows what is published from then on, and says whether that is more than it knew, and just these rows.
    pub fn catch_up(&mut self, rows: &Beginning<L>) -> bool
        ensures same { self.new ≡ record self.old { known = self.new.known } }
        ensures known { IsPrefix self.old.known self.new.known }
        ensures legal { Legal L.opening self.new.known }
        ensures all { IsTrue result → (self.new.known ≡ rows.now) × (length self.old.known < length self.new.known) }
    {
        self.reader.catch_up(rows)
    }

    /// What the pass knows begins the rows of the recorder.
    pub fn check_against(&self, recorder: &mut Recorder<L>)
        ensures begins { IsPrefix self.now.known recorder.old }
        ensures same { recorder.new ≡ recorder.old }
    {
        self.reader.check_against(recorder);
    }

    /// Ends the pass, and gives back its part of the ledger.
    pub fn into_share(self) -> Share<L>
        ensures { (result.parts ≡ 1) × (result.amount ≡ self.calls) }
    {
        let Pass {
            number: _,
            share,
            reader: _,
        } = self;
        share
    }
}
