//! What stands under the lock.
ghost use Rattle.std.specs.Prelude.{◌≡◌, ◌≤◌, ◌+◌, ◌↔◌, [], false, Err, Some, length, IsTrue, IfOk, IfSome, OnOk, OnErr};
ghost use mathlib.Core.List.{IsPrefix};
ghost use Rattle.capstep.specs.History.{IsLegal};
ghost use Rattle.capcore.specs.Promised.{IsPromised};
ghost use Rattle.capstep.specs.declared.stop.Stop.TheVariants as stop_kind;
ghost use Rattle.snapshot.specs.Publishing.{first_of};
ghost use Rattle.snapshot.specs.Rows.{Legal};
ghost use Rattle.capserver.specs.Fresh.{IsFresh};
ghost use Rattle.capserver.specs.Held.{IsLed};
ghost use Rattle.capserver.specs.Passes.{pass_id};

use crate::answer::Answer;
use crate::event::make;
use crate::gate::Gate;
use crate::pass::Pass;
use capcore::Core;
use capstep::stop::Stop;
use capstep::{Event, Reply};
use snapshot::{Beginning, Publisher, Recorder, Server, Tally};
use std::marker::Model;
use std::mem::replace;
use std::sync::Wait;
use std::sync::ledger::{Book, Share};

/// The core, with the book that counts the calls of all passes and who publishes. To contracts it is the core. It keeps that the
/// history leads from the server's opening state to the present one, is numbered and takes as many rows as the opening said, that the
/// book has counted as many calls as it has rows, and that what is published next is all of that history and a view of that state.
pub struct Locked<L: Server> {
    core: Core,
    calls: Book<L>,
    // The parts of the ledger that no pass has.
    rest: Share<L>,
    // How many passes there are.
    count: Tally<L>,
    // Who publishes. It is out only while it does.
    publisher: Option<Publisher<L>>,
}

impl<L: Server> Model for Locked<L> {
    ghost use Rattle.std.specs.Prelude.{◌≡◌, ◌+◌, MatchOption};
    ghost use Rattle.capstep.specs.History.{CoreValue};
    ghost use Rattle.capstep.specs.Numbers.{AreNumbered};
    ghost use Rattle.capcore.specs.Codes.{core_code};
    ghost use Rattle.capserver.specs.Held.{IsHeld, IsLed};

    ghost Value = { CoreValue };

    ghost coded = { core_code };

    ghost view = { λ s. s.core };

    ghost invariant = { λ s. (s.rest.parts + s.count ≡ L.parts) × (s.rest.amount ≡ 0) × IsLed L.opening L.max_rows s.core × AreNumbered s.core.rows × MatchOption s.publisher ⊥ (IsHeld s.core s.calls.total) };
}

impl<L: Server> Locked<L> {
    // What stands under a new lock.
    pub(crate) fn new(
        core: Core,
        calls: Book<L>,
        rest: Share<L>,
        count: Tally<L>,
        publisher: Publisher<L>,
    ) -> Locked<L>
        requires opening { core.state ≡ L.opening }
        requires rows { core.rows ≡ [] }
        requires max_rows { core.max_rows ≡ L.max_rows }
        requires room { core.max_rows ≤ 4294967295 }
        requires calls { calls.total ≡ 0 }
        requires rest { (rest.parts + count ≡ L.parts) × (rest.amount ≡ 0) }
        requires publisher { publisher ≡ first_of L.opening }
    {
        Locked {
            core,
            calls,
            rest,
            count,
            publisher: Some(publisher),
        }
    }

    /// Makes an event, called by a pass, and counts the call. What it changed is published next. It promises what the core promises of
    /// an event, by the pass's number.
    pub fn step(&mut self, pass: &mut Pass<L>, event: Event) -> Result<Reply, Stop>
        ensures promised { IfOk result (λ answer. IsPromised self.old (pass_id pass.old) event answer self.new) }
        ensures full { (result ≡ Err stop_kind.Full) ↔ (length self.old.rows ≡ self.old.max_rows) }
        ensures led { IsLed L.opening L.max_rows self.old }
        // The call is counted where it was answered. Where it wasn't, nothing has changed.
        ensures calls { OnOk result (pass.new ≡ record pass.old { calls = pass.old.calls + 1 }) }
        ensures err { OnErr result ((self.new ≡ self.old) × (pass.new ≡ pass.old)) }
    {
        let Locked {
            core,
            calls,
            rest: _,
            count: _,
            publisher,
        } = self;
        let Some(publisher) = publisher.as_mut() else {
            unreachable!()
        };
        let reply = make(core, calls, pass, event)?;
        publisher.follow(core.history(), core.last_changes());
        Ok(reply)
    }

    // Makes an event and publishes it, with a pause between. First the pass comes to know what was published before: so where it knows
    // this event too, it knows more than it did.
    pub(crate) fn answer<R: Wait, G: Gate>(
        &mut self,
        rt: &R,
        gate: &G,
        pass: &mut Pass<L>,
        event: Event,
    ) -> Result<Answer, Stop>
        ensures promised { IfOk result (λ answer. IsPromised self.old (pass_id pass.old) event answer.reply self.new) }
        ensures full { (result ≡ Err stop_kind.Full) ↔ (length self.old.rows ≡ self.old.max_rows) }
        ensures led { IsLed L.opening L.max_rows self.old }
        ensures calls { OnOk result (pass.new ≡ record pass.old { calls = pass.old.calls + 1; known = pass.new.known }) }
        ensures known { IsPrefix pass.old.known pass.new.known }
        ensures legal { OnOk result (Legal L.opening pass.new.known) }
        ensures fresh { IfOk result (λ answer. IsTrue answer.fresh → IsFresh pass.old pass.new event answer.reply) }
        ensures stop { OnErr result (pass.new ≡ pass.old) }
    {
        let reply = self.step(pass, event)?;
        pass.look();
        gate.pause(rt);
        let rows = self.publish(rt);
        Ok(Answer::of(reply, rows, pass))
    }

    // Publishes the whole history, and gives its rows. At None memory was refused, and it is published the next time.
    fn publish<R: Wait>(&mut self, rt: &R) -> Option<Beginning<L>>
        ensures same { self.new ≡ self.old }
        ensures all { IfSome result (λ rows. rows ≡ self.old.rows) }
    {
        let Some(mut publisher) = self.publisher.take() else {
            unreachable!()
        };
        publisher.mend(self.core.history(), self.core.tree(), self.core.sessions());
        let (publisher, rows) = publisher.publish(rt);
        put_back(rt, &mut self.publisher, publisher);
        rows
    }

    // Ends who publishes, and hands out the rest of what stood under the lock, with who added rows to the book. The number of passes
    // that the server has outside is the one under the lock.
    pub(crate) fn end<R: Wait>(
        self,
        rt: &R,
        passes: &Tally<L>,
    ) -> (Core, Book<L>, Share<L>, Recorder<L>)
        ensures core { result.0 ≡ self }
        ensures legal { IsLegal L.opening self.rows self.state }
        ensures max_rows { self.max_rows ≡ L.max_rows }
        ensures calls { result.1.total ≡ length self.rows }
        ensures rest { (result.2.parts + passes.now ≡ L.parts) × (result.2.amount ≡ 0) }
        ensures rows { IsPrefix result.3 self.rows }
    {
        let Locked {
            core,
            calls,
            rest,
            count,
            publisher,
        } = self;
        count.agree(passes);
        let Some(publisher) = publisher else {
            unreachable!()
        };
        let recorder = publisher.end(rt);
        (core, calls, rest, recorder)
    }
}

// Puts who publishes into its empty place. It is not `Drop`, so what stood there is ended.
fn put_back<L: Server, R: Wait>(rt: &R, place: &mut Option<Publisher<L>>, publisher: Publisher<L>)
    ensures { place.new ≡ Some publisher }
{
    match replace(place, Some(publisher)) {
        None => {}
        Some(other) => {
            other.end(rt);
        }
    }
}
