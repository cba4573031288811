//! One server for many threads.
ghost use Rattle.std.specs.Prelude.{◌≡◌, ◌≢◌, ◌≤◌, ◌<◌, ◌+◌, Err, length, IsTrue, IfOk, IfErr, OnOk, OnErr, vec_len};
ghost use Rattle.std.specs.List.{sum_by};
ghost use mathlib.Core.List.{IsPrefix};
ghost use Rattle.capstep.specs.History.{IsLegal};
ghost use Rattle.policy_view.specs.declared.answer.Unknown.TheVariants as unknown;
ghost use Rattle.capserver.specs.Answers.{IsAnswered};
ghost use Rattle.snapshot.specs.Rows.{Legal};
ghost use Rattle.capserver.specs.Called.{IsStep};
ghost use Rattle.capserver.specs.Fresh.{IsFresh};
ghost use Rattle.capserver.specs.Opened.{opened};
ghost use Rattle.capserver.specs.Passes.{AllBegin, AllNew, IsStartFault, pass_id};

use crate::answer::Answer;
use crate::gate::Gate;
use crate::locked::Locked;
use crate::opening::{Opening, Parts};
use crate::pass::Pass;
use crate::passes::{StartFault, check_all_against, make_passes, merge_all};
use capcore::Core;
use capgrant::Verdict;
use capspec::FsName;
use capstep::Event;
use capstep::stop::Stop;
use policy_view::{Question, Unknown};
use snapshot::{MAX_PASSES, Server, Tally};
use std::alloc::Global;
use std::marker::Model;
use std::sync::ledger::Blank;
use std::sync::{Mutex, MutexGuard, Wait};

/// A core that many threads call, each through a pass of its own. To contracts it is the number of its passes.
pub struct CapServer<G: Gate, L: Server> {
    locked: Mutex<Locked<L>>,
    gate: G,
    count: Tally<L>,
    // The name of the file system, which never changes: questions need no lock for it.
    fs: FsName,
}

impl<G: Gate, L: Server> Model for CapServer<G, L> {
    ghost use Rattle.std.specs.Prelude.{◌≡◌, ℕ};

    ghost Value = { ℕ };

    ghost view = { λ s. s.count };

    ghost invariant = { λ s. s.fs ≡ L.opening.scene.fs };
}

/// What a server leaves.
#[derive(Drop)]
pub struct Closed {
    /// The core, with the history of all passes.
    pub core: Core,
}

impl<G: Gate, L: Server> CapServer<G, L> {
    /// A server that begins with this opening, and its passes, numbered from 1 on. The caller picks what L stands for: the ledger of the
    /// blank, with all its 32 parts, and the opening. The opening ends also where no server starts.
    pub fn start<R: Wait>(
        rt: &R,
        alloc: Global,
        opening: Opening,
        blank: Blank,
        count: u32,
        gate: G,
    ) -> Result<(CapServer<G, L>, Vec<Pass<L>>), StartFault>
        requires opening { opening ≡ opened L.opening L.max_rows L.history L.tally }
        requires name { blank.name ≡ L.name }
        requires parts { (blank.parts ≡ L.parts) × (L.parts ≡ 32) }
        ensures passes { IfOk result (λ r. (r.0 ≡ count) × (vec_len r.1 ≡ count) × AllNew 0 r.1.items) }
        ensures count { OnOk result ((0 < count) × (count ≤ 32)) }
        ensures err { IfErr result (IsStartFault count) }
    {
        if count == 0 || count > MAX_PASSES {
            opening.end(rt);
            return Err(StartFault::BadCount);
        }
        let Parts {
            core,
            fs,
            pair,
            tally,
        } = opening.into_parts();
        let Ok(mut publisher) = pair.named::<L, R>(rt) else {
            return Err(StartFault::NoMemory);
        };
        let Some(tally) = tally.write::<L>(count) else {
            publisher.end(rt);
            return Err(StartFault::NoMemory);
        };
        let (calls, mut rest) = blank.open::<L>();
        match make_passes(alloc, &mut publisher, &mut rest, count) {
            Ok(passes) => {
                let server = CapServer {
                    count: tally.again(),
                    locked: Mutex::new(Locked::new(core, calls, rest, tally, publisher)),
                    gate,
                    fs,
                };
                Ok((server, passes))
            }
            Err(fault) => {
                publisher.end(rt);
                Err(fault)
            }
        }
    }

    /// Makes an event when its turn comes: it waits for the lock, pauses at the gate and publishes the event before it lets the lock go.
    /// What happens under the lock is `Locked::step`. Where the answer is fresh, the pass knows a row of its own for it.
    pub fn call<R: Wait>(&self, rt: &R, pass: &mut Pass<L>, event: Event) -> Result<Answer, Stop>
        ensures calls { OnOk result (pass.new ≡ record pass.old { calls = pass.old.calls + 1; known = pass.new.known }) }
        ensures known { IsPrefix pass.old.known pass.new.known }
        ensures legal { OnOk result (Legal L.opening pass.new.known) }
        ensures fresh { IfOk result (λ answer. IsTrue answer.fresh → IsFresh pass.old pass.new event answer.reply) }
        ensures stop { OnErr result (pass.new ≡ pass.old) }
        // The reply is that of a step by this pass with this event, from some state that the opening leads to. That Full comes exactly of
        // a full history is said of the one under the lock, by `Locked::answer`.
        ensures answered { IfOk result (λ answer. IsStep L.opening L.max_rows (pass_id pass.old) event answer.reply) }
    {
        let mut guard = self.locked.lock(rt);
        let answer = guard.answer(rt, &self.gate, pass, event);
        MutexGuard::unlock(guard);
        answer
    }

    /// Answers a question on policy by what is published. It takes no lock and no memory, and waits for nobody. The pass knows
    /// afterwards by which rows it was answered, its own fresh calls among them.
    pub fn explain(&self, pass: &mut Pass<L>, question: &Question) -> Result<Verdict, Unknown>
        ensures same { pass.new ≡ record pass.old { known = pass.new.known } }
        ensures known { IsPrefix pass.old.known pass.new.known }
        ensures legal { Legal L.opening pass.new.known }
        ensures answer { result ≢ Err unknown.NoView → IsAnswered L.opening pass.new.known question.now result }
        ensures no_view { result ≡ Err unknown.NoView → pass.new ≡ pass.old }
    {
        pass.explain(&self.fs, question)
    }

    /// Ends the server and hands out the core, whose history is legal from the opening on, takes as many rows as the opening said, and
    /// begins with what each pass knows. Where all passes are handed in, it has as many rows as their calls together.
    pub fn close<R: Wait>(self, rt: &R, passes: Vec<Pass<L>>) -> Closed
        ensures legal { IsLegal L.opening result.core.rows result.core.state }
        ensures max_rows { result.core.max_rows ≡ L.max_rows }
        ensures known { AllBegin result.core.rows passes.items }
        ensures rows { vec_len passes ≡ self → length result.core.rows ≡ sum_by (λ p. p.calls) passes.items }
    {
        let CapServer {
            locked,
            gate: _,
            count,
            fs: _,
        } = self;
        let (core, mut calls, mut rest, mut recorder) = locked.into_inner().end(rt, &count);
        check_all_against(&mut recorder, passes.as_slice());
        merge_all(&mut rest, passes);
        calls.audit(&mut rest);
        Closed { core }
    }
}
