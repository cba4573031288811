//! All passes of a server: made before it starts, and looked at and taken back when it ends.
ghost use Rattle.std.specs.Prelude.{◌≡◌, ◌⊎◌, ◌≤◌, ◌+◌, [], Err, vec_len, IfOk, OnOk, OnErr};
ghost use Rattle.std.specs.List.{sum_by};
ghost use Rattle.capserver.specs.declared.passes.StartFault.TheVariants as faults;
ghost use Rattle.capserver.specs.Passes.{AllBegin, AllNew};

use crate::pass::Pass;
use crate::reader::Reader;
use capbits::PassId;
use snapshot::{Publisher, Recorder, Server};
use std::alloc::Global;
use std::sync::ledger::Share;
use thiserror::Error;

/// Why there is no server.
#[derive(Clone, Copy, Debug, Error)]
pub enum StartFault {
    /// A server has at least one pass, and at most 32.
    #[error("bad count")]
    BadCount,
    /// No memory was left.
    #[error("no memory")]
    NoMemory,
    /// No memory was left for the place from which a pass reads.
    #[error("no reader")]
    NoReader,
}

/// A pass for each number from 1 to `count`, each with one part of the ledger and a place of its own to read from.
pub fn make_passes<L: Server>(
    alloc: Global,
    publisher: &mut Publisher<L>,
    rest: &mut Share<L>,
    count: u32,
) -> Result<Vec<Pass<L>>, StartFault>
    requires share { (count ≤ rest.old.parts) × (rest.old.amount ≡ 0) }
    requires publisher { publisher.old.rows ≡ [] }
    ensures publisher { publisher.new ≡ publisher.old }
    ensures parts { OnOk result ((rest.new.parts + count ≡ rest.old.parts) × (rest.new.amount ≡ 0)) }
    ensures all { IfOk result (λ v. AllNew 0 v.items × (vec_len v ≡ count)) }
    ensures err { OnErr result ((result ≡ Err faults.NoMemory) ⊎ (result ≡ Err faults.NoReader)) }
{
    let mut passes = Vec::new(alloc);
    for at in 0..count {
        if passes.reserve(1).is_err() {
            return Err(StartFault::NoMemory);
        }
        let Ok(reader) = Reader::of(publisher) else {
            return Err(StartFault::NoReader);
        };
        let share = rest.split_off(1, 0);
        passes.push_reserved(Pass::new(PassId(at + 1), share, reader));
    }
    Ok(passes)
}

/// What each pass knows begins the rows of the book.
pub fn check_all_against<L: Server>(recorder: &mut Recorder<L>, passes: &[Pass<L>])
    ensures { AllBegin recorder.old passes.now }
{
    for pass in passes {
        pass.check_against(recorder);
    }
}

/// Gives the parts of the passes back to what is left of the ledger, with their calls.
pub fn merge_all<L: Server>(rest: &mut Share<L>, passes: Vec<Pass<L>>)
    ensures parts { rest.new.parts ≡ rest.old.parts + vec_len passes }
    ensures amount { rest.new.amount ≡ rest.old.amount + sum_by (λ p. p.calls) passes.items }
{
    let mut passes = passes;
    while let Some(pass) = passes.pop() {
        rest.merge(pass.into_share());
    }
}
