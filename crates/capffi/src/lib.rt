//! What a metadata server in C, C++ or Rust calls of this one: the verdict on grants, the reading and the writing of their
//! text, the caps that they permit, and the table of the locks. `c/include/baybowl.h` declares it, and `docs/EMBED.md` is its page.
//!
//! Numbers and texts come in and go out; nothing is kept between calls. Each call answers a status, `OK` or why there is no
//! answer. What it writes or returns where there is no answer is zeros.
#![tactic(auto)]

mod answering;
mod asking;
mod block;
mod by_block;
mod by_mask;
mod filling;
mod given;
mod judging;
mod locks;
mod passed;
mod plain;
mod returned;
mod texts;
mod trouble;

ghost use Rattle.std.specs.Prelude.{◌≡◌, ℕ, List};
ghost use Rattle.capspec.specs.Paths.{names_of};
ghost use Rattle.capffi.specs.Calls.{TellsCheck, TellsForm, TellsPermitted, TellsRead, TellsTarget, TellsVerdict, TellsVerdictBy, caps_bits, status};
ghost use Rattle.capffi.specs.ByBlock.{TellsFast};
ghost use Rattle.capffi.specs.ByMask.{TellsFastToMask, TellsMask};
ghost use Rattle.capffi.specs.Locks.{allowed_by};

use crate::answering::{answer_of, no_answer};
use crate::asking::{judge, permit, read_text};
use crate::by_block::{fast_verdict, judge_by};
use crate::by_mask::{access_number, fast_verdict_mask, judge_mask};
use crate::filling::{prepare, put_block};
use crate::locks::{allowed_by, numbers_of, target_of};
use crate::texts::{form, put};
use crate::trouble::no_fault;
pub use block::{BLOCK_VERSION, Block, Entry};
pub use passed::{Answer, Check, Fault, Lock, Question, StableState, Wants};
pub use returned::{BlockVerdict, CheckVerdict, TextPermitted, TextRead, TextVerdict};
use std::alloc::Global;
pub use trouble::{
    ACCESS, BLOCK, CAPS, FS, GRANTS, GROUPS, HEAD, MEMORY, MODE, OK, PART, PATH, ROOM, STATE,
};

/// The version of these calls: each that changes what a call takes or answers has a greater one.
pub const VERSION: u32 = 3;

/// The version of these calls.
#[unsafe(no_mangle)]
pub extern "C" fn capffi_version() -> u32
    ensures { result ≡ VERSION }
{
    VERSION
}

/// Whether the grants of a text let a caller make an access to an inode: by which grant, or by which rule each grant fails.
#[unsafe(no_mangle)]
pub extern "C" fn capffi_verdict(
    alloc: Global,
    grants: &[u8],
    fs: &[u8],
    path: &[u8],
    groups: &[u32],
    question: &Question,
) -> TextVerdict
    ensures { TellsVerdict grants.now fs.now path.now groups.now question.now result.status result.answer result.fault }
{
    match judge(alloc, grants, fs, path, groups, question) {
        Ok(verdict) => TextVerdict {
            status: OK,
            answer: answer_of(&verdict),
            fault: no_fault(),
        },
        Err(trouble) => TextVerdict {
            status: trouble.status(),
            answer: no_answer(),
            fault: trouble.fault(),
        },
    }
}

/// The caps, as bits, that the grants of a text permit a caller to hold of an inode.
#[unsafe(no_mangle)]
pub extern "C" fn capffi_permitted(
    alloc: Global,
    grants: &[u8],
    fs: &[u8],
    path: &[u8],
    groups: &[u32],
    question: &Question,
) -> TextPermitted
    ensures { TellsPermitted grants.now fs.now path.now groups.now question.now result.status result.caps result.fault }
{
    match permit(alloc, grants, fs, path, groups, question) {
        Ok(permitted) => TextPermitted {
            status: OK,
            caps: permitted.bits(),
            fault: no_fault(),
        },
        Err(trouble) => TextPermitted {
            status: trouble.status(),
            caps: 0,
            fault: trouble.fault(),
        },
    }
}

/// Puts the grants of a text on a file system into a block and the text behind it, if that fits there.
#[tactic(auto, using(crate::proofs::Filled::filled))]
#[unsafe(no_mangle)]
pub extern "C" fn capffi_grants_read(
    alloc: Global,
    grants: &[u8],
    fs: &[u8],
    block: &mut Block,
    text: &mut [u8],
) -> TextRead
    ensures { TellsRead grants.now fs.now block.old block.new text.old text.new result.needed result.status result.fault }
{
    match prepare(alloc, grants, fs) {
        Ok(ready) => {
            let mut needed = 0;
            let status = put_block(&ready, block, text, &mut needed);
            TextRead {
                status,
                needed,
                fault: no_fault(),
            }
        }
        Err(trouble) => TextRead {
            status: trouble.status(),
            needed: 0,
            fault: trouble.fault(),
        },
    }
}

/// Whether the grants of a block let a caller make an access to an inode on the block's file system, whatever the caller's groups, where
/// that is soon seen: the number of the grant that allows, or 17, with the answer of a denial; else 0, and `capffi_verdict_by` has to be
/// asked. It is for a server that asks often: most of what it takes is passed in registers.
#[unsafe(no_mangle)]
pub extern "C" fn capffi_fast_verdict(
    block: &Block,
    text: &[u8],
    path: &[u8],
    question: &Question,
    answer: &mut Answer,
) -> u32
    ensures { TellsFast block.now text.now path.now question.now answer.old answer.new result }
{
    fast_verdict(block, text, path, question, answer)
}

/// Whether the grants of a block let a caller make an access to an inode on the block's file system.
#[unsafe(no_mangle)]
pub extern "C" fn capffi_verdict_by(
    alloc: Global,
    block: &Block,
    text: &[u8],
    path: &[u8],
    groups: &[u32],
    question: &Question,
) -> BlockVerdict
    ensures reported { TellsVerdictBy block.now text.now path.now groups.now question.now result.status result.answer }

    // So the path may have a slash in front or none.
    ensures either_form { (other : List ℕ) → names_of other ≡ names_of path.now → TellsVerdictBy block.now text.now other groups.now question.now result.status result.answer }
{
    match judge_by(alloc, block, text, path, groups, question) {
        Ok(found) => BlockVerdict {
            status: OK,
            answer: answer_of(&found),
        },
        Err(trouble) => BlockVerdict {
            status: trouble.status(),
            answer: no_answer(),
        },
    }
}

/// Whether the grants of a block let a caller do what a mask asks for, whatever the caller's groups, where that is soon seen: told as
/// `capffi_fast_verdict` does, or 0, and `capffi_verdict_mask` has to be asked.
#[unsafe(no_mangle)]
pub extern "C" fn capffi_fast_verdict_mask(
    block: &Block,
    text: &[u8],
    path: &[u8],
    check: &Check,
    answer: &mut Answer,
) -> u32
    ensures { TellsFastToMask block.now text.now path.now check.now answer.old answer.new result }
{
    fast_verdict_mask(block, text, path, check, answer)
}

/// Whether the grants of a block let a caller, who may have any number of groups, do all that a mask asks for. The answer is to the first
/// access that is denied, or else to the last.
#[unsafe(no_mangle)]
pub extern "C" fn capffi_verdict_mask(
    alloc: Global,
    block: &Block,
    text: &[u8],
    path: &[u8],
    groups: &[u32],
    check: &Check,
) -> CheckVerdict
    ensures reported { TellsMask block.now text.now path.now groups.now check.now result.status result.answer result.access }
    ensures either_form { (other : List ℕ) → names_of other ≡ names_of path.now → TellsMask block.now text.now other groups.now check.now result.status result.answer result.access }
{
    match judge_mask(alloc, block, text, path, groups, check) {
        Ok(reported) => CheckVerdict {
            status: OK,
            access: access_number(reported.access),
            answer: answer_of(&reported.verdict),
        },
        Err(trouble) => CheckVerdict {
            status: trouble.status(),
            access: 0,
            answer: no_answer(),
        },
    }
}

/// Whether a text is one of grants, and else its first fault.
#[unsafe(no_mangle)]
pub extern "C" fn capffi_grants_check(alloc: Global, grants: &[u8], fault: &mut Fault) -> u32
    ensures { TellsCheck grants.now result fault.new }
{
    match read_text(alloc, grants) {
        Ok(_) => {
            *fault = no_fault();
            OK
        }
        Err(trouble) => {
            *fault = trouble.fault();
            trouble.status()
        }
    }
}

/// The written form of the grants of a text, at the front of `room` if it fits there. `len` is how long it is.
#[unsafe(no_mangle)]
pub extern "C" fn capffi_grants_write(
    alloc: Global,
    grants: &[u8],
    room: &mut [u8],
    len: &mut u64,
    fault: &mut Fault,
) -> u32
    ensures { TellsForm grants.now room.old room.new len.new result fault.new }
{
    match form(alloc, grants) {
        Ok(form) => {
            *fault = no_fault();
            put(form.as_slice(), room, len)
        }
        Err(trouble) => {
            *len = 0;
            *fault = trouble.fault();
            trouble.status()
        }
    }
}

/// The caps of a part, as bits, that a client may hold under the part's lock. The parts are 0 A, 1 L, 2 X and 3 F.
#[unsafe(no_mangle)]
pub extern "C" fn capffi_allowed(part: u32, lock: &Lock, client: u32, caps: &mut u32) -> u32
    ensures status { result ≡ status (allowed_by part lock.now client) }
    ensures caps { caps.new ≡ caps_bits (allowed_by part lock.now client) }
{
    match allowed_by(part, lock, client) {
        Ok(allowed) => {
            *caps = allowed.bits();
            OK
        }
        Err(trouble) => {
            *caps = 0;
            trouble.status()
        }
    }
}

/// Where the lock of a part, stable in `state`, is to go.
#[unsafe(no_mangle)]
pub extern "C" fn capffi_target(
    part: u32,
    state: &StableState,
    wants: &Wants,
    target: &mut StableState,
) -> u32
    ensures { TellsTarget part state.now wants.now result target.new }
{
    match target_of(part, state, wants) {
        Ok(state) => {
            *target = numbers_of(state);
            OK
        }
        Err(trouble) => {
            *target = StableState { kind: 0, holder: 0 };
            trouble.status()
        }
    }
}
