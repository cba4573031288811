//! The work that asks again: a script is played on a core, and a line that finds no memory is taken once more; so is one that found none
//! when it was served.

use crate::digest::digest_of;
use crate::fault::Fault;
use crate::lines::{Heard, TRIES, Transcript, apply};
use capcore::Core;
use capscript::file_system;
use std::alloc::Global;
use std::io::Write;

/// Plays the lines of a script, writes what is answered to each line and then the rows of the history, and returns the hash of the core in the
/// end. No other function owns a core: what it keeps is carried through each way out of its owner.
pub(crate) fn retry<W: Write>(
    alloc: Global,
    lines: &[&[u8]],
    writer: &mut W,
) -> Result<u64, Fault> {
    let (fs, tree) = file_system(alloc)?;
    let mut core = Core::new(alloc, fs, tree, u32::MAX)?;
    let sum = play(alloc, &mut core, lines, writer);
    drop(core);
    sum
}

fn play<W: Write>(
    alloc: Global,
    core: &mut Core,
    lines: &[&[u8]],
    writer: &mut W,
) -> Result<u64, Fault> {
    let mut transcript = Transcript::new(alloc, writer);
    for line in lines {
        take_line(core, line, &mut transcript);
    }
    transcript.tell_rows(core.history());
    transcript.end(digest_of(core))
}

// Takes a line until it is answered. Where an event found no memory, the core must not have changed, and where its serving found none, the
// tree.
fn take_line<W: Write>(core: &mut Core, line: &[u8], transcript: &mut Transcript<'_, W>) {
    for _ in 0..TRIES {
        let (whole, tree) = digests_of(core);
        let is_same = match ask(core, line, transcript) {
            Heard::Starved => tree == digests_of(core).1,
            Heard::Stopped => whole == digests_of(core).0,
            _ => return,
        };
        if !is_same {
            return transcript.fail(Fault::Changed);
        }
    }
    transcript.fail(Fault::InVain);
}

// The hash of a core, and that of its tree.
fn digests_of(core: &Core) -> (u64, u64) {
    (digest_of(core), digest_of(core.tree()))
}

// Asks the core, and writes what it answers.
fn ask<W: Write>(core: &mut Core, line: &[u8], transcript: &mut Transcript<'_, W>) -> Heard {
    let Some(event) = transcript.event(line) else {
        return Heard::Failed;
    };
    match apply(core, event) {
        Ok(reply) => {
            let heard = transcript.tell(&reply);
            drop(reply);
            heard
        }
        Err(stop) => transcript.tell_stop(stop),
    }
}
