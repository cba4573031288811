//! Talks, played to the commands of `capd` and to those of this program.

use crate::book::{Talk, read_talks};
use crate::commands;
use crate::page::Page;
use crate::run::{Outcome, Program, Run};
use crate::streams::Output;
use crate::talk_fault::{Place, TalkFault};
use std::fs;
use std::fs::Files;
use std::io::Write;
use std::sync::Wait;
use std::thread::Threads;
use texts::Watched;

/// Plays the files of these names, up to the first that has a fault, and returns the status: 0 where all talks agree, else 1. A line is written
/// for each talk, and for one that differs what was wanted and what came.
pub fn play_files(
    rt: &(impl AllocGlobal + Files + Threads + Wait + Sync),
    names: &[Vec<u8>],
    writer: &mut impl Write,
    faults: &mut impl Write,
) -> u8 {
    if names.is_empty() {
        return TalkFault::NoFile.report(faults);
    }
    let mut page = Page::new(writer);
    for name in names {
        let Ok(name) = String::from_utf8_lossy(rt.alloc(), name.as_slice()) else {
            return TalkFault::NoMemory.report(faults);
        };
        if let Err(place) = play_file(rt, name.as_str(), &mut page) {
            return place.report(name.as_str(), faults);
        }
    }
    page.report(faults)
}

// Plays the talks of a file.
fn play_file<W: Write>(
    rt: &(impl AllocGlobal + Files + Threads + Wait + Sync),
    name: &str,
    page: &mut Page<'_, W>,
) -> Result<(), Place> {
    let Ok(text) = fs::read(rt, name) else {
        return Err(TalkFault::Unread.at(0));
    };
    let talks = read_talks(rt.alloc(), text.as_slice())?;
    play_talks(rt, name, talks.as_slice(), page)
}

fn play_talks<W: Write>(
    rt: &(impl AllocGlobal + Files + Threads + Wait + Sync),
    name: &str,
    talks: &[Talk<'_>],
    page: &mut Page<'_, W>,
) -> Result<(), Place> {
    for talk in talks {
        page.begin(name, talk);
        play_runs(rt, talk.runs.as_slice(), page);
        page.end(talk)?;
    }
    Ok(())
}

fn play_runs<W: Write>(
    rt: &(impl AllocGlobal + Files + Threads + Wait + Sync),
    runs: &[Run],
    page: &mut Page<'_, W>,
) {
    for run in runs {
        let came = outcome(rt, run);
        page.compare(&run.wanted, &came);
    }
}

// What comes when a run of a talk is done.
fn outcome(rt: &(impl AllocGlobal + Files + Threads + Wait + Sync), run: &Run) -> Outcome {
    let mut came = Outcome::new(rt.alloc());
    let mut reader = run.reader();
    let mut writer = Output::new(&mut came.written, run.limits.room);
    let mut faults = Output::new(&mut came.complaints, run.limits.fault_room);
    let words = run.words.as_slice();
    came.status = match run.program {
        Program::Capd => {
            let (mut reader, mut writer) = (Watched::new(reader), Watched::new(writer));
            cli::dispatch(rt, words, &mut reader, &mut writer, &mut faults)
        }
        Program::Capbench => commands::dispatch(rt, words, &mut reader, &mut writer, &mut faults),
    };
    came
}
