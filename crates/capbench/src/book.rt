//! The talks of a file.

use crate::lines::lines_of;
use crate::run::{Program, Run};
use crate::talk_fault::{Place, TalkFault};
use crate::talk_line::Line;
use crate::talk_text::read_words;
use std::alloc::Global;

/// A talk: its name, the number of the line that names it, and its runs, those of the talk by which it begins first.
pub struct Talk<'a> {
    pub name: &'a [u8],
    /// The number of the line that names it.
    pub line: usize,
    pub runs: Vec<Run>,
    // The lines that its runs are made of.
    lines: Vec<Line<'a>>,
    // Whether something is asked in this talk itself.
    asks: bool,
}

// Not derived: so the proof of a function that drops one has a single call there.
impl Drop for Talk<'_> {
    fn drop(self) {
        let Talk {
            name: _,
            line: _,
            runs: _,
            lines: _,
            asks: _,
        } = self;
    }
}

impl<'a> Talk<'a> {
    // One line more. A command begins a run, and so does a line that is asked before any command: that of a script.
    fn take(&mut self, alloc: Global, line: Line<'a>) -> Result<(), TalkFault> {
        self.lines.push(line)?;
        match line {
            Line::Command(program, words) => self.begin_run(alloc, program, words)?,
            Line::Asked(_) if self.runs.is_empty() => {
                self.begin_run(alloc, Program::Capd, b"run")?
            }
            Line::Asked(_) => self.asks = true,
            _ => {}
        }
        match self.runs.last_mut() {
            Some(run) if self.asks => run.take(line),
            _ => Err(TalkFault::NotUnderstood),
        }
    }

    fn begin_run(
        &mut self,
        alloc: Global,
        program: Program,
        words: &[u8],
    ) -> Result<(), TalkFault> {
        let words = read_words(alloc, words)?;
        self.runs.push(Run::new(alloc, program, words))?;
        self.asks = true;
        Ok(())
    }
}

/// Reads the talks of a file, in its order.
pub fn read_talks<'a>(alloc: Global, text: &'a [u8]) -> Result<Vec<Talk<'a>>, Place> {
    let Ok(lines) = lines_of(alloc, text) else {
        return Err(TalkFault::NoMemory.at(0));
    };
    let mut talks = Vec::new(alloc);
    take_all(alloc, &mut talks, lines.as_slice())?;
    Ok(talks)
}

fn take_all<'a>(alloc: Global, talks: &mut Vec<Talk<'a>>, lines: &[&'a [u8]]) -> Result<(), Place> {
    let mut number = 0usize;
    for text in lines {
        number = number.saturating_add(1);
        if let Err(fault) = take(alloc, talks, number, *text) {
            return Err(fault.at(number));
        }
    }
    all_ask(talks.as_slice())
}

// One line more, of this number.
fn take<'a>(
    alloc: Global,
    talks: &mut Vec<Talk<'a>>,
    number: usize,
    text: &'a [u8],
) -> Result<(), TalkFault> {
    match Line::read(text)? {
        Line::Remark => Ok(()),
        Line::Talk(name) => begin(alloc, talks, number, name),
        Line::Begins(name) => begin_by(alloc, talks.as_mut_slice(), name),
        line => match talks.last_mut() {
            Some(talk) => talk.take(alloc, line),
            None => Err(TalkFault::NotUnderstood),
        },
    }
}

// A talk of this name begins at the line.
fn begin<'a>(
    alloc: Global,
    talks: &mut Vec<Talk<'a>>,
    line: usize,
    name: &'a [u8],
) -> Result<(), TalkFault> {
    if find(talks.as_slice(), name).is_some() {
        return Err(TalkFault::NameTwice);
    }
    talks.push(Talk {
        name,
        line,
        runs: Vec::new(alloc),
        lines: Vec::new(alloc),
        asks: false,
    })?;
    Ok(())
}

// The last talk begins with the lines of the earlier one of this name. Nothing stands before that.
fn begin_by(alloc: Global, talks: &mut [Talk<'_>], name: &[u8]) -> Result<(), TalkFault> {
    let Some((talk, earlier)) = talks.split_last_mut() else {
        return Err(TalkFault::NotUnderstood);
    };
    if !talk.runs.is_empty() {
        return Err(TalkFault::NotUnderstood);
    }
    let Some(earlier) = find(earlier, name) else {
        return Err(TalkFault::NoEarlier);
    };
    for line in earlier.lines.as_slice() {
        talk.take(alloc, *line)?;
    }
    talk.asks = false;
    Ok(())
}

// The talk of this name.
fn find<'t, 'a>(talks: &'t [Talk<'a>], name: &[u8]) -> Option<&'t Talk<'a>> {
    for talk in talks {
        if talk.name == name {
            return Some(talk);
        }
    }
    None
}

// There is a talk, and in each something is asked.
fn all_ask(talks: &[Talk<'_>]) -> Result<(), Place> {
    if talks.is_empty() {
        return Err(TalkFault::NoTalk.at(0));
    }
    for talk in talks {
        if !talk.asks {
            return Err(TalkFault::NoLine.at(talk.line));
        }
    }
    Ok(())
}
