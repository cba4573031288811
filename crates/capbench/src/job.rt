//! A job: what clients say, made from a seed, and a digest of all that they are answered.

use crate::fault::Fault;
use crate::lines::{apply, event_of};
use capbits::{ClientId, print_number};
use capcore::Core;
use capexplain::reply_lines;
use capstep::{Message, Reply};
use rand_core::Rng;
use rand_pcg::Pcg32;
use std::alloc::{AllocError, Global};
use std::hash::{DefaultHasher, Hasher};
use std::mem::{replace, swap};
use std::ops::Range;
use texts::split_line;

/// The stream of the generator.
const STREAM: u64 = 54;

/// The line by which a client asks for its messages. It is the last before the lines are played; each change that the client is told of then
/// is acknowledged first of all when lines are played again.
pub(crate) const POLL: &str = "poll # 64\n";

/// What was answered, as far as a client needs it.
#[derive(Clone, Copy)]
pub(crate) enum Heard {
    /// An inode was found or made.
    Ino(u64),
    /// It was done, or it was answered otherwise.
    Done,
    /// It was denied or refused, or it waits.
    NotDone,
}

/// The lines of a job, as they are written and played. After its first fault nothing more is played, and every answer is that nothing was
/// done: so who writes need not look for a fault until the end.
pub(crate) struct Job {
    random: Pcg32,
    text: Vec<u8>,
    answers: Answers,
    fault: Option<Fault>,
}

// Not derived: so the proof of a function that drops one has a single call there.
impl Drop for Job {
    fn drop(self) {
        let Job {
            random: _,
            text: _,
            answers: _,
            fault: _,
        } = self;
    }
}

impl Job {
    /// The job that a seed makes, of which no line is written.
    pub(crate) fn new(alloc: Global, seed: u32) -> Job {
        Job {
            random: Pcg32::new(u64::from(seed), STREAM),
            text: Vec::new(alloc),
            answers: Answers {
                alloc,
                digest: DefaultHasher::new(),
                acks: Vec::new(alloc),
            },
            fault: None,
        }
    }

    /// Where memory comes from.
    pub(crate) fn alloc(&self) -> Global {
        self.answers.alloc
    }

    /// A number below the bound, or 0 where that is 0.
    pub(crate) fn below(&mut self, bound: u64) -> u64 {
        u64::from(self.random.next_u32())
            .checked_rem(bound)
            .unwrap_or(0)
    }

    /// One of so many numbers, of which this is the first.
    pub(crate) fn among(&mut self, first: u64, count: u64) -> u64 {
        self.below(count).saturating_add(first)
    }

    /// Puts a text behind the others, mostly a line with its line feed. Each `#` of it stands for the next of the numbers, or once more for the
    /// last.
    pub(crate) fn add(&mut self, text: &str, numbers: &[u64]) {
        let last = *numbers.last().unwrap_or(&0);
        self.fill(text, numbers, last);
    }

    /// Adds a text for each number of a range, for which each `#` stands that is left over.
    pub(crate) fn add_each(&mut self, text: &str, numbers: &[u64], range: Range<u64>) {
        for last in range {
            self.fill(text, numbers, last);
        }
    }

    fn fill(&mut self, text: &str, numbers: &[u64], last: u64) {
        if fill(&mut self.text, text, numbers, last).is_err() {
            self.fail(Fault::NoMemory);
        }
    }

    /// Puts a value behind the others of a list.
    pub(crate) fn keep<T: Drop>(&mut self, list: &mut Vec<T>, value: T) {
        if list.push(value).is_err() {
            self.fail(Fault::NoMemory);
        }
    }

    /// Nothing more is played. The first fault counts.
    pub(crate) fn fail(&mut self, fault: Fault) {
        if self.fault.is_none() {
            self.fault = Some(fault);
        }
    }

    /// Has the core answer each line that was added since, and tells what it answered to the last.
    pub(crate) fn play(&mut self, core: &mut Core) -> Heard {
        if self.fault.is_some() {
            return Heard::NotDone;
        }
        let heard = self.answers.to_lines(core, self.text.as_slice());
        self.text.clear();
        swap(&mut self.text, &mut self.answers.acks);
        match heard {
            Ok(heard) => heard,
            Err(fault) => {
                self.fault = Some(fault);
                Heard::NotDone
            }
        }
    }

    /// Takes in what was answered otherwise than by a core.
    pub(crate) fn take(&mut self, answer: Result<Vec<u8>, Fault>) {
        match answer {
            Ok(text) => self.answers.digest.write(text.as_slice()),
            Err(fault) => self.fail(fault),
        }
    }

    /// The digest of all answers, or the first fault.
    pub(crate) fn digest(&self) -> Result<u64, Fault> {
        match self.fault {
            None => Ok(self.answers.digest.finish()),
            Some(fault) => Err(fault),
        }
    }

    /// What was written since lines were played, or the first fault. Nothing is left of it.
    pub(crate) fn script(&mut self) -> Result<Vec<u8>, Fault> {
        match self.fault {
            None => Ok(replace(&mut self.text, Vec::new(self.answers.alloc))),
            Some(fault) => Err(fault),
        }
    }
}

/// What clients are answered.
struct Answers {
    alloc: Global,
    // Of all answers.
    digest: DefaultHasher,
    // The lines by which clients acknowledge what they were told of.
    acks: Vec<u8>,
}

// Not derived: so the proof of a function that drops one has a single call there.
impl Drop for Answers {
    fn drop(self) {
        let Answers {
            alloc: _,
            digest: _,
            acks: _,
        } = self;
    }
}

impl Answers {
    // Has the core answer the lines of a text, each of which ends with a line feed, and tells what it answered to the last.
    fn to_lines(&mut self, core: &mut Core, text: &[u8]) -> Result<Heard, Fault> {
        let (mut rest, mut heard) = (text, Heard::NotDone);
        while let Some((line, behind)) = split_line(rest) {
            heard = self.to_line(core, line)?;
            rest = behind;
        }
        Ok(heard)
    }

    fn to_line(&mut self, core: &mut Core, line: &[u8]) -> Result<Heard, Fault> {
        let (client, event) = event_of(self.alloc, line)?;
        let reply = apply(core, event)?;
        let heard = self.take(client, &reply);
        drop(reply);
        heard
    }

    // Takes an answer in.
    fn take(&mut self, client: Option<ClientId>, reply: &Reply) -> Result<Heard, Fault> {
        let text = reply_lines(self.alloc, reply)?;
        self.digest.write(text.as_slice());
        self.acknowledge(client, reply)?;
        Ok(as_heard(reply))
    }

    // A client acknowledges each change that it is told of.
    fn acknowledge(&mut self, client: Option<ClientId>, reply: &Reply) -> Result<(), AllocError> {
        let (Some(client), Reply::Messages(messages)) = (client, reply) else {
            return Ok(());
        };
        for message in messages.as_slice() {
            if let Message::Caps { ino, seq, .. } = message {
                let numbers = [u64::from(client.0), ino.0, *seq];
                fill(&mut self.acks, "ack # # #\n", &numbers, 0)?;
            }
        }
        Ok(())
    }
}

// What a client needs of an answer.
fn as_heard(reply: &Reply) -> Heard {
    match reply {
        Reply::Ino(ino) => Heard::Ino(ino.0),
        Reply::Denied { .. } | Reply::Refused(_) | Reply::Waiting(_) => Heard::NotDone,
        _ => Heard::Done,
    }
}

// Puts a text behind another, with the numbers in the places of its `#`, and behind them the last number.
fn fill(text: &mut Vec<u8>, line: &str, numbers: &[u64], last: u64) -> Result<(), AllocError> {
    let mut numbers = numbers.iter();
    for byte in line.as_bytes() {
        match byte {
            b'#' => print_number(text, *numbers.next().unwrap_or(&last))?,
            _ => text.push(*byte)?,
        }
    }
    Ok(())
}
