//! The work that is counted and timed, and the words that name it.

use crate::explaining::Way;
use crate::fault::Fault;
use crate::jobs::{JobKind, Play};
use capbits::read_u32;

/// Work of one of two kinds.
#[derive(Clone, Copy)]
pub(crate) enum Work {
    /// All answers are summed up.
    Piece(Piece),
    /// There is a digest of all answers. The numbers say how much is done, and the seed that it is made from.
    Job(JobKind),
}

/// A piece of work, with the text that is read.
#[derive(Clone, Copy)]
pub(crate) enum Piece {
    /// An access is judged so many times, by grants that were read before.
    Verdict,
    /// The text of grants is read so many times.
    Parse,
    /// The lines of a script are played on a core, and what finds no memory is asked for again.
    Retry,
    /// One pass of a server calls what a script says, and again what finds no memory; two ask what came of each call. The number is that of
    /// the rows that the history takes.
    Publish,
    /// Threads ask a server questions on policy, while another thread calls events. The numbers are how many threads ask, about how many
    /// inodes, which are numbered from 2 on, and how many questions each of them asks.
    Explain(Way),
}

/// Work, and the numbers behind its word. One that is left out is the greatest.
#[derive(Clone, Copy)]
pub(crate) struct Task {
    pub(crate) work: Work,
    pub(crate) numbers: [u32; 3],
}

/// The words that name work, and how many numbers stand behind each.
const NAMED: &[(&[u8], usize, Work)] = &[
    (b"verdict", 1, Work::Piece(Piece::Verdict)),
    (b"parse", 1, Work::Piece(Piece::Parse)),
    (b"retry", 0, Work::Piece(Piece::Retry)),
    (b"publish", 0, Work::Piece(Piece::Publish)),
    (b"publish", 1, Work::Piece(Piece::Publish)),
    (b"explain", 3, Work::Piece(Piece::Explain(Way::Beside))),
    (b"locked", 3, Work::Piece(Piece::Explain(Way::Locked))),
    (b"tenants", 2, Work::Job(JobKind::Played(Play::Tenants))),
    (b"shared", 2, Work::Job(JobKind::Played(Play::Shared))),
    (b"moves", 2, Work::Job(JobKind::Played(Play::Moves))),
    (b"script", 2, Work::Job(JobKind::Script)),
    (b"questions", 2, Work::Job(JobKind::Questions)),
    (b"serve", 2, Work::Job(JobKind::Serve)),
];

/// What the words of a command line ask for.
pub(crate) fn task_of(words: &[Vec<u8>]) -> Result<Task, Fault> {
    let found = (
        work_of(words),
        number_at(words, 1),
        number_at(words, 2),
        number_at(words, 3),
    );
    match found {
        (Some(work), Some(first), Some(second), Some(third)) => Ok(Task {
            work,
            numbers: [first, second, third],
        }),
        _ if words.len() == 3 => Err(Fault::NoJob),
        _ => Err(Fault::Usage),
    }
}

// The work that the first word names, where as many words stand behind it as are to.
fn work_of(words: &[Vec<u8>]) -> Option<Work> {
    let (first, behind) = words.split_first()?;
    for (name, count, work) in NAMED {
        if *name == first.as_slice() && *count == behind.len() {
            return Some(*work);
        }
    }
    None
}

// The number that stands at a place, or the greatest where no word does.
fn number_at(words: &[Vec<u8>], place: usize) -> Option<u32> {
    match words.get(place) {
        Some(word) => read_u32(word.as_slice()),
        None => Some(u32::MAX),
    }
}
