//! How much an audit looked at, and what came of it.
ghost use Rattle.std.specs.Prelude.{◌≡◌, IfOk};
ghost use Rattle.cluster_audit.specs.Lines.{counts_line};
ghost use Rattle.cluster_audit.specs.Objects.{counts_object};
ghost use Rattle.cluster_audit.specs.Shaped.{counts_in};
ghost use Rattle.cluster_audit.specs.Summary.{counts_of, entry_count, line_count};

use crate::known::KnownSession;
use crate::notes::Notes;
use ceph_input::TreeInode;
use std::alloc::{AllocError, Global};
use texts::{Piece, Shape, Text, print_pieces, print_texts};

// How many inodes, entries and sessions the texts have, and how many lines there are of each kind.
#[derive(Clone, Copy)]
struct Counts {
    inodes: u64,
    entries: u64,
    sessions: u64,
    held_beyond: u64,
    conflicts: u64,
    not_judged: u64,
}

// The last line of an audit.
pub(crate) fn summary_line(
    alloc: Global,
    shape: Shape,
    sessions: &[KnownSession],
    inodes: &[TreeInode],
    notes: &Notes,
    conflicts: &[u8],
) -> Result<Vec<u8>, AllocError>
    ensures { IfOk result (λ line. line.items ≡ counts_in shape (counts_of sessions.now inodes.now notes.now.found.items conflicts.now notes.now.unknown.items)) }
{
    let counts = Counts {
        inodes: inodes.len() as u64,
        entries: entry_count(inodes)?,
        sessions: sessions.len() as u64,
        held_beyond: line_count(notes.found.as_slice()),
        conflicts: line_count(conflicts),
        not_judged: line_count(notes.unknown.as_slice()),
    };
    match shape {
        Shape::Lines => counts_line(alloc, &counts),
        Shape::Objects => counts_object(alloc, &counts),
    }
}

fn counts_line(alloc: Global, counts: &Counts) -> Result<Vec<u8>, AllocError>
    ensures { IfOk result (λ line. line.items ≡ counts_line counts.now) }
{
    let mut line = Vec::new(alloc);
    let pieces = [
        Text::Word("inodes "),
        Text::Number(counts.inodes),
        Text::Word(", entries "),
        Text::Number(counts.entries),
        Text::Word(", sessions "),
        Text::Number(counts.sessions),
        Text::Word(", held beyond "),
        Text::Number(counts.held_beyond),
        Text::Word(", conflicts "),
        Text::Number(counts.conflicts),
        Text::Word(", not judged "),
        Text::Number(counts.not_judged),
        Text::Word("\n"),
    ];
    print_texts(&mut line, &pieces)?;
    Ok(line)
}

fn counts_object(alloc: Global, counts: &Counts) -> Result<Vec<u8>, AllocError>
    ensures { IfOk result (λ line. line.items ≡ counts_object counts.now) }
{
    let table = [
        ("kind", Piece::Word("summary")),
        ("inodes", Piece::Number(counts.inodes)),
        ("entries", Piece::Number(counts.entries)),
        ("sessions", Piece::Number(counts.sessions)),
        ("held_beyond", Piece::Number(counts.held_beyond)),
        ("conflicts", Piece::Number(counts.conflicts)),
        ("not_judged", Piece::Number(counts.not_judged)),
    ];
    let mut line = Vec::new(alloc);
    print_pieces(&mut line, &table)?;
    Ok(line)
}

// How often a client holds something of one of these inodes. What a number of 64 bits can't count has no room in memory either.
fn entry_count(inodes: &[TreeInode]) -> Result<u64, AllocError>
    ensures { IfOk result (λ entries. entries ≡ entry_count inodes.now) }
{
    let mut entries = 0_u64;
    for inode in inodes {
        entries = entries
            .checked_add(inode.holders().len() as u64)
            .ok_or(AllocError)?;
    }
    Ok(entries)
}

// How many lines a text has.
fn line_count(text: &[u8]) -> u64
    ensures { result ≡ line_count text.now }
{
    text.iter().filter(|byte| **byte == b'\n').count() as u64
}
