//! How often each line stands in a text.
ghost use Rattle.std.specs.Prelude.{◌≡◌, ◌++◌, OnOk};
ghost use Rattle.queries.specs.Counts.{counted_in};

use indexmap::IndexMap;
use std::alloc::{AllocError, Global};
use texts::{Shape, Text, print_texts, split_line};

/// Lines, each once, in the order in which they came first, with how often each came.
pub(crate) struct LineCounts {
    counts: IndexMap<Vec<u8>, u64>,
}

// By hand, so that whoever lets one go has one call to prove.
impl Drop for LineCounts {
    fn drop(self) {
        let LineCounts { counts: _ } = self;
    }
}

impl LineCounts {
    ghost use Rattle.std.specs.Prelude.{◌≡◌, ◌++◌, [], OnOk, fold};
    ghost use Rattle.std.specs.List.{flat_map};
    ghost use Rattle.queries.specs.Counts.{counted_in, counts_of, ended, noted};

    /// None so far.
    pub(crate) fn new(alloc: Global) -> LineCounts
        ensures { counts_of result ≡ [] }
    {
        LineCounts {
            counts: IndexMap::new(alloc),
        }
    }

    /// Counts the lines that end in the text. Only memory can be missing.
    pub(crate) fn note_all(&mut self, text: &[u8]) -> Result<(), AllocError>
        ensures { OnOk result (counts_of self.new ≡ fold noted (counts_of self.old) (ended text.now)) }
    {
        let mut rest = text;
        while let Some((line, behind)) = split_line(rest) {
            self.note(line)?;
            rest = behind;
        }
        Ok(())
    }

    // Counts one. What a number of 64 bits can't count is no text that there can be.
    fn note(&mut self, line: &[u8]) -> Result<(), AllocError>
        ensures { OnOk result (counts_of self.new ≡ noted (counts_of self.old) line.now) }
    {
        let alloc = *self.counts.allocator();
        let line = Vec::from_slice(alloc, line)?;
        let before = self.counts.get(&line).copied().unwrap_or(0);
        let count = before.checked_add(1).ok_or(AllocError)?;
        self.counts.insert(line, count)?;
        Ok(())
    }

    /// Appends each with its count. Only memory can be missing.
    pub(crate) fn print(&self, text: &mut Vec<u8>, shape: Shape) -> Result<(), AllocError>
        ensures { OnOk result (text.new.items ≡ text.old.items ++ flat_map (counted_in shape) (counts_of self.now)) }
    {
        for (line, count) in self.counts.iter() {
            print_counted(text, shape, line.as_slice(), *count)?;
        }
        Ok(())
    }
}

// Appends a line with its count.
fn print_counted(
    text: &mut Vec<u8>,
    shape: Shape,
    line: &[u8],
    count: u64,
) -> Result<(), AllocError>
    ensures { OnOk result (text.new.items ≡ text.old.items ++ counted_in shape (line.now, count)) }
{
    match shape {
        Shape::Lines => print_texts(
            text,
            &[
                Text::Bytes(line),
                Text::Word(": "),
                Text::Number(count),
                Text::Word("\n"),
            ],
        ),
        Shape::Objects => print_texts(
            text,
            &[
                Text::Word("{\"count\":"),
                Text::Number(count),
                Text::Word(",\"each\":"),
                Text::Bytes(line),
                Text::Word("}\n"),
            ],
        ),
    }
}
