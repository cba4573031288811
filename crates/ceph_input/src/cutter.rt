//! From chunks of a text to the items of its array.

use crate::array_fault::{Expected, RowFault};
use crate::cut::Cut;
use crate::outside::{check_end, enter, unindented};
use crate::place::{Place, ends, scan};
use crate::stage::Stage;
use std::alloc::Global;
use std::marker::Model;

/// How many bytes an item may have, with the white space around it.
pub const MAX_ITEM: usize = 16777216;

/// Cuts a text that is an array into its items, of which it holds one. After a fault nothing is said of what follows.
pub struct RowCutter {
    stage: Stage,
    byte: u64,
    item: Vec<u8>,
}

// Not derived: so the proof of a function that drops one has a single call there.
impl Drop for RowCutter {
    fn drop(self) {
        let RowCutter {
            stage: _,
            byte: _,
            item: _,
        } = self;
    }
}

impl Model for RowCutter {
    ghost use Rattle.std.specs.Prelude.{◌≤◌};
    ghost use Rattle.ceph_input.specs.Rows.{depth_at};
    ghost use Rattle.ceph_input.specs.Cutting.{Reading, reading};

    ghost Value = { Reading };

    ghost view = { λ c. reading c.stage c.byte c.item.items };

    // A bracket that is open was read.
    ghost invariant = { λ c. depth_at c.stage ≤ c.byte };
}

impl RowCutter {
    ghost use Rattle.std.specs.Prelude.{◌≡◌, ◌+◌, ◌^◌, ◌<◌, ◌≤◌, ◌++◌, ℕ, List, [], IfOk, IfErr, MatchResult, length};
    ghost use Rattle.ceph_input.specs.declared.stage.Stage.TheVariants.{Opening};
    ghost use Rattle.ceph_input.specs.Rows.{IsBroken, closed, depth_of, items_from, unindented};
    ghost use Rattle.ceph_input.specs.Cutting.{IsCounted, handed, reading, rows_left};

    /// A cutter that has read nothing.
    pub fn new(alloc: Global) -> RowCutter
        ensures { result ≡ reading Opening 0 [] }
    {
        RowCutter {
            stage: Stage::Opening,
            byte: 0,
            item: Vec::new(alloc),
        }
    }

    /// How many bytes it has read.
    pub fn byte(&self) -> u64
        ensures { result ≡ self.now.byte }
    {
        self.byte
    }

    /// The item that was handed on last, until more is read, without the white space before its first byte.
    pub fn item(&self) -> &[u8]
        ensures { result.now ≡ unindented self.now.item }
    {
        unindented(self.item.as_slice())
    }

    /// Reads a chunk up to where an item is whole, or to its end. The item is then `item`.
    pub fn advance<'c>(&mut self, chunk: &'c [u8]) -> Result<Option<Cut<'c>>, RowFault>
        requires { self.old.byte + length chunk.now < 2 ^ 64 }
        // Whatever follows the chunk.
        ensures rows { IfOk result (λ cut. (tail : List ℕ) → rows_left self.old (chunk.now ++ tail) ≡ handed cut self.new tail) }
        ensures counted { IfOk result (λ cut. IsCounted cut self.old.byte chunk.now self.new.byte) }
        ensures err { IfErr result (λ fault. (tail : List ℕ) → IsBroken fault (rows_left self.old (chunk.now ++ tail))) }
    {
        let (stage, passed) = enter(self.stage, self.byte, chunk)?;
        self.stage = stage;
        self.byte += passed as u64;
        let rest = &chunk[passed..];
        match stage {
            Stage::Next => {
                self.item.clear();
                self.take(Place::Outside { depth: 0 }, rest)
            }
            Stage::Item(place) => self.take(place, rest),
            _ => Ok(None),
        }
    }

    // Reads what of the chunk belongs to an item that goes on with it at this place, and what ends the item.
    fn take<'c>(&mut self, place: Place, chunk: &'c [u8]) -> Result<Option<Cut<'c>>, RowFault>
        requires fits { self.old.byte + length chunk.now < 2 ^ 64 }
        requires depth { depth_of place ≤ self.old.byte }
        ensures rows { IfOk result (λ cut. (tail : List ℕ) → items_from self.old.byte self.old.item place (chunk.now ++ tail) ≡ handed cut self.new tail) }
        ensures counted { IfOk result (λ cut. IsCounted cut self.old.byte chunk.now self.new.byte) }
        ensures err { IfErr result (λ fault. (tail : List ℕ) → IsBroken fault (items_from self.old.byte self.old.item place (chunk.now ++ tail))) }
    {
        let room = chunk.len().min(MAX_ITEM.saturating_sub(self.item.len()));
        let (length, place) = scan(place, &chunk[..room]);
        self.item.extend_from_slice(&chunk[..length])?;
        self.byte += length as u64;
        self.stage = Stage::Item(place);
        let [byte, rest @ ..] = &chunk[length..] else {
            return Ok(None);
        };
        if !ends(place, *byte) {
            return Err(RowFault::Unexpected {
                byte: self.byte,
                expected: Expected::ShorterItem,
            });
        }
        let item = unindented(self.item.as_slice());
        let begun = self.byte.saturating_sub(item.len() as u64);
        self.byte += 1;
        self.stage = if *byte == b',' {
            Stage::Next
        } else {
            Stage::Closing
        };
        Ok(Some(Cut { byte: begun, rest }))
    }

    /// Whether the array is whole, where the text ends.
    pub fn finish(&self) -> Result<(), RowFault>
        ensures { MatchResult result
            (λ _. rows_left self.now [] ≡ closed)
            (λ fault. IsBroken fault (rows_left self.now [])) }
    {
        check_end(self.stage, self.byte)
    }
}
