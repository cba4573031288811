//! Guesses at the places of rows, by their numbers.

use crate::rows::Row;
use std::alloc::Global;

// A place for each number, which it shares with others. No clause speaks of it: who takes a guess looks first whose row stands there.
#[derive(Drop)]
pub(crate) struct Guesses {
    // As many as a power of two, or none; at least one for each row, where memory was there for them.
    slots: Vec<usize>,
}

impl Guesses {
    // No guesses.
    pub(crate) fn new(alloc: Global) -> Guesses {
        Guesses {
            slots: Vec::new(alloc),
        }
    }

    // The guess for a number; any place where there is none.
    pub(crate) fn at(&self, number: u64) -> usize {
        self.slots.get(self.slot(number)).copied().unwrap_or(0)
    }

    // The row of this number stands at this place now.
    pub(crate) fn note(&mut self, number: u64, place: usize) {
        let slot = self.slot(number);
        if let Some(guess) = self.slots.get_mut(slot) {
            *guess = place;
        }
    }

    // Numbers are given one after the other, so their last bits tell those apart that are near each other.
    fn slot(&self, number: u64) -> usize {
        number as usize & self.slots.len().wrapping_sub(1)
    }

    // Has a guess for each row at least, where there are more rows than guesses. For want of memory it stays.
    pub(crate) fn grow<T>(&mut self, rows: &[Row<T>]) {
        if rows.len() <= self.slots.len() {
            return;
        }
        // Refused before, it may be short by more than half: what is wanted is asked for at once.
        let wanted = rows.len().checked_next_power_of_two().unwrap_or(rows.len());
        if self.slots.resize(wanted.max(8), 0).is_ok() {
            self.note_all(rows);
        }
    }

    // Has half as many guesses where an eighth would do. It only gives memory back.
    pub(crate) fn shrink<T>(&mut self, rows: &[Row<T>]) {
        let slots = self.slots.len();
        if rows.len() < slots / 8 {
            self.slots.truncate(slots / 2);
            self.slots.shrink_to_fit();
            self.note_all(rows);
        }
    }

    // Each row stands where it does.
    fn note_all<T>(&mut self, rows: &[Row<T>]) {
        for (place, row) in rows.iter().enumerate() {
            self.note(row.number, place);
        }
    }
}
