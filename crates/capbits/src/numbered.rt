//! The map.
ghost use Rattle.std.specs.Prelude.{◌≡◌, not, IfOk, OnOk, OnErr};
ghost use Rattle.std.specs.Borrow.{sem};
ghost use Rattle.std.specs.Option.{option_copied, option_copied_mut};
ghost use Rattle.std.specs.FinMap as map;
ghost use Rattle.capbits.specs.Rows.{with_new};

use crate::guesses::Guesses;
use crate::rows::{Row, add, place_near, row_near, take_out};
use std::alloc::{AllocError, Global};
use std::collections::BTreeMap;
use std::collections::btree_map::Keys;
use std::fmt;
use std::marker::Model;

/// Values, each under a number. They stand in rows, whose places are guessed first and searched for where a guess fails.
pub struct Numbered<T> {
    // Where the row of each number stands.
    places: BTreeMap<u64, usize>,
    // In no order.
    rows: Vec<Row<T>>,
    guesses: Guesses,
}

// Not derived: so the proof of a function that drops one has a single call there.
impl<T: Drop> Drop for Numbered<T> {
    fn drop(self) {
        let Numbered {
            places: _,
            rows: _,
            guesses: _,
        } = self;
    }
}

impl<T> Model for Numbered<T> {
    ghost use Rattle.std.specs.Coded.{coded_ℕ};
    ghost use Rattle.std.specs.FinMap as map;
    ghost use Rattle.std.specs.Ordering.{nat_cmp};

    ghost Value = { map.FinMap nat_cmp T };

    ghost coded = { map.code coded_ℕ T.code };

    ghost use Rattle.capbits.specs.Rows.{IsPlaced, map_of};

    ghost view = { λ n. map_of n.rows.items };

    ghost invariant = { λ n. IsPlaced n.places n.rows.items };
}

/// It shows the values in the order of their numbers, and nothing of where they stand.
impl<T: fmt::Debug> fmt::Debug for Numbered<T> {
    fn fmt<W: fmt::Write>(&self, f: &mut fmt::Formatter<W>) -> fmt::Result {
        let mut map = f.debug_map();
        for (number, place) in &self.places {
            if let Some(row) = self.rows.get(*place) {
                map.entry(number, &row.value);
            }
        }
        map.finish()
    }
}

impl<T: Drop> Numbered<T> {
    /// No values.
    pub fn new(alloc: Global) -> Numbered<T>
        ensures { result ≡ map.empty }
    {
        Numbered {
            places: BTreeMap::new(alloc),
            rows: Vec::new(alloc),
            guesses: Guesses::new(alloc),
        }
    }

    /// Puts a value under this number, in place of the one that was there. For want of memory nothing changes.
    pub fn insert(&mut self, number: u64, value: T) -> Result<(), AllocError>
        ensures ok { OnOk result (self.new ≡ map.insert self.old number value) }
        ensures err { OnErr result (self.new ≡ self.old) }
    {
        match place_near(&self.places, &self.rows, number, self.guesses.at(number)) {
            Some(place) => {
                self.rows[place] = Row { number, value };
                Ok(())
            }
            None => {
                self.add(number, value)?;
                Ok(())
            }
        }
    }

    /// Puts a value under this number if it has none, and answers whether it had none. For want of memory nothing changes.
    pub fn add(&mut self, number: u64, value: T) -> Result<bool, AllocError>
        ensures added { IfOk result (λ added. added ≡ not (map.contains_key self.old number)) }
        ensures ok { OnOk result (self.new ≡ with_new self.old number value) }
        ensures err { OnErr result (self.new ≡ self.old) }
    {
        let place = self.rows.len();
        let row = Row { number, value };
        let is_new = add(
            &mut self.places,
            &mut self.rows,
            row,
            self.guesses.at(number),
        )?;
        if is_new {
            self.guesses.grow(&self.rows);
            self.guesses.note(number, place);
        }
        Ok(is_new)
    }

    /// Takes the value of this number out, if there is one.
    pub fn remove(&mut self, number: u64)
        ensures { self.new ≡ map.remove self.old number }
    {
        if let Some(place) = place_near(&self.places, &self.rows, number, self.guesses.at(number)) {
            take_out(&mut self.places, &mut self.rows, place, number);
            self.guesses.shrink(&self.rows);
            if let Some(moved) = self.rows.get(place) {
                self.guesses.note(moved.number, place);
            }
        }
    }
}

impl<T> Numbered<T> {
    ghost use Rattle.capbits.specs.Lends.{lends_get};

    /// How many there are.
    pub fn len(&self) -> usize
        ensures { result ≡ map.len self.now }
    {
        self.rows.len()
    }

    /// The value of this number, if there is one.
    pub fn get(&self, number: u64) -> Option<&T>
        ensures { option_copied result ≡ map.get self.now number }
    {
        Some(&row_near(&self.places, &self.rows, number, self.guesses.at(number))?.value)
    }

    /// The value of this number to write, if there is one.
    pub fn get_mut(&mut self, number: u64) -> Option<&mut T>
        ensures* writes_back { sem 𝓛 (lends_get T.row self.entry number result) }
        ensures value { option_copied_mut result ≡ map.get self.old number }
    {
        let guess = self.guesses.at(number);
        let found = place_near(&self.places, &self.rows, number, guess);
        // A place past all rows where there is none.
        let place = found.unwrap_or(self.rows.len());
        match self.rows.get_mut(place) {
            Some(row) => Some(&mut row.value),
            None => None,
        }
    }

    /// The numbers that have values, in their order.
    pub fn keys(&self) -> Keys<'_, u64, usize>
        ensures { result ≡ map.keys self.now }
    {
        self.places.keys()
    }
}
