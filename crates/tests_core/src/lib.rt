//! Tests of the public calls of all that needs no command: caps, grants, the tree, the table of caps, sessions and locks; the core and its
//! scripts; what an audit finds; and a server of many threads, of which `beside` sees what no script shows.
//!
//! They show what no answer of a command shows; all else is asked in the talks of `capbench`. They stand in a crate of their own,
//! since a crate with tests is proved twice. The asserts stand in helpers without a contract, and so do the reads of values, since
//! the proof of a test goes through each fact that its body is told.
//!
//! Beside them stand worked cases of the definitions, as laws, which no test calls.
#![tactic(auto)]

#[cfg(test)]
mod asking;
#[cfg(test)]
mod asserting;
#[cfg(test)]
mod beside;
#[cfg(test)]
mod caps;
#[cfg(test)]
mod ceph_rules;
#[cfg(test)]
mod entries;
#[cfg(test)]
mod errors;
#[cfg(test)]
mod event_lines;
#[cfg(test)]
mod failing_streams;
#[cfg(test)]
mod gathers;
#[cfg(test)]
mod histories;
#[cfg(test)]
mod library;
#[cfg(test)]
mod looking;
#[cfg(test)]
mod moved_entries;
#[cfg(test)]
mod numbered_maps;
#[cfg(test)]
mod recalls;
#[cfg(test)]
mod runs;
#[cfg(test)]
mod sessions_end;
#[cfg(test)]
mod small_lists;
#[cfg(test)]
mod spelling;
#[cfg(test)]
mod steps;
#[cfg(test)]
mod trees;
#[cfg(test)]
mod triple_lists;
#[cfg(test)]
mod values;
#[cfg(test)]
mod viewing;
#[cfg(test)]
mod views;
#[cfg(test)]
mod waits;
#[cfg(test)]
mod worked_cases;
