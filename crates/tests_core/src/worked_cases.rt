//! Worked cases of the definitions: laws that give their values, proved from these alone. No code takes part. They are read with the tests
//! alone, so each is proved once.

mod cap_texts;
mod entries;
mod grant_texts;
mod holdings;
mod kept_lists;
mod lock_moves;
mod lock_table;
mod osd_objects;
mod permitted;
mod releases;
mod reply_texts;
mod sessions;
mod steps;
mod tables;
mod trees;
mod verdicts;
mod views;
