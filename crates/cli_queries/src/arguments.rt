//! The words of the command line, as bytes.

use std::alloc::{AllocError, Global};
use std::env::{Env, FillError};

/// The room for a word that is tried first, in bytes. It is doubled until the word fits.
const FIRST_ROOM: usize = 256;

/// The words behind the program's name, as bytes.
pub fn words<R: Env>(env: &R, alloc: Global) -> Result<Vec<Vec<u8>>, AllocError> {
    let mut words = Vec::new(alloc);
    for place in 1..usize::MAX {
        match word(env, alloc, place)? {
            Some(word) => words.push(word)?,
            None => break,
        }
    }
    Ok(words)
}

// The word at a place of the command line, or None behind the last. A word that no buffer holds is want of memory.
fn word<R: Env>(env: &R, alloc: Global, place: usize) -> Result<Option<Vec<u8>>, AllocError> {
    let mut room = FIRST_ROOM;
    for _ in 0..usize::BITS {
        let mut word = vec![in alloc; 0; room]?;
        match env.arg(place, word.as_mut_slice()) {
            Ok(len) => {
                word.truncate(len);
                return Ok(Some(word));
            }
            Err(FillError::NotPresent) => return Ok(None),
            Err(FillError::TooLong) => room = room.saturating_mul(2),
        }
    }
    Err(AllocError)
}
