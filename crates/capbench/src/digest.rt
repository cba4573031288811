//! A number for all that a value keeps, made without memory.

use std::fmt;
use std::fmt::{Debug, Write};
use std::hash::{DefaultHasher, Hasher};

// Takes text, and keeps a hash of it.
#[derive(Drop)]
struct Digest {
    hasher: DefaultHasher,
}

impl Write for Digest {
    fn write_str(&mut self, text: &str) -> fmt::Result {
        self.hasher.write(text.as_bytes());
        Ok(())
    }
}

/// A hash of all that a value keeps, as its `Debug` tells it in lines: in one line a slab tells its room, and not what it
/// keeps. Of a core's rows it has the passes, the numbers and the requests that ended, and not the events and the replies. It
/// takes no memory: where an event found none, the core can still be compared with what it was.
pub(crate) fn digest_of<T: Debug>(value: &T) -> u64 {
    let mut digest = Digest {
        hasher: DefaultHasher::new(),
    };
    let _ = write!(digest, "{value:#?}");
    digest.hasher.finish()
}
