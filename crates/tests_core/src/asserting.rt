//! The asserts of the tests.
//!
//! None of these functions has a contract: a test needs nothing of what they saw, and so its proof carries none of it. They
//! take values and not references to temporaries, of which each costs every later goal. A failure is told with a line of this
//! file, so `place` has to say which one it is.

use std::fmt::Debug;
use std::process::Abort;

/// Fails the test unless both values are equal.
pub fn same<T: PartialEq + Debug + Drop>(
    rt: &impl Abort,
    found: T,
    wanted: T,
    place: impl Debug + Copy,
) {
    if found != wanted {
        panic!(rt; "{found:?}, and not {wanted:?}: at {place:?}");
    }
}

/// What a call has made. Fails the test where it has not.
pub fn made<T, E: Debug + Drop>(
    rt: &impl Abort,
    found: Result<T, E>,
    place: impl Debug + Copy,
) -> T {
    match found {
        Ok(value) => value,
        Err(error) => panic!(rt; "{error:?}: at {place:?}"),
    }
}

/// What is there. Fails the test where nothing is.
pub fn present<T>(rt: &impl Abort, found: Option<T>, what: &str) -> T {
    found.expect(rt, what)
}
