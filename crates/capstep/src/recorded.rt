//! What a client is given and the history keeps.

/// A value for a client, and its copy for the history.
#[derive(Drop)]
pub struct Recorded<T> {
    /// What the client is given.
    pub given: T,
    /// What the history keeps of it, which is the same.
    pub recorded: T,
}
