//! What is handed on of a text.

/// An item that is whole.
pub struct Cut<'c> {
    /// The number of its first byte in the text, from 0.
    pub byte: u64,
    /// What stands in the chunk behind the item and behind the comma or the bracket that ends it.
    pub rest: &'c [u8],
}

// Not derived: so the proof of a function that drops one has a single call there.
impl Drop for Cut<'_> {
    fn drop(self) {
        let Cut { byte: _, rest: _ } = self;
    }
}
