//! Where a reader of an array stands.

use crate::place::Place;

/// Where a reader of an array stands.
#[derive(Clone, Copy)]
pub enum Stage {
    /// Before the bracket that opens the array.
    Opening,
    /// Behind it, before the first item.
    First,
    /// Behind a comma, before an item.
    Next,
    /// In an item, before a byte at this place.
    Item(Place),
    /// Behind the bracket that closes the array.
    Closing,
}
