//! What the grants of a client say to an access.

use crate::rules::Rules;

/// The answer to an access.
#[derive(Drop)]
pub enum Verdict {
    /// A grant allows the access.
    Allowed {
        /// The number of the first grant that does, from 1 in the order of the text.
        grant: u32,
    },
    /// No grant allows it.
    Denied {
        /// For each grant, in order, the first rule by which it fails. None for a client without grants.
        rules: Rules,
    },
}
