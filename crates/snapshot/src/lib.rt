//! What a server has published beside its lock: a beginning of its history, and the view to which that leads. Readers take it
//! from one of two copies, and know afterwards that the history begins so. Its rows stand in a book to which only one adds.
#![tactic(auto)]

mod beginning;
mod ledger;
mod note;
mod pair;
mod place;
mod publisher;
mod recorder;
mod staging;
mod tally;
mod value;

pub use beginning::Beginning;
pub use ledger::{MAX_PASSES, Server};
pub use pair::Pair;
pub use place::{PublishedReader, PublishedReading, Sees};
pub use publisher::Publisher;
pub use recorder::{NewRows, Recorder};
pub use tally::{NewTally, Tally};
