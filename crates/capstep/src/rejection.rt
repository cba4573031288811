//! What rejects a request.
ghost use Rattle.std.specs.Prelude.{◌≡◌};
ghost use Rattle.capstep.specs.Judge.{rejection_reply};

use crate::reply::Reply;
use capbits::Refusal;
use capgrant::{Access, Rules};

/// What rejects a request, whether it has just come or was waiting for a lock.
#[derive(Drop)]
pub enum Rejection {
    /// No grant of the client allows an access that the request needs.
    ByPolicy {
        /// The first such access.
        access: Access,
        /// For each grant, in order, the first rule by which it fails. None for a client without grants.
        rules: Rules,
    },
    /// A test fails.
    ByTest(Refusal),
}

impl Rejection {
    /// Returns the reply to the request that it rejects.
    pub fn into_reply(self) -> Reply
        ensures reply { result ≡ rejection_reply self }
    {
        match self {
            Rejection::ByPolicy { access, rules } => Reply::Denied { access, rules },
            Rejection::ByTest(refusal) => Reply::Refused(refusal),
        }
    }
}
