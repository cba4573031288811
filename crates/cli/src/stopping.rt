//! Why a command stopped before its end.

use crate::serve_fault::ServeFault;
use cli_queries::AnswerFault;
use texts::ScriptFault;

/// Why a command stopped before its end.
#[derive(Clone, Copy)]
pub enum Fault {
    /// A question about grants has no answer.
    Answer(AnswerFault),
    /// A script was not run to its end.
    Script(ScriptFault),
    /// A script was not served to its end.
    Serve(ServeFault),
}
