//! The file of a keyring, of an auth list, or of a tree.
ghost use Rattle.std.specs.Prelude.{◌≡◌, ◌≢◌, codes, IfOk, MatchOption};
ghost use Rattle.cli_queries.specs.Files.{ReadsFile};

use crate::command_line::{INPUT, Invocation};
use crate::explain_args::Source;
use crate::fault::AnswerFault;
use std::fs::{Files, open};

/// The file that is to be read in the place of standard input, if one is.
pub fn keyring_file<E: Files>(
    files: &E,
    invocation: &Invocation,
) -> Result<Option<E::File>, AnswerFault>
    ensures { IfOk result (λ file. MatchOption file (¬ ReadsFile invocation.now) (λ opened. ReadsFile invocation.now)) }
{
    match invocation {
        Invocation::Explain(explain_args) => match &explain_args.source {
            Source::Keyring { file, .. } => {
                open_file(files, file.as_slice(), AnswerFault::Unopened)
            }
            Source::Auth { file, .. } => {
                open_file(files, file.as_slice(), AnswerFault::UnopenedAuth)
            }
            Source::Word | Source::Input => Ok(None),
        },
        Invocation::Who(who_args) => open_file(
            files,
            who_args.auth.as_slice(),
            AnswerFault::UnopenedAuth,
        ),
        Invocation::Audit(audit_args) => open_file(
            files,
            audit_args.files.tree.as_slice(),
            AnswerFault::UnopenedText,
        ),
        _ => Ok(None),
    }
}

// The file of this name, unless the name stands for standard input.
pub(crate) fn open_file<E: Files>(
    files: &E,
    name: &[u8],
    fault: AnswerFault,
) -> Result<Option<E::File>, AnswerFault>
    ensures { IfOk result (λ file. MatchOption file (name.now ≡ codes "-") (λ opened. name.now ≢ codes "-")) }
{
    if name == INPUT {
        return Ok(None);
    }
    let Ok(name) = str::from_utf8(name) else {
        return Err(fault);
    };
    match open(files, name) {
        Ok(file) => Ok(Some(file)),
        Err(_) => Err(fault),
    }
}
