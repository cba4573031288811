//! The files of a cluster's texts.

use crate::command_line::Invocation;
use crate::fault::AnswerFault;
use crate::keyring::open_file;
use std::alloc::Global;
use std::fs::Files;
use texts::{Watched, read_script};

/// Reads the auth list and the sessions that `audit` names into what is asked. Of another command nothing is read.
pub fn gather<E: Files>(
    files: &E,
    alloc: Global,
    invocation: &mut Invocation,
) -> Result<(), AnswerFault> {
    if let Invocation::Audit(audit_args) = invocation {
        audit_args.auth = read_file(files, alloc, audit_args.files.auth.as_slice())?;
        audit_args.sessions = read_file(files, alloc, audit_args.files.sessions.as_slice())?;
    }
    Ok(())
}

// What stands in the file of this name.
fn read_file<E: Files>(files: &E, alloc: Global, name: &[u8]) -> Result<Vec<u8>, AnswerFault> {
    match open_file(files, name, AnswerFault::UnopenedText)? {
        Some(file) => {
            let mut file = Watched::new(file);
            Ok(read_script(alloc, &mut file)?)
        }
        None => Err(AnswerFault::UnopenedText),
    }
}
