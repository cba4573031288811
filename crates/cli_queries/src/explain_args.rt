//! What `explain` is asked, where the text of its grants is, and how it answers.
ghost use Rattle.std.specs.Prelude.{OnOk, IfErr, IsFalse, MatchResult};
ghost use Rattle.texts.specs.Watched.{has_ended, has_failed, inner_of};
ghost use Rattle.cli_queries.specs.ExplainArgs.{IsGrantsText, IsListed, IsUnlisted, IsUnread, IsWithoutLineFeed};

use crate::fault::AnswerFault;
use ceph_input::{mds_caps, read_auth};
use queries::Values;
use release_rules::Release;
use std::alloc::Global;
use std::io::Read;
use texts::{Watched, read_script};

/// Where the text of the grants is.
pub enum Source {
    /// On the command line.
    Word,
    /// Standard input, all of it but a line feed at its end.
    Input,
    /// A keyring.
    Keyring {
        /// The name of its file, or `-` for standard input.
        file: Vec<u8>,
        /// Whose section it is.
        client: Vec<u8>,
    },
    /// An auth list.
    Auth {
        /// The name of its file, or `-` for standard input.
        file: Vec<u8>,
        /// Who of the list the client is.
        client: Vec<u8>,
    },
}

// Not derived: so the proof of a function that drops one has a single call there.
impl Drop for Source {
    fn drop(self) {
        match self {
            Source::Word => {}
            Source::Input => {}
            Source::Keyring { file: _, client: _ } => {}
            Source::Auth { file: _, client: _ } => {}
        }
    }
}

/// How the question is answered.
#[derive(Clone, Copy)]
pub enum Form {
    /// By a line.
    Line,
    /// By that line, and by lines for what is worth a word beside it.
    More,
    /// By an object of JSON that says all of it, as a line.
    Object,
    /// By the status alone.
    Status,
}

/// What `explain` is asked.
pub struct ExplainArgs {
    /// The values of the options. The grants are those of the command line.
    pub values: Values,
    /// Where the text of the grants is.
    pub source: Source,
    /// How the question is answered.
    pub form: Form,
    /// The release by whose rules it is; none is this server.
    pub mds: Option<Release>,
}

// Not derived: so the proof of a function that drops one has a single call there.
impl Drop for ExplainArgs {
    fn drop(self) {
        let ExplainArgs {
            values: _,
            source: _,
            form: _,
            mds: _,
        } = self;
    }
}

/// Puts the text of the grants, from where it is, in the place of that of the command line. The reader has what stands there.
pub fn fill<R: Read>(
    alloc: Global,
    source: &Source,
    grants: &mut Vec<u8>,
    reader: &mut Watched<R>,
) -> Result<(), AnswerFault>
    requires clear { IsFalse (has_failed reader.old) }
    requires unended { IsFalse (has_ended reader.old) }
    ensures ok { OnOk result (IsFalse (has_failed reader.new)
        × IsGrantsText source.now grants.old.items (R.remaining (inner_of reader.old)) grants.new.items) }
    ensures err { IfErr result (λ fault. IsUnread source.now fault (R.remaining (inner_of reader.old)) (has_failed reader.new)) }
{
    match source {
        Source::Word => {}
        Source::Input => {
            let mut text = read_script(alloc, reader)?;
            take_line_feed_off(&mut text);
            *grants = text;
        }
        Source::Keyring { client, .. } => {
            let keyring = read_script(alloc, reader)?;
            *grants = mds_caps(alloc, keyring.as_slice(), client.as_slice())?;
        }
        Source::Auth { client, .. } => {
            let auth = read_script(alloc, reader)?;
            *grants = listed(alloc, auth.as_slice(), client.as_slice())?;
        }
    }
    Ok(())
}

// The text of the grants of a client of an auth list.
fn listed(alloc: Global, auth: &[u8], client: &[u8]) -> Result<Vec<u8>, AnswerFault>
    ensures { MatchResult result
        (λ caps. IsListed auth.now client.now caps.items)
        (λ fault. IsUnlisted auth.now client.now fault) }
{
    let list = read_auth(alloc, auth)?;
    let mut caps = Vec::new(alloc);
    caps.extend_from_slice(list.mds_caps(client)?)?;
    Ok(caps)
}

// Takes a line feed off the end, if one is there.
fn take_line_feed_off(text: &mut Vec<u8>)
    ensures { IsWithoutLineFeed text.old.items text.new.items }
{
    if text.last() == Some(&b'\n') {
        text.pop();
    }
}
