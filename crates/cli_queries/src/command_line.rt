//! The words of the command line.

use crate::audit_args::AuditArgs;
use crate::explain_args::ExplainArgs;
use crate::from_clap::invoked;
use crate::usage::{COMMANDS, Kind, Usage, Word};
use crate::who_args::WhoArgs;
use clap::error::ErrorKind;
use clap::{Arg, ArgAction, Command, Error};
use queries::{Telling, spell};
use release_rules::Release;
use std::alloc::{AllocError, Global};
use texts::Shape;

const CAPD: &str = "capd";

// The project's version. `tools/dev package` takes it from what `capd --version` prints.
const VERSION: &str = "0";

pub const EXPLAIN: &str = "explain";

pub const GRANTS: &str = "grants";

pub const COMPARE: &str = "compare";

pub const LINT: &str = "lint";

pub const WHO: &str = "who";

pub const AUDIT: &str = "audit";

pub const LOG: &str = "log";

pub const RUN: &str = "run";

pub const SERVE: &str = "serve";

pub const TEXT: &str = "text";

pub const OLD: &str = "old";

pub const NEW: &str = "new";

pub const AUTH: &str = "auth";

pub const SESSIONS: &str = "sessions";

pub const TREE: &str = "tree";

pub const RULE: &str = "rule";

pub const KEYRING: &str = "keyring";

pub const CLIENT: &str = "client";

pub const QUIET: &str = "quiet";

pub const MORE: &str = "more";

pub const JSON: &str = "json";

pub const MDS: &str = "mds";

pub const ONLY_DENIED: &str = "denied";

/// The option that counts.
pub const COUNTS: &str = "count";

/// The value of `--grants`, of `--keyring` or of `--auth` that stands for standard input.
pub const INPUT: &[u8] = b"-";

const STATUSES: &str = "Status:
  0  the whole answer was written; of `explain --quiet`: allowed
  1  a value, a text or a script has a fault, a read or a write failed, or memory was missing
  2  the command line is wrong
  3  of `explain --quiet`: denied; of `lint` and `audit`: something was found; of `who`, `audit` and `log`: something could not be judged";

/// What a command line asks for.
pub enum Invocation {
    /// Whether grants allow an access.
    Explain(ExplainArgs),
    /// The written form of the grants in a text.
    Grants {
        text: Vec<u8>,
        /// Whether the place of a fault is to be shown.
        more: bool,
        /// The release that is to read the form; none is this server.
        mds: Option<Release>,
    },
    /// What grants allow that others deny.
    Compare {
        /// The text of the old grants.
        old: Vec<u8>,
        /// The text of the new ones.
        new: Vec<u8>,
        /// How the answer is told, and whether more is told behind it.
        telling: Telling,
        /// The release by whose rules alone they are compared; this server's where there is none.
        mds: Option<Release>,
        /// The address that the client comes from, where it is given.
        addr: Option<Vec<u8>>,
    },
    /// What is found in the grants of a text.
    Lint {
        text: Vec<u8>,
        /// How the answer is written.
        shape: Shape,
        /// The release by whose rules it is found; none is this server, with what Ceph 18 and 20 have beside it.
        mds: Option<Release>,
    },
    /// Which clients of a cluster may make an access.
    Who(WhoArgs),
    /// What clients of a cluster hold and may not.
    Audit(AuditArgs),
    /// What the checks of policy in a log are answered.
    Log {
        /// The file system of a check that names none.
        fs: Vec<u8>,
        /// Whether what is allowed is left out.
        only_denied: bool,
        /// The release by whose rules alone it is; none is this server.
        mds: Option<Release>,
        /// By lines, or by objects.
        shape: Shape,
        /// Whether what is told is counted.
        counts: bool,
    },
    /// The transcript of a script.
    Run {
        /// Whether more is to be said of what stops it.
        more: bool,
    },
    /// The history of a script whose clients call at once.
    Serve {
        /// Whether more is to be said of what stops it.
        more: bool,
    },
}

// Not derived: so the proof of a function that drops one has a single call there.
impl Drop for Invocation {
    fn drop(self) {
        match self {
            Invocation::Explain(_) => {}
            Invocation::Grants {
                text: _,
                more: _,
                mds: _,
            } => {}
            Invocation::Compare {
                old: _,
                new: _,
                telling: _,
                mds: _,
                addr: _,
            } => {}
            Invocation::Lint {
                text: _,
                shape: _,
                mds: _,
            } => {}
            Invocation::Who(_) => {}
            Invocation::Audit(_) => {}
            Invocation::Log {
                fs: _,
                only_denied: _,
                mds: _,
                shape: _,
                counts: _,
            } => {}
            Invocation::Run { more: _ } => {}
            Invocation::Serve { more: _ } => {}
        }
    }
}

/// What the words behind the program's name ask for. The error's text says what is wrong with the words, or it is the
/// help that they ask for; `queries::spelled` gives its bytes.
pub fn parse(alloc: Global, words: &[Vec<u8>]) -> Result<Invocation, Error> {
    let mut texts = Vec::new(alloc);
    for word in words {
        texts.push(spell(alloc, word.as_slice())?)?;
    }
    parse_texts(alloc, texts.as_slice())
}

fn parse_texts(alloc: Global, texts: &[String]) -> Result<Invocation, Error> {
    let mut command = capd(alloc)?;
    parse_by(alloc, &mut command, texts)
}

fn parse_by<'a>(
    alloc: Global,
    command: &mut Command<'a>,
    texts: &'a [String],
) -> Result<Invocation, Error> {
    let matches = command.try_get_matches_from_mut(texts)?;
    match invoked(alloc, &matches) {
        Ok(invocation) => Ok(invocation),
        Err(kind) => Err(command.error(kind, said_of(kind))?),
    }
}

// What is said of words that the parser lets through.
fn said_of(kind: ErrorKind) -> &'static str {
    match kind {
        ErrorKind::InvalidValue =>
            "--mds takes a release that was asked: 16 (16.2.15), 18 (18.2.7) or 20 (20.2.4)",
        _ => "a word is missing",
    }
}

fn capd<'a>(alloc: Global) -> Result<Command<'a>, AllocError> {
    let commands = subcommands(alloc)?;
    let command = Command::new(alloc, CAPD)
        .no_binary_name(true)
        .version(VERSION)
        .about("What CephFS clients may do, and why not")
        .after_help(STATUSES)
        .subcommand_required(true)
        .bin_name(CAPD)?;
    command.subcommands(commands)
}

fn subcommands<'a>(alloc: Global) -> Result<Vec<Command<'a>>, AllocError> {
    let mut commands = Vec::new(alloc);
    for usage in &COMMANDS {
        commands.push(subcommand(alloc, usage)?)?;
    }
    Ok(commands)
}

fn subcommand<'a>(alloc: Global, usage: &Usage) -> Result<Command<'a>, AllocError> {
    let (name, about, example): (&'a str, &'a str, &'a str) = (
        usage.name,
        usage.about,
        usage.example,
    );
    let arguments = arguments(alloc, usage.words)?;
    Command::new(alloc, name)
        .about(about)
        .after_help(example)
        .args(arguments)
}

fn arguments<'a>(alloc: Global, words: &[Word]) -> Result<Vec<Arg<'a>>, AllocError> {
    let mut arguments = Vec::new(alloc);
    for word in words {
        arguments.push(argument(alloc, word)?)?;
    }
    Ok(arguments)
}

fn argument<'a>(alloc: Global, word: &Word) -> Result<Arg<'a>, AllocError> {
    let mut argument = given(alloc, word)?;
    for name in word.bars {
        let name: &'a str = name.text();
        argument = argument.conflicts_with(name)?;
    }
    match &word.needs {
        Some(name) => {
            let name: &'a str = name.text();
            argument.requires_arg(name)
        }
        None => Ok(argument),
    }
}

// How the word is given.
fn given<'a>(alloc: Global, word: &Word) -> Result<Arg<'a>, AllocError> {
    let (name, value, help): (&'a str, &'a str, &'a str) = (
        word.name.text(),
        word.value,
        word.help,
    );
    let argument = Arg::new(alloc, name).help(help);
    if let Kind::Flag = word.kind {
        return Ok(argument.long(name).action(ArgAction::SetTrue));
    }
    let argument = argument.value_name(value).action(ArgAction::Set);
    if let Kind::Bare = word.kind {
        return Ok(argument.required(true));
    }
    let argument = argument.long(name);
    match word.kind {
        Kind::Needed => Ok(argument.required(true)),
        Kind::Text => argument.required_unless_present_any(&[KEYRING, AUTH]),
        Kind::Usual => Ok(argument.default_value("cephfs")),
        Kind::Bare | Kind::Optional | Kind::Flag => Ok(argument),
    }
}
