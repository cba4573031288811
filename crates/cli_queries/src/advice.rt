//! What is said of a fault, and beside it.
ghost use Rattle.std.specs.Prelude.{◌≡◌};

use crate::caret::point_at;
use crate::command_line::Invocation;
use crate::explain_args::Form;
use crate::fault::AnswerFault;
use crate::file_systems::{given_value, named_by, names_line};
use crate::status::{FAILED, report};
use capspec::SpecFaultKind;
use ceph_input::{AuthFault, ClusterFault, KeyringFault, TreeFault};
use cluster_audit::HeldFault;
use queries::{
    AttemptValues, CompareFault, MdsCompareFault, Opt, QuestionFault, Uncompared, Values,
};
use std::alloc::{AllocError, Global};
use std::io::Write;
use texts::print_quoted;

/// Writes the fault as a line, its place in a text of grants, and what helps against it, and returns its status.
pub fn refuse(
    alloc: Global,
    invocation: &Invocation,
    fault: AnswerFault,
    faults: &mut impl Write,
) -> u8
    ensures { result ≡ FAILED }
{
    let status = report(fault, faults);
    let refused = refused(invocation, fault);
    if let Some((text, at)) = refused
        && shows_more(invocation)
    {
        point_at(alloc, text, at, faults);
    }
    if let Some(advice) = advice(fault, refused) {
        let _ = writeln!(faults, "hint: {advice}");
    }
    match fault {
        AnswerFault::Question(QuestionFault::BadValue(option)) if shows_more(invocation) => {
            name_value(alloc, invocation, option, faults);
        }
        AnswerFault::SeveralFileSystems => name_each(alloc, invocation, faults),
        _ => {}
    }
    status
}

// Writes the file systems that grants name. Without memory for that nothing is written.
fn name_each(alloc: Global, invocation: &Invocation, faults: &mut impl Write) {
    let named = named_by(invocation);
    if let Ok(line) = names_line(alloc, b"hint: --fs takes one of them: ", named) {
        let _ = faults.write_all(line.as_slice());
    }
}

// Writes the bad value, in quotes where it has to be, and what the option takes. Without memory for that nothing is written.
fn name_value(alloc: Global, invocation: &Invocation, option: Opt, faults: &mut impl Write) {
    let Ok(value) = quoted_value(alloc, value_of(invocation, option)) else {
        return;
    };
    let taken = taken_by(invocation, option);
    let _ = write!(faults, "hint: --{option} ");
    let _ = faults.write_all(value.as_slice());
    let _ = writeln!(faults, ": {taken}");
}

fn quoted_value(alloc: Global, value: &[u8]) -> Result<Vec<u8>, AllocError> {
    let mut text = Vec::new(alloc);
    if value.is_empty() {
        text.extend_from_slice(b"\"\"")?;
    } else {
        print_quoted(&mut text, value)?;
    }
    Ok(text)
}

fn value_of(invocation: &Invocation, option: Opt) -> &[u8] {
    match invocation {
        Invocation::Explain(explain_args) => asked_value(&explain_args.values, option),
        Invocation::Who(who_args) => attempted_value(&who_args.values, option),
        Invocation::Audit(audit_args) => value_or_none(&audit_args.fs),
        Invocation::Log {
            fs,
            only_denied: _,
            mds: _,
            shape: _,
            counts: _,
        } => fs.as_slice(),
        Invocation::Compare { addr, .. } => value_or_none(addr),
        _ => b"",
    }
}

fn asked_value(values: &Values, option: Opt) -> &[u8] {
    let value = match option {
        Opt::Grants => &values.grants,
        Opt::Fs => &values.fs,
        Opt::Uid => &values.uid,
        Opt::Gid => &values.gid,
        Opt::Groups => return value_or_none(&values.groups),
        Opt::Path => &values.path,
        Opt::Owner => &values.owner,
        Opt::Group => &values.group,
        Opt::Mode => &values.mode,
        Opt::Access => &values.access,
        Opt::Addr => return value_or_none(&values.addr),
    };
    value.as_slice()
}

fn attempted_value(values: &AttemptValues, option: Opt) -> &[u8] {
    let value = match (option, &values.attr) {
        (Opt::Access, _) => &values.access,
        (Opt::Path, _) => &values.path,
        (Opt::Fs, _) => return value_or_none(&values.fs),
        (Opt::Owner, Some(attr)) => &attr.owner,
        (Opt::Group, Some(attr)) => &attr.group,
        (Opt::Mode, Some(attr)) => &attr.mode,
        _ => return b"",
    };
    value.as_slice()
}

// A value that may be left out.
fn value_or_none(value: &Option<Vec<u8>>) -> &[u8] {
    given_value(value).unwrap_or(b"")
}

// What the option takes.
fn taken_by(invocation: &Invocation, option: Opt) -> &'static str {
    match option {
        Opt::Grants => "a text of grants",
        Opt::Fs => "1 to 64 bytes out of A-Z a-z 0-9 _ . -",
        Opt::Uid | Opt::Gid | Opt::Owner | Opt::Group => "a decimal number up to 4294967295",
        Opt::Groups =>
            "1 to 16 decimal numbers with a comma between them; left out where there is none",
        Opt::Path => "at most 32 names of at most 255 bytes, with / between them",
        Opt::Mode => "1 to 4 octal digits, or the kind of the inode and 4 of them, as 0100640",
        Opt::Access if matches!(invocation, Invocation::Explain(_)) =>
            "one of read, write, vxattr, snapshot, chmod, chown:N, chgrp:N; with --mds also readwrite, mask:BITS:UID:GID",
        Opt::Access => "one of read, write, vxattr, snapshot, chmod, chown:N, chgrp:N",
        Opt::Addr =>
            "an IPv4 or an IPv6 address, as 10.0.0.1 or fd00::1, without a port or a length",
    }
}

// What helps against the fault, where something is known to help; it may be one of a text of grants, at this place.
fn advice(fault: AnswerFault, refused: Option<(&[u8], usize)>) -> Option<&'static str> {
    match fault {
        AnswerFault::Question(QuestionFault::Grants(_))
        | AnswerFault::NotRead(_)
        | AnswerFault::Compare(_)
        | AnswerFault::MdsCompare(_) => {
            let (text, at) = refused?;
            pasted(text, at)
        }
        AnswerFault::Keyring(KeyringFault::NoEntity) => Some(
            "--client takes a name that the keyring has between [ and ], as client.tenant",
        ),
        AnswerFault::Keyring(KeyringFault::NoCaps) => {
            Some("the client's section has no line caps mds = \"..\"")
        }
        AnswerFault::Keyring(KeyringFault::NotQuoted) => Some(
            "caps mds = takes one text in double quotes, with a backslash before each quote in it",
        ),
        AnswerFault::Unopened => Some(
            "--keyring takes the name of a file, or - for standard input",
        ),
        AnswerFault::UnopenedAuth => Some(
            "--auth takes the name of a file, or - for standard input",
        ),
        AnswerFault::Auth(found) | AnswerFault::Cluster(HeldFault::Auth(found)) => listing(found),
        AnswerFault::UnopenedText => Some(
            "--auth and --sessions take the names of files, and --tree that of one, or - for standard input",
        ),
        AnswerFault::Cluster(HeldFault::Sessions(found)) => connecting(found),
        AnswerFault::Tree(TreeFault::NotJson { .. }) => {
            Some("--tree takes what `ceph tell mds.FS:0 dump tree /` prints")
        }
        AnswerFault::Tree(TreeFault::BadItem { .. }) => Some(
            "an inode has numbers at ino, uid, gid and mode, and lists at client_caps and dirfrags if they are there",
        ),
        _ => None,
    }
}

// What an auth list has, and who is looked for in it.
fn listing(fault: AuthFault) -> Option<&'static str> {
    match fault {
        AuthFault::NotJson { .. } | AuthFault::NoList => {
            Some("--auth takes what `ceph auth ls -f json` prints")
        }
        AuthFault::NotAnEntity { .. } => Some(
            "an entity has a text at entity and an object at caps, in which mds is a text if it is there",
        ),
        AuthFault::NoEntity => Some(
            "--client takes a name that the list has at entity, as client.tenant",
        ),
        AuthFault::NoCaps => Some("the client has no caps for the MDS"),
        AuthFault::NoMemory => None,
    }
}

// What sessions have.
fn connecting(fault: ClusterFault) -> Option<&'static str> {
    match fault {
        ClusterFault::NotJson { .. } | ClusterFault::NoList => {
            Some("--sessions takes what `ceph tell mds.FS:0 session ls` prints")
        }
        ClusterFault::BadItem { .. } => Some("a session has a number at id"),
        ClusterFault::NoMemory => None,
    }
}

// Whether more than the line of the fault is shown: with `--more` alone where this line is all that a script may look for.
fn shows_more(invocation: &Invocation) -> bool {
    match invocation {
        Invocation::Explain(explain_args) => matches!(explain_args.form, Form::More),
        Invocation::Grants { more, .. } => *more,
        _ => true,
    }
}

// The text of grants that has the fault, and how many bytes stand before it. Of a text with nothing but white space there is no place.
fn refused<'a>(invocation: &'a Invocation, fault: AnswerFault) -> Option<(&'a [u8], usize)> {
    let at = place_of(fault)?;
    let text = match (invocation, fault) {
        (Invocation::Explain(explain_args), _) => &explain_args.values.grants,
        (Invocation::Grants { text, .. } | Invocation::Lint { text, .. }, _) => text,
        (Invocation::Compare { old, .. }, AnswerFault::Compare(CompareFault::Old(_))) => old,
        (Invocation::Compare { old, .. }, AnswerFault::MdsCompare(MdsCompareFault::Old(_))) => old,
        (Invocation::Compare { new, .. }, _) => new,
        _ => return None,
    };
    Some((text.as_slice(), at))
}

// The place of a fault of a text of grants.
fn place_of(fault: AnswerFault) -> Option<usize> {
    let found = match fault {
        AnswerFault::NotRead(found) => return Some(found.at),
        AnswerFault::MdsCompare(
            MdsCompareFault::Old(Uncompared::NotRead(found))
            | MdsCompareFault::New(Uncompared::NotRead(found)),
        ) => return Some(found.at),
        AnswerFault::Question(QuestionFault::Grants(found))
        | AnswerFault::Compare(CompareFault::Old(found) | CompareFault::New(found)) => found,
        _ => return None,
    };
    match found.kind {
        SpecFaultKind::Empty => None,
        _ => Some(found.at),
    }
}

// Against a line of a keyring, or a text in quotes, in the place of the text in it; and against what stands at the place or behind it.
fn pasted(text: &[u8], at: usize) -> Option<&'static str> {
    let front = text.trim_ascii_start();
    if front.starts_with(b"caps mds") || front.starts_with(b"\"") || front.starts_with(b"'") {
        return Some("paste what stands between the quotes");
    }
    let behind = text.get(at..)?;
    if stands_in(behind, b"\\\"") {
        Some("leave out the backslash before each quote")
    } else if stands_in(behind, b"\r") {
        Some("leave out the carriage return at the end of each line")
    } else {
        None
    }
}

fn stands_in(text: &[u8], part: &[u8]) -> bool {
    for place in 0..text.len() {
        if text[place..].starts_with(part) {
            return true;
        }
    }
    false
}
