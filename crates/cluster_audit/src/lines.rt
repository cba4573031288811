//! The lines of an audit.
ghost use Rattle.std.specs.Prelude.{◌≡◌, ◌++◌, OnOk, codes, map};
ghost use Rattle.cluster_audit.specs.Findings.{is_unjudged};
ghost use Rattle.cluster_audit.specs.Lines.{beyond_text, denial_text, group_line, held_line, pathless_line, place_text, revoked_text, unjudged_text, unknown_line, unknown_text, who_text, why_text};

use crate::findings::{Denial, Finding, rules_there};
use crate::held::Held;
use crate::unjudged::Unknown;
use capbits::{CapSet, print_str};
use std::alloc::AllocError;
use texts::{Text, print_failures, print_mds_failures, print_texts};

// Appends the line for a client that holds of an inode what nobody behind its key is permitted.
pub(crate) fn print_held(
    text: &mut Vec<u8>,
    held: &Held<'_>,
    found: &Finding,
) -> Result<(), AllocError>
    ensures { OnOk result (text.new.items ≡ text.old.items
        ++ held_line (map (λ name. name.now) held.now.path.now) held.now.client.now held.now.session held.now.issued held.now.pending found.now
        (is_unjudged held.now.unchecked found.now.caps)) }
{
    print_place(text, held.path, held.client, held.session)?;
    print_beyond(text, held.issued, held.pending, found)?;
    print_str(text, line_end(held.is_unjudged(found)))
}

// What ends the line for what is held, by whether nobody judges what is written back by it.
fn line_end(unjudged: bool) -> &'static str
    ensures { result.now ≡ unjudged_text unjudged ++ codes "\n" }
{
    if unjudged {
        " (unjudged from Ceph 18 on)\n"
    } else {
        "\n"
    }
}

// Appends why a client holds what nobody behind its key is permitted, and which client, by which such lines are counted.
pub(crate) fn print_group(
    text: &mut Vec<u8>,
    client: &[u8],
    found: &Finding,
) -> Result<(), AllocError>
    ensures { OnOk result (text.new.items ≡ text.old.items ++ group_line client.now found.now) }
{
    print_why(text, found)?;
    let end = [Text::Word(" "), Text::Quoted(client), Text::Word("\n")];
    print_texts(text, &end)
}

// Appends where something is held and by whom.
pub(crate) fn print_place<'x>(
    text: &mut Vec<u8>,
    path: &'x [&'x [u8]],
    client: &'x [u8],
    session: u64,
) -> Result<(), AllocError>
    ensures { OnOk result (text.new.items ≡ text.old.items ++ place_text (map (λ name. name.now) path.now) client.now session) }
{
    let pieces = [
        Text::Path(path),
        Text::Word(" "),
        Text::Quoted(client),
        Text::Word(" session "),
        Text::Number(session),
    ];
    print_texts(text, &pieces)
}

// Appends a client and the number of its session.
pub(crate) fn print_who(text: &mut Vec<u8>, client: &[u8], session: u64) -> Result<(), AllocError>
    ensures { OnOk result (text.new.items ≡ text.old.items ++ who_text client.now session) }
{
    let who = [
        Text::Quoted(client),
        Text::Word(" session "),
        Text::Number(session),
    ];
    print_texts(text, &who)
}

// Appends what is held, what of it nobody is permitted, and why.
fn print_beyond(
    text: &mut Vec<u8>,
    issued: CapSet,
    pending: CapSet,
    found: &Finding,
) -> Result<(), AllocError>
    ensures { OnOk result (text.new.items ≡ text.old.items ++ beyond_text issued pending found.now) }
{
    let pieces = [
        Text::Word(" holds "),
        Text::Caps(issued),
        Text::Word(", may not "),
        Text::Caps(found.caps),
    ];
    print_texts(text, &pieces)?;
    print_revoked(text, found.caps.minus(pending))?;
    print_str(text, ": ")?;
    print_why(text, found)
}

// Appends which of these are being revoked already.
fn print_revoked(text: &mut Vec<u8>, revoked: CapSet) -> Result<(), AllocError>
    ensures { OnOk result (text.new.items ≡ text.old.items ++ revoked_text revoked) }
{
    if revoked.is_empty() {
        return Ok(());
    }
    let pieces = [
        Text::Word(" (being revoked: "),
        Text::Caps(revoked),
        Text::Word(")"),
    ];
    print_texts(text, &pieces)
}

// Appends by which rules the grants deny the access that is missing.
fn print_why(text: &mut Vec<u8>, found: &Finding) -> Result<(), AllocError>
    ensures { OnOk result (text.new.items ≡ text.old.items ++ why_text found.now.missing found.now.denial) }
{
    match found.missing {
        None => print_str(text, "no access permits it"),
        Some(_) => print_denial(text, &found.denial),
    }
}

fn print_denial(text: &mut Vec<u8>, denial: &Denial) -> Result<(), AllocError>
    ensures { OnOk result (text.new.items ≡ text.old.items ++ denial_text denial.now) }
{
    match denial {
        Denial::Own(rules) => print_failures(text, rules.as_slice()),
        Denial::There(standing) => match rules_there(standing) {
            Some(rules) => print_mds_failures(text, rules),
            None => print_str(text, "no grant lets the client mount"),
        },
    }
}

// Appends what is not known of what a client holds.
pub(crate) fn print_unknown_line(
    text: &mut Vec<u8>,
    unknown: Unknown,
    path: &[&[u8]],
    client: &[u8],
    session: u64,
) -> Result<(), AllocError>
    ensures { OnOk result (text.new.items ≡ text.old.items ++ unknown_line unknown (map (λ name. name.now) path.now) client.now session) }
{
    print_place(text, path, client, session)?;
    let what = [
        Text::Word(" holds what is "),
        Text::Word(unknown_text(unknown)),
    ];
    print_texts(text, &what)
}

fn unknown_text(unknown: Unknown) -> &'static str
    ensures { result.now ≡ unknown_text unknown }
{
    match unknown {
        Unknown::Spelling => "not known\n",
        Unknown::Address => "permitted from some addresses alone\n",
    }
}

// Appends that a client holds something of an inode to which no path leads.
pub(crate) fn print_pathless_line<'x>(
    text: &mut Vec<u8>,
    number: u64,
    client: &'x [u8],
    session: u64,
    issued: &'x [u8],
) -> Result<(), AllocError>
    ensures { OnOk result (text.new.items ≡ text.old.items ++ pathless_line number client.now session issued.now) }
{
    let pieces = [
        Text::Word("inode "),
        Text::Number(number),
        Text::Word(": no path: "),
        Text::Quoted(client),
        Text::Word(" session "),
        Text::Number(session),
        Text::Word(" holds "),
        Text::Quoted(issued),
        Text::Word("\n"),
    ];
    print_texts(text, &pieces)
}
