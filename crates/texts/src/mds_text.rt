//! What the MDS of a release says to a question, as lines.
ghost use Rattle.std.specs.Prelude.{◌≡◌, ◌++◌, IfOk, OnOk, map};
ghost use Rattle.texts.specs.Mds.{mds_failure, mds_failures, mds_line, mds_outcome, mds_reason, mds_text, others_lines, reason_text};
ghost use Rattle.texts.specs.Mds.{refused_line, said, said_line, said_lines, said_word, with_last};

use crate::line_text::{Text, print_texts};
use crate::mds_asked::MdsAccess;
use capbits::{print, print_numbered, print_str};
use release_rules::{Others, Otherwise, Reason, Rule, Verdict};
use std::alloc::{AllocError, Global};

/// The line that says what the MDS of a release answers to the access to the inode with these names from the root down, and by which grant or
/// rules, with the path in double quotes where it has to be; and a line for the grant by which the client itself refuses, where there is one.
/// Each ends in a line feed. Only memory can be missing.
pub fn mds_lines(
    alloc: Global,
    access: MdsAccess,
    path: &[&[u8]],
    verdict: &Verdict,
    refused: Option<usize>,
) -> Result<Vec<u8>, AllocError>
    ensures { IfOk result (λ lines. lines.items ≡ mds_text access (map (λ name. name.now) path.now) verdict.now refused) }
{
    let mut lines = Vec::new(alloc);
    print_mds_line(&mut lines, access, path, verdict)?;
    lines.push(b'\n')?;
    print_refused(&mut lines, refused)?;
    Ok(lines)
}

// Appends what the MDS answers, without a line feed.
fn print_mds_line(
    text: &mut Vec<u8>,
    access: MdsAccess,
    path: &[&[u8]],
    verdict: &Verdict,
) -> Result<(), AllocError>
    ensures { OnOk result (text.new.items ≡ text.old.items ++ mds_line access (map (λ name. name.now) path.now) verdict.now) }
{
    let pieces = [
        Text::Word(mds_outcome(verdict)),
        Text::Access(access),
        Text::Word(" "),
        Text::Path(path),
    ];
    print_texts(text, &pieces)?;
    print_mds_reason(text, verdict)
}

/// What is said of an answer of an MDS before all else, with a space behind it.
pub fn mds_outcome(verdict: &Verdict) -> &'static str
    ensures { result.now ≡ mds_outcome verdict.now }
{
    match verdict {
        Verdict::Allowed { .. } => "allowed ",
        Verdict::DependsOnAddress { .. } => "depends on the address: ",
        Verdict::CannotMount | Verdict::Denied { .. } => "denied ",
    }
}

/// Appends by which grant or rules an MDS answers so, behind a space. `AllocError` where no memory is left for it; some of it may stand in the text
/// then.
pub fn print_mds_reason(text: &mut Vec<u8>, verdict: &Verdict) -> Result<(), AllocError>
    ensures { OnOk result (text.new.items ≡ text.old.items ++ mds_reason verdict.now) }
{
    match verdict {
        Verdict::CannotMount => print_str(text, " no grant lets the client mount"),
        Verdict::Allowed { grant } | Verdict::DependsOnAddress { grant } => {
            print_numbered(text, " grant ", *grant as u64)
        }
        Verdict::Denied { rules } => {
            print_str(text, " ")?;
            print_mds_failures(text, rules.as_slice())
        }
    }
}

/// Appends the rules of an MDS by which the grants fail, the number of each grant from 1. `AllocError` where no memory is left for it; some of it may
/// stand in the text then.
pub fn print_mds_failures(text: &mut Vec<u8>, rules: &[Rule]) -> Result<(), AllocError>
    ensures { OnOk result (text.new.items ≡ text.old.items ++ mds_failures rules.now) }
{
    if rules.is_empty() {
        print_str(text, "no grants")?;
    }
    for (place, rule) in rules.iter().enumerate() {
        if place > 0 {
            print_str(text, ", ")?;
        }
        print_failure(text, place + 1, *rule)?;
    }
    Ok(())
}

fn print_failure(text: &mut Vec<u8>, number: usize, rule: Rule) -> Result<(), AllocError>
    ensures { OnOk result (text.new.items ≡ text.old.items ++ mds_failure (number, rule)) }
{
    let (rule_number, word) = (rule.number(), rule.word());
    print(
        text,
        format_args!("grant {number} rule {rule_number} {word}"),
    )
}

/// Appends a line for the grant by which the client itself refuses to change attributes, where there is one.
pub(crate) fn print_refused(text: &mut Vec<u8>, refused: Option<usize>) -> Result<(), AllocError>
    ensures { OnOk result (text.new.items ≡ text.old.items ++ refused_line refused) }
{
    match refused {
        Some(grant) => print(
            text,
            format_args!("the client itself refuses to change attributes (grant {grant})\n"),
        ),
        None => Ok(()),
    }
}

// ---- where releases answer otherwise

/// Appends behind this front a line for each answer that releases give otherwise, with the releases that give it and the reason. `AllocError`
/// where no memory is left for it; some of it may stand in the text then.
pub fn print_others(text: &mut Vec<u8>, front: &[u8], others: &Others) -> Result<(), AllocError>
    ensures { OnOk result (text.new.items ≡ text.old.items ++ others_lines front.now others.now) }
{
    let alloc = *text.allocator();
    let pacific = said(alloc, &others.pacific)?;
    let reef = said(alloc, &others.reef)?;
    let tentacle = said(alloc, &others.tentacle)?;
    print_all_said(
        text,
        front,
        pacific.as_slice(),
        reef.as_slice(),
        tentacle.as_slice(),
    )
}

// What is said behind the releases that answer so.
fn said(alloc: Global, other: &Option<Otherwise>) -> Result<Vec<u8>, AllocError>
    ensures { IfOk result (λ words. words.items ≡ said other.now) }
{
    let mut words = Vec::new(alloc);
    if let Some(other) = other {
        let (word, reason, grant) = (
            said_word(other.allows),
            words_for(other.reason),
            other.grant,
        );
        print(&mut words, format_args!("{word}{reason} (grant {grant})\n"))?;
    }
    Ok(words)
}

fn said_word(allows: bool) -> &'static str
    ensures { result.now ≡ said_word allows }
{
    if allows {
        " allows this: "
    } else {
        " denies this: "
    }
}

fn words_for(reason: Reason) -> &'static str
    ensures { result.now ≡ reason_text reason }
{
    match reason {
        Reason::OtherFileSystem => "a grant for another file system counts there after the mount",
        Reason::ZeroUid => "uid=0 names nobody there",
        Reason::LargeUid => "a grant with a uid of 2147483648 or more is for nobody there",
        Reason::PathAsText => "a slash at the end of the path, or two side by side, count there",
        Reason::AttributeByFlag => "a quota or a layout asks there for the flag p alone",
        Reason::ModeByBits =>
            "a change of the mode asks there for the mode bits of write, not for the owner",
        Reason::GroupsInOrder =>
            "a group of the caller's counts there only where no greater one stands before it",
        Reason::OtherText => "the text of the grants is read otherwise there",
    }
}

// Appends a line for each release of which something is said, and one for those that follow each other and of which the same is.
fn print_all_said(
    text: &mut Vec<u8>,
    front: &[u8],
    pacific: &[u8],
    reef: &[u8],
    tentacle: &[u8],
) -> Result<(), AllocError>
    ensures { OnOk result (text.new.items ≡ text.old.items ++ said_lines front.now pacific.now reef.now tentacle.now) }
{
    if pacific == reef {
        return print_with_last(text, front, "16, 18 and 20", "16 and 18", pacific, tentacle);
    }
    print_said(text, front, "16", pacific)?;
    print_with_last(text, front, "18 and 20", "18", reef, tentacle)
}

// Appends a line for releases of which this is said and for 20 together, where the same is said of it, or one for those and one for 20.
fn print_with_last(
    text: &mut Vec<u8>,
    front: &[u8],
    together: &str,
    releases: &str,
    words: &[u8],
    tentacle: &[u8],
) -> Result<(), AllocError>
    ensures { OnOk result (text.new.items ≡ text.old.items ++ with_last front.now together.now releases.now words.now tentacle.now) }
{
    if words == tentacle {
        return print_said(text, front, together, words);
    }
    print_said(text, front, releases, words)?;
    print_said(text, front, "20", tentacle)
}

// Appends a line for these releases, where something is said of them.
fn print_said<'x>(
    text: &mut Vec<u8>,
    front: &'x [u8],
    releases: &'x str,
    words: &'x [u8],
) -> Result<(), AllocError>
    ensures { OnOk result (text.new.items ≡ text.old.items ++ said_line front.now releases.now words.now) }
{
    if words.is_empty() {
        return Ok(());
    }
    let pieces = [
        Text::Bytes(front),
        Text::Word("the MDS of Ceph "),
        Text::Word(releases),
        Text::Bytes(words),
    ];
    print_texts(text, &pieces)
}
