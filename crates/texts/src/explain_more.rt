//! The answer to a question with all that is worth a word beside it.
ghost use Rattle.std.specs.Prelude.{◌≡◌, ◌++◌, IfOk, OnOk};
ghost use Rattle.texts.specs.Mds.{beside_text};
ghost use Rattle.texts.specs.Remarks.{left_line};

use crate::explain_text::{print_outcome, print_reason};
use crate::line_text::{Text, print_texts};
use crate::mds_text::print_others;
use crate::quoting::print_quoted_path;
use capgrant::{Attr, Question, Verdict};
use release_rules::Others;
use std::alloc::{AllocError, Global};

/// The line of this server's answer, as `explain_line` has it but with the path in double quotes where it has to be; behind it a line for what
/// the grant of this number leaves to the client, and one for each answer that releases give otherwise. Each line ends in a line feed. Only
/// memory can be missing.
pub fn beside_lines(
    alloc: Global,
    question: &Question<'_>,
    answer: &Verdict,
    left: Option<u32>,
    others: &Others,
) -> Result<Vec<u8>, AllocError>
    ensures { IfOk result (λ lines. lines.items ≡ beside_text question.now answer.now left others.now) }
{
    let mut lines = Vec::new(alloc);
    print_outcome(&mut lines, question.access, answer)?;
    print_quoted_path(&mut lines, question.path)?;
    print_reason(&mut lines, answer)?;
    lines.push(b'\n')?;
    print_left(&mut lines, question.attr, left)?;
    print_others(&mut lines, b"", others)?;
    Ok(lines)
}

// Appends a line for what this grant leaves to the client, if there is one.
fn print_left(text: &mut Vec<u8>, attr: &Attr, left: Option<u32>) -> Result<(), AllocError>
    ensures { OnOk result (text.new.items ≡ text.old.items ++ left_line attr.now left) }
{
    let Some(grant) = left else {
        return Ok(());
    };
    let pieces = [
        Text::Word("not judged: owner "),
        Text::Number(u64::from(attr.uid)),
        Text::Word(", group "),
        Text::Number(u64::from(attr.gid)),
        Text::Word(", mode "),
        Text::Mode(attr.mode),
        Text::Word(" (grant "),
        Text::Number(u64::from(grant)),
        Text::Word(" has no uid)\n"),
    ];
    print_texts(text, &pieces)
}
