//! The object that answers a question, with all that is worth a word beside it.
ghost use Rattle.std.specs.Prelude.{◌≡◌, IfOk, OnOk};
ghost use Rattle.serde_json.specs.View.{members_view};
ghost use Rattle.texts.specs.Answers.{answer_object, answer_value, remarks_table, verdict_word};
ghost use Rattle.texts.specs.Pieces.{piece_value};
ghost use Rattle.texts.specs.Values.{ReadsBack, natural, or_null, with_all};

use crate::mds_answer::put_others;
use crate::question_object::put_question;
use crate::table::{Members, Piece, numbered, print_object, put_all};
use crate::verdict_object::put_verdict;
use capgrant::{Question, Verdict};
use release_rules::Others;
use std::alloc::{AllocError, Global};

/// The object that says what is asked, what the verdict is and by which grant or rules, which grant leaves the inode's owner, group and
/// mode to the client, and what the MDS of each release answers where it answers otherwise; of a line of a log its number too. It is a line, with
/// its line feed. Only memory can be missing.
pub fn answer_object(
    alloc: Global,
    number: Option<u64>,
    question: &Question<'_>,
    verdict: &Verdict,
    left: Option<u32>,
    others: &Others,
) -> Result<Vec<u8>, AllocError>
    ensures line { IfOk result (λ line. line.items ≡ answer_object number question.now verdict.now left others.now) }
    ensures reads { OnOk result (ReadsBack (answer_value number question.now verdict.now left others.now)) }
{
    let mut members = numbered(alloc, number)?;
    put_question(&mut members, alloc, question)?;
    put_verdict(&mut members, alloc, verdict)?;
    put_remarks(&mut members, alloc, left, others)?;
    let mut line = Vec::new(alloc);
    print_object(&mut line, members)?;
    Ok(line)
}

// Adds what is worth a word beside a verdict.
fn put_remarks(
    members: &mut Members,
    alloc: Global,
    left: Option<u32>,
    others: &Others,
) -> Result<(), AllocError>
    ensures { OnOk result (members_view members.new.entries ≡ with_all (remarks_table left others.now) (members_view members.old.entries)) }
{
    put_all(members, alloc, &[("left_to_client", number_if(left))])?;
    put_others(members, alloc, others)
}

fn number_if(number: Option<u32>) -> Piece<'static>
    ensures { piece_value result ≡ or_null natural number }
{
    match number {
        Some(number) => Piece::Number(u64::from(number)),
        None => Piece::Null,
    }
}

/// Whether it allows, as a word.
pub(crate) fn verdict_word(allows: bool) -> &'static str
    ensures { result.now ≡ verdict_word allows }
{
    if allows { "allowed" } else { "denied" }
}
