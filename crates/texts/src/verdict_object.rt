//! Verdicts.
ghost use Rattle.std.specs.Prelude.{◌≡◌, OnOk};
ghost use Rattle.serde_json.specs.View.{members_view};
ghost use Rattle.capgrant.specs.declared.answer.Verdict.TheVariants as verdicts;
ghost use Rattle.texts.specs.Answers.{allowing_table, verdict_table};
ghost use Rattle.texts.specs.Values.{with_all};

use crate::table::{Members, Piece, put_all};
use capgrant::{Rule, Verdict};
use std::alloc::{AllocError, Global};

/// Adds what the verdict is, and by which grant or rules.
pub(crate) fn put_verdict(
    members: &mut Members,
    alloc: Global,
    verdict: &Verdict,
) -> Result<(), AllocError>
    ensures { OnOk result (members_view members.new.entries ≡ with_all (verdict_table verdict.now) (members_view members.old.entries)) }
{
    match verdict {
        Verdict::Allowed { grant } => put_allowing(members, alloc, "allowed", *grant),
        Verdict::Denied { rules } => put_denial(members, alloc, rules.as_slice()),
    }
}

/// Adds this word for a verdict, with the grant that it is by.
pub(crate) fn put_allowing(
    members: &mut Members,
    alloc: Global,
    word: &str,
    grant: u32,
) -> Result<(), AllocError>
    ensures { OnOk result (members_view members.new.entries ≡ with_all (allowing_table word.now grant) (members_view members.old.entries)) }
{
    let table = [
        ("verdict", Piece::Word(word)),
        ("grant", Piece::Number(u64::from(grant))),
    ];
    put_all(members, alloc, &table)
}

/// Adds that it is denied, and the rule by which each grant fails.
pub(crate) fn put_denial(
    members: &mut Members,
    alloc: Global,
    rules: &[Rule],
) -> Result<(), AllocError>
    ensures { OnOk result (members_view members.new.entries
        ≡ with_all (verdict_table (verdicts.Denied rules.now)) (members_view members.old.entries)) }
{
    let table = [
        ("verdict", Piece::Word("denied")),
        ("rules", Piece::Rules(rules)),
    ];
    put_all(members, alloc, &table)
}
