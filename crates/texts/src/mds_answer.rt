//! The object that says what the MDS of a release answers, and the members for where releases answer otherwise than this server.
ghost use Rattle.std.specs.Prelude.{◌≡◌, IfOk, OnOk};
ghost use Rattle.serde_json.specs.Data.{put};
ghost use Rattle.serde_json.specs.View.{members_view, view};
ghost use Rattle.texts.specs.Answers.{is_of_access, other_value, others_table, reason_if, reason_word};
ghost use Rattle.texts.specs.MdsAnswers.{failures_value, grant_value, mds_object, mds_table, mds_value, mds_word};
ghost use Rattle.texts.specs.Pieces.{piece_value};
ghost use Rattle.texts.specs.Values.{ReadsBack, natural, or_null, with_all};

use crate::explain_object::verdict_word;
use crate::mds_asked::MdsAccess;
use crate::question_object::put_question;
use crate::table::{Members, Piece, numbered, print_object, put_all};
use capgrant::Question;
use release_rules::{Others, Otherwise, Reason, Release, Verdict};
use serde_json::{Map, Value, put};
use std::alloc::{AllocError, Global};

/// What the MDS of a release says to a question.
#[derive(Clone, Copy)]
pub struct MdsSaid<'a> {
    /// The release.
    pub release: Release,
    /// What is asked for, in the place of the access of the question.
    pub access: MdsAccess,
    /// What its MDS says.
    pub verdict: &'a Verdict,
    /// The number of the grant by which the client itself refuses, where it does.
    pub refused: Option<usize>,
}

/// The object that says what is asked, of which release, what its MDS says and by which grant or rules, and by which grant the client itself
/// refuses to change attributes. What is asked for is told in the place of the access of the question. It is a line, with its line feed. Only
/// memory can be missing.
pub fn mds_object(
    alloc: Global,
    number: Option<u64>,
    question: &Question<'_>,
    said: &MdsSaid<'_>,
) -> Result<Vec<u8>, AllocError>
    ensures line { IfOk result (λ line. line.items ≡ mds_object number said.now.release said.now.access question.now said.now.verdict.now said.now.refused) }
    ensures reads { OnOk result (ReadsBack (mds_value number said.now.release said.now.access question.now said.now.verdict.now said.now.refused)) }
{
    let mut members = numbered(alloc, number)?;
    put_question(&mut members, alloc, question)?;
    put_mds(&mut members, alloc, said)?;
    let mut line = Vec::new(alloc);
    print_object(&mut line, members)?;
    Ok(line)
}

// Adds what is asked for, which MDS it is, and what is said.
fn put_mds(members: &mut Members, alloc: Global, said: &MdsSaid<'_>) -> Result<(), AllocError>
    ensures { OnOk result (members_view members.new.entries
        ≡ with_all (mds_table said.now.release said.now.access said.now.verdict.now said.now.refused) (members_view members.old.entries)) }
{
    let table = [
        ("access", Piece::Access(said.access)),
        ("mds", Piece::Word(said.release.version())),
        ("verdict", Piece::Word(mds_word(said.verdict))),
        ("grant", grant_piece(said.verdict)),
        ("rules", failures_piece(said.verdict)),
        ("refused_by_client", count_if(said.refused)),
    ];
    put_all(members, alloc, &table)
}

/// The word for an answer of an MDS in an object.
pub fn mds_word(verdict: &Verdict) -> &'static str
    ensures { result.now ≡ mds_word verdict.now }
{
    match verdict {
        Verdict::CannotMount => "cannot-mount",
        Verdict::Allowed { .. } => "allowed",
        Verdict::DependsOnAddress { .. } => "depends-on-address",
        Verdict::Denied { .. } => "denied",
    }
}

/// The grant that the verdict is by.
pub fn grant_piece(verdict: &Verdict) -> Piece<'static>
    ensures { piece_value result ≡ grant_value verdict.now }
{
    match verdict {
        Verdict::Allowed { grant } | Verdict::DependsOnAddress { grant } => {
            Piece::Number(*grant as u64)
        }
        Verdict::CannotMount | Verdict::Denied { .. } => Piece::Null,
    }
}

/// The rules that it is by.
pub fn failures_piece(verdict: &Verdict) -> Piece<'_>
    ensures { piece_value result ≡ failures_value verdict.now }
{
    match verdict {
        Verdict::Denied { rules } => Piece::MdsRules(rules.as_slice()),
        _ => Piece::Null,
    }
}

/// This number, where there is one.
pub(crate) fn count_if(number: Option<usize>) -> Piece<'static>
    ensures { piece_value result ≡ or_null natural number }
{
    match number {
        Some(number) => Piece::Number(number as u64),
        None => Piece::Null,
    }
}

// ---- where releases answer otherwise

/// Adds of each release what it answers where that is something else, and else null.
pub(crate) fn put_others(
    members: &mut Members,
    alloc: Global,
    others: &Others,
) -> Result<(), AllocError>
    ensures { OnOk result (members_view members.new.entries ≡ with_all (others_table others.now) (members_view members.old.entries)) }
{
    put_other(members, alloc, "ceph16", &others.pacific)?;
    put_other(members, alloc, "ceph18", &others.reef)?;
    put_other(members, alloc, "ceph20", &others.tentacle)
}

fn put_other(
    members: &mut Members,
    alloc: Global,
    key: &str,
    other: &Option<Otherwise>,
) -> Result<(), AllocError>
    ensures { OnOk result (members_view members.new.entries ≡ put key.now (or_null other_value other.now) (members_view members.old.entries)) }
{
    let value = other_if(alloc, other)?;
    put(members, alloc, key, value)
}

fn other_if(alloc: Global, other: &Option<Otherwise>) -> Result<Value, AllocError>
    ensures { IfOk result (λ value. view value ≡ or_null other_value other.now) }
{
    let Some(other) = other else {
        return Ok(Value::default());
    };
    let mut members = Map::new(alloc);
    let reason = other.reason;
    let of_access = is_of_access(reason);
    let table = [
        ("verdict", Piece::Word(verdict_word(other.allows))),
        ("grant", Piece::Number(other.grant as u64)),
        ("by_grant", reason_if(!of_access, reason)),
        ("by_access", reason_if(of_access, reason)),
    ];
    put_all(&mut members, alloc, &table)?;
    Ok(Value::from(members))
}

// Whether the access makes the difference, and not the grant.
fn is_of_access(reason: Reason) -> bool
    ensures { result ≡ is_of_access reason }
{
    matches!(reason, Reason::AttributeByFlag | Reason::ModeByBits)
}

fn reason_if(condition: bool, reason: Reason) -> Piece<'static>
    ensures { piece_value result ≡ reason_if condition reason }
{
    if condition {
        Piece::Word(reason_word(reason))
    } else {
        Piece::Null
    }
}

fn reason_word(reason: Reason) -> &'static str
    ensures { result.now ≡ reason_word reason }
{
    match reason {
        Reason::OtherFileSystem => "other-file-system",
        Reason::ZeroUid => "zero-uid",
        Reason::LargeUid => "large-uid",
        Reason::PathAsText => "path-as-text",
        Reason::AttributeByFlag => "attribute-by-flag",
        Reason::ModeByBits => "mode-by-bits",
        Reason::GroupsInOrder => "groups-in-order",
        Reason::OtherText => "other-text",
    }
}
