//! Where the MDS of a release answers otherwise than this server, and why.
ghost use Rattle.std.specs.Prelude.{◌≡◌, slice_get, IfOk};
ghost use Rattle.release_rules.specs.Beside.{allowed_there, beside, denied_there, names_nobody, other_of, others_of, why_allowed, why_by_mode};
ghost use Rattle.release_rules.specs.Beside.{why_denied, why_squashed, zero_uid_or};

use crate::judging::mds_verdict;
use crate::question::Question;
use crate::release::Release;
use crate::rule::Rule;
use crate::verdict::Verdict;
use capgrant::Access;
use release_grants::{Grant, Switches, read_grants};
use std::alloc::{AllocError, Global};

/// Why an MDS answers otherwise than this server, by the grant that makes the difference.
#[derive(Clone, Copy)]
pub enum Reason {
    /// The grant is for another file system, and counts there once the client has mounted.
    OtherFileSystem,
    /// Its `uid=0` names nobody there.
    ZeroUid,
    /// Its uid, of 2147483648 or more, is for nobody there.
    LargeUid,
    /// Its path is compared there as a text: a slash at the end of it, or two side by side, count.
    PathAsText,
    /// To set an attribute whose name begins with `ceph.` asks there for the flag p alone.
    AttributeByFlag,
    /// To change the mode asks there for the bits of the mode as to write does, and not for the owner.
    ModeByBits,
    /// A group of the caller's counts there only where no greater one stands before it.
    GroupsInOrder,
    /// The text of the grants is read otherwise there.
    OtherText,
}

/// What the MDS of a release answers, where it is the opposite of what this server does.
#[derive(Clone, Copy)]
pub struct Otherwise {
    /// Whether it allows, by the grant, what is denied here; or else it denies what the grant allows here.
    pub allows: bool,
    /// The number of the grant, from 1: the first that allows.
    pub grant: usize,
    /// What makes the difference.
    pub reason: Reason,
}

/// What each release answers, where that is the opposite of what this server does.
#[derive(Clone, Copy)]
pub struct Others {
    /// What Ceph 16.2.15 does.
    pub pacific: Option<Otherwise>,
    /// What Ceph 18.2.7 does.
    pub reef: Option<Otherwise>,
    /// What Ceph 20.2.4 does.
    pub tentacle: Option<Otherwise>,
}

/// What each release answers to an access, where its MDS allows and this server denies by the same text of grants, or the other way round: nothing
/// where it does not read the text, or where no grant lets the client mount. `answer` is what this server says, and `question` asks for the access.
///
/// Only memory can be missing.
pub fn answers_beside(
    alloc: Global,
    text: &[u8],
    question: &Question<'_>,
    access: Access,
    answer: &capgrant::Verdict,
) -> Result<Others, AllocError>
    ensures { IfOk result (λ others. others ≡ others_of question.now access answer.now text.now) }
{
    Ok(Others {
        pacific: answer_beside(alloc, Release::Pacific, text, question, access, answer)?,
        reef: answer_beside(alloc, Release::Reef, text, question, access, answer)?,
        tentacle: answer_beside(alloc, Release::Tentacle, text, question, access, answer)?,
    })
}

fn answer_beside(
    alloc: Global,
    release: Release,
    text: &[u8],
    question: &Question<'_>,
    access: Access,
    answer: &capgrant::Verdict,
) -> Result<Option<Otherwise>, AllocError>
    ensures { IfOk result (λ other. other ≡ other_of release question.now access answer.now text.now) }
{
    let switches = release.switches();
    match read_grants(alloc, text, switches)? {
        Ok(grants) => {
            let grants = grants.as_slice();
            let verdict = mds_verdict(alloc, switches, question, grants)?;
            Ok(beside(switches, grants, access, answer, &verdict))
        }
        Err(_) => Ok(None),
    }
}

// What is said beside this server's answer, by what the MDS says.
fn beside(
    switches: Switches,
    grants: &[Grant],
    access: Access,
    answer: &capgrant::Verdict,
    verdict: &Verdict,
) -> Option<Otherwise>
    ensures { result ≡ beside switches grants.now access answer.now verdict.now }
{
    match (answer, verdict) {
        (capgrant::Verdict::Allowed { grant }, Verdict::Denied { rules }) => {
            Some(denied_there(access, *grant as usize, rules.as_slice()))
        }
        (capgrant::Verdict::Denied { rules }, Verdict::Allowed { grant }) => {
            let rules = rules.as_slice();
            Some(allowed_there(switches, grants, access, *grant, rules))
        }
        _ => None,
    }
}

/// What is said where the grant of this number, from 1, is the first that allows here, and the MDS denies by these rules, one for each grant.
pub fn denied_there(access: Access, number: usize, rules: &[Rule]) -> Otherwise
    ensures { result ≡ denied_there access number rules.now }
{
    let place = number.saturating_sub(1);
    let rule = rules.get(place).copied();
    Otherwise {
        allows: false,
        grant: number,
        reason: why_denied(access, rule),
    }
}

/// What is said where the grant of this number, from 1, is the first of these that allows there, and this server denies by these rules, one for
/// each grant.
pub fn allowed_there(
    switches: Switches,
    grants: &[Grant],
    access: Access,
    number: usize,
    rules: &[capgrant::Rule],
) -> Otherwise
    ensures { result ≡ allowed_there switches grants.now access number rules.now }
{
    let place = number.saturating_sub(1);
    let rule = rules.get(place).copied();
    let nobody = names_nobody(switches, grants, place);
    Otherwise {
        allows: true,
        grant: number,
        reason: why_allowed(access, nobody, rule),
    }
}

// Whether the release reads the uid of the grant at the place as none.
fn names_nobody(switches: Switches, grants: &[Grant], place: usize) -> bool
    ensures { result ≡ names_nobody switches (slice_get grants.now place) }
{
    match grants.get(place) {
        Some(grant) => switches.zero_is_no_uid && matches!(grant.uid, Some(0)),
        None => false,
    }
}

// Why a grant allows there that fails here by this rule.
fn why_allowed(access: Access, nobody: bool, rule: Option<capgrant::Rule>) -> Reason
    ensures { result ≡ why_allowed access nobody rule }
{
    let Some(rule) = rule else {
        return Reason::OtherText;
    };
    match rule {
        capgrant::Rule::FsName => Reason::OtherFileSystem,
        capgrant::Rule::Uid | capgrant::Rule::Gids | capgrant::Rule::NotOwnGroup => Reason::ZeroUid,
        capgrant::Rule::NoWrite => Reason::AttributeByFlag,
        capgrant::Rule::RootSquash => why_squashed(access),
        capgrant::Rule::NotOwner => zero_uid_or(nobody, Reason::ModeByBits),
        capgrant::Rule::ModeBits => zero_uid_or(nobody, why_by_mode(access)),
        capgrant::Rule::Path | capgrant::Rule::NoP | capgrant::Rule::NoS => Reason::OtherText,
    }
}

// Why it does that squashes root.
fn why_squashed(access: Access) -> Reason
    ensures { result ≡ why_squashed access }
{
    match access {
        Access::SetVxattr => Reason::AttributeByFlag,
        _ => Reason::ZeroUid,
    }
}

// That the uid names nobody there, or else this reason.
fn zero_uid_or(nobody: bool, reason: Reason) -> Reason
    ensures { result ≡ zero_uid_or nobody reason }
{
    if nobody { Reason::ZeroUid } else { reason }
}

// Why a grant that allows here fails there by this rule.
fn why_denied(access: Access, rule: Option<Rule>) -> Reason
    ensures { result ≡ why_denied access rule }
{
    match rule {
        Some(Rule::Uid) => Reason::LargeUid,
        Some(Rule::Path) => Reason::PathAsText,
        Some(Rule::NotOwnGroup) => Reason::GroupsInOrder,
        Some(Rule::ModeBits) => why_by_mode(access),
        _ => Reason::OtherText,
    }
}

fn why_by_mode(access: Access) -> Reason
    ensures { result ≡ why_by_mode access }
{
    match access {
        Access::SetVxattr => Reason::AttributeByFlag,
        Access::Chmod => Reason::ModeByBits,
        _ => Reason::GroupsInOrder,
    }
}
