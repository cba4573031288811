//! What the grants of a client let it do.
ghost use Rattle.std.specs.Prelude.{◌≡◌, IfOk, position};
ghost use Rattle.release_rules.specs.Verdicts.{allows, first_failures, is_for_everything, lets_mount, may_allow, may_mount, verdict_of};
ghost use Rattle.release_rules.specs.Clients.{changes_attributes, client_refuses, decided};
ghost use Rattle.release_rules.specs.Failing.{may_allow_somewhere};

use crate::question::{Question, is_for_other_fs, user_of};
use crate::verdict::{Rules, Verdict};
use capgrant::Access;
use capspec::FsName;
use release_grants::{Grant, Switches, without_first_slashes};
use std::alloc::{AllocError, Global};

/// Whether a client with these grants may mount the file system: else the MDS opens no session for it. In Ceph 20 a client that may only by a grant
/// of everything in another file system gets a session, in which every access is denied, and so its mount ends all the same.
///
/// Needs no memory.
pub fn may_mount(switches: Switches, fs: &FsName, grants: &[Grant]) -> bool
    ensures { result ≡ may_mount switches fs.now grants.now }
{
    for grant in grants {
        if lets_mount(switches, fs, grant) {
            return true;
        }
    }
    false
}

// Whether a client may mount the file system by this grant.
#[tactic(auto, unfolding(crate::specs::Verdicts::lets_mount))]
fn lets_mount(switches: Switches, fs: &FsName, grant: &Grant) -> bool
    ensures { result ≡ lets_mount switches fs.now grant.now }
{
    is_for_everything(switches, grant) || !is_for_other_fs(fs, grant)
}

/// Whether a grant is for everything: `*` or `all`, for all users and the whole tree, whatever its fsname and its network. By such a grant a client
/// mounts each file system, and commands each MDS.
pub fn is_for_everything(switches: Switches, grant: &Grant) -> bool
    ensures { result ≡ is_for_everything switches grant.now }
{
    let is_whole_tree = match &grant.path {
        Some(path) => without_first_slashes(path.as_bytes()).is_empty(),
        None => true,
    };
    grant.flags.all && user_of(switches, grant).is_none() && is_whole_tree
}

/// What the MDS of a release says to a question: by which grant it allows, or which rule each grant fails by first. Where it hangs on the address of
/// the client alone, and that is not told, the verdict says so.
///
/// Only memory can be missing, for the rules of a denial.
pub fn mds_verdict(
    alloc: Global,
    switches: Switches,
    question: &Question,
    grants: &[Grant],
) -> Result<Verdict, AllocError>
    ensures { IfOk result (λ verdict. verdict ≡ verdict_of switches question.now grants.now) }
{
    if !may_mount(switches, question.fs, grants) {
        return Ok(Verdict::CannotMount);
    }
    if let Some(place) = first_allowing(switches, question, grants) {
        return Ok(Verdict::Allowed { grant: place + 1 });
    }
    if let Some(place) = first_maybe_allowing(switches, question, grants) {
        return Ok(Verdict::DependsOnAddress { grant: place + 1 });
    }
    Ok(Verdict::Denied {
        rules: first_failures(alloc, switches, question, grants)?,
    })
}

// The place of the first grant that allows what is asked.
fn first_allowing(switches: Switches, question: &Question, grants: &[Grant]) -> Option<usize>
    ensures { result ≡ position (allows switches question.now) grants.now }
{
    grants
        .iter()
        .position(|grant| question.is_allowed_by(switches, grant))
}

// The place of the first grant that allows what is asked, if the client is in its network.
fn first_maybe_allowing(switches: Switches, question: &Question, grants: &[Grant]) -> Option<usize>
    ensures { result ≡ position (may_allow switches question.now) grants.now }
{
    grants
        .iter()
        .position(|grant| question.may_be_allowed_by(switches, grant))
}

/// The place, from 0, of the first grant that allows what is asked of what lies in its directory, if the client is in its network. So no path
/// helps where there is none.
///
/// Needs no memory.
pub fn first_somewhere(switches: Switches, question: &Question, grants: &[Grant]) -> Option<usize>
    ensures { result ≡ position (may_allow_somewhere switches question.now) grants.now }
{
    grants
        .iter()
        .position(|grant| question.may_be_allowed_somewhere(switches, grant))
}

// The first rule by which each grant fails, of those that do.
fn first_failures(
    alloc: Global,
    switches: Switches,
    question: &Question,
    grants: &[Grant],
) -> Result<Rules, AllocError>
    ensures { IfOk result (λ rules. rules ≡ first_failures switches question.now grants.now) }
{
    let mut rules = Rules::new(alloc);
    for grant in grants {
        rules.add(question.first_failing(switches, grant))?;
    }
    Ok(rules)
}

/// Whether an access changes attributes as a client sees it, which looks at its grants before it asks for such a one: to write may be to change the
/// size or the times.
pub fn changes_attributes(access: Access) -> bool
    ensures { result ≡ changes_attributes access }
{
    !matches!(access, Access::Read | Access::SetVxattr | Access::Snapshot)
}

/// The number of the grant, from 1, by which a client of the release refuses its caller to change attributes of the inode (chmod, chown, truncate,
/// utime, an open by what it holds), before the MDS is asked: of the grants for the caller and the inode the last one decides. What else is asked
/// plays no part, nor does the client's address.
///
/// Needs no memory.
pub fn client_refuses(switches: Switches, question: &Question, grants: &[Grant]) -> Option<usize>
    ensures { result ≡ client_refuses switches question.now grants.now }
{
    if !switches.clients_check {
        return None;
    }
    let mut refused = None;
    for (place, grant) in grants.iter().enumerate() {
        refused = decided(switches, question, place + 1, refused, grant);
    }
    refused
}

// What is left of a refusal behind a grant with this number.
fn decided(
    switches: Switches,
    question: &Question,
    number: usize,
    before: Option<usize>,
    grant: &Grant,
) -> Option<usize>
    ensures { result ≡ decided switches question.now number before grant.now }
{
    if !question.is_met_by(switches, grant) {
        return before;
    }
    if question.is_refused_by(grant) {
        Some(number)
    } else {
        None
    }
}
