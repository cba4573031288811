//! What in a grant means something else to the MDS of a release than it seems to.

ghost use Rattle.std.specs.Prelude.{◌≡◌, ◌++◌, ◌-◌, ◌<◌, ◌||◌, drop, length, IfOk, OnOk};
ghost use Rattle.capspec.specs.Paths.{has_double_slash};
ghost use Rattle.policy_analysis.specs.Oddities.{commands_mds, has_gids_alone, has_large_uid, has_no_network, has_two_slashes, has_zero_uid, oddities};
ghost use Rattle.policy_analysis.specs.Oddities.{oddities_of};

use release_grants::{Grant, Switches, directory_of, writes_network};
use release_rules::is_for_everything;
use std::alloc::{AllocError, Global};

/// What is odd in a grant.
#[derive(Clone, Copy)]
pub enum Oddity {
    /// Its uid is 0, which the release takes for no uid: the grant is for every user.
    ZeroUid,
    /// It has gids and no uid: they mean nothing, and the grant is for every user.
    GidsAlone,
    /// It is for everything and names a file system: a client commands every MDS by it, and mounts every file system.
    CommandsMds,
    /// What it has for a network is none, as where the length is missing: it is for nobody.
    NoNetwork,
    /// Two slashes stand side by side within its path: it is for nothing.
    TwoSlashes,
    /// Its uid is 2147483648 or more, which no caller has: it is for nobody.
    LargeUid,
}

/// What is odd in one grant of a list.
#[derive(Clone, Copy)]
pub struct OddGrant {
    /// The number of the grant, from 1.
    pub grant: usize,
    /// What is odd in it.
    pub oddity: Oddity,
}

const ODDITIES: [Oddity; 6] = [
    Oddity::ZeroUid,
    Oddity::GidsAlone,
    Oddity::CommandsMds,
    Oddity::NoNetwork,
    Oddity::TwoSlashes,
    Oddity::LargeUid,
];

impl Oddity {
    ghost use Rattle.std.specs.Prelude.{◌≡◌};
    ghost use Rattle.policy_analysis.specs.Oddities.{is_odd};

    // Whether this is odd in the grant.
    fn is_in(self, switches: Switches, grant: &Grant) -> bool
        ensures { result ≡ is_odd switches grant.now self }
    {
        match self {
            Oddity::ZeroUid => has_zero_uid(switches, grant),
            Oddity::GidsAlone => has_gids_alone(grant),
            Oddity::CommandsMds => commands_mds(switches, grant),
            Oddity::NoNetwork => has_no_network(grant),
            Oddity::TwoSlashes => has_two_slashes(switches, grant),
            Oddity::LargeUid => has_large_uid(grant),
        }
    }
}

/// All that is odd in the grants, by what a release does its own way: grant by grant, in their order.
pub fn oddities(
    alloc: Global,
    switches: Switches,
    grants: &[Grant],
) -> Result<Vec<OddGrant>, AllocError>
    ensures { IfOk result (λ found. found.items ≡ oddities switches grants.now) }
{
    let mut found = Vec::new(alloc);
    for (place, grant) in grants.iter().enumerate() {
        push_oddities(&mut found, switches, place + 1, grant)?;
    }
    Ok(found)
}

// Appends what is odd in the grant of this number.
fn push_oddities(
    found: &mut Vec<OddGrant>,
    switches: Switches,
    number: usize,
    grant: &Grant,
) -> Result<(), AllocError>
    ensures { OnOk result (found.new.items ≡ found.old.items ++ oddities_of switches number grant.now) }
{
    for oddity in &ODDITIES {
        if oddity.is_in(switches, grant) {
            found.push(OddGrant {
                grant: number,
                oddity: *oddity,
            })?;
        }
    }
    Ok(())
}

fn has_zero_uid(switches: Switches, grant: &Grant) -> bool
    ensures { result ≡ has_zero_uid switches grant.now }
{
    switches.zero_is_no_uid && grant.uid.is_some_and(|uid| uid == 0)
}

fn has_gids_alone(grant: &Grant) -> bool
    ensures { result ≡ has_gids_alone grant.now }
{
    grant.uid.is_none() && !grant.gids.as_slice().is_empty()
}

fn commands_mds(switches: Switches, grant: &Grant) -> bool
    ensures { result ≡ commands_mds switches grant.now }
{
    grant.fsname.is_some() && is_for_everything(switches, grant)
}

fn has_no_network(grant: &Grant) -> bool
    ensures { result ≡ has_no_network grant.now }
{
    match &grant.network {
        Some(text) => !writes_network(text.as_bytes()),
        None => false,
    }
}

pub(crate) fn has_two_slashes(switches: Switches, grant: &Grant) -> bool
    ensures { result ≡ has_two_slashes switches grant.now }
{
    match &grant.path {
        Some(path) => has_double_slash(directory_of(switches, path.as_bytes())),
        None => false,
    }
}

pub(crate) fn has_large_uid(grant: &Grant) -> bool
    ensures { result ≡ has_large_uid grant.now }
{
    grant.uid.is_some_and(|uid| uid >= 2_147_483_648)
}

// Whether two slashes stand side by side.
fn has_double_slash(text: &[u8]) -> bool
    ensures { result ≡ has_double_slash text.now }
{
    for place in 1..text.len() {
        if is_double_slash(text, place) {
            return true;
        }
    }
    false
}

// Whether the bytes before a place and at it are slashes.
#[tactic(auto, using(capspec::proofs::OneText::pair_step))]
fn is_double_slash(text: &[u8], place: usize) -> bool
    requires behind { 0 < place }
    requires inside { place < length text.now }
    ensures { has_double_slash (drop (place - 1) text.now) ≡ (result || has_double_slash (drop place text.now)) }
{
    text[place - 1] == b'/' && text[place] == b'/'
}
