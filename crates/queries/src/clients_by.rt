//! Which clients of a cluster may make an access, by the rules of a release.
ghost use Rattle.std.specs.Prelude.{◌≡◌, ◌++◌, ℕ, List, IfOk, OnOk};
ghost use Rattle.policy_analysis.specs.MdsStanding.{standing_by};
ghost use Rattle.queries.specs.ClientsBy.{SaysBy, mds_standing_in, mds_unread_in};

use crate::clients::Telling;
use ceph_input::Entity;
use policy_analysis::MdsWanted;
use release_grants::{Grant, read_grants};
use std::alloc::AllocError;
use texts::{
    print_mds_standing, print_mds_standing_object, print_mds_unread, print_mds_unread_object,
};

/// Appends the lines of a client, and says whether it could be judged. Where it has no text of grants it is judged by none.
pub(crate) fn print_client_by(
    lines: &mut Vec<u8>,
    client: &Entity,
    wanted: &MdsWanted<'_>,
    telling: Telling,
) -> Result<bool, AllocError>
    ensures { IfOk result (λ is_judged. (line : List ℕ) × (lines.new.items ≡ lines.old.items ++ line)
        × SaysBy telling wanted.now client.now.name client.now.caps is_judged line) }
{
    let name = client.name();
    let Some(text) = client.caps() else {
        print_judged(lines, name, wanted, &[], telling)?;
        return Ok(true);
    };
    match read_grants(*lines.allocator(), text, wanted.release.switches())? {
        Ok(grants) => {
            print_judged(lines, name, wanted, grants.as_slice(), telling)?;
            Ok(true)
        }
        Err(unread) => {
            print_not_read(lines, name, wanted, unread.at, telling)?;
            Ok(false)
        }
    }
}

// Appends what these grants of a client say.
fn print_judged(
    lines: &mut Vec<u8>,
    client: &[u8],
    wanted: &MdsWanted<'_>,
    grants: &[Grant],
    telling: Telling,
) -> Result<(), AllocError>
    ensures { OnOk result (lines.new.items ≡ lines.old.items ++ mds_standing_in telling client.now wanted.now (standing_by wanted.now grants.now)) }
{
    let standing = wanted.standing(*lines.allocator(), grants)?;
    match telling {
        Telling::Line | Telling::More => print_mds_standing(lines, client, wanted, &standing),
        Telling::Object => print_mds_standing_object(lines, client, wanted, &standing),
    }
}

// Appends up to where the release reads the grants of a client.
fn print_not_read(
    lines: &mut Vec<u8>,
    client: &[u8],
    wanted: &MdsWanted<'_>,
    at: usize,
    telling: Telling,
) -> Result<(), AllocError>
    ensures { OnOk result (lines.new.items ≡ lines.old.items ++ mds_unread_in telling client.now wanted.now at) }
{
    match telling {
        Telling::Line | Telling::More => print_mds_unread(lines, client, wanted.release, at),
        Telling::Object => print_mds_unread_object(lines, client, wanted, at),
    }
}
