//! Which requests a state serves, and where a lock is to go.
ghost use Rattle.std.specs.Prelude.{◌≡◌, ◌≢◌, IsTrue};
ghost use Rattle.locktable.specs.Targets.{has_any, is_served, shared_state, taking, target_of, wanted_state};
ghost use Rattle.locktable.specs.declared.targets.Head.TheVariants.{Empty};

use crate::states::StableState;
use capbits::{Cap, CapSet, ClientId, Part};

/// What stands first in the queue of a lock.
#[derive(Clone, Copy, PartialEq, Eq, Hash, Debug)]
pub enum Head {
    /// Nothing.
    Empty,
    /// A request to change the part.
    Change,
    /// A request of this client to read the part.
    Read(ClientId),
}

/// Whether a lock that is stable in `state` serves the head of its queue: a change in `Lock`; a read in `Sync`,
/// in `Lock`, and in the `Excl` of the client that asks.
pub fn serves(state: StableState, head: Head) -> bool
    ensures { result ≡ is_served state head }
{
    match (state, head) {
        (StableState::Lock, Head::Change | Head::Read(_)) | (StableState::Sync, Head::Read(_)) =>
            true,
        (StableState::Excl(holder), Head::Read(asker)) => holder == asker,
        _ => false,
    }
}

/// Where the lock of `part`, stable in `state`, is to go. `loner` is the one client with an effective want of more than
/// the pin on the inode, with that want, if there is exactly one; `wanted` is what all clients effectively want of it.
///
/// A change at the head of the queue needs `Lock`, and a read there a state that serves it. With an empty queue, a part
/// that nobody wants leaves its lock where it is; a loner that wants to change the part gets it in `Excl`; and others
/// share it, a file in `Mix` where somebody wants to write and in `Sync` where nobody does.
#[tactic(auto, using(crate::specs::Targets::target_serves, crate::specs::Targets::target_stays), unfolding(crate::specs::Targets::target_of))]
pub fn target(
    part: Part,
    state: StableState,
    head: Head,
    loner: Option<(ClientId, CapSet)>,
    wanted: CapSet,
) -> StableState
    ensures table { result ≡ target_of part state head loner wanted }
    ensures serves_the_head { head ≢ Empty → IsTrue (is_served result head) }
    ensures stays { target_of part result head loner wanted ≡ result }
{
    match head {
        Head::Change => StableState::Lock,
        Head::Read(_) if serves(state, head) => state,
        Head::Read(_) => StableState::Sync,
        Head::Empty if wants_any(wanted, part.caps()) => for_wanted(part, loner, wanted),
        Head::Empty => state,
    }
}

// The state for a part that somebody wants.
fn for_wanted(part: Part, loner: Option<(ClientId, CapSet)>, wanted: CapSet) -> StableState
    ensures { result ≡ wanted_state part loner wanted }
{
    match loner {
        Some((client, wants)) if wants_any(wants, taking_caps(part)) => StableState::Excl(client),
        _ => for_sharers(part, wanted),
    }
}

// The state in which clients share a part.
fn for_sharers(part: Part, wanted: CapSet) -> StableState
    ensures { result ≡ shared_state part wanted }
{
    match part {
        Part::F if wanted.has(Cap::Fw) => StableState::Mix,
        _ => StableState::Sync,
    }
}

// What a loner wants of a part that takes the lock for it.
fn taking_caps(part: Part) -> &'static [Cap]
    ensures { result.now ≡ taking part }
{
    match part {
        Part::A => &[Cap::Ax],
        Part::L => &[Cap::Lx],
        Part::X => &[Cap::Xx],
        Part::F => &[Cap::Fx, Cap::Fw, Cap::Fb],
    }
}

// Whether a set has one of these caps.
fn wants_any(set: CapSet, caps: &[Cap]) -> bool
    ensures { result ≡ has_any set caps.now }
{
    caps.iter().any(|cap| set.has(*cap))
}
