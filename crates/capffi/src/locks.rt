//! The table of the locks, by numbers.
ghost use Rattle.std.specs.Prelude.{◌≡◌, ◌≢◌, MatchResult};
ghost use Rattle.capffi.specs.declared.trouble.Trouble.TheVariants as troubles;
ghost use Rattle.capffi.specs.Locks.{IsCapSet, IsLoner, IsTargetOf, NoCapSet, allowed_by, head_of, lock_of, numbers_of, part_of, state_of};

use crate::passed::{Lock, StableState, Wants};
use crate::trouble::Trouble;
use capbits::{CapSet, ClientId, Part};
use locktable::{Head, LockState, StableState as TableState, allowed, target};

/// The caps of a part that a client may hold under a lock.
pub(crate) fn allowed_by(part: u32, lock: &Lock, client: u32) -> Result<CapSet, Trouble>
    ensures { result ≡ allowed_by part lock.now client }
{
    let Some(part) = read_part(part) else {
        return Err(Trouble::Part);
    };
    let Some(lock) = read_lock(lock) else {
        return Err(Trouble::State);
    };
    Ok(allowed(part, lock, ClientId(client)))
}

/// Where the lock of a part is to go.
pub(crate) fn target_of(
    part: u32,
    state: &StableState,
    wants: &Wants,
) -> Result<TableState, Trouble>
    ensures { IsTargetOf part state.now wants.now result }
{
    let Some(part) = read_part(part) else {
        return Err(Trouble::Part);
    };
    let Some(state) = read_state(state) else {
        return Err(Trouble::State);
    };
    let Some(head) = read_head(wants.head, wants.asker) else {
        return Err(Trouble::Head);
    };
    let loner = read_loner(wants)?;
    let wanted = read_caps(wants.wanted)?;
    Ok(target(part, state, head, loner, wanted))
}

/// A state as numbers.
pub(crate) fn numbers_of(state: TableState) -> StableState
    ensures { result ≡ numbers_of state }
{
    match state {
        TableState::Sync => StableState { kind: 0, holder: 0 },
        TableState::Lock => StableState { kind: 1, holder: 0 },
        TableState::Mix => StableState { kind: 2, holder: 0 },
        TableState::Excl(holder) => StableState {
            kind: 3,
            holder: holder.0,
        },
    }
}

// The part with this number.
#[tactic(auto, unfolding(crate::specs::Locks::part_of))]
fn read_part(part: u32) -> Option<Part>
    ensures { result ≡ part_of part }
{
    match part {
        0 => Some(Part::A),
        1 => Some(Part::L),
        2 => Some(Part::X),
        3 => Some(Part::F),
        _ => None,
    }
}

// The state of these numbers.
#[tactic(auto, unfolding(crate::specs::Locks::state_of))]
fn read_state(state: &StableState) -> Option<TableState>
    ensures { result ≡ state_of state.now }
{
    match state.kind {
        0 => Some(TableState::Sync),
        1 => Some(TableState::Lock),
        2 => Some(TableState::Mix),
        3 => Some(TableState::Excl(ClientId(state.holder))),
        _ => None,
    }
}

// The lock of these numbers.
#[tactic(auto, unfolding(crate::specs::Locks::lock_of))]
fn read_lock(lock: &Lock) -> Option<LockState>
    ensures { result ≡ lock_of lock.now }
{
    if lock.gathers == 0 {
        let state = read_state(&lock.from)?;
        return Some(LockState::Stable(state));
    }
    let from = read_state(&lock.from)?;
    let to = read_state(&lock.to)?;
    Some(LockState::Gather { from, to })
}

// What stands first in a queue.
#[tactic(auto, unfolding(crate::specs::Locks::head_of))]
fn read_head(kind: u32, asker: u32) -> Option<Head>
    ensures { result ≡ head_of kind asker }
{
    match kind {
        0 => Some(Head::Empty),
        1 => Some(Head::Change),
        2 => Some(Head::Read(ClientId(asker))),
        _ => None,
    }
}

// The loner, if there is one.
fn read_loner(wants: &Wants) -> Result<Option<(ClientId, CapSet)>, Trouble>
    ensures { MatchResult result (IsLoner wants.now) (λ trouble. (trouble ≡ troubles.Caps) × (wants.now.loners ≢ 0) × NoCapSet wants.now.loner_wants) }
{
    if wants.loners == 0 {
        return Ok(None);
    }
    let loner_wants = read_caps(wants.loner_wants)?;
    Ok(Some((ClientId(wants.loner), loner_wants)))
}

// The caps with these bits.
fn read_caps(bits: u32) -> Result<CapSet, Trouble>
    ensures { MatchResult result (IsCapSet bits) (λ trouble. (trouble ≡ troubles.Caps) × NoCapSet bits) }
{
    match CapSet::from_bits(bits) {
        Some(caps) => Ok(caps),
        None => Err(Trouble::Caps),
    }
}
