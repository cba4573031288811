//! What becomes of a lock next.
ghost use Rattle.std.specs.Prelude.{◌≡◌, Some, not};
ghost use Rattle.locktable.specs.Targets.{target_of};
ghost use Rattle.lockmachine.specs.Lock as words;
ghost use Rattle.lockmachine.specs.Lock.{same_state};

use capbits::{CapSet, ClientId, Part};
use locktable::{Head, LockState, StableState, target};

/// Whether the lock, which is in this state, is in a gather that waits for nobody, where this is how many clients it waits for.
pub fn ends_by_count(count: u32, lock: LockState) -> bool
    ensures { result ≡ words.ends_by_count count (Some lock) }
{
    match lock {
        LockState::Gather { .. } => count == 0,
        LockState::Stable(_) => false,
    }
}

/// Whether a lock that is stable in this state is to go to another one, by what stands first in its queue, by who alone wants more than
/// the pin of its inode, and by what all want of it.
pub fn is_off_target(
    part: Part,
    state: StableState,
    head: Head,
    loner: Option<(ClientId, CapSet)>,
    wanted: CapSet,
) -> bool
    ensures { result ≡ not (same_state (target_of part state head loner wanted) state) }
{
    target(part, state, head, loner, wanted) != state
}
