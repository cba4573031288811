//! The values of options that are lists.
ghost use Rattle.std.specs.Prelude.{ℕ, List, MatchOption};
ghost use Rattle.queries.specs.Values.{AreGroups};

use capbits::{Groups, read_u32};

/// The group ids between the commas: 1 to 16 decimal numbers of 32 bits.
pub fn read_groups(text: &[u8]) -> Option<Groups>
    ensures { MatchOption result ((gids : List ℕ) → ¬ AreGroups text.now gids) (AreGroups text.now) }
{
    let mut groups = Groups::new();
    for digits in text.split(|byte| *byte == b',') {
        groups.try_push(read_u32(digits)?).ok()?;
    }
    Some(groups)
}
