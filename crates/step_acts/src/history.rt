//! Room in a history.
ghost use Rattle.std.specs.Prelude.{◌≡◌, ◌+◌, ◌^◌, ◌≤◌, ◌<◌, ◌↔◌, Err, IsSome, length, IfOk, OnOk, vec_len, vec_capacity};
ghost use Rattle.std.specs.FinMap as map;
ghost use Rattle.capbits.specs.declared.ids.PassId.{PassId as Pass};
ghost use Rattle.capstep.specs.Numbers.{AreCounted, count_of, rows_of};
ghost use Rattle.capstep.specs.declared.stop.Stop.TheVariants as stop_kind;

use capbits::{Numbered, PassId};
use capstep::Row;
use capstep::stop::Stop;
use std::alloc::AllocError;

/// Makes room for one row more, where there may be one, and for counting it, and answers which number it has among those of its pass. So
/// many rows as the counts say has each pass. How long this takes does not depend on the number of rows.
pub fn make_room(
    rows: &mut Vec<Row>,
    counts: &mut Numbered<u64>,
    max_rows: u32,
    pass: PassId,
) -> Result<u64, Stop>
    requires counted { AreCounted counts.old rows.old.items }
    requires most { length rows.old.items ≤ max_rows }
    ensures items { rows.new.items ≡ rows.old.items }
    ensures counts { (of : Pass) → count_of counts.new of ≡ count_of counts.old of }
    ensures number { IfOk result (λ nth. nth ≡ rows_of pass rows.old.items + 1) }
    ensures room { OnOk result ((length rows.old.items < max_rows) × (vec_len rows.new < vec_capacity rows.new)) }
    ensures count { OnOk result (IsSome (map.get counts.new pass.0)) }
    ensures full { (result ≡ Err stop_kind.Full) ↔ (length rows.old.items ≡ max_rows) }
{
    if rows.len() >= max_rows as usize {
        return Err(Stop::Full);
    }
    rows.reserve(1)?;
    let count = count_with_room(counts, pass)?;
    Ok(count + 1)
}

// How many rows the pass has by the counts, which have room for one more of it from here on.
fn count_with_room(counts: &mut Numbered<u64>, pass: PassId) -> Result<u64, AllocError>
    ensures counts { (of : Pass) → count_of counts.new of ≡ count_of counts.old of }
    ensures room { OnOk result (IsSome (map.get counts.new pass.0)) }
    ensures count { IfOk result (λ count. count ≡ count_of counts.old pass) }
{
    let number = u64::from(pass.0);
    counts.add(number, 0)?;
    Ok(counts.get(number).copied().unwrap_or(0))
}

/// Counts one row more of the pass, which is the nth of it. For this there is room.
pub fn count_row(counts: &mut Numbered<u64>, pass: PassId, nth: u64)
    requires room { IsSome (map.get counts.old pass.0) }
    ensures { counts.new ≡ map.insert counts.old pass.0 nth }
{
    let Some(count) = counts.get_mut(u64::from(pass.0)) else {
        unreachable!()
    };
    *count = nth;
}
