//! The rows that the values stand in, in no order, and the place of each number among them.
ghost use Rattle.std.specs.Prelude.{◌≡◌, ◌==◌, ◌<◌, ℕ, if◌then◌else◌, None, Some, IfNone, IfSome, OnOk, OnErr, length, vec_len, not, IfOk};
ghost use Rattle.std.specs.Option.{option_map};
ghost use Rattle.std.specs.BTreeMap.{get};
ghost use Rattle.std.specs.FinMap as map;
ghost use Rattle.std.specs.Ordering.{nat_cmp};
ghost use Rattle.capbits.specs.Rows.{HasPlaces, HasRows, IsPlaced, map_of, number_at, with_new};

use std::alloc::AllocError;
use std::collections::BTreeMap;
use std::collections::btree_map::Entry;

// A value, with its number.
#[derive(Drop)]
pub(crate) struct Row<T> {
    pub(crate) number: u64,
    pub(crate) value: T,
}

// The place of the row with this number, if there is one.
pub(crate) fn place_of<T>(
    places: &BTreeMap<u64, usize>,
    rows: &[Row<T>],
    number: u64,
) -> Option<usize>
    requires placed { IsPlaced places.now rows.now }
    ensures bound { IfSome result (λ k. k < length rows.now) }
    ensures number { IfSome result (λ k. number_at rows.now k ≡ Some number) }
    ensures none { IfNone result (map.get (map_of rows.now) number ≡ None) }
{
    let place = *places.get(&number)?;
    if rows.get(place)?.number == number {
        return Some(place);
    }
    None
}

// The place of the row with this number, if there is one. Where the guessed place is the row's, nothing is searched.
pub(crate) fn place_near<T>(
    places: &BTreeMap<u64, usize>,
    rows: &[Row<T>],
    number: u64,
    guess: usize,
) -> Option<usize>
    requires placed { IsPlaced places.now rows.now }
    ensures bound { IfSome result (λ k. k < length rows.now) }
    ensures number { IfSome result (λ k. number_at rows.now k ≡ Some number) }
    ensures none { IfNone result (map.get (map_of rows.now) number ≡ None) }
{
    match rows.get(guess) {
        Some(row) if row.number == number => Some(guess),
        _ => place_of(places, rows, number),
    }
}

// The row with this number, if there is one.
pub(crate) fn row_near<'a, T>(
    places: &BTreeMap<u64, usize>,
    rows: &'a [Row<T>],
    number: u64,
    guess: usize,
) -> Option<&'a Row<T>>
    requires placed { IsPlaced places.now rows.now }
    ensures { option_map (λ row. row.now.value) result ≡ map.get (map_of rows.now) number }
{
    rows.get(place_near(places, rows, number, guess)?)
}

// Puts a row at the end, if no row has its number, and answers whether none had. One that has it may stand at the place that is
// guessed, and need not be searched for then. For want of memory nothing changes.
pub(crate) fn add<T: Drop>(
    places: &mut BTreeMap<u64, usize>,
    rows: &mut Vec<Row<T>>,
    row: Row<T>,
    guess: usize,
) -> Result<bool, AllocError>
    requires placed { IsPlaced places.old rows.old.items }
    ensures added { IfOk result (λ added. added ≡ not (map.contains_key (map_of rows.old.items) row.number)) }
    ensures ok { OnOk result (map_of rows.new.items ≡ with_new (map_of rows.old.items) row.number row.value) }
    ensures err { OnErr result (rows.new.items ≡ rows.old.items) }
    ensures placed { HasPlaces places.new rows.new.items }
    ensures numbers { HasRows places.new rows.new.items }
{
    match rows.get(guess) {
        Some(there) if there.number == row.number => return Ok(false),
        _ => {}
    }
    match places.entry(row.number)? {
        Entry::Occupied(_there) => Ok(false),
        Entry::Vacant(place) => {
            // Room comes first, so that nothing fails once the number has a place.
            rows.reserve(1)?;
            place.insert(rows.len());
            match rows.push(row) {
                Ok(()) => Ok(true),
                Err(_) => unreachable!(),
            }
        }
    }
}

// Takes out the row at this place, which has this number. The last one moves there.
pub(crate) fn take_out<T: Drop>(
    places: &mut BTreeMap<u64, usize>,
    rows: &mut Vec<Row<T>>,
    place: usize,
    number: u64,
)
    requires placed { IsPlaced places.old rows.old.items }
    requires bound { place < vec_len rows.old }
    requires number { number_at rows.old.items place ≡ Some number }
    ensures without { map_of rows.new.items ≡ map.remove (map_of rows.old.items) number }
    ensures placed { HasPlaces places.new rows.new.items }
    ensures numbers { HasRows places.new rows.new.items }
{
    places.remove(&number);
    rows.swap_remove(place);
    if let Some(moved) = rows.get(place) {
        move_place(places, moved.number, place);
    }
    trim(rows);
}

// The number, if it has a place, has this one from now on.
fn move_place(places: &mut BTreeMap<u64, usize>, number: u64, place: usize)
    ensures { (q : ℕ) → get nat_cmp places.new q ≡ (if number == q then option_map (λ _. place) (get nat_cmp places.old q) else get nat_cmp places.old q) }
{
    if let Some(kept) = places.get_mut(&number) {
        *kept = place;
    }
}

/// Gives half of a list's room back where less than a quarter of it is used, so that what is kept follows what is there. Half of it,
/// so that the room stays a power of two: what comes doubles it up to what it fills, and no further.
pub fn trim<T>(list: &mut Vec<T>)
    ensures { list.new.items ≡ list.old.items }
{
    let room = list.capacity();
    if list.len() < room / 4 {
        list.shrink_to(room / 2);
    }
}
