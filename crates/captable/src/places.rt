//! Places in the lists of clients, before which no entry is due.
ghost use Rattle.std.specs.Prelude.{◌≡◌, true, IfSome};
ghost use Rattle.captable.specs.Places as words;
ghost use Rattle.captable.specs.Places.{NoneDueBefore};

use crate::entry::Slot;
use cap_arena::TripleLists;
use capbits::ClientId;

// How many entries were made before that of the node, 0 where no node has the key.
fn number_at(lists: &TripleLists<Slot>, key: usize) -> u64
    ensures { result ≡ words.number_at lists.now key }
{
    match lists.get(key) {
        Some(node) => node.value.number,
        None => 0,
    }
}

// Whether the node's entry was made before that of the place.
fn is_before(lists: &TripleLists<Slot>, key: usize, place: Option<usize>) -> bool
    ensures { result ≡ words.is_before lists.now key place }
{
    match place {
        Some(other) => number_at(lists, key) < number_at(lists, other),
        None => true,
    }
}

// The place, or that of the node, whichever comes first.
pub(crate) fn lowered(lists: &TripleLists<Slot>, key: usize, place: Option<usize>) -> Option<usize>
    ensures { result ≡ words.lowered lists.now key place }
{
    if is_before(lists, key, place) {
        Some(key)
    } else {
        place
    }
}

// The place, or the next one if it is that of the key.
pub(crate) fn moved_on(key: usize, next: Option<usize>, place: Option<usize>) -> Option<usize>
    ensures { result ≡ words.moved_on key next place }
{
    match place {
        Some(at) if at == key => next,
        other => other,
    }
}

// Whether the node's entry is due.
pub(crate) fn is_due_at(lists: &TripleLists<Slot>, key: usize) -> bool
    ensures { result ≡ words.is_due_at lists.now key }
{
    match lists.get(key) {
        Some(node) => node.value.entry.is_due(),
        None => false,
    }
}

// The first place from this one on whose entry is due; the end, if there is none.
pub(crate) fn first_due(
    lists: &TripleLists<Slot>,
    client: ClientId,
    from: Option<usize>,
) -> Option<usize>
    requires { NoneDueBefore lists.now client from }
    ensures none_due { NoneDueBefore lists.now client result }
    ensures due { IfSome result (λ key. words.is_due_at lists.now key ≡ true) }
{
    let mut place = from;
    'places: while let Some(key) = place {
        if is_due_at(lists, key) {
            break;
        }
        place = lists.next_of_client(key);
    }
    place
}
