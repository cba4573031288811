//! Laws of the lists. No program needs to call them.

ghost use Rattle.std.specs.Prelude.{◌≡◌, length};
ghost use Rattle.cap_arena.specs.Lists.{IsLists, Lists, OfRecall, count, keys};

/// The order of recall has as many nodes as there are.
pub fn the_order_of_recall_has_each_node<T>()
    ensures { (t : Lists T) → IsLists t → length (keys t OfRecall) ≡ count t }
{}
