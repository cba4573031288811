//! Cases of small maps, sets and lists.
#![tactic(auto)]

ghost use Rattle.std.specs.Prelude.{◌≡◌, [], ◌∷◌, ◌++◌, ℕ, codes, Some, None, map as each, slice_get, true, false};
ghost use Rattle.std.specs.FinMap as map;
ghost use Rattle.std.specs.FinSet as set;
ghost use Rattle.capspec.specs.Paths.{slashed};
ghost use Rattle.cap_arena.specs.Lists.{Lists, OfRecall, keys};
ghost use Rattle.cap_arena.specs.Walks.{key_after};
ghost use Rattle.tests_core.specs.KeptLists.{AreSteps, of_client, of_inode, put_in, taken_in};

/// Values by number: one is in place of another, one goes, and one whose number has the same lower 32 bits is another.
pub fn values_by_number()
    ensures in_their_order { map.keys (put_in ((9, 90) ∷ (1048577, 20) ∷ (1, 10) ∷ [])) ≡ 1 ∷ 9 ∷ 1048577 ∷ [] }
    ensures found { map.get (put_in ((9, 90) ∷ (1048577, 20) ∷ (1, 10) ∷ [])) 9 ≡ Some 90 }
    ensures in_its_place { map.entries (put_in ((9, 90) ∷ (1048577, 20) ∷ (1, 10) ∷ (9, 91) ∷ [])) ≡ (1, 10) ∷ (9, 91) ∷ (1048577, 20) ∷ [] }
    ensures gone { map.get (map.remove (put_in ((9, 92) ∷ (1048577, 20) ∷ (1, 10) ∷ [])) 9) 9 ≡ None }
    ensures two_are_left { map.len (map.remove (put_in ((9, 92) ∷ (1048577, 20) ∷ (1, 10) ∷ [])) 9) ≡ 2 }
    ensures not_gone_twice { map.len (map.remove (map.remove (put_in ((9, 92) ∷ (1048577, 20) ∷ (1, 10) ∷ [])) 9) 9) ≡ 2 }
    ensures another { map.entries (put_in ((9, 93) ∷ (1048577, 20) ∷ (4294967305, 30) ∷ [])) ≡ (9, 93) ∷ (1048577, 20) ∷ (4294967305, 30) ∷ [] }
    ensures another_goes { map.get (map.remove (put_in ((9, 93) ∷ (1048577, 20) ∷ (4294967305, 30) ∷ [])) 4294967305) 9 ≡ Some 93 }
    ensures last_goes { map.len (map.remove (put_in ((9, 93) ∷ [])) 9) ≡ 0 }
{}

/// A set of inodes has those that were taken in, and a path the names of which it is made.
pub fn sets_and_paths()
    ensures inodes { each (set.contains (taken_in (2 ∷ 4 ∷ 2 ∷ 4 ∷ 1 ∷ []))) (0 ∷ 1 ∷ 2 ∷ 3 ∷ 4 ∷ 5 ∷ []) ≡ false ∷ true ∷ true ∷ false ∷ true ∷ false ∷ [] }
    ensures no_name { slashed [] ≡ [] }
    ensures names { slashed (codes "a" ∷ (255 ∷ []) ∷ []) ≡ codes "/a/" ++ 255 ∷ [] }
{}

/// Nodes stand in three orders, each list in the order of making but that of recall, to whose end a touched node goes.
pub fn nodes_in_three_lists()
    ensures on_an_inode_alone { (a b c d e : Lists ℕ) → AreSteps a b c d e → keys a (of_inode 2) ≡ 0 ∷ [] }
    ensures on_another { (a b c d e : Lists ℕ) → AreSteps a b c d e → keys b (of_inode 3) ≡ 1 ∷ [] }
    ensures recall { (a b c d e : Lists ℕ) → AreSteps a b c d e → keys c OfRecall ≡ 0 ∷ 1 ∷ 2 ∷ [] }
    ensures on_an_inode { (a b c d e : Lists ℕ) → AreSteps a b c d e → keys c (of_inode 2) ≡ 0 ∷ 2 ∷ [] }
    ensures of_a_client { (a b c d e : Lists ℕ) → AreSteps a b c d e → keys c (of_client 1) ≡ 0 ∷ 1 ∷ [] }
    ensures of_another { (a b c d e : Lists ℕ) → AreSteps a b c d e → keys c (of_client 2) ≡ 2 ∷ [] }
    ensures recall_when_touched { (a b c d e : Lists ℕ) → AreSteps a b c d e → keys d OfRecall ≡ 1 ∷ 2 ∷ 0 ∷ [] }
    ensures on_an_inode_when_touched { (a b c d e : Lists ℕ) → AreSteps a b c d e → keys d (of_inode 2) ≡ 0 ∷ 2 ∷ [] }
    ensures of_a_client_when_touched { (a b c d e : Lists ℕ) → AreSteps a b c d e → keys d (of_client 1) ≡ 0 ∷ 1 ∷ [] }
    ensures on_an_inode_without_the_last { (a b c d e : Lists ℕ) → AreSteps a b c d e → keys e (of_inode 2) ≡ 0 ∷ [] }
    ensures of_a_client_without_nodes { (a b c d e : Lists ℕ) → AreSteps a b c d e → keys e (of_client 2) ≡ [] }
    ensures recall_without_the_last { (a b c d e : Lists ℕ) → AreSteps a b c d e → keys e OfRecall ≡ 1 ∷ 0 ∷ [] }
    ensures first_of_a_list { slice_get {X = ℕ} (0 ∷ 2 ∷ []) 0 ≡ Some 0 }
    ensures next_in_a_list { key_after (0 ∷ 2 ∷ []) 0 ≡ Some 2 }
    ensures none_behind_the_last { key_after (0 ∷ 2 ∷ []) 2 ≡ None }
{}
