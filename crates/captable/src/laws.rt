//! Laws of the table: what each change of it leaves, holder by holder and inode by inode. No program needs to call them.

ghost use Rattle.std.specs.Prelude.{◌≡◌, ◌≢◌, ◌≤◌, ℕ, true, List, Some, None, IsTrue, IsFalse, Contains, map, take, filter, not};
ghost use Rattle.std.specs.List.{IsDistinct, find, fold};
ghost use Rattle.std.specs.Option.{option_map};
ghost use Rattle.capbits.specs.declared.cap.Cap.TheVariants.{P};
ghost use Rattle.capbits.specs.declared.ids.ClientId.{ClientId};
ghost use Rattle.capbits.specs.declared.ids.Ino.{Ino};
ghost use Rattle.capbits.specs.Caps.{Caps, has};
ghost use Rattle.capbits.specs.Sets.{minus};
ghost use Rattle.capbits.specs.Refusal.{first_failing};
ghost use Rattle.captable.specs.declared.entry.Holder.{Holder};
ghost use Rattle.captable.specs.declared.entry.Entry.{Entry};
ghost use Rattle.captable.specs.declared.entry.EntryRow.{EntryRow};
ghost use Rattle.captable.specs.Table.{IsTable, Table, entry_at, holders_of_rows, is_among, is_row_of, same};
ghost use Rattle.captable.specs.Calls.{asked_row, changed, entries_on, is_of_client, is_of_inode, new_entry, opened, recalled, released, renumbered, touched};
ghost use Rattle.captable.specs.Calls.{with_asked, with_told, without, without_client, without_released};
ghost use Rattle.captable.specs.Shown.{IsShown};
ghost use Rattle.captable.specs.Tests.{open_tests};
ghost use Rattle.captable.specs.Many.{changed_by, changed_where, remade};

/// A row of the table is the one that is found for its holder. A change, an opening, a removal, a release and the end of a client say
/// what becomes of their own entries, and change no other; a recall marks the first `n` entries in the order of recall, and a holder
/// that becomes the last in it changes no entry.
pub fn entries_are_of_their_holders()
    ensures found { (t : Table) (row : EntryRow) → IsTable t → Contains t.rows row
        → find (is_row_of row.holder) t.rows ≡ Some row }
    ensures changed { (t : Table) (k : Holder) (f : Entry → Entry) → entry_at (changed t k f) k ≡ option_map f (entry_at t k) }
    ensures changed_others { (t : Table) (k j : Holder) (f : Entry → Entry) → j ≢ k → entry_at (changed t k f) j ≡ entry_at t j }
    ensures opened { (t : Table) (k : Holder) → entry_at t k ≡ None → entry_at (opened t k) k ≡ Some new_entry }
    ensures opened_others { (t : Table) (k j : Holder) → j ≢ k → entry_at (opened t k) j ≡ entry_at t j }
    ensures without { (t : Table) (k : Holder) → entry_at (without t k) k ≡ None }
    ensures without_others { (t : Table) (k j : Holder) → j ≢ k → entry_at (without t k) j ≡ entry_at t j }
    ensures dropped { (t : Table) (client : ClientId) (k : Holder) → k.client ≡ client → entry_at (without_client t client) k ≡ None }
    ensures dropped_others { (t : Table) (client : ClientId) (k : Holder) → k.client ≢ client
        → entry_at (without_client t client) k ≡ entry_at t k }
    // A release with the pin takes the entry out.
    ensures released_pin { (t : Table) (k : Holder) (caps : Caps) → IsTrue (has caps P) → entry_at (released t k caps) k ≡ None }
    ensures released { (t : Table) (k : Holder) (caps : Caps) → IsFalse (has caps P)
        → entry_at (released t k caps) k ≡ option_map (without_released caps) (entry_at t k) }
    ensures released_others { (t : Table) (k j : Holder) (caps : Caps) → j ≢ k → entry_at (released t k caps) j ≡ entry_at t j }
    ensures touched { (t : Table) (k j : Holder) → entry_at (touched t k) j ≡ entry_at t j }
    ensures recalled { (t : Table) (n : ℕ) (k : Holder) → IsTrue (is_among (take n t.recall) k)
        → entry_at (recalled t n) k ≡ option_map (with_asked true) (entry_at t k) }
    ensures recalled_others { (t : Table) (n : ℕ) (k : Holder) → IsFalse (is_among (take n t.recall) k)
        → entry_at (recalled t n) k ≡ entry_at t k }
{}

/// What happens to a holder leaves the entries on every other inode as they were, in their order; what happens to a client, or in the
/// order of recall, happens on each inode by itself.
pub fn inodes_change_by_themselves()
    ensures changed { (t : Table) (k : Holder) (f : Entry → Entry) (ino : Ino) → ino ≢ k.ino
        → entries_on (changed t k f) ino ≡ entries_on t ino }
    ensures opened { (t : Table) (k : Holder) (ino : Ino) → ino ≢ k.ino → entries_on (opened t k) ino ≡ entries_on t ino }
    ensures without { (t : Table) (k : Holder) (ino : Ino) → ino ≢ k.ino → entries_on (without t k) ino ≡ entries_on t ino }
    ensures released { (t : Table) (k : Holder) (caps : Caps) (ino : Ino) → ino ≢ k.ino
        → entries_on (released t k caps) ino ≡ entries_on t ino }
    ensures without_client { (t : Table) (client : ClientId) (ino : Ino)
        → entries_on (without_client t client) ino ≡ filter (λ row. not (is_of_client client row)) (entries_on t ino) }
    ensures touched { (t : Table) (k : Holder) (ino : Ino) → entries_on (touched t k) ino ≡ entries_on t ino }
    ensures recalled { (t : Table) (n : ℕ) (ino : Ino)
        → entries_on (recalled t n) ino ≡ map (asked_row (take n t.recall)) (entries_on t ino) }
{}

/// Entries that are changed one after another are changed all at once: those of holders that are named once each, those
/// on an inode, and all in the order of recall.
pub fn one_by_one_is_at_once()
    ensures named { (g : EntryRow → Entry) (t : Table) (ks : List Holder) → IsTable t → IsDistinct same ks
        → fold (changed_by g) t ks ≡ changed_where (λ row. is_among ks row.holder) g t }
    ensures on_inode { (g : EntryRow → Entry) (t : Table) (ino : Ino) → IsTable t
        → fold (changed_by g) t (holders_of_rows (entries_on t ino)) ≡ changed_where (is_of_inode ino) g t }
    ensures each { (g : EntryRow → Entry) (t : Table) → IsTable t
        → fold (changed_by g) t t.recall ≡ record t { rows = map (remade g) t.rows } }
{}

/// Each change leaves every holder once in both orders, and no more than 65,536 entries.
pub fn a_table_stays_a_table()
    ensures changed { (t : Table) (k : Holder) (f : Entry → Entry) → IsTable t → IsTable (changed t k f) }
    ensures opened { (t : Table) (k : Holder) → IsTable t → entry_at t k ≡ None → first_failing (open_tests t) ≡ None → IsTable (opened t k) }
    ensures without { (t : Table) (k : Holder) → IsTable t → IsTable (without t k) }
    ensures without_client { (t : Table) (client : ClientId) → IsTable t → IsTable (without_client t client) }
    ensures touched { (t : Table) (k : Holder) → IsTable t → IsTable (touched t k) }
    ensures recalled { (t : Table) (n : ℕ) → IsTable t → IsTable (recalled t n) }
    ensures released { (t : Table) (k : Holder) (caps : Caps) → IsTable t → IsTable (released t k caps) }
{}

/// Where a client was shown what an entry's numbers say, it was so after a step that made of what it is to know another set, by
/// the number that the entry has then; after a release, by what was left of both; and once it was told.
pub fn numbers_say_what_was_shown()
    ensures numbered { (shown before after : Caps) (e : Entry) → e.told_seq ≤ e.seq → IsShown shown before e
        → IsShown shown after (renumbered before after e) }
    ensures less { (shown pending caps : Caps) (e f : Entry) → f.seq ≡ e.seq → f.revoke_seq ≡ e.revoke_seq
        → f.told_seq ≡ e.told_seq → IsShown shown pending e → IsShown (minus shown caps) (minus pending caps) f }
    ensures told { (now : Caps) (e : Entry) → IsShown now now (with_told e) }
{}
