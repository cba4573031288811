//! Cases of what grants permit to hold.
#![tactic(auto, unfolding(crate::proofs::Unfolded::steps))]

ghost use Rattle.std.specs.Prelude.{◌≡◌, [], ◌∷◌, codes, Some, true};
ghost use Rattle.capspec.specs.declared.flags.Flags4.TheVariants.{R, Rw, Rwps};
ghost use Rattle.tests_core.specs.Verdicts.{allow, caller, member, owned, permits};

/// Who may read may hold what is for reading, and who may write what is for writing, by any of the grants.
pub fn held_by_readers_and_writers()
    ensures both { permits (allow Rw ∷ []) member (owned 7 50 0) ≡ codes "pAsxLsxXsxFsxcrwbl" }
    ensures all_flags { permits (allow Rwps ∷ []) member (owned 7 50 0) ≡ codes "pAsxLsxXsxFsxcrwbl" }
    ensures reads { permits (allow R ∷ []) member (owned 7 50 0o777) ≡ codes "pAsLsXsFscrl" }
    ensures another_path { permits (record (allow Rw) { path = codes "a" ∷ [] } ∷ []) member (owned 7 50 0o777) ≡ codes "-" }
    ensures another_file_system { permits (record (allow Rw) { fsname = Some (codes "other") } ∷ []) member (owned 7 50 0o777) ≡ codes "-" }
    ensures reads_by_the_second { permits (record (allow Rw) { path = codes "a" ∷ [] } ∷ record (allow R) { path = codes "b" ∷ [] } ∷ []) member (owned 7 50 0o777) ≡ codes "pAsLsXsFscrl" }
    ensures writes_by_the_second { permits (record (allow R) { path = codes "b" ∷ [] } ∷ record (allow Rw) { path = codes "b" ∷ [] } ∷ []) member (owned 7 50 0o777) ≡ codes "pAsxLsxXsxFsxcrwbl" }
    ensures squashed_root_reads { permits (record (allow Rw) { root_squash = true } ∷ []) (caller 0 50) (owned 7 50 0o777) ≡ codes "pAsLsXsFscrl" }
    ensures group_reads { permits (record (allow Rw) { uid = Some 9; gids = 50 ∷ [] } ∷ []) member (owned 7 50 0o640) ≡ codes "pAsLsXsFscrl" }
    ensures unlisted_group { permits (record (allow Rw) { uid = Some 9 } ∷ []) member (owned 7 50 0o640) ≡ codes "-" }
    ensures owner_writes { permits (record (allow Rw) { uid = Some 9 } ∷ []) member (owned 9 50 0o200) ≡ codes "pAxLxXxFxwb" }
{}
