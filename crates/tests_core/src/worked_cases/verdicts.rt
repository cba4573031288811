//! Cases of what grants allow.
#![tactic(auto, unfolding(crate::proofs::Unfolded::rules))]

ghost use Rattle.std.specs.Prelude.{◌≡◌, [], ◌∷◌, codes, Some, true};
ghost use Rattle.capspec.specs.declared.flags.Flags4.TheVariants.{R, Rw, Rwp, Rws};
ghost use Rattle.capgrant.specs.declared.access.Access.TheVariants as access;
ghost use Rattle.capgrant.specs.declared.answer.Verdict.TheVariants.{Allowed, Denied};
ghost use Rattle.capgrant.specs.declared.rule.Rule.TheVariants as rule;
ghost use Rattle.tests_core.specs.Verdicts.{allow, caller, owned, says};

/// Each grant is denied by the first rule that it fails.
pub fn rules_in_order()
    ensures path_and_no_write { says (record (allow Rw) { fsname = Some (codes "cephfs"); path = codes "a" ∷ [] } ∷ record (allow R) { fsname = Some (codes "cephfs") } ∷ [])
        (caller 9 50) access.Write (codes "b" ∷ codes "x" ∷ []) (owned 7 50 0o640)
        ≡ Denied (rule.Path ∷ rule.NoWrite ∷ []) }
    ensures fsname { says (record (allow R) { fsname = Some (codes "other"); path = codes "a" ∷ [] } ∷ []) (caller 9 50) access.Read [] (owned 0 0 0o755) ≡ Denied (rule.FsName ∷ []) }
    ensures uid { says (record (allow R) { uid = Some 8; gids = 50 ∷ [] } ∷ []) (caller 9 51) access.Read [] (owned 0 0 0o755) ≡ Denied (rule.Uid ∷ []) }
    ensures gids { says (record (allow R) { uid = Some 9; gids = 50 ∷ [] } ∷ []) (caller 9 51) access.Read [] (owned 0 0 0o755) ≡ Denied (rule.Gids ∷ []) }
    ensures no_p { says (allow Rws ∷ []) (caller 9 50) access.SetVxattr [] (owned 0 0 0o755) ≡ Denied (rule.NoP ∷ []) }
    ensures no_s { says (allow Rwp ∷ []) (caller 9 50) access.Snapshot [] (owned 0 0 0o755) ≡ Denied (rule.NoS ∷ []) }
    ensures not_owner { says (record (allow Rw) { uid = Some 9 } ∷ []) (caller 9 50) access.Chmod (codes "f" ∷ []) (owned 7 50 0o777) ≡ Denied (rule.NotOwner ∷ []) }
    ensures given_away { says (record (allow Rw) { uid = Some 9 } ∷ []) (caller 9 50) (access.Chown 7) (codes "f" ∷ []) (owned 9 50 0o777) ≡ Denied (rule.NotOwner ∷ []) }
    ensures not_own_group { says (record (allow Rw) { uid = Some 9; gids = 50 ∷ [] } ∷ []) (caller 9 50) (access.Chgrp 51) (codes "f" ∷ []) (owned 9 50 0o777) ≡ Denied (rule.NotOwnGroup ∷ []) }
{}

/// A path begins with the names of a grant's, and not with its bytes.
pub fn paths_by_names()
    ensures other_name { says (record (allow Rw) { path = codes "foo" ∷ [] } ∷ []) (caller 9 50) access.Write (codes "food" ∷ []) (owned 0 0 0o755) ≡ Denied (rule.Path ∷ []) }
    ensures same_name { says (record (allow Rw) { path = codes "foo" ∷ [] } ∷ []) (caller 9 50) access.Write (codes "foo" ∷ []) (owned 0 0 0o755) ≡ Allowed 1 }
{}

/// Where root is squashed it reads and does not write, whether it is root by its user or by its group.
pub fn root_is_squashed()
    ensures uid_reads { says (record (allow Rw) { root_squash = true } ∷ []) (caller 0 5) access.Read (codes "f" ∷ []) (owned 0 0 0o644) ≡ Allowed 1 }
    ensures uid_writes { says (record (allow Rw) { root_squash = true } ∷ []) (caller 0 5) access.Write (codes "f" ∷ []) (owned 0 0 0o644) ≡ Denied (rule.RootSquash ∷ []) }
    ensures gid_reads { says (record (allow Rw) { root_squash = true } ∷ []) (caller 5 0) access.Read (codes "f" ∷ []) (owned 0 0 0o644) ≡ Allowed 1 }
    ensures gid_writes { says (record (allow Rw) { root_squash = true } ∷ []) (caller 5 0) access.Write (codes "f" ∷ []) (owned 0 0 0o644) ≡ Denied (rule.RootSquash ∷ []) }
{}

/// A grant with a uid goes by the mode bits of the caller's class, in which a group counts that the grant lists.
pub fn mode_bits()
    ensures group_reads { says (record (allow Rw) { uid = Some 9; gids = 50 ∷ [] } ∷ []) (caller 9 50) access.Read (codes "f" ∷ []) (owned 7 50 0o640) ≡ Allowed 1 }
    ensures group_writes { says (record (allow Rw) { uid = Some 9; gids = 50 ∷ [] } ∷ []) (caller 9 50) access.Write (codes "f" ∷ []) (owned 7 50 0o640) ≡ Denied (rule.ModeBits ∷ []) }
    ensures unlisted_group_reads { says (record (allow Rw) { uid = Some 9 } ∷ []) (caller 9 50) access.Read (codes "f" ∷ []) (owned 7 50 0o640) ≡ Denied (rule.ModeBits ∷ []) }
    ensures owner_writes { says (record (allow Rw) { uid = Some 9 } ∷ []) (caller 9 50) access.Write (codes "f" ∷ []) (owned 9 50 0o640) ≡ Allowed 1 }
    ensures no_uid { says (allow Rw ∷ []) (caller 9 50) access.Write (codes "f" ∷ []) (owned 7 50 0o640) ≡ Allowed 1 }
{}
