//! Cases of what Ceph 16, 18 and 20 make of grants: in each the three programs themselves answered so.
#![tactic(auto, unfolding(crate::proofs::Unfolded::releases))]

ghost use Rattle.std.specs.Prelude.{◌≡◌, [], ◌∷◌, codes, Ok, Err, Some, None};
ghost use Rattle.capgrant.specs.declared.access.Access.TheVariants.{Chgrp, Chmod, Chown, Read};
ghost use Rattle.release_rules.specs.Asked.{asked_by, asked_for};
ghost use Rattle.release_grants.specs.Networks.Address.{Short};
ghost use Rattle.release_rules.specs.Rules.{rule_number, rule_word};
ghost use Rattle.release_rules.specs.declared.rule.Rule.TheVariants.{NoWrite, Path};
ghost use Rattle.release_rules.specs.declared.verdict.Verdict.TheVariants.{Allowed, Denied};
ghost use Rattle.tests_core.specs.Releases.{newest_says, reads, refuses, root, says, usual};
ghost use Rattle.tests_core.specs.Verdicts.{caller, owned};

/// How many grants each release reads in a text, or the place up to which it does.
pub fn texts_by_release()
    ensures plain { reads (codes "allow") ≡ Ok 1 ∷ Ok 1 ∷ Ok 1 ∷ [] }
    ensures plain_and_a_space { reads (codes "allow ") ≡ Err 0 ∷ Err 0 ∷ Err 0 ∷ [] }
    ensures full { reads (codes "allow rwfs") ≡ Ok 1 ∷ Ok 1 ∷ Ok 1 ∷ [] }
    ensures no_flag { reads (codes "allow rwx") ≡ Err 8 ∷ Err 8 ∷ Err 8 ∷ [] }
    ensures nothing_behind_a_separator { reads (codes "allow r;") ≡ Err 7 ∷ Err 7 ∷ Err 7 ∷ [] }
    ensures space_before_a_separator { reads (codes "allow r ;allow * uid=1") ≡ Ok 2 ∷ Ok 2 ∷ Ok 2 ∷ [] }
    ensures behind_a_quote { reads (codes "allow rw path=\"/a\"x") ≡ Err 18 ∷ Err 18 ∷ Err 18 ∷ [] }
    ensures two_paths { reads (codes "allow rw path=/a path=/b") ≡ Err 17 ∷ Err 17 ∷ Err 17 ∷ [] }
    ensures path_behind_uid { reads (codes "allow rw uid=1 path=/a") ≡ Err 15 ∷ Err 15 ∷ Err 15 ∷ [] }
    ensures grant_behind_gids { reads (codes "allow rw uid=1 gids=1,2,allow r") ≡ Ok 2 ∷ Ok 2 ∷ Ok 2 ∷ [] }
    ensures path_behind_network { reads (codes "allow rw network 10.0.0.0/8 path=/a") ≡ Err 28 ∷ Err 28 ∷ Err 28 ∷ [] }
    ensures uid_beside_fsname { reads (codes "allow rw fsname=a path=/b uid=1") ≡ Err 26 ∷ Ok 1 ∷ Ok 1 ∷ [] }
    ensures uid_beside_root_squash { reads (codes "allow rw root_squash uid=1") ≡ Err 21 ∷ Ok 1 ∷ Ok 1 ∷ [] }
    ensures gids_without_uid { reads (codes "allow rw fsname=a gids=1000,1001,1002") ≡ Err 18 ∷ Ok 1 ∷ Ok 1 ∷ [] }
{}

/// What each release says by the path of a grant.
pub fn paths_by_release()
    ensures slash_at_the_end { says (codes "allow rw path=/foo/") (record usual { path = codes "foo" ∷ [] }) ≡ Ok (codes "denied") ∷ Ok (codes "allowed") ∷ Ok (codes "allowed") ∷ [] }
    ensures two_slashes { says (codes "allow rw path=/foo//bar") usual ≡ Ok (codes "denied") ∷ Ok (codes "denied") ∷ Ok (codes "denied") ∷ [] }
    ensures other_name { says (codes "allow rw path=/foo") (record usual { path = codes "food" ∷ [] }) ≡ Ok (codes "denied") ∷ Ok (codes "denied") ∷ Ok (codes "denied") ∷ [] }
{}

/// What each release says by the user and the groups that ask.
pub fn users_by_release()
    ensures for_root { says (codes "allow rwps uid=0") (record usual { attr = owned 7 7 0o640 }) ≡ Ok (codes "denied") ∷ Ok (codes "allowed") ∷ Ok (codes "allowed") ∷ [] }
    ensures for_root_with_gids { says (codes "allow rwps uid=0 gids=5") (record usual { attr = owned 7 7 0o640; asked = asked_for Chmod }) ≡ Ok (codes "denied") ∷ Ok (codes "allowed") ∷ Ok (codes "allowed") ∷ [] }
    ensures root_squashed { says (codes "allow rwps root_squash") (record usual { caller = caller 0 5; asked = asked_for (Chgrp 0) }) ≡ Ok (codes "denied") ∷ Ok (codes "denied") ∷ Ok (codes "denied") ∷ [] }
    ensures chmod_of_another { says (codes "allow rwps uid=10") (record usual { caller = record (caller 10 10) { groups = 11 ∷ [] }; attr = owned 11 11 0o666; asked = asked_for Chmod }) ≡ Ok (codes "allowed") ∷ Ok (codes "allowed") ∷ Ok (codes "allowed") ∷ [] }
    ensures chown_of_another { says (codes "allow rwps uid=10") (record usual { caller = record (caller 10 10) { groups = 11 ∷ [] }; attr = owned 11 11 0o666; asked = asked_for (Chown 11) }) ≡ Ok (codes "denied") ∷ Ok (codes "denied") ∷ Ok (codes "denied") ∷ [] }
{}

/// What each release says by the file system of a grant.
pub fn file_systems_by_release()
    ensures write_of_another { says (codes "allow r, allow rw fsname=other") (record usual { caller = caller 0 0 }) ≡ Ok (codes "allowed") ∷ Ok (codes "allowed") ∷ Ok (codes "denied") ∷ [] }
    ensures everything_of_another { says (codes "allow * fsname=cephfs") (record usual { fs = codes "other" }) ≡ Ok (codes "allowed") ∷ Ok (codes "allowed") ∷ Ok (codes "denied") ∷ [] }
    ensures neither { says (codes "allow r fsname=cephfs, allow rw fsname=other") (record usual { fs = codes "third"; caller = caller 0 0 }) ≡ Ok (codes "cannot mount") ∷ Ok (codes "cannot mount") ∷ Ok (codes "cannot mount") ∷ [] }
{}

/// What each release says by the network of a grant.
pub fn networks_by_release()
    ensures in_the_second { says (codes "allow * network 192.168.0.0/16, allow * network 10.0.0.0/8") (record root { address = Some (Short (10 ∷ 1 ∷ 2 ∷ 3 ∷ [])) }) ≡ Ok (codes "allowed") ∷ Ok (codes "allowed") ∷ Ok (codes "allowed") ∷ [] }
    ensures unknown { says (codes "allow * network 10.0.0.0/8") root ≡ Ok (codes "depends") ∷ Ok (codes "depends") ∷ Ok (codes "depends") ∷ [] }
    ensures no_address { says (codes "allow rw network 300.0.0.0/8") (record usual { address = Some (Short (10 ∷ 1 ∷ 2 ∷ 3 ∷ [])) }) ≡ Ok (codes "denied") ∷ Ok (codes "denied") ∷ Ok (codes "denied") ∷ [] }
{}

/// What the newest release says to a mask. Without a write it asks for no w.
pub fn masks_by_release()
    ensures without_a_write { newest_says (codes "allow r") (record usual { path = codes "a" ∷ codes "x" ∷ []; asked = asked_by 16 8 0 }) ≡ Ok (Allowed 1) }
    ensures with_a_write { newest_says (codes "allow rw path=/b, allow r") (record usual { path = codes "a" ∷ codes "x" ∷ []; asked = asked_by 18 8 0 }) ≡ Ok (Denied (Path ∷ NoWrite ∷ [])) }
    ensures path_number { rule_number Path ≡ 4 }
    ensures path_word { rule_word Path ≡ codes "path" }
    ensures no_write_number { rule_number NoWrite ≡ 5 }
    ensures no_write_word { rule_word NoWrite ≡ codes "no-write" }
{}

/// By which grant a client of each release refuses to change attributes. The last decides, where it looks at all.
pub fn clients_by_release()
    ensures last_refuses { refuses (codes "allow rw path=/a, allow r") (record usual { path = codes "a" ∷ codes "x" ∷ [] }) ≡ Ok None ∷ Ok (Some 2) ∷ Ok (Some 2) ∷ [] }
    ensures last_lets_pass { refuses (codes "allow r, allow rw path=/a") (record usual { path = codes "a" ∷ codes "x" ∷ [] }) ≡ Ok None ∷ Ok None ∷ Ok None ∷ [] }
{}
