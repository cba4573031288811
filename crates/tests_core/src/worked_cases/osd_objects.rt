//! Cases of what OSD caps open. A second program answered so, which was held against the OSDs of Ceph 16, 18 and 20.
#![tactic(auto, unfolding(crate::proofs::Unfolded::osd_caps))]

ghost use Rattle.std.specs.Prelude.{◌≡◌, codes, Ok, true, false};
ghost use Rattle.osd_caps.specs.Accesses.{rights};
ghost use Rattle.osd_caps.specs.declared.fault.OsdFaultKind.TheVariants.{LeftOver, NoAccess, NoProfile, NotGrant};
ghost use Rattle.tests_core.specs.OsdCaps.{counted, of_data, of_metadata, of_rbd, opened, readable, within, wrong};

/// What caps open by the tag of a pool. What `ceph fs authorize` writes opens the data of all tenants, and no metadata.
pub fn caps_by_tag()
    ensures authorized { opened (codes "allow rw tag cephfs data=FS") of_data ≡ Ok (rights true true) }
    ensures authorized_in_a_namespace { opened (codes "allow rw tag cephfs data=FS") (within of_data (codes "n")) ≡ Ok (rights true true) }
    ensures authorized_for_metadata { opened (codes "allow rw tag cephfs data=FS") of_metadata ≡ Ok (rights false false) }
    ensures authorized_to_read { opened (codes "allow r tag cephfs data=FS") of_data ≡ Ok (rights true false) }
    ensures other_file_system { opened (codes "allow rw tag cephfs data=fs2") of_data ≡ Ok (rights false false) }
    ensures all_file_systems { opened (codes "allow rw tag cephfs data=all") of_data ≡ Ok (rights true true) }
    ensures star { opened (codes "allow rw tag cephfs data=*") of_data ≡ Ok (rights true true) }
    ensures all_in_quotes { opened (codes "allow rw tag cephfs data=\"all\"") of_data ≡ Ok (rights false false) }
    ensures star_for_the_key { opened (codes "allow rw tag cephfs *=FS") of_metadata ≡ Ok (rights true true) }
    ensures star_for_the_value { opened (codes "allow rw tag cephfs data=*") of_metadata ≡ Ok (rights false false) }
    ensures stars_for_both { opened (codes "allow rw tag rbd *=*") of_rbd ≡ Ok (rights true true) }
    ensures value_of_no_key { opened (codes "allow rw tag rbd *=x") of_rbd ≡ Ok (rights false false) }
{}

/// What caps open by the pool and the namespace.
pub fn caps_by_place()
    ensures pool { opened (codes "allow rw pool=p") (within of_data (codes "n")) ≡ Ok (rights true true) }
    ensures other_pool { opened (codes "allow rw pool=p") (record of_data { pool = codes "p2"; namespace = codes "n" }) ≡ Ok (rights false false) }
    ensures pool_named_all { opened (codes "allow rw pool=all") of_data ≡ Ok (rights false false) }
    ensures namespace { opened (codes "allow rw pool=p namespace=n") (within of_data (codes "n")) ≡ Ok (rights true true) }
    ensures longer_namespace { opened (codes "allow rw pool=p namespace=n") (within of_data (codes "nn")) ≡ Ok (rights false false) }
    ensures star { opened (codes "allow rw pool=p namespace=n*") (within of_data (codes "nn")) ≡ Ok (rights true true) }
    ensures star_in_quotes { opened (codes "allow rw pool=p namespace=\"n*\"") (within of_data (codes "nn")) ≡ Ok (rights true true) }
    ensures default_namespace { opened (codes "allow rw pool=p namespace=\"\"") of_data ≡ Ok (rights true true) }
    ensures not_default_namespace { opened (codes "allow rw pool=p namespace=\"\"") (within of_data (codes "n")) ≡ Ok (rights false false) }
    ensures namespace_of_any_pool { opened (codes "allow rw namespace=n") (record of_data { pool = codes "p2"; namespace = codes "n" }) ≡ Ok (rights true true) }
    ensures namespace_beside_a_tag { opened (codes "allow rw namespace=n tag cephfs data=FS") (within of_data (codes "nn")) ≡ Ok (rights false false) }
{}

/// What caps open by their letters and profiles. Classes give neither right.
pub fn caps_by_rights()
    ensures star { opened (codes "allow *") of_data ≡ Ok (rights true true) }
    ensures in_two_grants { opened (codes "allow r pool=p, allow w pool=p") of_data ≡ Ok (rights true true) }
    ensures behind_the_scope { opened (codes "allow pool=p r") of_data ≡ Ok (rights true false) }
    ensures execute { opened (codes "allow x") of_data ≡ Ok (rights false false) }
    ensures calls { opened (codes "allow class-read class-write") of_data ≡ Ok (rights false false) }
    ensures class { opened (codes "allow class rbd metadata_list") of_data ≡ Ok (rights false false) }
    ensures read_only { opened (codes "profile read-only pool=p") of_data ≡ Ok (rights true false) }
    ensures profile_rbd { opened (codes "profile rbd pool=p") of_data ≡ Ok (rights true true) }
    ensures profile_rbd_elsewhere { opened (codes "profile rbd pool=p namespace=n") of_data ≡ Ok (rights false false) }
    ensures rbd_read_only { opened (codes "profile rbd-read-only") of_data ≡ Ok (rights true false) }
    ensures profile_mds { opened (codes "profile mds") of_data ≡ Ok (rights false false) }
{}

/// What caps open of some objects alone: whether that one, and whether any.
pub fn caps_by_name()
    ensures not_all { opened (codes "allow rw object_prefix 100.") of_data ≡ Ok (rights false false) }
    ensures begins_so { readable (codes "allow r object_prefix 100.") (codes "100.00000000") ≡ Ok (true, true) }
    ensures begins_otherwise { readable (codes "allow r object_prefix 100.") (codes "1000.00000000") ≡ Ok (false, true) }
    ensures rbd_info { readable (codes "profile rbd pool=rbd") (codes "rbd_info") ≡ Ok (true, true) }
    ensures other_than_rbd_info { readable (codes "profile rbd pool=rbd") (codes "100.00000000") ≡ Ok (false, true) }
    ensures rbd_info_read_only { readable (codes "profile rbd-read-only pool=rbd") (codes "rbd_info") ≡ Ok (false, false) }
    ensures written_alone { readable (codes "allow w") (codes "x") ≡ Ok (false, false) }
    ensures grants_with_a_beginning { counted (codes "allow r object_prefix 100.") ≡ Ok 1 }
    ensures grants_with_a_profile { counted (codes "profile rbd pool=rbd") ≡ Ok 1 }
    ensures grants_with_a_profile_to_read { counted (codes "profile rbd-read-only pool=rbd") ≡ Ok 1 }
    ensures grants_with_letters { counted (codes "allow w") ≡ Ok 1 }
{}

/// Texts that are not read, and what is first wrong with each.
pub fn faults_of_caps()
    ensures empty { counted (codes "") ≡ wrong NotGrant 0 }
    ensures nothing_behind_a_comma { counted (codes "allow r,") ≡ wrong NotGrant 8 }
    ensures no_access { counted (codes "allow") ≡ wrong NoAccess 5 }
    ensures no_access_behind_a_pool { counted (codes "allow pool=p q") ≡ wrong NoAccess 13 }
    ensures no_profile { counted (codes "profile ,") ≡ wrong NoProfile 8 }
    ensures letters_in_another_order { counted (codes "allow wr") ≡ wrong LeftOver 7 }
    ensures star_for_every_namespace { counted (codes "allow rw namespace=*") ≡ wrong LeftOver 9 }
    ensures tag_behind_a_pool { counted (codes "allow rw pool=p tag cephfs data=FS") ≡ wrong LeftOver 16 }
    ensures all_begins_the_value { counted (codes "allow rw tag cephfs data=allo") ≡ wrong LeftOver 28 }
    ensures behind_a_method { counted (codes "allow class foo pool=p") ≡ wrong LeftOver 20 }
    ensures line_feed_before_a_comma { counted (codes "allow r\n, allow w") ≡ wrong LeftOver 8 }
{}
