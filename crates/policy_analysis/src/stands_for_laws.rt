//! Where the MDS of a release judges as this server does. No program needs to call the laws.

ghost use Rattle.policy_analysis.specs.StandsFor.{ChangesGroupByBoth, ChangesModeByWriting, ChangesOwnerByBoth, JudgesAlike, JudgesListsAlike, SetsVxattrAsOwnerReads};

/// Where a grant of this server says the same as that of an MDS by the rules of a release (uid 0 and gids fall away where that is no uid, fsname
/// where it counts at the mount alone, and slashes at the end of the path), the MDS allows by the one to read, to write and to make a snapshot what
/// this server allows by the other; to change the mode what this server allows to write; to change the owner or the group what it allows to write and
/// to change; and to set an attribute, where the grant has p, what it allows the inode's owner to read, where the owner may. The caller's uid is below
/// 2147483648, and its groups stand in ascending order, as the kernel has them.
pub fn what_stands_for_another_is_judged_alike()
    ensures alike { JudgesAlike }
    ensures mode { ChangesModeByWriting }
    ensures owner { ChangesOwnerByBoth }
    ensures group { ChangesGroupByBoth }
    ensures vxattr { SetsVxattrAsOwnerReads }
{}

/// So some grant of a whole list allows it there, wherever the client is, exactly if some grant of the list that stands for it does here.
pub fn lists_that_stand_for_others_are_judged_alike()
    ensures { JudgesListsAlike }
{}
