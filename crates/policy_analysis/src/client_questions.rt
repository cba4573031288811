//! What is wanted, and the grants that allow it.

ghost use Rattle.std.specs.Prelude.{◌≡◌, ◌≤◌, true, false, length, All, MatchOption};
ghost use Rattle.policy_analysis.specs.Callers.{allows_in, allows_one, asked};
ghost use Rattle.policy_analysis.specs.Standing.{IsFirst, allows_anyway, allows_here};

use crate::callers::{asker, attr_for, listed, own_attr};
use capbits::Caller;
use capgrant::{Access, Attr, Question};
use capspec::{FsName, Grant, Grants};
use std::marker::Model;

/// What somebody behind a client's key wants to do.
pub struct Wanted<'a> {
    /// The name of the file system.
    pub fs: &'a FsName,
    /// The names of the inode, from the root down.
    pub path: &'a [&'a [u8]],
    /// The access to it.
    pub access: Access,
}

// Not derived: so the proof of a function that drops one has a single call there.
impl Drop for Wanted<'_> {
    fn drop(self) {
        let Wanted {
            fs: _,
            path: _,
            access: _,
        } = self;
    }
}

impl<'a> Model for Wanted<'a> {
    ghost use Rattle.std.specs.Prelude.{map};
    ghost use Rattle.policy_analysis.specs.Callers.{Wanted as Asked};
    ghost use Rattle.policy_analysis.specs.Callers.{wanted};

    ghost Value = { Asked };

    ghost view = { λ w. wanted w.fs.now (map (λ name. name.now) w.path.now) w.access };
}

impl Wanted<'_> {
    /// The number of the first grant that allows it to somebody, of an inode with these attributes. Where nothing is known of the
    /// inode, each grant is asked of one of its own user's.
    pub(crate) fn first(&self, grants: &Grants, attr: &Option<Attr>) -> Option<u32>
        ensures { MatchOption result
            (All (λ g. allows_here self.now attr.now g ≡ false) grants.now)
            (IsFirst (λ g. allows_here self.now attr.now g ≡ true) (λ g. allows_here self.now attr.now g ≡ false) grants.now) }
    {
        for (place, grant) in grants.as_slice().iter().enumerate() {
            if self.allows_one(grant, &attr_for(attr, grant)) {
                return Some(place as u32 + 1);
            }
        }
        None
    }

    /// The number of the first grant that allows it to somebody whatever the attributes are: it has no uid, and looks at none.
    pub(crate) fn first_anyway(&self, grants: &Grants) -> Option<u32>
        ensures { MatchOption result
            (All (λ g. allows_anyway self.now g ≡ false) grants.now)
            (IsFirst (λ g. allows_anyway self.now g ≡ true) (λ g. allows_anyway self.now g ≡ false) grants.now) }
    {
        for (place, grant) in grants.as_slice().iter().enumerate() {
            if grant.uid.is_none() && self.allows_one(grant, &own_attr(grant)) {
                return Some(place as u32 + 1);
            }
        }
        None
    }

    // Whether the grant allows it to one of those who are asked.
    fn allows_one(&self, grant: &Grant, attr: &Attr) -> bool
        ensures { result ≡ allows_one self.now attr.now grant.now }
    {
        let gids = listed(grant);
        if gids.is_empty() {
            return self.allows_in(grant, attr, &[]);
        }
        for gid in gids {
            if self.allows_in(grant, attr, &[*gid]) {
                return true;
            }
        }
        false
    }

    // Whether the grant allows it to its user in these groups.
    fn allows_in(&self, grant: &Grant, attr: &Attr, groups: &[u32]) -> bool
        requires { length groups.now ≤ 16 }
        ensures { result ≡ allows_in self.now attr.now grant.now groups.now }
    {
        let caller = asker(attr, grant, groups);
        self.asked(attr, &caller).allows(grant)
    }

    // What is asked of each grant for this caller.
    fn asked<'q>(&'q self, attr: &'q Attr, caller: &'q Caller) -> Question<'q>
        ensures { result ≡ asked self.now attr.now caller.now }
    {
        Question {
            fs: self.fs,
            caller,
            path: self.path,
            attr,
            access: self.access,
        }
    }
}
