//! Grants, and whole OSD caps.

ghost use Rattle.std.specs.Prelude.{◌≡◌};
ghost use Rattle.osd_caps.specs.Opening.{opens};

use crate::access::{Access, Right};
use crate::scope::Scope;
use crate::tags::Application;
use std::marker::Model;

/// One grant of a client's OSD caps.
pub struct OsdGrant<'a> {
    /// What it allows.
    pub access: Access,
    /// The objects that it speaks of.
    pub scope: Scope<'a>,
}

// By hand, so that whoever lets one go has one call to prove.
impl Drop for OsdGrant<'_> {
    fn drop(self) {
        let OsdGrant {
            access: _,
            scope: _,
        } = self;
    }
}

impl OsdGrant<'_> {
    ghost use Rattle.std.specs.Prelude.{◌≡◌};
    ghost use Rattle.osd_caps.specs.Opening.{gives, opens_by, opens_some};

    // Whether it gives the right in the pool and the namespace, to the names that it speaks of.
    #[tactic(auto, unfolding(crate::specs::Opening::gives))]
    fn gives(&self, pool: &[u8], namespace: &[u8], tags: &[Application<'_>], right: Right) -> bool
        ensures { result ≡ gives self.now pool.now namespace.now tags.now right }
    {
        self.access.rights().includes(right) && self.scope.contains(pool, namespace, tags)
    }

    // Whether it opens the object of this name.
    #[tactic(auto, unfolding(crate::specs::Opening::opens_by))]
    fn opens(
        &self,
        pool: &[u8],
        namespace: &[u8],
        tags: &[Application<'_>],
        name: &[u8],
        right: Right,
    ) -> bool
        ensures { result ≡ opens_by self.now pool.now namespace.now tags.now name.now right }
    {
        self.gives(pool, namespace, tags, right) && self.scope.begins(name)
            || self.access.reads_rbd_info(right) && name.starts_with(b"rbd_info")
    }

    // Whether it opens an object of the pool and the namespace, whichever its name.
    #[tactic(auto, unfolding(crate::specs::Opening::opens_some))]
    fn opens_some(
        &self,
        pool: &[u8],
        namespace: &[u8],
        tags: &[Application<'_>],
        right: Right,
    ) -> bool
        ensures { result ≡ opens_some self.now pool.now namespace.now tags.now right }
    {
        self.gives(pool, namespace, tags, right) || self.access.reads_rbd_info(right)
    }
}

/// The OSD caps of a client: its grants, in the order of their text.
pub struct OsdCaps<'a> {
    grants: Vec<OsdGrant<'a>>,
}

// By hand, so that whoever lets one go has one call to prove.
impl Drop for OsdCaps<'_> {
    fn drop(self) {
        let OsdCaps { grants: _ } = self;
    }
}

impl<'a> Model for OsdCaps<'a> {
    ghost use Rattle.std.specs.Prelude.{List};
    ghost use Rattle.osd_caps.specs.declared.grant.OsdGrant.{OsdGrant as Grant};

    ghost Value = { List Grant };

    ghost view = { λ caps. caps.grants.items };
}

impl<'a> OsdCaps<'a> {
    ghost use Rattle.std.specs.Prelude.{◌≡◌, ◌↔◌, IsTrue};
    ghost use Rattle.osd_caps.specs.Opening.{OpensSome, opens, opens_object};

    /// The caps with these grants.
    pub(crate) fn of(grants: Vec<OsdGrant<'a>>) -> OsdCaps<'a>
        ensures { result ≡ grants.entry.items }
    {
        OsdCaps { grants }
    }

    /// The grants, in the order of their text.
    pub fn grants(&self) -> &[OsdGrant<'a>]
        ensures { result.now ≡ self.now }
    {
        self.grants.as_slice()
    }

    /// Whether a client with these caps may make a plain read, or a plain write, of the object of this name, in a namespace of a pool
    /// that is tagged so. The empty namespace is the default one. Of the empty name it is so exactly if it is so of every name.
    ///
    /// What the caps allow of object classes is not judged, nor are operations that reach a second object beside the one that they
    /// name. A grant with a network counts as if the client had an address there.
    pub fn opens_object(
        &self,
        pool: &[u8],
        namespace: &[u8],
        tags: &[Application<'_>],
        name: &[u8],
        right: Right,
    ) -> bool
        ensures { result ≡ opens_object self.now pool.now namespace.now tags.now name.now right }
    {
        let grants = self.grants();
        for grant in grants {
            if grant.opens(pool, namespace, tags, name, right) {
                return true;
            }
        }
        false
    }

    /// Whether there is a name by which a client with these caps may read, or write, an object there, as `opens_object` says.
    pub fn opens(
        &self,
        pool: &[u8],
        namespace: &[u8],
        tags: &[Application<'_>],
        right: Right,
    ) -> bool
        ensures value { result ≡ opens self.now pool.now namespace.now tags.now right }
        ensures some { IsTrue result ↔ OpensSome self.now pool.now namespace.now tags.now right }
    {
        any_opens(self.grants(), pool, namespace, tags, right)
    }
}

// Whether one of the grants opens an object of the pool and the namespace.
fn any_opens(
    grants: &[OsdGrant<'_>],
    pool: &[u8],
    namespace: &[u8],
    tags: &[Application<'_>],
    right: Right,
) -> bool
    ensures { result ≡ opens grants.now pool.now namespace.now tags.now right }
{
    for grant in grants {
        if grant.opens_some(pool, namespace, tags, right) {
            return true;
        }
    }
    false
}
