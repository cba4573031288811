//! What a grant allows.

/// What a client may do to an object, or to some of a namespace.
#[derive(Clone, Copy)]
pub enum Right {
    /// To read it by a plain read.
    Read,
    /// To change it, make it or remove it by a plain write.
    Write,
}

/// Which rights a grant gives. An operation that reads and writes needs both of one grant.
#[derive(Clone, Copy)]
pub struct Rights {
    /// To read.
    pub reads: bool,
    /// To write.
    pub writes: bool,
}

impl Rights {
    ghost use Rattle.std.specs.Prelude.{◌≡◌};
    ghost use Rattle.osd_caps.specs.Opening.{includes};

    /// Whether a right is one of these.
    pub(crate) fn includes(self, right: Right) -> bool
        ensures { result ≡ includes self right }
    {
        match right {
            Right::Read => self.reads,
            Right::Write => self.writes,
        }
    }
}

/// A profile of OSD caps, by its name.
#[derive(Clone, Copy)]
pub enum Profile {
    /// `read-only`
    ReadOnly,
    /// `read-write`
    ReadWrite,
    /// `rbd`
    Rbd,
    /// `rbd-read-only`
    RbdReadOnly,
    /// Any other name. It is read, and gives nothing.
    Other,
}

impl Profile {
    ghost use Rattle.std.specs.Prelude.{◌≡◌};
    ghost use Rattle.osd_caps.specs.Accesses.{profile_of};
    ghost use Rattle.osd_caps.specs.Opening.{profile_rights};

    /// The profile of that name.
    #[tactic(auto, unfolding(crate::specs::Accesses::profile_of))]
    pub(crate) fn of(name: &[u8]) -> Profile
        ensures { result ≡ profile_of name.now }
    {
        if name == b"read-only".as_slice() {
            Profile::ReadOnly
        } else if name == b"read-write".as_slice() {
            Profile::ReadWrite
        } else if name == b"rbd".as_slice() {
            Profile::Rbd
        } else if name == b"rbd-read-only".as_slice() {
            Profile::RbdReadOnly
        } else {
            Profile::Other
        }
    }

    fn rights(self) -> Rights
        ensures { result ≡ profile_rights self }
    {
        let (reads, writes) = match self {
            Profile::ReadOnly | Profile::RbdReadOnly => (true, false),
            Profile::ReadWrite | Profile::Rbd => (true, true),
            Profile::Other => (false, false),
        };
        Rights { reads, writes }
    }
}

/// What a grant allows of plain reads and writes.
#[derive(Clone, Copy)]
pub enum Access {
    /// What stands behind `allow`. What it says of object classes is not kept.
    Allow(Rights),
    /// What a profile gives.
    OfProfile(Profile),
}

impl Access {
    ghost use Rattle.std.specs.Prelude.{◌≡◌};
    ghost use Rattle.osd_caps.specs.Opening.{reads_rbd_info, rights_of};

    /// Which rights it gives to the objects that the grant speaks of.
    pub(crate) fn rights(self) -> Rights
        ensures { result ≡ rights_of self }
    {
        match self {
            Access::Allow(rights) => rights,
            Access::OfProfile(profile) => profile.rights(),
        }
    }

    /// Whether this is the right that `profile rbd` gives besides, in every pool, to objects whose names begin with `rbd_info`.
    pub(crate) fn reads_rbd_info(self, right: Right) -> bool
        ensures { result ≡ reads_rbd_info self right }
    {
        match self {
            Access::OfProfile(Profile::Rbd) => matches!(right, Right::Read),
            _ => false,
        }
    }
}
