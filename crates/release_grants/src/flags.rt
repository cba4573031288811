//! The flags of a grant.

/// What the flags of a grant let a client do, besides reading. A letter stands for itself only where not all is said.
#[derive(Clone, Copy)]
pub struct Flags {
    /// `*` or `all`: everything that the letters mean.
    pub all: bool,
    /// Write.
    pub w: bool,
    /// Go on where the cluster is full.
    pub f: bool,
    /// Set attributes whose name begins with `ceph.`, such as quotas.
    pub p: bool,
    /// Make and remove snapshots.
    pub s: bool,
}

impl Flags {
    ghost use Rattle.std.specs.Prelude.{◌≡◌};
    ghost use Rattle.release_grants.specs.Flags.{has_f, has_p, has_s, has_w};

    /// Whether the flags cover writing.
    pub fn has_w(self) -> bool
        ensures { result ≡ has_w self }
    {
        self.all || self.w
    }

    /// Whether they cover writing to a full cluster.
    pub fn has_f(self) -> bool
        ensures { result ≡ has_f self }
    {
        self.all || self.f
    }

    /// Whether they cover attributes whose name begins with `ceph.`.
    pub fn has_p(self) -> bool
        ensures { result ≡ has_p self }
    {
        self.all || self.p
    }

    /// Whether they cover snapshots.
    pub fn has_s(self) -> bool
        ensures { result ≡ has_s self }
    {
        self.all || self.s
    }
}
