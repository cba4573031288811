//! The options of `explain`.
ghost use Rattle.std.specs.Prelude.{Some};
ghost use Rattle.std.specs.Fmt.{padded};
ghost use Rattle.queries.specs.Options.{option_name};

use std::fmt;

/// An option of `explain`. Their values are tested in this order.
#[derive(Clone, Copy)]
pub enum Opt {
    /// The client's grants.
    Grants,
    /// The name of the file system.
    Fs,
    /// The caller's uid.
    Uid,
    /// The caller's gid.
    Gid,
    /// The caller's other groups.
    Groups,
    /// The place of the inode.
    Path,
    /// The inode's owner.
    Owner,
    /// The inode's group.
    Group,
    /// The inode's mode.
    Mode,
    /// What is asked for.
    Access,
    /// The address that the client comes from.
    Addr,
}

impl Opt {
    ghost use Rattle.std.specs.Prelude.{◌≡◌};
    ghost use Rattle.queries.specs.Options.{option_name};

    /// The name of the option, without its two dashes.
    pub fn name(self) -> &'static str
        ensures { result.now ≡ option_name self }
    {
        match self {
            Opt::Grants => "grants",
            Opt::Fs => "fs",
            Opt::Uid => "uid",
            Opt::Gid => "gid",
            Opt::Groups => "groups",
            Opt::Path => "path",
            Opt::Owner => "owner",
            Opt::Group => "group",
            Opt::Mode => "mode",
            Opt::Access => "access",
            Opt::Addr => "addr",
        }
    }
}

impl fmt::Display for Opt {
    ghost output = { λ option. Some (option_name option) };

    ghost styled_output = { λ option style. Some (padded style (option_name option)) };

    fn fmt<W: fmt::Write>(&self, f: &mut fmt::Formatter<W>) -> fmt::Result {
        f.pad(self.name())
    }
}
