//! The rules by which a grant can fail.

/// A rule by which a grant fails to allow what is asked. The MDS says only that no grant allows; which rule a grant fails by first is told by this
/// order, of which the first eleven are the rules of this server.
#[derive(Clone, Copy)]
pub enum Rule {
    /// The grant names another file system.
    FsName,
    /// The grant is for one user, and the caller is another.
    Uid,
    /// The grant is for one user and lists gids, and none of the caller's is among them.
    Gids,
    /// The inode does not lie in the grant's directory.
    Path,
    /// A write is asked for, and the flags lack w.
    NoWrite,
    /// A write is asked for, the grant squashes root, and the caller is root by its uid or its first gid.
    RootSquash,
    /// A `ceph.` attribute is to be set, and the flags lack p.
    NoP,
    /// A snapshot is to be made or removed, and the flags lack s.
    NoS,
    /// The grant is for one user, the owner or the group is to change, and the caller does not own the inode, or would give it to another.
    NotOwner,
    /// The grant is for one user, and the inode is to go to a group by which the caller does not act under the grant.
    NotOwnGroup,
    /// The grant is for one user, and the mode lacks a bit that the caller needs to read, write or execute.
    ModeBits,
    /// The check is to go on where the cluster is full, and the flags lack f.
    NoF,
    /// The grant is for a network, and the client's address is not in it.
    Network,
}

impl Rule {
    ghost use Rattle.std.specs.Prelude.{◌≡◌};
    ghost use Rattle.release_rules.specs.Rules.{rule_number, rule_word};

    /// The number of the rule, from 1 to 13.
    pub fn number(self) -> u8
        ensures { result ≡ rule_number self }
    {
        self as u8 + 1
    }

    /// The word that names the rule in a text.
    pub fn word(self) -> &'static str
        ensures { result.now ≡ rule_word self }
    {
        match self {
            Rule::FsName => "fsname",
            Rule::Uid => "uid",
            Rule::Gids => "gids",
            Rule::Path => "path",
            Rule::NoWrite => "no-write",
            Rule::RootSquash => "root-squash",
            Rule::NoP => "no-p",
            Rule::NoS => "no-s",
            Rule::NotOwner => "not-owner",
            Rule::NotOwnGroup => "not-own-group",
            Rule::ModeBits => "mode-bits",
            Rule::NoF => "no-f",
            Rule::Network => "network",
        }
    }
}
