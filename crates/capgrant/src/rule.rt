//! The rules by which a grant can fail.
ghost use Rattle.std.specs.Prelude.{Some};
ghost use Rattle.std.specs.Fmt.{padded};
ghost use Rattle.capgrant.specs.Rule.{rule_word};

use std::fmt;

/// A rule by which a grant fails to allow an access. The rules are tested in this order.
///
/// What the flags, the path, the file system and `root_squash` of a grant are for is that of "CephFS client
/// capabilities" in the Ceph documentation; the exact words of the rules are this server's. The default has no meaning:
/// it fills the unused places of a list.
#[derive(Clone, Copy, PartialEq, Eq, Debug, Default)]
pub enum Rule {
    /// The grant names another file system.
    #[default]
    FsName,
    /// The grant has a uid, and the caller's is another.
    Uid,
    /// The grant lists gids, and none of the caller's is among them.
    Gids,
    /// The inode does not lie at or below the grant's path.
    Path,
    /// The access is not to read, and the flags lack w.
    NoWrite,
    /// The access is not to read, the grant squashes root, and the caller is root by its uid or its first gid.
    RootSquash,
    /// The access is to set a `ceph.` attribute, and the flags lack p.
    NoP,
    /// The access is to a snapshot, and the flags lack s.
    NoS,
    /// The grant has a uid, and the access changes the mode, the owner or the group of an inode that the caller does
    /// not own, or gives the inode to another owner.
    NotOwner,
    /// The grant has a uid, and the access gives the inode to a group that is not one of the caller's that it lists.
    NotOwnGroup,
    /// The grant has a uid, and the mode lacks the bit that the caller needs.
    ModeBits,
}

impl Rule {
    ghost use Rattle.std.specs.Prelude.{◌≡◌};
    ghost use Rattle.capgrant.specs.Rule.{rule_number, rule_word};

    /// The number of the rule, from 1 to 11.
    pub fn number(self) -> u8
        ensures { result ≡ rule_number self }
    {
        self as u8 + 1
    }

    /// The word that names the rule in a text.
    pub fn word(self) -> &'static str
        ensures { result.now ≡ rule_word self }
    {
        match self {
            Rule::FsName => "fsname",
            Rule::Uid => "uid",
            Rule::Gids => "gids",
            Rule::Path => "path",
            Rule::NoWrite => "no-write",
            Rule::RootSquash => "root-squash",
            Rule::NoP => "no-p",
            Rule::NoS => "no-s",
            Rule::NotOwner => "not-owner",
            Rule::NotOwnGroup => "not-own-group",
            Rule::ModeBits => "mode-bits",
        }
    }
}

impl fmt::Display for Rule {
    ghost output = { λ rule. Some (rule_word rule) };

    ghost styled_output = { λ rule style. Some (padded style (rule_word rule)) };

    fn fmt<W: fmt::Write>(&self, f: &mut fmt::Formatter<W>) -> fmt::Result {
        f.pad(self.word())
    }
}
