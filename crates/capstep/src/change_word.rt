//! The words that changes begin with.
ghost use Rattle.std.specs.Prelude.{◌≡◌};
ghost use Rattle.capstep.specs.Words.{change_word};

/// A change, by the word that it begins with.
#[derive(Clone, Copy)]
pub enum ChangeWord {
    /// The permission bits.
    Mode,
    /// The owner.
    Uid,
    /// The group.
    Gid,
    /// The value of an attribute.
    SetXattr,
    /// An attribute less.
    RemoveXattr,
    /// How many bytes of data there are.
    Size,
    /// When the inode was changed.
    Time,
}

impl ChangeWord {
    /// The word.
    pub fn word(self) -> &'static str
        ensures { result.now ≡ change_word self }
    {
        match self {
            ChangeWord::Mode => "chmod",
            ChangeWord::Uid => "chown",
            ChangeWord::Gid => "chgrp",
            ChangeWord::SetXattr => "setx",
            ChangeWord::RemoveXattr => "rmx",
            ChangeWord::Size => "size",
            ChangeWord::Time => "times",
        }
    }
}
