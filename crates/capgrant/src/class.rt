//! The classes of callers that a mode tells apart.

/// Which third of a mode's permission bits speaks of a caller.
#[derive(Clone, Copy)]
pub enum Class {
    /// The owner of the inode.
    Owner,
    /// A member of the inode's group.
    Group,
    /// Anyone else.
    Other,
}

impl Class {
    ghost use Rattle.std.specs.Prelude.{◌≡◌};
    ghost use Rattle.capgrant.specs.Class.{read_bit, write_bit};

    /// The mode bit that lets the class read.
    pub(crate) fn read_bit(self) -> u16
        ensures { result ≡ read_bit self }
    {
        match self {
            Class::Owner => 0o400,
            Class::Group => 0o040,
            Class::Other => 0o004,
        }
    }

    /// The mode bit that lets the class write.
    pub(crate) fn write_bit(self) -> u16
        ensures { result ≡ write_bit self }
    {
        match self {
            Class::Owner => 0o200,
            Class::Group => 0o020,
            Class::Other => 0o002,
        }
    }
}
