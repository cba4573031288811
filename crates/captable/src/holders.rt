//! A list of holders.
ghost use Rattle.std.specs.Prelude.{◌≡◌, length};

use crate::entry::Holder;
use std::marker::Model;

/// A list of holders.
pub struct Holders {
    list: Vec<Holder>,
}

// Not derived: so the proof of a function that drops one has a single call there.
impl Drop for Holders {
    fn drop(self) {
        let Holders { list: _ } = self;
    }
}

impl Model for Holders {
    ghost use Rattle.std.specs.Prelude.{List};
    ghost use Rattle.captable.specs.declared.entry.Holder.{Holder};

    ghost Value = { List Holder };

    ghost view = { λ h. h.list.items };
}

impl Holders {
    /// The holders of a list.
    pub fn from_vec(list: Vec<Holder>) -> Holders
        ensures { result ≡ list.items }
    {
        Holders { list }
    }

    /// The list of these holders.
    pub fn into_vec(self) -> Vec<Holder>
        ensures { result.items ≡ self }
    {
        let Holders { list } = self;
        list
    }

    /// These holders, in their order.
    pub fn as_slice(&self) -> &[Holder]
        ensures { result.now ≡ self.now }
    {
        &self.list
    }

    /// How many there are.
    pub fn len(&self) -> usize
        ensures { result ≡ length self.now }
    {
        self.list.len()
    }
}
