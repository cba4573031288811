//! Auth lists.

use crate::auth_fault::AuthFault;
use crate::entity::Entity;
use std::marker::Model;

/// The entities of an auth list, in their order.
pub struct AuthList {
    entities: Vec<Entity>,
}

// Not derived: so the proof of a function that drops one has a single call there.
impl Drop for AuthList {
    fn drop(self) {
        let AuthList { entities: _ } = self;
    }
}

impl Model for AuthList {
    ghost use Rattle.std.specs.Prelude.{List};
    ghost use Rattle.ceph_input.specs.Auth.{Named};

    ghost Value = { List Named };

    ghost view = { λ list. list.entities.items };
}

impl AuthList {
    ghost use Rattle.std.specs.Prelude.{◌≡◌, Ok, Err, MatchResult, find, option_map, bytes_eq};
    ghost use Rattle.ceph_input.specs.Auth.{caps_in};

    /// The list of these entities.
    pub(crate) fn of(entities: Vec<Entity>) -> AuthList
        ensures { result ≡ entities.items }
    {
        AuthList { entities }
    }

    /// The entities, in the order of the text.
    pub fn entities(&self) -> &[Entity]
        ensures { result.now ≡ self.now }
    {
        self.entities.as_slice()
    }

    /// The first entity of this name.
    pub fn find(&self, name: &[u8]) -> Option<&Entity>
        ensures { option_map (λ e. e.now) result ≡ find (λ e. bytes_eq e.name name.now) self.now }
    {
        self.entities.iter().find(|entity| entity.name() == name)
    }

    /// The text of the grants for the MDS that the first entity of this name has.
    pub fn mds_caps(&self, name: &[u8]) -> Result<&[u8], AuthFault>
        ensures { MatchResult result
            (λ caps. caps_in self.now name.now ≡ Ok caps.now)
            (λ fault. caps_in self.now name.now ≡ Err fault) }
    {
        let entity = self.find(name).ok_or(AuthFault::NoEntity)?;
        entity.caps().ok_or(AuthFault::NoCaps)
    }
}
