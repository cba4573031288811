//! The releases of Ceph whose programs were asked.
ghost use Rattle.std.specs.Prelude.{◌≡◌};
ghost use Rattle.release_rules.specs.Releases.{is_either};

use release_grants::Switches;

/// A release of Ceph, by the one version of it that was asked. Another version of the same release may differ from it.
#[derive(Clone, Copy)]
pub enum Release {
    /// Ceph 16.2.15.
    Pacific,
    /// Ceph 18.2.7.
    Reef,
    /// Ceph 20.2.4.
    Tentacle,
}

impl Release {
    ghost use Rattle.std.specs.Prelude.{◌≡◌};
    ghost use Rattle.release_rules.specs.Releases.{release_of, switches_of, version_of};

    /// The release that a word names: by its number, as `18`, or by that of the version that was asked, as `18.2.7`.
    pub fn read(word: &[u8]) -> Option<Release>
        ensures { result ≡ release_of word.now }
    {
        if is_either(word, b"16", b"16.2.15") {
            Some(Release::Pacific)
        } else if is_either(word, b"18", b"18.2.7") {
            Some(Release::Reef)
        } else if is_either(word, b"20", b"20.2.4") {
            Some(Release::Tentacle)
        } else {
            None
        }
    }

    /// The number of the version of it that was asked.
    pub fn version(self) -> &'static str
        ensures { result.now ≡ version_of self }
    {
        match self {
            Release::Pacific => "16.2.15",
            Release::Reef => "18.2.7",
            Release::Tentacle => "20.2.4",
        }
    }

    /// What the release does its own way.
    pub fn switches(self) -> Switches
        ensures { result ≡ switches_of self }
    {
        let is_pacific = matches!(self, Release::Pacific);
        Switches {
            has_two_orders: is_pacific,
            zero_is_no_uid: !is_pacific,
            judges_fsname: matches!(self, Release::Tentacle),
            drops_last_slashes: !is_pacific,
            clients_check: !is_pacific,
        }
    }
}

fn is_either(word: &[u8], one: &[u8], other: &[u8]) -> bool
    ensures { result ≡ is_either one.now other.now word.now }
{
    word == one || word == other
}
