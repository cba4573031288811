//! Of which releases of Ceph something is told.

use release_grants::Switches;
use release_rules::Release;

/// Of which releases something is told.
#[derive(Clone, Copy)]
pub enum Releases {
    /// Of one.
    One(Release),
    /// Of Ceph 18 and 20, each of them.
    Today,
}

impl Releases {
    ghost use Rattle.std.specs.Prelude.{◌≡◌};
    ghost use Rattle.policy_analysis.specs.Releases.{releases_numbers, switches_for, releases_text};

    /// What the first of them does its own way.
    pub fn switches(self) -> Switches
        ensures { result ≡ switches_for self }
    {
        match self {
            Releases::One(release) => release.switches(),
            Releases::Today => Release::Reef.switches(),
        }
    }

    /// How a line names them.
    pub fn text(self) -> &'static str
        ensures { result.now ≡ releases_text self }
    {
        match self {
            Releases::One(Release::Pacific) => "Ceph 16",
            Releases::One(Release::Reef) => "Ceph 18",
            Releases::One(Release::Tentacle) => "Ceph 20",
            Releases::Today => "Ceph 18 and 20",
        }
    }

    /// Their numbers.
    pub fn numbers(self) -> &'static [u32]
        ensures { result.now ≡ releases_numbers self }
    {
        match self {
            Releases::One(Release::Pacific) => &[16],
            Releases::One(Release::Reef) => &[18],
            Releases::One(Release::Tentacle) => &[20],
            Releases::Today => &[18, 20],
        }
    }
}
