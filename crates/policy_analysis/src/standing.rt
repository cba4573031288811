//! What the grants of a client say to what somebody behind its key wants to do.

ghost use Rattle.std.specs.Prelude.{◌≡◌, ◌<◌, false, [], length, get_or, slice_get};
ghost use Rattle.capbits.specs.declared.caller.Caller.{Caller};
ghost use Rattle.capspec.specs.declared.grant.Grant.{Grant as Given};
ghost use Rattle.capgrant.specs.Verdict.{granted};
ghost use Rattle.policy_analysis.specs.declared.standing.Standing.TheVariants as standings;
ghost use Rattle.policy_analysis.specs.Callers.{asked};
ghost use Rattle.policy_analysis.specs.Standing.{Answers, AreReasons, attr_for, reason};

use crate::callers::{asker, attr_for, listed};
use crate::client_questions::Wanted;
use arrayvec::ArrayVec;
use capgrant::{Attr, Rule, Rules, Verdict, verdict};
use capspec::{Grant, Grants};

/// Whether some caller of a client may do what is wanted.
#[derive(Drop)]
pub enum Standing {
    /// Somebody may. Where nothing is known of the inode, somebody may whatever its owner, group and mode are.
    Allowed {
        /// The number of the first grant that allows it to somebody, from 1.
        grant: u32,
    },
    /// Nothing is known of the inode, and its owner, group and mode decide: for some of these somebody may, and for others nobody.
    Depends {
        /// The number of the first grant that allows it to somebody for some of them.
        grant: u32,
    },
    /// Nobody may. Where nothing is known of the inode, nobody may whatever its owner, group and mode are.
    Denied {
        /// For each grant, in order, the first rule by which it denies it to its own user, or to user 1 where it names none, in all
        /// of the groups that it lists; where nothing is known of the inode, of one of that user's with all mode bits.
        rules: Rules,
    },
}

impl Standing {
    /// What is said of a client that has no grants: nobody may anything.
    pub fn without_grants() -> Standing
        ensures { result ≡ standings.Denied [] }
    {
        Standing::Denied {
            rules: Rules::from(ArrayVec::new()),
        }
    }
}

impl Wanted<'_> {
    /// What the grants of a client say to it: whether they allow it to some caller behind its key, of an inode with these
    /// attributes, or of one of which nothing is known. Needs no memory.
    pub fn standing(&self, grants: &Grants, attr: &Option<Attr>) -> Standing
        ensures { Answers self.now attr.now grants.now result }
    {
        let Some(grant) = self.first(grants, attr) else {
            return Standing::Denied {
                rules: self.reasons(grants, attr),
            };
        };
        if attr.is_some() {
            return Standing::Allowed { grant };
        }
        match self.first_anyway(grants) {
            Some(grant) => Standing::Allowed { grant },
            None => Standing::Depends { grant },
        }
    }

    // Why each grant denies what nobody may.
    fn reasons(&self, grants: &Grants, attr: &Option<Attr>) -> Rules
        requires { (g : Given) (caller : Caller) → granted (asked self.now (attr_for attr.now g) caller) grants.now ≡ false }
        ensures { AreReasons self.now attr.now grants.now result }
    {
        let mut rules = ArrayVec::new();
        for (place, grant) in grants.as_slice().iter().enumerate() {
            if let Some(rule) = self.reason(grants, place, grant, attr) {
                rules.push(rule);
            }
        }
        Rules::from(rules)
    }

    // Why the grant at this place does.
    fn reason(
        &self,
        grants: &Grants,
        place: usize,
        grant: &Grant,
        attr: &Option<Attr>,
    ) -> Option<Rule>
        requires within { place < length grants.now }
        requires at { grant.now ≡ get_or grants.now place grant.now }
        requires denied { (g : Given) (caller : Caller) → granted (asked self.now (attr_for attr.now g) caller) grants.now ≡ false }
        ensures { result ≡ reason self.now (attr_for attr.now grant.now) grant.now }
    {
        let attr = attr_for(attr, grant);
        let caller = asker(&attr, grant, listed(grant));
        match verdict(grants, self.fs, &caller, self.path, &attr, self.access) {
            Verdict::Allowed { .. } => None,
            Verdict::Denied { rules } => rule_at(&rules, place),
        }
    }
}

// The rule at a place, the first at 0.
fn rule_at(rules: &Rules, place: usize) -> Option<Rule>
    ensures { result ≡ slice_get rules.now place }
{
    rules.as_slice().get(place).copied()
}
