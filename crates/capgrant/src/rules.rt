//! Lists of rules.
ghost use Rattle.std.specs.Prelude.{◌≡◌, ◌≤◌, ◌↔◌, List, [], length, IsTrue};
ghost use Rattle.std.specs.Slice.Iter.{iter_rest};
ghost use Rattle.capgrant.specs.declared.rule.Rule.{Rule};

use crate::rule::Rule;
use arrayvec::ArrayVec;
use std::marker::Model;
use std::slice;

/// How many rules a list may have: as many as a client may have grants.
pub const MAX_RULES: usize = 16;

/// A list of rules, one for each grant that failed.
#[derive(Clone, Debug)]
pub struct Rules {
    rules: ArrayVec<Rule, MAX_RULES>,
}

// Not derived: so the proof of a function that drops one has a single call there.
impl Drop for Rules {
    fn drop(self) {
        let Rules { rules: _ } = self;
    }
}

impl Model for Rules {
    ghost Value = { List Rule };

    ghost view = { λ list. list.rules.items };

    ghost inverse = { λ rules. record { rules = record { items = rules } } };
}

impl Rules {
    /// The vector of the rules.
    pub fn into_inner(self) -> ArrayVec<Rule, MAX_RULES>
        ensures { result.items ≡ self }
    {
        let Rules { rules } = self;
        rules
    }

    /// How many rules there are.
    pub fn len(&self) -> usize
        ensures value { result ≡ length self.now }
        ensures fits { result ≤ MAX_RULES }
    {
        self.rules.len()
    }

    /// Whether there is no rule.
    pub fn is_empty(&self) -> bool
        ensures { IsTrue result ↔ (self.now ≡ []) }
    {
        self.rules.is_empty()
    }

    /// The rules, in order.
    pub fn as_slice(&self) -> &[Rule]
        ensures value { result.now ≡ self.now }
        ensures fits { length result.now ≤ MAX_RULES }
    {
        self.rules.as_slice()
    }

    /// The rules one by one, in order.
    pub fn iter(&self) -> slice::Iter<'_, Rule>
        ensures { iter_rest result ≡ self.now }
    {
        self.rules.iter()
    }
}

impl From<ArrayVec<Rule, MAX_RULES>> for Rules {
    ghost from_gives = { λ given rules. rules ≡ given.items };

    fn from(rules: ArrayVec<Rule, MAX_RULES>) -> Self {
        Rules { rules }
    }
}
