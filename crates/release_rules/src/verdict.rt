//! What an MDS says to a question.

use crate::rule::Rule;
use std::alloc::{AllocError, Global};
use std::marker::Model;

/// The rules that the grants of a client fail by first, one for each grant, in their order.
pub struct Rules {
    rules: Vec<Rule>,
}

// By hand, so that whoever lets one go has one call to prove.
impl Drop for Rules {
    fn drop(self) {
        let Rules { rules: _ } = self;
    }
}

impl Model for Rules {
    ghost use Rattle.std.specs.Prelude.{List};
    ghost use Rattle.release_rules.specs.declared.rule.Rule.{Rule};

    ghost Value = { List Rule };

    ghost view = { λ list. list.rules.items };
}

impl Rules {
    ghost use Rattle.std.specs.Prelude.{◌≡◌, ◌++◌, [], OnOk};
    ghost use Rattle.std.specs.Option.{option_to_list};

    /// No rule.
    pub fn new(alloc: Global) -> Rules
        ensures { result ≡ [] }
    {
        Rules {
            rules: Vec::new(alloc),
        }
    }

    /// Adds the rule, where there is one.
    pub fn add(&mut self, rule: Option<Rule>) -> Result<(), AllocError>
        ensures { OnOk result (self.new ≡ self.old ++ option_to_list rule) }
    {
        if let Some(rule) = rule {
            self.rules.push(rule)?;
        }
        Ok(())
    }

    /// The rules, in the order of the grants.
    pub fn as_slice(&self) -> &[Rule]
        ensures { result.now ≡ self.now }
    {
        self.rules.as_slice()
    }
}

/// What an MDS says to what a client asks. Grants are counted from 1, in the order of the text.
pub enum Verdict {
    /// No grant lets the client mount the file system, so that it comes to ask nothing.
    CannotMount,
    /// A grant allows it.
    Allowed {
        /// The number of the first grant that does.
        grant: usize,
    },
    /// A grant allows it if the client is in the grant's network, and none does so anyway. The client's address was not told.
    DependsOnAddress {
        /// The number of the first such grant.
        grant: usize,
    },
    /// No grant allows it.
    Denied {
        /// For each grant the first rule by which it fails.
        rules: Rules,
    },
}

impl Verdict {
    ghost use Rattle.std.specs.Prelude.{◌≡◌};
    ghost use Rattle.release_rules.specs.Verdicts.{is_allowed};

    /// Whether the MDS allows it, wherever the client is.
    pub fn is_allowed(&self) -> bool
        ensures { result ≡ is_allowed self.now }
    {
        matches!(self, Verdict::Allowed { .. })
    }
}

// By hand, so that whoever lets one go has one call to prove.
impl Drop for Verdict {
    fn drop(self) {
        match self {
            Verdict::CannotMount => {}
            Verdict::Allowed { grant: _ } => {}
            Verdict::DependsOnAddress { grant: _ } => {}
            Verdict::Denied { rules: _ } => {}
        }
    }
}
