//! Verdicts as numbers.
ghost use Rattle.std.specs.Prelude.{◌≡◌, ◌≤◌, length};
ghost use Rattle.capgrant.specs.declared.answer.Verdict.TheVariants.{Allowed};
ghost use Rattle.capffi.specs.Answering.{answer_of, no_answer, rule_at, rule_numbers};
ghost use Rattle.capffi.specs.ByBlock.{Tells, alone};

use crate::passed::Answer;
use capgrant::{Rule, Verdict};

/// A verdict as numbers.
#[inline(always)]
pub(crate) fn answer_of(verdict: &Verdict) -> Answer
    ensures { result ≡ answer_of verdict.now }
{
    match verdict {
        Verdict::Allowed { grant } => allowed(*grant),
        Verdict::Denied { rules } => denied(rules.as_slice()),
    }
}

/// A grant allows.
#[inline(always)]
pub(crate) fn allowed(grant: u32) -> Answer
    ensures { result ≡ answer_of (Allowed grant) }
{
    Answer {
        grant,
        count: 0,
        rules: [0; 16],
    }
}

/// Tells the answer of a grant that is alone, by the number of the rule that it fails by, or 0 where it allows: that the first grant
/// allows by the number 1, and a denial, which is put into `answer`, by 17.
#[inline(always)]
pub(crate) fn tell_alone(rule: u8, answer: &mut Answer) -> u32
    ensures { Tells (λ reported. reported ≡ alone rule) answer.old answer.new result }
{
    if rule == 0 {
        return 1;
    }
    *answer = Answer {
        grant: 0,
        count: 1,
        rules: [rule, 0, 0, 0, 0, 0, 0, 0, 0, 0, 0, 0, 0, 0, 0, 0],
    };
    17
}

// The grants fail, each by a rule.
#[inline(never)]
fn denied(rules: &[Rule]) -> Answer
    requires { length rules.now ≤ 16 }
    ensures { result ≡ record { grant = 0; count = length rules.now; rules = rule_numbers rules.now } }
{
    Answer {
        grant: 0,
        count: rules.len() as u32,
        rules: rule_numbers(rules),
    }
}

/// What stands in the place of an answer where there is none.
pub(crate) fn no_answer() -> Answer
    ensures { result ≡ no_answer }
{
    Answer {
        grant: 0,
        count: 0,
        rules: [0; 16],
    }
}

// The numbers of the rules at the places of an answer, each written out, so that each is one call.
fn rule_numbers(rules: &[Rule]) -> [u8; 16]
    ensures { result ≡ rule_numbers rules.now }
{
    [
        rule_at(rules, 0),
        rule_at(rules, 1),
        rule_at(rules, 2),
        rule_at(rules, 3),
        rule_at(rules, 4),
        rule_at(rules, 5),
        rule_at(rules, 6),
        rule_at(rules, 7),
        rule_at(rules, 8),
        rule_at(rules, 9),
        rule_at(rules, 10),
        rule_at(rules, 11),
        rule_at(rules, 12),
        rule_at(rules, 13),
        rule_at(rules, 14),
        rule_at(rules, 15),
    ]
}

// The number of the rule at a place, or 0 where there is none.
fn rule_at(rules: &[Rule], place: usize) -> u8
    ensures { result ≡ rule_at rules.now place }
{
    match rules.get(place).copied() {
        Some(rule) => rule.number(),
        None => 0,
    }
}
