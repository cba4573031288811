//! Grants that the others cover.

ghost use Rattle.std.specs.Prelude.{◌≤◌, length, IfOk, IsTrue, IsFalse, ◌∷◌, ◌≡◌};
ghost use Rattle.capgrant.specs.Question.{contains};
ghost use Rattle.policy_analysis.specs.Comparing.{Covers};
ghost use Rattle.policy_analysis.specs.Linting.{AreRedundant, left};

use crate::compare::difference;
use capspec::Grant;
use std::alloc::{AllocError, Global};

/// The numbers of grants, from 1, that can be left out, all of them at once. Of two equal grants it is the second.
pub(crate) fn redundant(alloc: Global, grants: &[Grant]) -> Result<Vec<u32>, AllocError>
    requires { length grants.now ≤ 16 }
    ensures { IfOk result (λ numbers. AreRedundant grants.now numbers.items) }
{
    let mut numbers = Vec::new(alloc);
    let count = grants.len() as u32;
    for done in 0..count {
        let number = count - done;
        if is_covered(alloc, grants, numbers.as_slice(), number)? {
            numbers.push(number)?;
        }
    }
    Ok(numbers)
}

// Whether those without these numbers, and without one number more, allow all that the grants allow.
fn is_covered(
    alloc: Global,
    grants: &[Grant],
    numbers: &[u32],
    number: u32,
) -> Result<bool, AllocError>
    requires { length grants.now ≤ 16 }
    ensures yes { IfOk result (λ yes. IsTrue yes → Covers (left (number ∷ numbers.now) grants.now) grants.now) }
    ensures no { IfOk result (λ yes. IsFalse yes → Covers (left (number ∷ numbers.now) grants.now) grants.now → ⊥) }
{
    let rest = left_of(alloc, grants, numbers, number)?;
    let found = difference(alloc, rest.as_slice(), grants)?;
    Ok(found.is_none())
}

// Copies of the grants that have none of these numbers, and not one number more.
fn left_of(
    alloc: Global,
    grants: &[Grant],
    numbers: &[u32],
    number: u32,
) -> Result<Vec<Grant>, AllocError>
    requires { length grants.now ≤ 16 }
    ensures same { IfOk result (λ rest. rest.items ≡ left (number ∷ numbers.now) grants.now) }
    ensures few { IfOk result (λ rest. length rest.items ≤ 16) }
{
    let mut rest = Vec::new(alloc);
    for (place, grant) in grants.iter().enumerate() {
        let own = place as u32 + 1;
        if !is_among(number, numbers, own) {
            rest.push(grant.copy()?)?;
        }
    }
    Ok(rest)
}

// Whether it is the first number, or one of the others.
fn is_among(first: u32, others: &[u32], number: u32) -> bool
    ensures { result ≡ contains (first ∷ others.now) number }
{
    first == number || others.contains(&number)
}
