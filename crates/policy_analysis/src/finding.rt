//! What is found in one list of grants.

ghost use Rattle.std.specs.Prelude.{◌≡◌, IfOk};
ghost use Rattle.capgrant.specs.Question.{contains};
ghost use Rattle.policy_analysis.specs.Findings.{AreFindings};

use crate::ceph::has_ceph_text;
use crate::dots::allows_nothing;
use crate::redundant::redundant;
use crate::squash::undoing;
use crate::witness::Witness;
use capspec::{Grant, Grants};
use std::alloc::{AllocError, Global};

/// What is found of one grant of a list.
pub struct Finding<'a> {
    /// The number of the grant, from 1.
    pub grant: u32,
    /// Whether it can be left out, together with all others of which this is said: the rest allow all that the list allows.
    pub is_redundant: bool,
    /// Whether it allows nothing, since no inode has a path with `.` or `..` in it.
    pub allows_nothing: bool,
    /// A question of root, to write, that the grant denies for root_squash alone and another grant allows.
    pub undoing: Option<Witness<'a>>,
    /// Whether Ceph 16 reads what the grant says in some order of its items.
    pub has_ceph_text: bool,
}

// Not derived: so the proof of a function that drops one has a single call there.
impl Drop for Finding<'_> {
    fn drop(self) {
        let Finding {
            grant: _,
            is_redundant: _,
            allows_nothing: _,
            undoing: _,
            has_ceph_text: _,
        } = self;
    }
}

/// What is found of each grant, in their order.
pub fn lint<'a>(alloc: Global, grants: &'a Grants) -> Result<Vec<Finding<'a>>, AllocError>
    ensures { IfOk result (λ findings. AreFindings grants.now findings.items) }
{
    let grants = grants.as_slice();
    let numbers = redundant(alloc, grants)?;
    let mut findings = Vec::new(alloc);
    for (place, grant) in grants.iter().enumerate() {
        findings.push(Finding {
            grant: place as u32 + 1,
            is_redundant: has_number(numbers.as_slice(), place as u32 + 1),
            allows_nothing: allows_nothing(alloc, grant)?,
            undoing: undoing(alloc, grants, grant)?,
            has_ceph_text: has_ceph_text(grant),
        })?;
    }
    Ok(findings)
}

// Whether the number is one of these.
fn has_number(numbers: &[u32], number: u32) -> bool
    ensures { result ≡ contains numbers.now number }
{
    numbers.contains(&number)
}
