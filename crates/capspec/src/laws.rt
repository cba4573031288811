//! Laws of grant texts. No program needs to call them. But for the last, they speak of texts of any length.

ghost use Rattle.std.specs.Prelude.{◌≡◌, ℕ, List};
ghost use Rattle.capspec.specs.Faults.{IsFault};
ghost use Rattle.capspec.specs.Grants.{Reads};
ghost use Rattle.capspec.specs.Written.{written};
ghost use Rattle.capspec.specs.declared.fault.SpecFault.{SpecFault};
ghost use Rattle.capspec.specs.declared.grant.Grant.{Grant};

use crate::reading::read_grants;
use std::alloc::Global;

/// A text that reads has no fault.
pub fn no_fault_where_it_reads()
    ensures { (text : List ℕ) (grants : List Grant) (fault : SpecFault) → Reads text grants → IsFault text fault → ⊥ }
{}

/// A text has at most one fault: the first.
pub fn one_fault()
    ensures { (text : List ℕ) (fault other : SpecFault) → IsFault text fault → IsFault text other → fault ≡ other }
{}

/// A text reads as at most one list of grants.
pub fn one_list_of_grants()
    ensures { (text : List ℕ) (grants others : List Grant) → Reads text grants → Reads text others → grants ≡ others }
{}

/// Where some text means grants, their written form means them too.
pub fn the_written_form_reads()
    ensures { (text : List ℕ) (grants : List Grant) → Reads text grants → Reads (written grants) grants }
{}

/// A text that reads as no grants has a fault.
pub fn fault_where_nothing_reads(alloc: Global, text: &[u8])
    ensures { ((grants : List Grant) → Reads text.now grants → ⊥) → (fault : SpecFault) × IsFault text.now fault }
{
    // What the reader answers is the fault.
    let _ = read_grants(alloc, text);
}
