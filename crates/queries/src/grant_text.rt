//! Texts of grants.
ghost use Rattle.std.specs.Prelude.{IfErr, IfOk, IfSome, List, OnOk};
ghost use Rattle.capspec.specs.declared.grant.Grant.{Grant as AGrant};
ghost use Rattle.capspec.specs.Faults.{IsFault};
ghost use Rattle.capspec.specs.Grants.{Reads};

use capspec::{Grants, SpecFault, SpecFaultKind, read_grants};
use std::alloc::Global;

// The grants that the text means, or None where it means some and no memory was left for them.
pub(crate) fn read_text(alloc: Global, text: &[u8]) -> Result<Option<Grants>, SpecFault>
    ensures good { OnOk result ((grants : List AGrant) × Reads text.now grants) }
    ensures found { IfOk result (λ found. IfSome found (Reads text.now)) }
    ensures err { IfErr result (IsFault text.now) }
{
    match read_grants(alloc, text) {
        Ok(grants) => Ok(Some(grants)),
        Err(refused) => match refused.kind {
            SpecFaultKind::NoMemory => Ok(None),
            _ => Err(refused),
        },
    }
}
