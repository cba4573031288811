//! Two texts of grants compared.
ghost use Rattle.std.specs.Prelude.{IfErr, IfOk};
ghost use Rattle.queries.specs.Comparing.{Compares, IsComparison, IsFaultOfTexts};

use crate::clients::Telling;
use crate::comparing_more::lines_beside;
use crate::grant_text::read_text;
use capspec::{Grants, SpecFault};
use policy_analysis::{gained, lost};
use std::alloc::{AllocError, Global};
use std::fmt;
use std::fmt::Display;
use texts::{change_objects, comparison_lines};

/// Why two texts of grants are not compared.
#[derive(Clone, Copy)]
pub enum CompareFault {
    /// The old grants can't be read: this is their first fault.
    Old(SpecFault),
    /// The new grants can't be read.
    New(SpecFault),
    /// No memory was left.
    NoMemory,
}

impl Display for CompareFault {
    fn fmt<W: fmt::Write>(&self, f: &mut fmt::Formatter<W>) -> fmt::Result {
        match self {
            CompareFault::Old(fault) => write!(f, "old grants: {fault}"),
            CompareFault::New(fault) => write!(f, "new grants: {fault}"),
            CompareFault::NoMemory => f.write_str("no memory"),
        }
    }
}

impl From<AllocError> for CompareFault {
    ghost use Rattle.std.specs.Prelude.{◌≡◌};
    ghost use Rattle.queries.specs.declared.comparing.CompareFault.TheVariants as faults;

    ghost from_gives = { λ _ fault. fault ≡ faults.NoMemory };

    fn from(_: AllocError) -> Self {
        CompareFault::NoMemory
    }
}

/// What the new grants allow and the old ones deny, by a question, and the other way round; or that they allow the same. By lines, by these with
/// those of each release behind them that answers otherwise, or by objects. The fault is that of the old text, else that of the new one.
/// `NoMemory` comes only where both are good.
pub fn compare(
    alloc: Global,
    old: &[u8],
    new: &[u8],
    telling: Telling,
) -> Result<Vec<u8>, CompareFault>
    ensures ok { IfOk result (λ lines. IsComparison telling old.now new.now lines.items) }
    ensures err { IfErr result (IsFaultOfTexts old.now new.now) }
{
    let before = read_text(alloc, old).map_err(CompareFault::Old)?;
    let after = read_text(alloc, new).map_err(CompareFault::New)?;
    match (before, after) {
        (Some(before), Some(after)) => Ok(comparison(alloc, old, new, &before, &after, telling)?),
        _ => Err(CompareFault::NoMemory),
    }
}

// What is told of these texts, which mean these grants. Only memory can be missing.
fn comparison(
    alloc: Global,
    old: &[u8],
    new: &[u8],
    before: &Grants,
    after: &Grants,
    telling: Telling,
) -> Result<Vec<u8>, AllocError>
    ensures { IfOk result (λ lines. Compares telling old.now new.now before.now after.now lines.items) }
{
    let gain = gained(alloc, before, after)?;
    let loss = lost(alloc, before, after)?;
    match telling {
        Telling::Line => comparison_lines(alloc, &gain, &loss),
        Telling::More => lines_beside(alloc, &gain, &loss, old, new),
        Telling::Object => change_objects(alloc, &gain, &loss),
    }
}
