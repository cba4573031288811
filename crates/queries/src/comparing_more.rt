//! What releases tell of two texts of grants, where they answer otherwise than this server.
ghost use Rattle.std.specs.Prelude.{◌≡◌, ◌≢◌, ◌++◌, codes, IfOk, OnOk};
ghost use Rattle.release_rules.specs.Releases.{version_of};
ghost use Rattle.texts.specs.Comparing.{comparison};
ghost use Rattle.queries.specs.declared.comparing_by.MdsCompareFault.TheVariants.{NoMemory};
ghost use Rattle.queries.specs.ComparingMore.{AddsSection, AddsSections, ReleaseAnswer, answer_text, head_of, is_alike, own_answer, section_of, tells_alike};

use crate::comparing_by::{BothGrants, Changes, MdsCompareFault};
use capbits::print;
use policy_analysis::{Change, Witness};
use release_rules::Release;
use std::alloc::{AllocError, Global};
use texts::{Shape, Text, comparison_lines, print_texts};

/// What this server tells of two texts of grants.
#[derive(Clone, Copy)]
pub(crate) struct OwnAnswer {
    /// Whether something is gained.
    pub(crate) gains: bool,
    /// Whether something is lost.
    pub(crate) loses: bool,
}

/// The lines for what is gained and what is lost of two texts of grants by this server, and behind them those of each release that answers
/// otherwise: that tells a gain, or a loss, and this server none, or the other way round, or does not compare the texts. Only memory can be missing.
pub(crate) fn lines_beside(
    alloc: Global,
    gain: &Option<Witness<'_>>,
    loss: &Option<Witness<'_>>,
    old: &[u8],
    new: &[u8],
) -> Result<Vec<u8>, AllocError>
    ensures { IfOk result (λ lines. AddsSections (own_answer gain.now loss.now) old.now new.now (comparison gain.now loss.now) lines.items) }
{
    let own = OwnAnswer {
        gains: gain.is_some(),
        loses: loss.is_some(),
    };
    let mut lines = comparison_lines(alloc, gain, loss)?;
    print_section(&mut lines, own, Release::Pacific, old, new)?;
    print_section(&mut lines, own, Release::Reef, old, new)?;
    print_section(&mut lines, own, Release::Tentacle, old, new)?;
    Ok(lines)
}

// Appends what is told of a release.
fn print_section(
    lines: &mut Vec<u8>,
    own: OwnAnswer,
    release: Release,
    old: &[u8],
    new: &[u8],
) -> Result<(), AllocError>
    ensures { OnOk result (AddsSection own release old.now new.now lines.old.items lines.new.items) }
{
    match BothGrants::read(*lines.allocator(), release, None, old, new) {
        Ok(both) => {
            let changes = both.changes(*lines.allocator())?;
            print_changes(lines, own, release, &changes)
        }
        Err(fault) => print_fault(lines, release, fault),
    }
}

// Appends what is gained and lost by a release, unless it tells as much as this server.
fn print_changes(
    lines: &mut Vec<u8>,
    own: OwnAnswer,
    release: Release,
    changes: &Changes<'_>,
) -> Result<(), AllocError>
    ensures { OnOk result (lines.new.items ≡ lines.old.items ++ section_of own release (ReleaseAnswer.compared changes.now)) }
{
    if tells_alike(own, changes) {
        return Ok(());
    }
    let told = changes.lines(*lines.allocator(), Shape::Lines)?;
    print_behind(lines, release, told.as_slice())
}

// Appends these lines behind one that names a release.
fn print_behind(lines: &mut Vec<u8>, release: Release, told: &[u8]) -> Result<(), AllocError>
    ensures { OnOk result (lines.new.items ≡ lines.old.items ++ (codes "by the rules of Ceph " ++ (version_of release ++ (codes ":\n" ++ told.now)))) }
{
    let pieces = [
        Text::Word("by the rules of Ceph "),
        Text::Word(release.version()),
        Text::Word(":\n"),
        Text::Bytes(told),
    ];
    print_texts(lines, &pieces)
}

// Appends why a release does not compare the texts, unless it is want of memory.
fn print_fault(
    lines: &mut Vec<u8>,
    release: Release,
    fault: MdsCompareFault,
) -> Result<(), AllocError>
    ensures some { OnOk result (fault ≢ NoMemory) }
    ensures text { OnOk result (lines.new.items ≡ lines.old.items ++ (head_of release ++ answer_text (ReleaseAnswer.uncompared fault))) }
{
    match fault {
        MdsCompareFault::NoMemory => Err(AllocError),
        _ => {
            let version = release.version();
            print(
                lines,
                format_args!("by the rules of Ceph {version}: {fault}\n"),
            )
        }
    }
}

// Whether a release tells a gain, and a loss, just where this server does.
fn tells_alike(own: OwnAnswer, changes: &Changes<'_>) -> bool
    ensures { result ≡ tells_alike own changes.now }
{
    is_alike(own.gains, &changes.gain) && is_alike(own.loses, &changes.loss)
}

// Whether something is told there just where something is told here.
fn is_alike(here: bool, there: &Option<Change<'_>>) -> bool
    ensures { result ≡ is_alike here there.now }
{
    if here {
        there.is_some()
    } else {
        there.is_none()
    }
}
