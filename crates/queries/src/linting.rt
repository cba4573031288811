//! A text of grants looked over.
ghost use Rattle.std.specs.Prelude.{◌≡◌, ◌++◌, length, IfOk, OnOk, IfErr};
ghost use Rattle.queries.specs.Fault.{IsFaultOfText};
ghost use Rattle.queries.specs.Mds.{IsMdsFault};
ghost use Rattle.queries.specs.Linting.{AddsThings, AreByReleases, AreToday, IsLintBy, IsLintOf, found_of, lint_in, odd_thing, odd_things, refused_from};
ghost use Rattle.queries.specs.Linting.{refused_thing, thing_in, things_in};

use crate::fault::QuestionFault;
use crate::mds::{MdsFault, mds_grants};
use capspec::read_grants;
use policy_analysis::{
    Finding, OddGrant, Refusal, Releases, Unread, lint, oddities, paths_of, refusals, unread_grants,
};
use release_grants::Grant;
use release_rules::Release;
use std::alloc::{AllocError, Global};
use texts::{
    Shape, print_finding, print_finding_object, print_odd, print_odd_object, print_refusal,
    print_refusal_object,
};

/// What is found in the grants of a text: those that the others cover, that allow nothing, whose root_squash another undoes, or
/// that Ceph 16 can't read, at all or as they stand in the text; and, where Ceph 18 and 20 read the text, what is odd in its grants there, and what
/// clients refuse. A line of this shape for each, and no byte where nothing is found. `NoMemory` comes only where the text can be read.
pub fn lint_text(alloc: Global, text: &[u8], shape: Shape) -> Result<Vec<u8>, QuestionFault>
    ensures ok { IfOk result (λ lines. IsLintOf shape text.now lines.items) }
    ensures err { IfErr result (IsFaultOfText text.now) }
{
    let grants = read_grants(alloc, text)?;
    let findings = lint(alloc, &grants)?;
    let unread = unread_grants(alloc, text)?;
    let mut lines = lines_of(alloc, findings.as_slice(), unread.as_slice(), shape)?;
    print_today(&mut lines, text, shape)?;
    Ok(lines)
}

/// What is found in the grants of a text by the rules of a release alone: what is odd in them there, and what its clients refuse. A line of this
/// shape for each, and no byte where nothing is found. The fault says up to where the release reads the text.
pub fn lint_by(
    alloc: Global,
    text: &[u8],
    release: Release,
    shape: Shape,
) -> Result<Vec<u8>, MdsFault>
    ensures ok { IfOk result (λ lines. IsLintBy release shape text.now lines.items) }
    ensures err { IfErr result (IsMdsFault release text.now) }
{
    let grants = mds_grants(alloc, text, release)?;
    let mut lines = Vec::new(alloc);
    print_by_releases(&mut lines, Releases::One(release), grants.as_slice(), shape)?;
    Ok(lines)
}

// The lines for what is found of grants, and why Ceph 16 does not read each as it stands, in their order.
fn lines_of(
    alloc: Global,
    findings: &[Finding<'_>],
    unread: &[Option<Unread>],
    shape: Shape,
) -> Result<Vec<u8>, AllocError>
    requires { length unread.now ≡ length findings.now }
    ensures { IfOk result (λ lines. lines.items ≡ lint_in shape findings.now unread.now) }
{
    let mut lines = Vec::new(alloc);
    for (place, finding) in findings.iter().enumerate() {
        print_found(&mut lines, finding, unread[place], shape)?;
    }
    Ok(lines)
}

// Appends them for one grant. Why it is not read as it stands counts where Ceph 16 reads some text of it.
fn print_found(
    lines: &mut Vec<u8>,
    finding: &Finding<'_>,
    unread: Option<Unread>,
    shape: Shape,
) -> Result<(), AllocError>
    ensures { OnOk result (lines.new.items ≡ lines.old.items ++ found_of shape finding.now unread) }
{
    let unread = if finding.has_ceph_text { unread } else { None };
    match shape {
        Shape::Lines => print_finding(lines, finding, unread),
        Shape::Objects => print_finding_object(lines, finding, unread),
    }
}

// Appends what is found in a text by the rules of Ceph 18 and 20, where they read it.
fn print_today(lines: &mut Vec<u8>, text: &[u8], shape: Shape) -> Result<(), AllocError>
    ensures { OnOk result (AddsThings (AreToday text.now) shape lines.old.items lines.new.items) }
{
    let alloc = *lines.allocator();
    match release_grants::read_grants(alloc, text, Releases::Today.switches())? {
        Ok(grants) => print_by_releases(lines, Releases::Today, grants.as_slice(), shape),
        Err(_) => Ok(()),
    }
}

// Appends what is found of grants by the rules of these releases.
fn print_by_releases(
    lines: &mut Vec<u8>,
    releases: Releases,
    grants: &[Grant],
    shape: Shape,
) -> Result<(), AllocError>
    ensures { OnOk result (AddsThings (AreByReleases releases grants.now) shape lines.old.items lines.new.items) }
{
    let alloc = *lines.allocator();
    let odds = oddities(alloc, releases.switches(), grants)?;
    print_odds(lines, releases, odds.as_slice(), shape)?;
    let paths = paths_of(alloc, grants)?;
    let found = refusals(alloc, releases, grants, paths.as_slice())?;
    print_refusals(lines, found.as_slice(), shape)
}

// Appends what is odd in grants by the rules of these releases.
fn print_odds(
    lines: &mut Vec<u8>,
    releases: Releases,
    odds: &[OddGrant],
    shape: Shape,
) -> Result<(), AllocError>
    ensures { OnOk result (lines.new.items ≡ lines.old.items ++ things_in shape (odd_things releases odds.now)) }
{
    for odd in odds {
        print_one_odd(lines, releases, odd, shape)?;
    }
    Ok(())
}

// Appends what is odd in one grant.
fn print_one_odd(
    lines: &mut Vec<u8>,
    releases: Releases,
    odd: &OddGrant,
    shape: Shape,
) -> Result<(), AllocError>
    ensures { OnOk result (lines.new.items ≡ lines.old.items ++ thing_in shape (odd_thing releases odd.now)) }
{
    match shape {
        Shape::Lines => print_odd(lines, releases, *odd),
        Shape::Objects => print_odd_object(lines, releases, *odd),
    }
}

// Appends what clients refuse of what each grant allows, in their order.
fn print_refusals(
    lines: &mut Vec<u8>,
    found: &[Option<Refusal<'_>>],
    shape: Shape,
) -> Result<(), AllocError>
    ensures { OnOk result (lines.new.items ≡ lines.old.items ++ things_in shape (refused_from 1 found.now)) }
{
    for (place, refusal) in found.iter().enumerate() {
        if let Some(refusal) = refusal {
            print_one_refusal(lines, place + 1, refusal, shape)?;
        }
    }
    Ok(())
}

// Appends what clients refuse of what the grant of this number allows.
fn print_one_refusal(
    lines: &mut Vec<u8>,
    number: usize,
    refusal: &Refusal<'_>,
    shape: Shape,
) -> Result<(), AllocError>
    ensures { OnOk result (lines.new.items ≡ lines.old.items ++ thing_in shape (refused_thing number refusal.now)) }
{
    match shape {
        Shape::Lines => print_refusal(lines, number, refusal),
        Shape::Objects => print_refusal_object(lines, number, refusal),
    }
}
