//! Reading of whole OSD caps texts.
ghost use Rattle.std.specs.Prelude.{◌≡◌, ◌⊎◌, ◌<◌, ◌≤◌, length, Ok, Err, None, Some, MatchOption, MatchResult, IsNone, IfOk, IfErr, IfSome, option_map};
ghost use Rattle.osd_caps.specs.Accesses.{rights_at};
ghost use Rattle.osd_caps.specs.Caps.{allow_at, allow_behind, caps_of, end_at, fault_in, grant, grant_at, grant_end, network_at, next_at, no_memory};
ghost use Rattle.osd_caps.specs.Caps.{profile_at, profile_named, step_at};
ghost use Rattle.osd_caps.specs.Words.{word_at};
ghost use Rattle.osd_caps.specs.declared.access.Access.TheVariants.{Allow};
ghost use Rattle.osd_caps.specs.declared.fault.Refusal.{Refusal as Refused};

use crate::access::{Access, Profile, Rights};
use crate::bytes::{behind, skip, split_run};
use crate::fault::{OsdFault, OsdFaultKind, Refusal};
use crate::grant::{OsdCaps, OsdGrant};
use crate::keys::{behind_sign, behind_spaced};
use crate::rights::read_rights;
use crate::scope::Scope;
use crate::scopes::{read_place, read_scope};
use crate::words::read_word;
use byte_sets::ByteSet;
use std::alloc::Global;

/// Reads the text of a client's OSD caps: grants, with `,` or `;` between each two.
///
///     allow ACCESS [SCOPE] [network ADDRESSES]
///     allow [SCOPE] ACCESS [network ADDRESSES]
///     profile NAME [pool=NAME] [namespace=NAME] [network ADDRESSES]
///
/// An access is `*`, `all`, some of the letters r, w and x in this order, or calls of object classes. A scope is
/// `pool=NAME namespace=NAME object_prefix NAME`, each if it stands there, or `namespace=NAME tag APPLICATION KEY=VALUE`, the namespace
/// if it stands there. A name without quotes has letters, digits, `_`, `.`, `-` and `/`. The fault is the first thing that is wrong, or
/// want of memory.
#[tactic(auto, unfolding(crate::specs::Caps::caps_of))]
pub fn read_osd_caps(alloc: Global, text: &[u8]) -> Result<OsdCaps<'_>, OsdFault>
    // What is read is what the text means.
    ensures ok { IfOk result (λ caps. caps_of text.now ≡ Ok caps) }
    // A fault is that of the text; of a text without fault only memory is missed.
    ensures err { IfErr result (λ fault. (fault ≡ no_memory) ⊎ ((refusal : Refused) × (caps_of text.now ≡ Err refusal) × (fault ≡ fault_in text.now refusal))) }
{
    let mut grants = Vec::new(alloc);
    let mut rest = skip(ByteSet::AnyWhite, text);
    loop {
        let (grant, next) = match read_step(rest) {
            Ok(found) => found,
            Err(refusal) => return Err(refusal.in_text(text)),
        };
        grants.push(grant)?;
        match next {
            Some(text) => rest = text,
            None => return Ok(OsdCaps::of(grants)),
        }
    }
}

// One grant, and the text of the next one if there is one.
#[tactic(auto, unfolding(crate::specs::Caps::step_at))]
fn read_step(text: &[u8]) -> Result<(OsdGrant<'_>, Option<&[u8]>), Refusal>
    ensures value { MatchResult result (λ f. step_at text.now ≡ Ok (f.0, option_map (λ next. next.now) f.1)) (λ refusal. step_at text.now ≡ Err refusal) }
    ensures shorter { IfOk result (λ f. IfSome f.1 (λ next. length next.now < length text.now)) }
    ensures within { IfErr result (λ refusal. refusal.left ≤ length text.now) }
{
    match read_grant(text) {
        Ok((grant, rest)) => with_next(grant, read_next(rest)),
        Err(refusal) => Err(refusal),
    }
}

// The same grant beside what follows it.
fn with_next<'a>(
    grant: OsdGrant<'a>,
    next: Result<Option<&'a [u8]>, Refusal>,
) -> Result<(OsdGrant<'a>, Option<&'a [u8]>), Refusal>
    ensures { MatchResult result
        (λ f. next.entry ≡ Ok f.1 × f.0 ≡ grant.entry)
        (λ refusal. next.entry ≡ Err refusal) }
{
    match next {
        Ok(next) => Ok((grant, next)),
        Err(refusal) => Err(refusal),
    }
}

// The text behind the mark before the next grant, or that nothing but spaces is left.
#[tactic(auto, unfolding(crate::specs::Caps::next_at))]
fn read_next(text: &[u8]) -> Result<Option<&[u8]>, Refusal>
    ensures value { MatchResult result (λ next. next_at text.now ≡ Ok (option_map (λ rest. rest.now) next)) (λ refusal. next_at text.now ≡ Err refusal) }
    ensures shorter { IfOk result (λ next. IfSome next (λ rest. length rest.now < length text.now)) }
    ensures within { IfErr result (λ refusal. refusal.left ≤ length text.now) }
{
    match text {
        [] => Ok(None),
        [b',' | b';', rest @ ..] => Ok(Some(rest)),
        _ => read_end(skip(ByteSet::AnyWhite, text)),
    }
}

// That nothing is left.
fn read_end(text: &[u8]) -> Result<Option<&[u8]>, Refusal>
    ensures value { MatchResult result (λ next. end_at text.now ≡ Ok (option_map (λ rest. rest.now) next)) (λ refusal. end_at text.now ≡ Err refusal) }
    ensures none { IfOk result (λ next. IsNone next) }
    ensures within { IfErr result (λ refusal. refusal.left ≤ length text.now) }
{
    match text {
        [] => Ok(None),
        _ => Err(Refusal::at(text, OsdFaultKind::LeftOver)),
    }
}

// One grant.
#[tactic(auto, unfolding(crate::specs::Caps::grant_at))]
fn read_grant(text: &[u8]) -> Result<(OsdGrant<'_>, &[u8]), Refusal>
    ensures value { MatchResult result (λ f. grant_at text.now ≡ Ok (f.0, f.1.now)) (λ refusal. grant_at text.now ≡ Err refusal) }
    ensures shorter { IfOk result (λ f. length f.1.now ≤ length text.now) }
    ensures within { IfErr result (λ refusal. refusal.left ≤ length text.now) }
{
    let first = skip(ByteSet::Blank, text);
    if let Some(rest) = behind(first, b"allow") {
        read_allow(rest)
    } else if let Some(rest) = behind(first, b"profile") {
        read_profile(rest)
    } else {
        Err(Refusal::at(first, OsdFaultKind::NotGrant))
    }
}

// What stands behind `allow`.
#[tactic(auto, unfolding(crate::specs::Caps::allow_at))]
fn read_allow(text: &[u8]) -> Result<(OsdGrant<'_>, &[u8]), Refusal>
    ensures value { MatchResult result (λ f. allow_at text.now ≡ Ok (f.0, f.1.now)) (λ refusal. allow_at text.now ≡ Err refusal) }
    ensures shorter { IfOk result (λ f. length f.1.now ≤ length text.now) }
    ensures within { IfErr result (λ refusal. refusal.left ≤ length text.now) }
{
    match read_rights(text) {
        Some((rights, rest)) => {
            let (scope, rest) = read_scope(rest);
            Ok((allow(rights, scope), behind_grant(rest)))
        }
        None => {
            let (scope, rest) = read_scope(text);
            read_allow_behind(scope, rest)
        }
    }
}

// What a grant allows behind its scope.
fn read_allow_behind<'a>(
    scope: Scope<'a>,
    text: &'a [u8],
) -> Result<(OsdGrant<'a>, &'a [u8]), Refusal>
    ensures value { MatchResult result
        (λ f. allow_behind scope.entry text.now (rights_at text.now) ≡ Ok (f.0, f.1.now))
        (λ refusal. allow_behind scope.entry text.now (rights_at text.now) ≡ Err refusal) }
    ensures shorter { IfOk result (λ f. length f.1.now ≤ length text.now) }
    ensures within { IfErr result (λ refusal. refusal.left ≤ length text.now) }
{
    match read_rights(text) {
        Some((rights, rest)) => Ok((allow(rights, scope), behind_grant(rest))),
        None => Err(Refusal::at(skip(ByteSet::AnyWhite, text), OsdFaultKind::NoAccess)),
    }
}

fn allow<'a>(rights: Rights, scope: Scope<'a>) -> OsdGrant<'a>
    ensures { result ≡ grant (Allow rights) scope.entry }
{
    OsdGrant {
        access: Access::Allow(rights),
        scope,
    }
}

// What stands behind `profile`.
#[tactic(auto, unfolding(crate::specs::Caps::profile_at))]
fn read_profile(text: &[u8]) -> Result<(OsdGrant<'_>, &[u8]), Refusal>
    ensures value { MatchResult result (λ f. profile_at text.now ≡ Ok (f.0, f.1.now)) (λ refusal. profile_at text.now ≡ Err refusal) }
    ensures shorter { IfOk result (λ f. length f.1.now ≤ length text.now) }
    ensures within { IfErr result (λ refusal. refusal.left ≤ length text.now) }
{
    match behind_sign(text) {
        Some(name) => read_profile_named(name),
        None => Err(Refusal::at(text, OsdFaultKind::NoProfile)),
    }
}

// The name of a profile, and its place.
fn read_profile_named(text: &[u8]) -> Result<(OsdGrant<'_>, &[u8]), Refusal>
    ensures value { MatchResult result
        (λ f. profile_named text.now (word_at text.now) ≡ Ok (f.0, f.1.now))
        (λ refusal. profile_named text.now (word_at text.now) ≡ Err refusal) }
    ensures shorter { IfOk result (λ f. length f.1.now ≤ length text.now) }
    ensures within { IfErr result (λ refusal. refusal.left ≤ length text.now) }
{
    let Some((name, rest)) = read_word(text) else {
        return Err(Refusal::at(text, OsdFaultKind::NoProfile));
    };
    let (pool, namespace, rest) = read_place(rest);
    let scope = Scope {
        pool,
        namespace,
        tag: None,
        prefix: None,
    };
    let access = Access::OfProfile(Profile::of(name));
    Ok((OsdGrant { access, scope }, behind_grant(rest)))
}

// The text behind a network, if one stands there, and behind blanks.
#[tactic(auto, unfolding(crate::specs::Caps::grant_end))]
fn behind_grant(text: &[u8]) -> &[u8]
    ensures value { result.now ≡ grant_end text.now }
    ensures shorter { length result.now ≤ length text.now }
{
    match read_network(text) {
        Some((_, rest)) => skip(ByteSet::Blank, rest),
        None => skip(ByteSet::Blank, text),
    }
}

#[tactic(auto, unfolding(crate::specs::Caps::network_at))]
fn read_network(text: &[u8]) -> Option<(&[u8], &[u8])>
    ensures value { MatchOption result (network_at text.now ≡ None) (λ f. network_at text.now ≡ Some (f.0.now, f.1.now)) }
    ensures shorter { IfSome result (λ f. length f.1.now ≤ length text.now) }
{
    match behind_spaced(text, b"network") {
        Some(rest) => split_run(ByteSet::Network, rest),
        None => None,
    }
}
