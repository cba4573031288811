//! Reading of whole grant texts.

ghost use Rattle.std.specs.Prelude.{◌≡◌, ◌⊎◌, ℕ, ◌<◌, ◌≤◌, ◌-◌, ◌++◌, ◌∷◌, List, [], length, IsTrue, IfOk, IfErr, IsOkAnd, MatchResult, None, Err};
ghost use Rattle.capspec.specs.Bytes.{ends_grant, ends_word};
ghost use Rattle.capspec.specs.Draft.{grant_of, no_items};
ghost use Rattle.capspec.specs.Faults.{GrantGives, IsFault, IsNoMemory, ItemsGive};
ghost use Rattle.capspec.specs.Flags.{IsFlags, is_left_out};
ghost use Rattle.capspec.specs.Grants.{Reads};
ghost use Rattle.capspec.specs.Parts.{ReadsGrant, ReadsItems};
ghost use Rattle.capspec.specs.Words.{IsWrongSecond};
ghost use Rattle.capspec.specs.declared.flags.Flags4.{Flags4};
ghost use Rattle.capspec.specs.declared.grant.Grant.{Grant};

use crate::bytes::{ends_grant, ends_word, strip};
use crate::draft::Draft;
use crate::fault::{SpecFault, SpecFaultKind};
use crate::flags::{Flags4, is_left_out};
use crate::grant::{Grant, Grants, MAX_GRANTS};
use crate::items::read_item;
use byte_sets::{ByteSet, split_while};
use std::alloc::{AllocError, Global};

/// A fault, and how many bytes are left of the text from its place on.
#[derive(Clone, Copy)]
struct Refusal {
    left: usize,
    kind: SpecFaultKind,
}

impl Refusal {
    // The fault at the front of what is left of a text.
    fn at(left: &[u8], kind: SpecFaultKind) -> Refusal
        ensures { result ≡ record { left = length left.now; kind = kind } }
    {
        Refusal {
            left: left.len(),
            kind,
        }
    }

    // The fault, with its place in the whole text.
    fn in_text(self, text: &[u8]) -> SpecFault
        requires { self.left ≤ length text.now }
        ensures { result ≡ record { at = length text.now - self.left; kind = self.kind } }
    {
        SpecFault {
            at: text.len() - self.left,
            kind: self.kind,
        }
    }
}

fn read_flags(word: &[u8]) -> Result<Flags4, SpecFaultKind>
    ensures ok { IfOk result (IsFlags word.now) }
    ensures err { IfErr result (IsWrongSecond word.now) }
{
    match Flags4::read(word) {
        Some(flags) => Ok(flags),
        None if is_left_out(word) => Err(SpecFaultKind::LeftOut),
        None => Err(SpecFaultKind::BadFlags),
    }
}

// Reads the items of a grant into its draft, up to the mark or the end behind them.
fn read_items<'a>(draft: &mut Draft<'a>, text: &'a [u8]) -> Result<&'a [u8], Refusal>
    requires new { draft.old ≡ no_items draft.old.flags }
    requires ends { IsTrue (ends_word text.now) }
    ensures ok { IfOk result (λ rest. ReadsItems draft.old text.now rest.now draft.new) }
    ensures err { IfErr result (λ refusal. ItemsGive [] None text.now (Err refusal)) }
    ensures within { IfErr result (λ refusal. refusal.left ≤ length text.now) }
{
    let mut rest = text;
    let mut gids_item = text;
    loop {
        let (_, item) = split_while(ByteSet::White, rest);
        if ends_grant(item) {
            if draft.gids.is_some() && draft.uid.is_none() {
                return Err(Refusal::at(gids_item, SpecFaultKind::GidsWithoutUid));
            }
            return Ok(item);
        }
        if draft.gids.is_none() {
            gids_item = item;
        }
        rest = match read_item(draft, item) {
            Ok(rest) => rest,
            Err(kind) => return Err(Refusal::at(item, kind)),
        };
    }
}

// Reads one grant with the white space round it, up to the mark or the end behind it.
fn read_grant(text: &[u8]) -> Result<(Draft<'_>, &[u8]), Refusal>
    ensures ok { IfOk result (λ found. ReadsGrant text.now found.0 found.1.now) }
    ensures err { IfErr result (λ refusal. (before : ℕ) → before < 16 → GrantGives before text.now (Err refusal)) }
    ensures within { IfErr result (λ refusal. refusal.left ≤ length text.now) }
{
    let (_, first) = split_while(ByteSet::White, text);
    let Some(behind) = strip(first, b"allow") else {
        return Err(Refusal::at(first, SpecFaultKind::NotAllow));
    };
    if !ends_word(behind) {
        return Err(Refusal::at(first, SpecFaultKind::NotAllow));
    }
    let (_, second) = split_while(ByteSet::White, behind);
    let (word, items) = split_while(ByteSet::Plain, second);
    let flags = match read_flags(word) {
        Ok(flags) => flags,
        Err(kind) => return Err(Refusal::at(second, kind)),
    };
    let mut draft = Draft::new(flags);
    let rest = read_items(&mut draft, items)?;
    Ok((draft, rest))
}

// Adds a grant to those so far, while there is memory.
fn gather(
    alloc: Global,
    grants: Result<Vec<Grant>, AllocError>,
    draft: Draft<'_>,
) -> Result<Vec<Grant>, AllocError>
    ensures { IfOk result (λ new. IsOkAnd grants (λ old. new.items ≡ old.items ++ grant_of draft.entry ∷ [])) }
{
    let mut grants = grants?;
    grants.push(draft.into_grant(alloc)?)?;
    Ok(grants)
}

/// Reads a grant text, as `ceph fs authorize` writes it: one to sixteen grants with `,` or `;` between each two.
///
/// Each grant is kept as it is read, which takes memory for the list and for the grant's path. Where that is missing,
/// the text is read to its end all the same. So `NoMemory`, at 0, is told last, and only of a text without a fault.
/// Every other fault stands at the first byte of the word that failed, or where a word is missing.
pub fn read_grants(alloc: Global, text: &[u8]) -> Result<Grants, SpecFault>
    // What is read is what the text means.
    ensures ok { IfOk result (Reads text.now) }
    // What the text means is read, unless memory runs out.
    ensures only { (grants : List Grant) → Reads text.now grants → MatchResult result (λ read. read ≡ grants) IsNoMemory }
    // Which fault it is; memory is missed only where the text has none.
    ensures fault { IfErr result (λ fault. IsFault text.now fault ⊎ (IsNoMemory fault × (grants : List Grant) × Reads text.now grants)) }
{
    let (_, first) = split_while(ByteSet::White, text);
    if first.is_empty() {
        return Err(Refusal::at(first, SpecFaultKind::Empty).in_text(text));
    }
    let mut grants = Ok(Vec::new(alloc));
    let mut rest = text;
    for _ in 0..MAX_GRANTS {
        let (draft, after) = match read_grant(rest) {
            Ok(found) => found,
            Err(refusal) => return Err(refusal.in_text(text)),
        };
        grants = gather(alloc, grants, draft);
        match after.split_first() {
            Some((_, more)) => rest = more,
            None => return Grants::from_gathered(grants),
        }
    }
    let (_, first) = split_while(ByteSet::White, rest);
    Err(Refusal::at(first, SpecFaultKind::TooMany).in_text(text))
}
