//! The changes that lines say.
ghost use Rattle.std.specs.Prelude.{◌≡◌, ◌∷◌, [], map, MatchResult};
ghost use Rattle.lockmachine.specs.declared.request.Change.{Change as AChange};
ghost use Rattle.capstep.specs.declared.event.Event.{Event as AnEvent};
ghost use Rattle.capexplain.specs.Changes as changes;
ghost use Rattle.capexplain.specs.Events.{Tells, says_change, says_kind};
ghost use Rattle.capexplain.specs.Faults.{IsRefused};
ghost use Rattle.capexplain.specs.Words as lines;

use crate::hex::read_bytes;
use crate::refused::Refused;
use crate::values::{read_long_number, read_number, read_permissions};
use capstep::ChangeWord;
use inotree::Setting;
use lockmachine::{Bytes, Change};
use std::alloc::Global;
use texts::LineFault;

const KINDS: [ChangeWord; 7] = [
    ChangeWord::Mode,
    ChangeWord::Uid,
    ChangeWord::Gid,
    ChangeWord::SetXattr,
    ChangeWord::RemoveXattr,
    ChangeWord::Size,
    ChangeWord::Time,
];

// The change that begins with a word.
fn read_kind(word: &[u8]) -> Option<ChangeWord>
    ensures { result ≡ changes.change_kind word.now }
{
    KINDS
        .iter()
        .copied()
        .find(|kind| word == kind.word().as_bytes())
}

// Whether a change of this kind takes so many words.
fn takes(kind: ChangeWord, more: &[&[u8]]) -> bool
    ensures { result ≡ changes.takes kind (map (λ word. word.now) more.now) }
{
    match (kind, more) {
        (ChangeWord::SetXattr, [_name, value]) => is_one_word(value),
        (ChangeWord::SetXattr, _) => false,
        (_, [_word]) => true,
        _ => false,
    }
}

fn is_one_word(part: &[u8]) -> bool
    ensures { result ≡ lines.is_one_word part.now }
{
    for byte in part {
        if *byte == b' ' {
            return false;
        }
    }
    true
}

// Whether a change has as many words as it takes. What is no change takes any.
#[tactic(auto, unfolding(crate::specs::Changes::is_counted))]
pub(crate) fn is_counted(words: &[&[u8]]) -> bool
    ensures { result ≡ changes.is_counted (map (λ word. word.now) words.now) }
{
    let Some((first, more)) = words.split_first() else {
        return false;
    };
    match read_kind(first) {
        Some(kind) => takes(kind, more),
        None => true,
    }
}

// The change that the words say, whatever is said of it.
pub(crate) fn read_change(alloc: Global, words: &[&[u8]]) -> Result<Change, Refused>
    ensures { (event : AChange → AnEvent)
        → let said = says_change event (map (λ word. word.now) words.now) in
        MatchResult result (λ change. Tells said (event change)) (IsRefused said) }
{
    let Some((first, more)) = words.split_first() else {
        return Err(Refused::Wrong(LineFault::Count));
    };
    let Some(kind) = read_kind(first) else {
        return Err(Refused::Wrong(LineFault::Change));
    };
    read_by_kind(alloc, kind, more)
}

// A change of one kind, whatever is said of it.
fn read_by_kind(alloc: Global, kind: ChangeWord, more: &[&[u8]]) -> Result<Change, Refused>
    ensures { (event : AChange → AnEvent)
        → let said = says_kind event kind (map (λ word. word.now) more.now) in
        MatchResult result (λ change. Tells said (event change)) (IsRefused said) }
{
    match more {
        [word] => read_one(alloc, kind, word),
        [name, value] => read_two(alloc, kind, name, value),
        _ => Err(Refused::Wrong(LineFault::Count)),
    }
}

// A change by one word.
fn read_one(alloc: Global, kind: ChangeWord, word: &[u8]) -> Result<Change, Refused>
    ensures { (event : AChange → AnEvent)
        → let said = says_kind event kind (word.now ∷ []) in
        MatchResult result (λ change. Tells said (event change)) (IsRefused said) }
{
    match kind {
        ChangeWord::Mode => Ok(Change::Set(Setting::Mode(read_permissions(word)?))),
        ChangeWord::Uid => Ok(Change::Set(Setting::Uid(read_number(word)?))),
        ChangeWord::Gid => Ok(Change::Set(Setting::Gid(read_number(word)?))),
        ChangeWord::Size => Ok(Change::Set(Setting::Size(read_long_number(word)?))),
        ChangeWord::Time => Ok(Change::Set(Setting::Time(read_long_number(word)?))),
        ChangeWord::RemoveXattr => Ok(Change::RemoveXattr {
            name: Bytes::read(alloc, word)?,
        }),
        ChangeWord::SetXattr => Err(Refused::Wrong(LineFault::Count)),
    }
}

// A change by two words, of which the first is the name of an attribute, good or bad.
fn read_two(alloc: Global, kind: ChangeWord, name: &[u8], value: &[u8]) -> Result<Change, Refused>
    ensures { (event : AChange → AnEvent)
        → let said = says_kind event kind (name.now ∷ value.now ∷ []) in
        MatchResult result (λ change. Tells said (event change)) (IsRefused said) }
{
    let ChangeWord::SetXattr = kind else {
        return Err(Refused::Wrong(LineFault::Count));
    };
    // Whether the value is one is told before there is memory for the name.
    let value = read_bytes(alloc, value)?;
    let name = Bytes::read(alloc, name)?;
    Ok(Change::SetXattr { name, value })
}
