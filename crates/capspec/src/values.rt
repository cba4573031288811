//! The values of items: each reader takes one value from the front of a text, whose word has to end behind it.

ghost use Rattle.std.specs.Prelude.{◌≡◌, ◌∷◌, ℕ, IfOk, IfErr, IfSome, IfNone, IsTrue, IsFalse};
ghost use Rattle.std.specs.List.{list_any};
ghost use Rattle.byte_sets.specs.Sets.{begins};
ghost use Rattle.capspec.specs.Bytes.{TakesWord};
ghost use Rattle.capspec.specs.Items.{IsNumber, IsPath, IsValue, can_be_path, is_control};
ghost use Rattle.capspec.specs.Items.Item.{FsName as FsNameItem};
ghost use Rattle.capspec.specs.Items.Item.{Gids as GidsItem};
ghost use Rattle.capspec.specs.Words.{IsWrongPath, IsWrongValue, front_while, goes_on, is_digit, is_quote, rest_while};
ghost use Rattle.capspec.specs.declared.items.Key.TheVariants.{FsName as FsNameKey};
ghost use Rattle.capspec.specs.declared.items.Key.TheVariants.{Uid as UidKey};
ghost use Rattle.capspec.specs.declared.items.Key.TheVariants.{Gids as GidsKey};

use crate::bytes::ends_word;
use crate::fault::SpecFaultKind;
use crate::fsname::FsName;
use crate::gids::Gids;
use crate::measure::has_fit_names;
use byte_sets::{ByteSet, split_bare_path, split_while};

/// The name of a file system, or none for `*`, which stands for every one.
pub(crate) fn read_fsname(text: &[u8]) -> Result<(Option<FsName>, &[u8]), SpecFaultKind>
    ensures ok { IfOk result (λ found. TakesWord (λ value. IsValue value (FsNameItem found.0)) text.now found.1.now) }
    ensures err { IfErr result (IsWrongValue FsNameKey text.now) }
{
    let (word, rest) = split_while(ByteSet::Plain, text);
    if word == b"*".as_slice() {
        return Ok((None, rest));
    }
    match FsName::read(word) {
        Some(name) => Ok((Some(name), rest)),
        None => Err(SpecFaultKind::BadItem),
    }
}

/// The text of a path, without its quotes if it has them.
pub(crate) fn read_path(text: &[u8]) -> Result<(&[u8], &[u8]), SpecFaultKind>
    ensures ok { IfOk result (λ found. TakesWord (λ value. IsPath value found.0.now) text.now found.1.now) }
    ensures err { IfErr result (IsWrongPath text.now) }
{
    match text.split_first() {
        Some((quote, inside)) if is_quote(*quote) => read_quoted(*quote, inside),
        _ => read_bare(text),
    }
}

fn is_quote(byte: u8) -> bool
    ensures { result ≡ is_quote byte }
{
    matches!(byte, b'"' | b'\'')
}

fn read_bare(text: &[u8]) -> Result<(&[u8], &[u8]), SpecFaultKind>
    requires { IsFalse (begins is_quote text.now) }
    ensures ok { IfOk result (λ found. TakesWord (λ value. IsPath value found.0.now) text.now found.1.now) }
    ensures err { IfErr result (IsWrongPath text.now) }
{
    let (path, rest) = split_bare_path(text);
    // None of its bytes is a control byte.
    if path.is_empty() || !ends_word(rest) || !has_fit_names(path) {
        return Err(SpecFaultKind::BadPath);
    }
    Ok((path, rest))
}

// Reads up to the closing quote. An open quote is found before what is wrong with the path inside.
fn read_quoted(quote: u8, inside: &[u8]) -> Result<(&[u8], &[u8]), SpecFaultKind>
    requires { IsTrue (is_quote quote) }
    ensures ok { IfOk result (λ found. TakesWord (λ value. IsPath (quote ∷ value) found.0.now) inside.now found.1.now) }
    ensures err { IfErr result (IsWrongPath (quote ∷ inside.now)) }
{
    let (path, closing) = split_while(ByteSet::AllBut(quote), inside);
    let Some((_, rest)) = closing.split_first() else {
        return Err(SpecFaultKind::OpenQuote);
    };
    if !ends_word(rest) {
        return Err(SpecFaultKind::BadItem);
    }
    if !can_be_path(path) {
        return Err(SpecFaultKind::BadPath);
    }
    Ok((path, rest))
}

// Whether a grant may have the path, as far as no quotes say.
fn can_be_path(path: &[u8]) -> bool
    ensures { result ≡ can_be_path path.now }
{
    !path.is_empty() && !has_control(path) && has_fit_names(path)
}

fn has_control(path: &[u8]) -> bool
    ensures { result ≡ list_any is_control path.now }
{
    path.iter().any(|byte| *byte <= 31 || *byte == 127)
}

/// The one number of a uid.
pub(crate) fn read_uid(text: &[u8]) -> Result<(u32, &[u8]), SpecFaultKind>
    ensures ok { IfOk result (λ found. TakesWord (λ value. IsNumber value found.0) text.now found.1.now) }
    ensures err { IfErr result (IsWrongValue UidKey text.now) }
{
    match read_number(text) {
        Some((uid, rest)) if ends_word(rest) => Ok((uid, rest)),
        _ => Err(SpecFaultKind::BadNumber),
    }
}

// The longest front of digits as a number of 32 bits, and what follows it.
fn read_number(text: &[u8]) -> Option<(u32, &[u8])>
    ensures none { IfNone result ((n : ℕ) → IsNumber (front_while is_digit text.now) n → ⊥) }
    ensures number { IfSome result (λ found. IsNumber (front_while is_digit text.now) found.0) }
    ensures rest { IfSome result (λ found. found.1.now ≡ rest_while is_digit text.now) }
{
    let mut number: u32 = 0;
    let mut end = 0;
    for byte in text {
        let Some(digit) = char::from(*byte).to_digit(10) else {
            break;
        };
        number = u32::try_from(10 * u64::from(number) + u64::from(digit)).ok()?;
        end += 1;
    }
    if end == 0 {
        return None;
    }
    let (_, rest) = text.split_at(end);
    Some((number, rest))
}

/// The numbers of a gids item. A comma belongs to it where a digit follows, and ends it elsewhere.
pub(crate) fn read_gids(text: &[u8]) -> Result<(Gids, &[u8]), SpecFaultKind>
    ensures ok { IfOk result (λ found. TakesWord (λ value. IsValue value (GidsItem found.0)) text.now found.1.now) }
    ensures whole { IfOk result (λ found. IsFalse (goes_on found.1.now)) }
    ensures err { IfErr result (IsWrongValue GidsKey text.now) }
{
    let mut gids = Gids::new();
    let mut all_fit = true;
    let mut rest = text;
    loop {
        let Some((gid, after)) = read_number(rest) else {
            return Err(SpecFaultKind::BadNumber);
        };
        all_fit &= gids.try_push(gid);
        let Some(more) = behind_comma(after) else {
            if !ends_word(after) {
                return Err(SpecFaultKind::BadNumber);
            }
            if !all_fit {
                return Err(SpecFaultKind::TooMany);
            }
            return Ok((gids, after));
        };
        rest = more;
    }
}

// What stands behind a comma that a digit follows.
fn behind_comma(text: &[u8]) -> Option<&[u8]>
    ensures none { IfNone result (IsFalse (goes_on text.now)) }
    ensures comma { IfSome result (λ more. text.now ≡ 44 ∷ more.now) }
    ensures digit { IfSome result (λ more. IsTrue (begins is_digit more.now)) }
{
    match text.split_first() {
        Some((b',', more)) if matches!(more, [b'0'..=b'9', ..]) => Some(more),
        _ => None,
    }
}
