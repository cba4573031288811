//! The members of objects, and the lines that objects are.
ghost use Rattle.std.specs.Prelude.{◌≡◌, [], ◌∷◌, ◌++◌, codes, map, IfOk, OnOk};
ghost use Rattle.capbits.specs.Text.{text_of};
ghost use Rattle.texts.specs.Explaining.{path_text};
ghost use Rattle.hex.specs.Hex.{encode_lower};
ghost use Rattle.serde_json.specs.Data.{object, string};
ghost use Rattle.serde_json.specs.View.{members_view, view};
ghost use Rattle.texts.specs.Answers.{failure_value, rules_value};
ghost use Rattle.texts.specs.MdsAnswers.{mds_rules_value};
ghost use Rattle.texts.specs.Pieces.{piece_value, pieces_value};
ghost use Rattle.texts.specs.Values.{IsPlain, ReadsBack, bytes_value, json_line, numbered, numbers_value, object_of, with_all};

use crate::explain_text::print_path;
use crate::mds_asked::MdsAccess;
use capbits::{CapSet, print_caps, print_str};
use capgrant::Rule;
use serde_json::{Map, Value, put};
use std::alloc::{AllocError, Global};

/// The members of an object that is being made.
pub(crate) type Members = Map<String, Value>;

/// What stands at a key.
#[derive(Clone, Copy)]
pub enum Piece<'a> {
    /// Nothing is known there.
    Null,
    /// A number.
    Number(u64),
    /// A text.
    Word(&'a str),
    /// Bytes that may be a text.
    Bytes(&'a [u8]),
    /// Numbers, in their order.
    Numbers(&'a [u32]),
    /// An access, or what an MDS is asked for, by its word.
    Access(MdsAccess),
    /// Names from the root down, as a path.
    Path(&'a [&'a [u8]]),
    /// Caps, in their one spelling.
    Caps(CapSet),
    /// The rule by which each of several grants fails, in their order.
    Rules(&'a [Rule]),
    /// The rule of an MDS by which each does.
    MdsRules(&'a [release_rules::Rule]),
}

/// No members, or the number of a line.
pub(crate) fn numbered(alloc: Global, number: Option<u64>) -> Result<Members, AllocError>
    ensures { IfOk result (λ members. members_view members.entries ≡ numbered number) }
{
    let mut members = Map::new(alloc);
    let Some(number) = number else {
        return Ok(members);
    };
    put_all(&mut members, alloc, &[("line", Piece::Number(number))])?;
    Ok(members)
}

/// Adds these members.
pub(crate) fn put_all(
    members: &mut Members,
    alloc: Global,
    table: &[(&str, Piece<'_>)],
) -> Result<(), AllocError>
    ensures { OnOk result (members_view members.new.entries
        ≡ with_all (map (λ m. (m.0.now, piece_value m.1)) table.now) (members_view members.old.entries)) }
{
    for member in table {
        let value = value_of(alloc, &member.1)?;
        put(members, alloc, member.0, value)?;
    }
    Ok(())
}

fn value_of(alloc: Global, piece: &Piece<'_>) -> Result<Value, AllocError>
    ensures { IfOk result (λ value. view value ≡ piece_value piece.now) }
{
    match piece {
        Piece::Null => Ok(Value::default()),
        Piece::Number(number) => Ok(Value::from(*number)),
        Piece::Word(text) => Value::try_from_str(alloc, text),
        Piece::Bytes(bytes) => bytes_value(alloc, bytes),
        Piece::Numbers(numbers) => numbers_value(alloc, numbers),
        Piece::Access(access) => Ok(Value::from(format!(in alloc; "{access}")?)),
        Piece::Path(path) => path_value(alloc, path),
        Piece::Caps(caps) => caps_value(alloc, *caps),
        Piece::Rules(rules) => rules_value(alloc, rules),
        Piece::MdsRules(rules) => mds_rules_value(alloc, rules),
    }
}

fn path_value(alloc: Global, path: &[&[u8]]) -> Result<Value, AllocError>
    ensures { IfOk result (λ value. view value ≡ bytes_value (path_text (map (λ name. name.now) path.now))) }
{
    let mut text = Vec::new(alloc);
    print_path(&mut text, path)?;
    bytes_value(alloc, text.as_slice())
}

fn caps_value(alloc: Global, caps: CapSet) -> Result<Value, AllocError>
    ensures { IfOk result (λ value. view value ≡ bytes_value (text_of caps)) }
{
    let mut text = Vec::new(alloc);
    print_caps(&mut text, caps)?;
    bytes_value(alloc, text.as_slice())
}

// The bytes as a string, or their hexadecimal digits where they are not UTF-8.
fn bytes_value(alloc: Global, bytes: &[u8]) -> Result<Value, AllocError>
    ensures { IfOk result (λ value. view value ≡ bytes_value bytes.now) }
{
    match str::from_utf8(bytes) {
        Ok(text) => Value::try_from_str(alloc, text),
        Err(_) => hex_value(alloc, bytes),
    }
}

fn hex_value(alloc: Global, bytes: &[u8]) -> Result<Value, AllocError>
    ensures { IfOk result (λ value. view value ≡ object_of ((codes "hex", string (encode_lower bytes.now)) ∷ [])) }
{
    let digits = Value::from(hex::encode(alloc, bytes)?);
    let mut members = Map::new(alloc);
    put(&mut members, alloc, "hex", digits)?;
    Ok(Value::from(members))
}

fn numbers_value(alloc: Global, numbers: &[u32]) -> Result<Value, AllocError>
    ensures { IfOk result (λ value. view value ≡ numbers_value numbers.now) }
{
    let mut items = Vec::new(alloc);
    for number in numbers {
        items.push(Value::from(*number))?;
    }
    Ok(Value::from(items))
}

// The grants by number, from 1, each with the rule by which it fails.
fn rules_value(alloc: Global, rules: &[Rule]) -> Result<Value, AllocError>
    ensures { IfOk result (λ value. view value ≡ rules_value rules.now) }
{
    let mut items = Vec::new(alloc);
    for (place, rule) in rules.iter().enumerate() {
        items.push(failure_value(alloc, place + 1, rule.number(), rule.word())?)?;
    }
    Ok(Value::from(items))
}

// And those by the rules of an MDS.
fn mds_rules_value(alloc: Global, rules: &[release_rules::Rule]) -> Result<Value, AllocError>
    ensures { IfOk result (λ value. view value ≡ mds_rules_value rules.now) }
{
    let mut items = Vec::new(alloc);
    for (place, rule) in rules.iter().enumerate() {
        items.push(failure_value(alloc, place + 1, rule.number(), rule.word())?)?;
    }
    Ok(Value::from(items))
}

// The grant of this number fails by the rule of that number and word.
fn failure_value(alloc: Global, grant: usize, rule: u8, word: &str) -> Result<Value, AllocError>
    ensures { IfOk result (λ value. view value ≡ failure_value grant rule word.now) }
{
    let word = Value::try_from_str(alloc, word)?;
    let mut members = Map::new(alloc);
    put(&mut members, alloc, "grant", Value::from(grant as u64))?;
    put(&mut members, alloc, "rule", Value::from(u64::from(rule)))?;
    put(&mut members, alloc, "word", word)?;
    Ok(Value::from(members))
}

/// Appends the object with these members as a line, with its line feed. `AllocError` where no memory is left for it; some of it may
/// stand in the text then.
pub fn print_pieces(lines: &mut Vec<u8>, table: &[(&str, Piece<'_>)]) -> Result<(), AllocError>
    ensures line { OnOk result (lines.new.items ≡ lines.old.items ++ json_line (pieces_value table.now)) }
    ensures reads { OnOk result (ReadsBack (pieces_value table.now)) }
{
    let alloc = *lines.allocator();
    let mut members = Map::new(alloc);
    put_all(&mut members, alloc, table)?;
    print_object(lines, members)
}

/// Appends the object with these members as a line.
pub(crate) fn print_object(lines: &mut Vec<u8>, members: Members) -> Result<(), AllocError>
    requires { IsPlain (object (members_view members.entries)) }
    ensures line { OnOk result (lines.new.items ≡ lines.old.items ++ json_line (object (members_view members.entries))) }
    ensures reads { OnOk result (ReadsBack (object (members_view members.entries))) }
{
    let text = Value::from(members).to_string(*lines.allocator())?;
    print_str(lines, text.as_str())?;
    print_str(lines, "\n")
}
