//! Lines in order.
ghost use Rattle.std.specs.Prelude.{◌≡◌, [], ◌∷◌, ◌++◌, IfOk, codes, count_by, map, OnOk};
ghost use Rattle.std.specs.List.{flat_map};
ghost use Rattle.texts.specs.ScriptLines.{lines};
ghost use Rattle.std.specs.Str.{bytes_eq};
ghost use Rattle.cluster_audit.specs.Order.{AreCounted, AreInOrder, counted_line};
ghost use Rattle.cluster_audit.specs.Shaped.{counted_in};

use crate::objects::print_group_object;
use std::alloc::{AllocError, Global};
use texts::{Shape, Text, print_texts, split_line};

// The lines of a text, each once, in the order of their bytes, which is first that of paths.
pub(crate) fn in_order(alloc: Global, text: &[u8]) -> Result<Vec<u8>, AllocError>
    ensures { IfOk result (λ ordered. AreInOrder text.now ordered.items) }
{
    let (mut lines, rest) = cut(alloc, text)?;
    lines.sort()?;
    lines.dedup();
    joined(alloc, lines.as_slice(), rest)
}

// The lines of a text, each once, in the order of their bytes, with how often each stands in the text.
pub(crate) fn counted(alloc: Global, shape: Shape, text: &[u8]) -> Result<Vec<u8>, AllocError>
    ensures { IfOk result (λ counted. AreCounted shape text.now counted.items) }
{
    let (lines, _rest) = cut(alloc, text)?;
    let ordered = in_order(alloc, text)?;
    let (kinds, _left) = cut(alloc, ordered.as_slice())?;
    counts(alloc, shape, lines.as_slice(), kinds.as_slice())
}

// Each of the kinds with how many of the lines are of it.
fn counts(
    alloc: Global,
    shape: Shape,
    lines: &[Vec<u8>],
    kinds: &[Vec<u8>],
) -> Result<Vec<u8>, AllocError>
    ensures { IfOk result (λ text. text.items ≡ flat_map (counted_line shape lines.now) kinds.now) }
{
    let mut text = Vec::new(alloc);
    for kind in kinds {
        let line = kind.as_slice();
        print_counted(&mut text, shape, line, count_of(lines, line))?;
    }
    Ok(text)
}

// Appends a line with how many lines it is.
fn print_counted(
    text: &mut Vec<u8>,
    shape: Shape,
    line: &[u8],
    count: u64,
) -> Result<(), AllocError>
    ensures { OnOk result (text.new.items ≡ text.old.items ++ counted_in shape line.now count) }
{
    match shape {
        Shape::Lines => print_texts(
            text,
            &[
                Text::Bytes(line),
                Text::Word(": "),
                Text::Number(count),
                Text::Word("\n"),
            ],
        ),
        Shape::Objects => print_group_object(text, count, line),
    }
}

// How many of the lines are this one.
fn count_of(lines: &[Vec<u8>], line: &[u8]) -> u64
    ensures { result ≡ count_by (λ other. bytes_eq other.items line.now) lines.now }
{
    lines
        .iter()
        .filter(|other| other.as_slice() == line)
        .count() as u64
}

// The lines that end with a line feed, without it, and what stands behind the last one.
fn cut(alloc: Global, text: &[u8]) -> Result<(Vec<Vec<u8>>, &[u8]), AllocError>
    ensures { IfOk result (λ cut. lines text.now ≡ map (λ line. line.items) cut.0.items ++ cut.1.now ∷ []) }
{
    let mut lines = Vec::new(alloc);
    let mut rest = text;
    while let Some((line, behind)) = split_line(rest) {
        lines.push(Vec::from_slice(alloc, line)?)?;
        rest = behind;
    }
    Ok((lines, rest))
}

// The text of such lines and of what stands behind them.
fn joined(alloc: Global, lines: &[Vec<u8>], rest: &[u8]) -> Result<Vec<u8>, AllocError>
    ensures { IfOk result (λ text. text.items ≡ flat_map (λ line. line.items ++ codes "\n") lines.now ++ rest.now) }
{
    let mut text = Vec::new(alloc);
    for line in lines {
        text.extend_from_slice(line.as_slice())?;
        text.push(b'\n')?;
    }
    text.extend_from_slice(rest)?;
    Ok(text)
}
