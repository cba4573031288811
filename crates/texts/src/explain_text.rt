//! The line that answers a question.
ghost use Rattle.std.specs.Prelude.{◌≡◌, ◌++◌, IfOk, OnOk, map};
ghost use Rattle.capspec.specs.Paths.{slashed};
ghost use Rattle.texts.specs.Explaining.{explain_text, failure_text, failures_text, outcome_text, path_text, reason_text};

use capbits::{print, print_numbered, print_str};
use capgrant::{Access, Rule, Verdict};
use std::alloc::{AllocError, Global};

// How many bytes most lines have at the most. A list for one grows but once.
const USUAL_LINE: usize = 128;

/// The line that says what the verdict is on the access to the inode with these names from the root down, and by which
/// grant or rules: each grant has its number, from 1. It has no line feed. Only memory can be missing.
pub fn explain_line(
    alloc: Global,
    access: Access,
    path: &[&[u8]],
    verdict: &Verdict,
) -> Result<Vec<u8>, AllocError>
    ensures { IfOk result (λ line. line.items ≡ explain_text access (map (λ name. name.now) path.now) verdict.now) }
{
    let mut line = Vec::with_capacity(alloc, USUAL_LINE)?;
    print_outcome(&mut line, access, verdict)?;
    print_path(&mut line, path)?;
    print_reason(&mut line, verdict)?;
    Ok(line)
}

// Appends what the verdict is on the access.
pub(crate) fn print_outcome(
    line: &mut Vec<u8>,
    access: Access,
    verdict: &Verdict,
) -> Result<(), AllocError>
    ensures { OnOk result (line.new.items ≡ line.old.items ++ outcome_text access verdict.now) }
{
    match verdict {
        Verdict::Allowed { .. } => print(line, format_args!("allowed {access} ")),
        Verdict::Denied { .. } => print(line, format_args!("denied {access} ")),
    }
}

/// Appends by which grant or rules it is so, behind a space. `AllocError` where no memory is left for it; some of it may stand in the line then.
pub fn print_reason(line: &mut Vec<u8>, verdict: &Verdict) -> Result<(), AllocError>
    ensures { OnOk result (line.new.items ≡ line.old.items ++ reason_text verdict.now) }
{
    match verdict {
        Verdict::Allowed { grant } => print_numbered(line, " grant ", u64::from(*grant)),
        Verdict::Denied { rules } => {
            print_str(line, " ")?;
            print_failures(line, rules.as_slice())
        }
    }
}

/// Appends a path: `/` before each name, and alone for the root. `AllocError` where no memory is left for it.
pub fn print_path(line: &mut Vec<u8>, path: &[&[u8]]) -> Result<(), AllocError>
    ensures { OnOk result (line.new.items ≡ line.old.items ++ path_text (map (λ name. name.now) path.now)) }
{
    if path.is_empty() {
        return Ok(line.push(b'/')?);
    }
    print_names(line, path)
}

// Appends names, with a slash before each.
fn print_names(line: &mut Vec<u8>, names: &[&[u8]]) -> Result<(), AllocError>
    ensures { OnOk result (line.new.items ≡ line.old.items ++ slashed (map (λ name. name.now) names.now)) }
{
    for name in names {
        line.push(b'/')?;
        line.extend_from_slice(name)?;
    }
    Ok(())
}

/// Appends the rules by which the grants fail, the number of each grant from 1. `AllocError` where no memory is left for them.
pub fn print_failures(line: &mut Vec<u8>, rules: &[Rule]) -> Result<(), AllocError>
    ensures { OnOk result (line.new.items ≡ line.old.items ++ failures_text rules.now) }
{
    if rules.is_empty() {
        print_str(line, "no grants")?;
    }
    for (place, rule) in rules.iter().enumerate() {
        if place > 0 {
            print_str(line, ", ")?;
        }
        print_failure(line, place + 1, *rule)?;
    }
    Ok(())
}

fn print_failure(line: &mut Vec<u8>, number: usize, rule: Rule) -> Result<(), AllocError>
    ensures { OnOk result (line.new.items ≡ line.old.items ++ failure_text (number, rule)) }
{
    let rule_number = rule.number();
    print(
        line,
        format_args!("grant {number} rule {rule_number} {rule}"),
    )
}
