//! The lines that say what one list of grants allows and another denies.
ghost use Rattle.std.specs.Prelude.{◌≡◌, ◌++◌, IfOk, OnOk, map};
ghost use Rattle.texts.specs.Comparing.{comparison, found_line, witness_line, witness_text};

use crate::line_text::{Text, print_texts};
use crate::mds_asked::MdsAccess;
use capbits::print_str;
use policy_analysis::Witness;
use std::alloc::{AllocError, Global};

/// A line `gained: ..` for a question that was gained, and one `lost: ..` for one that was lost, or `the same` where there is
/// none. Each line ends in a line feed. Only memory can be missing.
pub fn comparison_lines(
    alloc: Global,
    gain: &Option<Witness<'_>>,
    loss: &Option<Witness<'_>>,
) -> Result<Vec<u8>, AllocError>
    ensures { IfOk result (λ lines. lines.items ≡ comparison gain.now loss.now) }
{
    let mut lines = Vec::new(alloc);
    if gain.is_none() && loss.is_none() {
        print_str(&mut lines, "the same\n")?;
        return Ok(lines);
    }
    print_found(&mut lines, "gained: ", gain)?;
    print_found(&mut lines, "lost: ", loss)?;
    Ok(lines)
}

// Appends a line behind this word, if there is a witness.
pub(crate) fn print_found(
    text: &mut Vec<u8>,
    word: &str,
    found: &Option<Witness<'_>>,
) -> Result<(), AllocError>
    ensures { OnOk result (text.new.items ≡ text.old.items ++ found_line word.now found.now) }
{
    match found {
        Some(witness) => print_witness_line(text, word, witness),
        None => Ok(()),
    }
}

/// Appends a line behind this word: the question of a witness, and the number of its grant.
pub(crate) fn print_witness_line(
    text: &mut Vec<u8>,
    word: &str,
    witness: &Witness<'_>,
) -> Result<(), AllocError>
    ensures { OnOk result (text.new.items ≡ text.old.items ++ witness_line word.now witness.now) }
{
    print_str(text, word)?;
    print_witness(text, witness)?;
    print_str(text, "\n")
}

/// Appends the question of a witness, and the number of its grant.
pub(crate) fn print_witness(text: &mut Vec<u8>, witness: &Witness<'_>) -> Result<(), AllocError>
    ensures { OnOk result (text.new.items ≡ text.old.items ++ witness_text witness.now) }
{
    let names = witness.path.names(*text.allocator())?;
    print_question(text, names.as_slice(), witness)
}

// Appends the same, by the names of the path.
fn print_question<'x>(
    text: &mut Vec<u8>,
    path: &'x [&'x [u8]],
    witness: &'x Witness<'x>,
) -> Result<(), AllocError>
    requires { map (λ name. name.now) path.now ≡ witness.now.path.now }
    ensures { OnOk result (text.new.items ≡ text.old.items ++ witness_text witness.now) }
{
    let (caller, attr) = (&witness.caller, &witness.attr);
    let pieces = [
        Text::Access(MdsAccess::One(witness.access)),
        Text::Word(" "),
        Text::Path(path),
        Text::Word(" fs "),
        Text::Bytes(witness.fs.as_bytes()),
        Text::Word(" uid "),
        Text::Number(u64::from(caller.uid)),
        Text::Word(" gid "),
        Text::Number(u64::from(caller.gid)),
        Text::Word(" groups "),
        Text::Groups(&caller.groups),
        Text::Word(" owner "),
        Text::Number(u64::from(attr.uid)),
        Text::Word(" group "),
        Text::Number(u64::from(attr.gid)),
        Text::Word(" mode "),
        Text::Mode(attr.mode),
        Text::Word(" grant "),
        Text::Number(u64::from(witness.grant)),
    ];
    print_texts(text, &pieces)
}
