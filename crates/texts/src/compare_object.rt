//! What one list of grants allows and another denies.
ghost use Rattle.std.specs.Prelude.{◌≡◌, ◌++◌, IfOk, OnOk};
ghost use Rattle.serde_json.specs.View.{members_view};
ghost use Rattle.texts.specs.Changes.{change_line, change_lines, change_value, with_witness, witnessed_value};
ghost use Rattle.texts.specs.Pieces.{table_of};
ghost use Rattle.texts.specs.Values.{ReadsBack, json_line};

use crate::question_object::put_question;
use crate::table::{Members, Piece, print_object, print_pieces, put_all};
use capgrant::Question;
use policy_analysis::Witness;
use serde_json::Map;
use std::alloc::{AllocError, Global};

/// An object for a question that was gained, and one for a question that was lost; or one that says that there is none. Each is a line,
/// with its line feed. Only memory can be missing.
pub fn change_objects(
    alloc: Global,
    gain: &Option<Witness<'_>>,
    loss: &Option<Witness<'_>>,
) -> Result<Vec<u8>, AllocError>
    ensures { IfOk result (λ lines. lines.items ≡ change_lines gain.now loss.now) }
{
    let mut lines = Vec::new(alloc);
    if gain.is_none() && loss.is_none() {
        print_no_change(&mut lines)?;
        return Ok(lines);
    }
    print_change(&mut lines, "gained", gain)?;
    print_change(&mut lines, "lost", loss)?;
    Ok(lines)
}

fn print_no_change(lines: &mut Vec<u8>) -> Result<(), AllocError>
    ensures { OnOk result (lines.new.items ≡ lines.old.items ++ change_lines None None) }
{
    print_pieces(lines, &[("change", Piece::Word("none"))])
}

// Appends a line of this change, if there is a witness.
fn print_change(
    lines: &mut Vec<u8>,
    change: &str,
    found: &Option<Witness<'_>>,
) -> Result<(), AllocError>
    ensures { OnOk result (lines.new.items ≡ lines.old.items ++ change_line change.now found.now) }
{
    match found {
        Some(witness) => print_changed(lines, change, witness),
        None => Ok(()),
    }
}

/// Appends a line of this change, which the witness shows.
pub(crate) fn print_changed(
    lines: &mut Vec<u8>,
    change: &str,
    witness: &Witness<'_>,
) -> Result<(), AllocError>
    ensures { OnOk result (lines.new.items ≡ lines.old.items ++ json_line (change_value change.now witness.now)) }
{
    print_witnessed(lines, &[("change", Piece::Word(change))], "grant", witness)
}

// Adds the question of a witness, and at this key the number of the grant that allows it.
fn put_witness(
    members: &mut Members,
    alloc: Global,
    key: &str,
    witness: &Witness<'_>,
) -> Result<(), AllocError>
    ensures { OnOk result (members_view members.new.entries ≡ with_witness key.now witness.now (members_view members.old.entries)) }
{
    let names = witness.path.names(alloc)?;
    let question = Question {
        fs: &witness.fs,
        caller: &witness.caller,
        path: names.as_slice(),
        attr: &witness.attr,
        access: witness.access,
    };
    put_question(members, alloc, &question)?;
    put_all(
        members,
        alloc,
        &[(key, Piece::Number(u64::from(witness.grant)))],
    )
}

/// Appends the object with these members and those of a witness, whose grant stands at this key, as a line.
pub(crate) fn print_witnessed(
    lines: &mut Vec<u8>,
    table: &[(&str, Piece<'_>)],
    key: &str,
    witness: &Witness<'_>,
) -> Result<(), AllocError>
    ensures line { OnOk result (lines.new.items ≡ lines.old.items ++ json_line (witnessed_value key.now witness.now (table_of table.now))) }
    ensures reads { OnOk result (ReadsBack (witnessed_value key.now witness.now (table_of table.now))) }
{
    let alloc = *lines.allocator();
    let mut members = Map::new(alloc);
    put_all(&mut members, alloc, table)?;
    put_witness(&mut members, alloc, key, witness)?;
    print_object(lines, members)
}
