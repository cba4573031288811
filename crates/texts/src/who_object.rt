//! What is said of the clients of a cluster.
ghost use Rattle.std.specs.Prelude.{◌≡◌, ◌++◌, OnOk};
ghost use Rattle.serde_json.specs.View.{members_view};
ghost use Rattle.texts.specs.Pieces.{table_of};
ghost use Rattle.texts.specs.Standings.{client_value, standing_object, standing_table, standing_value, unread_object, unread_value, with_client};
ghost use Rattle.texts.specs.Values.{ReadsBack, json_line, with_all};

use crate::mds_answer::put_others;
use crate::question_object::{put_attr, put_place};
use crate::table::{Members, Piece, print_object, put_all};
use crate::verdict_object::{put_allowing, put_denial};
use crate::who_text::fault_word;
use capgrant::Attr;
use capspec::SpecFault;
use policy_analysis::{Standing, Wanted};
use release_rules::Others;
use serde_json::Map;
use std::alloc::{AllocError, Global};

/// Appends the object that says of a client whether somebody behind its key may do what is wanted, and by which grant or rules, and what the MDS
/// of each release answers where it answers otherwise. It is a line, with its line feed. `AllocError` where no memory is left for it; some of it
/// may stand in the text then.
pub fn print_standing_object(
    lines: &mut Vec<u8>,
    client: &[u8],
    wanted: &Wanted<'_>,
    attr: &Option<Attr>,
    standing: &Standing,
    others: &Others,
) -> Result<(), AllocError>
    ensures line { OnOk result (lines.new.items ≡ lines.old.items ++ standing_object client.now wanted.now attr.now standing.now others.now) }
    ensures reads { OnOk result (ReadsBack (standing_value client.now wanted.now attr.now standing.now others.now)) }
{
    let alloc = *lines.allocator();
    let mut members = Map::new(alloc);
    put_client(&mut members, alloc, client, wanted, attr)?;
    put_standing(&mut members, alloc, standing)?;
    put_others(&mut members, alloc, others)?;
    print_object(lines, members)
}

/// Appends the object that says what is wrong with the grants of a client, and where. It is a line, with its line feed. `AllocError`
/// where no memory is left for it; some of it may stand in the text then.
pub fn print_unread_object(
    lines: &mut Vec<u8>,
    client: &[u8],
    wanted: &Wanted<'_>,
    attr: &Option<Attr>,
    fault: &SpecFault,
) -> Result<(), AllocError>
    ensures line { OnOk result (lines.new.items ≡ lines.old.items ++ unread_object client.now wanted.now attr.now fault.now) }
    ensures reads { OnOk result (ReadsBack (unread_value client.now wanted.now attr.now fault.now)) }
{
    let table = [
        ("verdict", Piece::Word("unread")),
        ("fault", Piece::Word(fault_word(fault.kind))),
        ("at", Piece::Number(fault.at as u64)),
    ];
    print_asked(lines, client, wanted, attr, &table)
}

/// Appends the object with the client, what is asked of it, and these members, as a line.
pub(crate) fn print_asked(
    lines: &mut Vec<u8>,
    client: &[u8],
    wanted: &Wanted<'_>,
    attr: &Option<Attr>,
    table: &[(&str, Piece<'_>)],
) -> Result<(), AllocError>
    ensures line { OnOk result (lines.new.items ≡ lines.old.items ++ json_line (client_value client.now wanted.now attr.now (table_of table.now))) }
    ensures reads { OnOk result (ReadsBack (client_value client.now wanted.now attr.now (table_of table.now))) }
{
    let alloc = *lines.allocator();
    let mut members = Map::new(alloc);
    put_client(&mut members, alloc, client, wanted, attr)?;
    put_all(&mut members, alloc, table)?;
    print_object(lines, members)
}

// Adds the client, and what is asked of it.
fn put_client(
    members: &mut Members,
    alloc: Global,
    client: &[u8],
    wanted: &Wanted<'_>,
    attr: &Option<Attr>,
) -> Result<(), AllocError>
    ensures { OnOk result (members_view members.new.entries ≡ with_client client.now wanted.now attr.now (members_view members.old.entries)) }
{
    put_all(members, alloc, &[("client", Piece::Bytes(client))])?;
    put_place(members, alloc, wanted.access, wanted.path, wanted.fs)?;
    match attr {
        Some(attr) => put_attr(members, alloc, attr),
        None => Ok(()),
    }
}

// Adds by which grant or rules it is so.
fn put_standing(members: &mut Members, alloc: Global, standing: &Standing) -> Result<(), AllocError>
    ensures { OnOk result (members_view members.new.entries ≡ with_all (standing_table standing.now) (members_view members.old.entries)) }
{
    match standing {
        Standing::Allowed { grant } => put_allowing(members, alloc, "allowed", *grant),
        Standing::Depends { grant } => put_allowing(members, alloc, "depends", *grant),
        Standing::Denied { rules } => put_denial(members, alloc, rules.as_slice()),
    }
}
