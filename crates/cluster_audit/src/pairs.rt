//! Which sessions hold of one inode what the table of the locks keeps apart.
ghost use Rattle.std.specs.Prelude.{◌≡◌, ◌++◌, IfOk, OnOk, map, option_map};
ghost use Rattle.std.specs.List.{flat_map};
ghost use Rattle.cluster_audit.specs.Audited.{AddsTo, Give, Holds, SaysOfPairs, conflict_at};
ghost use Rattle.cluster_audit.specs.Lines.{beside_text, conflict_line, holder_text, on_inode};

use crate::clients::ClusterClients;
use crate::conflict::{Conflict, Holding, conflicts};
use crate::held::NamedConflict;
use crate::lines::print_who;
use crate::notes::{Detail, Manner};
use crate::objects::print_conflict_object;
use cap_text::read_caps;
use capbits::{Numbered, print_numbered, print_str};
use capspec::TreePath;
use ceph_input::{Holder, TreeInode};
use std::alloc::{AllocError, Global};
use texts::{Shape, Text, print_quoted, print_texts};

// A line for each pair of sessions that hold of one of these inodes what no two may hold together.
pub(crate) fn conflict_lines(
    alloc: Global,
    manner: Manner,
    clients: &ClusterClients,
    inodes: &[TreeInode],
    paths: &Numbered<TreePath>,
) -> Result<Vec<u8>, AllocError>
    ensures { IfOk result (λ text. Give (SaysOfPairs manner clients.now.sessions paths.now) inodes.now text.items) }
{
    let mut text = Vec::new(alloc);
    for inode in inodes {
        print_pairs(alloc, manner, &mut text, clients, paths, inode)?;
    }
    Ok(text)
}

// Appends the lines for those of one inode.
fn print_pairs(
    alloc: Global,
    manner: Manner,
    text: &mut Vec<u8>,
    clients: &ClusterClients,
    paths: &Numbered<TreePath>,
    inode: &TreeInode,
) -> Result<(), AllocError>
    ensures { OnOk result (AddsTo (SaysOfPairs manner clients.now.sessions paths.now inode.now) text.old.items text.new.items) }
{
    let number = inode.number();
    let holdings = holdings_of(alloc, inode.holders())?;
    let found = conflicts(alloc, holdings.as_slice())?;
    let Some(path) = paths.get(number) else {
        return print_conflicts(manner, text, clients, number, None, found.as_slice());
    };
    let names = path.names(alloc)?;
    print_conflicts(
        manner,
        text,
        clients,
        number,
        Some(names.as_slice()),
        found.as_slice(),
    )
}

// Who holds which caps. Whose are spelled otherwise than caps are is left out.
fn holdings_of(alloc: Global, holders: &[Holder]) -> Result<Vec<Holding>, AllocError>
    ensures { IfOk result (λ holdings. Give Holds holders.now holdings.items) }
{
    let mut holdings = Vec::new(alloc);
    for holder in holders {
        let issued = holder.issued();
        if let Ok(caps) = read_caps(issued) {
            holdings.push(Holding {
                client: holder.client(),
                caps,
            })?;
        }
    }
    Ok(holdings)
}

// Appends the lines for conflicts on the inode of this number, to which this path may lead.
fn print_conflicts(
    manner: Manner,
    text: &mut Vec<u8>,
    clients: &ClusterClients,
    number: u64,
    path: Option<&[&[u8]]>,
    conflicts: &[Conflict],
) -> Result<(), AllocError>
    ensures { OnOk result (text.new.items ≡ text.old.items
        ++ flat_map (conflict_at manner clients.now.sessions number (option_map (λ names. map (λ name. name.now) names.now) path.entry)) conflicts.now) }
{
    for conflict in conflicts {
        print_conflict(manner, text, clients, number, path, conflict)?;
    }
    Ok(())
}

// Appends the line for one of them.
fn print_conflict(
    manner: Manner,
    text: &mut Vec<u8>,
    clients: &ClusterClients,
    number: u64,
    path: Option<&[&[u8]]>,
    conflict: &Conflict,
) -> Result<(), AllocError>
    ensures { OnOk result (text.new.items ≡ text.old.items
        ++ conflict_at manner clients.now.sessions number (option_map (λ names. map (λ name. name.now) names.now) path.entry) conflict.now) }
{
    let named = NamedConflict {
        number,
        path,
        one: clients.name_of(conflict.one.client),
        other: clients.name_of(conflict.other.client),
        conflict: *conflict,
    };
    match manner.shape {
        Shape::Lines => print_conflict_text(text, manner.detail, &named),
        Shape::Objects => print_conflict_object(text, manner.detail, &named),
    }
}

// Appends it as a line for people.
fn print_conflict_text(
    text: &mut Vec<u8>,
    detail: Detail,
    named: &NamedConflict<'_>,
) -> Result<(), AllocError>
    ensures { OnOk result (text.new.items ≡ text.old.items ++ conflict_line detail named.now.number (option_map (λ names. map (λ name. name.now) names.now) named.now.path)
        (option_map (λ name. name.now) named.now.one) (option_map (λ name. name.now) named.now.other) named.now.conflict) }
{
    let conflict = &named.conflict;
    print_on(text, detail, named.number, named.path)?;
    print_client(text, detail, conflict.one.client, named.one)?;
    print_beside(text, conflict)?;
    print_client(text, detail, conflict.other.client, named.other)?;
    print_str(text, "\n")
}

// Appends the path of the inode of this number, or the number where no path leads to it. Groups are of many inodes.
fn print_on(
    text: &mut Vec<u8>,
    detail: Detail,
    number: u64,
    path: Option<&[&[u8]]>,
) -> Result<(), AllocError>
    ensures { OnOk result (text.new.items ≡ text.old.items ++ on_inode detail number (option_map (λ names. map (λ name. name.now) names.now) path.entry)) }
{
    if let Detail::Groups = detail {
        return Ok(());
    }
    match path {
        None => print_texts(
            text,
            &[Text::Word("inode "), Text::Number(number), Text::Word(" ")],
        ),
        Some(path) => print_texts(text, &[Text::Path(path), Text::Word(" ")]),
    }
}

// Appends what the one holds beside what the other holds.
fn print_beside(text: &mut Vec<u8>, conflict: &Conflict) -> Result<(), AllocError>
    ensures { OnOk result (text.new.items ≡ text.old.items ++ beside_text conflict.now) }
{
    let pieces = [
        Text::Word(" holds "),
        Text::Caps(conflict.one.caps),
        Text::Word(" beside "),
        Text::Caps(conflict.other.caps),
        Text::Word(" of "),
    ];
    print_texts(text, &pieces)
}

// Appends the number of a session, behind the name that it may tell. Among groups a name stands alone.
fn print_client(
    text: &mut Vec<u8>,
    detail: Detail,
    number: u64,
    name: Option<&[u8]>,
) -> Result<(), AllocError>
    ensures { OnOk result (text.new.items ≡ text.old.items ++ holder_text detail number (option_map (λ name. name.now) name.entry)) }
{
    match (name, detail) {
        (None, _) => print_numbered(text, "client ", number),
        (Some(client), Detail::Each) => print_who(text, client, number),
        (Some(client), Detail::Groups) => print_quoted(text, client),
    }
}
