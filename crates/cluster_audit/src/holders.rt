//! What is said of one who holds something of an inode.
ghost use Rattle.std.specs.Prelude.{◌≡◌, ◌++◌, OnOk, map, option_map};
ghost use Rattle.std.specs.List.{flat_map};
ghost use Rattle.cluster_audit.specs.Audited.{Adds, IsJudged, IsJudgedBy, SaysOf, address_text, clients_of, finding_text, pathless_of};

use crate::clients::ClusterClients;
use crate::findings::Finding;
use crate::grants_by::GrantsBy;
use crate::held::{Entry, Held};
use crate::inode::Inode;
use crate::lines::{print_group, print_held};
use crate::notes::{Detail, Manner, Notes};
use crate::objects::print_found;
use crate::unjudged::{
    Unknown, print_pathless, print_unknown, print_unlisted, print_unnamed, print_unreadable,
};
use cap_text::read_caps;
use ceph_input::Holder;
use std::alloc::AllocError;
use texts::Shape;

// Appends what is said of a client that holds something of the inode.
pub(crate) fn note_holder(
    manner: Manner,
    notes: &mut Notes,
    clients: &ClusterClients,
    number: u64,
    inode: &Inode,
    holder: &Holder,
) -> Result<(), AllocError>
    ensures { OnOk result (Adds (SaysOf (clients_of manner clients.now) number inode.now holder.now) notes.old notes.new) }
{
    let session = holder.client();
    let Some(client) = clients.name_of(session) else {
        return print_unnamed(&mut notes.unknown, manner.shape, session);
    };
    let Some(entity) = clients.entity_of(client) else {
        return print_unlisted(&mut notes.unknown, manner.shape, client);
    };
    let entry = Entry {
        number,
        inode,
        client,
        unchecked: clients.is_unchecked(session),
        holder,
    };
    note_by_caps(manner, notes, &entry, entity.caps())
}

// Appends a line for each of those who hold something of the inode of this number, to which no path leads.
pub(crate) fn print_pathless_holders(
    text: &mut Vec<u8>,
    shape: Shape,
    clients: &ClusterClients,
    number: u64,
    holders: &[Holder],
) -> Result<(), AllocError>
    ensures { OnOk result (text.new.items ≡ text.old.items ++ flat_map (pathless_of shape clients.now.sessions number) holders.now) }
{
    for holder in holders {
        print_pathless_holder(text, shape, clients, number, holder)?;
    }
    Ok(())
}

// The line for one of them, or that no session names it.
fn print_pathless_holder(
    text: &mut Vec<u8>,
    shape: Shape,
    clients: &ClusterClients,
    number: u64,
    holder: &Holder,
) -> Result<(), AllocError>
    ensures { OnOk result (text.new.items ≡ text.old.items ++ pathless_of shape clients.now.sessions number holder.now) }
{
    let session = holder.client();
    match clients.name_of(session) {
        None => print_unnamed(text, shape, session),
        Some(client) => print_pathless(text, shape, number, client, session, holder.issued()),
    }
}

// Appends what is said of a client by the text of its grants, if it has one.
fn note_by_caps(
    manner: Manner,
    notes: &mut Notes,
    entry: &Entry<'_>,
    caps: Option<&[u8]>,
) -> Result<(), AllocError>
    ensures { OnOk result (Adds (IsJudgedBy manner entry.now.number entry.now.inode.now entry.now.client.now entry.now.unchecked entry.now.holder.now (option_map (λ text. text.now) caps.entry)) notes.old notes.new) }
{
    match GrantsBy::read(*notes.unknown.allocator(), manner.mds, caps)? {
        Ok(grants) => note_judged(manner, notes, entry, &grants),
        Err(what) => print_unreadable(&mut notes.unknown, manner.shape, entry.client, &what),
    }
}

// Appends what is said of it by its grants.
fn note_judged(
    manner: Manner,
    notes: &mut Notes,
    entry: &Entry<'_>,
    grants: &GrantsBy,
) -> Result<(), AllocError>
    ensures { OnOk result (Adds (IsJudged manner entry.now.number entry.now.inode.now entry.now.client.now entry.now.unchecked grants.now entry.now.holder.now) notes.old notes.new) }
{
    let inode = entry.inode;
    let holder = entry.holder;
    let session = holder.client();
    let Ok(issued) = read_caps(holder.issued()) else {
        return print_unknown(&mut notes.unknown, manner.shape, Unknown::Spelling, entry);
    };
    let Ok(pending) = read_caps(holder.pending()) else {
        return print_unknown(&mut notes.unknown, manner.shape, Unknown::Spelling, entry);
    };
    let beyond = grants.beyond(*notes.unknown.allocator(), issued, inode)?;
    print_address(&mut notes.unknown, manner.shape, entry, beyond.is_open)?;
    let held = Held {
        number: entry.number,
        path: inode.path,
        client: entry.client,
        session,
        unchecked: entry.unchecked,
        issued,
        pending,
    };
    print_finding(&mut notes.found, manner, &held, &beyond.finding)
}

// Appends that what is held is permitted from some addresses alone, where it is.
fn print_address(
    text: &mut Vec<u8>,
    shape: Shape,
    entry: &Entry<'_>,
    is_open: bool,
) -> Result<(), AllocError>
    ensures { OnOk result (text.new.items ≡ text.old.items
        ++ address_text shape entry.now.number entry.now.inode.now.path entry.now.client.now entry.now.holder.now.client is_open) }
{
    if is_open {
        print_unknown(text, shape, Unknown::Address, entry)
    } else {
        Ok(())
    }
}

// Appends what a client holds of an inode and nobody behind its key is permitted, if anything.
fn print_finding(
    text: &mut Vec<u8>,
    manner: Manner,
    held: &Held<'_>,
    finding: &Option<Finding>,
) -> Result<(), AllocError>
    ensures { OnOk result (text.new.items ≡ text.old.items
        ++ finding_text manner held.now.number (map (λ name. name.now) held.now.path.now) held.now.client.now held.now.session held.now.unchecked held.now.issued held.now.pending finding.now) }
{
    let Some(found) = finding else {
        return Ok(());
    };
    let detail = manner.detail;
    match (manner.shape, detail) {
        (Shape::Objects, _) => print_found(text, detail, held, found),
        (Shape::Lines, Detail::Each) => print_held(text, held, found),
        (Shape::Lines, Detail::Groups) => print_group(text, held.client, found),
    }
}
