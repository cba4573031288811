//! Where the MDS of a release of Ceph judges otherwise than this server what a client holds.
ghost use Rattle.std.specs.Prelude.{◌≡◌, ◌++◌, IfOk, OnOk};
ghost use Rattle.policy_analysis.specs.BesideStanding.{other_of};
ghost use Rattle.cluster_audit.specs.MdsFindings.{wanted_there};
ghost use Rattle.cluster_audit.specs.Audited.{AddsTo, Give, clients_of};
ghost use Rattle.cluster_audit.specs.Otherwise.{TellsIf, TellsOfAccess, TellsOfAll, TellsOfCaps, TellsOfHeld, TellsOfHolder, TellsOfInode, TellsOfText};
ghost use Rattle.cluster_audit.specs.Otherwise.{access_front, are_lines, holder_front, others_to, tells_more};

use crate::clients::ClusterClients;
use crate::findings::has_any;
use crate::inode::{Inode, path_of};
use crate::lines::print_place;
use crate::notes::{Detail, Manner};
use crate::order::in_order;
use cap_text::read_caps;
use capbits::{CapSet, Numbered};
use capgrant::{Access, readers_caps, writers_caps};
use capspec::{FsName, Grants, SpecFaultKind, TreePath, read_grants};
use ceph_input::{Holder, TreeInode};
use policy_analysis::{MdsWanted, Standing};
use release_rules::{Others, Otherwise, Release};
use std::alloc::{AllocError, Global};
use texts::{MdsAccess, Shape, Text, print_others, print_quoted, print_texts};

// A client that holds something of an inode, and the text of its grants.
#[derive(Clone, Copy)]
struct Granted<'a> {
    // In which detail it is told.
    detail: Detail,
    inode: &'a Inode<'a>,
    // The name of the client.
    client: &'a [u8],
    // The number of its session, and the text of its caps.
    holder: &'a Holder,
    // The text of its grants.
    text: &'a [u8],
}

// A line for each answer that releases give otherwise to one who holds something of these inodes, in order, where it is told.
pub(crate) fn otherwise_lines(
    alloc: Global,
    manner: Manner,
    fs: &FsName,
    clients: &ClusterClients,
    inodes: &[TreeInode],
    paths: &Numbered<TreePath>,
) -> Result<Vec<u8>, AllocError>
    ensures { IfOk result (λ lines. TellsOfAll fs.now (clients_of manner clients.now) paths.now inodes.now lines.items) }
{
    if !tells_more(manner) {
        return Ok(Vec::new(alloc));
    }
    let told = lines_of_all(alloc, manner, fs, clients, inodes, paths)?;
    in_order(alloc, told.as_slice())
}

// Whether such lines are told: beside lines by this server's rules.
fn tells_more(manner: Manner) -> bool
    ensures { result ≡ tells_more manner }
{
    manner.more && manner.mds.is_none() && are_lines(manner.shape)
}

fn are_lines(shape: Shape) -> bool
    ensures { result ≡ are_lines shape }
{
    matches!(shape, Shape::Lines)
}

fn lines_of_all(
    alloc: Global,
    manner: Manner,
    fs: &FsName,
    clients: &ClusterClients,
    inodes: &[TreeInode],
    paths: &Numbered<TreePath>,
) -> Result<Vec<u8>, AllocError>
    ensures { IfOk result (λ lines. Give (TellsOfInode fs.now (clients_of manner clients.now) paths.now) inodes.now lines.items) }
{
    let mut lines = Vec::new(alloc);
    for inode in inodes {
        print_inode(manner, &mut lines, fs, clients, paths, inode)?;
    }
    Ok(lines)
}

// Appends the lines of those who hold something of an inode to which a path leads, or led.
fn print_inode(
    manner: Manner,
    lines: &mut Vec<u8>,
    fs: &FsName,
    clients: &ClusterClients,
    paths: &Numbered<TreePath>,
    inode: &TreeInode,
) -> Result<(), AllocError>
    ensures { OnOk result (AddsTo (TellsOfInode fs.now (clients_of manner clients.now) paths.now inode.now) lines.old.items lines.new.items) }
{
    let Some(path) = path_of(paths, inode) else {
        return Ok(());
    };
    let names = path.names(*lines.allocator())?;
    let place = Inode {
        fs,
        path: names.as_slice(),
        place: path,
        attr: inode.attr(),
    };
    print_holders(manner, lines, clients, &place, inode.holders())
}

// Appends those of who holds something of the inode.
fn print_holders(
    manner: Manner,
    lines: &mut Vec<u8>,
    clients: &ClusterClients,
    inode: &Inode,
    holders: &[Holder],
) -> Result<(), AllocError>
    ensures { OnOk result (AddsTo (Give (TellsOfHolder manner.detail (clients_of manner clients.now) inode.now) holders.now) lines.old.items lines.new.items) }
{
    for holder in holders {
        print_holder(manner, lines, clients, inode, holder)?;
    }
    Ok(())
}

// Appends those of one of them, where it is listed with grants.
fn print_holder(
    manner: Manner,
    lines: &mut Vec<u8>,
    clients: &ClusterClients,
    inode: &Inode,
    holder: &Holder,
) -> Result<(), AllocError>
    ensures { OnOk result (AddsTo (TellsOfHolder manner.detail (clients_of manner clients.now) inode.now holder.now) lines.old.items lines.new.items) }
{
    let Some(entity) = clients.entity_in(holder.client()) else {
        return Ok(());
    };
    let Some(text) = entity.caps() else {
        return Ok(());
    };
    let granted = Granted {
        detail: manner.detail,
        inode,
        client: entity.name(),
        holder,
        text,
    };
    print_granted(lines, &granted)
}

// Appends those of one with these grants, where this server reads them.
fn print_granted(lines: &mut Vec<u8>, granted: &Granted<'_>) -> Result<(), AllocError>
    ensures { OnOk result (AddsTo (TellsOfText granted.now.detail granted.now.inode.now granted.now.client.now granted.now.holder.now granted.now.text.now) lines.old.items lines.new.items) }
{
    match read_grants(*lines.allocator(), granted.text) {
        Ok(grants) => print_held(lines, granted, &grants),
        Err(fault) => match fault.kind {
            SpecFaultKind::NoMemory => Err(AllocError),
            _ => Ok(()),
        },
    }
}

// Appends those of what it holds, where it is spelled as caps are.
fn print_held(lines: &mut Vec<u8>, granted: &Granted<'_>, grants: &Grants) -> Result<(), AllocError>
    ensures { OnOk result (AddsTo (TellsOfHeld granted.now.detail granted.now.inode.now granted.now.client.now granted.now.holder.now granted.now.text.now grants.now) lines.old.items lines.new.items) }
{
    let Ok(caps) = read_caps(granted.holder.issued()) else {
        return Ok(());
    };
    print_caps(lines, granted, grants, caps)
}

// Appends those of these caps: to read by some of a reader's, and to write by some of a writer's.
fn print_caps(
    lines: &mut Vec<u8>,
    granted: &Granted<'_>,
    grants: &Grants,
    caps: CapSet,
) -> Result<(), AllocError>
    ensures { OnOk result (AddsTo (TellsOfCaps granted.now.detail granted.now.inode.now granted.now.client.now granted.now.holder.now.client granted.now.text.now grants.now caps) lines.old.items lines.new.items) }
{
    let reads = has_any(caps, readers_caps());
    print_if(lines, granted, grants, Access::Read, reads)?;
    let writes = has_any(caps, writers_caps());
    print_if(lines, granted, grants, Access::Write, writes)
}

// Appends those of an access, if something is held for it.
fn print_if(
    lines: &mut Vec<u8>,
    granted: &Granted<'_>,
    grants: &Grants,
    access: Access,
    is_held: bool,
) -> Result<(), AllocError>
    ensures { OnOk result (AddsTo (TellsIf is_held (TellsOfAccess granted.now.detail granted.now.inode.now granted.now.client.now granted.now.holder.now.client granted.now.text.now grants.now access)) lines.old.items lines.new.items) }
{
    if is_held {
        print_access(lines, granted, grants, access)
    } else {
        Ok(())
    }
}

// Appends those of an access: a line for each answer that releases give otherwise.
fn print_access(
    lines: &mut Vec<u8>,
    granted: &Granted<'_>,
    grants: &Grants,
    access: Access,
) -> Result<(), AllocError>
    ensures { OnOk result (AddsTo (TellsOfAccess granted.now.detail granted.now.inode.now granted.now.client.now granted.now.holder.now.client granted.now.text.now grants.now access) lines.old.items lines.new.items) }
{
    let alloc = *lines.allocator();
    let inode = granted.inode;
    let standing = inode.standing(grants, access);
    let others = inode.others_to(alloc, access, granted.text, &standing)?;
    let front = access_front(alloc, granted, access)?;
    print_others(lines, front.as_slice(), &others)
}

// Who holds something, and where each is told, and the access.
fn access_front(alloc: Global, granted: &Granted<'_>, access: Access) -> Result<Vec<u8>, AllocError>
    ensures { IfOk result (λ front. front.items ≡ access_front granted.now.detail granted.now.inode.now.path granted.now.client.now granted.now.holder.now.client access) }
{
    let mut front = Vec::new(alloc);
    print_who_holds(&mut front, granted)?;
    let end = [
        Text::Word(" "),
        Text::Access(MdsAccess::One(access)),
        Text::Word(": "),
    ];
    print_texts(&mut front, &end)?;
    Ok(front)
}

// Appends who holds something, behind where it is if each is told.
fn print_who_holds(text: &mut Vec<u8>, granted: &Granted<'_>) -> Result<(), AllocError>
    ensures { OnOk result (text.new.items ≡ text.old.items ++ holder_front granted.now.detail granted.now.inode.now.path granted.now.client.now granted.now.holder.now.client) }
{
    let inode = granted.inode;
    let client = granted.client;
    let session = granted.holder.client();
    match granted.detail {
        Detail::Each => print_place(text, inode.path, client, session),
        Detail::Groups => print_quoted(text, client),
    }
}

impl Inode<'_> {
    // What each release answers otherwise than by this standing, which is this server's by the same text of grants.
    fn others_to(
        &self,
        alloc: Global,
        access: Access,
        text: &[u8],
        standing: &Standing,
    ) -> Result<Others, AllocError>
        ensures { IfOk result (λ others. others ≡ others_to self.now access text.now standing.now) }
    {
        Ok(Others {
            pacific: self.other_of(alloc, Release::Pacific, access, text, standing)?,
            reef: self.other_of(alloc, Release::Reef, access, text, standing)?,
            tentacle: self.other_of(alloc, Release::Tentacle, access, text, standing)?,
        })
    }

    fn other_of(
        &self,
        alloc: Global,
        release: Release,
        access: Access,
        text: &[u8],
        standing: &Standing,
    ) -> Result<Option<Otherwise>, AllocError>
        ensures { IfOk result (λ other. other ≡ other_of (wanted_there release self.now access) text.now standing.now) }
    {
        let known = Some(*self.attr);
        let wanted = MdsWanted {
            release,
            fs: self.fs,
            path: self.place,
            access,
            known: &known,
        };
        wanted.beside(alloc, text, standing)
    }
}
