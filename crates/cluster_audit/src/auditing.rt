//! From the clients and the tree of a cluster to what is held and may not be.
ghost use Rattle.std.specs.Prelude.{◌≡◌, IfOk, OnOk};
ghost use Rattle.ceph_input.specs.Dump.{dump};
ghost use Rattle.cluster_audit.specs.Audited.{Adds, AreReports, SaysOf, SaysOfInode, clients_of, remarks};
ghost use Rattle.cluster_audit.specs.Report.{AreLines, IsReport, IsReported};

use crate::aliases::alias_lines;
use crate::clients::ClusterClients;
use crate::holders::{note_holder, print_pathless_holders};
use crate::inode::{Inode, path_of};
use crate::notes::{Detail, Manner, Notes, Report};
use crate::order::{counted, in_order};
use crate::otherwise::otherwise_lines;
use crate::pairs::conflict_lines;
use crate::summary::summary_line;
use crate::unlinked::unlinked_lines;
use capbits::{Numbered, print_str};
use capspec::{FsName, TreePath};
use ceph_input::{Holder, Tree, TreeInode};
use std::alloc::{AllocError, Global};
use texts::Shape;

/// What the clients of a cluster hold of the inodes of this file system, by the tree that a metadata server has in memory, and nobody
/// behind their keys is permitted, and what two of them hold that no two may hold together; behind that which clients call themselves
/// otherwise than their keys are named, and which inodes were unlinked; and behind that what could not be judged. Each line stands once,
/// in the order of the lines' bytes, which is first that of paths, or those that are alike are counted. Behind them stand, where more is
/// told, lines for what the MDS of a release judges otherwise. A line sums it up.
pub fn audit_report(
    alloc: Global,
    manner: Manner,
    fs: &FsName,
    clients: &ClusterClients,
    tree: &Tree,
) -> Result<Report, AllocError>
    ensures { IfOk result (λ report. IsReport fs.now (clients_of manner clients.now) (dump tree.now.inodes.items tree.now.paths) report.text.items report.found) }
{
    let inodes = tree.inodes.as_slice();
    let notes = note_inodes(alloc, manner, fs, clients, inodes, &tree.paths)?;
    let conflicts = conflict_lines(alloc, manner, clients, inodes, &tree.paths)?;
    let remarked = remarks(alloc, manner.shape, clients, inodes, &tree.paths)?;
    let lines = all_lines(
        alloc,
        manner,
        &notes,
        conflicts.as_slice(),
        remarked.as_slice(),
    )?;
    let mut last = otherwise_lines(alloc, manner, fs, clients, inodes, &tree.paths)?;
    let summary = summary_line(
        alloc,
        manner.shape,
        clients.sessions(),
        inodes,
        &notes,
        conflicts.as_slice(),
    )?;
    last.extend_from_slice(summary.as_slice())?;
    let report = report_of(manner.shape, lines, last.as_slice())?;
    Ok(report)
}

// What is found, in order or counted, and behind it what is remarked and what could not be judged.
fn all_lines(
    alloc: Global,
    manner: Manner,
    notes: &Notes,
    conflicts: &[u8],
    remarked: &[u8],
) -> Result<Vec<u8>, AllocError>
    ensures { IfOk result (λ lines. AreLines manner notes.now.found.items conflicts.now remarked.now notes.now.unknown.items lines.items) }
{
    let mut found = Vec::from_slice(alloc, notes.found.as_slice())?;
    found.extend_from_slice(conflicts)?;
    let mut lines = match manner.detail {
        Detail::Each => in_order(alloc, found.as_slice())?,
        Detail::Groups => counted(alloc, manner.shape, found.as_slice())?,
    };
    let remarked = in_order(alloc, remarked)?;
    lines.extend_from_slice(remarked.as_slice())?;
    let unknown = in_order(alloc, notes.unknown.as_slice())?;
    lines.extend_from_slice(unknown.as_slice())?;
    Ok(lines)
}

// Which clients call themselves otherwise than their keys are named, and which inodes are judged by paths that they had.
fn remarks(
    alloc: Global,
    shape: Shape,
    clients: &ClusterClients,
    inodes: &[TreeInode],
    paths: &Numbered<TreePath>,
) -> Result<Vec<u8>, AllocError>
    ensures { IfOk result (λ text. text.items ≡ remarks shape clients.now.sessions paths.now inodes.now) }
{
    let mut text = alias_lines(alloc, shape, clients.sessions())?;
    let unlinked = unlinked_lines(alloc, shape, inodes, paths)?;
    text.extend_from_slice(unlinked.as_slice())?;
    Ok(text)
}

// These lines, or that nothing is found where there are none, and the last ones.
fn report_of(shape: Shape, mut lines: Vec<u8>, last: &[u8]) -> Result<Report, AllocError>
    ensures { IfOk result (λ report. IsReported shape lines.items last.now report.text.items report.found) }
{
    let found = !lines.is_empty();
    if !found {
        print_str(&mut lines, shape.nothing())?;
    }
    lines.extend_from_slice(last)?;
    Ok(Report { text: lines, found })
}

// What is said of these inodes.
fn note_inodes(
    alloc: Global,
    manner: Manner,
    fs: &FsName,
    clients: &ClusterClients,
    inodes: &[TreeInode],
    paths: &Numbered<TreePath>,
) -> Result<Notes, AllocError>
    ensures { IfOk result (λ notes. AreReports (SaysOfInode fs.now (clients_of manner clients.now) paths.now) inodes.now notes.found.items notes.unknown.items) }
{
    let mut notes = Notes::none(alloc);
    for inode in inodes {
        note_inode(manner, &mut notes, fs, clients, paths, inode)?;
    }
    Ok(notes)
}

// Appends what is said of an inode.
fn note_inode(
    manner: Manner,
    notes: &mut Notes,
    fs: &FsName,
    clients: &ClusterClients,
    paths: &Numbered<TreePath>,
    inode: &TreeInode,
) -> Result<(), AllocError>
    ensures { OnOk result (Adds (SaysOfInode fs.now (clients_of manner clients.now) paths.now inode.now) notes.old notes.new) }
{
    let Some(path) = path_of(paths, inode) else {
        return print_pathless_holders(
            &mut notes.unknown,
            manner.shape,
            clients,
            inode.number(),
            inode.holders(),
        );
    };
    let names = path.names(*notes.unknown.allocator())?;
    let place = Inode {
        fs,
        path: names.as_slice(),
        place: path,
        attr: inode.attr(),
    };
    note_holders(
        manner,
        notes,
        clients,
        inode.number(),
        &place,
        inode.holders(),
    )
}

// Appends what is said of those who hold something of the inode of this number.
fn note_holders(
    manner: Manner,
    notes: &mut Notes,
    clients: &ClusterClients,
    number: u64,
    inode: &Inode,
    holders: &[Holder],
) -> Result<(), AllocError>
    ensures { OnOk result (Adds (AreReports (SaysOf (clients_of manner clients.now) number inode.now) holders.now) notes.old notes.new) }
{
    for holder in holders {
        note_holder(manner, notes, clients, number, inode, holder)?;
    }
    Ok(())
}
