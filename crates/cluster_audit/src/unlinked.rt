//! Which inodes were unlinked, and are judged by the paths that they had.
ghost use Rattle.std.specs.Prelude.{◌≡◌, ◌++◌, IfOk, OnOk, map};
ghost use Rattle.std.specs.List.{flat_map};
ghost use Rattle.cluster_audit.specs.Audited.{says_of_prior};
ghost use Rattle.cluster_audit.specs.Lines.{unlinked_line};
ghost use Rattle.cluster_audit.specs.Shaped.{unlinked_in};

use capbits::Numbered;
use capspec::TreePath;
use ceph_input::TreeInode;
use std::alloc::{AllocError, Global};
use texts::{Piece, Shape, Text, print_pieces, print_texts};

// A line for each of these inodes that was unlinked, where somebody holds something of it.
pub(crate) fn unlinked_lines(
    alloc: Global,
    shape: Shape,
    inodes: &[TreeInode],
    paths: &Numbered<TreePath>,
) -> Result<Vec<u8>, AllocError>
    ensures { IfOk result (λ text. text.items ≡ flat_map (says_of_prior shape paths.now) inodes.now) }
{
    let mut text = Vec::new(alloc);
    for inode in inodes {
        print_prior(&mut text, shape, paths, inode)?;
    }
    Ok(text)
}

// Appends the line for an inode, where there is one.
fn print_prior(
    text: &mut Vec<u8>,
    shape: Shape,
    paths: &Numbered<TreePath>,
    inode: &TreeInode,
) -> Result<(), AllocError>
    ensures { OnOk result (text.new.items ≡ text.old.items ++ says_of_prior shape paths.now inode.now) }
{
    let Some(path) = inode.prior_path() else {
        return Ok(());
    };
    if inode.holders().is_empty() || paths.get(inode.number()).is_some() {
        return Ok(());
    }
    let names = path.names(*text.allocator())?;
    print_unlinked(text, shape, inode.number(), names.as_slice())
}

// Appends that the inode of this number was unlinked at this path.
fn print_unlinked<'x>(
    text: &mut Vec<u8>,
    shape: Shape,
    number: u64,
    path: &'x [&'x [u8]],
) -> Result<(), AllocError>
    ensures { OnOk result (text.new.items ≡ text.old.items ++ unlinked_in shape number (map (λ name. name.now) path.now)) }
{
    match shape {
        Shape::Lines => print_unlinked_line(text, number, path),
        Shape::Objects => print_pieces(
            text,
            &[
                ("kind", Piece::Word("unlinked")),
                ("inode", Piece::Number(number)),
                ("path", Piece::Path(path)),
            ],
        ),
    }
}

// Appends it as a line for people.
fn print_unlinked_line(text: &mut Vec<u8>, number: u64, path: &[&[u8]]) -> Result<(), AllocError>
    ensures { OnOk result (text.new.items ≡ text.old.items ++ unlinked_line number (map (λ name. name.now) path.now)) }
{
    let pieces = [
        Text::Word("inode "),
        Text::Number(number),
        Text::Word(": unlinked, judged as "),
        Text::Path(path),
        Text::Word("\n"),
    ];
    print_texts(text, &pieces)
}
