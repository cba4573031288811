//! What is said where it is not known what may be held.
ghost use Rattle.std.specs.Prelude.{◌≡◌, ◌++◌, OnOk, map};
ghost use Rattle.cluster_audit.specs.Shaped.{pathless_in, unknown_in, unlisted_in, unnamed_in, unreadable_in};
ghost use Rattle.cluster_audit.specs.Objects.{unknown_word};

use crate::grants_by::Unreadable;
use crate::held::Entry;
use crate::lines::{print_pathless_line, print_unknown_line};
use std::alloc::AllocError;
use texts::{
    Piece, Shape, Text, fault_word, print_mds_unread, print_pieces, print_texts, print_unread,
};

/// What is not known of what a client holds.
#[derive(Clone, Copy)]
pub(crate) enum Unknown {
    /// Which caps it is.
    Spelling,
    /// Whether the client's address permits it.
    Address,
}

// Appends that no session names a client.
pub(crate) fn print_unnamed(text: &mut Vec<u8>, shape: Shape, number: u64) -> Result<(), AllocError>
    ensures { OnOk result (text.new.items ≡ text.old.items ++ unnamed_in shape number) }
{
    match shape {
        Shape::Lines => print_texts(
            text,
            &[
                Text::Word("client "),
                Text::Number(number),
                Text::Word(": no session names it\n"),
            ],
        ),
        Shape::Objects => print_pieces(
            text,
            &[
                ("kind", Piece::Word("no-session")),
                ("session", Piece::Number(number)),
            ],
        ),
    }
}

// Appends that the auth list lacks a client.
pub(crate) fn print_unlisted(
    text: &mut Vec<u8>,
    shape: Shape,
    client: &[u8],
) -> Result<(), AllocError>
    ensures { OnOk result (text.new.items ≡ text.old.items ++ unlisted_in shape client.now) }
{
    match shape {
        Shape::Lines => print_texts(
            text,
            &[
                Text::Quoted(client),
                Text::Word(": no entry in the auth list\n"),
            ],
        ),
        Shape::Objects => print_pieces(
            text,
            &[
                ("kind", Piece::Word("no-entry")),
                ("client", Piece::Bytes(client)),
            ],
        ),
    }
}

// Appends why the grants of a client can't be read.
pub(crate) fn print_unreadable(
    text: &mut Vec<u8>,
    shape: Shape,
    client: &[u8],
    what: &Unreadable,
) -> Result<(), AllocError>
    ensures { OnOk result (text.new.items ≡ text.old.items ++ unreadable_in shape client.now what.now) }
{
    match (shape, what) {
        (Shape::Lines, Unreadable::Own(fault)) => print_unread(text, client, fault),
        (Shape::Lines, Unreadable::There(release, at)) => {
            print_mds_unread(text, client, *release, *at)
        }
        (Shape::Objects, Unreadable::Own(fault)) => print_pieces(
            text,
            &[
                ("kind", Piece::Word("unread")),
                ("client", Piece::Bytes(client)),
                ("fault", Piece::Word(fault_word(fault.kind))),
                ("at", Piece::Number(fault.at as u64)),
            ],
        ),
        (Shape::Objects, Unreadable::There(release, at)) => print_pieces(
            text,
            &[
                ("kind", Piece::Word("unread")),
                ("client", Piece::Bytes(client)),
                ("mds", Piece::Word(release.version())),
                ("at", Piece::Number(*at as u64)),
            ],
        ),
    }
}

// Appends what is not known of what a client holds.
pub(crate) fn print_unknown<'x>(
    text: &mut Vec<u8>,
    shape: Shape,
    unknown: Unknown,
    entry: &Entry<'x>,
) -> Result<(), AllocError>
    ensures { OnOk result (text.new.items ≡ text.old.items
        ++ unknown_in shape unknown entry.now.number entry.now.inode.now.path entry.now.client.now entry.now.holder.now.client) }
{
    let inode = entry.inode;
    let client = entry.client;
    let session = entry.holder.client();
    match shape {
        Shape::Lines => print_unknown_line(text, unknown, inode.path, client, session),
        Shape::Objects => print_pieces(
            text,
            &[
                ("kind", Piece::Word(unknown_word(unknown))),
                ("inode", Piece::Number(entry.number)),
                ("path", Piece::Path(inode.path)),
                ("client", Piece::Bytes(client)),
                ("session", Piece::Number(session)),
            ],
        ),
    }
}

fn unknown_word(unknown: Unknown) -> &'static str
    ensures { result.now ≡ unknown_word unknown }
{
    match unknown {
        Unknown::Spelling => "unknown-caps",
        Unknown::Address => "depends-on-address",
    }
}

// Appends that a client holds something of an inode to which no path leads.
pub(crate) fn print_pathless<'x>(
    text: &mut Vec<u8>,
    shape: Shape,
    number: u64,
    client: &'x [u8],
    session: u64,
    issued: &'x [u8],
) -> Result<(), AllocError>
    ensures { OnOk result (text.new.items ≡ text.old.items ++ pathless_in shape number client.now session issued.now) }
{
    match shape {
        Shape::Lines => print_pathless_line(text, number, client, session, issued),
        Shape::Objects => print_pieces(
            text,
            &[
                ("kind", Piece::Word("no-path")),
                ("inode", Piece::Number(number)),
                ("client", Piece::Bytes(client)),
                ("session", Piece::Number(session)),
                ("holds", Piece::Bytes(issued)),
            ],
        ),
    }
}
