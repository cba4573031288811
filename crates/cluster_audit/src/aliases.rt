//! Who calls itself otherwise than its key is named.
ghost use Rattle.std.specs.Prelude.{◌≡◌, ◌++◌, IfOk, OnOk};
ghost use Rattle.std.specs.List.{flat_map};
ghost use Rattle.cluster_audit.specs.Audited.{says_of_name};
ghost use Rattle.cluster_audit.specs.Lines.{alias_line};
ghost use Rattle.cluster_audit.specs.Shaped.{alias_in};

use crate::known::KnownSession;
use std::alloc::{AllocError, Global};
use texts::{Piece, Shape, Text, print_pieces, print_texts};

// A line for each session whose client calls itself otherwise than its key is named.
pub(crate) fn alias_lines(
    alloc: Global,
    shape: Shape,
    sessions: &[KnownSession],
) -> Result<Vec<u8>, AllocError>
    ensures { IfOk result (λ text. text.items ≡ flat_map (says_of_name shape) sessions.now) }
{
    let mut text = Vec::new(alloc);
    for session in sessions {
        print_name(&mut text, shape, session)?;
    }
    Ok(text)
}

// Appends the line for a session, where there is one.
fn print_name(text: &mut Vec<u8>, shape: Shape, session: &KnownSession) -> Result<(), AllocError>
    ensures { OnOk result (text.new.items ≡ text.old.items ++ says_of_name shape session.now) }
{
    let Some(client) = session.client() else {
        return Ok(());
    };
    let Some(alias) = session.alias() else {
        return Ok(());
    };
    print_alias(text, shape, session.number(), client, alias)
}

// Appends that the client of this session calls itself so.
fn print_alias<'x>(
    text: &mut Vec<u8>,
    shape: Shape,
    session: u64,
    client: &'x [u8],
    alias: &'x [u8],
) -> Result<(), AllocError>
    ensures { OnOk result (text.new.items ≡ text.old.items ++ alias_in shape session client.now alias.now) }
{
    match shape {
        Shape::Lines => print_alias_line(text, session, client, alias),
        Shape::Objects => print_pieces(
            text,
            &[
                ("kind", Piece::Word("other-name")),
                ("session", Piece::Number(session)),
                ("client", Piece::Bytes(client)),
                ("calls_itself", Piece::Bytes(alias)),
            ],
        ),
    }
}

// Appends it as a line for people.
fn print_alias_line<'x>(
    text: &mut Vec<u8>,
    session: u64,
    client: &'x [u8],
    alias: &'x [u8],
) -> Result<(), AllocError>
    ensures { OnOk result (text.new.items ≡ text.old.items ++ alias_line session client.now alias.now) }
{
    let pieces = [
        Text::Word("session "),
        Text::Number(session),
        Text::Word(": "),
        Text::Quoted(client),
        Text::Word(" calls itself "),
        Text::Quoted(alias),
        Text::Word("\n"),
    ];
    print_texts(text, &pieces)
}
