//! What is said of one client by a release: whether somebody behind its key may make an access there.
ghost use Rattle.std.specs.Prelude.{◌≡◌, ◌++◌, OnOk, map};
ghost use Rattle.texts.specs.MdsStandings.{mds_client_line, mds_client_text, mds_front, mds_standing_object, mds_standing_value, mds_standing_word};
ghost use Rattle.texts.specs.MdsStandings.{mds_unread_line, mds_unread_object, mds_unread_value, refused_client, wanted_of};
ghost use Rattle.texts.specs.Pieces.{table_of};
ghost use Rattle.texts.specs.Standings.{client_value};
ghost use Rattle.texts.specs.Values.{ReadsBack, json_line};

use crate::line_text::{Text, print_texts};
use crate::mds_answer::{count_if, failures_piece, grant_piece};
use crate::mds_asked::MdsAccess;
use crate::mds_text::{print_mds_reason, print_refused};
use crate::quoting::print_quoted;
use crate::table::Piece;
use crate::who_object::print_asked;
use capbits::print_str;
use capgrant::Access;
use policy_analysis::{MdsStanding, MdsWanted, Wanted};
use release_rules::{Release, Verdict};
use std::alloc::AllocError;

/// Appends the line for a client: whether somebody behind its key may do what is wanted, and by which grant or rules; and a line for the grant by
/// which the client itself refuses, where there is one. `AllocError` where no memory is left for it; some of it may stand in the text then.
pub fn print_mds_standing(
    text: &mut Vec<u8>,
    client: &[u8],
    wanted: &MdsWanted<'_>,
    standing: &MdsStanding,
) -> Result<(), AllocError>
    ensures { OnOk result (text.new.items ≡ text.old.items ++ mds_client_text client.now wanted.now.access wanted.now.path standing.now) }
{
    let names = wanted.path.names(*text.allocator())?;
    print_client_line(text, client, wanted.access, names.as_slice(), standing)?;
    print_client_refused(text, client, standing.refused)
}

fn print_client_line<'x>(
    text: &mut Vec<u8>,
    client: &'x [u8],
    access: Access,
    path: &'x [&'x [u8]],
    standing: &MdsStanding,
) -> Result<(), AllocError>
    ensures { OnOk result (text.new.items ≡ text.old.items ++ mds_client_line client.now access (map (λ name. name.now) path.now) standing.now) }
{
    let verdict = &standing.verdict;
    let pieces = [
        Text::Quoted(client),
        Text::Word(front(verdict, standing.by_inode)),
        Text::Access(MdsAccess::One(access)),
        Text::Word(" "),
        Text::Path(path),
    ];
    print_texts(text, &pieces)?;
    print_mds_reason(text, verdict)?;
    print_str(text, "\n")
}

// What stands before the access.
fn front(verdict: &Verdict, by_inode: bool) -> &'static str
    ensures { result.now ≡ mds_front verdict.now by_inode }
{
    match (verdict, by_inode) {
        (Verdict::Allowed { .. }, false) => ": allowed ",
        (Verdict::Allowed { .. }, true) => ": depends on owner, group and mode: ",
        (Verdict::DependsOnAddress { .. }, false) => ": depends on the address: ",
        (Verdict::DependsOnAddress { .. }, true) =>
            ": depends on owner, group, mode and the address: ",
        (Verdict::CannotMount | Verdict::Denied { .. }, _) => ": denied ",
    }
}

fn print_client_refused(
    text: &mut Vec<u8>,
    client: &[u8],
    refused: Option<usize>,
) -> Result<(), AllocError>
    ensures { OnOk result (text.new.items ≡ text.old.items ++ refused_client client.now refused) }
{
    match refused {
        Some(_) => {
            print_quoted(text, client)?;
            print_str(text, ": ")?;
            print_refused(text, refused)
        }
        None => Ok(()),
    }
}

/// Appends the line for a client whose grants the release does not read: up to which byte it does. `AllocError` where no memory is left for it;
/// some of it may stand in the text then.
pub fn print_mds_unread(
    text: &mut Vec<u8>,
    client: &[u8],
    release: Release,
    at: usize,
) -> Result<(), AllocError>
    ensures { OnOk result (text.new.items ≡ text.old.items ++ mds_unread_line client.now release at) }
{
    let pieces = [
        Text::Quoted(client),
        Text::Word(": grants: not read by Ceph "),
        Text::Word(release.version()),
        Text::Word(" at "),
        Text::Number(at as u64),
        Text::Word("\n"),
    ];
    print_texts(text, &pieces)
}

/// Appends the object that says the same of a client, and what was asked of which release. It is a line, with its line feed. `AllocError` where no
/// memory is left for it; some of it may stand in the text then.
pub fn print_mds_standing_object(
    lines: &mut Vec<u8>,
    client: &[u8],
    wanted: &MdsWanted<'_>,
    standing: &MdsStanding,
) -> Result<(), AllocError>
    ensures line { OnOk result (lines.new.items ≡ lines.old.items ++ mds_standing_object client.now wanted.now standing.now) }
    ensures reads { OnOk result (ReadsBack (mds_standing_value client.now wanted.now standing.now)) }
{
    let verdict = &standing.verdict;
    let table = [
        ("mds", Piece::Word(wanted.release.version())),
        ("verdict", Piece::Word(word(verdict, standing.by_inode))),
        ("grant", grant_piece(verdict)),
        ("rules", failures_piece(verdict)),
        ("refused_by_client", count_if(standing.refused)),
    ];
    print_wanted(lines, client, wanted, &table)
}

/// Appends the object of a client whose grants the release does not read. It is a line, with its line feed. `AllocError` where no memory is left for
/// it; some of it may stand in the text then.
pub fn print_mds_unread_object(
    lines: &mut Vec<u8>,
    client: &[u8],
    wanted: &MdsWanted<'_>,
    at: usize,
) -> Result<(), AllocError>
    ensures line { OnOk result (lines.new.items ≡ lines.old.items ++ mds_unread_object client.now wanted.now at) }
    ensures reads { OnOk result (ReadsBack (mds_unread_value client.now wanted.now at)) }
{
    let table = [
        ("mds", Piece::Word(wanted.release.version())),
        ("verdict", Piece::Word("unread")),
        ("at", Piece::Number(at as u64)),
    ];
    print_wanted(lines, client, wanted, &table)
}

// Appends the object with the client, what is asked of it, and these members, as a line.
fn print_wanted(
    lines: &mut Vec<u8>,
    client: &[u8],
    wanted: &MdsWanted<'_>,
    table: &[(&str, Piece<'_>)],
) -> Result<(), AllocError>
    ensures line { OnOk result (lines.new.items
        ≡ lines.old.items ++ json_line (client_value client.now (wanted_of wanted.now) wanted.now.known (table_of table.now))) }
    ensures reads { OnOk result (ReadsBack (client_value client.now (wanted_of wanted.now) wanted.now.known (table_of table.now))) }
{
    let names = wanted.path.names(*lines.allocator())?;
    let asked = wanted_of(wanted, names.as_slice());
    print_asked(lines, client, &asked, wanted.known, table)
}

// What is asked, by the names of the path.
fn wanted_of<'a>(wanted: &'a MdsWanted<'_>, path: &'a [&'a [u8]]) -> Wanted<'a>
    requires { map (λ name. name.now) path.now ≡ wanted.now.path }
    ensures { result ≡ wanted_of wanted.now }
{
    Wanted {
        fs: wanted.fs,
        path,
        access: wanted.access,
    }
}

fn word(verdict: &Verdict, by_inode: bool) -> &'static str
    ensures { result.now ≡ mds_standing_word verdict.now by_inode }
{
    match (verdict, by_inode) {
        (Verdict::Allowed { .. }, false) => "allowed",
        (Verdict::Allowed { .. }, true) => "depends",
        (Verdict::DependsOnAddress { .. }, false) => "depends-on-address",
        (Verdict::DependsOnAddress { .. }, true) => "depends-on-inode-and-address",
        (Verdict::CannotMount, _) => "cannot-mount",
        (Verdict::Denied { .. }, _) => "denied",
    }
}
