//! What an audit finds, as objects of JSON.
ghost use Rattle.std.specs.Prelude.{◌≡◌, ◌++◌, OnOk, map, option_map};
ghost use Rattle.capbits.specs.Sets.{minus};
ghost use Rattle.texts.specs.Pieces.{piece_value};
ghost use Rattle.texts.specs.Values.{bytes_value, or_null};
ghost use Rattle.cluster_audit.specs.Findings.{is_unjudged};
ghost use Rattle.cluster_audit.specs.Objects.{access_value, caps_or_null, conflict_object, denial_value, found_object, group_object, path_value, session_value, unjudged_value, why_value};

use crate::findings::{Denial, Finding, rules_there};
use crate::held::{Held, NamedConflict};
use crate::notes::Detail;
use capbits::CapSet;
use capgrant::Access;
use std::alloc::AllocError;
use texts::{MdsAccess, Piece, Text, print_pieces, print_texts};

// How many members of what is found those of one client and one reason have in common, and how many those of two clients in conflict
// by the same caps.
const SHARED_BY_FINDINGS: usize = 3;

const SHARED_BY_CONFLICTS: usize = 7;

// Appends the object for a client that holds of an inode what nobody behind its key is permitted, or what such objects have in common.
pub(crate) fn print_found<'x>(
    text: &mut Vec<u8>,
    detail: Detail,
    held: &Held<'x>,
    found: &'x Finding,
) -> Result<(), AllocError>
    ensures { OnOk result (text.new.items ≡ text.old.items
        ++ found_object detail held.now.number (map (λ name. name.now) held.now.path.now) held.now.client.now held.now.session held.now.issued held.now.pending found.now
        (is_unjudged held.now.unchecked found.now.caps)) }
{
    let table = [
        ("kind", Piece::Word("held-beyond")),
        ("client", Piece::Bytes(held.client)),
        ("rules", why(found)),
        ("missing", access_if(found.missing)),
        ("inode", Piece::Number(held.number)),
        ("path", Piece::Path(held.path)),
        ("session", Piece::Number(held.session)),
        ("holds", Piece::Caps(held.issued)),
        ("may_not", Piece::Caps(found.caps)),
        ("being_revoked", revoked_if(found.caps, held.pending)),
        ("unjudged_from", unjudged_if(held.is_unjudged(found))),
    ];
    match detail {
        Detail::Each => print_pieces(text, &table),
        Detail::Groups => print_pieces(text, &table[..SHARED_BY_FINDINGS]),
    }
}

// Appends the object for two sessions in conflict, or what such objects have in common.
pub(crate) fn print_conflict_object<'x>(
    text: &mut Vec<u8>,
    detail: Detail,
    named: &NamedConflict<'x>,
) -> Result<(), AllocError>
    ensures { OnOk result (text.new.items ≡ text.old.items ++ conflict_object detail named.now.number (option_map (λ names. map (λ name. name.now) names.now) named.now.path)
        (option_map (λ name. name.now) named.now.one) (option_map (λ name. name.now) named.now.other) named.now.conflict) }
{
    let conflict = &named.conflict;
    let table = [
        ("kind", Piece::Word("conflict")),
        ("client", bytes_if(named.one)),
        (
            "session",
            session_of(detail, conflict.one.client, named.one),
        ),
        ("caps", Piece::Caps(conflict.one.caps)),
        ("other_client", bytes_if(named.other)),
        (
            "other_session",
            session_of(detail, conflict.other.client, named.other),
        ),
        ("other_caps", Piece::Caps(conflict.other.caps)),
        ("inode", Piece::Number(named.number)),
        ("path", path_if(named.path)),
    ];
    match detail {
        Detail::Each => print_pieces(text, &table),
        Detail::Groups => print_pieces(text, &table[..SHARED_BY_CONFLICTS]),
    }
}

// Appends the object for so many of which this is the text of what they have in common.
pub(crate) fn print_group_object(
    text: &mut Vec<u8>,
    count: u64,
    each: &[u8],
) -> Result<(), AllocError>
    ensures { OnOk result (text.new.items ≡ text.old.items ++ group_object count each.now) }
{
    let pieces = [
        Text::Word("{\"count\":"),
        Text::Number(count),
        Text::Word(",\"each\":"),
        Text::Bytes(each),
        Text::Word(",\"kind\":\"group\"}\n"),
    ];
    print_texts(text, &pieces)
}

// By which rules the grants deny the access that is missing. Null where no access permits it.
fn why(found: &Finding) -> Piece<'_>
    ensures { piece_value result ≡ why_value found.now.missing found.now.denial }
{
    match found.missing {
        None => Piece::Null,
        Some(_) => denial_piece(&found.denial),
    }
}

fn denial_piece(denial: &Denial) -> Piece<'_>
    ensures { piece_value result ≡ denial_value denial.now }
{
    match denial {
        Denial::Own(rules) => Piece::Rules(rules.as_slice()),
        Denial::There(standing) => match rules_there(standing) {
            Some(rules) => Piece::MdsRules(rules),
            None => Piece::Word("cannot-mount"),
        },
    }
}

fn access_if(access: Option<Access>) -> Piece<'static>
    ensures { piece_value result ≡ or_null access_value access }
{
    match access {
        None => Piece::Null,
        Some(access) => Piece::Access(MdsAccess::One(access)),
    }
}

// Which of these are being revoked already.
fn revoked_if(caps: CapSet, pending: CapSet) -> Piece<'static>
    ensures { piece_value result ≡ caps_or_null (minus caps pending) }
{
    let revoked = caps.minus(pending);
    if revoked.is_empty() {
        Piece::Null
    } else {
        Piece::Caps(revoked)
    }
}

// The first Ceph of which no MDS judges what is written back, where nobody else does.
fn unjudged_if(unjudged: bool) -> Piece<'static>
    ensures { piece_value result ≡ unjudged_value unjudged }
{
    if unjudged {
        Piece::Number(18)
    } else {
        Piece::Null
    }
}

fn bytes_if(bytes: Option<&[u8]>) -> Piece<'_>
    ensures { piece_value result ≡ or_null bytes_value (option_map (λ bytes. bytes.now) bytes.entry) }
{
    match bytes {
        None => Piece::Null,
        Some(bytes) => Piece::Bytes(bytes),
    }
}

fn path_if<'a>(path: Option<&'a [&'a [u8]]>) -> Piece<'a>
    ensures { piece_value result ≡ or_null path_value (option_map (λ names. map (λ name. name.now) names.now) path.entry) }
{
    match path {
        None => Piece::Null,
        Some(path) => Piece::Path(path),
    }
}

// The number of a session, which stands in a group for a client that tells no name, alone.
fn session_of(detail: Detail, number: u64, name: Option<&[u8]>) -> Piece<'static>
    ensures { piece_value result ≡ session_value detail number (option_map (λ name. name.now) name.entry) }
{
    match (detail, name) {
        (Detail::Groups, Some(_)) => Piece::Null,
        _ => Piece::Number(number),
    }
}
