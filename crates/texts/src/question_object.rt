//! What is asked.
ghost use Rattle.std.specs.Prelude.{◌≡◌, IfOk, OnOk, map, string_bytes};
ghost use Rattle.serde_json.specs.View.{members_view};
ghost use Rattle.texts.specs.PartTexts.{mode_text};
ghost use Rattle.texts.specs.Answers.{attr_table, caller_table, place_table, with_question};
ghost use Rattle.texts.specs.Values.{with_all};

use crate::mds_asked::MdsAccess;
use crate::table::{Members, Piece, put_all};
use capbits::{Caller, Mode};
use capgrant::{Access, Attr, Question};
use capspec::FsName;
use std::alloc::{AllocError, Global};

/// Adds all that is asked.
pub(crate) fn put_question(
    members: &mut Members,
    alloc: Global,
    question: &Question<'_>,
) -> Result<(), AllocError>
    ensures { OnOk result (members_view members.new.entries ≡ with_question question.now (members_view members.old.entries)) }
{
    put_place(members, alloc, question.access, question.path, question.fs)?;
    put_caller(members, alloc, question.caller)?;
    put_attr(members, alloc, question.attr)
}

/// Adds what is asked for, and where the inode is.
pub(crate) fn put_place<'x>(
    members: &mut Members,
    alloc: Global,
    access: Access,
    path: &'x [&'x [u8]],
    fs: &'x FsName,
) -> Result<(), AllocError>
    ensures { OnOk result (members_view members.new.entries
        ≡ with_all (place_table access (map (λ name. name.now) path.now) fs.now) (members_view members.old.entries)) }
{
    let table = [
        ("access", Piece::Access(MdsAccess::One(access))),
        ("path", Piece::Path(path)),
        ("fs", Piece::Bytes(fs.as_bytes())),
    ];
    put_all(members, alloc, &table)
}

// Adds who asks.
fn put_caller(members: &mut Members, alloc: Global, caller: &Caller) -> Result<(), AllocError>
    ensures { OnOk result (members_view members.new.entries ≡ with_all (caller_table caller.now) (members_view members.old.entries)) }
{
    let table = [
        ("uid", Piece::Number(u64::from(caller.uid))),
        ("gid", Piece::Number(u64::from(caller.gid))),
        ("groups", Piece::Numbers(caller.groups.as_slice())),
    ];
    put_all(members, alloc, &table)
}

/// Adds whose the inode is, and its mode.
pub(crate) fn put_attr(members: &mut Members, alloc: Global, attr: &Attr) -> Result<(), AllocError>
    ensures { OnOk result (members_view members.new.entries ≡ with_all (attr_table attr.now) (members_view members.old.entries)) }
{
    let digits = mode_digits(alloc, attr.mode)?;
    let table = [
        ("owner", Piece::Number(u64::from(attr.uid))),
        ("group", Piece::Number(u64::from(attr.gid))),
        ("mode", Piece::Word(digits.as_str())),
    ];
    put_all(members, alloc, &table)
}

// Four octal digits.
fn mode_digits(alloc: Global, mode: Mode) -> Result<String, AllocError>
    ensures { IfOk result (λ digits. string_bytes digits ≡ mode_text mode) }
{
    let bits = mode.bits();
    let (first, second) = (bits / 512, bits / 64 % 8);
    let (third, last) = (bits / 8 % 8, bits % 8);
    format!(in alloc; "{first}{second}{third}{last}")
}
