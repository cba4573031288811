//! What is told of a check in a log.
ghost use Rattle.std.specs.Prelude.{◌≡◌, ◌++◌, [], ◌∷◌, IfOk, OnOk, codes};
ghost use Rattle.serde_json.specs.Data.{string};
ghost use Rattle.texts.specs.Pieces.{piece_value};
ghost use Rattle.texts.specs.Quoting.{quoted};
ghost use Rattle.texts.specs.Values.{json_line};
ghost use Rattle.queries.specs.Reported.{item_text, of_line, scope_of, text_of};
ghost use Rattle.queries.specs.Told.{any_grant, any_word, behind, is_judgement, lines_of, object_value, pathless_value, text_in, told_of};

use crate::any_path::{AnyPath, print_any_path};
use crate::kinds::print_kind;
use crate::log_scope::{LogLine, LogScope};
use crate::mds::{MdsAnswer, MdsAsking, NotRead};
use crate::options::Opt;
use crate::question::Question;
use capbits::{Caller, print, print_number};
use capspec::SpecFault;
use release_rules::Verdict;
use std::alloc::{AllocError, Global};
use texts::{MdsAccess, Piece, Shape, fault_word, print_pieces, print_quoted, print_unread};

/// What is told of a check.
#[derive(Clone, Copy)]
pub(crate) enum Told<'a> {
    /// The answer to its question, by the text of its grants.
    Answered(&'a Question, &'a [u8]),
    /// What the MDS of a release says to it.
    Judged(&'a MdsAsking, &'a MdsAnswer),
    /// What is said of either to this caller where no path is known.
    Pathless(&'a Caller, MdsAccess, AnyPath),
    /// It has another form.
    Formless,
    /// Its mask is unknown.
    Unknown(&'a [u8]),
    /// Its grants can't be read.
    Refused(SpecFault),
    /// Another part of it can't.
    Bad(Opt),
    /// The release does not read its grants.
    NotRead(NotRead),
}

impl Told<'_> {
    ghost use Rattle.std.specs.Prelude.{◌≡◌, ◌&&◌, IfOk};
    ghost use Rattle.queries.specs.Told.{allows, is_judgement, told_of};

    // Whether it is left out, where what is allowed may be.
    fn is_left_out(&self, alloc: Global, may_be: bool) -> Result<bool, AllocError>
        ensures { IfOk result (λ left. left ≡ (may_be && allows (told_of self.now))) }
    {
        if !may_be {
            return Ok(false);
        }
        match self {
            Told::Answered(question, _) => question.is_allowed(alloc),
            Told::Judged(_, answer) => Ok(answer.verdict.is_allowed()),
            Told::Pathless(_, _, any) => Ok(any.is_anywhere()),
            _ => Ok(false),
        }
    }

    // Whether it says if something is allowed.
    fn is_judgement(&self) -> bool
        ensures { result ≡ is_judgement (told_of self.now) }
    {
        match self {
            Told::Answered(_, _) => true,
            Told::Judged(_, answer) => !matches!(answer.verdict, Verdict::DependsOnAddress { .. }),
            Told::Pathless(_, _, any) => any.is_sure(),
            _ => false,
        }
    }
}

/// Appends it, unless it is left out, and answers whether it is a judgement.
pub(crate) fn print_told(
    reported: &mut Vec<u8>,
    line: LogLine<'_>,
    told: Told<'_>,
) -> Result<bool, AllocError>
    ensures printed { OnOk result (reported.new.items ≡ reported.old.items
        ++ text_of (scope_of line.entry.scope) (of_line line.entry.number (told_of told.entry ∷ []))) }
    ensures judged { IfOk result (λ judged. judged ≡ is_judgement (told_of told.entry)) }
{
    let is_judgement = told.is_judgement();
    let may_be = line.scope.leaves_out();
    let is_left_out = told.is_left_out(*reported.allocator(), may_be)?;
    if is_left_out {
        return Ok(is_judgement);
    }
    print_by_scope(reported, line, told)?;
    Ok(is_judgement)
}

// With the number of the line, or to be counted.
fn print_by_scope(
    reported: &mut Vec<u8>,
    line: LogLine<'_>,
    told: Told<'_>,
) -> Result<(), AllocError>
    ensures { OnOk result (reported.new.items ≡ reported.old.items ++ item_text (scope_of line.entry.scope) (line.entry.number, told_of told.entry)) }
{
    let LogScope { shape, counts, .. } = line.scope;
    if counts {
        return print_kind(reported, shape, told);
    }
    print_in(reported, shape, line.number, told)
}

fn print_in(
    reported: &mut Vec<u8>,
    shape: Shape,
    number: u64,
    told: Told<'_>,
) -> Result<(), AllocError>
    ensures { OnOk result (reported.new.items ≡ reported.old.items ++ text_in shape number (told_of told.entry)) }
{
    match shape {
        Shape::Lines => print_lines(reported, number, told),
        Shape::Objects => print_object(reported, number, told),
    }
}

// As lines.
fn print_lines(reported: &mut Vec<u8>, number: u64, told: Told<'_>) -> Result<(), AllocError>
    ensures { OnOk result (reported.new.items ≡ reported.old.items ++ lines_of number (told_of told.entry)) }
{
    let alloc = *reported.allocator();
    match told {
        Told::Answered(question, grants) => {
            let lines = question.remarked_answer(alloc, grants)?;
            print_behind(reported, number, lines.as_slice())
        }
        Told::Judged(asking, answer) => {
            let lines = asking.mds_lines(alloc, answer)?;
            print_behind(reported, number, lines.as_slice())
        }
        Told::Pathless(_, access, any) => {
            print(reported, format_args!("{number}: no path in this line: "))?;
            print_any_path(reported, access, any)
        }
        Told::Formless => print(
            reported,
            format_args!("{number}: a check that is not as an MDS writes it\n"),
        ),
        Told::Unknown(mask) => print_unknown(reported, number, mask),
        Told::Refused(refused) => {
            let mut digits = Vec::new(alloc);
            print_number(&mut digits, number)?;
            print_unread(reported, digits.as_slice(), &refused)
        }
        Told::Bad(option) => print(
            reported,
            format_args!("{number}: bad value of --{option}\n"),
        ),
        Told::NotRead(found) => print(reported, format_args!("{number}: grants: {found}\n")),
    }
}

// Appends lines behind the number.
fn print_behind(reported: &mut Vec<u8>, number: u64, lines: &[u8]) -> Result<(), AllocError>
    ensures { OnOk result (reported.new.items ≡ reported.old.items ++ behind number lines.now) }
{
    print(reported, format_args!("{number}: "))?;
    reported.extend_from_slice(lines)
}

// A mask that asks for something else.
fn print_unknown(reported: &mut Vec<u8>, number: u64, mask: &[u8]) -> Result<(), AllocError>
    ensures { OnOk result (reported.new.items ≡ reported.old.items ++ behind number (codes "unknown mask " ++ (quoted mask.now ++ codes "\n"))) }
{
    print(reported, format_args!("{number}: unknown mask "))?;
    print_quoted(reported, mask)?;
    Ok(reported.push(b'\n')?)
}

// As an object.
fn print_object(reported: &mut Vec<u8>, number: u64, told: Told<'_>) -> Result<(), AllocError>
    ensures { OnOk result (reported.new.items ≡ reported.old.items ++ json_line (object_value number (told_of told.entry))) }
{
    let alloc = *reported.allocator();
    let line = ("line", Piece::Number(number));
    match told {
        Told::Answered(question, grants) => {
            let object = question.remarked_object(alloc, Some(number), grants)?;
            reported.extend_from_slice(object.as_slice())
        }
        Told::Judged(asking, answer) => {
            let object = asking.mds_object(alloc, Some(number), answer)?;
            reported.extend_from_slice(object.as_slice())
        }
        Told::Pathless(caller, access, any) => {
            print_pathless(reported, number, caller, access, any)
        }
        Told::Formless => print_pieces(reported, &[line, fault("form")]),
        Told::Unknown(mask) => {
            let mask = ("mask", Piece::Bytes(mask));
            print_pieces(reported, &[line, fault("mask"), mask])
        }
        Told::Refused(refused) => {
            let kind = ("kind", Piece::Word(fault_word(refused.kind)));
            let at = ("at", Piece::Number(refused.at as u64));
            print_pieces(reported, &[line, fault("grants"), kind, at])
        }
        Told::Bad(option) => {
            let option = ("option", Piece::Word(option.name()));
            print_pieces(reported, &[line, fault("value"), option])
        }
        Told::NotRead(found) => {
            let mds = ("mds", Piece::Word(found.release.version()));
            let at = ("at", Piece::Number(found.at as u64));
            print_pieces(reported, &[line, fault("not-read"), mds, at])
        }
    }
}

// Who asks, and what is said at any path.
fn print_pathless(
    reported: &mut Vec<u8>,
    number: u64,
    caller: &Caller,
    access: MdsAccess,
    any: AnyPath,
) -> Result<(), AllocError>
    ensures { OnOk result (reported.new.items ≡ reported.old.items ++ json_line (pathless_value number caller.now access any)) }
{
    print_pieces(
        reported,
        &[
            ("line", Piece::Number(number)),
            ("access", Piece::Access(access)),
            ("path", Piece::Null),
            ("uid", Piece::Number(u64::from(caller.uid))),
            ("gid", Piece::Number(u64::from(caller.gid))),
            ("groups", Piece::Numbers(caller.groups.as_slice())),
            ("verdict", Piece::Word(any_word(any))),
            ("grant", any_grant(any)),
        ],
    )
}

// Why a check can't be judged.
fn fault(word: &'static str) -> (&'static str, Piece<'static>)
    ensures key { result.0.now ≡ codes "fault" }
    ensures value { piece_value result.1 ≡ string word.now }
{
    ("fault", Piece::Word(word))
}

pub(crate) fn any_word(any: AnyPath) -> &'static str
    ensures { result.now ≡ any_word any }
{
    match any {
        AnyPath::Anywhere(_) => "allowed",
        AnyPath::OnAddress(_) => "depends-on-address",
        AnyPath::Somewhere(_) => "depends-on-path",
        AnyPath::Nowhere => "denied",
    }
}

pub(crate) fn any_grant(any: AnyPath) -> Piece<'static>
    ensures { piece_value result ≡ any_grant any }
{
    match any {
        AnyPath::Anywhere(grant) | AnyPath::OnAddress(grant) | AnyPath::Somewhere(grant) => {
            Piece::Number(grant as u64)
        }
        AnyPath::Nowhere => Piece::Null,
    }
}
