//! Of which kind is what is told of a check, so that it can be counted: of an answer what is said, to which user and group, where, and by which
//! grant or rules, whatever was asked for; else why the check can't be judged.
ghost use Rattle.std.specs.Prelude.{◌≡◌, ◌++◌, map, OnOk};
ghost use Rattle.texts.specs.Explaining.{path_text};
ghost use Rattle.texts.specs.MdsAnswers.{failures_value, grant_value, mds_word};
ghost use Rattle.texts.specs.Values.{bytes_value, json_line};
ghost use Rattle.queries.specs.Kinds.{any_outcome, any_reason, here_grant, here_line, here_outcome, here_rules, here_value, here_word, kind_in, kind_line, kind_value, pathless_line, said_to, there_line, there_value, who_value};
ghost use Rattle.queries.specs.Told.{told_of};

use crate::any_path::AnyPath;
use crate::mds::{MdsAnswer, MdsAsking};
use crate::question::Question;
use crate::told::{Told, any_grant, any_word};
use capbits::{Caller, print, print_numbered, print_str};
use capgrant::Verdict;
use release_rules::Verdict as MdsVerdict;
use std::alloc::AllocError;
use texts::{
    Piece, Shape, Text, failures_piece, fault_word, grant_piece, mds_outcome, mds_word,
    print_mds_reason, print_pieces, print_quoted_path, print_reason, print_texts,
};

/// Appends it as a line or as an object, with its line feed.
pub(crate) fn print_kind(text: &mut Vec<u8>, shape: Shape, told: Told<'_>) -> Result<(), AllocError>
    ensures { OnOk result (text.new.items ≡ text.old.items ++ kind_in shape (told_of told.entry)) }
{
    match shape {
        Shape::Lines => {
            print_kind_line(text, told)?;
            print_str(text, "\n")
        }
        Shape::Objects => print_kind_object(text, told),
    }
}

fn print_kind_line(text: &mut Vec<u8>, told: Told<'_>) -> Result<(), AllocError>
    ensures { OnOk result (text.new.items ≡ text.old.items ++ kind_line (told_of told.entry)) }
{
    match told {
        Told::Answered(question, _) => print_here(text, question),
        Told::Judged(asking, answer) => print_there(text, asking, answer),
        Told::Pathless(caller, _, any) => print_pathless(text, caller, any),
        Told::Formless => print_str(text, "a check that is not as an MDS writes it"),
        Told::Unknown(mask) => {
            print_texts(text, &[Text::Word("unknown mask "), Text::Quoted(mask)])
        }
        Told::Refused(refused) => print_texts(
            text,
            &[
                Text::Word("grants: "),
                Text::Word(fault_word(refused.kind)),
                Text::Word(" at "),
                Text::Number(refused.at as u64),
            ],
        ),
        Told::Bad(option) => print(text, format_args!("bad value of --{option}")),
        Told::NotRead(found) => print(text, format_args!("grants: {found}")),
    }
}

// What is said, and to whom.
fn print_said_to(text: &mut Vec<u8>, outcome: &str, caller: &Caller) -> Result<(), AllocError>
    ensures { OnOk result (text.new.items ≡ text.old.items ++ said_to outcome.now caller.now) }
{
    print_texts(
        text,
        &[
            Text::Word(outcome),
            Text::Word("uid "),
            Text::Number(u64::from(caller.uid)),
            Text::Word(" gid "),
            Text::Number(u64::from(caller.gid)),
            Text::Word(" "),
        ],
    )
}

// The answer of this server.
fn print_here(text: &mut Vec<u8>, question: &Question) -> Result<(), AllocError>
    ensures { OnOk result (text.new.items ≡ text.old.items ++ here_line question.now) }
{
    let names = question.path.names(*text.allocator())?;
    let verdict = question.judge(names.as_slice());
    print_said_to(text, here_outcome(&verdict), &question.caller)?;
    print_quoted_path(text, names.as_slice())?;
    print_reason(text, &verdict)
}

fn here_outcome(verdict: &Verdict) -> &'static str
    ensures { result.now ≡ here_outcome verdict.now }
{
    match verdict {
        Verdict::Allowed { .. } => "allowed ",
        Verdict::Denied { .. } => "denied ",
    }
}

// That of the MDS of a release.
fn print_there(text: &mut Vec<u8>, asking: &MdsAsking, answer: &MdsAnswer) -> Result<(), AllocError>
    ensures { OnOk result (text.new.items ≡ text.old.items ++ there_line asking.now answer.now) }
{
    let names = asking.asking.path.names(*text.allocator())?;
    print_said_to(text, mds_outcome(&answer.verdict), &asking.asking.caller)?;
    print_quoted_path(text, names.as_slice())?;
    print_mds_reason(text, &answer.verdict)
}

// What is said where no path is known.
fn print_pathless(text: &mut Vec<u8>, caller: &Caller, any: AnyPath) -> Result<(), AllocError>
    ensures { OnOk result (text.new.items ≡ text.old.items ++ pathless_line caller.now any) }
{
    print_said_to(text, any_outcome(any), caller)?;
    print_str(text, "without a path")?;
    print_any_reason(text, any)
}

fn print_any_reason(text: &mut Vec<u8>, any: AnyPath) -> Result<(), AllocError>
    ensures { OnOk result (text.new.items ≡ text.old.items ++ any_reason any) }
{
    match any {
        AnyPath::Anywhere(grant) | AnyPath::OnAddress(grant) | AnyPath::Somewhere(grant) => {
            print_numbered(text, " grant ", grant as u64)
        }
        AnyPath::Nowhere => Ok(()),
    }
}

fn any_outcome(any: AnyPath) -> &'static str
    ensures { result.now ≡ any_outcome any }
{
    match any {
        AnyPath::Anywhere(_) => "allowed ",
        AnyPath::OnAddress(_) => "depends on the address: ",
        AnyPath::Somewhere(_) => "depends on the path: ",
        AnyPath::Nowhere => "denied ",
    }
}

fn print_kind_object(text: &mut Vec<u8>, told: Told<'_>) -> Result<(), AllocError>
    ensures { OnOk result (text.new.items ≡ text.old.items ++ json_line (kind_value (told_of told.entry))) }
{
    match told {
        Told::Answered(question, _) => print_here_object(text, question),
        Told::Judged(asking, answer) => print_there_object(text, asking, answer),
        Told::Pathless(caller, _, any) => print_pieces(
            text,
            &[
                ("uid", Piece::Number(u64::from(caller.uid))),
                ("gid", Piece::Number(u64::from(caller.gid))),
                ("path", Piece::Null),
                ("verdict", Piece::Word(any_word(any))),
                ("grant", any_grant(any)),
                ("rules", Piece::Null),
            ],
        ),
        Told::Formless => print_pieces(text, &[("fault", Piece::Word("form"))]),
        Told::Unknown(mask) => print_pieces(
            text,
            &[("fault", Piece::Word("mask")), ("mask", Piece::Bytes(mask))],
        ),
        Told::Refused(refused) => print_pieces(
            text,
            &[
                ("fault", Piece::Word("grants")),
                ("kind", Piece::Word(fault_word(refused.kind))),
                ("at", Piece::Number(refused.at as u64)),
            ],
        ),
        Told::Bad(option) => print_pieces(
            text,
            &[
                ("fault", Piece::Word("value")),
                ("option", Piece::Word(option.name())),
            ],
        ),
        Told::NotRead(found) => print_pieces(
            text,
            &[
                ("fault", Piece::Word("not-read")),
                ("mds", Piece::Word(found.release.version())),
                ("at", Piece::Number(found.at as u64)),
            ],
        ),
    }
}

fn print_here_object(text: &mut Vec<u8>, question: &Question) -> Result<(), AllocError>
    ensures { OnOk result (text.new.items ≡ text.old.items ++ json_line (here_value question.now)) }
{
    let names = question.path.names(*text.allocator())?;
    let verdict = question.judge(names.as_slice());
    print_verdict(text, &question.caller, names.as_slice(), &verdict)
}

fn print_verdict<'a>(
    text: &mut Vec<u8>,
    caller: &Caller,
    path: &'a [&'a [u8]],
    verdict: &'a Verdict,
) -> Result<(), AllocError>
    ensures { OnOk result (text.new.items ≡ text.old.items
        ++ json_line (who_value caller.now (bytes_value (path_text (map (λ name. name.now) path.now))) (here_word verdict.now) (here_grant verdict.now) (here_rules verdict.now))) }
{
    match verdict {
        Verdict::Allowed { grant } => print_pieces(
            text,
            &[
                ("uid", Piece::Number(u64::from(caller.uid))),
                ("gid", Piece::Number(u64::from(caller.gid))),
                ("path", Piece::Path(path)),
                ("verdict", Piece::Word("allowed")),
                ("grant", Piece::Number(u64::from(*grant))),
                ("rules", Piece::Null),
            ],
        ),
        Verdict::Denied { rules } => print_pieces(
            text,
            &[
                ("uid", Piece::Number(u64::from(caller.uid))),
                ("gid", Piece::Number(u64::from(caller.gid))),
                ("path", Piece::Path(path)),
                ("verdict", Piece::Word("denied")),
                ("grant", Piece::Null),
                ("rules", Piece::Rules(rules.as_slice())),
            ],
        ),
    }
}

fn print_there_object(
    text: &mut Vec<u8>,
    asking: &MdsAsking,
    answer: &MdsAnswer,
) -> Result<(), AllocError>
    ensures { OnOk result (text.new.items ≡ text.old.items ++ json_line (there_value asking.now answer.now)) }
{
    let names = asking.asking.path.names(*text.allocator())?;
    print_mds_verdict(
        text,
        &asking.asking.caller,
        names.as_slice(),
        &answer.verdict,
    )
}

fn print_mds_verdict<'a>(
    text: &mut Vec<u8>,
    caller: &Caller,
    path: &'a [&'a [u8]],
    verdict: &'a MdsVerdict,
) -> Result<(), AllocError>
    ensures { OnOk result (text.new.items ≡ text.old.items
        ++ json_line (who_value caller.now (bytes_value (path_text (map (λ name. name.now) path.now))) (mds_word verdict.now) (grant_value verdict.now) (failures_value verdict.now))) }
{
    print_pieces(
        text,
        &[
            ("uid", Piece::Number(u64::from(caller.uid))),
            ("gid", Piece::Number(u64::from(caller.gid))),
            ("path", Piece::Path(path)),
            ("verdict", Piece::Word(mds_word(verdict))),
            ("grant", grant_piece(verdict)),
            ("rules", failures_piece(verdict)),
        ],
    )
}
