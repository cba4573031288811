//! The commands that answer a question about grants.
ghost use Rattle.std.specs.Prelude.{◌≡◌, ◌⊎◌, ◌++◌, List, Some, codes, OnOk, IfOk, IfErr, IsTrue, IsFalse};
ghost use Rattle.std.specs.Io.KnownBytes.{Appends, Keeps};
ghost use Rattle.capspec.specs.Grants.{Reads};
ghost use Rattle.capspec.specs.Written.{written};
ghost use Rattle.capspec.specs.declared.grant.Grant.{Grant};
ghost use Rattle.queries.specs.declared.question.Question.{Question as Asked};
ghost use Rattle.queries.specs.Fault.{IsFaultOfText};
ghost use Rattle.queries.specs.Question.{AsksFor, IsFaultIn};
ghost use Rattle.texts.specs.Watched.{has_ended, has_failed, inner_of};
ghost use Rattle.cli_queries.specs.declared.fault.AnswerFault.TheVariants as faults;
ghost use Rattle.cli_queries.specs.Answers.{AnswersComparing, AnswersExplainArgs, AnswersGrants, AnswersLint, StopsBefore, StopsBy, StopsComparing, StopsExplainArgs};
ghost use Rattle.cli_queries.specs.Answers.{StopsGrants, StopsLint, WritesFound};
ghost use Rattle.cli_queries.specs.ExplainArgs.{AnswersBy, IsAnswered, IsAnsweredBy};
ghost use Rattle.cli_queries.specs.Fault.{form_fault_of};

use crate::explain_args::{ExplainArgs, Form, fill};
use crate::fault::AnswerFault;
use crate::status::{DENIED, DONE, FOUND};
use capspec::{read_grants, write_grants};
use queries::{
    MdsAnswer, MdsAsking, NotRead, Question, Telling, Values, compare, compare_by, lint_by,
    lint_text, mds_grants,
};
use release_grants::{NoForm, mds_form};
use release_rules::Release;
use std::alloc::Global;
use std::io::{Read, Write};
use texts::{Shape, Watched};

/// Answers a question by the text of its grants from where it is, and answers the status. The text is kept in `explain_args`.
pub fn explain<R: Read, W: Write>(
    alloc: Global,
    explain_args: &mut ExplainArgs,
    reader: &mut Watched<R>,
    writer: &mut Watched<W>,
) -> Result<u8, AnswerFault>
    requires reader_clear { IsFalse (has_failed reader.old) }
    requires reader_unended { IsFalse (has_ended reader.old) }
    requires writer_clear { IsFalse (has_failed writer.old) }
    ensures status { IfOk result (λ status. (status ≡ DONE) ⊎ (status ≡ DENIED)) }
    ensures ok { OnOk result (IsFalse (has_failed reader.new) × IsFalse (has_failed writer.new)) }
    ensures answer { IfOk result (λ status. AnswersExplainArgs explain_args.old (R.remaining (inner_of reader.old)) status
        (W.contents (inner_of writer.old)) (W.contents (inner_of writer.new))) }
    ensures err { IfErr result (λ fault. StopsExplainArgs explain_args.old fault (R.remaining (inner_of reader.old))
        (has_failed reader.new) (has_failed writer.new) (W.contents (inner_of writer.old)) (W.contents (inner_of writer.new))) }
{
    fill(
        alloc,
        &explain_args.source,
        &mut explain_args.values.grants,
        reader,
    )?;
    write_by(
        alloc,
        &explain_args.values,
        explain_args.form,
        explain_args.mds,
        writer,
    )
}

// Answers what values ask, by the rules of this server or of a release.
fn write_by<W: Write>(
    alloc: Global,
    values: &Values,
    form: Form,
    mds: Option<Release>,
    writer: &mut Watched<W>,
) -> Result<u8, AnswerFault>
    requires { IsFalse (has_failed writer.old) }
    ensures status { IfOk result (λ status. (status ≡ DONE) ⊎ (status ≡ DENIED)) }
    ensures ok { OnOk result (IsFalse (has_failed writer.new)) }
    ensures answer { IfOk result (λ status. AnswersBy mds form values.now status (W.contents (inner_of writer.old)) (W.contents (inner_of writer.new))) }
    ensures fault { IfErr result (λ fault. StopsBy mds values.now fault (has_failed writer.new)
        (W.contents (inner_of writer.old)) (W.contents (inner_of writer.new))) }
{
    match mds {
        Some(release) => write_mds_answer(alloc, values, form, release, writer),
        None => write_answer(alloc, values, form, writer),
    }
}

// Answers what values ask by the rules of a release.
fn write_mds_answer<W: Write>(
    alloc: Global,
    values: &Values,
    form: Form,
    release: Release,
    writer: &mut Watched<W>,
) -> Result<u8, AnswerFault>
    requires { IsFalse (has_failed writer.old) }
    ensures status { IfOk result (λ status. (status ≡ DONE) ⊎ (status ≡ DENIED)) }
    ensures ok { OnOk result (IsFalse (has_failed writer.new)) }
    ensures answer { IfOk result (λ status. AnswersBy (Some release) form values.now status (W.contents (inner_of writer.old)) (W.contents (inner_of writer.new))) }
    ensures fault { IfErr result (λ fault. StopsBy (Some release) values.now fault (has_failed writer.new)
        (W.contents (inner_of writer.old)) (W.contents (inner_of writer.new))) }
{
    let grants = mds_grants(alloc, values.grants.as_slice(), release)?;
    let asking = MdsAsking::read(alloc, values)?;
    let answer = asking.judge_by(alloc, release, grants.as_slice())?;
    write_failed(alloc, &asking, &answer, form, writer)
}

// Tells what the MDS of a release says by lines, by an object, or by the status alone.
fn write_failed<W: Write>(
    alloc: Global,
    asking: &MdsAsking,
    answer: &MdsAnswer,
    form: Form,
    writer: &mut Watched<W>,
) -> Result<u8, AnswerFault>
    requires { IsFalse (has_failed writer.old) }
    ensures status { IfOk result (λ status. (status ≡ DONE) ⊎ (status ≡ DENIED)) }
    ensures ok { OnOk result (IsFalse (has_failed writer.new)) }
    ensures answer { IfOk result (λ status. IsAnsweredBy form asking.now answer.now status (W.contents (inner_of writer.old)) (W.contents (inner_of writer.new))) }
    ensures err { IfErr result (λ fault. ((fault ≡ faults.WriteFailed) × IsTrue (has_failed writer.new))
        ⊎ ((fault ≡ faults.NoMemory) × Keeps (W.contents (inner_of writer.old)) (W.contents (inner_of writer.new)))) }
{
    match form {
        Form::Line | Form::More => {
            let lines = asking.mds_lines(alloc, answer)?;
            write_text(lines.as_slice(), DONE, writer)
        }
        Form::Object => {
            let object = asking.mds_object(alloc, None, answer)?;
            write_text(object.as_slice(), DONE, writer)
        }
        Form::Status => Ok(if answer.verdict.is_allowed() {
            DONE
        } else {
            DENIED
        }),
    }
}

// Answers a question by a line, by that with more behind it, by an object, or by the status alone.
fn write_answer<W: Write>(
    alloc: Global,
    values: &Values,
    form: Form,
    writer: &mut Watched<W>,
) -> Result<u8, AnswerFault>
    requires { IsFalse (has_failed writer.old) }
    ensures status { IfOk result (λ status. (status ≡ DONE) ⊎ (status ≡ DENIED)) }
    ensures ok { OnOk result (IsFalse (has_failed writer.new)) }
    ensures answer { IfOk result (λ status. (asked : Asked) × AsksFor values.now asked
        × IsAnswered form values.now.grants.items asked status (W.contents (inner_of writer.old)) (W.contents (inner_of writer.new))) }
    // A fault of the values, or want of memory, comes before anything is written.
    ensures fault { IfErr result (λ fault. StopsBefore (IsFaultIn values.now) fault (has_failed writer.new)
        (W.contents (inner_of writer.old)) (W.contents (inner_of writer.new))) }
{
    let question = Question::read(alloc, values)?;
    match form {
        Form::Line => {
            let line = question.answer(alloc)?;
            write_line(line, writer)
        }
        Form::More => {
            let lines = question.remarked_answer(alloc, values.grants.as_slice())?;
            write_text(lines.as_slice(), DONE, writer)
        }
        Form::Object => {
            let object = question.remarked_object(alloc, None, values.grants.as_slice())?;
            write_text(object.as_slice(), DONE, writer)
        }
        Form::Status => {
            let is_allowed = question.is_allowed(alloc)?;
            Ok(if is_allowed { DONE } else { DENIED })
        }
    }
}

/// Writes the grants of a text in their written form, or in one that a release reads, as a line.
pub fn grants<W: Write>(
    alloc: Global,
    text: &[u8],
    mds: Option<Release>,
    writer: &mut Watched<W>,
) -> Result<u8, AnswerFault>
    requires { IsFalse (has_failed writer.old) }
    ensures ok { OnOk result (IsFalse (has_failed writer.new)) }
    ensures status { IfOk result (λ status. status ≡ DONE) }
    ensures form { OnOk result (AnswersGrants mds text.now (W.contents (inner_of writer.old)) (W.contents (inner_of writer.new))) }
    ensures fault { IfErr result (λ fault. StopsGrants mds text.now fault (has_failed writer.new)
        (W.contents (inner_of writer.old)) (W.contents (inner_of writer.new))) }
{
    match mds {
        Some(release) => write_mds_form(alloc, text, release, writer),
        None => write_form(alloc, text, writer),
    }
}

// Writes the grants that a text means in their written form, as a line.
fn write_form<W: Write>(
    alloc: Global,
    text: &[u8],
    writer: &mut Watched<W>,
) -> Result<u8, AnswerFault>
    requires { IsFalse (has_failed writer.old) }
    ensures ok { OnOk result (IsFalse (has_failed writer.new)) }
    ensures status { IfOk result (λ status. status ≡ DONE) }
    ensures form { OnOk result ((grants : List Grant) × Reads text.now grants
        × Appends (W.contents (inner_of writer.old)) (W.contents (inner_of writer.new)) (written grants ++ codes "\n")) }
    ensures fault { IfErr result (λ fault. StopsBefore (IsFaultOfText text.now) fault (has_failed writer.new)
        (W.contents (inner_of writer.old)) (W.contents (inner_of writer.new))) }
{
    let grants = read_grants(alloc, text)?;
    let line = write_grants(alloc, &grants)?;
    write_line(line, writer)
}

// Writes the form of a text that a release reads, as a line.
fn write_mds_form<W: Write>(
    alloc: Global,
    text: &[u8],
    release: Release,
    writer: &mut Watched<W>,
) -> Result<u8, AnswerFault>
    requires { IsFalse (has_failed writer.old) }
    ensures ok { OnOk result (IsFalse (has_failed writer.new)) }
    ensures status { IfOk result (λ status. status ≡ DONE) }
    ensures form { OnOk result (AnswersGrants (Some release) text.now (W.contents (inner_of writer.old)) (W.contents (inner_of writer.new))) }
    ensures fault { IfErr result (λ fault. StopsGrants (Some release) text.now fault (has_failed writer.new)
        (W.contents (inner_of writer.old)) (W.contents (inner_of writer.new))) }
{
    match mds_form(alloc, text, release.switches())? {
        Ok(form) => write_line(form, writer),
        Err(none) => Err(form_fault(release, none)),
    }
}

// Why there is no form.
fn form_fault(release: Release, none: NoForm) -> AnswerFault
    ensures { result ≡ form_fault_of release none }
{
    match none {
        NoForm::NotRead(unread) => AnswerFault::NotRead(NotRead {
            release,
            at: unread.at,
        }),
        NoForm::OfGrant(grant) => AnswerFault::NoForm(release, grant),
    }
}

/// By whose rules two texts of grants are compared.
#[derive(Clone, Copy)]
pub struct ComparedBy<'a> {
    /// The release; this server where there is none.
    pub mds: Option<Release>,
    /// The address that the client comes from, where it is given.
    pub addr: &'a Option<Vec<u8>>,
}

/// Writes what the grants of one text allow and those of another deny, and the other way round, told in this way. By the rules of a release alone
/// there is nothing more to be told.
pub fn compare_texts<W: Write>(
    alloc: Global,
    before: &[u8],
    after: &[u8],
    by: ComparedBy<'_>,
    telling: Telling,
    writer: &mut Watched<W>,
) -> Result<u8, AnswerFault>
    requires { IsFalse (has_failed writer.old) }
    ensures ok { OnOk result (IsFalse (has_failed writer.new)) }
    ensures status { IfOk result (λ status. status ≡ DONE) }
    ensures compared { OnOk result (AnswersComparing by.entry.mds by.entry.addr.now telling before.now after.now (W.contents (inner_of writer.old)) (W.contents (inner_of writer.new))) }
    ensures fault { IfErr result (λ fault. StopsComparing by.entry.mds by.entry.addr.now before.now after.now fault (has_failed writer.new)
        (W.contents (inner_of writer.old)) (W.contents (inner_of writer.new))) }
{
    match by.mds {
        Some(release) => {
            let lines = compare_by(alloc, release, by.addr, before, after, telling.shape())?;
            write_text(lines.as_slice(), DONE, writer)
        }
        None => {
            let lines = compare(alloc, before, after, telling)?;
            write_text(lines.as_slice(), DONE, writer)
        }
    }
}

/// Writes in this shape what is found in the grants of a text, by the rules of a release alone where one is named, and says by the status whether
/// that is anything.
pub fn lint<W: Write>(
    alloc: Global,
    text: &[u8],
    shape: Shape,
    mds: Option<Release>,
    writer: &mut Watched<W>,
) -> Result<u8, AnswerFault>
    requires { IsFalse (has_failed writer.old) }
    ensures status { IfOk result (λ status. (status ≡ DONE) ⊎ (status ≡ FOUND)) }
    ensures ok { OnOk result (IsFalse (has_failed writer.new)) }
    ensures linted { IfOk result (λ status. AnswersLint mds shape text.now status
        (W.contents (inner_of writer.old)) (W.contents (inner_of writer.new))) }
    ensures fault { IfErr result (λ fault. StopsLint mds text.now fault (has_failed writer.new)
        (W.contents (inner_of writer.old)) (W.contents (inner_of writer.new))) }
{
    match mds {
        Some(release) => {
            let lines = lint_by(alloc, text, release, shape)?;
            write_found(lines.as_slice(), shape, writer)
        }
        None => {
            let lines = lint_text(alloc, text, shape)?;
            write_found(lines.as_slice(), shape, writer)
        }
    }
}

// Writes what was found, or that nothing was, and says which by the status.
fn write_found<W: Write>(
    lines: &[u8],
    shape: Shape,
    writer: &mut Watched<W>,
) -> Result<u8, AnswerFault>
    requires { IsFalse (has_failed writer.old) }
    ensures status { IfOk result (λ status. (status ≡ DONE) ⊎ (status ≡ FOUND)) }
    ensures ok { OnOk result (IsFalse (has_failed writer.new)) }
    ensures written { IfOk result (λ status. WritesFound shape lines.now status
        (W.contents (inner_of writer.old)) (W.contents (inner_of writer.new))) }
    ensures err { IfErr result (λ fault. (fault ≡ faults.WriteFailed) × IsTrue (has_failed writer.new)) }
{
    if lines.is_empty() {
        write_text(shape.nothing().as_bytes(), DONE, writer)
    } else {
        write_text(lines, FOUND, writer)
    }
}

// Writes the line and a line feed behind it, or nothing where memory is missing.
fn write_line<W: Write>(mut line: Vec<u8>, writer: &mut Watched<W>) -> Result<u8, AnswerFault>
    requires { IsFalse (has_failed writer.old) }
    ensures status { IfOk result (λ status. status ≡ DONE) }
    ensures ok { OnOk result (IsFalse (has_failed writer.new)
        × Appends (W.contents (inner_of writer.old)) (W.contents (inner_of writer.new)) (line.items ++ codes "\n")) }
    ensures err { IfErr result (λ fault. ((fault ≡ faults.WriteFailed) × IsTrue (has_failed writer.new))
        ⊎ ((fault ≡ faults.NoMemory) × Keeps (W.contents (inner_of writer.old)) (W.contents (inner_of writer.new)))) }
{
    line.push(b'\n')?;
    write_text(line.as_slice(), DONE, writer)
}

/// Writes the text, and answers the status that goes with it.
pub(crate) fn write_text<W: Write>(
    text: &[u8],
    status: u8,
    writer: &mut Watched<W>,
) -> Result<u8, AnswerFault>
    requires { IsFalse (has_failed writer.old) }
    ensures status { IfOk result (λ reported. reported ≡ status) }
    ensures ok { OnOk result (IsFalse (has_failed writer.new)
        × Appends (W.contents (inner_of writer.old)) (W.contents (inner_of writer.new)) text.now) }
    ensures err { IfErr result (λ fault. (fault ≡ faults.WriteFailed) × IsTrue (has_failed writer.new)) }
{
    match writer.write_all(text) {
        Ok(()) => Ok(status),
        Err(_) => Err(AnswerFault::WriteFailed),
    }
}
