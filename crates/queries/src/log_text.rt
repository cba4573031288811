//! The lines that tell of a log.
ghost use Rattle.std.specs.Prelude.{◌≡◌, ◌++◌, ◌+◌, ◌<◌, ◌^◌, [], ◌∷◌, List, length, map, option_map, IfOk, OnOk};
ghost use Rattle.std.specs.List.{list_all};
ghost use Rattle.queries.specs.Before.{before_texts_of, given_texts_of};
ghost use Rattle.queries.specs.Checks.{head_in, texts_of};
ghost use Rattle.queries.specs.LogPieces.{TellsLines};
ghost use Rattle.queries.specs.Told.{Told as ATold};
ghost use Rattle.queries.specs.Told.{is_judgement, passed_in};
ghost use Rattle.queries.specs.Reported.{IsReported, Item, Says, SaysBehind, TellsFault, answer_to, of_line, scope_of, state_of, text_of};

use crate::before::{Before, Given, given_for, is_before, said_before};
use crate::check::{Check, check_in, read_check, read_head};
use crate::fault::QuestionFault;
use crate::line_counts::LineCounts;
use crate::log_by::print_by_release;
use crate::log_scope::{LogLine, LogScope};
use crate::mask::{accesses, read_mask};
use crate::question::Question;
use crate::told::{Told, print_told};
use crate::values::{fill, no_values};
use capbits::print;
use capgrant::Access;
use std::alloc::{AllocError, Global};
use texts::{MdsAccess, Piece, Shape, print_pieces, split_line};

// Where the telling of a log is.
struct LogState {
    // The number of the next line.
    number: u64,
    // How many lines were passed over.
    passed: u64,
    // Whether each check was judged.
    is_judged: bool,
    // The last line that says something of the next check, or none.
    before: Vec<u8>,
}

// By hand, so that whoever lets one go has one call to prove.
impl Drop for LogState {
    fn drop(self) {
        let LogState {
            number: _,
            passed: _,
            is_judged: _,
            before: _,
        } = self;
    }
}

/// Tells of each check of policy in a log what its grants say to what it asks: for each access that its mask asks for what
/// `capd explain --more` answers, behind the number of the line in the log; or why the check can't be judged. The log comes in pieces, and a
/// line is told of once it has ended.
pub struct LogTeller {
    state: LogState,
    // How often each line was told, where they are counted.
    counts: LineCounts,
    // The line that has not ended yet.
    unfinished: Vec<u8>,
}

// By hand, so that whoever lets one go has one call to prove.
impl Drop for LogTeller {
    fn drop(self) {
        let LogTeller {
            state: _,
            counts: _,
            unfinished: _,
        } = self;
    }
}

impl LogTeller {
    ghost use Rattle.std.specs.Prelude.{◌≡◌, ◌++◌, ◌+◌, ◌<◌, ◌^◌, [], ℕ, List, length, IfOk, OnOk};
    ghost use Rattle.queries.specs.Counts.{counts_of};
    ghost use Rattle.queries.specs.LogPieces.{TellsEnd, TellsPiece, counted_after, teller_of, told_now};
    ghost use Rattle.queries.specs.Reported.{state_of};
    ghost use Rattle.queries.specs.Reported.{Item, scope_of, start, text_of};

    /// Before the first piece.
    pub fn new(alloc: Global) -> LogTeller
        ensures { teller_of result ≡ record { state = start; counted = []; unfinished = [] } }
    {
        LogTeller {
            state: LogState::new(alloc),
            counts: LineCounts::new(alloc),
            unfinished: Vec::new(alloc),
        }
    }

    /// Appends what is told of the lines that end in this piece. Only memory can be missing.
    pub fn take(
        &mut self,
        reported: &mut Vec<u8>,
        scope: LogScope<'_>,
        piece: &[u8],
    ) -> Result<(), AllocError>
        requires room { (teller_of self.old).state.number + length (teller_of self.old).unfinished + length piece.now < 2 ^ 64 }
        requires few { (teller_of self.old).state.passed < (teller_of self.old).state.number }
        ensures { OnOk result ((items : List Item) × (reported.new.items ≡ reported.old.items ++ told_now (scope_of scope.entry) (text_of (scope_of scope.entry) items))
            × TellsPiece (scope_of scope.entry) (teller_of self.old) piece.now items (teller_of self.new)) }
    {
        let alloc = *reported.allocator();
        self.unfinished.extend_from_slice(piece)?;
        let mut told = Vec::new(alloc);
        let text = self.unfinished.as_slice();
        let rest = print_lines(&mut told, &mut self.state, scope, text)?;
        let unfinished = Vec::from_slice(alloc, rest)?;
        self.unfinished = unfinished;
        self.hand_on(reported, scope, told.as_slice())
    }

    /// Appends what is told of the last line, and how many lines are no checks; and answers whether each check of the log was judged.
    pub fn finish(
        &mut self,
        reported: &mut Vec<u8>,
        scope: LogScope<'_>,
    ) -> Result<bool, AllocError>
        requires room { (teller_of self.old).state.number < 2 ^ 63 }
        requires few { (teller_of self.old).state.passed < (teller_of self.old).state.number }
        ensures { IfOk result (λ judged. (more : List ℕ) × (reported.new.items ≡ reported.old.items ++ more)
            × TellsEnd (scope_of scope.entry) (teller_of self.old) more judged) }
    {
        let mut told = Vec::new(*reported.allocator());
        let last = self.unfinished.as_slice();
        print_line(&mut told, &mut self.state, scope, last)?;
        self.hand_on(reported, scope, told.as_slice())?;
        self.counts.print(reported, scope.shape)?;
        print_passed(reported, scope.shape, self.state.passed)?;
        Ok(self.state.is_judged)
    }

    // Appends what is told, or counts it.
    fn hand_on(
        &mut self,
        reported: &mut Vec<u8>,
        scope: LogScope<'_>,
        told: &[u8],
    ) -> Result<(), AllocError>
        ensures state { state_of self.new.state ≡ state_of self.old.state }
        ensures unfinished { self.new.unfinished.items ≡ self.old.unfinished.items }
        ensures counted { OnOk result (counts_of self.new.counts ≡ counted_after (scope_of scope.entry) (counts_of self.old.counts) told.now) }
        ensures told { OnOk result (reported.new.items ≡ reported.old.items ++ told_now (scope_of scope.entry) told.now) }
    {
        if scope.counts {
            return self.counts.note_all(told);
        }
        reported.extend_from_slice(told)
    }
}

impl LogState {
    ghost use Rattle.std.specs.Prelude.{◌≡◌, ◌+◌, ◌<◌, ◌^◌, OnOk};
    ghost use Rattle.queries.specs.Reported.{behind_check, behind_other, keeping, start, state_of};

    // Before the first line.
    fn new(alloc: Global) -> LogState
        ensures { state_of result ≡ start }
    {
        LogState {
            number: 1,
            passed: 0,
            is_judged: true,
            before: Vec::new(alloc),
        }
    }

    // Behind a line that is no check.
    fn pass_over(&mut self, line: &[u8])
        requires room { self.old.number + 1 < 2 ^ 64 }
        requires few { self.old.passed < self.old.number }
        ensures { state_of self.new ≡ behind_other (state_of self.old) line.now }
    {
        self.number += 1;
        if !line.is_empty() {
            self.passed += 1;
        }
    }

    // Behind a line that says something of the next check, which keeps it.
    fn keep(&mut self, line: &[u8]) -> Result<(), AllocError>
        requires room { self.old.number + 1 < 2 ^ 64 }
        requires few { self.old.passed < self.old.number }
        ensures { OnOk result (state_of self.new ≡ keeping (behind_other (state_of self.old) line.now) line.now) }
    {
        self.pass_over(line);
        self.before.clear();
        self.before.extend_from_slice(line)?;
        Ok(())
    }

    // Behind a check, which was judged, or was not.
    fn pass_check(&mut self, is_judged: bool)
        requires { self.old.number + 1 < 2 ^ 64 }
        ensures { state_of self.new ≡ behind_check (state_of self.old) is_judged }
    {
        self.number += 1;
        self.is_judged &= is_judged;
        self.before.clear();
    }
}

// How many lines are no checks.
fn print_passed(reported: &mut Vec<u8>, shape: Shape, passed: u64) -> Result<(), AllocError>
    ensures { OnOk result (reported.new.items ≡ reported.old.items ++ passed_in shape passed) }
{
    match shape {
        Shape::Lines => print(
            reported,
            format_args!("lines that are no check of policy: {passed}\n"),
        ),
        Shape::Objects => print_pieces(reported, &[("passed_over", Piece::Number(passed))]),
    }
}

// Appends what is told of the lines that end in the text, and answers what is left behind them.
fn print_lines<'a>(
    reported: &mut Vec<u8>,
    state: &mut LogState,
    scope: LogScope<'_>,
    text: &'a [u8],
) -> Result<&'a [u8], AllocError>
    requires room { state.old.number + length text.now < 2 ^ 64 }
    requires few { state.old.passed < state.old.number }
    ensures { IfOk result (λ rest. (items : List Item) × (reported.new.items ≡ reported.old.items ++ text_of (scope_of scope.entry) items)
        × TellsLines (scope_of scope.entry) (state_of state.old) text.now rest.now items (state_of state.new)) }
{
    let mut rest = text;
    while let Some((line, behind)) = split_line(rest) {
        print_line(reported, state, scope, line)?;
        rest = behind;
    }
    Ok(rest)
}

// Appends what is told of a line.
fn print_line(
    reported: &mut Vec<u8>,
    state: &mut LogState,
    scope: LogScope<'_>,
    line: &[u8],
) -> Result<(), AllocError>
    requires room { state.old.number + 1 < 2 ^ 64 }
    requires few { state.old.passed < state.old.number }
    ensures { OnOk result ((items : List Item) × (reported.new.items ≡ reported.old.items ++ text_of (scope_of scope.entry) items)
        × IsReported (scope_of scope.entry) (state_of state.old) line.now items (state_of state.new)) }
{
    if is_before(line) {
        state.keep(line)?;
        return Ok(());
    }
    let Some((front, text)) = check_in(line) else {
        state.pass_over(line);
        return Ok(());
    };
    let before = said_before(state.before.as_slice());
    let here = LogLine {
        scope,
        number: state.number,
    };
    let is_judged = print_between(reported, here, before, front, text)?;
    state.pass_check(is_judged);
    Ok(())
}

// Appends what is told of a check that has its name between these, and answers whether it was judged.
fn print_between(
    reported: &mut Vec<u8>,
    line: LogLine<'_>,
    before: Option<Before<'_>>,
    front: &[u8],
    text: &[u8],
) -> Result<bool, AllocError>
    ensures { IfOk result (λ judged. (told : List ATold)
        × (reported.new.items ≡ reported.old.items ++ text_of (scope_of line.entry.scope) (of_line line.entry.number told))
        × SaysBehind (scope_of line.entry.scope) (option_map before_texts_of before.entry) (head_in (front.now, text.now)) told
        × (judged ≡ list_all is_judgement told)) }
{
    let Some(head) = read_head(front, text) else {
        return print_told(reported, line, Told::Formless);
    };
    let Some(check) = read_check(head.parts) else {
        return print_told(reported, line, Told::Formless);
    };
    let given = given_for(line.scope.fs, head.fs, before, &check);
    match line.scope.release {
        Some(release) => print_by_release(reported, line, release, &given, &check),
        None => print_check(reported, line, &given, &check),
    }
}

// Appends the answers to what a check asks, or why it can't be judged, and answers whether it was.
fn print_check(
    reported: &mut Vec<u8>,
    line: LogLine<'_>,
    given: &Given<'_>,
    check: &Check<'_>,
) -> Result<bool, AllocError>
    ensures { IfOk result (λ judged. (told : List ATold)
        × (reported.new.items ≡ reported.old.items ++ text_of (scope_of line.entry.scope) (of_line line.entry.number told))
        × Says (given_texts_of given.now) (texts_of check.now) told × (judged ≡ list_all is_judgement told)) }
{
    let Some(mask) = read_mask(check) else {
        return print_told(reported, line, Told::Unknown(check.mask));
    };
    let alloc = *reported.allocator();
    let asked = accesses(alloc, mask)?;
    let mut values = no_values(alloc);
    fill(&mut values, given, check)?;
    let question = match Question::read(alloc, &values) {
        Ok(question) => question,
        Err(fault) => return print_fault(reported, line, fault),
    };
    let accesses = asked.as_slice();
    print_answers(
        reported,
        line,
        given.has_path(),
        check.grants,
        question,
        accesses,
    )
}

// The answers to the question, by each of these accesses in the place of its own; and whether each is one, which it may not be where its path
// is not known.
fn print_answers(
    reported: &mut Vec<u8>,
    line: LogLine<'_>,
    has_path: bool,
    grants: &[u8],
    mut question: Question,
    accesses: &[Access],
) -> Result<bool, AllocError>
    ensures printed { OnOk result (reported.new.items ≡ reported.old.items
        ++ text_of (scope_of line.entry.scope) (of_line line.entry.number (map (answer_to has_path grants.now question) accesses.now))) }
    ensures judged { IfOk result (λ judged. judged ≡ list_all is_judgement (map (answer_to has_path grants.now question) accesses.now)) }
{
    let mut is_judged = true;
    for access in accesses {
        question.access = *access;
        let is_judgement = print_answer(reported, line, has_path, grants, &question)?;
        is_judged &= is_judgement;
    }
    Ok(is_judged)
}

fn print_answer(
    reported: &mut Vec<u8>,
    line: LogLine<'_>,
    has_path: bool,
    grants: &[u8],
    question: &Question,
) -> Result<bool, AllocError>
    ensures printed { OnOk result (reported.new.items ≡ reported.old.items
        ++ text_of (scope_of line.entry.scope) (of_line line.entry.number (answer_to has_path grants.now question.now question.now.access ∷ []))) }
    ensures judged { IfOk result (λ judged. judged ≡ is_judgement (answer_to has_path grants.now question.now question.now.access)) }
{
    if has_path {
        return print_told(reported, line, Told::Answered(question, grants));
    }
    let any = question.at_any_path(*reported.allocator())?;
    let access = MdsAccess::One(question.access);
    print_told(
        reported,
        line,
        Told::Pathless(&question.caller, access, any),
    )
}

/// Why the values of a check ask nothing.
pub(crate) fn print_fault(
    reported: &mut Vec<u8>,
    line: LogLine<'_>,
    fault: QuestionFault,
) -> Result<bool, AllocError>
    ensures { IfOk result (λ judged. (told : ATold)
        × (reported.new.items ≡ reported.old.items ++ text_of (scope_of line.entry.scope) (of_line line.entry.number (told ∷ [])))
        × TellsFault fault told × (judged ≡ is_judgement told)) }
{
    match fault {
        QuestionFault::Grants(refused) => print_told(reported, line, Told::Refused(refused)),
        QuestionFault::BadValue(option) => print_told(reported, line, Told::Bad(option)),
        QuestionFault::NoMemory => Err(AllocError),
    }
}
