//! The work that publishes: a pass of a server calls what a script says, and it and another one, which calls nothing, ask what came of each
//! call. What finds no memory is called again; what was made and found none for its publication is published with the next event.

use crate::fault::Fault;
use crate::lines::{Heard, TRIES, Transcript};
use crate::serving::call;
use capbits::{ClientId, Ino};
use capgrant::{Access, Rule, Verdict};
use capserver::{Answer, CapServer, NoGate, Pass};
use capstep::stop::Stop;
use policy_view::{Question, Unknown};
use snapshot::Server;
use std::io::Write;
use std::sync::Wait;

/// Clients and inodes that are asked about have these numbers from 1 on.
const ASKED: u32 = 4;

/// How many questions there are on them: whether each client may read and write each inode.
const QUESTIONS: usize = 32;

/// The line of what a pass is told, before its letters are in it.
const VIEW: &[u8; 38] = b"view ................................\n";

/// The line that is called where an event was made and not published: it changes nothing, and is published with it.
const CATCH_UP: &[u8] = b"poll 1 9";

/// Has the first of the passes call what a line of a script says until it is made and published. What is answered is written, and behind that
/// what each pass is told of all questions.
pub(crate) fn publish<L: Server, T: Wait, W: Write>(
    rt: &T,
    server: &CapServer<NoGate, L>,
    passes: &mut [Pass<L>],
    line: &[u8],
    transcript: &mut Transcript<'_, W>,
) {
    let mut line = line;
    for _ in 0..TRIES {
        let heard = call_first(rt, server, passes, line, transcript);
        see(server, passes, transcript);
        match heard {
            Heard::Answered | Heard::Failed => return,
            Heard::Late => line = CATCH_UP,
            Heard::Starved | Heard::Stopped => (),
        }
    }
    transcript.fail(Fault::InVain);
}

// Has the first of the passes call what a line says.
fn call_first<L: Server, T: Wait, W: Write>(
    rt: &T,
    server: &CapServer<NoGate, L>,
    passes: &mut [Pass<L>],
    line: &[u8],
    transcript: &mut Transcript<'_, W>,
) -> Heard {
    let Some(caller) = passes.first_mut() else {
        return Heard::Failed;
    };
    let Some(event) = transcript.event(line) else {
        return Heard::Failed;
    };
    tell(call(rt, server, caller, event), transcript)
}

// Writes an answer, and behind it that it is not published yet.
fn tell<W: Write>(answer: Result<Answer, Stop>, transcript: &mut Transcript<'_, W>) -> Heard {
    let answer = match answer {
        Ok(answer) => answer,
        Err(stop) => return transcript.tell_stop(stop),
    };
    let heard = transcript.tell(&answer.reply);
    if answer.fresh {
        return heard;
    }
    transcript.write(b"late\n");
    match heard {
        Heard::Answered => Heard::Late,
        heard => heard,
    }
}

// Writes what each pass is told.
fn see<L: Server, W: Write>(
    server: &CapServer<NoGate, L>,
    passes: &mut [Pass<L>],
    transcript: &mut Transcript<'_, W>,
) {
    for pass in passes {
        transcript.write(&view(server, pass));
    }
}

// What a pass is told, a letter for each question.
fn view<L: Server>(server: &CapServer<NoGate, L>, pass: &mut Pass<L>) -> [u8; 38] {
    let mut view = *VIEW;
    for place in 0..QUESTIONS {
        view[5 + place] = letter_of(server.explain(pass, &question_at(place as u32)));
    }
    view
}

// The question at a place: client by client, and for each of them inode by inode.
fn question_at(place: u32) -> Question {
    Question {
        client: ClientId(1 + place / 2 / ASKED),
        ino: Ino(1 + u64::from(place / 2 % ASKED)),
        access: if place % 2 == 0 {
            Access::Read
        } else {
            Access::Write
        },
    }
}

fn letter_of(answer: Result<Verdict, Unknown>) -> u8 {
    match answer {
        Ok(Verdict::Allowed { .. }) => b'a',
        Ok(Verdict::Denied { rules }) => letter_of_rule(rules.as_slice().first()),
        Err(Unknown::NoSession) => b's',
        Err(Unknown::NoIno) => b'i',
        Err(Unknown::Gone) => b'g',
        Err(Unknown::NoView) => b'v',
    }
}

// Of the rule by which the first grant fails, where there is a grant.
fn letter_of_rule(rule: Option<&Rule>) -> u8 {
    match rule {
        None => b'n',
        Some(Rule::Path) => b'p',
        Some(Rule::NoWrite) => b'w',
        Some(Rule::ModeBits) => b'm',
        Some(_) => b'd',
    }
}
