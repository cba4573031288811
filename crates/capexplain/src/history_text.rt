//! The texts of the rows of a history.
ghost use Rattle.std.specs.Prelude.{◌≡◌, ◌++◌, IfOk, OnOk};
ghost use Rattle.std.specs.List.{flat_map};
ghost use Rattle.capexplain.specs.Audit.{audit_text, ended_text};

use crate::event_text::print_event;
use crate::message_text::{print_outcome, print_ticket};
use crate::reply_text::print_reply;
use capbits::{print_number, print_numbered, print_str};
use capstep::{Ended, Row};
use std::alloc::{AllocError, Global};

// How many bytes most lines have at the most. A list for one grows but once.
const USUAL_LINE: usize = 80;

/// The line of a row, without a line feed: its pass and its number there, the event, the first line of what was answered, and
/// each request of earlier rows that the step ended, with its number and how it ended. Only memory can be missing.
pub fn audit_line(alloc: Global, row: &Row) -> Result<Vec<u8>, AllocError>
    ensures { IfOk result (λ text. text.items ≡ audit_text row.now) }
{
    let mut text = Vec::with_capacity(alloc, USUAL_LINE)?;
    append_audit_line(&mut text, row)?;
    Ok(text)
}

/// Appends that line to a text. Where memory is missing, the text may have got a part of it.
pub fn append_audit_line(text: &mut Vec<u8>, row: &Row) -> Result<(), AllocError>
    ensures { OnOk result (text.new.items ≡ text.old.items ++ audit_text row.now) }
{
    print_number(text, u64::from(row.pass.0))?;
    print_numbered(text, ".", row.nth)?;
    print_str(text, " ")?;
    print_event(text, &row.event)?;
    print_str(text, " => ")?;
    print_reply(text, &row.reply)?;
    print_ended(text, row.ended.as_slice())
}

// The requests that ended, in the order in which they did.
fn print_ended(text: &mut Vec<u8>, ended: &[Ended]) -> Result<(), AllocError>
    ensures { OnOk result (text.new.items ≡ text.old.items ++ flat_map ended_text ended.now) }
{
    for one in ended {
        print_one(text, one)?;
    }
    Ok(())
}

fn print_one(text: &mut Vec<u8>, ended: &Ended) -> Result<(), AllocError>
    ensures { OnOk result (text.new.items ≡ text.old.items ++ ended_text ended.now) }
{
    print_str(text, "; ")?;
    print_ticket(text, ended.ticket)?;
    print_outcome(text, &ended.outcome)
}
