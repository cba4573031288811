//! The texts of messages.
ghost use Rattle.std.specs.Prelude.{◌≡◌, ◌++◌, codes, decimal, OnOk};
ghost use Rattle.std.specs.List.{flat_map};
ghost use Rattle.capbits.specs.Text.{text_of};
ghost use Rattle.capexplain.specs.Replies.{message_line, message_text, outcome_text};

use crate::reply_text::print_denial;
use crate::value_text::print_values;
use capbits::{CapSet, Ino, Ticket, print, print_caps, print_numbered, print_str};
use capstep::{Message, Outcome};
use std::alloc::AllocError;

// A line for each message.
pub(crate) fn print_messages(text: &mut Vec<u8>, messages: &[Message]) -> Result<(), AllocError>
    ensures { OnOk result (text.new.items ≡ text.old.items ++ flat_map message_line messages.now) }
{
    for message in messages {
        print_line(text, message)?;
    }
    Ok(())
}

// A line of its own, behind two spaces.
fn print_line(text: &mut Vec<u8>, message: &Message) -> Result<(), AllocError>
    ensures { OnOk result (text.new.items ≡ text.old.items ++ message_line message.now) }
{
    print_str(text, "  ")?;
    print_message(text, message)?;
    print_str(text, "\n")
}

fn print_message(text: &mut Vec<u8>, message: &Message) -> Result<(), AllocError>
    ensures { OnOk result (text.new.items ≡ text.old.items ++ message_text message.now) }
{
    match message {
        Message::Ended { ticket, outcome } => {
            print_ticket(text, *ticket)?;
            print_outcome(text, outcome)
        }
        Message::Caps { ino, seq, caps } => print_held(text, *ino, *seq, *caps),
        Message::Size { ino, size } => print_size(text, *ino, *size),
        Message::Recall { ino } => print_numbered(text, "recall ", ino.0),
    }
}

// Which request ended.
pub(crate) fn print_ticket(text: &mut Vec<u8>, ticket: Ticket) -> Result<(), AllocError>
    ensures { OnOk result (text.new.items ≡ text.old.items ++ (codes "ended " ++ decimal ticket.0 ++ codes " ")) }
{
    print_numbered(text, "ended ", ticket.0)?;
    print_str(text, " ")
}

// What a client is to know that it holds on an inode, behind the number of its last change.
fn print_held(text: &mut Vec<u8>, ino: Ino, seq: u64, caps: CapSet) -> Result<(), AllocError>
    ensures { OnOk result (text.new.items ≡ text.old.items ++ (codes "caps " ++ decimal ino.0 ++ codes " " ++ decimal seq ++ codes " " ++ text_of caps)) }
{
    print_numbered(text, "caps ", ino.0)?;
    print_numbered(text, " ", seq)?;
    print_str(text, " ")?;
    print_caps(text, caps)
}

// The size of an inode.
fn print_size(text: &mut Vec<u8>, ino: Ino, size: u64) -> Result<(), AllocError>
    ensures { OnOk result (text.new.items ≡ text.old.items ++ (codes "size " ++ decimal ino.0 ++ codes " " ++ decimal size)) }
{
    print_numbered(text, "size ", ino.0)?;
    print_numbered(text, " ", size)
}

// How a request ended that waited.
pub(crate) fn print_outcome(text: &mut Vec<u8>, outcome: &Outcome) -> Result<(), AllocError>
    ensures { OnOk result (text.new.items ≡ text.old.items ++ outcome_text outcome.now) }
{
    match outcome {
        Outcome::Done => print_str(text, "done"),
        Outcome::Values(values) => {
            print_str(text, "attr ")?;
            print_values(text, values)
        }
        Outcome::Denied { access, rules } => print_denial(text, *access, rules),
        Outcome::Refused(refusal) => print(text, format_args!("refused {refusal}")),
        Outcome::OutOfMemory => print_str(text, "out-of-memory"),
        Outcome::Dropped => print_str(text, "dropped"),
    }
}
