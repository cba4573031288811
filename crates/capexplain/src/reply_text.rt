//! The texts of replies.
ghost use Rattle.std.specs.Prelude.{◌≡◌, ◌++◌, codes, decimal, IfOk, OnOk};
ghost use Rattle.capbits.specs.Text.{text_of};
ghost use Rattle.capexplain.specs.Replies.{denial_text, holder_text, holders_text, reply_line, reply_text, rule_text, rules_text};

use crate::message_text::print_messages;
use crate::value_text::print_values;
use capbits::{CapSet, print, print_caps, print_number, print_numbered, print_str};
use capgrant::{Access, Rule, Rules};
use capstep::Reply;
use captable::Holder;
use std::alloc::{AllocError, Global};

// How many bytes most replies have at the most. A list for one grows but once.
const USUAL_LINE: usize = 64;

/// The text of a reply: a line, with its line feed; behind that of messages one more for each of them.
pub fn reply_lines(alloc: Global, reply: &Reply) -> Result<Vec<u8>, AllocError>
    ensures { IfOk result (λ text. text.items ≡ reply_text reply.now) }
{
    let mut text = Vec::with_capacity(alloc, USUAL_LINE)?;
    print_reply(&mut text, reply)?;
    text.push(b'\n')?;
    if let Reply::Messages(messages) = reply {
        print_messages(&mut text, messages.as_slice())?;
    }
    Ok(text)
}

// The first line, without its line feed.
pub(crate) fn print_reply(text: &mut Vec<u8>, reply: &Reply) -> Result<(), AllocError>
    ensures { OnOk result (text.new.items ≡ text.old.items ++ reply_line reply.now) }
{
    match reply {
        Reply::Done => print_str(text, "done"),
        Reply::Ino(ino) => print_numbered(text, "ino ", ino.0),
        Reply::Opened { seq, caps } => print_opened(text, *seq, *caps),
        Reply::Values(values) => {
            print_str(text, "attr ")?;
            print_values(text, values)
        }
        Reply::Messages(messages) => {
            let count = messages.as_slice().len();
            print_numbered(text, "messages ", count as u64)
        }
        Reply::Recalled(holders) => {
            print_str(text, "recalled")?;
            print_holders(text, holders.as_slice())
        }
        Reply::Waiting(ticket) => print_numbered(text, "waiting ", ticket.0),
        Reply::Denied { access, rules } => print_denial(text, *access, rules),
        Reply::Refused(refusal) => print(text, format_args!("refused {refusal}")),
        Reply::OutOfMemory => print_str(text, "out-of-memory"),
    }
}

// What a client is to know that it holds, behind the number of its last change.
fn print_opened(text: &mut Vec<u8>, seq: u64, caps: CapSet) -> Result<(), AllocError>
    ensures { OnOk result (text.new.items ≡ text.old.items ++ (codes "caps " ++ decimal seq ++ codes " " ++ text_of caps)) }
{
    print_numbered(text, "caps ", seq)?;
    print_str(text, " ")?;
    print_caps(text, caps)
}

// The access that no grant allows, and the rules by which the grants fail.
pub(crate) fn print_denial(
    text: &mut Vec<u8>,
    access: Access,
    rules: &Rules,
) -> Result<(), AllocError>
    ensures { OnOk result (text.new.items ≡ text.old.items ++ denial_text access rules.now) }
{
    print(text, format_args!("denied {access} "))?;
    print_rules(text, rules.as_slice())
}

// The rules by which the grants fail, each behind the number of its grant, from 1.
fn print_rules(text: &mut Vec<u8>, rules: &[Rule]) -> Result<(), AllocError>
    ensures { OnOk result (text.new.items ≡ text.old.items ++ rules_text rules.now) }
{
    if rules.is_empty() {
        print_str(text, "-")?;
    }
    for (place, rule) in rules.iter().enumerate() {
        if place > 0 {
            print_str(text, ",")?;
        }
        print_rule(text, place + 1, *rule)?;
    }
    Ok(())
}

fn print_rule(text: &mut Vec<u8>, grant: usize, rule: Rule) -> Result<(), AllocError>
    ensures { OnOk result (text.new.items ≡ text.old.items ++ rule_text (grant, rule)) }
{
    print_number(text, grant as u64)?;
    print_numbered(text, ":", u64::from(rule.number()))
}

// Each behind a space, in their order; a dash for nobody.
fn print_holders(text: &mut Vec<u8>, holders: &[Holder]) -> Result<(), AllocError>
    ensures { OnOk result (text.new.items ≡ text.old.items ++ holders_text holders.now) }
{
    if holders.is_empty() {
        return print_str(text, " -");
    }
    for holder in holders {
        print_holder(text, *holder)?;
    }
    Ok(())
}

// The client, and the inode that it has an entry on.
fn print_holder(text: &mut Vec<u8>, holder: Holder) -> Result<(), AllocError>
    ensures { OnOk result (text.new.items ≡ text.old.items ++ holder_text holder) }
{
    let Holder { client, ino } = holder;
    print_numbered(text, " ", u64::from(client.0))?;
    print_numbered(text, ":", ino.0)
}
