//! Copies. What takes memory for one says so.
ghost use Rattle.std.specs.Prelude.{◌≡◌, false, IfOk};
ghost use Rattle.capstep.specs.Replies.{has_list};

use crate::outcome::{Message, MessageList, Outcome, PartValues};
use crate::reply::Reply;
use arrayvec::ArrayVec;
use capgrant::Rules;
use std::alloc::{AllocError, Global};

/// A copy of the rules.
pub fn copy_of_rules(rules: &Rules) -> Rules
    ensures { result ≡ rules.now }
{
    let Ok(rules) = ArrayVec::try_from(rules.as_slice()) else {
        unreachable!()
    };
    Rules::from(rules)
}

/// A copy of how a request ended. Of its parts only a list of attributes takes memory.
pub fn copy_of_outcome(alloc: Global, outcome: &Outcome) -> Result<Outcome, AllocError>
    ensures { IfOk result (λ copy. copy ≡ outcome.now) }
{
    match outcome {
        Outcome::Done => Ok(Outcome::Done),
        Outcome::Values(PartValues::Auth(attr)) => Ok(Outcome::Values(PartValues::Auth(*attr))),
        Outcome::Values(PartValues::Link) => Ok(Outcome::Values(PartValues::Link)),
        Outcome::Values(PartValues::Xattr(attributes)) => {
            let attributes = attributes.copy(alloc)?;
            Ok(Outcome::Values(PartValues::Xattr(attributes)))
        }
        Outcome::Values(PartValues::File { size, time }) => {
            let (size, time) = (*size, *time);
            Ok(Outcome::Values(PartValues::File { size, time }))
        }
        Outcome::Denied { access, rules } => {
            let (access, rules) = (*access, copy_of_rules(rules));
            Ok(Outcome::Denied { access, rules })
        }
        Outcome::Refused(refusal) => Ok(Outcome::Refused(*refusal)),
        Outcome::OutOfMemory => Ok(Outcome::OutOfMemory),
        Outcome::Dropped => Ok(Outcome::Dropped),
    }
}

/// A copy of the messages, in their order.
pub fn copy_of_messages(alloc: Global, messages: &[Message]) -> Result<MessageList, AllocError>
    ensures { IfOk result (λ copy. copy ≡ messages.now) }
{
    let mut copy = MessageList::new(alloc);
    copy.reserve(messages.len())?;
    for message in messages {
        copy.push(copy_of_message(alloc, message)?)?;
    }
    Ok(copy)
}

// A copy of the message. Of its parts only a list of attributes takes memory.
fn copy_of_message(alloc: Global, message: &Message) -> Result<Message, AllocError>
    ensures { IfOk result (λ copy. copy ≡ message.now) }
{
    match message {
        Message::Ended { ticket, outcome } => {
            let (ticket, outcome) = (*ticket, copy_of_outcome(alloc, outcome)?);
            Ok(Message::Ended { ticket, outcome })
        }
        Message::Caps { ino, seq, caps } => {
            let (ino, seq, caps) = (*ino, *seq, *caps);
            Ok(Message::Caps { ino, seq, caps })
        }
        Message::Size { ino, size } => {
            let (ino, size) = (*ino, *size);
            Ok(Message::Size { ino, size })
        }
        Message::Recall { ino } => Ok(Message::Recall { ino: *ino }),
    }
}

/// A copy of the reply, which takes no memory: it is none of the replies that have a list.
pub fn copy_of_reply(reply: &Reply) -> Reply
    requires { has_list reply.now ≡ false }
    ensures { result ≡ reply.now }
{
    match reply {
        Reply::Done => Reply::Done,
        Reply::Ino(ino) => Reply::Ino(*ino),
        Reply::Opened { seq, caps } => Reply::Opened {
            seq: *seq,
            caps: *caps,
        },
        Reply::Denied { access, rules } => Reply::Denied {
            access: *access,
            rules: copy_of_rules(rules),
        },
        Reply::Values(_) | Reply::Messages(_) | Reply::Recalled(_) => unreachable!(),
        Reply::Waiting(ticket) => Reply::Waiting(*ticket),
        Reply::Refused(refusal) => Reply::Refused(*refusal),
        Reply::OutOfMemory => Reply::OutOfMemory,
    }
}
