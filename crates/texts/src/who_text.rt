//! The line that says of one client whether somebody behind its key may make an access.
ghost use Rattle.std.specs.Prelude.{◌≡◌, ◌++◌, OnOk, map};
ghost use Rattle.texts.specs.Standing.{fault_word, standing_line, standing_others, standing_reason, standing_word, unread_line};

use crate::explain_text::print_failures;
use crate::line_text::{Text, print_texts};
use crate::mds_asked::MdsAccess;
use crate::mds_text::print_others;
use crate::quoting::print_quoted;
use capbits::{print_numbered, print_str};
use capgrant::Access;
use capspec::{SpecFault, SpecFaultKind};
use policy_analysis::Standing;
use release_rules::Others;
use std::alloc::AllocError;

/// Appends the line for a client: whether somebody behind its key may make the access to the inode with these names from the root
/// down, and by which grant or rules. `AllocError` where no memory is left for it; some of it may stand in the text then.
pub fn print_standing<'x>(
    text: &mut Vec<u8>,
    client: &'x [u8],
    access: Access,
    path: &'x [&'x [u8]],
    standing: &Standing,
) -> Result<(), AllocError>
    ensures { OnOk result (text.new.items ≡ text.old.items ++ standing_line client.now access (map (λ name. name.now) path.now) standing.now) }
{
    let pieces = [
        Text::Quoted(client),
        Text::Word(word(standing)),
        Text::Access(MdsAccess::One(access)),
        Text::Word(" "),
        Text::Path(path),
    ];
    print_texts(text, &pieces)?;
    print_by(text, standing)?;
    print_str(text, "\n")
}

/// Appends a line of the client's for each answer by which releases let in somebody behind its key where nobody may, or nobody where somebody
/// may. `AllocError` where no memory is left for it; some of it may stand in the text then.
pub fn print_standing_others(
    text: &mut Vec<u8>,
    client: &[u8],
    others: &Others,
) -> Result<(), AllocError>
    ensures { OnOk result (text.new.items ≡ text.old.items ++ standing_others client.now others.now) }
{
    let mut front = Vec::new(*text.allocator());
    print_quoted(&mut front, client)?;
    print_str(&mut front, ": ")?;
    print_others(text, front.as_slice(), others)
}

// What stands before the access.
fn word(standing: &Standing) -> &'static str
    ensures { result.now ≡ standing_word standing.now }
{
    match standing {
        Standing::Allowed { .. } => ": allowed ",
        Standing::Depends { .. } => ": depends on owner, group and mode: ",
        Standing::Denied { .. } => ": denied ",
    }
}

// Appends by which grant or rules it is so.
fn print_by(text: &mut Vec<u8>, standing: &Standing) -> Result<(), AllocError>
    ensures { OnOk result (text.new.items ≡ text.old.items ++ standing_reason standing.now) }
{
    match standing {
        Standing::Allowed { grant } | Standing::Depends { grant } => {
            print_numbered(text, " grant ", *grant as u64)
        }
        Standing::Denied { rules } => {
            print_str(text, " ")?;
            print_failures(text, rules.as_slice())
        }
    }
}

/// Appends the line for a client whose grants can't be read: what is wrong with them, and how many bytes stand before that.
/// `AllocError` where no memory is left for it; some of it may stand in the text then.
pub fn print_unread(text: &mut Vec<u8>, client: &[u8], fault: &SpecFault) -> Result<(), AllocError>
    ensures { OnOk result (text.new.items ≡ text.old.items ++ unread_line client.now fault.now) }
{
    let pieces = [
        Text::Quoted(client),
        Text::Word(": grants: "),
        Text::Word(fault_word(fault.kind)),
        Text::Word(" at "),
        Text::Number(fault.at as u64),
        Text::Word("\n"),
    ];
    print_texts(text, &pieces)
}

/// The word for what is wrong with a text of grants.
pub fn fault_word(kind: SpecFaultKind) -> &'static str
    ensures { result.now ≡ fault_word kind }
{
    match kind {
        SpecFaultKind::Empty => "Empty",
        SpecFaultKind::NotAllow => "NotAllow",
        SpecFaultKind::BadFlags => "BadFlags",
        SpecFaultKind::BadItem => "BadItem",
        SpecFaultKind::Twice => "Twice",
        SpecFaultKind::BadNumber => "BadNumber",
        SpecFaultKind::OpenQuote => "OpenQuote",
        SpecFaultKind::GidsWithoutUid => "GidsWithoutUid",
        SpecFaultKind::LeftOut => "LeftOut",
        SpecFaultKind::TooMany => "TooMany",
        SpecFaultKind::BadPath => "BadPath",
        SpecFaultKind::NoMemory => "NoMemory",
    }
}
