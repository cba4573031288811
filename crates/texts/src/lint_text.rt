//! The lines that say what is found of a grant.

ghost use Rattle.std.specs.Prelude.{◌≡◌, ◌++◌, OnOk};
ghost use Rattle.texts.specs.Linting.{finding_lines, odd_line, oddity_text, refused_line, reported_if, stands_line};

use crate::compare_text::{print_found, print_witness};
use crate::line_text::{Text, print_texts};
use capbits::{print, print_numbered, print_str};
use policy_analysis::{Finding, OddGrant, Oddity, Refusal, Releases, Unread};
use std::alloc::AllocError;

const COVERED: &str = ": covered by the others\n";

const NOTHING: &str = ": allows nothing, as no inode has . or .. in its path\n";

const UNREAD: &str = ": not read by Ceph 16, which takes no uid beside fsname or root_squash\n";

const SPACES: &str =
    ": not read by Ceph 16 as it stands, which takes only spaces round the separator before it\n";

const STAR: &str = ": not read by Ceph 16 as it stands, which takes no * for fsname\n";

// The keys of the two items follow.
const ORDER: &str = ": not read by Ceph 16 as it stands, which takes ";

/// Appends a line for each thing that is found of a grant, and nothing where there is none; and one for why Ceph 16 does not read
/// it as it stands in its text. Each ends in a line feed. Only memory can be missing.
pub fn print_finding(
    text: &mut Vec<u8>,
    finding: &Finding<'_>,
    unread: Option<Unread>,
) -> Result<(), AllocError>
    ensures { OnOk result (text.new.items ≡ text.old.items ++ finding_lines finding.now unread) }
{
    let number = finding.grant;
    print_if(text, finding.is_redundant, number, COVERED)?;
    print_if(text, finding.allows_nothing, number, NOTHING)?;
    print_if(text, finding.undoing.is_some(), number, ": ")?;
    print_found(text, "root_squash undone, ", &finding.undoing)?;
    print_if(text, !finding.has_ceph_text, number, UNREAD)?;
    print_as_it_stands(text, number, unread)
}

// Appends this of the grant, where the test is passed.
fn print_if(text: &mut Vec<u8>, test: bool, grant: u32, more: &str) -> Result<(), AllocError>
    ensures { OnOk result (text.new.items ≡ text.old.items ++ reported_if test grant more.now) }
{
    if test {
        print_numbered(text, "grant ", grant as u64)?;
        print_str(text, more)?;
    }
    Ok(())
}

// Appends why Ceph 16 does not read the grant as it stands, where there is a reason.
fn print_as_it_stands(
    text: &mut Vec<u8>,
    grant: u32,
    unread: Option<Unread>,
) -> Result<(), AllocError>
    ensures { OnOk result (text.new.items ≡ text.old.items ++ stands_line grant unread) }
{
    match unread {
        None => Ok(()),
        Some(Unread::WhiteSpace) => print_if(text, true, grant, SPACES),
        Some(Unread::AnyFileSystem) => print_if(text, true, grant, STAR),
        Some(Unread::Order { first, second }) => {
            let (first, second) = (first.name(), second.name());
            print_if(text, true, grant, ORDER)?;
            print(text, format_args!("{first} before {second}\n"))
        }
    }
}

/// Appends the line that says what is odd in a grant, by the rules of these releases. It ends in a line feed. Only memory can be missing.
pub fn print_odd(text: &mut Vec<u8>, releases: Releases, odd: OddGrant) -> Result<(), AllocError>
    ensures { OnOk result (text.new.items ≡ text.old.items ++ odd_line odd.grant releases odd.oddity) }
{
    let pieces = [
        Text::Word("grant "),
        Text::Number(odd.grant as u64),
        Text::Word(": "),
        Text::Word(releases.text()),
        Text::Word(words(odd.oddity)),
    ];
    print_texts(text, &pieces)
}

fn words(oddity: Oddity) -> &'static str
    ensures { result.now ≡ oddity_text oddity }
{
    match oddity {
        Oddity::ZeroUid => ": uid=0 is no uid, so it is for every user\n",
        Oddity::GidsAlone => ": gids mean nothing without a uid, so it is for every user\n",
        Oddity::CommandsMds => ": commands every MDS, whatever its fsname\n",
        Oddity::NoNetwork => ": network without an address and a length, so it is for nobody\n",
        Oddity::TwoSlashes => ": two slashes side by side in its path, so it is for nothing\n",
        Oddity::LargeUid => ": large uid, which no caller has, so it is for nobody\n",
    }
}

/// Appends the line that says what the grant of this number allows and clients refuse. It ends in a line feed. Only memory can be missing.
pub fn print_refusal(
    text: &mut Vec<u8>,
    grant: usize,
    refusal: &Refusal<'_>,
) -> Result<(), AllocError>
    ensures { OnOk result (text.new.items ≡ text.old.items ++ refused_line grant refusal.now.releases refusal.now.witness) }
{
    let pieces = [
        Text::Word("grant "),
        Text::Number(grant as u64),
        Text::Word(": "),
        Text::Word(refusal.releases.text()),
        Text::Word(": refused by clients, "),
    ];
    print_texts(text, &pieces)?;
    print_witness(text, &refusal.witness)?;
    print_str(text, "\n")
}
