//! What is found of a grant.
ghost use Rattle.std.specs.Prelude.{◌≡◌, [], ◌++◌, All, IfSome, OnOk, true};
ghost use Rattle.texts.specs.Found.{all_found};
ghost use Rattle.texts.specs.Findings.{IsRead, finding_if, finding_objects, finding_table, odd_value, oddity_word, refused_value, stands_object, stands_table};
ghost use Rattle.texts.specs.Findings.{order_table, reason_table, undone_line, undone_value};
ghost use Rattle.texts.specs.Values.{ReadsBack, json_line, object_of};

use crate::compare_object::print_witnessed;
use crate::table::{Piece, print_pieces};
use policy_analysis::{Finding, OddGrant, Oddity, Refusal, Releases, Unread, Witness};
use std::alloc::AllocError;

const AS_IT_STANDS: &str = "unread-as-it-stands";

/// Appends an object for each thing that is found of a grant, and nothing where there is none; and one for why Ceph 16 does not read
/// it as it stands in its text. Each is a line, with its line feed, and who reads it has the object again. Only memory can be missing.
pub fn print_finding_object(
    lines: &mut Vec<u8>,
    finding: &Finding<'_>,
    unread: Option<Unread>,
) -> Result<(), AllocError>
    ensures line { OnOk result (lines.new.items ≡ lines.old.items ++ finding_objects finding.now unread) }
    ensures reads { OnOk result (All IsRead (all_found finding.now unread)) }
{
    let number = finding.grant;
    print_if(lines, finding.is_redundant, "covered", number)?;
    print_if(lines, finding.allows_nothing, "allows-nothing", number)?;
    print_undone(lines, number, &finding.undoing)?;
    print_if(lines, !finding.has_ceph_text, "unread-by-ceph-16", number)?;
    print_as_it_stands(lines, number, unread)
}

// Appends that this is found of the grant, where the test is passed.
fn print_if(lines: &mut Vec<u8>, test: bool, found: &str, grant: u32) -> Result<(), AllocError>
    ensures line { OnOk result (lines.new.items ≡ lines.old.items ++ finding_if test found.now grant) }
    ensures reads { OnOk result (test ≡ true → ReadsBack (object_of (finding_table found.now grant))) }
{
    if !test {
        return Ok(());
    }
    let table = [
        ("finding", Piece::Word(found)),
        ("grant", Piece::Number(u64::from(grant))),
    ];
    print_pieces(lines, &table)
}

// Appends that the root_squash of the grant is undone, if there is a witness.
fn print_undone(
    lines: &mut Vec<u8>,
    grant: u32,
    undoing: &Option<Witness<'_>>,
) -> Result<(), AllocError>
    ensures line { OnOk result (lines.new.items ≡ lines.old.items ++ undone_line grant undoing.now) }
    ensures reads { OnOk result (IfSome undoing.now (λ w. ReadsBack (undone_value grant w))) }
{
    let Some(witness) = undoing else {
        return Ok(());
    };
    let table = [
        ("finding", Piece::Word("root-squash-undone")),
        ("grant", Piece::Number(u64::from(grant))),
    ];
    print_witnessed(lines, &table, "allowed_by", witness)
}

// Appends why Ceph 16 does not read the grant as it stands, where there is a reason.
fn print_as_it_stands(
    lines: &mut Vec<u8>,
    grant: u32,
    unread: Option<Unread>,
) -> Result<(), AllocError>
    ensures line { OnOk result (lines.new.items ≡ lines.old.items ++ stands_object grant unread) }
    ensures reads { OnOk result (IfSome unread (λ why. ReadsBack (object_of (stands_table grant why)))) }
{
    match unread {
        None => Ok(()),
        Some(Unread::WhiteSpace) => print_reason(lines, grant, "white-space"),
        Some(Unread::AnyFileSystem) => print_reason(lines, grant, "any-file-system"),
        Some(Unread::Order { first, second }) => {
            print_order(lines, grant, first.name(), second.name())
        }
    }
}

// Appends that it does not read it for this reason.
fn print_reason(lines: &mut Vec<u8>, grant: u32, reason: &str) -> Result<(), AllocError>
    ensures line { OnOk result (lines.new.items ≡ lines.old.items ++ json_line (object_of (reason_table grant reason.now []))) }
    ensures reads { OnOk result (ReadsBack (object_of (reason_table grant reason.now []))) }
{
    let table = [
        ("finding", Piece::Word(AS_IT_STANDS)),
        ("grant", Piece::Number(u64::from(grant))),
        ("reason", Piece::Word(reason)),
    ];
    print_pieces(lines, &table)
}

// Appends that it does not read it since the item with the first of these keys has to stand before that with the second.
fn print_order<'x>(
    lines: &mut Vec<u8>,
    grant: u32,
    first: &'x str,
    second: &'x str,
) -> Result<(), AllocError>
    ensures line { OnOk result (lines.new.items ≡ lines.old.items ++ json_line (object_of (order_table grant first.now second.now))) }
    ensures reads { OnOk result (ReadsBack (object_of (order_table grant first.now second.now))) }
{
    let table = [
        ("finding", Piece::Word(AS_IT_STANDS)),
        ("grant", Piece::Number(u64::from(grant))),
        ("reason", Piece::Word("order")),
        ("first", Piece::Word(first)),
        ("second", Piece::Word(second)),
    ];
    print_pieces(lines, &table)
}

/// Appends the object that says what is odd in a grant, by the rules of these releases. It is a line, with its line feed, and who reads it has the
/// object again. Only memory can be missing.
pub fn print_odd_object(
    lines: &mut Vec<u8>,
    releases: Releases,
    odd: OddGrant,
) -> Result<(), AllocError>
    ensures line { OnOk result (lines.new.items ≡ lines.old.items ++ json_line (odd_value odd.grant releases odd.oddity)) }
    ensures reads { OnOk result (ReadsBack (odd_value odd.grant releases odd.oddity)) }
{
    let finding = ("finding", Piece::Word(word(odd.oddity)));
    let number = ("grant", Piece::Number(odd.grant as u64));
    let releases = ("releases", Piece::Numbers(releases.numbers()));
    print_pieces(lines, &[finding, number, releases])
}

fn word(oddity: Oddity) -> &'static str
    ensures { result.now ≡ oddity_word oddity }
{
    match oddity {
        Oddity::ZeroUid => "zero-uid",
        Oddity::GidsAlone => "gids-alone",
        Oddity::CommandsMds => "mds-commands",
        Oddity::NoNetwork => "no-network",
        Oddity::TwoSlashes => "two-slashes",
        Oddity::LargeUid => "large-uid",
    }
}

/// Appends the object that says what the grant of this number allows and clients refuse. It is a line, with its line feed, and who reads it has
/// the object again. Only memory can be missing.
pub fn print_refusal_object(
    lines: &mut Vec<u8>,
    grant: usize,
    refusal: &Refusal<'_>,
) -> Result<(), AllocError>
    ensures line { OnOk result (lines.new.items ≡ lines.old.items ++ json_line (refused_value grant refusal.now.releases refusal.now.witness)) }
    ensures reads { OnOk result (ReadsBack (refused_value grant refusal.now.releases refusal.now.witness)) }
{
    let table = [
        ("finding", Piece::Word("refused-by-clients")),
        ("grant", Piece::Number(grant as u64)),
        ("releases", Piece::Numbers(refusal.releases.numbers())),
    ];
    print_witnessed(lines, &table, "refused_by", &refusal.witness)
}
