//! What the MDS of a release says to a check in a log.
ghost use Rattle.std.specs.Prelude.{◌≡◌, ◌++◌, [], ◌∷◌, List, IfOk, OnOk};
ghost use Rattle.std.specs.List.{list_all};
ghost use Rattle.queries.specs.Before.{given_texts_of};
ghost use Rattle.queries.specs.Checks.{texts_of};
ghost use Rattle.queries.specs.Told.{Told as ATold};
ghost use Rattle.queries.specs.Told.{is_judgement};
ghost use Rattle.queries.specs.Reported.{SaysThere, answer_there, asking_all, of_line, scope_of, text_of};

use crate::before::Given;
use crate::check::Check;
use crate::log_scope::LogLine;
use crate::log_text::print_fault;
use crate::mask::{Mask, read_numbers};
use crate::mds::{MdsAsking, MdsFault, mds_grants};
use crate::question::Asking;
use crate::told::{Told, print_told};
use crate::values::{fill, no_values};
use release_grants::Grant;
use release_rules::Release;
use std::alloc::AllocError;
use texts::MdsAccess;

/// Appends what the MDS of a release answers to all that a check asks for, or why it can't be judged, and answers whether it was.
pub(crate) fn print_by_release(
    reported: &mut Vec<u8>,
    line: LogLine<'_>,
    release: Release,
    given: &Given<'_>,
    check: &Check<'_>,
) -> Result<bool, AllocError>
    ensures { IfOk result (λ judged. (told : List ATold)
        × (reported.new.items ≡ reported.old.items ++ text_of (scope_of line.entry.scope) (of_line line.entry.number told))
        × SaysThere release (given_texts_of given.now) (texts_of check.now) told × (judged ≡ list_all is_judgement told)) }
{
    let Some(mask) = read_numbers(check) else {
        return print_told(reported, line, Told::Unknown(check.mask));
    };
    let alloc = *reported.allocator();
    let grants = match mds_grants(alloc, check.grants, release) {
        Ok(grants) => grants,
        Err(MdsFault::NotRead(found)) => {
            return print_told(reported, line, Told::NotRead(found));
        }
        Err(MdsFault::NoMemory) => return Err(AllocError),
    };
    let mut values = no_values(alloc);
    fill(&mut values, given, check)?;
    let asking = match Asking::read(alloc, &values, b"read") {
        Ok(asking) => asking_all(mask, asking),
        Err(fault) => return print_fault(reported, line, fault),
    };
    print_said_by(
        reported,
        line,
        release,
        &asking,
        grants.as_slice(),
        given.has_path(),
    )
}

// What it says by these grants, where the path is known, or is not.
fn print_said_by(
    reported: &mut Vec<u8>,
    line: LogLine<'_>,
    release: Release,
    asking: &MdsAsking,
    grants: &[Grant],
    has_path: bool,
) -> Result<bool, AllocError>
    ensures printed { OnOk result (reported.new.items ≡ reported.old.items
        ++ text_of (scope_of line.entry.scope) (of_line line.entry.number (answer_there has_path release grants.now asking.now ∷ []))) }
    ensures judged { IfOk result (λ judged. judged ≡ is_judgement (answer_there has_path release grants.now asking.now)) }
{
    let answer = asking.judge_by(*reported.allocator(), release, grants)?;
    if has_path {
        return print_told(reported, line, Told::Judged(asking, &answer));
    }
    let any = asking.at_any_path(release, &answer.verdict, grants);
    let told = Told::Pathless(&asking.asking.caller, asking.access, any);
    print_told(reported, line, told)
}

// All that the mask asks for, at once.
fn asking_all(mask: Mask, asking: Asking) -> MdsAsking
    ensures { result ≡ asking_all mask asking }
{
    let Mask { bits, uid, gid } = mask;
    let access = MdsAccess::Mask { bits, uid, gid };
    MdsAsking { access, asking }
}
