//! The errors of public calls: what each prints, and that `?` hands it on as the error of a program.

use crate::asserting::same;
use crate::values::printed;
use cap_text::CapText;
use capbits::{ChangeError, Refusal, TooManyGroups};
use capspec::{SpecFault, SpecFaultKind};
use capstep::stop::Stop;
use cli::ServeFault;
use osd_caps::{OsdFault, OsdFaultKind};
use policy_view::Unknown;
use sessiontab::NoSession;
use std::alloc::Global;
use std::error::Error;
use std::process::Abort;
use texts::{LineFault, ScriptFault};

// What went wrong, for a program that tells it to people.
fn handed_on<E: Error>(error: E) -> anyhow::Result<()> {
    let failed: Result<(), E> = Err(error);
    failed?;
    Ok(())
}

fn prints<E: Error + Copy>(rt: &impl Abort, alloc: Global, error: E, wanted: &str) {
    let text = printed(rt, alloc, error);
    same(rt, text.as_str(), wanted, wanted);
    match handed_on(error) {
        Ok(()) => panic!(rt; "no error: {wanted}"),
        Err(told) => {
            let text = printed(rt, alloc, told);
            same(rt, text.as_str(), wanted, ("as a program's", wanted));
        }
    }
}

fn print<E: Error + Copy>(rt: &impl Abort, alloc: Global, errors: &[(E, &str)]) {
    for (error, wanted) in errors {
        prints(rt, alloc, *error, wanted);
    }
}

const REFUSALS: &[(Refusal, &str)] = &[
    (Refusal::Blocklisted, "Blocklisted"),
    (Refusal::SessionOpen, "SessionOpen"),
    (Refusal::NoSession, "NoSession"),
    (Refusal::SessionStale, "SessionStale"),
    (Refusal::NotStale, "NotStale"),
    (Refusal::NotBlocked, "NotBlocked"),
    (Refusal::NoIno, "NoIno"),
    (Refusal::Gone, "Gone"),
    (Refusal::Root, "Root"),
    (Refusal::NotDir, "NotDir"),
    (Refusal::IsDir, "IsDir"),
    (Refusal::NoEnt, "NoEnt"),
    (Refusal::NameBad, "NameBad"),
    (Refusal::Exists, "Exists"),
    (Refusal::NotEmpty, "NotEmpty"),
    (Refusal::Loop, "Loop"),
    (Refusal::TooDeep, "TooDeep"),
    (Refusal::NoXattr, "NoXattr"),
    (Refusal::NoEntry, "NoEntry"),
    (Refusal::NotHeld, "NotHeld"),
    (Refusal::NothingToAck, "NothingToAck"),
    (Refusal::BadSeq, "BadSeq"),
    (Refusal::OldSeq { need: 0 }, "OldSeq 0"),
    (
        Refusal::OldSeq { need: u64::MAX },
        "OldSeq 18446744073709551615",
    ),
    (Refusal::Limit, "Limit"),
];

const OF_CHANGES: &[(ChangeError, &str)] = &[
    (ChangeError::Refused(Refusal::NotEmpty), "NotEmpty"),
    (ChangeError::Refused(Refusal::Blocklisted), "Blocklisted"),
    (ChangeError::Refused(Refusal::Limit), "Limit"),
    (ChangeError::NoMemory, "NoMemory"),
];

const UNKNOWN: &[(Unknown, &str)] = &[
    (Unknown::NoSession, "NoSession"),
    (Unknown::NoIno, "NoIno"),
    (Unknown::Gone, "Gone"),
    (Unknown::NoView, "NoView"),
];

const STOPS: &[(Stop, &str)] = &[(Stop::NoMemory, "NoMemory"), (Stop::Full, "Full")];

#[test]
fn errors_of_the_server_print_their_names(rt: HostRuntime) {
    let alloc = rt.alloc();
    print(&rt, alloc, REFUSALS);
    print(&rt, alloc, OF_CHANGES);
    print(&rt, alloc, UNKNOWN);
    print(&rt, alloc, STOPS);
    print(&rt, alloc, &[(NoSession, "NoSession")]);
    print(&rt, alloc, &[(TooManyGroups, "too many groups")]);
}

const GRANTS: SpecFault = SpecFault {
    at: 5,
    kind: SpecFaultKind::BadFlags,
};

const OSD_CAPS: OsdFault = OsdFault {
    at: 7,
    kind: OsdFaultKind::LeftOver,
};

const OF_A_LINE: &[(LineFault, &str)] = &[
    (LineFault::Command, "Command"),
    (LineFault::Count, "Count"),
    (LineFault::Number, "Number"),
    (LineFault::Caps, "Caps"),
    (LineFault::Mode, "Mode"),
    (LineFault::Part, "Part"),
    (LineFault::Change, "Change"),
    (LineFault::Hex, "Hex"),
    (LineFault::Grants(GRANTS), "Grants BadFlags at 5"),
];

const A_LINE: ScriptFault = ScriptFault::LineFault {
    line: 3,
    kind: LineFault::Grants(GRANTS),
};

const OF_A_SCRIPT: &[(ScriptFault, &str)] = &[
    (ScriptFault::ReadFault, "read failed"),
    (ScriptFault::WriteFault, "write failed"),
    (A_LINE, "line 3: Grants BadFlags at 5"),
    (ScriptFault::NoMemory, "no memory"),
];

const OF_A_SERVED_SCRIPT: &[(ServeFault, &str)] = &[
    (ServeFault::Script(A_LINE), "line 3: Grants BadFlags at 5"),
    (ServeFault::Clients { line: 40 }, "line 40: Clients"),
    (ServeFault::HistoryFull, "history full"),
    (ServeFault::NoThread, "no memory"),
];

#[test]
fn faults_of_texts_print_what_is_wrong(rt: HostRuntime) {
    let alloc = rt.alloc();
    print(&rt, alloc, OF_A_LINE);
    print(&rt, alloc, OF_A_SCRIPT);
    print(&rt, alloc, OF_A_SERVED_SCRIPT);
    print(&rt, alloc, &[(GRANTS, "BadFlags at 5")]);
    print(&rt, alloc, &[(OSD_CAPS, "LeftOver at 7")]);
    let caps = CapText { at: 3 };
    let wanted = "no set of capabilities, wrong at 3";
    print(&rt, alloc, &[(caps, wanted)]);
}
