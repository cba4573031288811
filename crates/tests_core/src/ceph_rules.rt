//! Each call of what Ceph makes of caps is made once, and is answered where there is memory. What is answered is a case of `worked_cases`.

use crate::asserting::{made, present, same};
use crate::values::{attr_of, caller_of, cephfs};
use capgrant::Access;
use capspec::TreePath;
use osd_caps::{Right, read_osd_caps};
use release_grants::{Grants, Switches, read_grants};
use release_rules::{Asked, Question, Release, Verdict, client_refuses, mds_verdict};
use std::alloc::Global;
use std::process::Abort;

const GRANTS: &str = "allow rw path=/b, allow r";

fn grants_of(rt: &(impl Abort + AllocGlobal), switches: Switches) -> Grants {
    let read = read_grants(rt.alloc(), GRANTS.as_bytes(), switches);
    match made(rt, read, GRANTS) {
        Ok(grants) => grants,
        Err(unread) => panic!(rt; "read up to {}", unread.at),
    }
}

// Sees that the first grant fails by its path.
fn is_denied(rt: &impl Abort, verdict: &Verdict) {
    let rule = match verdict {
        Verdict::Denied { rules } => rules.as_slice().first().copied(),
        _ => None,
    };
    let rule = present(rt, rule, "a rule");
    same(rt, (rule.number(), rule.word()), (4, "path"), GRANTS);
}

fn answers(rt: &impl Abort, alloc: Global, (path, grants, asked): (&TreePath, &Grants, Asked)) {
    let switches = Release::Tentacle.switches();
    let question = Question {
        fs: &cephfs(rt),
        caller: &caller_of(rt, "10 10"),
        path,
        attr: &attr_of(rt, "10 10 0644"),
        asked,
        address: None,
    };
    let verdict = mds_verdict(alloc, switches, &question, grants.as_slice());
    is_denied(rt, &made(rt, verdict, "a verdict"));
    let refused = client_refuses(switches, &question, grants.as_slice());
    same(rt, refused, Some(2), "a client");
}

#[test]
fn a_release_judges_by_the_grants_that_it_reads(rt: HostRuntime) {
    let path = made(&rt, TreePath::from_text(rt.alloc(), b"/a/x"), "a path");
    let grants = grants_of(&rt, Release::Tentacle.switches());
    for asked in [Asked::of_access(Access::Write), Asked::of_mask(18, 8, 0)] {
        answers(&rt, rt.alloc(), (&path, &grants, asked));
    }
}

#[test]
fn osd_caps_open_what_they_say(rt: HostRuntime) {
    let read = read_osd_caps(rt.alloc(), b"allow r pool=p, allow w");
    let caps = made(&rt, read, "caps");
    let one = caps.opens_object(b"p", b"", &[], b"x", Right::Read);
    let some = caps.opens(b"q", b"", &[], Right::Read);
    same(&rt, (one, some), (true, false), "what may be read");
    same(&rt, caps.grants().len(), 2, "grants");
}
