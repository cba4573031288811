//! The texts of sets of caps that are wrong, and where; and what gives its vector back. What sets, numbers and texts belong together is a
//! law of `worked_cases`.

use crate::asserting::same;
use arrayvec::ArrayVec;
use cap_text::{CapText, read_caps};
use capbits::{CapSet, write_caps};
use capgrant::{Rule, Rules};

#[test]
fn a_text_and_a_list_give_their_vectors_back(rt: HostRuntime) {
    let text = write_caps(CapSet::empty()).into_inner();
    same(&rt, text.as_slice(), b"-", "no caps");
    let mut rules = ArrayVec::new();
    rules.push(Rule::Path);
    rules.push(Rule::NoWrite);
    let given = Rules::from(rules).into_inner();
    let wanted: &[Rule] = &[Rule::Path, Rule::NoWrite];
    same(&rt, given.as_slice(), wanted, "two rules");
}

// Texts, and where the fault of each is.
const FAULTS: &[(&str, usize)] = &[
    ("pFcs", 3),
    ("pF", 2),
    ("", 0),
    ("--", 1),
    ("-p", 1),
    ("p-", 1),
    ("pp", 1),
    ("s", 0),
    ("ps", 1),
    ("Asp", 2),
    ("pAc", 2),
    ("pAL", 2),
    ("pFsAs", 3),
    ("pFss", 3),
    ("pFsxcrwbalx", 10),
    ("pfs", 1),
    ("pFs ", 3),
];

#[test]
fn a_fault_is_where_no_spelling_goes_on(rt: HostRuntime) {
    for (text, at) in FAULTS {
        let fault = CapText { at: *at };
        same(&rt, read_caps(text.as_bytes()), Err(fault), *text);
    }
}
