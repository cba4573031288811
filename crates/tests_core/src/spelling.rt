//! Texts that no command answers: bytes that a text spells, and the line of a client that has no grants.

use crate::asserting::{made, same};
use arrayvec::ArrayVec;
use capgrant::{Access, Rules, Verdict};
use queries::spelled;
use std::alloc::{AllocError, Global};
use texts::explain_line;

/// A text, and the bytes that it spells: a character above 255 stands for its bytes in UTF-8.
const SPELLINGS: &[(&str, &[u8])] = &[
    ("", b""),
    ("a/b", b"a/b"),
    ("\u{e9}\u{ff}", b"\xe9\xff"),
    ("\u{100}", b"\xc4\x80"),
    ("a\u{2019}b", b"a\xe2\x80\x99b"),
    ("\u{1f980}", b"\xf0\x9f\xa6\x80"),
    ("\u{ff}\u{101}\u{80}", b"\xff\xc4\x81\x80"),
];

#[test]
fn texts_spell_bytes(rt: HostRuntime) {
    for (text, wanted) in SPELLINGS {
        let bytes = made(&rt, spelled(rt.alloc(), text), text);
        same(&rt, bytes.as_slice(), *wanted, *text);
    }
}

fn denied_without_grants(alloc: Global) -> Result<Vec<u8>, AllocError> {
    let denied = Verdict::Denied {
        rules: Rules::from(ArrayVec::new()),
    };
    explain_line(alloc, Access::Read, &[], &denied)
}

#[test]
fn a_client_without_grants_is_denied(rt: HostRuntime) {
    let line = made(&rt, denied_without_grants(rt.alloc()), "a line");
    same(
        &rt,
        line.as_slice(),
        b"denied read / no grants",
        "no grants",
    );
}
