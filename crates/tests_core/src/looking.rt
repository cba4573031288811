//! The rows of the history of a core that was asked.

use crate::asserting::made;
use crate::values::text_of;
use capcore::Core;
use capexplain::audit_line;
use capstep::Row;
use std::alloc::Global;
use std::process::Abort;

// What the core promises of it stays here.
fn row(core: &Core, place: usize) -> Option<&Row> {
    core.history().get(place)
}

/// The line of a row, and behind it whose each request was that it ended.
pub fn row_text(rt: &impl Abort, alloc: Global, core: &Core, place: usize) -> String {
    let Some(row) = row(core, place) else {
        return text_of(rt, alloc, b"no row");
    };
    let line = made(rt, audit_line(alloc, row), place);
    let mut text = text_of(rt, alloc, line.as_slice());
    for ended in row.ended.as_slice() {
        let client = ended.client;
        let more = made(rt, format!(in alloc; "; of {client}"), place);
        made(rt, text.push_str(more.as_str()), place);
    }
    text
}
