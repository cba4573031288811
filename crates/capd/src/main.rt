//! `capd` answers questions about the grants of CephFS clients: whether they allow an access, by which grant or why not,
//! and what their written form is. And it runs scripts of what clients do, and prints what a server answers, or what history
//! it makes where they call at once.
#![tactic(auto)]

use cli::dispatch;
use cli_queries::{AnswerFault, report, words};
use std::process::ExitCode;
use texts::Watched;

fn main(rt: HostRuntime) -> ExitCode {
    let (mut reader, mut writer) = (Watched::new(rt.stdin()), Watched::new(rt.stdout()));
    let mut faults = rt.stderr();
    let status = match words(&rt, rt.alloc()) {
        Ok(words) => dispatch(&rt, words.as_slice(), &mut reader, &mut writer, &mut faults),
        Err(_) => report(AnswerFault::NoMemory, &mut faults),
    };
    ExitCode::from(status)
}
