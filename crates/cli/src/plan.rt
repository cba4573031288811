//! What the lines of a script call, and for whom.
ghost use Rattle.std.specs.Prelude.{◌≡◌, ◌==◌, ◌≤◌, ◌⊎◌, [], ◌∷◌, length, vec_len, Some, None, OnOk, OnErr, IfOk, IfErr, Err, IsFalse};
ghost use Rattle.std.specs.List.{position};
ghost use Rattle.texts.specs.ScriptLines.{lines, longest_script};
ghost use Rattle.texts.specs.declared.fault.ScriptFault.TheVariants as stops;
ghost use Rattle.cli.specs.declared.serve_fault.ServeFault.TheVariants as faults;
ghost use Rattle.cli.specs.Jobs.{IsFaultAt, IsFaultBy, StopsAt, Takes, TakesAll, TakesEvent, calls_by, calls_of, first_word, is_known, no_work, sort_of};
ghost use Rattle.cli.specs.Jobs.{with_event, work_of};
ghost use Rattle.cli.specs.Jobs.Sort.{Plain};

use crate::serve_fault::ServeFault;
use capbits::ClientId;
use capexplain::{read_line, split_at_space};
use capstep::Event;
use std::alloc::{AllocError, Global};
use texts::{LineFault, split_line};

/// How many clients may have lines behind the line `threads`: each has a pass of its own, beside that of the lines before.
pub const MAX_CLIENTS: usize = 31;

const THREADS: &[u8] = b"threads";

const RECALL: &[u8] = b"recall";

/// What a client calls.
#[derive(Drop)]
pub struct Job {
    pub client: ClientId,
    /// In the order of its lines.
    pub events: Vec<Event>,
}

/// What a script calls.
#[derive(Drop)]
pub struct Plan {
    /// The events of the lines before the line `threads`, or of all where there is none.
    pub first: Vec<Event>,
    /// Whether there is a line `threads`.
    pub threaded: bool,
    /// What each client calls behind it, the clients in the order of their first lines there.
    pub jobs: Vec<Job>,
}

/// Reads all lines of a script, up to the first that has a fault.
pub fn read_plan(alloc: Global, script: &[u8]) -> Result<Plan, ServeFault>
    requires short { length script.now ≤ longest_script }
    ensures work { IfOk result (λ plan. TakesAll no_work (lines script.now) (work_of plan)) }
    ensures few { IfOk result (λ plan. vec_len plan.jobs ≤ 31) }
    ensures fault { IfErr result (StopsAt no_work 1 (lines script.now)) }
{
    let mut plan = Plan::new(alloc);
    let mut rest = script;
    let mut number = 1;
    while let Some((text, behind)) = split_line(rest) {
        plan.take_line(alloc, number, text)?;
        rest = behind;
        number += 1;
    }
    plan.take_line(alloc, number, rest)?;
    Ok(plan)
}

impl Plan {
    fn new(alloc: Global) -> Plan
        ensures { work_of result ≡ no_work }
    {
        Plan {
            first: Vec::new(alloc),
            threaded: false,
            jobs: Vec::new(alloc),
        }
    }

    // Takes what a line says.
    fn take_line(&mut self, alloc: Global, number: u64, text: &[u8]) -> Result<(), ServeFault>
        requires few { vec_len self.old.jobs ≤ 31 }
        ensures ok { OnOk result (Takes (work_of self.old) text.now (work_of self.new)) }
        ensures few { OnOk result (vec_len self.new.jobs ≤ 31) }
        ensures err { IfErr result (IsFaultAt (work_of self.old) number text.now) }
    {
        let word = first_word(text);
        if word == THREADS && !self.threaded {
            if text != THREADS {
                return Err(ServeFault::of_line(number, LineFault::Count));
            }
            self.threaded = true;
            return Ok(());
        }
        if word == RECALL && self.threaded {
            return Err(ServeFault::of_line(number, LineFault::Command));
        }
        self.take_event(alloc, number, text)
    }

    // Takes the event that a line says. Behind the line `threads` it is one of a client.
    fn take_event(&mut self, alloc: Global, number: u64, text: &[u8]) -> Result<(), ServeFault>
        requires plain { sort_of self.old.threaded text.now ≡ Plain }
        requires few { vec_len self.old.jobs ≤ 31 }
        ensures ok { OnOk result (TakesEvent (work_of self.old) text.now (work_of self.new)) }
        ensures few { OnOk result (vec_len self.new.jobs ≤ 31) }
        ensures err { IfErr result (IsFaultBy Plain (work_of self.old) number text.now) }
    {
        let Some((client, event)) = read_line(alloc, number, text)? else {
            return Ok(());
        };
        if !self.threaded {
            self.first.push(event)?;
            return Ok(());
        }
        // A recall alone is about no client.
        let Some(client) = client else { unreachable!() };
        self.add(alloc, number, client, event)
    }

    // Adds what a client calls behind the line `threads`. It may be one client too many.
    fn add(
        &mut self,
        alloc: Global,
        number: u64,
        client: ClientId,
        event: Event,
    ) -> Result<(), ServeFault>
        requires few { vec_len self.old.jobs ≤ 31 }
        ensures few { OnOk result (vec_len self.new.jobs ≤ 31) }
        ensures ok { OnOk result (work_of self.new ≡ record (work_of self.old) {
          jobs = with_event client event (work_of self.old).jobs;
        }) }
        ensures err { IfErr result (λ fault. (fault ≡ faults.Script stops.NoMemory)
            ⊎ ((fault ≡ faults.Clients number) × IsFalse (is_known client (work_of self.old).jobs) × (vec_len self.old.jobs ≡ 31))) }
    {
        match place_of(self.jobs.as_slice(), client) {
            Some(place) => self.add_event(place, client, event),
            None => self.add_job(alloc, number, client, event),
        }
    }

    // Adds an event to the job of a client, which has this place.
    fn add_event(&mut self, place: usize, client: ClientId, event: Event) -> Result<(), ServeFault>
        requires { position (λ job. job.client.0 == client.0) self.old.jobs.items ≡ Some place }
        ensures many { OnOk result (vec_len self.new.jobs ≡ vec_len self.old.jobs) }
        ensures ok { OnOk result (work_of self.new ≡ record (work_of self.old) {
          jobs = with_event client event (work_of self.old).jobs;
        }) }
        ensures err { OnErr result (result ≡ Err (faults.Script stops.NoMemory)) }
    {
        self.jobs[place].events.push(event)?;
        Ok(())
    }

    // Adds a job for a client that has none.
    fn add_job(
        &mut self,
        alloc: Global,
        number: u64,
        client: ClientId,
        event: Event,
    ) -> Result<(), ServeFault>
        requires few { vec_len self.old.jobs ≤ 31 }
        requires none { position (λ job. job.client.0 == client.0) self.old.jobs.items ≡ None }
        ensures few { OnOk result (vec_len self.new.jobs ≤ 31) }
        ensures ok { OnOk result (work_of self.new ≡ record (work_of self.old) {
          jobs = with_event client event (work_of self.old).jobs;
        }) }
        ensures err { IfErr result (λ fault. (fault ≡ faults.Script stops.NoMemory)
            ⊎ ((fault ≡ faults.Clients number) × IsFalse (is_known client (work_of self.old).jobs) × (vec_len self.old.jobs ≡ 31))) }
    {
        if self.jobs.len() == MAX_CLIENTS {
            return Err(ServeFault::Clients { line: number });
        }
        let job = Job::new(alloc, client, event)?;
        self.jobs.push(job)?;
        Ok(())
    }
}

// The place of a client's job.
fn place_of(jobs: &[Job], client: ClientId) -> Option<usize>
    ensures { result ≡ position (λ job. job.client.0 == client.0) jobs.now }
{
    jobs.iter().position(|job| job.client.0 == client.0)
}

impl Job {
    fn new(alloc: Global, client: ClientId, event: Event) -> Result<Job, AllocError>
        ensures { IfOk result (λ job. calls_of job ≡ calls_by client (event ∷ [])) }
    {
        let mut events = Vec::new(alloc);
        events.push(event)?;
        Ok(Job { client, events })
    }
}

// The word before the first space, or all of a line that has none.
fn first_word(text: &[u8]) -> &[u8]
    ensures { result.now ≡ first_word text.now }
{
    match split_at_space(text) {
        Some((word, _)) => word,
        None => text,
    }
}
