//! The calls of a plan, each client's by a thread and a pass of its own.
ghost use Rattle.std.specs.Prelude.{◌≡◌, ◌≤◌, ◌+◌, length, map, reverse, vec_len, IfOk, IfErr, IsTrue};
ghost use Rattle.std.specs.List.{sum_by};
ghost use Rattle.capserver.specs.Passes.{AllNew};
ghost use Rattle.cli.specs.Jobs.{event_count, work_of};
ghost use Rattle.cli.specs.Served.{IsMissing};

use crate::plan::{Job, Plan};
use crate::serve_fault::ServeFault;
use capserver::{CapServer, Gate, Pass};
use capstep::Event;
use snapshot::Server;
use std::alloc::{AllocError, Global};
use std::sync::Wait;
use std::thread::{Promise, PromisedHandle, Scope, Threads, scope, scope_env};

// The passes when all calls were made, and whether each event was answered.
pub(crate) struct Called<L: Server> {
    pub passes: Vec<Pass<L>>,
    pub answered: bool,
}

// Calls all events of a plan: the first ones by the first pass, then each client's in a thread of its own. All passes come back, with as
// many calls as there are events, or with fewer where one was not answered. At an error memory was missing for that, or a thread.
pub(crate) fn call_all<L: Server + Send + Sync, G: Gate + Send + Sync, T: Threads + Wait + Sync>(
    rt: &T,
    alloc: Global,
    server: &CapServer<G, L>,
    passes: Vec<Pass<L>>,
    plan: Plan,
) -> Result<Called<L>, ServeFault>
    requires many { vec_len passes ≡ vec_len plan.jobs + 1 }
    requires new { AllNew 0 passes.items }
    ensures many { IfOk result (λ called. vec_len called.passes ≡ vec_len passes) }
    ensures most { IfOk result (λ called. sum_by (λ p. p.calls) called.passes.items ≤ event_count (work_of plan)) }
    ensures all { IfOk result (λ called. IsTrue called.answered → sum_by (λ p. p.calls) called.passes.items ≡ event_count (work_of plan)) }
    ensures err { IfErr result IsMissing }
{
    let Plan {
        first,
        threaded: _,
        jobs,
    } = plan;
    let mut passes = passes;
    let first_pass = passes.remove(0);
    let Back { pass, answered } = call_events(rt, server, first_pass, first);
    if !answered {
        passes.push(pass)?;
        return Ok(Called { passes, answered });
    }
    let tasks = tasks_of(alloc, passes, jobs)?;
    let Called {
        mut passes,
        answered,
    } = call_tasks(rt, alloc, server, tasks)?;
    passes.push(pass)?;
    Ok(Called { passes, answered })
}

// What a thread is to call, by a pass that has called nothing yet.
#[derive(Drop)]
struct Task<L: Server> {
    pass: Pass<L>,
    events: Vec<Event>,
    ghost new: { pass.calls ≡ 0 },
}

impl<L: Server> Task<L> {
    fn new(pass: Pass<L>, events: Vec<Event>) -> Task<L>
        requires { pass.calls ≡ 0 }
        ensures pass { result.pass ≡ pass }
        ensures events { result.events ≡ events }
    {
        Task { pass, events }
    }
}

// A task for each job, with the pass at its place, the last one first.
fn tasks_of<L: Server>(
    alloc: Global,
    passes: Vec<Pass<L>>,
    jobs: Vec<Job>,
) -> Result<Vec<Task<L>>, AllocError>
    requires many { vec_len passes ≡ vec_len jobs }
    requires new { sum_by (λ p. p.calls) passes.items ≡ 0 }
    ensures many { IfOk result (λ tasks. vec_len tasks ≡ vec_len jobs) }
    ensures count { IfOk result (λ tasks. sum_by (λ t. length t.events.items) tasks.items ≡ sum_by (λ j. length j.events.items) jobs.items) }
    // With the passes and the events of the jobs.
    ensures passes { IfOk result (λ tasks. map (λ t. t.pass) tasks.items ≡ reverse passes.items) }
    ensures events { IfOk result (λ tasks. map (λ t. t.events.items) tasks.items ≡ reverse (map (λ j. j.events.items) jobs.items)) }
{
    let (mut passes, mut jobs) = (passes, jobs);
    let mut tasks = Vec::new(alloc);
    while let Some(job) = jobs.pop() {
        let Some(pass) = passes.pop() else {
            unreachable!()
        };
        let Job { client: _, events } = job;
        tasks.push(Task::new(pass, events))?;
    }
    Ok(tasks)
}

// A pass that comes back, and whether all its events were answered.
#[derive(Drop)]
struct Back<L: Server> {
    pass: Pass<L>,
    answered: bool,
}

// Calls the events one after the other, up to the first that is not answered.
fn call_events<L: Server, G: Gate, T: Wait>(
    rt: &T,
    server: &CapServer<G, L>,
    pass: Pass<L>,
    events: Vec<Event>,
) -> Back<L>
    ensures most { result.pass.calls ≤ pass.calls + length events.items }
    ensures all { IsTrue result.answered → result.pass.calls ≡ pass.calls + length events.items }
{
    let mut pass = pass;
    for event in events {
        let Ok(_answer) = server.call(rt, &mut pass, event) else {
            let answered = false;
            return Back { pass, answered };
        };
    }
    let answered = true;
    Back { pass, answered }
}

// What a thread promises: that its pass comes back with so many calls, or fewer where one was not answered.
#[derive(Drop)]
struct CallsBack(usize);

impl<L: Server> Promise<Back<L>> for CallsBack {
    ghost use Rattle.std.specs.Prelude.{◌≡◌, ◌≤◌, IsTrue};

    ghost kept_by = { λ promise back. (back.pass.calls ≤ promise.0) × (IsTrue back.answered → back.pass.calls ≡ promise.0) };
}

// Threads that were started, that of the lowest pass first, and whether all were.
struct Started<L: Server> {
    threads: Vec<PromisedHandle<Back<L>, CallsBack>>,
    all: bool,
}

// Calls the events of each task in a thread of its own, and waits for all.
fn call_tasks<L: Server + Send + Sync, G: Gate + Send + Sync, T: Threads + Wait + Sync>(
    rt: &T,
    alloc: Global,
    server: &CapServer<G, L>,
    tasks: Vec<Task<L>>,
) -> Result<Called<L>, ServeFault>
    ensures many { IfOk result (λ called. vec_len called.passes ≡ vec_len tasks) }
    ensures most { IfOk result (λ called. sum_by (λ p. p.calls) called.passes.items ≤ sum_by (λ t. length t.events.items) tasks.items) }
    ensures all { IfOk result (λ called. IsTrue called.answered → sum_by (λ p. p.calls) called.passes.items ≡ sum_by (λ t. length t.events.items) tasks.items) }
    ensures err { IfErr result IsMissing }
{
    scope(scope_env(), rt, |scope| {
        let started = start_all(scope, rt, alloc, server, tasks);
        join_all(rt, alloc, started)
    })
}

// Starts a thread for each task, from the last one on, up to the first for which there is none.
fn start_all<'s, E, L: Server + Send + Sync, G: Gate + Send + Sync, T: Threads + Wait + Sync>(
    scope: &Scope<'s, E>,
    rt: &'s T,
    alloc: Global,
    server: &'s CapServer<G, L>,
    tasks: Vec<Task<L>>,
) -> Started<L>
    ensures many { IsTrue result.all → vec_len result.threads ≡ vec_len tasks }
    ensures events { IsTrue result.all → sum_by (λ h. h.promise.0) result.threads.items ≡ sum_by (λ t. length t.events.items) tasks.items }
{
    let mut tasks = tasks;
    let mut threads = Vec::new(alloc);
    while let Some(Task { pass, events }) = tasks.pop() {
        let promise = CallsBack(events.len());
        let thread = scope.spawn_with(promise, move || call_events(rt, server, pass, events));
        let Ok(thread) = thread else {
            return Started {
                threads,
                all: false,
            };
        };
        if threads.push(thread).is_err() {
            return Started {
                threads,
                all: false,
            };
        }
    }
    Started { threads, all: true }
}

// Waits for the threads, and takes their passes back, where each task had a thread.
fn join_all<L: Server, T: Threads>(
    rt: &T,
    alloc: Global,
    started: Started<L>,
) -> Result<Called<L>, ServeFault>
    ensures many { IfOk result (λ called. IsTrue started.all × (vec_len called.passes ≡ vec_len started.threads)) }
    ensures most { IfOk result (λ called. sum_by (λ p. p.calls) called.passes.items ≤ sum_by (λ h. h.promise.0) started.threads.items) }
    ensures all { IfOk result (λ called. IsTrue called.answered → sum_by (λ p. p.calls) called.passes.items ≡ sum_by (λ h. h.promise.0) started.threads.items) }
    ensures err { IfErr result IsMissing }
{
    let Started { threads, all } = started;
    let mut passes = Vec::new(alloc);
    let mut answered = true;
    for thread in threads {
        let Back {
            pass,
            answered: all_answered,
        } = thread.join(rt);
        passes.push(pass)?;
        answered &= all_answered;
    }
    if all {
        Ok(Called { passes, answered })
    } else {
        Err(ServeFault::NoThread)
    }
}
