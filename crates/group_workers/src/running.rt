//! The windows of a run, and their workers, each in a thread of its own.

ghost use Rattle.std.specs.Prelude.{◌≡◌, ◌<◌, ◌≤◌, true, length, OnOk};
ghost use Rattle.std.specs.Thread.{IsSync, IsSend};
ghost use Rattle.semantics.specs.Launch.{Fits};
ghost use Rattle.lanes.specs.Lowering.{lowered};
ghost use Rattle.core_code.specs.View.{kernel as kernel_seen};
ghost use Rattle.kernel_code.specs.View.{block as block_seen};
ghost use Rattle.launch.specs.View.{launch as launch_seen};
ghost use Rattle.work_item.specs.Proper.{is_proper};
ghost use Rattle.write_log.specs.Written.{words_of};
ghost use Rattle.group_workers.specs.Writing.{HasLogs};
ghost use Rattle.group_workers.specs.Tasks.{IsTask, groups, logs_of};

use crate::collector::Collected;
use crate::deque::{Deque, Shares, Source};
use crate::task::{GroupLog, Handed, Logged, Logs, Receives, Task};
use crate::window::{Window, groups_of_a_window};
use crate::worker::{Seat, Shared};
use launch::launches::Buffers;
use std::alloc::{AllocError, Global};
use std::marker::{Brand, PhantomData};
use std::mem::replace;
use std::sync::Wait;
use std::thread::{Threads, join};
use words::{Gate, Moment};

/// What workers gave back, and what one more did. There is room for it.
fn with(mut all: Vec<Handed>, one: Handed) -> Vec<Handed> {
    let _room = all.push(one);
    all
}

/// The workers from one on, the last seat's. It runs on this thread, and the others on one that is started before. Where that thread cannot
/// be started, this one runs them in its turn (`join` does so). What they give back is put behind what stands in a list.
#[cycle(workers)]
fn run_workers<
    J: Logged + Send + Sync,
    D: Shares + Send + Sync,
    R: Threads + Wait + Sync,
    G: Gate,
    L: Receives<GroupLog<J>, R>,
>(shared: &Shared<'_, J, D, R, G, L>, mut seats: Vec<Seat<D>>, all: Vec<Handed>) -> Vec<Handed>
    requires { IsTask J.logs J.count shared.now.task }
{
    let Some(seat) = seats.pop() else {
        return all;
    };
    if seats.is_empty() {
        return with(all, shared.work(seat));
    }
    let (others, own) = join(
        shared.rt,
        move || -> Vec<Handed>
            requires { IsSync R.row × IsSync G.row × IsSync L.row × IsSync J.row × IsSend J.row × IsSync D.row × IsSend D.row × IsTask J.logs J.count shared.now.task }
        { run_workers(shared, seats, all) },
        move || -> Handed
            requires { IsSync R.row × IsSync G.row × IsSync L.row × IsSync J.row × IsSend J.row × IsSync D.row × IsSend D.row × IsTask J.logs J.count shared.now.task }
        { shared.work(seat) },
    );
    with(others, own)
}

/// The seats of workers, each with its share of the stretches, the last worker's first; and what thieves take from.
fn deal<D: Shares>(
    alloc: Global,
    on: &[u32],
    stretches: u64,
) -> Result<(Vec<Seat<D>>, Vec<Source<D>>), AllocError>
    requires { (length on.now ≡ D.workers) × (1 ≤ length on.now) }
{
    let workers = on.len();
    let mut seats = Vec::new(alloc);
    let mut sources = Vec::new(alloc);
    for place in 0..workers {
        let share = workers - 1 - place;
        let deque = Deque::dealt(alloc, share as u64, workers as u64, stretches)?;
        sources.push(deque.source()?)?;
        let worker = on[place];
        seats.push(Seat { worker, deque })?;
    }
    Ok((seats, sources))
}

/// How many stretches of groups a worker takes at least, where there are as many groups.
const STRETCHES_OF_A_WORKER: u64 = 16;

/// The most groups of a stretch.
const MOST_TOGETHER: u64 = 32;

/// How many groups, one after another, so many workers take together, of so many groups.
fn together(groups: u64, workers: u64) -> u64
    ensures { 1 ≤ result }
{
    let stretches = workers.saturating_mul(STRETCHES_OF_A_WORKER);
    let most = groups.checked_div(stretches).unwrap_or(1);
    most.min(MOST_TOGETHER).max(1)
}

/// How many stretches of so many groups there are.
fn stretches_of(groups: u64, together: u64) -> u64
    requires { 1 ≤ together }
{
    let whole = groups / together;
    whole.saturating_add(1)
}

/// Runs the groups of a window by the workers that are on, the last one first, each of which hands over logs; what they give back.
fn run_window<J: Logged + Send + Sync, D: Shares + Send + Sync, R: Threads + Wait + Sync, G: Gate>(
    rt: &R,
    alloc: Global,
    task: Task,
    gate: &G,
    window: Window,
    logs: &Logs<J>,
    on: &[u32],
) -> Result<Vec<Handed>, AllocError>
    requires task { IsTask J.logs J.count task }
    requires workers { (length on.now ≡ D.workers) × (1 ≤ length on.now) }
{
    let together = together(window.groups(), on.len() as u64);
    let stretches = stretches_of(window.groups(), together);
    let (seats, sources) = deal::<D>(alloc, on, stretches)?;
    let all = Vec::with_capacity(alloc, on.len())?;
    let shared = Shared {
        of: PhantomData::<J>,
        rt,
        alloc,
        task,
        window,
        is_last: window.end == task.groups(),
        sources: sources.as_slice(),
        logs,
        gate,
        together,
    };
    Ok(run_workers(&shared, seats, all))
}

/// The numbers of so many workers, the last one first.
fn numbers(alloc: Global, workers: u32) -> Result<Vec<u32>, AllocError> {
    let mut on = Vec::new(alloc);
    for before in 0..workers {
        on.push(workers - before)?;
    }
    Ok(on)
}

/// Leaves those workers that go on behind a window: behind the last one none, and else those to which no memory was refused.
fn leave(on: &mut Vec<u32>, handed: &[Handed], is_last: bool) {
    on.clear();
    if is_last {
        return;
    }
    for one in handed {
        if !one.is_refused {
            let _room = on.push(one.worker);
        }
    }
}

/// Runs the groups of a window by the workers that are on, and writes their logs. Where none is, they are run here.
fn run_next<J: Logged + Send + Sync, R: Threads + Wait + Sync, G: Gate>(
    rt: &R,
    alloc: Global,
    task: Task,
    gate: &G,
    window: Window,
    on: &mut Vec<u32>,
    all: &mut Collected<J>,
) -> Result<(), AllocError>
    requires task { IsTask J.logs J.count task }
    requires window { window.end ≤ groups task }
    ensures { OnOk result (window.end ≤ all.new.next) }
{
    let logs = Logs::<J>::new(alloc)?;
    let handed = if on.is_empty() {
        Vec::new(alloc)
    } else {
        run_window::<J, Brand, R, G>(rt, alloc, task, gate, window, &logs, on.as_slice())?
    };
    leave(on, handed.as_slice(), window.end == task.groups());
    all.take(alloc, task, window, &logs, handed.as_slice())
}

/// Runs the groups that are left, so many at most in each window.
fn run_all<J: Logged + Send + Sync, R: Threads + Wait + Sync, G: Gate>(
    rt: &R,
    alloc: Global,
    task: Task,
    gate: &G,
    size: u64,
    on: &mut Vec<u32>,
    all: &mut Collected<J>,
) -> Result<(), AllocError>
    requires { IsTask J.logs J.count task }
    ensures { OnOk result (all.new.next ≡ groups task.entry) }
{
    let count = task.groups();
    while all.next < count {
        let window = Window::next(all.next, count, size);
        run_next::<J, R, G>(rt, alloc, task, gate, window, on, all)?;
    }
    Ok(())
}

/// How many of so many workers have a group to run, and one at least.
fn started(groups: u64, workers: u32) -> u32
    requires { 1 ≤ workers }
    ensures { (1 ≤ result) × (result ≤ workers) }
{
    if groups >= workers as u64 {
        return workers;
    }
    if groups == 0 {
        return 1;
    }
    groups as u32
}

fn run_as<J: Logged + Send + Sync, R: Threads + Wait + Sync, G: Gate>(
    rt: &R,
    alloc: Global,
    task: Task,
    workers: u32,
    gate: &G,
    buffers: &mut Buffers,
) -> Result<(), AllocError>
    requires task { IsTask J.logs J.count task }
    requires workers { 1 ≤ workers }
    requires before { J.before ≡ words_of buffers.old }
    ensures { OnOk result (HasLogs (logs_of task.entry) (groups task.entry) (words_of buffers.old) (words_of buffers.new)) }
{
    let workers = started(task.groups(), workers);
    let mut on = numbers(alloc, workers)?;
    let size = groups_of_a_window(task.groups(), buffers, workers);
    let none = Buffers {
        words: Vec::new(alloc),
    };
    let mut all = Collected::<J>::new(replace(buffers, none));
    let done = run_all::<J, R, G>(rt, alloc, task, gate, size, &mut on, &mut all);
    // Those that have not ended with the last window.
    for worker in &on {
        gate.at(*worker, Moment::Ended);
    }
    *buffers = all.buffers;
    done
}

/// Runs all groups of a proper kernel's lane code at a launch that fits it, by so many workers, or by as many as there are groups, and
/// writes their logs to the buffers in the order of the groups, window by window. The calling thread is worker 1. `gate` is told what each
/// worker does, and changes nothing that is written. A worker stops where memory is refused; there is want of memory where it is refused to
/// the calling thread when it deals groups out or writes logs. Then buffers may have the logs of the first groups.
pub fn run_groups<R: Threads + Wait + Sync, G: Gate>(
    rt: &R,
    alloc: Global,
    task: Task,
    workers: u32,
    gate: &G,
    buffers: &mut Buffers,
) -> Result<(), AllocError>
    requires proper { is_proper (kernel_seen task.core.now) ≡ true }
    requires fits { Fits (kernel_seen task.core.now) (launch_seen task.launch.now) }
    requires code { block_seen task.code.now ≡ lowered (kernel_seen task.core.now) }
    requires workers { (1 ≤ workers) × (workers ≤ 64) }
    ensures { OnOk result (HasLogs (logs_of task.entry) (groups task.entry) (words_of buffers.old) (words_of buffers.new)) }
{
    run_as::<Brand, R, G>(rt, alloc, task, workers, gate, buffers)
}

fn run_as_here<J: Logged>(
    alloc: Global,
    task: Task,
    buffers: &mut Buffers,
) -> Result<(), AllocError>
    requires task { IsTask J.logs J.count task }
    requires before { J.before ≡ words_of buffers.old }
    ensures { OnOk result (HasLogs (logs_of task.entry) (groups task.entry) (words_of buffers.old) (words_of buffers.new)) }
{
    let none = Buffers {
        words: Vec::new(alloc),
    };
    let mut all = Collected::<J>::new(replace(buffers, none));
    let done = all.run_left(alloc, task);
    *buffers = all.buffers;
    done
}

/// Runs all groups as `run_groups` does, one after the other on the calling thread. No thread is started, and nothing is waited for.
pub fn run_groups_here(alloc: Global, task: Task, buffers: &mut Buffers) -> Result<(), AllocError>
    requires proper { is_proper (kernel_seen task.core.now) ≡ true }
    requires fits { Fits (kernel_seen task.core.now) (launch_seen task.launch.now) }
    requires code { block_seen task.code.now ≡ lowered (kernel_seen task.core.now) }
    ensures { OnOk result (HasLogs (logs_of task.entry) (groups task.entry) (words_of buffers.old) (words_of buffers.new)) }
{
    run_as_here::<Brand>(alloc, task, buffers)
}
