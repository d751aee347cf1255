// Runs of an accepted kernel with workers that meet, or that are held or watched.

ghost use Rattle.std.specs.Prelude.{◌≡◌};
ghost use Rattle.semantics.specs.Launch.{Fits};
ghost use Rattle.core_code.specs.View.{kernel as core_seen};
ghost use Rattle.launch.specs.View.{launch as launch_seen};
ghost use Rattle.cert_check.specs.View.{typed_of};

use crate::meeting::{Meeting, push_told};
use crate::parts::{Asked, Part};
use cert_check::{Accepted, check_wide};
use executor::{RunError, run};
use launch::launches::{Buffers, Launch};
use launch_text::{read_launch, write_buffers};
use std::alloc::{AllocError, Global};
use std::sync::Wait;
use std::sync::atomic::{AtomicBool, AtomicU32, Ordering};
use std::thread::Threads;
use words::{Gate, Moment, Open};

/// Holds worker 1 at one of its moments until worker 2 has ended, or for 1,000,000 turns.
#[derive(Drop)]
pub struct Holding {
    at: u32,
    told: AtomicU32,
    ended: AtomicBool,
}

impl Holding {
    pub fn new(at: u32) -> Holding {
        Holding {
            at,
            told: AtomicU32::new(0),
            ended: AtomicBool::new(false),
        }
    }

    fn hold(&self) {
        for _ in 0..1_000_000u32 {
            if self.ended.load(Ordering::SeqCst) {
                return;
            }
        }
    }
}

impl Gate for Holding {
    fn at(&self, worker: u32, moment: Moment) {
        if worker == 2 && moment == Moment::Ended {
            self.ended.store(true, Ordering::SeqCst);
        }
        if worker == 1 && self.told.fetch_add(1, Ordering::SeqCst) == self.at {
            self.hold();
        }
    }
}

/// Counts the groups that workers have claimed, and those that they have run.
#[derive(Drop)]
struct Counting {
    claimed: AtomicU32,
    done: AtomicU32,
}

impl Gate for Counting {
    fn at(&self, _worker: u32, moment: Moment) {
        let _before = match moment {
            Moment::Claimed(_) => self.claimed.fetch_add(1, Ordering::SeqCst),
            Moment::Done(_) => self.done.fetch_add(1, Ordering::SeqCst),
            _ => 0,
        };
    }
}

/// How many of 200 runs by two workers leave other buffers than a run by one: of each the first worker is held at another of its moments.
fn others_of<R: Threads + Wait + Sync>(
    rt: &R,
    alloc: Global,
    accepted: &Accepted,
    launch: &Launch,
) -> Result<u32, RunError>
    requires { Fits (core_seen (typed_of accepted.now).1) (launch_seen launch.now) }
{
    let wanted = run(rt, alloc, accepted, launch, 1, &Open)?;
    let mut others = 0u32;
    for at in 0..200 {
        let found = run(rt, alloc, accepted, launch, 2, &Holding::new(at))?;
        if found != wanted {
            others = others.saturating_add(1);
        }
    }
    Ok(others)
}

fn push_stalled<R: Threads + Wait + Sync>(
    rt: &R,
    alloc: Global,
    out: &mut String,
    accepted: &Accepted,
    launch: &Launch,
) -> Result<(), AllocError>
    requires { Fits (core_seen (typed_of accepted.now).1) (launch_seen launch.now) }
{
    match others_of(rt, alloc, accepted, launch) {
        Ok(others) => writeln!(out, "{others} of 200 runs differ"),
        Err(error) => writeln!(out, "refused {}", error.number()),
    }
}

fn push_buffers(
    alloc: Global,
    out: &mut String,
    accepted: &Accepted,
    buffers: &Buffers,
) -> Result<(), AllocError> {
    let text = write_buffers(alloc, accepted.typed(), buffers)?;
    out.push_str(&text)
}

/// Writes the buffers that a run leaves, or the number of its refusal.
fn push_run(
    alloc: Global,
    out: &mut String,
    accepted: &Accepted,
    found: Result<Buffers, RunError>,
) -> Result<(), AllocError> {
    match found {
        Ok(buffers) => push_buffers(alloc, out, accepted, &buffers),
        Err(error) => writeln!(out, "refused {}", error.number()),
    }
}

/// Runs a launch by one worker; says how many groups it has claimed, how many of these it has run, what is left, and what the launch holds
/// afterwards.
fn push_watched<R: Threads + Wait + Sync>(
    rt: &R,
    alloc: Global,
    out: &mut String,
    accepted: &Accepted,
    launch: &Launch,
) -> Result<(), AllocError>
    requires { Fits (core_seen (typed_of accepted.now).1) (launch_seen launch.now) }
{
    let gate = Counting {
        claimed: AtomicU32::new(0),
        done: AtomicU32::new(0),
    };
    let found = run(rt, alloc, accepted, launch, 1, &gate);
    let claimed = gate.claimed.load(Ordering::SeqCst);
    let done = gate.done.load(Ordering::SeqCst);
    writeln!(out, "{claimed} claimed, {done} run")?;
    push_run(alloc, out, accepted, found)?;
    push_buffers(alloc, out, accepted, &launch.buffers)
}

/// Runs a launch by two workers, each of which waits at its first group for the other; says what they told, and what is left.
fn push_met<R: Threads + Wait + Sync>(
    rt: &R,
    alloc: Global,
    out: &mut String,
    accepted: &Accepted,
    launch: &Launch,
) -> Result<(), AllocError>
    requires { Fits (core_seen (typed_of accepted.now).1) (launch_seen launch.now) }
{
    let gate = Meeting::new();
    let found = run(rt, alloc, accepted, launch, 2, &gate);
    push_told(out, &gate)?;
    push_run(alloc, out, accepted, found)
}

fn push_of_accepted<R: Threads + Wait + Sync>(
    rt: &R,
    alloc: Global,
    out: &mut String,
    accepted: &Accepted,
    asked: Asked<'_>,
) -> Result<(), AllocError> {
    match read_launch(alloc, accepted.typed(), asked.fourth) {
        Ok(launch) => match asked.part {
            Part::Stalled => push_stalled(rt, alloc, out, accepted, &launch),
            Part::Met => push_met(rt, alloc, out, accepted, &launch),
            _ => push_watched(rt, alloc, out, accepted, &launch),
        },
        Err(error) => writeln!(out, "refused {error}"),
    }
}

/// Runs a launch of a kernel that a certificate shows, with workers that meet, or that are held or watched.
pub fn push_steered<R: Threads + Wait + Sync>(
    rt: &R,
    alloc: Global,
    out: &mut String,
    asked: Asked<'_>,
) -> Result<(), AllocError> {
    match check_wide(alloc, asked.first, asked.second, asked.third) {
        Ok(accepted) => push_of_accepted(rt, alloc, out, &accepted, asked),
        Err(error) => writeln!(out, "refused {}", error.number()),
    }
}
