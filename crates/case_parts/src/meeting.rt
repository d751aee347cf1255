// Two workers, each of which waits at its first group, or at its first candidate, for the other.

ghost use Rattle.std.specs.Prelude.{◌≡◌, ◌≤◌, true};
ghost use Rattle.semantics.specs.Launch.{Fits};
ghost use Rattle.core_code.specs.View.{kernel as core_seen};
ghost use Rattle.launch.specs.View.{launch as launch_seen};
ghost use Rattle.work_item.specs.Proper.{is_proper};

use group_workers::{Task, run_groups};
use kernel_code::lower;
use launch::launches::{Buffers, Launch};
use std::alloc::{AllocError, Global};
use std::sync::Wait;
use std::sync::atomic::{AtomicBool, AtomicU32, AtomicU64, Ordering};
use std::thread::Threads;
use typed_kernels::Typed;
use words::{Gate, Moment, Word};

/// Notes numbers below 64, each of which may come once.
#[derive(Drop)]
struct Numbers {
    seen: AtomicU64,
    twice: AtomicBool,
}

impl Numbers {
    fn new() -> Numbers {
        Numbers {
            seen: AtomicU64::new(0),
            twice: AtomicBool::new(false),
        }
    }

    fn note(&self, number: u64) {
        let bit = 1u64 << (number % 64);
        if self.seen.fetch_or(bit, Ordering::SeqCst) & bit != 0 {
            self.twice.store(true, Ordering::SeqCst);
        }
    }

    fn is_each_once(&self) -> bool {
        self.seen.load(Ordering::SeqCst) == u64::MAX && !self.twice.load(Ordering::SeqCst)
    }
}

/// Holds workers 1 and 2 at their first group or candidate until both have one, and notes what is told.
#[derive(Drop)]
pub struct Meeting {
    first: AtomicBool,
    second: AtomicBool,
    missed: AtomicBool,
    claimed: Numbers,
    done: Numbers,
    ended: AtomicU32,
}

impl Meeting {
    pub fn new() -> Meeting {
        Meeting {
            first: AtomicBool::new(false),
            second: AtomicBool::new(false),
            missed: AtomicBool::new(false),
            claimed: Numbers::new(),
            done: Numbers::new(),
            ended: AtomicU32::new(0),
        }
    }

    fn await_other(&self, mine: &AtomicBool, other: &AtomicBool) {
        mine.store(true, Ordering::SeqCst);
        for _ in 0..1_000_000_000u32 {
            if other.load(Ordering::SeqCst) {
                return;
            }
        }
        self.missed.store(true, Ordering::SeqCst);
    }

    fn meet(&self, worker: u32) {
        match worker {
            1 => self.await_other(&self.first, &self.second),
            2 => self.await_other(&self.second, &self.first),
            _ => {}
        }
    }

    pub fn has_met(&self) -> bool {
        !self.missed.load(Ordering::SeqCst)
    }
}

impl Gate for Meeting {
    fn at(&self, worker: u32, moment: Moment) {
        match moment {
            Moment::Claimed(group) => {
                self.claimed.note(group);
                self.meet(worker);
            }
            Moment::Examine(_) => self.meet(worker),
            Moment::Done(group) => self.done.note(group),
            Moment::Ended => {
                let _before = self.ended.fetch_add(1, Ordering::SeqCst);
            }
            _ => {}
        }
    }
}

/// Buffers of one array with 65 words, all 0.
fn zeros(alloc: Global) -> Result<Buffers, AllocError> {
    let row = Vec::from_elem(alloc, Word::Uint(0), 65)?;
    let mut words = Vec::new(alloc);
    words.push(row)?;
    Ok(Buffers { words })
}

fn push_words(out: &mut String, buffers: &Buffers) -> Result<(), AllocError> {
    for row in &buffers.words {
        out.push_str("buffer")?;
        for word in row {
            write!(out, " {}", word.value())?;
        }
        out.push_str("\n")?;
    }
    Ok(())
}

/// Writes whether both met, how often each of 64 groups was told, and how many workers ended.
pub fn push_told(out: &mut String, gate: &Meeting) -> Result<(), AllocError> {
    let ended = gate.ended.load(Ordering::SeqCst);
    writeln!(
        out,
        "met {}, each group claimed once {}, done once {}, {ended} ended",
        gate.has_met(),
        gate.claimed.is_each_once(),
        gate.done.is_each_once()
    )
}

/// Runs the groups of a launch by two workers that meet; says what they told, and what they wrote to one buffer of 65 words.
pub fn push_meeting<R: Threads + Wait + Sync>(
    rt: &R,
    alloc: Global,
    out: &mut String,
    typed: &Typed,
    launch: &Launch,
) -> Result<(), AllocError>
    requires proper { is_proper (core_seen typed.now.1) ≡ true }
    requires fits { Fits (core_seen typed.now.1) (launch_seen launch.now) }
{
    let gate = Meeting::new();
    let mut buffers = zeros(alloc)?;
    let code = lower(alloc, typed)?;
    let task = Task {
        core: typed.core(),
        code: &code,
        launch,
        budget: 1_000_000_000,
    };
    run_groups(rt, alloc, task, 2, &gate, &mut buffers)?;
    push_told(out, &gate)?;
    push_words(out, &buffers)
}
