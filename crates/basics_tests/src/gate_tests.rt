//! Workers that settle, watched and held by gates.

use crate::tables::{CHAIN, ONE_STANDS, SCAN, SCAN_LEFT, THREE_STAND, Table, members, supports};
use board::BoardError;
use houdini::{SettleError, settle};
use std::alloc::Global;
use std::sync::atomic::{AtomicBool, AtomicU32, AtomicU64, Ordering};
use std::test::Fail;
use std::thread::Threads;
use supports::SupportError;
use words::{Gate, Moment, Open};

/// Which of the first five candidates are settled.
fn settled<R: Threads + Sync, G: Gate>(
    rt: &R,
    alloc: Global,
    table: Table,
    workers: u32,
    gate: &G,
) -> Result<[bool; 5], Fail> {
    let supports = supports(alloc, table)?;
    let set = settle(rt, alloc, &supports, workers, gate)?;
    Ok(members(&set))
}

#[test]
fn each_number_of_workers_settles_one_set(rt: HostRuntime) -> Result<(), Fail> {
    for workers in [1, 2, 3, 64] {
        let three = settled(&rt, rt.alloc(), THREE_STAND, workers, &Open)?;
        let one = settled(&rt, rt.alloc(), ONE_STANDS, workers, &Open)?;
        let wanted = [
            [true, true, false, true, false],
            [true, false, false, false, false],
        ];
        assert_eq!(rt; [three, one], wanted, "{workers} workers");
    }
    Ok(())
}

/// The number under which so many workers are refused, and 0 where they are not.
fn refusal<R: Threads + Sync>(rt: &R, alloc: Global, workers: u32) -> Result<u8, Fail> {
    let supports = supports(alloc, THREE_STAND)?;
    match settle(rt, alloc, &supports, workers, &Open) {
        Ok(_) => Ok(0),
        Err(error) => Ok(error.number()),
    }
}

#[test]
fn too_few_or_many_workers_are_refused(rt: HostRuntime) -> Result<(), Fail> {
    let none = refusal(&rt, rt.alloc(), 0)?;
    let many = refusal(&rt, rt.alloc(), 65)?;
    assert_eq!(rt; [none, many], [70; 2]);
    Ok(())
}

#[test]
fn errors_are_printed_as_their_numbers(rt: HostRuntime) -> Result<(), Fail> {
    let numbers = [
        SupportError::Memory.number(),
        BoardError::Memory.number(),
        SettleError::Memory.number(),
    ];
    let printed = format!(in rt.alloc(); "{} {}", SettleError::Workers, SettleError::Memory)?;
    assert_eq!(rt; (numbers, printed.as_str()), ([90; 3], "70 90"));
    Ok(())
}

/// Holds workers 1 and 2 at their first candidate until both have come to it.
#[derive(Drop)]
struct Meeting {
    first: AtomicBool,
    second: AtomicBool,
    missed: AtomicBool,
}

impl Meeting {
    fn await_other(&self, mine: &AtomicBool, other: &AtomicBool) {
        mine.store(true, Ordering::SeqCst);
        for _ in 0..1_000_000_000u32 {
            if other.load(Ordering::SeqCst) {
                return;
            }
        }
        self.missed.store(true, Ordering::SeqCst);
    }
}

impl Gate for Meeting {
    fn at(&self, worker: u32, moment: Moment) {
        let Moment::Examine(_) = moment else {
            return;
        };
        match worker {
            1 => self.await_other(&self.first, &self.second),
            2 => self.await_other(&self.second, &self.first),
            _ => {}
        }
    }
}

#[test]
fn two_workers_meet(rt: HostRuntime) -> Result<(), Fail> {
    let gate = Meeting {
        first: AtomicBool::new(false),
        second: AtomicBool::new(false),
        missed: AtomicBool::new(false),
    };
    let set = settled(&rt, rt.alloc(), ONE_STANDS, 2, &gate)?;
    let missed = gate.missed.load(Ordering::SeqCst);
    assert_eq!(rt; (set, missed), ([true, false, false, false, false], false));
    Ok(())
}

/// Holds worker 1 at one of its moments until worker 2 has ended, or for 1,000,000 turns.
#[derive(Drop)]
struct Holding {
    at: u32,
    told: AtomicU32,
    ended: AtomicBool,
}

impl Holding {
    fn hold(&self) {
        for _ in 0..1_000_000u32 {
            if self.ended.load(Ordering::SeqCst) {
                return;
            }
        }
    }
}

impl Gate for Holding {
    fn at(&self, worker: u32, moment: Moment) {
        if worker == 2 && moment == Moment::Ended {
            self.ended.store(true, Ordering::SeqCst);
        }
        if worker == 1 && self.told.fetch_add(1, Ordering::SeqCst) == self.at {
            self.hold();
        }
    }
}

/// How many of 200 times so many workers leave other candidates below 64 of a table, the first held at another of its moments each time.
fn others_of<R: Threads + Sync>(
    rt: &R,
    alloc: Global,
    table: Table,
    workers: u32,
    left: u64,
) -> Result<u32, Fail> {
    let supports = supports(alloc, table)?;
    let mut others = 0u32;
    for at in 0..200 {
        let gate = Holding {
            at,
            told: AtomicU32::new(0),
            ended: AtomicBool::new(false),
        };
        let set = settle(rt, alloc, &supports, workers, &gate)?;
        if set.words[0] != left {
            others = others.saturating_add(1);
        }
    }
    Ok(others)
}

#[test]
fn a_worker_is_held_at_each_moment(rt: HostRuntime) -> Result<(), Fail> {
    let two = others_of(&rt, rt.alloc(), CHAIN, 2, 0)?;
    let three = others_of(&rt, rt.alloc(), CHAIN, 3, 0)?;
    let scan = others_of(&rt, rt.alloc(), SCAN, 2, SCAN_LEFT)?;
    assert_eq!(rt; [two, three, scan], [0; 3]);
    Ok(())
}

/// Notes which workers have ended, how many moments were told, and whether one was told behind its worker's end.
#[derive(Drop)]
struct Watching {
    moments: AtomicU32,
    ended: AtomicU64,
    late: AtomicBool,
}

impl Watching {
    fn new() -> Watching {
        Watching {
            moments: AtomicU32::new(0),
            ended: AtomicU64::new(0),
            late: AtomicBool::new(false),
        }
    }
}

impl Gate for Watching {
    fn at(&self, worker: u32, moment: Moment) {
        let mine = 1u64 << (worker.wrapping_sub(1) % 64);
        let _before = self.moments.fetch_add(1, Ordering::SeqCst);
        let ended = if moment == Moment::Ended {
            self.ended.fetch_or(mine, Ordering::SeqCst)
        } else {
            self.ended.load(Ordering::SeqCst)
        };
        if ended & mine != 0 {
            self.late.store(true, Ordering::SeqCst);
        }
    }
}

#[test]
fn each_worker_ends_last(rt: HostRuntime) -> Result<(), Fail> {
    let gate = Watching::new();
    let all = settled(&rt, rt.alloc(), CHAIN, 64, &gate)?;
    let alone = Watching::new();
    let one = settled(&rt, rt.alloc(), CHAIN, 1, &alone)?;
    let ended = gate.ended.load(Ordering::SeqCst);
    let late = gate.late.load(Ordering::SeqCst);
    let moments = alone.moments.load(Ordering::SeqCst);
    assert_eq!(rt;
        ([all, one], ended, late, moments),
        ([[false; 5]; 2], u64::MAX, false, 49)
    );
    Ok(())
}
