// The guesses of the least menu, and which of them support one another.

use crate::meeting::Meeting;
use crate::stalled::Holding;
use certificate_search::{guess, table};
use houdini::{SettleError, settle};
use kernel_reading::laws::local_sizes_are_within_limits;
use kernel_reading::{narrow, read_source};
use launch_text::read_conditions_as;
use std::alloc::{AllocError, Global};
use std::sync::Wait;
use std::thread::Threads;
use supports::{Set, Supports};
use words::Open;

/// How many of so many candidates a set has.
fn members(set: &Set, count: u32) -> u32 {
    let mut found = 0u32;
    for candidate in 0..count {
        if set.contains(candidate) {
            found = found.saturating_add(1);
        }
    }
    found
}

/// Writes how many candidates of a table support one another, as 1, 3 and 64 workers find it.
fn push_settled<R: Threads + Wait + Sync>(
    rt: &R,
    alloc: Global,
    out: &mut String,
    supports: &Supports,
) -> Result<(), AllocError> {
    write!(out, "{} guesses", supports.count())?;
    for workers in [1u32, 3, 64] {
        match settle(rt, alloc, supports, workers, &Open) {
            Ok(set) => write!(out, ", {} left", members(&set, supports.count()))?,
            Err(error) => write!(out, ", {error}")?,
        }
    }
    writeln!(out)
}

/// Of 200 times that two workers settle a table, how often they leave other candidates than are wanted: the first worker is held at another
/// of its moments each time.
fn others_of<R: Threads + Wait + Sync>(
    rt: &R,
    alloc: Global,
    supports: &Supports,
    wanted: &Set,
) -> Result<u32, SettleError> {
    let mut others = 0u32;
    for at in 0..200 {
        let found = settle(rt, alloc, supports, 2, &Holding::new(at))?;
        if found != *wanted {
            others = others.saturating_add(1);
        }
    }
    Ok(others)
}

/// Writes whether two workers that settle a table meet, each of which waits at its first candidate for the other, and how often they settle
/// another set where the first one is held.
fn push_held<R: Threads + Wait + Sync>(
    rt: &R,
    alloc: Global,
    out: &mut String,
    supports: &Supports,
) -> Result<(), AllocError> {
    let gate = Meeting::new();
    let wanted = match settle(rt, alloc, supports, 2, &gate) {
        Ok(wanted) => wanted,
        Err(error) => return writeln!(out, "refused {error}"),
    };
    match others_of(rt, alloc, supports, &wanted) {
        Ok(others) => writeln!(out, "met {}, {others} of 200 sets differ", gate.has_met()),
        Err(error) => writeln!(out, "refused {error}"),
    }
}

/// Writes how many guesses the least menu has for a kernel, and how many of them support one another; or what workers do that settle them
/// and are held.
pub fn push_guesses<R: Threads + Wait + Sync>(
    rt: &R,
    alloc: Global,
    out: &mut String,
    kernel: &[u8],
    conditions: &[u8],
    is_held: bool,
) -> Result<(), AllocError> {
    local_sizes_are_within_limits();
    let typed = match read_source(alloc, narrow(kernel)) {
        Ok(typed) => typed,
        Err(error) => return writeln!(out, "refused {error}"),
    };
    let conditions = match read_conditions_as(alloc, &typed, conditions, false) {
        Ok(conditions) => conditions,
        Err(error) => return writeln!(out, "refused {error}"),
    };
    let candidates = guess(alloc, &typed, &conditions)?;
    match table(rt, alloc, &typed, &conditions, candidates.as_slice()) {
        Ok(supports) => {
            if is_held {
                push_held(rt, alloc, out, &supports)
            } else {
                push_settled(rt, alloc, out, &supports)
            }
        }
        Err(error) => writeln!(out, "refused {error}"),
    }
}
