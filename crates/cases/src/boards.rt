// 512 candidates with 128 obligations each, settled. An obligation of a candidate has one set, which has the next candidate alone. Of
// `stand` the last candidate rests on the first one, so all are left; of `fall` it has no set, so none is, and a pass finds one or two of
// them. `bench/measure/settle.py` measures it.

use houdini::settle;
use std::alloc::Global;
use std::sync::Wait;
use std::thread::Threads;
use std::{env, io};
use supports::{Set, SupportError, Supports};
use words::Open;

const CANDIDATES: u32 = 512;

const OBLIGATIONS: u32 = 128;

fn sets(alloc: Global, member: Option<u32>) -> Result<Vec<Vec<u32>>, SupportError> {
    let mut made = Vec::new(alloc);
    if let Some(member) = member {
        made.push(vec![in alloc; member]?)?;
    }
    Ok(made)
}

fn obligations(alloc: Global, member: Option<u32>) -> Result<Vec<Vec<Vec<u32>>>, SupportError> {
    let mut made = Vec::new(alloc);
    for _ in 0..OBLIGATIONS {
        made.push(sets(alloc, member)?)?;
    }
    Ok(made)
}

/// The candidate on which a candidate rests: the next one; the last one on the first if all are to stand, else on none.
fn rests_on(candidate: u32, all_stand: bool) -> Option<u32> {
    if candidate < CANDIDATES - 1 {
        Some(candidate + 1)
    } else if all_stand {
        Some(0)
    } else {
        None
    }
}

fn table(alloc: Global, all_stand: bool) -> Result<Supports, SupportError> {
    let mut made = Vec::new(alloc);
    for candidate in 0..CANDIDATES {
        made.push(obligations(alloc, rests_on(candidate, all_stand))?)?;
    }
    let count = made.len();
    if count > 512 {
        return Err(SupportError::Memory);
    }
    Supports::of(alloc, count as u32, made)
}

fn members(set: &Set) -> u32 {
    let mut count = 0u32;
    for candidate in 0..CANDIDATES {
        if set.contains(candidate) {
            count = count.wrapping_add(1);
        }
    }
    count
}

/// How many candidates are left, by so many workers.
pub fn run<R: Threads + Wait + Sync>(
    handle: &R,
    rt: &HostRuntime,
    words: &mut env::Args,
) -> io::Result<bool> {
    let (Some(kind), Some(workers)) = (words.next(), words.next()) else {
        return Ok(false);
    };
    let workers = workers.as_str().parse::<u32>().unwrap_or(0);
    let Ok(supports) = table(rt.alloc(), kind.as_str() == "stand") else {
        return Ok(false);
    };
    match settle(handle, rt.alloc(), &supports, workers, &Open) {
        Ok(set) => {
            let count = members(&set);
            println!(rt; "{count} left")?;
            Ok(true)
        }
        Err(_) => Ok(false),
    }
}
