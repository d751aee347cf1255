//! The workers, each in a thread of its own.

ghost use Rattle.std.specs.Prelude.{◌≡◌, ◌<◌, ◌≤◌, ◌+◌, ◌^◌, IfOk, Err};
ghost use Rattle.std.specs.Thread.{IsSync};
ghost use mathlib.Core.Logic.{◌↔◌, ◌⊎◌};
ghost use Rattle.supports.specs.Sets.{IsGreatest};
ghost use Rattle.board.specs.Calls.{IsSeatOf, supports_of};
ghost use Rattle.houdini.specs.declared.error.SettleError.TheVariants.{Workers};

use crate::error::SettleError;
use crate::worker::work;
use board::{Board, Seat};
use std::alloc::Global;
use std::thread::{Threads, join};
use supports::{Set, Supports};
use words::Gate;

/// The workers from `first` on, `count` of them. The lowest runs on the calling thread. A worker whose thread cannot be started is run
/// by the calling thread in its turn (`join` does so).
#[cycle(workers)]
fn run_from<R: Threads + Sync, G: Gate>(
    rt: &R,
    board: &Board,
    seat: Seat,
    first: u32,
    count: u32,
    gate: &G,
) -> Set
    requires seat { IsSeatOf board.now seat }
    requires count { (0 < count) × (first + count < 2 ^ 32) }
    ensures { IsGreatest (supports_of board.now) result.words }
{
    if count == 1 {
        return work(board, seat, first, gate);
    }
    let high = count / 2;
    let low = count - high;
    let next = first + low;
    let (seat, other) = board.split(seat);
    let (_, set) = join(
        rt,
        move || -> Set
            requires { IsSync R.row × IsSync G.row × IsSeatOf board.now other × (0 < high) × (next + high < 2 ^ 32) }
            ensures { IsGreatest (supports_of board.entry.now) result.words }
        { run_from(rt, board, other, next, high, gate) },
        move || -> Set
            requires { IsSync R.row × IsSync G.row × IsSeatOf board.now seat × (0 < low) × (first + low < 2 ^ 32) }
            ensures { IsGreatest (supports_of board.entry.now) result.words }
        { run_from(rt, board, seat, first, low, gate) },
    );
    set
}

/// The greatest set of candidates that support one another, found by so many workers on one board. The calling thread is worker 1. `gate`
/// is told what each worker does, and changes no answer. There is want of memory only where the board was not opened.
pub fn settle<R: Threads + Sync, G: Gate>(
    rt: &R,
    alloc: Global,
    supports: &Supports,
    workers: u32,
    gate: &G,
) -> Result<Set, SettleError>
    ensures greatest { IfOk result (λ set. IsGreatest supports.now set.words) }
    ensures workers { (result ≡ Err Workers) ↔ ((workers < 1) ⊎ (64 < workers)) }
{
    if workers < 1 || workers > 64 {
        return Err(SettleError::Workers);
    }
    let (board, seat) = Board::open(alloc, supports)?;
    Ok(run_from(rt, &board, seat, 1, workers, gate))
}
