//! What each worker does.

ghost use Rattle.supports.specs.Sets.{IsGreatest};
ghost use Rattle.std.specs.Prelude.{ℕ};
ghost use Rattle.board.specs.Rule.{Seen};
ghost use Rattle.board.specs.Calls.{IsSeatOf, supports_of};

use board::{Board, Examined, Passed, Seat};
use supports::Set;
use words::{Gate, Moment};

/// Examines each candidate of the set, and tells what it does.
fn examine_all<G: Gate>(board: &Board, seat: &mut Seat, set: &Set, worker: u32, gate: &G)
    requires { IsSeatOf board.now seat.old }
    ensures seat { IsSeatOf board.now seat.new }
    ensures more { (c : ℕ) → Seen seat.old.me.0 c → Seen seat.new.me.0 c }
{
    for candidate in 0..board.count() {
        if !set.contains(candidate) {
            continue;
        }
        gate.at(worker, Moment::Examine(candidate));
        if board.examine(seat, candidate) == Examined::Refuted {
            gate.at(worker, Moment::Refuted(candidate));
        }
    }
}

/// Examines what is left and makes a pass, until a pass is settled.
pub fn work<G: Gate>(board: &Board, mut seat: Seat, worker: u32, gate: &G) -> Set
    requires { IsSeatOf board.now seat }
    ensures { IsGreatest (supports_of board.now) result.words }
{
    loop {
        let set = board.alive(&mut seat);
        examine_all(board, &mut seat, &set, worker, gate);
        match board.pass(&mut seat) {
            Passed::Settled(greatest) => {
                gate.at(worker, Moment::Ended);
                return greatest;
            }
            Passed::Refuted(_refuted) => {}
        }
    }
}
