//! A board's seats, in one thread and in two.

ghost use Rattle.std.specs.Prelude.{IfOk};
ghost use Rattle.board.specs.Calls.{IsSeatOf};

use crate::tables::{ONE_STANDS, THREE_STAND, TWO_FALL, Table, members, supports};
use board::{Board, Examined, Passed, Seat};
use std::alloc::Global;
use std::test::Fail;
use std::thread::join;
use supports::Set;

fn opened(alloc: Global, table: Table) -> Result<(Board, Seat), Fail>
    ensures { IfOk result (λ b. IsSeatOf b.0 b.1) }
{
    let supports = supports(alloc, table)?;
    Ok(Board::open(alloc, &supports)?)
}

/// An examination of a candidate that the board has.
fn examined(board: &Board, seat: &mut Seat, candidate: u32) -> Option<Examined>
    requires { IsSeatOf board.now seat.old }
    ensures { IsSeatOf board.now seat.new }
{
    if candidate >= board.count() {
        return None;
    }
    Some(board.examine(seat, candidate))
}

/// The set that is settled within so many passes.
fn settled_in(board: &Board, mut seat: Seat, passes: u32) -> Option<Set>
    requires { IsSeatOf board.now seat }
{
    for _ in 0..passes {
        if let Passed::Settled(set) = board.pass(&mut seat) {
            return Some(set);
        }
    }
    None
}

/// The members of a settled set, and none where none was settled.
fn settled_members(settled: Option<Set>) -> [bool; 5] {
    match settled {
        Some(set) => members(&set),
        None => [false; 5],
    }
}

#[test]
fn two_seats_share_refutations(rt: HostRuntime) -> Result<(), Fail> {
    let (board, mut seat) = opened(rt.alloc(), THREE_STAND)?;
    let all = members(&board.alive(&mut seat));
    let (mut first, mut second) = board.split(seat);
    let kept = examined(&board, &mut first, 0);
    let refuted = examined(&board, &mut first, 2);
    let left = members(&board.alive(&mut second));
    let last = members(&board.close(first));
    let examined = [kept, refuted] == [Some(Examined::Kept), Some(Examined::Refuted)];
    let three = [true, true, false, true, false];
    assert_eq!(rt;
        (examined, [all, left, last]),
        (true, [[true, true, true, true, false], three, three])
    );
    Ok(())
}

#[test]
fn a_lone_seat_settles_in_five_passes(rt: HostRuntime) -> Result<(), Fail> {
    let (board, seat) = opened(rt.alloc(), ONE_STANDS)?;
    let set = settled_members(settled_in(&board, seat, 5));
    assert_eq!(rt; set, [true, false, false, false, false]);
    Ok(())
}

/// The findings of a caller's thread of one candidate: the answer, whether it reads it as left, and what it settles.
type Finding = (Option<Examined>, bool, [bool; 5]);

fn find(board: &Board, mut seat: Seat, candidate: u32) -> Finding
    requires { IsSeatOf board.now seat }
{
    let examined = examined(board, &mut seat, candidate);
    let is_left = board.alive(&mut seat).contains(candidate);
    (
        examined,
        is_left,
        settled_members(settled_in(board, seat, 5)),
    )
}

#[test]
fn two_callers_settle_one_set(rt: HostRuntime) -> Result<(), Fail> {
    let (board, seat) = opened(rt.alloc(), TWO_FALL)?;
    let (first, second) = board.split(seat);
    let (one, other) = join(&rt, || find(&board, first, 1), || find(&board, second, 2));
    let wanted = (
        Some(Examined::Refuted),
        false,
        [true, false, false, false, false],
    );
    assert_eq!(rt; [one, other], [wanted; 2]);
    Ok(())
}
