//! A board from its opening to its end.

ghost use Rattle.std.specs.Prelude.{◌≡◌, ℕ, ◌≤◌, length, IfOk, false};
ghost use Rattle.supports.specs.Sets.{members, HoldsGreatest};
ghost use Rattle.board.specs.Rule.{Seen};
ghost use Rattle.board.specs.Calls.{IsSeatOf, supports_of};

use crate::board::Board;
use crate::error::BoardError;
use crate::{Alike, Seat};
use atomic_table::Table;
use std::alloc::Global;
use supports::{Set, Supports};

impl Board {
    /// A board that holds all candidates, and its first seat, which has seen nothing.
    pub fn open(alloc: Global, supports: &Supports) -> Result<(Board, Seat), BoardError>
        ensures { IfOk result (λ b. (supports_of b.0 ≡ supports.now) × IsSeatOf b.0 b.1 × ((c : ℕ) → ¬ (Seen b.1.me.0 c))) }
    {
        let kept = supports.again()?;
        let set = Set::below(supports.count());
        let (table, seat) = Table::of_words(alloc, &set.words, supports)?;
        Ok((
            Board {
                supports: kept,
                table,
            },
            seat,
        ))
    }

    /// The number of candidates on the board.
    pub fn count(&self) -> u32
        ensures { (result ≡ length (supports_of self.now)) × (result ≤ 512) }
    {
        self.supports.count()
    }

    /// Splits a seat into two that have seen the same.
    pub fn split(&self, mut seat: Seat) -> (Seat, Seat)
        requires { IsSeatOf self.now seat }
        ensures first { IsSeatOf self.now result.0 × (result.0.me ≡ seat.me) }
        ensures second { IsSeatOf self.now result.1 × (result.1.me ≡ seat.me) }
    {
        let other = self.table.shared.split_seat::<Alike>(&mut seat);
        (seat, other)
    }

    /// Ends the board, and gives the set that is left: it holds the greatest one and lacks all that the seat had seen refuted.
    pub fn close(self, seat: Seat) -> Set
        requires { IsSeatOf self seat }
        ensures greatest { HoldsGreatest (supports_of self) (members result.words) }
        ensures lacks { (c : ℕ) → Seen seat.me.0 c → members result.words c ≡ false }
    {
        let Board { supports: _, table } = self;
        let closed = table.close_with(seat);
        let mut words = [0; 8];
        for i in 0..8 {
            words[i] = closed.word(i);
        }
        closed.free();
        Set { words }
    }
}
