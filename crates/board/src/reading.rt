//! Reading a board, and the examination of one candidate.

ghost use Rattle.std.specs.Prelude.{◌≡◌, ◌≢◌, ℕ, ◌<◌, ◌%◌, length, slice_set, List};
ghost use Rattle.std.specs.Int.{bit_at};
ghost use Rattle.supports.specs.Candidates.{IsInGreatest};
ghost use Rattle.supports.specs.Sets.{members, HoldsGreatest};
ghost use Rattle.board.specs.Rule.{Seen};
ghost use Rattle.board.specs.declared.answers.Examined.TheVariants.{Refuted};
ghost use Rattle.board.specs.Calls.{IsSeatOf, IsRead, IsExamination, supports_of};

use crate::answers::Examined;
use crate::board::Board;
use crate::{Dropped, Looked, Seat};
use supports::Set;

/// All bits but the candidate's.
#[tactic(auto, using(crate::proofs::Masks::mask_rows))]
fn all_but(candidate: u32) -> u64
    ensures lacks { bit_at result (candidate % 64) ≡ 0 }
    ensures others { (b : ℕ) → b < 64 → b ≢ candidate % 64 → bit_at result b ≡ 1 }
{
    !(1u64 << (candidate % 64))
}

impl Board {
    fn read(&self, seat: &mut Seat, word: usize) -> u64
        requires { IsSeatOf self.now seat.old × (word < 8) }
        ensures seat { IsSeatOf self.now seat.new }
        ensures left { seat.new.me.0.left ≡ slice_set seat.old.me.0.left word result }
        ensures greatest { HoldsGreatest (supports_of self.now) (members seat.new.me.0.left) }
        ensures more { (c : ℕ) → Seen seat.old.me.0 c → Seen seat.new.me.0 c }
    {
        self.table.shared.load::<Looked>(seat, word)
    }

    /// Takes a candidate off that is not in the greatest set.
    pub(crate) fn refute(&self, seat: &mut Seat, candidate: u32)
        requires seat { IsSeatOf self.now seat.old }
        requires candidate { (candidate < length (supports_of self.now)) × ¬ (IsInGreatest (supports_of self.now) candidate) }
        ensures seat { IsSeatOf self.now seat.new }
        ensures more { (c : ℕ) → Seen seat.old.me.0 c → Seen seat.new.me.0 c }
        ensures seen { Seen seat.new.me.0 candidate }
    {
        let mask = all_but(candidate);
        self.table
            .shared
            .fetch_and::<Dropped>(seat, (candidate / 64) as usize, mask);
    }

    /// A set that holds the greatest one and lacks all that the seat had seen. What it lacks, the seat has seen then.
    pub fn alive(&self, seat: &mut Seat) -> Set
        requires { IsSeatOf self.now seat.old }
        ensures seat { IsSeatOf self.now seat.new }
        ensures read { IsRead self.now seat.old seat.new result.words }
        ensures more { (c : ℕ) → Seen seat.old.me.0 c → Seen seat.new.me.0 c }
    {
        let a = self.read(seat, 0);
        let b = self.read(seat, 1);
        let c = self.read(seat, 2);
        let d = self.read(seat, 3);
        let e = self.read(seat, 4);
        let f = self.read(seat, 5);
        let g = self.read(seat, 6);
        let h = self.read(seat, 7);
        let words = [a, b, c, d, e, f, g, h];
        Set { words }
    }

    /// Reads such a set, and answers whether it lacks the candidate or a listed set for one of its obligations.
    pub fn examine(&self, seat: &mut Seat, candidate: u32) -> Examined
        requires seat { IsSeatOf self.now seat.old }
        requires candidate { candidate < length (supports_of self.now) }
        ensures seat { IsSeatOf self.now seat.new }
        ensures more { (c : ℕ) → Seen seat.old.me.0 c → Seen seat.new.me.0 c }
        ensures exact { (words : List ℕ) × IsRead self.now seat.old seat.new words × IsExamination (supports_of self.now) words candidate result }
        ensures refuted { (result ≡ Refuted) → Seen seat.new.me.0 candidate × ¬ (IsInGreatest (supports_of self.now) candidate) }
    {
        let set = self.alive(seat);
        if !set.contains(candidate) {
            return Examined::Refuted;
        }
        if self.supports.is_supported(candidate, &set) {
            return Examined::Kept;
        }
        self.refute(seat, candidate);
        Examined::Refuted
    }
}
