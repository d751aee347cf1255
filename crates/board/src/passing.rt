//! A pass over all candidates that are left.

ghost use Rattle.std.specs.Prelude.{◌≡◌, ℕ, ◌<◌, length, false, true, [], slice_index_or};
ghost use Rattle.std.specs.List.{All};
ghost use Rattle.supports.specs.Candidates.{IsSupported};
ghost use Rattle.supports.specs.Sets.{members, IsUnsupported};
ghost use Rattle.board.specs.Rule.{Seen};
ghost use Rattle.board.specs.Calls.{IsSeatOf, IsPass, supports_of};

use crate::Seat;
use crate::answers::Passed;
use crate::board::Board;
use supports::Set;

impl Board {
    /// Whether the candidate is in the set, and has an obligation without a listed set inside it.
    fn is_out(&self, set: &Set, candidate: u32) -> bool
        requires { candidate < length (supports_of self.now) }
        ensures out { result ≡ true → (members set.now.words candidate ≡ true) × IsUnsupported (members set.now.words) (slice_index_or (supports_of self.now) candidate []) }
        ensures not_out { result ≡ false → members set.now.words candidate ≡ true → All (IsSupported (members set.now.words)) (slice_index_or (supports_of self.now) candidate []) }
    {
        if !set.contains(candidate) {
            return false;
        }
        !self.supports.is_supported(candidate, set)
    }

    /// Reads such a set once, and refutes each member of it that it does not support. It is settled where there was none.
    pub fn pass(&self, seat: &mut Seat) -> Passed
        requires { IsSeatOf self.now seat.old }
        ensures seat { IsSeatOf self.now seat.new }
        ensures more { (c : ℕ) → Seen seat.old.me.0 c → Seen seat.new.me.0 c }
        ensures pass { IsPass (supports_of self.now) seat.old.me.0 seat.new.me.0 result }
    {
        let set = self.alive(seat);
        let mut refuted = 0;
        for candidate in 0..self.supports.count() {
            if !self.is_out(&set, candidate) {
                continue;
            }
            self.refute(seat, candidate);
            refuted += 1;
        }
        if refuted == 0 {
            Passed::Settled(set)
        } else {
            Passed::Refuted(refuted)
        }
    }
}
