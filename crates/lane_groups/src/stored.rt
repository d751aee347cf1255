//! What the items of a group stored in a round.

ghost use Rattle.std.specs.Prelude.{◌≡◌, ◌≤◌, ℕ, [], false, length};
ghost use Rattle.lane_groups.specs.Owns.{last_at, own_in};

use crate::own::Own;
use crate::strip::Strip;

/// The stores of a group's items in a round: those of the last instruction that stored, of all lanes together, and those before it, lane by
/// lane.
#[derive(Drop)]
pub struct Stored {
    pub own: Vec<Own>,
    pub last: Option<Strip>,
    /// Whether a lane may have stored something before the last instruction.
    pub is_spilled: bool,
    pub ghost spilled: { is_spilled ≡ false → (k : ℕ) → own_in own.items k ≡ [] },
    pub ghost lanes: { (k : ℕ) → length own.items ≤ k → last_at last k ≡ [] },
}
