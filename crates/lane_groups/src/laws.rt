//! Lane code against the result by rounds.

ghost use Rattle.std.specs.Prelude.{◌≡◌, ◌<◌, ℕ, List};
ghost use Rattle.semantics.specs.Launch.{Fits};
ghost use Rattle.semantics.specs.Setup.{Setup, group_size, group_count};
ghost use Rattle.semantics.specs.Memory.{opening_memory};
ghost use Rattle.semantics.specs.Conditions.{Content};
ghost use Rattle.semantics.specs.Contents.{IsKept};
ghost use Rattle.semantics.specs.Safety.{IsPairSafeWithin};
ghost use Rattle.semantics.specs.Rounds.{group_log};
ghost use Rattle.lanes.specs.Lowering.{IsOrderly};
ghost use Rattle.lanes.specs.Plain.{IsPlain};
ghost use Rattle.lane_groups.specs.Logs.{lane_log};

use lanes::laws::lane_code_is_by_rounds;

/// At a launch with exact sizes, on a device that does not heed when it is asked, at which an orderly kernel is pair-safe within a budget,
/// in the solo runs that are answered by what lines of conditions let buffers hold, and begins with memory that holds it, the log of a
/// work-group's lane code is that of its rounds.
pub fn lane_logs_are_by_rounds()
    ensures { (cs : List Content) (s : Setup) → IsPlain s → (bound g array index : ℕ) → 0 < group_size s → g < group_count s → Fits s.kernel s.launch → ∥ IsOrderly s.kernel ∥₁ → IsPairSafeWithin cs s bound → IsKept s cs (opening_memory s) → lane_log s bound g array index ≡ group_log s bound g array index }
{
    lane_code_is_by_rounds();
}
