//! What the two answers come to together.

ghost use Rattle.std.specs.Prelude.{ℕ, List};
ghost use Rattle.types.specs.Scope.{Devices};
ghost use Rattle.host_launches.specs.declared.given.Argument.{Argument};
ghost use Rattle.host_launches.specs.declared.given.Range.{Range};
ghost use Rattle.host_answers.specs.Answers.{AreSafe};
ghost use Rattle.host_answers.specs.Meeting.{AreMet, AreSafeLaunches};

/// Where a kernel is safe under conditions, and a launch meets them, the headline holds at each launch of these numbers.
pub fn a_launch_that_is_met_is_safe()
    ensures { (d : Devices) (kernel conditions : List ℕ) (r : Range) (gs : List Argument) → AreSafe d kernel conditions → AreMet d kernel conditions r gs → AreSafeLaunches d kernel conditions r gs }
{}
