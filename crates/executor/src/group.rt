//! The run of a work-group.

ghost use Rattle.std.specs.Prelude.{◌≡◌, ◌<◌, ℕ, IfOk};
ghost use Rattle.semantics.specs.Launch.{Fits};
ghost use Rattle.semantics.specs.Conditions.{Meets};
ghost use Rattle.semantics.specs.Setup.{group_count, at_launch};
ghost use Rattle.semantics.specs.Rounds.{group_log};
ghost use Rattle.core_code.specs.View.{kernel as core_seen};
ghost use Rattle.launch.specs.View.{launch as launch_seen, conditions as conditions_seen};
ghost use Rattle.cert_check.specs.View.{typed_of, kept};
ghost use Rattle.write_log.specs.Written.{written};

use cert_check::Accepted;
use kernel_code::lower;
use lane_groups::laws::lane_logs_are_by_rounds;
use launch::launches::Launch;
use semantics::honesty::launches_begin_kept;
use std::alloc::{AllocError, Global};
use write_log::WriteLog;

/// Runs a work-group, round by round, of a launch that meets the conditions: what it stores is the group's log of the result by rounds.
pub fn run_group(
    alloc: Global,
    accepted: &Accepted,
    launch: &Launch,
    group: u64,
) -> Result<WriteLog, AllocError>
    requires fits { Fits (core_seen (typed_of accepted.now).1) (launch_seen launch.now) }
    requires meets { Meets (conditions_seen (kept accepted.now)) (launch_seen launch.now) }
    requires group { group < group_count (at_launch (core_seen (typed_of accepted.now).1) (launch_seen launch.now)) }
    ensures { IfOk result (λ log. (buffer index : ℕ) → written log buffer index ≡ group_log (at_launch (core_seen (typed_of accepted.now).1) (launch_seen launch.now)) (kept accepted.now).budget group buffer index) }
{
    let typed = accepted.typed();
    let budget = accepted.conditions().budget;
    let code = lower(alloc, typed)?;
    launches_begin_kept();
    lane_logs_are_by_rounds();
    lane_groups::run_group(alloc, typed.core(), launch, &code, budget, group)
}
