//! The run of a launch on the calling thread.

ghost use Rattle.std.specs.Prelude.{IfOk};
ghost use Rattle.semantics.specs.Word.{Width};
ghost use Rattle.semantics.specs.Setup.{at_launch, on_device};
ghost use Rattle.semantics.specs.Launch.{Fits};
ghost use Rattle.semantics.specs.Conditions.{Meets};
ghost use Rattle.semantics.specs.Rounds.{IsDefined};
ghost use Rattle.core_code.specs.View.{kernel as core_seen};
ghost use Rattle.launch.specs.View.{launch as launch_seen, conditions as conditions_seen};
ghost use Rattle.cert_check.specs.View.{typed_of, kept};
ghost use Rattle.write_log.specs.Written.{words_of};
ghost use Rattle.executor.specs.Ends.{IsResultOf, EndsEvery, HaveKinds};
ghost use Rattle.executor.specs.Kinds.{typed};
ghost use Rattle.executor.specs.Results.{Answers};

use crate::asking::can_run_accepted;
use crate::error::RunError;
use crate::running::{answered, copy};
use cert_check::Accepted;
use group_workers::Task;
use kernel_code::lower;
use lane_groups::laws::lane_logs_are_by_rounds;
use launch::launches::{Buffers, Launch};
use launch::meets::meets;
use semantics::honesty::launches_begin_kept;
use std::alloc::{AllocError, Global};

/// Runs the groups of a launch, one after the other.
fn run_groups_here(
    alloc: Global,
    accepted: &Accepted,
    launch: &Launch,
) -> Result<Buffers, AllocError>
    requires fits { Fits (core_seen (typed_of accepted.now).1) (launch_seen launch.now) }
    requires meets { Meets (conditions_seen (kept accepted.now)) (launch_seen launch.now) }
    ensures { IfOk result (λ b. IsResultOf (at_launch (core_seen (typed_of accepted.now).1) (launch_seen launch.now)) (kept accepted.now).budget (words_of b)) }
{
    let mut buffers = copy(alloc, &launch.buffers)?;
    let typed = accepted.typed();
    let code = lower(alloc, typed)?;
    let task = Task {
        core: typed.core(),
        code: &code,
        launch,
        budget: accepted.conditions().budget,
    };
    group_workers::run_groups_here(alloc, task, &mut buffers)?;
    launches_begin_kept();
    lane_logs_are_by_rounds();
    Ok(buffers)
}

/// Runs an accepted kernel as `run` does with one worker, on the calling thread: no thread is started, and nothing is waited for.
pub fn run_here(alloc: Global, accepted: &Accepted, launch: &Launch) -> Result<Buffers, RunError>
    requires { Fits (core_seen (typed_of accepted.now).1) (launch_seen launch.now) }
    ensures answers { Answers (core_seen (typed_of accepted.now).1) (kept accepted.now) (launch_seen launch.now) 1 result }
    ensures value { IfOk result (λ b. (w : Width) → IsResultOf (on_device w (at_launch (core_seen (typed_of accepted.now).1) (launch_seen launch.now))) (kept accepted.now).budget (words_of b)) }
    ensures kinds { IfOk result (λ b. HaveKinds (core_seen (typed_of accepted.now).1).buffers (typed b)) }
    ensures every { IfOk result (λ b. (w : Width) → EndsEvery (on_device w (at_launch (core_seen (typed_of accepted.now).1) (launch_seen launch.now))) (words_of b)) }
    ensures meets { IfOk result (λ _. Meets (conditions_seen (kept accepted.now)) (launch_seen launch.now)) }
    ensures defined { IfOk result (λ _. (w : Width) → IsDefined (on_device w (at_launch (core_seen (typed_of accepted.now).1) (launch_seen launch.now))) (kept accepted.now).budget) }
{
    can_run_accepted(accepted)?;
    meets(accepted.conditions(), launch)?;
    let buffers = run_groups_here(alloc, accepted, launch)?;
    let answer = answered(alloc, accepted, launch, &buffers)?;
    Ok(answer)
}
