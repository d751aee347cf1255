//! The run of a launch.

ghost use Rattle.std.specs.Prelude.{◌≡◌, ◌≤◌, ℕ, IfOk, map, length};
ghost use Rattle.semantics.specs.Word.{Width};
ghost use Rattle.semantics.specs.Setup.{at_launch, on_device};
ghost use Rattle.semantics.specs.Launch.{Fits};
ghost use Rattle.semantics.specs.Conditions.{Meets};
ghost use Rattle.core_code.specs.View.{kernel as core_seen};
ghost use Rattle.launch.specs.View.{launch as launch_seen, conditions as conditions_seen};
ghost use Rattle.cert_check.specs.View.{typed_of, kept};
ghost use Rattle.semantics.specs.Rounds.{IsDefined};
ghost use Rattle.write_log.specs.Written.{words_of};
ghost use Rattle.executor.specs.Ends.{IsResultOf, EndsEvery, HaveKinds};
ghost use Rattle.executor.specs.Kinds.{typed};
ghost use Rattle.executor.specs.Results.{Answers};

use crate::asking::can_run_accepted;
use crate::error::RunError;
use crate::kinds::of_parameters;
use cert_check::Accepted;
use group_workers::Task;
use kernel_code::lower;
use lane_groups::laws::lane_logs_are_by_rounds;
use launch::launches::{Buffers, Launch};
use launch::meets::meets;
use reduction::{headline_defines_the_result, pair_safe_within_on_devices};
use semantics::honesty::launches_begin_kept;
use std::alloc::{AllocError, Global};
use std::sync::Wait;
use std::thread::Threads;
use words::Gate;

/// The buffers of a launch once more.
pub(crate) fn copy(alloc: Global, buffers: &Buffers) -> Result<Buffers, AllocError>
    ensures { IfOk result (λ b. words_of b ≡ words_of buffers.now) }
{
    let mut words = Vec::with_capacity(alloc, buffers.words.len())?;
    for row in &buffers.words {
        words.push(Vec::from_slice(alloc, row.as_slice())?)?;
    }
    Ok(Buffers { words })
}

/// Runs the groups of a launch, by so many workers.
fn run_groups<R: Threads + Wait + Sync, G: Gate>(
    rt: &R,
    alloc: Global,
    accepted: &Accepted,
    launch: &Launch,
    workers: u32,
    gate: &G,
) -> Result<Buffers, AllocError>
    requires fits { Fits (core_seen (typed_of accepted.now).1) (launch_seen launch.now) }
    requires meets { Meets (conditions_seen (kept accepted.now)) (launch_seen launch.now) }
    requires workers { (1 ≤ workers) × (workers ≤ 64) }
    ensures { IfOk result (λ b. IsResultOf (at_launch (core_seen (typed_of accepted.now).1) (launch_seen launch.now)) (kept accepted.now).budget (words_of b)) }
{
    let mut buffers = copy(alloc, &launch.buffers)?;
    let typed = accepted.typed();
    let code = lower(alloc, typed)?;
    let task = Task {
        core: typed.core(),
        code: &code,
        launch,
        budget: accepted.conditions().budget,
    };
    group_workers::run_groups(rt, alloc, task, workers, gate, &mut buffers)?;
    launches_begin_kept();
    lane_logs_are_by_rounds();
    Ok(buffers)
}

/// What a run answers whose groups ended with these buffers.
pub(crate) fn answered(
    alloc: Global,
    accepted: &Accepted,
    launch: &Launch,
    buffers: &Buffers,
) -> Result<Buffers, AllocError>
    requires fits { Fits (core_seen (typed_of accepted.now).1) (launch_seen launch.now) }
    requires meets { Meets (conditions_seen (kept accepted.now)) (launch_seen launch.now) }
    requires ended { IsResultOf (at_launch (core_seen (typed_of accepted.now).1) (launch_seen launch.now)) (kept accepted.now).budget (words_of buffers.now) }
    ensures value { IfOk result (λ b. (w : Width) → IsResultOf (on_device w (at_launch (core_seen (typed_of accepted.now).1) (launch_seen launch.now))) (kept accepted.now).budget (words_of b)) }
    ensures kinds { IfOk result (λ b. HaveKinds (core_seen (typed_of accepted.now).1).buffers (typed b)) }
    ensures every { IfOk result (λ b. (w : Width) → EndsEvery (on_device w (at_launch (core_seen (typed_of accepted.now).1) (launch_seen launch.now))) (words_of b)) }
    ensures defined { IfOk result (λ _. (w : Width) → IsDefined (on_device w (at_launch (core_seen (typed_of accepted.now).1) (launch_seen launch.now))) (kept accepted.now).budget) }
{
    launches_begin_kept();
    pair_safe_within_on_devices();
    headline_defines_the_result();
    let _conditions = accepted.conditions();
    let answer = of_parameters(alloc, accepted, buffers)?;
    Ok(answer)
}

/// Runs an accepted kernel at a launch that fits it: the result by rounds, whatever the number of workers, and so what each
/// interleaving of all work-items that is over ends with, however many bits sizes have. Each worker has a thread of its own, but worker 1,
/// which is the calling thread; where there are fewer groups as many are started, and a worker whose thread cannot be started is run by the
/// one before it in its turn, with the same answers. `gate` is told which groups a worker has claimed and has run, and that it ends, and
/// changes no answer. Each word that is answered has the kind of its buffer's parameter, whatever kind the launch's word has. A kernel with
/// an operation that is not reckoned is refused.
pub fn run<R: Threads + Wait + Sync, G: Gate>(
    rt: &R,
    alloc: Global,
    accepted: &Accepted,
    launch: &Launch,
    workers: u32,
    gate: &G,
) -> Result<Buffers, RunError>
    requires { Fits (core_seen (typed_of accepted.now).1) (launch_seen launch.now) }
    ensures answers { Answers (core_seen (typed_of accepted.now).1) (kept accepted.now) (launch_seen launch.now) workers result }
    ensures value { IfOk result (λ b. (w : Width) → IsResultOf (on_device w (at_launch (core_seen (typed_of accepted.now).1) (launch_seen launch.now))) (kept accepted.now).budget (words_of b)) }
    ensures kinds { IfOk result (λ b. HaveKinds (core_seen (typed_of accepted.now).1).buffers (typed b)) }
    ensures every { IfOk result (λ b. (w : Width) → EndsEvery (on_device w (at_launch (core_seen (typed_of accepted.now).1) (launch_seen launch.now))) (words_of b)) }
    ensures meets { IfOk result (λ _. Meets (conditions_seen (kept accepted.now)) (launch_seen launch.now)) }
    ensures defined { IfOk result (λ _. (w : Width) → IsDefined (on_device w (at_launch (core_seen (typed_of accepted.now).1) (launch_seen launch.now))) (kept accepted.now).budget) }
{
    can_run_accepted(accepted)?;
    meets(accepted.conditions(), launch)?;
    if workers < 1 || workers > 64 {
        return Err(RunError::Workers);
    }
    let buffers = run_groups(rt, alloc, accepted, launch, workers, gate)?;
    let answer = answered(alloc, accepted, launch, &buffers)?;
    Ok(answer)
}
