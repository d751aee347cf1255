// What a work-group writes.

ghost use Rattle.semantics.specs.Launch.{Fits};
ghost use Rattle.semantics.specs.Conditions.{Meets};
ghost use Rattle.core_code.specs.View.{kernel as core_seen};
ghost use Rattle.launch.specs.View.{launch as launch_seen, conditions as conditions_seen};
ghost use Rattle.cert_check.specs.View.{typed_of, kept};

use cert_check::Accepted;
use executor::{run, run_group};
use launch::launches::Launch;
use launch_text::read_launch;
use std::alloc::{AllocError, Global};
use std::sync::Wait;
use std::thread::Threads;
use verify::verify;
use words::Open;
use work_item::identity::product_of;
use write_log::WriteLog;

/// Writes how many records a log has, and a line for each.
fn push_records(alloc: Global, out: &mut String, log: &WriteLog) -> Result<(), AllocError> {
    let records = log.records(alloc)?;
    writeln!(out, "{} records", records.len())?;
    for (at, word) in &records {
        writeln!(out, "buffer {} element {}: {}", at.0, at.1, word.value())?;
    }
    Ok(())
}

/// Writes the records that the first group of a launch stores.
#[tactic(auto, unfolding(semantics::specs::Setup::group_count))]
fn push_group(
    alloc: Global,
    out: &mut String,
    accepted: &Accepted,
    launch: &Launch,
) -> Result<(), AllocError>
    requires fits { Fits (core_seen (typed_of accepted.now).1) (launch_seen launch.now) }
    requires meets { Meets (conditions_seen (kept accepted.now)) (launch_seen launch.now) }
{
    if product_of(launch.groups) == 0 {
        return out.push_str("no groups\n");
    }
    let log = run_group(alloc, accepted, launch, 0)?;
    push_records(alloc, out, &log)
}

/// Writes the records that the first group of a launch stores, or the number of the refusal where the launch does not run.
fn push_log<R: Threads + Wait + Sync>(
    rt: &R,
    alloc: Global,
    out: &mut String,
    accepted: &Accepted,
    launch: &Launch,
) -> Result<(), AllocError>
    requires { Fits (core_seen (typed_of accepted.now).1) (launch_seen launch.now) }
{
    match run(rt, alloc, accepted, launch, 1, &Open) {
        Ok(_) => push_group(alloc, out, accepted, launch),
        Err(error) => writeln!(out, "refused {}", error.number()),
    }
}

fn push_of_accepted<R: Threads + Wait + Sync>(
    rt: &R,
    alloc: Global,
    out: &mut String,
    accepted: &Accepted,
    launch: &[u8],
) -> Result<(), AllocError> {
    match read_launch(alloc, accepted.typed(), launch) {
        Ok(launch) => push_log(rt, alloc, out, accepted, &launch),
        Err(error) => writeln!(out, "refused {error}"),
    }
}

/// The log of the first group of a launch, where a certificate is found for the kernel under the conditions.
pub fn push_first_log<R: Threads + Wait + Sync>(
    rt: &R,
    alloc: Global,
    out: &mut String,
    kernel: &[u8],
    conditions: &[u8],
    launch: &[u8],
) -> Result<(), AllocError> {
    match verify(rt, alloc, kernel, conditions, 1) {
        Ok(verified) => push_of_accepted(rt, alloc, out, &verified.accepted, launch),
        Err(error) => writeln!(out, "refused {}", error.number()),
    }
}
