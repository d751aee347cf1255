//! The search for a certificate, and its check, narrow or wide.

ghost use Rattle.std.specs.Prelude.{◌≡◌, ℕ, List, Bool, true, false, IfOk, IfErr};
ghost use Rattle.certificate.specs.Certificates.{certificate as certificate_seen};
ghost use Rattle.cert_check.specs.Refusing.{RefusesBy};
ghost use Rattle.proof_search.specs.Searching.{AreSearched, IsCount, TellsOf, text_by};
ghost use Rattle.kernel_reading.specs.Kernels as kernels;
ghost use Rattle.kernel_reading.specs.Kernels.{text_for};
ghost use Rattle.kernel_reading.specs.Sources.{source};
ghost use Rattle.verify.specs.Verifying.{IsVerified, IsVerifiedBy};

use cert_check::error::{CheckError, ShowError};
use cert_check::{Accepted, check_as};
use certificate::Certificate;
use kernel_reading::{Source, narrow};
use proof_search::{Effort, Found, Unwatched, VerifyError, Watcher, find_watched};
use std::alloc::Global;
use std::sync::Wait;
use std::thread::Threads;

/// The number of want of memory.
const MEMORY: u8 = 90;

/// The number of a budget that is too small.
const OVER: u8 = 56;

/// A kernel that is accepted, and the certificate with which it is.
#[derive(Drop)]
pub struct Verified {
    pub accepted: Accepted,
    pub certificate: Certificate,
}

/// The error of `prove` where a certificate that was found does not show what it has to: no findings stand in it.
fn unshown(alloc: Global, error: ShowError) -> VerifyError
    ensures { (is_wide : Bool) (workers : ℕ) (k : kernels.Source) (c : List ℕ) → IsCount workers → AreSearched is_wide k c → TellsOf is_wide result workers k c }
{
    match error {
        ShowError::NotShown(_) => VerifyError::NotShown(Vec::new(alloc)),
        error => VerifyError::Check(CheckError::Show(error)),
    }
}

/// The error of `prove` where the check refuses the certificate that was found.
#[tactic(auto, using(crate::proofs::Unproved::told))]
fn unproved(alloc: Global, error: CheckError) -> VerifyError
    ensures { (is_wide : Bool) (workers : ℕ) (k : kernels.Source) (c p : List ℕ) → IsCount workers → RefusesBy is_wide error k c p → TellsOf is_wide result workers k c }
{
    match error {
        CheckError::Show(error) => unshown(alloc, error),
        error => VerifyError::Check(error),
    }
}

/// A kernel that is proved with this certificate, as the check has it; or why it is not.
fn verify_with(
    alloc: Global,
    kernel: Source<'_>,
    conditions: &[u8],
    found: Found,
    is_wide: bool,
) -> Result<Verified, CheckError>
    requires { found.text.items ≡ text_by is_wide (certificate_seen found.certificate) }
    ensures verified { IfOk result (λ v. IsVerifiedBy is_wide (source kernel.entry) conditions.now (text_by is_wide (certificate_seen v.certificate)) v.accepted) }
    ensures refused { IfErr result (λ e. RefusesBy is_wide e (source kernel.entry) conditions.now found.text.items) }
{
    let Found { certificate, text } = found;
    match check_as(alloc, kernel, conditions, &text, is_wide) {
        Ok(accepted) => Ok(Verified {
            accepted,
            certificate,
        }),
        Err(error) => Err(error),
    }
}

/// A kernel that is proved with the certificate of the narrow walk, or what its search comes to.
fn verify_narrowly<R: Threads + Wait + Sync, W: Watcher>(
    rt: &R,
    alloc: Global,
    kernel: Source<'_>,
    conditions: &[u8],
    effort: Effort,
    watcher: &W,
) -> Result<Verified, VerifyError>
    ensures verified { IfOk result (λ v. IsVerifiedBy effort.is_wide (source kernel.entry) conditions.now (text_by effort.is_wide (certificate_seen v.certificate)) v.accepted) }
    ensures workers { IfOk result (λ _. IsCount effort.workers) }
    ensures told { IfErr result (λ e. TellsOf effort.is_wide e effort.workers (source kernel.entry) conditions.now) }
{
    let narrowly = Effort {
        workers: effort.workers,
        is_wide: effort.is_wide,
        may_widen: false,
    };
    let found = match find_watched(rt, alloc, kernel, conditions, narrowly, watcher) {
        Ok(found) => found,
        Err(error) => return Err(error),
    };
    match verify_with(alloc, kernel, conditions, found, effort.is_wide) {
        Ok(verified) => Ok(verified),
        Err(error) => Err(unproved(alloc, error)),
    }
}

/// A kernel that is proved as by `verify`, or also under conditions of version 2, with so much effort. Where the check
/// does not take what the wide walk found, the answer is what the narrow walk comes to, but where the budget alone is
/// short. Whoever watches is told how far the search is.
pub fn verify_watched<R: Threads + Wait + Sync, W: Watcher>(
    rt: &R,
    alloc: Global,
    kernel: Source<'_>,
    conditions: &[u8],
    effort: Effort,
    watcher: &W,
) -> Result<Verified, VerifyError>
    ensures verified { IfOk result (λ v. IsVerifiedBy effort.is_wide (source kernel.entry) conditions.now (text_by effort.is_wide (certificate_seen v.certificate)) v.accepted) }
    ensures workers { IfOk result (λ _. IsCount effort.workers) }
    ensures told { IfErr result (λ e. TellsOf effort.is_wide e effort.workers (source kernel.entry) conditions.now) }
{
    let found = match find_watched(rt, alloc, kernel, conditions, effort, watcher) {
        Ok(found) => found,
        Err(error) => return Err(error),
    };
    let is_widely_found = found.certificate.is_wide();
    match verify_with(alloc, kernel, conditions, found, effort.is_wide) {
        Ok(verified) => Ok(verified),
        Err(error) => {
            if is_widely_found && error.number() != MEMORY && error.number() != OVER {
                verify_narrowly(rt, alloc, kernel, conditions, effort, watcher)
            } else {
                Err(unproved(alloc, error))
            }
        }
    }
}

/// A kernel and launch conditions, each by its text: the kernel is accepted with the certificate that is found, as the check has it. What
/// is refused first, in this order: the kernel, the conditions, a loop whose barrier an iteration can miss, a number of workers outside 1
/// to 64. That no certificate is found says nothing of the kernel; but what a finding confirms, a launch that meets the conditions does.
pub fn verify<R: Threads + Wait + Sync>(
    rt: &R,
    alloc: Global,
    kernel: &[u8],
    conditions: &[u8],
    workers: u32,
) -> Result<Verified, VerifyError>
    ensures verified { IfOk result (λ v. IsVerified (text_for kernels.narrow kernel.now) conditions.now (certificate_seen v.certificate) v.accepted) }
    ensures workers { IfOk result (λ _. IsCount workers) }
    ensures told { IfErr result (λ e. TellsOf false e workers (text_for kernels.narrow kernel.now) conditions.now) }
{
    let effort = Effort {
        workers,
        is_wide: false,
        may_widen: false,
    };
    verify_watched(rt, alloc, narrow(kernel), conditions, effort, &Unwatched)
}
