//! The certificate that is looked for, with its text.

ghost use Rattle.std.specs.Prelude.{◌≡◌, ℕ, List, Bool, true, false, IfOk, IfErr, IfSome, MatchResult};
ghost use Rattle.core_code.specs.View.{kernel as core_seen};
ghost use Rattle.typed_kernels.specs.TypedKernel.{TypedKernel};
ghost use Rattle.launch.specs.declared.conditions.Conditions as code;
ghost use Rattle.launch_text.specs.Fits.{IsOf};
ghost use Rattle.launch_text.specs.View.{lined};
ghost use Rattle.work_item.specs.Proper.{is_proper};
ghost use Rattle.facts.specs.Launching.{are_sizes};
ghost use Rattle.places.specs.Answers.{IsRefused};
ghost use Rattle.launch_text.specs.ConditionsReading.{Lined};
ghost use Rattle.certificate_text.specs.NumberedText.{text_of_two};
ghost use Rattle.certificate.specs.Certificates.{certificate as certificate_seen};
ghost use Rattle.cert_check.specs.Refusing.{AreRead};
ghost use Rattle.kernel_reading.specs.Kernels as kernels;
ghost use Rattle.kernel_reading.specs.Kernels.{text_for};
ghost use Rattle.kernel_reading.specs.Sources.{source};
ghost use Rattle.proof_search.specs.Searching.{IsCount, IsNoCount, Ends, TellsOf, text_found, text_by};
ghost use Rattle.proof_search.specs.declared.error.VerifyError.TheVariants as errors;

use crate::error::VerifyError;
use crate::shortfall::findings_of;
use crate::widening::{is_long, is_over, may_widen};
use cert_check::error::{CheckError, ShowError};
use certificate::{Certificate, LIMIT, write, write_wide};
use certificate_search::{Missing, SearchError, Unwatched, Watcher, search};
use facts::WalkError;
use guess_walk::Subject;
use kernel_names::site_at;
use kernel_reading::laws::{bytes_are_the_text_of_what_is_read, local_sizes_are_within_limits};
use kernel_reading::{Source, narrow, read_source};
use launch::conditions::Conditions;
use launch_text::laws::what_is_read_of_conditions_is_their_text;
use launch_text::read_conditions_as;
use places::{Place, PlaceError, places};
use shown_kernels::proper::what_is_read_is_proper;
use std::alloc::{AllocError, Global};
use std::thread::Threads;
use typed_kernels::Typed;
use walk::FindError;

/// A certificate that was found, with its text.
#[derive(Drop)]
pub struct Found {
    pub certificate: Certificate,
    pub text: Vec<u8>,
}

/// The refusal of a kernel whose places cannot be walked to an end.
fn unwalked(typed: &Typed, error: FindError) -> VerifyError
    ensures { (t : TypedKernel) (c : code.Conditions) → Ends t c result }
{
    match error {
        FindError::ManyPaths(statement) => {
            VerifyError::Check(CheckError::ManyPaths(site_at(typed.names(), statement)))
        }
        FindError::Walk(WalkError::Memory) => VerifyError::Memory,
        FindError::Walk(error) => VerifyError::Check(CheckError::Show(ShowError::Walk(error))),
    }
}

/// The refusal by 60, with findings of the obligations that are not shown.
fn lacking(
    alloc: Global,
    typed: &Typed,
    conditions: &Conditions,
    missing: &[Missing],
) -> VerifyError
    requires proper { is_proper (core_seen typed.now.1) ≡ true }
    requires of { IsOf (core_seen typed.now.1) (lined conditions.now) }
    ensures { Ends typed.now conditions.now result }
{
    match findings_of(alloc, typed, conditions, missing) {
        Ok(findings) => VerifyError::NotShown(findings),
        Err(_) => VerifyError::Memory,
    }
}

/// The refusal where the search finds no certificate.
fn unfound(alloc: Global, typed: &Typed, conditions: &Conditions, error: SearchError) -> VerifyError
    requires proper { is_proper (core_seen typed.now.1) ≡ true }
    requires of { IsOf (core_seen typed.now.1) (lined conditions.now) }
    ensures { Ends typed.now conditions.now result }
{
    match error {
        SearchError::NotShown(missing) => lacking(alloc, typed, conditions, missing.as_slice()),
        SearchError::Unsaid | SearchError::Workers => lacking(alloc, typed, conditions, &[]),
        SearchError::Walk(error) => unwalked(typed, error),
    }
}

/// The refusal by 55: a loop with a barrier can miss it; or want of memory.
fn unplaced(typed: &Typed, error: PlaceError) -> VerifyError
    requires { IsRefused (core_seen typed.now.1).body error }
    ensures { (is_wide : Bool) (found : Lined) (workers : ℕ) (kernel : kernels.Source) (conditions : List ℕ) → AreRead is_wide typed.now found kernel conditions → TellsOf is_wide result workers kernel conditions }
{
    match error {
        PlaceError::Missed(number) => {
            VerifyError::Check(CheckError::Missed(site_at(typed.names(), Some(number))))
        }
        PlaceError::Memory => VerifyError::Memory,
    }
}

/// Fails where the number of workers is not 1 to 64.
fn counted(workers: u32) -> Result<(), VerifyError>
    ensures { MatchResult result (λ _. IsCount workers) (λ e. (e ≡ errors.Workers) × IsNoCount workers) }
{
    if 1 <= workers && workers <= 64 {
        Ok(())
    } else {
        Err(VerifyError::Workers)
    }
}

/// A certificate with its text, of at most so many bytes as are read.
fn with_text(alloc: Global, certificate: Certificate) -> Result<Found, VerifyError>
    ensures written { IfOk result (λ f. f.text.items ≡ text_of_two (certificate_seen f.certificate)) }
    ensures ends { IfErr result (λ e. (t : TypedKernel) (c : code.Conditions) → Ends t c e) }
{
    let Ok(text) = write(alloc, &certificate) else {
        return Err(VerifyError::Memory);
    };
    if text.len() > LIMIT {
        return Err(VerifyError::TooLong);
    }
    Ok(Found { certificate, text })
}

/// The text of a certificate, of version 4 where its walk is the wide one.
fn any_text(alloc: Global, certificate: &Certificate) -> Result<Vec<u8>, AllocError>
    ensures { IfOk result (λ v. v.items ≡ text_found (certificate_seen certificate.now)) }
{
    if certificate.is_wide() {
        write_wide(alloc, certificate)
    } else {
        write(alloc, certificate)
    }
}

/// A certificate with its text, of version 4 where its walk is the wide one, of at most so many bytes as are read.
fn with_any_text(alloc: Global, certificate: Certificate) -> Result<Found, VerifyError>
    ensures written { IfOk result (λ f. f.text.items ≡ text_found (certificate_seen f.certificate)) }
    ensures ends { IfErr result (λ e. (t : TypedKernel) (c : code.Conditions) → Ends t c e) }
{
    let Ok(text) = any_text(alloc, &certificate) else {
        return Err(VerifyError::Memory);
    };
    if text.len() > LIMIT {
        return Err(VerifyError::TooLong);
    }
    Ok(Found { certificate, text })
}

/// The certificate that one walk finds for a kernel under conditions.
fn looked_for<R: Threads + Sync, W: Watcher>(
    rt: &R,
    alloc: Global,
    subject: Subject<'_>,
    workers: u32,
    watcher: &W,
) -> Result<Certificate, VerifyError>
    requires proper { is_proper (core_seen subject.typed.now.1) ≡ true }
    requires of { IsOf (core_seen subject.typed.now.1) (lined subject.conditions.now) }
    ensures { IfErr result (Ends subject.entry.typed.now subject.entry.conditions.now) }
{
    match search(rt, alloc, subject, workers, watcher) {
        Ok(certificate) => Ok(certificate),
        Err(error) => Err(unfound(alloc, subject.typed, subject.conditions, error)),
    }
}

/// The certificate that the narrow walk finds, with its text of version 2.
fn found_narrowly<R: Threads + Sync, W: Watcher>(
    rt: &R,
    alloc: Global,
    subject: Subject<'_>,
    workers: u32,
    watcher: &W,
) -> Result<Found, VerifyError>
    requires proper { is_proper (core_seen subject.typed.now.1) ≡ true }
    requires of { IsOf (core_seen subject.typed.now.1) (lined subject.conditions.now) }
    ensures written { IfOk result (λ f. f.text.items ≡ text_of_two (certificate_seen f.certificate)) }
    ensures ends { IfErr result (Ends subject.entry.typed.now subject.entry.conditions.now) }
{
    match looked_for(rt, alloc, subject, workers, watcher) {
        Ok(certificate) => with_text(alloc, certificate),
        Err(error) => Err(error),
    }
}

/// The certificate that a walk finds, with its text.
fn found_by_walk<R: Threads + Sync, W: Watcher>(
    rt: &R,
    alloc: Global,
    subject: Subject<'_>,
    workers: u32,
    watcher: &W,
) -> Result<Found, VerifyError>
    requires proper { is_proper (core_seen subject.typed.now.1) ≡ true }
    requires of { IsOf (core_seen subject.typed.now.1) (lined subject.conditions.now) }
    ensures written { IfOk result (λ f. f.text.items ≡ text_found (certificate_seen f.certificate)) }
    ensures ends { IfErr result (Ends subject.entry.typed.now subject.entry.conditions.now) }
{
    match looked_for(rt, alloc, subject, workers, watcher) {
        Ok(certificate) => with_any_text(alloc, certificate),
        Err(error) => Err(error),
    }
}

/// The certificate that the wide walk finds, with its text, where it keeps within the budget, or need not.
fn found_widely<R: Threads + Sync, W: Watcher>(
    rt: &R,
    alloc: Global,
    subject: Subject<'_>,
    workers: u32,
    watcher: &W,
    may_be_over: bool,
) -> Option<Found>
    ensures { IfSome result (λ f. f.text.items ≡ text_found (certificate_seen f.certificate)) }
{
    let wide = Subject {
        typed: subject.typed,
        conditions: subject.conditions,
        places: subject.places,
        is_wide: true,
        joins: false,
    };
    let Ok(certificate) = search(rt, alloc, wide, workers, watcher) else {
        return None;
    };
    if !may_be_over && is_over(alloc, &wide, &certificate) {
        return None;
    }
    match with_any_text(alloc, certificate) {
        Ok(found) => Some(found),
        Err(_) => None,
    }
}

/// The wide walk may show what was not shown, keep within the budget that a certificate passes, or find a shorter one in place of a long
/// one.
fn is_open(alloc: Global, subject: &Subject<'_>, narrow: &Result<Found, VerifyError>) -> bool {
    match narrow {
        Ok(found) => is_long(&found.text) || is_over(alloc, subject, &found.certificate),
        Err(error) => may_widen(error),
    }
}

/// The wide walk found a certificate, which is the only one that keeps within the budget, or the shorter one.
fn is_better(
    alloc: Global,
    subject: &Subject<'_>,
    narrow: &Result<Found, VerifyError>,
    wide: &Option<Found>,
) -> bool {
    match (narrow, wide) {
        (_, None) => false,
        (Err(_), Some(_)) => true,
        (Ok(narrow), Some(wide)) => {
            wide.text.len() < narrow.text.len() || is_over(alloc, subject, &narrow.certificate)
        }
    }
}

/// The certificate that the narrow walk finds, with its text; or, where that is not enough or long, the one that the wide walk finds. Where
/// both fail, what the narrow walk comes to. Where the narrow walk finds none, the other one's may pass the budget, which alone is short
/// then.
fn found_by_either<R: Threads + Sync, W: Watcher>(
    rt: &R,
    alloc: Global,
    subject: Subject<'_>,
    workers: u32,
    watcher: &W,
) -> Result<Found, VerifyError>
    requires proper { is_proper (core_seen subject.typed.now.1) ≡ true }
    requires of { IsOf (core_seen subject.typed.now.1) (lined subject.conditions.now) }
    ensures written { IfOk result (λ f. f.text.items ≡ text_found (certificate_seen f.certificate)) }
    ensures ends { IfErr result (Ends subject.entry.typed.now subject.entry.conditions.now) }
{
    let narrow = found_by_walk(rt, alloc, subject, workers, watcher);
    if !is_open(alloc, &subject, &narrow) {
        return narrow;
    }
    let wide = found_widely(rt, alloc, subject, workers, watcher, narrow.is_err());
    if !is_better(alloc, &subject, &narrow, &wide) {
        return narrow;
    }
    match wide {
        Some(found) => Ok(found),
        None => narrow,
    }
}

/// The effort of a search: its number of workers, whether conditions of version 2 are read, and whether the wide walk
/// may be tried.
#[derive(Clone, Copy)]
pub struct Effort {
    pub workers: u32,
    pub is_wide: bool,
    pub may_widen: bool,
}

/// The certificate that is found for a kernel under conditions, with its text.
fn searched<R: Threads + Sync, W: Watcher>(
    rt: &R,
    alloc: Global,
    typed: &Typed,
    conditions: &Conditions,
    places: &[Place<'_>],
    effort: Effort,
    watcher: &W,
) -> Result<Found, VerifyError>
    requires sizes { are_sizes (core_seen typed.now.1).sizes ≡ true }
    requires proper { is_proper (core_seen typed.now.1) ≡ true }
    requires of { IsOf (core_seen typed.now.1) (lined conditions.now) }
    ensures written { IfOk result (λ f. f.text.items ≡ text_by effort.is_wide (certificate_seen f.certificate)) }
    ensures ends { IfErr result (Ends typed.now conditions.now) }
{
    let subject = Subject {
        typed,
        conditions,
        places,
        is_wide: false,
        joins: false,
    };
    if effort.is_wide {
        if effort.may_widen {
            found_by_either(rt, alloc, subject, effort.workers, watcher)
        } else {
            found_by_walk(rt, alloc, subject, effort.workers, watcher)
        }
    } else {
        found_narrowly(rt, alloc, subject, effort.workers, watcher)
    }
}

/// A certificate with its text for a kernel and launch conditions, each by its text, with so much effort: as by `find`,
/// or also under conditions of version 2, by the narrow walk or by both. Where both fail, the answer is what the narrow
/// one comes to; a text is of version 4 where the wide one found it. Whoever watches is told how far the search is, and
/// what is found does not depend on it.
pub fn find_watched<R: Threads + Sync, W: Watcher>(
    rt: &R,
    alloc: Global,
    kernel: Source<'_>,
    conditions: &[u8],
    effort: Effort,
    watcher: &W,
) -> Result<Found, VerifyError>
    ensures written { IfOk result (λ f. f.text.items ≡ text_by effort.is_wide (certificate_seen f.certificate)) }
    ensures workers { IfOk result (λ _. IsCount effort.workers) }
    ensures told { IfErr result (λ e. TellsOf effort.is_wide e effort.workers (source kernel.entry) conditions.now) }
{
    bytes_are_the_text_of_what_is_read();
    what_is_read_of_conditions_is_their_text();
    what_is_read_is_proper();
    let typed = match read_source(alloc, kernel) {
        Ok(typed) => typed,
        Err(error) => return Err(VerifyError::Check(CheckError::Kernel(error))),
    };
    let conditions = match read_conditions_as(alloc, &typed, conditions, effort.is_wide) {
        Ok(conditions) => conditions,
        Err(error) => return Err(VerifyError::Check(CheckError::Conditions(error))),
    };
    let all = match places(alloc, typed.core()) {
        Ok(all) => all,
        Err(error) => return Err(unplaced(&typed, error)),
    };
    match counted(effort.workers) {
        Ok(()) => {}
        Err(error) => return Err(error),
    }
    local_sizes_are_within_limits();
    searched(
        rt,
        alloc,
        &typed,
        &conditions,
        all.as_slice(),
        effort,
        watcher,
    )
}

/// A certificate with its text for a kernel and launch conditions, each by its text. What is refused first, in this order: the kernel, the
/// conditions, a loop whose barrier an iteration can miss, the number of workers; and then what the search finds. Conditions are of
/// version 1.
pub fn find<R: Threads + Sync>(
    rt: &R,
    alloc: Global,
    kernel: &[u8],
    conditions: &[u8],
    workers: u32,
) -> Result<Found, VerifyError>
    ensures written { IfOk result (λ f. f.text.items ≡ text_of_two (certificate_seen f.certificate)) }
    ensures workers { IfOk result (λ _. IsCount workers) }
    ensures told { IfErr result (λ e. TellsOf false e workers (text_for kernels.narrow kernel.now) conditions.now) }
{
    let effort = Effort {
        workers,
        is_wide: false,
        may_widen: false,
    };
    find_watched(rt, alloc, narrow(kernel), conditions, effort, &Unwatched)
}
