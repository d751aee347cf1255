//! Refusals, told and explained.

ghost use Rattle.std.specs.Prelude.{◌≡◌, ℕ, List, Bool};
ghost use Rattle.std.specs.String.{string_bytes};
ghost use Rattle.cert_check.specs.Refusing.{RefusesBy};
ghost use Rattle.proof_search.specs.Searching.{TellsOf};
ghost use Rattle.kernel_reading.specs.Kernels as kernels;
ghost use Rattle.kernel_reading.specs.Sources.{source};
ghost use Rattle.telling.specs.ProvingVerdicts.{Explains, ExplainsCheck, GoesOn, GoesFurther};

use crate::proving::{Proved, Sought, findings_of, found, unproved};
use crate::refusal::Refusal;
use crate::trying::Trials;
use crate::{Texts, Verdict};
use cert_check::check_as;
use cert_check::error::{CheckError, Pointer};
use core_code::tree::Site;
use explaining::{Cuts, Outlook, Refused, computes_with_sizes, explain, explain_sizes};
use kernel_reading::laws::bytes_are_the_text_of_what_is_read;
use kernel_reading::{Reading, Source};
use launch::conditions::Conditions;
use launch::probe::probe;
use launch_text::laws::what_is_read_of_conditions_is_their_text;
use std::alloc::{AllocError, Global};
use std::sync::Wait;
use std::thread::Threads;
use types::devices::Devices;
use verify::{Effort, VerifyError, Watcher};

/// The number of steps that pass the budget.
const OVER_BUDGET: u8 = 56;

/// The number of too many paths.
const MANY_PATHS: u8 = 53;

/// The place in the kernel's text to which a refusal points.
fn site_of(place: Option<Pointer>) -> Option<Site> {
    match place {
        Some(Pointer::At { line, column }) => Some(Site { line, column }),
        Some(Pointer::Number(_)) | None => None,
    }
}

/// Writes what a refusal means behind the lines that tell it.
fn going_on(
    alloc: Global,
    kernel: Source<'_>,
    conditions: &[u8],
    refused: &Refused<'_>,
    told: String,
) -> Verdict
    ensures { GoesOn (string_bytes told) result }
{
    let mut text = told;
    match explain(alloc, kernel, conditions, refused, &mut text) {
        Ok(()) => Verdict::Refused(text),
        Err(_) => Verdict::OutOfMemory,
    }
}

/// What is looked for beside a refusal: what a search leaves where there are findings, with the lines of the conditions that help; where
/// loops part paths that are too many; and the certificate of the narrow walk where its steps pass the budget.
#[derive(Drop)]
struct Further {
    outlook: Option<Outlook>,
    cuts: Option<Cuts>,
    over_budget: Option<Vec<u8>>,
}

/// What is looked for beside a refusal.
fn look_further<R: Threads + Sync, W: Watcher>(
    alloc: Global,
    trials: &Trials<'_, R, W>,
    error: &VerifyError,
) -> Result<Further, AllocError> {
    let outlook = if findings_of(error).is_empty() {
        None
    } else {
        trials.outlook(alloc)?
    };
    let cuts = if error.number() == MANY_PATHS {
        trials.cuts(alloc)?
    } else {
        None
    };
    let over_budget = if error.number() == OVER_BUDGET {
        trials.found_narrowly(alloc)
    } else {
        None
    };
    Ok(Further {
        outlook,
        cuts,
        over_budget,
    })
}

/// Tells and explains that no certificate was found, or that the steps of the one that was found pass the budget.
fn unfound(
    alloc: Global,
    kernel: Source<'_>,
    conditions: &[u8],
    error: &VerifyError,
    further: &Further,
) -> Verdict
    ensures { (is_wide : Bool) (k : kernels.Source) (c : List ℕ) → TellsOf is_wide error.now 1 k c → Explains is_wide result k c }
{
    let refused = Refused {
        number: error.number(),
        place: site_of(error.place()),
        findings: findings_of(error),
        outlook: further.outlook.as_ref(),
        cuts: further.cuts.as_ref(),
        over_budget: further.over_budget.as_deref(),
    };
    match unproved(alloc, error) {
        Sought::Refused(told) => going_on(alloc, kernel, conditions, &refused, told),
        Sought::Found { .. } | Sought::OutOfMemory => Verdict::OutOfMemory,
    }
}

/// An acceptance, with a text behind what is told of it.
fn followed(told: Vec<u8>, text: &str) -> Verdict
    ensures { GoesFurther told.items result }
{
    let mut told = told;
    match told.extend_from_slice(text.as_bytes()) {
        Ok(()) => Verdict::Done(told),
        Err(_) => Verdict::OutOfMemory,
    }
}

/// Writes where an accepted kernel computes with sizes behind what is told of it, with what is said of it for any devices: the number of
/// its refusal, or that it is accepted.
fn going_further(alloc: Global, kernel: Source<'_>, refusal: Option<u8>, told: Vec<u8>) -> Verdict
    ensures { GoesFurther told.items result }
{
    let mut text = String::new(alloc);
    match explain_sizes(alloc, kernel, refusal, &mut text) {
        Ok(()) => followed(told, &text),
        Err(_) => Verdict::OutOfMemory,
    }
}

/// What is told of an accepted kernel, with nothing behind it.
fn as_told(told: Vec<u8>) -> Verdict
    ensures { GoesFurther told.items result }
{
    Verdict::Done(told)
}

/// The kernel is read for the devices with 32 address bits, and computes with sizes. Want of memory is taken as no.
fn is_narrow(alloc: Global, kernel: Source<'_>) -> bool {
    match (kernel.reading.devices, computes_with_sizes(alloc, kernel)) {
        (Devices::Bits32, Ok(computes)) => computes,
        (Devices::Bits32, Err(_)) | (Devices::Any, _) => false,
    }
}

/// The same text, read for any devices.
fn for_any<'a>(kernel: Source<'a>) -> Source<'a> {
    Source {
        reading: Reading {
            language: kernel.reading.language,
            devices: Devices::Any,
        },
        conditions: kernel.conditions,
        bytes: kernel.bytes,
    }
}

/// The number by which the search refuses a kernel for any devices; none where it is accepted.
fn refusal_for_any<R: Threads + Wait + Sync, W: Watcher>(
    rt: &R,
    alloc: Global,
    kernel: Source<'_>,
    conditions: &[u8],
    effort: Effort,
    watcher: &W,
) -> Option<u8> {
    match found(rt, alloc, for_any(kernel), conditions, effort, watcher) {
        Ok(_) => None,
        Err(error) => Some(error.number()),
    }
}

/// What is told of a kernel for which a certificate was found: where it computes with ids or sizes, and what the search says of it for any
/// devices.
fn proved<R: Threads + Wait + Sync, W: Watcher>(
    rt: &R,
    alloc: Global,
    kernel: Source<'_>,
    conditions: &[u8],
    effort: Effort,
    watcher: &W,
    told: Vec<u8>,
) -> Verdict
    ensures { GoesFurther told.items result }
{
    if !is_narrow(alloc, kernel) {
        return as_told(told);
    }
    let refusal = refusal_for_any(rt, alloc, kernel, conditions, effort, watcher);
    going_further(alloc, kernel, refusal, told)
}

/// Looks for a certificate as `prove` does, with one worker, and tells whoever watches how far the search is: `accepted`, or why there is
/// none and what that means. Of steps that pass the budget it tells by the certificate of the narrow walk. Of an accepted kernel that
/// computes with ids or sizes it tells where, and what is said of it for any devices.
pub fn explain_texts<R: Threads + Wait + Sync, W: Watcher>(
    rt: &R,
    alloc: Global,
    kernel: Source<'_>,
    conditions: &[u8],
    is_wide: bool,
    watcher: &W,
) -> Verdict
    ensures { Explains is_wide result (source kernel.entry) conditions.now }
{
    let effort = Effort {
        workers: 1,
        is_wide,
        may_widen: is_wide,
    };
    match found(rt, alloc, kernel, conditions, effort, watcher) {
        Ok(Proved { written, .. }) => {
            proved(rt, alloc, kernel, conditions, effort, watcher, written)
        }
        Err(error) => {
            let trials = Trials {
                rt,
                kernel,
                conditions,
                is_wide,
                watcher,
            };
            match look_further(alloc, &trials, &error) {
                Ok(further) => unfound(alloc, kernel, conditions, &error, &further),
                Err(_) => Verdict::OutOfMemory,
            }
        }
    }
}

/// Tells and explains why `check` refuses.
fn unaccepted(alloc: Global, texts: Texts, error: &CheckError) -> Verdict
    ensures { (is_wide : Bool) (k : kernels.Source) (c p : List ℕ) → RefusesBy is_wide error.now k c p → ExplainsCheck is_wide result k c p }
{
    let number = error.number();
    let refusal = Refusal {
        number,
        place: error.place(),
    };
    let refused = Refused {
        number,
        place: site_of(refusal.place),
        findings: &[],
        outlook: None,
        cuts: None,
        over_budget: (number == OVER_BUDGET).then_some(texts.certificate),
    };
    match refusal.told(alloc) {
        Some(told) => going_on(alloc, texts.kernel, texts.conditions, &refused, told),
        None => Verdict::OutOfMemory,
    }
}

/// The launch at the least values does not meet the conditions. Want of memory is taken as no.
fn lacks_launch(alloc: Global, conditions: &Conditions) -> bool {
    matches!(probe(alloc, conditions), Ok(None))
}

/// The number by which the check refuses a kernel with this certificate for any devices; none where it is accepted.
fn checked_refusal(alloc: Global, texts: Texts, is_wide: bool) -> Option<u8> {
    match check_as(
        alloc,
        for_any(texts.kernel),
        texts.conditions,
        texts.certificate,
        is_wide,
    ) {
        Ok(_) => None,
        Err(error) => Some(error.number()),
    }
}

/// Writes what is told of an accepted kernel behind that: that no launch was found which meets the conditions, where that is so; and where
/// it computes with ids or sizes, with what the check says with this certificate for any devices.
fn push_checked(
    alloc: Global,
    texts: Texts,
    is_wide: bool,
    lacks_launch: bool,
    out: &mut String,
) -> Result<(), AllocError> {
    if lacks_launch {
        out.push_str("no launch found at least values\n")?;
    }
    if is_narrow(alloc, texts.kernel) {
        let refusal = checked_refusal(alloc, texts, is_wide);
        explain_sizes(alloc, texts.kernel, refusal, out)?;
    }
    Ok(())
}

/// What is told of an accepted kernel.
fn checked(alloc: Global, texts: Texts, is_wide: bool, lacks_launch: bool, told: Vec<u8>) -> Verdict
    ensures { GoesFurther told.items result }
{
    let mut text = String::new(alloc);
    match push_checked(alloc, texts, is_wide, lacks_launch, &mut text) {
        Ok(()) => followed(told, &text),
        Err(_) => Verdict::OutOfMemory,
    }
}

/// Whether a kernel is accepted, by the wide check or by the one that is not: `accepted`, with what `prove` says besides where no launch
/// meets the conditions, or why not and what that means.
pub fn explain_check(alloc: Global, texts: Texts, is_wide: bool) -> Verdict
    ensures { ExplainsCheck is_wide result (source texts.entry.kernel) texts.entry.conditions.now texts.entry.certificate.now }
{
    match check_as(
        alloc,
        texts.kernel,
        texts.conditions,
        texts.certificate,
        is_wide,
    ) {
        Ok(accepted) => {
            bytes_are_the_text_of_what_is_read();
            what_is_read_of_conditions_is_their_text();
            let lacks_launch = lacks_launch(alloc, accepted.conditions());
            drop(accepted);
            match Vec::from_slice(alloc, b"accepted\n") {
                Ok(text) => checked(alloc, texts, is_wide, lacks_launch, text),
                Err(_) => Verdict::OutOfMemory,
            }
        }
        Err(error) => unaccepted(alloc, texts, &error),
    }
}
