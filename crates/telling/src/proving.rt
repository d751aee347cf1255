//! The answers of `prove`: that a kernel is proved, with its certificate, or a refusal with its findings.

ghost use Rattle.std.specs.Prelude.{◌≡◌, ◌++◌, ℕ, List, map, Bool, IfOk, IfErr, OnOk, IfSome};
ghost use Rattle.std.specs.String.{string_bytes};
ghost use Rattle.semantics.specs.Conditions.{Meets};
ghost use Rattle.certificate.specs.Certificates.{certificate as certificate_seen};
ghost use Rattle.launch.specs.Least as least;
ghost use Rattle.launch.specs.View.{conditions as conditions_seen};
ghost use Rattle.findings.specs.View.{finding as finding_seen};
ghost use Rattle.findings.specs.Wording.{finding_text};
ghost use Rattle.proof_search.specs.Searching.{TellsOf, text_by, text_found};
ghost use Rattle.kernel_reading.specs.Kernels as kernels;
ghost use Rattle.kernel_reading.specs.Sources.{source};
ghost use Rattle.telling.specs.Proving.{IsProvedText, proved_lines, found as found_in, findings_text};
ghost use Rattle.telling.specs.ProvingVerdicts.{Proves};

use crate::refusal::Refusal;
use certificate::{Certificate, write, write_wide};
use diagnostics::{Finding, line};
use kernel_reading::Source;
use kernel_reading::laws::bytes_are_the_text_of_what_is_read;
use launch::conditions::Conditions;
use launch::probe::probe;
use launch_text::laws::{a_least_launch_fits, what_is_read_of_conditions_is_their_text};
use std::alloc::{AllocError, Global};
use std::sync::Wait;
use std::thread::Threads;
use verify::{Effort, Verified, VerifyError, Watcher, verify_watched};

/// The program's answer where it searches a certificate, or writes one in version 2.
#[derive(Drop)]
pub enum Sought {
    /// The text that is written, and the certificate's.
    Found {
        written: Vec<u8>,
        certificate: Vec<u8>,
    },
    /// The refusal, and a line for each finding.
    Refused(String),
    OutOfMemory,
}

/// A kernel that is proved: the text that is written of it, and its certificate's.
#[derive(Drop)]
pub struct Proved {
    pub written: Vec<u8>,
    pub certificate: Vec<u8>,
}

/// The lines that are written of a proved kernel: `accepted`, and one more where the launch at the least values does not meet the
/// conditions. An error is want of memory.
fn lines(alloc: Global, conditions: &Conditions) -> Result<Vec<u8>, AllocError>
    ensures text { IfOk result (λ v. v.items ≡ proved_lines (least.probe conditions.now)) }
    ensures least { IfOk result (λ _. IfSome (least.probe conditions.now) (Meets (conditions_seen conditions.now))) }
{
    match probe(alloc, conditions)? {
        Some(_) => Vec::from_slice(alloc, b"accepted\n"),
        None => Vec::from_slice(alloc, b"accepted\nno launch found at least values\n"),
    }
}

/// The findings of an error.
pub fn findings_of(error: &VerifyError) -> &[Finding]
    ensures { result.now ≡ found_in error.now }
{
    match error {
        VerifyError::NotShown(findings) => findings.as_slice(),
        VerifyError::Check(_) | VerifyError::Workers | VerifyError::TooLong | VerifyError::Memory =>
            &[],
    }
}

/// The line of a finding, behind what is written.
fn push_line(alloc: Global, text: &mut String, finding: &Finding) -> Result<(), AllocError>
    ensures { OnOk result (string_bytes text.new ≡ string_bytes text.old ++ finding_text (finding_seen finding.now)) }
{
    let line = line(alloc, finding)?;
    text.push_str(&line)
}

/// A line for each finding, behind what is written.
#[tactic(auto, using(launch_text::proofs::Texts::one_word, launch_text::proofs::Texts::no_word))]
fn push_lines(alloc: Global, text: &mut String, findings: &[Finding]) -> Result<(), AllocError>
    ensures { OnOk result (string_bytes text.new ≡ string_bytes text.old ++ findings_text (map finding_seen findings.now)) }
{
    for finding in findings {
        push_line(alloc, text, finding)?;
    }
    Ok(())
}

/// The refusal where no certificate is found: a line of its number and place, and one for each finding.
pub fn unproved(alloc: Global, error: &VerifyError) -> Sought
    ensures { (is_wide : Bool) (workers : ℕ) (kernel : kernels.Source) (conditions : List ℕ) → TellsOf is_wide error.now workers kernel conditions → Proves is_wide result workers kernel conditions }
{
    let refusal = Refusal {
        number: error.number(),
        place: error.place(),
    };
    let Some(mut text) = refusal.told(alloc) else {
        return Sought::OutOfMemory;
    };
    match push_lines(alloc, &mut text, findings_of(error)) {
        Ok(()) => Sought::Refused(text),
        Err(_) => Sought::OutOfMemory,
    }
}

/// The text of a certificate: of a wide one in version 4, else in version 2.
fn any_text(alloc: Global, certificate: &Certificate) -> Result<Vec<u8>, AllocError>
    ensures { IfOk result (λ v. v.items ≡ text_found (certificate_seen certificate.now)) }
{
    if certificate.is_wide() {
        write_wide(alloc, certificate)
    } else {
        write(alloc, certificate)
    }
}

/// The text of a certificate that the wide search found, or the one that is not.
fn text_as(alloc: Global, certificate: &Certificate, is_wide: bool) -> Result<Vec<u8>, AllocError>
    ensures { IfOk result (λ v. v.items ≡ text_by is_wide (certificate_seen certificate.now)) }
{
    if is_wide {
        any_text(alloc, certificate)
    } else {
        write(alloc, certificate)
    }
}

/// A certificate that is found, with what is written of it, or why there is none.
pub fn found<R: Threads + Wait + Sync, W: Watcher>(
    rt: &R,
    alloc: Global,
    kernel: Source<'_>,
    conditions: &[u8],
    effort: Effort,
    watcher: &W,
) -> Result<Proved, VerifyError>
    ensures proved { IfOk result (λ p. IsProvedText effort.is_wide (source kernel.entry) conditions.now p.certificate.items p.written.items) }
    ensures told { IfErr result (λ e. TellsOf effort.is_wide e effort.workers (source kernel.entry) conditions.now) }
{
    bytes_are_the_text_of_what_is_read();
    what_is_read_of_conditions_is_their_text();
    a_least_launch_fits();
    let Verified {
        accepted,
        certificate,
    } = match verify_watched(rt, alloc, kernel, conditions, effort, watcher) {
        Ok(verified) => verified,
        Err(error) => return Err(error),
    };
    let certificate = match text_as(alloc, &certificate, effort.is_wide) {
        Ok(text) => text,
        Err(_) => return Err(VerifyError::Memory),
    };
    match lines(alloc, accepted.conditions()) {
        Ok(written) => Ok(Proved {
            written,
            certificate,
        }),
        Err(_) => Err(VerifyError::Memory),
    }
}

/// Looks for a certificate with so much effort, and tells whoever watches how far the search is: `accepted` and the certificate, or why
/// there is none.
pub fn prove_texts<R: Threads + Wait + Sync, W: Watcher>(
    rt: &R,
    alloc: Global,
    kernel: Source<'_>,
    conditions: &[u8],
    effort: Effort,
    watcher: &W,
) -> Sought
    ensures { Proves effort.is_wide result effort.workers (source kernel.entry) conditions.now }
{
    match found(rt, alloc, kernel, conditions, effort, watcher) {
        Ok(
            Proved {
                written,
                certificate,
            },
        ) => Sought::Found {
            written,
            certificate,
        },
        Err(error) => unproved(alloc, &error),
    }
}
