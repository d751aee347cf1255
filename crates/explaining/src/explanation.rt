//! The explanation of a refusal.

ghost use Rattle.std.specs.Prelude.{◌≡◌, ◌++◌, ℕ, List, OnOk};
ghost use Rattle.std.specs.String.{string_bytes};

use crate::cutting::Cuts;
use crate::finding::Subject;
use crate::hints::Known;
use crate::meaning::meaning;
use crate::outlook::Outlook;
use crate::paragraph::push_paragraph;
use crate::paths::{push_cuts, push_paths};
use crate::steps::push_steps;
use crate::told::push_findings;
use core_code::tree::Site;
use findings::Finding;
use kernel_reading::Source;
use launch_text::read_conditions_as;
use shown_kernels::kernel::read_proper_kernel;
use std::alloc::{AllocError, Global};
use typed_kernels::Typed;

/// The number of the refusal where there are too many paths from one place.
const MANY_PATHS: u8 = 53;

/// The number of the refusal where something of OpenCL C is left out.
const LEFT_OUT: u8 = 15;

/// The number of a refusal, where it points in the kernel's text, what was found, what a further search leaves of that, where loops part
/// paths that are too many, and the certificate of which the steps pass the budget, where they do.
#[derive(Clone, Copy)]
pub struct Refused<'a> {
    pub number: u8,
    pub place: Option<Site>,
    pub findings: &'a [Finding],
    pub outlook: Option<&'a Outlook>,
    pub cuts: Option<&'a Cuts>,
    pub over_budget: Option<&'a [u8]>,
}

/// Writes which tests multiply the paths from a place, with the kernel as it is read.
fn push_known_tests(
    alloc: Global,
    subject: Subject,
    typed: &Typed,
    place: Site,
    out: &mut String,
) -> Result<(), AllocError> {
    match read_conditions_as(alloc, typed, subject.conditions, true) {
        Ok(conditions) => {
            let known = Known::of(alloc, typed, &conditions)?;
            push_paths(alloc, subject.source.bytes, typed, &known, place, out)
        }
        Err(_) => Err(AllocError),
    }
}

/// Writes which tests multiply the paths from the place to which a refusal points.
fn push_tests(
    alloc: Global,
    subject: Subject,
    place: Site,
    out: &mut String,
) -> Result<(), AllocError> {
    match read_proper_kernel(alloc, subject.source) {
        Ok(typed) => push_known_tests(alloc, subject, &typed, place, out),
        Err(_) => Err(AllocError),
    }
}

/// Writes what a number means, and, where something of OpenCL C is left out, what it is.
fn push_meaning(
    alloc: Global,
    subject: Subject,
    number: u8,
    out: &mut String,
) -> Result<(), AllocError> {
    if number != LEFT_OUT {
        return push_paragraph(out, "", meaning(number));
    }
    let what = match read_proper_kernel(alloc, subject.source) {
        Ok(_) => None,
        Err(error) => error.left_out(),
    };
    match what {
        None => push_paragraph(out, "", meaning(number)),
        Some(what) => {
            let mut text = String::new(alloc);
            text.push_str("What stands there is left out: ")?;
            text.push_str(what)?;
            text.push_str(". What is read says docs/OPENCL.md: write it out by that.")?;
            push_paragraph(out, "", &text)
        }
    }
}

/// Writes the most steps that a work-item takes by a certificate.
fn push_cost(
    alloc: Global,
    source: Source<'_>,
    certificate: &[u8],
    out: &mut String,
) -> Result<(), AllocError> {
    match read_proper_kernel(alloc, source) {
        Ok(typed) => push_steps(alloc, source.bytes, &typed, certificate, out),
        Err(_) => Err(AllocError),
    }
}

/// The text that explains a refusal: what its number means, its findings, and the steps of a work-item where these are over the budget.
fn explanation(
    alloc: Global,
    subject: Subject,
    refused: &Refused<'_>,
) -> Result<String, AllocError> {
    let mut out = String::new(alloc);
    if refused.findings.is_empty() {
        out.push_str("\n")?;
        push_meaning(alloc, subject, refused.number, &mut out)?;
    }
    push_findings(alloc, subject, refused.findings, refused.outlook, &mut out)?;
    if let (MANY_PATHS, Some(place)) = (refused.number, refused.place) {
        push_tests(alloc, subject, place, &mut out)?;
    }
    if let Some(cuts) = refused.cuts {
        push_cuts(alloc, subject.source.bytes, cuts, &mut out)?;
    }
    if let Some(certificate) = refused.over_budget {
        push_cost(alloc, subject.source, certificate, &mut out)?;
    }
    Ok(out)
}

/// Adds to a text what a refusal means, in plain words.
pub fn explain(
    alloc: Global,
    source: Source<'_>,
    conditions: &[u8],
    refused: &Refused<'_>,
    out: &mut String,
) -> Result<(), AllocError>
    ensures { OnOk result ((more : List ℕ) × (string_bytes out.new ≡ string_bytes out.old ++ more)) }
{
    let subject = Subject { source, conditions };
    let text = explanation(alloc, subject, refused)?;
    out.push_str(&text)
}
