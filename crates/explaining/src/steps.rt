//! How many steps a work-item takes, by what a certificate says of its loops.

use crate::paragraph::push_paragraph;
use crate::source::push_site;
use certificate_notes::notes_of;
use core_code::tree::Core;
use kernel_names::site_at;
use loop_bounds::{LoopBound, cost, turns};
use places::places;
use std::alloc::{AllocError, Global};
use typed_kernels::Typed;

/// The largest budget that conditions have.
const MOST: u64 = 1_000_000_000_000;

/// The steps that a work-item takes at most, and whether a budget allows them.
fn sentence(alloc: Global, core: &Core, bounds: &[LoopBound]) -> Result<String, AllocError> {
    match cost(core, bounds) {
        Ok(steps) if steps <= MOST => format!(in alloc;
            "As far as is known, it takes at most {steps} steps: budget {steps} is enough."
        ),
        _ => format!(in alloc;
            "As far as is known, it may take more than the largest budget, {MOST} steps."
        ),
    }
}

/// A loop, and how many turns it has at most.
fn push_loop(
    alloc: Global,
    kernel: &[u8],
    typed: &Typed,
    one: &LoopBound,
    out: &mut String,
) -> Result<(), AllocError> {
    let count = turns(&one.bound);
    let noun = if count == 1 { "turn" } else { "turns" };
    let label = format!(in alloc; "at most {count} {noun} each time")?;
    let site = site_at(typed.names(), Some(one.number));
    push_site(alloc, out, kernel, site, false, &label)
}

/// The steps of a work-item, and the loops that they come from.
fn push_bounds(
    alloc: Global,
    kernel: &[u8],
    typed: &Typed,
    bounds: &[LoopBound],
    out: &mut String,
) -> Result<(), AllocError> {
    let sentence = sentence(alloc, typed.core(), bounds)?;
    out.push_str("\n")?;
    push_paragraph(out, "", &sentence)?;
    for one in bounds {
        push_loop(alloc, kernel, typed, one, out)?;
    }
    Ok(())
}

/// Writes how many steps a work-item takes at most by a certificate; nothing where the certificate does not fit the kernel.
pub fn push_steps(
    alloc: Global,
    kernel: &[u8],
    typed: &Typed,
    certificate: &[u8],
    out: &mut String,
) -> Result<(), AllocError> {
    let (Ok(places), Ok(certificate)) = (
        places(alloc, typed.core()),
        certificate::read_wide(alloc, certificate),
    ) else {
        return Ok(());
    };
    match notes_of(alloc, typed, places.as_slice(), &certificate) {
        Ok(Some(notes)) => push_bounds(alloc, kernel, typed, notes.rankings.as_slice(), out),
        _ => Ok(()),
    }
}
