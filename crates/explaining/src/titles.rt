//! What findings and their sites are called.

use findings::{FindingKind, Spot, WorkItem};
use std::alloc::{AllocError, Global};
use words::Fault;

/// The title of a confirmed finding of a kind, in plain words.
pub fn confirmed(kind: FindingKind) -> &'static str {
    match kind {
        FindingKind::Race => "Data race",
        FindingKind::Divergence => "Barrier divergence",
        FindingKind::Fault(Fault::DivisionByZero) => "Division by zero",
        FindingKind::Fault(Fault::Overflow) => "Signed overflow",
        FindingKind::Size => "Size outside 0 to 4294967295",
        FindingKind::Fault(Fault::OutOfBounds) => "Read or write out of bounds",
        FindingKind::Bound => "Loop that nothing bounds",
        FindingKind::Values => "Store of a value that its buffer may not hold",
    }
}

/// The title of a finding of a kind that is only possible, behind "possible", in plain words.
pub fn possible(kind: FindingKind) -> &'static str {
    match kind {
        FindingKind::Race => "data race",
        FindingKind::Divergence => "barrier divergence",
        FindingKind::Fault(Fault::DivisionByZero) => "division by zero",
        FindingKind::Fault(Fault::Overflow) => "signed overflow",
        FindingKind::Size => "size outside 0 to 4294967295",
        FindingKind::Fault(Fault::OutOfBounds) => "read or write out of bounds",
        FindingKind::Bound => "loop that nothing bounds",
        FindingKind::Values => "store of a value that its buffer may not hold",
    }
}

/// The meaning of a finding's kind, as a clause with a full stop.
pub fn meant(kind: FindingKind) -> &'static str {
    match kind {
        FindingKind::Race => {
            "two work-items touch one element, one of them stores, and no barrier orders them."
        }
        FindingKind::Divergence => {
            "a work-item waits at a barrier to which another of its group does not come."
        }
        FindingKind::Fault(Fault::DivisionByZero) => "the divisor is 0.",
        FindingKind::Fault(Fault::Overflow) => "the result does not fit an int.",
        FindingKind::Size => {
            "an id or a size, or a number beside one, is below 0, or 2^32 and more. C defines it, but devices with 32 and \
             with 64 address bits differ there. A cast, as (uint)get_global_id(0), computes with 32 bits on all."
        }
        FindingKind::Fault(Fault::OutOfBounds) => "the index is not below the array's length.",
        FindingKind::Bound => "no number of turns is shown to be enough.",
        FindingKind::Values => "a values line of the conditions does not allow it.",
    }
}

/// The words for what is done at a site, by the finding's kind, as they stand before the work-item.
pub fn action(kind: FindingKind, spot: Spot) -> &'static str {
    match (spot, kind) {
        (Spot::Store(_), _) => "store",
        (Spot::Load(_), _) => "load",
        (Spot::Barrier(_), _) => "barrier, reached",
        (Spot::End, _) => "end of the kernel, reached",
        (Spot::At(_), FindingKind::Fault(Fault::DivisionByZero)) => "division",
        (Spot::At(_), FindingKind::Fault(Fault::Overflow)) => "overflow",
        (Spot::At(_), FindingKind::Size) => "size",
        (Spot::At(_), FindingKind::Fault(Fault::OutOfBounds)) => "access",
        (Spot::At(_), FindingKind::Values) => "store",
        (Spot::At(_), _) => "loop",
    }
}

/// Writes which work-item comes to a site: its number, its group and its local id.
fn push_item(out: &mut String, item: WorkItem) -> Result<(), AllocError> {
    let number = item.number;
    let group = item.group;
    let local = item.local;
    write!(
        out,
        " by work-item {number}: group {} {} {}",
        group.x, group.y, group.z
    )?;
    write!(out, ", local {} {} {}", local.x, local.y, local.z)
}

/// The label of a site: what happens there, and by which work-item, where that is known.
pub fn label(
    alloc: Global,
    kind: FindingKind,
    spot: Spot,
    item: Option<&WorkItem>,
) -> Result<String, AllocError> {
    let mut out = String::from_str(alloc, action(kind, spot))?;
    if let Some(item) = item {
        push_item(&mut out, *item)?;
    }
    Ok(out)
}
