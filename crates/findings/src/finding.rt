//! Findings.

ghost use Rattle.std.specs.Prelude.{◌≡◌, [], map, None, IfOk};
ghost use Rattle.findings.specs.View.{kind as kind_seen, spot as spot_seen, work_item as work_item_seen, schedule, finding as finding_seen};

use core_code::tree::Site;
use launch::launches::Counts;
use machine::world::Event;
use std::alloc::{AllocError, Global};
use words::Fault;

/// The kinds of findings.
#[derive(Clone, Copy, PartialEq, Eq)]
pub enum FindingKind {
    /// Two accesses of one element that no barrier orders.
    Race,
    /// An item waits at a barrier where another of its group does not.
    Divergence,
    Fault(Fault),
    /// A size outside 0 to 4294967295, where a kernel is read for any devices. C defines it, and devices of 32 and of 64 address bits
    /// differ there.
    Size,
    /// A loop whose turns may be too many.
    Bound,
    /// A stored number that what is said of its buffer may not allow.
    Values,
}

/// The place of a finding: an access by its array's name, a barrier, an item's end, an operator or index that faults,
/// or a loop's word.
#[derive(Clone, Copy, PartialEq, Eq)]
pub enum Spot {
    Store(Site),
    Load(Site),
    Barrier(Site),
    End,
    /// The operator or the index that faults, or the word of a loop.
    At(Site),
}

/// A work-item by its number, with the ids of its group and its own within it.
#[derive(Clone, Copy)]
pub struct WorkItem {
    pub number: u64,
    pub group: Counts,
    pub local: Counts,
}

/// The certainty of a finding: a confirmed one has the schedule that shows it.
#[derive(Drop)]
pub enum Grade {
    Possible,
    Confirmed(Vec<Event>),
}

/// A finding: its kind, its sites, of a confirmed one the work-items that come there, one for each site, and how sure it is.
#[derive(Drop)]
pub struct Finding {
    pub kind: FindingKind,
    pub sites: Vec<Spot>,
    pub items: Vec<WorkItem>,
    pub grade: Grade,
}

/// A finding of a kind, with these sites, items and grade.
pub fn assemble(
    alloc: Global,
    kind: FindingKind,
    sites: &[Spot],
    items: &[WorkItem],
    grade: Grade,
) -> Result<Finding, AllocError>
    ensures { IfOk result (λ f. finding_seen f ≡ record { kind = kind_seen kind; sites = map spot_seen sites.now; items = map work_item_seen items.now; schedule = schedule grade }) }
{
    Ok(Finding {
        kind,
        sites: Vec::from_slice(alloc, sites)?,
        items: Vec::from_slice(alloc, items)?,
        grade,
    })
}

/// A finding that nothing confirms: it promises nothing.
pub fn possible(alloc: Global, kind: FindingKind, sites: &[Spot]) -> Result<Finding, AllocError>
    ensures { IfOk result (λ f. finding_seen f ≡ record { kind = kind_seen kind; sites = map spot_seen sites.now; items = []; schedule = None }) }
{
    assemble(alloc, kind, sites, &[], Grade::Possible)
}
