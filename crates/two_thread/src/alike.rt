//! The slots that two items have alike at an anchor.

ghost use Rattle.std.specs.Prelude.{◌≡◌, ◌&&◌, IfOk, IfErr, ℕ, map, Some, None};
ghost use Rattle.facts.specs.Refusals.{IsMemory};
ghost use Rattle.obligations.specs.View.{same_number, same_of};
ghost use Rattle.obligations.specs.Meetings.{same_at as same_slots};
ghost use Rattle.two_thread.specs.Alike.{alike_of, notes_of};

use crate::anchors::same_anchor;
use facts::WalkError;
use obligations::Notes;
use std::alloc::{AllocError, Global};

/// The slots that notes say to be the same for all items at a place, which is given by its anchor and its loop.
#[derive(Drop)]
pub struct Alike {
    pub anchor: Option<u32>,
    pub head: Option<u32>,
    pub same: Vec<u32>,
}

/// A copy of a list of slots.
fn copied(alloc: Global, slots: &[u32]) -> Result<Vec<u32>, AllocError>
    ensures { IfOk result (λ v. v.items ≡ slots.now) }
{
    let mut copy = Vec::new(alloc);
    copy.extend_from_slice(slots)?;
    Ok(copy)
}

/// The slots that the notes of each place say to be the same, in the order of the notes.
pub fn copy_alike(alloc: Global, notes: &Notes) -> Result<Vec<Alike>, WalkError>
    ensures same { IfOk result (λ v. (b : ℕ) → alike_of v.items b ≡ same_of notes.now.places.items b) }
    ensures memory { IfErr result IsMemory }
{
    let mut found = Vec::new(alloc);
    for lines in &notes.places {
        let same = copied(alloc, lines.same.as_slice())?;
        found.push(Alike {
            anchor: lines.anchor,
            head: lines.head,
            same,
        })?;
    }
    Ok(found)
}

/// The slots are said of a barrier itself, not of a loop behind it.
fn is_of(alike: &Alike, barrier: u32) -> bool
    ensures { result ≡ (same_number alike.now.anchor (Some barrier) && same_number alike.now.head None) }
{
    same_anchor(alike.anchor, Some(barrier)) && alike.head.is_none()
}

/// The slots that are alike at a barrier.
pub fn same_of_barrier<'a>(alike: &'a [Alike], barrier: u32) -> &'a [u32]
    ensures { result.now ≡ alike_of alike.now barrier }
{
    for place in alike {
        if is_of(place, barrier) {
            return place.same.as_slice();
        }
    }
    &[]
}

/// The slots that notes say to be alike at an anchor: none at the entry.
pub fn same_at<'a>(alike: &'a [Alike], anchor: Option<u32>) -> &'a [u32]
    ensures { result.now ≡ same_slots (notes_of alike.now) anchor }
{
    match anchor {
        Some(barrier) => same_of_barrier(alike, barrier),
        None => &[],
    }
}
