//! What may stand behind what: places, loops, entries, lines of a sum and names rise.

ghost use Rattle.std.specs.Prelude.{◌≡◌, map, IfOk};
ghost use Rattle.lines.specs.Lines as lines;
ghost use Rattle.certificate_text.specs.Forms as forms;
ghost use Rattle.certificate_text.specs.Lines as meaning;
ghost use Rattle.certificate_text.specs.Drafts as drafting;
ghost use Rattle.certificate.specs.View as view;

use crate::spelling::term_is_before;
use crate::tree::{Anchor, Bound, Entry, Place, Scaled, Spot, Term};
use std::alloc::{AllocError, Global};
use std::cmp::Ordering;

fn anchor_is_before(left: Anchor, right: Anchor) -> bool
    ensures { result ≡ drafting.anchor_is_before (view.anchor left) (view.anchor right) }
{
    match (left, right) {
        (Anchor::KernelEntry, Anchor::KernelEntry) => false,
        (Anchor::KernelEntry, Anchor::Barrier(_)) => true,
        (Anchor::Barrier(_), Anchor::KernelEntry) => false,
        (Anchor::Barrier(j), Anchor::Barrier(k)) => j < k,
    }
}

fn head_is_before(left: Option<u64>, right: Option<u64>) -> bool
    ensures { result ≡ drafting.head_is_before left right }
{
    match (left, right) {
        (None, None) => false,
        (None, Some(_)) => true,
        (Some(_), None) => false,
        (Some(j), Some(k)) => j < k,
    }
}

pub fn spot_is_before(left: Spot, right: Spot) -> bool
    ensures { result ≡ drafting.spot_is_before (view.spot left) (view.spot right) }
{
    anchor_is_before(left.anchor, right.anchor)
        || !anchor_is_before(right.anchor, left.anchor) && head_is_before(left.head, right.head)
}

/// Whether a place may stand behind those before it.
pub fn place_follows(places: &[Place], spot: Spot) -> bool
    ensures { result ≡ lines.follows drafting.place_is_behind (map view.place places.now) (view.spot spot) }
{
    match places.last() {
        None => true,
        Some(last) => spot_is_before(last.spot, spot),
    }
}

pub fn bound_follows(bounds: &[Bound], number: u64) -> bool
    ensures { result ≡ lines.follows drafting.bound_is_behind (map view.bound bounds.now) number }
{
    match bounds.last() {
        None => true,
        Some(last) => last.number < number,
    }
}

pub fn entry_follows(entries: &[Entry], obligation: u64) -> bool
    ensures { result ≡ lines.follows drafting.entry_is_behind (map view.entry entries.now) obligation }
{
    match entries.last() {
        None => true,
        Some(last) => last.obligation < obligation,
    }
}

/// Whether a part may stand behind those before it.
pub fn part_follows(parts: &[Scaled], part: Scaled) -> bool
    ensures { result ≡ lines.follows meaning.line_is_before (map view.scaled parts.now) (view.scaled part) }
{
    match parts.last() {
        None => true,
        Some(before) => before.line < part.line,
    }
}

/// Whether bytes stand before others, as in a dictionary.
fn is_before(left: &[u8], right: &[u8]) -> bool
    ensures { result ≡ forms.is_before left.now right.now }
{
    left.cmp(right) == Ordering::Less
}

/// Whether two names may stand in a product in this order: they rise, or are the same.
pub fn in_order(left: &[u8], right: &[u8]) -> bool
    ensures { result ≡ forms.in_order left.now right.now }
{
    !is_before(right, left)
}

/// Whether a term may stand behind those before it.
pub fn term_follows(alloc: Global, terms: &[Term], term: &Term) -> Result<bool, AllocError>
    ensures { IfOk result (λ b. b ≡ lines.follows forms.term_is_before (map view.term terms.now) (view.term term.now)) }
{
    match terms.last() {
        None => Ok(true),
        Some(last) => term_is_before(alloc, last, term),
    }
}

/// Whether a place says anything.
pub fn has_line(place: &Place) -> bool
    ensures { result ≡ drafting.has_line (view.place place.now) }
{
    let forms = place.facts.is_empty()
        && (place.congruences.is_empty() && place.multiples.is_empty());
    !(place.same.is_empty() && forms)
}
