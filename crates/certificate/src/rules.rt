//! Which certificates have a text.

ghost use Rattle.std.specs.Prelude.{◌≡◌, map, IfOk};
ghost use Rattle.certificate_text.specs.Rules as rules;
ghost use Rattle.certificate.specs.View as view;
ghost use Rattle.certificate.specs.Drafts as drafts;

use crate::draft::Parts;
use crate::entries::{are_entries, entries_rise};
use crate::narrow::is_narrow;
use crate::order::{has_line, spot_is_before};
use crate::proper::{
    are_congruences, are_forms, are_identifiers, are_multiples, is_form, is_integer, is_natural,
};
use crate::tree::{Anchor, Bound, Descent, Place, Spot};
use std::alloc::{AllocError, Global};

fn is_spot(spot: Spot) -> bool
    ensures { result ≡ rules.is_spot (view.spot spot) }
{
    let anchored = match spot.anchor {
        Anchor::KernelEntry => true,
        Anchor::Barrier(statement) => is_natural(statement),
    };
    match spot.head {
        None => anchored,
        Some(number) => anchored && is_natural(number),
    }
}

fn is_place(alloc: Global, place: &Place) -> Result<bool, AllocError>
    ensures { IfOk result (λ b. b ≡ rules.is_place (view.place place.now)) }
{
    let facts = are_forms(alloc, place.facts.as_slice())?;
    let congruences = are_congruences(alloc, place.congruences.as_slice())?;
    let multiples = are_multiples(alloc, place.multiples.as_slice())?;
    let same = are_identifiers(place.same.as_slice());
    Ok(is_spot(place.spot) && (same && (facts && (congruences && multiples))) && has_line(place))
}

#[tactic(auto, using(crate::proofs::Rows::all_rows))]
fn are_places(alloc: Global, places: &[Place]) -> Result<bool, AllocError>
    ensures { IfOk result (λ b. b ≡ rules.all rules.is_place (map view.place places.now)) }
{
    for place in places {
        if !is_place(alloc, place)? {
            return Ok(false);
        }
    }
    Ok(true)
}

#[tactic(auto, using(crate::proofs::Rows::rising_rows))]
fn places_rise(places: &[Place]) -> bool
    ensures { result ≡ rules.rises rules.place_is_before (map view.place places.now) }
{
    let mut i = 0;
    while i + 1 < places.len() {
        if !spot_is_before(places[i].spot, places[i + 1].spot) {
            return false;
        }
        i += 1;
    }
    true
}

fn is_descent(descent: Descent) -> bool
    ensures { result ≡ rules.is_descent (view.descent descent) }
{
    match descent {
        Descent::Down(step) => is_natural(step) && 1 <= step,
        Descent::Halve => true,
        Descent::Double(least) => is_natural(least) && 1 <= least,
    }
}

fn is_bound(alloc: Global, bound: &Bound) -> Result<bool, AllocError>
    ensures { IfOk result (λ b. b ≡ rules.is_bound (view.bound bound.now)) }
{
    let form = is_form(alloc, &bound.form)?;
    Ok(is_natural(bound.number) && (is_descent(bound.descent) && (is_integer(bound.most) && form)))
}

#[tactic(auto, using(crate::proofs::Rows::all_rows))]
fn are_bounds(alloc: Global, bounds: &[Bound]) -> Result<bool, AllocError>
    ensures { IfOk result (λ b. b ≡ rules.all rules.is_bound (map view.bound bounds.now)) }
{
    for bound in bounds {
        if !is_bound(alloc, bound)? {
            return Ok(false);
        }
    }
    Ok(true)
}

#[tactic(auto, using(crate::proofs::Rows::rising_rows))]
fn bounds_rise(bounds: &[Bound]) -> bool
    ensures { result ≡ rules.rises rules.bound_is_before (map view.bound bounds.now) }
{
    let mut i = 0;
    while i + 1 < bounds.len() {
        if bounds[i].number >= bounds[i + 1].number {
            return false;
        }
        i += 1;
    }
    true
}

/// Whether the parts can be written, and rise.
fn is_written(alloc: Global, parts: &Parts) -> Result<bool, AllocError>
    ensures { IfOk result (λ b. b ≡ rules.is_written (drafts.parts parts.now)) }
{
    let places = parts.places.as_slice();
    let bounds = parts.bounds.as_slice();
    let entries = parts.entries.as_slice();
    let placed = are_places(alloc, places)? && places_rise(places);
    let bounded = are_bounds(alloc, bounds)? && bounds_rise(bounds);
    Ok(placed && (bounded && (are_entries(alloc, entries)? && entries_rise(entries))))
}

/// Whether the format, length aside, has a text for these parts, as a certificate that is wide or not.
pub fn is_any_certificate(alloc: Global, parts: &Parts) -> Result<bool, AllocError>
    ensures { IfOk result (λ b. b ≡ rules.is_any_certificate (drafts.parts parts.now)) }
{
    let written = is_written(alloc, parts)?;
    Ok((parts.is_wide || is_narrow(parts)) && written)
}
