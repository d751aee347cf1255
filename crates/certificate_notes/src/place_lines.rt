//! What is said of places, in slots and symbols.

ghost use Rattle.std.specs.Prelude.{◌≡◌, IfOk, Option, map, Some};
ghost use Rattle.std.specs.Option.{option_map};
ghost use Rattle.std.specs.String.{string_bytes};
ghost use Rattle.linear.specs.Forms.{form as form_seen};
ghost use Rattle.places.specs.View.{place as place_seen};
ghost use Rattle.certificate.specs.View as view;
ghost use Rattle.obligations.specs.View.{congruence as congruence_seen, multiple as multiple_seen};
ghost use Rattle.certificate_notes.specs.Sights as sights;
ghost use Rattle.certificate_notes.specs.Noted as noted;
ghost use Rattle.certificate_notes.specs.View.{chart as chart_seen, sight as sight_seen, named};
ghost use Rattle.certificate_notes.specs.NotesView.{station as station_seen, lines as lines_seen};

use crate::chart::Chart;
use crate::error::NamesError;
use crate::forms::fact;
use crate::scenes::Named;
use crate::sight::{Sight, slot_of};
use crate::spots::{anchor_number, is_place};
use crate::station::{Station, station_of};
use certificate::tree;
use linear::Form;
use obligations::{Congruence, Lines, Multiple};
use places::Place;
use std::alloc::Global;

/// The slots rise from each to the next.
fn rise(slots: &[u32]) -> bool
    ensures { result ≡ noted.rise 0 slots.now }
{
    let mut least: u64 = 0;
    for slot in slots {
        if (*slot as u64) < least {
            return false;
        }
        least = *slot as u64 + 1;
    }
    true
}

#[tactic(auto, using(crate::proofs::Each::each_rows))]
/// The slots of names on which items may agree at a place; none where a name is none of these.
fn slots_of(
    alloc: Global,
    agreeing: &[Named<'_>],
    names: &[String],
) -> Result<Option<Vec<u32>>, NamesError>
    ensures { IfOk result (λ r. option_map (λ v. v.items) r ≡ noted.each (sights.slot_of (map named agreeing.now)) (map string_bytes names.now)) }
{
    let mut slots = Vec::new(alloc);
    for name in names {
        let Some(slot) = slot_of(agreeing, name.as_str()) else {
            return Ok(None);
        };
        slots.push(slot)?;
    }
    Ok(Some(slots))
}

/// The slots of names in the order of declaration.
fn same_of(
    alloc: Global,
    agreeing: &[Named<'_>],
    names: &[String],
) -> Result<Option<Vec<u32>>, NamesError>
    ensures { IfOk result (λ r. option_map (λ v. v.items) r ≡ noted.rising (noted.each (sights.slot_of (map named agreeing.now)) (map string_bytes names.now))) }
{
    let Some(slots) = slots_of(alloc, agreeing, names)? else {
        return Ok(None);
    };
    if !rise(slots.as_slice()) {
        return Ok(None);
    }
    Ok(Some(slots))
}

#[tactic(auto, using(crate::proofs::Each::each_rows))]
/// The facts that are said of a place, in slots and symbols; none where one names what the kernel lacks.
fn facts_of(
    alloc: Global,
    chart: &Chart<'_>,
    sight: &Sight<'_>,
    forms: &[tree::Form],
) -> Result<Option<Vec<Form>>, NamesError>
    ensures { IfOk result (λ r. option_map (λ v. map form_seen v.items) r ≡ noted.each (sights.fact (chart_seen chart.now) (sight_seen sight.now)) (map view.form forms.now)) }
{
    let mut facts = Vec::new(alloc);
    for form in forms {
        let Some(one) = fact(alloc, chart, sight, form)? else {
            return Ok(None);
        };
        facts.push(one)?;
    }
    Ok(Some(facts))
}

/// A congruence that is said of a place, in slots and symbols; none where it names what the kernel lacks.
fn congruence(
    alloc: Global,
    chart: &Chart<'_>,
    sight: &Sight<'_>,
    congruence: &tree::Congruence,
) -> Result<Option<Congruence>, NamesError>
    ensures { IfOk result (λ r. option_map congruence_seen r ≡ noted.congruence (chart_seen chart.now) (sight_seen sight.now) (view.congruence congruence.now)) }
{
    let Some(form) = fact(alloc, chart, sight, &congruence.form)? else {
        return Ok(None);
    };
    Ok(Some(Congruence {
        modulus: congruence.modulus,
        form,
    }))
}

#[tactic(auto, using(crate::proofs::Each::each_rows))]
/// The congruences that are said of a place, in slots and symbols; none where one names what the kernel lacks.
fn congruences_of(
    alloc: Global,
    chart: &Chart<'_>,
    sight: &Sight<'_>,
    congruences: &[tree::Congruence],
) -> Result<Option<Vec<Congruence>>, NamesError>
    ensures { IfOk result (λ r. option_map (λ v. map congruence_seen v.items) r ≡ noted.each (noted.congruence (chart_seen chart.now) (sight_seen sight.now)) (map view.congruence congruences.now)) }
{
    let mut found = Vec::new(alloc);
    for one in congruences {
        let Some(one) = congruence(alloc, chart, sight, one)? else {
            return Ok(None);
        };
        found.push(one)?;
    }
    Ok(Some(found))
}

/// A multiple that is told of a place, in slots and symbols; none where it names what the kernel lacks.
fn multiple(
    alloc: Global,
    chart: &Chart<'_>,
    sight: &Sight<'_>,
    multiple: &tree::Multiple,
) -> Result<Option<Multiple>, NamesError>
    ensures { IfOk result (λ r. option_map multiple_seen r ≡ noted.multiple (chart_seen chart.now) (sight_seen sight.now) (view.multiple multiple.now)) }
{
    let Some(form) = fact(alloc, chart, sight, &multiple.form)? else {
        return Ok(None);
    };
    let Some(of) = fact(alloc, chart, sight, &multiple.of)? else {
        return Ok(None);
    };
    Ok(Some(Multiple { of, form }))
}

#[tactic(auto, using(crate::proofs::Each::each_rows))]
/// The multiples that are told of a place, in slots and symbols; none where one names what the kernel lacks.
fn multiples_of(
    alloc: Global,
    chart: &Chart<'_>,
    sight: &Sight<'_>,
    multiples: &[tree::Multiple],
) -> Result<Option<Vec<Multiple>>, NamesError>
    ensures { IfOk result (λ r. option_map (λ v. map multiple_seen v.items) r ≡ noted.each (noted.multiple (chart_seen chart.now) (sight_seen sight.now)) (map view.multiple multiples.now)) }
{
    let mut found = Vec::new(alloc);
    for one in multiples {
        let Some(one) = multiple(alloc, chart, sight, one)? else {
            return Ok(None);
        };
        found.push(one)?;
    }
    Ok(Some(found))
}

/// The notes of a place, by what may be named there; none where another thing is named, or the slots that agree do not rise.
fn lines_at(
    alloc: Global,
    chart: &Chart<'_>,
    place: &tree::Place,
    station: Station<'_>,
) -> Result<Option<Lines>, NamesError>
    ensures { IfOk result (λ r. option_map lines_seen r ≡ noted.lines_at (chart_seen chart.now) (view.place place.now) (Some (station_seen station.entry))) }
{
    let Some(same) = same_of(alloc, station.agreeing, place.same.as_slice())? else {
        return Ok(None);
    };
    let Some(facts) = facts_of(alloc, chart, &station.sight, place.facts.as_slice())? else {
        return Ok(None);
    };
    let found = congruences_of(alloc, chart, &station.sight, place.congruences.as_slice())?;
    let Some(congruences) = found else {
        return Ok(None);
    };
    let found = multiples_of(alloc, chart, &station.sight, place.multiples.as_slice())?;
    let Some(multiples) = found else {
        return Ok(None);
    };
    Ok(Some(Lines {
        anchor: station.anchor,
        head: station.head,
        same,
        facts,
        congruences,
        multiples,
    }))
}

/// The notes of a place; none where the kernel has no such place, or lacks what is named there.
pub fn lines_of(
    alloc: Global,
    chart: &Chart<'_>,
    places: &[Place<'_>],
    place: &tree::Place,
) -> Result<Option<Lines>, NamesError>
    ensures { IfOk result (λ r. option_map lines_seen r ≡ noted.lines_of (chart_seen chart.now) (map place_seen places.now) (view.place place.now)) }
{
    let spot = place.spot;
    if !is_place(places, anchor_number(spot.anchor), spot.head) {
        return Ok(None);
    }
    let Some(station) = station_of(chart, spot) else {
        return Ok(None);
    };
    lines_at(alloc, chart, place, station)
}
