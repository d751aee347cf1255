//! Candidates as what a certificate says of places.

use crate::declared_names::Names;
use crate::said::is_due;
use certificate::order::spot_is_before;
use certificate::tree::{Anchor, Congruence, Multiple, Place, Spot};
use guesses::{Candidate, Line};
use linear::Form;
use std::alloc::{AllocError, Global};

fn spot_of(candidate: &Candidate) -> Spot {
    let anchor = match candidate.anchor {
        None => Anchor::KernelEntry,
        Some(number) => Anchor::Barrier(number as u64),
    };
    let head = match candidate.head {
        None => None,
        Some(number) => Some(number as u64),
    };
    Spot { anchor, head }
}

/// How many of the places, which rise, stand before the spot.
fn index_among(places: &[Place], spot: Spot) -> usize {
    for (index, place) in places.iter().enumerate() {
        if !spot_is_before(place.spot, spot) {
            return index;
        }
    }
    places.len()
}

/// The place of that index is at the spot.
fn is_there(places: &[Place], index: usize, spot: Spot) -> bool {
    match places.get(index) {
        None => false,
        Some(place) => !spot_is_before(spot, place.spot),
    }
}

/// The index of the place at a spot, made if it is not there.
fn place_at(alloc: Global, places: &mut Vec<Place>, spot: Spot) -> Result<usize, AllocError> {
    let index = index_among(places.as_slice(), spot).min(places.len());
    if !is_there(places.as_slice(), index, spot) {
        let place = Place {
            spot,
            same: Vec::new(alloc),
            facts: Vec::new(alloc),
            congruences: Vec::new(alloc),
            multiples: Vec::new(alloc),
        };
        places.insert(index, place)?;
    }
    Ok(index)
}

/// Adds to a candidate's place the line that items agree on a variable.
fn say_same(
    alloc: Global,
    name: &str,
    candidate: &Candidate,
    places: &mut Vec<Place>,
) -> Result<(), AllocError> {
    let name = String::from_str(alloc, name)?;
    let index = place_at(alloc, places, spot_of(candidate))?;
    if let Some(place) = places.get_mut(index) {
        place.same.push(name)?;
    }
    Ok(())
}

/// Adds to a place the line that a form is at least 0, if the form has a text.
fn say_fact(
    alloc: Global,
    names: &Names<'_>,
    form: &Form,
    spot: Spot,
    places: &mut Vec<Place>,
) -> Result<(), AllocError> {
    let Some(form) = names.form(alloc, form)? else {
        return Ok(());
    };
    let index = place_at(alloc, places, spot)?;
    if let Some(place) = places.get_mut(index) {
        place.facts.push(form)?;
    }
    Ok(())
}

/// Adds to a place the line that a number divides a form, if the number is of `i64` and the form has a text.
fn say_multiple(
    alloc: Global,
    names: &Names<'_>,
    modulus: u64,
    form: &Form,
    spot: Spot,
    places: &mut Vec<Place>,
) -> Result<(), AllocError> {
    if modulus > i64::MAX as u64 {
        return Ok(());
    }
    let Some(form) = names.form(alloc, form)? else {
        return Ok(());
    };
    let index = place_at(alloc, places, spot)?;
    if let Some(place) = places.get_mut(index) {
        place.congruences.push(Congruence { modulus, form })?;
    }
    Ok(())
}

/// Adds to a place the line that a form is a multiple of another, if both have a text.
fn say_multiple_of(
    alloc: Global,
    names: &Names<'_>,
    of: &Form,
    form: &Form,
    spot: Spot,
    places: &mut Vec<Place>,
) -> Result<(), AllocError> {
    let (Some(of), Some(form)) = (names.form(alloc, of)?, names.form(alloc, form)?) else {
        return Ok(());
    };
    let index = place_at(alloc, places, spot)?;
    if let Some(place) = places.get_mut(index) {
        place.multiples.push(Multiple { of, form })?;
    }
    Ok(())
}

/// Adds a candidate that speaks of a form to what is said of its place.
fn say_form(
    alloc: Global,
    names: &Names<'_>,
    candidate: &Candidate,
    places: &mut Vec<Place>,
) -> Result<(), AllocError> {
    let spot = spot_of(candidate);
    match &candidate.line {
        Line::Same(_) => Ok(()),
        Line::Fact(form) => say_fact(alloc, names, form, spot, places),
        Line::Multiple { modulus, form } => {
            say_multiple(alloc, names, *modulus, form, spot, places)
        }
        Line::MultipleOf { of, form } => say_multiple_of(alloc, names, of, form, spot, places),
    }
}

/// The candidates that may be said in a certificate, each once.
fn due_of<'a>(
    alloc: Global,
    candidates: &'a [Candidate],
) -> Result<Vec<&'a Candidate>, AllocError> {
    let mut due = Vec::new(alloc);
    for (index, candidate) in candidates.iter().enumerate() {
        if is_due(candidates, index, candidate) {
            due.push(candidate)?;
        }
    }
    Ok(due)
}

fn is_of_slot(candidate: &Candidate, slot: usize) -> bool {
    match &candidate.line {
        Line::Same(number) => *number as usize == slot,
        _ => false,
    }
}

/// Adds to the places the lines that items agree on the variable of a slot, of those candidates that say so.
fn say_slot(
    alloc: Global,
    slot: usize,
    name: &str,
    due: &[&Candidate],
    places: &mut Vec<Place>,
) -> Result<(), AllocError> {
    for candidate in due {
        if is_of_slot(candidate, slot) {
            say_same(alloc, name, candidate, places)?;
        }
    }
    Ok(())
}

/// Candidates as what is said of places. Places come in the order of the format, and of each the variables on which items agree as they are
/// declared, and facts and congruences in the order of the candidates. What has no name is left out, and so is what the format does not
/// have there and what an earlier candidate says of the place.
pub fn places_of(
    alloc: Global,
    names: &Names<'_>,
    candidates: &[Candidate],
) -> Result<Vec<Place>, AllocError> {
    let due = due_of(alloc, candidates)?;
    let mut places = Vec::new(alloc);
    for (slot, name) in names.variables.iter().enumerate() {
        say_slot(alloc, slot, name, due.as_slice(), &mut places)?;
    }
    for candidate in due.as_slice() {
        say_form(alloc, names, candidate, &mut places)?;
    }
    Ok(places)
}
