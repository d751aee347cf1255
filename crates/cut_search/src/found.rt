//! Derivations, by the facts that they use.

use crate::hashes::first_place;
use cut_proof::{Derivation, Lemma, Line};
use guesses::copied;
use std::alloc::{AllocError, Global};

/// Lemmas are named by numbers down from this one, counted from 1.
const LEMMAS: u32 = u32::MAX;

/// A derivation, the number of the fact that was denied, and those of the facts that it uses. Its lines name these, counted
/// from 0, and lemmas by numbers down from the greatest.
#[derive(Drop)]
pub struct Found {
    key: u64,
    givens: Vec<u64>,
    derivation: Derivation,
}

impl Found {
    /// A derivation that refutes facts of these hashes, kept with the hashes that it uses.
    pub fn new(
        alloc: Global,
        key: u64,
        hashes: &[u64],
        derivation: Derivation,
    ) -> Result<Found, AllocError> {
        let mut found = Found {
            key,
            givens: Vec::new(alloc),
            derivation,
        };
        for lemma in found.derivation.lemmas.iter_mut() {
            note_all(&mut lemma.lines, hashes, &mut found.givens)?;
        }
        note_all(&mut found.derivation.lines, hashes, &mut found.givens)?;
        Ok(found)
    }

    /// The derivation over a list that denies this fact, if the list has all facts that are used; the first of equal ones.
    pub fn over(
        &self,
        alloc: Global,
        key: u64,
        hashes: &[u64],
    ) -> Result<Option<Derivation>, AllocError> {
        if self.key != key {
            return Ok(None);
        }
        match self.places(alloc, hashes)? {
            Some(places) => self.renumbered(alloc, places.as_slice(), hashes.len()),
            None => Ok(None),
        }
    }

    /// The places, counted from 1, at which the used facts stand in a list of facts, by their hashes; none where one is missing.
    fn places(&self, alloc: Global, hashes: &[u64]) -> Result<Option<Vec<u32>>, AllocError> {
        let mut places = Vec::new(alloc);
        for given in self.givens.as_slice() {
            let Some(place) = first_number(hashes, *given) else {
                return Ok(None);
            };
            places.push(place)?;
        }
        Ok(Some(places))
    }

    /// The derivation over facts at these places, behind so many of which lemmas count on.
    fn renumbered(
        &self,
        alloc: Global,
        places: &[u32],
        count: usize,
    ) -> Result<Option<Derivation>, AllocError> {
        let mut lemmas = Vec::new(alloc);
        for lemma in self.derivation.lemmas.as_slice() {
            let Some(lemma) = lemma_over(alloc, lemma, places, count)? else {
                return Ok(None);
            };
            lemmas.push(lemma)?;
        }
        let lines = self.derivation.lines.as_slice();
        match lines_over(alloc, lines, places, count)? {
            Some(lines) => Ok(Some(Derivation { lemmas, lines })),
            None => Ok(None),
        }
    }
}

/// A lemma with the places of its facts.
fn lemma_over(
    alloc: Global,
    lemma: &Lemma,
    places: &[u32],
    count: usize,
) -> Result<Option<Lemma>, AllocError> {
    let form = copied(alloc, &lemma.form)?;
    match lines_over(alloc, lemma.lines.as_slice(), places, count)? {
        Some(lines) => Ok(Some(Lemma { form, lines })),
        None => Ok(None),
    }
}

/// Lines with the places of their facts.
fn lines_over(
    alloc: Global,
    lines: &[Line],
    places: &[u32],
    count: usize,
) -> Result<Option<Vec<Line>>, AllocError> {
    let mut found = Vec::new(alloc);
    for line in lines {
        let Some(line) = line_over(line, places, count)? else {
            return Ok(None);
        };
        found.push(line)?;
    }
    Ok(Some(found))
}

/// The place, counted from 1, at which a hash stands first; none where it does not stand there.
fn first_number(hashes: &[u64], hash: u64) -> Option<u32> {
    let place = first_place(hashes, hash)?;
    u32::try_from(place.saturating_add(1)).ok()
}

/// Has lines name the numbers of their facts in place of the facts.
fn note_all(
    lines: &mut Vec<Line>,
    hashes: &[u64],
    givens: &mut Vec<u64>,
) -> Result<(), AllocError> {
    for line in lines.iter_mut() {
        note_given(line, hashes, givens)?;
    }
    Ok(())
}

/// Has a line name the number of its fact in place of the fact, or a lemma by its number down from the greatest.
fn note_given(line: &mut Line, hashes: &[u64], givens: &mut Vec<u64>) -> Result<(), AllocError> {
    if let Line::Given(number) = line {
        let place = (*number as usize).saturating_sub(1);
        let Some(hash) = hashes.get(place) else {
            let lemma = place.saturating_sub(hashes.len());
            *number = LEMMAS.saturating_sub(u32::try_from(lemma).unwrap_or(0));
            return Ok(());
        };
        let index = u32::try_from(givens.len()).unwrap_or(u32::MAX);
        givens.push(*hash)?;
        *number = index;
    }
    Ok(())
}

/// The fact or lemma of an index, where lemmas count on behind so many facts.
fn given_over(index: u32, places: &[u32], count: usize) -> Option<u32> {
    if let Some(place) = places.get(index as usize) {
        return Some(*place);
    }
    let lemma = LEMMAS.saturating_sub(index) as usize;
    u32::try_from(count.saturating_add(lemma).saturating_add(1)).ok()
}

/// A line with the place of its fact.
fn line_over(line: &Line, places: &[u32], count: usize) -> Result<Option<Line>, AllocError> {
    match line {
        Line::Given(index) => Ok(given_over(*index, places, count).map(Line::Given)),
        Line::Sum(parts) => Ok(Some(Line::Sum(parts.clone()?))),
        Line::Div(divisor, number) => Ok(Some(Line::Div(*divisor, *number))),
        Line::Product(first, second) => Ok(Some(Line::Product(*first, *second))),
    }
}
