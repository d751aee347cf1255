//! Which guesses a derivation uses.

use cut_proof::{Derivation, Line as ProofLine};
use domain::Elements;
use facts::{Family, Side};
use guess_walk::{Begun, LineTable, PlaceLines, is_place};
use guesses::{Candidate, Line, Sight, copied, index_of, is_product, is_same};
use linear::Form;
use std::alloc::{AllocError, Global};
use two_thread::{Obligations, OnPath, Part};

/// The parts of an obligation's facts: how many the launch has, then the first item's and the second one's, each with the guesses of its
/// place and how many facts stand where the place begins, and the guesses at the anchor.
#[derive(Clone, Copy)]
pub struct Origin<'a> {
    pub launch: usize,
    pub first: Share<'a>,
    pub second: Option<Share<'a>>,
    pub anchor: Option<&'a PlaceLines>,
}

/// The facts of one item: how many, how many of them stand where the place begins, and the guesses of the place.
#[derive(Clone, Copy)]
pub struct Share<'a> {
    pub count: usize,
    pub begun: usize,
    pub lines: &'a PlaceLines,
}

impl<'a> Share<'a> {
    fn used(&self, place: usize) -> Option<u32> {
        self.lines.used(self.begun, place)
    }
}

/// The slot of which a fact says that both items have it alike.
fn slot_of(fact: &Form) -> Option<u32> {
    let terms = fact.terms();
    let (Some(first), Some(second)) = (terms.first(), terms.get(1)) else {
        return None;
    };
    if terms.len() != 2 || index_of(first.symbol) != index_of(second.symbol) {
        return None;
    }
    if is_product(first.symbol) || is_product(second.symbol) {
        return None;
    }
    match (Family::of(first.symbol), Family::of(second.symbol)) {
        (Family::Variable(Side::First), Family::Variable(Side::Second))
        | (Family::AtAnchor(Side::First), Family::AtAnchor(Side::Second)) => {
            u32::try_from(index_of(first.symbol)).ok()
        }
        _ => None,
    }
}

impl<'a> Origin<'a> {
    /// The guess that a fact is, by its number from 1.
    fn guess_of(&self, facts: &[Form], number: u32) -> Option<u32> {
        let place = (number as usize).checked_sub(1)?;
        if place >= facts.len() {
            return None;
        }
        let own = place.checked_sub(self.launch)?;
        if own < self.first.count {
            return self.first.used(own);
        }
        let rest = own.checked_sub(self.first.count)?;
        let second = self.second?;
        if rest < second.count {
            return second.used(rest);
        }
        let slot = slot_of(facts.get(place)?)?;
        self.anchor?.agreeing(slot)
    }
}

/// Adds the guesses that lines use, each once.
fn add_used(
    used: &mut Vec<u32>,
    origin: &Origin<'_>,
    facts: &[Form],
    lines: &[ProofLine],
) -> Result<(), AllocError> {
    for line in lines {
        let ProofLine::Given(number) = line else {
            continue;
        };
        let Some(guess) = origin.guess_of(facts, *number) else {
            continue;
        };
        if !used.as_slice().contains(&guess) {
            used.push(guess)?;
        }
    }
    Ok(())
}

/// The guesses that a derivation uses, each once.
pub fn used_guesses(
    alloc: Global,
    origin: &Origin<'_>,
    facts: &[Form],
    derivation: &Derivation,
) -> Result<Vec<u32>, AllocError> {
    let mut used = Vec::new(alloc);
    for lemma in derivation.lemmas.as_slice() {
        add_used(&mut used, origin, facts, lemma.lines.as_slice())?;
    }
    add_used(&mut used, origin, facts, derivation.lines.as_slice())?;
    Ok(used)
}

/// A walk's obligations and places, how its paths begin, and the place and the guesses of each path.
#[derive(Clone, Copy)]
pub struct Origins<'a> {
    pub found: &'a Obligations<Elements>,
    pub sights: &'a [Sight],
    pub begun: &'a [Begun],
    pub places: &'a [usize],
    pub table: &'a LineTable,
    pub candidates: &'a [Candidate],
}

impl<'a> Origins<'a> {
    /// The facts of an item on a path, so many of which it knows.
    fn share(&self, path: usize, count: usize) -> Option<Share<'a>> {
        let place = *self.places.get(path)?;
        let begun = self.begun.get(place)?;
        let lines = self.table.places.get(place)?;
        Some(Share {
            count,
            begun: begun.facts,
            lines,
        })
    }

    /// The guesses at a path's anchor.
    fn at_anchor(&self, path: usize) -> Option<&'a PlaceLines> {
        let anchor = self.found.paths().get(path)?.anchor;
        let place = self
            .sights
            .iter()
            .position(|sight| is_place(sight, anchor, None))?;
        self.table.places.get(place)
    }

    fn claim_facts(&self, at: OnPath) -> Option<usize> {
        Some(
            self.found
                .paths()
                .get(at.path)?
                .path
                .claims
                .get(at.item)?
                .facts,
        )
    }

    fn end_facts(&self, at: OnPath) -> Option<usize> {
        Some(
            self.found
                .paths()
                .get(at.path)?
                .path
                .ends
                .get(at.item)?
                .facts,
        )
    }

    fn access_facts(&self, at: OnPath) -> Option<usize> {
        Some(
            self.found
                .paths()
                .get(at.path)?
                .path
                .accesses
                .get(at.item)?
                .facts,
        )
    }

    /// The parts of the facts of a pair, by where each item is and how many facts it has there; none where a path is not of the walk.
    fn pair(&self, first: OnPath, second: OnPath, counts: (usize, usize)) -> Option<Origin<'a>> {
        Some(Origin {
            launch: self.found.launch().len(),
            first: self.share(first.path, counts.0)?,
            second: Some(self.share(second.path, counts.1)?),
            anchor: self.at_anchor(first.path),
        })
    }

    /// The congruences known where a path begins: its place's, with their moduli.
    pub fn known_multiples(
        &self,
        alloc: Global,
        path: usize,
    ) -> Result<Vec<(u64, Form)>, AllocError> {
        let mut known = Vec::new(alloc);
        let Some(place) = self.places.get(path) else {
            return Ok(known);
        };
        let Some(lines) = self.table.places.get(*place) else {
            return Ok(known);
        };
        for guess in lines.multiples.as_slice() {
            if let Some(candidate) = self.candidates.get(*guess as usize) {
                if let Line::Multiple { modulus, form } = &candidate.line {
                    let form = copied(alloc, form)?;
                    known.push((*modulus, form))?;
                }
            }
        }
        Ok(known)
    }

    /// The multiples of a form known where a path begins, each with the index of its quotient among new symbols.
    pub fn known_by_form(
        &self,
        alloc: Global,
        path: usize,
        by: &Form,
    ) -> Result<Vec<(u32, Form)>, AllocError> {
        let mut known = Vec::new(alloc);
        let place = self.places.get(path).copied().unwrap_or(usize::MAX);
        let Some(lines) = self.table.places.get(place) else {
            return Ok(known);
        };
        let mut index = u32::try_from(lines.multiples.len()).unwrap_or(u32::MAX);
        for guess in lines.of_forms.as_slice() {
            if let Some(form) = self.multiple_of(*guess, by) {
                known.push((index, copied(alloc, form)?))?;
            }
            index = index.saturating_add(1);
        }
        Ok(known)
    }

    /// The form that a guess says to be a multiple of that one, if it does.
    fn multiple_of(&self, guess: u32, by: &Form) -> Option<&'a Form> {
        match &self.candidates.get(guess as usize)?.line {
            Line::MultipleOf { of, form } if is_same(of, by) => Some(form),
            _ => None,
        }
    }

    /// The parts of an obligation's facts; none where the obligation is not of the walk.
    pub fn origin(&self, part: Part) -> Option<Origin<'a>> {
        match part {
            Part::Claim(at) => Some(Origin {
                launch: self.found.launch().len(),
                first: self.share(at.path, self.claim_facts(at)?)?,
                second: None,
                anchor: None,
            }),
            Part::Ends { first, second, .. } => {
                let counts = (self.end_facts(first)?, self.end_facts(second)?);
                self.pair(first, second, counts)
            }
            Part::Accesses { first, second } => {
                let counts = (self.access_facts(first)?, self.access_facts(second)?);
                self.pair(first, second, counts)
            }
        }
    }
}
