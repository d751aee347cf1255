//! Which guesses stand where among the facts of a place.

use guesses::{Candidate, Line, Sight};
use std::alloc::{AllocError, Global};

/// The guesses of one place by their numbers: those on which items agree with their slots, facts, congruences, and multiples of forms.
#[derive(Drop)]
pub struct PlaceLines {
    pub same: Vec<(u32, u32)>,
    pub facts: Vec<u32>,
    pub multiples: Vec<u32>,
    pub of_forms: Vec<u32>,
}

impl PlaceLines {
    /// The number of congruences and of multiples of forms.
    fn count_of_twos(&self) -> usize {
        self.multiples.len().saturating_add(self.of_forms.len())
    }

    /// The number of facts that the guesses of a place are: a congruence is two, and so is a multiple of a form.
    pub fn len(&self) -> usize {
        self.facts
            .len()
            .saturating_add(self.count_of_twos().saturating_mul(2))
    }

    /// The guess whose fact is at that place among them.
    pub fn at(&self, place: usize) -> Option<u32> {
        if let Some(candidate) = self.facts.get(place) {
            return Some(*candidate);
        }
        let rest = place.checked_sub(self.facts.len())? / 2;
        if let Some(candidate) = self.multiples.get(rest) {
            return Some(*candidate);
        }
        let rest = rest.checked_sub(self.multiples.len())?;
        self.of_forms.get(rest).copied()
    }

    /// The guess whose fact is at that place among those known where the place's paths begin, of which it has the last ones.
    pub fn used(&self, begun: usize, place: usize) -> Option<u32> {
        if place >= begun {
            return None;
        }
        let before = begun.checked_sub(self.len())?;
        self.at(place.checked_sub(before)?)
    }

    /// The guess that items agree on a slot.
    pub fn agreeing(&self, slot: u32) -> Option<u32> {
        for entry in self.same.as_slice() {
            if entry.0 == slot {
                return Some(entry.1);
            }
        }
        None
    }
}

/// The guesses of each place.
#[derive(Drop)]
pub struct LineTable {
    pub places: Vec<PlaceLines>,
}

/// The guesses of one place, by their numbers among all guesses.
fn lines_at(
    alloc: Global,
    candidates: &[Candidate],
    sight: &Sight,
) -> Result<PlaceLines, AllocError> {
    let mut lines = PlaceLines {
        same: Vec::new(alloc),
        facts: Vec::new(alloc),
        multiples: Vec::new(alloc),
        of_forms: Vec::new(alloc),
    };
    let mut number: u32 = 0;
    for candidate in candidates {
        if candidate.anchor == sight.anchor && candidate.head == sight.head {
            match candidate.line {
                Line::Same(slot) => lines.same.push((slot, number))?,
                Line::Fact(_) => lines.facts.push(number)?,
                Line::Multiple { .. } => lines.multiples.push(number)?,
                Line::MultipleOf { .. } => lines.of_forms.push(number)?,
            }
        }
        number = number.saturating_add(1);
    }
    Ok(lines)
}

impl LineTable {
    /// The guesses of each place, by their numbers among all guesses.
    pub fn of(
        alloc: Global,
        candidates: &[Candidate],
        sights: &[Sight],
    ) -> Result<LineTable, AllocError> {
        let mut places = Vec::new(alloc);
        for sight in sights {
            let lines = lines_at(alloc, candidates, sight)?;
            places.push(lines)?;
        }
        Ok(LineTable { places })
    }
}
