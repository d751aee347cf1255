//! What is told of places, gathered.

use crate::fact_lines::{fact_at, is_small, sees};
use crate::shelf::Shelf;
use guesses::{Candidate, Line, Sight, has_product, reduced, try_difference, try_multiple};
use linear::Form;
use std::alloc::{AllocError, Global};

/// The rank of what is tried last.
pub const LAST_TRIES: u32 = 6;

/// The places, whether their walk is the wide one, what is known anyway, and what is told of them so far.
#[derive(Drop)]
pub struct Gathering<'a> {
    pub alloc: Global,
    pub sights: &'a [Sight],
    pub is_wide: bool,
    unsigned: &'a [bool],
    pub known: Vec<Form>,
    pub shelf: Shelf,
}

/// The place is the kernel's entry, of which nothing is guessed.
fn is_entry(sight: &Sight) -> bool {
    sight.anchor.is_none() && sight.head.is_none()
}

/// Each fact, divided by the greatest number that divides its coefficients.
fn all_reduced(alloc: Global, facts: &[Form]) -> Result<Vec<Form>, AllocError> {
    let mut out = Vec::new(alloc);
    for fact in facts {
        if let Some(form) = reduced(alloc, fact)? {
            out.push(form)?;
        }
    }
    Ok(out)
}

impl<'a> Gathering<'a> {
    /// A gathering without candidates, for these places, the known facts, and which variables are `uint`, by their slots.
    pub fn new(
        alloc: Global,
        sights: &'a [Sight],
        known: &[Form],
        unsigned: &'a [bool],
        is_wide: bool,
    ) -> Result<Gathering<'a>, AllocError> {
        let known = all_reduced(alloc, known)?;
        let shelf = Shelf::new(alloc)?;
        Ok(Gathering {
            alloc,
            sights,
            is_wide,
            unsigned,
            known,
            shelf,
        })
    }

    /// The variable of a slot is a `uint`.
    pub fn is_unsigned(&self, slot: u64) -> bool {
        self.unsigned.get(slot as usize).copied().unwrap_or(false)
    }

    /// A fact of a place, if it is worth a guess.
    pub fn add_fact(&mut self, place: usize, fact: &Form, rank: u32) -> Result<(), AllocError> {
        let Some(sight) = self.sights.get(place) else {
            return Ok(());
        };
        if is_entry(sight) || (!self.is_wide && has_product(fact)) {
            return Ok(());
        }
        let known = self.known.as_slice();
        match fact_at(self.alloc, sight, known, self.unsigned, fact, rank)? {
            Some(candidate) => self.shelf.add(candidate),
            None => Ok(()),
        }
    }

    /// A form is 0 at a place: two facts.
    pub fn add_zero(&mut self, place: usize, form: &Form, rank: u32) -> Result<(), AllocError> {
        self.add_fact(place, form, rank)?;
        match try_multiple(self.alloc, form, -1)? {
            Some(opposite) => self.add_fact(place, &opposite, rank),
            None => Ok(()),
        }
    }

    /// A fact of a place that is tried last, if the place has its symbols.
    pub fn add_last(&mut self, place: usize, form: Form) -> Result<(), AllocError> {
        let is_seen = self
            .sights
            .get(place)
            .is_some_and(|sight| sees(sight, &form));
        if is_seen && !form.terms().is_empty() && is_small(&form) {
            self.add_line(place, Line::Fact(form), LAST_TRIES)
        } else {
            Ok(())
        }
    }

    /// A form is 0 at a place, which is tried last: two facts.
    pub fn add_last_zero(&mut self, place: usize, form: &Form) -> Result<(), AllocError> {
        if let Some(form) = reduced(self.alloc, form)? {
            self.add_last(place, form)?;
        }
        let Some(opposite) = try_multiple(self.alloc, form, -1)? else {
            return Ok(());
        };
        match reduced(self.alloc, &opposite)? {
            Some(form) => self.add_last(place, form),
            None => Ok(()),
        }
    }

    /// Two forms are equal at a place.
    pub fn add_equal(
        &mut self,
        place: usize,
        left: &Form,
        right: &Form,
        rank: u32,
    ) -> Result<(), AllocError> {
        match try_difference(self.alloc, left, right)? {
            Some(form) => self.add_zero(place, &form, rank),
            None => Ok(()),
        }
    }

    /// Any line of a place, as it is.
    pub fn add_line(&mut self, place: usize, line: Line, rank: u32) -> Result<(), AllocError> {
        let Some(sight) = self.sights.get(place) else {
            return Ok(());
        };
        if is_entry(sight) {
            return Ok(());
        }
        self.shelf.add(Candidate {
            anchor: sight.anchor,
            head: sight.head,
            rank,
            line,
        })
    }

    /// Adds, of each place, the candidate that no item comes to it.
    pub fn add_unreached(&mut self) -> Result<(), AllocError> {
        for place in 0..self.sights.len() {
            let form = Form::constant(self.alloc, -1);
            self.add_line(place, Line::Fact(form), 0)?;
        }
        Ok(())
    }

    /// The candidates gathered so far, each once, in the order in which they were found.
    pub fn into_candidates(self) -> Vec<Candidate> {
        self.shelf.into_candidates()
    }
}
