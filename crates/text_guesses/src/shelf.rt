//! A list of guesses with limited room.

use guesses::{Candidate, Line, Sight, copied, plus, try_difference};
use linear::Form;
use std::alloc::{AllocError, Global};

/// How late the guesses are tried.
const RANK: u32 = 4;

/// Guesses in the order in which they are kept, and how many there may be.
#[derive(Drop)]
pub struct Shelf {
    pub candidates: Vec<Candidate>,
    pub room: usize,
}

impl Shelf {
    /// Gives the next of so many places its share of what is left of `most`.
    pub fn share(&mut self, most: usize, places: usize) {
        let held = self.candidates.len();
        let left = most.saturating_sub(held);
        let share = if places > 1 { left / places } else { left };
        self.room = held.saturating_add(share);
    }

    /// The shelf has no room for another guess.
    pub fn is_full(&self) -> bool {
        self.candidates.len() >= self.room
    }

    /// Says a line of a place.
    pub fn keep(&mut self, sight: &Sight, line: Line) -> Result<(), AllocError> {
        if self.is_full() {
            return Ok(());
        }
        self.candidates.push(Candidate {
            anchor: sight.anchor,
            head: sight.head,
            rank: RANK,
            line,
        })?;
        Ok(())
    }

    /// The first form is at least the second one.
    pub fn keep_at_least(
        &mut self,
        alloc: Global,
        sight: &Sight,
        greater: &Form,
        smaller: &Form,
    ) -> Result<(), AllocError> {
        if self.is_full() {
            return Ok(());
        }
        match try_difference(alloc, greater, smaller)? {
            Some(fact) if !fact.terms().is_empty() => self.keep(sight, Line::Fact(fact)),
            _ => Ok(()),
        }
    }

    /// Keeps that the first form is at least the second one, and, as another guess, the other way round.
    pub fn keep_both(
        &mut self,
        alloc: Global,
        sight: &Sight,
        left: &Form,
        right: &Form,
    ) -> Result<(), AllocError> {
        self.keep_at_least(alloc, sight, left, right)?;
        self.keep_at_least(alloc, sight, right, left)
    }

    /// The first form is at least the second one and a number.
    fn keep_beyond(
        &mut self,
        alloc: Global,
        sight: &Sight,
        greater: &Form,
        smaller: &Form,
        number: i64,
    ) -> Result<(), AllocError> {
        if self.is_full() {
            return Ok(());
        }
        match plus(alloc, smaller, number)? {
            Some(least) => self.keep_at_least(alloc, sight, greater, &least),
            None => Ok(()),
        }
    }

    /// Keeps that the first form is at least the second one and a number, and, as another guess, the other way round.
    pub fn keep_apart(
        &mut self,
        alloc: Global,
        sight: &Sight,
        left: &Form,
        right: &Form,
        number: i64,
    ) -> Result<(), AllocError> {
        self.keep_beyond(alloc, sight, left, right, number)?;
        self.keep_beyond(alloc, sight, right, left, number)
    }

    /// Keeps that a number divides a form.
    pub fn keep_multiple(
        &mut self,
        alloc: Global,
        sight: &Sight,
        modulus: u64,
        form: &Form,
    ) -> Result<(), AllocError> {
        if self.is_full() {
            return Ok(());
        }
        let form = copied(alloc, form)?;
        self.keep(sight, Line::Multiple { modulus, form })
    }
}
