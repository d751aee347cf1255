//! Candidates without repeats, in the order in which they are found.

use guesses::{Candidate, Line, Sight};
use linear::Form;
use std::alloc::{AllocError, Global};

/// The most candidates on a shelf.
const MOST: usize = 3_000;

/// The most candidates that paths may tell, so that some room is left for strides.
const MOST_OF_PATHS: usize = 2_500;

/// The number of lists in which repeats are looked for.
const BUCKETS: u64 = 256;

/// The candidates, and which of them have a key.
#[derive(Drop)]
pub struct Shelf {
    candidates: Vec<Candidate>,
    buckets: Vec<Vec<usize>>,
}

/// A number for whatever else goes into a key.
fn mixed(key: u64, number: u64) -> u64 {
    key.wrapping_mul(31).wrapping_add(number)
}

fn form_key(form: &Form) -> u64 {
    let mut key = form.constant_part().cast_unsigned();
    for term in form.terms() {
        key = mixed(key, term.symbol.number);
        key = mixed(key, term.coefficient.cast_unsigned());
    }
    key
}

fn line_key(line: &Line) -> u64 {
    match line {
        Line::Same(slot) => *slot as u64,
        Line::Fact(form) => form_key(form),
        Line::Multiple { modulus, form } => mixed(form_key(form), *modulus),
        Line::MultipleOf { of, form } => mixed(form_key(form), form_key(of)),
    }
}

fn number_key(number: Option<u32>) -> u64 {
    match number {
        Some(number) => number as u64 + 1,
        None => 0,
    }
}

/// The number of the list of a candidate and all that are like it.
fn bucket_of(candidate: &Candidate) -> usize {
    let key = mixed(line_key(&candidate.line), number_key(candidate.anchor));
    (mixed(key, number_key(candidate.head)) % BUCKETS) as usize
}

impl Shelf {
    /// A shelf without candidates.
    pub fn new(alloc: Global) -> Result<Shelf, AllocError> {
        let mut buckets = Vec::new(alloc);
        for _ in 0..BUCKETS {
            buckets.push(Vec::new(alloc))?;
        }
        Ok(Shelf {
            candidates: Vec::new(alloc),
            buckets,
        })
    }

    /// The number of candidates on the shelf.
    pub fn len(&self) -> usize {
        self.candidates.len()
    }

    /// The shelf has as many candidates as paths may tell.
    pub fn is_crowded(&self) -> bool {
        self.candidates.len() >= MOST_OF_PATHS
    }

    fn has(&self, key: usize, candidate: &Candidate) -> bool {
        let Some(bucket) = self.buckets.get(key) else {
            return true;
        };
        for index in bucket.iter() {
            if let Some(other) = self.candidates.get(*index) {
                if other.is_like(candidate) {
                    return true;
                }
            }
        }
        false
    }

    fn note(&mut self, key: usize) -> Result<(), AllocError> {
        let index = self.candidates.len();
        if let Some(bucket) = self.buckets.get_mut(key) {
            bucket.push(index)?;
        }
        Ok(())
    }

    /// Takes a candidate in, unless it is there or there are too many.
    pub fn add(&mut self, candidate: Candidate) -> Result<(), AllocError> {
        let key = bucket_of(&candidate);
        if self.candidates.len() >= MOST || self.has(key, &candidate) {
            return Ok(());
        }
        self.note(key)?;
        self.candidates.push(candidate)?;
        Ok(())
    }

    /// The form of that candidate, if it is a fact of that place.
    pub fn fact_of(&self, index: usize, sight: &Sight) -> Option<&Form> {
        let candidate = self.candidates.get(index)?;
        if candidate.anchor != sight.anchor || candidate.head != sight.head {
            return None;
        }
        match &candidate.line {
            Line::Fact(form) => Some(form),
            _ => None,
        }
    }

    /// The rank of the candidate at an index; none past the last one.
    pub fn rank_of(&self, index: usize) -> Option<u32> {
        Some(self.candidates.get(index)?.rank)
    }

    /// The candidates on the shelf, each once, in the order in which they were added.
    pub fn into_candidates(self) -> Vec<Candidate> {
        self.candidates
    }
}
