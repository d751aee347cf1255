//! What was seen of places and of tests, and what that refutes.

use certificate::tree::Descent;
use guesses::{
    Candidate, Factors, Line, Ranking, Sight, index_of, is_product, is_variable, plain, value_in,
};
use linear::{Form, Symbol};
use std::alloc::{AllocError, Global};

/// The number of different states of a place that are kept from the first steps of all runs. Each run may add `STATES_OF_RUN`, so that the
/// first runs do not take the room of the others.
const STATES: u64 = 96;

const STATES_OF_RUN: u64 = 8;

/// The number of different states of a place that are kept from later steps of all runs. Each run may add `LATE_OF_RUN`.
const LATE: u64 = 96;

const LATE_OF_RUN: u64 = 6;

/// The number of states that may be kept: so many for all runs, and so many for each one that has begun.
fn room(all: u64, of_run: u64, runs: u64) -> u64 {
    of_run.saturating_mul(runs).saturating_add(all)
}

/// The values of the symbols at a place, by its number in the list of sights.
#[derive(Drop)]
pub struct State {
    pub place: usize,
    pub values: Vec<(Symbol, i64)>,
}

/// A loop's test: whether it is the first of a visit, whether it came out true, in which run, and what the slots held.
#[derive(Drop)]
pub struct Test {
    pub number: u32,
    pub first: bool,
    pub holds: bool,
    pub run: usize,
    pub slots: Vec<i64>,
}

/// An item's arrival at a barrier.
#[derive(Drop)]
pub struct Arrival {
    pub barrier: u32,
    pub slots: Vec<i64>,
}

/// A place with marks of the states that are kept of it: how often the run came there, at which time it is looked at again among its later
/// steps, and how often that was done in all runs.
#[derive(Drop)]
struct MarkedPlace {
    anchor: Option<u32>,
    head: Option<u32>,
    marks: Vec<u64>,
    visits: u64,
    next: u64,
    late: u64,
}

impl MarkedPlace {
    /// A state of a run's early steps is to be kept.
    fn is_open(&self, runs: u64) -> bool {
        (self.marks.len() as u64) < room(STATES, STATES_OF_RUN, runs).saturating_add(self.late)
    }

    /// A state of a run's later steps is to be kept: at each visit up to the 32nd, then at one of two, of three and so on, so that also a
    /// loop's last turns are seen.
    fn is_open_late(&mut self, runs: u64) -> bool {
        if self.late >= room(LATE, LATE_OF_RUN, runs) || self.visits < self.next {
            return false;
        }
        self.late = self.late.saturating_add(1);
        self.next = self.visits.saturating_add((self.visits / 16).max(1));
        true
    }
}

/// The states, the tests and the slots whose values differ that all runs have shown.
#[derive(Drop)]
pub struct Observed {
    places: Vec<MarkedPlace>,
    states: Vec<State>,
    unequal: Vec<(u32, u32)>,
    runs: Vec<Vec<(Symbol, i64)>>,
    tests: Vec<Test>,
}

/// One more number in a mark.
fn mixed(mark: u64, number: u64) -> u64 {
    let sum = (mark ^ number).wrapping_mul(0xff51_afd7_ed55_8ccd);
    sum ^ (sum >> 32)
}

/// A number that hardly two lists of values share.
fn mark_of(values: &[(Symbol, i64)]) -> u64 {
    let mut mark = 1;
    for entry in values {
        mark = mixed(mark, entry.0.number);
        mark = mixed(mark, entry.1.cast_unsigned());
    }
    mark
}

/// The value of a symbol at a loop's test, that of a product by its factors.
fn symbol_at(symbol: Symbol, globals: &[(Symbol, i64)], slots: &[i64]) -> Option<i64> {
    if !is_product(symbol) {
        return plain_at(symbol, globals, slots);
    }
    let mut product: i64 = 1;
    let factors = Factors::of(symbol);
    for factor in [factors.first, factors.second, factors.third] {
        if factor != 0 {
            let value = plain_at(plain(factor), globals, slots)?;
            product = product.checked_mul(value)?;
        }
    }
    Some(product)
}

/// The value of a symbol that is no product at a loop's test.
fn plain_at(symbol: Symbol, globals: &[(Symbol, i64)], slots: &[i64]) -> Option<i64> {
    if is_variable(symbol) {
        return slots.get(index_of(symbol) as usize).copied();
    }
    for entry in globals {
        if entry.0 == symbol {
            return Some(entry.1);
        }
    }
    None
}

/// The value of a form at a loop's test.
pub fn value_at(form: &Form, globals: &[(Symbol, i64)], slots: &[i64]) -> Option<i64> {
    let mut sum = form.constant_part();
    for term in form.terms() {
        let value = symbol_at(term.symbol, globals, slots)?;
        let product = term.coefficient.checked_mul(value)?;
        sum = sum.checked_add(product)?;
    }
    Some(sum)
}

/// A line is false where symbols have these values; not where a value is missing or the line speaks of two items.
fn is_false(line: &Line, values: &[(Symbol, i64)]) -> bool {
    match line {
        Line::Same(_) => false,
        Line::Fact(form) => value_in(form, values).is_some_and(|value| value < 0),
        Line::Multiple { modulus, form } => match value_in(form, values) {
            None => false,
            Some(value) => value.unsigned_abs().checked_rem(*modulus).unwrap_or(0) != 0,
        },
        Line::MultipleOf { of, form } => match (value_in(of, values), value_in(form, values)) {
            (Some(of), Some(value)) => is_no_multiple(value, of),
            _ => false,
        },
    }
}

/// A number is no multiple of another one.
fn is_no_multiple(value: i64, of: i64) -> bool {
    if of == 0 {
        return value != 0;
    }
    value.unsigned_abs().checked_rem(of.unsigned_abs()) != Some(0)
}

/// A rank falls from one to the other; one that doubles has at least doubled.
fn falls(descent: Descent, before: i64, after: i64) -> bool {
    match descent {
        Descent::Down(step) => match before.checked_sub(after) {
            None => false,
            Some(fall) => fall >= 0 && fall.unsigned_abs() >= step,
        },
        Descent::Halve => after <= before.div_euclid(2),
        Descent::Double(_) => match before.checked_mul(2) {
            None => false,
            Some(double) => after >= double,
        },
    }
}

impl Observed {
    /// Observations in which nothing of these places is seen yet.
    pub fn new(alloc: Global, sights: &[Sight]) -> Result<Observed, AllocError> {
        let mut places = Vec::new(alloc);
        for sight in sights {
            places.push(MarkedPlace {
                anchor: sight.anchor,
                head: sight.head,
                marks: Vec::new(alloc),
                visits: 0,
                next: 0,
                late: 0,
            })?;
        }
        Ok(Observed {
            places,
            states: Vec::new(alloc),
            unequal: Vec::new(alloc),
            runs: Vec::new(alloc),
            tests: Vec::new(alloc),
        })
    }

    /// The states that are kept of all places and runs.
    pub fn states(&self) -> &[State] {
        self.states.as_slice()
    }

    fn place_of(&self, anchor: Option<u32>, head: Option<u32>) -> Option<usize> {
        for (at, place) in self.places.iter().enumerate() {
            if place.anchor == anchor && place.head == head {
                return Some(at);
            }
        }
        None
    }

    /// Comes to a place, early or late in a run: the place, if its state is to be kept.
    pub fn open_place(
        &mut self,
        anchor: Option<u32>,
        head: Option<u32>,
        is_late: bool,
    ) -> Option<usize> {
        let at = self.place_of(anchor, head)?;
        let runs = self.runs.len() as u64;
        let place = self.places.get_mut(at)?;
        place.visits = place.visits.saturating_add(1);
        let is_open = if is_late {
            place.is_open_late(runs)
        } else {
            place.is_open(runs)
        };
        if is_open { Some(at) } else { None }
    }

    /// Keeps a state of a place, unless it is kept already.
    pub fn note(&mut self, at: usize, values: Vec<(Symbol, i64)>) -> Result<(), AllocError> {
        let mark = mark_of(values.as_slice());
        let Some(place) = self.places.get_mut(at) else {
            return Ok(());
        };
        if place.marks.contains(&mark) {
            return Ok(());
        }
        place.marks.push(mark)?;
        self.states.push(State { place: at, values })?;
        Ok(())
    }

    /// Begins a run, of which these symbols stay as they are.
    pub fn begin(&mut self, globals: Vec<(Symbol, i64)>) -> Result<(), AllocError> {
        for place in self.places.iter_mut() {
            place.visits = 0;
            place.next = 0;
        }
        self.runs.push(globals)?;
        Ok(())
    }

    /// The values of the symbols that stay as they are in the last run: those of the launch and of its item.
    pub fn globals(&self) -> &[(Symbol, i64)] {
        match self.runs.last() {
            None => &[],
            Some(globals) => globals.as_slice(),
        }
    }

    /// Keeps a test of the last run.
    pub fn note_test(
        &mut self,
        number: u32,
        first: bool,
        holds: bool,
        slots: Vec<i64>,
    ) -> Result<(), AllocError> {
        let run = self.runs.len().saturating_sub(1);
        self.tests.push(Test {
            number,
            first,
            holds,
            run,
            slots,
        })?;
        Ok(())
    }

    fn note_unequal(&mut self, barrier: u32, slot: usize) -> Result<(), AllocError> {
        let Ok(slot) = u32::try_from(slot) else {
            return Ok(());
        };
        if !self.is_unequal(barrier, slot) {
            self.unequal.push((barrier, slot))?;
        }
        Ok(())
    }

    fn is_unequal(&self, barrier: u32, slot: u32) -> bool {
        for entry in self.unequal.iter() {
            if entry.0 == barrier && entry.1 == slot {
                return true;
            }
        }
        false
    }

    fn compare_slots(
        &mut self,
        barrier: u32,
        left: &[i64],
        right: &[i64],
    ) -> Result<(), AllocError> {
        for (slot, value) in left.iter().enumerate() {
            if right.get(slot).is_some_and(|other| *other != *value) {
                self.note_unequal(barrier, slot)?;
            }
        }
        Ok(())
    }

    /// Notes which slots two items of a group had unlike, as long as they came by the same barriers.
    pub fn compare(&mut self, left: &[Arrival], right: &[Arrival]) -> Result<(), AllocError> {
        for (at, first) in left.iter().enumerate() {
            let Some(second) = right.get(at) else {
                return Ok(());
            };
            if first.barrier != second.barrier {
                return Ok(());
            }
            self.compare_slots(
                first.barrier,
                first.slots.as_slice(),
                second.slots.as_slice(),
            )?;
        }
        Ok(())
    }

    fn is_false_at(&self, place: usize, line: &Line) -> bool {
        for state in self.states.iter() {
            if state.place == place && is_false(line, state.values.as_slice()) {
                return true;
            }
        }
        false
    }

    /// A state that was seen contradicts the candidate.
    pub fn refutes(&self, candidate: &Candidate) -> bool {
        if let Line::Same(slot) = &candidate.line {
            return match (candidate.anchor, candidate.head) {
                (Some(barrier), None) => self.is_unequal(barrier, *slot),
                _ => false,
            };
        }
        match self.place_of(candidate.anchor, candidate.head) {
            None => false,
            Some(place) => self.is_false_at(place, &candidate.line),
        }
    }

    fn rank_at(&self, test: &Test, form: &Form) -> Option<i64> {
        let globals = self.runs.get(test.run)?;
        value_at(form, globals.as_slice(), test.slots.as_slice())
    }

    /// The runs refute a ranking: in one the form was not what it has to be at a test, or did not fall between two tests of one visit.
    pub fn refutes_ranking(&self, ranking: &Ranking) -> bool {
        let mut last: Option<i64> = None;
        for test in self.tests.iter() {
            if test.number == ranking.number {
                let before = if test.first { None } else { last };
                last = self.rank_at(test, &ranking.form);
                if is_broken(ranking.descent, test.holds, before, last) {
                    return true;
                }
            }
        }
        false
    }
}

/// A rank is too small at a test: not above 0 where the test holds; or, where it doubles, below what it is said to be at least.
fn is_small(descent: Descent, holds: bool, rank: i64) -> bool {
    match descent {
        Descent::Down(_) | Descent::Halve => holds && rank < 1,
        Descent::Double(least) => rank < 0 || rank.unsigned_abs() < least,
    }
}

/// A rank that is too small, or that did not fall.
fn is_broken(descent: Descent, holds: bool, before: Option<i64>, after: Option<i64>) -> bool {
    let Some(after) = after else {
        return false;
    };
    if is_small(descent, holds, after) {
        return true;
    }
    before.is_some_and(|before| !falls(descent, before, after))
}
