//! One work-item alone, from its start to its end or to its last step.

use crate::item::{Item, Triple, along, value_of};
use crate::random::Random;
use crate::seen::{Arrival, Observed, value_at};
use core_code::tree::{Core, Statement, Term};
use guesses::{Ranking, Sight, argument, at_anchor, group, groups, local, turns, variable};
use linear::Symbol;
use std::alloc::{AllocError, Global};
use words::Word;

/// The most steps of one work-item, so many that it comes to the end of long loops and behind them.
const STEPS: u32 = 200_000;

/// The most steps of all work-items together, but for the early ones.
const TOGETHER: u32 = 400_000;

/// The number of early steps, which each work-item may make. Each state and each loop's test before the last of them is kept, of what comes
/// later some states.
const EARLY: u32 = 400;

/// The way in which a statement is left.
#[derive(Clone, Copy)]
pub enum Flow {
    Next,
    Ended,
    Break(u32),
    Continue(u32),
}

/// A loop, and whether it is a place.
#[derive(Clone, Copy)]
struct Visit {
    number: u32,
    is_head: bool,
}

/// A work-item on its way, with what was seen up to now.
#[derive(Drop)]
pub struct Solo<'a> {
    pub alloc: Global,
    pub sights: &'a [Sight],
    pub rankings: &'a [Ranking],
    pub item: Item<'a>,
    pub seen: Observed,
    pub arrivals: Vec<Arrival>,
    anchor: Option<u32>,
    anchored: Vec<i64>,
    turned: Vec<(u32, i64)>,
    /// The number of steps that the present work-item has made.
    made: u32,
    /// The number of steps that the present work-item may make.
    room: u32,
    /// How many all may make that come after it.
    left: u32,
}

#[cycle(barriers)]
fn has_barrier(statement: &Statement) -> bool {
    match statement {
        Statement::If { taken, skipped, .. } => {
            have_barrier(taken.as_slice()) || have_barrier(skipped.as_slice())
        }
        Statement::Loop { body, update, .. } => {
            have_barrier(body.as_slice()) || have_barrier(update.as_slice())
        }
        Statement::Barrier { .. } => true,
        Statement::Set { .. }
        | Statement::Store { .. }
        | Statement::Return { .. }
        | Statement::Break { .. }
        | Statement::Continue { .. } => false,
    }
}

#[cycle(barriers)]
fn have_barrier(body: &[Statement]) -> bool {
    for statement in body {
        if has_barrier(statement) {
            return true;
        }
    }
    false
}

/// How a loop is left where its body or its update is left so; nothing where it goes on.
fn left_by(number: u32, flow: Flow) -> Option<Flow> {
    match flow {
        Flow::Next => None,
        Flow::Ended => Some(Flow::Ended),
        Flow::Continue(of) if of == number => None,
        Flow::Break(of) if of == number => Some(Flow::Next),
        other => Some(other),
    }
}

/// The symbols that stay as they are in a run, in the order of told equalities.
fn globals_of(
    alloc: Global,
    item: &Item<'_>,
    arguments: &[Word],
) -> Result<Vec<(Symbol, i64)>, AllocError> {
    let mut values = Vec::new(alloc);
    for dimension in 0..3 {
        values.push((groups(dimension), along(&item.counts, dimension)))?;
    }
    for (at, word) in arguments.iter().enumerate() {
        if let Ok(number) = u32::try_from(at) {
            values.push((argument(number), word.value()))?;
        }
    }
    for dimension in 0..3 {
        values.push((local(dimension), along(&item.local, dimension)))?;
    }
    for dimension in 0..3 {
        values.push((group(dimension), along(&item.group, dimension)))?;
    }
    Ok(values)
}

/// The slots at a run's start: arguments, and 0 of each private variable.
fn slots_of(alloc: Global, core: &Core, arguments: &[Word]) -> Result<Vec<i64>, AllocError> {
    let mut slots = Vec::new(alloc);
    for word in arguments {
        slots.push(word.value())?;
    }
    for _ in core.variables.iter() {
        slots.push(0)?;
    }
    Ok(slots)
}

/// The ranking of a loop.
fn ranking_of(rankings: &[Ranking], number: u32) -> Option<&Ranking> {
    for ranking in rankings {
        if ranking.number == number {
            return Some(ranking);
        }
    }
    None
}

impl<'a> Solo<'a> {
    /// A run before the first work-item, with nothing seen.
    pub fn new(
        alloc: Global,
        core: &'a Core,
        sights: &'a [Sight],
        rankings: &'a [Ranking],
        random: Random,
    ) -> Result<Solo<'a>, AllocError> {
        let seen = Observed::new(alloc, sights)?;
        let item = Item {
            core,
            counts: [1, 1, 1],
            group: [0, 0, 0],
            local: [0, 0, 0],
            slots: Vec::new(alloc),
            random,
            spans: Vec::new(alloc),
        };
        Ok(Solo {
            alloc,
            sights,
            rankings,
            item,
            seen,
            arrivals: Vec::new(alloc),
            anchor: None,
            anchored: Vec::new(alloc),
            turned: Vec::new(alloc),
            made: 0,
            room: 0,
            left: TOGETHER,
        })
    }

    /// Turns to another work-item, by its group and its local id, at its start.
    pub fn enter(
        &mut self,
        group: Triple,
        local: Triple,
        arguments: &[Word],
    ) -> Result<(), AllocError> {
        self.item.group = group;
        self.item.local = local;
        self.item.slots = slots_of(self.alloc, self.item.core, arguments)?;
        let globals = globals_of(self.alloc, &self.item, arguments)?;
        self.seen.begin(globals)?;
        self.anchor = None;
        self.keep_anchored()?;
        self.arrivals.clear();
        self.turned.clear();
        self.left = self.left.saturating_sub(self.made);
        self.made = 0;
        self.room = self.left.min(STEPS).max(EARLY);
        Ok(())
    }

    /// Keeps the slots as those of the anchor.
    fn keep_anchored(&mut self) -> Result<(), AllocError> {
        self.anchored = self.slots()?;
        Ok(())
    }

    fn slots(&self) -> Result<Vec<i64>, AllocError> {
        Vec::from_slice(self.alloc, self.item.slots.as_slice())
    }

    /// Counts one more step of the work-item; false where it may make no more.
    fn steps(&mut self) -> bool {
        if self.made >= self.room {
            return false;
        }
        self.made = self.made.saturating_add(1);
        true
    }

    fn is_late(&self) -> bool {
        self.made >= EARLY
    }

    fn set(&mut self, slot: u32, value: &Term) -> Flow {
        let Some(value) = value_of(&mut self.item, value) else {
            return Flow::Ended;
        };
        if let Some(place) = self.item.slots.get_mut(slot as usize) {
            *place = value;
        }
        Flow::Next
    }

    /// Evaluates the index and the value of a store; the run ends where one of them has no value.
    fn store(&mut self, index: &Term, value: &Term) -> Flow {
        let index = value_of(&mut self.item, index);
        let value = value_of(&mut self.item, value);
        if index.is_some() && value.is_some() {
            Flow::Next
        } else {
            Flow::Ended
        }
    }

    fn add_slots(&self, values: &mut Vec<(Symbol, i64)>, sight: &Sight) -> Result<(), AllocError> {
        for slot in sight.slots.iter() {
            if let Some(value) = self.item.slots.get(*slot as usize) {
                values.push((variable(*slot), *value))?;
            }
        }
        Ok(())
    }

    fn add_anchored(
        &self,
        values: &mut Vec<(Symbol, i64)>,
        sight: &Sight,
    ) -> Result<(), AllocError> {
        for slot in sight.before.iter() {
            if let Some(value) = self.anchored.get(*slot as usize) {
                values.push((at_anchor(*slot), *value))?;
            }
        }
        Ok(())
    }

    fn add_turned(&self, values: &mut Vec<(Symbol, i64)>, sight: &Sight) -> Result<(), AllocError> {
        for entry in self.turned.iter() {
            if sight.loops.contains(&entry.0) {
                values.push((turns(entry.0), entry.1))?;
            }
        }
        Ok(())
    }

    fn values_at(&self, sight: &Sight) -> Result<Vec<(Symbol, i64)>, AllocError> {
        let mut values = Vec::from_slice(self.alloc, self.seen.globals())?;
        self.add_slots(&mut values, sight)?;
        self.add_anchored(&mut values, sight)?;
        self.add_turned(&mut values, sight)?;
        Ok(values)
    }

    /// Keeps how the item stands at a place.
    fn note(&mut self, anchor: Option<u32>, head: Option<u32>) -> Result<(), AllocError> {
        let is_late = self.is_late();
        let Some(at) = self.seen.open_place(anchor, head, is_late) else {
            return Ok(());
        };
        let Some(sight) = self.sights.get(at) else {
            return Ok(());
        };
        let values = self.values_at(sight)?;
        self.seen.note(at, values)
    }

    /// Comes to a barrier and goes on behind it.
    fn arrive(&mut self, barrier: u32) -> Result<Flow, AllocError> {
        self.note(Some(barrier), None)?;
        let slots = self.slots()?;
        self.arrivals.push(Arrival { barrier, slots })?;
        self.anchor = Some(barrier);
        self.keep_anchored()?;
        Ok(Flow::Next)
    }

    /// The value of a loop's ranking in the present state; none where the loop has no ranking or a number is too large.
    fn rank_of(&self, number: u32) -> Option<i64> {
        let ranking = ranking_of(self.rankings, number)?;
        value_at(
            &ranking.form,
            self.seen.globals(),
            self.item.slots.as_slice(),
        )
    }

    /// Keeps what ranked a loop when its test was true.
    fn keep_turn(&mut self, number: u32, rank: Option<i64>) -> Result<(), AllocError> {
        let Some(rank) = rank else {
            return Ok(());
        };
        for entry in self.turned.iter_mut() {
            if entry.0 == number {
                entry.1 = rank;
                return Ok(());
            }
        }
        self.turned.push((number, rank))?;
        Ok(())
    }

    /// Evaluates a loop's test, and keeps it if it is early.
    fn try_test(
        &mut self,
        number: u32,
        test: &Term,
        first: bool,
    ) -> Result<Option<bool>, AllocError> {
        let rank = self.rank_of(number);
        let value = value_of(&mut self.item, test).map(|value| value != 0);
        let holds = value.unwrap_or(false);
        if holds {
            self.keep_turn(number, rank)?;
        }
        if !self.is_late() {
            let slots = self.slots()?;
            self.seen.note_test(number, first, holds, slots)?;
        }
        Ok(value)
    }

    /// Comes to a loop's test, and gives whether it is true; none where the run ends there.
    fn test(&mut self, visit: Visit, test: &Term, first: bool) -> Result<Option<bool>, AllocError> {
        if visit.is_head {
            self.note(self.anchor, Some(visit.number))?;
        }
        if !self.steps() {
            return Ok(None);
        }
        self.try_test(visit.number, test, first)
    }
}

/// Runs statements one after the other.
#[cycle(running)]
pub fn run_all(solo: &mut Solo<'_>, body: &[Statement]) -> Result<Flow, AllocError> {
    for statement in body {
        match run_one(solo, statement)? {
            Flow::Next => {}
            other => return Ok(other),
        }
    }
    Ok(Flow::Next)
}

/// Runs a statement, and says how it is left.
#[cycle(running)]
fn run_one(solo: &mut Solo<'_>, statement: &Statement) -> Result<Flow, AllocError> {
    if !solo.steps() {
        return Ok(Flow::Ended);
    }
    match statement {
        Statement::Set { slot, value, .. } => Ok(solo.set(*slot, value)),
        Statement::Store { index, value, .. } => Ok(solo.store(index, value)),
        Statement::If {
            test,
            taken,
            skipped,
            ..
        } => match value_of(&mut solo.item, test) {
            None => Ok(Flow::Ended),
            Some(0) => run_all(solo, skipped.as_slice()),
            Some(_) => run_all(solo, taken.as_slice()),
        },
        Statement::Loop {
            number,
            test,
            body,
            update,
        } => {
            let visit = Visit {
                number: *number,
                is_head: !have_barrier(body.as_slice()) && !have_barrier(update.as_slice()),
            };
            for turn in 0..STEPS {
                match solo.test(visit, test, turn == 0)? {
                    None => return Ok(Flow::Ended),
                    Some(false) => return Ok(Flow::Next),
                    Some(true) => {}
                }
                let flow = run_all(solo, body.as_slice())?;
                if let Some(out) = left_by(*number, flow) {
                    return Ok(out);
                }
                let flow = run_all(solo, update.as_slice())?;
                if let Some(out) = left_by(*number, flow) {
                    return Ok(out);
                }
            }
            Ok(Flow::Ended)
        }
        Statement::Barrier { number, .. } => solo.arrive(*number),
        Statement::Return { .. } => Ok(Flow::Ended),
        Statement::Break { of, .. } => Ok(Flow::Break(*of)),
        Statement::Continue { of, .. } => Ok(Flow::Continue(*of)),
    }
}
