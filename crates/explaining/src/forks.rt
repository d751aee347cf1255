//! Tests, and how many ways each makes for a path.

use crate::kinds::kind_of;
use crate::signs::{Signs, signs_of};
use crate::vague::Slots;
use core_code::tree::{Core, Operator, Relation, Site, Term};
use kernel_names::site_at;
use std::alloc::{AllocError, Global};
use typed_kernels::Typed;
use words::Kind;

/// So many ways that come together are worth being parted from those behind.
const MANY: u64 = 64;

/// A place where a path goes on in several ways: its site, the number of ways, and a note.
#[derive(Clone, Copy)]
pub struct Fork {
    pub site: Site,
    pub ways: u64,
    pub note: &'static str,
}

/// In how many ways a test holds, and in how many it does not.
#[derive(Clone, Copy)]
pub struct Sides {
    pub holds: u64,
    pub fails: u64,
}

/// A statement in front of which paths may be parted, and in how many ways it is come to.
#[derive(Clone, Copy)]
pub struct Cut {
    pub number: u32,
    pub ways: u64,
}

/// What is known where a test stands: which variables are a number on each path; the ways that were met, in the wide walk or not; in how
/// many ways the block is come to that is gone through, and in front of which statement many come together for the first time.
#[derive(Drop)]
pub struct Tests<'a> {
    core: &'a Core,
    slots: &'a Slots<'a>,
    is_wide: bool,
    typed: &'a Typed,
    pub signs: Signs,
    pub settled: Vec<bool>,
    pub forks: Vec<Fork>,
    pub before: u64,
    pub cut: Option<Cut>,
}

impl Sides {
    fn turned(self) -> Sides {
        Sides {
            holds: self.fails,
            fails: self.holds,
        }
    }

    fn times(self, count: u64) -> Sides {
        Sides {
            holds: self.holds.saturating_mul(count),
            fails: self.fails.saturating_mul(count),
        }
    }

    pub fn total(self) -> u64 {
        self.holds.saturating_add(self.fails)
    }

    /// Both hold; the right test is asked only where the left one holds.
    fn and(self, right: Sides) -> Sides {
        let behind = right.times(self.holds);
        Sides {
            holds: behind.holds,
            fails: self.fails.saturating_add(behind.fails),
        }
    }
}

fn is_zero(term: &Term) -> bool {
    match term {
        Term::Literal { value, .. } => *value == 0,
        _ => false,
    }
}

/// A product with the number 0.
fn is_zero_product(operator: Operator, left: &Term, right: &Term) -> bool {
    matches!(operator, Operator::Multiply) && (is_zero(left) || is_zero(right))
}

/// The greater of two numbers.
pub fn greater(one: u64, other: u64) -> u64 {
    if one < other { other } else { one }
}

impl<'a> Tests<'a> {
    /// The tests of a kernel, of which this is the text, before any was met.
    pub fn of(
        alloc: Global,
        kernel: &[u8],
        typed: &'a Typed,
        slots: &'a Slots<'a>,
        is_wide: bool,
    ) -> Result<Tests<'a>, AllocError> {
        let core = typed.core();
        let count = core.arguments.len().saturating_add(core.variables.len());
        Ok(Tests {
            core,
            slots,
            is_wide,
            typed,
            signs: signs_of(alloc, kernel)?,
            settled: vec![in alloc; false; count]?,
            forks: Vec::new(alloc),
            before: 1,
            cut: None,
        })
    }

    /// A value is one number on each path: it is made of tests and numbers.
    fn is_known(&self, term: &Term) -> bool {
        match term {
            Term::Literal { .. }
            | Term::Compare { .. }
            | Term::Not { .. }
            | Term::And { .. }
            | Term::Or { .. } => true,
            Term::Variable { slot } => {
                self.settled.get(*slot as usize).copied().unwrap_or(false)
            }
            Term::Unary { of, .. } | Term::Convert { of, .. } | Term::Within { index: of, .. } =>
                self.is_known(of),
            Term::Binary {
                operator,
                left,
                right,
                ..
            } => {
                is_zero_product(*operator, left, right)
                    || (self.is_known(left) && self.is_known(right))
            }
            Term::Minimum { left, right }
            | Term::Maximum { left, right }
            | Term::Select {
                taken: left,
                skipped: right,
                ..
            } => self.is_known(left) && self.is_known(right),
            Term::Shift { value, count, .. } => {
                self.is_wide && self.is_known(value) && self.is_known(count)
            }
            Term::Id { .. } | Term::Load { .. } | Term::Opaque { .. } => false,
        }
    }

    fn are_known(&self, left: &Term, right: &Term) -> bool {
        self.is_known(left) && self.is_known(right)
    }

    /// The ways of `min` or `max` alone.
    pub fn ways_of_end(&self, left: &Term, right: &Term) -> u64 {
        if self.are_known(left, right) { 1 } else { 2 }
    }

    /// A test that makes no ways of its own.
    pub fn is_settled(&self, test: &Term) -> bool {
        match test {
            Term::Compare { left, right, .. } => self.are_known(left, right),
            Term::Not { of } => self.is_settled(of),
            Term::And { left, right } | Term::Or { left, right } => {
                self.is_settled(left) && self.is_settled(right)
            }
            _ => self.is_known(test),
        }
    }

    /// A value that the wide walk knows not to be negative.
    fn is_natural(&self, term: &Term) -> bool {
        self.is_wide && (kind_of(self.core, term) != Kind::Int || !self.slots.may_dip(term))
    }

    /// One of two values is 0, and the other is not below it.
    fn has_floor(&self, left: &Term, right: &Term) -> bool {
        (is_zero(left) && self.is_natural(right)) || (is_zero(right) && self.is_natural(left))
    }

    /// The ways of a comparison alone.
    fn sides_of_relation(&self, relation: Relation, left: &Term, right: &Term) -> Sides {
        let apart = if self.has_floor(left, right) { 1 } else { 2 };
        let equal = Sides {
            holds: 1,
            fails: apart,
        };
        match relation {
            Relation::Equal => equal,
            Relation::Unequal => equal.turned(),
            _ => Sides { holds: 1, fails: 1 },
        }
    }

    /// The ways of a number as a test.
    fn sides_of_number(&self, term: &Term) -> Sides {
        Sides {
            holds: if self.is_natural(term) { 1 } else { 2 },
            fails: 1,
        }
    }

    /// Takes notice of a statement that is come to in so many ways, where these are many for the first time.
    pub fn note_cut(&mut self, number: u32, ways: u64) {
        if self.cut.is_none() && ways >= MANY {
            self.cut = Some(Cut { number, ways });
        }
    }

    /// A variable is set.
    pub fn settle(&mut self, slot: u32, value: &Term) {
        let is_known = self.is_known(value);
        if let Some(it) = self.settled.get_mut(slot as usize) {
            *it = is_known;
        }
    }

    /// The site at which the statement of a number begins.
    pub fn site_of(&self, number: u32) -> Site {
        site_at(self.typed.names(), Some(number))
    }

    pub fn push_fork(
        &mut self,
        site: Site,
        ways: u64,
        note: &'static str,
    ) -> Result<(), AllocError> {
        if ways > 1 {
            self.forks.push(Fork { site, ways, note })?;
        }
        Ok(())
    }
}

/// The ways of a settled test are those of its operands: all are told as ways in which it holds.
fn settled_sides(count: u64) -> Sides {
    Sides {
        holds: count,
        fails: 0,
    }
}

/// The ways of a comparison, by those of its operands.
fn compared(tests: &Tests<'_>, relation: Relation, left: &Term, right: &Term, count: u64) -> Sides {
    if tests.are_known(left, right) {
        settled_sides(count)
    } else {
        tests.sides_of_relation(relation, left, right).times(count)
    }
}

/// The ways of a number as a test, by those in which it is computed.
fn counted(tests: &Tests<'_>, test: &Term, count: u64) -> Sides {
    if tests.is_known(test) {
        settled_sides(count)
    } else {
        tests.sides_of_number(test).times(count)
    }
}

/// The ways of a test with `&&`, by those of its operands.
fn both_hold(tests: &Tests<'_>, left: &Term, first: Sides, second: Sides) -> Sides {
    if tests.is_settled(left) {
        second.times(first.total())
    } else {
        first.and(second)
    }
}

/// The ways of a test with `||`, by those of its operands.
fn either_holds(tests: &Tests<'_>, left: &Term, first: Sides, second: Sides) -> Sides {
    if tests.is_settled(left) {
        second.times(first.total())
    } else {
        first.turned().and(second.turned()).turned()
    }
}

/// The ways of `?:`, by those of its test and of its two values.
fn ways_of_choice(tests: &Tests<'_>, test: &Term, sides: Sides, taken: u64, skipped: u64) -> u64 {
    if tests.is_settled(test) {
        return sides.total().saturating_mul(greater(taken, skipped));
    }
    let held = sides.holds.saturating_mul(taken);
    held.saturating_add(sides.fails.saturating_mul(skipped))
}

/// The ways of an operand, or one where operands are left aside.
#[cycle(ways)]
fn ways_inside(tests: &Tests<'_>, term: &Term, is_whole: bool) -> u64 {
    if is_whole { ways_of(tests, term) } else { 1 }
}

/// The ways of a test, with those of its operands or without them.
#[cycle(ways)]
pub fn sides_of(tests: &Tests<'_>, test: &Term, is_whole: bool) -> Sides {
    match test {
        Term::Compare {
            relation,
            left,
            right,
            ..
        } => {
            let first = ways_inside(tests, left, is_whole);
            let second = ways_inside(tests, right, is_whole);
            compared(tests, *relation, left, right, first.saturating_mul(second))
        }
        Term::Not { of } => sides_of(tests, of, is_whole).turned(),
        Term::And { left, right } => {
            let first = sides_of(tests, left, is_whole);
            both_hold(tests, left, first, sides_of(tests, right, is_whole))
        }
        Term::Or { left, right } => {
            let first = sides_of(tests, left, is_whole);
            either_holds(tests, left, first, sides_of(tests, right, is_whole))
        }
        _ => counted(tests, test, ways_inside(tests, test, is_whole)),
    }
}

/// The ways in which a value is computed.
#[cycle(ways)]
pub fn ways_of(tests: &Tests<'_>, term: &Term) -> u64 {
    match term {
        Term::Literal { .. } | Term::Variable { .. } | Term::Id { .. } => 1,
        Term::Load { index: of, .. }
        | Term::Unary { of, .. }
        | Term::Convert { of, .. }
        | Term::Within { index: of, .. } => ways_of(tests, of),
        Term::Binary { left, right, .. }
        | Term::Shift {
            value: left,
            count: right,
            ..
        } => {
            let first = ways_of(tests, left);
            first.saturating_mul(ways_of(tests, right))
        }
        Term::Compare {
            relation,
            left,
            right,
            ..
        } => {
            let first = ways_of(tests, left);
            let second = ways_of(tests, right);
            compared(tests, *relation, left, right, first.saturating_mul(second)).total()
        }
        Term::Not { of } => sides_of(tests, of, true).total(),
        Term::And { left, right } => {
            let first = sides_of(tests, left, true);
            both_hold(tests, left, first, sides_of(tests, right, true)).total()
        }
        Term::Or { left, right } => {
            let first = sides_of(tests, left, true);
            either_holds(tests, left, first, sides_of(tests, right, true)).total()
        }
        Term::Select {
            test,
            taken,
            skipped,
        } => {
            let sides = sides_of(tests, test, true);
            let first = ways_of(tests, taken);
            ways_of_choice(tests, test, sides, first, ways_of(tests, skipped))
        }
        Term::Minimum { left, right } | Term::Maximum { left, right } => {
            let first = ways_of(tests, left);
            let count = first.saturating_mul(ways_of(tests, right));
            count.saturating_mul(tests.ways_of_end(left, right))
        }
        Term::Opaque {
            first,
            second,
            third,
            ..
        } => {
            let count = ways_of(tests, first).saturating_mul(ways_of(tests, second));
            count.saturating_mul(ways_of(tests, third))
        }
    }
}
