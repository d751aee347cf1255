//! Operators of whose results only a range is known to the wide walk of a kernel.

use crate::given::{Given, OneCount, Unbounded};
use crate::kinds::kind_of;
use core_code::tree::{
    Array, Core, Direction, Operator, Site, Space, Statement, Term, UnaryOperator,
};
use std::alloc::{AllocError, Global};
use words::Kind;

/// The number of passes over the statements to learn which variables may be negative.
const PASSES: usize = 4;

/// The reasons for which only the range of a value is known.
#[derive(Clone, Copy)]
pub enum Reason {
    Product,
    Quotient,
    Negative,
    Mask,
    Bits,
    SignedBits,
    Loaded,
    Held,
    Step,
}

impl Reason {
    /// The words that say of a value why little is known of it.
    pub fn text(self) -> &'static str {
        match self {
            Reason::Product => "product of two that are no numbers",
            Reason::Quotient => "quotient or remainder by what is no number",
            Reason::Negative => "quotient or remainder of an int that may be negative",
            Reason::Mask => "bits of two values: at most each of them, no more is known",
            Reason::Bits => "bits of two values: at most their sum (where no bits meet, add them)",
            Reason::SignedBits => "bits of ints that may be negative",
            Reason::Loaded => "loaded, so any value until it is tested",
            Reason::Held => "loaded: what the values lines say of it is known, and no more",
            Reason::Step => "step that is no number",
        }
    }

    /// Enough is known of the value for one access, and too little to tell two apart.
    pub fn is_of_two(self) -> bool {
        matches!(self, Reason::Mask | Reason::Bits)
    }
}

/// A value of which little is known: where its operator is, why, and what the conditions might say to make it exact, or to bound it.
#[derive(Clone, Copy)]
pub struct Vague {
    pub site: Site,
    pub reason: Reason,
    pub one: Option<OneCount>,
    pub unbounded: Option<Unbounded>,
}

/// What is known of a kernel's variables, by their slots: which are a number, which may be negative, and which would be a number if a
/// count of groups were.
#[derive(Drop)]
pub struct Slots<'a> {
    core: &'a Core,
    given: Given,
    numbers: Vec<bool>,
    dips: Vec<bool>,
    ones: Vec<Option<OneCount>>,
}

/// The mark of a slot.
fn is_marked(marks: &[bool], slot: u32) -> bool {
    marks.get(slot as usize).copied().unwrap_or(false)
}

fn mark(marks: &mut [bool], slot: u32, is: bool) {
    if let Some(it) = marks.get_mut(slot as usize) {
        *it = is;
    }
}

fn is_variable(term: &Term, wanted: u32) -> bool {
    match term {
        Term::Variable { slot } => *slot == wanted,
        _ => false,
    }
}

/// A result of an operator on ints may be negative, by which of its operands may be.
fn may_dip_by(operator: Operator, left: bool, right: bool) -> bool {
    match operator {
        Operator::Subtract => true,
        Operator::Remainder => left,
        Operator::BitAnd => left && right,
        Operator::Add
        | Operator::Multiply
        | Operator::Divide
        | Operator::BitOr
        | Operator::BitXor => left || right,
    }
}

/// A variable, an argument, an id or a size.
fn is_plain(term: &Term) -> bool {
    matches!(term, Term::Variable { .. } | Term::Id { .. })
}

impl<'a> Slots<'a> {
    /// The slots of a kernel in front of its first statement.
    fn new(alloc: Global, core: &'a Core, given: Given) -> Result<Slots<'a>, AllocError> {
        let count = core.arguments.len().saturating_add(core.variables.len());
        let mut slots = Slots {
            core,
            given,
            numbers: Vec::new(alloc),
            dips: Vec::new(alloc),
            ones: Vec::new(alloc),
        };
        for place in 0..count {
            slots.push_slot(place)?;
        }
        Ok(slots)
    }

    /// An argument, or a variable that nothing sets so far.
    fn push_slot(&mut self, place: usize) -> Result<(), AllocError> {
        let is_number = self.given.is_one(place);
        let dips = self.given.may_be_negative(place);
        self.numbers.push(is_number)?;
        self.dips.push(dips)?;
        self.ones.push(None)?;
        Ok(())
    }

    /// A value that is the same at every launch.
    pub fn is_number(&self, term: &Term) -> bool {
        match term {
            Term::Literal { .. } => true,
            Term::Variable { slot } => is_marked(self.numbers.as_slice(), *slot),
            Term::Id {
                function,
                dimension,
                ..
            } => self.given.is_number(*function, *dimension),
            Term::Unary { of, .. } | Term::Convert { of, .. } | Term::Within { index: of, .. } =>
                self.is_number(of),
            Term::Binary { left, right, .. }
            | Term::Shift {
                value: left,
                count: right,
                ..
            } => self.is_number(left) && self.is_number(right),
            _ => false,
        }
    }

    /// An element of an array of ints may be negative.
    fn may_hold_negative(&self, array: Array) -> bool {
        match array.space {
            Space::Global => self.given.may_hold_negative(array.number),
            Space::Local => true,
        }
    }

    /// The reason for which little is known of an element that is loaded, and the lines that would bound it.
    fn loaded(&self, site: Site, array: Array) -> Vague {
        let unbounded = self.given.unbounded(array.number);
        match array.space {
            Space::Global => Vague {
                site,
                reason: if unbounded.is_some() {
                    Reason::Loaded
                } else {
                    Reason::Held
                },
                one: None,
                unbounded,
            },
            Space::Local => Vague {
                site,
                reason: Reason::Loaded,
                one: None,
                unbounded: None,
            },
        }
    }

    /// An int that may be negative, as far as is known here.
    pub fn may_dip(&self, term: &Term) -> bool {
        if kind_of(self.core, term) != Kind::Int {
            return false;
        }
        match term {
            Term::Variable { slot } => is_marked(self.dips.as_slice(), *slot),
            Term::Load { array, .. } => self.may_hold_negative(*array),
            Term::Unary { operator, .. } => {
                matches!(operator, UnaryOperator::Negate | UnaryOperator::Complement)
            }
            Term::Convert { of, .. } | Term::Within { index: of, .. } => self.may_dip(of),
            Term::Binary {
                operator,
                left,
                right,
                ..
            } => {
                let dips = self.may_dip(left);
                may_dip_by(*operator, dips, self.may_dip(right))
            }
            Term::Select { taken, skipped, .. } => self.may_dip(taken) || self.may_dip(skipped),
            Term::Minimum { left, right } => self.may_dip(left) || self.may_dip(right),
            Term::Maximum { left, right } => self.may_dip(left) && self.may_dip(right),
            Term::Shift {
                direction: Direction::Rightward,
                value,
                ..
            } => self.may_dip(value),
            Term::Shift { .. } | Term::Opaque { .. } => true,
            _ => false,
        }
    }

    /// The count of groups that, were it one number, would make a value a number that is none now.
    fn one_value(&self, term: &Term) -> Option<OneCount> {
        match term {
            Term::Variable { slot } => *self.ones.get(*slot as usize)?,
            Term::Id {
                function,
                dimension,
                ..
            } => self.given.one_groups(*function, *dimension),
            Term::Unary { of, .. } | Term::Convert { of, .. } | Term::Within { index: of, .. } =>
                self.one_value(of),
            Term::Binary { left, right, .. } => {
                let one = self.one_value(left);
                self.one_of_both(left, right, one, self.one_value(right))
            }
            _ => None,
        }
    }

    /// The count of groups that would make both of two values numbers, by those that would make each of them one.
    fn one_of_both(
        &self,
        left: &Term,
        right: &Term,
        one: Option<OneCount>,
        other: Option<OneCount>,
    ) -> Option<OneCount> {
        if self.is_number(left) {
            return other;
        }
        let one = one?;
        if self.is_number(right) || other?.is_like(one) {
            return Some(one);
        }
        None
    }

    /// The count of groups that would make one of two values a number, the right one first.
    fn one_of_either(&self, left: &Term, right: &Term) -> Option<OneCount> {
        match self.one_value(right) {
            Some(one) => Some(one),
            None => self.one_value(left),
        }
    }

    /// A variable is set, for the first time or once more.
    fn set(&mut self, slot: u32, value: &Term, is_first: bool) {
        let is_number = is_first && self.is_number(value);
        let one = if is_first {
            self.one_value(value)
        } else {
            None
        };
        mark(self.numbers.as_mut_slice(), slot, is_number);
        if let Some(it) = self.ones.get_mut(slot as usize) {
            *it = one;
        }
    }

    /// Which variables are numbers: those that are set once, to one. An argument has a value before it is set.
    fn set_all(&mut self, alloc: Global, statements: &[&Statement]) -> Result<(), AllocError> {
        let mut seen = vec![in alloc; false; self.numbers.len()]?;
        for statement in statements {
            if let Statement::Set { slot, value, .. } = *statement {
                let is_argument = (*slot as usize) < self.core.arguments.len();
                let is_first = !is_argument && !is_marked(seen.as_slice(), *slot);
                mark(seen.as_mut_slice(), *slot, true);
                self.set(*slot, value, is_first);
            }
        }
        Ok(())
    }

    /// Which variables may be negative, by one more pass over what they are set to.
    fn dip(&mut self, statements: &[&Statement]) {
        for statement in statements {
            if let Statement::Set { slot, value, .. } = *statement {
                if self.may_dip(value) {
                    mark(self.dips.as_mut_slice(), *slot, true);
                }
            }
        }
    }

    /// The ranges that the conditions allow.
    pub fn given(&self) -> &Given {
        &self.given
    }

    /// The slots of a kernel, with what is known of its variables.
    pub fn of(
        alloc: Global,
        core: &'a Core,
        given: Given,
        statements: &[&Statement],
    ) -> Result<Slots<'a>, AllocError> {
        let mut slots = Slots::new(alloc, core, given)?;
        slots.set_all(alloc, statements)?;
        for _pass in 0..PASSES {
            slots.dip(statements);
        }
        Ok(slots)
    }

    /// The reason for which only the range of a quotient or remainder is known.
    fn reason_of_division(&self, left: &Term, right: &Term) -> Option<Reason> {
        if !self.is_number(right) {
            Some(Reason::Quotient)
        } else if self.may_dip(left) {
            Some(Reason::Negative)
        } else {
            None
        }
    }

    /// The reason for which only a range is known of the bits of two values.
    fn reason_of_bits(&self, operator: Operator, left: &Term, right: &Term) -> Option<Reason> {
        if may_dip_by(operator, self.may_dip(left), self.may_dip(right)) {
            return Some(Reason::SignedBits);
        }
        if self.is_number(left) || self.is_number(right) {
            return None;
        }
        match operator {
            Operator::BitAnd => Some(Reason::Mask),
            _ => Some(Reason::Bits),
        }
    }

    /// The reason for which only the range of an operator's result is known.
    fn reason_of(&self, operator: Operator, left: &Term, right: &Term) -> Option<Reason> {
        match operator {
            Operator::Multiply if self.is_number(left) || self.is_number(right) => None,
            Operator::Multiply => Some(Reason::Product),
            Operator::Divide | Operator::Remainder => self.reason_of_division(left, right),
            Operator::BitAnd | Operator::BitOr | Operator::BitXor => {
                self.reason_of_bits(operator, left, right)
            }
            Operator::Add | Operator::Subtract => None,
        }
    }

    /// The count of groups of which the conditions might say more to make a value exact.
    fn one_for(&self, reason: Reason, left: &Term, right: &Term) -> Option<OneCount> {
        match reason {
            Reason::Product => self.one_of_either(left, right),
            Reason::Quotient => self.one_value(right),
            _ => None,
        }
    }

    /// The step of a variable by a size, an argument or a variable that is no number; none where the value is no such step.
    pub fn step(&self, slot: u32, value: &Term) -> Option<Vague> {
        match value {
            Term::Convert { of, .. } => self.step(slot, of),
            Term::Binary {
                operator: Operator::Add | Operator::Subtract,
                site,
                left,
                right,
                ..
            } if is_variable(left, slot) && is_plain(right) && !self.is_number(right) => Some(
                Vague {
                    site: *site,
                    reason: Reason::Step,
                    one: self.one_value(right),
                    unbounded: None,
                },
            ),
            _ => None,
        }
    }

    /// The reason for which only the range of a term's value is known, and the site of its operator.
    pub fn what_is_vague(&self, term: &Term) -> Option<Vague> {
        match term {
            Term::Load { site, array, .. } => Some(self.loaded(*site, *array)),
            Term::Binary {
                operator,
                site,
                left,
                right,
                ..
            } => {
                let reason = self.reason_of(*operator, left, right)?;
                Some(Vague {
                    site: *site,
                    reason,
                    one: self.one_for(reason, left, right),
                    unbounded: None,
                })
            }
            _ => None,
        }
    }
}
