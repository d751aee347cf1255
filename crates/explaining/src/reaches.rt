//! How large values may be, as sums that conditions can say. Nothing relies on it: what follows from it is tried by a search.

use crate::given::Given;
use crate::guards::{Guard, guards_at};
use crate::hints::Known;
use crate::keys::{Key, key_of, literal, shifted_key};
use crate::sums::Sum;
use core_code::tree::{Operator, Relation, Site, Space, Statement, Term, UnaryOperator};
use std::alloc::{AllocError, Global};

/// A sum that bounds a value.
#[derive(Clone, Copy)]
struct Bound {
    key: Key,
    most: Sum,
}

/// The sums between which a variable's value is, and the term that it is set to, where it is set once.
#[derive(Clone, Copy)]
struct Extent<'a> {
    least: Option<Sum>,
    most: Option<Sum>,
    value: Option<&'a Term>,
    sets: u32,
}

/// The least and the greatest values at one site of a kernel.
#[derive(Drop)]
pub struct Reaches<'a> {
    given: &'a Given,
    extents: Vec<Extent<'a>>,
    bounds: Vec<Bound>,
    loaded: Vec<Key>,
}

/// Two to a power below 32.
fn power(count: u32) -> i64 {
    1i64 << (count % 32)
}

impl<'a> Reaches<'a> {
    fn bound_of(&self, term: &Term) -> Option<Sum> {
        let key = key_of(term)?;
        let mut found = None;
        for bound in self.bounds.iter() {
            if bound.key == key {
                found = Some(bound.most);
            }
        }
        found
    }

    fn extent(&self, slot: u32) -> Option<Extent<'a>> {
        self.extents.get(slot as usize).copied()
    }

    /// The greatest value of a term; none where it is no sum.
    #[cycle(reaching)]
    pub fn most(&self, term: &Term) -> Option<Sum> {
        if let Some(most) = self.bound_of(term) {
            return Some(most);
        }
        match term {
            Term::Literal { value, .. } => Some(Sum::number(*value as i64)),
            Term::Variable { slot } => self.extent(*slot)?.most,
            Term::Id {
                function,
                dimension,
                ..
            } => self.given.most_of(*function, *dimension),
            Term::Load { array, .. } => match array.space {
                Space::Global => self.given.top(array.number),
                Space::Local => None,
            },
            Term::Convert { of, .. } => self.most(of),
            Term::Unary {
                operator: UnaryOperator::ShiftLeft(count),
                of,
                ..
            } => self.most(of)?.times(Sum::number(power(*count))),
            Term::Unary {
                operator: UnaryOperator::ShiftRight(count),
                of,
                ..
            } => self.most(of)?.over(power(*count)),
            Term::Unary {
                operator: UnaryOperator::Negate,
                of,
                ..
            } => Sum::number(0).minus(self.least(of)?),
            Term::Binary {
                operator: Operator::Add | Operator::BitOr | Operator::BitXor,
                left,
                right,
                ..
            } => self.most(left)?.plus(self.most(right)?),
            Term::Binary {
                operator: Operator::Subtract,
                left,
                right,
                ..
            } => self.most(left)?.minus(self.least(right)?),
            Term::Binary {
                operator: Operator::Multiply,
                left,
                right,
                ..
            } => self.most(left)?.times(self.most(right)?),
            Term::Binary {
                operator: Operator::Divide,
                left,
                right,
                ..
            } => self.most(left)?.over(literal(right)?),
            Term::Binary {
                operator: Operator::Remainder,
                right,
                ..
            } => self.most(right)?.more(-1),
            Term::Binary {
                operator: Operator::BitAnd,
                left,
                right,
                ..
            } => match literal(right) {
                Some(number) => Some(Sum::number(number)),
                None => self.most(left),
            },
            Term::Minimum { left, right } => match self.most(left) {
                Some(most) => Some(most),
                None => self.most(right),
            },
            _ => None,
        }
    }

    /// The least value of a term, as far as is known here.
    #[cycle(reaching)]
    fn least(&self, term: &Term) -> Option<Sum> {
        match term {
            Term::Literal { value, .. } => Some(Sum::number(*value as i64)),
            Term::Variable { slot } => self.extent(*slot)?.least,
            Term::Id {
                function,
                dimension,
                ..
            } => self.given.least_of(*function, *dimension),
            Term::Convert { of, .. } => self.least(of),
            Term::Binary {
                operator: Operator::Add,
                left,
                right,
                ..
            } => self.least(left)?.plus(self.least(right)?),
            Term::Binary {
                operator: Operator::Subtract,
                left,
                right,
                ..
            } => self.least(left)?.minus(self.most(right)?),
            Term::Binary {
                operator: Operator::Multiply,
                left,
                right,
                ..
            } => self.least(left)?.times(self.least(right)?),
            _ => Some(Sum::number(0)),
        }
    }

    /// The value of a term, where it is a sum with a name.
    pub fn exact(&self, term: &Term) -> Option<Sum> {
        let most = self.most(term)?;
        if most.as_number().is_none() && self.least(term)?.beyond(most)? == 0 {
            Some(most)
        } else {
            None
        }
    }

    /// The term that a variable is set to, where it is set once; else the term.
    pub fn resolved(&self, term: &'a Term) -> &'a Term {
        match self.value_of(term) {
            Some(value) => value,
            None => term,
        }
    }

    /// The argument of a slot, where nothing sets it, or that a variable is set to once.
    pub fn own_name(&self, slot: u32) -> Option<u32> {
        match self.extent(slot)?.value {
            Some(Term::Variable { slot: other }) if self.given.has_argument(*other as usize) => {
                Some(*other)
            }
            _ if self.given.has_argument(slot as usize) => Some(slot),
            _ => None,
        }
    }

    fn value_of(&self, term: &Term) -> Option<&'a Term> {
        match term {
            Term::Variable { slot } => self.extent(*slot)?.value,
            _ => None,
        }
    }

    /// A value is loaded, or that of a variable which is set once to what is loaded.
    fn is_loaded(&self, term: &Term) -> bool {
        match term {
            Term::Load { .. } => true,
            _ => matches!(self.value_of(term), Some(Term::Load { .. })),
        }
    }

    /// A value is below one that is loaded.
    pub fn is_below_loaded(&self, term: &Term) -> bool {
        match key_of(term) {
            Some(key) => self.loaded.as_slice().contains(&key),
            None => false,
        }
    }

    /// Takes up that one value is below another one, or not above it.
    fn limit(&mut self, small: &Term, large: &Term, less: i64) -> Result<(), AllocError> {
        let Some((key, more)) = shifted_key(small) else {
            return Ok(());
        };
        if less < 0 && more == 0 && self.is_loaded(large) {
            self.loaded.push(key)?;
        }
        let found = match self.most(large) {
            Some(most) => most.more(less.saturating_sub(more)),
            None => None,
        };
        if let Some(most) = found {
            self.bounds.push(Bound { key, most })?;
        }
        Ok(())
    }

    /// Takes up what a comparison says.
    fn compare(
        &mut self,
        relation: Relation,
        left: &Term,
        right: &Term,
        holds: bool,
    ) -> Result<(), AllocError> {
        match (relation, holds) {
            (Relation::Less, true) | (Relation::AtLeast, false) => self.limit(left, right, -1),
            (Relation::AtMost, true) | (Relation::More, false) => self.limit(left, right, 0),
            (Relation::More, true) | (Relation::AtMost, false) => self.limit(right, left, -1),
            (Relation::AtLeast, true) | (Relation::Less, false) => self.limit(right, left, 0),
            (Relation::Equal, true) | (Relation::Unequal, false) => {
                self.limit(left, right, 0)?;
                self.limit(right, left, 0)
            }
            (Relation::Equal, false) | (Relation::Unequal, true) => Ok(()),
        }
    }

    /// Takes up what a test says where it holds, or where it does not.
    fn take(&mut self, test: &Term, holds: bool) -> Result<(), AllocError> {
        match test {
            Term::Not { of } => self.take(of, !holds),
            Term::Convert { of, .. } => self.take(of, holds),
            Term::And { left, right } if holds => {
                self.take(left, true)?;
                self.take(right, true)
            }
            Term::Or { left, right } if !holds => {
                self.take(left, false)?;
                self.take(right, false)
            }
            Term::Compare {
                relation,
                left,
                right,
                ..
            } => self.compare(*relation, left, right, holds),
            _ => Ok(()),
        }
    }

    /// Counts how often each variable is set.
    fn count_sets(&mut self, statements: &[&Statement]) {
        for statement in statements {
            if let Statement::Set { slot, .. } = *statement {
                if let Some(extent) = self.extents.get_mut(*slot as usize) {
                    extent.sets = extent.sets.saturating_add(1);
                }
            }
        }
    }

    /// A variable is set to a value, which it has wherever it is used if it is set once.
    fn set(&mut self, slot: u32, value: &'a Term) {
        let (least, most) = (self.least(value), self.most(value));
        if let Some(extent) = self.extents.get_mut(slot as usize) {
            if extent.sets == 1 {
                extent.least = least;
                extent.most = most;
                extent.value = Some(value);
            }
        }
    }

    /// The bounds of arguments and variables that hold anywhere in a kernel.
    fn begin(alloc: Global, known: &'a Known<'a>) -> Result<Reaches<'a>, AllocError> {
        let given = known.slots.given();
        let mut reaches = Reaches {
            given,
            extents: Vec::new(alloc),
            bounds: Vec::new(alloc),
            loaded: Vec::new(alloc),
        };
        for slot in 0..known.count {
            let own = given.argument(slot);
            reaches.extents.push(Extent {
                least: own,
                most: own,
                value: None,
                // (an argument has a value before it is set)
                sets: if given.has_argument(slot) { 1 } else { 0 },
            })?;
        }
        reaches.count_sets(known.statements.as_slice());
        reaches.set_all(known.statements.as_slice());
        Ok(reaches)
    }

    /// All variables are set, in the order of the source.
    fn set_all(&mut self, statements: &[&'a Statement]) {
        for statement in statements {
            if let Statement::Set { slot, value, .. } = *statement {
                if !self.given.has_argument(*slot as usize) {
                    self.set(*slot, value);
                }
            }
        }
    }

    /// The bounds of values that hold at a site.
    pub fn at(alloc: Global, known: &'a Known<'a>, site: Site) -> Result<Reaches<'a>, AllocError> {
        let mut reaches = Reaches::begin(alloc, known)?;
        let guards: Vec<Guard<'a>> = guards_at(alloc, known.body, site)?;
        for guard in guards.iter() {
            reaches.take(guard.test, guard.holds)?;
        }
        // (what is set before a test is bounded by it, too)
        reaches.set_all(known.statements.as_slice());
        Ok(reaches)
    }
}
