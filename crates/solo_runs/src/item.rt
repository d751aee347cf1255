//! A work-item, and the values of terms.

use crate::holding::Span;
use crate::operations::{calculated, changed, compared, settled, shifted, truth, within};
use crate::random::Random;
use core_code::tree::{Array, Core, Function, Space, Term};
use words::Kind;

/// A number along each dimension.
pub type Triple = [u32; 3];

/// A work-item of a kernel: who it is, what its slots hold, what it will load, and what buffers may hold, where lines speak of that.
#[derive(Drop)]
pub struct Item<'a> {
    pub core: &'a Core,
    pub counts: Triple,
    pub group: Triple,
    pub local: Triple,
    pub slots: Vec<i64>,
    pub random: Random,
    pub spans: Vec<Span>,
}

/// The number along a dimension.
pub fn along(numbers: &Triple, dimension: u32) -> i64 {
    match dimension {
        0 => numbers[0] as i64,
        1 => numbers[1] as i64,
        2 => numbers[2] as i64,
        _ => 0,
    }
}

/// A place by its number within a group and the groups before it: `group * size + local`.
fn placed(group: i64, size: i64, local: i64) -> i64 {
    group.wrapping_mul(size).wrapping_add(local)
}

impl Item<'_> {
    /// The number that a work-item function answers in a dimension; past the third one each size and count is 1, and each id 0 (OpenCL 1.2,
    /// 6.12.1).
    fn id(&self, function: Function, dimension: u32) -> i64 {
        if dimension > 2 {
            return match function {
                Function::GlobalSize | Function::LocalSize | Function::NumGroups => 1,
                Function::GlobalId | Function::LocalId | Function::GroupId => 0,
            };
        }
        let size = along(&self.core.sizes, dimension);
        let count = along(&self.counts, dimension);
        let group = along(&self.group, dimension);
        let local = along(&self.local, dimension);
        match function {
            Function::GlobalId => placed(group, size, local),
            Function::LocalId => local,
            Function::GroupId => group,
            Function::GlobalSize => placed(count, size, 0),
            Function::LocalSize => size,
            Function::NumGroups => count,
        }
    }

    /// The kind of an array's elements.
    fn kind_of(&self, array: Array) -> Kind {
        let number = array.number as usize;
        let kind = match array.space {
            Space::Global => self.core.buffers.get(number).copied(),
            Space::Local => self.core.arrays.get(number).map(|found| found.kind),
        };
        kind.unwrap_or(Kind::Uint)
    }

    fn slot(&self, slot: u32) -> i64 {
        self.slots.get(slot as usize).copied().unwrap_or(0)
    }

    /// The numbers that an array may hold, where lines speak of that.
    fn span_of(&self, array: Array) -> Option<Span> {
        match array.space {
            Space::Global => self.spans.get(array.number as usize).copied(),
            Space::Local => None,
        }
    }

    fn load(&mut self, array: Array) -> i64 {
        let kind = self.kind_of(array);
        let number = self.random.loaded(kind);
        match self.span_of(array) {
            Some(span) => self.random.within(number, span.low, span.high),
            None => number,
        }
    }
}

/// The value of a term; nothing where the work-item stops.
pub fn value_of(item: &mut Item<'_>, term: &Term) -> Option<i64> {
    match term {
        Term::Literal { value, .. } => Some(*value as i64),
        Term::Variable { slot } => Some(item.slot(*slot)),
        Term::Id {
            kind,
            function,
            dimension,
        } => settled(*kind, item.id(*function, *dimension)),
        Term::Load { array, index, .. } => {
            let _index = value_of(item, index)?;
            Some(item.load(*array))
        }
        Term::Unary {
            operator,
            kind,
            of,
            ..
        } => {
            let value = value_of(item, of)?;
            changed(*operator, *kind, value)
        }
        Term::Binary {
            operator,
            kind,
            left,
            right,
            ..
        } => {
            let first = value_of(item, left)?;
            let second = value_of(item, right)?;
            calculated(*operator, *kind, first, second)
        }
        Term::Convert { kind, of, .. } => {
            let value = value_of(item, of)?;
            settled(*kind, value)
        }
        Term::Compare {
            relation,
            kind,
            left,
            right,
        } => {
            let first = value_of(item, left)?;
            let second = value_of(item, right)?;
            Some(compared(*relation, *kind, first, second))
        }
        Term::Not { of } => {
            let value = value_of(item, of)?;
            Some(truth(value == 0))
        }
        Term::And { left, right } => {
            if value_of(item, left)? == 0 {
                return Some(0);
            }
            let second = value_of(item, right)?;
            Some(truth(second != 0))
        }
        Term::Or { left, right } => {
            if value_of(item, left)? != 0 {
                return Some(1);
            }
            let second = value_of(item, right)?;
            Some(truth(second != 0))
        }
        Term::Select {
            test,
            taken,
            skipped,
        } => {
            if value_of(item, test)? != 0 {
                value_of(item, taken)
            } else {
                value_of(item, skipped)
            }
        }
        Term::Minimum { left, right } => {
            let first = value_of(item, left)?;
            let second = value_of(item, right)?;
            Some(if first < second { first } else { second })
        }
        Term::Maximum { left, right } => {
            let first = value_of(item, left)?;
            let second = value_of(item, right)?;
            Some(if first > second { first } else { second })
        }
        Term::Shift {
            direction,
            kind,
            value,
            count,
        } => {
            let value = value_of(item, value)?;
            let count = value_of(item, count)?;
            Some(shifted(*direction, *kind, value, count))
        }
        Term::Within { length, index, .. } => {
            let index = value_of(item, index)?;
            within(*length, index)
        }
        Term::Opaque {
            kind,
            first,
            second,
            third,
            ..
        } => {
            let _first = value_of(item, first)?;
            let _second = value_of(item, second)?;
            let _third = value_of(item, third)?;
            Some(item.random.loaded(*kind))
        }
    }
}
