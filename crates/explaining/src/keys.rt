//! What a test bounds.

use core_code::tree::{Function, Operator, Term};

/// A value that a test can bound: a variable, or a work-item function in a dimension.
#[derive(Clone, Copy, PartialEq, Eq)]
pub enum Key {
    Slot(u32),
    Id(u32, u32),
}

fn number_of(function: Function) -> u32 {
    match function {
        Function::GlobalId => 0,
        Function::LocalId => 1,
        Function::GroupId => 2,
        Function::GlobalSize => 3,
        Function::LocalSize => 4,
        Function::NumGroups => 5,
    }
}

/// The value that a test bounds where one of its sides is this term; none where the term is more than that value.
pub fn key_of(term: &Term) -> Option<Key> {
    match term {
        Term::Variable { slot } => Some(Key::Slot(*slot)),
        Term::Id {
            function,
            dimension,
            ..
        } => Some(Key::Id(number_of(*function), *dimension)),
        Term::Convert { of, .. } => key_of(of),
        _ => None,
    }
}

pub fn literal(term: &Term) -> Option<i64> {
    match term {
        Term::Literal { value, .. } => Some(*value as i64),
        Term::Convert { of, .. } => literal(of),
        _ => None,
    }
}

/// The value that a test bounds where one of its sides is this term, and the number that is added to it.
pub fn shifted_key(term: &Term) -> Option<(Key, i64)> {
    match term {
        Term::Convert { of, .. } => shifted_key(of),
        Term::Binary {
            operator: Operator::Add,
            left,
            right,
            ..
        } => Some((key_of(left)?, literal(right)?)),
        _ => Some((key_of(term)?, 0)),
    }
}
