//! Copies of terms.

ghost use Rattle.std.specs.Prelude.{◌≡◌, IfOk};
ghost use Rattle.core_code.specs.View.{term};

use crate::pieces::{
    and, binary, compare, convert, load, maximum, minimum, not, opaque, or, select, shift, unary,
    within,
};
use core_code::tree::Term;
use std::alloc::{AllocError, Global};

/// The same term once more.
pub fn copy_of(alloc: Global, of: &Term) -> Result<Term, AllocError>
    ensures { IfOk result (λ t. term t ≡ term of.now) }
{
    match of {
        Term::Literal { kind, value } => Ok(Term::Literal {
            kind: *kind,
            value: *value,
        }),
        Term::Variable { slot } => Ok(Term::Variable { slot: *slot }),
        Term::Id {
            kind,
            function,
            dimension,
        } => Ok(Term::Id {
            kind: *kind,
            function: *function,
            dimension: *dimension,
        }),
        Term::Load { array, site, index } => {
            let index = copy_of(alloc, index)?;
            load(alloc, *array, *site, index)
        }
        Term::Unary {
            operator,
            kind,
            site,
            of,
        } => {
            let of = copy_of(alloc, of)?;
            unary(alloc, *operator, *kind, *site, of)
        }
        Term::Binary {
            operator,
            kind,
            site,
            left,
            right,
        } => {
            let left = copy_of(alloc, left)?;
            let right = copy_of(alloc, right)?;
            binary(alloc, *operator, *kind, *site, left, right)
        }
        Term::Convert { kind, site, of } => {
            let of = copy_of(alloc, of)?;
            convert(alloc, *kind, *site, of)
        }
        Term::Compare {
            relation,
            kind,
            left,
            right,
        } => {
            let left = copy_of(alloc, left)?;
            let right = copy_of(alloc, right)?;
            compare(alloc, *relation, *kind, left, right)
        }
        Term::Not { of } => {
            let of = copy_of(alloc, of)?;
            not(alloc, of)
        }
        Term::And { left, right } => {
            let left = copy_of(alloc, left)?;
            let right = copy_of(alloc, right)?;
            and(alloc, left, right)
        }
        Term::Or { left, right } => {
            let left = copy_of(alloc, left)?;
            let right = copy_of(alloc, right)?;
            or(alloc, left, right)
        }
        Term::Select {
            test,
            taken,
            skipped,
        } => {
            let test = copy_of(alloc, test)?;
            let taken = copy_of(alloc, taken)?;
            let skipped = copy_of(alloc, skipped)?;
            select(alloc, test, taken, skipped)
        }
        Term::Minimum { left, right } => {
            let left = copy_of(alloc, left)?;
            let right = copy_of(alloc, right)?;
            minimum(alloc, left, right)
        }
        Term::Maximum { left, right } => {
            let left = copy_of(alloc, left)?;
            let right = copy_of(alloc, right)?;
            maximum(alloc, left, right)
        }
        Term::Shift {
            direction,
            kind,
            value,
            count,
        } => {
            let value = copy_of(alloc, value)?;
            let count = copy_of(alloc, count)?;
            shift(alloc, *direction, *kind, value, count)
        }
        Term::Within {
            site,
            length,
            index,
        } => {
            let index = copy_of(alloc, index)?;
            within(alloc, *site, *length, index)
        }
        Term::Opaque {
            operation,
            place,
            kind,
            first,
            second,
            third,
        } => {
            let first = copy_of(alloc, first)?;
            let second = copy_of(alloc, second)?;
            let third = copy_of(alloc, third)?;
            opaque(alloc, (*operation, *place, *kind), first, second, third)
        }
    }
}
