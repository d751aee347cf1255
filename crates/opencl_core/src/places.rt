//! The places of operations that are not reckoned.

ghost use Rattle.std.specs.Prelude.{◌≡◌, ℕ, IfOk};
ghost use Rattle.semantics.specs.Core as core;
ghost use Rattle.core_code.specs.View.{statement as statement_seen, statements, term};
ghost use Rattle.opencl_core.specs.Places as rules;
ghost use Rattle.opencl_core.specs.PlacesView as seen;

use core_code::tree::{Statement, Term};
use core_pieces::pieces::{
    and, binary, compare, convert, load, maximum, minimum, not, opaque, or, select, shift, unary,
    within,
};
use std::alloc::{AllocError, Global};

// Two terms, and the place of the next operation.
fn both(
    alloc: Global,
    left: &Term,
    right: &Term,
    next: u32,
) -> Result<(Term, Term, u32), AllocError>
    ensures { IfOk result (λ x. seen.both x ≡ rules.both (term left.now) (term right.now) next) }
{
    let (left, next) = placed(alloc, left, next)?;
    let (right, next) = placed(alloc, right, next)?;
    Ok((left, right, next))
}

/// A term whose operations that are not reckoned have places, from the next one on; with the place behind them.
pub fn placed(alloc: Global, of: &Term, next: u32) -> Result<(Term, u32), AllocError>
    ensures { IfOk result (λ x. seen.one x ≡ rules.placed (term of.now) next) }
{
    match of {
        Term::Literal { kind, value } => {
            let of = Term::Literal {
                kind: *kind,
                value: *value,
            };
            Ok((of, next))
        }
        Term::Variable { slot } => Ok((Term::Variable { slot: *slot }, next)),
        Term::Id {
            kind,
            function,
            dimension,
        } => {
            let of = Term::Id {
                kind: *kind,
                function: *function,
                dimension: *dimension,
            };
            Ok((of, next))
        }
        Term::Load { array, site, index } => {
            let (index, next) = placed(alloc, index, next)?;
            Ok((load(alloc, *array, *site, index)?, next))
        }
        Term::Unary {
            operator,
            kind,
            site,
            of,
        } => {
            let (of, next) = placed(alloc, of, next)?;
            Ok((unary(alloc, *operator, *kind, *site, of)?, next))
        }
        Term::Binary {
            operator,
            kind,
            site,
            left,
            right,
        } => {
            let (left, next) = placed(alloc, left, next)?;
            let (right, next) = placed(alloc, right, next)?;
            Ok((binary(alloc, *operator, *kind, *site, left, right)?, next))
        }
        Term::Convert { kind, site, of } => {
            let (of, next) = placed(alloc, of, next)?;
            Ok((convert(alloc, *kind, *site, of)?, next))
        }
        Term::Compare {
            relation,
            kind,
            left,
            right,
        } => {
            let (left, next) = placed(alloc, left, next)?;
            let (right, next) = placed(alloc, right, next)?;
            Ok((compare(alloc, *relation, *kind, left, right)?, next))
        }
        Term::Not { of } => {
            let (of, next) = placed(alloc, of, next)?;
            Ok((not(alloc, of)?, next))
        }
        Term::And { left, right } => {
            let (left, next) = placed(alloc, left, next)?;
            let (right, next) = placed(alloc, right, next)?;
            Ok((and(alloc, left, right)?, next))
        }
        Term::Or { left, right } => {
            let (left, next) = placed(alloc, left, next)?;
            let (right, next) = placed(alloc, right, next)?;
            Ok((or(alloc, left, right)?, next))
        }
        Term::Select {
            test,
            taken,
            skipped,
        } => {
            let (test, next) = placed(alloc, test, next)?;
            let (taken, next) = placed(alloc, taken, next)?;
            let (skipped, next) = placed(alloc, skipped, next)?;
            Ok((select(alloc, test, taken, skipped)?, next))
        }
        Term::Minimum { left, right } => {
            let (left, next) = placed(alloc, left, next)?;
            let (right, next) = placed(alloc, right, next)?;
            Ok((minimum(alloc, left, right)?, next))
        }
        Term::Maximum { left, right } => {
            let (left, next) = placed(alloc, left, next)?;
            let (right, next) = placed(alloc, right, next)?;
            Ok((maximum(alloc, left, right)?, next))
        }
        Term::Shift {
            direction,
            kind,
            value,
            count,
        } => {
            let (value, next) = placed(alloc, value, next)?;
            let (count, next) = placed(alloc, count, next)?;
            Ok((shift(alloc, *direction, *kind, value, count)?, next))
        }
        Term::Within {
            site,
            length,
            index,
        } => {
            let (index, next) = placed(alloc, index, next)?;
            Ok((within(alloc, *site, *length, index)?, next))
        }
        Term::Opaque {
            operation,
            kind,
            first,
            second,
            third,
            ..
        } => {
            let Some(behind) = next.checked_add(1) else {
                return Err(AllocError);
            };
            let (first, behind) = placed(alloc, first, behind)?;
            let (second, behind) = placed(alloc, second, behind)?;
            let (third, behind) = placed(alloc, third, behind)?;
            let of = opaque(alloc, (*operation, next, *kind), first, second, third)?;
            Ok((of, behind))
        }
    }
}

/// An `if` of its parts.
pub fn if_of(number: u32, test: Term, taken: Vec<Statement>, skipped: Vec<Statement>) -> Statement
    ensures { statement_seen result ≡ core.If number (term test) (statements taken.items) (statements skipped.items) }
{
    Statement::If {
        number,
        test,
        taken,
        skipped,
    }
}

/// A loop of its parts.
pub fn loop_of(number: u32, test: Term, body: Vec<Statement>, update: Vec<Statement>) -> Statement
    ensures { statement_seen result ≡ core.Loop number (term test) (statements body.items) (statements update.items) }
{
    Statement::Loop {
        number,
        test,
        body,
        update,
    }
}

/// Statements, likewise.
#[cycle(placing_all)]
#[tactic(auto, using(crate::proofs::Lists::placed_behind))]
pub fn placed_all(
    alloc: Global,
    of: &[Statement],
    next: u32,
) -> Result<(Vec<Statement>, u32), AllocError>
    ensures { IfOk result (λ x. seen.all x ≡ rules.placed_all (statements of.now) next) }
{
    let mut all = Vec::new(alloc);
    let mut next = next;
    for statement in of {
        let (statement, behind) = placed_in(alloc, statement, next)?;
        all.push(statement)?;
        next = behind;
    }
    Ok((all, next))
}

// A statement, likewise.
#[cycle(placing_all)]
#[tactic(auto, using(crate::proofs::Trees::parts))]
fn placed_in(alloc: Global, of: &Statement, next: u32) -> Result<(Statement, u32), AllocError>
    ensures { IfOk result (λ x. seen.statement_at x ≡ rules.placed_in (statement_seen of.now) next) }
{
    match of {
        Statement::Set {
            number,
            slot,
            value,
        } => {
            let (value, next) = placed(alloc, value, next)?;
            let of = Statement::Set {
                number: *number,
                slot: *slot,
                value,
            };
            Ok((of, next))
        }
        Statement::Store {
            number,
            array,
            site,
            index,
            value,
        } => {
            let (index, value, next) = both(alloc, index, value, next)?;
            let of = Statement::Store {
                number: *number,
                array: *array,
                site: *site,
                index,
                value,
            };
            Ok((of, next))
        }
        Statement::If {
            number,
            test,
            taken,
            skipped,
        } => {
            let (test, next) = placed(alloc, test, next)?;
            let (taken, next) = placed_all(alloc, taken.as_slice(), next)?;
            let (skipped, next) = placed_all(alloc, skipped.as_slice(), next)?;
            Ok((if_of(*number, test, taken, skipped), next))
        }
        Statement::Loop {
            number,
            test,
            body,
            update,
        } => {
            let (test, next) = placed(alloc, test, next)?;
            let (body, next) = placed_all(alloc, body.as_slice(), next)?;
            let (update, next) = placed_all(alloc, update.as_slice(), next)?;
            Ok((loop_of(*number, test, body, update), next))
        }
        Statement::Barrier {
            number,
            local,
            global,
        } => {
            let of = Statement::Barrier {
                number: *number,
                local: *local,
                global: *global,
            };
            Ok((of, next))
        }
        Statement::Return { number } => Ok((Statement::Return { number: *number }, next)),
        Statement::Break { number, of } => {
            let jump = Statement::Break {
                number: *number,
                of: *of,
            };
            Ok((jump, next))
        }
        Statement::Continue { number, of } => {
            let jump = Statement::Continue {
                number: *number,
                of: *of,
            };
            Ok((jump, next))
        }
    }
}
