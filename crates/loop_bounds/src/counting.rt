//! The count of steps.

ghost use Rattle.std.specs.Prelude.{◌≡◌, ◌+◌, ◌*◌, ◌<◌, max};
ghost use Rattle.core_code.specs.View.{term as term_seen, statement as statement_seen, statements as statements_seen};
ghost use Rattle.loop_bounds.specs.Answers.{Counts};
ghost use Rattle.loop_bounds.specs.Costs as specs;
ghost use Rattle.loop_bounds.specs.Turns as turns;

use crate::bound::LoopBound;
use crate::error::BoundError;
use crate::turning::turns_of;
use core_code::tree::{Core, Statement, Term};

fn plus(left: u64, right: u64) -> Result<u64, BoundError>
    ensures { Counts result (left + right) }
{
    match left.checked_add(right) {
        Some(sum) => Ok(sum),
        None => Err(BoundError::TooLarge),
    }
}

fn times(left: u64, right: u64) -> Result<u64, BoundError>
    ensures { Counts result (left * right) }
{
    match left.checked_mul(right) {
        Some(product) => Ok(product),
        None => Err(BoundError::TooLarge),
    }
}

/// The loads of an expression.
fn loads(term: &Term) -> Result<u64, BoundError>
    ensures { Counts result (specs.loads (term_seen term.now)) }
{
    match term {
        Term::Literal { .. } | Term::Variable { .. } | Term::Id { .. } => Ok(0),
        Term::Load { index, .. } => plus(1, loads(index)?),
        Term::Unary { of, .. } | Term::Convert { of, .. } | Term::Not { of } => loads(of),
        Term::Within { index, .. } => loads(index),
        Term::Shift { value, count, .. } => plus(loads(value)?, loads(count)?),
        Term::Binary { left, right, .. }
        | Term::Compare { left, right, .. }
        | Term::And { left, right }
        | Term::Or { left, right }
        | Term::Minimum { left, right }
        | Term::Maximum { left, right } => plus(loads(left)?, loads(right)?),
        Term::Select {
            test,
            taken,
            skipped,
        } => {
            let test = loads(test)?;
            let taken = loads(taken)?;
            plus(test, taken.max(loads(skipped)?))
        }
        Term::Opaque {
            first,
            second,
            third,
            ..
        } => {
            let first = loads(first)?;
            plus(first, plus(loads(second)?, loads(third)?)?)
        }
    }
}

/// The steps of a store.
fn store_cost(index: &Term, value: &Term) -> Result<u64, BoundError>
    ensures { Counts result (1 + (specs.loads (term_seen index.now) + specs.loads (term_seen value.now))) }
{
    plus(1, plus(loads(index)?, loads(value)?)?)
}

/// The steps of an `if`, by the loads of its test and the steps of its branches.
fn if_cost(test: &Term, taken: u64, skipped: u64) -> Result<u64, BoundError>
    ensures { Counts result (1 + (specs.loads (term_seen test.now) + max taken skipped)) }
{
    plus(1, plus(loads(test)?, taken.max(skipped))?)
}

#[tactic(auto, using(crate::proofs::Products::turning))]
/// The steps of a loop, by those of its test and of what it repeats.
fn repeated(turns: u64, test: u64, body: u64, update: u64) -> Result<u64, BoundError>
    requires { 0 < turns }
    ensures { Counts result ((turns + 1) * test + turns * (body + update)) }
{
    let turn = plus(test, plus(body, update)?)?;
    plus(times(turns, turn)?, test)
}

/// The steps of a statement.
#[cycle(cost)]
fn statement_cost(bounds: &[LoopBound], statement: &Statement) -> Result<u64, BoundError>
    ensures { Counts result (specs.statement_cost (turns.turns_of bounds.now) (statement_seen statement.now)) }
{
    match statement {
        Statement::Set { value, .. } => plus(1, loads(value)?),
        Statement::Store { index, value, .. } => store_cost(index, value),
        Statement::If {
            test,
            taken,
            skipped,
            ..
        } => {
            let taken = body_cost(bounds, taken.as_slice())?;
            if_cost(test, taken, body_cost(bounds, skipped.as_slice())?)
        }
        Statement::Loop {
            number,
            test,
            body,
            update,
        } => {
            let test = plus(1, loads(test)?)?;
            let turns = turns_of(bounds, *number);
            if turns == 0 {
                return Ok(test);
            }
            let body = body_cost(bounds, body.as_slice())?;
            repeated(turns, test, body, body_cost(bounds, update.as_slice())?)
        }
        Statement::Barrier { .. }
        | Statement::Return { .. }
        | Statement::Break { .. }
        | Statement::Continue { .. } => Ok(1),
    }
}

/// The steps of statements one after the other.
#[cycle(cost)]
fn body_cost(bounds: &[LoopBound], body: &[Statement]) -> Result<u64, BoundError>
    ensures { Counts result (specs.cost (turns.turns_of bounds.now) (statements_seen body.now)) }
{
    let mut total = 0;
    for statement in body {
        total = plus(total, statement_cost(bounds, statement)?)?;
    }
    Ok(total)
}

/// The most steps that a work-item takes where each loop ends as `bounds` says of it.
pub fn cost(core: &Core, bounds: &[LoopBound]) -> Result<u64, BoundError>
    ensures { Counts result (specs.cost (turns.turns_of bounds.now) (statements_seen core.now.body.items)) }
{
    body_cost(bounds, core.body.as_slice())
}
