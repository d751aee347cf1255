//! Statements, moved.

ghost use Rattle.std.specs.Prelude.{◌≡◌, IfOk, OnOk};
ghost use Rattle.semantics.specs.Core as core;
ghost use Rattle.core_code.specs.View.{array as array_seen, statement as statement_seen, statements, term};
ghost use Rattle.core_moves.specs.Moving as rules;
ghost use Rattle.core_moves.specs.View as seen;

use core_code::tree::{Array, Space, Statement, Term};
use core_pieces::pieces::{
    and, binary, compare, convert, load, maximum, minimum, not, opaque, or, select, shift, unary,
    within,
};
use std::alloc::{AllocError, Global};

/// The place of a buffer in the moved text: an array, from its first element on.
#[derive(Clone, Copy)]
pub struct Target {
    pub array: Array,
}

/// By how much the numbers of statements and the slots rise, and what the buffers are, in order.
#[derive(Drop)]
pub struct Move {
    pub statements: u32,
    pub slots: u32,
    pub arrays: Vec<Target>,
}

impl Move {
    /// An array of the text where it is put.
    pub fn array(&self, of: Array) -> Array
        ensures { array_seen result ≡ rules.moved_array (seen.move self.now) (array_seen of) }
    {
        match of.space {
            Space::Global => match self.arrays.get(of.number as usize) {
                Some(target) => target.array,
                None => of,
            },
            Space::Local => of,
        }
    }

    // The slot of a variable. One that leaves 32 bits counts as want of memory.
    fn slot(&self, of: u32) -> Result<u32, AllocError>
        ensures { IfOk result (λ n. n ≡ rules.moved_slot (seen.move self.now) of) }
    {
        of.checked_add(self.slots).ok_or(AllocError)
    }

    // The number of a statement, likewise.
    fn number(&self, of: u32) -> Result<u32, AllocError>
        ensures { IfOk result (λ n. n ≡ rules.moved_number (seen.move self.now) of) }
    {
        of.checked_add(self.statements).ok_or(AllocError)
    }
}

/// A term where it is put.
pub fn moved_term(alloc: Global, by: &Move, of: &Term) -> Result<Term, AllocError>
    ensures { IfOk result (λ t. term t ≡ rules.moved_term (seen.move by.now) (term of.now)) }
{
    match of {
        Term::Literal { kind, value } => Ok(Term::Literal {
            kind: *kind,
            value: *value,
        }),
        Term::Variable { slot } => {
            let slot = by.slot(*slot)?;
            Ok(Term::Variable { slot })
        }
        Term::Id {
            kind,
            function,
            dimension,
        } => Ok(Term::Id {
            kind: *kind,
            function: *function,
            dimension: *dimension,
        }),
        Term::Load { array, site, index } => {
            let index = moved_term(alloc, by, index)?;
            load(alloc, by.array(*array), *site, index)
        }
        Term::Unary {
            operator,
            kind,
            site,
            of,
        } => {
            let of = moved_term(alloc, by, of)?;
            unary(alloc, *operator, *kind, *site, of)
        }
        Term::Binary {
            operator,
            kind,
            site,
            left,
            right,
        } => {
            let left = moved_term(alloc, by, left)?;
            let right = moved_term(alloc, by, right)?;
            binary(alloc, *operator, *kind, *site, left, right)
        }
        Term::Convert { kind, site, of } => {
            let of = moved_term(alloc, by, of)?;
            convert(alloc, *kind, *site, of)
        }
        Term::Compare {
            relation,
            kind,
            left,
            right,
        } => {
            let left = moved_term(alloc, by, left)?;
            let right = moved_term(alloc, by, right)?;
            compare(alloc, *relation, *kind, left, right)
        }
        Term::Not { of } => {
            let of = moved_term(alloc, by, of)?;
            not(alloc, of)
        }
        Term::And { left, right } => {
            let left = moved_term(alloc, by, left)?;
            let right = moved_term(alloc, by, right)?;
            and(alloc, left, right)
        }
        Term::Or { left, right } => {
            let left = moved_term(alloc, by, left)?;
            let right = moved_term(alloc, by, right)?;
            or(alloc, left, right)
        }
        Term::Select {
            test,
            taken,
            skipped,
        } => {
            let test = moved_term(alloc, by, test)?;
            let taken = moved_term(alloc, by, taken)?;
            let skipped = moved_term(alloc, by, skipped)?;
            select(alloc, test, taken, skipped)
        }
        Term::Minimum { left, right } => {
            let left = moved_term(alloc, by, left)?;
            let right = moved_term(alloc, by, right)?;
            minimum(alloc, left, right)
        }
        Term::Maximum { left, right } => {
            let left = moved_term(alloc, by, left)?;
            let right = moved_term(alloc, by, right)?;
            maximum(alloc, left, right)
        }
        Term::Shift {
            direction,
            kind,
            value,
            count,
        } => {
            let value = moved_term(alloc, by, value)?;
            let count = moved_term(alloc, by, count)?;
            shift(alloc, *direction, *kind, value, count)
        }
        Term::Within {
            site,
            length,
            index,
        } => {
            let index = moved_term(alloc, by, index)?;
            within(alloc, *site, *length, index)
        }
        Term::Opaque {
            operation,
            place,
            kind,
            first,
            second,
            third,
        } => {
            let first = moved_term(alloc, by, first)?;
            let second = moved_term(alloc, by, second)?;
            let third = moved_term(alloc, by, third)?;
            opaque(alloc, (*operation, *place, *kind), first, second, third)
        }
    }
}

fn if_of(number: u32, test: Term, taken: Vec<Statement>, skipped: Vec<Statement>) -> Statement
    ensures { statement_seen result ≡ core.If number (term test) (statements taken.items) (statements skipped.items) }
{
    Statement::If {
        number,
        test,
        taken,
        skipped,
    }
}

fn loop_of(number: u32, test: Term, body: Vec<Statement>, update: Vec<Statement>) -> Statement
    ensures { statement_seen result ≡ core.Loop number (term test) (statements body.items) (statements update.items) }
{
    Statement::Loop {
        number,
        test,
        body,
        update,
    }
}

// Statements where they are put.
#[cycle(moving_all)]
fn moved_statements(
    alloc: Global,
    by: &Move,
    of: &[Statement],
) -> Result<Vec<Statement>, AllocError>
    ensures { IfOk result (λ v. statements v.items ≡ rules.moved_statements (seen.move by.now) (statements of.now)) }
{
    let mut all = Vec::new(alloc);
    push_moved(alloc, by, of, &mut all)?;
    Ok(all)
}

/// Puts statements behind others that stand where they are put.
#[cycle(moving_all)]
#[tactic(auto, using(crate::proofs::Lists::behind_others))]
pub fn push_moved(
    alloc: Global,
    by: &Move,
    of: &[Statement],
    all: &mut Vec<Statement>,
) -> Result<(), AllocError>
    ensures { OnOk result (statements all.new.items ≡ rules.moved_behind (seen.move by.now) (statements all.old.items) (statements of.now)) }
{
    for statement in of {
        let moved = moved_statement(alloc, by, statement)?;
        all.push(moved)?;
    }
    Ok(())
}

// A statement where it is put.
#[cycle(moving_all)]
fn moved_statement(alloc: Global, by: &Move, of: &Statement) -> Result<Statement, AllocError>
    ensures { IfOk result (λ s. statement_seen s ≡ rules.moved_statement (seen.move by.now) (statement_seen of.now)) }
{
    match of {
        Statement::Set {
            number,
            slot,
            value,
        } => {
            let number = by.number(*number)?;
            let slot = by.slot(*slot)?;
            let value = moved_term(alloc, by, value)?;
            Ok(Statement::Set {
                number,
                slot,
                value,
            })
        }
        Statement::Store {
            number,
            array,
            site,
            index,
            value,
        } => {
            let number = by.number(*number)?;
            let index = moved_term(alloc, by, index)?;
            let value = moved_term(alloc, by, value)?;
            Ok(Statement::Store {
                number,
                array: by.array(*array),
                site: *site,
                index,
                value,
            })
        }
        Statement::If {
            number,
            test,
            taken,
            skipped,
        } => {
            let number = by.number(*number)?;
            let test = moved_term(alloc, by, test)?;
            let taken = moved_statements(alloc, by, taken.as_slice())?;
            let skipped = moved_statements(alloc, by, skipped.as_slice())?;
            Ok(if_of(number, test, taken, skipped))
        }
        Statement::Loop {
            number,
            test,
            body,
            update,
        } => {
            let number = by.number(*number)?;
            let test = moved_term(alloc, by, test)?;
            let body = moved_statements(alloc, by, body.as_slice())?;
            let update = moved_statements(alloc, by, update.as_slice())?;
            Ok(loop_of(number, test, body, update))
        }
        Statement::Barrier {
            number,
            local,
            global,
        } => {
            let number = by.number(*number)?;
            Ok(Statement::Barrier {
                number,
                local: *local,
                global: *global,
            })
        }
        Statement::Return { number } => {
            let number = by.number(*number)?;
            Ok(Statement::Return { number })
        }
        Statement::Break { number, of } => {
            let number = by.number(*number)?;
            let of = by.number(*of)?;
            Ok(Statement::Break { number, of })
        }
        Statement::Continue { number, of } => {
            let number = by.number(*number)?;
            let of = by.number(*of)?;
            Ok(Statement::Continue { number, of })
        }
    }
}
