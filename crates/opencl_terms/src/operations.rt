//! Operations that are not reckoned.

ghost use Rattle.std.specs.Prelude.{◌≡◌, ◌≤◌, IfOk};
ghost use Rattle.semantics.specs.Core as core;
ghost use Rattle.semantics.specs.Word as word;
ghost use Rattle.core_code.specs.View.{operator as operator_seen, relation as relation_seen, term};
ghost use Rattle.opencl_terms.specs.Operations as rules;
ghost use Rattle.opencl_terms.specs.View.{operation as operation_seen};
ghost use Rattle.words.specs.View.{kind as kind_seen};

use crate::pieces::{boxes, compare, literal};
use core_code::tree::{Operator, Relation, Term};
use std::alloc::{AllocError, Global};
use words::Kind;

/// An operation on floats, whose result a device gives.
#[derive(Clone, Copy)]
pub enum Operation {
    /// A floating constant (C99 6.4.4.2).
    Constant,
    Negation,
    OfInt,
    OfUint,
    OfSize,
    ToInt,
    ToUint,
    Calculates(Operator),
    Compares(Relation),
}

fn operator_number(of: Operator) -> u32
    ensures number { result ≡ rules.operator_number (operator_seen of) }
    ensures small { result ≤ 7 }
{
    match of {
        Operator::Add => 0,
        Operator::Subtract => 1,
        Operator::Multiply => 2,
        Operator::Divide => 3,
        Operator::Remainder => 4,
        Operator::BitAnd => 5,
        Operator::BitOr => 6,
        Operator::BitXor => 7,
    }
}

fn relation_number(of: Relation) -> u32
    ensures number { result ≡ rules.relation_number (relation_seen of) }
    ensures small { result ≤ 5 }
{
    match of {
        Relation::Less => 0,
        Relation::AtMost => 1,
        Relation::More => 2,
        Relation::AtLeast => 3,
        Relation::Equal => 4,
        Relation::Unequal => 5,
    }
}

/// The number of an operation.
pub fn number_of(of: Operation) -> u32
    ensures { result ≡ rules.number_of (operation_seen of) }
{
    match of {
        Operation::Constant => 0,
        Operation::Negation => 1,
        Operation::OfInt => 2,
        Operation::OfUint => 3,
        Operation::OfSize => 4,
        Operation::ToInt => 5,
        Operation::ToUint => 6,
        Operation::Calculates(operator) => 8 + operator_number(operator),
        Operation::Compares(relation) => 16 + relation_number(relation),
    }
}

// What stands for an operand that an operation lacks.
fn nothing() -> Term
    ensures { term result ≡ rules.nothing }
{
    literal(Kind::Uint, 0)
}

fn opaque(
    alloc: Global,
    operation: u32,
    kind: Kind,
    first: Term,
    second: Term,
) -> Result<Term, AllocError>
    ensures { IfOk result (λ t. term t ≡ core.Opaque operation 0 (kind_seen kind) (term first) (term second) rules.nothing) }
{
    let (first, second) = boxes(alloc, first, second)?;
    Ok(Term::Opaque {
        operation,
        place: 0,
        kind,
        first,
        second,
        third: Box::new(alloc, nothing())?,
    })
}

/// An operation of one operand.
pub fn of_one(alloc: Global, of: Operation, kind: Kind, operand: Term) -> Result<Term, AllocError>
    ensures { IfOk result (λ t. term t ≡ rules.of_one (operation_seen of) (kind_seen kind) (term operand)) }
{
    opaque(alloc, number_of(of), kind, operand, nothing())
}

/// An operation of two operands.
pub fn of_two(
    alloc: Global,
    of: Operation,
    kind: Kind,
    left: Term,
    right: Term,
) -> Result<Term, AllocError>
    ensures { IfOk result (λ t. term t ≡ rules.of_two (operation_seen of) (kind_seen kind) (term left) (term right)) }
{
    opaque(alloc, number_of(of), kind, left, right)
}

/// A comparison of two floats, as an `int` of 0 or 1 (OpenCL 1.2, 6.3 d).
pub fn compared(
    alloc: Global,
    relation: Relation,
    left: Term,
    right: Term,
) -> Result<Term, AllocError>
    ensures { IfOk result (λ t. term t ≡ rules.compared (relation_seen relation) (term left) (term right)) }
{
    let told = of_two(
        alloc,
        Operation::Compares(relation),
        Kind::Uint,
        left,
        right,
    )?;
    compare(alloc, Relation::Unequal, Kind::Uint, told, nothing())
}

/// Whether a float is not 0.
pub fn is_not_zero(alloc: Global, of: Term) -> Result<Term, AllocError>
    ensures { IfOk result (λ t. term t ≡ rules.compared word.Unequal (term of) rules.nothing) }
{
    compared(alloc, Relation::Unequal, of, nothing())
}
