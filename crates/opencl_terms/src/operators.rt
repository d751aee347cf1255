//! Operators of one and of two components, by the type of the value that has them.

ghost use Rattle.std.specs.Prelude.{◌≡◌, cond, IfOk};
ghost use Rattle.core_code.specs.View.{direction as direction_seen, operator as operator_seen, relation as relation_seen, site, term};
ghost use Rattle.opencl_terms.specs.Answers as seen;
ghost use Rattle.opencl_terms.specs.Answers.{value_type};
ghost use Rattle.opencl_terms.specs.Components as components;
ghost use Rattle.opencl_terms.specs.Operators as rules;
ghost use Rattle.opencl_terms.specs.Types as types;
ghost use Rattle.opencl_terms.specs.View.{scalar};
ghost use Rattle.words.specs.View.{kind as kind_seen};

use crate::components::{
    all_bits, calculated, complemented, component_calculated, component_complemented,
    component_negated, component_shifted, negated, operand, refuted, related,
};
use crate::conversions::{converted, tested, truth};
use crate::pieces::{and, binary, or, shift};
use crate::scalars::{Scalar, ValueType};
use core_code::tree::{Direction, Operator, Relation, Site, Term};
use std::alloc::{AllocError, Global};
use words::Kind;

/// An operator on one component.
#[derive(Clone, Copy)]
pub enum OfOne {
    Conversion(Scalar),
    /// An operand of a scalar operator.
    Bringing(Scalar),
    /// An operand of a logical operator.
    Testing,
    Negative,
    Complement,
    Refutation,
}

/// An operator on two components.
#[derive(Clone, Copy)]
pub enum OfTwo {
    Arithmetic(Operator),
    Comparison(Relation),
    /// By counts of this scalar.
    Shifting(Direction, Scalar),
    Both,
    Either,
}

fn testing(
    alloc: Global,
    ids: Kind,
    from: ValueType,
    at: Site,
    of: Term,
) -> Result<Term, AllocError>
    ensures { IfOk result (λ t. term t ≡ rules.of_one_component (kind_seen ids) (value_type from) rules.Testing (site at) (term of)) }
{
    if from.is_vector() {
        truth(alloc, ids, from.scalar, of)
    } else {
        tested(alloc, from.scalar, of)
    }
}

fn negative(
    alloc: Global,
    ids: Kind,
    from: ValueType,
    at: Site,
    of: Term,
) -> Result<Term, AllocError>
    ensures { IfOk result (λ t. term t ≡ rules.of_one_component (kind_seen ids) (value_type from) rules.Negative (site at) (term of)) }
{
    if from.is_vector() {
        component_negated(alloc, ids, from.scalar, at, of)
    } else {
        negated(alloc, ids, from.scalar, at, of)
    }
}

fn complement(
    alloc: Global,
    ids: Kind,
    from: ValueType,
    at: Site,
    of: Term,
) -> Result<Term, AllocError>
    ensures { IfOk result (λ t. term t ≡ rules.of_one_component (kind_seen ids) (value_type from) rules.Complement (site at) (term of)) }
{
    if from.is_vector() {
        component_complemented(alloc, ids, from.scalar, at, of)
    } else {
        complemented(alloc, ids, from.scalar, at, of)
    }
}

// A test of a component, as what its value has: of a vector all bits.
fn test_of(alloc: Global, of: ValueType, at: Site, test: Term) -> Result<Term, AllocError>
    ensures { IfOk result (λ t. term t ≡ cond (types.is_vector (value_type of)) (components.all_bits (site at) (term test)) (term test)) }
{
    if of.is_vector() {
        all_bits(alloc, at, test)
    } else {
        Ok(test)
    }
}

fn refutation(
    alloc: Global,
    ids: Kind,
    from: ValueType,
    at: Site,
    of: Term,
) -> Result<Term, AllocError>
    ensures { IfOk result (λ t. term t ≡ rules.of_one_component (kind_seen ids) (value_type from) rules.Refutation (site at) (term of)) }
{
    let test = refuted(alloc, from.scalar, of)?;
    test_of(alloc, from, at, test)
}

/// The result of an operator on a component of a value of a type.
pub fn of_one_component(
    alloc: Global,
    ids: Kind,
    from: ValueType,
    operator: OfOne,
    at: Site,
    of: Term,
) -> Result<Term, AllocError>
    ensures { IfOk result (λ t. term t ≡ rules.of_one_component (kind_seen ids) (value_type from) (seen.of_one operator) (site at) (term of)) }
{
    match operator {
        OfOne::Conversion(to) => converted(alloc, ids, from.scalar, to, at, of),
        OfOne::Bringing(to) => operand(alloc, ids, from.scalar, to, at, of),
        OfOne::Testing => testing(alloc, ids, from, at, of),
        OfOne::Negative => negative(alloc, ids, from, at, of),
        OfOne::Complement => complement(alloc, ids, from, at, of),
        OfOne::Refutation => refutation(alloc, ids, from, at, of),
    }
}

fn arithmetic(
    alloc: Global,
    ids: Kind,
    of: ValueType,
    operator: Operator,
    at: Site,
    left: Term,
    right: Term,
) -> Result<Term, AllocError>
    ensures { IfOk result (λ t. term t ≡ rules.of_two_components (kind_seen ids) (value_type of) (rules.Arithmetic (operator_seen operator)) (site at) (term left) (term right)) }
{
    if of.is_vector() {
        component_calculated(alloc, ids, operator, of.scalar, at, left, right)
    } else {
        calculated(alloc, ids, operator, of.scalar, at, left, right)
    }
}

fn comparison(
    alloc: Global,
    ids: Kind,
    of: ValueType,
    relation: Relation,
    at: Site,
    left: Term,
    right: Term,
) -> Result<Term, AllocError>
    ensures { IfOk result (λ t. term t ≡ rules.of_two_components (kind_seen ids) (value_type of) (rules.Comparison (relation_seen relation)) (site at) (term left) (term right)) }
{
    let test = related(alloc, ids, relation, of.scalar, left, right)?;
    test_of(alloc, of, at, test)
}

fn shifting(
    alloc: Global,
    ids: Kind,
    of: ValueType,
    by: (Direction, Scalar),
    at: Site,
    value: Term,
    count: Term,
) -> Result<Term, AllocError>
    ensures { IfOk result (λ t. term t ≡ rules.of_two_components (kind_seen ids) (value_type of) (rules.Shifting (direction_seen by.0) (scalar by.1)) (site at) (term value) (term count)) }
{
    let (direction, counts) = by;
    if of.is_vector() {
        component_shifted(alloc, ids, direction, of.scalar, counts, at, value, count)
    } else {
        shift(alloc, direction, of.scalar.kind(ids), value, count)
    }
}

fn both(
    alloc: Global,
    ids: Kind,
    of: ValueType,
    at: Site,
    left: Term,
    right: Term,
) -> Result<Term, AllocError>
    ensures { IfOk result (λ t. term t ≡ rules.of_two_components (kind_seen ids) (value_type of) rules.Both (site at) (term left) (term right)) }
{
    if of.is_vector() {
        let test = binary(alloc, Operator::BitAnd, Kind::Int, at, left, right)?;
        all_bits(alloc, at, test)
    } else {
        and(alloc, left, right)
    }
}

fn either(
    alloc: Global,
    ids: Kind,
    of: ValueType,
    at: Site,
    left: Term,
    right: Term,
) -> Result<Term, AllocError>
    ensures { IfOk result (λ t. term t ≡ rules.of_two_components (kind_seen ids) (value_type of) rules.Either (site at) (term left) (term right)) }
{
    if of.is_vector() {
        let test = binary(alloc, Operator::BitOr, Kind::Int, at, left, right)?;
        all_bits(alloc, at, test)
    } else {
        or(alloc, left, right)
    }
}

/// The result of an operator on two components of values of a type.
pub fn of_two_components(
    alloc: Global,
    ids: Kind,
    of: ValueType,
    operator: OfTwo,
    at: Site,
    left: Term,
    right: Term,
) -> Result<Term, AllocError>
    ensures { IfOk result (λ t. term t ≡ rules.of_two_components (kind_seen ids) (value_type of) (seen.of_two operator) (site at) (term left) (term right)) }
{
    match operator {
        OfTwo::Arithmetic(operator) => arithmetic(alloc, ids, of, operator, at, left, right),
        OfTwo::Comparison(relation) => comparison(alloc, ids, of, relation, at, left, right),
        OfTwo::Shifting(direction, counts) => {
            shifting(alloc, ids, of, (direction, counts), at, left, right)
        }
        OfTwo::Both => both(alloc, ids, of, at, left, right),
        OfTwo::Either => either(alloc, ids, of, at, left, right),
    }
}

/// The type of what a test gives (6.3 d).
pub fn test_type(of: ValueType) -> ValueType
    ensures { value_type result ≡ rules.test_type (value_type of) }
{
    if of.is_vector() {
        ValueType {
            scalar: of.scalar.signed(),
            width: of.width,
        }
    } else {
        ValueType {
            scalar: Scalar::Int,
            width: 1,
        }
    }
}

/// The type of the result, by that of the operands.
pub fn result_type(operator: OfTwo, of: ValueType) -> ValueType
    ensures { value_type result ≡ rules.result_type (seen.of_two operator) (value_type of) }
{
    match operator {
        OfTwo::Arithmetic(_) | OfTwo::Shifting(_, _) => of,
        OfTwo::Comparison(_) | OfTwo::Both | OfTwo::Either => test_type(of),
    }
}

fn of_floats(operator: Operator) -> bool
    ensures { result ≡ rules.of_floats (operator_seen operator) }
{
    matches!(
        operator,
        Operator::Add | Operator::Subtract | Operator::Multiply | Operator::Divide
    )
}

/// Whether operands may have this scalar (C99 6.5.5p2, 6.5.7p2, 6.5.10p2).
pub fn may_take(operator: OfTwo, of: Scalar) -> bool
    ensures { result ≡ rules.may_take (seen.of_two operator) (scalar of) }
{
    match operator {
        OfTwo::Arithmetic(operator) => !of.is_float() || of_floats(operator),
        OfTwo::Shifting(_, _) => !of.is_float(),
        OfTwo::Comparison(_) | OfTwo::Both | OfTwo::Either => true,
    }
}
