//! What operators make of single components.

ghost use Rattle.std.specs.Prelude.{◌≡◌, ◌≤◌, ℕ, IfOk, IfSome};
ghost use Rattle.semantics.specs.Core as core;
ghost use Rattle.semantics.specs.Word as word;
ghost use Rattle.core_code.specs.View.{direction as direction_seen, operator as operator_seen, relation as relation_seen, site, term};
ghost use Rattle.opencl_terms.specs.Components as rules;
ghost use Rattle.opencl_terms.specs.Conversions as conversions;
ghost use Rattle.opencl_terms.specs.View.{scalar};
ghost use Rattle.words.specs.View.{kind as kind_seen};

use crate::conversions::{as_float, as_long, as_uint, tested};
use crate::narrowing::{masked, narrowed};
use crate::operations::{Operation, compared, of_one, of_two};
use crate::pieces::{binary, compare, convert, literal, shift, unary};
use crate::scalars::Scalar;
use core_code::tree::{Direction, Operator, Relation, Site, Term, UnaryOperator};
use std::alloc::{AllocError, Global};
use words::{Kind, power};

fn widened(alloc: Global, ids: Kind, from: Scalar, at: Site, of: Term) -> Result<Term, AllocError>
    ensures { IfOk result (λ t. term t ≡ rules.widened (kind_seen ids) (scalar from) (site at) (term of)) }
{
    match from {
        Scalar::Uint | Scalar::Size => Ok(of),
        _ => convert(alloc, ids, at, of),
    }
}

/// An operand of a scalar operator, brought to the type of both (C99 6.3.1.8).
pub fn operand(
    alloc: Global,
    ids: Kind,
    from: Scalar,
    to: Scalar,
    at: Site,
    of: Term,
) -> Result<Term, AllocError>
    ensures { IfOk result (λ t. term t ≡ rules.operand (kind_seen ids) (scalar from) (scalar to) (site at) (term of)) }
{
    match to {
        Scalar::Float => as_float(alloc, from, of),
        Scalar::Size => widened(alloc, ids, from, at, of),
        Scalar::Long => as_long(alloc, from, at, of),
        _ => Ok(of),
    }
}

/// An arithmetic operator of two operands of a promoted scalar (C99 6.5.5, 6.5.6, 6.5.10 to 6.5.12).
pub fn calculated(
    alloc: Global,
    ids: Kind,
    operator: Operator,
    of: Scalar,
    at: Site,
    left: Term,
    right: Term,
) -> Result<Term, AllocError>
    ensures { IfOk result (λ t. term t ≡ rules.calculated (kind_seen ids) (operator_seen operator) (scalar of) (site at) (term left) (term right)) }
{
    match of {
        Scalar::Float => of_two(
            alloc,
            Operation::Calculates(operator),
            Kind::Uint,
            left,
            right,
        ),
        _ => binary(alloc, operator, of.kind(ids), at, left, right),
    }
}

fn wrapped(
    alloc: Global,
    operator: Operator,
    of: Scalar,
    at: Site,
    left: Term,
    right: Term,
) -> Result<Term, AllocError>
    ensures { IfOk result (λ t. term t ≡ rules.wrapped (operator_seen operator) (scalar of) (site at) (term left) (term right)) }
{
    match operator {
        Operator::Add | Operator::Subtract | Operator::Multiply => {
            let whole = binary(alloc, operator, Kind::Uint, at, left, right)?;
            narrowed(alloc, of, at, whole)
        }
        Operator::Divide => {
            let whole = binary(alloc, operator, Kind::Int, at, left, right)?;
            let bits = convert(alloc, Kind::Uint, at, whole)?;
            narrowed(alloc, of, at, bits)
        }
        Operator::Remainder | Operator::BitAnd | Operator::BitOr | Operator::BitXor => {
            binary(alloc, operator, Kind::Int, at, left, right)
        }
    }
}

/// An arithmetic operator of two components of vectors, which are not promoted (OpenCL 1.2, 6.2.6).
pub fn component_calculated(
    alloc: Global,
    ids: Kind,
    operator: Operator,
    of: Scalar,
    at: Site,
    left: Term,
    right: Term,
) -> Result<Term, AllocError>
    ensures { IfOk result (λ t. term t ≡ rules.component_calculated (kind_seen ids) (operator_seen operator) (scalar of) (site at) (term left) (term right)) }
{
    if of.is_narrow() {
        wrapped(alloc, operator, of, at, left, right)
    } else {
        calculated(alloc, ids, operator, of, at, left, right)
    }
}

/// A comparison of two components of a type, as an `int` of 0 or 1 (C99 6.5.8, 6.5.9).
pub fn related(
    alloc: Global,
    ids: Kind,
    relation: Relation,
    of: Scalar,
    left: Term,
    right: Term,
) -> Result<Term, AllocError>
    ensures { IfOk result (λ t. term t ≡ rules.related (kind_seen ids) (relation_seen relation) (scalar of) (term left) (term right)) }
{
    match of {
        Scalar::Float => compared(alloc, relation, left, right),
        _ => compare(alloc, relation, of.kind(ids), left, right),
    }
}

/// A test of a component of a vector: 0 or all bits set (OpenCL 1.2, 6.3 d).
pub fn all_bits(alloc: Global, at: Site, of: Term) -> Result<Term, AllocError>
    ensures { IfOk result (λ t. term t ≡ rules.all_bits (site at) (term of)) }
{
    unary(alloc, UnaryOperator::Negate, Kind::Int, at, of)
}

/// The negative of a promoted scalar (C99 6.5.3.3).
pub fn negated(
    alloc: Global,
    ids: Kind,
    from: Scalar,
    at: Site,
    of: Term,
) -> Result<Term, AllocError>
    ensures { IfOk result (λ t. term t ≡ rules.negated (kind_seen ids) (scalar from) (site at) (term of)) }
{
    match from {
        Scalar::Float => of_one(alloc, Operation::Negation, Kind::Uint, of),
        _ => unary(alloc, UnaryOperator::Negate, from.kind(ids), at, of),
    }
}

/// The negative of a component of a vector.
pub fn component_negated(
    alloc: Global,
    ids: Kind,
    from: Scalar,
    at: Site,
    of: Term,
) -> Result<Term, AllocError>
    ensures { IfOk result (λ t. term t ≡ rules.component_negated (kind_seen ids) (scalar from) (site at) (term of)) }
{
    if from.is_narrow() {
        let whole = unary(alloc, UnaryOperator::Negate, Kind::Uint, at, of)?;
        narrowed(alloc, from, at, whole)
    } else {
        negated(alloc, ids, from, at, of)
    }
}

/// The complement of each bit of a promoted integer (C99 6.5.3.3).
pub fn complemented(
    alloc: Global,
    ids: Kind,
    from: Scalar,
    at: Site,
    of: Term,
) -> Result<Term, AllocError>
    ensures { IfOk result (λ t. term t ≡ rules.complemented (kind_seen ids) (scalar from) (site at) (term of)) }
{
    unary(alloc, UnaryOperator::Complement, from.kind(ids), at, of)
}

/// The complement of each bit of a component of a vector.
pub fn component_complemented(
    alloc: Global,
    ids: Kind,
    from: Scalar,
    at: Site,
    of: Term,
) -> Result<Term, AllocError>
    ensures { IfOk result (λ t. term t ≡ rules.component_complemented (kind_seen ids) (scalar from) (site at) (term of)) }
{
    if from.is_narrow() {
        let whole = unary(alloc, UnaryOperator::Complement, Kind::Uint, at, of)?;
        narrowed(alloc, from, at, whole)
    } else {
        complemented(alloc, ids, from, at, of)
    }
}

/// Whether a component is 0, as an `int` of 0 or 1 (C99 6.5.3.3p5).
pub fn refuted(alloc: Global, from: Scalar, of: Term) -> Result<Term, AllocError>
    ensures { IfOk result (λ t. term t ≡ rules.refuted (scalar from) (term of)) }
{
    let of = tested(alloc, from, of)?;
    Ok(Term::Not {
        of: Box::new(alloc, of)?,
    })
}

/// A number of a literal term, 0 to 31.
pub fn number_in_text(of: &Term) -> Option<u32>
    ensures number { result ≡ rules.number_in_text (term of.now) }
    ensures small { IfSome result (λ n. n ≤ 31) }
{
    match of {
        Term::Literal { value, .. } if *value <= 31 => Some(*value),
        _ => None,
    }
}

/// A size, shifted by a number of the text (C99 6.5.7).
pub fn size_shifted(
    alloc: Global,
    ids: Kind,
    direction: Direction,
    at: Site,
    of: Term,
    count: u32,
) -> Result<Term, AllocError>
    requires { count ≤ 31 }
    ensures { IfOk result (λ t. term t ≡ rules.size_shifted (kind_seen ids) (direction_seen direction) (site at) (term of) count) }
{
    let factor = literal(Kind::Uint, power(count));
    match direction {
        Direction::Leftward => binary(alloc, Operator::Multiply, ids, at, of, factor),
        Direction::Rightward => binary(alloc, Operator::Divide, ids, at, of, factor),
    }
}

fn masked_count(
    alloc: Global,
    mask: u32,
    from: Scalar,
    at: Site,
    count: Term,
) -> Result<Term, AllocError>
    ensures { IfOk result (λ t. term t ≡ conversions.masked (site at) mask (conversions.as_uint (scalar from) (site at) (term count))) }
{
    let count = as_uint(alloc, from, at, count)?;
    masked(alloc, at, mask, count)
}

fn narrow_shifted(
    alloc: Global,
    direction: Direction,
    mask: u32,
    of: Scalar,
    counts: Scalar,
    at: Site,
    value: Term,
    count: Term,
) -> Result<Term, AllocError>
    ensures { IfOk result (λ t. term t ≡ rules.narrow_shifted (direction_seen direction) mask (scalar of) (scalar counts) (site at) (term value) (term count)) }
{
    let count = masked_count(alloc, mask, counts, at, count)?;
    match direction {
        Direction::Leftward => {
            let whole = shift(alloc, direction, Kind::Uint, value, count)?;
            narrowed(alloc, of, at, whole)
        }
        Direction::Rightward => shift(alloc, direction, Kind::Int, value, count),
    }
}

/// A component of a vector, shifted (OpenCL 1.2, 6.3 j).
pub fn component_shifted(
    alloc: Global,
    ids: Kind,
    direction: Direction,
    of: Scalar,
    counts: Scalar,
    at: Site,
    value: Term,
    count: Term,
) -> Result<Term, AllocError>
    ensures { IfOk result (λ t. term t ≡ rules.component_shifted (kind_seen ids) (direction_seen direction) (scalar of) (scalar counts) (site at) (term value) (term count)) }
{
    if of.is_narrow() {
        narrow_shifted(
            alloc,
            direction,
            of.bits() - 1,
            of,
            counts,
            at,
            value,
            count,
        )
    } else {
        shift(alloc, direction, of.kind(ids), value, count)
    }
}

fn is_signed(of: Scalar) -> bool
    ensures { result ≡ rules.is_signed (scalar of) }
{
    matches!(of, Scalar::Char | Scalar::Short | Scalar::Int)
}

/// Whether the highest bit of a component is set (6.3 i).
pub fn has_highest_bit(alloc: Global, ids: Kind, from: Scalar, of: Term) -> Result<Term, AllocError>
    ensures { IfOk result (λ t. term t ≡ rules.has_highest_bit (kind_seen ids) (scalar from) (term of)) }
{
    if is_signed(from) {
        compare(alloc, Relation::Less, Kind::Int, of, literal(Kind::Int, 0))
    } else {
        compare(
            alloc,
            Relation::AtLeast,
            from.kind(ids),
            of,
            literal(Kind::Uint, power(from.bits() - 1)),
        )
    }
}
