//! Operators of scalars.

ghost use Rattle.std.specs.Prelude.{◌≡◌, IfOk, Ok};
ghost use Rattle.core_code.specs.View.{direction as direction_seen, site, term};
ghost use Rattle.opencl_terms.specs.Answers as seen;
ghost use Rattle.opencl_terms.specs.Types as types;
ghost use Rattle.opencl_terms.specs.View.{scalar as scalar_seen};
ghost use Rattle.opencl_tree.specs.Tree as tree;
ghost use Rattle.opencl_tree.specs.View.{prefix_sign};
ghost use Rattle.opencl_values.specs.Operations as rules;
ghost use Rattle.opencl_values.specs.Singles as singles;
ghost use Rattle.opencl_values.specs.View.{single, Gives};
ghost use Rattle.syntax.specs.View.{infix_sign};
ghost use Rattle.words.specs.View.{kind as kind_seen};

use crate::error::{Construct, Fault, ValueError, refused};
use crate::singles::{Single, alone, as_operand, as_scalar, as_test, scalar_of_both};
use core_code::tree::{Direction, Site, Term};
use core_pieces::pieces::select;
use opencl_terms::components::{number_in_text, size_shifted};
use opencl_terms::operators::{
    OfOne, OfTwo, may_take, of_one_component, of_two_components, result_type,
};
use opencl_terms::scalars::{Scalar, is_unsettled};
use opencl_tree::tree::PrefixSign;
use std::alloc::{AllocError, Global};
use syntax::tree::InfixSign;
use words::Kind;

fn of_promoted(
    alloc: Global,
    ids: Kind,
    operator: OfOne,
    at: Site,
    of: Single,
) -> Result<Single, ValueError>
    ensures { Gives single result (Ok (rules.of_promoted (kind_seen ids) (seen.of_one operator) (site at) (single of))) }
{
    let scalar = of.scalar.promoted();
    Ok(Single {
        scalar,
        term: of_one_component(alloc, ids, alone(scalar), operator, at, of.term)?,
    })
}

fn refuted(alloc: Global, ids: Kind, at: Site, of: Single) -> Result<Single, ValueError>
    ensures { Gives single result (rules.prefix_of (kind_seen ids) tree.LogicalNot (site at) (single of)) }
{
    Ok(Single {
        scalar: Scalar::Int,
        term: of_one_component(alloc, ids, alone(of.scalar), OfOne::Refutation, at, of.term)?,
    })
}

/// An operator of one operand (C99 6.5.3.3).
pub fn prefix_of(
    alloc: Global,
    ids: Kind,
    sign: PrefixSign,
    at: Site,
    of: Single,
) -> Result<Single, ValueError>
    ensures { Gives single result (rules.prefix_of (kind_seen ids) (prefix_sign sign) (site at) (single of)) }
{
    match sign {
        PrefixSign::Minus => of_promoted(alloc, ids, OfOne::Negative, at, of),
        PrefixSign::Plus => Ok(Single {
            scalar: of.scalar.promoted(),
            term: of.term,
        }),
        PrefixSign::LogicalNot => refuted(alloc, ids, at, of),
        PrefixSign::BitNot => {
            if of.scalar.is_float() {
                return refused(Fault::WrongType, at);
            }
            of_promoted(alloc, ids, OfOne::Complement, at, of)
        }
        PrefixSign::Indirection | PrefixSign::AddressOf => {
            refused(Fault::LeftOut(Construct::Pointer), at)
        }
    }
}

// Both operands of an operator of a scalar.
fn operands(
    alloc: Global,
    ids: Kind,
    to: Scalar,
    at: Site,
    left: Single,
    right: Single,
) -> Result<(Term, Term), AllocError>
    ensures left { IfOk result (λ both. term both.0 ≡ singles.as_operand (kind_seen ids) (scalar_seen to) (site at) (single left)) }
    ensures right { IfOk result (λ both. term both.1 ≡ singles.as_operand (kind_seen ids) (scalar_seen to) (site at) (single right)) }
{
    let left = as_operand(alloc, ids, to, at, left)?;
    let right = as_operand(alloc, ids, to, at, right)?;
    Ok((left, right))
}

fn of_both(
    alloc: Global,
    ids: Kind,
    by: (OfTwo, Scalar),
    at: Site,
    left: Single,
    right: Single,
) -> Result<Single, ValueError>
    ensures { Gives single result (Ok (rules.of_both (kind_seen ids) (seen.of_two by.0) (site at) (scalar_seen by.1) (single left) (single right))) }
{
    let (operator, to) = by;
    let (left, right) = operands(alloc, ids, to, at, left, right)?;
    let of = alone(to);
    Ok(Single {
        scalar: result_type(operator, of).scalar,
        term: of_two_components(alloc, ids, of, operator, at, left, right)?,
    })
}

fn of_settled(
    alloc: Global,
    ids: Kind,
    operator: OfTwo,
    at: Site,
    left: Single,
    right: Single,
) -> Result<Single, ValueError>
    ensures { Gives single result (rules.of_settled (kind_seen ids) (seen.of_two operator) (site at) (single left) (single right)) }
{
    let to = scalar_of_both(left.scalar, right.scalar);
    if !may_take(operator, to) {
        return refused(Fault::WrongType, at);
    }
    of_both(alloc, ids, (operator, to), at, left, right)
}

fn of_operands(
    alloc: Global,
    ids: Kind,
    operator: OfTwo,
    at: Site,
    left: Single,
    right: Single,
) -> Result<Single, ValueError>
    ensures { Gives single result (rules.of_operands (kind_seen ids) (seen.of_two operator) (site at) (single left) (single right)) }
{
    if is_unsettled(left.scalar, right.scalar) {
        return refused(Fault::LeftOut(Construct::Long), at);
    }
    of_settled(alloc, ids, operator, at, left, right)
}

// Both sides of `&&` or `||`, as tests.
fn tests(
    alloc: Global,
    ids: Kind,
    at: Site,
    left: Single,
    right: Single,
) -> Result<(Term, Term), AllocError>
    ensures left { IfOk result (λ both. term both.0 ≡ singles.as_test (kind_seen ids) (site at) (single left)) }
    ensures right { IfOk result (λ both. term both.1 ≡ singles.as_test (kind_seen ids) (site at) (single right)) }
{
    let left = as_test(alloc, ids, at, left)?;
    let right = as_test(alloc, ids, at, right)?;
    Ok((left, right))
}

fn logical(
    alloc: Global,
    ids: Kind,
    operator: OfTwo,
    at: Site,
    left: Single,
    right: Single,
) -> Result<Single, ValueError>
    ensures { Gives single result (rules.logical (kind_seen ids) (seen.of_two operator) (site at) (single left) (single right)) }
{
    let (left, right) = tests(alloc, ids, at, left, right)?;
    let of = alone(Scalar::Int);
    Ok(Single {
        scalar: Scalar::Int,
        term: of_two_components(alloc, ids, of, operator, at, left, right)?,
    })
}

// A shift of a size, by a number of the text.
fn shifted_size(
    alloc: Global,
    ids: Kind,
    direction: Direction,
    at: Site,
    left: Single,
    right: Single,
) -> Result<Single, ValueError>
    ensures { Gives single result (rules.shifted_as (kind_seen ids) (direction_seen direction) (site at) types.Size (single left) (single right)) }
{
    let Some(count) = number_in_text(&right.term) else {
        return refused(Fault::LeftOut(Construct::SizeShift), at);
    };
    Ok(Single {
        scalar: Scalar::Size,
        term: size_shifted(alloc, ids, direction, at, left.term, count)?,
    })
}

fn shifted(
    alloc: Global,
    ids: Kind,
    direction: Direction,
    at: Site,
    left: Single,
    right: Single,
) -> Result<Single, ValueError>
    ensures { Gives single result (rules.shifted (kind_seen ids) (direction_seen direction) (site at) (single left) (single right)) }
{
    if left.scalar.is_float() || right.scalar.is_float() {
        return refused(Fault::WrongType, at);
    }
    let scalar = left.scalar.promoted();
    if scalar == Scalar::Size {
        return shifted_size(alloc, ids, direction, at, left, right);
    }
    if scalar == Scalar::Long {
        return refused(Fault::LeftOut(Construct::Long), at);
    }
    let operator = OfTwo::Shifting(direction, right.scalar);
    Ok(Single {
        scalar,
        term: of_two_components(
            alloc,
            ids,
            alone(scalar),
            operator,
            at,
            left.term,
            right.term,
        )?,
    })
}

/// An operator of two operands (C99 6.5.5 to 6.5.14).
pub fn infix_of(
    alloc: Global,
    ids: Kind,
    sign: InfixSign,
    at: Site,
    left: Single,
    right: Single,
) -> Result<Single, ValueError>
    ensures { Gives single result (rules.infix_of (kind_seen ids) (infix_sign sign) (site at) (single left) (single right)) }
{
    match sign {
        InfixSign::Arithmetic(operator) => {
            of_operands(alloc, ids, OfTwo::Arithmetic(operator), at, left, right)
        }
        InfixSign::LeftShift => shifted(alloc, ids, Direction::Leftward, at, left, right),
        InfixSign::RightShift => shifted(alloc, ids, Direction::Rightward, at, left, right),
        InfixSign::Comparison(relation) => {
            of_operands(alloc, ids, OfTwo::Comparison(relation), at, left, right)
        }
        InfixSign::LogicalAnd => logical(alloc, ids, OfTwo::Both, at, left, right),
        InfixSign::LogicalOr => logical(alloc, ids, OfTwo::Either, at, left, right),
    }
}

// Both arms of a choice, as a scalar.
fn arms(
    alloc: Global,
    ids: Kind,
    to: Scalar,
    at: Site,
    taken: Single,
    skipped: Single,
) -> Result<(Term, Term), AllocError>
    ensures taken { IfOk result (λ both. term both.0 ≡ singles.as_scalar (kind_seen ids) (scalar_seen to) (site at) (single taken)) }
    ensures skipped { IfOk result (λ both. term both.1 ≡ singles.as_scalar (kind_seen ids) (scalar_seen to) (site at) (single skipped)) }
{
    let taken = as_scalar(alloc, ids, to, at, taken)?;
    let skipped = as_scalar(alloc, ids, to, at, skipped)?;
    Ok((taken, skipped))
}

/// A choice between two values (C99 6.5.15).
pub fn conditional_of(
    alloc: Global,
    ids: Kind,
    at: Site,
    test: Single,
    taken: Single,
    skipped: Single,
) -> Result<Single, ValueError>
    ensures { Gives single result (Ok (rules.conditional_of (kind_seen ids) (site at) (single test) (single taken) (single skipped))) }
{
    let scalar = scalar_of_both(taken.scalar, skipped.scalar);
    let (taken, skipped) = arms(alloc, ids, scalar, at, taken, skipped)?;
    let test = as_test(alloc, ids, at, test)?;
    Ok(Single {
        scalar,
        term: select(alloc, test, taken, skipped)?,
    })
}
