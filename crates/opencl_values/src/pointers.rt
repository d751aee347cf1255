//! Pointers: arrays with an offset.

ghost use Rattle.std.specs.Prelude.{◌≡◌, ◌≤◌, IfOk, map};
ghost use Rattle.std.specs.Option.{option_map};
ghost use Rattle.core_code.specs.View.{operator as operator_seen, site, space as core_space, term};
ghost use Rattle.opencl_terms.specs.Answers.{value_type};
ghost use Rattle.opencl_terms.specs.View.{scalar as scalar_seen};
ghost use Rattle.opencl_tree.specs.View.{base as base_seen, expression, prefix_sign, qualifiers as qualifiers_seen, space_of, type_name};
ghost use Rattle.opencl_values.specs.ElementsView.{maybe_term, part as part_seen};
ghost use Rattle.opencl_values.specs.Pointers as rules;
ghost use Rattle.opencl_values.specs.View.{bindings, maybe_scalar, meaning_in, names as names_seen, single, value as value_seen, Gives};
ghost use Rattle.syntax.specs.View.{infix_sign};

use crate::elements::{Part, as_offset, in_place, steps, times_pieces};
use crate::error::{Construct, Fault, ValueError, refused};
use crate::names::type_of_base;
use crate::scope::{Binding, Meaning, Names, meaning_of};
use crate::singles::Single;
use crate::views::{has_view, is_finer, parts_of};
use crate::wholes::{Value, is_same_type, only, whole, words};
use core_code::tree::{Operator, Relation, Site, Space as CoreSpace, Term};
use core_pieces::copies::copy_of;
use core_pieces::pieces::{binary, convert, literal};
use opencl_terms::scalars::{Scalar, ValueType};
use opencl_tree::tree::{Expr, PrefixSign};
use opencl_tree::types::{Base, Qualifiers, Space, TypeName};
use std::alloc::{AllocError, Global};
use syntax::tree::InfixSign;
use words::Kind;

fn is_array(meaning: Option<&Meaning>) -> bool
    ensures { result ≡ rules.is_array (meaning_in meaning.entry) }
{
    matches!(
        meaning,
        Some(Meaning::Array { .. } | Meaning::Own { .. } | Meaning::Pointer { .. })
    )
}

fn is_moved(sign: InfixSign, left: bool, right: bool) -> bool
    ensures { result ≡ rules.is_moved (infix_sign sign) left right }
{
    match sign {
        InfixSign::Arithmetic(Operator::Add) => left || right,
        InfixSign::Arithmetic(Operator::Subtract) => left,
        _ => false,
    }
}

/// Whether an expression is a pointer, as far as its form and its names tell.
#[tactic(auto, unfolding(crate::specs::Pointers::is_pointer))]
pub fn is_pointer(names: Names, of: &Expr) -> bool
    ensures { result ≡ rules.is_pointer (names_seen names.entry) (expression of.now) }
{
    match of {
        Expr::Name { name, .. } => is_array(meaning_of(names.visible, name.as_str())),
        Expr::Infix {
            sign,
            left,
            right,
            ..
        } => {
            let left = is_pointer(names, left);
            let right = is_pointer(names, right);
            is_moved(*sign, left, right)
        }
        Expr::Prefix {
            sign: PrefixSign::AddressOf,
            ..
        } => true,
        Expr::Cast { to, .. } => !to.stars.is_empty(),
        _ => false,
    }
}

/// Whether a sign is `*`.
pub fn is_indirection(sign: PrefixSign) -> bool
    ensures { result ≡ rules.is_indirection (prefix_sign sign) }
{
    matches!(sign, PrefixSign::Indirection)
}

/// Whether a sign is `&`.
pub fn is_address(sign: PrefixSign) -> bool
    ensures { result ≡ rules.is_address (prefix_sign sign) }
{
    matches!(sign, PrefixSign::AddressOf)
}

fn moving_by(operator: Operator) -> Option<Operator>
    ensures { option_map operator_seen result ≡ rules.moving_by (operator_seen operator) }
{
    match operator {
        Operator::Add => Some(Operator::Add),
        Operator::Subtract => Some(Operator::Subtract),
        _ => None,
    }
}

/// The operator that moves a pointer.
pub fn moving(sign: InfixSign) -> Option<Operator>
    ensures { option_map operator_seen result ≡ rules.moving (infix_sign sign) }
{
    match sign {
        InfixSign::Arithmetic(operator) => moving_by(operator),
        _ => None,
    }
}

fn is_add(operator: Operator) -> bool
    ensures { result ≡ rules.is_add (operator_seen operator) }
{
    matches!(operator, Operator::Add)
}

/// Whether the pointer is the right operand of an operator.
pub fn is_behind(names: Names, operator: Operator, left: &Expr) -> bool
    ensures { result ≡ rules.is_behind (names_seen names.entry) (operator_seen operator) (expression left.now) }
{
    is_add(operator) && !is_pointer(names, left)
}

fn is_flat(of: &Part) -> bool
    ensures { result ≡ rules.is_flat (part_seen of.now) }
{
    match of.lengths {
        [] => of.index.is_none(),
        [_] => true,
        _ => false,
    }
}

/// An offset, so many elements on or back.
pub fn moved(
    alloc: Global,
    at: Site,
    operator: Operator,
    offset: Option<Term>,
    by: Term,
) -> Result<Term, AllocError>
    ensures { IfOk result (λ t. term t ≡ rules.moved (site at) (operator_seen operator) (maybe_term offset) (term by)) }
{
    match (offset, operator) {
        (None, Operator::Add) => Ok(by),
        (None, _) => binary(alloc, operator, Kind::Int, at, literal(Kind::Int, 0), by),
        (Some(offset), _) => binary(alloc, operator, Kind::Int, at, offset, by),
    }
}

/// A pointer, so many elements on or back (C99 6.5.6p8).
pub fn shifted<'a>(
    alloc: Global,
    at: Site,
    operator: Operator,
    of: Part<'a>,
    by: Single,
) -> Result<Part<'a>, ValueError>
    ensures { Gives part_seen result (rules.shifted (site at) (operator_seen operator) (part_seen of.entry) (single by)) }
{
    if by.scalar.is_float() {
        return refused(Fault::WrongType, at);
    }
    if !is_flat(&of) {
        return refused(Fault::LeftOut(Construct::Pointer), at);
    }
    let by = as_offset(alloc, at, by)?;
    let by = steps(alloc, at, of.over, of.element, by)?;
    let Part {
        array,
        element,
        is_constant,
        lengths,
        index,
        offset,
        over,
    } = of;
    let offset = moved(alloc, at, operator, offset, by)?;
    Ok(Part {
        array,
        element,
        is_constant,
        lengths,
        index,
        offset: Some(offset),
        over,
    })
}

/// The same, by a value.
pub fn shifted_by<'a>(
    alloc: Global,
    at: Site,
    operator: Operator,
    of: Part<'a>,
    by: Value,
) -> Result<Part<'a>, ValueError>
    ensures { Gives part_seen result (rules.shifted_by (site at) (operator_seen operator) (part_seen of.entry) (value_seen by)) }
{
    let by = only(at, by)?;
    shifted(alloc, at, operator, of, by)
}

/// The index of the first element.
pub fn first_element(alloc: Global) -> Result<Value, AllocError>
    ensures { IfOk result (λ v. value_seen v ≡ rules.first_element) }
{
    let one = Single {
        scalar: Scalar::Int,
        term: literal(Kind::Int, 0),
    };
    whole(alloc, one)
}

// The type that a pointer points to, by the base of its name.
fn base_pointed(visible: &[Binding], base: &Base, at: Site) -> Result<ValueType, ValueError>
    ensures { Gives value_type result (rules.base_pointed (bindings visible.now) (base_seen base.now) (site at)) }
{
    match base {
        Base::Void => refused(Fault::LeftOut(Construct::Pointer), at),
        base => type_of_base(visible, base, at),
    }
}

/// The type that a pointer is converted to points to.
pub fn type_pointed(visible: &[Binding], of: &TypeName, at: Site) -> Result<ValueType, ValueError>
    ensures { Gives value_type result (rules.type_pointed (bindings visible.now) (type_name of.now) (site at)) }
{
    let named = base_pointed(visible, &of.base, at)?;
    match of.stars.as_slice() {
        [_] => Ok(named),
        _ => refused(Fault::LeftOut(Construct::Pointer), at),
    }
}

fn is_global(space: CoreSpace) -> bool
    ensures { result ≡ rules.is_global (core_space space) }
{
    matches!(space, CoreSpace::Global)
}

fn names_global(space: Option<Space>) -> bool
    ensures { result ≡ rules.names_global (space_of space) }
{
    matches!(space, Some(Space::Global | Space::Constant))
}

fn is_unindexed(lengths: &[u32], index: &Option<Term>) -> bool
    ensures { result ≡ rules.is_unindexed lengths.now (maybe_term index.now) }
{
    matches!((lengths, index), ([], None))
}

fn scalar_under(over: Option<Scalar>, of: ValueType) -> Scalar
    ensures { scalar_seen result ≡ rules.scalar_under (maybe_scalar over) (value_type of) }
{
    match over {
        None => of.scalar,
        Some(over) => over,
    }
}

// So many finer elements, which have to make whole ones.
fn made_whole(alloc: Global, at: Site, count: u32, offset: Term) -> Result<Term, AllocError>
    requires { 1 ≤ count }
    ensures { IfOk result (λ t. term t ≡ rules.made_whole (site at) count (term offset)) }
{
    let again = copy_of(alloc, &offset)?;
    let whole = binary(
        alloc,
        Operator::Divide,
        Kind::Int,
        at,
        offset,
        literal(Kind::Int, count),
    )?;
    let rest = in_place(alloc, at, count, again)?;
    let rest = convert(alloc, Kind::Int, at, rest)?;
    binary(alloc, Operator::Add, Kind::Int, at, whole, rest)
}

fn coarser(
    alloc: Global,
    at: Site,
    over: Scalar,
    of: ValueType,
    offset: Term,
) -> Result<Term, AllocError>
    ensures { IfOk result (λ t. term t ≡ rules.coarser (site at) (scalar_seen over) (value_type of) (term offset)) }
{
    let count = parts_of(over, of);
    if 2 <= count {
        made_whole(alloc, at, count, offset)
    } else {
        Ok(offset)
    }
}

// An offset, by elements of the scalar of the array itself.
fn offset_under(
    alloc: Global,
    at: Site,
    over: Option<Scalar>,
    of: ValueType,
    offset: Term,
) -> Result<Term, AllocError>
    ensures { IfOk result (λ t. term t ≡ rules.offset_under (site at) (maybe_scalar over) (value_type of) (term offset)) }
{
    if let Some(over) = over {
        return coarser(alloc, at, over, of, offset);
    }
    if !of.is_vector() {
        return Ok(offset);
    }
    binary(
        alloc,
        Operator::Multiply,
        Kind::Int,
        at,
        offset,
        literal(Kind::Int, words(of.width)),
    )
}

fn first_offset(offset: Option<Term>) -> Term
    ensures { term result ≡ rules.first_offset (maybe_term offset) }
{
    match offset {
        None => literal(Kind::Int, 0),
        Some(offset) => offset,
    }
}

fn over_for(own: Scalar, of: ValueType) -> Option<Scalar>
    ensures { maybe_scalar result ≡ rules.over_for (scalar_seen own) (value_type of) }
{
    let alone = ValueType {
        scalar: own,
        width: 1,
    };
    if is_same_type(of, alone) {
        None
    } else {
        Some(own)
    }
}

fn may_be_seen(own: Scalar, to: ValueType) -> bool
    ensures { result ≡ rules.may_be_seen (scalar_seen own) (value_type to) }
{
    has_view(own, to) || is_finer(own, to)
}

fn may_see(qualifiers: Qualifiers, to: ValueType, of: &Part<'_>) -> bool
    ensures { result ≡ rules.may_see (qualifiers_seen qualifiers) (value_type to) (part_seen of.now) }
{
    names_global(qualifiers.space)
        && is_global(of.array.space)
        && is_unindexed(of.lengths, &of.index)
        && may_be_seen(scalar_under(of.over, of.element), to)
}

/// A pointer into a buffer, as one to another type (C99 6.3.2.3p7).
pub fn converted_part<'a>(
    alloc: Global,
    at: Site,
    qualifiers: Qualifiers,
    to: ValueType,
    of: Part<'a>,
) -> Result<Part<'a>, ValueError>
    ensures { Gives part_seen result (rules.converted_part (site at) (qualifiers_seen qualifiers) (value_type to) (part_seen of.entry)) }
{
    if !may_see(qualifiers, to, &of) {
        return refused(Fault::LeftOut(Construct::Pointer), at);
    }
    let Part {
        array,
        element,
        is_constant,
        lengths,
        index,
        offset,
        over,
    } = of;
    let own = scalar_under(over, element);
    let offset = offset_under(alloc, at, over, element, first_offset(offset))?;
    let offset = times_pieces(alloc, at, parts_of(own, to), offset)?;
    Ok(Part {
        array,
        element: to,
        is_constant: is_constant || qualifiers.constant,
        lengths,
        index,
        offset: Some(offset),
        over: over_for(own, to),
    })
}

fn is_zero(of: &Expr) -> bool
    ensures { result ≡ rules.is_zero (expression of.now) }
{
    match of {
        Expr::Integer { value, .. } => *value == 0,
        _ => false,
    }
}

// Whether an expression is a null pointer.
fn is_null(names: Names, of: &Expr) -> bool
    ensures { result ≡ rules.is_null (names_seen names.entry) (expression of.now) }
{
    match of {
        Expr::Integer { value, .. } => *value == 0,
        Expr::Name { name, .. } => {
            name.as_str() == "NULL" && meaning_of(names.visible, name.as_str()).is_none()
        }
        Expr::Cast { to, of, .. } => !to.stars.is_empty() && is_zero(of),
        _ => false,
    }
}

fn is_pointer_name(names: Names, of: &Expr) -> bool
    ensures { result ≡ rules.is_pointer_name (names_seen names.entry) (expression of.now) }
{
    match of {
        Expr::Name { name, .. } => is_array(meaning_of(names.visible, name.as_str())),
        _ => false,
    }
}

fn when_null(sign: InfixSign) -> Option<u32>
    ensures { result ≡ rules.when_null (infix_sign sign) }
{
    match sign {
        InfixSign::Comparison(Relation::Equal) => Some(0),
        InfixSign::Comparison(Relation::Unequal) => Some(1),
        _ => None,
    }
}

/// What a comparison gives, where it is one of a pointer with a null pointer.
pub fn null_compared(names: Names, sign: InfixSign, left: &Expr, right: &Expr) -> Option<u32>
    ensures { result ≡ rules.null_compared (names_seen names.entry) (infix_sign sign) (expression left.now) (expression right.now) }
{
    if is_pointer_name(names, left) && is_null(names, right)
        || is_null(names, left) && is_pointer_name(names, right)
    {
        when_null(sign)
    } else {
        None
    }
}

/// A number that a comparison gives.
pub fn null_value(alloc: Global, number: u32) -> Result<Value, AllocError>
    ensures { IfOk result (λ v. value_seen v ≡ rules.null_value number) }
{
    let one = Single {
        scalar: Scalar::Int,
        term: literal(Kind::Int, number),
    };
    whole(alloc, one)
}
