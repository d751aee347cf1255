//! What is made of values component by component.

ghost use Rattle.std.specs.Prelude.{◌≡◌, ◌+◌, [], map, IfOk, Ok};
ghost use Rattle.core_code.specs.View.{array as array_seen, direction as direction_seen, site, term};
ghost use Rattle.opencl_terms.specs.Answers as seen;
ghost use Rattle.opencl_terms.specs.Answers.{value_type};
ghost use Rattle.opencl_terms.specs.View.{scalar as scalar_seen};
ghost use Rattle.opencl_tree.specs.View.{prefix_sign};
ghost use Rattle.opencl_values.specs.Vectors as rules;
ghost use Rattle.opencl_values.specs.VectorsView.{made as made_seen};
ghost use Rattle.opencl_values.specs.View.{single, value as value_seen, values as values_seen, Gives};
ghost use Rattle.semantics.specs.Core as core;
ghost use Rattle.syntax.specs.View.{infix_sign};
ghost use Rattle.words.specs.View.{kind as kind_seen};

use crate::error::{Construct, Fault, ValueError, refused};
use crate::operations as scalars;
use crate::singles::{Single, as_scalar, as_test};
use crate::wholes::{
    Value, behind, behind_dropped, component, is_same_type, nothing, only, places, single_in, whole,
};
use core_code::tree::{Array, Direction, Operator, Site, Term};
use core_pieces::copies::copy_of;
use core_pieces::pieces::{binary, literal, load, opaque, select};
use opencl_terms::components::has_highest_bit;
use opencl_terms::narrowing::loaded;
use opencl_terms::operators::{
    OfOne, OfTwo, may_take, of_one_component, of_two_components, result_type, test_type,
};
use opencl_terms::scalars::{Scalar, ValueType, is_unsettled};
use opencl_tree::tree::PrefixSign;
use std::alloc::{AllocError, Global};
use syntax::tree::InfixSign;
use words::Kind;

/// What is made at each place.
#[derive(Clone, Copy)]
pub enum Made<'a> {
    /// A component that is picked; in front of the first one those that are not.
    Picked(&'a Value, u32, &'a [u32]),
    Converted(Scalar, &'a Value),
    One(OfOne, ValueType, &'a Value),
    Two(OfTwo, ValueType, &'a Value, &'a Value),
    Shifts(Direction, ValueType, &'a Value, &'a Value),
    /// By `&&` or `||`, of so many components.
    Logical(OfTwo, u32, &'a Value, &'a Value),
    /// A choice by the highest bit of each component.
    ByBits(Scalar, &'a Value, &'a Value, &'a Value),
    /// A choice by a scalar.
    ByTest(Scalar, &'a Value, &'a Value, &'a Value),
    /// Loads of an element, by the index of its first component.
    Loaded(Array, Scalar, &'a Term),
    /// Variables from a slot on.
    Kept(u32),
    /// What is assigned to the components that are picked, and what the others had.
    Mixed(&'a [u32], &'a Value, &'a Value),
    /// An element of memory, with what stands behind a vector of three.
    Filled(&'a Value),
}

fn picked_at(
    alloc: Global,
    at: Site,
    of: &Value,
    first: u32,
    picked: &[u32],
    place: u32,
) -> Result<Term, AllocError>
    ensures { IfOk result (λ t. term t ≡ rules.picked_at (site at) (value_seen of.now) first picked.now place) }
{
    let one = component(alloc, of, place)?;
    if place != first {
        return Ok(one.term);
    }
    behind_dropped(alloc, at, of, picked, places(of.of.width), one.term)
}

fn converted_at(
    alloc: Global,
    ids: Kind,
    at: Site,
    to: Scalar,
    of: &Value,
    place: u32,
) -> Result<Term, AllocError>
    ensures { IfOk result (λ t. term t ≡ rules.converted_at (kind_seen ids) (site at) (scalar_seen to) (value_seen of.now) place) }
{
    let one = component(alloc, of, place)?;
    as_scalar(alloc, ids, to, at, one)
}

fn one_at(
    alloc: Global,
    ids: Kind,
    at: Site,
    by: (OfOne, ValueType),
    of: &Value,
    place: u32,
) -> Result<Term, AllocError>
    ensures { IfOk result (λ t. term t ≡ rules.one_at (kind_seen ids) (site at) (seen.of_one by.0) (value_type by.1) (value_seen of.now) place) }
{
    let (operator, to) = by;
    let one = converted_at(alloc, ids, at, to.scalar, of, place)?;
    of_one_component(alloc, ids, to, operator, at, one)
}

fn two_at(
    alloc: Global,
    ids: Kind,
    at: Site,
    by: (OfTwo, ValueType),
    both: (&Value, &Value),
    place: u32,
) -> Result<Term, AllocError>
    ensures { IfOk result (λ t. term t ≡ rules.two_at (kind_seen ids) (site at) (seen.of_two by.0) (value_type by.1) (value_seen both.entry.0.now) (value_seen both.entry.1.now) place) }
{
    let (operator, to) = by;
    let left = converted_at(alloc, ids, at, to.scalar, both.0, place)?;
    let right = converted_at(alloc, ids, at, to.scalar, both.1, place)?;
    of_two_components(alloc, ids, to, operator, at, left, right)
}

fn shift_at(
    alloc: Global,
    ids: Kind,
    at: Site,
    by: (Direction, ValueType),
    both: (&Value, &Value),
    place: u32,
) -> Result<Term, AllocError>
    ensures { IfOk result (λ t. term t ≡ rules.shift_at (kind_seen ids) (site at) (direction_seen by.0) (value_type by.1) (value_seen both.entry.0.now) (value_seen both.entry.1.now) place) }
{
    let (direction, to) = by;
    let left = converted_at(alloc, ids, at, to.scalar, both.0, place)?;
    let count = component(alloc, both.1, place)?;
    let operator = OfTwo::Shifting(direction, count.scalar);
    of_two_components(alloc, ids, to, operator, at, left, count.term)
}

fn tested_at(
    alloc: Global,
    ids: Kind,
    at: Site,
    width: u32,
    of: &Value,
    place: u32,
) -> Result<Term, AllocError>
    ensures { IfOk result (λ t. term t ≡ rules.tested_at (kind_seen ids) (site at) width (value_seen of.now) place) }
{
    let one = component(alloc, of, place)?;
    let to = ValueType {
        scalar: one.scalar,
        width,
    };
    of_one_component(alloc, ids, to, OfOne::Testing, at, one.term)
}

fn logical_at(
    alloc: Global,
    ids: Kind,
    at: Site,
    by: (OfTwo, u32),
    both: (&Value, &Value),
    place: u32,
) -> Result<Term, AllocError>
    ensures { IfOk result (λ t. term t ≡ rules.logical_at (kind_seen ids) (site at) (seen.of_two by.0) by.1 (value_seen both.entry.0.now) (value_seen both.entry.1.now) place) }
{
    let (operator, width) = by;
    let left = tested_at(alloc, ids, at, width, both.0, place)?;
    let right = tested_at(alloc, ids, at, width, both.1, place)?;
    let to = ValueType {
        scalar: both.0.of.scalar,
        width,
    };
    of_two_components(alloc, ids, to, operator, at, left, right)
}

// A choice by the highest bit, behind both arms.
fn by_bits(
    alloc: Global,
    ids: Kind,
    at: Site,
    test: Single,
    taken: Term,
    skipped: Term,
) -> Result<Term, AllocError>
    ensures { IfOk result (λ t. term t ≡ rules.by_bits (kind_seen ids) (site at) (single test) (term taken) (term skipped)) }
{
    let first = copy_of(alloc, &taken)?;
    let second = copy_of(alloc, &skipped)?;
    let test = has_highest_bit(alloc, ids, test.scalar, test.term)?;
    let choice = select(alloc, test, taken, skipped)?;
    let choice = behind(alloc, at, second, choice)?;
    behind(alloc, at, first, choice)
}

// Both arms of a choice, at a place.
fn arms_at(
    alloc: Global,
    ids: Kind,
    at: Site,
    to: Scalar,
    both: (&Value, &Value),
    place: u32,
) -> Result<(Term, Term), AllocError>
    ensures taken { IfOk result (λ x. term x.0 ≡ rules.converted_at (kind_seen ids) (site at) (scalar_seen to) (value_seen both.entry.0.now) place) }
    ensures skipped { IfOk result (λ x. term x.1 ≡ rules.converted_at (kind_seen ids) (site at) (scalar_seen to) (value_seen both.entry.1.now) place) }
{
    let taken = converted_at(alloc, ids, at, to, both.0, place)?;
    let skipped = converted_at(alloc, ids, at, to, both.1, place)?;
    Ok((taken, skipped))
}

fn by_bits_at(
    alloc: Global,
    ids: Kind,
    at: Site,
    to: Scalar,
    of: (&Value, &Value, &Value),
    place: u32,
) -> Result<Term, AllocError>
    ensures { IfOk result (λ t. term t ≡ rules.by_bits_at (kind_seen ids) (site at) (scalar_seen to) (value_seen of.entry.0.now) (value_seen of.entry.1.now) (value_seen of.entry.2.now) place) }
{
    let test = component(alloc, of.0, place)?;
    let (taken, skipped) = arms_at(alloc, ids, at, to, (of.1, of.2), place)?;
    by_bits(alloc, ids, at, test, taken, skipped)
}

fn by_test_at(
    alloc: Global,
    ids: Kind,
    at: Site,
    to: Scalar,
    of: (&Value, &Value, &Value),
    place: u32,
) -> Result<Term, AllocError>
    ensures { IfOk result (λ t. term t ≡ rules.by_test_at (kind_seen ids) (site at) (scalar_seen to) (value_seen of.entry.0.now) (value_seen of.entry.1.now) (value_seen of.entry.2.now) place) }
{
    let test = component(alloc, of.0, place)?;
    let test = as_test(alloc, ids, at, test)?;
    let (taken, skipped) = arms_at(alloc, ids, at, to, (of.1, of.2), place)?;
    select(alloc, test, taken, skipped)
}

/// The index of a component, by that of the first one.
pub fn index_at(alloc: Global, at: Site, index: Term, place: u32) -> Result<Term, AllocError>
    ensures { IfOk result (λ t. term t ≡ rules.index_at (site at) (term index) place) }
{
    binary(
        alloc,
        Operator::Add,
        Kind::Uint,
        at,
        index,
        literal(Kind::Uint, place),
    )
}

fn loaded_at(
    alloc: Global,
    at: Site,
    array: Array,
    scalar: Scalar,
    index: &Term,
    place: u32,
) -> Result<Term, AllocError>
    ensures { IfOk result (λ t. term t ≡ rules.loaded_at (site at) (array_seen array) (scalar_seen scalar) (term index.now) place) }
{
    let index = copy_of(alloc, index)?;
    let index = index_at(alloc, at, index, place)?;
    let word = load(alloc, array, at, index)?;
    loaded(alloc, scalar, at, word)
}

// The place of a place among those that are picked.
fn place_in(picked: &[u32], place: u32) -> Result<Option<u32>, AllocError>
    ensures { IfOk result (λ m. m ≡ rules.place_in picked.now 0 place) }
{
    let mut count = 0u32;
    for one in picked {
        if *one == place {
            return Ok(Some(count));
        }
        let Some(more) = count.checked_add(1) else {
            return Err(AllocError);
        };
        count = more;
    }
    Ok(None)
}

fn mixed_from(
    alloc: Global,
    new: &Value,
    old: &Value,
    place: u32,
    among: Option<u32>,
) -> Result<Term, AllocError>
    ensures { IfOk result (λ t. term t ≡ rules.mixed_from (value_seen new.now) (value_seen old.now) place among) }
{
    let one = match among {
        Some(among) => component(alloc, new, among)?,
        None => component(alloc, old, place)?,
    };
    Ok(one.term)
}

fn mixed_at(
    alloc: Global,
    picked: &[u32],
    new: &Value,
    old: &Value,
    place: u32,
) -> Result<Term, AllocError>
    ensures { IfOk result (λ t. term t ≡ rules.mixed_at picked.now (value_seen new.now) (value_seen old.now) place) }
{
    let among = place_in(picked, place)?;
    mixed_from(alloc, new, old, place, among)
}

fn unknown_word(alloc: Global, of: Scalar) -> Result<Term, AllocError>
    ensures { IfOk result (λ t. term t ≡ rules.unknown_word (scalar_seen of)) }
{
    opaque(
        alloc,
        (0, 0, of.stored_kind()),
        nothing(),
        nothing(),
        nothing(),
    )
}

fn filled_at(alloc: Global, of: &Value, place: u32) -> Result<Term, AllocError>
    ensures { IfOk result (λ t. term t ≡ rules.filled_at (value_seen of.now) place) }
{
    if of.of.width == 3 && place == 3 {
        return unknown_word(alloc, of.of.scalar);
    }
    let one = component(alloc, of, place)?;
    Ok(one.term)
}

fn kept_at(slot: u32, place: u32) -> Result<Term, AllocError>
    ensures { IfOk result (λ t. term t ≡ core.Variable (slot + place)) }
{
    match slot.checked_add(place) {
        Some(slot) => Ok(Term::Variable { slot }),
        None => Err(AllocError),
    }
}

// What is made at a place.
fn made_at(
    alloc: Global,
    ids: Kind,
    at: Site,
    made: Made<'_>,
    place: u32,
) -> Result<Term, AllocError>
    ensures { IfOk result (λ t. term t ≡ rules.made_at (kind_seen ids) (site at) (made_seen made.entry) place) }
{
    match made {
        Made::Picked(of, first, picked) => picked_at(alloc, at, of, first, picked, place),
        Made::Converted(to, of) => converted_at(alloc, ids, at, to, of, place),
        Made::One(operator, to, of) => one_at(alloc, ids, at, (operator, to), of, place),
        Made::Two(operator, to, left, right) => {
            two_at(alloc, ids, at, (operator, to), (left, right), place)
        }
        Made::Shifts(direction, to, left, right) => {
            shift_at(alloc, ids, at, (direction, to), (left, right), place)
        }
        Made::Logical(operator, width, left, right) => {
            logical_at(alloc, ids, at, (operator, width), (left, right), place)
        }
        Made::ByBits(to, test, taken, skipped) => {
            by_bits_at(alloc, ids, at, to, (test, taken, skipped), place)
        }
        Made::ByTest(to, test, taken, skipped) => {
            by_test_at(alloc, ids, at, to, (test, taken, skipped), place)
        }
        Made::Loaded(array, scalar, index) => loaded_at(alloc, at, array, scalar, index, place),
        Made::Kept(slot) => kept_at(slot, place),
        Made::Mixed(picked, new, old) => mixed_at(alloc, picked, new, old, place),
        Made::Filled(of) => filled_at(alloc, of, place),
    }
}

/// What is made at each of some places, behind terms that were made before.
pub fn made_behind(
    alloc: Global,
    ids: Kind,
    at: Site,
    made: Made<'_>,
    so_far: Vec<Term>,
    places: &[u32],
) -> Result<Vec<Term>, AllocError>
    ensures { IfOk result (λ ts. map term ts.items ≡ rules.made_behind (kind_seen ids) (site at) (made_seen made.entry) (map term so_far.items) places.now) }
{
    let mut terms = so_far;
    for place in places {
        terms.push(made_at(alloc, ids, at, made, *place)?)?;
    }
    Ok(terms)
}

/// A value of a type, of what is made at each place.
pub fn vector_made(
    alloc: Global,
    ids: Kind,
    at: Site,
    made: Made<'_>,
    of: ValueType,
) -> Result<Value, AllocError>
    ensures { IfOk result (λ v. value_seen v ≡ rules.vector_made (kind_seen ids) (site at) (made_seen made.entry) (value_type of)) }
{
    Ok(Value {
        of,
        terms: made_behind(alloc, ids, at, made, Vec::new(alloc), places(of.width))?,
    })
}

fn type_of_one(at: Site, left: &Value, right: &Value) -> Result<ValueType, ValueError>
    ensures { Gives value_type result (rules.type_of_one (site at) (value_seen left.now) (value_seen right.now)) }
{
    match (left.of.is_vector(), right.of.is_vector()) {
        (true, true) if is_same_type(left.of, right.of) => Ok(left.of),
        (true, false) => Ok(left.of),
        (false, true) => Ok(right.of),
        _ => refused(Fault::WrongType, at),
    }
}

fn is_boolean(of: Scalar) -> bool
    ensures { result ≡ rules.is_boolean (scalar_seen of) }
{
    matches!(of, Scalar::Boolean)
}

fn type_of_both(at: Site, left: &Value, right: &Value) -> Result<ValueType, ValueError>
    ensures { Gives value_type result (rules.type_of_both (site at) (value_seen left.now) (value_seen right.now)) }
{
    if is_boolean(left.of.scalar) || is_boolean(right.of.scalar) {
        return refused(Fault::LeftOut(Construct::Vector), at);
    }
    type_of_one(at, left, right)
}

fn vector_prefix(
    alloc: Global,
    ids: Kind,
    sign: PrefixSign,
    at: Site,
    of: Value,
) -> Result<Value, ValueError>
    ensures { Gives value_seen result (rules.vector_prefix (kind_seen ids) (prefix_sign sign) (site at) (value_seen of)) }
{
    let to = of.of;
    let (operator, gives) = match sign {
        PrefixSign::Plus => return Ok(of),
        PrefixSign::Minus => (OfOne::Negative, to),
        PrefixSign::LogicalNot => (OfOne::Refutation, test_type(to)),
        PrefixSign::BitNot => {
            if to.scalar.is_float() {
                return refused(Fault::WrongType, at);
            }
            (OfOne::Complement, to)
        }
        PrefixSign::Indirection | PrefixSign::AddressOf => {
            return refused(Fault::LeftOut(Construct::Pointer), at);
        }
    };
    Ok(vector_made(alloc, ids, at, Made::One(operator, to, &of), gives)?)
}

fn scalar_prefix(
    alloc: Global,
    ids: Kind,
    sign: PrefixSign,
    at: Site,
    of: Value,
) -> Result<Value, ValueError>
    ensures { Gives value_seen result (rules.scalar_prefix (kind_seen ids) (prefix_sign sign) (site at) (value_seen of)) }
{
    let made = scalars::prefix_of(alloc, ids, sign, at, single_in(of))?;
    Ok(whole(alloc, made)?)
}

/// An operator of one operand (C99 6.5.3.3).
pub fn prefix_of(
    alloc: Global,
    ids: Kind,
    sign: PrefixSign,
    at: Site,
    of: Value,
) -> Result<Value, ValueError>
    ensures { Gives value_seen result (rules.prefix_of (kind_seen ids) (prefix_sign sign) (site at) (value_seen of)) }
{
    if of.of.is_vector() {
        vector_prefix(alloc, ids, sign, at, of)
    } else {
        scalar_prefix(alloc, ids, sign, at, of)
    }
}

fn of_operands(
    alloc: Global,
    ids: Kind,
    operator: OfTwo,
    at: Site,
    left: &Value,
    right: &Value,
) -> Result<Value, ValueError>
    ensures { Gives value_seen result (rules.of_operands (kind_seen ids) (seen.of_two operator) (site at) (value_seen left.now) (value_seen right.now)) }
{
    let to = type_of_both(at, left, right)?;
    if !may_take(operator, to.scalar) {
        return refused(Fault::WrongType, at);
    }
    let made = Made::Two(operator, to, left, right);
    Ok(vector_made(alloc, ids, at, made, result_type(operator, to))?)
}

fn logical(
    alloc: Global,
    ids: Kind,
    operator: OfTwo,
    at: Site,
    left: &Value,
    right: &Value,
) -> Result<Value, ValueError>
    ensures { Gives value_seen result (rules.logical (kind_seen ids) (seen.of_two operator) (site at) (value_seen left.now) (value_seen right.now)) }
{
    let to = type_of_both(at, left, right)?;
    let made = Made::Logical(operator, to.width, left, right);
    Ok(vector_made(alloc, ids, at, made, test_type(to))?)
}

fn may_shift(left: &Value, right: &Value) -> bool
    ensures { result ≡ rules.may_shift (value_seen left.now) (value_seen right.now) }
{
    left.of.is_vector()
        && (!right.of.is_vector() || left.of.width == right.of.width)
        && !(left.of.scalar.is_float() || right.of.scalar.is_float())
}

fn shifted(
    alloc: Global,
    ids: Kind,
    direction: Direction,
    at: Site,
    left: &Value,
    right: &Value,
) -> Result<Value, ValueError>
    ensures { Gives value_seen result (rules.shifted (kind_seen ids) (direction_seen direction) (site at) (value_seen left.now) (value_seen right.now)) }
{
    if !may_shift(left, right) {
        return refused(Fault::WrongType, at);
    }
    let made = Made::Shifts(direction, left.of, left, right);
    Ok(vector_made(alloc, ids, at, made, left.of)?)
}

fn vector_infix(
    alloc: Global,
    ids: Kind,
    sign: InfixSign,
    at: Site,
    left: &Value,
    right: &Value,
) -> Result<Value, ValueError>
    ensures { Gives value_seen result (rules.vector_infix (kind_seen ids) (infix_sign sign) (site at) (value_seen left.now) (value_seen right.now)) }
{
    match sign {
        InfixSign::Arithmetic(operator) => {
            of_operands(alloc, ids, OfTwo::Arithmetic(operator), at, left, right)
        }
        InfixSign::LeftShift => shifted(alloc, ids, Direction::Leftward, at, left, right),
        InfixSign::RightShift => shifted(alloc, ids, Direction::Rightward, at, left, right),
        InfixSign::Comparison(relation) => {
            of_operands(alloc, ids, OfTwo::Comparison(relation), at, left, right)
        }
        InfixSign::LogicalAnd => logical(alloc, ids, OfTwo::Both, at, left, right),
        InfixSign::LogicalOr => logical(alloc, ids, OfTwo::Either, at, left, right),
    }
}

fn scalar_infix(
    alloc: Global,
    ids: Kind,
    sign: InfixSign,
    at: Site,
    left: Value,
    right: Value,
) -> Result<Value, ValueError>
    ensures { Gives value_seen result (rules.scalar_infix (kind_seen ids) (infix_sign sign) (site at) (value_seen left) (value_seen right)) }
{
    let left = single_in(left);
    let right = single_in(right);
    let made = scalars::infix_of(alloc, ids, sign, at, left, right)?;
    Ok(whole(alloc, made)?)
}

/// An operator of two operands (C99 6.5.5 to 6.5.14; OpenCL 1.2, 6.3).
pub fn infix_of(
    alloc: Global,
    ids: Kind,
    sign: InfixSign,
    at: Site,
    left: Value,
    right: Value,
) -> Result<Value, ValueError>
    ensures { Gives value_seen result (rules.infix_of (kind_seen ids) (infix_sign sign) (site at) (value_seen left) (value_seen right)) }
{
    if left.of.is_vector() || right.of.is_vector() {
        vector_infix(alloc, ids, sign, at, &left, &right)
    } else {
        scalar_infix(alloc, ids, sign, at, left, right)
    }
}

fn vector_chosen(
    alloc: Global,
    ids: Kind,
    at: Site,
    of: (&Value, &Value, &Value),
    to: ValueType,
) -> Result<Value, ValueError>
    ensures { Gives value_seen result (rules.vector_chosen (kind_seen ids) (site at) (value_seen of.entry.0.now) (value_seen of.entry.1.now) (value_seen of.entry.2.now) (value_type to)) }
{
    let (test, taken, skipped) = of;
    if !test.of.is_vector() {
        let made = Made::ByTest(to.scalar, test, taken, skipped);
        return Ok(vector_made(alloc, ids, at, made, to)?);
    }
    if test.of.width != to.width || test.of.scalar.is_float() {
        return refused(Fault::WrongType, at);
    }
    let made = Made::ByBits(to.scalar, test, taken, skipped);
    Ok(vector_made(alloc, ids, at, made, to)?)
}

fn vector_conditional(
    alloc: Global,
    ids: Kind,
    at: Site,
    test: &Value,
    taken: &Value,
    skipped: &Value,
) -> Result<Value, ValueError>
    ensures { Gives value_seen result (rules.vector_conditional (kind_seen ids) (site at) (value_seen test.now) (value_seen taken.now) (value_seen skipped.now)) }
{
    let to = type_of_both(at, taken, skipped)?;
    vector_chosen(alloc, ids, at, (test, taken, skipped), to)
}

fn scalar_conditional(
    alloc: Global,
    ids: Kind,
    at: Site,
    test: Value,
    taken: Value,
    skipped: Value,
) -> Result<Value, ValueError>
    ensures { Gives value_seen result (rules.scalar_conditional (kind_seen ids) (site at) (value_seen test) (value_seen taken) (value_seen skipped)) }
{
    if is_unsettled(taken.of.scalar, skipped.of.scalar) {
        return refused(Fault::LeftOut(Construct::Long), at);
    }
    let test = single_in(test);
    let taken = single_in(taken);
    let skipped = single_in(skipped);
    let made = scalars::conditional_of(alloc, ids, at, test, taken, skipped)?;
    Ok(whole(alloc, made)?)
}

/// A choice between two values (C99 6.5.15; OpenCL 1.2, 6.3 i).
pub fn conditional_of(
    alloc: Global,
    ids: Kind,
    at: Site,
    test: Value,
    taken: Value,
    skipped: Value,
) -> Result<Value, ValueError>
    ensures { Gives value_seen result (rules.conditional_of (kind_seen ids) (site at) (value_seen test) (value_seen taken) (value_seen skipped)) }
{
    if test.of.is_vector() || taken.of.is_vector() || skipped.of.is_vector() {
        vector_conditional(alloc, ids, at, &test, &taken, &skipped)
    } else {
        scalar_conditional(alloc, ids, at, test, taken, skipped)
    }
}

fn scalar_as(alloc: Global, ids: Kind, at: Site, to: Scalar, of: Value) -> Result<Value, ValueError>
    ensures { Gives value_seen result (rules.scalar_as (kind_seen ids) (site at) (scalar_seen to) (value_seen of)) }
{
    let one = only(at, of)?;
    let made = Single {
        scalar: to,
        term: as_scalar(alloc, ids, to, at, one)?,
    };
    Ok(whole(alloc, made)?)
}

fn vector_as(
    alloc: Global,
    ids: Kind,
    at: Site,
    to: ValueType,
    of: &Value,
) -> Result<Value, ValueError>
    ensures { Gives value_seen result (rules.vector_as (kind_seen ids) (site at) (value_type to) (value_seen of.now)) }
{
    if is_boolean(of.of.scalar) {
        return refused(Fault::LeftOut(Construct::Vector), at);
    }
    if of.of.is_vector() && !is_same_type(of.of, to) {
        return refused(Fault::WrongType, at);
    }
    Ok(vector_made(alloc, ids, at, Made::Converted(to.scalar, of), to)?)
}

/// A value as a type that it is converted to by a cast or an assignment (OpenCL 1.2, 6.2.2).
pub fn converted_to(
    alloc: Global,
    ids: Kind,
    at: Site,
    to: ValueType,
    of: Value,
) -> Result<Value, ValueError>
    ensures { Gives value_seen result (rules.converted_to (kind_seen ids) (site at) (value_type to) (value_seen of)) }
{
    if to.is_vector() {
        vector_as(alloc, ids, at, to, &of)
    } else {
        scalar_as(alloc, ids, at, to.scalar, of)
    }
}

/// The components of all parts, as a scalar.
pub fn gathered(
    alloc: Global,
    ids: Kind,
    at: Site,
    to: Scalar,
    parts: &[Value],
) -> Result<Vec<Term>, AllocError>
    ensures { IfOk result (λ ts. map term ts.items ≡ rules.gathered (kind_seen ids) (site at) (scalar_seen to) [] (values_seen parts.now)) }
{
    let mut terms = Vec::new(alloc);
    for part in parts {
        let made = Made::Converted(to, part);
        terms = made_behind(alloc, ids, at, made, terms, places(part.of.width))?;
    }
    Ok(terms)
}

#[tactic(auto, using(crate::proofs::Components::lengths))]
fn filled_with(at: Site, to: ValueType, terms: Vec<Term>) -> Result<Value, ValueError>
    ensures { Gives value_seen result (rules.filled_with (site at) (value_type to) (map term terms.items)) }
{
    if terms.len() != to.width as usize {
        return refused(Fault::WrongType, at);
    }
    Ok(Value { of: to, terms })
}

fn filled_by(
    alloc: Global,
    ids: Kind,
    at: Site,
    to: ValueType,
    parts: &[Value],
) -> Result<Value, ValueError>
    ensures { Gives value_seen result (rules.filled_by (kind_seen ids) (site at) (value_type to) (values_seen parts.now)) }
{
    let terms = gathered(alloc, ids, at, to.scalar, parts)?;
    filled_with(at, to, terms)
}

fn parts_in(
    alloc: Global,
    ids: Kind,
    at: Site,
    to: ValueType,
    parts: &[Value],
) -> Result<Value, ValueError>
    ensures { Gives value_seen result (rules.parts_in (kind_seen ids) (site at) (value_type to) (values_seen parts.now)) }
{
    match parts {
        [only] => vector_as(alloc, ids, at, to, only),
        _ => filled_by(alloc, ids, at, to, parts),
    }
}

/// A vector of parts, which fill it in order (OpenCL 1.2, 6.1.6).
pub fn literal_of(
    alloc: Global,
    ids: Kind,
    at: Site,
    to: ValueType,
    parts: &[Value],
) -> Result<Value, ValueError>
    ensures { Gives value_seen result (rules.literal_of (kind_seen ids) (site at) (value_type to) (values_seen parts.now)) }
{
    if !to.is_vector() {
        return refused(Fault::WrongType, at);
    }
    parts_in(alloc, ids, at, to, parts)
}
