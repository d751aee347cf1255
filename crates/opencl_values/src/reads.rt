//! Elements by indexes that are values: one, and several as a vector.

ghost use Rattle.std.specs.Prelude.{◌≡◌, [], IfOk};
ghost use Rattle.core_code.specs.View.{site};
ghost use Rattle.opencl_values.specs.ElementsView.{element as element_seen, maybe_term, part as part_seen};
ghost use Rattle.opencl_values.specs.Reads as rules;
ghost use Rattle.opencl_values.specs.View.{Gives, single as single_seen, value as value_seen, values as values_seen};
ghost use Rattle.words.specs.View.{kind as kind_seen};

use crate::elements::{Element, Part, as_offset, element_in, indexed, loaded_from};
use crate::error::{Fault, ValueError, refused};
use crate::pointers::shifted;
use crate::singles::Single;
use crate::vectors::literal_of;
use crate::wholes::{Value, only, places, whole};
use core_code::tree::{Operator, Site, Term};
use core_pieces::copies::copy_of;
use core_pieces::pieces::{binary, literal};
use opencl_terms::scalars::{Scalar, ValueType};
use std::alloc::{AllocError, Global};
use words::Kind;

/// An array with one index more.
pub fn indexed_by<'a>(
    alloc: Global,
    at: Site,
    of: Part<'a>,
    index: Value,
) -> Result<Part<'a>, ValueError>
    ensures { Gives part_seen result (rules.indexed_by (site at) (part_seen of.entry) (value_seen index)) }
{
    let index = only(at, index)?;
    indexed(alloc, at, of, index)
}

/// An array with its last index, as an element.
pub fn element_at(
    alloc: Global,
    at: Site,
    of: Part<'_>,
    index: Value,
) -> Result<Element, ValueError>
    ensures { Gives element_seen result (rules.element_at (site at) (part_seen of.entry) (value_seen index)) }
{
    let part = indexed_by(alloc, at, of, index)?;
    element_in(alloc, at, part)
}

/// An element's value.
pub fn element_value(
    alloc: Global,
    at: Site,
    of: Part<'_>,
    index: Value,
) -> Result<Value, ValueError>
    ensures { Gives value_seen result (rules.element_value (site at) (part_seen of.entry) (value_seen index)) }
{
    let element = element_at(alloc, at, of, index)?;
    Ok(loaded_from(alloc, at, element)?)
}

// So many times a number of elements, an `int`.
fn times(alloc: Global, at: Site, width: u32, of: Single) -> Result<Single, AllocError>
    ensures { IfOk result (λ s. single_seen s ≡ rules.times (site at) width (single_seen of)) }
{
    let offset = as_offset(alloc, at, of)?;
    let width = literal(Kind::Int, width);
    Ok(Single {
        scalar: Scalar::Int,
        term: binary(alloc, Operator::Multiply, Kind::Int, at, offset, width)?,
    })
}

fn vectors_on<'a>(
    alloc: Global,
    at: Site,
    width: u32,
    of: Part<'a>,
    by: Single,
) -> Result<Part<'a>, ValueError>
    ensures { Gives part_seen result (rules.vectors_on (site at) width (part_seen of.entry) (single_seen by)) }
{
    if of.element.is_vector() {
        return refused(Fault::WrongType, at);
    }
    let by = times(alloc, at, width, by)?;
    shifted(alloc, at, Operator::Add, of, by)
}

/// A pointer to scalars, so many vectors on (OpenCL 1.2, 6.12.7).
pub fn vectors_on_by<'a>(
    alloc: Global,
    at: Site,
    width: u32,
    of: Part<'a>,
    by: Value,
) -> Result<Part<'a>, ValueError>
    ensures { Gives part_seen result (rules.vectors_on_by (site at) width (part_seen of.entry) (value_seen by)) }
{
    let by = only(at, by)?;
    vectors_on(alloc, at, width, of, by)
}

/// The index of the element so many behind a pointer.
pub fn place(alloc: Global, place: u32) -> Result<Value, AllocError>
    ensures { IfOk result (λ v. value_seen v ≡ rules.place place) }
{
    let one = Single {
        scalar: Scalar::Int,
        term: literal(Kind::Int, place),
    };
    whole(alloc, one)
}

fn copy_of_term(alloc: Global, of: &Option<Term>) -> Result<Option<Term>, AllocError>
    ensures { IfOk result (λ t. maybe_term t ≡ maybe_term of.now) }
{
    match of {
        None => Ok(None),
        Some(term) => Ok(Some(copy_of(alloc, term)?)),
    }
}

/// The same array once more.
pub fn copy_of_part<'a>(alloc: Global, of: &Part<'a>) -> Result<Part<'a>, AllocError>
    ensures { IfOk result (λ p. part_seen p ≡ part_seen of.now) }
{
    Ok(Part {
        array: of.array,
        element: of.element,
        is_constant: of.is_constant,
        lengths: of.lengths,
        index: copy_of_term(alloc, &of.index)?,
        offset: copy_of_term(alloc, &of.offset)?,
        over: of.over,
    })
}

fn element_behind(alloc: Global, at: Site, of: &Part<'_>, count: u32) -> Result<Value, ValueError>
    ensures { Gives value_seen result (rules.element_value (site at) (part_seen of.now) (rules.place count)) }
{
    let part = copy_of_part(alloc, of)?;
    let index = place(alloc, count)?;
    element_value(alloc, at, part, index)
}

fn elements_behind(
    alloc: Global,
    at: Site,
    of: &Part<'_>,
    places: &[u32],
) -> Result<Vec<Value>, ValueError>
    ensures { Gives (λ vs. values_seen vs.items) result (rules.elements_behind (site at) (part_seen of.now) [] places.now) }
{
    let mut values = Vec::new(alloc);
    for place in places {
        values.push(element_behind(alloc, at, of, *place)?)?;
    }
    Ok(values)
}

fn vector_in(
    alloc: Global,
    ids: Kind,
    at: Site,
    width: u32,
    of: Part<'_>,
) -> Result<Value, ValueError>
    ensures { Gives value_seen result (rules.vector_in (kind_seen ids) (site at) width (part_seen of.entry)) }
{
    let to = ValueType {
        scalar: of.element.scalar,
        width,
    };
    let parts = elements_behind(alloc, at, &of, places(width))?;
    literal_of(alloc, ids, at, to, parts.as_slice())
}

/// So many elements as a vector, from a multiple of so many on (OpenCL 1.2, 6.12.7).
pub fn vector_at(
    alloc: Global,
    ids: Kind,
    at: Site,
    width: u32,
    by: Value,
    of: Part<'_>,
) -> Result<Value, ValueError>
    ensures { Gives value_seen result (rules.vector_at (kind_seen ids) (site at) width (value_seen by) (part_seen of.entry)) }
{
    let from = vectors_on_by(alloc, at, width, of, by)?;
    vector_in(alloc, ids, at, width, from)
}
