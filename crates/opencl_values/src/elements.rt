//! Elements of arrays by their indexes.

ghost use Rattle.std.specs.Prelude.{◌≡◌, ◌≤◌, IfOk, Ok, Some, None};
ghost use Rattle.core_code.specs.View.{array as array_seen, site, term};
ghost use Rattle.opencl_terms.specs.Answers.{value_type};
ghost use Rattle.opencl_terms.specs.View.{scalar as scalar_seen};
ghost use Rattle.opencl_values.specs.Elements as rules;
ghost use Rattle.opencl_values.specs.ElementsView.{element as element_seen, maybe_term, part as part_seen, rest};
ghost use Rattle.opencl_values.specs.Faults as faults;
ghost use Rattle.opencl_values.specs.View.{maybe_row, maybe_scalar, meaning_in, single, value as value_seen, Gives};

use crate::error::{Construct, Fault, ValueError, refused};
use crate::scope::Meaning;
use crate::singles::Single;
use crate::vectors::{Made, vector_made};
use crate::views::{is_finer, pieces, view_loaded};
use crate::wholes::{Value, vectors_below, whole, words};
use core_code::tree::{Array, Operator, Site, Term};
use core_pieces::copies::copy_of;
use core_pieces::pieces::{binary, convert, literal, load, within};
use opencl_terms::narrowing::{loaded, masked};
use opencl_terms::scalars::{Scalar, ValueType};
use std::alloc::{AllocError, Global};
use words::Kind;

/// An array, of which some dimensions have an index: the lengths of the others, where they begin in it, and, of a pointer, its offset, to
/// which the next index is added. Where a buffer's elements are seen as ones of another type, `over` is the buffer's scalar, of which the
/// offset counts elements; of finer ones it counts these.
#[derive(Drop)]
pub struct Part<'a> {
    pub array: Array,
    pub element: ValueType,
    pub is_constant: bool,
    pub lengths: &'a [u32],
    pub index: Option<Term>,
    pub offset: Option<Term>,
    pub over: Option<Scalar>,
}

/// An element, by its index in the whole array; a vector by that of its first component, and what is seen as another type by that of the
/// first element under it.
#[derive(Drop)]
pub struct Element {
    pub array: Array,
    pub element: ValueType,
    pub is_constant: bool,
    pub index: Term,
    pub over: Option<Scalar>,
}

fn row_of(alloc: Global, row: &Option<(u32, Term)>) -> Result<Option<Term>, AllocError>
    ensures { IfOk result (λ t. maybe_term t ≡ rules.row_of (maybe_row row.now)) }
{
    match row {
        None => Ok(None),
        Some((_, row)) => Ok(Some(copy_of(alloc, row)?)),
    }
}

fn lengths_of(row: &Option<(u32, Term)>) -> &[u32]
    ensures { result.now ≡ rules.lengths_of (maybe_row row.now) }
{
    match row {
        None => &[],
        Some((length, _)) => std::slice::from_ref(length),
    }
}

fn own<'a>(
    alloc: Global,
    array: Array,
    element: ValueType,
    lengths: &'a [u32],
    is_constant: bool,
    row: &Term,
) -> Result<Part<'a>, AllocError>
    ensures { IfOk result (λ p. part_seen p ≡ rules.part (array_seen array) (value_type element) is_constant lengths.now (Some (term row.now)) None None) }
{
    Ok(Part {
        array,
        element,
        is_constant,
        lengths,
        index: Some(copy_of(alloc, row)?),
        offset: None,
        over: None,
    })
}

/// The array that a name means.
pub fn part_meant<'a>(
    alloc: Global,
    at: Site,
    meaning: Option<&'a Meaning>,
) -> Result<Part<'a>, ValueError>
    ensures { Gives part_seen result (faults.then (faults.found (meaning_in meaning.entry) faults.UnknownName (site at)) (rules.part_meant (site at))) }
{
    match meaning {
        None => refused(Fault::UnknownName, at),
        Some(
            Meaning::Array {
                array,
                element,
                lengths,
                is_constant,
            },
        ) => Ok(Part {
            array: *array,
            element: *element,
            is_constant: *is_constant,
            lengths: lengths.as_slice(),
            index: None,
            offset: None,
            over: None,
        }),
        Some(
            Meaning::Own {
                array,
                element,
                lengths,
                is_constant,
                row,
            },
        ) => Ok(own(
            alloc,
            *array,
            *element,
            lengths.as_slice(),
            *is_constant,
            row,
        )?),
        Some(
            Meaning::Pointer {
                array,
                element,
                is_constant,
                row,
                over,
                slot,
            },
        ) => Ok(Part {
            array: *array,
            element: *element,
            is_constant: *is_constant,
            lengths: lengths_of(row),
            index: row_of(alloc, row)?,
            offset: Some(Term::Variable { slot: *slot }),
            over: *over,
        }),
        Some(Meaning::Unread) => refused(Fault::LeftOut(Construct::Outside), at),
        Some(_) => refused(Fault::WrongType, at),
    }
}

fn in_dimension(alloc: Global, at: Site, length: u32, index: Term) -> Result<Term, AllocError>
    ensures { IfOk result (λ t. term t ≡ rules.in_dimension (site at) length (term index)) }
{
    let index = within(alloc, at, length, index)?;
    convert(alloc, Kind::Uint, at, index)
}

/// An index of a row, which has to lie in it, as one of the whole array.
pub fn in_row(
    alloc: Global,
    at: Site,
    row: Term,
    length: u32,
    index: Term,
) -> Result<Term, AllocError>
    ensures { IfOk result (λ t. term t ≡ rules.in_row (site at) (term row) length (term index)) }
{
    let index = in_dimension(alloc, at, length, index)?;
    let begin = binary(
        alloc,
        Operator::Multiply,
        Kind::Uint,
        at,
        row,
        literal(Kind::Uint, length),
    )?;
    binary(alloc, Operator::Add, Kind::Uint, at, begin, index)
}

fn first_index<'a>(
    alloc: Global,
    at: Site,
    lengths: &'a [u32],
    index: Term,
) -> Result<(&'a [u32], Term), ValueError>
    ensures { Gives rest result (Ok (rules.first_index (site at) lengths.now (term index))) }
{
    match lengths {
        [] | [_] => Ok((&[], index)),
        [length, lengths @ ..] => Ok((lengths, in_dimension(alloc, at, *length, index)?)),
    }
}

fn next_index<'a>(
    alloc: Global,
    at: Site,
    lengths: &'a [u32],
    row: Term,
    index: Term,
) -> Result<(&'a [u32], Term), ValueError>
    ensures { Gives rest result (rules.next_index (site at) lengths.now (term row) (term index)) }
{
    match lengths {
        [] => refused(Fault::WrongType, at),
        [length, lengths @ ..] => Ok((lengths, in_row(alloc, at, row, *length, index)?)),
    }
}

fn one_index<'a>(
    alloc: Global,
    at: Site,
    lengths: &'a [u32],
    so_far: Option<Term>,
    index: Term,
) -> Result<(&'a [u32], Term), ValueError>
    ensures { Gives rest result (rules.one_index (site at) lengths.now (maybe_term so_far) (term index)) }
{
    match so_far {
        None => first_index(alloc, at, lengths, index),
        Some(row) => next_index(alloc, at, lengths, row, index),
    }
}

fn with_index<'a>(
    alloc: Global,
    at: Site,
    of: Part<'a>,
    index: Term,
) -> Result<Part<'a>, ValueError>
    ensures { Gives part_seen result (rules.with_index (site at) (part_seen of.entry) (term index)) }
{
    let Part {
        array,
        element,
        is_constant,
        lengths,
        index: so_far,
        over,
        ..
    } = of;
    let (lengths, index) = one_index(alloc, at, lengths, so_far, index)?;
    Ok(Part {
        array,
        element,
        is_constant,
        lengths,
        index: Some(index),
        offset: None,
        over,
    })
}

/// A number of elements as an `int`: what is none is converted, which is a fault above 2^31 - 1.
pub fn as_offset(alloc: Global, at: Site, of: Single) -> Result<Term, AllocError>
    ensures { IfOk result (λ t. term t ≡ rules.as_offset (site at) (single of)) }
{
    match of.scalar {
        Scalar::Uint | Scalar::Size => convert(alloc, Kind::Int, at, of.term),
        _ => Ok(of.term),
    }
}

/// So many times as many elements.
pub fn times_pieces(alloc: Global, at: Site, count: u32, of: Term) -> Result<Term, AllocError>
    ensures { IfOk result (λ t. term t ≡ rules.times_pieces (site at) count (term of)) }
{
    if count <= 1 {
        return Ok(of);
    }
    binary(
        alloc,
        Operator::Multiply,
        Kind::Int,
        at,
        of,
        literal(Kind::Int, count),
    )
}

/// So many elements of a type, by what an offset counts.
pub fn steps(
    alloc: Global,
    at: Site,
    over: Option<Scalar>,
    element: ValueType,
    of: Term,
) -> Result<Term, AllocError>
    ensures { IfOk result (λ t. term t ≡ rules.steps (site at) (maybe_scalar over) (value_type element) (term of)) }
{
    match over {
        None => Ok(of),
        Some(over) => times_pieces(alloc, at, pieces(over, element), of),
    }
}

fn from_offset(alloc: Global, at: Site, of: &Part<'_>, index: Single) -> Result<Term, AllocError>
    ensures { IfOk result (λ t. term t ≡ rules.from_offset (site at) (part_seen of.now).over (part_seen of.now).element (part_seen of.now).offset (single index)) }
{
    match &of.offset {
        None => Ok(index.term),
        Some(offset) => {
            let offset = copy_of(alloc, offset)?;
            let index = as_offset(alloc, at, index)?;
            let index = steps(alloc, at, of.over, of.element, index)?;
            binary(alloc, Operator::Add, Kind::Int, at, offset, index)
        }
    }
}

/// An array with one index more (C99 6.5.2.1).
pub fn indexed<'a>(
    alloc: Global,
    at: Site,
    of: Part<'a>,
    index: Single,
) -> Result<Part<'a>, ValueError>
    ensures { Gives part_seen result (rules.indexed (site at) (part_seen of.entry) (single index)) }
{
    if index.scalar.is_float() {
        return refused(Fault::WrongType, at);
    }
    let index = from_offset(alloc, at, &of, index)?;
    with_index(alloc, at, of, index)
}

fn in_vector(alloc: Global, at: Site, words: u32, index: Term) -> Result<Term, AllocError>
    ensures { IfOk result (λ t. term t ≡ rules.in_vector (site at) words (term index)) }
{
    let index = in_dimension(alloc, at, vectors_below(words), index)?;
    binary(
        alloc,
        Operator::Multiply,
        Kind::Uint,
        at,
        index,
        literal(Kind::Uint, words),
    )
}

// The index of the first component of an element.
fn first_word(alloc: Global, at: Site, of: ValueType, index: Term) -> Result<Term, AllocError>
    ensures { IfOk result (λ t. term t ≡ rules.first_word (site at) (value_type of) (term index)) }
{
    if of.is_vector() {
        in_vector(alloc, at, words(of.width), index)
    } else {
        Ok(index)
    }
}

/// What is seen as another type has to be in its place.
pub fn in_place(alloc: Global, at: Site, count: u32, index: Term) -> Result<Term, AllocError>
    requires { 1 ≤ count }
    ensures { IfOk result (λ t. term t ≡ rules.in_place (site at) count (term index)) }
{
    let index = convert(alloc, Kind::Uint, at, index)?;
    let low = masked(alloc, at, count - 1, index)?;
    within(alloc, at, 1, low)
}

fn in_view(alloc: Global, at: Site, count: u32, index: Term) -> Result<Term, AllocError>
    ensures { IfOk result (λ t. term t ≡ rules.in_view (site at) count (term index)) }
{
    if count <= 1 {
        return in_dimension(alloc, at, 2_147_483_648, index);
    }
    let second = copy_of(alloc, &index)?;
    let first = in_dimension(alloc, at, 2_147_483_648, index)?;
    let low = in_place(alloc, at, count, second)?;
    binary(alloc, Operator::Add, Kind::Uint, at, first, low)
}

fn first_in_memory(
    alloc: Global,
    at: Site,
    over: Option<Scalar>,
    of: ValueType,
    index: Term,
) -> Result<Term, AllocError>
    ensures { IfOk result (λ t. term t ≡ rules.first_in_memory (site at) (maybe_scalar over) (value_type of) (term index)) }
{
    match over {
        None => first_word(alloc, at, of, index),
        Some(over) => in_view(alloc, at, pieces(over, of), index),
    }
}

fn is_finer_over(over: Option<Scalar>, of: ValueType) -> bool
    ensures { result ≡ rules.is_finer_over (maybe_scalar over) (value_type of) }
{
    match over {
        None => false,
        Some(over) => is_finer(over, of),
    }
}

/// The element that an array with all its indexes is.
pub fn element_in(alloc: Global, at: Site, of: Part<'_>) -> Result<Element, ValueError>
    ensures { Gives element_seen result (rules.element_in (site at) (part_seen of.entry)) }
{
    let Part {
        array,
        element,
        is_constant,
        lengths,
        index,
        over,
        ..
    } = of;
    if is_finer_over(over, element) {
        return refused(Fault::LeftOut(Construct::Pointer), at);
    }
    match (lengths, index) {
        ([], Some(index)) => Ok(Element {
            array,
            element,
            is_constant,
            index: first_in_memory(alloc, at, over, element, index)?,
            over,
        }),
        _ => refused(Fault::LeftOut(Construct::Pointer), at),
    }
}

// The number of a scalar that a load gives.
fn loaded_as(
    alloc: Global,
    at: Site,
    array: Array,
    scalar: Scalar,
    index: Term,
) -> Result<Term, AllocError>
    ensures { IfOk result (λ t. term t ≡ rules.loaded_as (site at) (array_seen array) (scalar_seen scalar) (term index)) }
{
    let word = load(alloc, array, at, index)?;
    loaded(alloc, scalar, at, word)
}

fn scalar_loaded(alloc: Global, at: Site, of: Element) -> Result<Value, AllocError>
    ensures { IfOk result (λ v. value_seen v ≡ rules.scalar_loaded (site at) (element_seen of)) }
{
    let scalar = of.element.scalar;
    let loaded = Single {
        scalar,
        term: loaded_as(alloc, at, of.array, scalar, of.index)?,
    };
    whole(alloc, loaded)
}

fn vector_loaded(alloc: Global, at: Site, of: &Element) -> Result<Value, AllocError>
    ensures { IfOk result (λ v. value_seen v ≡ rules.vector_loaded (site at) (element_seen of.now)) }
{
    let made = Made::Loaded(of.array, of.element.scalar, &of.index);
    vector_made(alloc, Kind::Uint, at, made, of.element)
}

/// The value of an element.
pub fn loaded_from(alloc: Global, at: Site, of: Element) -> Result<Value, AllocError>
    ensures { IfOk result (λ v. value_seen v ≡ rules.loaded_from (site at) (element_seen of)) }
{
    if let Some(over) = of.over {
        return view_loaded(alloc, at, of.array, over, of.element, &of.index);
    }
    if of.element.is_vector() {
        vector_loaded(alloc, at, &of)
    } else {
        scalar_loaded(alloc, at, of)
    }
}
