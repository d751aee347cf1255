//! Elements of a buffer that are seen as ones of another type, and how many finer ones lie in one.

ghost use Rattle.std.specs.Prelude.{◌≡◌, ◌≤◌, [], map, IfOk};
ghost use Rattle.core_code.specs.View.{array as array_seen, site, term};
ghost use Rattle.opencl_terms.specs.Answers.{value_type};
ghost use Rattle.opencl_terms.specs.View.{scalar as scalar_seen};
ghost use Rattle.opencl_values.specs.Views as rules;
ghost use Rattle.opencl_values.specs.View.{value as value_seen};

use crate::bits::{
    bits_of_number, bits_of_word, is_in_memory, number_of_bits, word_of, word_of_bits,
};
use crate::vectors::{Made, vector_made};
use crate::wholes::{Value, component, places};
use core_code::tree::{Array, Direction, Operator, Site, Term};
use core_pieces::copies::copy_of;
use core_pieces::pieces::{binary, literal, shift};
use opencl_terms::scalars::{Scalar, ValueType};
use std::alloc::{AllocError, Global};
use words::Kind;

fn bytes_under(bits: u32) -> u32
    ensures { result ≡ rules.bytes_under bits }
{
    match bits {
        8 => 1,
        16 => 2,
        _ => 4,
    }
}

fn shorts_under(bits: u32) -> u32
    ensures { result ≡ rules.shorts_under bits }
{
    match bits {
        8 => 0,
        16 => 1,
        _ => 2,
    }
}

fn words_under(bits: u32) -> u32
    ensures { result ≡ rules.words_under bits }
{
    if bits == 32 { 1 } else { 0 }
}

fn count_under(over: u32, bits: u32) -> u32
    ensures { result ≡ rules.count_under over bits }
{
    match over {
        8 => bytes_under(bits),
        16 => shorts_under(bits),
        _ => words_under(bits),
    }
}

/// How many elements of the scalar `over` lie under one of another scalar, in memory.
pub fn under_scalar(over: Scalar, to: Scalar) -> u32
    ensures { result ≡ rules.under_scalar (scalar_seen over) (scalar_seen to) }
{
    count_under(over.bits(), to.bits())
}

fn so_many(count: u32, width: u32) -> u32
    requires { width ≤ 16 }
    ensures exact { result ≡ rules.so_many count width }
    ensures few { result ≤ 64 }
{
    match count {
        1 => width,
        2 => width * 2,
        4 => width * 4,
        _ => 0,
    }
}

/// How many elements of the scalar `over` lie under one of a type: at most sixteen where there is a view.
pub fn pieces(over: Scalar, of: ValueType) -> u32
    ensures { result ≡ rules.pieces (scalar_seen over) (value_type of) }
{
    if of.width <= 16 && of.width != 3 {
        so_many(under_scalar(over, of.scalar), of.width)
    } else {
        0
    }
}

/// Whether elements of the scalar `over` may be seen as ones of a type.
pub fn has_view(over: Scalar, of: ValueType) -> bool
    ensures { result ≡ rules.has_view (scalar_seen over) (value_type of) }
{
    is_in_memory(of.scalar) && 1 <= pieces(over, of) && pieces(over, of) <= 16
}

fn narrower(over: u32, bits: u32) -> u32
    ensures { result ≡ rules.narrower over bits }
{
    match (over, bits) {
        (32, 8) => 4,
        (32, 16) | (16, 8) => 2,
        _ => 0,
    }
}

/// How many elements of a narrower type lie in one of the scalar `over`, in memory; 0 where it is not narrower.
pub fn parts_of(over: Scalar, of: ValueType) -> u32
    ensures { result ≡ rules.parts_of (scalar_seen over) (value_type of) }
{
    if is_in_memory(of.scalar) && !of.is_vector() {
        narrower(over.bits(), of.scalar.bits())
    } else {
        0
    }
}

/// Whether a type's elements are narrower than those of the scalar `over`.
pub fn is_finer(over: Scalar, of: ValueType) -> bool
    ensures { result ≡ rules.is_finer (scalar_seen over) (value_type of) }
{
    2 <= parts_of(over, of)
}

fn two(alloc: Global, at: Site, bits: u32, low: Term, high: Term) -> Result<Term, AllocError>
    ensures { IfOk result (λ t. term t ≡ rules.two (site at) bits (term low) (term high)) }
{
    let count = literal(Kind::Uint, bits);
    let high = shift(alloc, Direction::Leftward, Kind::Uint, high, count)?;
    binary(alloc, Operator::BitOr, Kind::Uint, at, low, high)
}

fn piece(
    alloc: Global,
    at: Site,
    over: Scalar,
    memory: &Value,
    place: u32,
) -> Result<Term, AllocError>
    ensures { IfOk result (λ t. term t ≡ rules.piece (site at) (scalar_seen over) (value_seen memory.now) place) }
{
    let word = component(alloc, memory, place)?;
    bits_of_word(alloc, over, at, word.term)
}

fn pair(
    alloc: Global,
    at: Site,
    over: Scalar,
    memory: &Value,
    place: u32,
) -> Result<Term, AllocError>
    requires { place ≤ 66 }
    ensures { IfOk result (λ t. term t ≡ rules.pair (site at) (scalar_seen over) (value_seen memory.now) place) }
{
    let low = piece(alloc, at, over, memory, place)?;
    let high = piece(alloc, at, over, memory, place + 1)?;
    two(alloc, at, over.bits(), low, high)
}

fn four(
    alloc: Global,
    at: Site,
    over: Scalar,
    memory: &Value,
    place: u32,
) -> Result<Term, AllocError>
    requires { place ≤ 64 }
    ensures { IfOk result (λ t. term t ≡ rules.four (site at) (scalar_seen over) (value_seen memory.now) place) }
{
    let low = pair(alloc, at, over, memory, place)?;
    let high = pair(alloc, at, over, memory, place + 2)?;
    two(alloc, at, 16, low, high)
}

fn joined(
    alloc: Global,
    at: Site,
    over: Scalar,
    count: u32,
    memory: &Value,
    place: u32,
) -> Result<Term, AllocError>
    requires { place ≤ 64 }
    ensures { IfOk result (λ t. term t ≡ rules.joined (site at) (scalar_seen over) count (value_seen memory.now) place) }
{
    match count {
        4 => four(alloc, at, over, memory, place),
        2 => pair(alloc, at, over, memory, place),
        _ => piece(alloc, at, over, memory, place),
    }
}

fn first_under(count: u32, place: u32) -> u32
    ensures exact { result ≡ rules.first_under count place }
    ensures few { result ≤ 64 }
{
    if place <= 16 {
        so_many(count, place)
    } else {
        0
    }
}

fn joined_at(
    alloc: Global,
    at: Site,
    over: Scalar,
    to: Scalar,
    memory: &Value,
    place: u32,
) -> Result<Term, AllocError>
    ensures { IfOk result (λ t. term t ≡ rules.joined_at (site at) (scalar_seen over) (scalar_seen to) (value_seen memory.now) place) }
{
    let count = under_scalar(over, to);
    let bits = joined(alloc, at, over, count, memory, first_under(count, place))?;
    number_of_bits(alloc, to, at, bits)
}

fn joined_behind(
    alloc: Global,
    at: Site,
    over: Scalar,
    to: Scalar,
    memory: &Value,
    places: &[u32],
) -> Result<Vec<Term>, AllocError>
    ensures { IfOk result (λ ts. map term ts.items ≡ rules.joined_behind (site at) (scalar_seen over) (scalar_seen to) (value_seen memory.now) [] places.now) }
{
    let mut terms = Vec::new(alloc);
    for place in places {
        terms.push(joined_at(alloc, at, over, to, memory, *place)?)?;
    }
    Ok(terms)
}

fn seen_as(
    alloc: Global,
    at: Site,
    over: Scalar,
    to: ValueType,
    memory: &Value,
) -> Result<Value, AllocError>
    ensures { IfOk result (λ v. value_seen v ≡ rules.seen_as (site at) (scalar_seen over) (value_type to) (value_seen memory.now)) }
{
    let terms = joined_behind(alloc, at, over, to.scalar, memory, places(to.width))?;
    Ok(Value { of: to, terms })
}

// All elements that lie under one of a type.
fn memory_at(
    alloc: Global,
    at: Site,
    array: Array,
    over: Scalar,
    count: u32,
    index: &Term,
) -> Result<Value, AllocError>
    ensures { IfOk result (λ v. value_seen v ≡ rules.memory_at (site at) (array_seen array) (scalar_seen over) count (term index.now)) }
{
    let word = word_of(over);
    let of = ValueType {
        scalar: word,
        width: count,
    };
    vector_made(alloc, Kind::Uint, at, Made::Loaded(array, word, index), of)
}

/// The value of an element that is seen as one of another type, by the index of the first element under it.
pub fn view_loaded(
    alloc: Global,
    at: Site,
    array: Array,
    over: Scalar,
    to: ValueType,
    index: &Term,
) -> Result<Value, AllocError>
    ensures { IfOk result (λ v. value_seen v ≡ rules.view_loaded (site at) (array_seen array) (scalar_seen over) (value_type to) (term index.now)) }
{
    let memory = memory_at(alloc, at, array, over, pieces(over, to), index)?;
    seen_as(alloc, at, over, to, &memory)
}

fn bits_before(bits: u32, place: u32) -> u32
    ensures { result ≡ rules.bits_before bits place }
{
    match (bits, place) {
        (8, 1) => 8,
        (8, 2) => 16,
        (8, _) => 24,
        _ => 16,
    }
}

fn moved_down(alloc: Global, over: Scalar, place: u32, bits: Term) -> Result<Term, AllocError>
    ensures { IfOk result (λ t. term t ≡ rules.moved_down (scalar_seen over) place (term bits)) }
{
    if place == 0 {
        return Ok(bits);
    }
    let count = literal(Kind::Uint, bits_before(over.bits(), place));
    shift(alloc, Direction::Rightward, Kind::Uint, bits, count)
}

fn split_at(
    alloc: Global,
    at: Site,
    over: Scalar,
    bits: &Term,
    place: u32,
) -> Result<Term, AllocError>
    ensures { IfOk result (λ t. term t ≡ rules.split_at (site at) (scalar_seen over) (term bits.now) place) }
{
    let bits = copy_of(alloc, bits)?;
    let low = moved_down(alloc, over, place, bits)?;
    word_of_bits(alloc, over, at, low)
}

fn split_behind(
    alloc: Global,
    at: Site,
    over: Scalar,
    bits: &Term,
    so_far: Vec<Term>,
    places: &[u32],
) -> Result<Vec<Term>, AllocError>
    ensures { IfOk result (λ ts. map term ts.items ≡ rules.split_behind (site at) (scalar_seen over) (term bits.now) (map term so_far.items) places.now) }
{
    let mut terms = so_far;
    for place in places {
        terms.push(split_at(alloc, at, over, bits, *place)?)?;
    }
    Ok(terms)
}

fn component_split(
    alloc: Global,
    at: Site,
    over: Scalar,
    of: &Value,
    so_far: Vec<Term>,
    place: u32,
) -> Result<Vec<Term>, AllocError>
    ensures { IfOk result (λ ts. map term ts.items ≡ rules.component_split (site at) (scalar_seen over) (value_seen of.now) (map term so_far.items) place) }
{
    let scalar = of.of.scalar;
    let number = component(alloc, of, place)?;
    let bits = bits_of_number(alloc, scalar, at, number.term)?;
    split_behind(
        alloc,
        at,
        over,
        &bits,
        so_far,
        places(under_scalar(over, scalar)),
    )
}

fn all_split(
    alloc: Global,
    at: Site,
    over: Scalar,
    of: &Value,
    places: &[u32],
) -> Result<Vec<Term>, AllocError>
    ensures { IfOk result (λ ts. map term ts.items ≡ rules.all_split (site at) (scalar_seen over) (value_seen of.now) [] places.now) }
{
    let mut terms = Vec::new(alloc);
    for place in places {
        terms = component_split(alloc, at, over, of, terms, *place)?;
    }
    Ok(terms)
}

/// The words that lie under a value: those of elements of the scalar `over`, the lowest bits first.
pub fn memory_of(alloc: Global, at: Site, over: Scalar, of: &Value) -> Result<Value, AllocError>
    ensures { IfOk result (λ v. value_seen v ≡ rules.memory_of (site at) (scalar_seen over) (value_seen of.now)) }
{
    let to = ValueType {
        scalar: word_of(over),
        width: pieces(over, of.of),
    };
    let terms = all_split(alloc, at, over, of, places(of.of.width))?;
    Ok(Value { of: to, terms })
}
