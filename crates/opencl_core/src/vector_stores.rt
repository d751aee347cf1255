//! Vectors that are stored to elements of a scalar.

ghost use Rattle.std.specs.Prelude.{◌≡◌, IfOk, None};
ghost use Rattle.core_code.specs.View.{array as array_seen, site as site_seen};
ghost use Rattle.opencl_tree.specs.View.{expression, expressions};
ghost use Rattle.opencl_values.specs.ElementsView.{element as element_seen};
ghost use Rattle.opencl_terms.specs.View.{scalar as scalar_seen};
ghost use Rattle.opencl_values.specs.View.{Gives, maybe_scalar, meaning as meaning_seen, value as value_seen};
ghost use Rattle.opencl_values.specs.Singles as singles;
ghost use Rattle.opencl_values.specs.Views as views;
ghost use Rattle.opencl_values.specs.Wholes as wholes;
ghost use Rattle.opencl_core.specs.VectorStores as rules;
ghost use Rattle.opencl_core.specs.View as seen;

use crate::components::{Spot, changed_by, heed_none, keep_all, store_all, stored_component};
use crate::pointing::{Pointed, offset_of, point_into};
use crate::rooms::Room;
use core_code::tree::{Array, Site, Statement};
use kernel_names::Sort;
use opencl_terms::scalars::{Scalar, ValueType};
use opencl_tree::tree::Expr;
use opencl_values::elements::{Element, part_meant};
use opencl_values::error::{Fault, ValueError, refused};
use opencl_values::reads::{element_at, place, vectors_on_by};
use opencl_values::scope::Meaning;
use opencl_values::singles::alone;
use opencl_values::values::{part_of, value_of};
use opencl_values::views::{memory_of, pieces};
use opencl_values::wholes::{Value, component, is_same_type, places, whole};
use std::alloc::{AllocError, Global};
use words::Kind;

// A pointer with its offset in a variable.
fn keep_pointer(
    alloc: Global,
    at: Site,
    of: Pointed,
    room: &mut Room,
) -> Result<Meaning, ValueError>
    ensures { Gives (λ m. (meaning_seen m, seen.room room.new)) result (rules.keep_pointer (site_seen at) (seen.pointed of) (seen.room room.old)) }
{
    let Pointed {
        array,
        element,
        is_constant,
        row,
        offset,
        over,
    } = of;
    let slot = room.next_slot(at)?;
    room.set(slot, offset_of(offset), at)?;
    room.make_up(alloc, at, Kind::Int)?;
    Ok(Meaning::Pointer {
        array,
        element,
        is_constant,
        row,
        over,
        slot,
    })
}

fn element_behind(
    alloc: Global,
    at: Site,
    pointer: &Meaning,
    count: u32,
) -> Result<Element, ValueError>
    ensures { Gives element_seen result (rules.element_behind (site_seen at) (meaning_seen pointer.now) count) }
{
    let part = part_meant(alloc, at, Some(pointer))?;
    let index = place(alloc, count)?;
    element_at(alloc, at, part, index)
}

// The words that lie under a component.
fn memory_behind(
    alloc: Global,
    at: Site,
    over: Scalar,
    of: &Value,
    count: u32,
) -> Result<Value, AllocError>
    ensures { IfOk result (λ m. value_seen m ≡ views.memory_of (site_seen at) (scalar_seen over) (wholes.whole (wholes.component (value_seen of.now) count))) }
{
    let one = component(alloc, of, count)?;
    let one = whole(alloc, one)?;
    memory_of(alloc, at, over, &one)
}

fn pieces_under(over: Scalar, of: Scalar) -> u32
    ensures { result ≡ views.pieces (scalar_seen over) (singles.alone (scalar_seen of)) }
{
    pieces(over, alone(of))
}

// A component, as the elements that lie under it.
fn store_pieces(
    alloc: Global,
    at: Site,
    over: Scalar,
    element: &Element,
    of: &Value,
    count: u32,
    room: &mut Room,
) -> Result<(), ValueError>
    ensures { Gives (λ _. seen.room room.new) result (rules.store_pieces (site_seen at) (scalar_seen over) (element_seen element.now) (value_seen of.now) count (seen.room room.old)) }
{
    let memory = memory_behind(alloc, at, over, of, count)?;
    let spot = Spot { at, sign_site: at };
    let all = places(pieces_under(over, of.of.scalar));
    store_all(alloc, spot, element, &memory, all, room)
}

fn store_one(
    alloc: Global,
    at: Site,
    element: Element,
    of: &Value,
    count: u32,
    room: &mut Room,
) -> Result<(), ValueError>
    ensures { Gives (λ _. seen.room room.new) result (rules.store_over (site_seen at) None (element_seen element) (value_seen of.now) count (seen.room room.old)) }
{
    let number = room.count(at)?;
    let statement = Statement::Store {
        number,
        array: element.array,
        site: at,
        index: element.index,
        value: stored_component(alloc, at, of, count)?,
    };
    room.put(statement, at, Sort::Other, &[])?;
    Ok(())
}

fn store_component(
    alloc: Global,
    at: Site,
    pointer: &Meaning,
    of: &Value,
    count: u32,
    room: &mut Room,
) -> Result<(), ValueError>
    ensures { Gives (λ _. seen.room room.new) result (rules.store_component (site_seen at) (meaning_seen pointer.now) (value_seen of.now) count (seen.room room.old)) }
{
    let element = element_behind(alloc, at, pointer, count)?;
    match element.over {
        None => store_one(alloc, at, element, of, count, room),
        Some(over) => store_pieces(alloc, at, over, &element, of, count, room),
    }
}

fn store_components(
    alloc: Global,
    at: Site,
    pointer: &Meaning,
    of: &Value,
    places: &[u32],
    room: &mut Room,
) -> Result<(), ValueError>
    ensures { Gives (λ _. seen.room room.new) result (rules.store_components (site_seen at) (meaning_seen pointer.now) (value_seen of.now) places.now (seen.room room.old)) }
{
    for place in places {
        store_component(alloc, at, pointer, of, *place, room)?;
    }
    Ok(())
}

fn store_by_way(
    alloc: Global,
    at: Site,
    pointer: &Meaning,
    of: &Value,
    room: &mut Room,
) -> Result<(), ValueError>
    ensures { Gives (λ _. seen.room room.new) result (rules.store_by_way (site_seen at) (meaning_seen pointer.now) (value_seen of.now) (seen.room room.old)) }
{
    let width = of.of.width;
    let kept = keep_all(alloc, at, of, width, room)?;
    store_components(alloc, at, pointer, &kept, places(width), room)
}

fn store_kept(
    alloc: Global,
    at: Site,
    into: (Array, Option<Scalar>),
    of: &Value,
    pointer: &Meaning,
    room: &mut Room,
) -> Result<(), ValueError>
    ensures { Gives (λ _. seen.room room.new) result (rules.store_kept (site_seen at) (array_seen into.0) (maybe_scalar into.1) (value_seen of.now) (meaning_seen pointer.now, seen.room room.old)) }
{
    let all = places(of.of.width);
    if into.1.is_some() {
        return store_by_way(alloc, at, pointer, of, room);
    }
    let changed = changed_by(room.returns, into.0);
    if heed_none(alloc, changed, of, all)? {
        store_components(alloc, at, pointer, of, all, room)
    } else {
        store_by_way(alloc, at, pointer, of, room)
    }
}

fn store_to(
    alloc: Global,
    at: Site,
    width: u32,
    of: Value,
    to: Pointed,
    room: &mut Room,
) -> Result<(), ValueError>
    ensures { Gives (λ _. seen.room room.new) result (rules.store_to (site_seen at) width (value_seen of) (seen.pointed to) (seen.room room.old)) }
{
    if to.is_constant {
        return refused(Fault::WriteToConst, at);
    }
    let into = (to.array, to.over);
    let elements = ValueType {
        scalar: to.element.scalar,
        width,
    };
    if !is_same_type(of.of, elements) {
        return refused(Fault::WrongType, at);
    }
    let pointer = keep_pointer(alloc, at, to, room)?;
    store_kept(alloc, at, into, &of, &pointer, room)
}

// Where a vector goes: so many vectors behind a pointer.
fn target_at(
    alloc: Global,
    at: Site,
    width: u32,
    by: &Expr,
    of: &Expr,
    room: &Room,
) -> Result<Pointed, ValueError>
    ensures { Gives seen.pointed result (rules.target_at (site_seen at) width (expression by.now) (expression of.now) (seen.room room.now)) }
{
    let by = value_of(alloc, room.known(), by)?;
    let part = part_of(alloc, room.known(), at, of)?;
    let part = vectors_on_by(alloc, at, width, part, by)?;
    point_into(at, part)
}

fn vector_written(
    alloc: Global,
    at: Site,
    width: u32,
    value: &Expr,
    target: (&Expr, &Expr),
    room: &mut Room,
) -> Result<(), ValueError>
    ensures { Gives (λ _. seen.room room.new) result (rules.vector_written (site_seen at) width (expression value.now) (expression target.entry.0.now) (expression target.entry.1.now) (seen.room room.old)) }
{
    let value = value_of(alloc, room.known(), value)?;
    let target = target_at(alloc, at, width, target.0, target.1, room)?;
    store_to(alloc, at, width, value, target, room)
}

/// Stores a vector, by the arguments of a `vstore`.
#[tactic(auto, using(crate::proofs::Arguments::vector_arguments))]
pub fn write_vector(
    alloc: Global,
    at: Site,
    width: u32,
    arguments: &[Expr],
    room: &mut Room,
) -> Result<(), ValueError>
    ensures { Gives (λ _. seen.room room.new) result (rules.write_vector (site_seen at) width (expressions arguments.now) (seen.room room.old)) }
{
    match arguments {
        [] => refused(Fault::WrongType, at),
        [_] => refused(Fault::WrongType, at),
        [_, _] => refused(Fault::WrongType, at),
        [value, by, of] => vector_written(alloc, at, width, value, (by, of), room),
        _ => refused(Fault::WrongType, at),
    }
}
