//! Pointers in blocks: declared, and moved.

ghost use Rattle.std.specs.Prelude.{◌≡◌, IfOk, map};
ghost use Rattle.core_code.specs.View.{array as array_seen, site as site_seen, space as core_space, term};
ghost use Rattle.opencl_tree.specs.View.{declarator as declarator_seen, expression, initial as initial_seen, qualifiers as qualifiers_seen, space_of};
ghost use Rattle.opencl_terms.specs.Answers.{value_type};
ghost use Rattle.opencl_values.specs.ElementsView.{maybe_term, part as part_seen};
ghost use Rattle.opencl_values.specs.View.{Gives, maybe_row, maybe_scalar, meaning as meaning_seen};
ghost use Rattle.opencl_core.specs.Declaring as rules;
ghost use Rattle.opencl_core.specs.Pointing as pointing_rules;
ghost use Rattle.opencl_core.specs.View as seen;

use crate::declaring::Shared;
use crate::drawing::draw_whole;
use crate::rooms::Room;
use core_code::tree::{Array, Site, Space as CoreSpace, Term};
use core_pieces::pieces::literal;
use opencl_terms::scalars::{Scalar, ValueType};
use opencl_tree::tree::{Declarator, Expr, Initial};
use opencl_tree::types::Space;
use opencl_values::elements::Part;
use opencl_values::error::{Construct, Fault, ValueError, refused};
use opencl_values::scope::Meaning;
use opencl_values::values::part_of;
use opencl_values::wholes::is_same_type;
use std::alloc::Global;
use words::Kind;

/// An offset as a term.
pub fn offset_of(offset: Option<Term>) -> Term
    ensures { term result ≡ rules.offset_of (maybe_term offset) }
{
    match offset {
        None => literal(Kind::Int, 0),
        Some(offset) => offset,
    }
}

// Whether a row is the same at each place.
fn is_fixed(of: &Term) -> bool
    ensures { result ≡ rules.is_fixed (term of.now) }
{
    match of {
        Term::Literal { .. } | Term::Id { .. } => true,
        Term::Binary { left, right, .. } => is_fixed(left) && is_fixed(right),
        Term::Convert { of, .. } => is_fixed(of),
        _ => false,
    }
}

/// The row that a pointer points into, where it is not the whole array.
pub fn row_behind(
    at: Site,
    lengths: &[u32],
    index: Option<Term>,
) -> Result<Option<(u32, Term)>, ValueError>
    ensures { Gives maybe_row result (rules.row_behind (site_seen at) lengths.now (maybe_term index)) }
{
    match (lengths, index) {
        ([_], None) | ([], None) => Ok(None),
        ([length], Some(row)) => {
            if is_fixed(&row) {
                Ok(Some((*length, row)))
            } else {
                refused(Fault::LeftOut(Construct::Pointer), at)
            }
        }
        _ => refused(Fault::LeftOut(Construct::Pointer), at),
    }
}

fn is_in_space(space: CoreSpace, named: Option<Space>) -> bool
    ensures { result ≡ rules.is_in_space (core_space space) (space_of named) }
{
    match space {
        CoreSpace::Global => matches!(named, Some(Space::Global | Space::Constant)),
        CoreSpace::Local => matches!(named, Some(Space::Local)),
    }
}

fn may_have_row(named: Option<Space>) -> bool
    ensures { result ≡ rules.may_have_row (space_of named) }
{
    matches!(named, None | Some(Space::Private | Space::Constant))
}

fn may_point(named: Option<Space>, array: Array, row: &Option<(u32, Term)>) -> bool
    ensures { result ≡ rules.may_point (space_of named) (array_seen array) (maybe_row row.now) }
{
    match row {
        None => is_in_space(array.space, named),
        Some(_) => may_have_row(named),
    }
}

/// What a pointer points into, and its offset. Where a buffer's elements are seen as ones of another type, `over` is the buffer's scalar.
#[derive(Drop)]
pub struct Pointed {
    pub array: Array,
    pub element: ValueType,
    pub is_constant: bool,
    pub row: Option<(u32, Term)>,
    pub offset: Option<Term>,
    pub over: Option<Scalar>,
}

/// What a pointer points into.
pub fn point_into(at: Site, of: Part<'_>) -> Result<Pointed, ValueError>
    ensures { Gives seen.pointed result (rules.pointed (site_seen at) (part_seen of.entry)) }
{
    let Part {
        array,
        element,
        is_constant,
        lengths,
        index,
        offset,
        over,
    } = of;
    let row = row_behind(at, lengths, index)?;
    Ok(Pointed {
        array,
        element,
        is_constant,
        row,
        offset,
        over,
    })
}

/// What an expression points into.
pub fn pointed_in(alloc: Global, at: Site, of: &Expr, room: &Room) -> Result<Pointed, ValueError>
    ensures { Gives seen.pointed result (rules.pointed_in (site_seen at) (expression of.now) (seen.room room.now)) }
{
    let part = part_of(alloc, room.known(), at, of)?;
    point_into(at, part)
}

fn may_be(shared: Shared, of: &Pointed) -> bool
    ensures { result ≡ rules.may_be (seen.shared shared) (seen.pointed of.now) }
{
    is_same_type(of.element, shared.of) && may_point(shared.qualifiers.space, of.array, &of.row)
}

/// Whether two pointers see the elements of a buffer alike.
pub fn is_same_view(left: Option<Scalar>, right: Option<Scalar>) -> bool
    ensures { result ≡ pointing_rules.is_same_view (maybe_scalar left) (maybe_scalar right) }
{
    match (left, right) {
        (None, None) => true,
        (Some(left), Some(right)) => left.number() == right.number(),
        _ => false,
    }
}

/// Declares a pointer of a slot, which is set.
pub fn pointer_named<'a>(
    alloc: Global,
    at: Site,
    name: &'a str,
    meaning: Meaning,
    room: &mut Room<'a>,
) -> Result<(), ValueError>
    ensures { Gives (λ _. seen.room room.new) result (rules.pointer_named (site_seen at) name.now (meaning_seen meaning) (seen.room room.old)) }
{
    room.declare(at, name, meaning)?;
    room.push_pointer(alloc, at, name)?;
    Ok(())
}

fn pointer_set<'a>(
    alloc: Global,
    shared: Shared,
    declarator: &'a Declarator,
    of: Pointed,
    room: &mut Room<'a>,
) -> Result<(), ValueError>
    ensures { Gives (λ _. seen.room room.new) result (rules.pointer_set (seen.shared shared) (declarator_seen declarator.now) (seen.pointed of) (seen.room room.old)) }
{
    let at = declarator.site;
    let Pointed {
        array,
        element,
        is_constant,
        row,
        offset,
        over,
    } = of;
    let slot = room.next_slot(at)?;
    room.set(slot, offset_of(offset), at)?;
    let meaning = Meaning::Pointer {
        array,
        element,
        is_constant: shared.qualifiers.constant || is_constant,
        row,
        over,
        slot,
    };
    pointer_named(alloc, at, declarator.name.as_str(), meaning, room)
}

/// Declares a pointer, which points into one array from there on.
pub fn declare_pointer<'a>(
    alloc: Global,
    shared: Shared,
    declarator: &'a Declarator,
    room: &mut Room<'a>,
) -> Result<(), ValueError>
    ensures { Gives (λ _. seen.room room.new) result (rules.declare_pointer (seen.shared shared) (declarator_seen declarator.now) (declarator_seen declarator.now).initial (seen.room room.old)) }
{
    let at = declarator.site;
    let Initial::Given(value) = &declarator.initial else {
        return refused(Fault::LeftOut(Construct::Pointer), at);
    };
    draw_whole(alloc, value, room)?;
    let pointed = pointed_in(alloc, at, value, room)?;
    if may_be(shared, &pointed) {
        pointer_set(alloc, shared, declarator, pointed, room)
    } else {
        refused(Fault::LeftOut(Construct::Pointer), at)
    }
}
