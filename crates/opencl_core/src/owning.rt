//! Private arrays, as rows of local ones.

ghost use Rattle.std.specs.Prelude.{◌≡◌, [], ◌∷◌, IfOk, map, ◌*◌};
ghost use Rattle.core_code.specs.View.{local_array, site as site_seen, term};
ghost use Rattle.words.specs.View.{kind as kind_seen};
ghost use Rattle.opencl_tree.specs.View.{declarator as declarator_seen, expression, initial as initial_seen, initials as initials_seen, maybe};
ghost use Rattle.opencl_terms.specs.View.{scalar as scalar_seen};
ghost use Rattle.opencl_values.specs.View.{Gives, meaning as meaning_seen};
ghost use Rattle.opencl_core.specs.Declaring as rules;
ghost use Rattle.opencl_core.specs.View as seen;

use crate::declaring::{Lengths, Shared, lengths_of};
use crate::locals::{MOST_ELEMENTS, element_of_type};
use crate::rooms::Room;
use core_code::tree::{Array, Function, LocalArray, Operator, Site, Space, Statement, Term};
use core_pieces::pieces::{binary, literal};
use kernel_names::Sort;
use opencl_terms::narrowing::stored;
use opencl_terms::scalars::Scalar;
use opencl_tree::tree::{Declarator, Expr, Initial};
use opencl_values::elements::in_row;
use opencl_values::error::{Construct, Fault, ValueError, refused};
use opencl_values::scope::Meaning;
use opencl_values::singles::as_scalar;
use opencl_values::values::value_of;
use opencl_values::wholes::{only, words};
use std::alloc::{AllocError, Global};
use words::Kind;

fn local_id(ids: Kind, dimension: u32) -> Term
    ensures { term result ≡ rules.local_id (kind_seen ids) dimension }
{
    Term::Id {
        kind: ids,
        function: Function::LocalId,
        dimension,
    }
}

fn next_digit(
    alloc: Global,
    at: Site,
    high: Term,
    length: u32,
    low: Term,
) -> Result<Term, AllocError>
    ensures { IfOk result (λ t. term t ≡ rules.next_digit (site_seen at) (term high) length (term low)) }
{
    let length = literal(Kind::Uint, length);
    let begin = binary(alloc, Operator::Multiply, Kind::Uint, at, high, length)?;
    binary(alloc, Operator::Add, Kind::Uint, at, begin, low)
}

/// An item's number in its group.
pub fn own_row(alloc: Global, ids: Kind, sizes: [u32; 3], at: Site) -> Result<Term, AllocError>
    ensures { IfOk result (λ t. term t ≡ rules.own_row (kind_seen ids) (seen.three sizes) (site_seen at)) }
{
    let [x, y, _] = sizes;
    let upper = next_digit(alloc, at, local_id(ids, 2), y, local_id(ids, 1))?;
    next_digit(alloc, at, upper, x, local_id(ids, 0))
}

/// A private array: its number among the local ones, the scalar of its elements, and how many an item has.
#[derive(Clone, Copy)]
pub struct Own {
    pub site: Site,
    pub number: u32,
    pub scalar: Scalar,
    pub is_vector: bool,
    pub length: u32,
}

fn times(at: Site, a: u32, b: u32) -> Result<u32, ValueError>
    ensures { Gives (λ n. n) result (rules.times (site_seen at) a b) }
{
    match a.checked_mul(b) {
        Some(product) if product <= MOST_ELEMENTS => Ok(product),
        _ => refused(Fault::TooMany, at),
    }
}

// How many elements all items of a group have, where each has so many.
fn all_rows(at: Site, count: u32, sizes: [u32; 3]) -> Result<u32, ValueError>
    ensures { Gives (λ n. n) result (rules.all_rows (site_seen at) count (seen.three sizes)) }
{
    let [x, y, z] = sizes;
    let rows = times(at, count, x)?;
    let planes = times(at, rows, y)?;
    times(at, planes, z)
}

fn own_counted<'a>(
    alloc: Global,
    shared: Shared,
    declarator: &'a Declarator,
    lengths: Lengths,
    scalar: Scalar,
    count: u32,
    room: &mut Room<'a>,
) -> Result<Own, ValueError>
    ensures { Gives (λ o. (seen.own o, seen.room room.new)) result (rules.own_counted (seen.shared shared) (declarator_seen declarator.now) (seen.lengths lengths) (scalar_seen scalar) count (seen.room room.old)) }
{
    let at = declarator.site;
    let number = room.next_array(at, count)?;
    let own = Own {
        site: at,
        number,
        scalar,
        is_vector: shared.of.is_vector(),
        length: lengths.product,
    };
    let meaning = Meaning::Own {
        array: Array {
            space: Space::Local,
            number,
        },
        element: shared.of,
        lengths: lengths.all,
        is_constant: shared.qualifiers.constant,
        row: own_row(alloc, room.ids, room.sizes, at)?,
    };
    room.declare(at, declarator.name.as_str(), meaning)?;
    let kept = LocalArray {
        kind: scalar.stored_kind(),
        length: count,
    };
    room.push_local(alloc, at, declarator.name.as_str(), kept)?;
    Ok(own)
}

fn own_declared<'a>(
    alloc: Global,
    shared: Shared,
    declarator: &'a Declarator,
    lengths: Lengths,
    room: &mut Room<'a>,
) -> Result<Own, ValueError>
    ensures { Gives (λ o. (seen.own o, seen.room room.new)) result (rules.own_declared (seen.shared shared) (declarator_seen declarator.now) (seen.lengths lengths) (seen.room room.old)) }
{
    let scalar = element_of_type(declarator.site, shared.of)?;
    let count = times(declarator.site, lengths.product, words(shared.of.width))?;
    let count = all_rows(declarator.site, count, room.sizes)?;
    own_counted(alloc, shared, declarator, lengths, scalar, count, room)
}

// The element behind which so many are left.
fn own_index(alloc: Global, own: Own, left: u32, room: &Room) -> Result<Term, AllocError>
    ensures { IfOk result (λ t. term t ≡ rules.own_index (seen.own own) left (seen.room room.now)) }
{
    let row = own_row(alloc, room.ids, room.sizes, own.site)?;
    let index = literal(Kind::Uint, own.length.saturating_sub(left));
    in_row(alloc, own.site, row, own.length, index)
}

fn own_store(
    alloc: Global,
    own: Own,
    left: u32,
    value: Term,
    room: &mut Room,
) -> Result<(), ValueError>
    ensures { Gives (λ _. seen.room room.new) result (rules.own_store (seen.own own) left (term value) (seen.room room.old)) }
{
    let index = own_index(alloc, own, left, room)?;
    let number = room.count(own.site)?;
    let value = stored(alloc, own.scalar, own.site, value)?;
    let statement = Statement::Store {
        number,
        array: Array {
            space: Space::Local,
            number: own.number,
        },
        site: own.site,
        index,
        value,
    };
    room.put(statement, own.site, Sort::Other, &[])?;
    Ok(())
}

fn begin_with(
    alloc: Global,
    own: Own,
    left: u32,
    value: &Expr,
    room: &mut Room,
) -> Result<(), ValueError>
    ensures { Gives (λ _. seen.room room.new) result (rules.begin_with (seen.own own) left (expression value.now) (seen.room room.old)) }
{
    let value = value_of(alloc, room.known(), value)?;
    let value = only(own.site, value)?;
    let value = as_scalar(alloc, room.ids, own.scalar, own.site, value)?;
    own_store(alloc, own, left, value, room)
}

fn begin_with_zero(alloc: Global, own: Own, left: u32, room: &mut Room) -> Result<(), ValueError>
    ensures { Gives (λ _. seen.room room.new) result (rules.begin_with_zero (seen.own own) left (seen.room room.old)) }
{
    let zero = literal(own.scalar.kind(room.ids), 0);
    own_store(alloc, own, left, zero, room)
}

// What a list leaves out.
#[tactic(auto, unfolding(crate::specs::Declaring::begin_with_zeros))]
fn begin_with_zeros(alloc: Global, own: Own, left: u32, room: &mut Room) -> Result<(), ValueError>
    ensures { Gives (λ _. seen.room room.new) result (rules.begin_with_zeros (seen.own own) left (seen.room room.old)) }
{
    if left == 0 {
        return Ok(());
    }
    begin_with_zero(alloc, own, left, room)?;
    begin_with_zeros(alloc, own, left - 1, room)
}

// The elements of a list, of which so many are left.
#[tactic(auto, unfolding(crate::specs::Declaring::begin_with_list))]
fn begin_with_list(
    alloc: Global,
    own: Own,
    left: u32,
    values: &[Initial],
    room: &mut Room,
) -> Result<(), ValueError>
    ensures { Gives (λ _. seen.room room.new) result (rules.begin_with_list (seen.own own) left (initials_seen values.now) (seen.room room.old)) }
{
    match values {
        [] => begin_with_zeros(alloc, own, left, room),
        [first, rest @ ..] => {
            if left == 0 {
                return refused(Fault::WrongType, own.site);
            }
            let Initial::Given(value) = first else {
                return refused(Fault::LeftOut(Construct::InitialList), own.site);
            };
            begin_with(alloc, own, left, value, room)?;
            begin_with_list(alloc, own, left - 1, rest, room)
        }
    }
}

fn begin_listed(
    alloc: Global,
    own: Own,
    dimensions: usize,
    at: Site,
    values: &[Initial],
    room: &mut Room,
) -> Result<(), ValueError>
    ensures { Gives (λ _. seen.room room.new) result (rules.begin_listed dimensions (site_seen at) (initials_seen values.now) (seen.own own) (seen.room room.old)) }
{
    if dimensions == 1 && !own.is_vector {
        begin_with_list(alloc, own, own.length, values, room)
    } else {
        refused(Fault::LeftOut(Construct::InitialList), at)
    }
}

fn begin_own(
    alloc: Global,
    own: Own,
    dimensions: usize,
    initial: &Initial,
    room: &mut Room,
) -> Result<(), ValueError>
    ensures { Gives (λ _. seen.room room.new) result (rules.begin_own dimensions (initial_seen initial.now) (seen.own own, seen.room room.old)) }
{
    match initial {
        Initial::Absent => Ok(()),
        Initial::Given(_) => refused(Fault::WrongType, own.site),
        Initial::Listed { site, values } => {
            begin_listed(alloc, own, dimensions, *site, values.as_slice(), room)
        }
    }
}

#[tactic(auto, using(crate::proofs::Arguments::counts))]
fn count_of(values: &[Initial]) -> usize
    ensures { result ≡ rules.count_of (initials_seen values.now) }
{
    values.len()
}

fn one_length(alloc: Global, length: u32) -> Result<Lengths, AllocError>
    ensures { IfOk result (λ l. seen.lengths l ≡ record { all = length ∷ []; product = length }) }
{
    let mut all = Vec::new(alloc);
    all.push(length)?;
    Ok(Lengths {
        all,
        product: length,
    })
}

// The length that an array has by its list.
fn lengths_by(alloc: Global, at: Site, values: &[Initial]) -> Result<Lengths, ValueError>
    ensures { Gives seen.lengths result (rules.lengths_by (site_seen at) (initials_seen values.now)) }
{
    let count = count_of(values);
    if count > MOST_ELEMENTS as usize {
        return refused(Fault::TooMany, at);
    }
    Ok(one_length(alloc, count as u32)?)
}

fn listed_lengths(alloc: Global, at: Site, initial: &Initial) -> Result<Lengths, ValueError>
    ensures { Gives seen.lengths result (rules.listed_lengths (site_seen at) (initial_seen initial.now)) }
{
    match initial {
        Initial::Absent => refused(Fault::WrongType, at),
        Initial::Given(_) => refused(Fault::WrongType, at),
        Initial::Listed { site, values } => lengths_by(alloc, *site, values.as_slice()),
    }
}

fn own_lengths(alloc: Global, declarator: &Declarator, room: &Room) -> Result<Lengths, ValueError>
    ensures { Gives seen.lengths result (rules.own_lengths (declarator_seen declarator.now) (declarator_seen declarator.now).dimensions (seen.room room.now)) }
{
    match declarator.dimensions.as_slice() {
        [None] => listed_lengths(alloc, declarator.site, &declarator.initial),
        dimensions => lengths_of(alloc, declarator.site, dimensions, room),
    }
}

/// Declares a private array, and stores what it begins with.
pub fn declare_own<'a>(
    alloc: Global,
    shared: Shared,
    declarator: &'a Declarator,
    room: &mut Room<'a>,
) -> Result<(), ValueError>
    ensures { Gives (λ _. seen.room room.new) result (rules.declare_own (seen.shared shared) (declarator_seen declarator.now) (declarator_seen declarator.now).dimensions (seen.room room.old)) }
{
    let lengths = own_lengths(alloc, declarator, room)?;
    let dimensions = lengths.all.len();
    let own = own_declared(alloc, shared, declarator, lengths, room)?;
    begin_own(alloc, own, dimensions, &declarator.initial, room)
}
