//! The index of an access that is out of bounds.

ghost use Rattle.std.specs.Prelude.{◌≡◌, ◌<◌, length, true, IfSome};
ghost use Rattle.core_code.specs.View.{term as term_seen, statement as statement_seen};
ghost use Rattle.work_item.specs.Items.{item as item_seen};
ghost use Rattle.work_item.specs.Proper.{is_proper_term, is_proper_statement, is_proper_left};
ghost use Rattle.machine.specs.Worlds.{IsSound};

use core_code::tree::{Array, Site, Statement, Term};
use machine::world::World;
use words::Word;
use work_item::identity::identity;
use work_item::item::Item;

/// An access: its array, its index, and whether nothing of the statement is computed before the index.
#[derive(Clone, Copy)]
struct Access<'a> {
    array: Array,
    index: &'a Term,
    is_first: bool,
}

/// An index that is out of bounds, and the array that has so many elements.
#[derive(Clone, Copy)]
pub struct Reach {
    pub array: Array,
    pub index: i64,
    pub length: usize,
}

/// The first of two, else the second.
fn either<'a>(one: Option<Access<'a>>, other: Option<Access<'a>>) -> Option<Access<'a>>
    requires one { IfSome one (λ a. is_proper_term (term_seen a.index.now) ≡ true) }
    requires other { IfSome other (λ a. is_proper_term (term_seen a.index.now) ≡ true) }
    ensures { IfSome result (λ a. is_proper_term (term_seen a.index.now) ≡ true) }
{
    match one {
        Some(_) => one,
        None => other,
    }
}

/// The load of a site in a term.
fn load_in<'a>(term: &'a Term, wanted: Site) -> Option<Access<'a>>
    requires { is_proper_term (term_seen term.now) ≡ true }
    ensures { IfSome result (λ a. is_proper_term (term_seen a.index.now) ≡ true) }
{
    match term {
        Term::Load { array, site, index } => {
            if *site == wanted {
                Some(Access {
                    array: *array,
                    index,
                    is_first: false,
                })
            } else {
                load_in(index, wanted)
            }
        }
        Term::Unary { of, .. }
        | Term::Convert { of, .. }
        | Term::Not { of }
        | Term::Within { index: of, .. } => load_in(of, wanted),
        Term::Binary { left, right, .. }
        | Term::Compare { left, right, .. }
        | Term::And { left, right }
        | Term::Or { left, right }
        | Term::Minimum { left, right }
        | Term::Maximum { left, right }
        | Term::Shift {
            value: left,
            count: right,
            ..
        } => either(load_in(left, wanted), load_in(right, wanted)),
        Term::Select {
            test: first,
            taken: second,
            skipped: third,
        }
        | Term::Opaque {
            first,
            second,
            third,
            ..
        } => either(
            load_in(first, wanted),
            either(load_in(second, wanted), load_in(third, wanted)),
        ),
        Term::Literal { .. } | Term::Variable { .. } | Term::Id { .. } => None,
    }
}

/// The access of a site in a statement.
fn access_in<'a>(statement: &'a Statement, wanted: Site) -> Option<Access<'a>>
    requires { is_proper_statement (statement_seen statement.now) ≡ true }
    ensures { IfSome result (λ a. is_proper_term (term_seen a.index.now) ≡ true) }
{
    match statement {
        Statement::Store {
            array,
            site,
            index,
            ..
        } if *site == wanted => Some(Access {
            array: *array,
            index,
            is_first: true,
        }),
        Statement::Store { index, value, .. } => {
            either(load_in(index, wanted), load_in(value, wanted))
        }
        Statement::Set { value, .. } => load_in(value, wanted),
        Statement::If { test, .. } | Statement::Loop { test, .. } => load_in(test, wanted),
        Statement::Barrier { .. }
        | Statement::Return { .. }
        | Statement::Break { .. }
        | Statement::Continue { .. } => None,
    }
}

/// The answers that an access had before it.
fn answers_before<'a>(access: Access<'_>, item: &'a Item<'_>) -> &'a [Word] {
    if access.is_first {
        item.answers.as_slice()
    } else {
        &[]
    }
}

/// An item of a world.
fn item_at<'w, 'a>(world: &'w World<'a>, number: usize) -> &'w Item<'a>
    requires sound { IsSound world.now }
    requires number { number < length world.now.items.items }
    ensures { is_proper_left (item_seen result.now).left ≡ true }
{
    &world.items[number]
}

/// The statement in front of an item.
fn front_of<'a>(item: &Item<'a>) -> Option<&'a Statement>
    requires { is_proper_left (item_seen item.now).left ≡ true }
    ensures { IfSome result (λ s. is_proper_statement (statement_seen s.now) ≡ true) }
{
    match item.left.front {
        Some(frame) => Some(frame.statement),
        None => None,
    }
}

/// The index of an item's access at a site, where it can be told.
pub fn reach_of(world: &World, number: u64, site: Site) -> Option<Reach>
    requires { IsSound world.now }
{
    if number >= world.items.len() as u64 {
        return None;
    }
    let item = item_at(world, number as usize);
    let access = access_in(front_of(item)?, site)?;
    let who = identity(world.core, world.launch, number);
    let value = who
        .evaluate(
            access.index,
            item.variables.as_slice(),
            answers_before(access, item),
        )
        .ok()?;
    Some(Reach {
        array: access.array,
        index: value.word.value(),
        length: who.extent(access.array),
    })
}
