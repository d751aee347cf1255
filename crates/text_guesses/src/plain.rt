//! The last guesses: differences of what is at hand at a place.

use crate::affine::id_form;
use crate::frame::Frame;
use crate::scan::{Found, found_in};
use crate::shelf::Shelf;
use core_code::tree::{Core, Function};
use guesses::{
    Candidate, Line, Ranking, Sight, argument, at_anchor, one_of, try_difference, turns, variable,
};
use linear::Form;
use std::alloc::{AllocError, Global};

/// The most guesses of all places together.
const MOST: usize = 2_048;

/// The numbers, moduli, ids and arguments that guesses of a kernel may use at any place.
#[derive(Drop)]
struct AtHand {
    frame: Frame,
    numbers: Vec<Form>,
    moduli: Vec<u64>,
    ids: Vec<Form>,
    arguments: Vec<Form>,
}

fn keep_form(forms: &mut Vec<Form>, form: Option<Form>) -> Result<(), AllocError> {
    if let Some(form) = form {
        forms.push(form)?;
    }
    Ok(())
}

/// The ids that the kernel asks for, along a dimension.
fn enter_ids(
    alloc: Global,
    frame: &Frame,
    dimension: u32,
    local: bool,
    group: bool,
    ids: &mut Vec<Form>,
) -> Result<(), AllocError> {
    if local {
        let form = id_form(alloc, frame, Function::LocalId, dimension)?;
        keep_form(ids, form)?;
    }
    if group {
        let form = id_form(alloc, frame, Function::GroupId, dimension)?;
        keep_form(ids, form)?;
    }
    if local && group {
        let form = id_form(alloc, frame, Function::GlobalId, dimension)?;
        keep_form(ids, form)?;
    }
    Ok(())
}

fn ids_of(alloc: Global, frame: &Frame, found: &Found) -> Result<Vec<Form>, AllocError> {
    let mut ids = Vec::new(alloc);
    enter_ids(alloc, frame, 0, found.locals[0], found.groups[0], &mut ids)?;
    enter_ids(alloc, frame, 1, found.locals[1], found.groups[1], &mut ids)?;
    enter_ids(alloc, frame, 2, found.locals[2], found.groups[2], &mut ids)?;
    Ok(ids)
}

/// 0, 1, and the kernel's own numbers.
fn numbers_at_hand(alloc: Global, found: &Found) -> Result<Vec<Form>, AllocError> {
    let mut numbers = Vec::new(alloc);
    numbers.push(Form::constant(alloc, 0))?;
    numbers.push(Form::constant(alloc, 1))?;
    for number in found.numbers.as_slice() {
        if *number >= 2 && *number <= 4_294_967_295 {
            numbers.push(Form::constant(alloc, *number as i64))?;
        }
    }
    Ok(numbers)
}

fn moduli_of(alloc: Global, found: &Found) -> Result<Vec<u64>, AllocError> {
    let mut moduli = Vec::new(alloc);
    for number in found.numbers.as_slice() {
        if *number >= 2 {
            moduli.push(*number)?;
        }
    }
    Ok(moduli)
}

fn arguments_of(alloc: Global, core: &Core) -> Result<Vec<Form>, AllocError> {
    let mut arguments = Vec::new(alloc);
    let mut slot = 0u32;
    for _ in core.arguments.as_slice() {
        arguments.push(one_of(alloc, argument(slot))?)?;
        slot = slot.saturating_add(1);
    }
    Ok(arguments)
}

impl AtHand {
    fn of(alloc: Global, core: &Core) -> Result<AtHand, AllocError> {
        let frame = Frame::of(alloc, core, false)?;
        let found = found_in(alloc, core)?;
        let ids = ids_of(alloc, &frame, &found)?;
        let numbers = numbers_at_hand(alloc, &found)?;
        let moduli = moduli_of(alloc, &found)?;
        let arguments = arguments_of(alloc, core)?;
        Ok(AtHand {
            frame,
            numbers,
            moduli,
            ids,
            arguments,
        })
    }

    /// The slots of a place whose variables may change.
    fn slots(&self, alloc: Global, sight: &Sight) -> Result<Vec<u32>, AllocError> {
        let mut slots = Vec::new(alloc);
        for slot in sight.slots.as_slice() {
            if !self.frame.is_kept(*slot) {
                slots.push(*slot)?;
            }
        }
        Ok(slots)
    }
}

/// Differences of a variable and forms, both ways.
fn keep_forms(
    alloc: Global,
    sight: &Sight,
    slots: &[u32],
    forms: &[Form],
    shelf: &mut Shelf,
) -> Result<(), AllocError> {
    for slot in slots {
        let own = one_of(alloc, variable(*slot))?;
        for form in forms {
            shelf.keep_both(alloc, sight, &own, form)?;
        }
    }
    Ok(())
}

/// Keeps, for each two variables, that each is at least the other one, as two guesses.
fn keep_pairs(
    alloc: Global,
    sight: &Sight,
    slots: &[u32],
    shelf: &mut Shelf,
) -> Result<(), AllocError> {
    for slot in slots {
        let own = one_of(alloc, variable(*slot))?;
        for earlier in slots {
            if *earlier < *slot {
                let other = one_of(alloc, variable(*earlier))?;
                shelf.keep_both(alloc, sight, &own, &other)?;
            }
        }
    }
    Ok(())
}

/// Keeps that slots are the same for all items, at a barrier, and that they equal their values at the barrier before, at a loop.
fn keep_anchored(
    alloc: Global,
    sight: &Sight,
    slots: &[u32],
    shelf: &mut Shelf,
) -> Result<(), AllocError> {
    for slot in slots {
        if sight.head.is_none() {
            shelf.keep(sight, Line::Same(*slot))?;
        }
        if sight.before.as_slice().contains(slot) {
            let own = one_of(alloc, variable(*slot))?;
            let before = one_of(alloc, at_anchor(*slot))?;
            shelf.keep_both(alloc, sight, &own, &before)?;
        }
    }
    Ok(())
}

/// How what ranked the loops around stands to what ranks them, and that it was above 0.
fn keep_ranks(
    alloc: Global,
    sight: &Sight,
    rankings: &[Ranking],
    shelf: &mut Shelf,
) -> Result<(), AllocError> {
    for ranking in rankings {
        if sight.loops.as_slice().contains(&ranking.number) {
            let before = one_of(alloc, turns(ranking.number))?;
            shelf.keep_both(alloc, sight, &before, &ranking.form)?;
            shelf.keep_at_least(alloc, sight, &before, &Form::constant(alloc, 1))?;
        }
    }
    Ok(())
}

/// Keeps that numbers of the text divide a variable, or its distance from an id.
fn keep_multiples(
    alloc: Global,
    sight: &Sight,
    slot: u32,
    hand: &AtHand,
    shelf: &mut Shelf,
) -> Result<(), AllocError> {
    let own = one_of(alloc, variable(slot))?;
    for modulus in hand.moduli.as_slice() {
        shelf.keep_multiple(alloc, sight, *modulus, &own)?;
        for id in hand.ids.as_slice() {
            if let Some(form) = try_difference(alloc, &own, id)? {
                shelf.keep_multiple(alloc, sight, *modulus, &form)?;
            }
        }
    }
    Ok(())
}

/// Keeps that a variable is more than an earlier one, or than an argument, by at least a number, or less by at least that.
fn keep_orders(
    alloc: Global,
    sight: &Sight,
    slots: &[u32],
    arguments: &[Form],
    number: i64,
    shelf: &mut Shelf,
) -> Result<(), AllocError> {
    for slot in slots {
        let own = one_of(alloc, variable(*slot))?;
        for earlier in slots {
            if *earlier < *slot {
                let other = one_of(alloc, variable(*earlier))?;
                shelf.keep_apart(alloc, sight, &own, &other, number)?;
            }
        }
        for argument in arguments {
            shelf.keep_apart(alloc, sight, &own, argument, number)?;
        }
    }
    Ok(())
}

/// Keeps all guesses of one place.
fn keep_place(
    alloc: Global,
    sight: &Sight,
    rankings: &[Ranking],
    hand: &AtHand,
    shelf: &mut Shelf,
) -> Result<(), AllocError> {
    let slots = hand.slots(alloc, sight)?;
    let slots = slots.as_slice();
    keep_ranks(alloc, sight, rankings, shelf)?;
    keep_anchored(alloc, sight, slots, shelf)?;
    keep_forms(alloc, sight, slots, hand.arguments.as_slice(), shelf)?;
    keep_forms(alloc, sight, slots, hand.ids.as_slice(), shelf)?;
    keep_pairs(alloc, sight, slots, shelf)?;
    keep_forms(alloc, sight, slots, hand.numbers.as_slice(), shelf)?;
    for slot in slots {
        keep_multiples(alloc, sight, *slot, hand, shelf)?;
    }
    let arguments = hand.arguments.as_slice();
    keep_orders(alloc, sight, slots, arguments, 1, shelf)?;
    keep_orders(alloc, sight, slots, arguments, -1, shelf)
}

/// The place is a barrier or a loop's test, not the kernel's entry.
fn is_place(sight: &Sight) -> bool {
    sight.anchor.is_some() || sight.head.is_some()
}

/// The last guesses, of each place but the entry: differences of a variable and of numbers of the kernel, ids, arguments and other
/// variables, what divides them, how the loops around are ranked, which variable is above which, and which are at most one apart. Each
/// place may fill what is left of the room, shared out evenly.
pub fn guess_plainly(
    alloc: Global,
    core: &Core,
    sights: &[Sight],
    rankings: &[Ranking],
) -> Result<Vec<Candidate>, AllocError> {
    let hand = AtHand::of(alloc, core)?;
    let mut shelf = Shelf {
        candidates: Vec::new(alloc),
        room: 0,
    };
    let mut places = sights.iter().filter(|sight| is_place(sight)).count();
    for sight in sights {
        if is_place(sight) {
            shelf.share(MOST, places);
            places = places.saturating_sub(1);
            keep_place(alloc, sight, rankings, &hand, &mut shelf)?;
        }
    }
    Ok(shelf.candidates)
}
