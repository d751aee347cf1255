//! Facts of places, carried on along the paths from there.

use crate::gathering::Gathering;
use crate::naming::Naming;
use guesses::{Leaf, Sight, one_of, variable};
use linear::Form;
use std::alloc::AllocError;

/// The number of passes over all paths.
const PASSES: u32 = 3;

/// The rank of what is carried on.
const CARRIED: u32 = 2;

/// Carries one candidate on, if it is a fact of the place where the path begins.
fn carry_fact(
    told: &mut Gathering<'_>,
    index: usize,
    from: &Sight,
    leaf: &Leaf,
    naming: &Naming,
) -> Result<(), AllocError> {
    let Some(fact) = told.shelf.fact_of(index, from) else {
        return Ok(());
    };
    match naming.project(told.alloc, fact)? {
        Some(form) => told.add_fact(leaf.to, &form, CARRIED),
        None => Ok(()),
    }
}

/// Some symbol makes the form less.
fn takes_off(form: &Form) -> bool {
    form.terms().iter().any(|term| term.coefficient < 0)
}

/// Carries on along one path that a `uint` is not below 0, where another one falls as that grows: of `y = 9 - x` that `y` is at most 9, by
/// each name that `x` has.
fn carry_natural(
    told: &mut Gathering<'_>,
    slot: u32,
    leaf: &Leaf,
    naming: &Naming,
) -> Result<(), AllocError> {
    let own = one_of(told.alloc, variable(slot))?;
    let forms = naming.all_names(told.alloc, &own)?;
    for form in forms.iter() {
        if takes_off(form) {
            told.add_fact(leaf.to, form, CARRIED)?;
        }
    }
    Ok(())
}

/// Carries on along all paths what types say.
fn carry_types(
    told: &mut Gathering<'_>,
    leaves: &[Leaf],
    namings: &[Naming],
) -> Result<(), AllocError> {
    let sights = told.sights;
    for (leaf, naming) in leaves.iter().zip(namings.iter()) {
        let Some(from) = sights.get(leaf.from) else {
            return Ok(());
        };
        for slot in from.slots.iter() {
            if told.is_unsigned(*slot as u64) {
                carry_natural(told, *slot, leaf, naming)?;
            }
        }
    }
    Ok(())
}

/// A path back to the head where it begins carries nothing.
fn is_carrying(leaf: &Leaf, to: &Sight) -> bool {
    leaf.from != leaf.to || to.head.is_none()
}

/// Carries on along one path what was found since that number of candidates; the number for the next time.
fn carry_leaf(
    told: &mut Gathering<'_>,
    since: usize,
    leaf: &Leaf,
    naming: &Naming,
) -> Result<usize, AllocError> {
    let count = told.shelf.len();
    let sights = told.sights;
    let (Some(from), Some(to)) = (sights.get(leaf.from), sights.get(leaf.to)) else {
        return Ok(count);
    };
    if is_carrying(leaf, to) && !told.shelf.is_crowded() {
        for index in since..count {
            carry_fact(told, index, from, leaf, naming)?;
        }
    }
    Ok(count)
}

/// Carries on along all paths once.
fn carry_once(
    told: &mut Gathering<'_>,
    carried: &mut [usize],
    leaves: &[Leaf],
    namings: &[Naming],
) -> Result<(), AllocError> {
    for (since, (leaf, naming)) in carried.iter_mut().zip(leaves.iter().zip(namings.iter())) {
        *since = carry_leaf(told, *since, leaf, naming)?;
    }
    Ok(())
}

/// Carries on along all paths what types say, then all that is told, until nothing is new or often enough.
pub fn carry(
    told: &mut Gathering<'_>,
    leaves: &[Leaf],
    namings: &[Naming],
) -> Result<(), AllocError> {
    carry_types(told, leaves, namings)?;
    let mut carried = Vec::new(told.alloc);
    for _ in leaves {
        carried.push(0usize)?;
    }
    for _ in 0..PASSES {
        let count = told.shelf.len();
        carry_once(told, carried.as_mut_slice(), leaves, namings)?;
        if told.shelf.len() == count {
            return Ok(());
        }
    }
    Ok(())
}
