//! All that the ends of all paths tell.

use crate::carrying::carry;
use crate::courses::Courses;
use crate::drifts::tell_drifts;
use crate::flags::tell_flags;
use crate::form_strides::tell_by_forms;
use crate::gains::tell_gains;
use crate::gathering::Gathering;
use crate::growth::tell_growth;
use crate::leaf_lines::tell_leaf;
use crate::naming::Naming;
use crate::paces::tell_paces;
use crate::single_values::{Given, given_values};
use crate::squares::tell_squares;
use crate::stride_lines::{all_strides, tell_strides};
use crate::turns::sure_steps;
use crate::weakening::tell_weaker;
use guesses::{Candidate, Leaf, Sight};
use linear::Form;
use std::alloc::{AllocError, Global};

/// The candidates that the ends of paths tell, and the numbers by which variables step, with their slots.
#[derive(Drop)]
pub struct Told {
    pub candidates: Vec<Candidate>,
    pub strides: Vec<(u32, i64)>,
}

/// The paths whose ends are at places of the list, with what names symbols there.
fn namings_of(alloc: Global, sights: &[Sight], leaves: &[Leaf]) -> Result<Vec<Naming>, AllocError> {
    let mut namings = Vec::new(alloc);
    for leaf in leaves {
        let Some(sight) = sights.get(leaf.to) else {
            return Ok(namings);
        };
        let naming = Naming::of(alloc, leaf, sight)?;
        namings.push(naming)?;
    }
    Ok(namings)
}

/// Adds the candidates that each path tells by itself, and collects the starts and strides of all variables.
fn tell_leaves(
    told: &mut Gathering<'_>,
    values: &[Given],
    leaves: &[Leaf],
    namings: &[Naming],
) -> Result<Courses, AllocError> {
    let mut courses = Courses::new(told.alloc, values.len())?;
    for (leaf, naming) in leaves.iter().zip(namings.iter()) {
        tell_leaf(told, &mut courses, values, leaf, naming)?;
    }
    Ok(courses)
}

/// The candidates of ranks 0 to 3, and of wide walks those that are tried last, each once, that the ends of all paths
/// tell of a walk which takes each claim as shown, and by how much variables step. What is known of each launch and
/// item is not said again; variables are `uint` by their slots. Multiples of forms are told of wide walks alone.
pub fn guess_told(
    alloc: Global,
    sights: &[Sight],
    leaves: &[Leaf],
    known: &[Form],
    unsigned: &[bool],
    is_wide: bool,
) -> Result<Told, AllocError> {
    let namings = namings_of(alloc, sights, leaves)?;
    let values = given_values(alloc, sights, leaves, unsigned.len())?;
    let mut told = Gathering::new(alloc, sights, known, unsigned, is_wide)?;
    let courses = tell_leaves(&mut told, values.as_slice(), leaves, namings.as_slice())?;
    tell_flags(&mut told, leaves, namings.as_slice())?;
    carry(&mut told, leaves, namings.as_slice())?;
    tell_strides(&mut told, &courses)?;
    tell_by_forms(&mut told, &courses)?;
    tell_growth(&mut told, &courses, leaves, values.as_slice())?;
    tell_weaker(&mut told, leaves)?;
    tell_drifts(&mut told, &courses, leaves, values.as_slice())?;
    tell_paces(&mut told, &courses, leaves)?;
    told.add_unreached()?;
    if is_wide {
        tell_squares(&mut told, leaves, namings.as_slice())?;
        tell_gains(&mut told, &courses, leaves)?;
    }
    let mut strides = all_strides(alloc, &courses)?;
    let more = sure_steps(alloc, sights, leaves, values.as_slice(), known)?;
    strides.extend_from_slice(more.as_slice())?;
    Ok(Told {
        candidates: told.into_candidates(),
        strides,
    })
}
