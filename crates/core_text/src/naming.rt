//! The names that are shown of a core.

use crate::distances::far_in;
use core_code::tree::{Array, Core, Space};
use kernel_names::{NameMap, Variable};
use std::alloc::{AllocError, Global};
use syntax::tree::Parameter;

/// The names of buffers, local arrays and slots, each by its number, no two of them the same; and the numbers of the loops that a jump from
/// a loop within them names.
#[derive(Drop)]
pub struct Shown {
    buffers: Vec<String>,
    arrays: Vec<String>,
    slots: Vec<String>,
    far: Vec<u32>,
}

/// What stands for a name that a map does not have.
const NO_NAME: &str = "_";

/// The digits of the components of a vector.
const DIGITS: &[&str] = &[
    "0", "1", "2", "3", "4", "5", "6", "7", "8", "9", "a", "b", "c", "d", "e", "f",
];

/// The name of a number in a list.
fn name_in(names: &[String], number: u32) -> &str {
    match names.get(number as usize) {
        Some(name) => name.as_str(),
        None => NO_NAME,
    }
}

impl Shown {
    /// The name of a variable.
    pub fn slot(&self, slot: u32) -> &str {
        name_in(self.slots.as_slice(), slot)
    }

    /// The name of a local array.
    pub fn local(&self, number: u32) -> &str {
        name_in(self.arrays.as_slice(), number)
    }

    /// The name of an array.
    pub fn array(&self, array: Array) -> &str {
        match array.space {
            Space::Global => name_in(self.buffers.as_slice(), array.number),
            Space::Local => name_in(self.arrays.as_slice(), array.number),
        }
    }

    /// Whether jumps name the loop of a number.
    pub fn is_far(&self, number: u32) -> bool {
        self.far.contains(&number)
    }
}

/// The name of a parameter.
pub fn name_of(parameter: &Parameter) -> &str {
    match parameter {
        Parameter::Buffer { name, .. } | Parameter::Value { name, .. } => name.as_str(),
    }
}

/// Whether the kernel does not name a variable: it is visible nowhere.
fn is_made_up(variable: &Variable) -> bool {
    variable.last < variable.first
}

/// The name of a variable, as the kernel has it; none where it has none.
fn own_name(variable: &Variable) -> &str {
    if is_made_up(variable) {
        ""
    } else {
        variable.name.as_str()
    }
}

/// Whether two variables, one behind the other, are components of one vector.
fn are_of_one(first: &Variable, second: &Variable) -> bool {
    first.name.as_str() == second.name.as_str()
        && first.site == second.site
        && first.first == second.first
        && first.last == second.last
        && !is_made_up(first)
}

/// Whether the variable of a number and the one behind it are components of one vector.
fn goes_on(variables: &[Variable], number: usize) -> bool {
    match (
        variables.get(number),
        variables.get(number.saturating_add(1)),
    ) {
        (Some(first), Some(second)) => are_of_one(first, second),
        _ => false,
    }
}

/// The name of a component.
fn component(alloc: Global, name: &str, place: usize) -> Result<String, AllocError> {
    match DIGITS.get(place) {
        Some(digit) => format!(in alloc; "{name}_s{digit}"),
        None => String::from_str(alloc, name),
    }
}

/// The names of variables, with the components of vectors told apart, behind other names.
fn push_variables(
    alloc: Global,
    variables: &[Variable],
    all: &mut Vec<String>,
) -> Result<(), AllocError> {
    let mut place: usize = 0;
    for (number, variable) in variables.iter().enumerate() {
        let is_followed = goes_on(variables, number);
        if place == 0 && !is_followed {
            all.push(String::from_str(alloc, own_name(variable))?)?;
        } else {
            all.push(component(alloc, variable.name.as_str(), place)?)?;
        }
        place = if is_followed {
            place.saturating_add(1)
        } else {
            0
        };
    }
    Ok(())
}

/// All names of a map, as the kernel has them: of its parameters, its local arrays, its variables.
fn all_names(alloc: Global, names: &NameMap) -> Result<Vec<String>, AllocError> {
    let mut all = Vec::new(alloc);
    for parameter in &names.parameters {
        all.push(String::from_str(alloc, name_of(parameter))?)?;
    }
    for array in &names.arrays {
        all.push(String::from_str(alloc, array.name.as_str())?)?;
    }
    push_variables(alloc, names.variables.as_slice(), &mut all)?;
    Ok(all)
}

/// Whether a name is one of these.
fn is_among(names: &[String], name: &str) -> bool {
    names.iter().any(|other| other.as_str() == name)
}

/// How many of the first names are this one.
fn count_before(names: &[String], number: usize, name: &str) -> usize {
    names
        .iter()
        .take(number)
        .filter(|other| other.as_str() == name)
        .count()
}

/// A name with a number behind it; what the kernel does not name has the number alone.
fn numbered(alloc: Global, name: &str, number: usize) -> Result<String, AllocError> {
    if name.is_empty() {
        format!(in alloc; "_{number}")
    } else {
        format!(in alloc; "{name}_{number}")
    }
}

/// A name that is none of all and none of those that were chosen, with a number from this one on behind it.
fn new_name(
    alloc: Global,
    all: &[String],
    chosen: &[String],
    name: &str,
    from: usize,
) -> Result<String, AllocError> {
    let tries = all.len().saturating_add(chosen.len());
    for step in 0..=tries {
        let found = numbered(alloc, name, from.saturating_add(step))?;
        if !is_among(all, found.as_str()) && !is_among(chosen, found.as_str()) {
            return Ok(found);
        }
    }
    String::from_str(alloc, name)
}

/// The name that is shown for one of all: the first of its name has it, where it is one, and each other one a number.
fn chosen_name(
    alloc: Global,
    all: &[String],
    chosen: &[String],
    number: usize,
    name: &str,
) -> Result<String, AllocError> {
    let before = count_before(all, number, name);
    if before == 0 && !name.is_empty() {
        String::from_str(alloc, name)
    } else {
        new_name(alloc, all, chosen, name, before.saturating_add(1))
    }
}

/// Names in the place of all, no two of them the same.
fn told_apart(alloc: Global, all: &[String]) -> Result<Vec<String>, AllocError> {
    let mut chosen = Vec::new(alloc);
    for (number, name) in all.iter().enumerate() {
        let found = chosen_name(alloc, all, chosen.as_slice(), number, name.as_str())?;
        chosen.push(found)?;
    }
    Ok(chosen)
}

/// The names of parameters, of buffers and of values apart.
fn push_parameters(
    alloc: Global,
    parameters: &[Parameter],
    chosen: &[String],
    shown: &mut Shown,
) -> Result<(), AllocError> {
    for (parameter, name) in parameters.iter().zip(chosen.iter()) {
        let name = String::from_str(alloc, name.as_str())?;
        match parameter {
            Parameter::Buffer { .. } => shown.buffers.push(name)?,
            Parameter::Value { .. } => shown.slots.push(name)?,
        }
    }
    Ok(())
}

/// The names that are shown of a core with this map.
pub fn shown_names(alloc: Global, names: &NameMap, core: &Core) -> Result<Shown, AllocError> {
    let all = all_names(alloc, names)?;
    let chosen = told_apart(alloc, all.as_slice())?;
    let mut shown = Shown {
        buffers: Vec::new(alloc),
        arrays: Vec::new(alloc),
        slots: Vec::new(alloc),
        far: Vec::new(alloc),
    };
    push_parameters(
        alloc,
        names.parameters.as_slice(),
        chosen.as_slice(),
        &mut shown,
    )?;
    let parameters = names.parameters.len();
    let arrays = names.arrays.len();
    for name in chosen.iter().skip(parameters).take(arrays) {
        shown.arrays.push(String::from_str(alloc, name.as_str())?)?;
    }
    for name in chosen.iter().skip(parameters).skip(arrays) {
        shown.slots.push(String::from_str(alloc, name.as_str())?)?;
    }
    far_in(core.body.as_slice(), 0, &mut shown.far)?;
    Ok(shown)
}
