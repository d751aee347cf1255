//! How variables go from place to place: what they begin with, and by how much they step.

use crate::reach::one_value;
use crate::single_values::{Given, has_slot, settled};
use guesses::{
    Leaf, Sight, divisor_of, is_launch, is_same, one_of, try_difference, try_multiple, variable,
};
use linear::Form;
use std::alloc::{AllocError, Global};

/// The most forms, by which a variable steps, that are looked at.
const FORMS: usize = 2;

/// The most terms that such a form has.
const TERMS: usize = 2;

/// The most values, with which a variable begins, that are looked at.
const STARTS: usize = 4;

/// The values that a variable begins with, over ids and arguments, the numbers, not 0, by which it steps, and the forms.
#[derive(Drop)]
pub struct Course {
    pub starts: Vec<Form>,
    pub strides: Vec<i64>,
    /// Steps that are no single number, as forms over symbols of the launch.
    pub by_forms: Vec<Form>,
}

/// Two variables, by their slots, which step on one path by these numbers, and on no other path by other ones.
#[derive(Drop)]
pub struct Pair {
    pub first: u32,
    pub second: u32,
    pub by_first: i64,
    pub by_second: i64,
    pub is_steady: bool,
}

/// The courses by slot, and the pairs of those that step together.
#[derive(Drop)]
pub struct Courses {
    pub of_slots: Vec<Course>,
    pub pairs: Vec<Pair>,
}

impl Course {
    fn add_stride(&mut self, stride: i64) -> Result<(), AllocError> {
        if !self.strides.iter().any(|other| *other == stride) {
            self.strides.push(stride)?;
        }
        Ok(())
    }

    fn add_form(&mut self, form: Form) -> Result<(), AllocError> {
        if self.by_forms.len() < FORMS && !self.by_forms.iter().any(|other| is_same(other, &form)) {
            self.by_forms.push(form)?;
        }
        Ok(())
    }

    fn add_start(&mut self, start: Form) -> Result<(), AllocError> {
        if self.starts.len() < STARTS && !self.starts.iter().any(|other| is_same(other, &start)) {
            self.starts.push(start)?;
        }
        Ok(())
    }

    /// The sizes of its strides and what divides all of them, above 1, rising, each once.
    pub fn moduli(&self, alloc: Global) -> Result<Vec<u64>, AllocError> {
        let mut sizes = Vec::new(alloc);
        let mut divisor = 0;
        for stride in self.strides.iter() {
            let size = stride.unsigned_abs();
            divisor = divisor_of(divisor, size);
            sizes.push(size)?;
        }
        sizes.push(divisor)?;
        sizes.sort_unstable();
        let mut out: Vec<u64> = Vec::new(alloc);
        for size in sizes.iter() {
            if *size >= 2 && out.last() != Some(size) {
                out.push(*size)?;
            }
        }
        Ok(out)
    }
}

impl Courses {
    /// The courses of so many slots, of which nothing is known.
    pub fn new(alloc: Global, slots: usize) -> Result<Courses, AllocError> {
        let mut of_slots = Vec::new(alloc);
        for _ in 0..slots {
            of_slots.push(Course {
                starts: Vec::new(alloc),
                strides: Vec::new(alloc),
                by_forms: Vec::new(alloc),
            })?;
        }
        Ok(Courses {
            of_slots,
            pairs: Vec::new(alloc),
        })
    }

    /// One more value that a variable begins with.
    pub fn add_start(&mut self, slot: u32, start: Form) -> Result<(), AllocError> {
        match self.of_slots.get_mut(slot as usize) {
            Some(course) => course.add_start(start),
            None => Ok(()),
        }
    }

    fn add_stride(&mut self, slot: u32, stride: i64) -> Result<(), AllocError> {
        match self.of_slots.get_mut(slot as usize) {
            Some(course) => course.add_stride(stride),
            None => Ok(()),
        }
    }

    /// The steps of one path: each is noted, and each two that step together.
    pub fn add_steps(&mut self, steps: &[(u32, i64)]) -> Result<(), AllocError> {
        for step in steps {
            self.add_stride(step.0, step.1)?;
            for other in steps {
                if step.0 < other.0 {
                    self.add_pair(*step, *other)?;
                }
            }
        }
        Ok(())
    }

    fn add_pair(&mut self, first: (u32, i64), second: (u32, i64)) -> Result<(), AllocError> {
        for pair in self.pairs.iter_mut() {
            if pair.first == first.0 && pair.second == second.0 {
                if pair.by_first != first.1 || pair.by_second != second.1 {
                    pair.is_steady = false;
                }
                return Ok(());
            }
        }
        self.pairs.push(Pair {
            first: first.0,
            second: second.0,
            by_first: first.1,
            by_second: second.1,
            is_steady: true,
        })?;
        Ok(())
    }
}

/// By how much a value is more than its variable was, with the one values of variables put in.
fn step_of(
    alloc: Global,
    slot: u32,
    value: &Form,
    values: &[Given],
) -> Result<Option<Form>, AllocError> {
    let own = one_of(alloc, variable(slot))?;
    match try_difference(alloc, value, &own)? {
        Some(step) => settled(alloc, &step, values),
        None => Ok(None),
    }
}

/// The number, not 0, by which a value is more than its variable was, in each launch and item; none where it is no one number.
fn stride_of(
    alloc: Global,
    slot: u32,
    value: &Form,
    values: &[Given],
    known: &[Form],
) -> Result<Option<i64>, AllocError> {
    let Some(step) = step_of(alloc, slot, value, values)? else {
        return Ok(None);
    };
    match one_value(alloc, known, &step)? {
        Some(stride) if stride != 0 => Ok(Some(stride)),
        _ => Ok(None),
    }
}

/// The path's value of a variable that holds the variable itself once.
pub fn grown<'a>(from: &Sight, leaf: &'a Leaf, slot: u32) -> Option<&'a Form> {
    let value = leaf.variables.get(slot as usize)?;
    if has_slot(from, slot) && value.coefficient(variable(slot)) == 1 {
        Some(value)
    } else {
        None
    }
}

/// The variables that step along a path, by their slots, and by how much.
pub fn steps_of(
    alloc: Global,
    from: &Sight,
    to: &Sight,
    leaf: &Leaf,
    values: &[Given],
    known: &[Form],
) -> Result<Vec<(u32, i64)>, AllocError> {
    let mut steps = Vec::new(alloc);
    for slot in to.slots.iter() {
        if let Some(value) = grown(from, leaf, *slot) {
            if let Some(stride) = stride_of(alloc, *slot, value, values, known)? {
                steps.push((*slot, stride))?;
            }
        }
    }
    Ok(steps)
}

/// A form with terms of the launch alone, few of them.
fn is_of_launch(form: &Form) -> bool {
    let terms = form.terms();
    !terms.is_empty() && terms.len() <= TERMS && terms.iter().all(|term| is_launch(term.symbol))
}

/// The form, or its opposite, which begins above 0.
fn above(alloc: Global, form: Form) -> Result<Option<Form>, AllocError> {
    match form.terms().first() {
        Some(term) if term.coefficient < 0 => try_multiple(alloc, &form, -1),
        _ => Ok(Some(form)),
    }
}

/// The form over symbols of the launch, which is no one number, by which a variable steps; none of other steps.
fn form_of_step(
    alloc: Global,
    slot: u32,
    value: &Form,
    values: &[Given],
    known: &[Form],
) -> Result<Option<Form>, AllocError> {
    let Some(step) = step_of(alloc, slot, value, values)? else {
        return Ok(None);
    };
    if !is_of_launch(&step) || one_value(alloc, known, &step)?.is_some() {
        return Ok(None);
    }
    above(alloc, step)
}

impl Courses {
    /// Notes the forms by which variables step along a path.
    pub fn add_forms(
        &mut self,
        alloc: Global,
        sights: (&Sight, &Sight),
        leaf: &Leaf,
        values: &[Given],
        known: &[Form],
    ) -> Result<(), AllocError> {
        for slot in sights.1.slots.iter() {
            if let Some(value) = grown(sights.0, leaf, *slot) {
                if let Some(form) = form_of_step(alloc, *slot, value, values, known)? {
                    self.add_form(*slot, form)?;
                }
            }
        }
        Ok(())
    }

    fn add_form(&mut self, slot: u32, form: Form) -> Result<(), AllocError> {
        match self.of_slots.get_mut(slot as usize) {
            Some(course) => course.add_form(form),
            None => Ok(()),
        }
    }
}
