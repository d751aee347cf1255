//! Variables and arrays that may hold what comes of an operation that is not reckoned.

ghost use Rattle.std.specs.Prelude.{◌≡◌, ◌||◌, true, false, IfOk, slice_index_or, slice_set};
ghost use Rattle.core_code.specs.View.{array as array_seen, term as term_seen, statement as statement_seen, statements as statements_seen, kernel as kernel_seen};
ghost use Rattle.unreckoned.specs.Marking as specs;
ghost use Rattle.unreckoned.specs.View.{marks as seen};

use core_code::tree::{Array, Core, Space, Statement, Term};
use std::alloc::{AllocError, Global};

/// The number of passes over a kernel. A mark that is missing then is found where it is asked what decides.
const PASSES: usize = 16;

/// The slots, buffers and local arrays that may hold a result of an operation that is not reckoned.
#[derive(Drop)]
pub struct Marks {
    pub slots: Vec<bool>,
    pub buffers: Vec<bool>,
    pub arrays: Vec<bool>,
}

/// The mark of a number; past the last one there is none.
fn is_marked(marks: &[bool], number: u32) -> bool
    ensures { result ≡ slice_index_or marks.now number false }
{
    match marks.get(number as usize) {
        Some(mark) => *mark,
        None => false,
    }
}

/// Marks a number, if it is one of them.
#[tactic(auto, using(crate::proofs::Setting::set_beyond))]
fn set_mark(marks: &mut Vec<bool>, number: u32)
    ensures { marks.new.items ≡ slice_set marks.old.items number true }
{
    if (number as usize) < marks.len() {
        marks[number as usize] = true;
    }
}

/// The disjunction of two truth values; both are asked beforehand.
pub fn either(first: bool, second: bool) -> bool
    ensures { result ≡ (first || second) }
{
    first || second
}

impl Marks {
    /// The marks of a kernel at first, which are none.
    #[tactic(auto, using(crate::proofs::Setting::seen_length))]
    fn none(alloc: Global, core: &Core) -> Result<Marks, AllocError>
        ensures { IfOk result (λ m. seen m ≡ specs.no_marks (kernel_seen core.now)) }
    {
        let slots = core.arguments.len() + core.variables.len();
        Ok(Marks {
            slots: vec![in alloc; false; slots]?,
            buffers: vec![in alloc; false; core.buffers.len()]?,
            arrays: vec![in alloc; false; core.arrays.len()]?,
        })
    }

    /// Whether a variable is marked.
    pub fn has_slot(&self, slot: u32) -> bool
        ensures { result ≡ specs.has_slot (seen self.now) slot }
    {
        is_marked(self.slots.as_slice(), slot)
    }

    /// Whether an array is marked.
    pub fn has(&self, array: Array) -> bool
        ensures { result ≡ specs.has (seen self.now) (array_seen array) }
    {
        match array.space {
            Space::Global => is_marked(self.buffers.as_slice(), array.number),
            Space::Local => is_marked(self.arrays.as_slice(), array.number),
        }
    }

    /// Whether a term's value may come of an operation that is not reckoned.
    pub fn comes(&self, term: &Term) -> bool
        ensures { result ≡ specs.comes (seen self.now) (term_seen term.now) }
    {
        match term {
            Term::Literal { .. } | Term::Id { .. } => false,
            Term::Variable { slot } => self.has_slot(*slot),
            Term::Load { array, .. } => self.has(*array),
            Term::Unary { of, .. }
            | Term::Convert { of, .. }
            | Term::Not { of }
            | Term::Within { index: of, .. } => self.comes(of),
            Term::Binary { left, right, .. } => either(self.comes(left), self.comes(right)),
            Term::Compare { left, right, .. } => either(self.comes(left), self.comes(right)),
            Term::And { left, right } => either(self.comes(left), self.comes(right)),
            Term::Or { left, right } => either(self.comes(left), self.comes(right)),
            Term::Select { taken, skipped, .. } => either(self.comes(taken), self.comes(skipped)),
            Term::Minimum { left, right } => either(self.comes(left), self.comes(right)),
            Term::Maximum { left, right } => either(self.comes(left), self.comes(right)),
            Term::Shift { value, count, .. } => either(self.comes(value), self.comes(count)),
            Term::Opaque { .. } => true,
        }
    }

    /// A variable is set.
    fn set(&mut self, slot: u32, value: &Term)
        ensures { seen self.new ≡ specs.set (seen self.old) slot (term_seen value.now) }
    {
        if self.comes(value) {
            set_mark(&mut self.slots, slot);
        }
    }

    /// An array is stored to.
    fn store(&mut self, array: Array, value: &Term)
        ensures { seen self.new ≡ specs.store (seen self.old) (array_seen array) (term_seen value.now) }
    {
        if self.comes(value) {
            match array.space {
                Space::Global => set_mark(&mut self.buffers, array.number),
                Space::Local => set_mark(&mut self.arrays, array.number),
            }
        }
    }

    /// Marks what a statement sets.
    #[cycle(marking)]
    fn mark(&mut self, statement: &Statement)
        ensures { seen self.new ≡ specs.mark (seen self.old) (statement_seen statement.now) }
    {
        match statement {
            Statement::Set { slot, value, .. } => self.set(*slot, value),
            Statement::Store { array, value, .. } => self.store(*array, value),
            Statement::If { taken, skipped, .. } => {
                self.mark_all(taken.as_slice());
                self.mark_all(skipped.as_slice());
            }
            Statement::Loop { body, update, .. } => {
                self.mark_all(body.as_slice());
                self.mark_all(update.as_slice());
            }
            Statement::Barrier { .. }
            | Statement::Return { .. }
            | Statement::Break { .. }
            | Statement::Continue { .. } => {}
        }
    }

    /// Marks what statements set, in one pass.
    #[cycle(marking)]
    fn mark_all(&mut self, body: &[Statement])
        ensures { seen self.new ≡ specs.mark_all (seen self.old) (statements_seen body.now) }
    {
        for statement in body {
            self.mark(statement);
        }
    }

    /// The marks of a kernel, by some passes.
    pub fn of(alloc: Global, core: &Core) -> Result<Marks, AllocError>
        ensures { IfOk result (λ m. seen m ≡ specs.marks_of (kernel_seen core.now)) }
    {
        let mut marks = Marks::none(alloc, core)?;
        for _pass in 0..PASSES {
            marks.mark_all(core.body.as_slice());
        }
        Ok(marks)
    }
}
