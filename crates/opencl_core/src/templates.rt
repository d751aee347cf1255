//! The functions of a file, each written out once.

ghost use Rattle.std.specs.Prelude.{◌≡◌, map};
ghost use Rattle.core_code.specs.View.{statement as statement_seen, statements};
ghost use Rattle.opencl_core.specs.Templates as rules;
ghost use Rattle.opencl_core.specs.View as seen;

use core_code::tree::{Site, Space as CoreSpace, Statement};
use kernel_names::{Standing, Variable};
use opencl_terms::scalars::ValueType;
use opencl_values::error::Fault;
use words::Kind;

/// A parameter: a value in slots, or an array of a space, with the slot of an offset, unless it is a whole array.
#[derive(Clone, Copy)]
pub enum Taken {
    Value {
        of: ValueType,
        slot: u32,
    },
    Array {
        space: CoreSpace,
        element: ValueType,
        is_constant: bool,
        offset: Option<u32>,
    },
}

/// The value that a function returns is in slots from one on.
#[derive(Clone, Copy)]
pub struct Returned {
    pub of: ValueType,
    pub slot: u32,
}

/// A function, written out: its slots from 0, its statements from 1.
#[derive(Drop)]
pub struct Text {
    pub parameters: Vec<Taken>,
    pub result: Option<Returned>,
    pub slots: Vec<Kind>,
    pub count: u32,
    pub body: Vec<Statement>,
    pub standings: Vec<Standing>,
    pub variables: Vec<Variable>,
}

/// A function by its name, and whether it may store to what its parameters point to, or meets a barrier. It is written out for whole
/// arrays, and for pointers with an offset; where it could not be, it has the fault.
#[derive(Drop)]
pub struct Template {
    pub name: String,
    pub stores: bool,
    pub whole: Result<Text, (Fault, Site)>,
    pub moved: Result<Text, (Fault, Site)>,
}

/// What a `return` does: a kernel ends; the value of a function goes into a slot.
#[derive(Clone, Copy)]
pub enum Returning {
    OfKernel,
    OfFunction(Option<Returned>),
}

fn is_named(templates: &[Template], name: &str) -> bool
    ensures { result ≡ rules.is_named (map seen.template templates.now) name.now }
{
    for template in templates {
        if template.name.as_str() == name {
            return true;
        }
    }
    false
}

/// The function of a name, unless there are two.
pub fn template_named<'a>(templates: &'a [Template], name: &str) -> Option<&'a Template>
    ensures { seen.maybe_template result ≡ rules.template_named (map seen.template templates.now) name.now }
{
    match templates {
        [] => None,
        [first, others @ ..] => {
            if first.name.as_str() != name {
                template_named(others, name)
            } else if is_named(others, name) {
                None
            } else {
                Some(first)
            }
        }
    }
}

// Whether a barrier is met.
#[cycle(waiting)]
fn waits(of: &Statement) -> bool
    ensures { result ≡ rules.waits (statement_seen of.now) }
{
    match of {
        Statement::If { taken, skipped, .. } => {
            any_waits(taken.as_slice()) || any_waits(skipped.as_slice())
        }
        Statement::Loop { body, update, .. } => {
            any_waits(body.as_slice()) || any_waits(update.as_slice())
        }
        Statement::Barrier { .. } => true,
        Statement::Set { .. }
        | Statement::Store { .. }
        | Statement::Return { .. }
        | Statement::Break { .. }
        | Statement::Continue { .. } => false,
    }
}

#[cycle(waiting)]
fn any_waits(of: &[Statement]) -> bool
    ensures { result ≡ rules.any_waits (statements of.now) }
{
    for statement in of {
        if waits(statement) {
            return true;
        }
    }
    false
}

/// Whether a function meets a barrier.
pub fn text_waits(of: &Result<Text, (Fault, Site)>) -> bool
    ensures { result ≡ rules.text_waits (seen.text_or_fault of.now) }
{
    match of {
        Ok(text) => any_waits(text.body.as_slice()),
        Err(_) => false,
    }
}
