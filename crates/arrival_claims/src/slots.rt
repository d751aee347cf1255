//! Which variables a kernel has, and what they keep.

ghost use Rattle.std.specs.Prelude.{◌≡◌, ◌||◌, ◌&&◌, ◌++◌, ◌<◌, length, map, MatchOption, slice_index_or};
ghost use Rattle.linear.specs.Forms.{form as form_seen};
ghost use Rattle.linear.specs.Terms.{terms as terms_seen};
ghost use Rattle.words.specs.View.{kind as kind_seen};
ghost use Rattle.core_code.specs.View.{statement as statement_seen, statements as statements_seen, kernel as core_seen};
ghost use Rattle.obligations.specs.Roots as roots;
ghost use Rattle.path_steps.specs.View.{value as value_seen};

use core_code::tree::{Core, Statement};
use facts::Family;
use linear::{Form, Term};
use path_steps::Value;
use words::{Kind, same_kind};

/// The disjunction of two truth values; both are asked beforehand.
fn either(first: bool, second: bool) -> bool
    ensures { result ≡ (first || second) }
{
    first || second
}

/// The statement, or one in it, assigns the variable of a slot.
#[cycle(sets)]
fn sets(slot: u64, statement: &Statement) -> bool
    ensures { result ≡ roots.sets slot (statement_seen statement.now) }
{
    match statement {
        Statement::Set { slot: other, .. } => *other as u64 == slot,
        Statement::If { taken, skipped, .. } => {
            either(
                some_sets(slot, taken.as_slice()),
                some_sets(slot, skipped.as_slice()),
            )
        }
        Statement::Loop { body, update, .. } => {
            either(
                some_sets(slot, body.as_slice()),
                some_sets(slot, update.as_slice()),
            )
        }
        Statement::Store { .. }
        | Statement::Barrier { .. }
        | Statement::Return { .. }
        | Statement::Break { .. }
        | Statement::Continue { .. } => false,
    }
}

/// One of the statements, or one in it, assigns the variable of a slot.
#[cycle(sets)]
fn some_sets(slot: u64, body: &[Statement]) -> bool
    ensures { result ≡ roots.some_sets slot (statements_seen body.now) }
{
    for statement in body {
        if sets(slot, statement) {
            return true;
        }
    }
    false
}

/// A value parameter that nothing assigns keeps its argument.
pub fn is_kept(core: &Core, slot: u64) -> bool
    ensures { result ≡ roots.is_kept (core_seen core.now) slot }
{
    let is_argument = slot < core.arguments.len() as u64;
    is_argument && !some_sets(slot, core.body.as_slice())
}

/// The form's terms are a parameter's argument, once.
fn is_argument_term(slot: u64, terms: &[Term]) -> bool
    requires { slot < 1152921504606846976 }
    ensures { result ≡ roots.is_argument_term slot (terms_seen terms.now) }
{
    match terms {
        [] => false,
        [term] => term.coefficient == 1 && term.symbol == Family::Argument.symbol(slot),
        [_, _, ..] => false,
    }
}

/// The form is a parameter's argument.
fn is_argument(slot: u64, form: &Form) -> bool
    requires { slot < 1152921504606846976 }
    ensures { result ≡ roots.is_argument slot (form_seen form.now) }
{
    is_argument_term(slot, form.terms()) && form.constant_part() == 0
}

/// A value is of its variable's kind, and a parameter that nothing assigns is its argument.
fn is_slot(core: &Core, slot: u64, kind: Kind, value: &Value) -> bool
    requires { slot < 1152921504606846976 }
    ensures { result ≡ roots.is_slot (core_seen core.now) slot (kind_seen kind) (value_seen value.now) }
{
    if !same_kind(value.kind, kind) {
        return false;
    }
    !is_kept(core, slot) || is_argument(slot, &value.form)
}

/// The kind of a variable; past the last one `int`.
pub fn kind_at(core: &Core, slot: usize) -> Kind
    ensures { kind_seen result ≡ roots.kind_of (core_seen core.now) slot }
{
    let first = core.arguments.len();
    if slot < first {
        return core.arguments[slot];
    }
    match core.variables.get(slot - first) {
        Some(kind) => *kind,
        None => Kind::Int,
    }
}

/// Each value is of its variable's kind, and the parameters that nothing assigns are their arguments.
pub fn are_slots(core: &Core, values: &[Value]) -> bool
    ensures { result ≡ roots.are_slots (core_seen core.now) 0 (roots.kinds (core_seen core.now)) (map value_seen values.now) }
{
    if values.len() != core.arguments.len() + core.variables.len() {
        return false;
    }
    for slot in 0..values.len() {
        if !is_slot(core, slot as u64, kind_at(core, slot), &values[slot]) {
            return false;
        }
    }
    true
}
