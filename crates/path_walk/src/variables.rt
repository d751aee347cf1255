//! What the variables are where a path begins.

ghost use Rattle.std.specs.Prelude.{◌≡◌, ◌<◌, ◌++◌, length, map, IfOk, MatchResult};
ghost use Rattle.words.specs.View.{kind as kind_seen};
ghost use Rattle.core_code.specs.View.{kernel as core_seen};
ghost use Rattle.facts.specs.Refusals.{IsMemory};
ghost use Rattle.facts.specs.Symbols.{ArgumentOf, once};
ghost use Rattle.walk_trees.specs.Values.{value};
ghost use Rattle.walk_trees.specs.Statements as statements;
ghost use Rattle.path_steps.specs.View.{value as value_seen};
ghost use Rattle.obligations.specs.Roots as roots;
ghost use Rattle.path_walk.specs.Slots.{HasSlots};

use crate::slots::{root_form, slot_count};
use arrival_claims::kind_at;
use core_code::tree::Core;
use facts::{WalkError, once_given};
use linear::Form;
use path_steps::Value;
use std::alloc::Global;
use words::Kind;

/// The number of values. A value takes more than 16 bytes.
pub fn count_of(values: &[Value]) -> usize
    ensures exact { result ≡ length values.now }
    ensures small { result < 576460752303423488 }
{
    values.len()
}

/// The value of a value parameter where an item begins: its argument.
fn argument(alloc: Global, kind: Kind, parameter: usize) -> Result<Value, WalkError>
    requires { parameter < 576460752303423488 }
    ensures { MatchResult result (λ v. value_seen v ≡ value (kind_seen kind) (once (ArgumentOf parameter))) IsMemory }
{
    let form = once_given(alloc, parameter)?;
    Ok(Value { kind, form })
}

/// The values of the value parameters where an item begins: their arguments.
fn argument_values(alloc: Global, kinds: &[Kind]) -> Result<Vec<Value>, WalkError>
    ensures { MatchResult result (λ vs. map value_seen vs.items ≡ statements.argument_values 0 (map kind_seen kinds.now)) IsMemory }
{
    let mut values = Vec::new(alloc);
    for kind in kinds {
        let value = argument(alloc, *kind, count_of(values.as_slice()))?;
        values.push(value)?;
    }
    Ok(values)
}

/// The value 0 of a kind.
fn zero(alloc: Global, kind: Kind) -> Value
    ensures { value_seen result ≡ statements.zero_value (kind_seen kind) }
{
    Value {
        kind,
        form: Form::constant(alloc, 0),
    }
}

/// Adds the values of the private variables where an item begins, each 0 of its kind.
fn push_zeros(alloc: Global, values: &mut Vec<Value>, kinds: &[Kind]) -> Result<(), WalkError>
    ensures { MatchResult result (λ _. map value_seen values.new.items ≡ map value_seen values.old.items ++ map statements.zero_value (map kind_seen kinds.now)) IsMemory }
{
    for kind in kinds {
        values.push(zero(alloc, *kind))?;
    }
    Ok(())
}

/// The values of all variables where an item begins: arguments, then zeros.
fn opening_values(alloc: Global, core: &Core) -> Result<Vec<Value>, WalkError>
    ensures { MatchResult result (λ vs. map value_seen vs.items ≡ statements.opening_values (core_seen core.now)) IsMemory }
{
    let mut values = argument_values(alloc, core.arguments.as_slice())?;
    push_zeros(alloc, &mut values, core.variables.as_slice())?;
    Ok(values)
}

/// The value of a variable where a path begins at a barrier or a loop's head.
fn slot_value(alloc: Global, core: &Core, slot: usize) -> Result<Value, WalkError>
    requires { slot < 576460752303423488 }
    ensures { MatchResult result (λ v. value_seen v ≡ value (roots.kind_of (core_seen core.now) slot) (roots.root_form (core_seen core.now) slot)) IsMemory }
{
    let form = root_form(alloc, core, slot)?;
    let kind = kind_at(core, slot);
    Ok(Value { kind, form })
}

/// The values of all variables where a path begins at a barrier or a loop's head.
fn slot_values(alloc: Global, core: &Core) -> Result<Vec<Value>, WalkError>
    ensures count { IfOk result (λ vs. length vs.items ≡ length (roots.kinds (core_seen core.now))) }
    ensures values { MatchResult result (λ vs. map value_seen vs.items ≡ roots.values_from (core_seen core.now) 0 (roots.kinds (core_seen core.now))) IsMemory }
{
    let mut values = Vec::new(alloc);
    for _slot in 0..slot_count(core) {
        let value = slot_value(alloc, core, count_of(values.as_slice()))?;
        values.push(value)?;
    }
    Ok(values)
}

/// The values of all variables where the paths of a place begin.
pub fn root_values(
    alloc: Global,
    core: &Core,
    anchor: Option<u32>,
    head: Option<u32>,
) -> Result<Vec<Value>, WalkError>
    ensures values { MatchResult result (λ vs. map value_seen vs.items ≡ roots.root_values (core_seen core.now) anchor head) IsMemory }
    ensures slots { IfOk result (λ vs. HasSlots (core_seen core.now) anchor head (length vs.items)) }
{
    match (anchor, head) {
        (None, None) => opening_values(alloc, core),
        (None, Some(_)) | (Some(_), _) => slot_values(alloc, core),
    }
}
