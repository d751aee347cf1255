//! The variables of a kernel, their kinds and their symbols.

ghost use Rattle.std.specs.Prelude.{◌≡◌, ◌<◌, length, MatchResult};
ghost use Rattle.linear.specs.Forms.{form as form_seen};
ghost use Rattle.core_code.specs.View.{kernel as core_seen};
ghost use Rattle.facts.specs.Refusals.{IsMemory};
ghost use Rattle.facts.specs.Symbols.{once};
ghost use Rattle.obligations.specs.Roots as roots;
ghost use Rattle.facts.specs.Families.{symbol_in};

use arrival_claims::is_kept;
use core_code::tree::Core;
use facts::{Family, Side, WalkError, once_given};
use linear::Form;
use std::alloc::Global;

/// The number of a kernel's variables, parameters included.
pub fn slot_count(core: &Core) -> usize
    ensures { result ≡ length (roots.kinds (core_seen core.now)) }
{
    core.arguments.len() + core.variables.len()
}

/// The form that is a variable's symbol, once.
pub fn once_slot(alloc: Global, family: Family, slot: u64) -> Result<Form, WalkError>
    requires { slot < 1152921504606846976 }
    ensures { MatchResult result (λ f. form_seen f ≡ once (symbol_in family slot)) IsMemory }
{
    let form = Form::symbol(alloc, family.symbol(slot))?;
    Ok(form)
}

/// The form of a variable where a path begins at a barrier or a loop's head: an argument where nothing assigns it, else a symbol of its
/// own.
pub fn root_form(alloc: Global, core: &Core, slot: usize) -> Result<Form, WalkError>
    requires { slot < 576460752303423488 }
    ensures { MatchResult result (λ f. form_seen f ≡ roots.root_form (core_seen core.now) slot) IsMemory }
{
    if is_kept(core, slot as u64) {
        once_given(alloc, slot)
    } else {
        once_slot(alloc, Family::Variable(Side::First), slot as u64)
    }
}
