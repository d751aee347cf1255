//! The texts of a kernel's conditions and launches.

ghost use Rattle.std.specs.Prelude.{false, IfOk};
ghost use Rattle.semantics.specs.Launch.{Fits};
ghost use Rattle.semantics.specs.Conditions.{ConditionsFit};
ghost use Rattle.launch_text.specs.ConditionsReading as conditions;
ghost use Rattle.launch_text.specs.LaunchReading as launches;
ghost use Rattle.kernel_names.specs.View.{names_seen};
ghost use Rattle.core_code.specs.View.{kernel as core_of};
ghost use Rattle.launch.specs.View.{conditions as conditions_seen, launch as launch_seen};
ghost use Rattle.launch_text.specs.Answers.{Gives};
ghost use Rattle.launch_text.specs.Fits.{IsOf};
ghost use Rattle.launch_text.specs.View as view;

use crate::conditions::conditions_of;
use crate::error::LaunchTextError;
use crate::launches::launch_of;
use launch::conditions::Conditions;
use launch::launches::Launch;
use std::alloc::Global;
use typed_kernels::Typed;

/// The conditions that a text says of a kernel, or its first fault; of version 2 or 3 only where it may be. The text is gone
/// through once.
pub fn read_conditions_as(
    alloc: Global,
    typed: &Typed,
    text: &[u8],
    may_be_two: bool,
) -> Result<Conditions, LaunchTextError>
    ensures value { Gives view.lined result (conditions.conditions_of may_be_two (names_seen typed.now.0).parameters text.now) }
    ensures of { IfOk result (λ c. IsOf (core_of typed.now.1) (view.lined c)) }
    ensures fit { IfOk result (λ c. ConditionsFit (core_of typed.now.1) (conditions_seen c)) }
{
    let names = typed.names();
    let conditions = conditions_of(alloc, &names.parameters, text, may_be_two)?;
    Ok(conditions)
}

/// The conditions that a text of version 1 says of a kernel, or its first fault.
pub fn read_conditions(
    alloc: Global,
    typed: &Typed,
    text: &[u8],
) -> Result<Conditions, LaunchTextError>
    ensures value { Gives view.lined result (conditions.conditions_of false (names_seen typed.now.0).parameters text.now) }
    ensures of { IfOk result (λ c. IsOf (core_of typed.now.1) (view.lined c)) }
    ensures fit { IfOk result (λ c. ConditionsFit (core_of typed.now.1) (conditions_seen c)) }
{
    read_conditions_as(alloc, typed, text, false)
}

/// The launch of a kernel that a text says, or its first fault. The text is gone through once.
pub fn read_launch(alloc: Global, typed: &Typed, text: &[u8]) -> Result<Launch, LaunchTextError>
    ensures value { Gives view.launch result (launches.launch_of (names_seen typed.now.0).parameters text.now) }
    ensures fit { IfOk result (λ l. Fits (core_of typed.now.1) (launch_seen l)) }
{
    let names = typed.names();
    let launch = launch_of(alloc, &names.parameters, text)?;
    Ok(launch)
}
