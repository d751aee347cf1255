//! Whether a launch meets the conditions.

ghost use Rattle.std.specs.Prelude.{◌≡◌, ◌≢◌, [], true, IfOk, IfErr};
ghost use Rattle.semantics.specs.Conditions.{ConditionsFit};
ghost use Rattle.core_code.specs.View.{kernel as core_seen};
ghost use Rattle.launch.specs.View.{conditions as conditions_seen};
ghost use Rattle.cert_check.specs.Refusing.{RefusesBy};
ghost use Rattle.host_answers.specs.Options.{devices_by, is_held as is_held_by, source_for};
ghost use Rattle.host_answers.specs.Meeting.{AreMet, IsTrueUnmet};
ghost use Rattle.host_answers.specs.Readings.{AnswersBy, IsReading};

use crate::answer::{Answer, answer_of};
use crate::given::{is_held, source_of};
use cert_check::error::CheckError;
use host_launches::{Argument, Range, Refusal, Shape, allows};
use host_shapes::shapes_of;
use kernel_reading::read_source;
use launch::conditions::Conditions;
use launch_text::error::LaunchTextError;
use launch_text::read_conditions_as;
use std::alloc::{AllocError, Global};
use typed_kernels::Typed;

/// A kernel, its conditions, and what its parameters ask of arguments, as they were read.
#[derive(Drop)]
pub struct Reading {
    pub typed: Typed,
    pub conditions: Conditions,
    pub shapes: Option<Vec<Shape>>,
}

fn read(
    alloc: Global,
    kernel: &[u8],
    conditions: &[u8],
    options: u32,
) -> Result<Reading, CheckError>
    ensures read { IfOk result (λ r. IsReading (devices_by options) kernel.now conditions.now r) }
    ensures refused { IfErr result (λ e. RefusesBy true e (source_for (devices_by options) kernel.now conditions.now) conditions.now []) }
{
    let source = source_of(kernel, conditions, options);
    let typed = match read_source(alloc, source) {
        Ok(typed) => typed,
        Err(error) => return Err(CheckError::Kernel(error)),
    };
    let conditions = match read_conditions_as(alloc, &typed, conditions, true) {
        Ok(conditions) => conditions,
        Err(error) => return Err(CheckError::Conditions(error)),
    };
    match shapes_of(alloc, source) {
        Ok(shapes) => Ok(Reading {
            typed,
            conditions,
            shapes,
        }),
        Err(AllocError) => Err(CheckError::Conditions(LaunchTextError::Memory)),
    }
}

fn allowed(
    alloc: Global,
    reading: &Reading,
    options: u32,
    range: &Range,
    arguments: &[Argument],
) -> Result<(), Refusal>
    requires { ConditionsFit (core_seen reading.now.typed.1) (conditions_seen reading.now.conditions) }
    ensures { AnswersBy (core_seen reading.now.typed.1) reading.now.conditions range.now arguments.now (is_held_by options) reading.now.shapes result }
{
    let core = reading.typed.core();
    match &reading.shapes {
        Some(shapes) => allows(
            alloc,
            core,
            shapes,
            &reading.conditions,
            range,
            arguments,
            is_held(options),
        ),
        None => Err(Refusal {
            number: 41,
            place: 0,
        }),
    }
}

/// Whether a launch meets the conditions of a kernel: number 0, or what is wrong with it. It says nothing of a kernel that was not checked.
pub fn meets(
    alloc: Global,
    kernel: &[u8],
    conditions: &[u8],
    options: u32,
    range: &Range,
    arguments: &[Argument],
) -> Answer
    ensures met { result.number ≡ 0 → AreMet (devices_by options) kernel.now conditions.now range.now arguments.now }
    ensures unmet { result.number ≢ 0 → IsTrueUnmet (devices_by options) kernel.now conditions.now range.now arguments.now (is_held_by options) result }
{
    let reading = match read(alloc, kernel, conditions, options) {
        Ok(reading) => reading,
        Err(error) => return answer_of(&error),
    };
    match allowed(alloc, &reading, options, range, arguments) {
        Ok(()) => Answer {
            number: 0,
            column: 0,
            place: 0,
        },
        Err(refusal) => Answer {
            number: refusal.number,
            column: 0,
            place: refusal.place,
        },
    }
}
