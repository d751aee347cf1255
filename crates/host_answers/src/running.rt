//! The run of a launch.

ghost use Rattle.std.specs.Prelude.{◌≡◌, ◌≢◌, true, IfOk, IfErr};
ghost use Rattle.launch_text.specs.Answers as launches;
ghost use Rattle.cert_check.specs.Numbers.{at_line};
ghost use Rattle.executor.specs.Numbers as runs;
ghost use Rattle.telling.specs.Telling.{IsResultText};
ghost use Rattle.host_answers.specs.Options.{devices_by, source_for};
ghost use Rattle.host_answers.specs.Running.{IsLeft, IsNumbered, IsResultPut, IsTrueUnrun};

use crate::answer::{Answer, answer_of};
use crate::given::source_of;
use crate::putting::put;
use cert_check::check_as;
use executor::{RunError, can_run_accepted, run_here};
use kernel_reading::laws::bytes_are_the_text_of_what_is_read;
use launch_text::error::LaunchTextError;
use launch_text::laws::{
    what_is_read_of_a_launch_is_its_text, what_is_read_of_conditions_is_their_text,
};
use launch_text::{read_launch, write_buffers};
use std::alloc::Global;

/// The number of want of memory.
const MEMORY: u8 = 90;

fn numbered(number: u8, line: Option<u32>) -> Answer
    ensures { IsNumbered number (at_line line) result }
{
    let place = match line {
        Some(line) => line as u64,
        None => 0,
    };
    Answer {
        number: number as u32,
        column: 0,
        place,
    }
}

fn unread(error: &LaunchTextError) -> Answer
    ensures { IsNumbered (launches.error_number error.now) (at_line (launches.error_place error.now)) result }
{
    numbered(error.number(), error.place())
}

fn not_run(error: &RunError) -> Answer
    ensures { IsNumbered (runs.error_number error.now) (at_line (runs.error_line error.now)) result }
{
    numbered(error.number(), error.place())
}

/// The text of the buffers with which a launch ends, where the kernel is accepted, or why there is none.
fn buffers_of(
    alloc: Global,
    kernel: &[u8],
    conditions: &[u8],
    certificate: &[u8],
    launch: &[u8],
    options: u32,
) -> Result<Vec<u8>, Answer>
    ensures ran { IfOk result (λ v. IsResultText true (source_for (devices_by options) kernel.now conditions.now) conditions.now launch.now v.items) }
    ensures refused { IfErr result (λ a. IsTrueUnrun (devices_by options) kernel.now conditions.now certificate.now launch.now a) }
    ensures numbered { IfErr result (λ a. a.number ≢ 0) }
{
    bytes_are_the_text_of_what_is_read();
    what_is_read_of_conditions_is_their_text();
    what_is_read_of_a_launch_is_its_text();
    let source = source_of(kernel, conditions, options);
    let accepted = match check_as(alloc, source, conditions, certificate, true) {
        Ok(accepted) => accepted,
        Err(error) => return Err(answer_of(&error)),
    };
    if let Err(error) = can_run_accepted(&accepted) {
        return Err(not_run(&error));
    }
    let launch = match read_launch(alloc, accepted.typed(), launch) {
        Ok(launch) => launch,
        Err(error) => return Err(unread(&error)),
    };
    let buffers = match run_here(alloc, &accepted, &launch) {
        Ok(buffers) => buffers,
        Err(error) => return Err(not_run(&error)),
    };
    match write_buffers(alloc, accepted.typed(), &buffers) {
        Ok(text) => Ok(text.into_bytes()),
        Err(_) => Err(numbered(MEMORY, None)),
    }
}

/// Runs an accepted kernel at a launch, by its text, on the calling thread: number 0, and the text of the buffers with which each run of all
/// items that is over ends is put into the room, as far as there is room; or the refusal's number, and nothing is put there. `whole` is the
/// text's length, or 0.
pub fn run_kernel(
    alloc: Global,
    kernel: &[u8],
    conditions: &[u8],
    certificate: &[u8],
    launch: &[u8],
    options: u32,
    room: &mut [u8],
    whole: &mut u64,
) -> Answer
    ensures ran { result.number ≡ 0 → IsResultPut (devices_by options) kernel.now conditions.now launch.now room.old room.new whole.new }
    ensures refused { result.number ≢ 0 → IsTrueUnrun (devices_by options) kernel.now conditions.now certificate.now launch.now result }
    ensures left { result.number ≢ 0 → IsLeft room.old room.new whole.new }
{
    match buffers_of(alloc, kernel, conditions, certificate, launch, options) {
        Ok(text) => {
            *whole = put(&text, room);
            Answer {
                number: 0,
                column: 0,
                place: 0,
            }
        }
        Err(answer) => {
            *whole = 0;
            answer
        }
    }
}
