//! Section: Program. Promises a host program in C, by numbers alone, of a kernel what `check` promises, of a launch whether it meets the
//! conditions, and of a run what `run` promises; stands on `host_answers`.
//!
//! What a host program in C calls, from a static library (`kverify.h`). Each call gets texts and numbers and gives numbers. Nothing is kept
//! between two calls, and no call reads or writes what another one does, so calls may run in any threads at the same time.
#![tactic(auto)]

ghost use Rattle.std.specs.Prelude.{◌≡◌, ◌≢◌, ◌⊎◌};
ghost use Rattle.host_answers.specs.Answers.{AreSafe, IsTrueRefusal};
ghost use Rattle.host_answers.specs.Building.{words_of};
ghost use Rattle.host_answers.specs.Explaining.{IsExplained};
ghost use Rattle.host_answers.specs.Meeting.{AreMet, IsTrueUnmet};
ghost use Rattle.host_answers.specs.Options.{devices_by, is_held, source_for};
ghost use Rattle.host_answers.specs.Putting.{IsPut};
ghost use Rattle.host_answers.specs.Running.{IsLeft, IsResultPut, IsTrueUnrun};

use host_answers::{Answer, build_words, checked, explained, meets, run_kernel};
use host_launches::{Argument, Range};
use std::alloc::Global;

/// The version of this interface, which `kverify.h` has, too.
const VERSION: u32 = 1;

/// The version of the library's interface.
#[unsafe(no_mangle)]
pub extern "C" fn kv_version() -> u32
    ensures { result ≡ VERSION }
{
    VERSION
}

/// Whether the certificate shows the kernel safe under the conditions: 0, or the number of a refusal, which `answer` tells with its place.
#[unsafe(no_mangle)]
pub extern "C" fn kv_check(
    alloc: Global,
    kernel: &[u8],
    conditions: &[u8],
    certificate: &[u8],
    options: u32,
    answer: &mut Answer,
) -> u32
    ensures accepted { result ≡ 0 → AreSafe (devices_by options) kernel.now conditions.now }
    ensures refused { result ≢ 0 → IsTrueRefusal (devices_by options) kernel.now conditions.now certificate.now answer.new }
    ensures number { answer.new.number ≡ result }
{
    *answer = checked(alloc, kernel, conditions, certificate, options);
    answer.number
}

/// The answer of `kv_check` in words, as far as there is room for them. The whole length is given.
#[unsafe(no_mangle)]
pub extern "C" fn kv_explain(
    alloc: Global,
    kernel: &[u8],
    conditions: &[u8],
    certificate: &[u8],
    options: u32,
    room: &mut [u8],
) -> u64
    ensures { IsExplained (source_for (devices_by options) kernel.now conditions.now) conditions.now certificate.now room.old room.new result }
{
    explained(alloc, kernel, conditions, certificate, options, room)
}

/// The words for `clBuildProgram` that the lines `define` of conditions are, as far as there is room for them. The whole length is given; 0
/// also where memory is refused.
#[unsafe(no_mangle)]
pub extern "C" fn kv_options(alloc: Global, conditions: &[u8], room: &mut [u8]) -> u64
    ensures { (result ≡ 0) ⊎ IsPut (words_of conditions.now) room.old room.new result }
{
    build_words(alloc, conditions, room)
}

/// Whether a launch meets the conditions: 0, or what is wrong with it, which `answer` tells with its place. It says nothing of a kernel that
/// was not checked.
#[unsafe(no_mangle)]
pub extern "C" fn kv_meets(
    alloc: Global,
    kernel: &[u8],
    conditions: &[u8],
    options: u32,
    range: &Range,
    arguments: &[Argument],
    answer: &mut Answer,
) -> u32
    ensures met { result ≡ 0 → AreMet (devices_by options) kernel.now conditions.now range.now arguments.now }
    ensures unmet { result ≢ 0 → IsTrueUnmet (devices_by options) kernel.now conditions.now range.now arguments.now (is_held options) answer.new }
    ensures number { answer.new.number ≡ result }
{
    *answer = meets(alloc, kernel, conditions, options, range, arguments);
    answer.number
}

/// Runs an accepted kernel at a launch, by its text, on the calling thread: 0, and the text of its buffers is put into the room, as far as
/// there is room, `whole` being its length; or the number of a refusal, which `answer` tells with its place, and nothing is put there.
#[unsafe(no_mangle)]
pub extern "C" fn kv_run(
    alloc: Global,
    kernel: &[u8],
    conditions: &[u8],
    certificate: &[u8],
    launch: &[u8],
    options: u32,
    room: &mut [u8],
    whole: &mut u64,
    answer: &mut Answer,
) -> u32
    ensures ran { result ≡ 0 → IsResultPut (devices_by options) kernel.now conditions.now launch.now room.old room.new whole.new }
    ensures refused { result ≢ 0 → IsTrueUnrun (devices_by options) kernel.now conditions.now certificate.now launch.now answer.new }
    ensures left { result ≢ 0 → IsLeft room.old room.new whole.new }
    ensures number { answer.new.number ≡ result }
{
    *answer = run_kernel(
        alloc,
        kernel,
        conditions,
        certificate,
        launch,
        options,
        room,
        whole,
    );
    answer.number
}
