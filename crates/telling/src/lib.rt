//! Section: Answers. Promises that `accepted` is told only of what is, and of a refusal that what its findings confirm is true;
//! stands on `cert_check`, `executor` and `verify`.
//!
//! What the program says of texts: it checks them, runs an accepted kernel, prints a kernel's canonical text or shows what was made of it,
//! looks for a certificate, or writes one in version 2, and tells the answer or the refusal with its findings. What it says besides, where a
//! refusal is explained, stands behind what is told.
#![tactic(auto)]

ghost use Rattle.std.specs.Prelude.{◌≡◌};
ghost use Rattle.launch_text.specs.Answers as launches;
ghost use Rattle.cert_check.specs.Numbers as checks;
ghost use Rattle.cert_check.specs.Numbers.{at_line};
ghost use Rattle.executor.specs.Numbers as runs;
ghost use Rattle.kernel_reading.specs.Sources.{source};
ghost use Rattle.telling.specs.Verdicts.{Checks, Runs, Prints, IsRefusal};

mod explained;
mod migrating;
mod proving;
mod refusal;
mod showing;
mod trying;

use cert_check::check_as;
use cert_check::error::{CheckError, Pointer};
use executor::{RunError, can_run_accepted, run};
pub use explained::{explain_check, explain_texts};
use kernel_reading::laws::bytes_are_the_text_of_what_is_read;
use kernel_reading::{KernelError, Source};
use launch_text::error::LaunchTextError;
use launch_text::laws::{
    what_is_read_of_a_launch_is_its_text, what_is_read_of_conditions_is_their_text,
};
use launch_text::{read_launch, write_buffers};
pub use migrating::migrate_text;
use printer::print;
pub use proving::{Sought, prove_texts};
use reading::{laws as tree_laws, read_kernel};
pub use refusal::Refusal;
pub use showing::show_text;
use std::alloc::Global;
use std::sync::Wait;
use std::thread::Threads;
pub use verify::{Effort, Progress, Unwatched, Watcher};
use words::Open;

/// The program's answer to texts: the text that it writes, or the line that refuses them.
#[derive(Drop)]
pub enum Verdict {
    Done(Vec<u8>),
    Refused(String),
    OutOfMemory,
}

/// The texts of a kernel, its conditions and its certificate.
#[derive(Clone, Copy)]
pub struct Texts<'a> {
    pub kernel: Source<'a>,
    pub conditions: &'a [u8],
    pub certificate: &'a [u8],
}

/// A refusal by a number and where it points, or want of memory.
fn refused(alloc: Global, number: u8, place: Option<Pointer>) -> Verdict
    ensures { IsRefusal number place result }
{
    match (Refusal { number, place }).told(alloc) {
        Some(line) => Verdict::Refused(line),
        None => Verdict::OutOfMemory,
    }
}

/// The point of a refusal that tells a line of a text.
fn line_of(line: Option<u32>) -> Option<Pointer>
    ensures { result ≡ at_line line }
{
    match line {
        Some(line) => Some(Pointer::Number(line as u64)),
        None => None,
    }
}

/// The refusal by `check`, as a line of its number and place.
fn unaccepted(alloc: Global, error: &CheckError) -> Verdict
    ensures { IsRefusal (checks.error_number error.now) (checks.error_place error.now) result }
{
    refused(alloc, error.number(), error.place())
}

/// The refusal of a launch text, as a line of its number and place.
fn unread(alloc: Global, error: &LaunchTextError) -> Verdict
    ensures { IsRefusal (launches.error_number error.now) (at_line (launches.error_place error.now)) result }
{
    refused(alloc, error.number(), line_of(error.place()))
}

/// The refusal of a kernel that is not run, or of a launch that was read, as a line of its number and place.
fn not_run(alloc: Global, error: &RunError) -> Verdict
    ensures { IsRefusal (runs.error_number error.now) (at_line (runs.error_line error.now)) result }
{
    refused(alloc, error.number(), line_of(error.place()))
}

/// Whether a kernel is accepted, by the wide check or by the one that is not: `accepted`, or why not.
pub fn check_texts(alloc: Global, texts: Texts, is_wide: bool) -> Verdict
    ensures { Checks is_wide result (source texts.entry.kernel) texts.entry.conditions.now texts.entry.certificate.now }
{
    match check_as(
        alloc,
        texts.kernel,
        texts.conditions,
        texts.certificate,
        is_wide,
    ) {
        Ok(accepted) => {
            bytes_are_the_text_of_what_is_read();
            what_is_read_of_conditions_is_their_text();
            drop(accepted);
            match Vec::from_slice(alloc, b"accepted\n") {
                Ok(text) => Verdict::Done(text),
                Err(_) => Verdict::OutOfMemory,
            }
        }
        Err(error) => unaccepted(alloc, &error),
    }
}

/// The buffers of a launch when an accepted kernel has run, or why there are none.
pub fn run_texts<R: Threads + Wait + Sync>(
    rt: &R,
    alloc: Global,
    texts: Texts,
    launch: &[u8],
    workers: u32,
    is_wide: bool,
) -> Verdict
    ensures { Runs is_wide result workers (source texts.entry.kernel) texts.entry.conditions.now texts.entry.certificate.now launch.now }
{
    bytes_are_the_text_of_what_is_read();
    what_is_read_of_conditions_is_their_text();
    what_is_read_of_a_launch_is_its_text();
    let accepted = match check_as(
        alloc,
        texts.kernel,
        texts.conditions,
        texts.certificate,
        is_wide,
    ) {
        Ok(accepted) => accepted,
        Err(error) => return unaccepted(alloc, &error),
    };
    if let Err(error) = can_run_accepted(&accepted) {
        return not_run(alloc, &error);
    }
    let launch = match read_launch(alloc, accepted.typed(), launch) {
        Ok(launch) => launch,
        Err(error) => return unread(alloc, &error),
    };
    let buffers = match run(rt, alloc, &accepted, &launch, workers, &Open) {
        Ok(buffers) => buffers,
        Err(error) => return not_run(alloc, &error),
    };
    match write_buffers(alloc, accepted.typed(), &buffers) {
        Ok(text) => Verdict::Done(text.into_bytes()),
        Err(_) => Verdict::OutOfMemory,
    }
}

/// The canonical text of a kernel, or why the bytes are no kernel's text.
pub fn print_text(alloc: Global, kernel: &[u8]) -> Verdict
    ensures { Prints result kernel.now }
{
    tree_laws::bytes_are_the_text_of_what_is_read();
    let found = match read_kernel(alloc, kernel) {
        Ok(found) => found,
        Err(error) => return unaccepted(alloc, &CheckError::Kernel(KernelError::Plain(error))),
    };
    match print(alloc, &found.tree) {
        Ok(text) => Verdict::Done(text.into_bytes()),
        Err(_) => Verdict::OutOfMemory,
    }
}
