//! What was made of a kernel, shown.

ghost use Rattle.std.specs.Prelude.{◌≡◌, IfOk};
ghost use Rattle.kernel_reading.specs.Kernels as kernels;
ghost use Rattle.kernel_reading.specs.Answers.{Refuses};
ghost use Rattle.kernel_reading.specs.Sources.{source};
ghost use Rattle.telling.specs.Showing as showing;
ghost use Rattle.telling.specs.Showing.{Shows};

use crate::{Verdict, unaccepted};
use cert_check::error::CheckError;
use core_text::core_text;
use kernel_reading::laws::bytes_are_the_text_of_what_is_read;
use kernel_reading::{KernelError, Language, Reading, Source, read_source};
use printer::print;
use reading::{laws as tree_laws, read_kernel};
use std::alloc::{AllocError, Global};
use types::devices::Devices;

/// The number of want of memory.
const MEMORY: u8 = 90;

/// The same text, read as a plain one for the devices with 32 address bits.
fn plainly(text: Source<'_>) -> Source<'_>
    ensures { source result ≡ showing.plainly (source text.entry) }
{
    Source {
        reading: Reading {
            language: Language::Plain,
            devices: Devices::Bits32,
        },
        ..text
    }
}

/// That a text is not read; the error is want of memory.
fn unread(error: &KernelError) -> Result<bool, AllocError>
    ensures { (answer : kernels.Read) → Refuses error.now answer → IfOk result (λ b. b ≡ showing.is_read answer) }
{
    if error.number() == MEMORY {
        Err(AllocError)
    } else {
        Ok(false)
    }
}

/// Whether a text is a plain kernel, and the head of its conditions says nothing. The error is want of memory.
fn is_plain(alloc: Global, text: Source<'_>) -> Result<bool, AllocError>
    ensures { IfOk result (λ b. b ≡ showing.is_plain (source text.entry)) }
{
    match read_source(alloc, plainly(text)) {
        Ok(_) => Ok(true),
        Err(error) => unread(&error),
    }
}

/// The canonical text of a plain kernel, or want of memory.
fn printed(alloc: Global, kernel: &[u8]) -> Verdict
    ensures { showing.Prints result kernel.now }
{
    tree_laws::bytes_are_the_text_of_what_is_read();
    let Ok(found) = read_kernel(alloc, kernel) else {
        return Verdict::OutOfMemory;
    };
    match print(alloc, &found.tree) {
        Ok(text) => Verdict::Done(text.into_bytes()),
        Err(_) => Verdict::OutOfMemory,
    }
}

/// The text of a kernel's core, or why the bytes are no kernel's text.
fn made(alloc: Global, text: Source<'_>) -> Verdict
    ensures { showing.Reads result (source text.entry) }
{
    bytes_are_the_text_of_what_is_read();
    match read_source(alloc, text) {
        Ok(typed) => match core_text(alloc, typed.names(), typed.core()) {
            Ok(text) => Verdict::Done(text.into_bytes()),
            Err(_) => Verdict::OutOfMemory,
        },
        Err(error) => unaccepted(alloc, &CheckError::Kernel(error)),
    }
}

/// The canonical text of a plain kernel, or the text of the core of another one, for the eye; or why the bytes are no kernel's text.
pub fn show_text(alloc: Global, text: Source<'_>) -> Verdict
    ensures { Shows result (source text.entry) }
{
    match is_plain(alloc, text) {
        Ok(true) => printed(alloc, text.bytes),
        Ok(false) => made(alloc, text),
        Err(_) => Verdict::OutOfMemory,
    }
}
