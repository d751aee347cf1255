//! Section: Kernel text. Promises exactly the core and the map of names of a kernel's bytes, in either language; stands on `reading`,
//! `opencl_reading` and `launch_text`.
//!
//! The bytes of a kernel's text to its core and its map of names. No crate above knows what they were read by.
#![tactic(auto)]

ghost use Rattle.std.specs.Prelude.{◌≡◌, true, false};
ghost use Rattle.launch_text.specs.Answers as conditions;
ghost use Rattle.launch_text.specs.View as texts;
ghost use Rattle.reading.specs.Answers as plain_answers;
ghost use Rattle.reading.specs.Kernels as plain;
ghost use Rattle.kernel_reading.specs.Kernels as kernels;
ghost use Rattle.kernel_reading.specs.Kernels.{read, text_for};
ghost use Rattle.kernel_reading.specs.Answers as answers;
ghost use Rattle.kernel_reading.specs.Answers.{Gives};
ghost use Rattle.kernel_reading.specs.Sources.{source};

use launch_text::error::LaunchTextError;
use launch_text::head::{Head, head_of};
use lexer::TextError;
use opencl_reading::error::OpenClError;
use parser::error::ParseError;
use std::alloc::Global;
use thiserror::Error;
use typed_kernels::Typed;
use types::devices::Devices;
use types::error::TypeError;
use types::typed::TypedTree;

pub mod laws;

/// The language that a kernel's text is in.
#[derive(Clone, Copy)]
pub enum Language {
    Plain,
    /// OpenCL C as people write it; a plain text is read as such.
    OpenCl,
}

/// The way in which a kernel's text is read: its language, and the devices that it is for.
#[derive(Clone, Copy)]
pub struct Reading {
    pub language: Language,
    pub devices: Devices,
}

/// The bytes of a kernel's text, and the way in which they are read, with the text of the conditions that are asked with it: of that their
/// head is taken, where it has one.
#[derive(Clone, Copy)]
pub struct Source<'a> {
    pub reading: Reading,
    pub conditions: &'a [u8],
    pub bytes: &'a [u8],
}

/// The reasons for which a text is no kernel, in the language that it was read in last.
#[derive(Debug, Drop, Error)]
pub enum KernelError {
    #[error("{0}")]
    Plain(reading::KernelError),
    #[error("{0}")]
    OpenCl(OpenClError),
    /// The head of the conditions has a fault.
    #[error("{0}")]
    Head(LaunchTextError),
    /// The head of the conditions says something of a text of the plain language, which knows no head.
    #[error("35 1:1")]
    Headed,
}

impl KernelError {
    ghost use Rattle.std.specs.Prelude.{is_some};
    ghost use Rattle.kernel_reading.specs.Answers.{error_number, error_place, is_left_out};

    /// The number under which the error is printed.
    pub fn number(&self) -> u8
        ensures { result ≡ error_number self.now }
    {
        match self {
            KernelError::Plain(error) => error.number(),
            KernelError::OpenCl(error) => error.number(),
            KernelError::Head(error) => error.number(),
            KernelError::Headed => 35,
        }
    }

    /// What of OpenCL C is left out at the fault's place, in words; of another fault nothing.
    pub fn left_out(&self) -> Option<&'static str>
        ensures { is_some result ≡ is_left_out self.now }
    {
        match self {
            KernelError::OpenCl(error) => error.left_out(),
            KernelError::Plain(_) | KernelError::Head(_) | KernelError::Headed => None,
        }
    }

    /// The line and the column of the fault; of one of the head its line in the conditions, and column 1.
    pub fn place(&self) -> Option<(u32, u32)>
        ensures { result ≡ error_place self.now }
    {
        match self {
            KernelError::Plain(error) => error.place(),
            KernelError::OpenCl(error) => error.place(),
            KernelError::Head(LaunchTextError::Refused { line, .. }) => Some((*line, 1)),
            KernelError::Head(LaunchTextError::Memory) => None,
            KernelError::Headed => Some((1, 1)),
        }
    }
}

/// A plain text that is read for the devices with 32 address bits, where ids are `uint`.
pub fn narrow(bytes: &[u8]) -> Source<'_>
    ensures { source result ≡ text_for kernels.narrow bytes.now }
{
    Source {
        reading: Reading {
            language: Language::Plain,
            devices: Devices::Bits32,
        },
        conditions: &[],
        bytes,
    }
}

/// Whether an error is a fault of the text, and not want of memory.
fn is_fault(error: &reading::KernelError) -> bool
    ensures { result ≡ answers.is_fault error.now }
{
    !matches!(
        error,
        reading::KernelError::Text(TextError::Memory)
            | reading::KernelError::Tree(ParseError::Memory)
            | reading::KernelError::Types(TypeError::Memory)
    )
}

/// The tree of a plain text.
fn plain_tree(alloc: Global, text: Source<'_>) -> Result<TypedTree, reading::KernelError>
    ensures { plain_answers.Gives result (plain.read (kernels.as_plain (source text.entry))) }
{
    let plain = reading::Source {
        devices: text.reading.devices,
        bytes: text.bytes,
    };
    reading::read_source(alloc, plain)
}

/// Whether a head says nothing.
fn is_silent(head: &Head<'_>) -> bool
    ensures { result ≡ kernels.is_silent (texts.head head.now) }
{
    head.kernel.is_none()
        && head.defines.is_empty()
        && head.sizes.is_none()
        && head.locals.is_empty()
}

/// The head of a text of conditions; one of another version has none.
fn head_in<'a>(alloc: Global, text: &'a [u8]) -> Result<Head<'a>, LaunchTextError>
    ensures { conditions.Gives texts.head result (kernels.head_in text.now) }
{
    if text.starts_with(b"conditions 3\n") {
        return head_of(alloc, text);
    }
    Ok(Head {
        kernel: None,
        defines: Vec::new(alloc),
        sizes: None,
        locals: Vec::new(alloc),
    })
}

/// Reads the bytes as OpenCL C, with this head.
fn read_opencl(alloc: Global, head: &Head<'_>, text: Source<'_>) -> Result<Typed, KernelError>
    ensures { Gives result (kernels.of_opencl (kernels.as_opencl (texts.head head.now) (source text.entry))) }
{
    match opencl_reading::read(alloc, text.reading.devices, head, text.bytes) {
        Ok(typed) => Ok(typed),
        Err(error) => Err(KernelError::OpenCl(error)),
    }
}

/// Reads a text that is no plain one: as OpenCL C, where that is allowed and the error was a fault of the text, and
/// else the error stays.
fn read_other(
    alloc: Global,
    head: &Head<'_>,
    text: Source<'_>,
    error: reading::KernelError,
) -> Result<Typed, KernelError>
    requires silent { kernels.is_silent (texts.head head.now) ≡ true }
    requires refused { plain_answers.Refuses error (plain.read (kernels.as_plain (source text))) }
    ensures { Gives result (kernels.read_with (texts.head head.now) (source text.entry)) }
{
    match text.reading.language {
        Language::Plain => Err(KernelError::Plain(error)),
        Language::OpenCl => {
            if is_fault(&error) {
                read_opencl(alloc, head, text)
            } else {
                Err(KernelError::Plain(error))
            }
        }
    }
}

/// Reads a text without a head, first as a plain one.
fn read_alone(alloc: Global, head: &Head<'_>, text: Source<'_>) -> Result<Typed, KernelError>
    requires { kernels.is_silent (texts.head head.now) ≡ true }
    ensures { Gives result (kernels.read_with (texts.head head.now) (source text.entry)) }
{
    match plain_tree(alloc, text) {
        Ok(found) => Ok(found.typed),
        Err(error) => read_other(alloc, head, text, error),
    }
}

/// Reads a text with a head, as OpenCL C alone, since the plain language has no head.
fn read_headed(alloc: Global, head: &Head<'_>, text: Source<'_>) -> Result<Typed, KernelError>
    requires { kernels.is_silent (texts.head head.now) ≡ false }
    ensures { Gives result (kernels.read_with (texts.head head.now) (source text.entry)) }
{
    match text.reading.language {
        Language::Plain => Err(KernelError::Headed),
        Language::OpenCl => read_opencl(alloc, head, text),
    }
}

/// Reads a text with a head that may be empty.
fn read_with(alloc: Global, head: &Head<'_>, text: Source<'_>) -> Result<Typed, KernelError>
    ensures { Gives result (kernels.read_with (texts.head head.now) (source text.entry)) }
{
    if is_silent(head) {
        read_alone(alloc, head, text)
    } else {
        read_headed(alloc, head, text)
    }
}

/// The kernel of a text, typed, or its first fault with its place (of the plain language numbers 1 to 5, 10 to 12, 20
/// to 28). A fault of the head of the conditions comes first.
pub fn read_source(alloc: Global, text: Source<'_>) -> Result<Typed, KernelError>
    ensures { Gives result (read (source text.entry)) }
{
    match head_in(alloc, text.conditions) {
        Ok(head) => read_with(alloc, &head, text),
        Err(error) => Err(KernelError::Head(error)),
    }
}

/// The kernel of a plain text that is read for the devices with 32 address bits.
pub fn read_kernel(alloc: Global, bytes: &[u8]) -> Result<Typed, KernelError>
    ensures { Gives result (read (text_for kernels.narrow bytes.now)) }
{
    read_source(alloc, narrow(bytes))
}
