//! Section: Program. Promises exactly what the parameters of a kernel's text ask of a host's arguments; stands on `kernel_reading` and
//! `host_launches`.
//!
//! What a host's arguments have to be for the parameters of a kernel, by the types in its text. OpenCL C is read once more, as
//! `opencl_reading` reads it, up to the kernel that is chosen.
#![tactic(auto)]

ghost use Rattle.std.specs.Prelude.{◌≡◌, true, false, IfOk};
ghost use Rattle.launch_text.specs.Answers as conditions;
ghost use Rattle.launch_text.specs.View as texts;
ghost use Rattle.reading.specs.Answers as plain_answers;
ghost use Rattle.reading.specs.Kernels as plain;
ghost use Rattle.kernel_reading.specs.Kernels as kernels;
ghost use Rattle.kernel_reading.specs.Sources.{source};
ghost use Rattle.host_shapes.specs.Meant.{all_meant};
ghost use Rattle.host_shapes.specs.Shapes as rules;
ghost use Rattle.host_shapes.specs.Shapes.{shapes_of};

mod opencl;
mod parameters;
mod plain_texts;

use host_launches::Shape;
use kernel_reading::{Language, Source};
use launch_text::error::LaunchTextError;
use launch_text::head::{Head, head_of};
use lexer::TextError;
use parser::error::ParseError;
use reading::KernelError;
use std::alloc::{AllocError, Global};
use types::error::TypeError;
use types::typed::TypedTree;

/// Whether a head says nothing.
fn is_silent(head: &Head<'_>) -> bool
    ensures { result ≡ kernels.is_silent (texts.head head.now) }
{
    head.kernel.is_none()
        && head.defines.is_empty()
        && head.sizes.is_none()
        && head.locals.is_empty()
}

fn in_language(
    alloc: Global,
    head: &Head<'_>,
    text: Source<'_>,
) -> Result<Option<Vec<Shape>>, AllocError>
    ensures { IfOk result (λ s. all_meant s ≡ rules.in_language (source text.entry).reading.language (texts.head head.now) (source text.entry)) }
{
    match text.reading.language {
        Language::Plain => Ok(None),
        Language::OpenCl => opencl::shapes_of(alloc, head, text.bytes),
    }
}

/// The tree of a plain text.
fn plain_tree(alloc: Global, text: Source<'_>) -> Result<TypedTree, KernelError>
    ensures { plain_answers.Gives result (plain.read (kernels.as_plain (source text.entry))) }
{
    let plain = reading::Source {
        devices: text.reading.devices,
        bytes: text.bytes,
    };
    reading::read_source(alloc, plain)
}

fn or_opencl(
    alloc: Global,
    head: &Head<'_>,
    text: Source<'_>,
) -> Result<Option<Vec<Shape>>, AllocError>
    ensures { IfOk result (λ s. all_meant s ≡ rules.or_opencl (plain.read (kernels.as_plain (source text.entry))) (texts.head head.now) (source text.entry)) }
{
    match plain_tree(alloc, text) {
        Ok(found) => plain_texts::shapes_in(alloc, &found.typed.names().parameters),
        Err(KernelError::Text(TextError::Memory)) => Err(AllocError),
        Err(KernelError::Tree(ParseError::Memory)) => Err(AllocError),
        Err(KernelError::Types(TypeError::Memory)) => Err(AllocError),
        Err(KernelError::Text(TextError::At { .. })) => in_language(alloc, head, text),
        Err(KernelError::Tree(ParseError::At { .. })) => in_language(alloc, head, text),
        Err(KernelError::Types(TypeError::At { .. })) => in_language(alloc, head, text),
    }
}

fn with_head(
    alloc: Global,
    head: &Head<'_>,
    text: Source<'_>,
) -> Result<Option<Vec<Shape>>, AllocError>
    ensures { IfOk result (λ s. all_meant s ≡ rules.with_head (texts.head head.now) (source text.entry)) }
{
    if is_silent(head) {
        or_opencl(alloc, head, text)
    } else {
        in_language(alloc, head, text)
    }
}

/// The head of a text of conditions; one of another version has none.
fn head_in<'a>(alloc: Global, text: &'a [u8]) -> Result<Head<'a>, LaunchTextError>
    ensures { conditions.Gives texts.head result (kernels.head_in text.now) }
{
    if text.starts_with(b"conditions 3\n") {
        return head_of(alloc, text);
    }
    Ok(Head {
        kernel: None,
        defines: Vec::new(alloc),
        sizes: None,
        locals: Vec::new(alloc),
    })
}

/// What the parameters of a kernel's text ask; nothing where the text is no kernel's, or has a type whose size is the device's own.
#[tactic(auto, unfolding(crate::specs::Shapes::shapes_of))]
pub fn shapes_of(alloc: Global, text: Source<'_>) -> Result<Option<Vec<Shape>>, AllocError>
    ensures { IfOk result (λ s. all_meant s ≡ shapes_of (source text.entry)) }
{
    match head_in(alloc, text.conditions) {
        Ok(head) => with_head(alloc, &head, text),
        Err(LaunchTextError::Refused { .. }) => Ok(None),
        Err(LaunchTextError::Memory) => Err(AllocError),
    }
}
