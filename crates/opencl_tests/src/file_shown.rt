//! Writes the kernel that is chosen of a file as a text for the tests.

use crate::statement_shown::{push_declaration, push_dimensions, push_maybe, push_statements};
use crate::type_shown::{push_base, push_qualifiers, push_stars};
use opencl_files::errors::{FileError, FileFault};
use opencl_files::files::chosen_kernel;
use opencl_files::tree::{Enumerator, Header, KernelText, Parameter};
use opencl_parser::stops::ParseFault;
use opencl_tokens::{Joined, Token, join, lexemes, tokens};
use std::alloc::{AllocError, Global};

/// The kernel of the wanted name, or the only one, or the fault.
pub fn kernel(alloc: Global, wanted: Option<&str>, text: &[u8]) -> Result<String, AllocError> {
    let mut out = String::new(alloc);
    match join(alloc, text) {
        Ok(lines) => push_joined(alloc, &mut out, wanted, &lines)?,
        Err(error) => write!(out, "{error}")?,
    }
    Ok(out)
}

fn push_joined(
    alloc: Global,
    out: &mut String,
    wanted: Option<&str>,
    lines: &Joined,
) -> Result<(), AllocError> {
    match tokens(alloc, lines) {
        Ok(all) => push_tokens(alloc, out, wanted, all.as_slice()),
        Err(error) => write!(out, "{error}"),
    }
}

fn push_tokens(
    alloc: Global,
    out: &mut String,
    wanted: Option<&str>,
    all: &[Token<'_>],
) -> Result<(), AllocError> {
    match lexemes(alloc, all) {
        Ok(all) => match chosen_kernel(alloc, wanted, all.as_slice()) {
            Ok(text) => push_text(out, &text),
            Err(error) => push_error(out, &error),
        },
        Err(error) => write!(out, "{error}"),
    }
}

fn push_error(out: &mut String, error: &FileError) -> Result<(), AllocError> {
    match error {
        FileError::At {
            fault: FileFault::Text(fault),
            ..
        } => push_fault(out, error, *fault),
        FileError::At { fault, .. } => write!(out, "{error} {fault:?}"),
        FileError::Memory => write!(out, "{error}"),
    }
}

fn push_fault(out: &mut String, error: &FileError, fault: ParseFault) -> Result<(), AllocError> {
    write!(out, "{error} {fault:?}")
}

fn push_text(out: &mut String, text: &KernelText) -> Result<(), AllocError> {
    for alias in text.aliases.as_slice() {
        out.push_str("typedef ")?;
        push_declaration(out, alias)?;
        out.push_str(" ")?;
    }
    for list in text.enumerations.as_slice() {
        push_enumeration(out, list.as_slice())?;
    }
    push_header(out, &text.header)?;
    push_statements(out, text.body.as_slice())
}

fn push_enumeration(out: &mut String, list: &[Enumerator]) -> Result<(), AllocError> {
    out.push_str("enum")?;
    for constant in list {
        write!(
            out,
            " {}@{}:{}=",
            constant.name, constant.site.line, constant.site.column
        )?;
        push_maybe(out, &constant.value)?;
    }
    out.push_str("; ")
}

fn push_header(out: &mut String, header: &Header) -> Result<(), AllocError> {
    if let Some(sizes) = header.sizes {
        let [x, y, z] = sizes;
        write!(out, "<{x},{y},{z}> ")?;
    }
    push_qualifiers(out, header.qualifiers)?;
    push_base(out, &header.base)?;
    out.push_str(" ")?;
    push_stars(out, header.stars.as_slice())?;
    write!(
        out,
        "{}@{}:{}(",
        header.name, header.site.line, header.site.column
    )?;
    for parameter in header.parameters.as_slice() {
        push_parameter(out, parameter)?;
    }
    out.push_str(")")
}

fn push_parameter(out: &mut String, parameter: &Parameter) -> Result<(), AllocError> {
    push_qualifiers(out, parameter.qualifiers)?;
    push_base(out, &parameter.base)?;
    out.push_str(" ")?;
    push_stars(out, parameter.stars.as_slice())?;
    match &parameter.name {
        Some(name) => out.push_str(name.as_str())?,
        None => out.push_str("-")?,
    }
    push_dimensions(out, parameter.dimensions.as_slice())?;
    out.push_str(";")
}
