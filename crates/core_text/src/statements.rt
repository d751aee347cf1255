//! The text of statements.

use crate::naming::Shown;
use crate::terms::{push_element, push_term};
use core_code::tree::{Array, Statement, Term};
use std::alloc::{AllocError, Global};

/// Writes `x = E;`.
fn push_set(
    out: &mut String,
    shown: &Shown,
    pad: &str,
    slot: u32,
    value: &Term,
) -> Result<(), AllocError> {
    let name = shown.slot(slot);
    write!(out, "{pad}{name} = ")?;
    push_term(out, shown, value)?;
    out.push_str(";\n")
}

/// Writes `x[E] = E;`.
fn push_store(
    out: &mut String,
    shown: &Shown,
    array: Array,
    index: &Term,
    value: &Term,
) -> Result<(), AllocError> {
    push_element(out, shown, array, index)?;
    out.push_str(" = ")?;
    push_term(out, shown, value)?;
    out.push_str(";\n")
}

/// The flags of a barrier.
fn flags(local: bool, global: bool) -> &'static str {
    match (local, global) {
        (true, true) => "CLK_LOCAL_MEM_FENCE | CLK_GLOBAL_MEM_FENCE",
        (true, false) => "CLK_LOCAL_MEM_FENCE",
        (false, true) => "CLK_GLOBAL_MEM_FENCE",
        (false, false) => "0",
    }
}

/// Writes a jump; the number of its loop stands behind it where that has its number in front.
fn push_jump(
    out: &mut String,
    shown: &Shown,
    pad: &str,
    word: &str,
    of: u32,
) -> Result<(), AllocError> {
    if shown.is_far(of) {
        writeln!(out, "{pad}{word} {of};")
    } else {
        writeln!(out, "{pad}{word};")
    }
}

/// Writes the head of an `if`.
fn push_if(out: &mut String, shown: &Shown, pad: &str, test: &Term) -> Result<(), AllocError> {
    write!(out, "{pad}if (")?;
    push_term(out, shown, test)?;
    out.push_str(") {\n")
}

/// Writes the head of a loop, behind its number where a jump names that.
fn push_loop(
    out: &mut String,
    shown: &Shown,
    pad: &str,
    number: u32,
    test: &Term,
) -> Result<(), AllocError> {
    out.push_str(pad)?;
    if shown.is_far(number) {
        write!(out, "{number}: ")?;
    }
    out.push_str("while (")?;
    push_term(out, shown, test)?;
    out.push_str(") {\n")
}

/// Writes statements behind a word, one level deeper than `pad`, where there are any.
#[cycle(statement)]
fn push_part(
    alloc: Global,
    out: &mut String,
    shown: &Shown,
    pad: &str,
    word: &str,
    body: &[Statement],
) -> Result<(), AllocError> {
    if body.is_empty() {
        return Ok(());
    }
    writeln!(out, "{pad}}} {word} {{")?;
    push_body(alloc, out, shown, pad, body)
}

/// Writes statements one level deeper than `pad`.
#[cycle(statement)]
fn push_body(
    alloc: Global,
    out: &mut String,
    shown: &Shown,
    pad: &str,
    body: &[Statement],
) -> Result<(), AllocError> {
    let inner = format!(in alloc; "{pad}  ")?;
    push_statements(alloc, out, shown, inner.as_str(), body)
}

/// Writes statements in order, each line behind `pad`.
#[cycle(statement)]
pub fn push_statements(
    alloc: Global,
    out: &mut String,
    shown: &Shown,
    pad: &str,
    body: &[Statement],
) -> Result<(), AllocError> {
    for statement in body {
        push_statement(alloc, out, shown, pad, statement)?;
    }
    Ok(())
}

#[cycle(statement)]
fn push_statement(
    alloc: Global,
    out: &mut String,
    shown: &Shown,
    pad: &str,
    statement: &Statement,
) -> Result<(), AllocError> {
    match statement {
        Statement::Set { slot, value, .. } => push_set(out, shown, pad, *slot, value),
        Statement::Store {
            array,
            index,
            value,
            ..
        } => {
            out.push_str(pad)?;
            push_store(out, shown, *array, index, value)
        }
        Statement::If {
            test,
            taken,
            skipped,
            ..
        } => {
            push_if(out, shown, pad, test)?;
            push_body(alloc, out, shown, pad, taken.as_slice())?;
            push_part(alloc, out, shown, pad, "else", skipped.as_slice())?;
            writeln!(out, "{pad}}}")
        }
        Statement::Loop {
            number,
            test,
            body,
            update,
        } => {
            push_loop(out, shown, pad, *number, test)?;
            push_body(alloc, out, shown, pad, body.as_slice())?;
            push_part(alloc, out, shown, pad, "next", update.as_slice())?;
            writeln!(out, "{pad}}}")
        }
        Statement::Barrier { local, global, .. } => {
            let flags = flags(*local, *global);
            writeln!(out, "{pad}barrier({flags});")
        }
        Statement::Return { .. } => writeln!(out, "{pad}return;"),
        Statement::Break { of, .. } => push_jump(out, shown, pad, "break", *of),
        Statement::Continue { of, .. } => push_jump(out, shown, pad, "continue", *of),
    }
}
