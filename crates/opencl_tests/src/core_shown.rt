//! Writes cores, and the names that belong to them, as texts for the tests.

use crate::term_shown::{push_array, push_term};
use core_code::tree::{Core, Statement};
use kernel_names::{NameMap, Sort};
use std::alloc::AllocError;

#[cycle(statements)]
fn push_statement(out: &mut String, statement: &Statement) -> Result<(), AllocError> {
    let number = statement.number();
    write!(out, "{number}")?;
    match statement {
        Statement::Set { slot, value, .. } => {
            write!(out, "v{slot}=")?;
            push_term(out, value)?;
            out.push_str(";")
        }
        Statement::Store {
            array,
            index,
            value,
            ..
        } => {
            push_array(out, *array)?;
            out.push_str("[")?;
            push_term(out, index)?;
            out.push_str("]=")?;
            push_term(out, value)?;
            out.push_str(";")
        }
        Statement::If {
            test,
            taken,
            skipped,
            ..
        } => {
            out.push_str("if ")?;
            push_term(out, test)?;
            push_part(out, taken)?;
            push_part(out, skipped)
        }
        Statement::Loop {
            test,
            body,
            update,
            ..
        } => {
            out.push_str("loop ")?;
            push_term(out, test)?;
            push_part(out, body)?;
            push_part(out, update)
        }
        Statement::Barrier { local, global, .. } => write!(out, "barrier {local} {global};"),
        Statement::Return { .. } => out.push_str("return;"),
        Statement::Break { of, .. } => write!(out, "break {of};"),
        Statement::Continue { of, .. } => write!(out, "continue {of};"),
    }
}

#[cycle(statements)]
fn push_part(out: &mut String, part: &[Statement]) -> Result<(), AllocError> {
    out.push_str("{")?;
    push_all(out, part)?;
    out.push_str("}")
}

#[cycle(statements)]
fn push_all(out: &mut String, all: &[Statement]) -> Result<(), AllocError> {
    for statement in all {
        push_statement(out, statement)?;
    }
    Ok(())
}

/// The kinds of buffers, arguments and variables, the local arrays, and the body.
pub fn push_core(out: &mut String, core: &Core) -> Result<(), AllocError> {
    for kind in &core.buffers {
        write!(out, "buffer {kind:?} ")?;
    }
    for kind in &core.arguments {
        write!(out, "value {kind:?} ")?;
    }
    for array in &core.arrays {
        write!(out, "local {:?}[{}] ", array.kind, array.length)?;
    }
    for kind in &core.variables {
        write!(out, "{kind:?} ")?;
    }
    push_part(out, &core.body)
}

fn sort_letter(sort: Sort) -> &'static str {
    match sort {
        Sort::Turning => "t",
        Sort::Waiting => "w",
        Sort::Other => "",
    }
}

/// The variables with the numbers of the statements in which they are visible, the local arrays, and the statements with their last
/// numbers.
pub fn push_names(out: &mut String, names: &NameMap) -> Result<(), AllocError> {
    for variable in &names.variables {
        write!(
            out,
            "{} {}-{}, ",
            variable.name, variable.first, variable.last
        )?;
    }
    for array in &names.arrays {
        write!(out, "{}[], ", array.name)?;
    }
    for standing in &names.statements {
        let letter = sort_letter(standing.sort);
        write!(out, "{}{letter}", standing.number)?;
        if standing.last != standing.number {
            write!(out, "-{}", standing.last)?;
        }
        write!(out, "@{}:{} ", standing.site.line, standing.site.column)?;
    }
    Ok(())
}
