//! Writes statements, each with its number, as texts for the tests.

use crate::tree_shown::push_expression;
use crate::type_shown::{push_base, push_qualifiers, push_stars};
use opencl_tree::tree::{Declaration, Declarator, Expr, First, Initial, Stmt};
use std::alloc::AllocError;

pub fn push_maybe(out: &mut String, tree: &Option<Expr>) -> Result<(), AllocError> {
    match tree {
        None => out.push_str("-"),
        Some(tree) => push_expression(out, tree),
    }
}

#[cycle(initials)]
fn push_initial(out: &mut String, initial: &Initial) -> Result<(), AllocError> {
    match initial {
        Initial::Absent => Ok(()),
        Initial::Given(value) => {
            out.push_str("=")?;
            push_expression(out, value)
        }
        Initial::Listed { values, .. } => {
            out.push_str("{")?;
            push_initials(out, values.as_slice())
        }
    }
}

#[cycle(initials)]
fn push_initials(out: &mut String, values: &[Initial]) -> Result<(), AllocError> {
    for value in values {
        push_initial(out, value)?;
    }
    out.push_str("}")
}

fn push_declarator(out: &mut String, declarator: &Declarator) -> Result<(), AllocError> {
    out.push_str(" ")?;
    push_stars(out, declarator.stars.as_slice())?;
    out.push_str(declarator.name.as_str())?;
    push_dimensions(out, declarator.dimensions.as_slice())?;
    push_initial(out, &declarator.initial)
}

pub fn push_dimensions(out: &mut String, dimensions: &[Option<Expr>]) -> Result<(), AllocError> {
    for dimension in dimensions {
        out.push_str("[")?;
        push_maybe(out, dimension)?;
        out.push_str("]")?;
    }
    Ok(())
}

pub fn push_declaration(out: &mut String, declaration: &Declaration) -> Result<(), AllocError> {
    write!(out, "{}", declaration.number)?;
    out.push_str(" ")?;
    push_qualifiers(out, declaration.qualifiers)?;
    push_base(out, &declaration.base)?;
    push_declarators(out, declaration.declarators.as_slice())
}

fn push_declarators(out: &mut String, declarators: &[Declarator]) -> Result<(), AllocError> {
    for declarator in declarators {
        push_declarator(out, declarator)?;
    }
    out.push_str(";")
}

fn push_first(out: &mut String, first: &First) -> Result<(), AllocError> {
    match first {
        First::Absent => out.push_str("-"),
        First::Declares(declaration) => push_declaration(out, declaration),
        First::Evaluates(value) => push_expression(out, value),
    }
}

fn push_head(out: &mut String, number: u32, word: &str) -> Result<(), AllocError> {
    write!(out, "{number}{word} ")
}

#[cycle(statements)]
pub fn push_statements(out: &mut String, body: &[Stmt]) -> Result<(), AllocError> {
    out.push_str("{")?;
    for statement in body {
        push_statement(out, statement)?;
    }
    out.push_str("}")
}

#[cycle(statements)]
fn push_statement(out: &mut String, statement: &Stmt) -> Result<(), AllocError> {
    match statement {
        Stmt::Declare(declaration) => push_declaration(out, declaration),
        Stmt::Typedef(declaration) => {
            out.push_str("typedef ")?;
            push_declaration(out, declaration)
        }
        Stmt::Evaluate { number, value, .. } => {
            push_head(out, *number, "")?;
            push_expression(out, value)?;
            out.push_str(";")
        }
        Stmt::If {
            number,
            test,
            taken,
            skipped,
            ..
        } => {
            push_head(out, *number, "if")?;
            push_expression(out, test)?;
            push_statements(out, taken.as_slice())?;
            push_statements(out, skipped.as_slice())
        }
        Stmt::While {
            number,
            test,
            body,
            ..
        } => {
            push_head(out, *number, "while")?;
            push_expression(out, test)?;
            push_statements(out, body.as_slice())
        }
        Stmt::Do {
            number,
            body,
            test,
            ..
        } => {
            push_head(out, *number, "do")?;
            push_statements(out, body.as_slice())?;
            push_expression(out, test)
        }
        Stmt::For {
            number,
            first,
            test,
            update,
            body,
            ..
        } => {
            push_head(out, *number, "for")?;
            push_first(out, first)?;
            out.push_str(" ")?;
            push_maybe(out, test)?;
            out.push_str(" ")?;
            push_maybe(out, update)?;
            push_statements(out, body.as_slice())
        }
        Stmt::Switch {
            number,
            test,
            body,
            ..
        } => {
            push_head(out, *number, "switch")?;
            push_expression(out, test)?;
            push_statements(out, body.as_slice())
        }
        Stmt::Case { number, value, .. } => {
            push_head(out, *number, "case")?;
            push_expression(out, value)?;
            out.push_str(":")
        }
        Stmt::Default { number, .. } => push_head(out, *number, "default"),
        Stmt::Break { number, .. } => push_head(out, *number, "break"),
        Stmt::Continue { number, .. } => push_head(out, *number, "continue"),
        Stmt::Return { number, value, .. } => {
            push_head(out, *number, "return")?;
            push_maybe(out, value)
        }
        Stmt::Block { number, body, .. } => {
            push_head(out, *number, "")?;
            push_statements(out, body.as_slice())
        }
        Stmt::Empty { number, .. } => push_head(out, *number, ";"),
    }
}
