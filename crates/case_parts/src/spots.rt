// Where the nodes of trees stand: of each statement its number and its site, then the sites of what it has, in the order of the source.

use core_code::tree::Site;
use lexer::Token;
use parser::parse;
use std::alloc::{AllocError, Global};
use syntax::tree::{Assignment, Declaration, Expr, First, Stmt};

/// The site of an expression, and then those of its operands.
fn push_expression(text: &mut String, e: &Expr) -> Result<(), AllocError> {
    push(text, e.site())?;
    match e {
        Expr::Number { .. } | Expr::Name { .. } => Ok(()),
        Expr::Element { index, .. } => push_expression(text, index),
        Expr::Prefix { of, .. } | Expr::Cast { of, .. } => push_expression(text, of),
        Expr::Call { arguments, .. } => {
            for argument in arguments {
                push_expression(text, argument)?;
            }
            Ok(())
        }
        Expr::Infix { left, right, .. } => {
            push_expression(text, left)?;
            push_expression(text, right)
        }
        Expr::Conditional {
            test,
            taken,
            skipped,
            ..
        } => {
            push_expression(text, test)?;
            push_expression(text, taken)?;
            push_expression(text, skipped)
        }
    }
}

fn push(text: &mut String, site: Site) -> Result<(), AllocError> {
    write!(text, " {}:{}", site.line, site.column)
}

/// Writes a declaration's number, the sites of its kind and its name, and those of its value.
fn push_declaration(text: &mut String, d: &Declaration) -> Result<(), AllocError> {
    write!(text, " {}", d.number)?;
    push(text, d.site)?;
    push(text, d.name_site)?;
    push_expression(text, &d.value)
}

/// Writes an assignment's number, the sites of its target, its index and its sign, and those of its value.
fn push_assignment(text: &mut String, a: &Assignment) -> Result<(), AllocError> {
    write!(text, " {}", a.number)?;
    push(text, a.site)?;
    if let Some(index) = &a.index {
        push_expression(text, index)?;
    }
    push(text, a.sign_site)?;
    push_expression(text, &a.value)
}

#[cycle(spots)]
fn push_statements(text: &mut String, body: &[Stmt]) -> Result<(), AllocError> {
    text.push_str(" {")?;
    for s in body {
        push_statement(text, s)?;
    }
    text.push_str(" }")
}

#[cycle(spots)]
fn push_statement(text: &mut String, s: &Stmt) -> Result<(), AllocError> {
    match s {
        Stmt::Declare(d) => return push_declaration(text, d),
        Stmt::Assign(a) => return push_assignment(text, a),
        _ => {}
    }
    write!(text, " {}", s.number())?;
    push(text, s.site())?;
    match s {
        Stmt::Declare(_) | Stmt::Assign(_) | Stmt::Jump { .. } => Ok(()),
        Stmt::DeclareArray { name_site, .. } => push(text, *name_site),
        Stmt::If {
            test,
            taken,
            skipped,
            ..
        } => {
            push_expression(text, test)?;
            push_statements(text, taken)?;
            push_statements(text, skipped)
        }
        Stmt::While { test, body, .. } => {
            push_expression(text, test)?;
            push_statements(text, body)
        }
        Stmt::For {
            first,
            test,
            update,
            body,
            ..
        } => {
            push_first(text, first)?;
            push_expression(text, test)?;
            push_assignment(text, update)?;
            push_statements(text, body)
        }
        Stmt::Barrier { flags, .. } => push_expression(text, flags),
        Stmt::Block { body, .. } => push_statements(text, body),
    }
}

fn push_first(text: &mut String, first: &First) -> Result<(), AllocError> {
    match first {
        First::Declares(d) => push_declaration(text, d),
        First::Assigns(a) => push_assignment(text, a),
    }
}

/// Writes where each node stands in the body of the tree that tokens are, or how many statements stand there, or the refusal.
pub fn push_parsed(
    alloc: Global,
    out: &mut String,
    tokens: &[Token<'_>],
    is_counted: bool,
) -> Result<(), AllocError> {
    match parse(alloc, tokens) {
        Ok(kernel) if is_counted => writeln!(out, "{}", kernel.body.len()),
        Ok(kernel) => {
            push_statements(out, kernel.body.as_slice())?;
            out.push_str("\n")
        }
        Err(error) => writeln!(out, "refused {error}"),
    }
}
