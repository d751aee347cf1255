//! Writes expressions as texts for the tests: an operator stands in front of its operands, in parentheses.

use crate::tree_signs::{infix, operator, prefix, step};
use crate::type_shown::push_type;
use opencl_tree::tree::{Expr, Side};
use std::alloc::AllocError;
use syntax::tree::AssignSign;
use words::Kind;

fn push_name(out: &mut String, head: &str, name: &str) -> Result<(), AllocError> {
    out.push_str(head)?;
    out.push_str(name)
}

fn push_spelling(out: &mut String, bytes: &[u8]) -> Result<(), AllocError> {
    match str::from_utf8(bytes) {
        Ok(text) => out.push_str(text),
        Err(_) => out.push_str("no text"),
    }
}

fn push_integer(out: &mut String, kind: Kind, value: u32) -> Result<(), AllocError> {
    match kind {
        Kind::Uint => write!(out, "{value}u"),
        _ => write!(out, "{value}"),
    }
}

fn push_assign(out: &mut String, sign: AssignSign) -> Result<(), AllocError> {
    match sign {
        AssignSign::Plain => out.push_str("(= "),
        AssignSign::With(with) => write!(out, "({}= ", operator(with)),
        AssignSign::WithLeftShift => out.push_str("(<<= "),
        AssignSign::WithRightShift => out.push_str("(>>= "),
    }
}

#[cycle(expressions)]
pub fn push_expression(out: &mut String, tree: &Expr) -> Result<(), AllocError> {
    match tree {
        Expr::Integer { kind, value, .. } => push_integer(out, *kind, *value),
        Expr::Real { spelling, .. } => push_spelling(out, spelling.as_slice()),
        Expr::Name { name, .. } => out.push_str(name.as_str()),
        Expr::Call {
            name,
            arguments,
            ..
        } => {
            push_name(out, "(call ", name.as_str())?;
            push_row(out, arguments.as_slice())
        }
        Expr::Index { of, index, .. } => {
            out.push_str("([] ")?;
            push_expression(out, of)?;
            out.push_str(" ")?;
            push_last(out, index)
        }
        Expr::Member { of, name, .. } => {
            push_name(out, "(.", name.as_str())?;
            out.push_str(" ")?;
            push_last(out, of)
        }
        Expr::Prefix { sign, of, .. } => {
            push_name(out, "(", prefix(*sign))?;
            out.push_str(" ")?;
            push_last(out, of)
        }
        Expr::Step { side, sign, of, .. } => {
            push_name(out, "(", step(*sign))?;
            out.push_str(match side {
                Side::Before => "_ ",
                Side::Behind => " ",
            })?;
            push_last(out, of)
        }
        Expr::Cast { to, of, .. } => {
            out.push_str("(cast ")?;
            push_type(out, to)?;
            out.push_str(" ")?;
            push_last(out, of)
        }
        Expr::Vector { to, parts, .. } => {
            out.push_str("(vector ")?;
            push_type(out, to)?;
            push_row(out, parts.as_slice())
        }
        Expr::Infix {
            sign,
            left,
            right,
            ..
        } => {
            push_name(out, "(", infix(*sign))?;
            out.push_str(" ")?;
            push_expression(out, left)?;
            out.push_str(" ")?;
            push_last(out, right)
        }
        Expr::Conditional {
            test,
            taken,
            skipped,
            ..
        } => {
            out.push_str("(? ")?;
            push_expression(out, test)?;
            out.push_str(" ")?;
            push_expression(out, taken)?;
            out.push_str(" ")?;
            push_last(out, skipped)
        }
        Expr::Assign {
            sign,
            target,
            value,
            ..
        } => {
            push_assign(out, *sign)?;
            push_expression(out, target)?;
            out.push_str(" ")?;
            push_last(out, value)
        }
        Expr::Comma { first, second, .. } => {
            out.push_str("(, ")?;
            push_expression(out, first)?;
            out.push_str(" ")?;
            push_last(out, second)
        }
        Expr::SizeofType { of, .. } => {
            out.push_str("(sizeof type ")?;
            push_type(out, of)?;
            out.push_str(")")
        }
        Expr::SizeofOf { of, .. } => {
            out.push_str("(sizeof ")?;
            push_last(out, of)
        }
    }
}

#[cycle(expressions)]
fn push_last(out: &mut String, tree: &Expr) -> Result<(), AllocError> {
    push_expression(out, tree)?;
    out.push_str(")")
}

#[cycle(expressions)]
fn push_row(out: &mut String, row: &[Expr]) -> Result<(), AllocError> {
    for tree in row {
        out.push_str(" ")?;
        push_expression(out, tree)?;
    }
    out.push_str(")")
}
