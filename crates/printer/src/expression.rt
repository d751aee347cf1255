//! The text of expressions.

ghost use Rattle.std.specs.Prelude.{◌≡◌, ◌++◌, [], OnOk};
ghost use Rattle.std.specs.String.{string_bytes};
ghost use Rattle.texts.specs.Canonical as text;
ghost use Rattle.syntax.specs.View.{expression, expressions};

use crate::sign::{push_infix, push_kind, push_number, push_prefix};
use std::alloc::AllocError;
use syntax::tree::Expr;

fn is_compound(e: &Expr) -> bool
    ensures { result ≡ text.is_compound (expression e.now) }
{
    match e {
        Expr::Number { .. } | Expr::Name { .. } | Expr::Element { .. } | Expr::Call { .. } => false,
        Expr::Prefix { .. } | Expr::Cast { .. } | Expr::Infix { .. } | Expr::Conditional { .. } =>
            true,
    }
}

#[cycle(expression)]
fn push_operand(out: &mut String, e: &Expr) -> Result<(), AllocError>
    ensures { OnOk result (string_bytes out.new ≡ string_bytes out.old ++ text.parenthesised (text.is_compound (expression e.now)) (text.expression_text (expression e.now))) }
{
    if !is_compound(e) {
        return push_expression(out, e);
    }
    out.push_str("(")?;
    push_expression(out, e)?;
    out.push_str(")")
}

#[cycle(expression)]
#[tactic(auto, using(crate::proofs::Texts::one_argument, crate::proofs::Texts::no_argument))]
fn push_arguments(out: &mut String, arguments: &[Expr]) -> Result<(), AllocError>
    ensures { OnOk result (string_bytes out.new ≡ string_bytes out.old ++ text.arguments_text [] (expressions arguments.now)) }
{
    let mut before = "";
    for argument in arguments {
        out.push_str(before)?;
        push_expression(out, argument)?;
        before = ", ";
    }
    Ok(())
}

/// Writes an expression, without parentheses round it.
#[cycle(expression)]
#[tactic(auto, using(syntax::proofs::Rows::seen_call))]
pub fn push_expression(out: &mut String, e: &Expr) -> Result<(), AllocError>
    ensures { OnOk result (string_bytes out.new ≡ string_bytes out.old ++ text.expression_text (expression e.now)) }
{
    match e {
        Expr::Number { kind, value, .. } => push_number(out, *kind, *value),
        Expr::Name { name, .. } => out.push_str(name.as_str()),
        Expr::Element { name, index, .. } => {
            write!(out, "{name}[")?;
            push_expression(out, index)?;
            out.push_str("]")
        }
        Expr::Call {
            name,
            arguments,
            ..
        } => {
            write!(out, "{name}(")?;
            push_arguments(out, arguments.as_slice())?;
            out.push_str(")")
        }
        Expr::Prefix { sign, of, .. } => {
            push_prefix(out, *sign)?;
            push_operand(out, of)
        }
        Expr::Cast { kind, of, .. } => {
            out.push_str("(")?;
            push_kind(out, *kind)?;
            out.push_str(")")?;
            push_operand(out, of)
        }
        Expr::Infix {
            sign,
            left,
            right,
            ..
        } => {
            push_operand(out, left)?;
            out.push_str(" ")?;
            push_infix(out, *sign)?;
            out.push_str(" ")?;
            push_operand(out, right)
        }
        Expr::Conditional {
            test,
            taken,
            skipped,
            ..
        } => {
            push_operand(out, test)?;
            out.push_str(" ? ")?;
            push_operand(out, taken)?;
            out.push_str(" : ")?;
            push_operand(out, skipped)
        }
    }
}
