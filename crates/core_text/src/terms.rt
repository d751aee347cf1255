//! The text of terms.

use crate::naming::Shown;
use crate::signs::{
    direction_sign, function_name, kind_word, number_end, operator_sign, prefix_sign, relation_sign,
};
use core_code::tree::{Array, Term, UnaryOperator};
use std::alloc::AllocError;
use words::Kind;

/// Whether a term is in parentheses where it is an operand.
fn is_compound(of: &Term) -> bool {
    match of {
        Term::Literal { .. }
        | Term::Variable { .. }
        | Term::Id { .. }
        | Term::Load { .. }
        | Term::Minimum { .. }
        | Term::Maximum { .. }
        | Term::Within { .. }
        | Term::Opaque { .. } => false,
        Term::Unary { .. }
        | Term::Binary { .. }
        | Term::Convert { .. }
        | Term::Compare { .. }
        | Term::Not { .. }
        | Term::And { .. }
        | Term::Or { .. }
        | Term::Select { .. }
        | Term::Shift { .. } => true,
    }
}

/// Whether a term is what stands for an operand that is not there.
fn is_nothing(of: &Term) -> bool {
    match of {
        Term::Literal {
            kind: Kind::Uint,
            value,
        } => *value == 0,
        _ => false,
    }
}

fn push_number(out: &mut String, kind: Kind, value: u32) -> Result<(), AllocError> {
    let end = number_end(kind);
    write!(out, "{value}{end}")
}

/// Writes what stands behind the operand of a shift by a number.
fn push_shift(out: &mut String, operator: UnaryOperator) -> Result<(), AllocError> {
    match operator {
        UnaryOperator::Negate | UnaryOperator::Complement => Ok(()),
        UnaryOperator::ShiftLeft(count) => write!(out, " << {count}"),
        UnaryOperator::ShiftRight(count) => write!(out, " >> {count}"),
    }
}

/// Writes what stands in front of the operands of an operation that is not reckoned.
fn push_operation(
    out: &mut String,
    operation: u32,
    place: u32,
    kind: Kind,
) -> Result<(), AllocError> {
    let kind = kind_word(kind);
    write!(out, "opaque({kind} {operation} @{place}, ")
}

/// Writes a term, in parentheses where it is made of operands.
#[cycle(terms)]
fn push_operand(out: &mut String, shown: &Shown, of: &Term) -> Result<(), AllocError> {
    if !is_compound(of) {
        return push_term(out, shown, of);
    }
    out.push_str("(")?;
    push_term(out, shown, of)?;
    out.push_str(")")
}

/// Writes a term behind a comma.
#[cycle(terms)]
fn push_next(out: &mut String, shown: &Shown, of: &Term) -> Result<(), AllocError> {
    out.push_str(", ")?;
    push_term(out, shown, of)
}

/// Writes an element of an array.
#[cycle(terms)]
pub fn push_element(
    out: &mut String,
    shown: &Shown,
    array: Array,
    index: &Term,
) -> Result<(), AllocError> {
    out.push_str(shown.array(array))?;
    out.push_str("[")?;
    push_term(out, shown, index)?;
    out.push_str("]")
}

/// Writes a term, without parentheses round it.
#[cycle(terms)]
pub fn push_term(out: &mut String, shown: &Shown, of: &Term) -> Result<(), AllocError> {
    match of {
        Term::Literal { kind, value } => push_number(out, *kind, *value),
        Term::Variable { slot } => out.push_str(shown.slot(*slot)),
        Term::Id {
            function,
            dimension,
            ..
        } => {
            let name = function_name(*function);
            write!(out, "{name}({dimension})")
        }
        Term::Load { array, index, .. } => push_element(out, shown, *array, index),
        Term::Unary { operator, of, .. } => {
            out.push_str(prefix_sign(*operator))?;
            push_operand(out, shown, of)?;
            push_shift(out, *operator)
        }
        Term::Binary {
            operator,
            left,
            right,
            ..
        } => {
            push_operand(out, shown, left)?;
            let sign = operator_sign(*operator);
            write!(out, " {sign} ")?;
            push_operand(out, shown, right)
        }
        Term::Convert { kind, of, .. } => {
            let kind = kind_word(*kind);
            write!(out, "({kind})")?;
            push_operand(out, shown, of)
        }
        Term::Compare {
            relation,
            left,
            right,
            ..
        } => {
            push_operand(out, shown, left)?;
            let sign = relation_sign(*relation);
            write!(out, " {sign} ")?;
            push_operand(out, shown, right)
        }
        Term::Not { of } => {
            out.push_str("!")?;
            push_operand(out, shown, of)
        }
        Term::And { left, right } => {
            push_operand(out, shown, left)?;
            out.push_str(" && ")?;
            push_operand(out, shown, right)
        }
        Term::Or { left, right } => {
            push_operand(out, shown, left)?;
            out.push_str(" || ")?;
            push_operand(out, shown, right)
        }
        Term::Select {
            test,
            taken,
            skipped,
        } => {
            push_operand(out, shown, test)?;
            out.push_str(" ? ")?;
            push_operand(out, shown, taken)?;
            out.push_str(" : ")?;
            push_operand(out, shown, skipped)
        }
        Term::Minimum { left, right } => {
            out.push_str("min(")?;
            push_term(out, shown, left)?;
            push_next(out, shown, right)?;
            out.push_str(")")
        }
        Term::Maximum { left, right } => {
            out.push_str("max(")?;
            push_term(out, shown, left)?;
            push_next(out, shown, right)?;
            out.push_str(")")
        }
        Term::Shift {
            direction,
            value,
            count,
            ..
        } => {
            push_operand(out, shown, value)?;
            let sign = direction_sign(*direction);
            write!(out, " {sign} ")?;
            push_operand(out, shown, count)
        }
        Term::Within { length, index, .. } => {
            out.push_str("within(")?;
            push_term(out, shown, index)?;
            write!(out, ", {length})")
        }
        Term::Opaque {
            operation,
            place,
            kind,
            first,
            second,
            third,
        } => {
            push_operation(out, *operation, *place, *kind)?;
            push_term(out, shown, first)?;
            let is_third = !is_nothing(third);
            if is_third || !is_nothing(second) {
                push_next(out, shown, second)?;
            }
            if is_third {
                push_next(out, shown, third)?;
            }
            out.push_str(")")
        }
    }
}
