//! Writes terms of the core as texts for the tests.

use core_code::tree::{Array, Direction, Function, Operator, Relation, Space, Term, UnaryOperator};
use std::alloc::AllocError;
use words::Kind;

fn operator_word(operator: Operator) -> &'static str {
    match operator {
        Operator::Add => "+",
        Operator::Subtract => "-",
        Operator::Multiply => "*",
        Operator::Divide => "/",
        Operator::Remainder => "%",
        Operator::BitAnd => "&",
        Operator::BitOr => "|",
        Operator::BitXor => "^",
    }
}

fn relation_word(relation: Relation) -> &'static str {
    match relation {
        Relation::Less => "<",
        Relation::AtMost => "<=",
        Relation::More => ">",
        Relation::AtLeast => ">=",
        Relation::Equal => "==",
        Relation::Unequal => "!=",
    }
}

fn unary_word(operator: UnaryOperator) -> &'static str {
    match operator {
        UnaryOperator::Negate => "-",
        UnaryOperator::Complement => "~",
        UnaryOperator::ShiftLeft(_) => "<<",
        UnaryOperator::ShiftRight(_) => ">>",
    }
}

fn direction_word(direction: Direction) -> &'static str {
    match direction {
        Direction::Leftward => "shl",
        Direction::Rightward => "shr",
    }
}

fn function_word(function: Function) -> &'static str {
    match function {
        Function::GlobalId => "global_id",
        Function::LocalId => "local_id",
        Function::GroupId => "group_id",
        Function::GlobalSize => "global_size",
        Function::LocalSize => "local_size",
        Function::NumGroups => "num_groups",
    }
}

pub fn push_array(out: &mut String, array: Array) -> Result<(), AllocError> {
    let number = array.number;
    match array.space {
        Space::Global => write!(out, "g{number}"),
        Space::Local => write!(out, "l{number}"),
    }
}

// What stands for an operand that there is not.
fn is_nothing(term: &Term) -> bool {
    matches!(
        term,
        Term::Literal {
            kind: Kind::Uint,
            value: 0
        }
    )
}

/// A term in parentheses: its sign, its kind, its operands. No sites are shown, and no place of an operation.
pub fn push_term(out: &mut String, term: &Term) -> Result<(), AllocError> {
    match term {
        Term::Literal { kind, value } => write!(out, "{kind:?}:{value}"),
        Term::Variable { slot } => write!(out, "v{slot}"),
        Term::Unary {
            operator,
            kind,
            of,
            ..
        } => {
            let word = unary_word(*operator);
            write!(out, "({word} {kind:?}")?;
            out.push_str(" ")?;
            push_term(out, of)?;
            out.push_str(")")
        }
        Term::Binary {
            operator,
            kind,
            left,
            right,
            ..
        } => {
            let word = operator_word(*operator);
            write!(out, "({word} {kind:?}")?;
            out.push_str(" ")?;
            push_term(out, left)?;
            out.push_str(" ")?;
            push_term(out, right)?;
            out.push_str(")")
        }
        Term::Convert { kind, of, .. } => {
            write!(out, "(to {kind:?}")?;
            out.push_str(" ")?;
            push_term(out, of)?;
            out.push_str(")")
        }
        Term::Compare {
            relation,
            kind,
            left,
            right,
        } => {
            let word = relation_word(*relation);
            write!(out, "({word} {kind:?}")?;
            out.push_str(" ")?;
            push_term(out, left)?;
            out.push_str(" ")?;
            push_term(out, right)?;
            out.push_str(")")
        }
        Term::Not { of } => {
            out.push_str("(!")?;
            out.push_str(" ")?;
            push_term(out, of)?;
            out.push_str(")")
        }
        Term::And { left, right } => {
            out.push_str("(&&")?;
            out.push_str(" ")?;
            push_term(out, left)?;
            out.push_str(" ")?;
            push_term(out, right)?;
            out.push_str(")")
        }
        Term::Or { left, right } => {
            out.push_str("(||")?;
            out.push_str(" ")?;
            push_term(out, left)?;
            out.push_str(" ")?;
            push_term(out, right)?;
            out.push_str(")")
        }
        Term::Shift {
            direction,
            kind,
            value,
            count,
        } => {
            let word = direction_word(*direction);
            write!(out, "({word} {kind:?}")?;
            out.push_str(" ")?;
            push_term(out, value)?;
            out.push_str(" ")?;
            push_term(out, count)?;
            out.push_str(")")
        }
        Term::Opaque {
            operation,
            kind,
            first,
            second,
            third,
            ..
        } => {
            write!(out, "(opaque{operation} {kind:?}")?;
            out.push_str(" ")?;
            push_term(out, first)?;
            out.push_str(" ")?;
            push_term(out, second)?;
            if !is_nothing(third) {
                out.push_str(" ")?;
                push_term(out, third)?;
            }
            out.push_str(")")
        }
        Term::Id {
            function,
            dimension,
            ..
        } => {
            let word = function_word(*function);
            write!(out, "({word} {dimension})")
        }
        Term::Load { array, index, .. } => {
            out.push_str("(load ")?;
            push_array(out, *array)?;
            out.push_str(" ")?;
            push_term(out, index)?;
            out.push_str(")")
        }
        Term::Select {
            test,
            taken,
            skipped,
        } => {
            out.push_str("(? ")?;
            push_term(out, test)?;
            out.push_str(" ")?;
            push_term(out, taken)?;
            out.push_str(" ")?;
            push_term(out, skipped)?;
            out.push_str(")")
        }
        Term::Minimum { left, right } => {
            out.push_str("(min ")?;
            push_term(out, left)?;
            out.push_str(" ")?;
            push_term(out, right)?;
            out.push_str(")")
        }
        Term::Maximum { left, right } => {
            out.push_str("(max ")?;
            push_term(out, left)?;
            out.push_str(" ")?;
            push_term(out, right)?;
            out.push_str(")")
        }
        Term::Within { length, index, .. } => {
            write!(out, "(within {length} ")?;
            push_term(out, index)?;
            out.push_str(")")
        }
    }
}
