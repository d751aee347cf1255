//! How signs, kinds and functions are spelt.

use core_code::tree::{Direction, Function, Operator, Relation, UnaryOperator};
use words::Kind;

/// The word for a kind.
pub fn kind_word(kind: Kind) -> &'static str {
    match kind {
        Kind::Int => "int",
        Kind::Uint => "uint",
        Kind::Size => "size_t",
    }
}

/// What stands behind a number of a kind.
pub fn number_end(kind: Kind) -> &'static str {
    match kind {
        Kind::Int => "",
        Kind::Uint => "u",
        Kind::Size => "z",
    }
}

pub fn operator_sign(operator: Operator) -> &'static str {
    match operator {
        Operator::Add => "+",
        Operator::Subtract => "-",
        Operator::Multiply => "*",
        Operator::Divide => "/",
        Operator::Remainder => "%",
        Operator::BitAnd => "&",
        Operator::BitOr => "|",
        Operator::BitXor => "^",
    }
}

pub fn relation_sign(relation: Relation) -> &'static str {
    match relation {
        Relation::Less => "<",
        Relation::AtMost => "<=",
        Relation::More => ">",
        Relation::AtLeast => ">=",
        Relation::Equal => "==",
        Relation::Unequal => "!=",
    }
}

pub fn direction_sign(direction: Direction) -> &'static str {
    match direction {
        Direction::Leftward => "<<",
        Direction::Rightward => ">>",
    }
}

/// What stands in front of the operand of an operator that is no shift.
pub fn prefix_sign(operator: UnaryOperator) -> &'static str {
    match operator {
        UnaryOperator::Negate => "-",
        UnaryOperator::Complement => "~",
        UnaryOperator::ShiftLeft(_) | UnaryOperator::ShiftRight(_) => "",
    }
}

/// The name of a work-item function.
pub fn function_name(function: Function) -> &'static str {
    match function {
        Function::GlobalId => "get_global_id",
        Function::LocalId => "get_local_id",
        Function::GroupId => "get_group_id",
        Function::GlobalSize => "get_global_size",
        Function::LocalSize => "get_local_size",
        Function::NumGroups => "get_num_groups",
    }
}
