//! Writes the signs of operators for the tests.

use core_code::tree::{Operator, Relation};
use opencl_tree::tree::{PrefixSign, StepSign};
use syntax::tree::InfixSign;

pub fn prefix(sign: PrefixSign) -> &'static str {
    match sign {
        PrefixSign::Minus => "-",
        PrefixSign::Plus => "+",
        PrefixSign::LogicalNot => "!",
        PrefixSign::BitNot => "~",
        PrefixSign::Indirection => "*",
        PrefixSign::AddressOf => "&",
    }
}

pub fn step(sign: StepSign) -> &'static str {
    match sign {
        StepSign::Increment => "++",
        StepSign::Decrement => "--",
    }
}

pub fn operator(sign: Operator) -> &'static str {
    match sign {
        Operator::Multiply => "*",
        Operator::Divide => "/",
        Operator::Remainder => "%",
        Operator::Add => "+",
        Operator::Subtract => "-",
        Operator::BitAnd => "&",
        Operator::BitXor => "^",
        Operator::BitOr => "|",
    }
}

fn relation(sign: Relation) -> &'static str {
    match sign {
        Relation::Less => "<",
        Relation::More => ">",
        Relation::AtMost => "<=",
        Relation::AtLeast => ">=",
        Relation::Equal => "==",
        Relation::Unequal => "!=",
    }
}

pub fn infix(sign: InfixSign) -> &'static str {
    match sign {
        InfixSign::Arithmetic(found) => operator(found),
        InfixSign::LeftShift => "<<",
        InfixSign::RightShift => ">>",
        InfixSign::Comparison(found) => relation(found),
        InfixSign::LogicalAnd => "&&",
        InfixSign::LogicalOr => "||",
    }
}
