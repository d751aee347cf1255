//! How signs, types and numbers are spelt.

ghost use Rattle.std.specs.Prelude.{◌≡◌, ◌++◌, OnOk};
ghost use Rattle.std.specs.String.{string_bytes};
ghost use Rattle.texts.specs.Canonical as text;
ghost use Rattle.words.specs.View.{kind as kind_seen};
ghost use Rattle.core_code.specs.View as core;
ghost use Rattle.syntax.specs.View as view;

use core_code::tree::{Operator, Relation};
use std::alloc::AllocError;
use syntax::tree::{AssignSign, InfixSign, JumpWord, PrefixSign};
use words::Kind;

pub fn push_kind(out: &mut String, kind: Kind) -> Result<(), AllocError>
    ensures { OnOk result (string_bytes out.new ≡ string_bytes out.old ++ text.kind_text (kind_seen kind)) }
{
    match kind {
        Kind::Int => out.push_str("int"),
        Kind::Uint => out.push_str("uint"),
        Kind::Size => out.push_str("size_t"),
    }
}

fn push_operator(out: &mut String, operator: Operator) -> Result<(), AllocError>
    ensures { OnOk result (string_bytes out.new ≡ string_bytes out.old ++ text.operator_text (core.operator operator)) }
{
    match operator {
        Operator::Add => out.push_str("+"),
        Operator::Subtract => out.push_str("-"),
        Operator::Multiply => out.push_str("*"),
        Operator::Divide => out.push_str("/"),
        Operator::Remainder => out.push_str("%"),
        Operator::BitAnd => out.push_str("&"),
        Operator::BitOr => out.push_str("|"),
        Operator::BitXor => out.push_str("^"),
    }
}

fn push_relation(out: &mut String, relation: Relation) -> Result<(), AllocError>
    ensures { OnOk result (string_bytes out.new ≡ string_bytes out.old ++ text.relation_text (core.relation relation)) }
{
    match relation {
        Relation::Less => out.push_str("<"),
        Relation::AtMost => out.push_str("<="),
        Relation::More => out.push_str(">"),
        Relation::AtLeast => out.push_str(">="),
        Relation::Equal => out.push_str("=="),
        Relation::Unequal => out.push_str("!="),
    }
}

pub fn push_infix(out: &mut String, sign: InfixSign) -> Result<(), AllocError>
    ensures { OnOk result (string_bytes out.new ≡ string_bytes out.old ++ text.infix_text (view.infix_sign sign)) }
{
    match sign {
        InfixSign::Arithmetic(operator) => push_operator(out, operator),
        InfixSign::LeftShift => out.push_str("<<"),
        InfixSign::RightShift => out.push_str(">>"),
        InfixSign::Comparison(relation) => push_relation(out, relation),
        InfixSign::LogicalAnd => out.push_str("&&"),
        InfixSign::LogicalOr => out.push_str("||"),
    }
}

pub fn push_prefix(out: &mut String, sign: PrefixSign) -> Result<(), AllocError>
    ensures { OnOk result (string_bytes out.new ≡ string_bytes out.old ++ text.prefix_text (view.prefix_sign sign)) }
{
    match sign {
        PrefixSign::Minus => out.push_str("-"),
        PrefixSign::LogicalNot => out.push_str("!"),
        PrefixSign::BitNot => out.push_str("~"),
    }
}

pub fn push_assign(out: &mut String, sign: AssignSign) -> Result<(), AllocError>
    ensures { OnOk result (string_bytes out.new ≡ string_bytes out.old ++ text.assign_text (view.assign_sign sign)) }
{
    match sign {
        AssignSign::Plain => out.push_str("="),
        AssignSign::With(operator) => {
            push_operator(out, operator)?;
            out.push_str("=")
        }
        AssignSign::WithLeftShift => out.push_str("<<="),
        AssignSign::WithRightShift => out.push_str(">>="),
    }
}

pub fn push_number(out: &mut String, kind: Kind, value: u32) -> Result<(), AllocError>
    ensures { OnOk result (string_bytes out.new ≡ string_bytes out.old ++ text.number_text (kind_seen kind) value) }
{
    match kind {
        Kind::Int => write!(out, "{value}"),
        Kind::Uint | Kind::Size => write!(out, "{value}u"),
    }
}

pub fn push_jump(out: &mut String, jump: JumpWord) -> Result<(), AllocError>
    ensures { OnOk result (string_bytes out.new ≡ string_bytes out.old ++ text.jump_text (view.jump_word jump)) }
{
    match jump {
        JumpWord::Return => out.push_str("return"),
        JumpWord::Break => out.push_str("break"),
        JumpWord::Continue => out.push_str("continue"),
    }
}
