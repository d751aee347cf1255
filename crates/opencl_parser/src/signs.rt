//! What the signs of expressions say.

ghost use Rattle.std.specs.Prelude.{◌≡◌};
ghost use Rattle.std.specs.Option.{option_map};
ghost use Rattle.opencl_tokens.specs.Seen.{lexeme_kind};
ghost use Rattle.opencl_tokens.specs.Spelling.{sign};
ghost use Rattle.opencl_parser.specs.Signs as signs;
ghost use Rattle.opencl_parser.specs.View.{maybe_joint, maybe_ranked, opening as opening_seen, maybe_suffix, text_seen};

use core_code::tree::{Operator, Relation};
use opencl_tokens::{LexemeKind, Sign};
use opencl_tree::tree::{PrefixSign, StepSign};
use syntax::tree::{AssignSign, InfixSign};

/// A token that joins a left operand and a right one: a sign, or a comma.
#[derive(Clone, Copy)]
pub enum Join {
    Operates(InfixSign),
    Sequence,
}

/// A continuation of an expression behind a left operand.
#[derive(Clone, Copy)]
pub enum Joint {
    Joins(Join),
    Assigns(AssignSign),
    Asks,
}

/// The beginning of an operand that begins with a sign.
#[derive(Clone, Copy)]
pub enum Opening {
    Prefixes(PrefixSign),
    Steps(StepSign),
    Opens,
    Wrong,
}

/// A suffix, which stands behind an operand and belongs to it.
#[derive(Clone, Copy)]
pub enum Suffix {
    Indexes,
    Selects,
    Steps(StepSign),
    Follows,
}

pub fn is_left_parenthesis(kind: LexemeKind) -> bool
    ensures { result ≡ signs.is_left_parenthesis (lexeme_kind kind.entry) }
{
    matches!(kind, LexemeKind::Mark(Sign::LeftParenthesis))
}

pub fn is_right_parenthesis(kind: LexemeKind) -> bool
    ensures { result ≡ signs.is_right_parenthesis (lexeme_kind kind.entry) }
{
    matches!(kind, LexemeKind::Mark(Sign::RightParenthesis))
}

pub fn is_right_bracket(kind: LexemeKind) -> bool
    ensures { result ≡ signs.is_right_bracket (lexeme_kind kind.entry) }
{
    matches!(kind, LexemeKind::Mark(Sign::RightBracket))
}

pub fn is_comma(kind: LexemeKind) -> bool
    ensures { result ≡ signs.is_comma (lexeme_kind kind.entry) }
{
    matches!(kind, LexemeKind::Mark(Sign::Comma))
}

pub fn is_colon(kind: LexemeKind) -> bool
    ensures { result ≡ signs.is_colon (lexeme_kind kind.entry) }
{
    matches!(kind, LexemeKind::Mark(Sign::Colon))
}

pub fn is_star(kind: LexemeKind) -> bool
    ensures { result ≡ signs.is_star (lexeme_kind kind.entry) }
{
    matches!(kind, LexemeKind::Mark(Sign::Star))
}

/// The name that a lexeme is; none where it is no name.
pub fn name_of<'a>(kind: LexemeKind<'a>) -> Option<&'a str>
    ensures { option_map text_seen result ≡ signs.name_at (lexeme_kind kind.entry) }
{
    match kind {
        LexemeKind::Name(name) => Some(name),
        _ => None,
    }
}

fn joint_of(found: Sign) -> Option<(u32, Joint)>
    ensures { maybe_ranked result ≡ signs.joint_of (sign found) }
{
    let (rank, infix) = match found {
        Sign::Star => (1, InfixSign::Arithmetic(Operator::Multiply)),
        Sign::Slash => (1, InfixSign::Arithmetic(Operator::Divide)),
        Sign::Percent => (1, InfixSign::Arithmetic(Operator::Remainder)),
        Sign::Plus => (2, InfixSign::Arithmetic(Operator::Add)),
        Sign::Minus => (2, InfixSign::Arithmetic(Operator::Subtract)),
        Sign::LeftShift => (3, InfixSign::LeftShift),
        Sign::RightShift => (3, InfixSign::RightShift),
        Sign::Less => (4, InfixSign::Comparison(Relation::Less)),
        Sign::Greater => (4, InfixSign::Comparison(Relation::More)),
        Sign::LessEqual => (4, InfixSign::Comparison(Relation::AtMost)),
        Sign::GreaterEqual => (4, InfixSign::Comparison(Relation::AtLeast)),
        Sign::EqualEqual => (5, InfixSign::Comparison(Relation::Equal)),
        Sign::NotEqual => (5, InfixSign::Comparison(Relation::Unequal)),
        Sign::And => (6, InfixSign::Arithmetic(Operator::BitAnd)),
        Sign::Caret => (7, InfixSign::Arithmetic(Operator::BitXor)),
        Sign::Or => (8, InfixSign::Arithmetic(Operator::BitOr)),
        Sign::AndAnd => (9, InfixSign::LogicalAnd),
        Sign::OrOr => (10, InfixSign::LogicalOr),
        Sign::Question => return Some((11, Joint::Asks)),
        Sign::Equal => return Some((12, Joint::Assigns(AssignSign::Plain))),
        Sign::PlusEqual => return Some((12, Joint::Assigns(AssignSign::With(Operator::Add)))),
        Sign::MinusEqual => {
            return Some((12, Joint::Assigns(AssignSign::With(Operator::Subtract))));
        }
        Sign::StarEqual => {
            return Some((12, Joint::Assigns(AssignSign::With(Operator::Multiply))));
        }
        Sign::SlashEqual => return Some((12, Joint::Assigns(AssignSign::With(Operator::Divide)))),
        Sign::PercentEqual => {
            return Some((12, Joint::Assigns(AssignSign::With(Operator::Remainder))));
        }
        Sign::AndEqual => return Some((12, Joint::Assigns(AssignSign::With(Operator::BitAnd)))),
        Sign::OrEqual => return Some((12, Joint::Assigns(AssignSign::With(Operator::BitOr)))),
        Sign::CaretEqual => return Some((12, Joint::Assigns(AssignSign::With(Operator::BitXor)))),
        Sign::LeftShiftEqual => return Some((12, Joint::Assigns(AssignSign::WithLeftShift))),
        Sign::RightShiftEqual => return Some((12, Joint::Assigns(AssignSign::WithRightShift))),
        Sign::Comma => return Some((13, Joint::Joins(Join::Sequence))),
        _ => return None,
    };
    Some((rank, Joint::Joins(Join::Operates(infix))))
}

/// The continuation behind a left operand, by a sign of this rank; none where the lexeme is no such sign.
pub fn joint_at(rank: u32, kind: LexemeKind) -> Option<Joint>
    ensures { maybe_joint result ≡ signs.joint_at rank (lexeme_kind kind.entry) }
{
    match kind {
        LexemeKind::Mark(found) => match joint_of(found) {
            Some((found_rank, joint)) if found_rank == rank => Some(joint),
            _ => None,
        },
        _ => None,
    }
}

/// The beginning of an operand by its first sign.
pub fn opening_of(found: Sign) -> Opening
    ensures { opening_seen result ≡ signs.opening_of (sign found) }
{
    match found {
        Sign::Minus => Opening::Prefixes(PrefixSign::Minus),
        Sign::Plus => Opening::Prefixes(PrefixSign::Plus),
        Sign::Not => Opening::Prefixes(PrefixSign::LogicalNot),
        Sign::Tilde => Opening::Prefixes(PrefixSign::BitNot),
        Sign::Star => Opening::Prefixes(PrefixSign::Indirection),
        Sign::And => Opening::Prefixes(PrefixSign::AddressOf),
        Sign::PlusPlus => Opening::Steps(StepSign::Increment),
        Sign::MinusMinus => Opening::Steps(StepSign::Decrement),
        Sign::LeftParenthesis => Opening::Opens,
        _ => Opening::Wrong,
    }
}

/// The suffix that begins with a lexeme; none where it begins none.
pub fn suffix_at(kind: LexemeKind) -> Option<Suffix>
    ensures { maybe_suffix result ≡ signs.suffix_at (lexeme_kind kind.entry) }
{
    let LexemeKind::Mark(found) = kind else {
        return None;
    };
    match found {
        Sign::LeftBracket => Some(Suffix::Indexes),
        Sign::Dot => Some(Suffix::Selects),
        Sign::PlusPlus => Some(Suffix::Steps(StepSign::Increment)),
        Sign::MinusMinus => Some(Suffix::Steps(StepSign::Decrement)),
        Sign::Arrow => Some(Suffix::Follows),
        _ => None,
    }
}
