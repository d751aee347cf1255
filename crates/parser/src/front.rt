//! The token at the front.

ghost use Rattle.std.specs.Prelude.{◌≡◌, cond};
ghost use Rattle.std.specs.Option.{option_map};
ghost use Rattle.lexer.specs.Seen.{kind};
ghost use Rattle.lexer.specs.Spelling.{sign};
ghost use Rattle.texts.specs.Lexemes as lexemes_of;
ghost use Rattle.syntax.specs.View.{infix_sign, prefix_sign, assign_sign, expression};
ghost use Rattle.core_code.specs.View.{site};
ghost use Rattle.words.specs.View.{kind as number_kind};
ghost use Rattle.parser.specs.Reader.{front, behind, run, Passes, Gives, Fails, Then};
ghost use Rattle.parser.specs.View.{lexemes, Reads, ranked_sign, text_seen};
ghost use Rattle.parser.specs.Expressions as reads;
ghost use Rattle.parser.specs.Statements as statements;
ghost use Rattle.parser.specs.Kernels as kernels;
ghost use Rattle.texts.specs.KernelGrammar as grammar;
ghost use Rattle.texts.specs.ParseFaults.{Expected};

use crate::stops::{ParseFault, Stop};
use core_code::tree::{Operator, Relation, Site};
use lexer::{Literal, Reserved, Sign, Token, TokenKind};
use syntax::tree::{AssignSign, Expr, InfixSign, PrefixSign};
use words::Kind;

/// The kind of the token at the front: the end, where none is left.
pub fn kind_at<'a>(tokens: &[Token<'a>]) -> TokenKind<'a>
    ensures { kind result ≡ (front (lexemes tokens.now)).kind }
{
    match tokens.first() {
        Some(token) => token.kind,
        None => TokenKind::End,
    }
}

/// The line and the column at which the token at the front begins; line 1, column 1, where none is left.
pub fn site_at(tokens: &[Token]) -> Site
    ensures { site result ≡ (front (lexemes tokens.now)).site }
{
    match tokens.first() {
        Some(token) => Site {
            line: token.line,
            column: token.column,
        },
        None => Site { line: 1, column: 1 },
    }
}

/// The tokens behind the one at the front.
pub fn behind<'a>(tokens: &'a [Token<'a>]) -> &'a [Token<'a>]
    ensures { lexemes result.now ≡ behind (lexemes tokens.now) }
{
    match tokens {
        [_, rest @ ..] => rest,
        [] => tokens,
    }
}

/// Over the token at the front, if it is the one that is due.
pub fn pass<'a>(is_due: bool, tokens: &'a [Token<'a>]) -> Result<(Site, &'a [Token<'a>]), Stop<'a>>
    ensures { Reads site result (run (cond is_due (Passes (Gives (front (lexemes tokens.now)).site)) (Fails Expected)) (lexemes tokens.now)) }
{
    if is_due {
        Ok((site_at(tokens), behind(tokens)))
    } else {
        Err(Stop::Refused(ParseFault::Expected, tokens))
    }
}

pub fn is_left_parenthesis(token: TokenKind) -> bool
    ensures { result ≡ reads.is_left_parenthesis (kind token.entry) }
{
    matches!(token, TokenKind::Sign(Sign::LeftParenthesis))
}

pub fn is_right_parenthesis(token: TokenKind) -> bool
    ensures { result ≡ reads.is_right_parenthesis (kind token.entry) }
{
    matches!(token, TokenKind::Sign(Sign::RightParenthesis))
}

/// The tree, where the parenthesis that closes it stands here, and what is behind that.
#[tactic(auto, using(crate::proofs::Steps::part_steps))]
pub fn closed<'a>(tree: Expr, tokens: &'a [Token<'a>]) -> Result<(Expr, &'a [Token<'a>]), Stop<'a>>
    ensures { Reads expression result (run (Then (reads.expects reads.is_right_parenthesis) (λ closing. Gives (expression tree))) (lexemes tokens.now)) }
{
    let (_, rest) = pass(is_right_parenthesis(kind_at(tokens)), tokens)?;
    Ok((tree, rest))
}

pub fn is_left_bracket(token: TokenKind) -> bool
    ensures { result ≡ reads.is_left_bracket (kind token.entry) }
{
    matches!(token, TokenKind::Sign(Sign::LeftBracket))
}

pub fn is_right_bracket(token: TokenKind) -> bool
    ensures { result ≡ reads.is_right_bracket (kind token.entry) }
{
    matches!(token, TokenKind::Sign(Sign::RightBracket))
}

pub fn is_comma(token: TokenKind) -> bool
    ensures { result ≡ reads.is_comma (kind token.entry) }
{
    matches!(token, TokenKind::Sign(Sign::Comma))
}

pub fn is_question(token: TokenKind) -> bool
    ensures { result ≡ reads.is_question (kind token.entry) }
{
    matches!(token, TokenKind::Sign(Sign::Question))
}

pub fn is_colon(token: TokenKind) -> bool
    ensures { result ≡ reads.is_colon (kind token.entry) }
{
    matches!(token, TokenKind::Sign(Sign::Colon))
}

/// The kind that a token names; none where it names none.
pub fn kind_named(token: TokenKind) -> Option<Kind>
    ensures { option_map number_kind result ≡ reads.kind_at (kind token.entry) }
{
    match token {
        TokenKind::Reserved(Reserved::Int) => Some(Kind::Int),
        TokenKind::Reserved(Reserved::Uint) => Some(Kind::Uint),
        _ => None,
    }
}

/// The sign in front of an operand that this is.
pub fn prefix_of(token: Sign) -> Option<PrefixSign>
    ensures { option_map prefix_sign result ≡ lexemes_of.prefix_of (sign token) }
{
    match token {
        Sign::Minus => Some(PrefixSign::Minus),
        Sign::Not => Some(PrefixSign::LogicalNot),
        Sign::Tilde => Some(PrefixSign::BitNot),
        _ => None,
    }
}

fn infix_of(token: Sign) -> Option<(u32, InfixSign)>
    ensures { option_map ranked_sign result ≡ lexemes_of.infix_of (sign token) }
{
    let ranked = match token {
        Sign::Star => (1, InfixSign::Arithmetic(Operator::Multiply)),
        Sign::Slash => (1, InfixSign::Arithmetic(Operator::Divide)),
        Sign::Percent => (1, InfixSign::Arithmetic(Operator::Remainder)),
        Sign::Plus => (2, InfixSign::Arithmetic(Operator::Add)),
        Sign::Minus => (2, InfixSign::Arithmetic(Operator::Subtract)),
        Sign::LeftShift => (3, InfixSign::LeftShift),
        Sign::RightShift => (3, InfixSign::RightShift),
        Sign::Less => (4, InfixSign::Comparison(Relation::Less)),
        Sign::Greater => (4, InfixSign::Comparison(Relation::More)),
        Sign::LessEqual => (4, InfixSign::Comparison(Relation::AtMost)),
        Sign::GreaterEqual => (4, InfixSign::Comparison(Relation::AtLeast)),
        Sign::EqualEqual => (5, InfixSign::Comparison(Relation::Equal)),
        Sign::NotEqual => (5, InfixSign::Comparison(Relation::Unequal)),
        Sign::And => (6, InfixSign::Arithmetic(Operator::BitAnd)),
        Sign::Caret => (7, InfixSign::Arithmetic(Operator::BitXor)),
        Sign::Or => (8, InfixSign::Arithmetic(Operator::BitOr)),
        Sign::AndAnd => (9, InfixSign::LogicalAnd),
        Sign::OrOr => (10, InfixSign::LogicalOr),
        _ => return None,
    };
    Some(ranked)
}

/// The sign between operands of this rank that the token is.
pub fn infix_at(rank: u32, token: TokenKind) -> Option<InfixSign>
    ensures { option_map infix_sign result ≡ reads.infix_at rank (kind token.entry) }
{
    match token {
        TokenKind::Sign(found) => match infix_of(found) {
            Some((found_rank, infix)) if found_rank == rank => Some(infix),
            _ => None,
        },
        _ => None,
    }
}

pub fn is_semicolon(token: TokenKind) -> bool
    ensures { result ≡ statements.is_semicolon (kind token.entry) }
{
    matches!(token, TokenKind::Sign(Sign::Semicolon))
}

pub fn is_equal(token: TokenKind) -> bool
    ensures { result ≡ statements.is_equal (kind token.entry) }
{
    matches!(token, TokenKind::Sign(Sign::Equal))
}

pub fn is_left_brace(token: TokenKind) -> bool
    ensures { result ≡ statements.is_left_brace (kind token.entry) }
{
    matches!(token, TokenKind::Sign(Sign::LeftBrace))
}

pub fn is_right_brace(token: TokenKind) -> bool
    ensures { result ≡ statements.is_right_brace (kind token.entry) }
{
    matches!(token, TokenKind::Sign(Sign::RightBrace))
}

pub fn is_local(token: TokenKind) -> bool
    ensures { result ≡ statements.is_local (kind token.entry) }
{
    matches!(token, TokenKind::Reserved(Reserved::Local))
}

pub fn is_else(token: TokenKind) -> bool
    ensures { result ≡ grammar.is_else (kind token.entry) }
{
    matches!(token, TokenKind::Reserved(Reserved::Else))
}

/// The name that a token is; none where it is no name.
pub fn name_of<'a>(token: TokenKind<'a>) -> Option<&'a str>
    ensures { option_map text_seen result ≡ statements.name_at (kind token.entry) }
{
    match token {
        TokenKind::Name(name) => Some(name),
        _ => None,
    }
}

/// The number that a token is; none where it is no number.
pub fn number_of(token: TokenKind) -> Option<u32>
    ensures { result ≡ statements.number_at (kind token.entry) }
{
    match token {
        TokenKind::Number(Literal::Int(value) | Literal::Uint(value)) => Some(value),
        _ => None,
    }
}

/// The sign of an assignment that the token is.
pub fn assign_of(token: TokenKind) -> Option<AssignSign>
    ensures { option_map assign_sign result ≡ statements.assign_at (kind token.entry) }
{
    let TokenKind::Sign(found) = token else {
        return None;
    };
    match found {
        Sign::Equal => Some(AssignSign::Plain),
        Sign::PlusEqual => Some(AssignSign::With(Operator::Add)),
        Sign::MinusEqual => Some(AssignSign::With(Operator::Subtract)),
        Sign::StarEqual => Some(AssignSign::With(Operator::Multiply)),
        Sign::SlashEqual => Some(AssignSign::With(Operator::Divide)),
        Sign::PercentEqual => Some(AssignSign::With(Operator::Remainder)),
        Sign::AndEqual => Some(AssignSign::With(Operator::BitAnd)),
        Sign::OrEqual => Some(AssignSign::With(Operator::BitOr)),
        Sign::CaretEqual => Some(AssignSign::With(Operator::BitXor)),
        Sign::LeftShiftEqual => Some(AssignSign::WithLeftShift),
        Sign::RightShiftEqual => Some(AssignSign::WithRightShift),
        _ => None,
    }
}

pub fn is_kernel(token: TokenKind) -> bool
    ensures { result ≡ kernels.is_kernel (kind token.entry) }
{
    matches!(token, TokenKind::Reserved(Reserved::Kernel))
}

pub fn is_attribute(token: TokenKind) -> bool
    ensures { result ≡ kernels.is_attribute (kind token.entry) }
{
    matches!(token, TokenKind::Reserved(Reserved::Attribute))
}

pub fn is_void(token: TokenKind) -> bool
    ensures { result ≡ kernels.is_void (kind token.entry) }
{
    matches!(token, TokenKind::Reserved(Reserved::Void))
}

pub fn is_global(token: TokenKind) -> bool
    ensures { result ≡ kernels.is_global (kind token.entry) }
{
    matches!(token, TokenKind::Reserved(Reserved::Global))
}

pub fn is_const(token: TokenKind) -> bool
    ensures { result ≡ kernels.is_const (kind token.entry) }
{
    matches!(token, TokenKind::Reserved(Reserved::Const))
}

pub fn is_star(token: TokenKind) -> bool
    ensures { result ≡ kernels.is_star (kind token.entry) }
{
    matches!(token, TokenKind::Sign(Sign::Star))
}

pub fn is_end(token: TokenKind) -> bool
    ensures { result ≡ kernels.is_end (kind token.entry) }
{
    matches!(token, TokenKind::End)
}

pub fn is_required_size(token: TokenKind) -> bool
    ensures { result ≡ kernels.is_required_size (kind token.entry) }
{
    match token {
        TokenKind::Name(name) => name == "reqd_work_group_size",
        _ => false,
    }
}
