//! The expression of a condition, read from the left.

ghost use Rattle.std.specs.Prelude.{◌≡◌, map, take};
ghost use Rattle.opencl_tokens.specs.Reading.{lexemes_of};
ghost use Rattle.opencl_tokens.specs.Seen.{site as site_of, token_kind, lexeme, lexeme_kind};
ghost use Rattle.opencl_tokens.specs.Spelling.{sign as sign_of};
ghost use Rattle.opencl_macros.specs.Conditions as meaning;
ghost use Rattle.opencl_macros.specs.Seen.{tokens_seen, Gives};
ghost use Rattle.opencl_macros.specs.SeenConditions.{binary as binary_seen, maybe_binary, part as part_seen, same_flag, same_value, value_rest};

use crate::compilers::is_compilers;
use crate::macros::is_front;
use crate::operators::{Binary, binary_value, choice, negated, negative, tightness};
use crate::{MacroError, Token, TokenKind};
use opencl_tokens::{Lexeme, LexemeKind, Literal, Sign, Site, TokenError, lexemes};
use std::alloc::Global;

/// All, an operand, operands joined by what binds as tight as a level, and more of them behind a first one.
#[derive(Clone, Copy)]
enum Part {
    Whole,
    Operand,
    Joined(u32),
    More(u32, Option<u64>),
}

/// An `int` that is not below 0.
fn integer(kind: LexemeKind<'_>) -> Option<u64>
    ensures { result ≡ meaning.integer (lexeme_kind kind.entry) }
{
    match kind {
        LexemeKind::Integer(Literal::Int(n)) => {
            if n < 2_147_483_648 {
                Some(u64::from(n))
            } else {
                None
            }
        }
        _ => None,
    }
}

fn only_integer(found: &[Lexeme<'_>]) -> Option<u64>
    ensures { result ≡ meaning.only_integer (map lexeme found.now) }
{
    if found.is_empty() {
        return None;
    }
    integer(found[0].kind)
}

/// The value of the number or the character in front.
fn literal(alloc: Global, tokens: &[Token<'_>]) -> Result<Option<u64>, MacroError>
    ensures { Gives same_value result (Ok (meaning.literal (lexemes_of (take 1 (tokens_seen tokens.now))))) }
{
    let count = if tokens.is_empty() { 0 } else { 1 };
    match lexemes(alloc, &tokens[..count]) {
        Ok(found) => Ok(only_integer(&found)),
        Err(TokenError::Memory) => Err(MacroError::Memory),
        Err(TokenError::At { .. }) => Ok(None),
    }
}

pub fn behind<'a>(tokens: &'a [Token<'a>]) -> &'a [Token<'a>]
    ensures { tokens_seen result.now ≡ meaning.behind (tokens_seen tokens.now) }
{
    if tokens.is_empty() {
        tokens
    } else {
        &tokens[1..]
    }
}

/// Behind a sign that has to stand here.
fn past<'a>(
    site: Site,
    wanted: Sign,
    value: Option<u64>,
    tokens: &'a [Token<'a>],
) -> Result<(Option<u64>, &'a [Token<'a>]), MacroError>
    ensures { Gives value_rest result (meaning.past (site_of site) (sign_of wanted) value (tokens_seen tokens.now)) }
{
    if is_front(wanted, tokens) {
        Ok((value, behind(tokens)))
    } else {
        Err(MacroError::At(site))
    }
}

fn sign_operator(mark: Sign) -> Option<Binary>
    ensures { maybe_binary result ≡ meaning.sign_operator (sign_of mark) }
{
    match mark {
        Sign::Star => Some(Binary::Times),
        Sign::Slash => Some(Binary::Divided),
        Sign::Percent => Some(Binary::Rest),
        Sign::Plus => Some(Binary::Plus),
        Sign::Minus => Some(Binary::Minus),
        Sign::LeftShift => Some(Binary::ShiftLeft),
        Sign::RightShift => Some(Binary::ShiftRight),
        Sign::Less => Some(Binary::Less),
        Sign::Greater => Some(Binary::Greater),
        Sign::LessEqual => Some(Binary::LessEqual),
        Sign::GreaterEqual => Some(Binary::GreaterEqual),
        Sign::EqualEqual => Some(Binary::Equal),
        Sign::NotEqual => Some(Binary::NotEqual),
        Sign::And => Some(Binary::And),
        Sign::Caret => Some(Binary::Xor),
        Sign::Or => Some(Binary::Or),
        Sign::AndAnd => Some(Binary::Both),
        Sign::OrOr => Some(Binary::Either),
        _ => None,
    }
}

fn operator_at(tokens: &[Token<'_>]) -> Option<Binary>
    ensures { maybe_binary result ≡ meaning.operator_at (tokens_seen tokens.now) }
{
    if tokens.is_empty() {
        return None;
    }
    match tokens[0].kind {
        TokenKind::Mark(mark) => sign_operator(mark),
        _ => None,
    }
}

#[cycle(conditions)]
#[tactic(auto, using(crate::proofs::Handing::handed))]
fn chosen<'a>(
    alloc: Global,
    depth: u32,
    site: Site,
    c: Option<u64>,
    a: Option<u64>,
    tokens: &'a [Token<'a>],
) -> Result<(Option<u64>, &'a [Token<'a>]), MacroError>
    ensures { Gives value_rest result (meaning.chosen (meaning.part depth (site_of site)) (site_of site) c a (tokens_seen tokens.now)) }
{
    if is_front(Sign::Colon, tokens) {
        let (b, rest) = read_part(alloc, depth, site, Part::Whole, behind(tokens))?;
        Ok((choice(c, a, b), rest))
    } else {
        Err(MacroError::At(site))
    }
}

#[cycle(conditions)]
#[tactic(auto, using(crate::proofs::Handing::handed))]
fn chooses<'a>(
    alloc: Global,
    depth: u32,
    site: Site,
    c: Option<u64>,
    tokens: &'a [Token<'a>],
) -> Result<(Option<u64>, &'a [Token<'a>]), MacroError>
    ensures { Gives value_rest result (meaning.chooses (meaning.part depth (site_of site)) (site_of site) c (tokens_seen tokens.now)) }
{
    if is_front(Sign::Question, tokens) {
        let (a, rest) = read_part(alloc, depth, site, Part::Whole, behind(tokens))?;
        chosen(alloc, depth, site, c, a, rest)
    } else {
        Ok((c, tokens))
    }
}

#[cycle(conditions)]
#[tactic(auto, using(crate::proofs::Handing::handed))]
fn whole<'a>(
    alloc: Global,
    depth: u32,
    site: Site,
    tokens: &'a [Token<'a>],
) -> Result<(Option<u64>, &'a [Token<'a>]), MacroError>
    ensures { Gives value_rest result (meaning.whole (meaning.part depth (site_of site)) (site_of site) (tokens_seen tokens.now)) }
{
    let (c, rest) = read_part(alloc, depth, site, Part::Joined(2), tokens)?;
    chooses(alloc, depth, site, c, rest)
}

#[cycle(conditions)]
#[tactic(auto, using(crate::proofs::Handing::handed))]
fn joined<'a>(
    alloc: Global,
    depth: u32,
    site: Site,
    level: u32,
    tokens: &'a [Token<'a>],
) -> Result<(Option<u64>, &'a [Token<'a>]), MacroError>
    ensures { Gives value_rest result (meaning.joined (meaning.part depth (site_of site)) level (tokens_seen tokens.now)) }
{
    let (a, rest) = read_part(alloc, depth, site, Part::Operand, tokens)?;
    read_part(alloc, depth, site, Part::More(level, a), rest)
}

#[cycle(conditions)]
#[tactic(auto, using(crate::proofs::Handing::handed))]
fn operated<'a>(
    alloc: Global,
    depth: u32,
    site: Site,
    level: u32,
    a: Option<u64>,
    op: Binary,
    tokens: &'a [Token<'a>],
) -> Result<(Option<u64>, &'a [Token<'a>]), MacroError>
    ensures { Gives value_rest result (meaning.operated (meaning.part depth (site_of site)) level a (binary_seen op) (tokens_seen tokens.now)) }
{
    let (b, rest) = read_part(
        alloc,
        depth,
        site,
        Part::Joined(tightness(op) + 1),
        behind(tokens),
    )?;
    read_part(
        alloc,
        depth,
        site,
        Part::More(level, binary_value(op, a, b)),
        rest,
    )
}

#[cycle(conditions)]
fn more<'a>(
    alloc: Global,
    depth: u32,
    site: Site,
    level: u32,
    a: Option<u64>,
    tokens: &'a [Token<'a>],
) -> Result<(Option<u64>, &'a [Token<'a>]), MacroError>
    ensures { Gives value_rest result (meaning.more (meaning.part depth (site_of site)) level a (tokens_seen tokens.now)) }
{
    match operator_at(tokens) {
        None => Ok((a, tokens)),
        Some(op) => {
            if tightness(op) < level {
                Ok((a, tokens))
            } else {
                operated(alloc, depth, site, level, a, op, tokens)
            }
        }
    }
}

#[cycle(conditions)]
#[tactic(auto, using(crate::proofs::Handing::handed))]
fn signed<'a>(
    alloc: Global,
    depth: u32,
    site: Site,
    mark: Sign,
    tokens: &'a [Token<'a>],
) -> Result<(Option<u64>, &'a [Token<'a>]), MacroError>
    ensures { Gives value_rest result (meaning.signed (meaning.part depth (site_of site)) (site_of site) (sign_of mark) (tokens_seen tokens.now)) }
{
    match mark {
        Sign::Plus => read_part(alloc, depth, site, Part::Operand, tokens),
        Sign::Minus => {
            let (a, rest) = read_part(alloc, depth, site, Part::Operand, tokens)?;
            Ok((negative(a), rest))
        }
        Sign::Not => {
            let (a, rest) = read_part(alloc, depth, site, Part::Operand, tokens)?;
            Ok((negated(a), rest))
        }
        Sign::LeftParenthesis => {
            let (a, rest) = read_part(alloc, depth, site, Part::Whole, tokens)?;
            past(site, Sign::RightParenthesis, a, rest)
        }
        _ => Err(MacroError::At(site)),
    }
}

#[cycle(conditions)]
fn operand<'a>(
    alloc: Global,
    depth: u32,
    site: Site,
    tokens: &'a [Token<'a>],
) -> Result<(Option<u64>, &'a [Token<'a>]), MacroError>
    ensures { Gives value_rest result (meaning.operand (meaning.part depth (site_of site)) (site_of site) (tokens_seen tokens.now)) }
{
    if tokens.is_empty() {
        return Err(MacroError::At(site));
    }
    match tokens[0].kind {
        TokenKind::Name(name) => {
            if name == "defined" || is_compilers(name) {
                Err(MacroError::At(site))
            } else {
                Ok((Some(0), behind(tokens)))
            }
        }
        TokenKind::Number(_) | TokenKind::Character(_) => {
            Ok((literal(alloc, tokens)?, behind(tokens)))
        }
        TokenKind::Mark(mark) => signed(alloc, depth, site, mark, behind(tokens)),
        _ => Err(MacroError::At(site)),
    }
}

#[cycle(conditions)]
fn read_within<'a>(
    alloc: Global,
    depth: u32,
    site: Site,
    wanted: Part,
    tokens: &'a [Token<'a>],
) -> Result<(Option<u64>, &'a [Token<'a>]), MacroError>
    ensures { Gives value_rest result (meaning.reads (meaning.part depth (site_of site)) (site_of site) (part_seen wanted) (tokens_seen tokens.now)) }
{
    match wanted {
        Part::Whole => whole(alloc, depth, site, tokens),
        Part::Operand => operand(alloc, depth, site, tokens),
        Part::Joined(level) => joined(alloc, depth, site, level, tokens),
        Part::More(level, a) => more(alloc, depth, site, level, a, tokens),
    }
}

#[cycle(conditions)]
fn read_part<'a>(
    alloc: Global,
    depth: u32,
    site: Site,
    wanted: Part,
    tokens: &'a [Token<'a>],
) -> Result<(Option<u64>, &'a [Token<'a>]), MacroError>
    ensures { Gives value_rest result (meaning.part depth (site_of site) (part_seen wanted) (tokens_seen tokens.now)) }
{
    if depth == 0 {
        return Err(MacroError::At(site));
    }
    read_within(alloc, depth - 1, site, wanted, tokens)
}

/// The most parts in parts.
const DEPTH: u32 = 256;

/// Whether the condition holds; a fault where the tokens are no condition.
#[tactic(auto, unfolding(crate::specs::Conditions::holds), using(crate::proofs::Handing::handed))]
pub fn holds<'a>(alloc: Global, site: Site, tokens: &'a [Token<'a>]) -> Result<bool, MacroError>
    ensures { Gives same_flag result (meaning.holds (site_of site) (tokens_seen tokens.now)) }
{
    let (value, rest) = read_part(alloc, DEPTH, site, Part::Whole, tokens)?;
    if !rest.is_empty() {
        return Err(MacroError::At(site));
    }
    match value {
        None => Err(MacroError::At(site)),
        Some(n) => Ok(n != 0),
    }
}
