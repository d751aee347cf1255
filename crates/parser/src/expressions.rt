//! Expressions, level by level: `room` is how many brackets may be opened, `depth` how many levels of the tree are left.

ghost use Rattle.std.specs.Prelude.{◌≡◌, ℕ, suc, zero, ◌≤◌, ◌+◌, List, [], None, string_bytes};
ghost use Rattle.std.specs.Option.{option_map};
ghost use Rattle.lexer.specs.Seen.{kind};
ghost use Rattle.texts.specs.Surface.{Conditional};
ghost use Rattle.syntax.specs.View.{expression};
ghost use Rattle.core_code.specs.View.{site as site_of};
ghost use Rattle.words.specs.View.{kind as number_kind};
ghost use Rattle.parser.specs.Reader.{front, behind, run, Took};
ghost use Rattle.parser.specs.View.{lexemes, Reads, arguments_seen};
ghost use Rattle.parser.specs.Expressions as reads;

use crate::front::{
    behind, closed, infix_at, is_colon, is_comma, is_left_bracket, is_left_parenthesis,
    is_question, is_right_bracket, is_right_parenthesis, kind_at, kind_named, pass, prefix_of,
    site_at,
};
use crate::stops::{ParseFault, Stop};
use core_code::tree::Site;
use lexer::{Literal, Token, TokenKind};
use std::alloc::Global;
use syntax::tree::{Expr, PrefixSign};
use words::Kind;

/// The most arguments that are read after the first: a text within its limit has fewer.
const MOST_ARGUMENTS: u32 = 65_536;

// The tree with `?`, and what is left.
fn conditional<'a>(
    alloc: Global,
    site: Site,
    test: Expr,
    taken: Expr,
    skipped: Expr,
    rest: &'a [Token<'a>],
) -> Result<(Expr, &'a [Token<'a>]), Stop<'a>>
    ensures { Reads expression result (Took (Conditional (site_of site) (expression test) (expression taken) (expression skipped)) (lexemes rest.now)) }
{
    let tree = Expr::Conditional {
        site,
        test: Box::new(alloc, test)?,
        taken: Box::new(alloc, taken)?,
        skipped: Box::new(alloc, skipped)?,
    };
    Ok((tree, rest))
}

/// Reads an expression at the front of the tokens; with the tokens behind it, or the fault and the tokens where it stands.
#[cycle(expressions)]
#[tactic(auto, using(crate::proofs::Steps::steps, crate::proofs::Lists::lists))]
pub fn expression<'a>(
    alloc: Global,
    room: u32,
    depth: u32,
    tokens: &'a [Token<'a>],
) -> Result<(Expr, &'a [Token<'a>]), Stop<'a>>
    requires depth { depth ≤ 32 }
    ensures { Reads expression result (run (reads.expression_reader room depth) (lexemes tokens.now)) }
{
    if depth == 0 {
        return Err(Stop::Refused(ParseFault::TooDeep, tokens));
    }
    whole(alloc, room, depth - 1, tokens)
}

/// The operand of a prefix sign or a cast.
#[cycle(expressions)]
#[tactic(auto, using(crate::proofs::Steps::steps, crate::proofs::Lists::lists))]
fn inner_operand<'a>(
    alloc: Global,
    room: u32,
    depth: u32,
    tokens: &'a [Token<'a>],
) -> Result<(Expr, &'a [Token<'a>]), Stop<'a>>
    requires { depth ≤ 32 }
    ensures { Reads expression result (run (reads.operand_reader room depth) (lexemes tokens.now)) }
{
    if depth == 0 {
        return Err(Stop::Refused(ParseFault::TooDeep, tokens));
    }
    operand(alloc, room, depth - 1, tokens)
}

// With `depth` levels below it.
#[cycle(expressions)]
#[tactic(auto, using(crate::proofs::Steps::steps, crate::proofs::Lists::lists))]
fn whole<'a>(
    alloc: Global,
    room: u32,
    depth: u32,
    tokens: &'a [Token<'a>],
) -> Result<(Expr, &'a [Token<'a>]), Stop<'a>>
    requires { depth ≤ 31 }
    ensures { Reads expression result (run (reads.expression_reader room (suc depth)) (lexemes tokens.now)) }
{
    let (test, rest) = ranked(alloc, room, depth, 10, tokens)?;
    if !is_question(kind_at(rest)) {
        return Ok((test, rest));
    }
    let site = site_at(rest);
    let (taken, rest) = expression(alloc, room, depth, behind(rest))?;
    let (_, rest) = pass(is_colon(kind_at(rest)), rest)?;
    let (skipped, rest) = expression(alloc, room, depth, rest)?;
    conditional(alloc, site, test, taken, skipped, rest)
}

// Operands joined by signs of the rank or a lower one.
#[cycle(expressions)]
#[tactic(auto, using(crate::proofs::Steps::steps, crate::proofs::Lists::lists))]
fn ranked<'a>(
    alloc: Global,
    room: u32,
    depth: u32,
    rank: u32,
    tokens: &'a [Token<'a>],
) -> Result<(Expr, &'a [Token<'a>]), Stop<'a>>
    requires depth { depth ≤ 31 }
    requires rank { rank ≤ 10 }
    ensures { Reads expression result (run (reads.ranked (reads.operand_reader room (suc depth)) (suc depth) rank) (lexemes tokens.now)) }
{
    if rank == 0 {
        operand(alloc, room, depth, tokens)
    } else {
        joined(alloc, room, depth, rank - 1, tokens)
    }
}

// Operands joined by signs of the rank after `below`, or a lower one.
#[cycle(expressions)]
#[tactic(auto, using(crate::proofs::Steps::steps, crate::proofs::Lists::lists))]
fn joined<'a>(
    alloc: Global,
    room: u32,
    depth: u32,
    below: u32,
    tokens: &'a [Token<'a>],
) -> Result<(Expr, &'a [Token<'a>]), Stop<'a>>
    requires depth { depth ≤ 31 }
    requires rank { below ≤ 9 }
    ensures { Reads expression result (run (reads.ranked (reads.operand_reader room (suc depth)) (suc depth) (suc below)) (lexemes tokens.now)) }
{
    let (left, rest) = ranked(alloc, room, depth, below, tokens)?;
    let series = Series {
        first: left,
        below,
        left: depth + 1,
    };
    chain(alloc, room, depth, series, rest)
}

/// Operands joined so far: their tree, the rank below that of the signs between them, and how many more may come at most.
#[derive(Drop)]
struct Series {
    first: Expr,
    below: u32,
    left: u32,
}

// More of them after a left operand, at most `left` times.
#[cycle(expressions)]
#[tactic(auto, using(crate::proofs::Steps::steps, crate::proofs::Lists::lists))]
fn chain<'a>(
    alloc: Global,
    room: u32,
    depth: u32,
    series: Series,
    tokens: &'a [Token<'a>],
) -> Result<(Expr, &'a [Token<'a>]), Stop<'a>>
    requires depth { depth ≤ 31 }
    requires rank { series.below ≤ 9 }
    requires left { series.left ≤ 32 }
    ensures { Reads expression result (run (reads.chain (reads.ranked (reads.operand_reader room (suc depth)) (suc depth) series.below) (series.below + 1) series.left (expression series.first)) (lexemes tokens.now)) }
{
    let Series { first, below, left } = series;
    let Some(sign) = infix_at(below + 1, kind_at(tokens)) else {
        return Ok((first, tokens));
    };
    if left == 0 {
        return Err(Stop::Refused(ParseFault::TooDeep, tokens));
    }
    let site = site_at(tokens);
    let (right, rest) = ranked(alloc, room, depth, below, behind(tokens))?;
    let tree = Expr::Infix {
        site,
        sign,
        left: Box::new(alloc, first)?,
        right: Box::new(alloc, right)?,
    };
    let longer = Series {
        first: tree,
        below,
        left: left - 1,
    };
    chain(alloc, room, depth, longer, rest)
}

// With `depth` levels below it.
#[cycle(expressions)]
#[tactic(auto, using(crate::proofs::Steps::steps, crate::proofs::Lists::lists))]
fn operand<'a>(
    alloc: Global,
    room: u32,
    depth: u32,
    tokens: &'a [Token<'a>],
) -> Result<(Expr, &'a [Token<'a>]), Stop<'a>>
    requires { depth ≤ 31 }
    ensures { Reads expression result (run (reads.operand_reader room (suc depth)) (lexemes tokens.now)) }
{
    let site = site_at(tokens);
    match kind_at(tokens) {
        TokenKind::Number(literal) => {
            let (kind, value) = match literal {
                Literal::Int(value) => (Kind::Int, value),
                Literal::Uint(value) => (Kind::Uint, value),
            };
            Ok((Expr::Number { site, kind, value }, behind(tokens)))
        }
        TokenKind::Name(name) => {
            let name = String::from_str(alloc, name)?;
            after_name(alloc, room, depth, name, site, behind(tokens))
        }
        TokenKind::Sign(sign) => match prefix_of(sign) {
            Some(sign) => {
                let (of, rest) = inner_operand(alloc, room, depth, behind(tokens))?;
                let of = Box::new(alloc, of)?;
                Ok((Expr::Prefix { site, sign, of }, rest))
            }
            None => in_parentheses(alloc, room, depth, site, tokens),
        },
        _ => Err(Stop::Refused(ParseFault::Expected, tokens)),
    }
}

// After a name, with `depth` levels below it.
#[cycle(expressions)]
#[tactic(auto, using(crate::proofs::Steps::steps, crate::proofs::Lists::lists))]
fn after_name<'a>(
    alloc: Global,
    room: u32,
    depth: u32,
    name: String,
    site: Site,
    tokens: &'a [Token<'a>],
) -> Result<(Expr, &'a [Token<'a>]), Stop<'a>>
    requires { depth ≤ 31 }
    ensures { Reads expression result (run (reads.after_name (reads.inside room) depth (string_bytes name) (site_of site) (front (lexemes tokens.now)).kind) (lexemes tokens.now)) }
{
    if is_left_bracket(kind_at(tokens)) {
        if room == 0 {
            return Err(Stop::Refused(ParseFault::TooDeep, tokens));
        }
        let (index, rest) = expression(alloc, room - 1, depth, behind(tokens))?;
        let (_, rest) = pass(is_right_bracket(kind_at(rest)), rest)?;
        let index = Box::new(alloc, index)?;
        Ok((Expr::Element { site, name, index }, rest))
    } else if is_left_parenthesis(kind_at(tokens)) {
        if room == 0 {
            return Err(Stop::Refused(ParseFault::TooDeep, tokens));
        }
        let (arguments, rest) = arguments(alloc, room - 1, depth, behind(tokens))?;
        let call = Expr::Call {
            site,
            name,
            arguments,
        };
        Ok((call, rest))
    } else {
        Ok((Expr::Name { site, name }, tokens))
    }
}

// What begins with a parenthesis, with `depth` levels below it.
#[cycle(expressions)]
#[tactic(auto, using(crate::proofs::Steps::steps, crate::proofs::Lists::lists))]
fn in_parentheses<'a>(
    alloc: Global,
    room: u32,
    depth: u32,
    site: Site,
    tokens: &'a [Token<'a>],
) -> Result<(Expr, &'a [Token<'a>]), Stop<'a>>
    requires { depth ≤ 31 }
    ensures { Reads expression result (run (reads.signed (reads.inside room) (reads.operand_reader room depth) depth (site_of site) None (front (lexemes tokens.now)).kind) (lexemes tokens.now)) }
{
    if !is_left_parenthesis(kind_at(tokens)) {
        return Err(Stop::Refused(ParseFault::Expected, tokens));
    }
    if room == 0 {
        return Err(Stop::Refused(ParseFault::TooDeep, tokens));
    }
    let tokens = behind(tokens);
    match kind_named(kind_at(tokens)) {
        Some(kind) => {
            let rest = behind(tokens);
            let (_, rest) = pass(is_right_parenthesis(kind_at(rest)), rest)?;
            let (of, rest) = inner_operand(alloc, room, depth, rest)?;
            let of = Box::new(alloc, of)?;
            Ok((Expr::Cast { site, kind, of }, rest))
        }
        None => {
            let (tree, rest) = expression(alloc, room - 1, depth + 1, tokens)?;
            closed(tree, rest)
        }
    }
}

// Up to and with the parenthesis that closes them.
#[cycle(expressions)]
#[tactic(auto, using(crate::proofs::Steps::steps, crate::proofs::Lists::lists))]
fn arguments<'a>(
    alloc: Global,
    room: u32,
    depth: u32,
    tokens: &'a [Token<'a>],
) -> Result<(Vec<Expr>, &'a [Token<'a>]), Stop<'a>>
    requires { depth ≤ 31 }
    ensures { Reads arguments_seen result (run (reads.arguments (reads.expression_reader room depth)) (lexemes tokens.now)) }
{
    let mut list = Vec::new(alloc);
    if is_right_parenthesis(kind_at(tokens)) {
        return Ok((list, behind(tokens)));
    }
    let (first, mut rest) = expression(alloc, room, depth, tokens)?;
    list.push(first)?;
    for _count in 0..MOST_ARGUMENTS {
        if !is_comma(kind_at(rest)) {
            let (_, rest) = pass(is_right_parenthesis(kind_at(rest)), rest)?;
            return Ok((list, rest));
        }
        let (next, after) = expression(alloc, room, depth, behind(rest))?;
        list.push(next)?;
        rest = after;
    }
    Err(Stop::Refused(ParseFault::TooMany, rest))
}
