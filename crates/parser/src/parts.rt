//! Assignments, declarations and what stands in parentheses behind a statement's word.

ghost use Rattle.std.specs.Prelude.{◌≡◌, ◌≤◌, ◌+◌, ◌&&◌, nat_lt, nat_le, string_bytes};
ghost use Rattle.syntax.specs.View.{expression, assignment, declaration, first, statement, index_of};
ghost use Rattle.core_code.specs.View.{site as site_of};
ghost use Rattle.parser.specs.Reader.{run};
ghost use Rattle.parser.specs.View.{lexemes, Reads};
ghost use Rattle.parser.specs.Expressions.{expression_reader, is_right_parenthesis as is_right_parenthesis_of};
ghost use Rattle.parser.specs.Heads.{head, ended};
ghost use Rattle.parser.specs.Statements as reads;

use crate::expressions::expression;
use crate::front::{
    assign_of, behind, closed, is_equal, is_left_bracket, is_left_parenthesis, is_right_bracket,
    is_right_parenthesis, is_semicolon, kind_at, kind_named, name_of, number_of, pass, site_at,
};
use crate::stops::{ParseFault, Stop};
use core_code::tree::Site;
use lexer::Token;
use std::alloc::Global;
use syntax::tree::{Assignment, Declaration, Expr, First, Stmt};

/// The three parts that a `for` has in parentheses.
#[derive(Drop)]
pub struct Head {
    pub first: First,
    pub test: Expr,
    pub update: Assignment,
}

/// The target of an assignment: a variable, or an element of an array.
#[derive(Drop)]
struct Destination {
    site: Site,
    name: String,
    index: Option<Expr>,
}

#[tactic(auto, using(crate::proofs::Steps::part_steps), unfolding(crate::specs::Statements::assigned_reader))]
fn assigned<'a>(
    alloc: Global,
    room: u32,
    depth: u32,
    number: u32,
    destination: Destination,
    tokens: &'a [Token<'a>],
) -> Result<(Assignment, &'a [Token<'a>]), Stop<'a>>
    requires { depth ≤ 32 }
    ensures { Reads assignment result (run (reads.assigned_reader room depth number (string_bytes destination.name) (site_of destination.site) (index_of destination.index)) (lexemes tokens.now)) }
{
    let Some(sign) = assign_of(kind_at(tokens)) else {
        return Err(Stop::Refused(ParseFault::Expected, tokens));
    };
    let sign_site = site_at(tokens);
    let (value, rest) = expression(alloc, room, depth, behind(tokens))?;
    let assignment = Assignment {
        number,
        site: destination.site,
        name: destination.name,
        index: destination.index,
        sign,
        sign_site,
        value,
    };
    Ok((assignment, rest))
}

#[tactic(auto, using(crate::proofs::Steps::part_steps), unfolding(crate::specs::Statements::index_reader))]
fn index<'a>(
    alloc: Global,
    room: u32,
    depth: u32,
    tokens: &'a [Token<'a>],
) -> Result<(Option<Expr>, &'a [Token<'a>]), Stop<'a>>
    requires { depth ≤ 32 }
    ensures { Reads index_of result (run (reads.index_reader room depth) (lexemes tokens.now)) }
{
    if !is_left_bracket(kind_at(tokens)) {
        return Ok((None, tokens));
    }
    if room == 0 {
        return Err(Stop::Refused(ParseFault::TooDeep, tokens));
    }
    let (index, rest) = expression(alloc, room - 1, depth, behind(tokens))?;
    let (_, rest) = pass(is_right_bracket(kind_at(rest)), rest)?;
    Ok((Some(index), rest))
}

/// Reads an assignment at the front of the tokens, with the number given; with the tokens behind it, or the fault and its tokens.
#[tactic(auto, using(crate::proofs::Steps::part_steps), unfolding(crate::specs::Statements::assignment_reader))]
pub fn assignment<'a>(
    alloc: Global,
    room: u32,
    depth: u32,
    number: u32,
    tokens: &'a [Token<'a>],
) -> Result<(Assignment, &'a [Token<'a>]), Stop<'a>>
    requires { depth ≤ 32 }
    ensures { Reads assignment result (run (reads.assignment_reader room depth number) (lexemes tokens.now)) }
{
    let Some(name) = name_of(kind_at(tokens)) else {
        return Err(Stop::Refused(ParseFault::Expected, tokens));
    };
    let site = site_at(tokens);
    let (index, rest) = index(alloc, room, depth, behind(tokens))?;
    let name = String::from_str(alloc, name)?;
    let destination = Destination { site, name, index };
    assigned(alloc, room, depth, number, destination, rest)
}

/// Reads the declaration of a private variable with its initialiser; with the tokens behind it, or the fault and its tokens.
#[tactic(auto, using(crate::proofs::Steps::part_steps), unfolding(crate::specs::Statements::declaration_reader))]
pub fn declaration<'a>(
    alloc: Global,
    room: u32,
    depth: u32,
    number: u32,
    tokens: &'a [Token<'a>],
) -> Result<(Declaration, &'a [Token<'a>]), Stop<'a>>
    requires { depth ≤ 32 }
    ensures { Reads declaration result (run (reads.declaration_reader room depth number) (lexemes tokens.now)) }
{
    let Some(kind) = kind_named(kind_at(tokens)) else {
        return Err(Stop::Refused(ParseFault::Expected, tokens));
    };
    let site = site_at(tokens);
    let rest = behind(tokens);
    let Some(name) = name_of(kind_at(rest)) else {
        return Err(Stop::Refused(ParseFault::Expected, rest));
    };
    let name_site = site_at(rest);
    let rest = behind(rest);
    let (_, rest) = pass(is_equal(kind_at(rest)), rest)?;
    let (value, rest) = expression(alloc, room, depth, rest)?;
    let declaration = Declaration {
        number,
        site,
        kind,
        name_site,
        name: String::from_str(alloc, name)?,
        value,
    };
    Ok((declaration, rest))
}

#[tactic(auto, using(crate::proofs::Steps::part_steps), unfolding(crate::specs::Statements::first_reader))]
fn first_part<'a>(
    alloc: Global,
    room: u32,
    depth: u32,
    number: u32,
    tokens: &'a [Token<'a>],
) -> Result<(First, &'a [Token<'a>]), Stop<'a>>
    requires { depth ≤ 32 }
    ensures { Reads first result (run (reads.first_reader room depth number) (lexemes tokens.now)) }
{
    match kind_named(kind_at(tokens)) {
        Some(_) => {
            let (declared, rest) = declaration(alloc, room, depth, number, tokens)?;
            Ok((First::Declares(declared), rest))
        }
        None => {
            let (assigned, rest) = assignment(alloc, room, depth, number, tokens)?;
            Ok((First::Assigns(assigned), rest))
        }
    }
}

/// An expression in parentheses.
#[tactic(auto, using(crate::proofs::Steps::part_steps), unfolding(crate::specs::Statements::tested))]
pub fn tested<'a>(
    alloc: Global,
    room: u32,
    depth: u32,
    tokens: &'a [Token<'a>],
) -> Result<(Expr, &'a [Token<'a>]), Stop<'a>>
    requires { depth ≤ 32 }
    ensures { Reads expression result (run (reads.tested room depth) (lexemes tokens.now)) }
{
    if !is_left_parenthesis(kind_at(tokens)) {
        return Err(Stop::Refused(ParseFault::Expected, tokens));
    }
    if room == 0 {
        return Err(Stop::Refused(ParseFault::TooDeep, tokens));
    }
    let (test, rest) = expression(alloc, room - 1, depth, behind(tokens))?;
    closed(test, rest)
}

/// Reads the three parts that a `for` has in parentheses, the first one with the number given; with the tokens behind the parentheses.
#[tactic(auto, using(crate::proofs::Steps::part_steps), unfolding(crate::specs::Statements::head_reader))]
pub fn head_of_for<'a>(
    alloc: Global,
    room: u32,
    depth: u32,
    number: u32,
    tokens: &'a [Token<'a>],
) -> Result<(Head, &'a [Token<'a>]), Stop<'a>>
    requires depth { depth ≤ 32 }
    requires number { number ≤ 513 }
    ensures { Reads head result (run (reads.head_reader room depth number) (lexemes tokens.now)) }
{
    if !is_left_parenthesis(kind_at(tokens)) {
        return Err(Stop::Refused(ParseFault::Expected, tokens));
    }
    if room == 0 {
        return Err(Stop::Refused(ParseFault::TooDeep, tokens));
    }
    parts_of_for(alloc, room - 1, depth, number, behind(tokens))
}

#[tactic(auto, using(crate::proofs::Steps::part_steps), unfolding(crate::specs::Heads::ended))]
fn ended_first<'a>(
    alloc: Global,
    room: u32,
    depth: u32,
    number: u32,
    tokens: &'a [Token<'a>],
) -> Result<(First, &'a [Token<'a>]), Stop<'a>>
    requires { depth ≤ 32 }
    ensures { Reads first result (run (ended (reads.first_reader room depth number) reads.is_semicolon) (lexemes tokens.now)) }
{
    let (first, rest) = first_part(alloc, room, depth, number, tokens)?;
    let (_, rest) = pass(is_semicolon(kind_at(rest)), rest)?;
    Ok((first, rest))
}

#[tactic(auto, using(crate::proofs::Steps::part_steps), unfolding(crate::specs::Heads::ended))]
fn ended_test<'a>(
    alloc: Global,
    room: u32,
    depth: u32,
    tokens: &'a [Token<'a>],
) -> Result<(Expr, &'a [Token<'a>]), Stop<'a>>
    requires { depth ≤ 32 }
    ensures { Reads expression result (run (ended (expression_reader room depth) reads.is_semicolon) (lexemes tokens.now)) }
{
    let (test, rest) = expression(alloc, room, depth, tokens)?;
    let (_, rest) = pass(is_semicolon(kind_at(rest)), rest)?;
    Ok((test, rest))
}

#[tactic(auto, using(crate::proofs::Steps::part_steps), unfolding(crate::specs::Heads::ended))]
fn ended_update<'a>(
    alloc: Global,
    room: u32,
    depth: u32,
    number: u32,
    tokens: &'a [Token<'a>],
) -> Result<(Assignment, &'a [Token<'a>]), Stop<'a>>
    requires { depth ≤ 32 }
    ensures { Reads assignment result (run (ended (reads.assignment_reader room depth number) is_right_parenthesis_of) (lexemes tokens.now)) }
{
    let (update, rest) = assignment(alloc, room, depth, number, tokens)?;
    let (_, rest) = pass(is_right_parenthesis(kind_at(rest)), rest)?;
    Ok((update, rest))
}

#[tactic(auto, using(crate::proofs::HeadSteps::head_steps))]
fn parts_of_for<'a>(
    alloc: Global,
    room: u32,
    depth: u32,
    number: u32,
    tokens: &'a [Token<'a>],
) -> Result<(Head, &'a [Token<'a>]), Stop<'a>>
    requires depth { depth ≤ 32 }
    requires number { number ≤ 513 }
    ensures { Reads head result (run (reads.parts_reader room depth number) (lexemes tokens.now)) }
{
    let (first, rest) = ended_first(alloc, room, depth, number, tokens)?;
    let (test, rest) = ended_test(alloc, room, depth, rest)?;
    let (update, rest) = ended_update(alloc, room, depth, number + 1, rest)?;
    let head = Head {
        first,
        test,
        update,
    };
    Ok((head, rest))
}

/// Reads the declaration of a local array behind its `__local`; with the tokens behind it, or the fault and its tokens.
#[tactic(auto, using(crate::proofs::Steps::part_steps), unfolding(crate::specs::Statements::array_reader))]
pub fn array<'a>(
    alloc: Global,
    room: u32,
    number: u32,
    site: Site,
    tokens: &'a [Token<'a>],
) -> Result<(Stmt, &'a [Token<'a>]), Stop<'a>>
    ensures { Reads statement result (run (reads.array_reader room number (site_of site)) (lexemes tokens.now)) }
{
    let Some(kind) = kind_named(kind_at(tokens)) else {
        return Err(Stop::Refused(ParseFault::Expected, tokens));
    };
    let rest = behind(tokens);
    let Some(name) = name_of(kind_at(rest)) else {
        return Err(Stop::Refused(ParseFault::Expected, rest));
    };
    let name_site = site_at(rest);
    let rest = behind(rest);
    if !is_left_bracket(kind_at(rest)) {
        return Err(Stop::Refused(ParseFault::Expected, rest));
    }
    if room == 0 {
        return Err(Stop::Refused(ParseFault::TooDeep, rest));
    }
    let (length, rest) = array_length(behind(rest))?;
    let (_, rest) = pass(is_right_bracket(kind_at(rest)), rest)?;
    let (_, rest) = pass(is_semicolon(kind_at(rest)), rest)?;
    let array = Stmt::DeclareArray {
        number,
        site,
        kind,
        name_site,
        name: String::from_str(alloc, name)?,
        length,
    };
    Ok((array, rest))
}

fn is_length(length: u32) -> bool
    ensures { result ≡ (nat_lt 0 length && nat_le length 16384) }
{
    0 < length && length <= 16_384
}

fn array_length<'a>(tokens: &'a [Token<'a>]) -> Result<(u32, &'a [Token<'a>]), Stop<'a>>
    ensures { Reads (λ n. n) result (run (reads.length_reader) (lexemes tokens.now)) }
{
    match number_of(kind_at(tokens)) {
        None => Err(Stop::Refused(ParseFault::Expected, tokens)),
        Some(length) if is_length(length) => Ok((length, behind(tokens))),
        Some(_) => Err(Stop::Refused(ParseFault::TooMany, tokens)),
    }
}
