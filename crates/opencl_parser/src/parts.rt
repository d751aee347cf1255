//! The parts of statements that have no statements in them: `depth` is how many levels may stand below.

ghost use Rattle.std.specs.Prelude.{◌≡◌, ◌≤◌};
ghost use Rattle.core_code.specs.View.{site as site_of};
ghost use Rattle.opencl_tokens.specs.Seen.{lexeme_kind};
ghost use Rattle.opencl_tree.specs.View.{expression, maybe, first as first_seen, statement as statement_seen};
ghost use Rattle.opencl_parser.specs.Reader.{run};
ghost use Rattle.opencl_parser.specs.Signs.{is_right_parenthesis as is_right_parenthesis_of};
ghost use Rattle.opencl_parser.specs.Statements as reads;
ghost use Rattle.opencl_parser.specs.View.{lexemes, Reads, all_known};
ghost use Rattle.opencl_parser.specs.StatementsView.{head as head_seen, item as item_seen, numbered};

use crate::aliases::{Place, alias};
use crate::declarations::{declaration, is_right_brace, starts_declaration};
use crate::expressions::level;
use crate::front::{behind, kind_at, pass, site_at};
use crate::signs::{is_colon, is_left_parenthesis, is_right_parenthesis};
use crate::stops::{Construct, ParseError, ParseFault};
use crate::type_words::Known;
use core_code::tree::Site;
use opencl_tokens::{Lexeme, LexemeKind, Sign, Word};
use opencl_tree::tree::{Expr, First, Stmt};
use std::alloc::Global;

/// The parts of a `for` in its parentheses.
#[derive(Drop)]
pub struct Head {
    pub first: First,
    pub test: Option<Expr>,
    pub update: Option<Expr>,
}

/// A statement of a block, the number of the next one, and the name of a type that it makes.
#[derive(Drop)]
pub struct Item<'a> {
    pub statement: Stmt,
    pub next: u32,
    pub made: Option<Known<'a>>,
}

pub fn is_semicolon(kind: LexemeKind) -> bool
    ensures { result ≡ reads.is_semicolon (lexeme_kind kind.entry) }
{
    matches!(kind, LexemeKind::Mark(Sign::Semicolon))
}

pub fn is_while(kind: LexemeKind) -> bool
    ensures { result ≡ reads.is_while (lexeme_kind kind.entry) }
{
    matches!(kind, LexemeKind::Word(Word::While))
}

pub fn is_else(kind: LexemeKind) -> bool
    ensures { result ≡ reads.is_else (lexeme_kind kind.entry) }
{
    matches!(kind, LexemeKind::Word(Word::Else))
}

/// An expression in parentheses.
#[tactic(auto, using(crate::proofs::StatementSteps::part_steps))]
pub fn tested<'a>(
    alloc: Global,
    types: &[Known],
    depth: u32,
    tokens: &'a [Lexeme<'a>],
) -> Result<(Expr, &'a [Lexeme<'a>]), ParseError>
    requires depth { depth ≤ 64 }
    ensures { Reads expression result (run (reads.tested (all_known types.now) depth) (lexemes tokens.now)) }
{
    let (_, rest) = pass(is_left_parenthesis(kind_at(tokens)), tokens)?;
    let (test, rest) = level(alloc, types, depth, 13, rest)?;
    let (_, rest) = pass(is_right_parenthesis(kind_at(rest)), rest)?;
    Ok((test, rest))
}

/// An expression, or none, up to and with a semicolon.
#[tactic(auto, using(crate::proofs::StatementSteps::part_steps))]
pub fn before_semicolon<'a>(
    alloc: Global,
    types: &[Known],
    depth: u32,
    tokens: &'a [Lexeme<'a>],
) -> Result<(Option<Expr>, &'a [Lexeme<'a>]), ParseError>
    requires depth { depth ≤ 64 }
    ensures { Reads maybe result (run (reads.optional (all_known types.now) depth reads.is_semicolon) (lexemes tokens.now)) }
{
    if is_semicolon(kind_at(tokens)) {
        return Ok((None, behind(tokens)));
    }
    let (value, rest) = level(alloc, types, depth, 13, tokens)?;
    let (_, rest) = pass(is_semicolon(kind_at(rest)), rest)?;
    Ok((Some(value), rest))
}

/// An expression, or none, up to and with a closing parenthesis.
#[tactic(auto, using(crate::proofs::StatementSteps::part_steps))]
fn before_parenthesis<'a>(
    alloc: Global,
    types: &[Known],
    depth: u32,
    tokens: &'a [Lexeme<'a>],
) -> Result<(Option<Expr>, &'a [Lexeme<'a>]), ParseError>
    requires depth { depth ≤ 64 }
    ensures { Reads maybe result (run (reads.optional (all_known types.now) depth is_right_parenthesis_of) (lexemes tokens.now)) }
{
    if is_right_parenthesis(kind_at(tokens)) {
        return Ok((None, behind(tokens)));
    }
    let (value, rest) = level(alloc, types, depth, 13, tokens)?;
    let (_, rest) = pass(is_right_parenthesis(kind_at(rest)), rest)?;
    Ok((Some(value), rest))
}

#[tactic(auto, using(crate::proofs::StatementSteps::part_steps))]
fn first_declares<'a>(
    alloc: Global,
    types: &[Known],
    depth: u32,
    place: Place,
    tokens: &'a [Lexeme<'a>],
) -> Result<(First, &'a [Lexeme<'a>]), ParseError>
    requires depth { depth ≤ 64 }
    ensures { Reads first_seen result (run (reads.first_declares (all_known types.now) depth place.number (site_of place.site)) (lexemes tokens.now)) }
{
    let (declared, rest) = declaration(alloc, types, depth, place.number, place.site, tokens)?;
    let (_, rest) = pass(is_semicolon(kind_at(rest)), rest)?;
    Ok((First::Declares(declared), rest))
}

fn first_of(value: Option<Expr>) -> First
    ensures { first_seen result ≡ reads.first_of (maybe value) }
{
    match value {
        None => First::Absent,
        Some(value) => First::Evaluates(value),
    }
}

#[tactic(auto, using(crate::proofs::StatementSteps::part_steps))]
fn first_part<'a>(
    alloc: Global,
    types: &[Known],
    depth: u32,
    number: u32,
    tokens: &'a [Lexeme<'a>],
) -> Result<(First, &'a [Lexeme<'a>]), ParseError>
    requires depth { depth ≤ 64 }
    ensures { Reads first_seen result (run (reads.first_reader (all_known types.now) depth number) (lexemes tokens.now)) }
{
    if starts_declaration(types, kind_at(tokens)) {
        let site = site_at(tokens);
        first_declares(alloc, types, depth, Place { number, site }, tokens)
    } else {
        let (value, rest) = before_semicolon(alloc, types, depth, tokens)?;
        Ok((first_of(value), rest))
    }
}

/// Reads what a `for` has in parentheses, the first part with the number given.
#[tactic(auto, using(crate::proofs::StatementSteps::part_steps))]
pub fn head_at<'a>(
    alloc: Global,
    types: &[Known],
    depth: u32,
    number: u32,
    tokens: &'a [Lexeme<'a>],
) -> Result<(Head, &'a [Lexeme<'a>]), ParseError>
    requires depth { depth ≤ 64 }
    ensures { Reads head_seen result (run (reads.head_reader (all_known types.now) depth number) (lexemes tokens.now)) }
{
    let (_, rest) = pass(is_left_parenthesis(kind_at(tokens)), tokens)?;
    let (first, rest) = first_part(alloc, types, depth, number, rest)?;
    let (test, rest) = before_semicolon(alloc, types, depth, rest)?;
    let (update, rest) = before_parenthesis(alloc, types, depth, rest)?;
    let head = Head {
        first,
        test,
        update,
    };
    Ok((head, rest))
}

/// Reads the `while` of a `do` with its test and semicolon.
#[tactic(auto, using(crate::proofs::StatementSteps::part_steps))]
pub fn until<'a>(
    alloc: Global,
    types: &[Known],
    depth: u32,
    tokens: &'a [Lexeme<'a>],
) -> Result<(Expr, &'a [Lexeme<'a>]), ParseError>
    requires depth { depth ≤ 64 }
    ensures { Reads expression result (run (reads.until (all_known types.now) depth) (lexemes tokens.now)) }
{
    let (_, rest) = pass(is_while(kind_at(tokens)), tokens)?;
    let (test, rest) = tested(alloc, types, depth, rest)?;
    let (_, rest) = pass(is_semicolon(kind_at(rest)), rest)?;
    Ok((test, rest))
}

/// Reads what stands behind `return`.
#[tactic(auto, using(crate::proofs::StatementSteps::part_steps))]
pub fn returned<'a>(
    alloc: Global,
    types: &[Known],
    depth: u32,
    place: Place,
    tokens: &'a [Lexeme<'a>],
) -> Result<((Stmt, u32), &'a [Lexeme<'a>]), ParseError>
    requires depth { depth ≤ 64 }
    requires number { place.number ≤ 4096 }
    ensures { Reads numbered result (run (reads.returned (all_known types.now) depth place.number (site_of place.site)) (lexemes tokens.now)) }
{
    let Place { number, site } = place;
    let (value, rest) = before_semicolon(alloc, types, depth, tokens)?;
    let tree = Stmt::Return {
        number,
        site,
        value,
    };
    Ok(((tree, number + 1), rest))
}

/// The statement with its semicolon.
#[tactic(auto, using(crate::proofs::StatementSteps::part_steps))]
pub fn ended<'a>(
    number: u32,
    statement: Stmt,
    tokens: &'a [Lexeme<'a>],
) -> Result<((Stmt, u32), &'a [Lexeme<'a>]), ParseError>
    requires number { number ≤ 4096 }
    ensures { Reads numbered result (run (reads.ended number (statement_seen statement)) (lexemes tokens.now)) }
{
    let (_, rest) = pass(is_semicolon(kind_at(tokens)), tokens)?;
    Ok(((statement, number + 1), rest))
}

fn is_name(value: &Expr) -> bool
    ensures { result ≡ reads.is_name (expression value.now) }
{
    matches!(value, Expr::Name { .. })
}

/// Reads an expression with its semicolon.
#[tactic(auto, using(crate::proofs::StatementSteps::part_steps))]
pub fn evaluated<'a>(
    alloc: Global,
    types: &[Known],
    depth: u32,
    place: Place,
    tokens: &'a [Lexeme<'a>],
) -> Result<((Stmt, u32), &'a [Lexeme<'a>]), ParseError>
    requires depth { depth ≤ 64 }
    requires number { place.number ≤ 4096 }
    ensures { Reads numbered result (run (reads.evaluated (all_known types.now) depth place.number (site_of place.site)) (lexemes tokens.now)) }
{
    let Place { number, site } = place;
    let (value, rest) = level(alloc, types, depth, 13, tokens)?;
    if is_colon(kind_at(rest)) && is_name(&value) {
        return Err(ParseError::At {
            fault: ParseFault::LeftOut(Construct::Label),
            site: site_at(rest),
        });
    }
    let tree = Stmt::Evaluate {
        number,
        site,
        value,
    };
    ended(number, tree, rest)
}

/// A label with its colon, where a statement may begin behind it.
#[tactic(auto, using(crate::proofs::StatementSteps::part_steps))]
pub fn labelled<'a>(
    types: &[Known],
    number: u32,
    statement: Stmt,
    tokens: &'a [Lexeme<'a>],
) -> Result<(Item<'a>, &'a [Lexeme<'a>]), ParseError>
    requires number { number ≤ 4096 }
    ensures { Reads item_seen result (run (reads.labelled (all_known types.now) number (statement_seen statement)) (lexemes tokens.now)) }
{
    let (_, rest) = pass(is_colon(kind_at(tokens)), tokens)?;
    if is_right_brace(kind_at(rest)) || starts_declaration(types, kind_at(rest)) {
        return Err(ParseError::At {
            fault: ParseFault::Expected,
            site: site_at(rest),
        });
    }
    let item = Item {
        statement,
        next: number + 1,
        made: None,
    };
    Ok((item, rest))
}

/// Reads what stands behind `case`.
#[tactic(auto, using(crate::proofs::StatementSteps::part_steps))]
pub fn case<'a>(
    alloc: Global,
    types: &[Known],
    depth: u32,
    place: Place,
    tokens: &'a [Lexeme<'a>],
) -> Result<(Item<'a>, &'a [Lexeme<'a>]), ParseError>
    requires depth { depth ≤ 64 }
    requires number { place.number ≤ 4096 }
    ensures { Reads item_seen result (run (reads.case_reader (all_known types.now) depth place.number (site_of place.site)) (lexemes tokens.now)) }
{
    let Place { number, site } = place;
    let (value, rest) = level(alloc, types, depth, 11, tokens)?;
    let tree = Stmt::Case {
        number,
        site,
        value,
    };
    labelled(types, number, tree, rest)
}

/// Reads what stands behind `typedef`, with its semicolon.
#[tactic(auto, using(crate::proofs::StatementSteps::part_steps))]
pub fn alias_item<'a>(
    alloc: Global,
    types: &[Known],
    depth: u32,
    place: Place,
    tokens: &'a [Lexeme<'a>],
) -> Result<(Item<'a>, &'a [Lexeme<'a>]), ParseError>
    requires depth { depth ≤ 64 }
    requires number { place.number ≤ 4096 }
    ensures { Reads item_seen result (run (reads.alias_reader (all_known types.now) depth place.number (site_of place.site)) (lexemes tokens.now)) }
{
    let ((declared, known), rest) = alias(alloc, types, depth, place, tokens)?;
    let (_, rest) = pass(is_semicolon(kind_at(rest)), rest)?;
    let item = Item {
        statement: Stmt::Typedef(declared),
        next: place.number + 1,
        made: Some(known),
    };
    Ok((item, rest))
}

/// Reads a declaration with its semicolon.
#[tactic(auto, using(crate::proofs::StatementSteps::part_steps))]
pub fn declaration_item<'a>(
    alloc: Global,
    types: &[Known],
    depth: u32,
    place: Place,
    tokens: &'a [Lexeme<'a>],
) -> Result<(Item<'a>, &'a [Lexeme<'a>]), ParseError>
    requires depth { depth ≤ 64 }
    requires number { place.number ≤ 4096 }
    ensures { Reads item_seen result (run (reads.declaration_reader (all_known types.now) depth place.number (site_of place.site)) (lexemes tokens.now)) }
{
    let (declared, rest) = declaration(alloc, types, depth, place.number, place.site, tokens)?;
    let (_, rest) = pass(is_semicolon(kind_at(rest)), rest)?;
    let item = Item {
        statement: Stmt::Declare(declared),
        next: place.number + 1,
        made: None,
    };
    Ok((item, rest))
}
