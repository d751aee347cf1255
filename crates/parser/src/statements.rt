//! Statements: `room` is how many brackets may be opened, `depth` how many levels of the tree are left, `number` that of the next
//! statement.

ghost use Rattle.std.specs.Prelude.{◌≡◌, ◌≤◌, ◌+◌};
ghost use Rattle.syntax.specs.View.{expression, jump_word};
ghost use Rattle.core_code.specs.View.{site as site_of};
ghost use Rattle.parser.specs.Reader.{run, Looks};
ghost use Rattle.parser.specs.View.{lexemes, Reads, numbered, all_numbered};
ghost use Rattle.parser.specs.Heads.{choice_reader, counting_reader};
ghost use Rattle.parser.specs.Statements as reads;

use crate::front::{
    behind, is_else, is_left_brace, is_local, is_right_brace, is_semicolon, kind_at, kind_named,
    pass, site_at,
};
use crate::parts::{array, assignment, declaration, head_of_for, tested};
use crate::stops::{ParseFault, Stop};
use core_code::tree::Site;
use lexer::{Reserved, Sign, Token, TokenKind};
use std::alloc::Global;
use syntax::tree::{Expr, JumpWord, Stmt};

/// One more than the most statements of a kernel.
const MOST_ITEMS: u32 = 513;

/// The name with which a statement begins, and its site.
#[derive(Clone, Copy)]
struct Opening<'a> {
    site: Site,
    name: &'a str,
}

// What begins with a name: a barrier or an assignment.
#[tactic(auto, using(crate::proofs::Steps::part_steps), unfolding(crate::specs::Statements::named))]
fn named<'a>(
    alloc: Global,
    room: u32,
    depth: u32,
    number: u32,
    opening: Opening<'_>,
    tokens: &'a [Token<'a>],
) -> Result<((Stmt, u32), &'a [Token<'a>]), Stop<'a>>
    requires depth { depth ≤ 31 }
    requires number { number ≤ 512 }
    ensures { Reads numbered result (run (reads.named room depth number (site_of opening.entry.site) opening.entry.name.now) (lexemes tokens.now)) }
{
    if opening.name == "barrier" {
        let (flags, rest) = tested(alloc, room, depth, behind(tokens))?;
        let (_, rest) = pass(is_semicolon(kind_at(rest)), rest)?;
        let barrier = Stmt::Barrier {
            number,
            site: opening.site,
            flags,
        };
        Ok(((barrier, number + 1), rest))
    } else {
        let (assigned, rest) = assignment(alloc, room, depth, number, tokens)?;
        let (_, rest) = pass(is_semicolon(kind_at(rest)), rest)?;
        Ok(((Stmt::Assign(assigned), number + 1), rest))
    }
}

// At the word of a jump statement.
#[tactic(auto, using(crate::proofs::Steps::part_steps), unfolding(crate::specs::Statements::jump_reader))]
fn jump<'a>(
    number: u32,
    site: Site,
    jump: JumpWord,
    tokens: &'a [Token<'a>],
) -> Result<((Stmt, u32), &'a [Token<'a>]), Stop<'a>>
    requires { number ≤ 512 }
    ensures { Reads numbered result (run (reads.jump_reader number (site_of site) (jump_word jump)) (lexemes tokens.now)) }
{
    let (_, rest) = pass(is_semicolon(kind_at(behind(tokens))), behind(tokens))?;
    let tree = Stmt::Jump { number, site, jump };
    Ok(((tree, number + 1), rest))
}

/// Reads a statement at the front of the tokens; with the number of the next statement and the tokens behind it, or the fault and its
/// tokens.
#[cycle(statements)]
#[tactic(auto, using(crate::proofs::StatementSteps::statement_steps))]
pub fn statement<'a>(
    alloc: Global,
    room: u32,
    depth: u32,
    number: u32,
    tokens: &'a [Token<'a>],
) -> Result<((Stmt, u32), &'a [Token<'a>]), Stop<'a>>
    requires { depth ≤ 32 }
    ensures { Reads numbered result (run (reads.statement_reader depth room number) (lexemes tokens.now)) }
{
    if depth == 0 {
        return Err(Stop::Refused(ParseFault::TooDeep, tokens));
    }
    if number > 512 {
        return Err(Stop::Refused(ParseFault::TooMany, tokens));
    }
    below(alloc, room, depth - 1, number, tokens)
}

// With `depth` levels below it.
#[cycle(statements)]
#[tactic(auto, using(crate::proofs::StatementSteps::statement_steps))]
fn below<'a>(
    alloc: Global,
    room: u32,
    depth: u32,
    number: u32,
    tokens: &'a [Token<'a>],
) -> Result<((Stmt, u32), &'a [Token<'a>]), Stop<'a>>
    requires depth { depth ≤ 31 }
    requires number { number ≤ 512 }
    ensures { Reads numbered result (run (Looks (λ t. reads.statement_by (reads.body_reader depth) (reads.block_reader depth) room depth number t.site t.kind)) (lexemes tokens.now)) }
{
    let site = site_at(tokens);
    match kind_at(tokens) {
        TokenKind::Name(name) => {
            let opening = Opening { site, name };
            named(alloc, room, depth, number, opening, tokens)
        }
        TokenKind::Sign(Sign::LeftBrace) => {
            if room == 0 {
                return Err(Stop::Refused(ParseFault::TooDeep, tokens));
            }
            let ((body, next), rest) = block(alloc, room - 1, depth, number + 1, behind(tokens))?;
            Ok(((Stmt::Block { number, site, body }, next), rest))
        }
        TokenKind::Reserved(Reserved::If) => {
            choice(alloc, room, depth, number, site, behind(tokens))
        }
        TokenKind::Reserved(Reserved::While) => {
            let (test, rest) = tested(alloc, room, depth, behind(tokens))?;
            let ((body, next), rest) = body(alloc, room, depth, number + 1, rest)?;
            let tree = Stmt::While {
                number,
                site,
                test,
                body,
            };
            Ok(((tree, next), rest))
        }
        TokenKind::Reserved(Reserved::For) => {
            if number > 510 {
                return Err(Stop::Refused(ParseFault::TooMany, tokens));
            }
            counting(alloc, room, depth, number, site, behind(tokens))
        }
        TokenKind::Reserved(Reserved::Return) => jump(number, site, JumpWord::Return, tokens),
        TokenKind::Reserved(Reserved::Break) => jump(number, site, JumpWord::Break, tokens),
        TokenKind::Reserved(Reserved::Continue) => jump(number, site, JumpWord::Continue, tokens),
        _ => Err(Stop::Refused(ParseFault::Expected, tokens)),
    }
}

// Behind `if`.
#[cycle(statements)]
#[tactic(auto, using(crate::proofs::StatementSteps::statement_steps))]
fn choice<'a>(
    alloc: Global,
    room: u32,
    depth: u32,
    number: u32,
    site: Site,
    tokens: &'a [Token<'a>],
) -> Result<((Stmt, u32), &'a [Token<'a>]), Stop<'a>>
    requires depth { depth ≤ 31 }
    requires number { number ≤ 512 }
    ensures { Reads numbered result (run (choice_reader (reads.body_reader depth) room depth number (site_of site)) (lexemes tokens.now)) }
{
    let (test, rest) = tested(alloc, room, depth, tokens)?;
    let ((taken, middle), rest) = body(alloc, room, depth, number + 1, rest)?;
    let ((skipped, next), rest) = otherwise(alloc, room, depth, middle, rest)?;
    let tree = Stmt::If {
        number,
        site,
        test,
        taken,
        skipped,
    };
    Ok(((tree, next), rest))
}

// Behind `for`.
#[cycle(statements)]
#[tactic(auto, using(crate::proofs::StatementSteps::statement_steps))]
fn counting<'a>(
    alloc: Global,
    room: u32,
    depth: u32,
    number: u32,
    site: Site,
    tokens: &'a [Token<'a>],
) -> Result<((Stmt, u32), &'a [Token<'a>]), Stop<'a>>
    requires depth { depth ≤ 31 }
    requires number { number ≤ 510 }
    ensures { Reads numbered result (run (counting_reader (reads.body_reader depth) room depth number (site_of site)) (lexemes tokens.now)) }
{
    let (head, rest) = head_of_for(alloc, room, depth, number + 1, tokens)?;
    let ((body, next), rest) = body(alloc, room, depth, number + 3, rest)?;
    let tree = Stmt::For {
        number,
        site,
        first: head.first,
        test: head.test,
        update: head.update,
        body,
    };
    Ok(((tree, next), rest))
}

// What an `else` brings, if one stands here.
#[cycle(statements)]
#[tactic(auto, using(crate::proofs::StatementSteps::statement_steps))]
fn otherwise<'a>(
    alloc: Global,
    room: u32,
    depth: u32,
    number: u32,
    tokens: &'a [Token<'a>],
) -> Result<((Vec<Stmt>, u32), &'a [Token<'a>]), Stop<'a>>
    requires { depth ≤ 31 }
    ensures { Reads all_numbered result (run (reads.else_reader (reads.body_reader depth) room number) (lexemes tokens.now)) }
{
    if is_else(kind_at(tokens)) {
        body(alloc, room, depth, number, behind(tokens))
    } else {
        Ok(((Vec::new(alloc), number), tokens))
    }
}

// The part of an `if` or a loop.
#[cycle(statements)]
#[tactic(auto, using(crate::proofs::StatementSteps::statement_steps))]
fn body<'a>(
    alloc: Global,
    room: u32,
    depth: u32,
    number: u32,
    tokens: &'a [Token<'a>],
) -> Result<((Vec<Stmt>, u32), &'a [Token<'a>]), Stop<'a>>
    requires { depth ≤ 31 }
    ensures { Reads all_numbered result (run (reads.body_reader depth room number) (lexemes tokens.now)) }
{
    if is_left_brace(kind_at(tokens)) {
        if room == 0 {
            return Err(Stop::Refused(ParseFault::TooDeep, tokens));
        }
        return block(alloc, room - 1, depth, number, behind(tokens));
    }
    let ((only, next), rest) = statement(alloc, room, depth, number, tokens)?;
    let mut list = Vec::new(alloc);
    list.push(only)?;
    Ok(((list, next), rest))
}

/// Statements up to and with the brace that closes them.
#[cycle(statements)]
#[tactic(auto, using(crate::proofs::StatementSteps::statement_steps))]
pub fn block<'a>(
    alloc: Global,
    room: u32,
    depth: u32,
    number: u32,
    tokens: &'a [Token<'a>],
) -> Result<((Vec<Stmt>, u32), &'a [Token<'a>]), Stop<'a>>
    requires { depth ≤ 32 }
    ensures { Reads all_numbered result (run (reads.block_reader depth room number) (lexemes tokens.now)) }
{
    let mut list = Vec::new(alloc);
    if is_right_brace(kind_at(tokens)) {
        return Ok(((list, number), behind(tokens)));
    }
    let ((first, mut next), mut rest) = item(alloc, room, depth, number, tokens)?;
    list.push(first)?;
    for _count in 1..MOST_ITEMS {
        if is_right_brace(kind_at(rest)) {
            return Ok(((list, next), behind(rest)));
        }
        let ((another, after), others) = item(alloc, room, depth, next, rest)?;
        list.push(another)?;
        next = after;
        rest = others;
    }
    Err(Stop::Refused(ParseFault::TooMany, rest))
}

// A statement, a declaration or a local array.
#[cycle(statements)]
#[tactic(auto, using(crate::proofs::StatementSteps::statement_steps))]
fn item<'a>(
    alloc: Global,
    room: u32,
    depth: u32,
    number: u32,
    tokens: &'a [Token<'a>],
) -> Result<((Stmt, u32), &'a [Token<'a>]), Stop<'a>>
    requires { depth ≤ 32 }
    ensures { Reads numbered result (run (reads.item_reader depth room number) (lexemes tokens.now)) }
{
    if depth == 0 {
        return Err(Stop::Refused(ParseFault::TooDeep, tokens));
    }
    if number > 512 {
        return Err(Stop::Refused(ParseFault::TooMany, tokens));
    }
    match kind_named(kind_at(tokens)) {
        Some(_) => {
            let (declared, rest) = declaration(alloc, room, depth - 1, number, tokens)?;
            let (_, rest) = pass(is_semicolon(kind_at(rest)), rest)?;
            Ok(((Stmt::Declare(declared), number + 1), rest))
        }
        None => {
            if is_local(kind_at(tokens)) {
                let site = site_at(tokens);
                let (array, rest) = array(alloc, room, number, site, behind(tokens))?;
                Ok(((array, number + 1), rest))
            } else {
                statement(alloc, room, depth, number, tokens)
            }
        }
    }
}
