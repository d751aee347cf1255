//! Statements: `depth` is how many levels may stand below, `number` that of the next statement.

ghost use Rattle.std.specs.Prelude.{◌≡◌, ◌≤◌, ◌-◌, IfOk};
ghost use Rattle.core_code.specs.View.{site as site_of};
ghost use Rattle.opencl_tree.specs.View.{statement as statement_seen};
ghost use Rattle.opencl_parser.specs.Reader.{run, front};
ghost use Rattle.opencl_parser.specs.Statements as reads;
ghost use Rattle.opencl_parser.specs.View.{lexemes, Reads, all_known};
ghost use Rattle.opencl_parser.specs.DeclarationsView.{maybe_known};
ghost use Rattle.opencl_parser.specs.StatementsView.{item as item_seen, numbered, all_numbered};

use crate::aliases::Place;
use crate::declarations::{is_left_brace, is_right_brace, starts_declaration};
use crate::front::{behind, kind_at, pass, site_at};
use crate::parts::{
    Item, alias_item, case, declaration_item, ended, evaluated, head_at, is_else, labelled,
    returned, tested, until,
};
use crate::stops::{Construct, ParseError, ParseFault};
use crate::type_words::Known;
use opencl_tokens::{Lexeme, LexemeKind, Sign, Word};
use opencl_tree::tree::Stmt;
use std::alloc::{AllocError, Global};

/// One more than the statements that a block may have.
const MOST_ITEMS: u32 = 4_097;

/// Reads a statement at the front of the lexemes; with the number of the next one.
#[cycle(statements)]
#[tactic(auto, using(crate::proofs::BlockSteps::statement_steps))]
pub fn statement<'a>(
    alloc: Global,
    types: &[Known<'a>],
    depth: u32,
    number: u32,
    tokens: &'a [Lexeme<'a>],
) -> Result<((Stmt, u32), &'a [Lexeme<'a>]), ParseError>
    requires { depth ≤ 64 }
    ensures { Reads numbered result (run (reads.statement_reader (all_known types.now) depth number) (lexemes tokens.now)) }
{
    let site = site_at(tokens);
    if depth == 0 {
        return Err(ParseError::At {
            fault: ParseFault::TooDeep,
            site,
        });
    }
    if number > 4096 {
        return Err(ParseError::At {
            fault: ParseFault::TooMany,
            site,
        });
    }
    below(alloc, types, depth - 1, Place { number, site }, tokens)
}

// With `depth` levels below it.
#[cycle(statements)]
#[tactic(auto, using(crate::proofs::BlockSteps::statement_steps))]
fn below<'a>(
    alloc: Global,
    types: &[Known<'a>],
    depth: u32,
    place: Place,
    tokens: &'a [Lexeme<'a>],
) -> Result<((Stmt, u32), &'a [Lexeme<'a>]), ParseError>
    requires depth { depth ≤ 63 }
    requires number { place.number ≤ 4096 }
    ensures { Reads numbered result (run (reads.statement_by (reads.body_reader (all_known types.now) depth) (reads.block_reader (all_known types.now) depth) (all_known types.now) depth place.number (site_of place.site) (front (lexemes tokens.now)).kind) (lexemes tokens.now)) }
{
    let Place { number, site } = place;
    let rest = behind(tokens);
    match kind_at(tokens) {
        LexemeKind::Mark(Sign::LeftBrace) => braces(alloc, types, depth, place, rest),
        LexemeKind::Mark(Sign::Semicolon) => Ok(((Stmt::Empty { number, site }, number + 1), rest)),
        LexemeKind::Word(Word::If) => choice(alloc, types, depth, place, rest),
        LexemeKind::Word(Word::While) => repeated(alloc, types, depth, place, rest),
        LexemeKind::Word(Word::Do) => done(alloc, types, depth, place, rest),
        LexemeKind::Word(Word::For) => {
            if number > 4094 {
                return Err(ParseError::At {
                    fault: ParseFault::TooMany,
                    site: site_at(tokens),
                });
            }
            counting(alloc, types, depth, place, rest)
        }
        LexemeKind::Word(Word::Switch) => selected(alloc, types, depth, place, rest),
        LexemeKind::Word(Word::Return) => returned(alloc, types, depth, place, rest),
        LexemeKind::Word(Word::Break) => ended(number, Stmt::Break { number, site }, rest),
        LexemeKind::Word(Word::Continue) => ended(number, Stmt::Continue { number, site }, rest),
        LexemeKind::Word(Word::Goto) => Err(ParseError::At {
            fault: ParseFault::LeftOut(Construct::Goto),
            site: site_at(tokens),
        }),
        _ => evaluated(alloc, types, depth, place, tokens),
    }
}

// Behind a brace with which a statement begins.
#[cycle(statements)]
#[tactic(auto, using(crate::proofs::BlockSteps::statement_steps))]
fn braces<'a>(
    alloc: Global,
    types: &[Known<'a>],
    depth: u32,
    place: Place,
    tokens: &'a [Lexeme<'a>],
) -> Result<((Stmt, u32), &'a [Lexeme<'a>]), ParseError>
    requires depth { depth ≤ 63 }
    requires number { place.number ≤ 4096 }
    ensures { Reads numbered result (run (reads.braces (reads.block_reader (all_known types.now) depth) place.number (site_of place.site)) (lexemes tokens.now)) }
{
    let Place { number, site } = place;
    let ((body, next), rest) = block(alloc, types, depth, number + 1, tokens)?;
    Ok(((Stmt::Block { number, site, body }, next), rest))
}

// Behind `if`.
#[cycle(statements)]
#[tactic(auto, using(crate::proofs::BlockSteps::statement_steps))]
fn choice<'a>(
    alloc: Global,
    types: &[Known<'a>],
    depth: u32,
    place: Place,
    tokens: &'a [Lexeme<'a>],
) -> Result<((Stmt, u32), &'a [Lexeme<'a>]), ParseError>
    requires depth { depth ≤ 63 }
    requires number { place.number ≤ 4096 }
    ensures { Reads numbered result (run (reads.choice (reads.body_reader (all_known types.now) depth) (all_known types.now) depth place.number (site_of place.site)) (lexemes tokens.now)) }
{
    let Place { number, site } = place;
    let (test, rest) = tested(alloc, types, depth, tokens)?;
    let ((taken, middle), rest) = body(alloc, types, depth, number + 1, rest)?;
    let ((skipped, next), rest) = otherwise(alloc, types, depth, middle, rest)?;
    let tree = Stmt::If {
        number,
        site,
        test,
        taken,
        skipped,
    };
    Ok(((tree, next), rest))
}

// Behind `while`.
#[cycle(statements)]
#[tactic(auto, using(crate::proofs::BlockSteps::statement_steps))]
fn repeated<'a>(
    alloc: Global,
    types: &[Known<'a>],
    depth: u32,
    place: Place,
    tokens: &'a [Lexeme<'a>],
) -> Result<((Stmt, u32), &'a [Lexeme<'a>]), ParseError>
    requires depth { depth ≤ 63 }
    requires number { place.number ≤ 4096 }
    ensures { Reads numbered result (run (reads.repeated (reads.body_reader (all_known types.now) depth) (all_known types.now) depth place.number (site_of place.site)) (lexemes tokens.now)) }
{
    let Place { number, site } = place;
    let (test, rest) = tested(alloc, types, depth, tokens)?;
    let ((body, next), rest) = body(alloc, types, depth, number + 1, rest)?;
    let tree = Stmt::While {
        number,
        site,
        test,
        body,
    };
    Ok(((tree, next), rest))
}

// Behind `switch`.
#[cycle(statements)]
#[tactic(auto, using(crate::proofs::BlockSteps::statement_steps))]
fn selected<'a>(
    alloc: Global,
    types: &[Known<'a>],
    depth: u32,
    place: Place,
    tokens: &'a [Lexeme<'a>],
) -> Result<((Stmt, u32), &'a [Lexeme<'a>]), ParseError>
    requires depth { depth ≤ 63 }
    requires number { place.number ≤ 4096 }
    ensures { Reads numbered result (run (reads.selected (reads.body_reader (all_known types.now) depth) (all_known types.now) depth place.number (site_of place.site)) (lexemes tokens.now)) }
{
    let Place { number, site } = place;
    let (test, rest) = tested(alloc, types, depth, tokens)?;
    let ((body, next), rest) = body(alloc, types, depth, number + 1, rest)?;
    let tree = Stmt::Switch {
        number,
        site,
        test,
        body,
    };
    Ok(((tree, next), rest))
}

// Behind `do`.
#[cycle(statements)]
#[tactic(auto, using(crate::proofs::BlockSteps::statement_steps))]
fn done<'a>(
    alloc: Global,
    types: &[Known<'a>],
    depth: u32,
    place: Place,
    tokens: &'a [Lexeme<'a>],
) -> Result<((Stmt, u32), &'a [Lexeme<'a>]), ParseError>
    requires depth { depth ≤ 63 }
    requires number { place.number ≤ 4096 }
    ensures { Reads numbered result (run (reads.done (reads.body_reader (all_known types.now) depth) (all_known types.now) depth place.number (site_of place.site)) (lexemes tokens.now)) }
{
    let Place { number, site } = place;
    let ((body, next), rest) = body(alloc, types, depth, number + 1, tokens)?;
    let (test, rest) = until(alloc, types, depth, rest)?;
    let tree = Stmt::Do {
        number,
        site,
        body,
        test,
    };
    Ok(((tree, next), rest))
}

// Behind `for`.
#[cycle(statements)]
#[tactic(auto, using(crate::proofs::BlockSteps::statement_steps))]
fn counting<'a>(
    alloc: Global,
    types: &[Known<'a>],
    depth: u32,
    place: Place,
    tokens: &'a [Lexeme<'a>],
) -> Result<((Stmt, u32), &'a [Lexeme<'a>]), ParseError>
    requires depth { depth ≤ 63 }
    requires number { place.number ≤ 4094 }
    ensures { Reads numbered result (run (reads.counting (reads.body_reader (all_known types.now) depth) (all_known types.now) depth place.number (site_of place.site)) (lexemes tokens.now)) }
{
    let Place { number, site } = place;
    let (head, rest) = head_at(alloc, types, depth, number + 1, tokens)?;
    let ((body, next), rest) = body(alloc, types, depth, number + 3, rest)?;
    let tree = Stmt::For {
        number,
        site,
        first: head.first,
        test: head.test,
        update: head.update,
        body,
    };
    Ok(((tree, next), rest))
}

// What an `else` brings, if one stands here.
#[cycle(statements)]
#[tactic(auto, using(crate::proofs::BlockSteps::statement_steps))]
fn otherwise<'a>(
    alloc: Global,
    types: &[Known<'a>],
    depth: u32,
    number: u32,
    tokens: &'a [Lexeme<'a>],
) -> Result<((Vec<Stmt>, u32), &'a [Lexeme<'a>]), ParseError>
    requires { depth ≤ 63 }
    ensures { Reads all_numbered result (run (reads.else_reader (reads.body_reader (all_known types.now) depth) number) (lexemes tokens.now)) }
{
    if is_else(kind_at(tokens)) {
        body(alloc, types, depth, number, behind(tokens))
    } else {
        Ok(((Vec::new(alloc), number), tokens))
    }
}

// The part of an `if` or a loop.
#[cycle(statements)]
#[tactic(auto, using(crate::proofs::BlockSteps::statement_steps))]
fn body<'a>(
    alloc: Global,
    types: &[Known<'a>],
    depth: u32,
    number: u32,
    tokens: &'a [Lexeme<'a>],
) -> Result<((Vec<Stmt>, u32), &'a [Lexeme<'a>]), ParseError>
    requires { depth ≤ 63 }
    ensures { Reads all_numbered result (run (reads.body_reader (all_known types.now) depth number) (lexemes tokens.now)) }
{
    if is_left_brace(kind_at(tokens)) {
        return block(alloc, types, depth, number, behind(tokens));
    }
    let ((only, next), rest) = statement(alloc, types, depth, number, tokens)?;
    let mut list = Vec::new(alloc);
    list.push(only)?;
    Ok(((list, next), rest))
}

/// With the name that a statement made, behind those that were known.
fn extend<'a>(own: &mut Vec<Known<'a>>, made: Option<Known<'a>>) -> Result<(), AllocError>
    ensures { IfOk result (λ x. all_known own.new.items ≡ reads.extended (all_known own.old.items) (maybe_known made.entry)) }
{
    match made {
        None => Ok(()),
        Some(known) => {
            own.push(known)?;
            Ok(())
        }
    }
}

/// Reads statements up to and with the brace that closes them.
#[cycle(statements)]
#[tactic(auto, using(crate::proofs::BlockSteps::statement_steps))]
pub fn block<'a>(
    alloc: Global,
    types: &[Known<'a>],
    depth: u32,
    number: u32,
    tokens: &'a [Lexeme<'a>],
) -> Result<((Vec<Stmt>, u32), &'a [Lexeme<'a>]), ParseError>
    requires { depth ≤ 64 }
    ensures { Reads all_numbered result (run (reads.block_reader (all_known types.now) depth number) (lexemes tokens.now)) }
{
    let mut list = Vec::new(alloc);
    if is_right_brace(kind_at(tokens)) {
        return Ok(((list, number), behind(tokens)));
    }
    let mut own = Vec::from_slice(alloc, types)?;
    let (first, mut rest) = item(alloc, own.as_slice(), depth, number, tokens)?;
    list.push(first.statement)?;
    extend(&mut own, first.made)?;
    let mut next = first.next;
    for _count in 1..MOST_ITEMS {
        if is_right_brace(kind_at(rest)) {
            return Ok(((list, next), behind(rest)));
        }
        let (read, after) = item(alloc, own.as_slice(), depth, next, rest)?;
        list.push(read.statement)?;
        extend(&mut own, read.made)?;
        next = read.next;
        rest = after;
    }
    Err(ParseError::At {
        fault: ParseFault::TooMany,
        site: site_at(rest),
    })
}

// What stands in a block.
#[cycle(statements)]
#[tactic(auto, using(crate::proofs::BlockSteps::statement_steps))]
fn item<'a>(
    alloc: Global,
    types: &[Known<'a>],
    depth: u32,
    number: u32,
    tokens: &'a [Lexeme<'a>],
) -> Result<(Item<'a>, &'a [Lexeme<'a>]), ParseError>
    requires { depth ≤ 64 }
    ensures { Reads item_seen result (run (reads.item_reader (all_known types.now) depth number) (lexemes tokens.now)) }
{
    let site = site_at(tokens);
    if depth == 0 {
        return Err(ParseError::At {
            fault: ParseFault::TooDeep,
            site,
        });
    }
    if number > 4096 {
        return Err(ParseError::At {
            fault: ParseFault::TooMany,
            site,
        });
    }
    labelled_item(alloc, types, depth, Place { number, site }, tokens)
}

// A label, the name of a type, or another one.
#[cycle(statements)]
#[tactic(auto, using(crate::proofs::BlockSteps::statement_steps))]
fn labelled_item<'a>(
    alloc: Global,
    types: &[Known<'a>],
    depth: u32,
    place: Place,
    tokens: &'a [Lexeme<'a>],
) -> Result<(Item<'a>, &'a [Lexeme<'a>]), ParseError>
    requires depth { depth ≤ 64 }
    requires some { 1 ≤ depth }
    requires number { place.number ≤ 4096 }
    ensures { Reads item_seen result (run (reads.item_by (reads.statement_reader (all_known types.now) depth place.number) (all_known types.now) (depth - 1) place.number (site_of place.site) (front (lexemes tokens.now)).kind) (lexemes tokens.now)) }
{
    let Place { number, site } = place;
    match kind_at(tokens) {
        LexemeKind::Word(Word::Typedef) => {
            alias_item(alloc, types, depth - 1, place, behind(tokens))
        }
        LexemeKind::Word(Word::Case) => case(alloc, types, depth - 1, place, behind(tokens)),
        LexemeKind::Word(Word::Default) => {
            let tree = Stmt::Default { number, site };
            labelled(types, number, tree, behind(tokens))
        }
        _ => other_item(alloc, types, depth, place, tokens),
    }
}

// A declaration, or a statement that is no label.
#[cycle(statements)]
#[tactic(auto, using(crate::proofs::BlockSteps::statement_steps))]
fn other_item<'a>(
    alloc: Global,
    types: &[Known<'a>],
    depth: u32,
    place: Place,
    tokens: &'a [Lexeme<'a>],
) -> Result<(Item<'a>, &'a [Lexeme<'a>]), ParseError>
    requires depth { depth ≤ 64 }
    requires some { 1 ≤ depth }
    requires number { place.number ≤ 4096 }
    ensures { Reads item_seen result (run (reads.other_item (reads.statement_reader (all_known types.now) depth place.number) (all_known types.now) (depth - 1) place.number (site_of place.site) (front (lexemes tokens.now)).kind) (lexemes tokens.now)) }
{
    if starts_declaration(types, kind_at(tokens)) {
        declaration_item(alloc, types, depth - 1, place, tokens)
    } else {
        let ((statement, next), rest) = statement(alloc, types, depth, place.number, tokens)?;
        let item = Item {
            statement,
            next,
            made: None,
        };
        Ok((item, rest))
    }
}
