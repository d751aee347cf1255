//! Lexemes that are a whole: nothing stands behind what is read.

ghost use Rattle.std.specs.Prelude.{◌≡◌};
ghost use Rattle.opencl_tokens.specs.Seen.{lexeme_kind};
ghost use Rattle.opencl_tree.specs.View.{expression as expression_seen};
ghost use Rattle.opencl_parser.specs.Reader.{run};
ghost use Rattle.opencl_parser.specs.Parsed as parsed;
ghost use Rattle.opencl_parser.specs.Parsed.{Gives, answer, body_seen};
ghost use Rattle.opencl_parser.specs.View.{lexemes, Reads};

use crate::expressions::level;
use crate::front::{kind_at, pass};
use crate::statements::block;
use crate::stops::ParseError;
use opencl_tokens::{Lexeme, LexemeKind};
use opencl_tree::tree::{Expr, Stmt};
use std::alloc::Global;

fn is_end(kind: LexemeKind) -> bool
    ensures { result ≡ parsed.is_end (lexeme_kind kind.entry) }
{
    matches!(kind, LexemeKind::End)
}

#[tactic(auto, using(crate::proofs::StatementSteps::part_steps), unfolding(crate::specs::Parsed::whole_expression))]
fn whole_expression<'a>(
    alloc: Global,
    tokens: &'a [Lexeme<'a>],
) -> Result<(Expr, &'a [Lexeme<'a>]), ParseError>
    ensures { Reads expression_seen result (run parsed.whole_expression (lexemes tokens.now)) }
{
    let (tree, rest) = level(alloc, &[], 64, 13, tokens)?;
    let (_, rest) = pass(is_end(kind_at(rest)), rest)?;
    Ok((tree, rest))
}

/// The expression that the lexemes are, the last of them `End`; else the first fault and its place.
pub fn expression_of(alloc: Global, tokens: &[Lexeme]) -> Result<Expr, ParseError>
    ensures { Gives expression_seen result (answer (run parsed.whole_expression (lexemes tokens.now))) }
{
    match whole_expression(alloc, tokens) {
        Ok((tree, _)) => Ok(tree),
        Err(error) => Err(error),
    }
}

#[tactic(auto, using(crate::proofs::StatementSteps::part_steps), unfolding(crate::specs::Parsed::whole_block))]
fn whole_block<'a>(
    alloc: Global,
    tokens: &'a [Lexeme<'a>],
) -> Result<(Vec<Stmt>, &'a [Lexeme<'a>]), ParseError>
    ensures { Reads body_seen result (run parsed.whole_block (lexemes tokens.now)) }
{
    let ((body, _), rest) = block(alloc, &[], 64, 1, tokens)?;
    let (_, rest) = pass(is_end(kind_at(rest)), rest)?;
    Ok((body, rest))
}

/// The statements of a block behind its opening brace, up to and with the closing one, the last lexeme `End`; else the first fault and
/// its place.
pub fn block_of(alloc: Global, tokens: &[Lexeme]) -> Result<Vec<Stmt>, ParseError>
    ensures { Gives body_seen result (answer (run parsed.whole_block (lexemes tokens.now))) }
{
    match whole_block(alloc, tokens) {
        Ok((body, _)) => Ok(body),
        Err(error) => Err(error),
    }
}
