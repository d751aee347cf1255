//! A file, cut into its external declarations.

ghost use Rattle.std.specs.Prelude.{◌≡◌, IfOk};
ghost use Rattle.core_code.specs.View.{site as site_of};
ghost use Rattle.opencl_tokens.specs.Seen.{lexeme_kind};
ghost use Rattle.opencl_parser.specs.Declarations.{is_right_brace as is_right_brace_of};
ghost use Rattle.opencl_parser.specs.View.{lexemes};
ghost use Rattle.opencl_files.specs.Chunks as cuts;
ghost use Rattle.opencl_files.specs.View.{Answers, bracket as bracket_seen, brackets, turn as turn_seen, step as step_seen, chunk as chunk_seen, chunks as chunks_seen, cut as cut_seen};

use crate::errors::{FileError, FileFault};
use core_code::tree::Site;
use opencl_parser::declarations::is_right_brace;
use opencl_parser::front::site_at;
use opencl_parser::stops::ParseFault;
use opencl_tokens::{Lexeme, LexemeKind, Sign};
use std::alloc::{AllocError, Global};

/// A bracket that opens or closes.
#[derive(Clone, Copy)]
pub enum Bracket {
    Parenthesis,
    Square,
    Brace,
}

/// The effect of a lexeme on the brackets that are open.
#[derive(Clone, Copy)]
pub enum Turn {
    Opens(Bracket),
    Closes(Bracket),
    Ends,
    Stops,
    Other,
}

/// How it goes on behind a lexeme.
#[derive(Clone, Copy)]
pub enum Step {
    Within,
    Last,
    Finished,
    Wrong,
}

/// The lexemes of an external declaration, and whether the last of them is a brace.
#[derive(Clone, Copy)]
pub struct Chunk<'a> {
    pub lexemes: &'a [Lexeme<'a>],
    pub is_braced: bool,
}

/// The external declarations of a file, and the place of its end.
#[derive(Drop)]
pub struct Cut<'a> {
    pub chunks: Vec<Chunk<'a>>,
    pub end: Site,
}

fn same(a: Bracket, b: Bracket) -> bool
    ensures { result ≡ cuts.same (bracket_seen a) (bracket_seen b) }
{
    match a {
        Bracket::Parenthesis => matches!(b, Bracket::Parenthesis),
        Bracket::Square => matches!(b, Bracket::Square),
        Bracket::Brace => matches!(b, Bracket::Brace),
    }
}

fn is_brace(bracket: Bracket) -> bool
    ensures { result ≡ cuts.is_brace (bracket_seen bracket) }
{
    matches!(bracket, Bracket::Brace)
}

/// The effect of a lexeme on the brackets that are open.
pub fn turn_of(kind: LexemeKind) -> Turn
    ensures { turn_seen result ≡ cuts.turn_of (lexeme_kind kind.entry) }
{
    match kind {
        LexemeKind::Mark(sign) => match sign {
            Sign::LeftParenthesis => Turn::Opens(Bracket::Parenthesis),
            Sign::LeftBracket => Turn::Opens(Bracket::Square),
            Sign::LeftBrace => Turn::Opens(Bracket::Brace),
            Sign::RightParenthesis => Turn::Closes(Bracket::Parenthesis),
            Sign::RightBracket => Turn::Closes(Bracket::Square),
            Sign::RightBrace => Turn::Closes(Bracket::Brace),
            Sign::Semicolon => Turn::Ends,
            _ => Turn::Other,
        },
        LexemeKind::End => Turn::Stops,
        _ => Turn::Other,
    }
}

#[tactic(auto, using(crate::proofs::Cutting::cutting))]
fn closing(stack: &mut Vec<Bracket>, bracket: Bracket) -> Step
    ensures { (step_seen result, brackets stack.new.items) ≡ cuts.closing (brackets stack.old.items) (bracket_seen bracket) }
{
    match stack.pop() {
        None => Step::Wrong,
        Some(newest) => {
            if !same(newest, bracket) {
                Step::Wrong
            } else if is_brace(bracket) && is_none(stack.as_slice()) {
                Step::Last
            } else {
                Step::Within
            }
        }
    }
}

#[tactic(auto, using(crate::proofs::Cutting::cutting))]
fn is_none(stack: &[Bracket]) -> bool
    ensures { result ≡ cuts.is_none (brackets stack.now) }
{
    matches!(stack, [])
}

#[tactic(auto, using(crate::proofs::Cutting::cutting))]
fn turned(stack: &mut Vec<Bracket>, turn: Turn) -> Result<Step, AllocError>
    ensures { IfOk result (λ s. (step_seen s, brackets stack.new.items) ≡ cuts.turned (brackets stack.old.items) (turn_seen turn)) }
{
    match turn {
        Turn::Opens(bracket) => {
            stack.push(bracket)?;
            Ok(Step::Within)
        }
        Turn::Closes(bracket) => Ok(closing(stack, bracket)),
        Turn::Ends => {
            if is_none(stack.as_slice()) {
                Ok(Step::Last)
            } else {
                Ok(Step::Within)
            }
        }
        Turn::Stops => {
            if is_none(stack.as_slice()) {
                Ok(Step::Finished)
            } else {
                Ok(Step::Wrong)
            }
        }
        Turn::Other => Ok(Step::Within),
    }
}

fn is_bare(so: &[Lexeme]) -> bool
    ensures { result ≡ cuts.is_bare (lexemes so.now) }
{
    matches!(so, [])
}

fn finished<'a>(done: Vec<Chunk<'a>>, so: &[Lexeme], end: Site) -> Result<Cut<'a>, FileError>
    ensures { Answers cut_seen result (cuts.finished (chunks_seen done.entry.items) (lexemes so.now) (site_of end)) }
{
    if is_bare(so) {
        Ok(Cut { chunks: done, end })
    } else {
        Err(FileError::At {
            fault: FileFault::Text(ParseFault::Expected),
            site: end,
        })
    }
}

fn chunk_of<'a>(all: &'a [Lexeme<'a>], last: LexemeKind) -> Chunk<'a>
    ensures { chunk_seen result ≡ record { lexemes = lexemes all.now; is_braced = is_right_brace_of (lexeme_kind last.entry) } }
{
    Chunk {
        lexemes: all,
        is_braced: is_right_brace(last),
    }
}

/// The external declarations of a file, whose last lexeme is `End`; else the first bracket that does not match, or the end within one.
#[tactic(auto, unfolding(crate::specs::Chunks::chunks_of))]
pub fn cut_file<'a>(alloc: Global, tokens: &'a [Lexeme<'a>]) -> Result<Cut<'a>, FileError>
    ensures { Answers cut_seen result (cuts.chunks_of (lexemes tokens.now)) }
{
    let mut done = Vec::new(alloc);
    let mut stack = Vec::new(alloc);
    let mut from = 0usize;
    for at in 0..tokens.len() {
        let kind = tokens[at].kind;
        match turned(&mut stack, turn_of(kind))? {
            Step::Within => {}
            Step::Last => {
                done.push(chunk_of(&tokens[from..at + 1], kind))?;
                from = at + 1;
            }
            Step::Finished => {
                return finished(done, &tokens[from..at], site_at(&tokens[at..]));
            }
            Step::Wrong => {
                return Err(FileError::At {
                    fault: FileFault::Text(ParseFault::Expected),
                    site: site_at(&tokens[at..]),
                });
            }
        }
    }
    Err(FileError::At {
        fault: FileFault::Text(ParseFault::Expected),
        site: Site { line: 1, column: 1 },
    })
}
