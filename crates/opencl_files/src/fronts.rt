//! What stands before a kernel in its file: names of types, enumerations, and functions.

ghost use Rattle.std.specs.Prelude.{◌≡◌, IfOk};
ghost use Rattle.core_code.specs.View.{site as site_of};
ghost use Rattle.opencl_tokens.specs.Seen.{lexeme_kind};
ghost use Rattle.opencl_tree.specs.View.{maybe};
ghost use Rattle.opencl_parser.specs.Reader.{run};
ghost use Rattle.opencl_parser.specs.View.{lexemes, Reads, all_known};
ghost use Rattle.opencl_parser.specs.DeclarationsView.{defined as defined_seen};
ghost use Rattle.opencl_files.specs.Fronts as reads;
ghost use Rattle.opencl_files.specs.Headers as functions;
ghost use Rattle.opencl_files.specs.View.{chunk as chunk_seen, chunks as chunks_seen, enumerator as enumerator_seen, enumerators as enumerators_seen, gathered as gathered_seen};

use crate::chunks::Chunk;
use crate::constants::with_constants;
use crate::functions::function_in;
use crate::headers::function;
use crate::tree::{Enumerator, Header};
use core_code::tree::Site;
use opencl_parser::aliases::{Place, alias};
use opencl_parser::declarations::{is_equal, is_left_brace, is_right_brace, new_name};
use opencl_parser::expressions::level;
use opencl_parser::front::{behind, kind_at, pass, site_at};
use opencl_parser::parts::is_semicolon;
use opencl_parser::signs::is_comma;
use opencl_parser::stops::{ParseError, ParseFault};
use opencl_parser::type_words::Known;
use opencl_tokens::{Lexeme, LexemeKind, Word};
use opencl_tree::tree::{Declaration, Expr, Stmt};
use std::alloc::{AllocError, Global};

/// At most so many names of types, and functions, are heeded.
const MOST_HEEDED: usize = 1_024;

/// At most so many constants are heeded.
const MOST_CONSTANTS: usize = 256;

/// What was read: the names that are types, their declarations, the enumerations, and the functions; and the constants, as they are
/// written.
#[derive(Drop)]
pub struct Gathered<'a> {
    pub known: Vec<Known<'a>>,
    pub aliases: Vec<Declaration>,
    pub enumerations: Vec<Vec<Enumerator>>,
    pub functions: Vec<(Header, Vec<Stmt>)>,
    pub constants: Vec<Chunk<'a>>,
}

// Behind `typedef`.
#[tactic(auto, using(crate::proofs::FrontSteps::front_steps))]
fn type_named<'a>(
    alloc: Global,
    types: &[Known],
    site: Site,
    tokens: &'a [Lexeme<'a>],
) -> Result<((Declaration, Known<'a>), &'a [Lexeme<'a>]), ParseError>
    ensures { Reads defined_seen result (run (reads.type_named (all_known types.now) (site_of site)) (lexemes tokens.now)) }
{
    let place = Place { number: 0, site };
    let (made, rest) = alias(alloc, types, 64, place, tokens)?;
    let (_, rest) = pass(is_semicolon(kind_at(rest)), rest)?;
    Ok((made, rest))
}

// The number of a constant, if it is written.
#[tactic(auto, using(crate::proofs::FrontSteps::front_steps))]
fn value_at<'a>(
    alloc: Global,
    types: &[Known],
    tokens: &'a [Lexeme<'a>],
) -> Result<(Option<Expr>, &'a [Lexeme<'a>]), ParseError>
    ensures { Reads maybe result (run (reads.value (all_known types.now)) (lexemes tokens.now)) }
{
    if !is_equal(kind_at(tokens)) {
        return Ok((None, tokens));
    }
    let (value, rest) = level(alloc, types, 64, 11, behind(tokens))?;
    Ok((Some(value), rest))
}

// A constant of an enumeration.
#[tactic(auto, using(crate::proofs::FrontSteps::front_steps))]
fn enumerator<'a>(
    alloc: Global,
    types: &[Known],
    tokens: &'a [Lexeme<'a>],
) -> Result<(Enumerator, &'a [Lexeme<'a>]), ParseError>
    ensures { Reads enumerator_seen result (run (reads.enumerator (all_known types.now)) (lexemes tokens.now)) }
{
    let site = site_at(tokens);
    let Some(name) = new_name(types, kind_at(tokens)) else {
        return Err(ParseError::At {
            fault: ParseFault::Expected,
            site,
        });
    };
    let (value, rest) = value_at(alloc, types, behind(tokens))?;
    let name = String::from_str(alloc, name)?;
    Ok((Enumerator { site, name, value }, rest))
}

// Constants, behind those that were read.
#[cycle(more_enumerators)]
#[tactic(auto, using(crate::proofs::FrontSteps::front_steps))]
fn more_enumerators<'a>(
    alloc: Global,
    types: &[Known],
    left: u32,
    so: Vec<Enumerator>,
    tokens: &'a [Lexeme<'a>],
) -> Result<(Vec<Enumerator>, &'a [Lexeme<'a>]), ParseError>
    ensures { Reads enumerators_seen result (run (reads.more_enumerators (all_known types.now) left (enumerators_seen so)) (lexemes tokens.now)) }
{
    if left == 0 {
        return Err(ParseError::At {
            fault: ParseFault::TooMany,
            site: site_at(tokens),
        });
    }
    if !is_comma(kind_at(tokens)) {
        let (_, rest) = pass(is_right_brace(kind_at(tokens)), tokens)?;
        return Ok((so, rest));
    }
    let further = behind(tokens);
    if is_right_brace(kind_at(further)) {
        return Ok((so, behind(further)));
    }
    let (next, rest) = enumerator(alloc, types, further)?;
    let mut more = so;
    more.push(next)?;
    more_enumerators(alloc, types, left - 1, more, rest)
}

// The constants in their braces.
#[tactic(auto, using(crate::proofs::FrontSteps::front_steps))]
fn enumerators<'a>(
    alloc: Global,
    types: &[Known],
    tokens: &'a [Lexeme<'a>],
) -> Result<(Vec<Enumerator>, &'a [Lexeme<'a>]), ParseError>
    ensures { Reads enumerators_seen result (run (reads.enumerators (all_known types.now)) (lexemes tokens.now)) }
{
    let (_, rest) = pass(is_left_brace(kind_at(tokens)), tokens)?;
    let (first, rest) = enumerator(alloc, types, rest)?;
    let mut list = Vec::new(alloc);
    list.push(first)?;
    more_enumerators(alloc, types, 1_024, list, rest)
}

fn is_name(kind: LexemeKind) -> bool
    ensures { result ≡ reads.is_name (lexeme_kind kind.entry) }
{
    matches!(kind, LexemeKind::Name(_))
}

// Behind `enum`.
#[tactic(auto, using(crate::proofs::FrontSteps::front_steps))]
fn enumeration<'a>(
    alloc: Global,
    types: &[Known],
    tokens: &'a [Lexeme<'a>],
) -> Result<(Vec<Enumerator>, &'a [Lexeme<'a>]), ParseError>
    ensures { Reads enumerators_seen result (run (reads.enumeration (all_known types.now)) (lexemes tokens.now)) }
{
    if is_name(kind_at(tokens)) {
        enumerators(alloc, types, behind(tokens))
    } else {
        enumerators(alloc, types, tokens)
    }
}

#[tactic(auto, using(crate::proofs::FrontSteps::front_steps))]
fn with_alias<'a>(
    alloc: Global,
    so: &mut Gathered<'a>,
    site: Site,
    tokens: &'a [Lexeme<'a>],
) -> Result<(), AllocError>
    ensures { IfOk result (λ x. gathered_seen so.new ≡ reads.with_alias (gathered_seen so.old) (run (reads.type_named (all_known so.old.known.items) (site_of site)) (lexemes tokens.now))) }
{
    match type_named(alloc, so.known.as_slice(), site, tokens) {
        Ok(((declaration, known), _)) => {
            so.known.push(known)?;
            so.aliases.push(declaration)?;
            Ok(())
        }
        Err(ParseError::At { .. }) => Ok(()),
        Err(ParseError::Memory) => Err(AllocError),
    }
}

#[tactic(auto, using(crate::proofs::FrontSteps::front_steps))]
fn with_enumeration<'a>(
    alloc: Global,
    so: &mut Gathered<'a>,
    tokens: &'a [Lexeme<'a>],
) -> Result<(), AllocError>
    ensures { IfOk result (λ x. gathered_seen so.new ≡ reads.with_enumeration (gathered_seen so.old) (run (reads.enumeration (all_known so.old.known.items)) (lexemes tokens.now))) }
{
    match enumeration(alloc, so.known.as_slice(), tokens) {
        Ok((list, _)) => {
            so.enumerations.push(list)?;
            Ok(())
        }
        Err(ParseError::At { .. }) => Ok(()),
        Err(ParseError::Memory) => Err(AllocError),
    }
}

fn typed<'a>(
    alloc: Global,
    so: &mut Gathered<'a>,
    tokens: &'a [Lexeme<'a>],
) -> Result<(), AllocError>
    ensures { IfOk result (λ x. gathered_seen so.new ≡ reads.typed (gathered_seen so.old) (lexemes tokens.now)) }
{
    if so.known.len() < MOST_HEEDED {
        with_alias(alloc, so, site_at(tokens), behind(tokens))
    } else {
        Ok(())
    }
}

#[tactic(auto, using(crate::proofs::FrontSteps::front_steps))]
fn with_function<'a, 'b>(
    alloc: Global,
    so: &mut Gathered<'a>,
    tokens: &'b [Lexeme<'b>],
) -> Result<(), AllocError>
    ensures { IfOk result (λ x. gathered_seen so.new ≡ reads.with_function (gathered_seen so.old) (run (functions.function (all_known so.old.known.items)) (lexemes tokens.now))) }
{
    match function(alloc, so.known.as_slice(), tokens) {
        Ok((found, _)) => {
            so.functions.push(found)?;
            Ok(())
        }
        Err(ParseError::At { .. }) => Ok(()),
        Err(ParseError::Memory) => Err(AllocError),
    }
}

fn performed<'a>(
    alloc: Global,
    so: &mut Gathered<'a>,
    tokens: &'a [Lexeme<'a>],
) -> Result<(), AllocError>
    ensures { IfOk result (λ x. gathered_seen so.new ≡ reads.performed (gathered_seen so.old) (lexemes tokens.now)) }
{
    if so.functions.len() < MOST_HEEDED {
        let tokens = with_constants(alloc, &so.constants, tokens)?;
        with_function(alloc, so, &tokens)
    } else {
        Ok(())
    }
}

fn with_constant<'a>(so: &mut Gathered<'a>, chunk: Chunk<'a>) -> Result<(), AllocError>
    ensures { IfOk result (λ x. gathered_seen so.new ≡ reads.with_constant (gathered_seen so.old) (chunk_seen chunk.entry)) }
{
    if so.constants.len() < MOST_CONSTANTS {
        so.constants.push(chunk)?;
    }
    Ok(())
}

fn is_function(chunk: Chunk<'_>) -> bool
    ensures { result ≡ reads.is_function (chunk_seen chunk.entry) }
{
    chunk.is_braced && function_in(chunk.lexemes).is_some()
}

#[tactic(auto, unfolding(crate::specs::Fronts::with_chunk))]
fn with_chunk<'a>(alloc: Global, so: &mut Gathered<'a>, chunk: Chunk<'a>) -> Result<(), AllocError>
    ensures { IfOk result (λ x. gathered_seen so.new ≡ reads.with_chunk (gathered_seen so.old) (chunk_seen chunk.entry)) }
{
    match kind_at(chunk.lexemes) {
        LexemeKind::Word(Word::Typedef) => typed(alloc, so, chunk.lexemes),
        LexemeKind::Word(Word::Constant) => with_constant(so, chunk),
        LexemeKind::Word(Word::Enum) => with_enumeration(alloc, so, behind(chunk.lexemes)),
        _ => {
            if is_function(chunk) {
                performed(alloc, so, chunk.lexemes)
            } else {
                Ok(())
            }
        }
    }
}

/// The names of types, the enumerations and the functions of external declarations; what cannot be read is passed over.
#[tactic(auto, using(crate::proofs::FrontSteps::front_steps))]
pub fn gather<'a>(alloc: Global, chunks: &[Chunk<'a>]) -> Result<Gathered<'a>, AllocError>
    ensures { IfOk result (λ g. gathered_seen g ≡ reads.gathered reads.nothing_yet (chunks_seen chunks.now)) }
{
    let mut so = Gathered {
        known: Vec::new(alloc),
        aliases: Vec::new(alloc),
        enumerations: Vec::new(alloc),
        functions: Vec::new(alloc),
        constants: Vec::new(alloc),
    };
    for chunk in chunks {
        with_chunk(alloc, &mut so, *chunk)?;
    }
    Ok(so)
}
