//! A function: its header and its body.

ghost use Rattle.std.specs.Prelude.{◌≡◌, IfOk};
ghost use Rattle.opencl_tokens.specs.Seen.{lexeme_kind};
ghost use Rattle.opencl_parser.specs.Parsed as parsed;
ghost use Rattle.opencl_parser.specs.Reader.{run};
ghost use Rattle.opencl_parser.specs.View.{lexemes, Reads, all_known, base_named};
ghost use Rattle.opencl_files.specs.Headers as reads;
ghost use Rattle.opencl_files.specs.View.{lead as lead_seen, title as title_seen, header as header_seen, parameters as parameters_seen, maybe_sizes, body as body_seen, function as function_seen};

use crate::attributes::{attribute, is_attribute, trailing};
use crate::functions::is_kernel;
use crate::parameters::parameters;
use crate::tree::{Header, Parameter};
use core_code::tree::Site;
use opencl_parser::declarations::{is_left_brace, new_name, specified};
use opencl_parser::front::{behind, kind_at, pass, site_at};
use opencl_parser::signs::is_left_parenthesis;
use opencl_parser::statements::block;
use opencl_parser::stops::{ParseError, ParseFault};
use opencl_parser::type_names::{owned, starring};
use opencl_parser::type_words::{Known, Named, TypePart, Typed, base_of, untyped};
use opencl_tokens::{Lexeme, LexemeKind};
use opencl_tree::tree::Stmt;
use opencl_tree::types::Qualifiers;
use std::alloc::{AllocError, Global};

/// A type has fewer words and qualifiers than this, and fewer stars.
const MOST_WORDS: u32 = 16;

/// The words in front of a function's name.
#[derive(Clone, Copy)]
pub struct Lead<'a> {
    pub typed: Typed<'a>,
    pub sizes: Option<[u32; 3]>,
}

/// The stars and the name of a function; the name is lent.
#[derive(Drop)]
pub struct Title<'a> {
    pub stars: Vec<Qualifiers>,
    pub site: Site,
    pub name: &'a str,
}

// The words in front of a function's name, behind those that were read.
#[cycle(leading)]
#[tactic(auto, using(crate::proofs::HeaderSteps::header_steps))]
fn leading<'a>(
    types: &[Known],
    left: u32,
    lead: Lead<'a>,
    tokens: &'a [Lexeme<'a>],
) -> Result<(Lead<'a>, &'a [Lexeme<'a>]), ParseError>
    ensures { Reads lead_seen result (run (reads.leading (all_known types.now) left (lead_seen lead.entry)) (lexemes tokens.now)) }
{
    let site = site_at(tokens);
    if left == 0 {
        return Err(ParseError::At {
            fault: ParseFault::TooMany,
            site,
        });
    }
    let kind = kind_at(tokens);
    let Lead { typed, sizes } = lead;
    if is_attribute(kind) {
        let (sizes, rest) = attribute(sizes, behind(tokens))?;
        return leading(types, left - 1, Lead { typed, sizes }, rest);
    }
    if is_kernel(kind) {
        return leading(types, left - 1, lead, behind(tokens));
    }
    match specified(types, typed, kind) {
        TypePart::NoPart => Ok((lead, tokens)),
        TypePart::More(typed) => leading(types, left - 1, Lead { typed, sizes }, behind(tokens)),
        TypePart::Wrong(fault) => Err(ParseError::At { fault, site }),
    }
}

// Up to the parenthesis behind the name.
#[tactic(auto, using(crate::proofs::HeaderSteps::header_steps))]
fn title_at<'a>(
    alloc: Global,
    types: &[Known],
    tokens: &'a [Lexeme<'a>],
) -> Result<(Title<'a>, &'a [Lexeme<'a>]), ParseError>
    ensures { Reads title_seen result (run (reads.title (all_known types.now)) (lexemes tokens.now)) }
{
    let (stars, rest) = starring(MOST_WORDS, Vec::new(alloc), tokens)?;
    let site = site_at(rest);
    let Some(name) = new_name(types, kind_at(rest)) else {
        return Err(ParseError::At {
            fault: ParseFault::Expected,
            site,
        });
    };
    let rest = behind(rest);
    let (_, rest) = pass(is_left_parenthesis(kind_at(rest)), rest)?;
    let title = Title { stars, site, name };
    Ok((title, rest))
}

fn made(
    alloc: Global,
    lead: Lead<'_>,
    base: Named<'_>,
    title: Title<'_>,
    parameters: Vec<Parameter>,
    sizes: Option<[u32; 3]>,
) -> Result<Header, AllocError>
    ensures { IfOk result (λ h. header_seen h ≡ reads.header_so (lead_seen lead.entry) (base_named base.entry) (title_seen title.entry) (parameters_seen parameters) (maybe_sizes sizes)) }
{
    let name = String::from_str(alloc, title.name)?;
    Ok(Header {
        sizes,
        base: owned(alloc, base)?,
        qualifiers: lead.typed.qualifiers,
        stars: title.stars,
        site: title.site,
        name,
        parameters,
    })
}

// Behind the words in front of the name.
#[tactic(auto, using(crate::proofs::HeaderSteps::header_steps))]
fn header_with<'a>(
    alloc: Global,
    types: &[Known],
    lead: Lead<'_>,
    base: Named<'_>,
    tokens: &'a [Lexeme<'a>],
) -> Result<(Header, &'a [Lexeme<'a>]), ParseError>
    ensures { Reads header_seen result (run (reads.header_with (all_known types.now) (lead_seen lead.entry) (base_named base.entry)) (lexemes tokens.now)) }
{
    let (title, rest) = title_at(alloc, types, tokens)?;
    let (parameters, rest) = parameters(alloc, types, rest)?;
    let (sizes, rest) = trailing(MOST_WORDS, lead.sizes, rest)?;
    let header = made(alloc, lead, base, title, parameters, sizes)?;
    Ok((header, rest))
}

/// Reads a function's header.
#[tactic(auto, using(crate::proofs::HeaderSteps::header_steps))]
pub fn header<'a>(
    alloc: Global,
    types: &[Known],
    tokens: &'a [Lexeme<'a>],
) -> Result<(Header, &'a [Lexeme<'a>]), ParseError>
    ensures { Reads header_seen result (run (reads.header (all_known types.now)) (lexemes tokens.now)) }
{
    let start = Lead {
        typed: untyped(),
        sizes: None,
    };
    let (lead, rest) = leading(types, MOST_WORDS, start, tokens)?;
    let Some((base, _)) = base_of(lead.typed.written) else {
        return Err(ParseError::At {
            fault: ParseFault::Expected,
            site: site_at(rest),
        });
    };
    header_with(alloc, types, lead, base, rest)
}

fn is_end(kind: LexemeKind) -> bool
    ensures { result ≡ parsed.is_end (lexeme_kind kind.entry) }
{
    matches!(kind, LexemeKind::End)
}

// Behind a function's header.
#[tactic(auto, using(crate::proofs::HeaderSteps::header_steps))]
fn body<'a>(
    alloc: Global,
    types: &[Known<'a>],
    tokens: &'a [Lexeme<'a>],
) -> Result<(Vec<Stmt>, &'a [Lexeme<'a>]), ParseError>
    ensures { Reads body_seen result (run (reads.body (all_known types.now)) (lexemes tokens.now)) }
{
    let (_, rest) = pass(is_left_brace(kind_at(tokens)), tokens)?;
    let ((body, _), rest) = block(alloc, types, 64, 1, rest)?;
    let (_, rest) = pass(is_end(kind_at(rest)), rest)?;
    Ok((body, rest))
}

/// Reads a function with its body, and nothing behind it.
#[tactic(auto, using(crate::proofs::HeaderSteps::header_steps))]
pub fn function<'a>(
    alloc: Global,
    types: &[Known<'a>],
    tokens: &'a [Lexeme<'a>],
) -> Result<((Header, Vec<Stmt>), &'a [Lexeme<'a>]), ParseError>
    ensures { Reads function_seen result (run (reads.function (all_known types.now)) (lexemes tokens.now)) }
{
    let (header, rest) = header(alloc, types, tokens)?;
    let (body, rest) = body(alloc, types, rest)?;
    Ok(((header, body), rest))
}
