//! Parameters.

ghost use Rattle.std.specs.Prelude.{◌≡◌, IfOk, map};
ghost use Rattle.std.specs.Option.{option_map};
ghost use Rattle.core_code.specs.View.{site as site_of};
ghost use Rattle.opencl_tree.specs.View.{base as base_seen, maybe};
ghost use Rattle.opencl_parser.specs.Reader.{run};
ghost use Rattle.opencl_parser.specs.Declarations.{is_single as is_single_of};
ghost use Rattle.opencl_parser.specs.View.{lexemes, Reads, all_known, text_seen};
ghost use Rattle.opencl_parser.specs.DeclarationsView.{dimensions_seen};
ghost use Rattle.opencl_files.specs.Headers as reads;
ghost use Rattle.opencl_files.specs.View.{front as front_seen, parameter as parameter_seen, parameters as parameters_seen, maybe_name};

use crate::tree::Parameter;
use core_code::tree::Site;
use opencl_parser::declarations::{dimensions, new_name};
use opencl_parser::front::{behind, kind_at, pass, site_at};
use opencl_parser::signs::{is_comma, is_right_parenthesis};
use opencl_parser::stops::{Construct, ParseError, ParseFault};
use opencl_parser::type_names::{is_bare, is_half, owned, starring, typing};
use opencl_parser::type_words::{Known, Named, base_of, untyped};
use opencl_tokens::Lexeme;
use opencl_tree::tree::Expr;
use opencl_tree::types::{Base, Qualifiers};
use std::alloc::{AllocError, Global};

/// A type has fewer words and qualifiers than this, and fewer stars.
const MOST_WORDS: u32 = 16;

/// A type in front of a name; the name of an alias is lent.
#[derive(Drop)]
pub struct Front<'a> {
    pub base: Named<'a>,
    pub qualifiers: Qualifiers,
    pub stars: Vec<Qualifiers>,
}

fn text_of(alloc: Global, name: Option<&str>) -> Result<Option<String>, AllocError>
    ensures { IfOk result (λ x. maybe_name x ≡ option_map text_seen name.entry) }
{
    match name {
        None => Ok(None),
        Some(name) => Ok(Some(String::from_str(alloc, name)?)),
    }
}

fn made(
    alloc: Global,
    front: Front<'_>,
    site: Site,
    name: Option<&str>,
    dimensions: Vec<Option<Expr>>,
) -> Result<Parameter, AllocError>
    ensures { IfOk result (λ p. parameter_seen p ≡ reads.parameter_so (front_seen front.entry) (site_of site) (option_map text_seen name.entry) (dimensions_seen dimensions)) }
{
    let name = text_of(alloc, name)?;
    Ok(Parameter {
        site,
        name,
        base: owned(alloc, front.base)?,
        qualifiers: front.qualifiers,
        stars: front.stars,
        dimensions,
    })
}

// The name of a parameter, if it has one.
#[tactic(auto, using(crate::proofs::HeaderSteps::header_steps))]
fn name_at<'a>(
    types: &[Known],
    tokens: &'a [Lexeme<'a>],
) -> Result<(Option<&'a str>, &'a [Lexeme<'a>]), ParseError>
    ensures { Reads (option_map text_seen) result (run (reads.name_if_any (all_known types.now)) (lexemes tokens.now)) }
{
    match new_name(types, kind_at(tokens)) {
        None => Ok((None, tokens)),
        Some(name) => Ok((Some(name), behind(tokens))),
    }
}

// Behind the stars.
#[tactic(auto, using(crate::proofs::HeaderSteps::header_steps))]
fn parameter_at<'a>(
    alloc: Global,
    types: &[Known],
    front: Front<'_>,
    tokens: &'a [Lexeme<'a>],
) -> Result<(Parameter, &'a [Lexeme<'a>]), ParseError>
    ensures { Reads parameter_seen result (run (reads.parameter_at (all_known types.now) (front_seen front.entry)) (lexemes tokens.now)) }
{
    let site = site_at(tokens);
    let (name, rest) = name_at(types, tokens)?;
    let (dimensions, rest) = dimensions(alloc, types, 64, 8, Vec::new(alloc), rest)?;
    let parameter = made(alloc, front, site, name, dimensions)?;
    Ok((parameter, rest))
}

#[tactic(auto, using(crate::proofs::HeaderSteps::header_steps))]
fn parameter_behind<'a>(
    alloc: Global,
    types: &[Known],
    front: Front<'_>,
    tokens: &'a [Lexeme<'a>],
) -> Result<(Parameter, &'a [Lexeme<'a>]), ParseError>
    ensures { Reads parameter_seen result (run (reads.parameter_behind (all_known types.now) (front_seen front.entry)) (lexemes tokens.now)) }
{
    if is_half(front.base) && is_bare(front.stars.as_slice()) {
        return Err(ParseError::At {
            fault: ParseFault::LeftOut(Construct::Half),
            site: site_at(tokens),
        });
    }
    parameter_at(alloc, types, front, tokens)
}

/// Reads one parameter of a function: its type and its name.
#[tactic(auto, using(crate::proofs::HeaderSteps::header_steps))]
pub fn parameter<'a>(
    alloc: Global,
    types: &[Known],
    tokens: &'a [Lexeme<'a>],
) -> Result<(Parameter, &'a [Lexeme<'a>]), ParseError>
    ensures { Reads parameter_seen result (run (reads.parameter (all_known types.now)) (lexemes tokens.now)) }
{
    let (typed, rest) = typing(types, MOST_WORDS, untyped(), tokens)?;
    let Some((base, _)) = base_of(typed.written) else {
        return Err(ParseError::At {
            fault: ParseFault::Expected,
            site: site_at(rest),
        });
    };
    let (stars, rest) = starring(MOST_WORDS, Vec::new(alloc), rest)?;
    let front = Front {
        base,
        qualifiers: typed.qualifiers,
        stars,
    };
    parameter_behind(alloc, types, front, rest)
}

// Parameters, behind those that were read.
#[cycle(more_parameters)]
#[tactic(auto, using(crate::proofs::HeaderSteps::header_steps))]
fn more_parameters<'a>(
    alloc: Global,
    types: &[Known],
    left: u32,
    so: Vec<Parameter>,
    tokens: &'a [Lexeme<'a>],
) -> Result<(Vec<Parameter>, &'a [Lexeme<'a>]), ParseError>
    ensures { Reads parameters_seen result (run (reads.more_parameters (all_known types.now) left (parameters_seen so)) (lexemes tokens.now)) }
{
    if left == 0 {
        return Err(ParseError::At {
            fault: ParseFault::TooMany,
            site: site_at(tokens),
        });
    }
    if !is_comma(kind_at(tokens)) {
        let (_, rest) = pass(is_right_parenthesis(kind_at(tokens)), tokens)?;
        return Ok((so, rest));
    }
    let (next, rest) = parameter(alloc, types, behind(tokens))?;
    let mut more = so;
    more.push(next)?;
    more_parameters(alloc, types, left - 1, more, rest)
}

fn is_void(parameter: &Parameter) -> bool
    ensures { result ≡ reads.is_void (maybe_name parameter.now.name) (base_seen parameter.now.base) }
{
    parameter.name.is_none() && matches!(parameter.base, Base::Void)
}

fn is_single(dimensions: &[Option<Expr>]) -> bool
    ensures { result ≡ is_single_of (map maybe dimensions.now) }
{
    matches!(dimensions, [])
}

fn is_nothing(parameter: &Parameter) -> bool
    ensures { result ≡ reads.is_nothing (parameter_seen parameter.now) }
{
    if !is_void(parameter) {
        return false;
    }
    is_bare(parameter.stars.as_slice()) && is_single(parameter.dimensions.as_slice())
}

fn without_void(alloc: Global, parameters: Vec<Parameter>) -> Vec<Parameter>
    ensures { parameters_seen result ≡ reads.without_void (parameters_seen parameters) }
{
    let lone = match parameters.as_slice() {
        [only] => is_nothing(only),
        _ => false,
    };
    if lone { Vec::new(alloc) } else { parameters }
}

/// Reads parameters behind their opening parenthesis, up to and with the closing one.
#[tactic(auto, using(crate::proofs::HeaderSteps::header_steps))]
pub fn parameters<'a>(
    alloc: Global,
    types: &[Known],
    tokens: &'a [Lexeme<'a>],
) -> Result<(Vec<Parameter>, &'a [Lexeme<'a>]), ParseError>
    ensures { Reads parameters_seen result (run (reads.parameters (all_known types.now)) (lexemes tokens.now)) }
{
    if is_right_parenthesis(kind_at(tokens)) {
        return Ok((Vec::new(alloc), behind(tokens)));
    }
    let (first, rest) = parameter(alloc, types, tokens)?;
    let mut list = Vec::new(alloc);
    list.push(first)?;
    let (all, rest) = more_parameters(alloc, types, 256, list, rest)?;
    Ok((without_void(alloc, all), rest))
}
