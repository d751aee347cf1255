//! A kernel's head, its parameters and its body.

ghost use Rattle.std.specs.Prelude.{◌≡◌, ◌≤◌, ◌*◌, ◌&&◌, nat_le, IfOk};
ghost use Rattle.syntax.specs.View.{parameter as parameter_seen, kernel as kernel_seen};
ghost use Rattle.parser.specs.Reader.{run};
ghost use Rattle.core_code.specs.View.{site as site_of};
ghost use Rattle.parser.specs.View.{lexemes, Reads, named_seen, parameters_seen, sizes_seen};
ghost use Rattle.parser.specs.Pieces as pieces;
ghost use Rattle.parser.specs.Pieces.{body_seen};
ghost use Rattle.parser.specs.Kernels as reads;

use crate::front::{
    behind, is_attribute, is_comma, is_const, is_end, is_global, is_kernel, is_left_brace,
    is_left_parenthesis, is_required_size, is_right_parenthesis, is_star, is_void, kind_at,
    kind_named, name_of, number_of, pass, site_at,
};
use crate::statements::block;
use crate::stops::{ParseFault, Stop};
use core_code::tree::Site;
use lexer::Token;
use std::alloc::Global;
use syntax::tree::{Kernel, Parameter, Stmt};

/// The most parameters that are read after the first: a kernel has fewer.
const MOST_PARAMETERS: u32 = 80;

#[tactic(auto, using(crate::proofs::Steps::part_steps), unfolding(crate::specs::Kernels::buffer_reader))]
fn buffer<'a>(
    alloc: Global,
    constant: bool,
    tokens: &'a [Token<'a>],
) -> Result<(Parameter, &'a [Token<'a>]), Stop<'a>>
    ensures { Reads parameter_seen result (run (reads.buffer_reader constant) (lexemes tokens.now)) }
{
    let Some(kind) = kind_named(kind_at(tokens)) else {
        return Err(Stop::Refused(ParseFault::Expected, tokens));
    };
    let rest = behind(tokens);
    let (_, rest) = pass(is_star(kind_at(rest)), rest)?;
    let Some(name) = name_of(kind_at(rest)) else {
        return Err(Stop::Refused(ParseFault::Expected, rest));
    };
    let buffer = Parameter::Buffer {
        constant,
        kind,
        name_site: site_at(rest),
        name: String::from_str(alloc, name)?,
    };
    Ok((buffer, behind(rest)))
}

#[tactic(auto, using(crate::proofs::Steps::part_steps), unfolding(crate::specs::Kernels::value_reader))]
fn value<'a>(
    alloc: Global,
    tokens: &'a [Token<'a>],
) -> Result<(Parameter, &'a [Token<'a>]), Stop<'a>>
    ensures { Reads parameter_seen result (run reads.value_reader (lexemes tokens.now)) }
{
    let Some(kind) = kind_named(kind_at(tokens)) else {
        return Err(Stop::Refused(ParseFault::Expected, tokens));
    };
    let rest = behind(tokens);
    let Some(name) = name_of(kind_at(rest)) else {
        return Err(Stop::Refused(ParseFault::Expected, rest));
    };
    let value = Parameter::Value {
        kind,
        name_site: site_at(rest),
        name: String::from_str(alloc, name)?,
    };
    Ok((value, behind(rest)))
}

#[tactic(auto, using(crate::proofs::Steps::part_steps), unfolding(crate::specs::Kernels::parameter_reader))]
fn parameter<'a>(
    alloc: Global,
    tokens: &'a [Token<'a>],
) -> Result<(Parameter, &'a [Token<'a>]), Stop<'a>>
    ensures { Reads parameter_seen result (run reads.parameter_reader (lexemes tokens.now)) }
{
    if !is_global(kind_at(tokens)) {
        return value(alloc, tokens);
    }
    let rest = behind(tokens);
    if is_const(kind_at(rest)) {
        buffer(alloc, true, behind(rest))
    } else {
        buffer(alloc, false, rest)
    }
}

// Up to and with the parenthesis that closes them.
#[tactic(auto, using(crate::proofs::ParameterLists::lists))]
fn parameters<'a>(
    alloc: Global,
    tokens: &'a [Token<'a>],
) -> Result<(Vec<Parameter>, &'a [Token<'a>]), Stop<'a>>
    ensures { Reads parameters_seen result (run reads.parameters_reader (lexemes tokens.now)) }
{
    let mut list = Vec::new(alloc);
    if is_right_parenthesis(kind_at(tokens)) {
        return Ok((list, behind(tokens)));
    }
    let (first, mut rest) = parameter(alloc, tokens)?;
    list.push(first)?;
    for _count in 0..MOST_PARAMETERS {
        if !is_comma(kind_at(rest)) {
            let (_, rest) = pass(is_right_parenthesis(kind_at(rest)), rest)?;
            return Ok((list, rest));
        }
        let (next, after) = parameter(alloc, behind(rest))?;
        list.push(next)?;
        rest = after;
    }
    Err(Stop::Refused(ParseFault::TooMany, rest))
}

fn is_size(product: u32, size: u32) -> bool
    requires { product ≤ 1024 }
    ensures { result ≡ (nat_le 1 size && nat_le size 1024 && nat_le (product * size) 1024) }
{
    1 <= size && size <= 1024 && product * size <= 1024
}

// A local size; `product` is that of the sizes before it.
fn size<'a>(product: u32, tokens: &'a [Token<'a>]) -> Result<(u32, &'a [Token<'a>]), Stop<'a>>
    requires { product ≤ 1024 }
    ensures size { Reads (λ n. n) result (run (reads.size_reader product) (lexemes tokens.now)) }
    ensures product { IfOk result (λ found. product * found.0 ≤ 1024) }
{
    match number_of(kind_at(tokens)) {
        None => Err(Stop::Refused(ParseFault::Expected, tokens)),
        Some(size) if is_size(product, size) => Ok((size, behind(tokens))),
        Some(_) => Err(Stop::Refused(ParseFault::TooMany, tokens)),
    }
}

#[tactic(auto, using(crate::proofs::Steps::part_steps), unfolding(crate::specs::Kernels::sizes_reader))]
fn sizes<'a>(tokens: &'a [Token<'a>]) -> Result<([u32; 3], &'a [Token<'a>]), Stop<'a>>
    ensures { Reads sizes_seen result (run reads.sizes_reader (lexemes tokens.now)) }
{
    let (x, rest) = size(1, tokens)?;
    let (_, rest) = pass(is_comma(kind_at(rest)), rest)?;
    let (y, rest) = size(x, rest)?;
    let (_, rest) = pass(is_comma(kind_at(rest)), rest)?;
    let (z, rest) = size(x * y, rest)?;
    Ok(([x, y, z], rest))
}

#[tactic(auto, using(crate::proofs::Steps::part_steps), unfolding(crate::specs::Pieces::attribute_opening))]
fn attribute_opening<'a>(tokens: &'a [Token<'a>]) -> Result<(Site, &'a [Token<'a>]), Stop<'a>>
    ensures { Reads site_of result (run pieces.attribute_opening (lexemes tokens.now)) }
{
    let (_, rest) = pass(is_kernel(kind_at(tokens)), tokens)?;
    let (_, rest) = pass(is_attribute(kind_at(rest)), rest)?;
    pass(is_left_parenthesis(kind_at(rest)), rest)
}

#[tactic(auto, using(crate::proofs::Steps::part_steps), unfolding(crate::specs::Pieces::attribute_name))]
fn attribute_name<'a>(tokens: &'a [Token<'a>]) -> Result<(Site, &'a [Token<'a>]), Stop<'a>>
    ensures { Reads site_of result (run pieces.attribute_name (lexemes tokens.now)) }
{
    let (_, rest) = pass(is_left_parenthesis(kind_at(tokens)), tokens)?;
    let (_, rest) = pass(is_required_size(kind_at(rest)), rest)?;
    pass(is_left_parenthesis(kind_at(rest)), rest)
}

#[tactic(auto, using(crate::proofs::Steps::part_steps), unfolding(crate::specs::Pieces::attribute_end))]
fn attribute_end<'a>(tokens: &'a [Token<'a>]) -> Result<(Site, &'a [Token<'a>]), Stop<'a>>
    ensures { Reads site_of result (run pieces.attribute_end (lexemes tokens.now)) }
{
    let (_, rest) = pass(is_right_parenthesis(kind_at(tokens)), tokens)?;
    let (_, rest) = pass(is_right_parenthesis(kind_at(rest)), rest)?;
    pass(is_right_parenthesis(kind_at(rest)), rest)
}

// The attribute up to `void`.
#[tactic(auto, using(crate::proofs::KernelSteps::attribute_steps))]
fn attribute<'a>(tokens: &'a [Token<'a>]) -> Result<([u32; 3], &'a [Token<'a>]), Stop<'a>>
    ensures { Reads sizes_seen result (run reads.attribute_reader (lexemes tokens.now)) }
{
    let (_, rest) = attribute_opening(tokens)?;
    let (_, rest) = attribute_name(rest)?;
    let (sizes, rest) = sizes(rest)?;
    let (_, rest) = attribute_end(rest)?;
    Ok((sizes, rest))
}

// The name with its site, between `void` and the parenthesis that opens the parameters.
#[tactic(auto, using(crate::proofs::Steps::part_steps), unfolding(crate::specs::Pieces::head_reader))]
fn head<'a>(tokens: &'a [Token<'a>]) -> Result<((&'a str, Site), &'a [Token<'a>]), Stop<'a>>
    ensures { Reads named_seen result (run pieces.head_reader (lexemes tokens.now)) }
{
    let (_, rest) = pass(is_void(kind_at(tokens)), tokens)?;
    let Some(name) = name_of(kind_at(rest)) else {
        return Err(Stop::Refused(ParseFault::Expected, rest));
    };
    let site = site_at(rest);
    let rest = behind(rest);
    let (_, rest) = pass(is_left_parenthesis(kind_at(rest)), rest)?;
    Ok(((name, site), rest))
}

// The body in braces, and then the end.
#[tactic(auto, using(crate::proofs::Steps::part_steps), unfolding(crate::specs::Pieces::body_reader))]
fn whole_body<'a>(
    alloc: Global,
    tokens: &'a [Token<'a>],
) -> Result<(Vec<Stmt>, &'a [Token<'a>]), Stop<'a>>
    ensures { Reads body_seen result (run pieces.body_reader (lexemes tokens.now)) }
{
    let (_, rest) = pass(is_left_brace(kind_at(tokens)), tokens)?;
    let ((body, _), rest) = block(alloc, 63, 32, 1, rest)?;
    if !is_end(kind_at(rest)) {
        return Err(Stop::Refused(ParseFault::Expected, rest));
    }
    Ok((body, rest))
}

/// A kernel, and then the end.
#[tactic(auto, using(crate::proofs::KernelSteps::kernel_steps))]
pub fn whole_kernel<'a>(
    alloc: Global,
    tokens: &'a [Token<'a>],
) -> Result<(Kernel, &'a [Token<'a>]), Stop<'a>>
    ensures { Reads kernel_seen result (run reads.kernel_reader (lexemes tokens.now)) }
{
    let (sizes, rest) = attribute(tokens)?;
    let ((name, name_site), rest) = head(rest)?;
    let (parameters, rest) = parameters(alloc, rest)?;
    let (body, rest) = whole_body(alloc, rest)?;
    let kernel = Kernel {
        name: String::from_str(alloc, name)?,
        name_site,
        sizes,
        parameters,
        body,
    };
    Ok((kernel, rest))
}
