//! Attributes, of which the size of a work-group is read.

ghost use Rattle.std.specs.Prelude.{◌≡◌, ◌≤◌, ◌+◌};
ghost use Rattle.std.specs.Option.{option_map};
ghost use Rattle.opencl_tokens.specs.Seen.{lexeme_kind};
ghost use Rattle.opencl_parser.specs.Reader.{run};
ghost use Rattle.opencl_parser.specs.View.{lexemes, Reads};
ghost use Rattle.opencl_files.specs.Headers as reads;
ghost use Rattle.opencl_files.specs.View.{sizes as sizes_seen, maybe_sizes, attribute_part as attribute_part_seen};

use opencl_parser::front::{behind, kind_at, pass, site_at};
use opencl_parser::signs::{is_comma, is_left_parenthesis, is_right_parenthesis};
use opencl_parser::stops::{ParseError, ParseFault};
use opencl_tokens::{Lexeme, LexemeKind, Literal, Sign, Word};

/// What a lexeme is to the attributes between two parentheses each.
#[derive(Clone, Copy)]
pub enum AttributePart {
    Deeper,
    Closing,
    Sizes,
    Passed,
}

/// The lexeme is the word in front of attributes.
pub fn is_attribute(kind: LexemeKind) -> bool
    ensures { result ≡ reads.is_attribute (lexeme_kind kind.entry) }
{
    matches!(kind, LexemeKind::Word(Word::Attribute))
}

fn is_required_size(kind: LexemeKind) -> bool
    ensures { result ≡ reads.is_required_size (lexeme_kind kind.entry) }
{
    match kind {
        LexemeKind::Name(name) => {
            name == "reqd_work_group_size" || name == "__reqd_work_group_size__"
        }
        _ => false,
    }
}

fn number_of(kind: LexemeKind) -> Option<u32>
    ensures { result ≡ reads.number_at (lexeme_kind kind.entry) }
{
    match kind {
        LexemeKind::Integer(Literal::Int(value)) => Some(value),
        LexemeKind::Integer(Literal::Uint(value)) => Some(value),
        _ => None,
    }
}

fn attribute_part(depth: u32, kind: LexemeKind) -> AttributePart
    ensures { attribute_part_seen result ≡ reads.attribute_part depth (lexeme_kind kind.entry) }
{
    match kind {
        LexemeKind::Mark(Sign::LeftParenthesis) => AttributePart::Deeper,
        LexemeKind::Mark(Sign::RightParenthesis) => AttributePart::Closing,
        _ => {
            if is_required_size(kind) && depth == 2 {
                AttributePart::Sizes
            } else {
                AttributePart::Passed
            }
        }
    }
}

// A number.
#[tactic(auto, using(crate::proofs::HeaderSteps::header_steps))]
fn number_at<'a>(tokens: &'a [Lexeme<'a>]) -> Result<(u32, &'a [Lexeme<'a>]), ParseError>
    ensures { Reads (λ n. n) result (run reads.number (lexemes tokens.now)) }
{
    match number_of(kind_at(tokens)) {
        Some(value) => Ok((value, behind(tokens))),
        None => Err(ParseError::At {
            fault: ParseFault::Expected,
            site: site_at(tokens),
        }),
    }
}

// Behind `reqd_work_group_size`.
#[tactic(auto, using(crate::proofs::HeaderSteps::header_steps))]
fn sizes_at<'a>(tokens: &'a [Lexeme<'a>]) -> Result<([u32; 3], &'a [Lexeme<'a>]), ParseError>
    ensures { Reads sizes_seen result (run reads.size_reader (lexemes tokens.now)) }
{
    let (_, rest) = pass(is_left_parenthesis(kind_at(tokens)), tokens)?;
    let (x, rest) = number_at(rest)?;
    let (_, rest) = pass(is_comma(kind_at(rest)), rest)?;
    let (y, rest) = number_at(rest)?;
    let (_, rest) = pass(is_comma(kind_at(rest)), rest)?;
    let (z, rest) = number_at(rest)?;
    let (_, rest) = pass(is_right_parenthesis(kind_at(rest)), rest)?;
    Ok(([x, y, z], rest))
}

// Up to the parenthesis that closes the last of those that are open.
#[cycle(attributes)]
#[tactic(auto, using(crate::proofs::HeaderSteps::header_steps))]
fn attributes<'a>(
    left: u32,
    depth: u32,
    so: Option<[u32; 3]>,
    tokens: &'a [Lexeme<'a>],
) -> Result<(Option<[u32; 3]>, &'a [Lexeme<'a>]), ParseError>
    requires some { 1 ≤ depth }
    requires few { depth + left ≤ 258 }
    ensures { Reads maybe_sizes result (run (reads.attributes left depth (maybe_sizes so)) (lexemes tokens.now)) }
{
    if left == 0 {
        return Err(ParseError::At {
            fault: ParseFault::TooMany,
            site: site_at(tokens),
        });
    }
    match attribute_part(depth, kind_at(tokens)) {
        AttributePart::Deeper => attributes(left - 1, depth + 1, so, behind(tokens)),
        AttributePart::Closing => {
            if depth == 1 {
                Ok((so, behind(tokens)))
            } else {
                attributes(left - 1, depth - 1, so, behind(tokens))
            }
        }
        AttributePart::Sizes => {
            if so.is_some() {
                return Err(ParseError::At {
                    fault: ParseFault::Expected,
                    site: site_at(tokens),
                });
            }
            let (sizes, rest) = sizes_at(behind(tokens))?;
            attributes(left - 1, depth, Some(sizes), rest)
        }
        AttributePart::Passed => attributes(left - 1, depth, so, behind(tokens)),
    }
}

/// Reads what stands behind `__attribute__`; with the size that was required so far.
#[tactic(auto, using(crate::proofs::HeaderSteps::header_steps))]
pub fn attribute<'a>(
    so: Option<[u32; 3]>,
    tokens: &'a [Lexeme<'a>],
) -> Result<(Option<[u32; 3]>, &'a [Lexeme<'a>]), ParseError>
    ensures { Reads maybe_sizes result (run (reads.attribute (maybe_sizes so)) (lexemes tokens.now)) }
{
    let (_, rest) = pass(is_left_parenthesis(kind_at(tokens)), tokens)?;
    let (_, rest) = pass(is_left_parenthesis(kind_at(rest)), rest)?;
    attributes(256, 2, so, rest)
}

/// Reads the attributes behind the parameters of a function.
#[cycle(trailing)]
#[tactic(auto, using(crate::proofs::HeaderSteps::header_steps))]
pub fn trailing<'a>(
    left: u32,
    so: Option<[u32; 3]>,
    tokens: &'a [Lexeme<'a>],
) -> Result<(Option<[u32; 3]>, &'a [Lexeme<'a>]), ParseError>
    ensures { Reads maybe_sizes result (run (reads.trailing left (maybe_sizes so)) (lexemes tokens.now)) }
{
    if left == 0 {
        return Err(ParseError::At {
            fault: ParseFault::TooMany,
            site: site_at(tokens),
        });
    }
    if !is_attribute(kind_at(tokens)) {
        return Ok((so, tokens));
    }
    let (sizes, rest) = attribute(so, behind(tokens))?;
    trailing(left - 1, sizes, rest)
}
