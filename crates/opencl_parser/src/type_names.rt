//! Types in casts and behind `sizeof`.

ghost use Rattle.std.specs.Prelude.{◌≡◌, IfOk, map};
ghost use Rattle.opencl_tree.specs.View.{base as base_seen, qualifiers as qualifiers_seen};
ghost use Rattle.opencl_parser.specs.Reader.{run};
ghost use Rattle.opencl_parser.specs.TypeNames as names;
ghost use Rattle.opencl_parser.specs.View.{lexemes, Reads, all_known, typed as typed_seen, base_named, stars_seen, sorted};

use crate::front::{behind, kind_at, site_at};
use crate::signs::is_star;
use crate::stops::{Construct, ParseError, ParseFault};
use crate::type_words::{
    Known, Named, TypePart, Typed, base_of, grown, qualified, unqualified, untyped,
};
use opencl_tokens::{Lexeme, Scalar};
use opencl_tree::types::{Base, Qualifiers, TypeName};
use std::alloc::{AllocError, Global};

/// A type has fewer words and qualifiers than this, and fewer stars.
const MOST_WORDS: u32 = 16;

// The words and qualifiers of a type, behind those that it was begun with.
#[cycle(typing)]
#[tactic(auto, using(crate::proofs::TypeSteps::type_steps))]
pub fn typing<'a>(
    types: &[Known],
    left: u32,
    begun: Typed<'a>,
    tokens: &'a [Lexeme<'a>],
) -> Result<(Typed<'a>, &'a [Lexeme<'a>]), ParseError>
    ensures { Reads typed_seen result (run (names.typing (all_known types.now) left (typed_seen begun.entry)) (lexemes tokens.now)) }
{
    let site = site_at(tokens);
    if left == 0 {
        return Err(ParseError::At {
            fault: ParseFault::TooMany,
            site,
        });
    }
    match grown(types, begun, kind_at(tokens)) {
        TypePart::NoPart => Ok((begun, tokens)),
        TypePart::More(more) => typing(types, left - 1, more, behind(tokens)),
        TypePart::Wrong(fault) => Err(ParseError::At { fault, site }),
    }
}

#[cycle(qualifying)]
#[tactic(auto, using(crate::proofs::TypeSteps::type_steps))]
fn qualifying<'a>(
    left: u32,
    begun: Qualifiers,
    tokens: &'a [Lexeme<'a>],
) -> Result<(Qualifiers, &'a [Lexeme<'a>]), ParseError>
    ensures { Reads qualifiers_seen result (run (names.qualifying left (qualifiers_seen begun)) (lexemes tokens.now)) }
{
    if left == 0 {
        return Err(ParseError::At {
            fault: ParseFault::TooMany,
            site: site_at(tokens),
        });
    }
    match qualified(begun, kind_at(tokens)) {
        None => Ok((begun, tokens)),
        Some(more) => qualifying(left - 1, more, behind(tokens)),
    }
}

/// Stars with their qualifiers, behind those that were read.
#[cycle(starring)]
#[tactic(auto, using(crate::proofs::TypeSteps::type_steps))]
pub fn starring<'a>(
    left: u32,
    so: Vec<Qualifiers>,
    tokens: &'a [Lexeme<'a>],
) -> Result<(Vec<Qualifiers>, &'a [Lexeme<'a>]), ParseError>
    ensures { Reads stars_seen result (run (names.starring left (stars_seen so)) (lexemes tokens.now)) }
{
    if left == 0 {
        return Err(ParseError::At {
            fault: ParseFault::TooMany,
            site: site_at(tokens),
        });
    }
    if !is_star(kind_at(tokens)) {
        return Ok((so, tokens));
    }
    let (qualifiers, rest) = qualifying(MOST_WORDS, unqualified(), behind(tokens))?;
    let mut more = so;
    more.push(qualifiers)?;
    starring(left - 1, more, rest)
}

pub fn is_bare(stars: &[Qualifiers]) -> bool
    ensures { result ≡ names.is_bare (map qualifiers_seen stars.now) }
{
    matches!(stars, [])
}

pub fn is_half(base: Named) -> bool
    ensures { result ≡ names.is_half (base_named base.entry) }
{
    matches!(base, Named::Numbers(Scalar::Half, _))
}

/// Copies the name of a base into a base of its own. The error is want of memory.
pub fn owned(alloc: Global, base: Named) -> Result<Base, AllocError>
    ensures { IfOk result (λ b. base_seen b ≡ base_named base.entry) }
{
    match base {
        Named::Void => Ok(Base::Void),
        Named::Numbers(scalar, width) => Ok(Base::Numbers { scalar, width }),
        Named::Alias(name) => Ok(Base::Alias(String::from_str(alloc, name)?)),
    }
}

/// With the stars behind it.
fn pointed<'a>(
    alloc: Global,
    base: (Named, bool),
    qualifiers: Qualifiers,
    stars: Vec<Qualifiers>,
    tokens: &'a [Lexeme<'a>],
) -> Result<((TypeName, bool), &'a [Lexeme<'a>]), ParseError>
    ensures { Reads sorted result (run (names.pointed (base_named base.entry.0, base.entry.1) (qualifiers_seen qualifiers) (stars_seen stars)) (lexemes tokens.now)) }
{
    let bare = is_bare(stars.as_slice());
    let (named, is_vector) = base;
    if is_half(named) && bare {
        return Err(ParseError::At {
            fault: ParseFault::LeftOut(Construct::Half),
            site: site_at(tokens),
        });
    }
    let name = TypeName {
        base: owned(alloc, named)?,
        qualifiers,
        stars,
    };
    Ok(((name, is_vector && bare), tokens))
}

/// Reads a type, and whether it is a vector.
#[tactic(auto, using(crate::proofs::TypeSteps::type_steps), unfolding(crate::specs::TypeNames::type_reader))]
pub fn type_name<'a>(
    alloc: Global,
    types: &[Known],
    tokens: &'a [Lexeme<'a>],
) -> Result<((TypeName, bool), &'a [Lexeme<'a>]), ParseError>
    ensures { Reads sorted result (run (names.type_reader (all_known types.now)) (lexemes tokens.now)) }
{
    let (typed, rest) = typing(types, MOST_WORDS, untyped(), tokens)?;
    let Some(base) = base_of(typed.written) else {
        return Err(ParseError::At {
            fault: ParseFault::Expected,
            site: site_at(rest),
        });
    };
    let (stars, rest) = starring(MOST_WORDS, Vec::new(alloc), rest)?;
    pointed(alloc, base, typed.qualifiers, stars, rest)
}
