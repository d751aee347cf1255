//! Names of types: `depth` is how many levels may stand below.

ghost use Rattle.std.specs.Prelude.{◌≡◌, ◌≤◌, IfOk, map};
ghost use Rattle.core_code.specs.View.{site as site_of};
ghost use Rattle.opencl_tree.specs.View.{qualifiers as qualifiers_seen, maybe};
ghost use Rattle.opencl_parser.specs.Reader.{run};
ghost use Rattle.opencl_parser.specs.Declarations as reads;
ghost use Rattle.opencl_parser.specs.View.{lexemes, Reads, all_known, base_named};
ghost use Rattle.opencl_parser.specs.DeclarationsView.{shape as shape_seen, defined as defined_seen};

use crate::declarations::{Shape, named, shape_at};
use crate::front::site_at;
use crate::stops::{ParseError, ParseFault};
use crate::type_names::{is_bare, owned, typing};
use crate::type_words::{Known, Named, base_of, untyped};
use core_code::tree::Site;
use opencl_tokens::Lexeme;
use opencl_tree::tree::{Declaration, Expr, Initial};
use opencl_tree::types::Qualifiers;
use std::alloc::{AllocError, Global};

/// A type has fewer words and qualifiers than this.
const MOST_WORDS: u32 = 16;

fn is_single(dimensions: &[Option<Expr>]) -> bool
    ensures { result ≡ reads.is_single (map maybe dimensions.now) }
{
    matches!(dimensions, [])
}

/// The place of a declaration: where it begins, and its number.
#[derive(Clone, Copy)]
pub struct Place {
    pub number: u32,
    pub site: Site,
}

fn defined<'a>(
    alloc: Global,
    place: Place,
    qualifiers: Qualifiers,
    base: (Named, bool),
    shape: Shape<'a>,
) -> Result<(Declaration, Known<'a>), AllocError>
    ensures { IfOk result (λ d. defined_seen d ≡ reads.defined place.number (site_of place.site) (qualifiers_seen qualifiers) (base_named base.entry.0, base.entry.1) (shape_seen shape.entry)) }
{
    let (base, is_vector) = base;
    let single = is_bare(shape.stars.as_slice()) && is_single(shape.dimensions.as_slice());
    let known = Known {
        name: shape.name,
        is_vector: is_vector && single,
    };
    let declarator = named(alloc, shape, Initial::Absent)?;
    let mut declarators = Vec::new(alloc);
    declarators.push(declarator)?;
    let declaration = Declaration {
        number: place.number,
        site: place.site,
        base: owned(alloc, base)?,
        qualifiers,
        declarators,
    };
    Ok((declaration, known))
}

/// Reads the name of a type behind `typedef`.
#[tactic(auto, using(crate::proofs::DeclarationSteps::declaration_steps))]
pub fn alias<'a>(
    alloc: Global,
    types: &[Known],
    depth: u32,
    place: Place,
    tokens: &'a [Lexeme<'a>],
) -> Result<((Declaration, Known<'a>), &'a [Lexeme<'a>]), ParseError>
    requires depth { depth ≤ 64 }
    ensures { Reads defined_seen result (run (reads.alias (all_known types.now) depth place.number (site_of place.site)) (lexemes tokens.now)) }
{
    let (typed, rest) = typing(types, MOST_WORDS, untyped(), tokens)?;
    let Some(base) = base_of(typed.written) else {
        return Err(ParseError::At {
            fault: ParseFault::Expected,
            site: site_at(rest),
        });
    };
    let (shape, rest) = shape_at(alloc, types, depth, base.0, rest)?;
    let made = defined(alloc, place, typed.qualifiers, base, shape)?;
    Ok((made, rest))
}
