//! Declarations: `depth` is how many levels may stand below.

ghost use Rattle.std.specs.Prelude.{◌≡◌, ◌≤◌, IfOk, map};
ghost use Rattle.std.specs.Option.{option_map};
ghost use Rattle.core_code.specs.View.{site as site_of};
ghost use Rattle.opencl_tokens.specs.Seen.{lexeme_kind};
ghost use Rattle.opencl_tree.specs.View.{qualifiers as qualifiers_seen, maybe, initial as initial_seen, declarator as declarator_seen, declaration as declaration_seen};
ghost use Rattle.opencl_parser.specs.Reader.{run};
ghost use Rattle.opencl_parser.specs.Declarations as reads;
ghost use Rattle.opencl_parser.specs.View.{lexemes, Reads, all_known, typed as typed_seen, type_part as type_part_seen, base_named, stars_seen, text_seen};
ghost use Rattle.opencl_parser.specs.DeclarationsView.{dimensions_seen, shape as shape_seen, initials_seen, declarators_seen};

use crate::expressions::level;
use crate::front::{behind, kind_at, pass, site_at};
use crate::signs::{is_comma, is_right_bracket};
use crate::stops::{Construct, ParseError, ParseFault};
use crate::type_names::{is_bare, is_half, owned, starring, typing};
use crate::type_words::{
    Known, Named, TypePart, Typed, base_of, grown, look_up, starts_type, untyped,
};
use core_code::tree::Site;
use opencl_tokens::{Lexeme, LexemeKind, Sign, Word};
use opencl_tree::tree::{Declaration, Declarator, Expr, Initial};
use opencl_tree::types::Qualifiers;
use std::alloc::{AllocError, Global};

/// A type has fewer words and qualifiers than this, and fewer stars.
const MOST_WORDS: u32 = 16;

/// A name with its stars and dimensions; the name is lent.
#[derive(Drop)]
pub struct Shape<'a> {
    pub stars: Vec<Qualifiers>,
    pub site: Site,
    pub name: &'a str,
    pub dimensions: Vec<Option<Expr>>,
}

pub fn is_left_bracket(kind: LexemeKind) -> bool
    ensures { result ≡ reads.is_left_bracket (lexeme_kind kind.entry) }
{
    matches!(kind, LexemeKind::Mark(Sign::LeftBracket))
}

pub fn is_equal(kind: LexemeKind) -> bool
    ensures { result ≡ reads.is_equal (lexeme_kind kind.entry) }
{
    matches!(kind, LexemeKind::Mark(Sign::Equal))
}

pub fn is_left_brace(kind: LexemeKind) -> bool
    ensures { result ≡ reads.is_left_brace (lexeme_kind kind.entry) }
{
    matches!(kind, LexemeKind::Mark(Sign::LeftBrace))
}

pub fn is_right_brace(kind: LexemeKind) -> bool
    ensures { result ≡ reads.is_right_brace (lexeme_kind kind.entry) }
{
    matches!(kind, LexemeKind::Mark(Sign::RightBrace))
}

fn is_storage(kind: LexemeKind) -> bool
    ensures { result ≡ reads.is_storage (lexeme_kind kind.entry) }
{
    let LexemeKind::Word(word) = kind else {
        return false;
    };
    matches!(
        word,
        Word::Static | Word::Inline | Word::Extern | Word::Register | Word::Auto
    )
}

/// A declaration may begin here.
pub fn starts_declaration(types: &[Known], kind: LexemeKind) -> bool
    ensures { result ≡ reads.starts_declaration (all_known types.now) (lexeme_kind kind.entry) }
{
    is_storage(kind) || starts_type(types, kind)
}

/// What the lexeme is to the words in front of declarators that were begun.
pub fn specified<'a>(types: &[Known], begun: Typed<'a>, kind: LexemeKind<'a>) -> TypePart<'a>
    ensures { type_part_seen result ≡ reads.specified (all_known types.now) (typed_seen begun.entry) (lexeme_kind kind.entry) }
{
    if is_storage(kind) {
        TypePart::More(begun)
    } else {
        grown(types, begun, kind)
    }
}

// The words in front of declarators, behind those that were read.
#[cycle(specifying)]
#[tactic(auto, using(crate::proofs::DeclarationSteps::declaration_steps))]
fn specifying<'a>(
    types: &[Known],
    left: u32,
    begun: Typed<'a>,
    tokens: &'a [Lexeme<'a>],
) -> Result<(Typed<'a>, &'a [Lexeme<'a>]), ParseError>
    ensures { Reads typed_seen result (run (reads.specifying (all_known types.now) left (typed_seen begun.entry)) (lexemes tokens.now)) }
{
    let site = site_at(tokens);
    if left == 0 {
        return Err(ParseError::At {
            fault: ParseFault::TooMany,
            site,
        });
    }
    match specified(types, begun, kind_at(tokens)) {
        TypePart::NoPart => Ok((begun, tokens)),
        TypePart::More(more) => specifying(types, left - 1, more, behind(tokens)),
        TypePart::Wrong(fault) => Err(ParseError::At { fault, site }),
    }
}

/// The name that a lexeme is, where that is no type.
pub fn new_name<'a>(types: &[Known], kind: LexemeKind<'a>) -> Option<&'a str>
    ensures { option_map text_seen result ≡ reads.new_name (all_known types.now) (lexeme_kind kind.entry) }
{
    match kind {
        LexemeKind::Name(name) => {
            if look_up(types, name).is_some() {
                None
            } else {
                Some(name)
            }
        }
        _ => None,
    }
}

// Behind the bracket of a dimension.
#[tactic(auto, using(crate::proofs::DeclarationSteps::declaration_steps))]
fn dimension<'a>(
    alloc: Global,
    types: &[Known],
    depth: u32,
    tokens: &'a [Lexeme<'a>],
) -> Result<(Option<Expr>, &'a [Lexeme<'a>]), ParseError>
    requires depth { depth ≤ 64 }
    ensures { Reads maybe result (run (reads.dimension (all_known types.now) depth) (lexemes tokens.now)) }
{
    if is_right_bracket(kind_at(tokens)) {
        return Ok((None, behind(tokens)));
    }
    let (length, rest) = level(alloc, types, depth, 12, tokens)?;
    let (_, rest) = pass(is_right_bracket(kind_at(rest)), rest)?;
    Ok((Some(length), rest))
}

/// Reads dimensions, behind those that were read.
#[cycle(dimensions)]
#[tactic(auto, using(crate::proofs::DeclarationSteps::declaration_steps))]
pub fn dimensions<'a>(
    alloc: Global,
    types: &[Known],
    depth: u32,
    left: u32,
    so: Vec<Option<Expr>>,
    tokens: &'a [Lexeme<'a>],
) -> Result<(Vec<Option<Expr>>, &'a [Lexeme<'a>]), ParseError>
    requires depth { depth ≤ 64 }
    ensures { Reads dimensions_seen result (run (reads.dimensions (all_known types.now) depth left (dimensions_seen so)) (lexemes tokens.now)) }
{
    if left == 0 {
        return Err(ParseError::At {
            fault: ParseFault::TooMany,
            site: site_at(tokens),
        });
    }
    if !is_left_bracket(kind_at(tokens)) {
        return Ok((so, tokens));
    }
    let (length, rest) = dimension(alloc, types, depth, behind(tokens))?;
    let mut more = so;
    more.push(length)?;
    dimensions(alloc, types, depth, left - 1, more, rest)
}

// Behind the stars.
#[tactic(auto, using(crate::proofs::DeclarationSteps::declaration_steps))]
fn shaped<'a>(
    alloc: Global,
    types: &[Known],
    depth: u32,
    stars: Vec<Qualifiers>,
    tokens: &'a [Lexeme<'a>],
) -> Result<(Shape<'a>, &'a [Lexeme<'a>]), ParseError>
    requires depth { depth ≤ 64 }
    ensures { Reads shape_seen result (run (reads.shaped (all_known types.now) depth (stars_seen stars)) (lexemes tokens.now)) }
{
    let site = site_at(tokens);
    let Some(name) = new_name(types, kind_at(tokens)) else {
        return Err(ParseError::At {
            fault: ParseFault::Expected,
            site,
        });
    };
    let (dimensions, rest) = dimensions(alloc, types, depth, 8, Vec::new(alloc), behind(tokens))?;
    let shape = Shape {
        stars,
        site,
        name,
        dimensions,
    };
    Ok((shape, rest))
}

/// Reads a name with its stars and dimensions.
#[tactic(auto, using(crate::proofs::DeclarationSteps::declaration_steps))]
pub fn shape_at<'a>(
    alloc: Global,
    types: &[Known],
    depth: u32,
    base: Named,
    tokens: &'a [Lexeme<'a>],
) -> Result<(Shape<'a>, &'a [Lexeme<'a>]), ParseError>
    requires depth { depth ≤ 64 }
    ensures { Reads shape_seen result (run (reads.shape (all_known types.now) depth (base_named base.entry)) (lexemes tokens.now)) }
{
    let (stars, rest) = starring(MOST_WORDS, Vec::new(alloc), tokens)?;
    if is_half(base) && is_bare(stars.as_slice()) {
        return Err(ParseError::At {
            fault: ParseFault::LeftOut(Construct::Half),
            site: site_at(rest),
        });
    }
    shaped(alloc, types, depth, stars, rest)
}

// Behind `=`.
#[cycle(initials)]
#[tactic(auto, using(crate::proofs::DeclarationSteps::declaration_steps))]
fn initial_value<'a>(
    alloc: Global,
    types: &[Known],
    depth: u32,
    tokens: &'a [Lexeme<'a>],
) -> Result<(Initial, &'a [Lexeme<'a>]), ParseError>
    requires depth { depth ≤ 64 }
    ensures { Reads initial_seen result (run (reads.initial_value (all_known types.now) depth) (lexemes tokens.now)) }
{
    let site = site_at(tokens);
    if depth == 0 {
        return Err(ParseError::At {
            fault: ParseFault::TooDeep,
            site,
        });
    }
    if is_left_brace(kind_at(tokens)) {
        let (values, rest) = values(alloc, types, depth - 1, behind(tokens))?;
        Ok((Initial::Listed { site, values }, rest))
    } else {
        let (value, rest) = level(alloc, types, depth - 1, 12, tokens)?;
        Ok((Initial::Given(value), rest))
    }
}

// One or more, up to and with the brace that closes them.
#[cycle(initials)]
#[tactic(auto, using(crate::proofs::DeclarationSteps::declaration_steps))]
fn values<'a>(
    alloc: Global,
    types: &[Known],
    depth: u32,
    tokens: &'a [Lexeme<'a>],
) -> Result<(Vec<Initial>, &'a [Lexeme<'a>]), ParseError>
    requires depth { depth ≤ 63 }
    ensures { Reads initials_seen result (run (reads.values (reads.initial_value (all_known types.now) depth)) (lexemes tokens.now)) }
{
    let mut list = Vec::new(alloc);
    let (first, mut rest) = initial_value(alloc, types, depth, tokens)?;
    list.push(first)?;
    for _count in 0..65_536u32 {
        if !is_comma(kind_at(rest)) {
            let (_, rest) = pass(is_right_brace(kind_at(rest)), rest)?;
            return Ok((list, rest));
        }
        let further = behind(rest);
        if is_right_brace(kind_at(further)) {
            return Ok((list, behind(further)));
        }
        let (next, after) = initial_value(alloc, types, depth, further)?;
        list.push(next)?;
        rest = after;
    }
    Err(ParseError::At {
        fault: ParseFault::TooMany,
        site: site_at(rest),
    })
}

#[tactic(auto, using(crate::proofs::DeclarationSteps::declaration_steps))]
fn initial<'a>(
    alloc: Global,
    types: &[Known],
    depth: u32,
    tokens: &'a [Lexeme<'a>],
) -> Result<(Initial, &'a [Lexeme<'a>]), ParseError>
    requires depth { depth ≤ 64 }
    ensures { Reads initial_seen result (run (reads.initial (all_known types.now) depth) (lexemes tokens.now)) }
{
    if is_equal(kind_at(tokens)) {
        initial_value(alloc, types, depth, behind(tokens))
    } else {
        Ok((Initial::Absent, tokens))
    }
}

pub fn named<'a>(
    alloc: Global,
    shape: Shape<'a>,
    initial: Initial,
) -> Result<Declarator, AllocError>
    ensures { IfOk result (λ d. declarator_seen d ≡ reads.named (shape_seen shape.entry) (initial_seen initial)) }
{
    let name = String::from_str(alloc, shape.name)?;
    Ok(Declarator {
        site: shape.site,
        name,
        stars: shape.stars,
        dimensions: shape.dimensions,
        initial,
    })
}

#[tactic(auto, using(crate::proofs::DeclarationSteps::declaration_steps))]
fn declarator<'a>(
    alloc: Global,
    types: &[Known],
    depth: u32,
    base: Named,
    tokens: &'a [Lexeme<'a>],
) -> Result<(Declarator, &'a [Lexeme<'a>]), ParseError>
    requires depth { depth ≤ 64 }
    ensures { Reads declarator_seen result (run (reads.declarator (all_known types.now) depth (base_named base.entry)) (lexemes tokens.now)) }
{
    let (shape, rest) = shape_at(alloc, types, depth, base, tokens)?;
    let (initial, rest) = initial(alloc, types, depth, rest)?;
    let declarator = named(alloc, shape, initial)?;
    Ok((declarator, rest))
}

// Declarators, behind those that were read.
#[cycle(declarators)]
#[tactic(auto, using(crate::proofs::DeclarationSteps::declaration_steps))]
fn more_declarators<'a>(
    alloc: Global,
    types: &[Known],
    depth: u32,
    base: Named,
    left: u32,
    so: Vec<Declarator>,
    tokens: &'a [Lexeme<'a>],
) -> Result<(Vec<Declarator>, &'a [Lexeme<'a>]), ParseError>
    requires depth { depth ≤ 64 }
    ensures { Reads declarators_seen result (run (reads.more_declarators (reads.declarator (all_known types.now) depth (base_named base.entry)) left (declarators_seen so)) (lexemes tokens.now)) }
{
    if left == 0 {
        return Err(ParseError::At {
            fault: ParseFault::TooMany,
            site: site_at(tokens),
        });
    }
    if !is_comma(kind_at(tokens)) {
        return Ok((so, tokens));
    }
    let (next, rest) = declarator(alloc, types, depth, base, behind(tokens))?;
    let mut more = so;
    more.push(next)?;
    more_declarators(alloc, types, depth, base, left - 1, more, rest)
}

#[tactic(auto, using(crate::proofs::DeclarationSteps::declaration_steps))]
fn declarators<'a>(
    alloc: Global,
    types: &[Known],
    depth: u32,
    base: Named,
    tokens: &'a [Lexeme<'a>],
) -> Result<(Vec<Declarator>, &'a [Lexeme<'a>]), ParseError>
    requires depth { depth ≤ 64 }
    ensures { Reads declarators_seen result (run (reads.declarators (reads.declarator (all_known types.now) depth (base_named base.entry))) (lexemes tokens.now)) }
{
    let (first, rest) = declarator(alloc, types, depth, base, tokens)?;
    let mut list = Vec::new(alloc);
    list.push(first)?;
    more_declarators(alloc, types, depth, base, 64, list, rest)
}

/// Reads a declaration up to its last declarator.
#[tactic(auto, using(crate::proofs::DeclarationSteps::declaration_steps))]
pub fn declaration<'a>(
    alloc: Global,
    types: &[Known],
    depth: u32,
    number: u32,
    site: Site,
    tokens: &'a [Lexeme<'a>],
) -> Result<(Declaration, &'a [Lexeme<'a>]), ParseError>
    requires depth { depth ≤ 64 }
    ensures { Reads declaration_seen result (run (reads.declaration (all_known types.now) depth number (site_of site)) (lexemes tokens.now)) }
{
    let (typed, rest) = specifying(types, MOST_WORDS, untyped(), tokens)?;
    let Some((base, _)) = base_of(typed.written) else {
        return Err(ParseError::At {
            fault: ParseFault::Expected,
            site: site_at(rest),
        });
    };
    let (declarators, rest) = declarators(alloc, types, depth, base, rest)?;
    let declaration = Declaration {
        number,
        site,
        base: owned(alloc, base)?,
        qualifiers: typed.qualifiers,
        declarators,
    };
    Ok((declaration, rest))
}
