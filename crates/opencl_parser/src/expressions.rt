//! Expressions, level by level: `depth` is how many levels may stand below.

ghost use Rattle.std.specs.Prelude.{◌≡◌, ◌≤◌, ◌+◌, suc, string_bytes};
ghost use Rattle.core_code.specs.View.{site as site_of};
ghost use Rattle.opencl_tree.specs.View.{expression, type_name as type_seen};
ghost use Rattle.syntax.specs.View.{assign_sign};
ghost use Rattle.opencl_parser.specs.Reader.{run, front};
ghost use Rattle.opencl_parser.specs.Expressions as reads;
ghost use Rattle.opencl_parser.specs.View.{lexemes, Reads, all_known, maybe_joint, maybe_suffix, opening as opening_seen, arguments_seen, sorted};

use crate::front::{behind, kind_at, pass, site_at};
use crate::nodes::{
    assigned, cast, conditional, indexed, joined, measured, member, prefixed, stepped,
};
use crate::signs::{
    Joint, Opening, Suffix, is_colon, is_comma, is_left_parenthesis, is_right_bracket,
    is_right_parenthesis, joint_at, name_of, opening_of, suffix_at,
};
use crate::stops::{Construct, ParseError, ParseFault};
use crate::type_names::type_name;
use crate::type_words::{Known, look_up, starts_type};
use core_code::tree::Site;
use opencl_tokens::{Lexeme, LexemeKind, Literal, Word};
use opencl_tree::tree::{Expr, Side};
use opencl_tree::types::TypeName;
use std::alloc::Global;
use syntax::tree::AssignSign;
use words::Kind;

/// The most arguments of a call.
const MOST_ARGUMENTS: u32 = 256;

/// Operands joined so far: their tree, the rank below that of the signs between them, and how many more may come at most.
#[derive(Drop)]
struct Series {
    first: Expr,
    below: u32,
    left: u32,
}

/// Reads an expression of the rank at the front of the lexemes; with the lexemes behind it.
#[cycle(expressions)]
#[tactic(auto, using(crate::proofs::ExpressionSteps::steps))]
pub fn level<'a>(
    alloc: Global,
    types: &[Known],
    depth: u32,
    rank: u32,
    tokens: &'a [Lexeme<'a>],
) -> Result<(Expr, &'a [Lexeme<'a>]), ParseError>
    requires depth { depth ≤ 64 }
    requires rank { rank ≤ 13 }
    ensures { Reads expression result (run (reads.level (all_known types.now) depth rank) (lexemes tokens.now)) }
{
    if depth == 0 {
        return Err(ParseError::At {
            fault: ParseFault::TooDeep,
            site: site_at(tokens),
        });
    }
    ranked(alloc, types, depth - 1, rank, tokens)
}

// Operands joined by signs of the rank or a lower one.
#[cycle(expressions)]
#[tactic(auto, using(crate::proofs::ExpressionSteps::steps))]
fn ranked<'a>(
    alloc: Global,
    types: &[Known],
    depth: u32,
    rank: u32,
    tokens: &'a [Lexeme<'a>],
) -> Result<(Expr, &'a [Lexeme<'a>]), ParseError>
    requires depth { depth ≤ 63 }
    requires rank { rank ≤ 13 }
    ensures { Reads expression result (run (reads.inner (all_known types.now) depth rank) (lexemes tokens.now)) }
{
    if rank == 0 {
        operand(alloc, types, depth, tokens)
    } else {
        row(alloc, types, depth, rank - 1, tokens)
    }
}

// Operands joined by signs of the rank after `below`, or a lower one.
#[cycle(expressions)]
#[tactic(auto, using(crate::proofs::ExpressionSteps::steps))]
fn row<'a>(
    alloc: Global,
    types: &[Known],
    depth: u32,
    below: u32,
    tokens: &'a [Lexeme<'a>],
) -> Result<(Expr, &'a [Lexeme<'a>]), ParseError>
    requires depth { depth ≤ 63 }
    requires rank { below ≤ 12 }
    ensures { Reads expression result (run (reads.inner (all_known types.now) depth (suc below)) (lexemes tokens.now)) }
{
    let (first, rest) = ranked(alloc, types, depth, below, tokens)?;
    let series = Series {
        first,
        below,
        left: depth + 1,
    };
    chain(alloc, types, depth, series, rest)
}

// More of them behind a left operand.
#[cycle(expressions)]
#[tactic(auto, using(crate::proofs::ExpressionSteps::steps))]
fn chain<'a>(
    alloc: Global,
    types: &[Known],
    depth: u32,
    series: Series,
    tokens: &'a [Lexeme<'a>],
) -> Result<(Expr, &'a [Lexeme<'a>]), ParseError>
    requires depth { depth ≤ 63 }
    requires rank { series.below ≤ 12 }
    requires left { series.left ≤ 64 }
    ensures { Reads expression result (run (reads.chain (reads.inner (all_known types.now) depth series.below) (reads.level (all_known types.now) depth) (series.below + 1) series.left (expression series.first)) (lexemes tokens.now)) }
{
    let Series { first, below, left } = series;
    if left == 0 {
        return Err(ParseError::At {
            fault: ParseFault::TooDeep,
            site: site_at(tokens),
        });
    }
    let joint = joint_at(below + 1, kind_at(tokens));
    let series = Series {
        first,
        below,
        left: left - 1,
    };
    onward(alloc, types, depth, series, joint, tokens)
}

// How it goes on behind a left operand.
#[cycle(expressions)]
#[tactic(auto, using(crate::proofs::ExpressionSteps::steps))]
fn onward<'a>(
    alloc: Global,
    types: &[Known],
    depth: u32,
    series: Series,
    joint: Option<Joint>,
    tokens: &'a [Lexeme<'a>],
) -> Result<(Expr, &'a [Lexeme<'a>]), ParseError>
    requires depth { depth ≤ 63 }
    requires rank { series.below ≤ 12 }
    requires left { series.left ≤ 63 }
    ensures { Reads expression result (run (reads.goes_on (reads.longer (reads.inner (all_known types.now) depth series.below) (reads.chain (reads.inner (all_known types.now) depth series.below) (reads.level (all_known types.now) depth) (series.below + 1) series.left) (expression series.first)) (reads.level (all_known types.now) depth) (expression series.first) (front (lexemes tokens.now)).site (maybe_joint joint)) (lexemes tokens.now)) }
{
    let Series { first, below, left } = series;
    let site = site_at(tokens);
    match joint {
        None => Ok((first, tokens)),
        Some(Joint::Joins(join)) => {
            let (right, rest) = ranked(alloc, types, depth, below, behind(tokens))?;
            let first = joined(alloc, join, site, first, right)?;
            let series = Series { first, below, left };
            chain(alloc, types, depth, series, rest)
        }
        Some(Joint::Assigns(sign)) => {
            assignment(alloc, types, depth, site, sign, first, behind(tokens))
        }
        Some(Joint::Asks) => choice(alloc, types, depth, site, first, behind(tokens)),
    }
}

// Behind the sign of an assignment.
#[cycle(expressions)]
#[tactic(auto, using(crate::proofs::ExpressionSteps::steps))]
fn assignment<'a>(
    alloc: Global,
    types: &[Known],
    depth: u32,
    site: Site,
    sign: AssignSign,
    target: Expr,
    tokens: &'a [Lexeme<'a>],
) -> Result<(Expr, &'a [Lexeme<'a>]), ParseError>
    requires depth { depth ≤ 63 }
    ensures { Reads expression result (run (reads.assigns (reads.level (all_known types.now) depth) (site_of site) (assign_sign sign) (expression target)) (lexemes tokens.now)) }
{
    let (value, rest) = level(alloc, types, depth, 12, tokens)?;
    let tree = assigned(alloc, site, sign, target, value)?;
    Ok((tree, rest))
}

// Behind a `?`.
#[cycle(expressions)]
#[tactic(auto, using(crate::proofs::ExpressionSteps::steps))]
fn choice<'a>(
    alloc: Global,
    types: &[Known],
    depth: u32,
    site: Site,
    test: Expr,
    tokens: &'a [Lexeme<'a>],
) -> Result<(Expr, &'a [Lexeme<'a>]), ParseError>
    requires depth { depth ≤ 63 }
    ensures { Reads expression result (run (reads.chooses (reads.level (all_known types.now) depth) (site_of site) (expression test)) (lexemes tokens.now)) }
{
    let (taken, rest) = level(alloc, types, depth, 13, tokens)?;
    let (_, rest) = pass(is_colon(kind_at(rest)), rest)?;
    let (skipped, rest) = level(alloc, types, depth, 11, rest)?;
    let tree = conditional(alloc, site, test, taken, skipped)?;
    Ok((tree, rest))
}

#[cycle(expressions)]
#[tactic(auto, using(crate::proofs::ExpressionSteps::steps))]
fn operand<'a>(
    alloc: Global,
    types: &[Known],
    depth: u32,
    tokens: &'a [Lexeme<'a>],
) -> Result<(Expr, &'a [Lexeme<'a>]), ParseError>
    requires depth { depth ≤ 63 }
    ensures { Reads expression result (run (reads.operand (all_known types.now) (reads.level (all_known types.now) depth) depth) (lexemes tokens.now)) }
{
    let site = site_at(tokens);
    match kind_at(tokens) {
        LexemeKind::Integer(literal) => {
            let (kind, value) = match literal {
                Literal::Int(value) => (Kind::Int, value),
                Literal::Uint(value) => (Kind::Uint, value),
            };
            let tree = Expr::Integer { site, kind, value };
            suffixes(alloc, types, depth, depth + 1, tree, behind(tokens))
        }
        LexemeKind::Real(spelling) => {
            let spelling = Vec::from_slice(alloc, spelling)?;
            let tree = Expr::Real { site, spelling };
            suffixes(alloc, types, depth, depth + 1, tree, behind(tokens))
        }
        LexemeKind::Name(name) => named(alloc, types, depth, site, name, tokens),
        LexemeKind::Word(Word::Sizeof) => sized(alloc, types, depth, site, behind(tokens)),
        LexemeKind::Mark(sign) => opened(alloc, types, depth, site, opening_of(sign), tokens),
        LexemeKind::Text(_) => Err(ParseError::At {
            fault: ParseFault::LeftOut(Construct::String),
            site,
        }),
        _ => Err(ParseError::At {
            fault: ParseFault::Expected,
            site,
        }),
    }
}

// At a sign with which an operand begins.
#[cycle(expressions)]
#[tactic(auto, using(crate::proofs::ExpressionSteps::steps))]
fn opened<'a>(
    alloc: Global,
    types: &[Known],
    depth: u32,
    site: Site,
    opening: Opening,
    tokens: &'a [Lexeme<'a>],
) -> Result<(Expr, &'a [Lexeme<'a>]), ParseError>
    requires depth { depth ≤ 63 }
    ensures { Reads expression result (run (reads.opened (all_known types.now) (reads.level (all_known types.now) depth) depth (site_of site) (opening_seen opening)) (lexemes tokens.now)) }
{
    match opening {
        Opening::Prefixes(sign) => {
            let (of, rest) = level(alloc, types, depth, 0, behind(tokens))?;
            let tree = prefixed(alloc, site, sign, of)?;
            Ok((tree, rest))
        }
        Opening::Steps(sign) => {
            let (of, rest) = level(alloc, types, depth, 0, behind(tokens))?;
            let tree = stepped(alloc, site, Side::Before, sign, of)?;
            Ok((tree, rest))
        }
        Opening::Opens => parenthesized(alloc, types, depth, site, behind(tokens)),
        Opening::Wrong => Err(ParseError::At {
            fault: ParseFault::Expected,
            site: site_at(tokens),
        }),
    }
}

// Behind a parenthesis with which an operand begins.
#[cycle(expressions)]
#[tactic(auto, using(crate::proofs::ExpressionSteps::steps))]
fn parenthesized<'a>(
    alloc: Global,
    types: &[Known],
    depth: u32,
    site: Site,
    tokens: &'a [Lexeme<'a>],
) -> Result<(Expr, &'a [Lexeme<'a>]), ParseError>
    requires depth { depth ≤ 63 }
    ensures { Reads expression result (run (reads.parenthesized (all_known types.now) (reads.level (all_known types.now) depth) depth (site_of site)) (lexemes tokens.now)) }
{
    if starts_type(types, kind_at(tokens)) {
        let (to, rest) = type_name(alloc, types, tokens)?;
        let (_, rest) = pass(is_right_parenthesis(kind_at(rest)), rest)?;
        converted(alloc, types, depth, site, to, rest)
    } else {
        grouped(alloc, types, depth, tokens)
    }
}

// Behind a type in parentheses.
#[cycle(expressions)]
#[tactic(auto, using(crate::proofs::ExpressionSteps::steps))]
fn converted<'a>(
    alloc: Global,
    types: &[Known],
    depth: u32,
    site: Site,
    to: (TypeName, bool),
    tokens: &'a [Lexeme<'a>],
) -> Result<(Expr, &'a [Lexeme<'a>]), ParseError>
    requires depth { depth ≤ 63 }
    ensures { Reads expression result (run (reads.converted (reads.level (all_known types.now) depth) depth (site_of site) (sorted to)) (lexemes tokens.now)) }
{
    let (to, is_vector) = to;
    if is_vector && is_left_parenthesis(kind_at(tokens)) {
        vector(alloc, types, depth, site, to, behind(tokens))
    } else {
        let (of, rest) = level(alloc, types, depth, 0, tokens)?;
        let tree = cast(alloc, site, to, of)?;
        Ok((tree, rest))
    }
}

// The components of a vector, behind the parenthesis.
#[cycle(expressions)]
#[tactic(auto, using(crate::proofs::ExpressionSteps::steps))]
fn vector<'a>(
    alloc: Global,
    types: &[Known],
    depth: u32,
    site: Site,
    to: TypeName,
    tokens: &'a [Lexeme<'a>],
) -> Result<(Expr, &'a [Lexeme<'a>]), ParseError>
    requires depth { depth ≤ 63 }
    ensures { Reads expression result (run (reads.vector (reads.level (all_known types.now) depth) depth (site_of site) (type_seen to)) (lexemes tokens.now)) }
{
    let (parts, rest) = parts(alloc, types, depth, tokens)?;
    let tree = Expr::Vector { site, to, parts };
    suffixes(alloc, types, depth, depth + 1, tree, rest)
}

// An expression up to and with the parenthesis that closes it, and what belongs to it.
#[cycle(expressions)]
#[tactic(auto, using(crate::proofs::ExpressionSteps::steps))]
fn grouped<'a>(
    alloc: Global,
    types: &[Known],
    depth: u32,
    tokens: &'a [Lexeme<'a>],
) -> Result<(Expr, &'a [Lexeme<'a>]), ParseError>
    requires depth { depth ≤ 63 }
    ensures { Reads expression result (run (reads.grouped (reads.level (all_known types.now) depth) depth) (lexemes tokens.now)) }
{
    let (tree, rest) = level(alloc, types, depth, 13, tokens)?;
    let (_, rest) = pass(is_right_parenthesis(kind_at(rest)), rest)?;
    suffixes(alloc, types, depth, depth + 1, tree, rest)
}

// A type in parentheses behind `sizeof`, behind the parenthesis.
#[tactic(auto, using(crate::proofs::ExpressionSteps::steps), unfolding(crate::specs::Expressions::sized_type))]
fn sized_type<'a>(
    alloc: Global,
    types: &[Known],
    site: Site,
    tokens: &'a [Lexeme<'a>],
) -> Result<(Expr, &'a [Lexeme<'a>]), ParseError>
    ensures { Reads expression result (run (reads.sized_type (all_known types.now) (site_of site)) (lexemes tokens.now)) }
{
    let ((of, _), rest) = type_name(alloc, types, tokens)?;
    let (_, rest) = pass(is_right_parenthesis(kind_at(rest)), rest)?;
    Ok((Expr::SizeofType { site, of }, rest))
}

// At a name.
#[cycle(expressions)]
#[tactic(auto, using(crate::proofs::ExpressionSteps::steps))]
fn named<'a>(
    alloc: Global,
    types: &[Known],
    depth: u32,
    site: Site,
    name: &str,
    tokens: &'a [Lexeme<'a>],
) -> Result<(Expr, &'a [Lexeme<'a>]), ParseError>
    requires depth { depth ≤ 63 }
    ensures { Reads expression result (run (reads.at_name (all_known types.now) (reads.level (all_known types.now) depth) depth (site_of site) name.now) (lexemes tokens.now)) }
{
    if look_up(types, name).is_some() {
        return Err(ParseError::At {
            fault: ParseFault::Expected,
            site: site_at(tokens),
        });
    }
    let name = String::from_str(alloc, name)?;
    let tokens = behind(tokens);
    if is_left_parenthesis(kind_at(tokens)) {
        called(alloc, types, depth, site, name, behind(tokens))
    } else {
        let tree = Expr::Name { site, name };
        suffixes(alloc, types, depth, depth + 1, tree, tokens)
    }
}

// Behind the parenthesis of a call.
#[cycle(expressions)]
#[tactic(auto, using(crate::proofs::ExpressionSteps::steps))]
fn called<'a>(
    alloc: Global,
    types: &[Known],
    depth: u32,
    site: Site,
    name: String,
    tokens: &'a [Lexeme<'a>],
) -> Result<(Expr, &'a [Lexeme<'a>]), ParseError>
    requires depth { depth ≤ 63 }
    ensures { Reads expression result (run (reads.called (reads.level (all_known types.now) depth) depth (site_of site) (string_bytes name)) (lexemes tokens.now)) }
{
    let (arguments, rest) = arguments(alloc, types, depth, tokens)?;
    let tree = Expr::Call {
        site,
        name,
        arguments,
    };
    suffixes(alloc, types, depth, depth + 1, tree, rest)
}

// Behind `sizeof`.
#[cycle(expressions)]
#[tactic(auto, using(crate::proofs::ExpressionSteps::steps))]
fn sized<'a>(
    alloc: Global,
    types: &[Known],
    depth: u32,
    site: Site,
    tokens: &'a [Lexeme<'a>],
) -> Result<(Expr, &'a [Lexeme<'a>]), ParseError>
    requires depth { depth ≤ 63 }
    ensures { Reads expression result (run (reads.sized (all_known types.now) (reads.level (all_known types.now) depth) depth (site_of site)) (lexemes tokens.now)) }
{
    if is_left_parenthesis(kind_at(tokens)) {
        sized_in_parentheses(alloc, types, depth, site, behind(tokens))
    } else {
        let (of, rest) = level(alloc, types, depth, 0, tokens)?;
        let tree = measured(alloc, site, of)?;
        Ok((tree, rest))
    }
}

// Behind `sizeof` and a parenthesis.
#[cycle(expressions)]
#[tactic(auto, using(crate::proofs::ExpressionSteps::steps))]
fn sized_in_parentheses<'a>(
    alloc: Global,
    types: &[Known],
    depth: u32,
    site: Site,
    tokens: &'a [Lexeme<'a>],
) -> Result<(Expr, &'a [Lexeme<'a>]), ParseError>
    requires depth { depth ≤ 63 }
    ensures { Reads expression result (run (reads.sized_within (all_known types.now) (reads.level (all_known types.now) depth) depth (site_of site)) (lexemes tokens.now)) }
{
    if starts_type(types, kind_at(tokens)) {
        sized_type(alloc, types, site, tokens)
    } else {
        let (of, rest) = grouped(alloc, types, depth, tokens)?;
        let tree = measured(alloc, site, of)?;
        Ok((tree, rest))
    }
}

// What belongs to an operand and stands behind it.
#[cycle(expressions)]
#[tactic(auto, using(crate::proofs::ExpressionSteps::steps))]
fn suffixes<'a>(
    alloc: Global,
    types: &[Known],
    depth: u32,
    left: u32,
    tree: Expr,
    tokens: &'a [Lexeme<'a>],
) -> Result<(Expr, &'a [Lexeme<'a>]), ParseError>
    requires depth { depth ≤ 63 }
    requires left { left ≤ 64 }
    ensures { Reads expression result (run (reads.suffixed (reads.level (all_known types.now) depth) left (expression tree)) (lexemes tokens.now)) }
{
    if left == 0 {
        return Err(ParseError::At {
            fault: ParseFault::TooDeep,
            site: site_at(tokens),
        });
    }
    let suffix = suffix_at(kind_at(tokens));
    further(alloc, types, depth, left - 1, tree, suffix, tokens)
}

#[cycle(expressions)]
#[tactic(auto, using(crate::proofs::ExpressionSteps::steps))]
fn further<'a>(
    alloc: Global,
    types: &[Known],
    depth: u32,
    left: u32,
    tree: Expr,
    suffix: Option<Suffix>,
    tokens: &'a [Lexeme<'a>],
) -> Result<(Expr, &'a [Lexeme<'a>]), ParseError>
    requires depth { depth ≤ 63 }
    requires left { left ≤ 63 }
    ensures { Reads expression result (run (reads.by_suffix (reads.suffixed (reads.level (all_known types.now) depth) left) (reads.level (all_known types.now) depth) (expression tree) (front (lexemes tokens.now)).site (maybe_suffix suffix)) (lexemes tokens.now)) }
{
    let site = site_at(tokens);
    match suffix {
        None => Ok((tree, tokens)),
        Some(Suffix::Indexes) => index(alloc, types, depth, left, site, tree, behind(tokens)),
        Some(Suffix::Selects) => select(alloc, types, depth, left, site, tree, behind(tokens)),
        Some(Suffix::Steps(sign)) => {
            let tree = stepped(alloc, site, Side::Behind, sign, tree)?;
            suffixes(alloc, types, depth, left, tree, behind(tokens))
        }
        Some(Suffix::Follows) => Err(ParseError::At {
            fault: ParseFault::LeftOut(Construct::Structure),
            site,
        }),
    }
}

// Behind the bracket of an index.
#[cycle(expressions)]
#[tactic(auto, using(crate::proofs::ExpressionSteps::steps))]
fn index<'a>(
    alloc: Global,
    types: &[Known],
    depth: u32,
    left: u32,
    site: Site,
    of: Expr,
    tokens: &'a [Lexeme<'a>],
) -> Result<(Expr, &'a [Lexeme<'a>]), ParseError>
    requires depth { depth ≤ 63 }
    requires left { left ≤ 63 }
    ensures { Reads expression result (run (reads.indexes (reads.suffixed (reads.level (all_known types.now) depth) left) (reads.level (all_known types.now) depth) (expression of) (site_of site)) (lexemes tokens.now)) }
{
    let (index, rest) = level(alloc, types, depth, 13, tokens)?;
    let (_, rest) = pass(is_right_bracket(kind_at(rest)), rest)?;
    let tree = indexed(alloc, site, of, index)?;
    suffixes(alloc, types, depth, left, tree, rest)
}

// Behind the dot of a member.
#[cycle(expressions)]
#[tactic(auto, using(crate::proofs::ExpressionSteps::steps))]
fn select<'a>(
    alloc: Global,
    types: &[Known],
    depth: u32,
    left: u32,
    site: Site,
    of: Expr,
    tokens: &'a [Lexeme<'a>],
) -> Result<(Expr, &'a [Lexeme<'a>]), ParseError>
    requires depth { depth ≤ 63 }
    requires left { left ≤ 63 }
    ensures { Reads expression result (run (reads.selects (reads.suffixed (reads.level (all_known types.now) depth) left) (expression of) (site_of site)) (lexemes tokens.now)) }
{
    let Some(name) = name_of(kind_at(tokens)) else {
        return Err(ParseError::At {
            fault: ParseFault::Expected,
            site: site_at(tokens),
        });
    };
    let tree = member(alloc, site, of, name)?;
    suffixes(alloc, types, depth, left, tree, behind(tokens))
}

// None or more, up to and with the parenthesis that closes them.
#[cycle(expressions)]
#[tactic(auto, using(crate::proofs::ExpressionSteps::steps))]
fn arguments<'a>(
    alloc: Global,
    types: &[Known],
    depth: u32,
    tokens: &'a [Lexeme<'a>],
) -> Result<(Vec<Expr>, &'a [Lexeme<'a>]), ParseError>
    requires depth { depth ≤ 63 }
    ensures { Reads arguments_seen result (run (reads.arguments (reads.level (all_known types.now) depth 12)) (lexemes tokens.now)) }
{
    if is_right_parenthesis(kind_at(tokens)) {
        return Ok((Vec::new(alloc), behind(tokens)));
    }
    parts(alloc, types, depth, tokens)
}

// One or more, up to and with the parenthesis that closes them.
#[cycle(expressions)]
#[tactic(auto, using(crate::proofs::ExpressionSteps::steps))]
fn parts<'a>(
    alloc: Global,
    types: &[Known],
    depth: u32,
    tokens: &'a [Lexeme<'a>],
) -> Result<(Vec<Expr>, &'a [Lexeme<'a>]), ParseError>
    requires depth { depth ≤ 63 }
    ensures { Reads arguments_seen result (run (reads.parts (reads.level (all_known types.now) depth 12)) (lexemes tokens.now)) }
{
    let mut list = Vec::new(alloc);
    let (first, mut rest) = level(alloc, types, depth, 12, tokens)?;
    list.push(first)?;
    for _count in 0..MOST_ARGUMENTS {
        if !is_comma(kind_at(rest)) {
            let (_, rest) = pass(is_right_parenthesis(kind_at(rest)), rest)?;
            return Ok((list, rest));
        }
        let (next, after) = level(alloc, types, depth, 12, behind(rest))?;
        list.push(next)?;
        rest = after;
    }
    Err(ParseError::At {
        fault: ParseFault::TooMany,
        site: site_at(rest),
    })
}
