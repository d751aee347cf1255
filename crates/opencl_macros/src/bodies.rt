//! What is put in for the use of a macro.

ghost use Rattle.std.specs.Prelude.{◌≡◌, ◌-◌, length, slice_get};
ghost use Rattle.std.specs.Option.{option_map};
ghost use Rattle.opencl_tokens.specs.Seen.{site as site_of, token as token_of, token_kind};
ghost use Rattle.opencl_macros.specs.Bodies as meaning;
ghost use Rattle.opencl_macros.specs.Seen.{arguments as arguments_seen, fed as fed_seen, feed as feed_seen, filled_seen, lent, macro, tokens_seen, when_filled, IfRead};

use crate::feed::{Fed, moved, nth_argument, place_in};
use crate::macros::{Macro, is_front, is_mark};
use crate::pasting::joined;
use crate::{MacroError, Token};
use bumpalo::Bump;
use opencl_tokens::{Sign, Site};
use std::alloc::Global;

/// What is put in, and how many tokens may still be put in; whether nothing came of the body's token before, and whether a `##` stands
/// behind that.
#[derive(Drop)]
pub struct Filled<'a> {
    pub tokens: Vec<Fed<'a>>,
    pub left: usize,
    pub is_bare: bool,
    pub joins: bool,
}

/// Tokens more; false where there are too many.
fn put_part<'a>(
    filled: &mut Filled<'a>,
    tokens: &[Fed<'a>],
    is_bare: bool,
) -> Result<bool, MacroError>
    ensures { IfRead result (λ fits. when_filled fits (filled_seen filled.new) ≡ meaning.with_part (filled_seen filled.old) (feed_seen tokens.now) is_bare) }
{
    if tokens.len() <= filled.left {
        filled.tokens.extend_from_slice(tokens)?;
        filled.left -= tokens.len();
        filled.is_bare = is_bare;
        filled.joins = false;
        Ok(true)
    } else {
        Ok(false)
    }
}

/// A token with more behind it; false where there is none.
fn put_word<'a>(
    filled: &mut Filled<'a>,
    item: Option<Fed<'a>>,
    rest: &[Fed<'a>],
) -> Result<bool, MacroError>
    ensures { IfRead result (λ fits. when_filled fits (filled_seen filled.new) ≡ meaning.with_word (filled_seen filled.old) (option_map fed_seen item.entry) (feed_seen rest.now)) }
{
    match item {
        None => Ok(false),
        Some(item) => {
            if put_part(filled, &[item], false)? {
                put_part(filled, rest, false)
            } else {
                Ok(false)
            }
        }
    }
}

fn last_of<'a>(tokens: &[Fed<'a>]) -> Option<Fed<'a>>
    ensures { option_map fed_seen result ≡ slice_get (feed_seen tokens.now) (length (feed_seen tokens.now) - 1) }
{
    let count = tokens.len();
    if 0 < count {
        Some(tokens[count - 1])
    } else {
        None
    }
}

fn drop_last(filled: &mut Filled<'_>)
    ensures { filled_seen filled.new ≡ meaning.without_last (filled_seen filled.old) }
{
    filled.tokens.pop();
}

/// The first token is joined to the last one before.
fn put_behind<'a>(
    alloc: Global,
    pool: &'a Bump,
    site: Site,
    filled: &mut Filled<'a>,
    first: Fed<'a>,
    rest: &[Fed<'a>],
) -> Result<bool, MacroError>
    ensures { IfRead result (λ fits. when_filled fits (filled_seen filled.new) ≡ meaning.behind_last (site_of site) (filled_seen filled.old) (slice_get (filled_seen filled.old).tokens (length (filled_seen filled.old).tokens - 1)) (fed_seen first.entry) (feed_seen rest.now)) }
{
    match last_of(&filled.tokens) {
        None => Ok(false),
        Some(last) => {
            drop_last(filled);
            let item = joined(alloc, pool, site, last, first)?;
            put_word(filled, item, rest)
        }
    }
}

fn put_joined<'a>(
    alloc: Global,
    pool: &'a Bump,
    site: Site,
    filled: &mut Filled<'a>,
    tokens: &[Fed<'a>],
) -> Result<bool, MacroError>
    ensures { IfRead result (λ fits. when_filled fits (filled_seen filled.new) ≡ meaning.with_joined (site_of site) (filled_seen filled.old) (feed_seen tokens.now)) }
{
    if tokens.is_empty() {
        return put_part(filled, tokens, false);
    }
    put_behind(alloc, pool, site, filled, tokens[0], &tokens[1..])
}

/// What comes of one token of the body.
fn put_tokens<'a>(
    alloc: Global,
    pool: &'a Bump,
    site: Site,
    filled: &mut Filled<'a>,
    tokens: &[Fed<'a>],
) -> Result<bool, MacroError>
    ensures { IfRead result (λ fits. when_filled fits (filled_seen filled.new) ≡ meaning.with_tokens (site_of site) (filled_seen filled.old) (feed_seen tokens.now)) }
{
    if filled.joins && !filled.is_bare {
        put_joined(alloc, pool, site, filled, tokens)
    } else {
        put_part(filled, tokens, tokens.len() == 0)
    }
}

/// A `##`; false behind another one.
fn put_join(filled: &mut Filled<'_>) -> bool
    ensures { when_filled result (filled_seen filled.new) ≡ meaning.with_join (filled_seen filled.old) }
{
    if filled.joins {
        false
    } else {
        filled.joins = true;
        true
    }
}

/// Beside `##` an argument is put in as it stands.
fn arguments_for<'b, 'a>(
    filled: &Filled<'_>,
    given: &'b [Vec<Fed<'a>>],
    expanded: &'b [Vec<Fed<'a>>],
    behind: &[Token<'_>],
) -> &'b [Vec<Fed<'a>>]
    ensures { arguments_seen result.now ≡ meaning.arguments_for (filled_seen filled.now) (meaning.supply (arguments_seen given.now) (arguments_seen expanded.now)) (tokens_seen behind.now) }
{
    if filled.joins || is_front(Sign::HashHash, behind) {
        given
    } else {
        expanded
    }
}

/// One token of the body, with its argument where it is a parameter.
fn put_one<'a>(
    alloc: Global,
    pool: &'a Bump,
    site: Site,
    parameters: Option<&[Token<'_>]>,
    arguments: &[Vec<Fed<'a>>],
    filled: &mut Filled<'a>,
    token: Token<'a>,
) -> Result<bool, MacroError>
    ensures { IfRead result (λ fits. when_filled fits (filled_seen filled.new) ≡ meaning.put_one (site_of site) (option_map lent parameters.entry) (arguments_seen arguments.now) (filled_seen filled.old) (token_of token.entry)) }
{
    if is_mark(Sign::HashHash, token.kind) {
        return Ok(put_join(filled));
    }
    match nth_argument(place_in(parameters, token.kind), arguments) {
        None => put_tokens(
            alloc,
            pool,
            site,
            filled,
            &[Fed::Word(moved(site, token), false)],
        ),
        Some(argument) => put_tokens(alloc, pool, site, filled, argument),
    }
}

fn begun<'a>(alloc: Global, left: usize) -> Filled<'a>
    ensures { filled_seen result ≡ meaning.begun left }
{
    Filled {
        tokens: Vec::new(alloc),
        left,
        is_bare: true,
        joins: false,
    }
}

/// What is put in for the use of a macro, whose arguments are there as they stand and expanded; none where it is too much, or where two
/// tokens are to be one that is none.
pub fn replaced<'a>(
    alloc: Global,
    pool: &'a Bump,
    site: Site,
    used: Macro<'a>,
    given: &[Vec<Fed<'a>>],
    expanded: &[Vec<Fed<'a>>],
    left: usize,
) -> Result<Option<Filled<'a>>, MacroError>
    ensures { IfRead result (λ found. option_map filled_seen found ≡ meaning.replaced (site_of site) (macro used.entry).parameters (meaning.supply (arguments_seen given.now) (arguments_seen expanded.now)) (meaning.begun left) (macro used.entry).body) }
{
    let mut filled = begun(alloc, left);
    for (i, token) in used.body.iter().enumerate() {
        let arguments = arguments_for(&filled, given, expanded, &used.body[i + 1..]);
        if !put_one(
            alloc,
            pool,
            site,
            used.parameters,
            arguments,
            &mut filled,
            *token,
        )? {
            return Ok(None);
        }
    }
    Ok(Some(filled))
}
