//! What is still to be read, and the arguments of a use in it.

ghost use Rattle.std.specs.Prelude.{◌≡◌, []};
ghost use Rattle.std.specs.Option.{option_map};
ghost use Rattle.opencl_tokens.specs.Seen.{site as site_of, token as token_of, token_kind};
ghost use Rattle.opencl_macros.specs.Expansion as meaning;
ghost use Rattle.opencl_macros.specs.Seen.{active as active_seen, arguments as arguments_seen, feed as feed_seen, gathered_seen, lent, lent_feed, tokens_seen, Gives, IfRead};

use crate::macros::{is_mark, is_name};
use crate::{MacroError, Token, TokenKind};
use opencl_tokens::{Sign, Site};
use std::alloc::Global;
use std::collections::VecDeque;

/// A token, which may be a name that is kept for ever, or the end of what was put in for a macro.
#[derive(Clone, Copy)]
pub enum Fed<'a> {
    Word(Token<'a>, bool),
    Behind,
}

pub fn is_active(name: &str, active: &[&str]) -> bool
    ensures { result ≡ meaning.is_active name.now (active_seen active.now) }
{
    for other in active {
        if *other == name {
            return true;
        }
    }
    false
}

/// The inner expansion has ended.
pub fn leave(active: &mut Vec<&str>)
    ensures { active_seen active.new.items ≡ meaning.ended (active_seen active.old.items) }
{
    active.pop();
}

/// A token of a body has the place of the use.
pub fn moved<'a>(site: Site, token: Token<'a>) -> Token<'a>
    ensures { token_of result ≡ meaning.moved (site_of site) (token_of token.entry) }
{
    Token {
        kind: token.kind,
        site,
        begins_line: false,
        is_spaced: token.is_spaced,
    }
}

fn inline(token: Token<'_>) -> Token<'_>
    ensures { token_of result ≡ meaning.inline (token_of token.entry) }
{
    Token {
        kind: token.kind,
        site: token.site,
        begins_line: false,
        is_spaced: token.is_spaced,
    }
}

/// A name that is met within its own expansion is kept.
fn keeps(kind: TokenKind<'_>, is_kept: bool, active: &[&str]) -> bool
    ensures { result ≡ meaning.keeps (token_kind kind.entry) is_kept (active_seen active.now) }
{
    match kind {
        TokenKind::Name(name) => is_kept || is_active(name, active),
        _ => is_kept,
    }
}

/// A `(` comes next; ends of expansions may stand before it.
pub fn opens(feed: &VecDeque<Fed<'_>>) -> bool
    ensures { result ≡ meaning.opens (feed_seen feed.now.items) }
{
    for i in 0..feed.len() {
        match feed[i] {
            Fed::Word(token, _) => return is_mark(Sign::LeftParenthesis, token.kind),
            Fed::Behind => {}
        }
    }
    false
}

/// The most brackets that are open in a use.
const MOST_DEEP: u32 = 255;

/// The number of brackets that are open behind a token, the use's own one among them.
fn depth_behind(deep: u32, kind: TokenKind<'_>) -> Option<u32>
    ensures { result ≡ meaning.depth_behind deep (token_kind kind.entry) }
{
    if is_mark(Sign::LeftParenthesis, kind) {
        if deep < MOST_DEEP {
            Some(deep + 1)
        } else {
            None
        }
    } else if is_mark(Sign::RightParenthesis, kind) {
        Some(deep.saturating_sub(1))
    } else {
        Some(deep)
    }
}

fn ends(deep: u32, kind: TokenKind<'_>) -> bool
    ensures { result ≡ meaning.ends deep (token_kind kind.entry) }
{
    deep == 1 && is_mark(Sign::RightParenthesis, kind)
}

fn divides(deep: u32, kind: TokenKind<'_>) -> bool
    ensures { result ≡ meaning.divides deep (token_kind kind.entry) }
{
    deep == 1 && is_mark(Sign::Comma, kind)
}

/// The use's own `(` belongs to no argument.
fn put_token<'a>(
    deep: u32,
    active: &[&str],
    token: Token<'a>,
    is_kept: bool,
    front: &mut Vec<Fed<'a>>,
) -> Result<(), MacroError>
    ensures { Gives (λ u. feed_seen front.new.items) result (Ok (meaning.with_token deep (active_seen active.now) (token_of token.entry) is_kept (feed_seen front.old.items))) }
{
    if deep != 0 {
        front.push(Fed::Word(inline(token), keeps(token.kind, is_kept, active)))?;
    }
    Ok(())
}

/// The arguments of a use, from its `(` to its `)`; none where there is no `)`.
pub fn gathered<'a>(
    alloc: Global,
    feed: &mut VecDeque<Fed<'a>>,
    active: &mut Vec<&'a str>,
) -> Result<Option<Vec<Vec<Fed<'a>>>>, MacroError>
    ensures { IfRead result (λ found. option_map (gathered_seen active.new.items feed.new.items) found ≡ meaning.gathered 0 (active_seen active.old.items) [] [] (feed_seen feed.old.items)) }
{
    let mut done = Vec::new(alloc);
    let mut front = Vec::new(alloc);
    let mut deep: u32 = 0;
    while let Some(item) = feed.pop_front() {
        match item {
            Fed::Behind => leave(active),
            Fed::Word(token, is_kept) => {
                if ends(deep, token.kind) {
                    done.push(front)?;
                    return Ok(Some(done));
                }
                if divides(deep, token.kind) {
                    done.push(front)?;
                    front = Vec::new(alloc);
                } else {
                    match depth_behind(deep, token.kind) {
                        None => return Ok(None),
                        Some(behind) => {
                            put_token(deep, active, token, is_kept, &mut front)?;
                            deep = behind;
                        }
                    }
                }
            }
        }
    }
    Ok(None)
}

fn are_empty(arguments: &[Vec<Fed<'_>>]) -> bool
    ensures { result ≡ meaning.are_empty (arguments_seen arguments.now) }
{
    for argument in arguments {
        if argument.len() != 0 {
            return false;
        }
    }
    true
}

/// As many arguments as parameters.
pub fn fits(parameters: &[Token<'_>], arguments: &[Vec<Fed<'_>>]) -> bool
    ensures { result ≡ meaning.fits (tokens_seen parameters.now) (arguments_seen arguments.now) }
{
    if parameters.len() == 0 {
        arguments.len() == 1 && are_empty(arguments)
    } else {
        arguments.len() == parameters.len() / 2 + 1
    }
}

/// The place of a name in a list of parameters, commas counted too.
fn place_of(name: &str, parameters: &[Token<'_>]) -> Option<usize>
    ensures { result ≡ meaning.place_of name.now 0 (tokens_seen parameters.now) }
{
    for (at, token) in parameters.iter().enumerate() {
        if is_name(name, token.kind) {
            return Some(at);
        }
    }
    None
}

pub fn place_in(parameters: Option<&[Token<'_>]>, kind: TokenKind<'_>) -> Option<usize>
    ensures { result ≡ meaning.place_in (option_map lent parameters.entry) (token_kind kind.entry) }
{
    match parameters {
        None => None,
        Some(names) => match kind {
            TokenKind::Name(name) => place_of(name, names),
            _ => None,
        },
    }
}

/// The argument of that place.
pub fn nth_argument<'b, 'a>(
    place: Option<usize>,
    arguments: &'b [Vec<Fed<'a>>],
) -> Option<&'b [Fed<'a>]>
    ensures { option_map lent_feed result ≡ meaning.nth_argument place (arguments_seen arguments.now) }
{
    match place {
        None => None,
        Some(at) => {
            if at / 2 < arguments.len() {
                Some(arguments[at / 2].as_slice())
            } else {
                None
            }
        }
    }
}
