//! `defined` in a condition.

ghost use Rattle.std.specs.Prelude.{◌≡◌, []};
ghost use Rattle.opencl_tokens.specs.Seen.{site as site_of, token as token_of, token_kind};
ghost use Rattle.opencl_macros.specs.Questions as meaning;
ghost use Rattle.opencl_macros.specs.Seen.{table as table_seen, tokens_seen, Gives};
ghost use Rattle.opencl_macros.specs.SeenQuestions.{asked, due as due_seen, maybe_token, tokens_of};

use crate::compilers::whether_defined;
use crate::macros::{Entry, is_mark, is_name};
use crate::{MacroError, Token, TokenKind};
use opencl_tokens::{Sign, Site};
use std::alloc::Global;

/// What is due: nothing, a name or a `(`, a name in brackets, and a `)`.
#[derive(Clone, Copy)]
enum Due {
    Nothing,
    NameOrBracket,
    NameAlone,
    Bracket,
}

fn zero_or_one(holds: bool) -> &'static [u8]
    ensures { result.now ≡ meaning.zero_or_one holds }
{
    if holds { b"1" } else { b"0" }
}

fn answer(site: Site, holds: bool) -> Token<'static>
    ensures { token_of result ≡ meaning.answer (site_of site) holds }
{
    Token {
        kind: TokenKind::Number(zero_or_one(holds)),
        site,
        begins_line: false,
        is_spaced: true,
    }
}

#[tactic(auto, using(crate::proofs::Handing::handed))]
fn question<'a>(
    entries: &[Entry<'_>],
    site: Site,
    next: Due,
    kind: TokenKind<'a>,
) -> Result<(Due, Option<Token<'a>>), MacroError>
    ensures { Gives asked result (meaning.question (table_seen entries.now) (site_of site) (due_seen next) (token_kind kind.entry)) }
{
    match kind {
        TokenKind::Name(name) => {
            let holds = whether_defined(entries, site, name)?;
            Ok((next, Some(answer(site, holds))))
        }
        _ => Err(MacroError::At(site)),
    }
}

/// What is due behind a token, and the token that comes out, if one does.
fn asks<'a>(
    entries: &[Entry<'_>],
    site: Site,
    due: Due,
    token: Token<'a>,
) -> Result<(Due, Option<Token<'a>>), MacroError>
    ensures { Gives asked result (meaning.asks (table_seen entries.now) (site_of site) (due_seen due) (token_of token.entry)) }
{
    match due {
        Due::Nothing => {
            if is_name("defined", token.kind) {
                Ok((Due::NameOrBracket, None))
            } else {
                Ok((Due::Nothing, Some(token)))
            }
        }
        Due::NameOrBracket => {
            if is_mark(Sign::LeftParenthesis, token.kind) {
                Ok((Due::NameAlone, None))
            } else {
                question(entries, site, Due::Nothing, token.kind)
            }
        }
        Due::NameAlone => question(entries, site, Due::Bracket, token.kind),
        Due::Bracket => {
            if is_mark(Sign::RightParenthesis, token.kind) {
                Ok((Due::Nothing, None))
            } else {
                Err(MacroError::At(site))
            }
        }
    }
}

fn put_token<'a>(out: &mut Vec<Token<'a>>, token: Option<Token<'a>>) -> Result<(), MacroError>
    ensures { Gives (λ u. tokens_seen out.new.items) result (Ok (meaning.with_token (tokens_seen out.old.items) (maybe_token token.entry))) }
{
    match token {
        None => {}
        Some(token) => out.push(token)?,
    }
    Ok(())
}

fn ended<'a>(site: Site, due: Due, out: Vec<Token<'a>>) -> Result<Vec<Token<'a>>, MacroError>
    ensures { Gives tokens_of result (meaning.ended (site_of site) (due_seen due) (tokens_seen out.entry.items)) }
{
    match due {
        Due::Nothing => Ok(out),
        _ => Err(MacroError::At(site)),
    }
}

/// The tokens of a condition in which each `defined` with its name is 1 or 0.
#[tactic(auto, using(crate::proofs::Handing::handed))]
pub fn answered<'a>(
    alloc: Global,
    entries: &[Entry<'_>],
    site: Site,
    tokens: &[Token<'a>],
) -> Result<Vec<Token<'a>>, MacroError>
    ensures { Gives tokens_of result (meaning.answered (table_seen entries.now) (site_of site) meaning.Nothing [] (tokens_seen tokens.now)) }
{
    let mut out = Vec::new(alloc);
    let mut due = Due::Nothing;
    for token in tokens {
        let (next, found) = asks(entries, site, due, *token)?;
        put_token(&mut out, found)?;
        due = next;
    }
    ended(site, due, out)
}
