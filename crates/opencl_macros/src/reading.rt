//! The tokens that come of a text's tokens, or the first fault.

ghost use Rattle.std.specs.Prelude.{◌≡◌, ◌≤◌, ◌<◌, [], length, map, slice_index_or};
ghost use Rattle.std.specs.Option.{option_map};
ghost use Rattle.opencl_tokens.specs.Seen.{site as site_of, token as token_of, token_kind};
ghost use Rattle.opencl_macros.specs.Reading as meaning;
ghost use Rattle.opencl_macros.specs.Seen.{feed as feed_seen, macro, maybe_macro, name as name_seen, table as table_seen, tokens_seen, Gives};
ghost use Rattle.opencl_macros.specs.SeenDirectives.{directive};
ghost use Rattle.opencl_macros.specs.SeenMachine.{expansion_seen};
ghost use Rattle.opencl_macros.specs.SeenConditions.{same_flag};
ghost use Rattle.opencl_macros.specs.SeenReading.{conditional, conditionals, group, held, state, table_of};
ghost use Rattle.opencl_macros.specs.SeenQuestions.{tokens_of};

use crate::compilers::whether_defined;
use crate::conditions::holds;
use crate::directives::{Directive, directive_of};
use crate::feed::Fed;
use crate::machine::{Expansion, expanded, is_left_out};
use crate::macros::{Entry, Macro, is_defined, is_mark};
use crate::questions::answered;
use crate::{MacroError, Token, TokenKind};
use bumpalo::Bump;
use opencl_tokens::{Sign, Site};
use std::alloc::Global;
use std::collections::VecDeque;

/// A group is read; it is skipped and a later one may be read; it is skipped and so are all later ones.
#[derive(Clone, Copy)]
enum Group {
    Taken,
    Awaited,
    Passed,
}

/// A conditional that is open: where it begins, its group, and whether that is the one behind `#else`.
#[derive(Clone, Copy)]
struct Conditional {
    site: Site,
    group: Group,
    is_last: bool,
}

/// The macros, the conditionals that are open, the inner one first, what came out, and how many tokens may still be put in for macros; the
/// pool has the bytes of tokens that were two.
#[derive(Drop)]
struct State<'a> {
    pool: &'a Bump,
    table: Vec<Entry<'a>>,
    conditionals: VecDeque<Conditional>,
    out: Vec<Token<'a>>,
    left: usize,
}

/// The most tokens that may be put in for macros.
const LIMIT: usize = 262_144;

/// The most uses of macros that may stand in arguments of one another.
const DEPTH: u32 = 64;

/// The most entries of a table.
const MOST_ENTRIES: usize = 4096;

fn is_taken(now: Group) -> bool
    ensures { result ≡ meaning.is_taken (group now) }
{
    matches!(now, Group::Taken)
}

/// The innermost group alone has to be looked at, since what stands in a skipped group is passed over.
fn is_reading(within: &VecDeque<Conditional>) -> bool
    ensures { result ≡ meaning.is_reading (conditionals within.now.items) }
{
    if within.len() == 0 {
        true
    } else {
        is_taken(within[0].group)
    }
}

fn first_group(holds: bool) -> Group
    ensures { group result ≡ meaning.first_group holds }
{
    if holds { Group::Taken } else { Group::Awaited }
}

fn last_group(now: Group) -> Group
    ensures { group result ≡ meaning.last_group (group now) }
{
    match now {
        Group::Awaited => Group::Taken,
        Group::Taken | Group::Passed => Group::Passed,
    }
}

/// The tokens among what came out, behind those before.
fn put_tokens<'a>(out: &mut Vec<Token<'a>>, came: &[Fed<'a>]) -> Result<(), MacroError>
    ensures { Gives (λ u. tokens_seen out.new.items) result (Ok (meaning.with_tokens (tokens_seen out.old.items) (feed_seen came.now))) }
{
    for item in came {
        match item {
            Fed::Word(token, _) => out.push(*token)?,
            Fed::Behind => {}
        }
    }
    Ok(())
}

fn fed_tokens<'a>(alloc: Global, tokens: &[Token<'a>]) -> Result<Vec<Fed<'a>>, MacroError>
    ensures { Gives (λ v. feed_seen v.items) result (Ok (map meaning.fed (tokens_seen tokens.now))) }
{
    let mut found = Vec::new(alloc);
    for token in tokens {
        found.push(Fed::Word(*token, false))?;
    }
    Ok(found)
}

/// Tokens with their macros expanded.
fn expand<'a>(
    alloc: Global,
    site: Site,
    s: &State<'a>,
    tokens: &[Token<'a>],
) -> Result<Expansion<'a>, MacroError>
    ensures { Gives expansion_seen result (meaning.expand (site_of site) (state s.now) (tokens_seen tokens.now)) }
{
    let fed = fed_tokens(alloc, tokens)?;
    expanded(alloc, s.pool, DEPTH, &s.table, site, s.left, &[], &fed)
}

/// Lines of text between directives are expanded together.
#[tactic(auto, using(crate::proofs::Handing::handed))]
fn put_text<'a>(
    alloc: Global,
    s: &mut State<'a>,
    site: Site,
    tokens: &[Token<'a>],
) -> Result<(), MacroError>
    ensures { Gives (λ u. state s.new) result (meaning.texts (state s.old) (site_of site) (tokens_seen tokens.now)) }
{
    if is_reading(&s.conditionals) {
        let came = expand(alloc, site, s, tokens)?;
        put_tokens(&mut s.out, &came.out)?;
        s.left = came.left;
    }
    Ok(())
}

fn put_entry<'a>(
    s: &mut State<'a>,
    name: &'a str,
    stands_for: Option<Macro<'a>>,
) -> Result<(), MacroError>
    ensures { Gives (λ u. state s.new) result (meaning.with_entry (state s.old) name.entry.now (maybe_macro stands_for.entry)) }
{
    s.table.push(Entry { name, stands_for })?;
    Ok(())
}

fn may_define(table: &[Entry<'_>], name: &str) -> bool
    ensures { result ≡ meaning.may_define (table_seen table.now) name.now }
{
    !is_defined(name, table)
        && (!(name == "defined" || is_left_out(name)) && table.len() < MOST_ENTRIES)
}

/// A name with a definition has to be forgotten first.
fn define<'a>(
    s: &mut State<'a>,
    site: Site,
    name: &'a str,
    new: Macro<'a>,
) -> Result<(), MacroError>
    ensures { Gives (λ u. state s.new) result (meaning.defines (state s.old) (site_of site) name.entry.now (macro new.entry)) }
{
    if may_define(&s.table, name) {
        put_entry(s, name, Some(new))
    } else {
        Err(MacroError::At(site))
    }
}

/// Names that a text may not take away.
fn is_constant(name: &str) -> bool
    ensures { result ≡ meaning.is_constant name.now }
{
    name == "__OPENCL_VERSION__"
        || name == "__OPENCL_C_VERSION__"
        || name == "__ENDIAN_LITTLE__"
        || name == "CL_VERSION_1_0"
        || name == "CL_VERSION_1_1"
        || name == "CL_VERSION_1_2"
}

fn may_forget(table: &[Entry<'_>], name: &str) -> bool
    ensures { result ≡ meaning.may_forget (table_seen table.now) name.now }
{
    !is_constant(name) && (!(name == "defined" || is_left_out(name)) && table.len() < MOST_ENTRIES)
}

fn forget<'a>(s: &mut State<'a>, site: Site, name: &'a str) -> Result<(), MacroError>
    ensures { Gives (λ u. state s.new) result (meaning.forgets (state s.old) (site_of site) name.entry.now) }
{
    if may_forget(&s.table, name) {
        put_entry(s, name, None)
    } else {
        Err(MacroError::At(site))
    }
}

fn expanded_condition(
    alloc: Global,
    site: Site,
    came: &Expansion<'_>,
) -> Result<(bool, usize), MacroError>
    ensures { Gives held result (meaning.expanded_condition (site_of site) (expansion_seen came.now)) }
{
    let mut tokens = Vec::new(alloc);
    put_tokens(&mut tokens, &came.out)?;
    let is_held = holds(alloc, site, &tokens)?;
    Ok((is_held, came.left))
}

/// Whether a condition holds, and how many tokens may still be put in.
#[tactic(auto, using(crate::proofs::Handing::handed))]
fn condition<'a>(
    alloc: Global,
    s: &State<'a>,
    site: Site,
    tokens: &[Token<'a>],
) -> Result<(bool, usize), MacroError>
    ensures { Gives held result (meaning.condition (state s.now) (site_of site) (tokens_seen tokens.now)) }
{
    let questions = answered(alloc, &s.table, site, tokens)?;
    let came = expand(alloc, site, s, &questions)?;
    expanded_condition(alloc, site, &came)
}

/// A conditional more is open.
fn put_conditional(
    s: &mut State<'_>,
    begin: Site,
    now: Group,
    is_last: bool,
    left: usize,
) -> Result<(), MacroError>
    ensures { Gives (λ u. state s.new) result (meaning.with_conditional (state s.old) (meaning.conditional (site_of begin) (group now) is_last) (conditionals s.old.conditionals.items) left) }
{
    s.conditionals.push_front(Conditional {
        site: begin,
        group: now,
        is_last,
    })?;
    s.left = left;
    Ok(())
}

#[tactic(auto, using(crate::proofs::Handing::handed))]
fn open_if<'a>(
    alloc: Global,
    s: &mut State<'a>,
    site: Site,
    tokens: &[Token<'a>],
) -> Result<(), MacroError>
    ensures { Gives (λ u. state s.new) result (meaning.opens (state s.old) (site_of site) (meaning.condition (state s.old) (site_of site) (tokens_seen tokens.now))) }
{
    let (is_held, left) = condition(alloc, s, site, tokens)?;
    put_conditional(s, site, first_group(is_held), false, left)
}

fn pass(s: &mut State<'_>, site: Site) -> Result<(), MacroError>
    ensures { Gives (λ u. state s.new) result (meaning.passes (state s.old) (site_of site)) }
{
    let left = s.left;
    put_conditional(s, site, Group::Passed, false, left)
}

fn same(wanted: bool, holds: bool) -> bool
    ensures { result ≡ meaning.same_flag wanted holds }
{
    if wanted { holds } else { !holds }
}

#[tactic(auto, using(crate::proofs::Handing::handed))]
fn test_name(
    s: &mut State<'_>,
    site: Site,
    name: Option<&str>,
    wanted: bool,
) -> Result<(), MacroError>
    ensures { Gives (λ u. state s.new) result (meaning.tests (state s.old) (site_of site) (option_map name_seen name.entry) wanted) }
{
    match name {
        None => Err(MacroError::At(site)),
        Some(name) => {
            let is_held = same(wanted, whether_defined(&s.table, site, name)?);
            let left = s.left;
            put_conditional(s, site, first_group(is_held), false, left)
        }
    }
}

/// The condition of an `#elif` is looked at where no group was read before.
#[tactic(auto, using(crate::proofs::Handing::handed))]
fn turn_to<'a>(
    alloc: Global,
    s: &mut State<'a>,
    site: Site,
    tokens: &[Token<'a>],
    begin: Site,
    now: Group,
) -> Result<(), MacroError>
    ensures { Gives (λ u. state s.new) result (meaning.turns_to (state s.old) (site_of site) (tokens_seen tokens.now) (site_of begin) (conditionals s.old.conditionals.items) (group now)) }
{
    match now {
        Group::Awaited => {
            let (is_held, left) = condition(alloc, s, site, tokens)?;
            put_conditional(s, begin, first_group(is_held), false, left)
        }
        Group::Taken | Group::Passed => {
            let left = s.left;
            put_conditional(s, begin, Group::Passed, false, left)
        }
    }
}

fn else_if<'a>(
    alloc: Global,
    s: &mut State<'a>,
    site: Site,
    tokens: &[Token<'a>],
) -> Result<(), MacroError>
    ensures { Gives (λ u. state s.new) result (meaning.else_if (state s.old) (site_of site) (tokens_seen tokens.now) (conditionals s.old.conditionals.items)) }
{
    match s.conditionals.pop_front() {
        None => Err(MacroError::At(site)),
        Some(open) => {
            if open.is_last {
                Err(MacroError::At(site))
            } else {
                turn_to(alloc, s, site, tokens, open.site, open.group)
            }
        }
    }
}

fn otherwise(s: &mut State<'_>, site: Site) -> Result<(), MacroError>
    ensures { Gives (λ u. state s.new) result (meaning.otherwise (state s.old) (site_of site) (conditionals s.old.conditionals.items)) }
{
    match s.conditionals.pop_front() {
        None => Err(MacroError::At(site)),
        Some(open) => {
            if open.is_last {
                Err(MacroError::At(site))
            } else {
                let left = s.left;
                put_conditional(s, open.site, last_group(open.group), true, left)
            }
        }
    }
}

fn end(s: &mut State<'_>, site: Site) -> Result<(), MacroError>
    ensures { Gives (λ u. state s.new) result (meaning.ends (state s.old) (site_of site) (conditionals s.old.conditionals.items)) }
{
    match s.conditionals.pop_front() {
        None => Err(MacroError::At(site)),
        Some(_) => Ok(()),
    }
}

fn obey<'a>(
    alloc: Global,
    s: &mut State<'a>,
    site: Site,
    line: Directive<'a>,
) -> Result<(), MacroError>
    ensures { Gives (λ u. state s.new) result (meaning.obeys (state s.old) (site_of site) (directive line.entry)) }
{
    match line {
        Directive::If(tokens) => open_if(alloc, s, site, tokens),
        Directive::IfDefined(name, wanted) => test_name(s, site, name, wanted),
        Directive::Defines(name, new) => define(s, site, name, new),
        Directive::Forgets(name) => forget(s, site, name),
        Directive::Nothing => Ok(()),
        Directive::Faulty | Directive::Else | Directive::Ends | Directive::ElseIf(_) => {
            Err(MacroError::At(site))
        }
    }
}

fn overlook(s: &mut State<'_>, site: Site, line: Directive<'_>) -> Result<(), MacroError>
    ensures { Gives (λ u. state s.new) result (meaning.overlooks (state s.old) (site_of site) (directive line.entry)) }
{
    match line {
        Directive::If(_) | Directive::IfDefined(_, _) => pass(s, site),
        _ => Ok(()),
    }
}

/// In a skipped group only conditionals are looked at.
fn look_at<'a>(
    alloc: Global,
    s: &mut State<'a>,
    site: Site,
    line: Directive<'a>,
) -> Result<(), MacroError>
    ensures { Gives (λ u. state s.new) result (meaning.looks_at (state s.old) (site_of site) (directive line.entry)) }
{
    if is_reading(&s.conditionals) {
        obey(alloc, s, site, line)
    } else {
        overlook(s, site, line)
    }
}

fn direct<'a>(
    alloc: Global,
    s: &mut State<'a>,
    site: Site,
    line: Directive<'a>,
) -> Result<(), MacroError>
    ensures { Gives (λ u. state s.new) result (meaning.directed (state s.old) (site_of site) (directive line.entry)) }
{
    match line {
        Directive::Else => otherwise(s, site),
        Directive::Ends => end(s, site),
        Directive::ElseIf(tokens) => else_if(alloc, s, site, tokens),
        _ => look_at(alloc, s, site, line),
    }
}

fn is_end(kind: TokenKind<'_>) -> bool
    ensures { result ≡ meaning.is_end (token_kind kind.entry) }
{
    matches!(kind, TokenKind::End)
}

fn is_directive(token: Token<'_>) -> bool
    ensures { result ≡ meaning.is_directive (token_of token.entry) }
{
    token.begins_line && is_mark(Sign::Hash, token.kind)
}

/// The number of tokens behind a `#` in its line.
fn line_length(tokens: &[Token<'_>]) -> usize
    ensures is { result ≡ meaning.line_length (tokens_seen tokens.now) }
    ensures within { result ≤ length tokens.now }
{
    for (i, token) in tokens.iter().enumerate() {
        if token.begins_line || is_end(token.kind) {
            return i;
        }
    }
    tokens.len()
}

/// The number of tokens before the next directive.
fn text_length(tokens: &[Token<'_>]) -> usize
    ensures is { result ≡ meaning.text_length (tokens_seen tokens.now) }
    ensures within { result ≤ length tokens.now }
{
    for (i, token) in tokens.iter().enumerate() {
        if is_directive(*token) {
            return i;
        }
    }
    tokens.len()
}

/// The number of tokens behind the first one that belong to it: those of a directive, or those before the next one.
fn length_behind(first: Token<'_>, tokens: &[Token<'_>]) -> usize
    ensures is { result ≡ meaning.length_behind (token_of first.entry) (tokens_seen tokens.now) }
    ensures within { result ≤ length tokens.now }
{
    if is_directive(first) {
        line_length(tokens)
    } else {
        text_length(tokens)
    }
}

/// A directive, or all up to the next one.
fn put_piece<'a>(
    alloc: Global,
    s: &mut State<'a>,
    first: Token<'a>,
    behind: &'a [Token<'a>],
    all: &[Token<'a>],
) -> Result<(), MacroError>
    ensures { Gives (λ u. state s.new) result (meaning.put_piece (state s.old) (token_of first.entry) (tokens_seen behind.now) (tokens_seen all.now)) }
{
    if is_directive(first) {
        direct(alloc, s, first.site, directive_of(behind))
    } else {
        put_text(alloc, s, first.site, all)
    }
}

fn first_of<'a>(tokens: &[Token<'a>]) -> Token<'a>
    requires { 0 < length tokens.now }
    ensures { result ≡ slice_index_or tokens.now 0 result }
{
    tokens[0]
}

/// The first piece, and how many tokens behind its first one belong to it.
fn take_piece<'a>(
    alloc: Global,
    s: &mut State<'a>,
    tokens: &'a [Token<'a>],
) -> Result<usize, MacroError>
    ensures { Gives (λ n. (state s.new, n)) result (meaning.piece (state s.old) (tokens_seen tokens.now)) }
{
    if tokens.is_empty() {
        return Ok(0);
    }
    let first = first_of(tokens);
    let behind = &tokens[1..];
    let count = length_behind(first, behind);
    put_piece(alloc, s, first, &behind[..count], &tokens[..count + 1])?;
    Ok(count)
}

/// Reads the pieces of a text, one after another, to its end or its first fault.
fn read<'a>(alloc: Global, s: &mut State<'a>, tokens: &'a [Token<'a>]) -> Result<(), MacroError>
    ensures { Gives (λ u. state s.new) result (meaning.read 0 (state s.old) (tokens_seen tokens.now)) }
{
    let mut skip: usize = 0;
    for at in 0..tokens.len() {
        if skip > 0 {
            skip -= 1;
            continue;
        }
        let count = take_piece(alloc, s, &tokens[at..])?;
        skip = count;
    }
    Ok(())
}

fn state_with<'a>(alloc: Global, pool: &'a Bump, table: Vec<Entry<'a>>) -> State<'a>
    ensures { state result ≡ meaning.start (table_seen table.entry.items) }
{
    State {
        pool,
        table,
        conditionals: VecDeque::new(alloc),
        out: Vec::new(alloc),
        left: LIMIT,
    }
}

/// The table behind definitions that are given; their faults are told at the text's beginning.
fn given_table<'a>(
    alloc: Global,
    pool: &'a Bump,
    given: &'a [Token<'a>],
) -> Result<Vec<Entry<'a>>, MacroError>
    ensures { Gives table_of result (meaning.table_of (meaning.read 0 (meaning.start []) (tokens_seen given.now))) }
{
    let mut s = state_with(alloc, pool, Vec::new(alloc));
    match read(alloc, &mut s, given) {
        Ok(()) => Ok(s.table),
        Err(MacroError::At(_)) => Err(MacroError::At(Site { line: 1, column: 1 })),
        Err(MacroError::Memory) => Err(MacroError::Memory),
    }
}

fn finished<'a>(s: State<'a>) -> Result<Vec<Token<'a>>, MacroError>
    ensures { Gives tokens_of result (meaning.finished (state s.entry)) }
{
    if s.conditionals.len() == 0 {
        Ok(s.out)
    } else {
        Err(MacroError::At(s.conditionals[0].site))
    }
}

#[tactic(auto, using(crate::proofs::Handing::handed))]
fn read_text<'a>(
    alloc: Global,
    pool: &'a Bump,
    table: Vec<Entry<'a>>,
    tokens: &'a [Token<'a>],
) -> Result<Vec<Token<'a>>, MacroError>
    ensures { Gives tokens_of result (meaning.read_text (table_seen table.entry.items) (tokens_seen tokens.now)) }
{
    let mut s = state_with(alloc, pool, table);
    read(alloc, &mut s, tokens)?;
    finished(s)
}

/// The tokens that come of a text's tokens behind definitions that are given, or the place of the first fault (C99 6.10). It is at a
/// directive, or at the use of a macro; faults of the definitions are told at the text's beginning. The pool gets the bytes of tokens that
/// were two.
#[tactic(auto, unfolding(crate::specs::Reading::preprocessed), using(crate::proofs::Handing::handed))]
pub fn preprocessed<'a>(
    alloc: Global,
    pool: &'a Bump,
    given: &'a [Token<'a>],
    tokens: &'a [Token<'a>],
) -> Result<Vec<Token<'a>>, MacroError>
    ensures { Gives tokens_of result (meaning.preprocessed (tokens_seen given.now) (tokens_seen tokens.now)) }
{
    let table = given_table(alloc, pool, given)?;
    read_text(alloc, pool, table, tokens)
}
