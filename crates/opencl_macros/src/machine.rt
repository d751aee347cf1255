//! Macros are expanded step by step: what is put in for a use is read again, with all that follows it.

ghost use Rattle.std.specs.Prelude.{◌≡◌, ◌++◌, []};
ghost use Rattle.opencl_tokens.specs.Seen.{site as site_of, token as token_of, token_kind};
ghost use Rattle.opencl_macros.specs.Bodies.{supply};
ghost use Rattle.opencl_macros.specs.Expansion.{gathered as gathered_of};
ghost use Rattle.opencl_macros.specs.Machine as meaning;
ghost use Rattle.opencl_macros.specs.Seen.{active as active_seen, arguments as arguments_seen, feed as feed_seen, fed as fed_seen, filled_seen, macro, table as table_seen, tokens_seen, Gives, IfRead};
ghost use Rattle.opencl_macros.specs.SeenMachine.{machine as machine_seen, call as call_seen, next as next_seen, done_seen, expansion_seen, machine_came, took};

use crate::bodies::{Filled, replaced};
use crate::feed::{Fed, fits, gathered, is_active, leave, opens};
use crate::macros::{Entry, Macro, look, makes_strings};
use crate::{MacroError, Token, TokenKind};
use bumpalo::Bump;
use opencl_tokens::Site;
use std::alloc::Global;
use std::collections::VecDeque;

/// What is to be read, the macros whose expansion has not ended, the inner one last, what came out, and how many tokens may still be put
/// in; the pool has the bytes of tokens that were two.
#[derive(Drop)]
pub struct Machine<'a> {
    pub pool: &'a Bump,
    pub feed: VecDeque<Fed<'a>>,
    pub active: Vec<&'a str>,
    pub out: Vec<Fed<'a>>,
    pub left: usize,
}

/// The use of a function.
#[derive(Drop)]
pub struct Call<'a> {
    pub name: &'a str,
    pub site: Site,
    pub used: Macro<'a>,
    pub arguments: Vec<Vec<Fed<'a>>>,
}

/// What came of tokens, and how many tokens may still be put in.
#[derive(Drop)]
pub struct Expansion<'a> {
    pub out: Vec<Fed<'a>>,
    pub left: usize,
}

fn emit<'a>(m: &mut Machine<'a>, token: Token<'a>, is_kept: bool) -> Result<(), MacroError>
    ensures { Gives (λ u. machine_seen m.new) result (Ok (meaning.emitted (machine_seen m.old) (token_of token.entry) is_kept)) }
{
    m.out.push(Fed::Word(token, is_kept))?;
    Ok(())
}

/// These are read next, the first one first.
fn put_front<'a>(feed: &mut VecDeque<Fed<'a>>, tokens: &[Fed<'a>]) -> Result<(), MacroError>
    ensures { Gives (λ u. feed_seen feed.new.items) result (Ok (feed_seen tokens.now ++ feed_seen feed.old.items)) }
{
    let count = tokens.len();
    for i in 0..count {
        feed.push_front(tokens[count - 1 - i])?;
    }
    Ok(())
}

fn put<'a>(m: &mut Machine<'a>, name: &'a str, filled: &Filled<'a>) -> Result<(), MacroError>
    ensures { Gives (λ u. machine_seen m.new) result (Ok (meaning.put_in (machine_seen m.old) name.entry.now (filled_seen filled.now))) }
{
    m.feed.push_front(Fed::Behind)?;
    put_front(&mut m.feed, &filled.tokens)?;
    m.active.push(name)?;
    m.left = filled.left;
    Ok(())
}

/// Tokens are put in for a use, with its arguments as they stand and expanded.
fn enter<'a>(
    alloc: Global,
    m: &mut Machine<'a>,
    name: &'a str,
    site: Site,
    used: Macro<'a>,
    given: &[Vec<Fed<'a>>],
    expanded: &[Vec<Fed<'a>>],
) -> Result<(), MacroError>
    ensures { Gives (λ u. machine_seen m.new) result (meaning.enters (machine_seen m.old) name.entry.now (site_of site) (macro used.entry) (supply (arguments_seen given.now) (arguments_seen expanded.now))) }
{
    match replaced(alloc, m.pool, site, used, given, expanded, m.left)? {
        None => Err(MacroError::At(site)),
        Some(filled) => put(m, name, &filled),
    }
}

/// The use of a function with its arguments.
fn make_call<'a>(
    alloc: Global,
    m: &mut Machine<'a>,
    name: &'a str,
    site: Site,
    used: Macro<'a>,
    parameters: &[Token<'_>],
) -> Result<Option<Call<'a>>, MacroError>
    ensures { Gives (next_seen (machine_seen m.new)) result (meaning.calls (machine_seen m.old) name.entry.now (site_of site) (macro used.entry) (tokens_seen parameters.now) (gathered_of 0 (active_seen m.old.active.items) [] [] (feed_seen m.old.feed.items))) }
{
    match gathered(alloc, &mut m.feed, &mut m.active)? {
        None => Err(MacroError::At(site)),
        Some(arguments) => {
            if fits(parameters, &arguments) {
                Ok(Some(Call {
                    name,
                    site,
                    used,
                    arguments,
                }))
            } else {
                Err(MacroError::At(site))
            }
        }
    }
}

fn use_macro<'a>(
    alloc: Global,
    m: &mut Machine<'a>,
    token: Token<'a>,
    name: &'a str,
    used: Macro<'a>,
) -> Result<Option<Call<'a>>, MacroError>
    ensures { Gives (next_seen (machine_seen m.new)) result (meaning.uses (machine_seen m.old) (token_of token.entry) name.entry.now (macro used.entry) (macro used.entry).parameters) }
{
    match used.parameters {
        None => {
            enter(alloc, m, name, token.site, used, &[], &[])?;
            Ok(None)
        }
        Some(parameters) => {
            if opens(&m.feed) {
                make_call(alloc, m, name, token.site, used, parameters)
            } else {
                emit(m, token, false)?;
                Ok(None)
            }
        }
    }
}

/// A name that a macro stands for, where it is not within its own expansion.
fn meet<'a>(
    alloc: Global,
    m: &mut Machine<'a>,
    token: Token<'a>,
    name: &'a str,
    used: Macro<'a>,
) -> Result<Option<Call<'a>>, MacroError>
    ensures { Gives (next_seen (machine_seen m.new)) result (meaning.meets (machine_seen m.old) (token_of token.entry) name.entry.now (Some (macro used.entry))) }
{
    if is_active(name, &m.active) {
        emit(m, token, true)?;
        return Ok(None);
    }
    if makes_strings(used) {
        return Err(MacroError::At(token.site));
    }
    use_macro(alloc, m, token, name, used)
}

/// The place of a use and the name of the file have no token here.
pub fn is_left_out(name: &str) -> bool
    ensures { result ≡ meaning.is_left_out name.now }
{
    name == "__LINE__" || name == "__FILE__" || name == "__DATE__" || name == "__TIME__"
}

fn named<'a>(
    alloc: Global,
    entries: &[Entry<'a>],
    m: &mut Machine<'a>,
    token: Token<'a>,
    name: &'a str,
) -> Result<Option<Call<'a>>, MacroError>
    ensures { Gives (next_seen (machine_seen m.new)) result (meaning.named (table_seen entries.now) (machine_seen m.old) (token_of token.entry) name.entry.now) }
{
    if is_left_out(name) {
        return Err(MacroError::At(token.site));
    }
    match look(name, entries) {
        None => {
            emit(m, token, false)?;
            Ok(None)
        }
        Some(used) => meet(alloc, m, token, name, used),
    }
}

fn take<'a>(
    alloc: Global,
    entries: &[Entry<'a>],
    m: &mut Machine<'a>,
    token: Token<'a>,
    is_kept: bool,
) -> Result<Option<Call<'a>>, MacroError>
    ensures { Gives (next_seen (machine_seen m.new)) result (meaning.takes (table_seen entries.now) (machine_seen m.old) (token_of token.entry) is_kept (token_kind token.entry.kind)) }
{
    match token.kind {
        TokenKind::Name(name) => {
            if is_kept {
                emit(m, token, true)?;
                Ok(None)
            } else {
                named(alloc, entries, m, token, name)
            }
        }
        _ => {
            emit(m, token, is_kept)?;
            Ok(None)
        }
    }
}

/// What is read next.
fn step<'a>(
    alloc: Global,
    entries: &[Entry<'a>],
    m: &mut Machine<'a>,
    item: Fed<'a>,
) -> Result<Option<Call<'a>>, MacroError>
    ensures { Gives (next_seen (machine_seen m.new)) result (meaning.step (table_seen entries.now) (machine_seen m.old) (fed_seen item.entry)) }
{
    match item {
        Fed::Word(token, is_kept) => take(alloc, entries, m, token, is_kept),
        Fed::Behind => {
            leave(&mut m.active);
            Ok(None)
        }
    }
}

/// More steps than there ever are.
const STEPS: u32 = 4_194_304;

/// Tokens with their macros expanded; uses in arguments are `depth` levels deep at most.
#[cycle(expansion)]
pub fn expanded<'a>(
    alloc: Global,
    pool: &'a Bump,
    depth: u32,
    entries: &[Entry<'a>],
    site: Site,
    left: usize,
    active: &[&'a str],
    tokens: &[Fed<'a>],
) -> Result<Expansion<'a>, MacroError>
    ensures { Gives expansion_seen result (meaning.expanded depth (table_seen entries.now) (site_of site) left (active_seen active.now) (feed_seen tokens.now)) }
{
    if depth == 0 {
        return Err(MacroError::At(site));
    }
    let mut m = fed_with(alloc, pool, active, left, tokens)?;
    run(alloc, depth - 1, entries, site, &mut m)?;
    Ok(Expansion {
        out: m.out,
        left: m.left,
    })
}

/// What is read next, if anything.
fn next_item<'a>(m: &mut Machine<'a>) -> Option<Fed<'a>>
    ensures { took result (machine_seen m.new) ≡ meaning.taken (machine_seen m.old) }
{
    m.feed.pop_front()
}

/// Takes one step after another until nothing is left to read, or to the first fault. Too many steps are a fault at the
/// site.
#[cycle(expansion)]
fn run<'a>(
    alloc: Global,
    depth: u32,
    entries: &[Entry<'a>],
    site: Site,
    m: &mut Machine<'a>,
) -> Result<(), MacroError>
    ensures { Gives (λ u. machine_came m.new) result (meaning.machine 4194304 (meaning.expanded depth (table_seen entries.now)) (site_of site) (table_seen entries.now) (machine_seen m.old)) }
{
    for _turn in 0..STEPS {
        match next_item(m) {
            None => return Ok(()),
            Some(item) => advance(alloc, depth, entries, m, item)?,
        }
    }
    Err(MacroError::At(site))
}

/// One step, with the arguments of a use.
#[cycle(expansion)]
#[tactic(auto, using(crate::proofs::Handing::handed))]
fn advance<'a>(
    alloc: Global,
    depth: u32,
    entries: &[Entry<'a>],
    m: &mut Machine<'a>,
    item: Fed<'a>,
) -> Result<(), MacroError>
    ensures { Gives (λ u. machine_seen m.new) result (meaning.advanced (meaning.expanded depth (table_seen entries.now)) (table_seen entries.now) (machine_seen m.old) (fed_seen item.entry)) }
{
    match step(alloc, entries, m, item)? {
        None => Ok(()),
        Some(called) => perform(alloc, depth, entries, m, &called),
    }
}

/// The arguments of a use are expanded, and its tokens are put in.
#[cycle(expansion)]
#[tactic(auto, using(crate::proofs::Handing::handed))]
fn perform<'a>(
    alloc: Global,
    depth: u32,
    entries: &[Entry<'a>],
    m: &mut Machine<'a>,
    call: &Call<'a>,
) -> Result<(), MacroError>
    ensures { Gives (λ u. machine_seen m.new) result (meaning.performs (meaning.expanded depth (table_seen entries.now)) (meaning.Calls (call_seen call.now) (machine_seen m.old))) }
{
    let found = expanded_all(
        alloc,
        m.pool,
        depth,
        entries,
        call.site,
        &m.active,
        m.left,
        &call.arguments,
    )?;
    m.left = found.left;
    enter(
        alloc,
        m,
        call.name,
        call.site,
        call.used,
        &call.arguments,
        &found.done,
    )
}

/// Arguments that are expanded, and how many tokens may still be put in.
#[derive(Drop)]
struct Arguments<'a> {
    done: Vec<Vec<Fed<'a>>>,
    left: usize,
}

/// Each argument is expanded by itself before it is put in.
#[cycle(expansion)]
#[tactic(auto, using(crate::proofs::Handing::handed))]
fn expanded_all<'a>(
    alloc: Global,
    pool: &'a Bump,
    depth: u32,
    entries: &[Entry<'a>],
    site: Site,
    active: &[&'a str],
    left: usize,
    arguments: &[Vec<Fed<'a>>],
) -> Result<Arguments<'a>, MacroError>
    ensures { Gives done_seen result (meaning.expanded_all (meaning.expanded depth (table_seen entries.now)) (site_of site) (active_seen active.now) (meaning.arguments_with [] left) (arguments_seen arguments.now)) }
{
    let mut found = Arguments {
        done: Vec::new(alloc),
        left,
    };
    for argument in arguments {
        let one = expanded(
            alloc, pool, depth, entries, site, found.left, active, argument,
        )?;
        found.done.push(one.out)?;
        found.left = one.left;
    }
    Ok(found)
}

/// A machine that reads these.
fn fed_with<'a>(
    alloc: Global,
    pool: &'a Bump,
    active: &[&'a str],
    left: usize,
    tokens: &[Fed<'a>],
) -> Result<Machine<'a>, MacroError>
    ensures { IfRead result (λ m. machine_seen m ≡ meaning.machine_with (feed_seen tokens.now) (active_seen active.now) [] left) }
{
    let mut feed = VecDeque::new(alloc);
    for token in tokens {
        feed.push_back(*token)?;
    }
    Ok(Machine {
        pool,
        feed,
        active: Vec::from_slice(alloc, active)?,
        out: Vec::new(alloc),
        left,
    })
}
