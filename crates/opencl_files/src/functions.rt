//! The kernels of a file, and the one that is chosen.

ghost use Rattle.std.specs.Prelude.{◌≡◌, IfOk, ◌+◌, ◌<◌, ◌≤◌, ◌^◌, []};
ghost use Rattle.std.specs.Option.{option_map};
ghost use Rattle.core_code.specs.View.{site as site_of};
ghost use Rattle.opencl_tokens.specs.Seen.{lexeme as lexeme_seen, lexeme_kind};
ghost use Rattle.opencl_parser.specs.View.{lexemes, text_seen};
ghost use Rattle.opencl_files.specs.Functions as functions;
ghost use Rattle.opencl_files.specs.View.{Answers, turn as turn_seen, chunk as chunk_seen, chunks as chunks_seen, spotted, named as named_seen, looking as looking_seen, kernel as kernel_seen, kernels as kernels_seen, fault as fault_seen};

use crate::chunks::{Chunk, Turn, turn_of};
use crate::errors::{FileError, FileFault};
use core_code::tree::Site;
use opencl_parser::front::site_at;
use opencl_parser::stops::ParseFault;
use opencl_tokens::{Lexeme, LexemeKind, Sign, Word};
use std::alloc::{AllocError, Global};

/// A name and its place.
#[derive(Clone, Copy)]
pub struct Spot<'a> {
    pub name: &'a str,
    pub site: Site,
}

/// A function by its name, and whether it is a kernel.
#[derive(Clone, Copy)]
pub struct Named<'a> {
    pub name: &'a str,
    pub site: Site,
    pub is_kernel: bool,
}

/// How many brackets are open, whether the word `kernel` stood, and the name outside brackets that stands directly before.
#[derive(Clone, Copy)]
pub struct Looking<'a> {
    pub depth: usize,
    pub is_kernel: bool,
    pub last: Option<Spot<'a>>,
}

/// A kernel: the external declarations before it, its own lexemes, its name and the place of that.
#[derive(Clone, Copy)]
pub struct Kernel<'a> {
    pub before: &'a [Chunk<'a>],
    pub lexemes: &'a [Lexeme<'a>],
    pub name: &'a str,
    pub site: Site,
}

/// The lexeme is the word `kernel`.
pub fn is_kernel(kind: LexemeKind) -> bool
    ensures { result ≡ functions.is_kernel (lexeme_kind kind.entry) }
{
    matches!(kind, LexemeKind::Word(Word::Kernel))
}

fn is_parenthesis(kind: LexemeKind) -> bool
    ensures { result ≡ functions.is_parenthesis (lexeme_kind kind.entry) }
{
    matches!(kind, LexemeKind::Mark(Sign::LeftParenthesis))
}

fn depth_behind(depth: usize, turn: Turn) -> usize
    requires { depth + 1 < 2 ^ 64 }
    ensures few { result ≤ depth + 1 }
    ensures value { result ≡ functions.depth_behind depth (turn_seen turn) }
{
    match turn {
        Turn::Opens(_) => depth + 1,
        Turn::Closes(_) => depth.saturating_sub(1),
        _ => depth,
    }
}

fn name_outside<'a>(depth: usize, lexeme: Lexeme<'a>) -> Option<Spot<'a>>
    ensures { option_map spotted result ≡ functions.name_outside depth (lexeme_seen lexeme.entry) }
{
    if depth != 0 {
        return None;
    }
    match lexeme.kind {
        LexemeKind::Name(name) => Some(Spot {
            name,
            site: Site {
                line: lexeme.site.line,
                column: lexeme.site.column,
            },
        }),
        _ => None,
    }
}

fn function_at<'a>(looking: Looking<'a>, kind: LexemeKind) -> Option<Named<'a>>
    ensures { option_map named_seen result ≡ functions.function_at (looking_seen looking.entry) (lexeme_kind kind.entry) }
{
    if !is_parenthesis(kind) {
        return None;
    }
    match looking.last {
        None => None,
        Some(spot) => Some(Named {
            name: spot.name,
            site: spot.site,
            is_kernel: looking.is_kernel,
        }),
    }
}

fn looked<'a>(looking: Looking<'a>, lexeme: Lexeme<'a>) -> Looking<'a>
    requires { looking.depth + 1 < 2 ^ 64 }
    ensures few { result.depth ≤ looking.entry.depth + 1 }
    ensures value { looking_seen result ≡ functions.looked (looking_seen looking.entry) (lexeme_seen lexeme.entry) }
{
    Looking {
        depth: depth_behind(looking.depth, turn_of(lexeme.kind)),
        is_kernel: looking.is_kernel || is_kernel(lexeme.kind),
        last: name_outside(looking.depth, lexeme),
    }
}

/// The first function that lexemes name, if any.
pub fn function_in<'a>(tokens: &'a [Lexeme<'a>]) -> Option<Named<'a>>
    ensures { option_map named_seen result ≡ functions.function_in functions.at_first (lexemes tokens.now) }
{
    let mut looking = Looking {
        depth: 0,
        is_kernel: false,
        last: None,
    };
    for lexeme in tokens {
        if let Some(found) = function_at(looking, lexeme.kind) {
            return Some(found);
        }
        looking = looked(looking, *lexeme);
    }
    None
}

#[tactic(auto, unfolding(crate::specs::Functions::kernel_in))]
fn kernel_in<'a>(before: &'a [Chunk<'a>], chunk: Chunk<'a>) -> Option<Kernel<'a>>
    ensures { option_map kernel_seen result ≡ functions.kernel_in (chunks_seen before.now) (chunk_seen chunk.entry) }
{
    let found = function_in(chunk.lexemes)?;
    if found.is_kernel && chunk.is_braced {
        Some(Kernel {
            before,
            lexemes: chunk.lexemes,
            name: found.name,
            site: found.site,
        })
    } else {
        None
    }
}

#[tactic(auto, using(crate::proofs::Finding::finding))]
fn add<'a>(found: &mut Vec<Kernel<'a>>, kernel: Option<Kernel<'a>>) -> Result<(), AllocError>
    ensures { IfOk result (λ x. kernels_seen found.new.items ≡ functions.with_found (kernels_seen found.old.items) (option_map kernel_seen kernel.entry)) }
{
    match kernel {
        None => Ok(()),
        Some(kernel) => {
            found.push(kernel)?;
            Ok(())
        }
    }
}

/// The kernels with a body.
#[tactic(auto, using(crate::proofs::Finding::finding))]
pub fn kernels<'a>(alloc: Global, chunks: &'a [Chunk<'a>]) -> Result<Vec<Kernel<'a>>, AllocError>
    ensures { IfOk result (λ ks. kernels_seen ks.items ≡ functions.kernels [] [] (chunks_seen chunks.now)) }
{
    let mut found = Vec::new(alloc);
    for at in 0..chunks.len() {
        add(&mut found, kernel_in(&chunks[..at], chunks[at]))?;
    }
    Ok(found)
}

#[tactic(auto, using(crate::proofs::Finding::finding))]
fn of_name<'a>(
    alloc: Global,
    name: &str,
    kernels: &[Kernel<'a>],
) -> Result<Vec<Kernel<'a>>, AllocError>
    ensures { IfOk result (λ ks. kernels_seen ks.items ≡ functions.of_name name.now [] (kernels_seen kernels.now)) }
{
    let mut found = Vec::new(alloc);
    for kernel in kernels {
        if kernel.name == name {
            found.push(*kernel)?;
        }
    }
    Ok(found)
}

fn only<'a>(first: Site, fault: FileFault, kernels: &[Kernel<'a>]) -> Result<Kernel<'a>, FileError>
    ensures { Answers kernel_seen result (functions.only (site_of first) (fault_seen fault) (kernels_seen kernels.now)) }
{
    match kernels {
        [] => Err(FileError::At {
            fault: FileFault::NoKernel,
            site: first,
        }),
        [kernel] => Ok(*kernel),
        [_, second, ..] => Err(FileError::At {
            fault,
            site: second.site,
        }),
    }
}

/// Where a file begins and ends.
#[derive(Clone, Copy)]
pub struct Ends {
    pub first: Site,
    pub end: Site,
}

/// The kernel of the wanted name, or the only one.
pub fn chosen<'a>(
    alloc: Global,
    ends: Ends,
    wanted: Option<&str>,
    kernels: &[Kernel<'a>],
) -> Result<Kernel<'a>, FileError>
    ensures { Answers kernel_seen result (functions.chosen (site_of ends.first) (site_of ends.end) (option_map text_seen wanted.entry) (kernels_seen kernels.now)) }
{
    if kernels.is_empty() {
        return Err(FileError::At {
            fault: FileFault::Text(ParseFault::Expected),
            site: ends.end,
        });
    }
    match wanted {
        None => only(ends.first, FileFault::SeveralKernels, kernels),
        Some(name) => {
            let found = of_name(alloc, name, kernels)?;
            only(ends.first, FileFault::KernelTwice, found.as_slice())
        }
    }
}
