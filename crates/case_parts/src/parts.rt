// Parts of the program, each asked by a word.

ghost use Rattle.std.specs.Prelude.{◌≡◌, true};
ghost use Rattle.semantics.specs.Launch.{Fits};
ghost use Rattle.core_code.specs.View.{kernel as core_seen};
ghost use Rattle.launch.specs.View.{launch as launch_seen};
ghost use Rattle.work_item.specs.Proper.{is_proper};

use crate::launched::{push_conditions, push_launch};
use crate::least::push_guesses;
use crate::logged::push_first_log;
use crate::meeting::push_meeting;
use crate::noted::{push_placed, push_site};
use crate::play::{push_found, push_played};
use crate::spots::push_parsed;
use crate::stalled::push_steered;
use crate::unreckoned_kernels::push_unreckoned;
use certificate::error::CertError;
use certificate::{Certificate, read_wide, write, write_wide};
use kernel_reading::narrow;
use launch::launches::Launch;
use launch_text::read_launch;
use lexer::{Token, lex};
use shown_kernels::kernel::read_proper_kernel;
use std::alloc::{AllocError, Global};
use std::str::from_utf8;
use std::sync::Wait;
use std::thread::Threads;
use typed_kernels::Typed;

/// The parts of the program that can be asked alone, each with the texts that it is asked of.
#[derive(Clone, Copy)]
pub enum Part {
    /// `tokens TEXT`: the tokens of a text.
    Tokens,
    /// `tree TEXT`: how many statements a kernel's tree has.
    Tree,
    /// `spots TEXT`: where the nodes of a tree stand.
    Spots,
    /// `certificate TEXT`: a certificate, written back; one of version 1 in version 2.
    Certificate,
    /// `conditions KERNEL TEXT`: what conditions say.
    Conditions,
    /// `launch KERNEL TEXT`: what a launch says.
    Launch,
    /// `places KERNEL`: the places of a kernel.
    Places,
    /// `notes KERNEL CERTIFICATE`: what a certificate says of them, and how many steps a work-item takes by it at most.
    Notes,
    /// `site KERNEL NUMBER`: where the statement of a number begins.
    Site,
    /// `confirm KERNEL LAUNCH`: the finding of a replay.
    Confirm,
    /// `replay KERNEL LAUNCH SCHEDULE`: what a schedule does.
    Replay,
    /// `meeting KERNEL LAUNCH`: what two workers do that wait for each other.
    Meeting,
    /// `log KERNEL CONDITIONS LAUNCH`: what the first group of a launch writes.
    Log,
    /// `met KERNEL CONDITIONS CERTIFICATE LAUNCH`: a run by two workers, each of which waits at its first group for the other.
    Met,
    /// `stalled KERNEL CONDITIONS CERTIFICATE LAUNCH`: what 200 runs leave whose first worker is held at one of its moments.
    Stalled,
    /// `watched KERNEL CONDITIONS CERTIFICATE LAUNCH`: what a run leaves, how many groups its worker told, and what the launch has then.
    Watched,
    /// `guesses KERNEL CONDITIONS`: how many guesses the least menu has, and how many of them 1, 3 and 64 workers leave.
    Guesses,
    /// `held KERNEL CONDITIONS`: what two workers do that settle these guesses, where they wait for each other or the first one is held.
    Held,
    /// `same FILE FILE`: nothing, where two files have the same bytes.
    Same,
    /// `unreckoned`: whether kernels with an operation that is not reckoned are run, and whether it decides something.
    Unreckoned,
}

pub fn part_of(word: &str) -> Option<Part> {
    match word {
        "tokens" => Some(Part::Tokens),
        "tree" => Some(Part::Tree),
        "spots" => Some(Part::Spots),
        "certificate" => Some(Part::Certificate),
        "conditions" => Some(Part::Conditions),
        "launch" => Some(Part::Launch),
        "places" => Some(Part::Places),
        "notes" => Some(Part::Notes),
        "site" => Some(Part::Site),
        "confirm" => Some(Part::Confirm),
        "replay" => Some(Part::Replay),
        "meeting" => Some(Part::Meeting),
        "log" => Some(Part::Log),
        "met" => Some(Part::Met),
        "stalled" => Some(Part::Stalled),
        "watched" => Some(Part::Watched),
        "guesses" => Some(Part::Guesses),
        "held" => Some(Part::Held),
        "same" => Some(Part::Same),
        "unreckoned" => Some(Part::Unreckoned),
        _ => None,
    }
}

/// A part, and the texts and the number that it is asked of.
#[derive(Clone, Copy)]
pub struct Asked<'a> {
    pub part: Part,
    pub first: &'a [u8],
    pub second: &'a [u8],
    pub third: &'a [u8],
    pub fourth: &'a [u8],
    pub number: Option<u32>,
}

/// Writes `LINE:COLUMN KIND` of each token.
fn push_tokens(out: &mut String, tokens: &[Token<'_>]) -> Result<(), AllocError> {
    for token in tokens {
        writeln!(out, "{}:{} {:?}", token.line, token.column, token.kind)?;
    }
    Ok(())
}

/// Writes the tokens of a text, its tree or where the tree's nodes stand, or the fault.
fn push_lexed(alloc: Global, out: &mut String, asked: Asked<'_>) -> Result<(), AllocError> {
    match lex(alloc, asked.first) {
        Ok(tokens) => match asked.part {
            Part::Tokens => push_tokens(out, tokens.as_slice()),
            Part::Tree => push_parsed(alloc, out, tokens.as_slice(), true),
            _ => push_parsed(alloc, out, tokens.as_slice(), false),
        },
        Err(error) => writeln!(out, "refused {error}"),
    }
}

fn push_refused(out: &mut String, error: &CertError) -> Result<(), AllocError> {
    match error.place() {
        Some(line) => writeln!(out, "refused {} {line}", error.number()),
        None => writeln!(out, "refused {}", error.number()),
    }
}

fn push_written(
    alloc: Global,
    out: &mut String,
    certificate: &Certificate,
) -> Result<(), AllocError> {
    let bytes = if certificate.is_wide() {
        write_wide(alloc, certificate)?
    } else {
        write(alloc, certificate)?
    };
    let text = String::from_utf8_lossy(alloc, &bytes)?;
    out.push_str(&text)
}

/// A certificate, read and written back; one of version 1 in version 2.
fn push_certificate(alloc: Global, out: &mut String, text: &[u8]) -> Result<(), AllocError> {
    match read_wide(alloc, text) {
        Ok(certificate) => push_written(alloc, out, &certificate),
        Err(error) => push_refused(out, &error),
    }
}

/// Nothing, where two texts have the same bytes, one at least.
fn push_compared(out: &mut String, first: &[u8], second: &[u8]) -> Result<(), AllocError> {
    if first == second && !first.is_empty() {
        return Ok(());
    }
    out.push_str("not the same\n")
}

/// Writes the answer of a part that is asked of a kernel and a launch.
fn push_of_launch<R: Threads + Wait + Sync>(
    rt: &R,
    alloc: Global,
    out: &mut String,
    typed: &Typed,
    launch: &Launch,
    asked: Asked<'_>,
) -> Result<(), AllocError>
    requires proper { is_proper (core_seen typed.now.1) ≡ true }
    requires fits { Fits (core_seen typed.now.1) (launch_seen launch.now) }
{
    match asked.part {
        Part::Confirm => push_found(alloc, out, typed, launch),
        Part::Replay => push_played(
            alloc,
            out,
            typed,
            launch,
            from_utf8(asked.third).unwrap_or(""),
        ),
        Part::Meeting => push_meeting(rt, alloc, out, typed, launch),
        _ => push_launch(alloc, out, typed, launch),
    }
}

fn push_with_launch<R: Threads + Wait + Sync>(
    rt: &R,
    alloc: Global,
    out: &mut String,
    typed: &Typed,
    asked: Asked<'_>,
) -> Result<(), AllocError>
    requires { is_proper (core_seen typed.now.1) ≡ true }
{
    match read_launch(alloc, typed, asked.second) {
        Ok(launch) => push_of_launch(rt, alloc, out, typed, &launch, asked),
        Err(error) => writeln!(out, "refused {error}"),
    }
}

/// Writes the answer of a part that is asked of a kernel, and perhaps of a text that speaks of it.
fn push_of_kernel<R: Threads + Wait + Sync>(
    rt: &R,
    alloc: Global,
    out: &mut String,
    typed: &Typed,
    asked: Asked<'_>,
) -> Result<(), AllocError>
    requires { is_proper (core_seen typed.now.1) ≡ true }
{
    match asked.part {
        Part::Conditions => push_conditions(alloc, out, typed, asked.second),
        Part::Places => push_placed(alloc, out, typed, None),
        Part::Notes => push_placed(alloc, out, typed, Some(asked.second)),
        Part::Site => push_site(out, typed, asked.number),
        _ => push_with_launch(rt, alloc, out, typed, asked),
    }
}

fn push_with_kernel<R: Threads + Wait + Sync>(
    rt: &R,
    alloc: Global,
    out: &mut String,
    asked: Asked<'_>,
) -> Result<(), AllocError> {
    match read_proper_kernel(alloc, narrow(asked.first)) {
        Ok(typed) => push_of_kernel(rt, alloc, out, &typed, asked),
        Err(error) => writeln!(out, "refused {error}"),
    }
}

/// Writes the answer of a part, or the refusal of the first text that has a fault.
pub fn push_part<R: Threads + Wait + Sync>(
    rt: &R,
    alloc: Global,
    out: &mut String,
    asked: Asked<'_>,
) -> Result<(), AllocError> {
    match asked.part {
        Part::Tokens | Part::Tree | Part::Spots => push_lexed(alloc, out, asked),
        Part::Certificate => push_certificate(alloc, out, asked.first),
        Part::Log => push_first_log(rt, alloc, out, asked.first, asked.second, asked.third),
        Part::Met | Part::Stalled | Part::Watched => push_steered(rt, alloc, out, asked),
        Part::Guesses => push_guesses(rt, alloc, out, asked.first, asked.second, false),
        Part::Held => push_guesses(rt, alloc, out, asked.first, asked.second, true),
        Part::Same => push_compared(out, asked.first, asked.second),
        Part::Unreckoned => push_unreckoned(alloc, out),
        _ => push_with_kernel(rt, alloc, out, asked),
    }
}
