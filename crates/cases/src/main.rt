//! Section: Tests. Promises nothing: it holds the tests of texts, and what `bench/` measures; stands on `program` and `case_parts`.
//!
//! `cases FILE..` reads files of cases and runs the program on each, over files in memory; it says of each file how many cases are as
//! told, shows those that are not, and ends with status 1 if there is one. `replay KERNEL LAUNCH SCHEDULE` replays a schedule,
//! `settle stand|fall WORKERS` settles candidates and `cuts FACTS [ROUNDS]` searches derivations. Behind the word `then` stands another
//! of these.
//!
//! A line of such a file begins with a mark and a blank:
//!
//!     file NAME    a file in memory begins
//!     | TEXT       a line of it; `|\ TEXT` puts a text with `\n`, `\r`, `\t`, `\\`, `\xHH` and no line feed, `|* COUNT TEXT` does so often
//!     |< NAME FIRST LAST    lines of a file that is there, by their numbers
//!     $ WORDS      a command line; `kverify`'s own, or one of a part of it (see `Part`)
//!     > TEXT       a line that it is to write; `>*` and `>\` as above
//!     ! TEXT       a line that it is to write to the standard error
//!     = STATUS     its status, where that is not 0
//!
//! An empty line and one that begins with `#` say nothing.
#![tactic(auto)]

mod answers;
mod boards;
mod cuts;
mod faulty;
mod marks;
mod part_files;
mod sheet;

use case_parts::{Asked, Part, push_part};
use std::process::ExitCode;
use std::sync::Wait;
use std::thread::Threads;
use std::time::Clock;
use std::{env, fs, io};

/// The text of a file, by its name.
fn text_of(rt: &HostRuntime, name: Option<String>) -> io::Result<String> {
    match name {
        Some(name) => fs::read_to_string(rt, name.as_str()),
        None => Ok(String::new(rt.alloc())),
    }
}

/// Runs the cases of a file, and says whether all are as told.
fn run_file<R: Threads + Wait + Clock + Sync>(
    handle: &R,
    rt: &HostRuntime,
    name: &str,
) -> io::Result<bool> {
    let text = fs::read_to_string(rt, name)?;
    let count = sheet::run(handle, rt.alloc(), text.as_bytes())?;
    print!(rt; "{}{name}: {} as told\n", count.report, count.passed)?;
    Ok(count.report.is_empty())
}

fn run_files<R: Threads + Wait + Clock + Sync>(
    handle: &R,
    rt: &HostRuntime,
    names: &mut env::Args,
) -> io::Result<bool> {
    let mut all = true;
    for name in names {
        if name.as_str() == "then" {
            break;
        }
        all = run_file(handle, rt, name.as_str())? && all;
    }
    Ok(all)
}

/// Prints what a schedule does, by the files of the kernel, the launch and the schedule; always true.
fn replay<R: Threads + Wait + Sync>(
    handle: &R,
    rt: &HostRuntime,
    names: &mut env::Args,
) -> io::Result<bool> {
    let kernel = text_of(rt, names.next())?;
    let launch = text_of(rt, names.next())?;
    let schedule = text_of(rt, names.next())?;
    let mut text = String::new(rt.alloc());
    let asked = Asked {
        part: Part::Replay,
        first: kernel.as_bytes(),
        second: launch.as_bytes(),
        third: schedule.as_bytes(),
        fourth: &[],
        number: None,
    };
    push_part(handle, rt.alloc(), &mut text, asked)?;
    print!(rt; "{text}")?;
    Ok(true)
}

/// Runs what a word asks for, of the words behind it.
fn run_verb<R: Threads + Wait + Clock + Sync>(
    handle: &R,
    rt: &HostRuntime,
    verb: &str,
    words: &mut env::Args,
) -> io::Result<bool> {
    match verb {
        "cases" => run_files(handle, rt, words),
        "replay" => replay(handle, rt, words),
        "settle" => boards::run(handle, rt, words),
        "cuts" => cuts::run(rt, words),
        _ => Ok(verb == "then"),
    }
}

/// Runs all that the words ask for, and says whether all is as told. The handle is the system too, as it waits and starts threads.
fn run_all<R: Threads + Wait + Clock + Sync>(handle: &R, rt: &HostRuntime) -> io::Result<bool> {
    let mut words = env::args(rt)?;
    let _program = words.next();
    let mut all = true;
    for _ in 0..1_000 {
        let Some(verb) = words.next() else {
            break;
        };
        all = run_verb(handle, rt, verb.as_str(), &mut words)? && all;
    }
    Ok(all)
}

fn main(rt: HostRuntime) -> ExitCode {
    match run_all(&rt, &rt) {
        Ok(true) => ExitCode::from(0),
        Ok(false) => ExitCode::from(1),
        Err(_) => ExitCode::from(3),
    }
}
