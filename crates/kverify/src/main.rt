//! Section: Program. Promises no more than `program`, over this machine's files; stands on `program`.
//!
//! The program: `check`, `prove`, `explain`, `run`, `print` and `migrate`, as `docs/FORMATS.md` has them. Status 0 accepted or done, 1
//! refused, 2 a command line that is none, 3 a file or an output that fails, 4 out of memory.
#![tactic(auto)]

mod disk;

use disk::Disk;
use program::patience::StatusLine;
use program::{Progress, USAGE, Watcher, tool, tool_watched};
use std::io::{ErrorKind, IsTerminal};
use std::process::ExitCode;
use std::sync::Wait;
use std::thread::{Threads, join};
use std::time::{Clock, Duration};
use std::{env, io};

/// The words behind the program's name.
fn words_of(rt: &HostRuntime) -> io::Result<Vec<String>> {
    let mut words = env::args(rt)?;
    let _program = words.next();
    Ok(words.collect(rt.alloc())?)
}

/// One run of the program, over the files of the system. The handle is the system too, as it waits and starts threads.
fn status_of<R: Threads + Wait + Sync>(handle: &R, rt: &HostRuntime, words: &[String]) -> u8 {
    let mut disk = Disk::new(rt);
    let mut out = rt.stdout();
    let mut err = rt.stderr();
    tool(handle, rt.alloc(), words, &mut disk, &mut out, &mut err)
}

/// Whether the words ask for a search, which may take long.
fn is_search(words: &[String]) -> bool {
    matches!(
        words.first().map(|word| word.as_str()),
        Some("prove" | "explain")
    )
}

/// Whoever watches a search on a terminal.
#[derive(Drop)]
struct Onlooker<'a, R> {
    handle: &'a R,
    rt: &'a HostRuntime,
    line: &'a StatusLine,
}

impl<'a, R: Wait> Watcher for Onlooker<'a, R> {
    fn tell(&self, progress: Progress) {
        self.line.note(self.handle, progress);
    }

    fn end(&self) {
        let mut err = self.rt.stderr();
        self.line.end(self.handle, &mut err);
    }
}

/// One run of the program, of which a line tells how far it is.
fn watched_status<R: Threads + Wait + Sync>(
    handle: &R,
    rt: &HostRuntime,
    words: &[String],
    line: &StatusLine,
) -> u8 {
    let mut disk = Disk::new(rt);
    let mut out = rt.stdout();
    let mut err = rt.stderr();
    let onlooker = Onlooker { handle, rt, line };
    tool_watched(
        handle,
        rt.alloc(),
        words,
        &mut disk,
        &mut out,
        &mut err,
        &onlooker,
    )
}

/// Writes on the standard error how far a search is, as soon as it takes over a second, and then five times a second, until it is over.
fn tell_of_search<R: Wait + Clock>(handle: &R, rt: &HostRuntime, line: &StatusLine) {
    let mut err = rt.stderr();
    let mut time = Duration::from_secs(1);
    for _ in 0..u64::MAX {
        if line.write_within(handle, time, &mut err) {
            return;
        }
        time = Duration::from_millis(200);
    }
}

/// One run of the program, of which a second thread tells where it takes long.
fn told_status<R: Threads + Wait + Clock + Sync>(
    handle: &R,
    rt: &HostRuntime,
    words: &[String],
) -> u8 {
    let line = StatusLine::new();
    let (status, ()) = join(
        handle,
        || watched_status(handle, rt, words, &line),
        || tell_of_search(handle, rt, &line),
    );
    status
}

/// Tells why there are no words: there is no memory for them, or one of them is no text, so they are no command line.
fn told_wordless(rt: &HostRuntime, error: &io::Error) -> u8 {
    if error.kind() == ErrorKind::OutOfMemory {
        let _told = eprintln!(rt; "out of memory");
        4
    } else {
        let _told = eprint!(rt; "{USAGE}");
        2
    }
}

fn main(rt: HostRuntime) -> ExitCode {
    let words = match words_of(&rt) {
        Ok(words) => words,
        Err(error) => return ExitCode::from(told_wordless(&rt, &error)),
    };
    let words = words.as_slice();
    let status = if is_search(words) && rt.stderr().is_terminal() {
        told_status(&rt, &rt, words)
    } else {
        status_of(&rt, &rt, words)
    };
    ExitCode::from(status)
}
