// What a command line answers.

use crate::faulty::{Counted, Sealed, Torn};
use crate::part_files::push_part_of_files;
use case_parts::{Part, part_of};
use program::files::Files;
use program::held::Held;
use program::patience::StatusLine;
use program::{Progress, Watcher, tool, tool_watched};
use std::alloc::{AllocError, Global};
use std::sync::Wait;
use std::sync::atomic::{AtomicU32, Ordering};
use std::thread::{Threads, join};
use std::time::{Clock, Duration};

/// The status of a command and the bytes that it writes to its two outputs.
#[derive(PartialEq, Eq, Drop)]
pub struct Answer {
    pub status: u8,
    pub out: Vec<u8>,
    pub err: Vec<u8>,
}

impl Answer {
    pub fn new(alloc: Global) -> Answer {
        Answer {
            status: 0,
            out: Vec::new(alloc),
            err: Vec::new(alloc),
        }
    }
}

/// The answer of the program to a command line, over these files.
fn of_program<R: Threads + Wait + Clock + Sync, F: Files>(
    rt: &R,
    alloc: Global,
    words: &[String],
    files: &mut F,
) -> Answer {
    let mut answer = Answer::new(alloc);
    answer.status = tool(rt, alloc, words, files, &mut answer.out, &mut answer.err);
    answer
}

/// The answer of the program where its output has room for four bytes alone.
fn with_room<R: Threads + Wait + Clock + Sync>(
    rt: &R,
    alloc: Global,
    words: &[String],
    held: &mut Held,
) -> Answer {
    let mut answer = Answer::new(alloc);
    let mut room = [0u8; 4];
    let mut out: &mut [u8] = &mut room;
    answer.status = tool(rt, alloc, words, held, &mut out, &mut answer.err);
    answer
}

/// The answer of the program; its standard error then has a line for each file that was read, with the number of bytes that were taken.
fn with_counts<R: Threads + Wait + Clock + Sync>(
    rt: &R,
    alloc: Global,
    words: &[String],
    held: &mut Held,
) -> Result<Answer, AllocError> {
    let mut counted = Counted {
        held,
        told: String::new(alloc),
    };
    let mut answer = of_program(rt, alloc, words, &mut counted);
    answer.err.extend_from_slice(counted.told.as_bytes())?;
    Ok(answer)
}

/// The answer of a part of the program to the files of these names.
fn of_part<R: Threads + Wait + Sync>(
    rt: &R,
    alloc: Global,
    part: Part,
    names: &[String],
    held: &mut Held,
) -> Result<Answer, AllocError> {
    let mut text = String::new(alloc);
    let mut answer = Answer::new(alloc);
    match push_part_of_files(rt, alloc, &mut text, part, names, held) {
        Ok(()) => answer.out = text.into_bytes(),
        Err(AllocError) => {
            answer.status = 4;
            answer.err.extend_from_slice(b"out of memory\n")?;
        }
    }
    Ok(answer)
}

/// The words behind the first.
fn behind(words: &[String]) -> &[String] {
    match words.split_first() {
        Some((_, others)) => others,
        None => words,
    }
}

/// Notes the last attempt that it is told of, and how often it is told that nothing more comes.
#[derive(Drop)]
struct Noting {
    attempt: AtomicU32,
    ends: AtomicU32,
}

impl Watcher for Noting {
    fn tell(&self, progress: Progress) {
        self.attempt.store(progress.attempt, Ordering::SeqCst);
    }

    fn end(&self) {
        let _before = self.ends.fetch_add(1, Ordering::SeqCst);
    }
}

/// The answer of the program, whose search is watched; its standard error then says what the watcher was told.
fn with_watcher<R: Threads + Wait + Clock + Sync>(
    rt: &R,
    alloc: Global,
    words: &[String],
    held: &mut Held,
) -> Result<Answer, AllocError> {
    let noting = Noting {
        attempt: AtomicU32::new(0),
        ends: AtomicU32::new(0),
    };
    let mut answer = Answer::new(alloc);
    answer.status = tool_watched(
        rt,
        alloc,
        words,
        held,
        &mut answer.out,
        &mut answer.err,
        &noting,
    );
    let attempt = noting.attempt.load(Ordering::SeqCst);
    let ends = noting.ends.load(Ordering::SeqCst);
    let text = format!(in alloc; "attempt {attempt}, ended {ends}\n")?;
    answer.err.extend_from_slice(text.as_bytes())?;
    Ok(answer)
}

/// What is written where the search is over.
fn ended<R: Wait>(rt: &R, alloc: Global, line: &StatusLine) -> Vec<u8> {
    let mut wiped = Vec::new(alloc);
    line.end(rt, &mut wiped);
    wiped
}

/// What a line on a terminal says of a search before anything is told of it, behind that, at its end, which another thread waits for, and
/// behind its end; and whether it was over each time.
fn of_patience<R: Threads + Wait + Clock + Sync>(
    rt: &R,
    alloc: Global,
) -> Result<Answer, AllocError> {
    let line = StatusLine::new();
    let mut answer = Answer::new(alloc);
    let short = Duration::from_millis(5);
    let early = line.write_within(rt, short, &mut answer.out);
    line.note(
        rt,
        Progress {
            attempt: 2,
            round: 3,
            left: 1204,
        },
    );
    let told = line.write_within(rt, short, &mut answer.out);
    let mut nothing = Vec::new(alloc);
    let (wiped, came) = join(
        rt,
        || ended(rt, alloc, &line),
        || line.write_within(rt, Duration::from_secs(60), &mut nothing),
    );
    answer.out.extend_from_slice(wiped.as_slice())?;
    let late = line.write_within(rt, Duration::from_secs(0), &mut answer.out);
    let text = format!(in alloc; "\nearly {early}, told {told}, in time {came}, late {late}\n")?;
    answer.out.extend_from_slice(text.as_bytes())?;
    Ok(answer)
}

/// The answer to a command line: the program's own; behind `torn NAME`, where the file of that name takes too much memory; behind `sealed`,
/// where no file can be written; behind `counted`, with what was read of each file; behind `narrow`, where no more than four bytes can be
/// written; behind `observed`, with what a watcher of the search is told; `patience`, of a line on a terminal; or that of a part.
pub fn answer_of<R: Threads + Wait + Clock + Sync>(
    rt: &R,
    alloc: Global,
    words: &[String],
    held: &mut Held,
) -> Result<Answer, AllocError> {
    let verb = match words.first() {
        Some(word) => word.as_str(),
        None => "",
    };
    let others = behind(words);
    if let Some(part) = part_of(verb) {
        return of_part(rt, alloc, part, others, held);
    }
    match verb {
        "torn" => {
            let mut torn = Torn {
                held,
                fails: others.first(),
            };
            Ok(of_program(rt, alloc, behind(others), &mut torn))
        }
        "sealed" => Ok(of_program(rt, alloc, others, &mut Sealed { held })),
        "counted" => with_counts(rt, alloc, others, held),
        "narrow" => Ok(with_room(rt, alloc, others, held)),
        "observed" => with_watcher(rt, alloc, others, held),
        "patience" => of_patience(rt, alloc),
        "kverify" => Ok(of_program(rt, alloc, others, held)),
        _ => Ok(of_program(rt, alloc, words, held)),
    }
}
