// Files of cases, run.

use crate::answers::{Answer, answer_of};
use crate::marks::{cut, number_of, push_escaped, push_line, push_lines, push_often, words_of};
use program::files::Files;
use program::held::Held;
use std::alloc::{AllocError, Global};
use std::str::from_utf8;
use std::sync::Wait;
use std::thread::Threads;
use std::time::Clock;

/// How many cases are as told, and what is to be said of the others.
#[derive(Drop)]
pub struct Count {
    pub passed: u32,
    pub report: String,
}

/// A file in memory that is being told.
#[derive(Drop)]
struct Told {
    name: String,
    bytes: Vec<u8>,
}

/// A command, and what it is to answer; no command where it is empty.
#[derive(Drop)]
struct Due {
    line: usize,
    command: Vec<u8>,
    answer: Answer,
}

/// The state of running a file of cases: the files held, what the lines tell, and the counts.
#[derive(Drop)]
struct Sheet {
    alloc: Global,
    held: Held,
    told: Told,
    due: Due,
    count: Count,
}

fn shown(alloc: Global, text: &[u8]) -> Result<String, AllocError> {
    String::from_utf8_lossy(alloc, text)
}

/// Writes an answer: a line with the status, then the lines of each output.
fn push_answer(alloc: Global, out: &mut String, answer: &Answer) -> Result<(), AllocError> {
    let text = shown(alloc, &answer.out)?;
    let err = shown(alloc, &answer.err)?;
    write!(out, "status {}\n{text}{err}", answer.status)
}

impl Told {
    fn new(alloc: Global) -> Told {
        Told {
            name: String::new(alloc),
            bytes: Vec::new(alloc),
        }
    }
}

impl Due {
    fn new(alloc: Global) -> Due {
        Due {
            line: 0,
            command: Vec::new(alloc),
            answer: Answer::new(alloc),
        }
    }
}

impl Count {
    fn note(&mut self, alloc: Global, due: &Due, found: &Answer) -> Result<(), AllocError> {
        if *found == due.answer {
            self.passed = self.passed.saturating_add(1);
            return Ok(());
        }
        let command = shown(alloc, &due.command)?;
        write!(self.report, "line {}: {command}\nfound: ", due.line)?;
        push_answer(alloc, &mut self.report, found)?;
        self.report.push_str("told: ")?;
        push_answer(alloc, &mut self.report, &due.answer)
    }
}

impl Sheet {
    /// Puts the file that the last lines told, if any, among the held files.
    fn end_file(&mut self) -> Result<(), AllocError> {
        if !self.told.name.is_empty() {
            match self.held.write(self.told.name.as_str(), &self.told.bytes) {
                Ok(()) => {}
                Err(_) => return Err(AllocError),
            }
        }
        self.told = Told::new(self.alloc);
        Ok(())
    }

    /// Runs the command that the last lines told, if any, and counts its answer.
    fn end_command<R: Threads + Wait + Clock + Sync>(&mut self, rt: &R) -> Result<(), AllocError> {
        if !self.due.command.is_empty() {
            let words = words_of(self.alloc, &self.due.command)?;
            let found = answer_of(rt, self.alloc, words.as_slice(), &mut self.held)?;
            self.count.note(self.alloc, &self.due, &found)?;
        }
        self.due = Due::new(self.alloc);
        Ok(())
    }

    fn begin_file(&mut self, name: &[u8]) -> Result<(), AllocError> {
        self.end_file()?;
        self.told.name = shown(self.alloc, name)?;
        Ok(())
    }

    fn begin_command(&mut self, line: usize, command: &[u8]) -> Result<(), AllocError> {
        self.end_file()?;
        self.due.line = line;
        self.due.command.extend_from_slice(command)
    }

    /// Lines of a file that is there, as `NAME FIRST LAST` says.
    fn tell_lines(&mut self, told: &[u8]) -> Result<(), AllocError> {
        let (name, range) = cut(told);
        let (first, last) = cut(range);
        let name = shown(self.alloc, name)?;
        match self.held.read(name.as_str(), 20_000_000) {
            Ok(text) => push_lines(
                &mut self.told.bytes,
                &text,
                number_of(first),
                number_of(last),
            ),
            Err(_) => Ok(()),
        }
    }

    /// Takes up the text behind a mark: a file's or a command's name, a line of a file, or a line that is due to be written.
    fn tell(&mut self, line: usize, mark: &str, text: &[u8]) -> Result<(), AllocError> {
        match mark {
            "file" => self.begin_file(text),
            "$" => self.begin_command(line, text),
            "|" => push_line(&mut self.told.bytes, text),
            "|*" => push_often(self.alloc, &mut self.told.bytes, text),
            "|\\" => push_escaped(&mut self.told.bytes, text),
            "|<" => self.tell_lines(text),
            ">" => push_line(&mut self.due.answer.out, text),
            ">*" => push_often(self.alloc, &mut self.due.answer.out, text),
            ">\\" => push_escaped(&mut self.due.answer.out, text),
            "!" => push_line(&mut self.due.answer.err, text),
            "=" => {
                self.due.answer.status = u8::try_from(number_of(text)).unwrap_or(255);
                Ok(())
            }
            _ => Ok(()),
        }
    }

    fn take<R: Threads + Wait + Clock + Sync>(
        &mut self,
        rt: &R,
        line: usize,
        text: &[u8],
    ) -> Result<(), AllocError> {
        let (mark, text) = cut(text);
        let mark = from_utf8(mark).unwrap_or("");
        if mark == "$" || mark == "file" {
            self.end_command(rt)?;
        }
        self.tell(line, mark, text)
    }
}

/// Runs the cases of a file's text.
pub fn run<R: Threads + Wait + Clock + Sync>(
    rt: &R,
    alloc: Global,
    text: &[u8],
) -> Result<Count, AllocError> {
    let mut sheet = Sheet {
        alloc,
        held: Held::new(alloc),
        told: Told::new(alloc),
        due: Due::new(alloc),
        count: Count {
            passed: 0,
            report: String::new(alloc),
        },
    };
    for (at, line) in text.split(|byte| *byte == b'\n').enumerate() {
        sheet.take(rt, at.saturating_add(1), line)?;
    }
    sheet.end_command(rt)?;
    Ok(sheet.count)
}
