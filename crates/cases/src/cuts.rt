// Lists of facts, for each of which a derivation is looked for, among those that were found before too. With a second word, a number, each
// list is searched so often, and of each are told the lines of its derivation, its largest weight, the least nanoseconds, and those with
// all facts but the last prepared. `bench/measure/cut_search.py` measures it.
//
// A line of a file is `kernel NAME`, `fact CONSTANT`, then each term as `COEFFICIENT SYMBOL`, or `search`, then each run of facts as
// `FIRST LAST`. Facts are counted from 1 in each kernel.

use cut_proof::Line;
use cut_search::{Answer, Memory, Start};
use linear::{Fact, Form, LinearError, Symbol};
use std::alloc::{AllocError, Global};
use std::time::Instant;
use std::{env, fs, io};

/// How many lists have which answer.
#[derive(Drop)]
struct Counts {
    proofs: u32,
    models: u32,
    undecided: u32,
}

fn number_of(word: Option<&str>) -> i64 {
    match word {
        Some(text) => text.parse::<i64>().unwrap_or(0),
        None => 0,
    }
}

fn read_fact(alloc: Global, line: &str) -> Result<Fact, LinearError> {
    let mut words = line.split_whitespace();
    let _fact = words.next();
    let mut form = Form::constant(alloc, number_of(words.next()));
    for _ in 0..line.len() {
        let Some(coefficient) = words.next() else {
            break;
        };
        let number = u64::try_from(number_of(words.next())).unwrap_or(0);
        let term = Form::symbol(alloc, Symbol { number })?.times(
            alloc,
            number_of(Some(coefficient)),
        )?;
        form = form.add(alloc, &term)?;
    }
    Ok(form)
}

fn read_list(alloc: Global, facts: &Vec<Fact>, line: &str) -> Result<Vec<Fact>, AllocError> {
    let mut words = line.split_whitespace();
    let _search = words.next();
    let mut list = Vec::new(alloc);
    for _ in 0..line.len() {
        let Some(first) = words.next() else {
            break;
        };
        let last = number_of(words.next());
        for number in number_of(Some(first))..last.saturating_add(1) {
            let place = usize::try_from(number.saturating_sub(1)).unwrap_or(0);
            if let Some(fact) = facts.get(place) {
                list.push(fact.copy(alloc)?)?;
            }
        }
    }
    Ok(list)
}

fn count(counts: &mut Counts, answer: &Answer) {
    match answer {
        Answer::Proof(_) => counts.proofs = counts.proofs.saturating_add(1),
        Answer::Model(_) => counts.models = counts.models.saturating_add(1),
        Answer::Undecided => counts.undecided = counts.undecided.saturating_add(1),
    }
}

/// The lines of a derivation, 0 where there is none, and its largest weight.
fn size_of_answer(answer: &Answer) -> (usize, i64) {
    match answer {
        Answer::Proof(derivation) => (
            derivation.lines.len(),
            derivation
                .lines
                .iter()
                .map(largest_weight)
                .max()
                .unwrap_or(0),
        ),
        _ => (0, 0),
    }
}

fn largest_weight(line: &Line) -> i64 {
    match line {
        Line::Sum(parts) => parts.iter().map(|part| part.0).max().unwrap_or(0),
        _ => 0,
    }
}

/// The least nanoseconds of a search that begins with so many facts prepared.
fn nanoseconds(rt: &HostRuntime, list: &[Fact], common: usize, rounds: i64) -> io::Result<u128> {
    let (first, _) = list.split_at(common.min(list.len()));
    let prepared = Start::prepare(rt.alloc(), first)?;
    let mut least = u128::MAX;
    for _ in 0..rounds {
        let start = Instant::now(rt)?;
        let _answer = prepared.search(rt.alloc(), list)?;
        least = least.min(start.elapsed(rt)?.as_nanos());
    }
    Ok(least)
}

fn print_measures(rt: &HostRuntime, list: &[Fact], answer: &Answer, rounds: i64) -> io::Result<()> {
    let alone = nanoseconds(rt, list, 0, rounds)?;
    let shared = nanoseconds(rt, list, list.len().saturating_sub(1), rounds)?;
    let (lines, weight) = size_of_answer(answer);
    println!(rt; "{lines} {weight} {alone} {shared}")
}

/// The answer of a list, counted.
fn search_list(
    rt: &HostRuntime,
    list: &[Fact],
    rounds: i64,
    memory: &mut Memory,
    counts: &mut Counts,
) -> io::Result<()> {
    let answer = memory.ask(rt.alloc(), list)?;
    count(counts, &answer);
    if rounds > 0 {
        print_measures(rt, list, &answer, rounds)?;
    }
    Ok(())
}

/// Takes up a line of the file: a kernel begins, a fact is one more, and a list of facts is searched.
fn take(
    rt: &HostRuntime,
    line: &str,
    facts: &mut Vec<Fact>,
    rounds: i64,
    memory: &mut Memory,
    counts: &mut Counts,
) -> io::Result<()> {
    if line.starts_with("kernel") {
        facts.clear();
    } else if line.starts_with("fact") {
        if let Ok(fact) = read_fact(rt.alloc(), line) {
            facts.push(fact)?;
        }
    } else {
        let list = read_list(rt.alloc(), facts, line)?;
        search_list(rt, list.as_slice(), rounds, memory, counts)?;
    }
    Ok(())
}

fn search_all(rt: &HostRuntime, text: &str, rounds: i64) -> io::Result<()> {
    let mut counts = Counts {
        proofs: 0,
        models: 0,
        undecided: 0,
    };
    let mut facts: Vec<Fact> = Vec::new(rt.alloc());
    let mut memory = Memory::new(rt.alloc(), false);
    for line in text.lines() {
        take(rt, line, &mut facts, rounds, &mut memory, &mut counts)?;
    }
    println!(rt;
        "{} proofs, {} models, {} undecided, {} searches",
        counts.proofs,
        counts.models,
        counts.undecided,
        memory.searches()
    )
}

/// How many lists of a file have which answer, and how many searches that took.
pub fn run(rt: &HostRuntime, words: &mut env::Args) -> io::Result<bool> {
    let Some(file) = words.next() else {
        return Ok(false);
    };
    let rounds = match words.next() {
        Some(word) => number_of(Some(word.as_str())),
        None => 0,
    };
    let text = fs::read_to_string(rt, file.as_str())?;
    search_all(rt, text.as_str(), rounds)?;
    Ok(true)
}
