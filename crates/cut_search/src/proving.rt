//! Derivations with products and lemmas, made of lines over what is in a pool.

use crate::multiplying::Source;
use crate::stop::Stop;
use crate::writing::plain;
use cut_proof::{Derivation, Lemma, Line};
use std::alloc::{AllocError, Global};

/// A line that says a fact, by the fact's number.
#[derive(Clone, Copy)]
struct Said {
    fact: u32,
    line: u32,
}

/// Lines over facts and lemmas, as they are written.
#[derive(Drop)]
struct Writing {
    lines: Vec<Line>,
    said: Vec<Said>,
}

impl Writing {
    /// Adds a line, and answers its number.
    fn push(&mut self, line: Line) -> Result<u32, Stop> {
        self.lines.push(line)?;
        match u32::try_from(self.lines.len()) {
            Ok(number) => Ok(number),
            Err(_) => Err(Stop::GivenUp),
        }
    }

    /// The line of a fact, written where it is not yet.
    fn fact(&mut self, fact: u32) -> Result<u32, Stop> {
        for said in self.said.as_slice() {
            if said.fact == fact {
                return Ok(said.line);
            }
        }
        let line = self.push(Line::Given(fact))?;
        self.said.push(Said { fact, line })?;
        Ok(line)
    }

    /// The line of what a source is.
    fn source(&mut self, source: Source) -> Result<u32, Stop> {
        let first = self.fact(source.first)?;
        if source.second == 0 {
            return Ok(first);
        }
        let second = self.fact(source.second)?;
        self.push(Line::Product(first, second))
    }
}

/// The number of the line that stands for another one.
fn number_at(numbers: &[u32], line: u32) -> Result<u32, Stop> {
    match numbers.get((line as usize).saturating_sub(1)) {
        Some(number) => Ok(*number),
        None => Err(Stop::GivenUp),
    }
}

/// The parts of a sum with the lines that stand for theirs, in rising order.
fn parts_over(
    alloc: Global,
    parts: &[(i64, u32)],
    numbers: &[u32],
) -> Result<Vec<(i64, u32)>, Stop> {
    let mut found: Vec<(i64, u32)> = Vec::new(alloc);
    for part in parts {
        let line = number_at(numbers, part.1)?;
        let at = found.as_slice().partition_point(|other| other.1 < line);
        found.insert(at.min(found.len()), (part.0, line))?;
    }
    Ok(found)
}

/// Writes a line over a pool, and answers the number of the line that stands for it.
fn write(
    alloc: Global,
    writing: &mut Writing,
    line: &Line,
    numbers: &[u32],
    sources: &[Source],
) -> Result<u32, Stop> {
    match line {
        Line::Given(number) => match sources.get((*number as usize).saturating_sub(1)) {
            Some(source) => writing.source(*source),
            None => Err(Stop::GivenUp),
        },
        Line::Sum(parts) => {
            let parts = parts_over(alloc, parts.as_slice(), numbers)?;
            writing.push(Line::Sum(parts))
        }
        Line::Div(divisor, line) => {
            let line = number_at(numbers, *line)?;
            writing.push(Line::Div(*divisor, line))
        }
        Line::Product(_, _) => Err(Stop::GivenUp),
    }
}

/// The lines over facts and lemmas that lines over a pool are, of which each form is one of these or the product of two.
pub fn over_known(alloc: Global, lines: &[Line], sources: &[Source]) -> Result<Vec<Line>, Stop> {
    let mut writing = Writing {
        lines: Vec::new(alloc),
        said: Vec::new(alloc),
    };
    let mut numbers: Vec<u32> = Vec::new(alloc);
    for line in lines {
        let number = write(alloc, &mut writing, line, numbers.as_slice(), sources)?;
        numbers.push(number)?;
    }
    Ok(writing.lines)
}

/// Marks the lemmas that lines use, which count on behind so many facts.
fn mark_used(used: &mut Vec<bool>, count: usize, lines: &[Line]) {
    for line in lines {
        if let Line::Given(number) = line {
            let place = (*number as usize).checked_sub(count.saturating_add(1));
            if let Some(mark) = place.and_then(|place| used.get_mut(place)) {
                *mark = true;
            }
        }
    }
}

/// The lemmas that the last lines need, those that lemmas need among them.
fn needed(
    alloc: Global,
    count: usize,
    lemmas: &[Lemma],
    lines: &[Line],
) -> Result<Vec<bool>, AllocError> {
    let mut used = vec![in alloc; false; lemmas.len()]?;
    mark_used(&mut used, count, lines);
    for (place, lemma) in lemmas.iter().enumerate().rev() {
        if used.get(place).copied() == Some(true) {
            mark_used(&mut used, count, lemma.lines.as_slice());
        }
    }
    Ok(used)
}

/// The number of each lemma among those that are needed, which count on behind so many facts.
fn numbers_of(alloc: Global, count: usize, used: &[bool]) -> Result<Vec<u32>, AllocError> {
    let mut next = u32::try_from(count).unwrap_or(u32::MAX);
    let mut numbers = Vec::new(alloc);
    for is_used in used {
        if *is_used {
            next = next.saturating_add(1);
        }
        numbers.push(next)?;
    }
    Ok(numbers)
}

/// Has lines name lemmas by their new numbers.
fn renumber(lines: &mut Vec<Line>, count: usize, numbers: &[u32]) {
    for line in lines.iter_mut() {
        if let Line::Given(number) = line {
            let place = (*number as usize).checked_sub(count.saturating_add(1));
            if let Some(new) = place.and_then(|place| numbers.get(place)) {
                *number = *new;
            }
        }
    }
}

/// The lemmas that are needed, and lines that refute with them.
pub fn finished(
    alloc: Global,
    count: usize,
    lemmas: Vec<Lemma>,
    lines: Vec<Line>,
) -> Result<Derivation, Stop> {
    let used = needed(alloc, count, lemmas.as_slice(), lines.as_slice())?;
    let numbers = numbers_of(alloc, count, used.as_slice())?;
    let mut derivation = plain(alloc, lines);
    renumber(&mut derivation.lines, count, numbers.as_slice());
    for (mut lemma, is_used) in lemmas.into_iter().zip(used.iter()) {
        if *is_used {
            renumber(&mut lemma.lines, count, numbers.as_slice());
            derivation.lemmas.push(lemma)?;
        }
    }
    Ok(derivation)
}
