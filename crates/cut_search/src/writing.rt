//! Writes derivations: the lines of each slack that a sum needs, then the line of the sum.

use crate::stop::Stop;
use crate::tableau::{Origin, Part};
use cut_proof::{Derivation, Line};
use std::alloc::Global;

/// Marks the slacks of the parts.
fn mark_parts(needed: &mut Vec<bool>, parts: &[Part]) {
    for part in parts {
        if let Some(mark) = needed.get_mut(part.slack as usize) {
            *mark = true;
        }
    }
}

/// The slacks that the parts need, as a flag for each.
fn needed_by(alloc: Global, origins: &[Origin], parts: &[Part]) -> Result<Vec<bool>, Stop> {
    let mut needed = vec![in alloc; false; origins.len()]?;
    mark_parts(&mut needed, parts);
    for (place, origin) in origins.iter().enumerate().rev() {
        if let Origin::Cut(parts, _, _) = origin {
            if needed.get(place).copied() == Some(true) {
                mark_parts(&mut needed, parts.as_slice());
            }
        }
    }
    Ok(needed)
}

/// The parts with the lines that stand for their slacks.
fn weights_of(alloc: Global, numbers: &[u32], parts: &[Part]) -> Result<Vec<(i64, u32)>, Stop> {
    let mut weights = Vec::new(alloc);
    for part in parts {
        let Some(number) = numbers.get(part.slack as usize) else {
            return Err(Stop::GivenUp);
        };
        weights.push((part.weight, *number))?;
    }
    Ok(weights)
}

/// The number of the last line.
fn last_number(lines: &Vec<Line>) -> Result<u32, Stop> {
    match u32::try_from(lines.len()) {
        Ok(number) => Ok(number),
        Err(_) => Err(Stop::GivenUp),
    }
}

/// Divides the last line, unless by 1, and answers the number of the line that is then the last.
fn divide_last(lines: &mut Vec<Line>, divisor: i64) -> Result<u32, Stop> {
    let number = last_number(lines)?;
    if divisor == 1 {
        return Ok(number);
    }
    lines.push(Line::Div(divisor, number))?;
    last_number(lines)
}

/// Writes the lines of a slack, and answers the last one's number.
fn write_slack(
    alloc: Global,
    lines: &mut Vec<Line>,
    numbers: &[u32],
    origin: &Origin,
) -> Result<u32, Stop> {
    match origin {
        Origin::Given(number, divisor) => {
            lines.push(Line::Given(*number))?;
            divide_last(lines, *divisor)
        }
        Origin::Cut(parts, divisor, _) => {
            let weights = weights_of(alloc, numbers, parts.as_slice())?;
            lines.push(Line::Sum(weights))?;
            divide_last(lines, *divisor)
        }
        Origin::Guess => Err(Stop::GivenUp),
    }
}

/// A derivation without lemmas.
pub fn plain(alloc: Global, lines: Vec<Line>) -> Derivation {
    Derivation {
        lemmas: Vec::new(alloc),
        lines,
    }
}

/// The derivation of the sum of the parts.
pub fn derive(alloc: Global, origins: &[Origin], parts: &[Part]) -> Result<Derivation, Stop> {
    let needed = needed_by(alloc, origins, parts)?;
    let mut lines = Vec::new(alloc);
    let mut numbers: Vec<u32> = Vec::new(alloc);
    for (origin, is_needed) in origins.iter().zip(needed.iter()) {
        let number = if *is_needed {
            write_slack(alloc, &mut lines, numbers.as_slice(), origin)?
        } else {
            0
        };
        numbers.push(number)?;
    }
    let weights = weights_of(alloc, numbers.as_slice(), parts)?;
    lines.push(Line::Sum(weights))?;
    Ok(plain(alloc, lines))
}

/// The derivation that a fact alone is a contradiction.
pub fn derive_given(alloc: Global, number: u32) -> Result<Derivation, Stop> {
    let mut lines = Vec::new(alloc);
    lines.push(Line::Given(number))?;
    Ok(plain(alloc, lines))
}
