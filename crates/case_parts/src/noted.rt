// The places of kernels, and what certificates say of them.

use certificate::Certificate;
use certificate_notes::notes_of;
use kernel_names::site_at;
use loop_bounds::{Bound, cost, turns};
use obligations::{Lines, Notes};
use places::{Place, Point, places};
use std::alloc::{AllocError, Global};
use typed_kernels::Typed;

/// The number of a point's statement, 0 where there is none.
fn name(point: &Option<Point<'_>>) -> u32 {
    match point {
        None => 0,
        Some(point) => point.statement.number(),
    }
}

/// The loops that have been turned, or that they are not always the same.
fn push_turns(out: &mut String, turns: &Option<Vec<u32>>) -> Result<(), AllocError> {
    let Some(turns) = turns else {
        return out.push_str(", turns unlike\n");
    };
    out.push_str(", turns of")?;
    for turn in turns {
        write!(out, " {turn}")?;
    }
    out.push_str("\n")
}

fn push_place(out: &mut String, place: &Place<'_>) -> Result<(), AllocError> {
    write!(
        out,
        "barrier {}, loop {}",
        name(&place.anchor),
        name(&place.head)
    )?;
    push_turns(out, &place.turns)
}

fn push_places(out: &mut String, places: &[Place<'_>]) -> Result<(), AllocError> {
    for place in places {
        push_place(out, place)?;
    }
    Ok(())
}

/// Writes the barrier and the loop of a place's notes (0 where there is none), the slots that are alike, and the constant of each fact.
fn push_lines(out: &mut String, lines: &Lines) -> Result<(), AllocError> {
    write!(
        out,
        "barrier {}, loop {}: same",
        lines.anchor.unwrap_or(0),
        lines.head.unwrap_or(0)
    )?;
    for slot in &lines.same {
        write!(out, " {slot}")?;
    }
    out.push_str(", facts")?;
    for fact in &lines.facts {
        write!(out, " {}", fact.constant_part())?;
    }
    out.push_str("\n")
}

fn push_bound(out: &mut String, number: u32, bound: &Bound) -> Result<(), AllocError> {
    match bound {
        Bound::Down { most, .. } => write!(out, "loop {number} down from {most}")?,
        Bound::Halving { most, .. } => write!(out, "loop {number} halves from {most}")?,
        Bound::Doubling { least, most, .. } => {
            let least = least.number();
            write!(out, "loop {number} doubles from {least} to {most}")?
        }
    }
    writeln!(out, ", {} turns", turns(bound))
}

/// How many steps a work-item takes at most.
fn push_cost(out: &mut String, typed: &Typed, notes: &Notes) -> Result<(), AllocError> {
    match cost(typed.core(), notes.rankings.as_slice()) {
        Ok(steps) => writeln!(out, "{steps} steps"),
        Err(error) => writeln!(out, "refused {error}"),
    }
}

fn push_notes(out: &mut String, notes: &Notes) -> Result<(), AllocError> {
    for lines in &notes.places {
        push_lines(out, lines)?;
    }
    for ranking in &notes.rankings {
        push_bound(out, ranking.number, &ranking.bound)?;
    }
    Ok(())
}

fn push_named(
    alloc: Global,
    out: &mut String,
    typed: &Typed,
    places: &[Place<'_>],
    certificate: &Certificate,
) -> Result<(), AllocError> {
    match notes_of(alloc, typed, places, certificate) {
        Ok(Some(notes)) => {
            push_notes(out, &notes)?;
            push_cost(out, typed, &notes)
        }
        Ok(None) => out.push_str("names what the kernel lacks\n"),
        Err(error) => writeln!(out, "refused {}", error.number()),
    }
}

fn push_said(
    alloc: Global,
    out: &mut String,
    typed: &Typed,
    places: &[Place<'_>],
    text: &[u8],
) -> Result<(), AllocError> {
    match certificate::read_any(alloc, text) {
        Ok(certificate) => push_named(alloc, out, typed, places, &certificate),
        Err(error) => writeln!(out, "refused {}", error.number()),
    }
}

/// The places of a kernel, by the numbers of their barriers and loops, or what a certificate says of its places and loops.
pub fn push_placed(
    alloc: Global,
    out: &mut String,
    typed: &Typed,
    certificate: Option<&[u8]>,
) -> Result<(), AllocError> {
    match places(alloc, typed.core()) {
        Ok(places) => match certificate {
            Some(text) => push_said(alloc, out, typed, places.as_slice(), text),
            None => push_places(out, places.as_slice()),
        },
        Err(error) => writeln!(out, "refused {}", error.number()),
    }
}

/// Writes the line and the column at which the statement of a number begins; the kernel's, where there is no such statement.
pub fn push_site(out: &mut String, typed: &Typed, number: Option<u32>) -> Result<(), AllocError> {
    let site = site_at(typed.names(), number);
    writeln!(out, "{}:{}", site.line, site.column)
}
