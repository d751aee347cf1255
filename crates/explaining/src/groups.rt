//! Possible findings of one cause, told as one.

use crate::causes::site_of;
use crate::hints::order_of;
use crate::paragraph::push_paragraph;
use crate::source::{push_label, push_site};
use crate::titles::{action, confirmed, meant};
use core_code::tree::Site;
use findings::{Finding, FindingKind};
use kernel_reading::Source;
use std::alloc::{AllocError, Global};

/// The most positions of a cause that are told.
const MOST: usize = 12;

/// A position of findings, and what is done there.
#[derive(Clone, Copy)]
struct Position {
    site: Option<Site>,
    label: &'static str,
}

/// Places in the order of the source; the end of the kernel stands last.
fn order(position: &Position) -> u64 {
    match position.site {
        Some(site) => order_of(site),
        None => u64::MAX,
    }
}

fn is_there(positions: &[Position], wanted: Position) -> bool {
    for position in positions {
        if position.site == wanted.site && position.label == wanted.label {
            return true;
        }
    }
    false
}

/// The positions of findings, each once, in the order of the source.
fn positions_of(alloc: Global, members: &[&Finding]) -> Result<Vec<Position>, AllocError> {
    let mut positions = Vec::new(alloc);
    for finding in members {
        for spot in finding.sites.iter() {
            let position = Position {
                site: site_of(*spot),
                label: action(finding.kind, *spot),
            };
            if !is_there(positions.as_slice(), position) {
                positions.push(position)?;
            }
        }
    }
    positions.sort_by_key(order)?;
    Ok(positions)
}

/// A kind of finding was there before the finding of a number.
fn is_told(members: &[&Finding], number: usize, kind: FindingKind) -> bool {
    for finding in members.iter().take(number) {
        if finding.kind == kind {
            return true;
        }
    }
    false
}

/// Writes what is possible, each kind once.
fn push_kinds(alloc: Global, members: &[&Finding], out: &mut String) -> Result<(), AllocError> {
    for (number, finding) in members.iter().enumerate() {
        let kind = finding.kind;
        if !is_told(members, number, kind) {
            let name = confirmed(kind);
            let meant = meant(kind);
            let text = format!(in alloc; "{name}: {meant}")?;
            push_paragraph(out, "   ", &text)?;
        }
    }
    Ok(())
}

/// Writes positions, each line of the source once.
fn push_positions(
    alloc: Global,
    kernel: &[u8],
    positions: &[Position],
    out: &mut String,
) -> Result<(), AllocError> {
    let mut line = 0;
    for position in positions.iter().take(MOST) {
        match position.site {
            Some(site) => {
                push_site(alloc, out, kernel, site, site.line == line, position.label)?;
                line = site.line;
            }
            None => push_label(out, position.label)?,
        }
    }
    Ok(())
}

/// Writes findings that are only possible and have one cause, behind an empty line: what is possible, and where.
pub fn push_group(
    alloc: Global,
    source: Source<'_>,
    number: usize,
    members: &[&Finding],
    out: &mut String,
) -> Result<(), AllocError> {
    let count = members.len();
    let title = format!(in alloc; "{number}. Of one cause, {count} possible findings:")?;
    out.push_str("\n")?;
    push_paragraph(out, "", &title)?;
    push_kinds(alloc, members, out)?;
    let positions = positions_of(alloc, members)?;
    push_positions(alloc, source.bytes, positions.as_slice(), out)?;
    let left = positions.len().saturating_sub(MOST);
    if left > 0 {
        let label = format!(in alloc; "and {left} more")?;
        push_label(out, &label)?;
    }
    Ok(())
}
