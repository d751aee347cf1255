//! What a search leaves of a kernel, and lines of the conditions by which it leaves less.

use crate::hints::{Known, OwnNames};
use crate::names::names_of;
use crate::paragraph::push_paragraph;
use crate::proposals::{Proposed, lines_for};
use crate::source::push_label;
use crate::titles::possible;
use findings::{Finding, FindingKind, Spot};
use kernel_reading::{Source, read_source};
use launch_text::read_conditions_as;
use std::alloc::{AllocError, Global};
use typed_kernels::Typed;

/// The most findings that are told by their places alone.
const MOST: usize = 12;

/// A line of the conditions that may help, whether it is of conditions of version 2, and the numbers of the findings for which it is there.
#[derive(Drop)]
pub struct Proposal {
    pub line: String,
    pub is_of_two: bool,
    pub of: Vec<usize>,
}

/// A line of the conditions that is needed to show findings, by their numbers among those that a search leaves, and whether it is of
/// conditions of version 2.
#[derive(Drop)]
pub struct Remedy {
    pub line: String,
    pub is_of_two: bool,
    pub shows: Vec<usize>,
}

/// What a search leaves, and whether that is all of it; the lines with which it leaves less, whether it finds a certificate with them, and
/// whether that passes the budget.
#[derive(Drop)]
pub struct Outlook {
    pub left: Vec<Finding>,
    pub is_whole: bool,
    pub remedies: Vec<Remedy>,
    pub is_enough: bool,
    pub is_over: bool,
}

/// The names of a kernel's arguments and variables, by their slots, and of its buffers.
pub fn own_names<'a>(alloc: Global, typed: &'a Typed) -> Result<OwnNames<'a>, AllocError> {
    let names = names_of(alloc, typed.names())?;
    let mut variables = Vec::new(alloc);
    for named in names.variables.iter() {
        variables.push(named.name)?;
    }
    Ok(OwnNames {
        variables,
        buffers: names.buffers,
    })
}

/// Lines of the conditions that may help with findings, with the kernel as it is read.
fn proposed(
    alloc: Global,
    typed: &Typed,
    conditions: &[u8],
    findings: &[Finding],
) -> Result<Vec<Proposal>, AllocError> {
    let Ok(conditions) = read_conditions_as(alloc, typed, conditions, true) else {
        return Err(AllocError);
    };
    let mut proposals = Vec::new(alloc);
    let known = Known::of(alloc, typed, &conditions)?;
    let names = own_names(alloc, typed)?;
    let lines = lines_for(alloc, &known, findings)?;
    for proposed in lines {
        let Proposed { line, of } = proposed;
        let mut text = String::new(alloc);
        line.push(&names, &mut text)?;
        proposals.push(Proposal {
            line: text,
            is_of_two: line.is_of_two(),
            of,
        })?;
    }
    Ok(proposals)
}

/// Lines of the conditions that may help with findings: ranges of arguments, lengths, requirements, and what buffers hold. The kernel and
/// the conditions are read.
pub fn propose(
    alloc: Global,
    source: Source<'_>,
    conditions: &[u8],
    findings: &[Finding],
) -> Result<Vec<Proposal>, AllocError> {
    match read_source(alloc, source) {
        Ok(typed) => proposed(alloc, &typed, conditions, findings),
        Err(_) => Err(AllocError),
    }
}

impl Outlook {
    /// The line is needed to show a finding.
    fn helps(&self, remedy: &Remedy, finding: &Finding) -> bool {
        for number in remedy.shows.iter() {
            if let Some(other) = self.left.get(*number) {
                if other.is_like(finding) {
                    return true;
                }
            }
        }
        false
    }

    /// Some line is needed to show a finding.
    pub fn has_remedy(&self, finding: &Finding) -> bool {
        self.remedies
            .iter()
            .any(|remedy| self.helps(remedy, finding))
    }

    /// Some line is needed to show either.
    pub fn are_joined(&self, one: &Finding, other: &Finding) -> bool {
        self.remedies.iter().any(|remedy| self.helps(remedy, one) && self.helps(remedy, other))
    }

    /// The finding is among those that are left.
    pub fn has(&self, finding: &Finding) -> bool {
        self.left.iter().any(|other| other.is_like(finding))
    }

    /// Some of these findings need the line.
    fn is_wanted(&self, remedy: &Remedy, members: &[&Finding]) -> bool {
        members.iter().any(|finding| self.helps(remedy, *finding))
    }
}

/// Writes where a finding is.
fn push_places(finding: &Finding, text: &mut String) -> Result<(), AllocError> {
    let mut is_begun = false;
    for spot in finding.sites.iter() {
        text.push_str(if is_begun { " and " } else { " at " })?;
        is_begun = true;
        match spot {
            Spot::Store(site) | Spot::Load(site) | Spot::Barrier(site) | Spot::At(site) => {
                write!(text, "{}:{}", site.line, site.column)?;
            }
            Spot::End => text.push_str("the end")?,
        }
    }
    Ok(())
}

/// Writes which findings are ruled out with another one.
fn push_followers(alloc: Global, members: &[&Finding], out: &mut String) -> Result<(), AllocError> {
    let mut text = String::from_str(alloc, "with that, so is what follows from it:")?;
    let mut before: Option<FindingKind> = None;
    for finding in members.iter().take(MOST) {
        if before.is_some() {
            text.push_str(",")?;
        }
        if before != Some(finding.kind) {
            text.push_str(" ")?;
            text.push_str(possible(finding.kind))?;
        }
        before = Some(finding.kind);
        push_places(finding, &mut text)?;
    }
    let left = members.len().saturating_sub(MOST);
    if left > 0 {
        write!(text, ", and {left} more")?;
    }
    push_paragraph(out, "     = ", &text)
}

/// Writes the lines with which the first of some findings is ruled out, and which others are with it.
pub fn push_remedies(
    alloc: Global,
    outlook: &Outlook,
    members: &[&Finding],
    out: &mut String,
) -> Result<(), AllocError> {
    let is_of_two = outlook.remedies.iter().any(|remedy| remedy.is_of_two
        && outlook.is_wanted(remedy, members));
    push_label(
        out,
        if is_of_two {
            "ruled out if the conditions, of version 2, say"
        } else {
            "ruled out if the conditions say"
        },
    )?;
    for remedy in outlook.remedies.iter() {
        if outlook.is_wanted(remedy, members) {
            out.push_str("     =   ")?;
            out.push_str(&remedy.line)?;
            out.push_str("\n")?;
        }
    }
    match members {
        [_, others @ ..] if !others.is_empty() => push_followers(alloc, others, out),
        _ => Ok(()),
    }
}
