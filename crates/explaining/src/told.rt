//! All findings, told by their causes.

use crate::causes::Causes;
use crate::finding::{Subject, push_finding};
use crate::groups::push_group;
use crate::hints::{Known, OwnNames, push_hints};
use crate::meaning::{ADVICE, ENOUGH, OVER, POSSIBLE};
use crate::outlook::{Outlook, own_names, push_remedies};
use crate::paragraph::push_paragraph;
use findings::{Finding, Grade};
use launch_text::read_conditions_as;
use shown_kernels::kernel::read_proper_kernel;
use std::alloc::{AllocError, Global};
use typed_kernels::Typed;

fn is_possible(finding: &Finding) -> bool {
    matches!(finding.grade, Grade::Possible)
}

/// The findings of a cause.
fn members<'f>(
    alloc: Global,
    findings: &[&'f Finding],
    causes: &Causes,
    label: usize,
) -> Result<Vec<&'f Finding>, AllocError> {
    let mut members = Vec::new(alloc);
    for (place, finding) in findings.iter().enumerate() {
        if causes.label(place) == label {
            members.push(*finding)?;
        }
    }
    Ok(members)
}

/// What is told of findings: the texts, the names of the kernel's arguments, variables and buffers, the causes, and what a further search
/// leaves.
#[derive(Drop)]
struct Telling<'a> {
    subject: Subject<'a>,
    names: OwnNames<'a>,
    causes: Causes,
    outlook: Option<&'a Outlook>,
}

/// What is written of findings: how many paragraphs, and whether values were told on which some depend.
#[derive(Clone, Copy)]
struct Told {
    count: usize,
    has_hints: bool,
}

impl Told {
    /// Writes the values on which the findings of a cause depend.
    fn push_hints(
        self,
        alloc: Global,
        telling: &Telling<'_>,
        label: usize,
        out: &mut String,
    ) -> Result<Told, AllocError> {
        let hints = telling.causes.hints(alloc, label)?;
        if hints.is_empty() {
            return Ok(self);
        }
        push_hints(
            alloc,
            telling.subject.source.bytes,
            &telling.names,
            hints.as_slice(),
            !self.has_hints,
            out,
        )?;
        Ok(Told {
            has_hints: true,
            ..self
        })
    }

    /// Writes the findings of a cause, one as any other, and several as one; of those that lines of the conditions show, the first.
    fn push_members(
        self,
        alloc: Global,
        telling: &Telling<'_>,
        members: &[&Finding],
        out: &mut String,
    ) -> Result<Told, AllocError> {
        let subject = telling.subject;
        let number = self.count.saturating_add(1);
        match (telling.outlook, members) {
            (Some(outlook), [finding, ..]) if outlook.has_remedy(*finding) => {
                push_finding(alloc, subject, number, finding, out)?;
                push_remedies(alloc, outlook, members, out)?;
            }
            (_, [finding]) => push_finding(alloc, subject, number, finding, out)?,
            _ => push_group(alloc, subject.source, number, members, out)?,
        }
        Ok(Told {
            count: number,
            ..self
        })
    }
}

/// Writes all findings, those of one cause together, with the values on which they depend.
fn push_causes(
    alloc: Global,
    subject: Subject,
    typed: &Typed,
    findings: &[&Finding],
    outlook: Option<&Outlook>,
    known: &Known<'_>,
    out: &mut String,
) -> Result<(), AllocError> {
    let telling = Telling {
        subject,
        names: own_names(alloc, typed)?,
        causes: Causes::of(alloc, known, findings, outlook)?,
        outlook,
    };
    let mut told = Told {
        count: 0,
        has_hints: false,
    };
    for label in 0..findings.len() {
        let members = members(alloc, findings, &telling.causes, label)?;
        if !members.is_empty() {
            told = told.push_members(alloc, &telling, members.as_slice(), out)?;
            told = told.push_hints(alloc, &telling, label, out)?;
        }
    }
    Ok(())
}

/// Writes all findings, with the kernel as it is read.
fn push_known(
    alloc: Global,
    subject: Subject,
    typed: &Typed,
    findings: &[&Finding],
    outlook: Option<&Outlook>,
    out: &mut String,
) -> Result<(), AllocError> {
    match read_conditions_as(alloc, typed, subject.conditions, true) {
        Ok(conditions) => {
            let known = Known::of(alloc, typed, &conditions)?;
            push_causes(alloc, subject, typed, findings, outlook, &known, out)
        }
        Err(_) => Err(AllocError),
    }
}

/// A replay confirms a finding that says the same.
fn is_confirmed(findings: &[Finding], finding: &Finding) -> bool {
    for other in findings {
        if !is_possible(other) && other.is_like(finding) {
            return true;
        }
    }
    false
}

/// Adds what a further search leaves, but for what a replay confirms.
fn push_left<'a>(
    findings: &[Finding],
    outlook: &'a Outlook,
    told: &mut Vec<&'a Finding>,
) -> Result<(), AllocError> {
    for finding in outlook.left.iter() {
        if !is_confirmed(findings, finding) {
            told.push(finding)?;
        }
    }
    Ok(())
}

/// The findings that are told: those that are there, or, where a further search was made, what that leaves, with what a replay confirms in
/// front.
fn told_of<'a>(
    alloc: Global,
    findings: &'a [Finding],
    outlook: Option<&'a Outlook>,
) -> Result<Vec<&'a Finding>, AllocError> {
    let mut told = Vec::new(alloc);
    for finding in findings {
        if outlook.is_none() || !is_possible(finding) {
            told.push(finding)?;
        }
    }
    if let Some(outlook) = outlook {
        push_left(findings, outlook, &mut told)?;
    }
    Ok(told)
}

/// The number of findings that are not told, as a further search shows them; none where it did not look at all.
fn count_shown(findings: &[Finding], outlook: Option<&Outlook>) -> usize {
    let mut count: usize = 0;
    if let Some(outlook) = outlook {
        for finding in findings {
            if outlook.is_whole && is_possible(finding) && !outlook.has(finding) {
                count = count.saturating_add(1);
            }
        }
    }
    count
}

/// Writes how many findings are not told.
fn push_shown(alloc: Global, count: usize, out: &mut String) -> Result<(), AllocError> {
    if count == 0 {
        return Ok(());
    }
    out.push_str("\n")?;
    let text = if count == 1 {
        format!(in alloc; "Of these lines {count} is not told below: the wide walk shows it.")?
    } else {
        format!(in alloc; "Of these lines {count} are not told below: the wide walk shows them.")?
    };
    push_paragraph(out, "", &text)
}

/// The text on the lines that help, where a certificate is found with them.
fn said_of(outlook: Option<&Outlook>) -> Option<&'static str> {
    let outlook = outlook?;
    if !outlook.is_enough {
        None
    } else if outlook.is_over {
        Some(OVER)
    } else {
        Some(ENOUGH)
    }
}

/// Writes what to do about findings that are only possible.
fn push_advice(
    findings: &[&Finding],
    outlook: Option<&Outlook>,
    out: &mut String,
) -> Result<(), AllocError> {
    let said = said_of(outlook);
    if let Some(said) = said {
        out.push_str("\n")?;
        push_paragraph(out, "", said)?;
    }
    if findings.iter().any(|finding| is_possible(*finding)) {
        out.push_str("\n")?;
        push_paragraph(out, "", if said.is_some() { POSSIBLE } else { ADVICE })?;
    }
    Ok(())
}

/// All findings, and what to do about those that are only possible.
pub fn push_findings(
    alloc: Global,
    subject: Subject,
    findings: &[Finding],
    outlook: Option<&Outlook>,
    out: &mut String,
) -> Result<(), AllocError> {
    if findings.is_empty() {
        return Ok(());
    }
    push_shown(alloc, count_shown(findings, outlook), out)?;
    let told = told_of(alloc, findings, outlook)?;
    match read_proper_kernel(alloc, subject.source) {
        Ok(typed) => push_known(alloc, subject, &typed, told.as_slice(), outlook, out)?,
        Err(_) => return Err(AllocError),
    }
    push_advice(told.as_slice(), outlook, out)
}
