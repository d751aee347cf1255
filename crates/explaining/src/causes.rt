//! Possible findings of one cause: those that point at one statement, or depend on one value of which little is known.

use crate::hints::{Known, hints_of, order_of};
use crate::outlook::Outlook;
use crate::parts::terms_of;
use crate::vague::Vague;
use core_code::tree::{Site, Statement, Term};
use findings::{Finding, Grade, Spot};
use std::alloc::{AllocError, Global};

/// The cause of a finding: the statements at which it points, and the values of which little is known on which it
/// depends. A statement is told by its number, a value by its place, which is a greater one.
#[derive(Drop)]
struct Cause {
    keys: Vec<u64>,
    hints: Vec<Vague>,
}

/// The causes of findings, each with the number of the first finding that has the same.
#[derive(Drop)]
pub struct Causes {
    all: Vec<Cause>,
    labels: Vec<usize>,
}

/// The place of a spot; none for the end of the kernel.
pub fn site_of(spot: Spot) -> Option<Site> {
    match spot {
        Spot::Store(site) | Spot::Load(site) | Spot::Barrier(site) | Spot::At(site) => Some(site),
        Spot::End => None,
    }
}

fn is_at(term: &Term, wanted: Site) -> bool {
    match term {
        Term::Load { site, .. }
        | Term::Unary { site, .. }
        | Term::Binary { site, .. }
        | Term::Convert { site, .. }
        | Term::Within { site, .. } => *site == wanted,
        _ => false,
    }
}

/// A site stands in a statement that begins at another.
fn is_in(
    alloc: Global,
    statement: &Statement,
    begin: Site,
    wanted: Site,
) -> Result<bool, AllocError> {
    if begin == wanted {
        return Ok(true);
    }
    if let Statement::Store { site, .. } = statement {
        if *site == wanted {
            return Ok(true);
        }
    }
    let terms = terms_of(alloc, statement)?;
    for term in terms.iter() {
        if is_at(term, wanted) {
            return Ok(true);
        }
    }
    Ok(false)
}

impl Cause {
    /// Notes the statements in which a site stands.
    fn push_site(
        &mut self,
        alloc: Global,
        known: &Known<'_>,
        site: Site,
    ) -> Result<(), AllocError> {
        for (statement, begin) in known.statements.iter().zip(known.sites.iter()) {
            if is_in(alloc, statement, *begin, site)? {
                self.keys.push(statement.number() as u64)?;
            }
        }
        Ok(())
    }

    fn of(alloc: Global, known: &Known<'_>, finding: &Finding) -> Result<Cause, AllocError> {
        let mut cause = Cause {
            keys: Vec::new(alloc),
            hints: hints_of(alloc, known, finding)?,
        };
        for hint in cause.hints.iter() {
            cause.keys.push(order_of(hint.site))?;
        }
        for spot in finding.sites.iter() {
            if let Some(site) = site_of(*spot) {
                cause.push_site(alloc, known, site)?;
            }
        }
        Ok(cause)
    }

    /// The cause of what a replay confirms, or of what a line of the conditions shows, is not looked for.
    fn none(alloc: Global) -> Cause {
        Cause {
            keys: Vec::new(alloc),
            hints: Vec::new(alloc),
        }
    }

    fn is_like(&self, other: &Cause) -> bool {
        for key in self.keys.iter() {
            if other.keys.as_slice().contains(key) {
                return true;
            }
        }
        false
    }
}

fn cause_of(
    alloc: Global,
    known: &Known<'_>,
    finding: &Finding,
    outlook: Option<&Outlook>,
) -> Result<Cause, AllocError> {
    match finding.grade {
        Grade::Possible if !is_remedied(outlook, finding) => Cause::of(alloc, known, finding),
        Grade::Possible | Grade::Confirmed(_) => Ok(Cause::none(alloc)),
    }
}

/// A line of the conditions shows a finding.
pub fn is_remedied(outlook: Option<&Outlook>, finding: &Finding) -> bool {
    match outlook {
        Some(outlook) => outlook.has_remedy(finding),
        None => false,
    }
}

/// A line of the conditions is needed to show both.
fn are_joined(outlook: Option<&Outlook>, one: &Finding, other: &Finding) -> bool {
    match outlook {
        Some(outlook) => outlook.are_joined(one, other),
        None => false,
    }
}

impl Causes {
    /// The causes of findings, each by itself.
    fn apart(
        alloc: Global,
        known: &Known<'_>,
        findings: &[&Finding],
        outlook: Option<&Outlook>,
    ) -> Result<Causes, AllocError> {
        let mut causes = Causes {
            all: Vec::new(alloc),
            labels: Vec::new(alloc),
        };
        for (number, finding) in findings.iter().enumerate() {
            causes.all.push(cause_of(alloc, known, finding, outlook)?)?;
            causes.labels.push(number)?;
        }
        Ok(causes)
    }

    fn are_alike(&self, one: usize, other: usize) -> bool {
        match (self.all.get(one), self.all.get(other)) {
            (Some(one), Some(other)) => one.is_like(other),
            _ => false,
        }
    }

    /// The first finding that has the cause of that one.
    pub fn label(&self, number: usize) -> usize {
        self.labels.get(number).copied().unwrap_or(number)
    }

    /// Two findings have one cause, and so have all that are told with them.
    fn join(&mut self, one: usize, other: usize) {
        let one = self.label(one);
        let other = self.label(other);
        let first = if one < other { one } else { other };
        for label in self.labels.iter_mut() {
            if *label == one || *label == other {
                *label = first;
            }
        }
    }

    /// The causes of findings, of which those that are alike, or need one line of the conditions, are told as one.
    pub fn of(
        alloc: Global,
        known: &Known<'_>,
        findings: &[&Finding],
        outlook: Option<&Outlook>,
    ) -> Result<Causes, AllocError> {
        let mut causes = Causes::apart(alloc, known, findings, outlook)?;
        for one in 0..findings.len() {
            for other in 0..one {
                if are_joined(outlook, findings[one], findings[other])
                    || causes.are_alike(one, other)
                {
                    causes.join(one, other);
                }
            }
        }
        Ok(causes)
    }

    /// The values of which little is known, on which the findings of a cause depend.
    pub fn hints(&self, alloc: Global, label: usize) -> Result<Vec<Vague>, AllocError> {
        let mut hints = Vec::new(alloc);
        for (number, cause) in self.all.iter().enumerate() {
            if self.label(number) == label {
                hints.extend_from_slice(cause.hints.as_slice())?;
            }
        }
        Ok(hints)
    }
}
