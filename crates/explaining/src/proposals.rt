//! Lines of the conditions by which what was not shown may be shown. Nothing says that they do: a search tries them.

use crate::causes::site_of;
use crate::condition_line::Line;
use crate::given::Unbounded;
use crate::hints::{Known, hints_of};
use crate::parts::terms_of;
use crate::reaches::Reaches;
use crate::sums::Sum;
use core_code::tree::{Array, Operator, Site, Space, Statement, Term};
use findings::{Finding, FindingKind};
use std::alloc::{AllocError, Global};
use words::Fault;

/// The most lines that are proposed.
const MOST: usize = 6;

/// The greatest number of a size.
const LARGEST: i64 = 4_294_967_295;

/// The greatest number of an `int`.
const GREATEST: i64 = 2_147_483_647;

/// A line, and the findings for which it is proposed, by their numbers.
#[derive(Drop)]
pub struct Proposed {
    pub line: Line,
    pub of: Vec<usize>,
}

/// Lines that are proposed, each once, and the number of the finding that is looked at.
#[derive(Drop)]
struct Proposals<'a> {
    known: &'a Known<'a>,
    lines: Vec<Proposed>,
    finding: usize,
}

/// An access of a site: the array and the index.
fn access_at<'a>(
    alloc: Global,
    statement: &'a Statement,
    wanted: Site,
) -> Result<Option<(Array, &'a Term)>, AllocError> {
    if let Statement::Store {
        array,
        site,
        index,
        ..
    } = statement
    {
        if *site == wanted {
            return Ok(Some((*array, index)));
        }
    }
    let terms = terms_of(alloc, statement)?;
    for term in terms.iter() {
        if let Term::Load { array, site, index } = *term {
            if *site == wanted {
                return Ok(Some((*array, index)));
            }
        }
    }
    Ok(None)
}

/// The operator or the conversion of a site.
fn operation_at<'a>(
    alloc: Global,
    statement: &'a Statement,
    wanted: Site,
) -> Result<Option<&'a Term>, AllocError> {
    let terms = terms_of(alloc, statement)?;
    for term in terms.iter() {
        if let Term::Binary { site, .. }
        | Term::Unary { site, .. }
        | Term::Convert { site, .. } = *term
        {
            if *site == wanted {
                return Ok(Some(*term));
            }
        }
    }
    Ok(None)
}

/// The argument that a term is.
fn argument_of(reaches: &Reaches<'_>, term: &Term) -> Option<u32> {
    match term {
        Term::Convert { of, .. } => argument_of(reaches, of),
        Term::Variable { slot } => reaches.own_name(*slot),
        _ => None,
    }
}

/// The divisor of a division.
fn divisor_of(term: &Term) -> Option<&Term> {
    match term {
        Term::Binary {
            operator: Operator::Divide | Operator::Remainder,
            right,
            ..
        } => Some(right),
        _ => None,
    }
}

impl<'a> Proposals<'a> {
    fn push(&mut self, alloc: Global, line: Line) -> Result<(), AllocError> {
        if !line.may_be_said() {
            return Ok(());
        }
        for one in self.lines.iter_mut() {
            if let Some(merged) = one.line.merged(line) {
                one.line = merged;
                one.of.push(self.finding)?;
                return Ok(());
            }
        }
        if self.lines.len() < MOST {
            let of = Vec::from_slice(alloc, &[self.finding])?;
            self.lines.push(Proposed { line, of })?;
        }
        Ok(())
    }

    /// Proposes that a sum is at least another one, unless it is so anyway.
    fn require(&mut self, alloc: Global, left: Sum, right: Sum) -> Result<(), AllocError> {
        if left.beyond(right).is_some() {
            return Ok(());
        }
        self.push(alloc, Line::Require { left, right })
    }

    /// Proposes that rows are apart.
    fn push_pitches(
        &mut self,
        alloc: Global,
        reaches: &Reaches<'a>,
        index: &'a Term,
    ) -> Result<(), AllocError> {
        let pitches = reaches.pitches(alloc, index)?;
        for (pitch, least) in pitches.iter() {
            self.require(alloc, *pitch, *least)?;
        }
        Ok(())
    }

    /// Proposes that no argument in an index is negative.
    fn push_signs(
        &mut self,
        alloc: Global,
        reaches: &Reaches<'a>,
        index: &Term,
    ) -> Result<(), AllocError> {
        match index {
            Term::Convert { of, .. } => self.push_signs(alloc, reaches, of),
            Term::Binary {
                operator: Operator::Add | Operator::Multiply,
                left,
                right,
                ..
            } => {
                self.push_signs(alloc, reaches, left)?;
                self.push_signs(alloc, reaches, right)
            }
            _ => match argument_of(reaches, index) {
                Some(slot) => self.push_from(alloc, slot, 0),
                None => Ok(()),
            },
        }
    }

    /// Proposes that an argument is at least a number.
    fn push_from(&mut self, alloc: Global, slot: u32, low: i64) -> Result<(), AllocError> {
        match self.known.slots.given().range(slot as usize) {
            Some((least, high)) if least < low && low <= high => {
                self.push(alloc, Line::Argument { slot, low, high })
            }
            _ => Ok(()),
        }
    }

    /// Proposes that a buffer holds numbers from 0 to a sum, which is left out where it is below 0.
    fn push_values(
        &mut self,
        alloc: Global,
        unbounded: Unbounded,
        most: Option<Sum>,
    ) -> Result<(), AllocError> {
        let buffer = unbounded.buffer();
        if unbounded.is_below() {
            self.push(
                alloc,
                Line::Values {
                    buffer,
                    is_upper: false,
                    sum: Sum::number(0),
                },
            )?;
        }
        match most {
            Some(sum) if unbounded.is_above() && !sum.is_below_zero() => {
                self.push(
                    alloc,
                    Line::Values {
                        buffer,
                        is_upper: true,
                        sum,
                    },
                )
            }
            _ => Ok(()),
        }
    }

    /// Proposes that each value that is loaded, and each on which an index depends, is at most a sum.
    fn push_loaded(
        &mut self,
        alloc: Global,
        finding: &Finding,
        most: Option<Sum>,
    ) -> Result<(), AllocError> {
        let hints = hints_of(alloc, self.known, finding)?;
        for hint in hints.iter() {
            if let Some(unbounded) = hint.unbounded {
                self.push_values(alloc, unbounded, most)?;
            }
        }
        Ok(())
    }

    /// Proposes that an index is within its array.
    fn push_index(
        &mut self,
        alloc: Global,
        finding: &Finding,
        reaches: &Reaches<'a>,
        array: Array,
        index: &'a Term,
    ) -> Result<(), AllocError> {
        let most = match reaches.most(index) {
            Some(most) => most.more(1),
            None => None,
        };
        let length = match array.space {
            Space::Global => self.known.slots.given().length(array.number),
            Space::Local => self.known.array_length(array.number),
        };
        match (array.space, most, length) {
            (Space::Global, Some(least), _) => {
                self.push(
                    alloc,
                    Line::Length {
                        buffer: array.number,
                        least,
                    },
                )?;
            }
            (Space::Local, Some(least), Some(length)) => self.require(alloc, length, least)?,
            _ => {}
        }
        self.push_signs(alloc, reaches, reaches.resolved(index))?;
        self.push_pitches(alloc, reaches, index)?;
        // (an index that is below what is loaded may have as much as the length there)
        let most = match length {
            Some(length) if !reaches.is_below_loaded(index) => length.more(-1),
            _ => length,
        };
        self.push_loaded(alloc, finding, most)
    }

    /// Proposes that a result fits its kind.
    fn push_result(
        &mut self,
        alloc: Global,
        reaches: &Reaches<'a>,
        term: &Term,
        greatest: i64,
    ) -> Result<(), AllocError> {
        match reaches.most(term) {
            Some(most) => self.require(alloc, Sum::number(greatest), most),
            None => Ok(()),
        }
    }

    /// Proposes that a divisor is not 0.
    fn push_divisor(
        &mut self,
        alloc: Global,
        reaches: &Reaches<'a>,
        term: &'a Term,
    ) -> Result<(), AllocError> {
        let Some(divisor) = divisor_of(term) else {
            return Ok(());
        };
        match argument_of(reaches, divisor) {
            Some(slot) => self.push_from(alloc, slot, 1),
            None => Ok(()),
        }
    }

    /// Proposes lines that may help with a finding at a site in a statement.
    fn push_at(
        &mut self,
        alloc: Global,
        finding: &Finding,
        statement: &'a Statement,
        site: Site,
    ) -> Result<(), AllocError> {
        let access = access_at(alloc, statement, site)?;
        let operation = operation_at(alloc, statement, site)?;
        match (finding.kind, access, operation) {
            (FindingKind::Fault(Fault::OutOfBounds), Some((array, index)), _) => {
                let reaches = Reaches::at(alloc, self.known, site)?;
                self.push_index(alloc, finding, &reaches, array, index)
            }
            (FindingKind::Race, Some((_, index)), _) => {
                let reaches = Reaches::at(alloc, self.known, site)?;
                self.push_pitches(alloc, &reaches, index)
            }
            (FindingKind::Fault(Fault::Overflow), _, Some(term)) => {
                let reaches = Reaches::at(alloc, self.known, site)?;
                self.push_result(alloc, &reaches, term, GREATEST)
            }
            (FindingKind::Size, _, Some(term)) => {
                let reaches = Reaches::at(alloc, self.known, site)?;
                self.push_result(alloc, &reaches, term, LARGEST)
            }
            (FindingKind::Fault(Fault::DivisionByZero), _, Some(term)) => {
                let reaches = Reaches::at(alloc, self.known, site)?;
                self.push_divisor(alloc, &reaches, term)
            }
            _ => Ok(()),
        }
    }

    /// Proposes lines that may help with a finding.
    fn push_for(&mut self, alloc: Global, finding: &Finding) -> Result<(), AllocError> {
        let known = self.known;
        for spot in finding.sites.iter() {
            let Some(site) = site_of(*spot) else {
                continue;
            };
            for statement in known.statements.iter() {
                self.push_at(alloc, finding, *statement, site)?;
            }
        }
        Ok(())
    }
}

/// Lines of the conditions by which findings may be shown.
pub fn lines_for(
    alloc: Global,
    known: &Known<'_>,
    findings: &[Finding],
) -> Result<Vec<Proposed>, AllocError> {
    let mut proposals = Proposals {
        known,
        lines: Vec::new(alloc),
        finding: 0,
    };
    for (number, finding) in findings.iter().enumerate() {
        proposals.finding = number;
        proposals.push_for(alloc, finding)?;
    }
    Ok(proposals.lines)
}
