//! Values of which little is known, on which what was not shown depends.

use crate::given::{Given, OneCount, Unbounded};
use crate::paragraph::push_paragraph;
use crate::parts::{MOST, put, put_both, statements_of, terms_of};
use crate::source::{push_label, push_site};
use crate::sums::Sum;
use crate::vague::{Slots, Vague};
use core_code::tree::{LocalArray, Operator, Site, Statement, Term};
use findings::{Finding, FindingKind, Spot};
use kernel_names::site_at;
use launch::conditions::Conditions;
use std::alloc::{AllocError, Global};
use typed_kernels::Typed;
use words::Fault;

/// The most hints that are told of a cause.
const SHOWN: usize = 4;

/// The sentence in front of the first hints.
const HEAD: &str =
    "Of these values, on which that depends, little more than a range is known. If that is the reason, test them, or write \
     them otherwise, as docs/KERNELS.md says:";

/// The words in front of further hints.
const NEXT: &str = "That depends on such values, too:";

/// The names of a kernel's arguments and variables, by their slots, and of its buffers.
#[derive(Drop)]
pub struct OwnNames<'a> {
    pub variables: Vec<&'a str>,
    pub buffers: Vec<&'a str>,
}

/// The statements of a kernel, where each begins, and what is known of its variables.
#[derive(Drop)]
pub struct Known<'a> {
    pub body: &'a [Statement],
    pub statements: Vec<&'a Statement>,
    pub sites: Vec<Site>,
    pub slots: Slots<'a>,
    pub count: usize,
    arrays: &'a [LocalArray],
}

impl<'a> Known<'a> {
    pub fn of(
        alloc: Global,
        typed: &'a Typed,
        conditions: &Conditions,
    ) -> Result<Known<'a>, AllocError> {
        let core = typed.core();
        let statements = statements_of(alloc, core.body.as_slice())?;
        let mut sites = Vec::new(alloc);
        for statement in statements.iter() {
            sites.push(site_at(typed.names(), Some(statement.number())))?;
        }
        let given = Given::of(alloc, core, conditions)?;
        let slots = Slots::of(alloc, core, given, statements.as_slice())?;
        Ok(Known {
            body: core.body.as_slice(),
            arrays: core.arrays.as_slice(),
            statements,
            sites,
            slots,
            count: core.arguments.len().saturating_add(core.variables.len()),
        })
    }

    /// The length of a local array.
    pub fn array_length(&self, number: u32) -> Option<Sum> {
        let array = self.arrays.get(number as usize)?;
        Some(Sum::number(array.length as i64))
    }
}

/// The terms on which a finding depends: those that are left, which variables were met, and what was found; steps count where the finding
/// is of an index, what tells two accesses apart where it is a data race, and bounds of what is loaded where it is of one work-item.
#[derive(Drop)]
struct Slice<'a> {
    left: Vec<&'a Term>,
    met: Vec<bool>,
    hints: Vec<Vague>,
    has_index: bool,
    is_of_two: bool,
    has_bounds: bool,
}

/// A finding is of that site.
fn is_of(finding: &Finding, wanted: Site) -> bool {
    for spot in &finding.sites {
        if let Spot::Store(site) | Spot::Load(site) | Spot::At(site) = *spot {
            if site == wanted {
                return true;
            }
        }
    }
    false
}

/// One element is accessed twice, or there is none.
fn is_of_indexes(kind: FindingKind) -> bool {
    matches!(
        kind,
        FindingKind::Race | FindingKind::Fault(Fault::OutOfBounds)
    )
}

/// A result does not fit its kind.
fn is_of_results(kind: FindingKind) -> bool {
    matches!(
        kind,
        FindingKind::Size | FindingKind::Fault(Fault::Overflow)
    )
}

/// Items come to different places, or come too often.
fn is_of_tests(kind: FindingKind) -> bool {
    matches!(kind, FindingKind::Divergence | FindingKind::Bound)
}

/// Whether a finding asks for the test at a site: one about a loop's bound asks for the loop's own test alone.
fn is_asked(finding: &Finding, site: Site) -> bool {
    finding.kind != FindingKind::Bound || is_of(finding, site)
}

impl<'a> Slice<'a> {
    /// Puts into the list of terms those parts of a term on which a finding about that term depends.
    fn begin_term(&mut self, finding: &Finding, term: &'a Term) -> Result<(), AllocError> {
        match term {
            Term::Load { site, index, .. } | Term::Within { site, index, .. }
                if is_of_indexes(finding.kind) && is_of(finding, *site) => {
                put(&mut self.left, index)
            }
            Term::Unary { site, of, .. } | Term::Convert { site, of, .. }
                if is_of_results(finding.kind) && is_of(finding, *site) => {
                put(&mut self.left, of)
            }
            Term::Binary {
                site,
                left,
                right,
                ..
            } if is_of(finding, *site) => put_both(&mut self.left, left, right),
            Term::Compare { left, right, .. } if is_of_tests(finding.kind) => {
                put_both(&mut self.left, left, right)
            }
            _ => Ok(()),
        }
    }

    /// Puts into the list of terms those parts of a statement, and of its terms, on which a finding depends.
    fn begin(
        &mut self,
        alloc: Global,
        finding: &Finding,
        statement: &'a Statement,
    ) -> Result<(), AllocError> {
        if let Statement::Store {
            site,
            index,
            value,
            ..
        } = statement
        {
            if is_of_indexes(finding.kind) && is_of(finding, *site) {
                put(&mut self.left, index)?;
            }
            if finding.kind == FindingKind::Values && is_of(finding, *site) {
                put(&mut self.left, value)?;
            }
        }
        let terms = terms_of(alloc, statement)?;
        for term in terms.iter() {
            self.begin_term(finding, term)?;
        }
        Ok(())
    }

    /// Notes a hint where a variable steps by what is no number, if the finding is of an index.
    fn push_step(&mut self, slots: &Slots<'_>, slot: u32, value: &Term) -> Result<(), AllocError> {
        match slots.step(slot, value) {
            Some(hint) if self.has_index => {
                self.hints.push(hint)?;
                Ok(())
            }
            _ => Ok(()),
        }
    }

    /// Notes why little is known of a term, where it is of that finding.
    fn push_vague(&mut self, slots: &Slots<'_>, term: &Term) -> Result<(), AllocError> {
        match slots.what_is_vague(term) {
            Some(hint) if self.is_of_two || !hint.reason.is_of_two() => {
                let unbounded = if self.has_bounds {
                    hint.unbounded
                } else {
                    None
                };
                self.hints.push(Vague { unbounded, ..hint })?;
                Ok(())
            }
            _ => Ok(()),
        }
    }

    /// A variable depends on all values that it gets.
    fn meet(
        &mut self,
        statements: &[&'a Statement],
        slots: &Slots<'_>,
        wanted: u32,
    ) -> Result<(), AllocError> {
        let Some(is_met) = self.met.get_mut(wanted as usize) else {
            return Ok(());
        };
        if *is_met {
            return Ok(());
        }
        *is_met = true;
        for statement in statements {
            if let Statement::Set { slot, value, .. } = *statement {
                if *slot == wanted {
                    put(&mut self.left, value)?;
                    self.push_step(slots, *slot, value)?;
                }
            }
        }
        Ok(())
    }

    /// An operand of `min` or `max` is bounded by the other one where it is loaded.
    fn push_chosen(&mut self, operand: &'a Term) -> Result<(), AllocError> {
        match operand {
            Term::Load { .. } => Ok(()),
            _ => put(&mut self.left, operand),
        }
    }

    /// A term depends on its operands, but where it is in a range whatever they are.
    fn push_operands(&mut self, term: &'a Term) -> Result<(), AllocError> {
        match term {
            Term::Unary { of, .. } | Term::Convert { of, .. } | Term::Within { index: of, .. } =>
                put(&mut self.left, of),
            Term::Binary {
                operator: Operator::Add
                | Operator::Subtract
                | Operator::Multiply
                | Operator::Divide,
                left,
                right,
                ..
            } => put_both(&mut self.left, left, right),
            Term::Minimum { left, right } | Term::Maximum { left, right } => {
                self.push_chosen(left)?;
                self.push_chosen(right)
            }
            Term::Select {
                taken: one,
                skipped: other,
                ..
            }
            | Term::Shift {
                value: one,
                count: other,
                ..
            } => put_both(&mut self.left, one, other),
            _ => Ok(()),
        }
    }

    /// All that the terms depend on, with what is found there.
    fn follow(
        &mut self,
        statements: &[&'a Statement],
        slots: &Slots<'_>,
    ) -> Result<(), AllocError> {
        for _term in 0..MOST {
            let Some(term) = self.left.pop() else {
                return Ok(());
            };
            self.push_vague(slots, term)?;
            match term {
                Term::Variable { slot } => self.meet(statements, slots, *slot)?,
                _ => self.push_operands(term)?,
            }
        }
        Ok(())
    }
}

/// The values of which little is known, on which a finding depends, in the order in which they are met.
pub fn hints_of(
    alloc: Global,
    known: &Known<'_>,
    finding: &Finding,
) -> Result<Vec<Vague>, AllocError> {
    let statements = known.statements.as_slice();
    let mut slice = Slice {
        left: Vec::new(alloc),
        met: vec![in alloc; false; known.count]?,
        hints: Vec::new(alloc),
        has_index: is_of_indexes(finding.kind),
        is_of_two: finding.kind == FindingKind::Race,
        has_bounds: !matches!(finding.kind, FindingKind::Race | FindingKind::Divergence),
    };
    for (statement, site) in statements.iter().zip(known.sites.iter()) {
        if is_asked(finding, *site) {
            slice.begin(alloc, finding, statement)?;
        }
    }
    slice.follow(statements, &known.slots)?;
    Ok(slice.hints)
}

/// The number of a place, in the order of the source.
pub fn order_of(site: Site) -> u64 {
    ((site.line as u64) << 32) | site.column as u64
}

/// The first hint, in the order of the source, behind a place; none where there is no more.
fn first_behind(hints: &[Vague], place: u64) -> Option<Vague> {
    let mut first: Option<Vague> = None;
    for hint in hints {
        let is_nearer = match first {
            Some(other) => order_of(hint.site) < order_of(other.site),
            None => true,
        };
        if is_nearer && order_of(hint.site) > place {
            first = Some(*hint);
        }
    }
    first
}

/// Writes with which line of the conditions a value would be exact; nothing where one count of groups does not make it so.
fn push_one(alloc: Global, one: Option<OneCount>, out: &mut String) -> Result<(), AllocError> {
    let Some(one) = one else {
        return Ok(());
    };
    let mut label = String::from_str(alloc, "exact if the conditions say ")?;
    one.push(&mut label)?;
    push_label(out, &label)
}

/// Writes which lines of the conditions would bound a value that is loaded; nothing where they do, or where none would.
fn push_unbounded(
    alloc: Global,
    names: &[&str],
    unbounded: Option<Unbounded>,
    out: &mut String,
) -> Result<(), AllocError> {
    let Some(unbounded) = unbounded else {
        return Ok(());
    };
    let mut label = String::from_str(alloc, "bounded if the conditions, of version 2, say ")?;
    unbounded.push(names, &mut label)?;
    push_label(out, &label)
}

/// Writes the first hints in the order of the source, each with its line.
fn push_some(
    alloc: Global,
    kernel: &[u8],
    names: &OwnNames<'_>,
    hints: &[Vague],
    out: &mut String,
) -> Result<(), AllocError> {
    let mut place = 0;
    let mut line = 0;
    for _hint in 0..SHOWN {
        let Some(hint) = first_behind(hints, place) else {
            return Ok(());
        };
        place = order_of(hint.site);
        let is_shown = hint.site.line == line;
        push_site(alloc, out, kernel, hint.site, is_shown, hint.reason.text())?;
        push_one(alloc, hint.one, out)?;
        push_unbounded(alloc, names.buffers.as_slice(), hint.unbounded, out)?;
        line = hint.site.line;
    }
    Ok(())
}

/// Writes values on which findings that are only possible depend, behind an empty line; the names are those of the kernel.
pub fn push_hints(
    alloc: Global,
    kernel: &[u8],
    names: &OwnNames<'_>,
    hints: &[Vague],
    is_first: bool,
    out: &mut String,
) -> Result<(), AllocError> {
    out.push_str("\n")?;
    push_paragraph(out, "", if is_first { HEAD } else { NEXT })?;
    push_some(alloc, kernel, names, hints, out)
}
