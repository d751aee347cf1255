//! Derivations as the steps of entries.

use crate::declared_names::Names;
use certificate::tree::{self, Scaled, Step};
use cut_proof::{Derivation, Lemma, Line};
use std::alloc::{AllocError, Global};

/// The parts of a sum as a certificate has them, each weight with its line.
fn scaled_of(alloc: Global, parts: &[(i64, u32)]) -> Result<Vec<Scaled>, AllocError> {
    let mut scaled = Vec::new(alloc);
    for part in parts {
        scaled.push(Scaled {
            factor: part.0,
            line: part.1 as i64,
        })?;
    }
    Ok(scaled)
}

/// A line as a step.
fn step_of(alloc: Global, line: &Line) -> Result<Step, AllocError> {
    match line {
        Line::Given(fact) => Ok(Step::Given(*fact as i64)),
        Line::Sum(parts) => {
            let scaled = scaled_of(alloc, parts.as_slice())?;
            Ok(Step::Sum(scaled))
        }
        Line::Div(divisor, line) => Ok(Step::Divide(Scaled {
            factor: *divisor,
            line: *line as i64,
        })),
        Line::Product(first, second) => Ok(Step::Product(*first as i64, *second as i64)),
    }
}

/// Lines as steps.
fn steps_of_lines(alloc: Global, lines: &[Line]) -> Result<Vec<Step>, AllocError> {
    let mut steps = Vec::new(alloc);
    for line in lines {
        let step = step_of(alloc, line)?;
        steps.push(step)?;
    }
    Ok(steps)
}

/// The lines of a derivation as steps.
pub fn steps_of(alloc: Global, derivation: &Derivation) -> Result<Vec<Step>, AllocError> {
    steps_of_lines(alloc, derivation.lines.as_slice())
}

/// A lemma as a certificate has it; none where a symbol of its form has no name.
fn lemma_of(
    alloc: Global,
    names: &Names<'_>,
    lemma: &Lemma,
) -> Result<Option<tree::Lemma>, AllocError> {
    let Some(form) = names.form_of_two(alloc, &lemma.form)? else {
        return Ok(None);
    };
    let steps = steps_of_lines(alloc, lemma.lines.as_slice())?;
    Ok(Some(tree::Lemma { form, steps }))
}

/// The lemmas of a derivation as a certificate has them; none where a symbol has no name.
pub fn lemmas_of(
    alloc: Global,
    names: &Names<'_>,
    derivation: &Derivation,
) -> Result<Option<Vec<tree::Lemma>>, AllocError> {
    let mut lemmas = Vec::new(alloc);
    for lemma in derivation.lemmas.as_slice() {
        let Some(lemma) = lemma_of(alloc, names, lemma)? else {
            return Ok(None);
        };
        lemmas.push(lemma)?;
    }
    Ok(Some(lemmas))
}
