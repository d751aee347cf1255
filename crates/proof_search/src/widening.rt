//! Where the wide walk is tried.

use crate::error::VerifyError;
use certificate::Certificate;
use certificate_notes::{NamesError, notes_of};
use diagnostics::{Finding, Grade};
use guess_walk::Subject;
use loop_bounds::cost;
use std::alloc::Global;

/// A certificate of more bytes is a long one.
const LONG: usize = 16_384;

/// A certificate's text is so long that another walk may find a shorter one.
pub fn is_long(text: &[u8]) -> bool {
    text.len() > LONG
}

/// With a certificate, an item may take more steps than the budget.
pub fn is_over(alloc: Global, subject: &Subject<'_>, certificate: &Certificate) -> bool {
    let notes = match notes_of(alloc, subject.typed, subject.places, certificate) {
        Ok(Some(notes)) => notes,
        Ok(None) => return true,
        Err(NamesError::Memory) => return true,
    };
    match cost(subject.typed.core(), notes.rankings.as_slice()) {
        Ok(steps) => steps > subject.conditions.budget,
        Err(_) => true,
    }
}

/// A replay confirms the finding.
fn is_confirmed(finding: &Finding) -> bool {
    match &finding.grade {
        Grade::Confirmed(_) => true,
        Grade::Possible => false,
    }
}

/// A refusal that another walk may spare: for want of what is shown, where no replay confirms a finding, for a size or by the budget.
pub fn may_widen(error: &VerifyError) -> bool {
    match error {
        VerifyError::NotShown(findings) => !findings.iter().any(is_confirmed),
        _ => matches!(error.number(), 50 | 53 | 54 | 56),
    }
}
