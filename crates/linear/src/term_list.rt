//! A list of terms that keeps two of them in place.
ghost use Rattle.std.specs.Prelude.{◌≡◌, [], ◌∷◌, ◌++◌, IfOk, OnOk};

use super::term::Term;
use smallvec::SmallVec;
use std::alloc::{AllocError, Global};

/// Terms. A few stand in the list itself, more in memory of their own.
#[derive(Debug, Drop)]
pub struct TermList {
    terms: SmallVec<Term, 2>,
}

impl TermList {
    /// An empty list of terms.
    pub fn new(alloc: Global) -> TermList
        ensures { result.terms.items ≡ [] }
    {
        TermList {
            terms: SmallVec::new(alloc),
        }
    }

    /// The same terms again.
    pub fn from_slice(alloc: Global, terms: &[Term]) -> Result<TermList, AllocError>
        ensures { IfOk result (λ list. list.terms.items ≡ terms.now) }
    {
        let terms = SmallVec::from_slice(alloc, terms)?;
        Ok(TermList { terms })
    }

    /// One more term at the end.
    pub fn push(&mut self, term: Term) -> Result<(), AllocError>
        ensures { OnOk result (self.new.terms.items ≡ self.old.terms.items ++ term ∷ []) }
    {
        self.terms.push(term)?;
        Ok(())
    }

    /// More terms at the end.
    pub fn extend_from_slice(&mut self, terms: &[Term]) -> Result<(), AllocError>
        ensures { OnOk result (self.new.terms.items ≡ self.old.terms.items ++ terms.now) }
    {
        self.terms.extend_from_slice(terms)
    }

    /// The terms as a slice, in their order.
    pub fn as_slice(&self) -> &[Term]
        ensures { result.now ≡ self.now.terms.items }
    {
        self.terms.as_slice()
    }
}
