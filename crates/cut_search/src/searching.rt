//! The search of this crate's interface, and what several lists with the same first facts share of it.

ghost use Rattle.std.specs.Prelude.{◌≡◌, true, IfOk, IfSome, map};
ghost use Rattle.linear.specs.Linear.{IsImpossible};
ghost use Rattle.linear.specs.Products.{IsImpossibleWithProducts};
ghost use Rattle.linear.specs.Forms.{forms};
ghost use Rattle.cut_proof.specs.View.{lemma as lemma_seen, line as line_seen};
ghost use Rattle.cut_proof.specs.Derivations.{refutes_with, are_without_products};
ghost use Rattle.cut_search.specs.Answers.{IsAnswer};

use super::point::meets;
use crate::answer::{Answer, Point};
use crate::deciding::{Prepared, decide_otherwise};
use crate::quest::with_lemmas;
use crate::stop::Stop;
use cut_proof::{Derivation, refutes};
use linear::Fact;
use std::alloc::{AllocError, Global};

/// Facts that several lists begin with, taken in and solved. It is as large as those facts.
#[derive(Drop)]
pub struct Start {
    prepared: Prepared,
}

impl Start {
    /// A start for lists of facts that have nothing in common.
    pub fn new(alloc: Global) -> Start {
        Start {
            prepared: Prepared::new(alloc),
        }
    }

    /// A start for lists that begin with these facts, which are taken in and solved.
    pub fn prepare(alloc: Global, facts: &[Fact]) -> Result<Start, AllocError> {
        let prepared = Prepared::of_facts(alloc, facts)?;
        Ok(Start { prepared })
    }

    /// Searches a list that begins with the facts in common, with products of facts where they have products of symbols. Of a list that
    /// does not begin so, less may be found.
    pub fn search(&self, alloc: Global, facts: &[Fact]) -> Result<Answer, AllocError>
        ensures { IfOk result (λ a. IsAnswer (forms facts.now) a) }
    {
        let mut work = 0;
        self.search_naming(alloc, facts, &[], &mut work)
    }

    /// Searches as `search` does, with lemmas that name no variable of the slots. What products take is added to the work.
    fn search_naming(
        &self,
        alloc: Global,
        facts: &[Fact],
        unnamed: &[u64],
        work: &mut u64,
    ) -> Result<Answer, AllocError>
        ensures { IfOk result (λ a. IsAnswer (forms facts.now) a) }
    {
        let outcome = self.decide(alloc, facts);
        let outcome = with_lemmas(alloc, facts, unnamed, outcome, work);
        settled(alloc, facts, outcome)
    }

    /// Searches as `search` does, without products of facts.
    fn search_plainly(&self, alloc: Global, facts: &[Fact]) -> Result<Answer, AllocError>
        ensures { IfOk result (λ a. IsAnswer (forms facts.now) a) }
    {
        settled(alloc, facts, self.decide(alloc, facts))
    }

    /// Decides a list without products of facts.
    fn decide(&self, alloc: Global, facts: &[Fact]) -> Result<Answer, Stop> {
        match self.prepared.decide(alloc, facts) {
            Err(Stop::GivenUp) => decide_otherwise(alloc, facts),
            outcome => outcome,
        }
    }
}

fn settled(
    alloc: Global,
    facts: &[Fact],
    outcome: Result<Answer, Stop>,
) -> Result<Answer, AllocError>
    ensures { IfOk result (λ a. IsAnswer (forms facts.now) a) }
{
    match outcome {
        Ok(answer) => checked(alloc, facts, answer),
        Err(Stop::GivenUp) => Ok(Answer::Undecided),
        Err(Stop::Memory) => Err(AllocError),
    }
}

/// Searches for a derivation that refutes the facts, or whole numbers that meet them.
pub fn search(alloc: Global, facts: &[Fact]) -> Result<Answer, AllocError>
    ensures { IfOk result (λ a. IsAnswer (forms facts.now) a) }
{
    Start::new(alloc).search(alloc, facts)
}

/// Searches as `search` does, for a derivation whose lemmas name no variable of the slots. What products take is added to the work.
pub fn search_naming(
    alloc: Global,
    facts: &[Fact],
    unnamed: &[u64],
    work: &mut u64,
) -> Result<Answer, AllocError>
    ensures { IfOk result (λ a. IsAnswer (forms facts.now) a) }
{
    Start::new(alloc).search_naming(alloc, facts, unnamed, work)
}

/// Searches for a derivation without products, or whole numbers.
pub fn search_plainly(alloc: Global, facts: &[Fact]) -> Result<Answer, AllocError>
    ensures { IfOk result (λ a. IsAnswer (forms facts.now) a) }
{
    Start::new(alloc).search_plainly(alloc, facts)
}

/// A derivation that refutes the facts, if one is found.
pub fn find(alloc: Global, facts: &[Fact]) -> Result<Option<Derivation>, AllocError>
    ensures refuted { IfOk result (λ r. IfSome r (λ d. refutes_with (forms facts.now) (map lemma_seen d.lemmas.items) (map line_seen d.lines.items) ≡ true)) }
    ensures impossible { IfOk result (λ r. IfSome r (λ d. are_without_products (map lemma_seen d.lemmas.items) (map line_seen d.lines.items) ≡ true → IsImpossible (forms facts.now))) }
    ensures impossible_with_products { IfOk result (λ r. IfSome r (λ d. IsImpossibleWithProducts (forms facts.now))) }
{
    match search(alloc, facts)? {
        Answer::Proof(derivation) => Ok(Some(derivation)),
        _ => Ok(None),
    }
}

/// An answer that is true of the facts; undecided where the given one is not.
fn checked(alloc: Global, facts: &[Fact], answer: Answer) -> Result<Answer, AllocError>
    ensures { IfOk result (λ a. IsAnswer (forms facts.now) a) }
{
    match answer {
        Answer::Proof(derivation) => checked_proof(alloc, facts, derivation),
        Answer::Model(point) => Ok(checked_model(facts, point)),
        Answer::Undecided => Ok(Answer::Undecided),
    }
}

fn checked_proof(
    alloc: Global,
    facts: &[Fact],
    derivation: Derivation,
) -> Result<Answer, AllocError>
    ensures { IfOk result (λ a. IsAnswer (forms facts.now) a) }
{
    if refutes(alloc, facts, &derivation)? {
        Ok(Answer::Proof(derivation))
    } else {
        Ok(Answer::Undecided)
    }
}

fn checked_model(facts: &[Fact], point: Point) -> Answer
    ensures { IsAnswer (forms facts.now) result }
{
    if meets(facts, point.as_slice()) {
        Answer::Model(point)
    } else {
        Answer::Undecided
    }
}
