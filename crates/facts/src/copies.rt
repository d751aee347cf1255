//! Copies of facts.

ghost use Rattle.std.specs.Prelude.{◌≡◌, ◌++◌, ◌∷◌, [], MatchResult};
ghost use Rattle.linear.specs.Forms.{form as form_seen, forms};
ghost use Rattle.facts.specs.Refusals.{IsMemory};

use crate::error::WalkError;
use linear::Form;
use std::alloc::Global;

#[tactic(auto, using(crate::proofs::Facts::copies))]
/// Adds a copy of a fact.
fn copy_one(alloc: Global, facts: &mut Vec<Form>, fact: &Form) -> Result<(), WalkError>
    ensures { MatchResult result (λ _. forms facts.new.items ≡ forms facts.old.items ++ form_seen fact.now ∷ []) IsMemory }
{
    let again = fact.copy(alloc)?;
    facts.push(again)?;
    Ok(())
}

#[tactic(auto, using(crate::proofs::Facts::carried))]
/// Adds copies of facts, in their order.
pub fn copy_all(alloc: Global, facts: &mut Vec<Form>, more: &[Form]) -> Result<(), WalkError>
    ensures { MatchResult result (λ _. forms facts.new.items ≡ forms facts.old.items ++ forms more.now) IsMemory }
{
    for fact in more {
        copy_one(alloc, facts, fact)?;
    }
    Ok(())
}
