//! What lines of the conditions say that buffers hold.

ghost use Rattle.std.specs.Prelude.{◌≡◌, ◌++◌, ◌∷◌, [], MatchResult, map};
ghost use Rattle.launch.specs.View.{content as content_seen, conditions as conditions_seen};
ghost use Rattle.facts.specs.Launching as launching;
ghost use Rattle.facts.specs.View.{buffer_bound as bound_seen};
ghost use Rattle.facts.specs.Refusals.{IsMemory};

use crate::error::WalkError;
use crate::launching::sum_form;
use launch::conditions::{Conditions, Content};
use linear::Form;
use std::alloc::Global;

/// Each element of a buffer is at least, or at most, a sum; `None` where the sum has no form.
#[derive(Drop)]
pub struct BufferBound {
    pub buffer: u32,
    pub is_upper: bool,
    pub sum: Option<Form>,
}

/// What one line says.
fn buffer_bound(alloc: Global, line: &Content) -> Result<BufferBound, WalkError>
    ensures { MatchResult result (λ b. bound_seen b ≡ launching.buffer_bound (content_seen line.now)) IsMemory }
{
    let sum = sum_form(alloc, &line.sum)?;
    Ok(BufferBound {
        buffer: line.buffer,
        is_upper: line.is_upper,
        sum,
    })
}

#[tactic(auto, using(crate::proofs::Facts::bounds_more))]
/// Adds what one line says.
fn push_bound(alloc: Global, bounds: &mut Vec<BufferBound>, line: &Content) -> Result<(), WalkError>
    ensures { MatchResult result (λ _. map bound_seen bounds.new.items
        ≡ map bound_seen bounds.old.items ++ launching.buffer_bound (content_seen line.now) ∷ []) IsMemory }
{
    let bound = buffer_bound(alloc, line)?;
    bounds.push(bound)?;
    Ok(())
}

#[tactic(auto, using(crate::proofs::Facts::carried))]
/// Adds what all lines say, in their order.
fn push_bounds(
    alloc: Global,
    bounds: &mut Vec<BufferBound>,
    lines: &[Content],
) -> Result<(), WalkError>
    ensures { MatchResult result (λ _. map bound_seen bounds.new.items
        ≡ map bound_seen bounds.old.items ++ map launching.buffer_bound (map content_seen lines.now)) IsMemory }
{
    for line in lines {
        push_bound(alloc, bounds, line)?;
    }
    Ok(())
}

/// The bounds that the conditions set on what buffers hold, in the order of their lines. The error is want of memory.
pub fn buffer_bounds(alloc: Global, conditions: &Conditions) -> Result<Vec<BufferBound>, WalkError>
    ensures { MatchResult result (λ bs. map bound_seen bs.items ≡ launching.buffer_bounds (conditions_seen conditions.now)) IsMemory }
{
    let mut bounds = Vec::new(alloc);
    push_bounds(alloc, &mut bounds, conditions.contents.as_slice())?;
    Ok(bounds)
}
