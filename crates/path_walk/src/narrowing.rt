//! What is said of a place narrows what the domain holds there.

ghost use Rattle.std.specs.Prelude.{◌≡◌, [], MatchResult};
ghost use Rattle.linear.specs.Forms.{forms};
ghost use Rattle.facts.specs.Refusals.{IsMemory};
ghost use Rattle.facts.specs.View.{known_seen};
ghost use Rattle.path_steps.specs.Paths.{with_held};
ghost use Rattle.path_steps.specs.View.{followed};
ghost use Rattle.obligations.specs.View.{seen};
ghost use Rattle.obligations.specs.Roots as roots;
ghost use Rattle.path_walk.specs.Rooted.{narrowed_by_notes};

use crate::said::facts_at;
use arrival_claims::Placing;
use domain::Domain;
use facts::WalkError;
use linear::Form;
use path_steps::{Path, Setting, narrow};

/// Narrows by each of these facts, one after another.
fn narrow_all<D: Domain>(
    setting: &Setting<D>,
    path: &mut Path<D>,
    facts: &[Form],
) -> Result<(), WalkError>
    ensures { MatchResult result (λ _. followed path.new ≡ with_held (followed path.old) (roots.narrow_all D.Domain (known_seen setting.now.known) (forms facts.now) (followed path.old).state.held)) IsMemory }
{
    for fact in facts {
        narrow(setting, path, fact)?;
    }
    Ok(())
}

/// Narrows, in the wide walk, by the facts that are said of the place.
pub fn narrow_by_notes<D: Domain>(
    placing: &Placing<'_, D>,
    path: &mut Path<D>,
) -> Result<(), WalkError>
    ensures { MatchResult result (λ _. followed path.new ≡ with_held (followed path.old) (narrowed_by_notes D.Domain (known_seen placing.now.setting.now.known) (seen placing.now.notes.now []) placing.now.anchor placing.now.head (followed path.old).state.held)) IsMemory }
{
    if !placing.notes.is_wide {
        return Ok(());
    }
    let facts = facts_at(placing.notes, placing.anchor, placing.head);
    narrow_all(placing.setting, path, facts)
}
