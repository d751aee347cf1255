//! The launch that a host asks about, and whether it meets the conditions.

ghost use Rattle.std.specs.Prelude.{◌≡◌, ◌≢◌, ℕ, ℤ, List, length, map, vec_len, IsOk, IfErr};
ghost use Rattle.std.specs.List.{All};
ghost use Rattle.semantics.specs.Conditions.{ConditionsFit, IsHeld, Meets};
ghost use Rattle.semantics.specs.Launch.{Machine};
ghost use Rattle.core_code.specs.View.{kernel as core_seen};
ghost use Rattle.launch.specs.Unmet.{with_buffers};
ghost use Rattle.launch.specs.View.{conditions as conditions_seen, content as content_seen, launch as launch_seen};
ghost use Rattle.host_launches.specs.Asking.{GivesAsked, GivesGroups, GivesNumbers};
ghost use Rattle.host_launches.specs.Launches.{AllMeet, Suits};
ghost use Rattle.host_launches.specs.Refusing.{Tells};
ghost use Rattle.host_launches.specs.Telling as rules;

use crate::fitting::arguments_fit;
use crate::given::{Argument, Range, Refusal};
use crate::kinds::are_parameters;
use crate::numbers::{lengths_of, words_of};
use crate::shapes::Shape;
use crate::sizes::groups_of;
use core_code::tree::Core;
use launch::conditions::{Conditions, Content};
use launch::launches::{Buffers, Counts, Launch};
use launch::meets::meets_by_counts;
use std::alloc::Global;

/// A launch whose buffers have no words as yet, and their lengths in components.
#[derive(Drop)]
pub struct Asked {
    pub launch: Launch,
    pub lengths: Vec<u64>,
}

fn groups_told(
    alloc: Global,
    core: &Core,
    shapes: &[Shape],
    range: &Range,
    arguments: &[Argument],
) -> Result<Counts, Refusal>
    ensures { GivesGroups result (rules.groups_told (core_seen core.now) shapes.now range.now arguments.now) }
{
    let groups = groups_of(core.sizes, range)?;
    arguments_fit(shapes, arguments)?;
    if are_parameters(alloc, core, shapes)? {
        Ok(groups)
    } else {
        Err(Refusal {
            number: 41,
            place: shapes.len() as u64,
        })
    }
}

fn with_groups(
    alloc: Global,
    groups: Counts,
    shapes: &[Shape],
    fill: u32,
    arguments: &[Argument],
) -> Result<Asked, Refusal>
    requires { length shapes.now ≡ length arguments.now }
    ensures { GivesNumbers groups shapes.now fill arguments.now result }
{
    let words = words_of(alloc, shapes, arguments)?;
    let lengths = lengths_of(alloc, shapes, arguments)?;
    let buffers = Buffers {
        words: Vec::new(alloc),
    };
    Ok(Asked {
        launch: Launch {
            groups,
            arguments: words,
            buffers,
            fill,
        },
        lengths,
    })
}

/// The launch of these numbers, by the parameters of the kernel's text.
pub fn launch_asked(
    alloc: Global,
    core: &Core,
    shapes: &[Shape],
    range: &Range,
    arguments: &[Argument],
) -> Result<Asked, Refusal>
    ensures { GivesAsked (core_seen core.now) shapes.now range.now arguments.now result }
{
    let groups = groups_told(alloc, core, shapes, range, arguments)?;
    with_groups(alloc, groups, shapes, range.fill, arguments)
}

fn unsaid(contents: &[Content], is_held: bool) -> Result<(), Refusal>
    ensures { result ≡ rules.unsaid is_held contents.now }
{
    if is_held {
        return Ok(());
    }
    match contents {
        [] => Ok(()),
        [first, ..] => Err(Refusal {
            number: 45,
            place: first.line as u64,
        }),
    }
}

/// Whether each such launch whose buffers hold what the lines say meets the conditions, and the host answers for what they hold where a line
/// says it.
pub fn met(conditions: &Conditions, asked: &Asked, is_held: bool) -> Result<(), Refusal>
    requires arguments { vec_len conditions.now.arguments ≡ vec_len asked.now.launch.arguments }
    requires buffers { vec_len conditions.now.lengths ≡ vec_len asked.now.lengths }
    ensures told { result ≡ rules.met_told conditions.now (launch_seen asked.now.launch) asked.now.lengths.items is_held }
    ensures met { IsOk result → (bs : List (List ℤ)) (f : ℕ) (m : Machine) → map (λ (b : List ℤ). length b) bs ≡ asked.now.lengths.items → All (IsHeld (with_buffers (launch_seen asked.now.launch) bs f m)) (map content_seen conditions.now.contents.items) → Meets (conditions_seen conditions.now) (with_buffers (launch_seen asked.now.launch) bs f m) }
{
    match meets_by_counts(conditions, &asked.launch, &asked.lengths) {
        Ok(()) => unsaid(&conditions.contents, is_held),
        Err(error) => Err(Refusal {
            number: 40,
            place: error.line as u64,
        }),
    }
}

/// Whether a launch of these numbers meets the conditions; else the first thing that is wrong with it.
pub fn allows(
    alloc: Global,
    core: &Core,
    shapes: &[Shape],
    conditions: &Conditions,
    range: &Range,
    arguments: &[Argument],
    is_held: bool,
) -> Result<(), Refusal>
    requires { ConditionsFit (core_seen core.now) (conditions_seen conditions.now) }
    ensures told { Tells result (rules.all_told (core_seen core.now) shapes.now conditions.now range.now arguments.now is_held) }
    ensures numbered { IfErr result (λ e. e.number ≢ 0) }
    ensures suits { IsOk result → Suits (core_seen core.now) shapes.now range.now arguments.now }
    ensures met { IsOk result → AllMeet (core_seen core.now) shapes.now (conditions_seen conditions.now) range.now arguments.now }
{
    let asked = launch_asked(alloc, core, shapes, range, arguments)?;
    met(conditions, &asked, is_held)
}
