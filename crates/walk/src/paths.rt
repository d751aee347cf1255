//! All paths of a place in turn.

ghost use Rattle.std.specs.Prelude.{◌≡◌, ◌≤◌, ◌<◌, ◌+◌, map, true, Some, IfOk, IfErr, MatchResult};
ghost use Rattle.core_code.specs.View.{kernel as core_seen};
ghost use Rattle.facts.specs.Launching.{are_sizes};
ghost use Rattle.walk_trees.specs.Trees.{after as after_tree};
ghost use Rattle.path_steps.specs.View.{setting as setting_seen, choice as choice_seen};
ghost use Rattle.walk.specs.View.{maybe_choices};
ghost use Rattle.arrival_claims.specs.View.{placed};
ghost use Rattle.obligations.specs.View.{seen};
ghost use Rattle.places.specs.View.{place as place_seen};
ghost use Rattle.walk.specs.Planting.{planted_at, planted_by};
ghost use Rattle.walk.specs.Walks.{Goes, AreOf, IsOf, IsStuck, left_of};
ghost use Rattle.walk.specs.declared.error.FindError.TheVariants as errors;

use crate::choices::next_choices;
use crate::error::FindError;
use crate::following::follow;
use crate::numbers::{number_at, statement_of};
use arrival_claims::Placing;
use core_code::tree::Core;
use domain::Domain;
use obligations::Notes;
use path_steps::{Choice, Path, Setting};
use places::Place;
use two_thread::Walked;

/// The findings along the paths of a place so far: the paths, how many of them came to an end, 256 at most, and how many claims stand
/// before the end of the last one.
#[derive(Drop)]
struct SoFar<D> {
    paths: Vec<Path<D>>,
    ends: usize,
    count: u32,
    ghost few: { ends ≤ 256 },
}

/// All paths of a place, and how many claims stand behind it.
#[derive(Drop)]
pub struct FromPlace<D> {
    pub walked: Walked<D>,
    pub after: u32,
}

/// The count of paths that came to an end, with so many more; an error where there would be more than 256.
pub fn count_ends(statement: Option<u32>, ends: usize, more: usize) -> Result<usize, FindError>
    requires { ends ≤ 256 }
    ensures { MatchResult result (λ n. (n ≡ ends + more) × (n ≤ 256)) (λ e. (e ≡ errors.ManyPaths statement) × (256 < ends + more)) }
{
    if more > 256 - ends {
        return Err(FindError::ManyPaths(statement));
    }
    Ok(ends + more)
}

/// One path more, along these choices; and the choices of the next one.
fn turn<D: Domain>(
    placing: &Placing<'_, D>,
    place: &Place<'_>,
    claims: u32,
    so_far: &mut SoFar<D>,
    given: Vec<Choice>,
) -> Result<Option<Vec<Choice>>, FindError>
    requires sizes { are_sizes (core_seen placing.now.core.now).sizes ≡ true }
    requires goes { Goes (planted_at D.Domain (placed D.Domain placing.now) claims (place_seen place.now)) so_far.old.paths.items so_far.old.ends so_far.old.count (Some (map choice_seen given.items)) }
    ensures goes { IfOk result (λ next. Goes (planted_at D.Domain (placed D.Domain placing.now) claims (place_seen place.now)) so_far.new.paths.items so_far.new.ends so_far.new.count (maybe_choices next)) }
    ensures fewer { IfOk result (λ next. left_of (planted_at D.Domain (placed D.Domain placing.now) claims (place_seen place.now)) (maybe_choices next) < left_of (planted_at D.Domain (placed D.Domain placing.now) claims (place_seen place.now)) (Some (map choice_seen given.items))) }
    ensures stuck { IfErr result (IsStuck (planted_at D.Domain (placed D.Domain placing.now) claims (place_seen place.now))) }
{
    let path = follow(placing, place, claims, given)?;
    let more = path.ends.len();
    let statement = statement_of(placing.anchor, placing.head);
    let ends = count_ends(statement, so_far.ends, more)?;
    let count = path.count;
    let next = next_choices(placing.setting.alloc, path.taken.as_slice(), count)?;
    so_far.paths.push(path)?;
    so_far.ends = ends;
    so_far.count = count;
    Ok(next)
}

/// All paths of a place, with so many claims before it.
fn walk_paths<D: Domain>(
    placing: &Placing<'_, D>,
    place: &Place<'_>,
    claims: u32,
) -> Result<SoFar<D>, FindError>
    requires sizes { are_sizes (core_seen placing.now.core.now).sizes ≡ true }
    ensures walked { IfOk result (λ s. AreOf s.paths.items (planted_at D.Domain (placed D.Domain placing.now) claims (place_seen place.now))) }
    ensures after { IfOk result (λ s. s.count ≡ after_tree claims (planted_at D.Domain (placed D.Domain placing.now) claims (place_seen place.now)).tree) }
    ensures stuck { IfErr result (IsStuck (planted_at D.Domain (placed D.Domain placing.now) claims (place_seen place.now))) }
{
    let mut so_far = SoFar {
        paths: Vec::new(placing.setting.alloc),
        ends: 0,
        count: claims,
    };
    let mut next = Some(Vec::new(placing.setting.alloc));
    while let Some(given) = next {
        next = turn(placing, place, claims, &mut so_far, given)?;
    }
    Ok(so_far)
}

/// All paths of a place, with so many claims before it; at most 256 of them come to an end.
pub fn walk_from<D: Domain>(
    setting: &Setting<D>,
    core: &Core,
    notes: &Notes,
    place: &Place<'_>,
    claims: u32,
) -> Result<FromPlace<D>, FindError>
    requires sizes { are_sizes (core_seen core.now).sizes ≡ true }
    ensures walked { IfOk result (λ r. IsOf r.walked (planted_by D.Domain (setting_seen D.Domain setting.now) (core_seen core.now) (seen notes.now setting.now.entries.items) claims (place_seen place.now))) }
    ensures after { IfOk result (λ r. r.after ≡ after_tree claims (planted_by D.Domain (setting_seen D.Domain setting.now) (core_seen core.now) (seen notes.now setting.now.entries.items) claims (place_seen place.now)).tree) }
    ensures stuck { IfErr result (IsStuck (planted_by D.Domain (setting_seen D.Domain setting.now) (core_seen core.now) (seen notes.now setting.now.entries.items) claims (place_seen place.now))) }
{
    let anchor = number_at(&place.anchor);
    let head = number_at(&place.head);
    let placing = Placing {
        setting,
        core,
        notes,
        anchor,
        head,
    };
    let SoFar { paths, count, .. } = walk_paths(&placing, place, claims)?;
    Ok(FromPlace {
        walked: Walked {
            anchor,
            head,
            paths,
        },
        after: count,
    })
}
