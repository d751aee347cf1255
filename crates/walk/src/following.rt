//! One path of a place.

ghost use Rattle.std.specs.Prelude.{◌≡◌, map, true, IfOk, OnOk, IfErr};
ghost use Rattle.core_code.specs.View.{kernel as core_seen};
ghost use Rattle.facts.specs.Launching.{are_sizes};
ghost use Rattle.walk_trees.specs.Fitting.{all_fit};
ghost use Rattle.path_steps.specs.Paths.{collect};
ghost use Rattle.path_steps.specs.View.{followed, choice as choice_seen};
ghost use Rattle.walk.specs.Paths.{begun};
ghost use Rattle.arrival_claims.specs.View.{placed};
ghost use Rattle.places.specs.View.{place as place_seen};
ghost use Rattle.walk.specs.Planting.{planted_at};
ghost use Rattle.walk.specs.Walks.{IsCut};

use arrival_claims::Placing;
use domain::Domain;
use facts::WalkError;
use path_steps::{Choice, Path};
use path_walk::{root_of, walk_place};
use places::Place;

/// One path from a place to its end, with so many claims before it, along these choices.
pub fn follow<D: Domain>(
    placing: &Placing<'_, D>,
    place: &Place<'_>,
    claims: u32,
    given: Vec<Choice>,
) -> Result<Path<D>, WalkError>
    requires sizes { are_sizes (core_seen placing.now.core.now).sizes ≡ true }
    ensures found { IfOk result (λ p. (followed p).found ≡ collect (begun (planted_at D.Domain (placed D.Domain placing.now) claims (place_seen place.now)).facts claims (map choice_seen given.items)) (planted_at D.Domain (placed D.Domain placing.now) claims (place_seen place.now)).tree) }
    ensures known { OnOk result (all_fit (planted_at D.Domain (placed D.Domain placing.now) claims (place_seen place.now)).facts ≡ true) }
    ensures cut { IfErr result (IsCut (planted_at D.Domain (placed D.Domain placing.now) claims (place_seen place.now)) (map choice_seen given.items)) }
{
    let path = root_of(placing, claims, given)?;
    walk_place(placing, place, path)
}
