//! All paths of all places.

ghost use Rattle.std.specs.Prelude.{◌≡◌, [], map, true, IfOk, IfErr};
ghost use Rattle.core_code.specs.View.{kernel as core_seen};
ghost use Rattle.facts.specs.Launching.{are_sizes};
ghost use Rattle.path_steps.specs.View.{setting as setting_seen};
ghost use Rattle.obligations.specs.View.{seen};
ghost use Rattle.places.specs.View.{place as place_seen};
ghost use Rattle.walk.specs.Planting.{all_by};
ghost use Rattle.walk.specs.Walks.{Walks, IsAnyStuck};

use crate::error::FindError;
use crate::paths::{FromPlace, walk_from};
use core_code::tree::Core;
use domain::Domain;
use obligations::Notes;
use path_steps::Setting;
use places::Place;
use two_thread::Walked;

/// The paths of these places, place by place in order.
pub fn walk_all<D: Domain>(
    setting: &Setting<D>,
    core: &Core,
    notes: &Notes,
    places: &[Place<'_>],
) -> Result<Vec<Walked<D>>, FindError>
    requires sizes { are_sizes (core_seen core.now).sizes ≡ true }
    ensures walked { IfOk result (λ ws. Walks ws.items (all_by D.Domain (setting_seen D.Domain setting.now) (core_seen core.now) (seen notes.now setting.now.entries.items) 0 (map place_seen places.now)) []) }
    ensures stuck { IfErr result (IsAnyStuck (all_by D.Domain (setting_seen D.Domain setting.now) (core_seen core.now) (seen notes.now setting.now.entries.items) 0 (map place_seen places.now))) }
{
    let mut all = Vec::new(setting.alloc);
    let mut claims = 0;
    for place in places {
        let FromPlace { walked, after } = walk_from(setting, core, notes, place, claims)?;
        all.push(walked)?;
        claims = after;
    }
    Ok(all)
}
