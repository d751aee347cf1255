//! The slots that are visible at scenes.

ghost use Rattle.std.specs.Prelude.{◌≡◌, IfOk, map};
ghost use Rattle.certificate_notes.specs.Noted as noted;
ghost use Rattle.certificate_notes.specs.View.{chart as chart_seen, scene as scene_seen, named};
ghost use Rattle.certificate_notes.specs.NotesView.{visible as visible_seen};

use crate::chart::Chart;
use crate::error::NamesError;
use crate::scenes::{Named, Scene};
use obligations::Visible;
use std::alloc::Global;

/// The slots of variables.
fn slots_of(alloc: Global, names: &[Named<'_>]) -> Result<Vec<u32>, NamesError>
    ensures { IfOk result (λ v. v.items ≡ map noted.slot (map named names.now)) }
{
    let mut slots = Vec::new(alloc);
    for variable in names {
        slots.push(variable.slot)?;
    }
    Ok(slots)
}

/// The slots that are visible at a scene, with its statement's number.
fn visible_at(alloc: Global, scene: &Scene<'_>) -> Result<Visible, NamesError>
    ensures { IfOk result (λ v. visible_seen v ≡ noted.visible_at (scene_seen scene.now)) }
{
    let slots = slots_of(alloc, scene.here.as_slice())?;
    Ok(Visible {
        statement: Some(scene.number),
        slots,
    })
}

/// The slots that are visible at a kernel's entry, and at each of its scenes.
pub fn visible_in(alloc: Global, chart: &Chart<'_>) -> Result<Vec<Visible>, NamesError>
    ensures { IfOk result (λ v. map visible_seen v.items ≡ noted.visible_in (chart_seen chart.now)) }
{
    let mut visible = Vec::new(alloc);
    let slots = slots_of(alloc, chart.entry.as_slice())?;
    visible.push(Visible {
        statement: None,
        slots,
    })?;
    for scene in chart.scenes.as_slice() {
        let one = visible_at(alloc, scene)?;
        visible.push(one)?;
    }
    Ok(visible)
}
