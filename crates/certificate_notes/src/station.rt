//! Places, by what may be said of them.

ghost use Rattle.std.specs.Prelude.{◌≡◌, Option, map};
ghost use Rattle.std.specs.Option.{option_map};
ghost use Rattle.certificate.specs.View as view;
ghost use Rattle.certificate_notes.specs.Stations as stations;
ghost use Rattle.certificate_notes.specs.View.{chart as chart_seen, scene as scene_seen, sight as sight_seen, named};
ghost use Rattle.certificate_notes.specs.NotesView.{station as station_seen};

use crate::chart::Chart;
use crate::scenes::{Named, Scene};
use crate::sight::Sight;
use certificate::tree::{Anchor, Spot};

/// A place by the numbers of its barrier and its loop, the variables on which items may agree there, and the symbols.
#[derive(Clone, Copy)]
pub struct Station<'a> {
    pub anchor: Option<u32>,
    pub head: Option<u32>,
    pub agreeing: &'a [Named<'a>],
    pub sight: Sight<'a>,
}

/// The scene of a statement, by its number; none where no barrier or loop has it.
fn scene_at<'a>(scenes: &'a [Scene<'a>], number: u64) -> Option<&'a Scene<'a>>
    ensures { option_map (λ s. scene_seen s.now) result ≡ stations.scene_at (map scene_seen scenes.now) number }
{
    for scene in scenes {
        if scene.number as u64 == number {
            return Some(scene);
        }
    }
    None
}

/// The scene of a loop's test, by the loop's number; none where no loop has it.
pub fn loop_at<'a>(scenes: &'a [Scene<'a>], number: u64) -> Option<&'a Scene<'a>>
    ensures { option_map (λ s. scene_seen s.now) result ≡ stations.loop_at (map scene_seen scenes.now) number }
{
    for scene in scenes {
        if scene.is_loop && scene.number as u64 == number {
            return Some(scene);
        }
    }
    None
}

/// The names that a loop's test may use: what is visible there, and the loops around.
pub fn in_test<'a>(scene: &'a Scene<'a>) -> Sight<'a>
    ensures { sight_seen result ≡ stations.in_test (scene_seen scene.now) }
{
    Sight {
        here: scene.here.as_slice(),
        before: &[],
        around: scene.around.as_slice(),
        has_new: false,
        has_second: false,
    }
}

fn at_barrier<'a>(barrier: &'a Scene<'a>) -> Station<'a>
    ensures { station_seen result ≡ stations.at_barrier (scene_seen barrier.now) }
{
    Station {
        anchor: Some(barrier.number),
        head: None,
        agreeing: barrier.here.as_slice(),
        sight: in_test(barrier),
    }
}

fn at_head<'a>(anchor: Option<u32>, before: &'a [Named<'a>], head: &'a Scene<'a>) -> Station<'a>
    ensures { station_seen result ≡ stations.at_head anchor (map named before.now) (scene_seen head.now) }
{
    Station {
        anchor,
        head: Some(head.number),
        agreeing: &[],
        sight: Sight {
            here: head.here.as_slice(),
            before,
            around: head.around.as_slice(),
            has_new: false,
            has_second: false,
        },
    }
}

/// The station of a loop's head behind a barrier, by their numbers; none where the kernel lacks one of them.
fn head_behind<'a>(scenes: &'a [Scene<'a>], barrier: u64, head: u64) -> Option<Station<'a>>
    ensures { option_map station_seen result ≡ stations.head_behind (stations.scene_at (map scene_seen scenes.now) barrier) (stations.scene_at (map scene_seen scenes.now) head) }
{
    let Some(barrier) = scene_at(scenes, barrier) else {
        return None;
    };
    let Some(head) = scene_at(scenes, head) else {
        return None;
    };
    Some(at_head(Some(barrier.number), barrier.here.as_slice(), head))
}

/// A place of which something may be said.
pub fn station_of<'a>(chart: &'a Chart<'a>, spot: Spot) -> Option<Station<'a>>
    ensures { option_map station_seen result ≡ stations.station (chart_seen chart.now) (view.anchor spot.anchor) spot.head }
{
    let scenes = chart.scenes.as_slice();
    match (spot.anchor, spot.head) {
        (Anchor::KernelEntry, None) => None,
        (Anchor::KernelEntry, Some(head)) => {
            let Some(head) = scene_at(scenes, head) else {
                return None;
            };
            Some(at_head(None, chart.entry.as_slice(), head))
        }
        (Anchor::Barrier(barrier), None) => {
            let Some(barrier) = scene_at(scenes, barrier) else {
                return None;
            };
            Some(at_barrier(barrier))
        }
        (Anchor::Barrier(barrier), Some(head)) => head_behind(scenes, barrier, head),
    }
}
