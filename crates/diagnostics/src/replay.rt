//! A schedule, replayed.

ghost use Rattle.std.specs.Prelude.{◌≡◌, ◌<◌, Some, None, map, take, length, slice_index_or, IfOk};
ghost use Rattle.semantics.specs.World.{run, happens};
ghost use Rattle.machine.specs.Worlds.{setup, world as world_seen, event as event_seen, IsSound};
ghost use Rattle.diagnostics.specs.Possible.{was_possible};
ghost use Rattle.machine.specs.declared.world.Event.{Event};

use machine::world::{Applied, Event, World};
use std::alloc::AllocError;

/// An event of a schedule.
fn event_at(events: &[Event], number: usize) -> Event
    requires { number < length events.now }
    ensures { (e : Event) → result ≡ slice_index_or events.now number e }
{
    events[number]
}

/// Whether an event was possible.
fn was_possible(applied: Applied) -> bool
    ensures { result ≡ was_possible applied }
{
    !matches!(applied, Applied::NotPossible)
}

/// Applies events one after another, up to the first that is not possible, and says how many were applied: they are a run of the
/// definitions. After want of memory the world is the one behind the events so far.
pub fn replay(world: &mut World, events: &[Event]) -> Result<usize, AllocError>
    requires { IsSound world.old }
    ensures run { IfOk result (λ n. run (setup world.old) (map event_seen (take n events.now)) (world_seen world.old) ≡ Some (world_seen world.new)) }
    ensures stop { IfOk result (λ n. n < length events.now → (e : Event) → happens (setup world.old) (world_seen world.new) (event_seen (slice_index_or events.now n e)) ≡ None) }
    ensures sound { IsSound world.new }
{
    for applied in 0..events.len() {
        if !was_possible(world.apply(event_at(events, applied))?) {
            return Ok(applied);
        }
    }
    Ok(events.len())
}
