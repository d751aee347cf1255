//! Whose turn it is in a replay.

ghost use Rattle.machine.specs.Worlds.{IsSound};

use machine::world::{Event, World};
use work_item::identity::group_size;
use work_item::item::Status;

/// The items that may run, from the next one on, and the group that is released next. Items before these do not run until a release, and
/// groups before that one have ended.
#[derive(Clone, Copy)]
pub struct Turn {
    next: usize,
    end: usize,
    group: usize,
}

fn is_running(world: &World, number: usize) -> bool {
    match world.items.get(number) {
        Some(item) => matches!(item.status, Status::Running),
        None => false,
    }
}

fn is_waiting(world: &World, number: usize) -> bool {
    match world.items.get(number) {
        Some(item) => matches!(item.status, Status::Waiting),
        None => false,
    }
}

impl Turn {
    /// The turn with which a replay begins: all items of the world may run, and its first group is released first.
    pub fn first(world: &World) -> Turn {
        Turn {
            next: 0,
            end: world.items.len(),
            group: 0,
        }
    }

    // The first item that runs.
    fn running(&mut self, world: &World) -> Option<u64> {
        for number in self.next..self.end {
            if is_running(world, number) {
                self.next = number;
                return Some(number as u64);
            }
        }
        self.next = self.end;
        None
    }

    // The first group that waits, all of which may run from now on. While no item runs and none stand apart, a group of which one item
    // waits may go.
    #[tactic(auto, using(machine::proofs::Moves::sizes_of))]
    fn waiting(&mut self, world: &World) -> Option<u64>
        requires { IsSound world.now }
    {
        let size = group_size(world.core) as usize;
        for group in self.group..world.items.len() / size {
            let first = group.saturating_mul(size);
            if is_waiting(world, first) {
                self.next = first;
                self.end = first.saturating_add(size);
                self.group = group;
                return Some(group as u64);
            }
        }
        None
    }

    /// The step of the first item that runs, else the release of the first group that may go on.
    pub fn event(&mut self, world: &World) -> Option<Event>
        requires { IsSound world.now }
    {
        match self.running(world) {
            Some(item) => Some(Event::Step(item)),
            None => Some(Event::Release(self.waiting(world)?)),
        }
    }
}
