//! What each worker does.

ghost use Rattle.std.specs.Prelude.{◌<◌};
ghost use Rattle.group_workers.specs.Tasks.{IsTask, groups};

use crate::deque::{Deque, Shares, Source, Thief};
use crate::task::{GroupLog, Handed, Logged, Receives, Task};
use crate::window::Window;
use crossbeam_deque::Steal;
use lane_groups::Room;
use std::alloc::{AllocError, Global};
use std::marker::PhantomData;
use std::sync::Wait;
use words::{Gate, Moment};

/// A worker by its number, with its deque.
#[derive(Drop)]
pub struct Seat<D: Shares> {
    pub worker: u32,
    pub deque: Deque<D>,
}

/// The parts of a run's window that all its workers share.
#[derive(Drop)]
pub struct Shared<'w, J: Logged, D: Shares, R, G, L> {
    pub of: PhantomData<J>,
    pub rt: &'w R,
    pub alloc: Global,
    pub task: Task<'w>,
    pub window: Window,
    /// Whether it is the run's last window.
    pub is_last: bool,
    pub sources: &'w [Source<D>],
    pub logs: &'w L,
    pub gate: &'w G,
    /// How many groups, one after another, a worker takes together.
    pub together: u64,
}

impl<J: Logged, D: Shares, R: Wait, G: Gate, L: Receives<GroupLog<J>, R>> Shared<
    '_,
    J,
    D,
    R,
    G,
    L,
> {
    // Runs a group that was taken, and hands its log over.
    fn run_group(&self, group: u64, room: &mut Room, handed: &mut Handed) -> Result<(), AllocError>
        requires task { IsTask J.logs J.count self.now.task }
        requires group { group < groups self.now.task }
    {
        self.gate.at(handed.worker, Moment::Claimed(group));
        let log = GroupLog::of(self.alloc, self.task, group, room)?;
        let index = self.logs.put(self.rt, log)?;
        handed.indexes.push(index)?;
        self.gate.at(handed.worker, Moment::Done(group));
        Ok(())
    }

    // Runs the groups of a stretch that was taken, and hands their logs over.
    fn run_stretch(
        &self,
        stretch: u64,
        room: &mut Room,
        handed: &mut Handed,
    ) -> Result<(), AllocError>
        requires { IsTask J.logs J.count self.now.task }
    {
        // What a taker learns of a number does not say that this is a stretch of the window's groups.
        let end = self.window.end.min(self.task.groups());
        let before = stretch.saturating_mul(self.together);
        let first = self.window.first.saturating_add(before).min(end);
        let last = first.saturating_add(self.together).min(end);
        for group in first..last {
            self.run_group(group, room, handed)?;
        }
        Ok(())
    }

    // Empties the worker's own deque.
    fn run_own(
        &self,
        mut deque: Deque<D>,
        room: &mut Room,
        handed: &mut Handed,
    ) -> Result<(), AllocError>
        requires { IsTask J.logs J.count self.now.task }
    {
        for _ in self.rt.forever() {
            let Some(stretch) = deque.take() else {
                break;
            };
            self.run_stretch(stretch, room, handed)?;
        }
        Ok(())
    }

    // The worker's thieves, one for each deque. They keep what they have taken until the worker ends.
    fn thieves(&self) -> Result<Vec<Thief<'_, D>>, AllocError> {
        let mut thieves = Vec::new(self.alloc);
        for source in self.sources {
            thieves.push(Thief::of(source))?;
        }
        Ok(thieves)
    }

    // Steals by each once, and answers whether a further round may give something.
    fn run_stolen(
        &self,
        thieves: &mut Vec<Thief<'_, D>>,
        room: &mut Room,
        handed: &mut Handed,
    ) -> Result<bool, AllocError>
        requires { IsTask J.logs J.count self.now.task }
    {
        let mut gave = false;
        for thief in thieves.iter_mut() {
            match thief.steal() {
                Steal::Success(stretch) => {
                    self.run_stretch(stretch, room, handed)?;
                    gave = true;
                }
                Steal::Retry => gave = true,
                Steal::Empty => {}
            }
        }
        Ok(gave)
    }

    // Until a round gave nothing, or memory is refused.
    fn run_all(&self, deque: Deque<D>, handed: &mut Handed) -> Result<(), AllocError>
        requires { IsTask J.logs J.count self.now.task }
    {
        let mut room = Room::new(self.alloc);
        self.run_own(deque, &mut room, handed)?;
        let mut thieves = self.thieves()?;
        for _ in self.rt.forever() {
            if !self.run_stolen(&mut thieves, &mut room, handed)? {
                break;
            }
        }
        Ok(())
    }

    /// The work of one worker in the window. What it leaves at a refused allocation is the collector's. It ends there, or with the last
    /// window.
    pub fn work(&self, seat: Seat<D>) -> Handed
        requires { IsTask J.logs J.count self.now.task }
    {
        let mut handed = Handed {
            worker: seat.worker,
            indexes: Vec::new(self.alloc),
            is_refused: false,
        };
        let done = self.run_all(seat.deque, &mut handed);
        handed.is_refused = done.is_err();
        if handed.is_refused || self.is_last {
            self.gate.at(handed.worker, Moment::Ended);
        }
        handed
    }
}
