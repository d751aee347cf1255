//! The collector: the logs, written in the order of their groups.

ghost use Rattle.std.specs.Prelude.{◌≡◌, ◌<◌, ◌≤◌, ◌+◌, OnOk, IsTrue, IsFalse};
ghost use Rattle.write_log.specs.Written.{words_of};
ghost use Rattle.group_workers.specs.Writing.{HasLog, HasLogs};
ghost use Rattle.group_workers.specs.Tasks.{IsTask, groups};

use crate::task::{GroupLog, Handed, Logged, Logs, Task};
use crate::window::Window;
use lane_groups::Room;
use launch::launches::Buffers;
use std::alloc::{AllocError, Global};
use std::marker::PhantomData;
use write_log::apply;

/// Buffers with the logs of the first groups, in their order.
#[derive(Drop)]
pub struct Collected<J: Logged> {
    pub next: u64,
    pub buffers: Buffers,
    of: PhantomData<J>,
    ghost first: { HasLogs J.logs next J.before (words_of buffers) },
    ghost few: { next ≤ J.count },
}

/// Of each group of a window the index at which its log stands, by what the workers gave back; where none came, an index past all.
fn indexes_of<J: Logged>(
    alloc: Global,
    window: Window,
    logs: &Logs<J>,
    handed: &[Handed],
) -> Result<Vec<usize>, AllocError> {
    let mut indexes = Vec::from_elem(alloc, usize::MAX, window.groups() as usize)?;
    for one in handed {
        for index in &one.indexes {
            if let Some(log) = logs.get(*index) {
                let place = log.group.saturating_sub(window.first);
                if let Some(there) = indexes.get_mut(place as usize) {
                    *there = *index;
                }
            }
        }
    }
    Ok(indexes)
}

impl<J: Logged> Collected<J> {
    /// Buffers with no log as yet.
    pub fn new(buffers: Buffers) -> Collected<J>
        requires { words_of buffers ≡ J.before }
    {
        Collected {
            next: 0,
            buffers,
            of: PhantomData,
        }
    }

    // Writes the log of the next group.
    fn write(&mut self, log: &GroupLog<J>)
        requires { log.now.group ≡ self.old.next }
        ensures { self.new.next ≡ self.old.next + 1 }
    {
        apply(&mut self.buffers, &log.log);
        self.next += 1;
    }

    // Runs the next group, and writes its log.
    fn run_next(&mut self, alloc: Global, task: Task, room: &mut Room) -> Result<(), AllocError>
        requires task { IsTask J.logs J.count task }
        requires more { self.old.next < groups task }
        ensures { OnOk result (self.new.next ≡ self.old.next + 1) }
    {
        let log = GroupLog::of(alloc, task, self.next, room)?;
        self.write(&log);
        Ok(())
    }

    /// Runs the groups that are left, one after the other, and writes the log of each.
    pub fn run_left(&mut self, alloc: Global, task: Task) -> Result<(), AllocError>
        requires { IsTask J.logs J.count task }
        ensures { OnOk result (self.new.next ≡ groups task.entry) }
    {
        let count = task.groups();
        let mut room = Room::new(alloc);
        while self.next < count {
            self.run_next(alloc, task, &mut room)?;
        }
        Ok(())
    }

    // Writes the log of the next group that stands at an index, if it does.
    fn write_next(&mut self, logs: &Logs<J>, index: usize) -> bool
        ensures wrote { IsTrue result → self.new.next ≡ self.old.next + 1 }
        ensures none { IsFalse result → self.new.next ≡ self.old.next }
    {
        let Some(log) = logs.get(index) else {
            return false;
        };
        if log.group != self.next {
            return false;
        }
        self.write(log);
        true
    }

    /// Writes the logs of a window in the order of its groups, which are the next ones. A group of which no log came is run here.
    pub fn take(
        &mut self,
        alloc: Global,
        task: Task,
        window: Window,
        logs: &Logs<J>,
        handed: &[Handed],
    ) -> Result<(), AllocError>
        requires task { IsTask J.logs J.count task }
        requires window { window.end ≤ groups task }
        ensures { OnOk result (window.end ≤ self.new.next) }
    {
        let indexes = indexes_of(alloc, window, logs, handed)?;
        let mut room = Room::new(alloc);
        while self.next < window.end {
            let place = self.next.saturating_sub(window.first);
            let index = indexes.get(place as usize).copied().unwrap_or(usize::MAX);
            if !self.write_next(logs, index) {
                self.run_next(alloc, task, &mut room)?;
            }
        }
        Ok(())
    }
}
