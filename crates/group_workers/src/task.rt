//! What the workers of a run have in common, and the logs of its groups.

ghost use Rattle.std.specs.Prelude.{◌≡◌, ◌<◌, ℕ, ℤ, List, [], None, IfOk};
ghost use Rattle.write_log.specs.Written.{written};
ghost use Rattle.group_workers.specs.Writing.{Log};

use core_code::tree::Core;
use kernel_code::code::Block;
use lane_groups::{Group, Room, run_group_in};
use launch::launches::Launch;
use std::alloc::{AllocError, Global};
use std::marker::{Brand, PhantomData};
use std::sync::Wait;
use work_item::identity::product_of;
use write_log::WriteLog;

/// A kernel, its lane code, its launch, and the steps that are its budget.
#[derive(Clone, Copy)]
pub struct Task<'b> {
    pub core: &'b Core,
    pub code: &'b Block,
    pub launch: &'b Launch,
    pub budget: u64,
}

impl Task<'_> {
    ghost use Rattle.semantics.specs.Launch.{Fits};
    ghost use Rattle.core_code.specs.View.{kernel as kernel_seen};
    ghost use Rattle.launch.specs.View.{launch as launch_seen};
    ghost use Rattle.group_workers.specs.Tasks.{groups};

    /// The number of the launch's groups.
    #[tactic(auto, unfolding(semantics::specs::Setup::group_count))]
    pub fn groups(&self) -> u64
        requires { Fits (kernel_seen self.now.core.now) (launch_seen self.now.launch.now) }
        ensures { result ≡ groups self.now }
    {
        product_of(self.launch.groups)
    }
}

/// What a worker gives back when it ends: at which indexes of the list the logs stand that it pushed, and whether memory was refused to it.
#[derive(Drop)]
pub struct Handed {
    pub worker: u32,
    pub indexes: Vec<usize>,
    pub is_refused: bool,
}

/// Where workers put logs. It stands for a list in what runs them, which so need not see that a list of logs may be shared.
pub trait Receives<T, R: Wait>: Sync {
    /// Puts a log, and answers at which index.
    fn put(&self, rt: &R, log: T) -> Result<usize, AllocError>;
}

/// The logs of a window, in a list that threads share without a lock.
#[derive(Drop)]
pub struct Logs<J: Logged> {
    list: boxcar::Vec<GroupLog<J>>,
}

impl<J: Logged> Logs<J> {
    /// No logs.
    pub fn new(alloc: Global) -> Result<Logs<J>, AllocError> {
        Ok(Logs {
            list: boxcar::Vec::new(alloc)?,
        })
    }

    /// The log at an index.
    pub fn get(&self, index: usize) -> Option<&GroupLog<J>> {
        self.list.get(index)
    }
}

impl<J: Logged + Send + Sync, R: Wait> Receives<GroupLog<J>, R> for Logs<J> {
    fn put(&self, rt: &R, log: GroupLog<J>) -> Result<usize, AllocError> {
        match self.list.push(rt, log) {
            Ok(index) => Ok(index),
            Err(_) => Err(AllocError),
        }
    }
}

/// Whose logs are handed over, of how many groups, and the words of the buffers before any is written. Each call picks it.
pub trait Logged {
    ghost logs: { ℕ → Log };

    ghost count: { ℕ };

    ghost before: { List (List ℤ) };
}

impl Logged for Brand {
    ghost logs = { λ _ _ _. None };

    ghost count = { 0 };

    ghost before = { [] };
}

/// The log of one group, of the run that `J` names.
#[derive(Drop)]
pub struct GroupLog<J: Logged> {
    pub group: u64,
    pub log: WriteLog,
    of: PhantomData<J>,
    ghost right: { (buffer index : ℕ) → written log buffer index ≡ J.logs group buffer index },
    ghost inside: { group < J.count },
    ghost fits: { group < 18446744073709551615 },
}

impl<J: Logged> GroupLog<J> {
    ghost use Rattle.group_workers.specs.Tasks.{IsTask, groups};

    /// The log of a group, which is run for it.
    pub fn of(
        alloc: Global,
        task: Task,
        group: u64,
        room: &mut Room,
    ) -> Result<GroupLog<J>, AllocError>
        requires task { IsTask J.logs J.count task }
        requires group { group < groups task }
        ensures { IfOk result (λ l. l.group ≡ group) }
    {
        let Task {
            core,
            code,
            launch,
            budget,
        } = task;
        let work_group = Group {
            core,
            launch,
            number: group,
        };
        let _count = task.groups();
        let log = run_group_in(alloc, work_group, code, budget, room)?;
        Ok(GroupLog {
            group,
            log,
            of: PhantomData,
        })
    }
}
