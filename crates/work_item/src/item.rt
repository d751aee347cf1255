//! How a work-item stands, and how it goes on.

ghost use Rattle.std.specs.Prelude.{◌≡◌, ◌+◌, ◌<◌, ◌≤◌, ◌^◌, ◌↔◌, ◌++◌, pos, IsTrue, ℕ, [], Some, map, slice_set, IfOk, OnOk, OnErr};
ghost use Rattle.semantics.specs.Item as meaning;
ghost use Rattle.semantics.specs.Ask as asks;
ghost use Rattle.semantics.specs.Solo.{moved, opening};
ghost use Rattle.semantics.specs.Word as word;
ghost use Rattle.words.specs.View.{word as word_seen, kind as kind_seen, value_of};
ghost use Rattle.core_code.specs.View.{statements as statements_seen};
ghost use Rattle.work_item.specs.View.{setup_of};
ghost use Rattle.work_item.specs.Left.{behind, turned, front_flag};
ghost use Rattle.work_item.specs.Asks.{asked as asked_seen};
ghost use Rattle.work_item.specs.Items.{item, status as status_seen, HasEpochs};
ghost use Rattle.work_item.specs.declared.left.Frame.{Frame};

use crate::ask::Ask;
use crate::left::{Frame, Left};
use core_code::tree::{Core, Site, Statement};
use launch::launches::Launch;
use std::alloc::{AllocError, Global};
use words::{Fault, Kind, Word, read_as};

/// The status of a work-item: running, waiting at a barrier, ended, or stopped by a fault.
#[derive(Clone, Copy)]
pub enum Status {
    Running,
    /// The item is at a barrier that its group has not passed yet.
    Waiting,
    Ended,
    /// The item is stopped by a fault, told at a site.
    Stopped { fault: Fault, site: Site },
}

/// A work-item: what is left of its statements, its private variables, the answers to the loads of the statement in front, how many
/// barriers it has passed with each flag, and how many steps it has taken.
#[derive(Drop)]
pub struct Item<'a> {
    pub left: Left<'a>,
    pub variables: Vec<Word>,
    pub answers: Vec<Word>,
    pub local_epoch: u64,
    pub global_epoch: u64,
    pub steps: u64,
    pub status: Status,
}

/// One more; past 64 bits there is no memory for it.
fn next(count: u64) -> Result<u64, AllocError>
    ensures { IfOk result (λ n. n ≡ count + 1) }
{
    count.checked_add(1).ok_or(AllocError)
}

/// The word of a kind that is 0.
fn zero(kind: Kind) -> Word
    ensures { word_seen result ≡ word.word (kind_seen kind) (pos 0) }
{
    match kind {
        Kind::Int => Word::Int(0),
        Kind::Uint => Word::Uint(0),
        Kind::Size => Word::Size(0),
    }
}

/// The private variables as an item begins: arguments in their slots, then zeros.
fn opening_variables(alloc: Global, core: &Core, launch: &Launch) -> Result<Vec<Word>, AllocError>
    ensures { IfOk result (λ v. map word_seen v.items ≡ map word_seen launch.now.arguments.items ++ map (λ k. word.word k (pos 0)) (map kind_seen core.now.variables.items)) }
{
    let mut words = Vec::from_slice(alloc, launch.arguments.as_slice())?;
    for kind in &core.variables {
        words.push(zero(*kind))?;
    }
    Ok(words)
}

/// A private variable is set; one that there is not stays so.
#[tactic(auto, using(crate::proofs::Slots::set_seen, crate::proofs::Slots::set_beyond))]
fn assign(variables: &mut Vec<Word>, slot: u32, word: Word)
    ensures { map word_seen variables.new.items ≡ slice_set (map word_seen variables.old.items) slot (word_seen word) }
{
    if (slot as usize) < variables.len() {
        variables[slot as usize] = word;
    }
}

impl<'a> Item<'a> {
    /// An item of a kernel before its first step at a launch.
    #[tactic(auto, unfolding(semantics::specs::Solo::opening))]
    pub fn open(alloc: Global, core: &'a Core, launch: &Launch) -> Result<Item<'a>, AllocError>
        ensures { IfOk result (λ it. (i : ℕ) → item it ≡ opening (setup_of core.now launch.now) i) }
    {
        let mut left = Left::new(alloc);
        left.make_room()?;
        left.enter(core.body.as_slice());
        let mut opened = Item {
            left,
            variables: opening_variables(alloc, core, launch)?,
            answers: Vec::new(alloc),
            local_epoch: 0,
            global_epoch: 0,
            steps: 0,
            status: Status::Running,
        };
        opened.status = opened.standing();
        Ok(opened)
    }

    /// The status of an item that goes on: running, or ended where no statement is left.
    fn standing(&self) -> Status
        ensures { status_seen result ≡ meaning.status_of (item self.now).left }
    {
        match self.left.front {
            Some(_) => Status::Running,
            None => Status::Ended,
        }
    }

    /// The statement in front is done.
    fn finish(&mut self, steps: u64)
        requires { steps ≡ self.old.steps + 1 }
        ensures { item self.new ≡ meaning.finished (item self.old) (item self.old).left (item self.old).variables }
    {
        self.answers.clear();
        self.steps = steps;
        self.status = self.standing();
    }

    /// Gives a load its answer, a word, in one step.
    pub fn answer(&mut self, word: Word) -> Result<(), AllocError>
        ensures done { OnOk result (item self.new ≡ meaning.answered_by (item self.old) (word_seen word)) }
        ensures unchanged { OnErr result (item self.new ≡ item self.old) }
    {
        let steps = next(self.steps)?;
        self.answers.push(word)?;
        self.steps = steps;
        Ok(())
    }

    /// Puts the item into a status in one step: it waits at its barrier, or is stopped by a fault.
    pub fn stand(&mut self, status: Status) -> Result<(), AllocError>
        ensures done { OnOk result (item self.new ≡ meaning.stands (item self.old) (status_seen status)) }
        ensures unchanged { OnErr result (item self.new ≡ item self.old) }
    {
        self.steps = next(self.steps)?;
        self.status = status;
        Ok(())
    }

    /// Does the statement in front, in one step: what is left stands behind it.
    pub fn pass_by(&mut self) -> Result<(), AllocError>
        ensures done { OnOk result (item self.new ≡ meaning.finished (item self.old) (behind (item self.old).left) (item self.old).variables) }
        ensures unchanged { OnErr result (item self.new ≡ item self.old) }
    {
        let steps = next(self.steps)?;
        self.left.advance();
        self.finish(steps);
        Ok(())
    }

    /// Sets a private variable, in one step.
    pub fn set(&mut self, slot: u32, word: Word) -> Result<(), AllocError>
        ensures done { OnOk result (item self.new ≡ meaning.finished (item self.old) (behind (item self.old).left) (slice_set (item self.old).variables slot (word_seen word))) }
        ensures unchanged { OnErr result (item self.new ≡ item self.old) }
    {
        let steps = next(self.steps)?;
        assign(&mut self.variables, slot, word);
        self.left.advance();
        self.finish(steps);
        Ok(())
    }

    /// Enters a block, in one step: the statement in front is done.
    pub fn take(&mut self, block: &'a [Statement]) -> Result<(), AllocError>
        ensures done { OnOk result (item self.new ≡ meaning.finished (item self.old) (meaning.enter (statements_seen block.now) (behind (item self.old).left)) (item self.old).variables) }
        ensures unchanged { OnErr result (item self.new ≡ item self.old) }
    {
        let steps = next(self.steps)?;
        self.left.make_room()?;
        self.left.advance();
        self.left.enter(block);
        self.finish(steps);
        Ok(())
    }

    /// Ends the item, of which no statement is left; one step more.
    pub fn end(&mut self) -> Result<(), AllocError>
        ensures done { OnOk result (item self.new ≡ meaning.finished (item self.old) [] (item self.old).variables) }
        ensures unchanged { OnErr result (item self.new ≡ item self.old) }
    {
        let steps = next(self.steps)?;
        self.left.clear();
        self.finish(steps);
        Ok(())
    }

    /// Leaves the loop of that number, in one step: what is left stands behind it.
    pub fn leave(&mut self, number: u32) -> Result<(), AllocError>
        ensures done { OnOk result (item self.new ≡ meaning.finished (item self.old) (meaning.leave number (behind (item self.old).left)) (item self.old).variables) }
        ensures unchanged { OnErr result (item self.new ≡ item self.old) }
    {
        let steps = next(self.steps)?;
        self.left.advance();
        self.left.leave(number);
        self.finish(steps);
        Ok(())
    }

    /// Goes to the update of the loop of that number, and behind that to its test, in one step.
    pub fn resume(&mut self, number: u32) -> Result<(), AllocError>
        ensures done { OnOk result (item self.new ≡ meaning.finished (item self.old) (meaning.resume number (behind (item self.old).left)) (item self.old).variables) }
        ensures unchanged { OnErr result (item self.new ≡ item self.old) }
    {
        let steps = next(self.steps)?;
        self.left.make_room()?;
        self.left.advance();
        self.left.resume(number);
        self.finish(steps);
        Ok(())
    }

    // The turns of the loop in front, and one more.
    fn next_turn(&self) -> Result<u64, AllocError>
        ensures { IfOk result (λ n. (f : Frame) → self.now.left.front ≡ Some f → n ≡ f.turns + 1) }
    {
        match self.left.front {
            Some(frame) => next(frame.turns),
            None => Ok(0),
        }
    }

    /// A turn of the loop in front: into its body, and behind that into its update.
    pub fn repeat(
        &mut self,
        body: &'a [Statement],
        update: &'a [Statement],
    ) -> Result<(), AllocError>
        ensures done { OnOk result (item self.new ≡ meaning.finished (item self.old) (meaning.enter (statements_seen body.now) (meaning.enter (statements_seen update.now) (turned (item self.old).left))) (item self.old).variables) }
        ensures unchanged { OnErr result (item self.new ≡ item self.old) }
    {
        let steps = next(self.steps)?;
        let turns = self.next_turn()?;
        self.left.make_room()?;
        self.left.turn(turns);
        self.left.enter(update);
        self.left.enter(body);
        self.finish(steps);
        Ok(())
    }

    // Whether the barrier in front has the local flag: 1, else 0.
    fn local_flag(&self) -> u64
        ensures value { result ≡ front_flag meaning.local_flag (item self.now).left }
        ensures small { result ≤ 1 }
    {
        match self.left.front {
            Some(
                Frame {
                    statement: Statement::Barrier { local, .. },
                    ..
                },
            ) => *local as u64,
            _ => 0,
        }
    }

    // Whether the barrier in front has the global flag: 1, else 0.
    fn global_flag(&self) -> u64
        ensures value { result ≡ front_flag meaning.global_flag (item self.now).left }
        ensures small { result ≤ 1 }
    {
        match self.left.front {
            Some(
                Frame {
                    statement: Statement::Barrier { global, .. },
                    ..
                },
            ) => *global as u64,
            _ => 0,
        }
    }

    /// Whether the item's counts of passed barriers have room for one more, as they have until 64 bits are full.
    pub fn can_pass(&self) -> bool
        ensures { IsTrue result ↔ HasEpochs (item self.now) }
    {
        self.local_epoch < u64::MAX && self.global_epoch < u64::MAX
    }

    /// Lets the item go past the barrier in front, which is counted where it fences.
    #[tactic(auto, using(crate::proofs::Passing::passed))]
    pub fn pass(&mut self)
        requires { HasEpochs (item self.old) }
        ensures { asks.passes (item self.old) (item self.old).left ≡ asks.Waits (item self.new) }
    {
        self.local_epoch += self.local_flag();
        self.global_epoch += self.global_flag();
        self.left.advance();
        self.answers.clear();
        self.status = self.standing();
    }

    /// Does what the item asked for; a load is answered by a word, read as its element's kind. An error is want of memory for it.
    pub fn perform(&mut self, asked: Ask<'a>, loaded: Word) -> Result<(), AllocError>
        ensures done { OnOk result (item self.new ≡ moved (item self.old) (asked_seen asked.entry (item self.old)) (value_of loaded)) }
        ensures unchanged { OnErr result (item self.new ≡ item self.old) }
    {
        match asked {
            Ask::Loads { kind, .. } => self.answer(read_as(loaded, kind)),
            Ask::Stores { .. } | Ask::PassesBy => self.pass_by(),
            Ask::Faults { fault, site } => self.stand(Status::Stopped { fault, site }),
            Ask::Sets { slot, value } => self.set(slot, value),
            Ask::Takes { block } => self.take(block),
            Ask::Repeats { body, update } => self.repeat(body, update),
            Ask::Arrives => self.stand(Status::Waiting),
            Ask::Ends => self.end(),
            Ask::Leaves { number } => self.leave(number),
            Ask::Resumes { number } => self.resume(number),
            Ask::Waits => self.pass_where_there_is_room(),
            Ask::Rests => Ok(()),
        }
    }

    fn pass_where_there_is_room(&mut self) -> Result<(), AllocError>
        ensures done { OnOk result (asks.passes (item self.old) (item self.old).left ≡ asks.Waits (item self.new)) }
        ensures unchanged { OnErr result (item self.new ≡ item self.old) }
    {
        if !self.can_pass() {
            return Err(AllocError);
        }
        self.pass();
        Ok(())
    }
}
