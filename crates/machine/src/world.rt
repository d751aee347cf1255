//! The world of a launch, and its events.

ghost use Rattle.std.specs.Prelude.{◌≡◌, ◌<◌, ◌*◌, ℕ, ℤ, true, pos, map, length, replicate, vec_len, vec_capacity, OnOk, OnErr, IfOk};
ghost use Rattle.std.specs.Option.{option_map};
ghost use Rattle.semantics.specs.Core as core;
ghost use Rattle.semantics.specs.Launch.{Fits};
ghost use Rattle.semantics.specs.Setup as setups;
ghost use Rattle.semantics.specs.Item as items;
ghost use Rattle.semantics.specs.Memory as memories;
ghost use Rattle.semantics.specs.Ask as asks;
ghost use Rattle.semantics.specs.Solo as solo;
ghost use Rattle.semantics.specs.World as events;
ghost use Rattle.semantics.specs.World.{opening_world, put_item};
ghost use Rattle.words.specs.View.{value_of};
ghost use Rattle.core_code.specs.View.{kernel as kernel_seen};
ghost use Rattle.launch.specs.View.{launch as launch_seen};
ghost use Rattle.work_item.specs.Proper.{is_proper};
ghost use Rattle.work_item.specs.View.{setup_of};
ghost use Rattle.work_item.specs.Items.{item as item_seen};
ghost use Rattle.work_item.specs.Asks.{asked as asked_seen, owner as owner_seen};
ghost use Rattle.machine.specs.Memories.{Inside, HasShape, memory};
ghost use Rattle.clashes.specs.View.{access as access_seen};
ghost use Rattle.clashes.specs.Watched.{AreNext};
ghost use Rattle.machine.specs.Worlds.{setup, world, items_in, items_of, event as event_seen, IsSound, remembered, answered, stepped, StoresInside, is_move, told, Answers};

use crate::memory::Memory;
use clashes::access::Access;
use clashes::history::History;
use core_code::tree::{Core, Site};
use launch::launches::Launch;
use std::alloc::{AllocError, Global};
use typed_kernels::Typed;
use words::{Fault, Word};
use work_item::ask::{Ask, Cell, Owner};
use work_item::identity::{group_size, identity, product_of};
use work_item::item::Item;

/// One step of an item, or the release of a group that waits at a barrier; items and groups by their numbers.
#[derive(Clone, Copy)]
pub enum Event {
    Step(u64),
    Release(u64),
}

/// The outcome of an event.
#[derive(Clone, Copy)]
pub enum Applied {
    Done,
    /// Nothing: the event is not possible.
    NotPossible,
    /// The step stopped its item by a fault, told at a site.
    Faulted(Fault, Site),
}

/// All work-items of a launch over one memory, and their accesses so far, the oldest first.
#[derive(Drop)]
pub struct World<'a> {
    pub core: &'a Core,
    pub launch: &'a Launch,
    pub memory: Memory,
    pub items: Vec<Item<'a>>,
    pub history: History,
}

/// The epoch of an item, of the space that an owner's arrays are in.
fn epoch(item: &Item, owner: Owner) -> u64
    ensures { result ≡ solo.epoch (item_seen item.now) (owner_seen owner) }
{
    match owner {
        Owner::Launch => item.global_epoch,
        Owner::Group(_) => item.local_epoch,
    }
}

/// The access that an item makes by what it asks for.
#[tactic(auto, using(crate::proofs::Steps::touches_nothing))]
fn touched(number: u64, item: &Item, asked: Ask) -> Option<Access>
    ensures { option_map access_seen result ≡ solo.touch number (item_seen item.now) (asked_seen asked.entry (item_seen item.now)) }
{
    match asked {
        Ask::Loads { at, site, .. } => Some(Access {
            item: number,
            at,
            is_store: false,
            epoch: epoch(item, at.owner),
            site,
        }),
        Ask::Stores { at, site, .. } => Some(Access {
            item: number,
            at,
            is_store: true,
            epoch: epoch(item, at.owner),
            site,
        }),
        _ => None,
    }
}

impl Memory {
    /// The word that answers what an item asks for: the element's for a load, else 0.
    #[tactic(auto, using(crate::proofs::Steps::answers_nothing))]
    pub fn answer(&self, asked: Ask) -> Word
        ensures { (it : items.Item) → value_of result ≡ answered (asked_seen asked.entry it) (memory self.now) }
    {
        match asked {
            Ask::Loads { at, .. } => self.read(at),
            _ => Word::Int(0),
        }
    }

    /// Stores what an item asked to store; nothing for what else it asked.
    #[tactic(auto, using(crate::proofs::Steps::remembers_nothing))]
    pub fn remember(&mut self, asked: Ask)
        requires { StoresInside self.old asked }
        ensures memory { (it : items.Item) → memory self.new ≡ remembered (asked_seen asked.entry it) (memory self.old) }
        ensures shape { (s : setups.Setup) → HasShape s self.old → HasShape s self.new }
    {
        if let Ask::Stores { at, value, .. } = asked {
            self.write(at, value);
        }
    }
}

/// Whether an item that asks for this may step: it neither waits nor rests.
fn is_move(asked: Ask) -> bool
    ensures { result ≡ is_move asked.entry }
{
    !matches!(asked, Ask::Waits | Ask::Rests)
}

/// The outcome of a step by what the item asked for: its fault, or done.
fn told(asked: Ask) -> Applied
    ensures { result ≡ told asked.entry }
{
    match asked {
        Ask::Faults { fault, site } => Applied::Faulted(fault, site),
        _ => Applied::Done,
    }
}

/// Does what one of the items asked for, with the word that answers a load; an item without memory for it stays as it is.
fn perform<'a>(
    all: &mut Vec<Item<'a>>,
    number: usize,
    asked: Ask<'a>,
    loaded: Word,
) -> Result<(), AllocError>
    requires { number < length all.old.items }
    ensures done { OnOk result ((past : ℕ → items.Item) → items_in all.new.items past ≡ put_item number (solo.moved (items_in all.old.items past number) (asked_seen asked.entry (items_in all.old.items past number)) (value_of loaded)) (items_in all.old.items past)) }
    ensures unchanged { OnErr result (map item_seen all.new.items ≡ map item_seen all.old.items) }
    ensures count { length all.new.items ≡ length all.old.items }
{
    all[number].perform(asked, loaded)
}

/// A product; past 64 bits there is no memory for so many items.
fn product(groups: u64, size: u64) -> Result<u64, AllocError>
    ensures { IfOk result (λ n. n ≡ groups * size) }
{
    groups.checked_mul(size).ok_or(AllocError)
}

/// All items of a launch, as they begin.
fn open_items<'a>(
    alloc: Global,
    core: &'a Core,
    launch: &Launch,
    count: u64,
) -> Result<Vec<Item<'a>>, AllocError>
    ensures { IfOk result (λ v. (i : ℕ) → map item_seen v.items ≡ replicate count (solo.opening (setup_of core.now launch.now) i)) }
{
    let mut all = Vec::new(alloc);
    for _number in 0..count {
        all.push(Item::open(alloc, core, launch)?)?;
    }
    Ok(all)
}

impl<'a> World<'a> {
    // The access that an item makes by what it asks for.
    fn touches(&self, number: usize, asked: Ask) -> Option<Access>
        requires { number < length self.now.items.items }
        ensures { option_map access_seen result ≡ solo.touch number (items_of self.now number) (asked_seen asked.entry (items_of self.now number)) }
    {
        touched(number as u64, &self.items[number], asked)
    }

    // The step of an item that asks so.
    fn take_step(&mut self, number: usize, asked: Ask<'a>) -> Result<(), AllocError>
        requires number { number < length self.old.items.items }
        requires asked { asked_seen asked (items_of self.old number) ≡ asks.ask (setup self.old) number (items_of self.old number) }
        requires inside { StoresInside self.old.memory asked }
        requires goes { is_move asked ≡ true }
        requires sound { IsSound self.old }
        ensures done { OnOk result (world self.new ≡ stepped (world self.old) number (asked_seen asked.entry (items_of self.old number))) }
        ensures unchanged { OnErr result (world self.new ≡ world self.old) }
        ensures sound { IsSound self.new }
        ensures core { self.new.core.now ≡ self.old.core.now }
        ensures launch { self.new.launch.now ≡ self.old.launch.now }
    {
        let access = self.touches(number, asked);
        self.history.reserve(access)?;
        let loaded = self.memory.answer(asked);
        perform(&mut self.items, number, asked, loaded)?;
        self.memory.remember(asked);
        self.history.note(access, group_size(self.core));
        Ok(())
    }

    // What an item asks for.
    fn asked(&self, number: usize) -> Ask<'a>
        requires number { number < length self.now.items.items }
        requires sound { IsSound self.now }
        ensures asked { asked_seen result (items_of self.now number) ≡ asks.ask (setup self.now) number (items_of self.now number) }
        ensures inside { StoresInside self.now.memory result }
    {
        identity(self.core, self.launch, number as u64).ask(&self.items[number])
    }

    /// One event, exactly as the definitions have it. `NotPossible`, and want of memory, leave the world as it was; a count of more than
    /// 64 bits is want of memory too.
    pub fn apply(&mut self, event: Event) -> Result<Applied, AllocError>
        requires { IsSound self.old }
        ensures answer { IfOk result (λ a. Answers (setup self.old) (event_seen event) (world self.old) (world self.new) a) }
        ensures unchanged { OnErr result (world self.new ≡ world self.old) }
        ensures sound { IsSound self.new }
        ensures core { self.new.core.now ≡ self.old.core.now }
        ensures launch { self.new.launch.now ≡ self.old.launch.now }
    {
        match event {
            Event::Step(number) => self.step(number),
            Event::Release(group) => self.release(group),
        }
    }

    // One step of an item.
    fn step(&mut self, number: u64) -> Result<Applied, AllocError>
        requires sound { IsSound self.old }
        ensures answer { IfOk result (λ a. Answers (setup self.old) (events.Step number) (world self.old) (world self.new) a) }
        ensures unchanged { OnErr result (world self.new ≡ world self.old) }
        ensures sound { IsSound self.new }
        ensures core { self.new.core.now ≡ self.old.core.now }
        ensures launch { self.new.launch.now ≡ self.old.launch.now }
    {
        if number >= self.items.len() as u64 {
            return Ok(Applied::NotPossible);
        }
        let asked = self.asked(number as usize);
        if !is_move(asked) {
            return Ok(Applied::NotPossible);
        }
        self.take_step(number as usize, asked)?;
        Ok(told(asked))
    }

    /// The world of a launch as it begins.
    #[tactic(auto, using(crate::proofs::Moves::sizes_of))]
    pub fn open(
        alloc: Global,
        typed: &'a Typed,
        launch: &'a Launch,
    ) -> Result<World<'a>, AllocError>
        requires proper { is_proper (kernel_seen typed.now.1) ≡ true }
        requires fits { Fits (kernel_seen typed.now.1) (launch_seen launch.now) }
        ensures world { IfOk result (λ w. world w ≡ opening_world (setup_of typed.now.1 launch.now)) }
        ensures sound { IfOk result (λ w. IsSound w) }
        ensures core { IfOk result (λ w. w.core.now ≡ typed.now.1) }
        ensures launch { IfOk result (λ w. w.launch.now ≡ launch.now) }
    {
        let core = typed.core();
        let groups = product_of(launch.groups);
        let count = product(groups, group_size(core))?;
        Ok(World {
            core,
            launch,
            memory: Memory::open(alloc, core, launch, groups)?,
            items: open_items(alloc, core, launch, count)?,
            history: History::new(alloc),
        })
    }
}
