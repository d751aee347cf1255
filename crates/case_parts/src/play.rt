// Schedules, replayed, and what the replay of a launch finds.

ghost use Rattle.std.specs.Prelude.{◌≡◌, true};
ghost use Rattle.semantics.specs.Launch.{Fits};
ghost use Rattle.core_code.specs.View.{kernel as core_seen};
ghost use Rattle.launch.specs.View.{launch as launch_seen};
ghost use Rattle.work_item.specs.Proper.{is_proper};
ghost use Rattle.machine.specs.Worlds.{IsSound};

use clashes::access::Access;
use diagnostics::{confirm, line};
use launch::launches::Launch;
use machine::world::{Applied, Event, World};
use std::alloc::{AllocError, Global};
use typed_kernels::Typed;
use words::Word;
use work_item::ask::Owner;

/// How many events of some rounds did what.
#[derive(Clone, Copy)]
struct Counts {
    done: u64,
    not_possible: u64,
    faults: u64,
}

impl Counts {
    fn add(&mut self, applied: Applied) {
        match applied {
            Applied::Done => self.done = self.done.saturating_add(1),
            Applied::NotPossible => self.not_possible = self.not_possible.saturating_add(1),
            Applied::Faulted(_, _) => self.faults = self.faults.saturating_add(1),
        }
    }
}

fn number_of(word: Option<&str>) -> u64 {
    match word {
        Some(text) => text.parse::<u64>().unwrap_or(0),
        None => 0,
    }
}

fn push_applied(out: &mut String, applied: Applied) -> Result<(), AllocError> {
    match applied {
        Applied::Done => out.push_str("done\n"),
        Applied::NotPossible => out.push_str("not possible\n"),
        Applied::Faulted(fault, site) => {
            writeln!(
                out,
                "fault F{} {}:{}",
                fault.number(),
                site.line,
                site.column
            )
        }
    }
}

/// An event; where memory was refused the world is as it was, and the event is tried once more.
fn apply(world: &mut World, event: Event) -> Result<Applied, AllocError>
    requires { IsSound world.old }
    ensures { IsSound world.new }
{
    match world.apply(event) {
        Ok(applied) => Ok(applied),
        Err(_) => world.apply(event),
    }
}

fn play_event(out: &mut String, world: &mut World, event: Event) -> Result<(), AllocError>
    requires { IsSound world.old }
    ensures { IsSound world.new }
{
    let applied = apply(world, event)?;
    push_applied(out, applied)
}

fn step_all(counts: &mut Counts, world: &mut World, items: u64) -> Result<(), AllocError>
    requires { IsSound world.old }
    ensures { IsSound world.new }
{
    for item in 0..items {
        counts.add(apply(world, Event::Step(item))?);
    }
    Ok(())
}

fn release_all(counts: &mut Counts, world: &mut World, groups: u64) -> Result<(), AllocError>
    requires { IsSound world.old }
    ensures { IsSound world.new }
{
    for group in 0..groups {
        counts.add(apply(world, Event::Release(group))?);
    }
    Ok(())
}

fn play_rounds(world: &mut World, count: u64, items: u64, groups: u64) -> Result<Counts, AllocError>
    requires { IsSound world.old }
    ensures { IsSound world.new }
{
    let mut counts = Counts {
        done: 0,
        not_possible: 0,
        faults: 0,
    };
    for _round in 0..count {
        step_all(&mut counts, world, items)?;
        release_all(&mut counts, world, groups)?;
    }
    Ok(counts)
}

fn push_counts(out: &mut String, counts: Counts) -> Result<(), AllocError> {
    writeln!(
        out,
        "{} done, {} not possible, {} faults",
        counts.done, counts.not_possible, counts.faults
    )
}

fn play_line(out: &mut String, world: &mut World, line: &str) -> Result<(), AllocError>
    requires { IsSound world.old }
    ensures { IsSound world.new }
{
    let mut words = line.split_whitespace();
    let verb = words.next().unwrap_or("");
    let number = number_of(words.next());
    if verb == "step" {
        play_event(out, world, Event::Step(number))
    } else if verb == "release" {
        play_event(out, world, Event::Release(number))
    } else {
        let items = number_of(words.next());
        let groups = number_of(words.next());
        let counts = play_rounds(world, number, items, groups)?;
        push_counts(out, counts)
    }
}

fn play_lines(out: &mut String, world: &mut World, schedule: &str) -> Result<(), AllocError>
    requires { IsSound world.old }
    ensures { IsSound world.new }
{
    for line in schedule.lines() {
        play_line(out, world, line)?;
    }
    Ok(())
}

fn push_buffer(out: &mut String, buffer: &[Word]) -> Result<(), AllocError> {
    out.push_str("buffer")?;
    for word in buffer {
        write!(out, " {}", word.value())?;
    }
    out.push_str("\n")
}

fn push_owner(out: &mut String, owner: Owner) -> Result<(), AllocError> {
    match owner {
        Owner::Launch => out.push_str("launch"),
        Owner::Group(group) => write!(out, "group {group}"),
    }
}

fn push_access(out: &mut String, access: &Access) -> Result<(), AllocError> {
    let sort = if access.is_store { "store" } else { "load" };
    let at = access.at;
    write!(
        out,
        " {sort} {}:{} item {} of ",
        access.site.line, access.site.column, access.item
    )?;
    push_owner(out, at.owner)?;
    write!(
        out,
        " array {} element {} epoch {}",
        at.array, at.index, access.epoch
    )
}

fn push_clash(out: &mut String, clash: Option<(Access, Access)>) -> Result<(), AllocError> {
    match clash {
        Some((earlier, later)) => {
            out.push_str("clash")?;
            push_access(out, &earlier)?;
            push_access(out, &later)?;
            out.push_str("\n")
        }
        None => out.push_str("no clash\n"),
    }
}

fn push_divergence(out: &mut String, divergence: Option<(u64, u64)>) -> Result<(), AllocError> {
    match divergence {
        Some((item, other)) => writeln!(out, "divergence {item} {other}"),
        None => out.push_str("no divergence\n"),
    }
}

fn push_end(out: &mut String, world: &World) -> Result<(), AllocError>
    requires { IsSound world.now }
{
    for buffer in &world.memory.buffers.words {
        push_buffer(out, buffer.as_slice())?;
    }
    push_clash(out, world.clash())?;
    push_divergence(out, world.divergence())
}

/// Writes what the events of a schedule did, and how it ended.
pub fn push_played(
    alloc: Global,
    out: &mut String,
    typed: &Typed,
    launch: &Launch,
    schedule: &str,
) -> Result<(), AllocError>
    requires proper { is_proper (core_seen typed.now.1) ≡ true }
    requires fits { Fits (core_seen typed.now.1) (launch_seen launch.now) }
{
    let mut world = World::open(alloc, typed, launch)?;
    play_lines(out, &mut world, schedule)?;
    push_end(out, &world)
}

/// The line of what the replay of a launch finds, `none` where that is nothing.
pub fn push_found(
    alloc: Global,
    out: &mut String,
    typed: &Typed,
    launch: &Launch,
) -> Result<(), AllocError>
    requires proper { is_proper (core_seen typed.now.1) ≡ true }
    requires fits { Fits (core_seen typed.now.1) (launch_seen launch.now) }
{
    let Some(finding) = confirm(alloc, typed, launch)? else {
        return out.push_str("none\n");
    };
    let line = line(alloc, &finding)?;
    out.push_str(&line)
}
