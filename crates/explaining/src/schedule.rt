//! Schedules in short.

use machine::world::Event;
use std::alloc::{AllocError, Global};

/// The most parts of a schedule that are told.
const MOST: usize = 12;

/// Items one after another that take so many steps each, or groups that are released one after another.
#[derive(Clone, Copy)]
struct Part {
    is_release: bool,
    first: u64,
    last: u64,
    steps: u64,
}

impl Part {
    /// The part of a schedule that is one event.
    fn of(event: Event) -> Part {
        let (is_release, number) = match event {
            Event::Step(item) => (false, item),
            Event::Release(group) => (true, group),
        };
        Part {
            is_release,
            first: number,
            last: number,
            steps: 1,
        }
    }

    /// The part of a schedule, of one item, with one step more.
    fn longer(self) -> Part {
        Part {
            steps: self.steps.saturating_add(1),
            ..self
        }
    }

    /// Whether another part goes on with the same item.
    fn is_of_one_item(self, next: Part) -> bool {
        !self.is_release && !next.is_release && self.first == self.last && self.last == next.first
    }

    /// Whether another part goes on with the next item, which takes as many steps, or with the next group.
    fn is_followed_by(self, next: Part) -> bool {
        self.is_release == next.is_release
            && self.steps == next.steps
            && self.last.saturating_add(1) == next.first
    }

    fn push_steps(self, out: &mut String) -> Result<(), AllocError> {
        let Part {
            first,
            last,
            steps,
            ..
        } = self;
        if first == last {
            write!(out, "item {first} takes {steps}")?;
        } else {
            write!(out, "items {first} to {last} take {steps}")?;
        }
        out.push_str(if steps == 1 { " step" } else { " steps" })?;
        out.push_str(if first == last { "" } else { " each" })
    }

    fn push_release(self, out: &mut String) -> Result<(), AllocError> {
        let Part { first, last, .. } = self;
        if first == last {
            write!(out, "group {first} is released")
        } else {
            write!(out, "groups {first} to {last} are released")
        }
    }

    fn push(self, out: &mut String) -> Result<(), AllocError> {
        if self.is_release {
            self.push_release(out)
        } else {
            self.push_steps(out)
        }
    }
}

/// A part behind those that are there: one with them, where it goes on as the last one does.
fn push_part(parts: &mut Vec<Part>, next: Part) -> Result<(), AllocError> {
    match parts.last_mut() {
        Some(last) if last.is_followed_by(next) => last.last = next.last,
        _ => parts.push(next)?,
    }
    Ok(())
}

/// The parts of a schedule.
fn parts_of(alloc: Global, events: &[Event]) -> Result<Vec<Part>, AllocError> {
    let mut parts = Vec::new(alloc);
    let mut now: Option<Part> = None;
    for event in events {
        let next = Part::of(*event);
        now = match now {
            Some(part) if part.is_of_one_item(next) => Some(part.longer()),
            Some(part) => {
                push_part(&mut parts, part)?;
                Some(next)
            }
            None => Some(next),
        };
    }
    if let Some(part) = now {
        push_part(&mut parts, part)?;
    }
    Ok(parts)
}

/// A schedule in short: which items step how often, and which groups are released.
pub fn schedule(alloc: Global, events: &[Event]) -> Result<String, AllocError> {
    let parts = parts_of(alloc, events)?;
    let mut out = String::from_str(alloc, "Schedule:")?;
    for (place, part) in parts.iter().enumerate().take(MOST) {
        out.push_str(if place == 0 { " " } else { ", " })?;
        part.push(&mut out)?;
    }
    out.push_str(if parts.len() > MOST {
        ", and so on."
    } else {
        "."
    })?;
    Ok(out)
}
