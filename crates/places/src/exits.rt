//! The ways out of what is left.

ghost use Rattle.std.specs.Prelude.{◌≡◌, IfOk};
ghost use Rattle.places.specs.Reaching.{no_exits};
ghost use Rattle.places.specs.Frames.{exits as exits_seen, with_frames};
ghost use Rattle.places.specs.View.{lists as lists_seen};

use crate::lists::Lists;
use std::alloc::{AllocError, Global};

/// A statement that is left: with which lists the head is reached past it, and from its update.
#[derive(Drop)]
pub struct Frame {
    pub number: u32,
    pub out: Lists,
    pub back: Lists,
}

/// Inside a loop, of which is known with which lists the head is reached past it; or within these, the innermost last.
#[derive(Clone, Copy)]
pub enum Exits<'b> {
    Inside(&'b Lists),
    Around(&'b [Frame]),
}

/// The lists with which a head is reached from behind the innermost statement of that number among the frames.
fn frame_out(alloc: Global, frames: &[Frame], number: u32) -> Result<Lists, AllocError>
    ensures { IfOk result (λ l. lists_seen l ≡ (with_frames frames.now no_exits).out number) }
{
    let mut found = Lists::NoList;
    for frame in frames {
        if frame.number == number {
            found = frame.out.copy(alloc)?;
        }
    }
    Ok(found)
}

/// The lists with which a head is reached from the update of the innermost statement of that number among the frames.
fn frame_back(alloc: Global, frames: &[Frame], number: u32) -> Result<Lists, AllocError>
    ensures { IfOk result (λ l. lists_seen l ≡ (with_frames frames.now no_exits).back number) }
{
    let mut found = Lists::NoList;
    for frame in frames {
        if frame.number == number {
            found = frame.back.copy(alloc)?;
        }
    }
    Ok(found)
}

/// The lists with which a head is reached from behind the loop of that number.
pub fn out_of(alloc: Global, exits: Exits<'_>, number: u32) -> Result<Lists, AllocError>
    ensures { IfOk result (λ l. lists_seen l ≡ (exits_seen exits.entry).out number) }
{
    match exits {
        Exits::Inside(go) => go.copy(alloc),
        Exits::Around(frames) => frame_out(alloc, frames, number),
    }
}

/// The lists with which a head is reached from the update of the loop of that number.
pub fn back_of(alloc: Global, exits: Exits<'_>, number: u32) -> Result<Lists, AllocError>
    ensures { IfOk result (λ l. lists_seen l ≡ (exits_seen exits.entry).back number) }
{
    match exits {
        Exits::Inside(_) => Ok(Lists::NoList),
        Exits::Around(frames) => frame_back(alloc, frames, number),
    }
}
