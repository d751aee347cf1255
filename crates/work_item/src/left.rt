//! What is left of a work-item's statements.

ghost use Rattle.std.specs.Prelude.{◌≡◌, ◌≤◌, ◌+◌, ◌∷◌, ℕ, List, [], OnOk, OnErr, vec_len, vec_capacity};
ghost use Rattle.semantics.specs.Item as meaning;
ghost use Rattle.core_code.specs.View.{statements as statements_seen};
ghost use Rattle.work_item.specs.Left.{left, opened, stacked, behind, turned, HasRoom};

use core_code::tree::Statement;
use std::alloc::{AllocError, Global};

/// A statement in front with its turns, and those of its block that stand behind it.
#[derive(Clone, Copy)]
pub struct Frame<'a> {
    pub statement: &'a Statement,
    pub turns: u64,
    pub others: &'a [Statement],
}

/// The statements that are left of an item: the innermost block first, then the blocks around it, the outermost of them first.
#[derive(Drop)]
pub struct Left<'a> {
    pub front: Option<Frame<'a>>,
    pub around: Vec<Frame<'a>>,
}

impl<'a> Left<'a> {
    /// An item's statements where none is left.
    pub fn new(alloc: Global) -> Left<'a>
        ensures { left result ≡ [] }
    {
        Left {
            front: None,
            around: Vec::new(alloc),
        }
    }

    /// Makes room for two blocks more, so that entering them needs no memory.
    pub fn make_room(&mut self) -> Result<(), AllocError>
        ensures same { left self.new ≡ left self.old }
        ensures front { self.new.front ≡ self.old.front }
        ensures room { OnOk result (HasRoom self.new 2) }
    {
        self.around.reserve(2)
    }

    // A block in front of what is left.
    #[tactic(auto, using(crate::proofs::Stacks::stacked_more))]
    fn open(&mut self, frame: Frame<'a>)
        requires { HasRoom self.old 1 }
        ensures opened { left self.new ≡ opened frame.entry (left self.old) }
        ensures room { vec_capacity self.old.around + vec_len self.new.around ≤ vec_capacity self.new.around + vec_len self.old.around + 1 }
    {
        match self.front {
            Some(front) => self.around.push_reserved(front),
            None => self.around.clear(),
        }
        self.front = Some(frame);
    }

    // What is around the innermost block.
    fn close(&mut self)
        ensures closed { left self.new ≡ stacked self.old.around.items [] }
        ensures room { vec_capacity self.old.around + vec_len self.new.around ≤ vec_capacity self.new.around + vec_len self.old.around }
    {
        self.front = self.around.pop();
    }

    /// Goes into a block, where there is room.
    pub fn enter(&mut self, block: &'a [Statement])
        requires { HasRoom self.old 1 }
        ensures entered { left self.new ≡ meaning.enter (statements_seen block.now) (left self.old) }
        ensures room { vec_capacity self.old.around + vec_len self.new.around ≤ vec_capacity self.new.around + vec_len self.old.around + 1 }
    {
        if let Some((statement, others)) = block.split_first() {
            let frame = Frame {
                statement,
                turns: 0,
                others,
            };
            self.open(frame);
        }
    }

    /// Drops the statement in front, and the block where it was the last one.
    pub fn advance(&mut self)
        ensures advanced { left self.new ≡ behind (left self.old) }
        ensures room { vec_capacity self.old.around + vec_len self.new.around ≤ vec_capacity self.new.around + vec_len self.old.around }
    {
        if let Some(frame) = self.front {
            match frame.others.split_first() {
                Some((statement, others)) => {
                    self.front = Some(Frame {
                        statement,
                        turns: 0,
                        others,
                    });
                }
                None => self.close(),
            }
        }
    }

    /// Drops all statements that are left.
    pub fn clear(&mut self)
        ensures { left self.new ≡ [] }
    {
        self.front = None;
        self.around.clear();
    }

    /// Drops what is left up to the loop of that number, and the loop itself.
    pub fn leave(&mut self, number: u32)
        ensures { left self.new ≡ meaning.leave number (left self.old) }
    {
        while let Some(frame) = self.front {
            self.advance();
            if frame.statement.number() == number {
                return;
            }
        }
    }

    /// Goes to the update of the loop of that number, and behind that to its test.
    pub fn resume(&mut self, number: u32)
        requires { HasRoom self.old 1 }
        ensures { left self.new ≡ meaning.resume number (left self.old) }
    {
        while let Some(frame) = self.front {
            if frame.statement.number() == number {
                self.enter(frame.statement.update());
                return;
            }
            self.advance();
        }
    }

    /// One turn more of the loop in front.
    pub fn turn(&mut self, turns: u64)
        requires { (f : Frame) → self.old.front ≡ Some f → turns ≡ f.turns + 1 }
        ensures turned { left self.new ≡ turned (left self.old) }
        ensures around { self.new.around ≡ self.old.around }
    {
        if let Some(frame) = self.front {
            self.front = Some(Frame { turns, ..frame });
        }
    }
}
