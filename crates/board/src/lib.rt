//! Section: Search. Promises a set that only ever loses what the greatest standing set lacks, for any number of threads; stands on
//! `supports`.
//!
//! A board of candidates that threads share, without a lock: which of them are left.
//!
//! A board has eight words, a bit a candidate. They change in two ways, by a load and by a `fetch_and`, and both keep
//! one rule: the words hold the greatest set of candidates that support one another, lack what any seat has seen to
//! be gone, and hold nothing past the candidates. A seat is a thread's right to step on the board. What a seat has seen is what it found
//! absent or refuted, and what the seat that it was split from had seen by then.
//!
//! No call but `open` takes memory, and none waits. Nothing is said of the order between seats, nor of progress.
#![tactic(auto)]

use atomic_table::{Play, Split, TableRule};
use supports::Supports;

mod answers;
mod board;
mod calls;
mod error;
mod passing;
mod reading;

pub use answers::{Examined, Passed};
pub use board::Board;
pub use error::BoardError;

/// The knowledge of a seat: the table of supports, and which candidates may be left. No value of it is made.
pub struct View {
    pub supports: Supports,
    pub left: [u64; 8],
}

/// A thread's right to step on a board.
pub type Seat = atomic_table::Seat<(), View>;

/// The rule of a board.
pub struct Kept;

impl TableRule<(), View, Supports> for Kept {
    ghost use Rattle.board.specs.Rule.{Holds, newcomer};

    ghost holds = { Holds };

    ghost first = { newcomer };
}

/// The move of a seat that reads a word of the board by a load.
pub struct Looked;

impl Play<(), View> for Looked {
    ghost use Rattle.board.specs.Rule.{Looks};

    ghost then = { Looks };
}

/// The move of a seat that takes candidates out of a word of the board by `fetch_and`.
pub struct Dropped;

impl Play<(), View> for Dropped {
    ghost use Rattle.board.specs.Rule.{Drops};

    ghost then = { Drops };
}

/// The move by which a seat becomes two that know the same.
pub struct Alike;

impl Split<View> for Alike {
    ghost left = { λ v. v };

    ghost right = { λ v. v };
}
