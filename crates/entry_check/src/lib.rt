//! Section: Gate. Promises that all obligations are shown, or names the first that is not; stands on `walk` and
//! `certificate`.
//!
//! The obligations of a kernel one by one, each settled by the domain or refuted by its entry in a certificate. Entries rise by the numbers
//! of their obligations, so they are read one by one beside these. Of the paths of a kernel's places those are held for which there is
//! room, and the others are gone along anew where they are met (`specs/Tallies.antt` tells what is taken of them).
#![tactic(auto)]

mod accesses;
mod all;
mod asked;
mod claims;
mod crossings;
mod derivations;
mod ends;
mod error;
mod flags;
mod hand;
mod held;
mod meetings;
mod paired;
mod pairs;
mod quotients;
mod refuting;
mod said;
mod showing;
mod supply;
mod tally;

pub use all::show_all;
pub use error::{Pointer, ShowError};
pub use flags::{no_flags, set_flag};
pub use said::Said;
