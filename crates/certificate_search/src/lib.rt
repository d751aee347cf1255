//! Section: Search. Promises nothing: a certificate for a kernel under conditions, searched; stands on `candidates`, `text_guesses`,
//! `solo_runs`, `guess_walk` and `houdini`.
//!
//! Guesses that the walks of the kernel tell are filtered by runs, settled, and put together to a certificate. To settle them, each
//! round walks the kernel with the guesses that are left, asks the search once for each obligation of each of them, and settles the board
//! of what rests on what, until nothing falls. Where something stays unshown, another ranking of its loop is tried, then more guesses, and
//! last the least menu, which the kernel's text alone tells.
//! Whether it is a certificate is the check's to say.
#![tactic(auto)]

mod attempts;
mod demands;
mod entries;
mod error;
mod forks;
mod hoping;
mod joining;
mod least_menu;
mod limits;
mod missing;
mod needed;
mod picking;
mod progress;
mod ranked;
mod round_table;
mod rounds;
mod searching;
mod stretches;
mod used;

pub use error::{SearchError, TableError};
pub use least_menu::{guess, table};
pub use missing::{Mark, Missing};
pub use progress::{Progress, Unwatched, Watcher};
pub use searching::search;
