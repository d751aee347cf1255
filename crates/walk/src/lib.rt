//! Section: Walks. Promises exactly what is to be shown of a kernel's places under conditions; stands on `path_walk` and `two_thread`.
//!
//! All paths of all places in turn, and of what one item meets along them all that is to be shown. The choices of a path are those of the
//! one before it, with the last first way turned into the other one. What the paths so far found, and what is left behind them, is the tree
//! (`specs/Walked.antt`). A cursor goes along the same paths and gives one at a time (`specs/Cursors.antt`).
#![tactic(auto)]

mod at_hand;
mod choices;
mod cursor;
mod error;
mod every;
mod finding;
mod following;
mod numbers;
mod one_path;
mod paths;
mod terrain;

pub use at_hand::alone;
pub use cursor::Paths;
pub use error::FindError;
pub use finding::{find, setting_of};
pub use terrain::{PlacePaths, Terrain, paths_of, terrain_of};
