//! Section: Gate. Promises exactly the certificate of a text, in all three versions, and the text of a certificate in the last two; stands
//! on `certificate_text` and `lines`.
//!
//! Certificates as trees, and what may stand behind what in them; their words, their lines, and their whole texts.
#![tactic(auto)]

mod certificate;
mod copies;
mod cursor;
pub mod draft;
mod either_reader;
mod entries;
pub mod entry_reader;
mod entry_steps;
pub mod error;
pub mod form_table;
pub mod item;
pub mod line_error;
mod migration;
pub mod name;
mod narrow;
pub mod numbered_reader;
mod numbered_writer;
pub mod numbers;
mod opening;
pub mod order;
pub mod part_writer;
mod proper;
mod reader;
pub mod rules;
pub mod spelling;
mod tabling;
pub mod tree;
pub mod word;

pub use certificate::Certificate;
pub use either_reader::{open_any, open_two, open_wide, read, read_any, read_one, read_wide};
pub use entry_reader::Entries;
pub use migration::migrate;
pub use numbered_writer::{write, write_wide};
pub use reader::{LIMIT, open_one};
