//! Section: Answers. Promises no more than that a text stays in front of its explanation; stands on `machine` and `findings`.
//!
//! What a refusal means, in plain words: of findings where they are in the source, and of a confirmed one who comes there, with which
//! values and by which schedule; of those that are only possible, by their causes, on which values they depend of which little is known;
//! where there are too many paths, which tests multiply them; and of a kernel that is accepted, where it computes with ids. Nothing is
//! proved of what is said here, and nothing believes it.
#![tactic(auto)]

mod amending;
mod causes;
mod condition_line;
mod cutting;
mod explanation;
mod finding;
mod flows;
mod forks;
mod given;
mod groups;
mod guards;
mod hints;
mod index;
mod keys;
mod kinds;
mod meaning;
mod meeting;
mod names;
mod outlook;
mod paragraph;
mod parts;
mod paths;
mod placing;
mod proposals;
mod reaches;
mod rows;
mod said;
mod scene;
mod schedule;
mod signs;
mod sizes;
mod source;
mod steps;
mod sums;
mod titles;
mod told;
mod vague;

pub use amending::amended;
pub use cutting::{Cuts, part_paths};
pub use explanation::{Refused, explain};
pub use meeting::may_be_met;
pub use outlook::{Outlook, Proposal, Remedy, propose};
pub use sizes::{computes_with_sizes, explain_sizes};
