//! Section: Work-items. Promises whether a core is sound, and which of its statements may read a variable that is not set; stands on
//! `work_item`.
//!
//! Each core of a text of the plain language is proper, its statements are numbered in order and told apart, and it names what it declares,
//! by laws. Here the same is tested of any core, and `laws` say that a core which passes keeps it. `unset` finds variables that may be read
//! before they are set (C99 6.7.8p10), and `laws` say that no path through a core in which it finds none does so.
#![tactic(auto)]

mod declaring;
pub mod laws;
mod numbering;
mod placing;
pub mod sound;
pub mod unset;
