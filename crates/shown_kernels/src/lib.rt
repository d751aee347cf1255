//! Section: Work-items. Promises the headline of each kernel that is read and of which all is shown; stands on `obligations`,
//! `reading`, `work_item` and `reduction`.
//!
//! `proper`: each literal of a kernel that is read is a number of its kind, shifts are of `uint` and by at most 31, and a group has 1 to
//! 1,024 work-items. `sound`: the numbers of its statements tell them apart, and it names what it declares. `AllNumbered` (of `lanes`) says
//! where numbers lie, which is not enough: `specs/Told.antt` says that none stands twice.
//!
//! `laws`: from the bytes of a kernel's text to the headline, on the whole subset and over any lawful domain. Laws, and what code reads to
//! use them.
#![tactic(auto)]

pub mod kernel;
pub mod laws;
pub mod proper;
mod ranked;
pub mod sound;
