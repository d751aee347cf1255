//! Section: Facts and domains. Promises exactly what conditions say of launches and items, and what a lawful domain knows of it; stands
//! on `launch`, `linear` and `domain`.
//!
//! What launch conditions say of each launch that meets them, and of its items: facts, which are forms that are at least 0, and the
//! elements that an abstract domain has of symbols and forms.
//!
//! Symbols go by the numbers of `specs/Symbols.antt`, so that merged forms of the one item of a pair stay merged where the other item's
//! symbols are put in their places.
#![tactic(auto)]

mod contents;
mod copies;
mod elements;
mod error;
mod extents;
mod family;
mod forms;
mod launching;
mod side;

pub use contents::{BufferBound, buffer_bounds};
pub use copies::copy_all;
pub use elements::{Known, between, element_of, is_settled};
pub use error::WalkError;
pub use extents::known;
pub use family::Family;
pub use forms::{
    less_number, number_less, once_given, once_group, once_groups, once_length, once_local,
    once_new,
};
pub use launching::{item_facts, launch_facts};
pub use side::Side;
