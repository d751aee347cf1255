//! Section: Kernel text. Promises exactly what is told of a tree's names and statements beside its core; stands on `syntax`.
//!
//! The map of a kernel's names: its parameters, the names of its variables and local arrays, and where each of its statements stands in the
//! source. What is inside a statement, and where a name is visible, are ranges of statement numbers, which rise in the order of the source.
#![tactic(auto)]

ghost use Rattle.std.specs.Prelude.{◌≡◌, ◌<◌, ◌+◌, ◌^◌, Option};
ghost use Rattle.core_code.specs.View.{site as site_seen};
ghost use Rattle.kernel_names.specs.NameMap as maps;
ghost use Rattle.kernel_names.specs.View.{names_seen};

mod copied;
mod gathering;
mod numbers;

use core_code::tree::Site;
pub use gathering::names_of;
use syntax::tree::Parameter;

/// A private variable. Slots count them in this order, behind the value parameters. It is visible in the statements of
/// the numbers `first` to `last`, in a loop from its test on.
#[derive(Drop)]
pub struct Variable {
    pub name: String,
    pub site: Site,
    pub first: u32,
    pub last: u32,
}

/// A local array, by its number.
#[derive(Drop)]
pub struct LocalName {
    pub name: String,
    pub site: Site,
}

/// The sort of a statement: a loop turns, and at a barrier items wait.
#[derive(Clone, Copy)]
pub enum Sort {
    Turning,
    Waiting,
    Other,
}

/// A statement, where it begins, and the last number in it.
#[derive(Clone, Copy)]
pub struct Standing {
    pub number: u32,
    pub site: Site,
    pub sort: Sort,
    pub last: u32,
}

/// The names that are told of a kernel beside its core.
#[derive(Drop)]
pub struct NameMap {
    pub parameters: Vec<Parameter>,
    pub variables: Vec<Variable>,
    pub arrays: Vec<LocalName>,
    pub statements: Vec<Standing>,
}

/// The site at which the statement of a number begins; the start of the text for the kernel itself, and for a number that it does not have.
pub fn site_at(names: &NameMap, number: Option<u32>) -> Site
    ensures { site_seen result ≡ maps.site_at (names_seen names.now) number }
{
    if let Some(wanted) = number {
        for standing in &names.statements {
            if standing.number == wanted {
                return standing.site;
            }
        }
    }
    Site { line: 1, column: 1 }
}
