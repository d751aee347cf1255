//! What a search is about.

ghost use Rattle.std.specs.Prelude.{◌≡◌, true};
ghost use Rattle.core_code.specs.View.{kernel as core_seen};
ghost use Rattle.facts.specs.Launching.{are_sizes};

use launch::conditions::Conditions;
use places::Place;
use typed_kernels::Typed;

/// A kernel with the conditions under which it is launched, and its places; whether its walks are the wide ones, and whether these join
/// ways. Each dimension of its work-group has 1 to 1,024 items.
#[derive(Clone, Copy)]
pub struct Subject<'a> {
    pub typed: &'a Typed,
    pub conditions: &'a Conditions,
    pub places: &'a [Place<'a>],
    pub is_wide: bool,
    pub joins: bool,
    pub ghost sizes: { are_sizes (core_seen typed.now.1).sizes ≡ true },
}

impl<'a> Subject<'a> {
    /// The same subject, whose wide walks join ways.
    pub fn joining(self) -> Subject<'a> {
        Subject {
            typed: self.typed,
            conditions: self.conditions,
            places: self.places,
            is_wide: self.is_wide,
            joins: true,
        }
    }
}
