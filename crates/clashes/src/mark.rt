//! Who accessed an element, and when.

ghost use Rattle.std.specs.Prelude.{◌≡◌, ◌<◌};
ghost use Rattle.clashes.specs.Marks.{are_unordered};

/// A work-item, with its epoch when it accessed an element.
#[derive(Clone, Copy)]
pub struct Mark {
    pub item: u64,
    pub epoch: u64,
}

impl Mark {
    /// Whether two accesses are of different items, and no barrier orders them; a group has so many items.
    pub fn is_unordered(self, other: Mark, size: u64) -> bool
        requires { 0 < size }
        ensures { result ≡ are_unordered size self other }
    {
        self.item != other.item
            && (self.item / size != other.item / size || self.epoch == other.epoch)
    }
}
