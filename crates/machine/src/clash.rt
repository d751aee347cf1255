//! Data races.

ghost use Rattle.std.specs.Prelude.{MatchOption};
ghost use Rattle.clashes.specs.View.{access as access_seen};
ghost use Rattle.clashes.specs.Histories.{HasNoClash, IsFirstClash};
ghost use Rattle.machine.specs.Worlds.{setup, world, IsSound};

use crate::world::World;
use clashes::access::Access;
use work_item::identity::group_size;

impl World<'_> {
    /// The first data race, the earlier access first: of all pairs of accesses that clash one whose later access comes first, and of
    /// those the one whose earlier access does. It takes time linear in the length of the history, and no memory.
    pub fn clash(&self) -> Option<(Access, Access)>
        requires { IsSound self.now }
        ensures { MatchOption result (HasNoClash (setup self.now) (world self.now).history) (λ p. IsFirstClash (setup self.now) (world self.now).history (access_seen p.0) (access_seen p.1)) }
    {
        self.history.clash(group_size(self.core))
    }
}
