//! Laws of runs on different machines.

ghost use Rattle.std.specs.Prelude.{◌≡◌, ◌≢◌, List, true};
ghost use Rattle.semantics.specs.Launch.{Machine};
ghost use Rattle.semantics.specs.Setup.{Setup};
ghost use Rattle.semantics.specs.Machines.{is_reckoned, with_machine};
ghost use Rattle.semantics.specs.World.{Event, opening_world, run};

/// A kernel of which all is reckoned heeds no machine: on each machine the same events are possible, and they lead to the same world, its
/// memory, its items and its history.
pub fn reckoned_kernels_heed_no_machine()
    ensures { (m n : Machine) (s : Setup) (es : List Event) → is_reckoned s.kernel ≡ true → run (with_machine m s) es (opening_world (with_machine m s)) ≡ run (with_machine n s) es (opening_world (with_machine n s)) }
{}

/// Of other kernels this does not hold: there is one that some list of events leads to different worlds on two machines.
pub fn other_kernels_may_heed_their_machine()
    ensures { (m : Machine) × (n : Machine) × (s : Setup) × (es : List Event) × (run (with_machine m s) es (opening_world (with_machine m s)) ≢ run (with_machine n s) es (opening_world (with_machine n s))) }
{}
