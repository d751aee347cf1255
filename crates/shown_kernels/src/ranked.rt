//! What is noted of rankings.

ghost use Rattle.std.specs.Prelude.{◌≡◌, ℕ, Bool, List, true};
ghost use Rattle.linear.specs.Exact.{fits_i64};
ghost use Rattle.loop_bounds.specs.Falling.{most};
ghost use Rattle.loop_bounds.specs.Turns.{turns_of};
ghost use Rattle.rankings.specs.Limits.{AreFitting};
ghost use Rattle.obligations.specs.declared.notes.Notes.{Notes};
ghost use Rattle.obligations.specs.View.{seen};
ghost use Rattle.obligations.specs.Limits.{turns_at, AreLimits};

use loop_bounds::{Bound, LoopBound};
use obligations::Notes;

/// The rankings of notes have the turns of their bounds, and are limits where their numbers are of 64 bits.
pub fn noted_rankings_have_their_turns()
    ensures turns { (n : Notes) (entries : List Bool) (m : ℕ) → turns_at (seen n entries) m ≡ turns_of n.rankings.items m }
    ensures limits { (n : Notes) (entries : List Bool) → AreFitting n.rankings.items → AreLimits (seen n entries) }
{}

/// The number of a bound is of 64 bits, which is known once it is read.
fn reads_number(bound: &Bound)
    ensures { fits_i64 (most bound.now) ≡ true }
{
    match bound {
        Bound::Down { most, .. } | Bound::Halving { most, .. } | Bound::Doubling { most, .. } => {
            let _most = *most;
        }
    }
}

/// Says of each bound that its numbers are of 64 bits, which reading them shows.
fn reads_numbers(bounds: &[LoopBound])
    ensures { AreFitting bounds.now }
{
    for bound in bounds {
        reads_number(&bound.bound);
    }
}

/// The rankings of notes are limits, for each of their numbers is of 64 bits; they are read to know it.
pub fn noted_rankings_are_limits(notes: &Notes)
    ensures limits { (entries : List Bool) → AreLimits (seen notes.now entries) }
    ensures turns { (entries : List Bool) (m : ℕ) → turns_at (seen notes.now entries) m ≡ turns_of notes.now.rankings.items m }
{
    reads_numbers(notes.rankings.as_slice());
    noted_rankings_have_their_turns();
}
