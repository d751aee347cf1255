//! From what is shown of a kernel that is read to what it does.

ghost use Rattle.std.specs.Prelude.{◌≡◌, ℕ, ◌≤◌, [], Ok, None};
ghost use Rattle.std.specs.List.{All};
ghost use Rattle.semantics.specs.Launch.{Launch, Fits};
ghost use Rattle.semantics.specs.Setup.{at_launch};
ghost use Rattle.semantics.specs.Conditions.{Conditions, Meets};
ghost use Rattle.semantics.specs.Headline.{Headline};
ghost use Rattle.semantics.specs.Safety.{IsPairSafe, IsPairSafeWithin};
ghost use Rattle.arrivals.specs.Loops.{unmet};
ghost use Rattle.loop_bounds.specs.Costs.{cost};
ghost use Rattle.walk_trees.specs.Shown.{IsShownWithProducts};
ghost use Rattle.obligations.specs.Notes.{Notes};
ghost use Rattle.obligations.specs.Telling.{TellsOfItems};
ghost use Rattle.obligations.specs.Limits.{turns_at, AreLimits};
ghost use Rattle.obligations.specs.Shown.{obligations};
ghost use Rattle.kernel_reading.specs.Kernels.{Kernel, Source, read};

use crate::proper::what_is_read_is_proper;
pub use crate::ranked::{noted_rankings_are_limits, noted_rankings_have_their_turns};
use crate::sound::what_is_read_is_sound_where_barriers_are_met;
use domain::Domain;
use obligations::laws::what_is_shown_by_places_is_safe_within_its_cost;
use reduction::headline_within;
use semantics::honesty::{launches_begin_kept, without_lines_all_runs_are_honest};

/// A kernel that is read of a text, each of whose loops with a barrier meets one on each way through, and of which all is shown under
/// conditions, whatever is said of its places and loops, has the headline at each launch that meets the conditions, within its cost.
pub fn what_is_read_and_shown_has_the_headline<D: Domain>()
    ensures { (text : Source) (k : Kernel) (c : Conditions) (n : Notes) (l : Launch) → read text ≡ Ok k → unmet k.core.body ≡ None → TellsOfItems n → AreLimits n → All IsShownWithProducts (obligations D.Domain k.core c n) → Fits k.core l → Meets c l → Headline (at_launch k.core l) (cost (turns_at n) k.core.body) }
{
    headline_within();
    launches_begin_kept();
    what_is_read_is_proper();
    what_is_read_is_sound_where_barriers_are_met();
    what_is_shown_by_places_is_safe_within_its_cost::<D>();
}

/// A kernel which is read and of which all is shown is pair-safe at each launch that meets the conditions, within each budget that its cost
/// does not pass: so it is where loads are answered by what lines of the conditions let buffers hold, and each store keeps that.
pub fn what_is_read_and_shown_is_pair_safe_within<D: Domain>()
    ensures { (text : Source) (k : Kernel) (c : Conditions) (n : Notes) (l : Launch) (budget : ℕ) → read text ≡ Ok k → unmet k.core.body ≡ None → TellsOfItems n → AreLimits n → All IsShownWithProducts (obligations D.Domain k.core c n) → cost (turns_at n) k.core.body ≤ budget → Fits k.core l → Meets c l → IsPairSafeWithin c.contents (at_launch k.core l) budget }
{
    what_is_read_is_proper();
    what_is_read_is_sound_where_barriers_are_met();
    what_is_shown_by_places_is_safe_within_its_cost::<D>();
}

/// Where no line says what buffers hold it is pair-safe whatever its loads are answered by.
pub fn what_is_read_and_shown_is_pair_safe<D: Domain>()
    ensures { (text : Source) (k : Kernel) (c : Conditions) (n : Notes) (l : Launch) (budget : ℕ) → c.contents ≡ [] → read text ≡ Ok k → unmet k.core.body ≡ None → TellsOfItems n → AreLimits n → All IsShownWithProducts (obligations D.Domain k.core c n) → cost (turns_at n) k.core.body ≤ budget → Fits k.core l → Meets c l → IsPairSafe (at_launch k.core l) budget }
{
    what_is_read_and_shown_is_pair_safe_within::<D>();
    without_lines_all_runs_are_honest();
}
