//! `out[0] = table[index[0]];` where a line says that `index` holds at most 3.

ghost use Rattle.std.specs.Prelude.{◌≡◌, ◌∷◌, ℕ, [], pos, true};
ghost use Rattle.semantics.specs.Word.{OutOfBounds};
ghost use Rattle.semantics.specs.Item.{Stopped};
ghost use Rattle.semantics.specs.Solo.{after};
ghost use Rattle.semantics.specs.Safety.{IsPairSafe, IsPairSafeWithin};
ghost use Rattle.semantics.specs.Headline.{Headline};
ghost use Rattle.samples.specs.Terms.{at};
ghost use Rattle.samples.specs.Bounded.{at_most_three, gathers, spoils, spares};

/// An index that is loaded lies in a table of four elements where a line bounds it, so the headline holds; without the line a solo run may
/// be answered by 9, and stops.
pub fn a_bounded_index_is_inside()
    ensures within { IsPairSafeWithin at_most_three gathers 3 }
    ensures headline { Headline gathers 3 }
    ensures stops { (after gathers 0 (pos 0 ∷ pos 9 ∷ [])).status ≡ Stopped OutOfBounds (at 2) }
    ensures without { (bound : ℕ) → IsPairSafe gathers bound → ⊥ }
{}

/// A store of 4 into the buffer does not keep the line; a store of 4 into another buffer does.
pub fn a_line_bounds_its_own_buffer()
    ensures spoils { (bound : ℕ) → IsPairSafeWithin at_most_three spoils bound → ⊥ }
    ensures spares { IsPairSafeWithin at_most_three spares 1 }
{}
