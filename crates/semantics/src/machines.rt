//! Laws of the machines of launches: what a device gives for operations that are not reckoned.

ghost use Rattle.std.specs.Prelude.{◌≡◌, ◌+◌, ◌-◌, ◌^◌, ℕ, ℤ, pos, negsuc, List, true};
ghost use Rattle.semantics.specs.Word.{Word, word, Int, Uint, Leftward, Rightward, count_of, shift};
ghost use Rattle.semantics.specs.Core.{Term};
ghost use Rattle.semantics.specs.Launch.{Machine};
ghost use Rattle.semantics.specs.Setup.{Setup};
ghost use Rattle.semantics.specs.Machines.{is_reckoned_term, with_machine};
ghost use Rattle.semantics.specs.Evaluation.{evaluate};

/// A term of which all is reckoned is the same on each machine, at each moment.
pub fn reckoned_terms_heed_no_machine()
    ensures { (m n : Machine) (s : Setup) (i : ℕ) (now then : List ℕ) (e : Term) (variables answers : List Word) → is_reckoned_term e ≡ true → evaluate (with_machine m s) i now e variables answers ≡ evaluate (with_machine n s) i then e variables answers }
{}

/// Shifts by a term, by example: the count is modulo 32, bits that leave on the left are lost, and a negative number
/// stays one to the right.
pub fn shifts_go_by_five_bits()
    ensures whole { count_of (pos 32) ≡ 0 }
    ensures negative { count_of (negsuc 0) ≡ 31 }
    ensures lost { shift Leftward Uint (pos (2 ^ 31 + 1)) 1 ≡ word Uint (pos 2) }
    ensures signed { shift Leftward Int (pos 1) 31 ≡ word Int (negsuc (2 ^ 31 - 1)) }
    ensures down { shift Rightward Int (negsuc 4) 1 ≡ word Int (negsuc 2) }
    ensures top { shift Rightward Uint (pos (2 ^ 32 - 1)) 31 ≡ word Uint (pos 1) }
{}
