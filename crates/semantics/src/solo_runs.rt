//! Laws of evaluation and of solo runs.

ghost use Rattle.std.specs.Prelude.{◌≡◌, ◌≤◌, ◌<◌, ◌↔◌, ℕ, ℤ, List, [], ◌++◌, length, slice_index_or, true};
ghost use Rattle.semantics.specs.Word.{Word, in_kind};
ghost use Rattle.semantics.specs.Core.{Site, Array, Term, Load};
ghost use Rattle.semantics.specs.Setup.{Setup};
ghost use Rattle.semantics.specs.Memory.{cell, kind_at, element_kind};
ghost use Rattle.semantics.specs.Evaluation.{evaluate, Gives};
ghost use Rattle.semantics.specs.Item.{Ended};
ghost use Rattle.semantics.specs.Solo.{after, arrivals, arrived};
ghost use Rattle.semantics.specs.Safety.{WaitAlike, EndsLast};

/// More answers change nothing once a value is given.
pub fn more_answers_change_nothing()
    ensures { (s : Setup) (i : ℕ) (now : List ℕ) (e : Term) (variables answers rest more : List Word) (v : Word) → evaluate s i now e variables answers ≡ Gives v rest → evaluate s i now e variables (answers ++ more) ≡ Gives v (rest ++ more) }
{}

/// A load's value is a number of its array's kind, whatever the answers are; and that is the kind of the array's elements in memory.
pub fn loads_have_their_kind()
    ensures value { (s : Setup) (i : ℕ) (now : List ℕ) (a : Array) (site : Site) (index : Term) (variables answers rest : List Word) (v : Word) → evaluate s i now (Load a site index) variables answers ≡ Gives v rest → (v.kind ≡ element_kind s a) × (in_kind v.kind v.value ≡ true) }
    ensures element { (s : Setup) (i k : ℕ) (a : Array) → kind_at s (cell s i a k) ≡ element_kind s a }
{}

/// An item arrives at no more barriers than it takes steps.
pub fn arrivals_are_steps()
    ensures { (s : Setup) (i : ℕ) (ws : List ℤ) → arrived s i ws ≤ (after s i ws).steps }
{}

/// Two items wait alike exactly if, in all their solo runs, their k-th arrivals have equal lists left.
pub fn arrivals_agree()
    ensures { (s : Setup) (i j : ℕ) → WaitAlike s i j ↔ ((ws vs : List ℤ) (k : ℕ) → k < length (arrivals s i ws) → k < length (arrivals s j vs) → slice_index_or (arrivals s i ws) k [] ≡ slice_index_or (arrivals s j vs) k []) }
{}

/// An item ends last exactly if, wherever it has ended with n arrivals, the other has at most n.
pub fn arrivals_end()
    ensures { (s : Setup) (i j : ℕ) → EndsLast s i j ↔ ((ws vs : List ℤ) → (after s i ws).status ≡ Ended → length (arrivals s j vs) ≤ length (arrivals s i ws)) }
{}
