//! Laws of solo runs whose loads are answered by what buffers may hold.

ghost use Rattle.std.specs.Prelude.{◌≡◌, ◌<◌, ◌↔◌, ◌++◌, ◌∷◌, ℕ, ℤ, List, []};
ghost use Rattle.semantics.specs.Word.{Word, Kind, as_kind};
ghost use Rattle.semantics.specs.Core.{Site, Array, Term};
ghost use Rattle.semantics.specs.Launch.{Fits};
ghost use Rattle.semantics.specs.Setup.{Setup};
ghost use Rattle.semantics.specs.Ask.{Ask, Loads, Stores, ask};
ghost use Rattle.semantics.specs.Safety.{IsPairSafe, IsPairSafeWithin};
ghost use Rattle.semantics.specs.Memory.{Cell, Memory, element_kind, extent, kind_at, opening_memory, put};
ghost use Rattle.semantics.specs.Evaluation.{evaluate, Needs};
ghost use Rattle.semantics.specs.Item.{Entry, Item, trail};
ghost use Rattle.semantics.specs.Solo.{after};
ghost use Rattle.semantics.specs.Conditions.{Content, Conditions, Meets};
ghost use Rattle.semantics.specs.Contents.{HoldsOf, HonestTerm, HonestFront, IsHonest, IsInside, IsKept, Heeds, StoresKept};

/// The answers to a term's loads stay honest when one more comes that is, to the load that has none.
pub fn terms_stay_honest()
    ensures { (s : Setup) (cs : List Content) (i : ℕ) (now : List ℕ) (e : Term) (variables answers : List Word) (a : Array) (k : ℕ) (site : Site) (w : Word) → evaluate s i now e variables answers ≡ Needs a k site → HoldsOf s cs a.space a.number (as_kind (element_kind s a) w.value) → HonestTerm s cs i now e variables answers → HonestTerm s cs i now e variables (answers ++ w ∷ []) }
{}

/// The load that a term asks for is of an element that its array has.
pub fn terms_ask_inside()
    ensures { (s : Setup) (i : ℕ) (now : List ℕ) (e : Term) (variables answers : List Word) (a : Array) (k : ℕ) (site : Site) → evaluate s i now e variables answers ≡ Needs a k site → k < extent s a }
{}

/// In each state of an honest solo run the answers to the loads of the statement in front are honest.
pub fn fronts_are_honest()
    ensures { (s : Setup) (cs : List Content) (i : ℕ) (ws : List ℤ) (e : Entry) (rest : List Entry) → IsHonest s cs i ws → (after s i ws).left ≡ e ∷ rest → HonestFront s cs i (trail (after s i ws).left) e.statement (after s i ws).variables (after s i ws).answers }
{}

/// Where no line bounds what buffers hold, every solo run is honest and every memory is kept; and what holds of honest solo runs is
/// pair-safety itself.
pub fn without_lines_all_runs_are_honest()
    ensures honest { (s : Setup) (i : ℕ) (ws : List ℤ) → IsHonest s [] i ws }
    ensures kept { (s : Setup) (m : Memory) → IsKept s [] m }
    ensures pair_safe { (s : Setup) (bound : ℕ) → IsPairSafeWithin [] s bound ↔ IsPairSafe s bound }
{}

/// A launch that meets the conditions begins with a memory that holds what they let its buffers hold.
pub fn launches_begin_kept()
    ensures { (s : Setup) (c : Conditions) → Fits s.kernel s.launch → Meets c s.launch → IsKept s c.contents (opening_memory s) }
{}

/// A load that is asked for is of an element that its array has, and of its kind; so what a kept memory holds there is an honest answer.
pub fn kept_memory_answers()
    ensures inside { (s : Setup) (i : ℕ) (it : Item) (at : Cell) (kind : Kind) (site : Site) → ask s i it ≡ Loads at kind site → IsInside s at × (kind ≡ kind_at s at) }
    ensures answers { (s : Setup) (cs : List Content) (m : Memory) (i : ℕ) (it : Item) (at : Cell) (kind : Kind) (site : Site) → IsKept s cs m → ask s i it ≡ Loads at kind site → Heeds s cs (ask s i it) (m at) }
{}

/// A store of a number that its buffer may hold leaves a kept memory kept.
pub fn stores_keep_memory()
    ensures { (s : Setup) (cs : List Content) (m : Memory) (i : ℕ) (it : Item) (at : Cell) (site : Site) (value : ℤ) (next : Item) → IsKept s cs m → StoresKept s cs (ask s i it) → ask s i it ≡ Stores at site value next → IsKept s cs (put at value m) }
{}
