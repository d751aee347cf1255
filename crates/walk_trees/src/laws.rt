//! A law of the definitions: the contract of a function that does nothing.

ghost use Rattle.std.specs.Prelude.{◌≡◌, ◌<◌, ℕ, Bool, true, List};
ghost use Rattle.std.specs.List.{All};
ghost use Rattle.semantics.specs.Word.{Word};
ghost use Rattle.semantics.specs.Core.{Term};
ghost use Rattle.semantics.specs.Launch.{Kernel, Launch, Fits};
ghost use Rattle.semantics.specs.Setup.{at_launch, item_count};
ghost use Rattle.semantics.specs.Solo.{opening};
ghost use Rattle.semantics.specs.Contents.{HonestTerm};
ghost use Rattle.semantics.specs.Evaluation.{evaluate};
ghost use Rattle.semantics.specs.Conditions.{Conditions, Meets};
ghost use Rattle.facts.specs.Symbols.{First};
ghost use Rattle.facts.specs.Launching.{are_sizes, launch_facts, item_facts};
ghost use Rattle.walk_trees.specs.Trees.{claims};
ghost use Rattle.walk_trees.specs.Statements.{setting};
ghost use Rattle.walk_trees.specs.Covered.{covers_term};
ghost use Rattle.walk_trees.specs.Shown.{IsShownWithProducts};
ghost use Rattle.walk_trees.specs.Sound.{any_space, tree_of, IsFoundIn};

use domain::Domain;

/// If all that the walk of a term claims is shown, no item meets a fault when it evaluates that term as it begins, and its loads are
/// answered by numbers that lines of the conditions let buffers hold: it gets a value, which the form at some end of the walk has, or, of
/// the loads that have no answer, it asks for one that the walk notes.
pub fn walk_of_a_term_is_sound<D: Domain>()
    ensures { (k : Kernel) (c : Conditions) (is_wide joins : Bool) (has_entry : ℕ → Bool) (e : Term) (l : Launch) (i : ℕ) (now : List ℕ) (answers : List Word) → are_sizes k.sizes ≡ true → covers_term any_space e ≡ true → Fits k l → Meets c l → i < item_count (at_launch k l) → HonestTerm (at_launch k l) c.contents i now e (opening (at_launch k l) i).variables answers → All IsShownWithProducts (claims (launch_facts c) (item_facts k.sizes First) 0 (tree_of (setting D.Domain k c is_wide joins has_entry) k e)) → IsFoundIn (tree_of (setting D.Domain k c is_wide joins has_entry) k e) (at_launch k l) (evaluate (at_launch k l) i now e (opening (at_launch k l) i).variables answers) }
{}
