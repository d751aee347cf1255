//! Laws of the definitions, each the contract of a function that does nothing.

ghost use Rattle.std.specs.Prelude.{◌≡◌, ◌++◌, ◌<◌, ℕ, List, [], map, length, true, false, Some, None};
ghost use Rattle.facts.specs.Symbols.{Fact};
ghost use Rattle.walk_trees.specs.Trees.{Tree, after, leaves, claims as tree_claims, accesses as tree_accesses, ends as tree_ends};
ghost use Rattle.path_steps.specs.Paths.{Choice, Found, collect};
ghost use Rattle.path_steps.specs.Turns.{along, from, taken_in, count_in, next_choices, rest_of, AreRight, listed_claims, listed_accesses, listed_ends, obliged, is_tree_fit};

use domain::Domain;

#[tactic(auto, using(crate::proofs::Turning::turns))]
/// A path, and then all paths from its next choices on, list what is listed from its choices on.
pub fn paths_take_turns<D: Domain>()
    ensures claims { (facts : List Fact) (cs : List Choice) (n : ℕ) (t : Tree D) → AreRight cs n t → along listed_claims facts cs n t ++ rest_of listed_claims facts n t (next_choices (taken_in cs t) (count_in cs n t)) ≡ from listed_claims facts cs n t }
    ensures accesses { (facts : List Fact) (cs : List Choice) (n : ℕ) (t : Tree D) → AreRight cs n t → along listed_accesses facts cs n t ++ rest_of listed_accesses facts n t (next_choices (taken_in cs t) (count_in cs n t)) ≡ from listed_accesses facts cs n t }
    ensures ends { (facts : List Fact) (cs : List Choice) (n : ℕ) (t : Tree D) → AreRight cs n t → along listed_ends facts cs n t ++ rest_of listed_ends facts n t (next_choices (taken_in cs t) (count_in cs n t)) ≡ from listed_ends facts cs n t }
{}

#[tactic(auto, using(crate::proofs::Turning::next_right))]
/// The numbers in the next choices are those of the claims before the other ways.
pub fn next_choices_are_right<D: Domain>()
    ensures { (cs ds : List Choice) (n : ℕ) (t : Tree D) → next_choices (taken_in cs t) (count_in cs n t) ≡ Some ds → AreRight cs n t → AreRight ds n t }
{}

#[tactic(auto, using(crate::proofs::Turning::ended))]
/// Before the end of the last path stand all claims.
pub fn the_last_path_counts_all<D: Domain>()
    ensures { (cs : List Choice) (n : ℕ) (t : Tree D) → next_choices (taken_in cs t) (count_in cs n t) ≡ None → AreRight cs n t → count_in cs n t ≡ after n t }
{}

#[tactic(auto, using(crate::proofs::Collecting::found_claims, crate::proofs::Collecting::found_accesses, crate::proofs::Collecting::found_ends, crate::proofs::Collecting::found_taken, crate::proofs::Collecting::found_count))]
/// Of a tree, collecting along one path finds exactly the claims, accesses, ends and choices that are listed along it.
pub fn what_is_found_is_listed<D: Domain>()
    ensures claims { (m : Found D) (t : Tree D) → (collect m t).claims ≡ m.claims ++ along listed_claims m.facts m.left m.count t }
    ensures accesses { (m : Found D) (t : Tree D) → (collect m t).accesses ≡ m.accesses ++ along listed_accesses m.facts m.left m.count t }
    ensures ends { (m : Found D) (t : Tree D) → (collect m t).ends ≡ m.ends ++ along listed_ends m.facts m.left m.count t }
    ensures taken { (m : Found D) (t : Tree D) → (collect m t).taken ≡ m.taken ++ taken_in m.left t }
    ensures count { (m : Found D) (t : Tree D) → (collect m t).count ≡ count_in m.left m.count t }
{}

#[tactic(auto, using(crate::proofs::Listing::tree_claims, crate::proofs::Listing::tree_accesses, crate::proofs::Listing::tree_ends, crate::proofs::Listing::ends_counted))]
/// From the first choice on, all of the tree is listed.
pub fn all_paths_list_the_tree<D: Domain>()
    ensures claims { (launch facts : List Fact) (n : ℕ) (t : Tree D) → map (obliged launch) (from listed_claims facts [] n t) ≡ tree_claims launch facts n t }
    ensures accesses { (facts : List Fact) (n : ℕ) (t : Tree D) → from listed_accesses facts [] n t ≡ tree_accesses facts n t }
    ensures ends { (facts : List Fact) (n : ℕ) (t : Tree D) → from listed_ends facts [] n t ≡ tree_ends facts n t }
    ensures counted { (facts : List Fact) (n : ℕ) (t : Tree D) → length (tree_ends facts n t) ≡ leaves n t }
{}

#[tactic(auto, using(crate::proofs::Collecting::too_many, crate::proofs::Collecting::too_large))]
/// If collecting along a path refuses, the tree has more obligations than 65,536, or a number in it that is too large for `i64`.
pub fn refusals_are_of_the_tree<D: Domain>()
    ensures too_many { (m : Found D) (t : Tree D) → (collect m t).is_few ≡ false → m.is_few ≡ true → AreRight m.left m.count t → 65536 < after m.count t }
    ensures too_large { (m : Found D) (t : Tree D) → (collect m t).is_fit ≡ false → m.is_fit ≡ true → AreRight m.left m.count t → is_tree_fit m.count t ≡ false }
{}
