//! Laws of the definitions of plain kernels. Each is the contract of a function with an empty body.

ghost use Rattle.std.specs.Prelude.{◌≡◌, ◌⊎◌, ℕ, suc, [], ◌∷◌, true, false, None, get_or};
ghost use Rattle.semantics.specs.Launch.{Kernel};
ghost use Rattle.semantics.specs.Conditions.{Conditions};
ghost use Rattle.arrivals.specs.Loops.{unmet};
ghost use Rattle.arrivals.specs.Places.{own_place};
ghost use Rattle.walk_trees.specs.Trees.{Obligation, leaves};
ghost use Rattle.obligations.specs.Notes.{Notes};
ghost use Rattle.obligations.specs.Walking.{tree_of};
ghost use Rattle.obligations.specs.Listing.{Planted, all_trees};
ghost use Rattle.obligations.specs.Shown.{obligations};
ghost use Rattle.obligations.specs.Fitting.{forms_fit};
ghost use Rattle.plain_kernels.specs.Domains.{domain};
ghost use Rattle.plain_kernels.specs.Claims.{is_range};
ghost use Rattle.plain_kernels.specs.Kernels.{IsPlain, HasLimits, has_signed};
ghost use Rattle.plain_kernels.specs.Forks.{has_fork};

/// No loop of a plain kernel misses a barrier, and its entry is its one place, whose tree has one path: it comes to an end.
pub fn plain_kernels_have_one_place()
    ensures met { (k : Kernel) (c : Conditions) → IsPlain k c → unmet k.body ≡ None }
    ensures one_tree { (k : Kernel) (c : Conditions) (n : Notes) → HasLimits k c → IsPlain k c → (t : Planted _) × (all_trees domain k c n ≡ t ∷ []) × (leaves t.claims t.tree ≡ 1) }
{}

/// No test forks the tree of its entry.
pub fn plain_kernels_have_no_fork()
    ensures { (k : Kernel) (c : Conditions) (n : Notes) → HasLimits k c → IsPlain k c → has_fork (tree_of domain k c n 0 (own_place None)) ≡ false }
{}

/// No number of a form that is made to show their obligations leaves `i64`.
pub fn forms_of_plain_kernels_fit()
    ensures { (k : Kernel) (c : Conditions) (n : Notes) → HasLimits k c → IsPlain k c → forms_fit domain k c n ≡ true }
{}

/// A claim of a range that the domain does not settle, and that is needed or has an entry, has an entry; and then some value is an
/// `int` parameter.
pub fn ranges_of_plain_kernels_are_settled()
    ensures { (k : Kernel) (c : Conditions) (n : Notes) (i : ℕ) (o : Obligation) → HasLimits k c → IsPlain k c → is_range k (suc i) ≡ true → o ≡ get_or (obligations domain k c n) i o → o.settled ≡ false → (o.needed ≡ true) ⊎ (n.has_entry (suc i) ≡ true) → (n.has_entry (suc i) ≡ true) × (has_signed k.arguments k.body ≡ true) }
{}
