//! `a[get_global_id(0)] = 1u;`

ghost use Rattle.std.specs.Prelude.{ℕ, ◌*◌, ◌≤◌, ◌<◌, ℤ, List, length};
ghost use Rattle.semantics.specs.Headline.{Headline};
ghost use Rattle.samples.specs.OneStore.{one_store};

/// At every launch whose buffer has an element for each item, the headline holds within one step an item.
pub fn one_store_is_safe()
    ensures { (size groups : ℕ) (a : List ℤ) → 0 < size → size * groups ≤ length a → Headline (one_store size groups a) 1 }
{}
