//! Laws of whole numbers, of words and of the numbers of work-items.

ghost use Rattle.std.specs.Prelude.{◌≡◌, ℕ, ◌+◌, ◌*◌, ◌%◌, ◌<◌, ◌≤ℤ◌, ◌+ℤ◌, ◌*ℤ◌, ℤ, pos, true};
ghost use Rattle.std.specs.Int.{int_div_euclid};
ghost use Rattle.semantics.specs.Word.{Kind, in_kind, as_kind};
ghost use Rattle.semantics.specs.Launch.{Three, product};
ghost use Rattle.semantics.specs.Setup.{Setup, place, number_of, IsPlace, group_size, group_count, group_of, member, item_count};

/// Products distribute over sums.
pub fn products_distribute()
    ensures { (a b c : ℤ) → a *ℤ (b +ℤ c) ≡ a *ℤ b +ℤ a *ℤ c }
{}

/// Products of whole numbers associate.
pub fn products_associate()
    ensures { (a b c : ℤ) → (a *ℤ b) *ℤ c ≡ a *ℤ (b *ℤ c) }
{}

/// A whole number that is at least `-c / d` is at least that quotient rounded up.
pub fn quotients_round()
    ensures { (d : ℕ) (x c : ℤ) → 0 < d → pos 0 ≤ℤ (pos d *ℤ x +ℤ c) → pos 0 ≤ℤ (x +ℤ int_div_euclid c (pos d)) }
{}

/// Memory read as a kind is a number of that kind, and a number that the kind has is read as itself.
pub fn kinds_are_read()
    ensures in_range { (k : Kind) (z : ℤ) → in_kind k (as_kind k z) ≡ true }
    ensures same { (k : Kind) (z : ℤ) → in_kind k z ≡ true → as_kind k z ≡ z }
{}

/// Places and numbers correspond, among local sizes and among group counts.
pub fn places_are_numbered()
    ensures place { (t : Three ℕ) (n : ℕ) → n < product t → IsPlace t (place t n) × (number_of t (place t n) ≡ n) }
    ensures number { (t p : Three ℕ) → IsPlace t p → (number_of t p < product t) × (place t (number_of t p) ≡ p) }
{}

/// An item is a group and a number in it.
pub fn items_are_members()
    ensures member_of { (s : Setup) (i : ℕ) → i < item_count s → (group_of s i < group_count s) × (i % group_size s < group_size s) × (member s (group_of s i) (i % group_size s) ≡ i) }
    ensures group_of { (s : Setup) (g k : ℕ) → g < group_count s → k < group_size s → (member s g k < item_count s) × (group_of s (member s g k) ≡ g) × (member s g k % group_size s ≡ k) }
{}
