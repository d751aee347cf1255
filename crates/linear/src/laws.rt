//! Laws of products: each function's contract is one, and the function does nothing.

ghost use Rattle.std.specs.Prelude.{◌≡◌, ◌≢◌, ℕ, ℤ, ◌%◌, ◌≤◌, ◌*ℤ◌, Bool, true, List, length, map, ◌<◌, Some};
ghost use Rattle.std.specs.List.{All};
ghost use Rattle.linear.specs.Linear.{Form, value_of};
ghost use Rattle.linear.specs.Exact.{is_rising};
ghost use Rattle.linear.specs.Products.{packed, factors, product_number, are_small, IsMultiplicative, with_products, product, replaced, relabelled, IsRelabelling};

/// Up to three small factors have a number, which gives them back.
pub fn factors_are_kept()
    ensures { (a : List ℕ) → length a ≤ 3 → are_small a ≡ true → factors (product_number a) ≡ a }
{}

/// Where the value of each product of symbols is the product of their values, so it is with forms.
pub fn products_are_products()
    ensures { (v : ℕ → ℤ) → IsMultiplicative v → (f g h : Form ℕ) → product f g ≡ Some h → value_of v h ≡ value_of v f *ℤ value_of v g }
{}

/// Values for the symbols that are no products extend to all symbols, products being products.
pub fn valuations_extend()
    ensures multiplicative { (v : ℕ → ℤ) → IsMultiplicative (with_products v) }
    ensures agrees { (v : ℕ → ℤ) (n : ℕ) → n % 16 ≢ 15 → with_products v n ≡ v n }
{}

/// With forms in the place of symbols, a form is worth what it is where each symbol is worth its form.
pub fn replacements_are_replacements()
    ensures { (v : ℕ → ℤ) → IsMultiplicative v → (by : ℕ → Form ℕ) (f h : Form ℕ) → replaced by f ≡ Some h
        → value_of v h ≡ value_of (with_products (λ n. value_of v (by n))) f }
{}

/// The symbols of a product rise, where those of its factors do.
pub fn products_rise()
    ensures { (f g h : Form ℕ) → product f g ≡ Some h → is_rising 0 f.terms ≡ true → is_rising 0 g.terms ≡ true
        → is_rising 0 h.terms ≡ true }
{}

/// With other numbers for symbols, products being the products of these, values keep products as well.
pub fn relabellings_keep_products()
    ensures { (by : ℕ → ℕ) → IsRelabelling by → (w : ℕ → ℤ) → IsMultiplicative (λ n. with_products w (relabelled by n)) }
{}

/// Other numbers that rise where these do keep the order of products.
pub fn relabellings_keep_order()
    ensures { (is_in : ℕ → Bool) (by : ℕ → ℕ)
        → IsRelabelling by → ((m n : ℕ) → is_in m ≡ true → is_in n ≡ true → m < n → by m < by n)
        → (f g : List ℕ) → are_small f ≡ true → are_small g ≡ true → All (λ n. is_in n ≡ true) f → All (λ n. is_in n ≡ true) g
        → packed f < packed g → packed (map by f) < packed (map by g) }
{}
