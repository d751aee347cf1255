//! Whole numbers by sign and size.

ghost use Rattle.std.specs.Prelude.{◌≡◌, ◌<◌, ◌^◌, ◌*◌, ◌*ℤ◌};
ghost use Rattle.words.specs.View.{value_of};
ghost use Rattle.launch.specs.Numbers.{signed, number};

use words::Word;

/// A number whose size has 32 bits.
#[derive(Clone, Copy)]
pub struct Number {
    pub negative: bool,
    pub size: u32,
}

/// A number whose size has 64 bits.
#[derive(Clone, Copy)]
pub struct Product {
    pub negative: bool,
    pub size: u64,
}

/// A number whose size has 96 bits.
#[derive(Clone, Copy)]
pub struct Whole {
    pub negative: bool,
    pub size: u128,
    pub ghost fits: { size < 2 ^ 96 },
}

/// The number of a word.
pub fn of_word(word: Word) -> Number
    ensures { number result ≡ value_of word }
{
    match word {
        Word::Int(value) => Number {
            negative: value < 0,
            size: value.unsigned_abs(),
        },
        Word::Uint(value) | Word::Size(value) => Number {
            negative: false,
            size: value,
        },
    }
}

#[tactic(auto, using(crate::proofs::Products::products))]
fn sizes(left: u32, right: u32) -> u64
    ensures { result ≡ left * right }
{
    left as u64 * right as u64
}

/// The product of two numbers.
#[tactic(auto, using(crate::proofs::Products::products))]
pub fn times(left: Number, right: Number) -> Product
    ensures { signed result.negative result.size ≡ number left *ℤ number right }
{
    Product {
        negative: left.negative != right.negative,
        size: sizes(left.size, right.size),
    }
}

#[tactic(auto, using(crate::proofs::Products::products))]
fn large(left: u32, right: u64) -> u128
    ensures value { result ≡ left * right }
    ensures fits { result < 2 ^ 96 }
{
    left as u128 * right as u128
}

/// The product of a number and a product.
#[tactic(auto, using(crate::proofs::Products::products))]
pub fn times_product(left: Number, right: Product) -> Whole
    ensures { signed result.negative result.size ≡ number left *ℤ signed right.negative right.size }
{
    Whole {
        negative: left.negative != right.negative,
        size: large(left.size, right.size),
    }
}

/// A product as it is.
pub fn from_product(product: Product) -> Whole
    ensures { signed result.negative result.size ≡ signed product.negative product.size }
{
    Whole {
        negative: product.negative,
        size: product.size as u128,
    }
}
