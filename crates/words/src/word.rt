//! Words of the kinds `int`, `uint` and `size_t`, and the operations on them.

ghost use Rattle.std.specs.Prelude.{◌≡◌, ◌≤◌, ◌<◌, ◌^◌, Ok, pos};
ghost use Rattle.semantics.specs.Word as semantics;
ghost use Rattle.words.specs.View.{kind, kind_of, value_of, word, number_of, seen};

/// A 32-bit integer type (C99 6.2.5; OpenCL 1.2, 6.1.1).
#[derive(Debug, Clone, Copy, PartialEq, Eq)]
pub enum Kind {
    /// Signed: -2147483648 to 2147483647.
    Int,
    /// Unsigned: 0 to 4294967295.
    Uint,
    /// Ids and sizes, and what is computed of them (`size_t`): 0 to 4294967295, and no result wraps.
    Size,
}

/// A number of a kind.
#[derive(Debug, Clone, Copy, PartialEq, Eq)]
pub enum Word {
    Int(i32),
    Uint(u32),
    Size(u32),
}

/// The faults that no step of a kernel may make. C99 leaves each undefined, but for the conversion, which is up to the compiler.
#[derive(Debug, Clone, Copy, PartialEq, Eq)]
pub enum Fault {
    /// A quotient or a remainder by zero (C99 6.5.5).
    DivisionByZero = 1,
    /// A signed result out of range (C99 6.5), or a number converted to `int` that `int` lacks (6.3.1.3).
    Overflow = 2,
    /// An index outside its buffer (C99 6.5.6). No operation on words answers it.
    OutOfBounds = 3,
}

/// Whether two kinds are the same.
pub fn same_kind(left: Kind, right: Kind) -> bool
    ensures { result ≡ semantics.same_kind (kind left) (kind right) }
{
    match (left, right) {
        (Kind::Int, Kind::Int) | (Kind::Uint, Kind::Uint) | (Kind::Size, Kind::Size) => true,
        (Kind::Int, Kind::Uint) | (Kind::Int, Kind::Size) => false,
        (Kind::Uint, Kind::Int) | (Kind::Uint, Kind::Size) => false,
        (Kind::Size, Kind::Int) | (Kind::Size, Kind::Uint) => false,
    }
}

impl Fault {
    /// The number by which the fault is printed: 2 for `F2`.
    pub fn number(self) -> u8
        ensures { result ≡ number_of self }
    {
        self as u8
    }
}

impl Word {
    pub fn kind(self) -> Kind
        ensures { kind result ≡ kind_of self }
    {
        match self {
            Word::Int(_) => Kind::Int,
            Word::Uint(_) => Kind::Uint,
            Word::Size(_) => Kind::Size,
        }
    }

    /// The number itself, whatever the kind.
    pub fn value(self) -> i64
        ensures { result ≡ value_of self }
    {
        match self {
            Word::Int(value) => value as i64,
            Word::Uint(value) | Word::Size(value) => value as i64,
        }
    }

    /// Its 32 bits, in two's complement (C99 6.2.6.2).
    pub fn bits(self) -> u32
        ensures { result ≡ semantics.bits_of (value_of self) }
    {
        match self {
            Word::Int(value) => value.cast_unsigned(),
            Word::Uint(value) | Word::Size(value) => value,
        }
    }

    /// The word that has these bits.
    pub fn from_bits(to: Kind, bits: u32) -> Word
        ensures { word result ≡ semantics.word (kind to) (semantics.read_bits (kind to) bits) }
    {
        match to {
            Kind::Int => Word::Int(bits.cast_signed()),
            Kind::Uint => Word::Uint(bits),
            Kind::Size => Word::Size(bits),
        }
    }
}

/// An exact result in its kind: `uint` modulo 2^32 (C99 6.2.5), or an overflow where `int` lacks it (6.5) or a size would wrap (ours).
pub fn settle(to: Kind, exact: i64) -> Result<Word, Fault>
    ensures { seen result ≡ semantics.settle semantics.Exact (kind to) exact }
{
    match to {
        Kind::Int => i32::try_from(exact)
            .map(Word::Int)
            .map_err(|_| Fault::Overflow),
        Kind::Uint => Ok(Word::Uint(exact.rem_euclid(1 << 32) as u32)),
        Kind::Size => u32::try_from(exact)
            .map(Word::Size)
            .map_err(|_| Fault::Overflow),
    }
}

/// The sum (C99 6.5.6).
pub fn add(a: Word, b: Word) -> Result<Word, Fault>
    requires { kind_of a ≡ kind_of b }
    ensures { seen result ≡ semantics.calculate semantics.Add semantics.Exact (kind_of a) (value_of a) (value_of b) }
{
    settle(a.kind(), a.value() + b.value())
}

/// The difference (C99 6.5.6).
pub fn sub(a: Word, b: Word) -> Result<Word, Fault>
    requires { kind_of a ≡ kind_of b }
    ensures { seen result ≡ semantics.calculate semantics.Subtract semantics.Exact (kind_of a) (value_of a) (value_of b) }
{
    settle(a.kind(), a.value() - b.value())
}

/// The product (C99 6.5.5).
pub fn mul(a: Word, b: Word) -> Result<Word, Fault>
    requires { kind_of a ≡ kind_of b }
    ensures { seen result ≡ semantics.calculate semantics.Multiply semantics.Exact (kind_of a) (value_of a) (value_of b) }
{
    match (a, b) {
        (Word::Int(a), Word::Int(b)) => settle(Kind::Int, a as i64 * b as i64),
        (Word::Uint(a), Word::Uint(b)) => Ok(Word::Uint(a.wrapping_mul(b))),
        (Word::Size(a), Word::Size(b)) => match a.checked_mul(b) {
            Some(product) => Ok(Word::Size(product)),
            None => Err(Fault::Overflow),
        },
        _ => unreachable!(),
    }
}

/// The quotient, rounded toward zero (C99 6.5.5).
pub fn div(a: Word, b: Word) -> Result<Word, Fault>
    requires { kind_of a ≡ kind_of b }
    ensures { seen result ≡ semantics.calculate semantics.Divide semantics.Exact (kind_of a) (value_of a) (value_of b) }
{
    if b.value() == 0 {
        return Err(Fault::DivisionByZero);
    }
    settle(a.kind(), a.value() / b.value())
}

/// The remainder of two `int`s, with the sign of `a`; an overflow where the quotient is one (C99 6.5.5).
fn rem_of_ints(a: Word, b: Word) -> Result<Word, Fault>
    requires first { kind_of a ≡ semantics.Int }
    requires second { kind_of b ≡ semantics.Int }
    ensures { seen result ≡ semantics.calculate semantics.Remainder semantics.Exact semantics.Int (value_of a) (value_of b) }
{
    let _quotient = div(a, b)?;
    settle(Kind::Int, a.value() % b.value())
}

/// The remainder of two `uint`s (C99 6.5.5).
fn rem_of_uints(a: u32, b: u32) -> Result<Word, Fault>
    ensures { seen result ≡ semantics.calculate semantics.Remainder semantics.Exact semantics.Uint (pos a) (pos b) }
{
    match a.checked_rem(b) {
        Some(rest) => Ok(Word::Uint(rest)),
        None => Err(Fault::DivisionByZero),
    }
}

/// The remainder of two sizes (C99 6.5.5).
fn rem_of_sizes(a: u32, b: u32) -> Result<Word, Fault>
    ensures { seen result ≡ semantics.calculate semantics.Remainder semantics.Exact semantics.Size (pos a) (pos b) }
{
    match a.checked_rem(b) {
        Some(rest) => Ok(Word::Size(rest)),
        None => Err(Fault::DivisionByZero),
    }
}

/// The remainder, with the sign of `a`; an overflow where the quotient is one (C99 6.5.5).
pub fn rem(a: Word, b: Word) -> Result<Word, Fault>
    requires { kind_of a ≡ kind_of b }
    ensures { seen result ≡ semantics.calculate semantics.Remainder semantics.Exact (kind_of a) (value_of a) (value_of b) }
{
    match (a, b) {
        (Word::Int(_), Word::Int(_)) => rem_of_ints(a, b),
        (Word::Uint(a), Word::Uint(b)) => rem_of_uints(a, b),
        (Word::Size(a), Word::Size(b)) => rem_of_sizes(a, b),
        _ => unreachable!(),
    }
}

/// The bits that both have (C99 6.5.10).
pub fn bit_and(a: Word, b: Word) -> Result<Word, Fault>
    requires { kind_of a ≡ kind_of b }
    ensures { seen result ≡ semantics.calculate semantics.BitAnd semantics.Exact (kind_of a) (value_of a) (value_of b) }
{
    Ok(Word::from_bits(a.kind(), a.bits() & b.bits()))
}

/// The bits that either has (C99 6.5.12).
pub fn bit_or(a: Word, b: Word) -> Result<Word, Fault>
    requires { kind_of a ≡ kind_of b }
    ensures { seen result ≡ semantics.calculate semantics.BitOr semantics.Exact (kind_of a) (value_of a) (value_of b) }
{
    Ok(Word::from_bits(a.kind(), a.bits() | b.bits()))
}

/// The bits that just one has (C99 6.5.11).
pub fn bit_xor(a: Word, b: Word) -> Result<Word, Fault>
    requires { kind_of a ≡ kind_of b }
    ensures { seen result ≡ semantics.calculate semantics.BitXor semantics.Exact (kind_of a) (value_of a) (value_of b) }
{
    Ok(Word::from_bits(a.kind(), a.bits() ^ b.bits()))
}

/// The `int` 1 where `a` is less than `b`, otherwise 0 (C99 6.5.8).
pub fn less(a: Word, b: Word) -> Result<Word, Fault>
    requires { kind_of a ≡ kind_of b }
    ensures { seen result ≡ Ok (semantics.truth (semantics.holds semantics.Less (value_of a) (value_of b))) }
{
    Ok(Word::Int((a.value() < b.value()) as i32))
}

/// The negative (C99 6.5.3.3).
pub fn neg(w: Word) -> Result<Word, Fault>
    ensures { seen result ≡ semantics.calculate_unary semantics.Negate semantics.Exact (kind_of w) (value_of w) }
{
    settle(w.kind(), -w.value())
}

/// The complement of each bit (C99 6.5.3.3); of a size, which has more bits than 32 or as many, an overflow (ours).
pub fn not(w: Word) -> Result<Word, Fault>
    ensures { seen result ≡ semantics.calculate_unary semantics.Complement semantics.Exact (kind_of w) (value_of w) }
{
    match w {
        Word::Int(_) | Word::Uint(_) => Ok(Word::from_bits(w.kind(), !w.bits())),
        Word::Size(_) => Err(Fault::Overflow),
    }
}

/// `w` times 2^k (C99 6.5.7; OpenCL 1.2, 6.3).
pub fn shl(w: Word, k: u32) -> Result<Word, Fault>
    requires unsigned { kind_of w ≡ semantics.Uint }
    requires count { k ≤ 31 }
    ensures { seen result ≡ semantics.calculate_unary (semantics.ShiftLeft k) semantics.Exact (kind_of w) (value_of w) }
{
    Ok(Word::Uint(w.bits() << k))
}

/// `w` divided by 2^k, rounded down (C99 6.5.7; OpenCL 1.2, 6.3).
pub fn shr(w: Word, k: u32) -> Result<Word, Fault>
    requires unsigned { kind_of w ≡ semantics.Uint }
    requires count { k ≤ 31 }
    ensures { seen result ≡ semantics.calculate_unary (semantics.ShiftRight k) semantics.Exact (kind_of w) (value_of w) }
{
    Ok(Word::Uint(w.bits() >> k))
}

/// The distance of a shift by a word: its lowest five bits (OpenCL 1.2, 6.3 j).
pub fn count_of(w: Word) -> u32
    ensures value { result ≡ semantics.count_of (value_of w) }
    ensures few { result ≤ 31 }
{
    w.bits() % 32
}

/// The number of a kind that has the 32 bits of a product with 2^k.
fn int_shifted_left(value: i32, k: u32) -> Word
    requires { k ≤ 31 }
    ensures { word result ≡ semantics.shift semantics.Leftward semantics.Int value k }
{
    let product = value as i64 * power(k) as i64;
    Word::from_bits(Kind::Int, product.rem_euclid(1 << 32) as u32)
}

/// The 32 bits of `w` times 2^k, as a number of its kind (C99 6.5.7; of an `int` too, where C99 leaves some undefined).
pub fn shift_left(w: Word, k: u32) -> Word
    requires { k ≤ 31 }
    ensures { word result ≡ semantics.shift semantics.Leftward (kind_of w) (value_of w) k }
{
    match w {
        Word::Int(value) => int_shifted_left(value, k),
        Word::Uint(value) => Word::Uint(value << k),
        Word::Size(value) => Word::Size(value << k),
    }
}

/// `w` divided by 2^k, rounded down (C99 6.5.7; a negative number stays one).
#[tactic(auto, using(crate::proofs::Powers::shifted_down))]
pub fn shift_right(w: Word, k: u32) -> Word
    requires { k ≤ 31 }
    ensures { word result ≡ semantics.shift semantics.Rightward (kind_of w) (value_of w) k }
{
    match w {
        Word::Int(value) => Word::Int(value >> k),
        Word::Uint(value) => Word::Uint(value >> k),
        Word::Size(value) => Word::Size(value >> k),
    }
}

/// The word's number in a kind: modulo 2^32 in `Uint`, an overflow where `Int` or `Size` lacks it (C99 6.3.1.3).
pub fn convert(w: Word, to: Kind) -> Result<Word, Fault>
    ensures { seen result ≡ semantics.convert semantics.Exact (kind to) (value_of w) }
{
    settle(to, w.value())
}

/// The 32 bits of a word, read as a kind.
pub fn read_as(w: Word, to: Kind) -> Word
    ensures { word result ≡ semantics.word (kind to) (semantics.as_kind (kind to) (value_of w)) }
{
    Word::from_bits(to, w.bits())
}

/// The place value of a bit: 2^k.
#[tactic(auto, using(crate::proofs::Powers::small_power))]
pub fn power(k: u32) -> u32
    requires { k ≤ 31 }
    ensures value { result ≡ 2 ^ k }
    ensures some { 0 < result }
{
    1 << k
}

/// The value of a test: `int` 0 or 1 (C99 6.5.8).
pub fn truth(holds: bool) -> Word
    ensures { word result ≡ semantics.truth holds }
{
    Word::Int(holds as i32)
}

/// Whether the word is false: it is 0.
pub fn is_zero(w: Word) -> bool
    ensures { result ≡ semantics.is_zero (value_of w) }
{
    w.value() == 0
}

/// `b` where it is less than `a`, otherwise `a` (OpenCL 1.2, 6.12.3).
pub fn smaller(a: Word, b: Word) -> Word
    ensures { word result ≡ semantics.smaller (word a) (word b) }
{
    if b.value() < a.value() { b } else { a }
}

/// `b` where `a` is less than it, otherwise `a` (OpenCL 1.2, 6.12.3).
pub fn larger(a: Word, b: Word) -> Word
    ensures { word result ≡ semantics.larger (word a) (word b) }
{
    if a.value() < b.value() { b } else { a }
}
