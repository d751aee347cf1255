//! The scalars that values have.

ghost use Rattle.std.specs.Prelude.{◌≡◌};
ghost use Rattle.opencl_terms.specs.Types as rules;
ghost use Rattle.opencl_terms.specs.View.{scalar as seen};
ghost use Rattle.words.specs.View.{kind as kind_seen};

use words::Kind;

/// A scalar type (OpenCL 1.2, 6.1.1) without `ulong`, `half` and `double`; `Boolean` is `bool`.
#[derive(Debug, Clone, Copy, PartialEq, Eq)]
pub enum Scalar {
    Boolean,
    Char,
    Uchar,
    Short,
    Ushort,
    Int,
    Uint,
    Long,
    Size,
    Float,
}

impl Scalar {
    ghost use Rattle.std.specs.Prelude.{◌≡◌, ◌≤◌};
    ghost use Rattle.opencl_terms.specs.Types as rules;
    ghost use Rattle.opencl_terms.specs.View.{scalar as seen};
    ghost use Rattle.words.specs.View.{kind as kind_seen};

    /// The kind that a component has as a variable.
    pub fn kind(self, ids: Kind) -> Kind
        ensures { kind_seen result ≡ rules.kind_of (kind_seen ids) (seen self) }
    {
        match self {
            Scalar::Boolean
            | Scalar::Char
            | Scalar::Uchar
            | Scalar::Short
            | Scalar::Ushort
            | Scalar::Int
            | Scalar::Long => Kind::Int,
            Scalar::Uint | Scalar::Float => Kind::Uint,
            Scalar::Size => ids,
        }
    }

    /// The scalar's number among all.
    pub fn number(self) -> u32
        ensures { result ≡ rules.scalar_number (seen self) }
    {
        match self {
            Scalar::Boolean => 0,
            Scalar::Char => 1,
            Scalar::Uchar => 2,
            Scalar::Short => 3,
            Scalar::Ushort => 4,
            Scalar::Int => 5,
            Scalar::Uint => 6,
            Scalar::Size => 7,
            Scalar::Float => 8,
            Scalar::Long => 9,
        }
    }

    /// The kind of an element in memory.
    pub fn stored_kind(self) -> Kind
        ensures { kind_seen result ≡ rules.stored_kind (seen self) }
    {
        match self {
            Scalar::Int | Scalar::Long => Kind::Int,
            Scalar::Boolean
            | Scalar::Char
            | Scalar::Uchar
            | Scalar::Short
            | Scalar::Ushort
            | Scalar::Uint
            | Scalar::Size
            | Scalar::Float => Kind::Uint,
        }
    }

    /// After the integer promotions (C99 6.3.1.1).
    pub fn promoted(self) -> Scalar
        ensures { seen result ≡ rules.promoted (seen self) }
    {
        match self {
            Scalar::Boolean
            | Scalar::Char
            | Scalar::Uchar
            | Scalar::Short
            | Scalar::Ushort
            | Scalar::Int => Scalar::Int,
            Scalar::Uint => Scalar::Uint,
            Scalar::Long => Scalar::Long,
            Scalar::Size => Scalar::Size,
            Scalar::Float => Scalar::Float,
        }
    }

    pub fn is_float(self) -> bool
        ensures { result ≡ rules.is_float (seen self) }
    {
        matches!(self, Scalar::Float)
    }

    /// Whether the type has fewer bits than an `int`, and elements in memory.
    pub fn is_narrow(self) -> bool
        ensures { result ≡ rules.is_narrow (seen self) }
    {
        matches!(
            self,
            Scalar::Char | Scalar::Uchar | Scalar::Short | Scalar::Ushort
        )
    }

    /// The bits of an element in memory; of a `long`, which is in none, those of its term.
    pub fn bits(self) -> u32
        ensures count { result ≡ rules.bits_in (seen self) }
        ensures some { 8 ≤ result }
        ensures small { result ≤ 32 }
    {
        match self {
            Scalar::Boolean | Scalar::Char | Scalar::Uchar => 8,
            Scalar::Short | Scalar::Ushort => 16,
            Scalar::Int | Scalar::Uint | Scalar::Long | Scalar::Size | Scalar::Float => 32,
        }
    }

    /// The signed scalar of as many bits (6.3 d).
    pub fn signed(self) -> Scalar
        ensures { seen result ≡ rules.signed_of (seen self) }
    {
        match self {
            Scalar::Boolean | Scalar::Char | Scalar::Uchar => Scalar::Char,
            Scalar::Short | Scalar::Ushort => Scalar::Short,
            Scalar::Int | Scalar::Uint | Scalar::Size | Scalar::Float => Scalar::Int,
            Scalar::Long => Scalar::Long,
        }
    }
}

/// The scalar to which two promoted ones are converted (C99 6.3.1.8).
pub fn common(left: Scalar, right: Scalar) -> Scalar
    ensures { seen result ≡ rules.common (seen left) (seen right) }
{
    match (left, right) {
        (Scalar::Float, _) | (Scalar::Size | Scalar::Long | Scalar::Uint, Scalar::Float) => {
            Scalar::Float
        }
        (Scalar::Size, _) | (Scalar::Long | Scalar::Uint, Scalar::Size) => Scalar::Size,
        (Scalar::Long, _) | (Scalar::Uint, Scalar::Long) => Scalar::Long,
        (Scalar::Uint, _) => Scalar::Uint,
        (_, right) => right.promoted(),
    }
}

/// Whether C makes a `long` of two scalars on some devices, and a size on others.
pub fn is_unsettled(left: Scalar, right: Scalar) -> bool
    ensures { result ≡ rules.is_unsettled (seen left) (seen right) }
{
    matches!(
        (left, right),
        (Scalar::Long, Scalar::Size) | (Scalar::Size, Scalar::Long)
    )
}

/// The type of a value: a scalar, or a vector of 2, 3, 4, 8 or 16 components (OpenCL 1.2, 6.1.2).
#[derive(Debug, Clone, Copy)]
pub struct ValueType {
    pub scalar: Scalar,
    pub width: u32,
}

impl ValueType {
    ghost use Rattle.std.specs.Prelude.{◌≡◌};
    ghost use Rattle.opencl_terms.specs.Types as rules;
    ghost use Rattle.opencl_terms.specs.Answers.{value_type};

    pub fn is_vector(self) -> bool
        ensures { result ≡ rules.is_vector (value_type self) }
    {
        2 <= self.width
    }
}
