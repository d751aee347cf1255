//! What a host's argument has to be for a parameter of a kernel.

ghost use Rattle.std.specs.Prelude.{◌≤◌};

use words::Kind;

/// The scalars that parameters are made of (OpenCL 1.2, 6.1.1), without those whose size is the device's own.
#[derive(Clone, Copy)]
pub enum Scalar {
    Char,
    Uchar,
    Short,
    Ushort,
    Int,
    Uint,
    Long,
    Float,
}

/// A scalar, whose width is 1, or a vector of 2, 3, 4, 8 or 16 components (6.1.2).
#[derive(Clone, Copy)]
pub struct Element {
    pub scalar: Scalar,
    pub width: u32,
    pub ghost few: { width ≤ 16 },
}

/// A parameter: a value, a buffer of such elements, or local memory with at least so many.
#[derive(Clone, Copy)]
pub enum Shape {
    Value(Element),
    Buffer(Element),
    Local { element: Element, count: u32 },
}

impl Scalar {
    ghost use Rattle.std.specs.Prelude.{◌≡◌};
    ghost use Rattle.words.specs.View.{kind as kind_seen};
    ghost use Rattle.host_launches.specs.Shapes as rules;

    /// Its size in bytes (6.1.1).
    pub fn size(self) -> u32
        ensures { result ≡ rules.size_of self }
    {
        match self {
            Scalar::Char | Scalar::Uchar => 1,
            Scalar::Short | Scalar::Ushort => 2,
            Scalar::Int | Scalar::Uint | Scalar::Float => 4,
            Scalar::Long => 8,
        }
    }

    /// The kind that it has as an argument of a launch.
    pub fn kind(self) -> Kind
        ensures { kind_seen result ≡ rules.kind_of self }
    {
        match self {
            Scalar::Char | Scalar::Uchar => Kind::Int,
            Scalar::Short | Scalar::Ushort => Kind::Int,
            Scalar::Int | Scalar::Long => Kind::Int,
            Scalar::Uint | Scalar::Float => Kind::Uint,
        }
    }

    /// The kind that it has as an element of a buffer.
    pub fn stored_kind(self) -> Kind
        ensures { kind_seen result ≡ rules.stored_kind self }
    {
        match self {
            Scalar::Char | Scalar::Uchar => Kind::Uint,
            Scalar::Short | Scalar::Ushort => Kind::Uint,
            Scalar::Int | Scalar::Long => Kind::Int,
            Scalar::Uint | Scalar::Float => Kind::Uint,
        }
    }
}

impl Element {
    ghost use Rattle.std.specs.Prelude.{◌≡◌};
    ghost use Rattle.host_launches.specs.Shapes as rules;

    fn places(self) -> u32
        ensures value { result ≡ rules.places_of self.width }
        ensures few { result ≤ 16 }
    {
        if self.width == 3 { 4 } else { self.width }
    }

    /// Its size in bytes (6.1.5).
    pub fn size(self) -> u32
        ensures { result ≡ rules.bytes_of self.scalar self.width }
    {
        self.scalar.size() * self.places()
    }
}
