//! Types as they are written.

use opencl_tokens::Scalar;

/// An address space (OpenCL 1.2, 6.5).
#[derive(Clone, Copy)]
pub enum Space {
    Global,
    Local,
    Constant,
    Private,
}

/// The qualifiers of a type or of a star (OpenCL 1.2, 6.5; C99 6.7.3).
#[derive(Clone, Copy)]
pub struct Qualifiers {
    pub space: Option<Space>,
    pub constant: bool,
    pub volatile: bool,
    pub restrict: bool,
}

/// A scalar, whose width is 1, or a vector of 2, 3, 4, 8 or 16; nothing; or a name that a `typedef` made.
#[derive(Drop)]
pub enum Base {
    Void,
    Numbers { scalar: Scalar, width: u8 },
    Alias(String),
}

/// A base with its qualifiers, and for each star behind it the star's own.
#[derive(Drop)]
pub struct TypeName {
    pub base: Base,
    pub qualifiers: Qualifiers,
    pub stars: Vec<Qualifiers>,
}
