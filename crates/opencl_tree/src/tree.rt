//! The tree's types.

use crate::types::{Base, Qualifiers, TypeName};
use core_code::tree::Site;
use syntax::tree::{AssignSign, InfixSign};
use words::Kind;

/// A sign in front of an operand (C99 6.5.3).
#[derive(Clone, Copy)]
pub enum PrefixSign {
    Minus,
    Plus,
    LogicalNot,
    BitNot,
    Indirection,
    AddressOf,
}

/// The sign of a step: `++` or `--`.
#[derive(Clone, Copy)]
pub enum StepSign {
    Increment,
    Decrement,
}

/// The side on which the sign of a step stands.
#[derive(Clone, Copy)]
pub enum Side {
    Before,
    Behind,
}

/// An expression (C99 6.5; OpenCL 1.2, 6.1.6). Parentheses leave no node.
#[derive(Drop)]
pub enum Expr {
    Integer {
        site: Site,
        kind: Kind,
        value: u32,
    },
    Real {
        site: Site,
        spelling: Vec<u8>,
    },
    Name {
        site: Site,
        name: String,
    },
    Call {
        site: Site,
        name: String,
        arguments: Vec<Expr>,
    },
    /// The site is that of the bracket.
    Index {
        site: Site,
        of: Box<Expr>,
        index: Box<Expr>,
    },
    /// The site is that of the dot.
    Member {
        site: Site,
        of: Box<Expr>,
        name: String,
    },
    Prefix {
        site: Site,
        sign: PrefixSign,
        of: Box<Expr>,
    },
    Step {
        site: Site,
        side: Side,
        sign: StepSign,
        of: Box<Expr>,
    },
    /// The site is that of the parenthesis.
    Cast {
        site: Site,
        to: TypeName,
        of: Box<Expr>,
    },
    /// The site is that of the parenthesis around the type.
    Vector {
        site: Site,
        to: TypeName,
        parts: Vec<Expr>,
    },
    Infix {
        site: Site,
        sign: InfixSign,
        left: Box<Expr>,
        right: Box<Expr>,
    },
    /// The site is that of the `?`.
    Conditional {
        site: Site,
        test: Box<Expr>,
        taken: Box<Expr>,
        skipped: Box<Expr>,
    },
    Assign {
        site: Site,
        sign: AssignSign,
        target: Box<Expr>,
        value: Box<Expr>,
    },
    Comma {
        site: Site,
        first: Box<Expr>,
        second: Box<Expr>,
    },
    SizeofType {
        site: Site,
        of: TypeName,
    },
    SizeofOf {
        site: Site,
        of: Box<Expr>,
    },
}

/// The initial value of a variable: none, an expression, or a list in braces (C99 6.7.8).
#[derive(Drop)]
pub enum Initial {
    Absent,
    Given(Expr),
    Listed { site: Site, values: Vec<Initial> },
}

/// A name with its stars, its dimensions, the outermost first, and what it begins with. A dimension may be left open.
#[derive(Drop)]
pub struct Declarator {
    pub site: Site,
    pub name: String,
    pub stars: Vec<Qualifiers>,
    pub dimensions: Vec<Option<Expr>>,
    pub initial: Initial,
}

/// Variables whose types have one base, or the name of a type.
#[derive(Drop)]
pub struct Declaration {
    pub number: u32,
    pub site: Site,
    pub base: Base,
    pub qualifiers: Qualifiers,
    pub declarators: Vec<Declarator>,
}

/// The first part of a `for`.
#[derive(Drop)]
pub enum First {
    Absent,
    Declares(Declaration),
    Evaluates(Expr),
}

/// A statement with its number in the source, from 1 (C99 6.8).
#[derive(Drop)]
pub enum Stmt {
    Declare(Declaration),
    /// The name of a type: a declaration with one declarator that begins with nothing.
    Typedef(Declaration),
    Evaluate {
        number: u32,
        site: Site,
        value: Expr,
    },
    If {
        number: u32,
        site: Site,
        test: Expr,
        taken: Vec<Stmt>,
        skipped: Vec<Stmt>,
    },
    While {
        number: u32,
        site: Site,
        test: Expr,
        body: Vec<Stmt>,
    },
    Do {
        number: u32,
        site: Site,
        body: Vec<Stmt>,
        test: Expr,
    },
    For {
        number: u32,
        site: Site,
        first: First,
        test: Option<Expr>,
        update: Option<Expr>,
        body: Vec<Stmt>,
    },
    Switch {
        number: u32,
        site: Site,
        test: Expr,
        body: Vec<Stmt>,
    },
    Case {
        number: u32,
        site: Site,
        value: Expr,
    },
    Default {
        number: u32,
        site: Site,
    },
    Break {
        number: u32,
        site: Site,
    },
    Continue {
        number: u32,
        site: Site,
    },
    Return {
        number: u32,
        site: Site,
        value: Option<Expr>,
    },
    Block {
        number: u32,
        site: Site,
        body: Vec<Stmt>,
    },
    Empty {
        number: u32,
        site: Site,
    },
}
