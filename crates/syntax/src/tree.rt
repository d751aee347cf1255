//! The tree's types.

ghost use Rattle.std.specs.Prelude.{◌≡◌};
ghost use Rattle.texts.specs.Surface as surface;
ghost use Rattle.syntax.specs.View.{expression, statement};
ghost use Rattle.core_code.specs.View.{site};

use core_code::tree::{Operator, Relation, Site};
use words::Kind;

/// A sign between two operands.
#[derive(Clone, Copy)]
pub enum InfixSign {
    Arithmetic(Operator),
    LeftShift,
    RightShift,
    Comparison(Relation),
    LogicalAnd,
    LogicalOr,
}

/// A sign in front of an operand.
#[derive(Clone, Copy)]
pub enum PrefixSign {
    Minus,
    LogicalNot,
    BitNot,
}

/// The sign of an assignment: `=`, or `op=` with its operator.
#[derive(Clone, Copy)]
pub enum AssignSign {
    Plain,
    With(Operator),
    WithLeftShift,
    WithRightShift,
}

/// An expression. Parentheses leave no node.
#[derive(Drop)]
pub enum Expr {
    Number {
        site: Site,
        kind: Kind,
        value: u32,
    },
    Name {
        site: Site,
        name: String,
    },
    Element {
        site: Site,
        name: String,
        index: Box<Expr>,
    },
    Call {
        site: Site,
        name: String,
        arguments: Vec<Expr>,
    },
    Prefix {
        site: Site,
        sign: PrefixSign,
        of: Box<Expr>,
    },
    /// The site is that of the parenthesis.
    Cast {
        site: Site,
        kind: Kind,
        of: Box<Expr>,
    },
    Infix {
        site: Site,
        sign: InfixSign,
        left: Box<Expr>,
        right: Box<Expr>,
    },
    /// The site is that of the `?`.
    Conditional {
        site: Site,
        test: Box<Expr>,
        taken: Box<Expr>,
        skipped: Box<Expr>,
    },
}

/// A private variable with its initialiser.
#[derive(Drop)]
pub struct Declaration {
    pub number: u32,
    pub site: Site,
    pub kind: Kind,
    pub name_site: Site,
    pub name: String,
    pub value: Expr,
}

/// An assignment to a variable, or with an index to an element; the site is that of the name.
#[derive(Drop)]
pub struct Assignment {
    pub number: u32,
    pub site: Site,
    pub name: String,
    pub index: Option<Expr>,
    pub sign: AssignSign,
    pub sign_site: Site,
    pub value: Expr,
}

/// The first part of a `for`.
#[derive(Drop)]
pub enum First {
    Declares(Declaration),
    Assigns(Assignment),
}

/// The word of a jump statement.
#[derive(Clone, Copy)]
pub enum JumpWord {
    Return,
    Break,
    Continue,
}

/// A statement with its number in the source, from 1.
#[derive(Drop)]
pub enum Stmt {
    Declare(Declaration),
    DeclareArray {
        number: u32,
        site: Site,
        kind: Kind,
        name_site: Site,
        name: String,
        length: u32,
    },
    Assign(Assignment),
    If {
        number: u32,
        site: Site,
        test: Expr,
        taken: Vec<Stmt>,
        skipped: Vec<Stmt>,
    },
    While {
        number: u32,
        site: Site,
        test: Expr,
        body: Vec<Stmt>,
    },
    For {
        number: u32,
        site: Site,
        first: First,
        test: Expr,
        update: Assignment,
        body: Vec<Stmt>,
    },
    Barrier {
        number: u32,
        site: Site,
        flags: Expr,
    },
    Jump {
        number: u32,
        site: Site,
        jump: JumpWord,
    },
    Block {
        number: u32,
        site: Site,
        body: Vec<Stmt>,
    },
}

/// A parameter of a kernel: a buffer, or a value.
#[derive(Drop)]
pub enum Parameter {
    Buffer {
        constant: bool,
        kind: Kind,
        name_site: Site,
        name: String,
    },
    Value {
        kind: Kind,
        name_site: Site,
        name: String,
    },
}

/// A kernel: its name with its site, its work-group size in three dimensions, its parameters and its body.
#[derive(Drop)]
pub struct Kernel {
    pub name: String,
    pub name_site: Site,
    pub sizes: [u32; 3],
    pub parameters: Vec<Parameter>,
    pub body: Vec<Stmt>,
}

impl Expr {
    /// The site that the node keeps: of a name, a number or a call where it begins, else of its sign or parenthesis.
    pub fn site(&self) -> Site
        ensures { site result ≡ surface.site_of (expression self.now) }
    {
        match self {
            Expr::Number { site, .. }
            | Expr::Name { site, .. }
            | Expr::Element { site, .. }
            | Expr::Call { site, .. }
            | Expr::Prefix { site, .. }
            | Expr::Cast { site, .. }
            | Expr::Infix { site, .. }
            | Expr::Conditional { site, .. } => *site,
        }
    }
}

impl Stmt {
    /// The site at which the statement begins.
    pub fn site(&self) -> Site
        ensures { site result ≡ surface.begins_at (statement self.now) }
    {
        match self {
            Stmt::Declare(declaration) => declaration.site,
            Stmt::Assign(assignment) => assignment.site,
            Stmt::DeclareArray { site, .. }
            | Stmt::If { site, .. }
            | Stmt::While { site, .. }
            | Stmt::For { site, .. }
            | Stmt::Barrier { site, .. }
            | Stmt::Jump { site, .. }
            | Stmt::Block { site, .. } => *site,
        }
    }

    /// The statement's number in the source, from 1.
    pub fn number(&self) -> u32
        ensures { result ≡ surface.number_of (statement self.now) }
    {
        match self {
            Stmt::Declare(declaration) => declaration.number,
            Stmt::Assign(assignment) => assignment.number,
            Stmt::DeclareArray { number, .. }
            | Stmt::If { number, .. }
            | Stmt::While { number, .. }
            | Stmt::For { number, .. }
            | Stmt::Barrier { number, .. }
            | Stmt::Jump { number, .. }
            | Stmt::Block { number, .. } => *number,
        }
    }
}
