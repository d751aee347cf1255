//! The types of the core.

ghost use Rattle.std.specs.Prelude.{◌≡◌};
ghost use Rattle.semantics.specs.Core as core;
ghost use Rattle.semantics.specs.Evaluation as evaluation;
ghost use Rattle.semantics.specs.Item as items;
ghost use Rattle.words.specs.View.{kind as kind_seen, value_of, word as word_seen};
ghost use Rattle.core_code.specs.View.{relation as relation_seen, statement as statement_seen, statements as statements_seen};

use words::{Kind, Word, read_as};

/// The place at which a token begins: line and column from 1, the column in bytes.
#[derive(Debug, Clone, Copy, PartialEq, Eq)]
pub struct Site {
    pub line: u32,
    pub column: u32,
}

/// An arithmetic or bitwise operator on two numbers (C99 6.5.5, 6.5.6, 6.5.10 to 6.5.12).
#[derive(Clone, Copy)]
pub enum Operator {
    Add,
    Subtract,
    Multiply,
    Divide,
    Remainder,
    BitAnd,
    BitOr,
    BitXor,
}

/// A comparison (C99 6.5.8, 6.5.9).
#[derive(Clone, Copy)]
pub enum Relation {
    Less,
    AtMost,
    More,
    AtLeast,
    Equal,
    Unequal,
}

/// The number of an operand, brought to a kind (C99 6.3.1.8); at a size the number itself, whose conversion stands in the term.
fn operand(kind: Kind, of: Word) -> i64
    ensures { result ≡ evaluation.operand (kind_seen kind) (value_of of) }
{
    match kind {
        Kind::Int | Kind::Uint => read_as(of, kind).value(),
        Kind::Size => of.value(),
    }
}

impl Relation {
    /// Whether it holds of two operands, each brought to a kind (C99 6.5.8, 6.5.9); those of sizes are compared as they are.
    pub fn compare(self, kind: Kind, left: Word, right: Word) -> bool
        ensures { result ≡ evaluation.compare (relation_seen self) (kind_seen kind) (word_seen left) (word_seen right) }
    {
        let left = operand(kind, left);
        let right = operand(kind, right);
        match self {
            Relation::Less => left < right,
            Relation::AtMost => left <= right,
            Relation::More => right < left,
            Relation::AtLeast => right <= left,
            Relation::Equal => left == right,
            Relation::Unequal => left != right,
        }
    }
}

/// The memory of an array: global for a buffer parameter, local for a local array (OpenCL 1.2, 3.3).
#[derive(Clone, Copy)]
pub enum Space {
    Global,
    Local,
}

/// A buffer parameter or a local array, by its number among its like, from 0.
#[derive(Clone, Copy)]
pub struct Array {
    pub space: Space,
    pub number: u32,
}

/// A work-item function (OpenCL 1.2, 6.12.1).
#[derive(Clone, Copy)]
pub enum Function {
    GlobalId,
    LocalId,
    GroupId,
    GlobalSize,
    LocalSize,
    NumGroups,
}

/// An operator with one operand; a shift has its count, 0 to 31.
#[derive(Clone, Copy)]
pub enum UnaryOperator {
    Negate,
    Complement,
    ShiftLeft(u32),
    ShiftRight(u32),
}

/// The direction of a shift of bits.
#[derive(Clone, Copy)]
pub enum Direction {
    Leftward,
    Rightward,
}

/// An expression; an operator has the kind to which it brings its operands. No text has a shift by a term, an index that has to lie
/// within a number of elements, or an operation that is not reckoned.
#[derive(Drop)]
pub enum Term {
    Literal {
        kind: Kind,
        value: u32,
    },
    Variable {
        slot: u32,
    },
    Id {
        kind: Kind,
        function: Function,
        dimension: u32,
    },
    Load {
        array: Array,
        site: Site,
        index: Box<Term>,
    },
    Unary {
        operator: UnaryOperator,
        kind: Kind,
        site: Site,
        of: Box<Term>,
    },
    Binary {
        operator: Operator,
        kind: Kind,
        site: Site,
        left: Box<Term>,
        right: Box<Term>,
    },
    Convert {
        kind: Kind,
        site: Site,
        of: Box<Term>,
    },
    Compare {
        relation: Relation,
        kind: Kind,
        left: Box<Term>,
        right: Box<Term>,
    },
    Not {
        of: Box<Term>,
    },
    And {
        left: Box<Term>,
        right: Box<Term>,
    },
    Or {
        left: Box<Term>,
        right: Box<Term>,
    },
    Select {
        test: Box<Term>,
        taken: Box<Term>,
        skipped: Box<Term>,
    },
    Minimum {
        left: Box<Term>,
        right: Box<Term>,
    },
    Maximum {
        left: Box<Term>,
        right: Box<Term>,
    },
    Shift {
        direction: Direction,
        kind: Kind,
        value: Box<Term>,
        count: Box<Term>,
    },
    Within {
        site: Site,
        length: u32,
        index: Box<Term>,
    },
    Opaque {
        operation: u32,
        place: u32,
        kind: Kind,
        first: Box<Term>,
        second: Box<Term>,
        third: Box<Term>,
    },
}

/// A statement with its number in the source. `Break` and `Continue` name their loop by its number.
#[derive(Drop)]
pub enum Statement {
    Set {
        number: u32,
        slot: u32,
        value: Term,
    },
    Store {
        number: u32,
        array: Array,
        site: Site,
        index: Term,
        value: Term,
    },
    If {
        number: u32,
        test: Term,
        taken: Vec<Statement>,
        skipped: Vec<Statement>,
    },
    Loop {
        number: u32,
        test: Term,
        body: Vec<Statement>,
        update: Vec<Statement>,
    },
    Barrier {
        number: u32,
        local: bool,
        global: bool,
    },
    Return {
        number: u32,
    },
    Break {
        number: u32,
        of: u32,
    },
    Continue {
        number: u32,
        of: u32,
    },
}

impl Statement {
    /// Its number in the source.
    pub fn number(&self) -> u32
        ensures { result ≡ core.number (statement_seen self.now) }
    {
        match self {
            Statement::Set { number, .. }
            | Statement::Store { number, .. }
            | Statement::If { number, .. }
            | Statement::Loop { number, .. }
            | Statement::Barrier { number, .. }
            | Statement::Return { number }
            | Statement::Break { number, .. }
            | Statement::Continue { number, .. } => *number,
        }
    }

    /// The update of a loop; of another statement nothing.
    pub fn update(&self) -> &[Statement]
        ensures { statements_seen result.now ≡ items.update_of (statement_seen self.now) }
    {
        match self {
            Statement::Loop { update, .. } => update.as_slice(),
            _ => &[],
        }
    }
}

/// A local array of the kernel.
#[derive(Clone, Copy)]
pub struct LocalArray {
    pub kind: Kind,
    pub length: u32,
}

/// An elaborated kernel: local sizes, element kinds of the buffer parameters, kinds of the value parameters, which take the first
/// slots, local arrays, kinds of the private variables, which take the slots that follow, and the body.
#[derive(Drop)]
pub struct Core {
    pub sizes: [u32; 3],
    pub buffers: Vec<Kind>,
    pub arguments: Vec<Kind>,
    pub arrays: Vec<LocalArray>,
    pub variables: Vec<Kind>,
    pub body: Vec<Statement>,
}
