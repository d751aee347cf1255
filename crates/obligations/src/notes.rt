//! What is said of a kernel's places and loops.

ghost use Rattle.std.specs.Prelude.{◌<◌, ◌^◌};

use linear::Form;
use loop_bounds::LoopBound;

/// A number divides a form. A coefficient can be that number.
#[derive(Drop)]
pub struct Congruence {
    pub modulus: u64,
    pub form: Form,
    pub ghost small: { modulus < 2 ^ 63 },
}

/// A form is a multiple of another one.
#[derive(Drop)]
pub struct Multiple {
    pub of: Form,
    pub form: Form,
}

/// The lines of a place, with the numbers of its barrier and of its loop: the slots that two items of a group have alike there, facts,
/// congruences and multiples.
#[derive(Drop)]
pub struct Lines {
    pub anchor: Option<u32>,
    pub head: Option<u32>,
    pub same: Vec<u32>,
    pub facts: Vec<Form>,
    pub congruences: Vec<Congruence>,
    pub multiples: Vec<Multiple>,
}

/// The slots whose ranges are known at a barrier or a loop, by its number; at the entry where there is none.
#[derive(Drop)]
pub struct Visible {
    pub statement: Option<u32>,
    pub slots: Vec<u32>,
}

/// The quotient that the entry of a claim names.
#[derive(Drop)]
pub struct Quotient {
    pub claim: u32,
    pub form: Form,
}

/// All that is said, whether the walk is the wide one, and whether it joins ways; of what is said twice the first holds.
#[derive(Drop)]
pub struct Notes {
    pub is_wide: bool,
    pub joins: bool,
    pub places: Vec<Lines>,
    pub rankings: Vec<LoopBound>,
    pub visible: Vec<Visible>,
    pub quotients: Vec<Quotient>,
}
