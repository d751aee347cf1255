//! What all obligations of a kernel are asked with.

use crate::hand::Premises;
use crate::said::Said;
use std::alloc::Global;

/// The context of each obligation: the facts of every launch, and the notes of the certificate beside its entries.
#[derive(Drop)]
pub struct Asked<'a, D> {
    pub alloc: Global,
    pub premises: Premises<'a, D>,
    pub said: &'a Said<'a>,
}
