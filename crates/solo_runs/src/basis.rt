//! Which columns of a table depend on earlier ones.

use crate::modular::{difference, inverse, product};
use std::alloc::{AllocError, Global};

/// A row, whose first number that is not 0 is 1, in that column.
#[derive(Drop)]
struct Row {
    lead: usize,
    entries: Vec<u64>,
}

/// Rows that span those which came in: in the leading column of one, the others are 0.
#[derive(Drop)]
pub struct Basis {
    rows: Vec<Row>,
}

/// Takes a row so many times from another one.
fn subtract(entries: &mut Vec<u64>, times: u64, other: &[u64]) {
    if times == 0 {
        return;
    }
    for at in 0..other.len() {
        if let Some(entry) = entries.get_mut(at) {
            *entry = difference(*entry, product(times, other[at]));
        }
    }
}

fn entry_of(entries: &[u64], at: usize) -> u64 {
    entries.get(at).copied().unwrap_or(0)
}

fn first_column(entries: &[u64]) -> Option<usize> {
    for (at, entry) in entries.iter().enumerate() {
        if *entry != 0 {
            return Some(at);
        }
    }
    None
}

fn multiply(entries: &mut Vec<u64>, factor: u64) {
    for entry in entries.iter_mut() {
        *entry = product(*entry, factor);
    }
}

impl Basis {
    /// A basis without rows.
    pub fn new(alloc: Global) -> Basis {
        Basis {
            rows: Vec::new(alloc),
        }
    }

    fn reduce(&self, entries: &mut Vec<u64>) {
        for row in self.rows.iter() {
            let times = entry_of(entries.as_slice(), row.lead);
            subtract(entries, times, row.entries.as_slice());
        }
    }

    fn clear(&mut self, lead: usize, entries: &[u64]) {
        for row in self.rows.iter_mut() {
            let times = entry_of(row.entries.as_slice(), lead);
            subtract(&mut row.entries, times, entries);
        }
    }

    /// Takes in a row: reduced by the others, it becomes one of them unless nothing of it is left.
    pub fn enter(&mut self, entries: Vec<u64>) -> Result<(), AllocError> {
        let mut entries = entries;
        self.reduce(&mut entries);
        let Some(lead) = first_column(entries.as_slice()) else {
            return Ok(());
        };
        let factor = inverse(entry_of(entries.as_slice(), lead));
        multiply(&mut entries, factor);
        self.clear(lead, entries.as_slice());
        self.rows.push(Row { lead, entries })?;
        Ok(())
    }

    fn is_lead(&self, column: usize) -> bool {
        for row in self.rows.iter() {
            if row.lead == column {
                return true;
            }
        }
        false
    }

    /// Columns with their weights, of which the sum is 0: the column, once, and earlier ones; nothing where it depends on no others.
    pub fn dependency(
        &self,
        alloc: Global,
        column: usize,
    ) -> Result<Option<Vec<(usize, u64)>>, AllocError> {
        if self.is_lead(column) {
            return Ok(None);
        }
        let mut weights = Vec::new(alloc);
        for row in self.rows.iter() {
            let entry = entry_of(row.entries.as_slice(), column);
            if entry != 0 {
                weights.push((row.lead, difference(0, entry)))?;
            }
        }
        weights.push((column, 1))?;
        Ok(Some(weights))
    }
}
