//! The answers of `migrate`: a certificate of version 1 with its text of version 2, or a refusal.

ghost use Rattle.std.specs.Prelude.{◌≡◌, ◌≤◌, ℕ, List, length, Ok, IfOk, IfErr};
ghost use Rattle.certificate_text.specs.Reading.{certificate_limit};
ghost use Rattle.certificate_text.specs.Migrated as migrating;
ghost use Rattle.telling.specs.Migrating.{IsFaulty, Migrates};

use crate::proving::Sought;
use crate::refusal::Refusal;
use cert_check::error::CheckError;
use certificate::error::{CertError, CertFault};
use certificate::{LIMIT, migrate};
use certificate_text::laws::either_version_is_read;
use std::alloc::Global;

/// The text of version 2, of at most so many bytes as are read.
fn of_two(alloc: Global, text: &[u8]) -> Result<Vec<u8>, CertError>
    ensures text { IfOk result (λ v. migrating.migrated text.now ≡ Ok v.items) }
    ensures within { IfOk result (λ v. length v.items ≤ certificate_limit) }
    ensures told { IfErr result (λ e. IsFaulty e text.now) }
{
    let two = match migrate(alloc, text) {
        Ok(two) => two,
        Err(error) => return Err(error),
    };
    if two.len() > LIMIT {
        return Err(CertError::Refused(CertFault::BadLine(1)));
    }
    Ok(two)
}

/// The refusal of a text, as `check` has it.
fn unmigrated(alloc: Global, error: CertError) -> Sought
    ensures { (old : List ℕ) → IsFaulty error old → Migrates result old }
{
    let error = CheckError::Certificate(error);
    let refusal = Refusal {
        number: error.number(),
        place: error.place(),
    };
    match refusal.told(alloc) {
        Some(line) => Sought::Refused(line),
        None => Sought::OutOfMemory,
    }
}

/// The text of version 2 of a certificate of version 1, with what is written of it, or why there is none.
pub fn migrate_text(alloc: Global, text: &[u8]) -> Sought
    ensures { Migrates result text.now }
{
    either_version_is_read();
    let certificate = match of_two(alloc, text) {
        Ok(two) => two,
        Err(error) => return unmigrated(alloc, error),
    };
    match Vec::from_slice(alloc, b"migrated\n") {
        Ok(written) => Sought::Found {
            written,
            certificate,
        },
        Err(_) => Sought::OutOfMemory,
    }
}
