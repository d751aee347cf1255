//! Texts of version 1, written in version 2.

ghost use Rattle.certificate_text.specs.Migrated as migrating;
ghost use Rattle.certificate.specs.Migrations.{Gives};

use crate::either_reader::read_one;
use crate::error::CertError;
use crate::numbered_writer::write;
use std::alloc::Global;

/// The text of version 2 of the certificate that a text of version 1 says; where it says none, its first fault.
pub fn migrate(alloc: Global, text: &[u8]) -> Result<Vec<u8>, CertError>
    ensures { Gives result (migrating.migrated text.now) }
{
    let certificate = read_one(alloc, text)?;
    Ok(write(alloc, &certificate)?)
}
