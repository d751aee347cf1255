//! A certificate of its text, and the entries of the text, in any version.

ghost use Rattle.certificate_text.specs.NumberedReading.{certificate_of_two};
ghost use Rattle.certificate_text.specs.Reading.{certificate_of};
ghost use Rattle.certificate_text.specs.Versions.{certificate_in, certificate_any};
ghost use Rattle.certificate.specs.Certificates.{Says};
ghost use Rattle.certificate.specs.EntryCursors.{Opens};

use crate::certificate::Certificate;
use crate::entry_reader::Entries;
use crate::error::{CertError, CertFault};
use crate::numbered_reader::open_numbered;
use crate::reader::open_one;
use std::alloc::Global;

/// The entries of a text of version 2, and what stands before them, or the first fault there.
pub fn open_two<'a>(alloc: Global, text: &'a [u8]) -> Result<Entries<'a>, CertError>
    ensures { Opens result (certificate_of_two text.now) }
{
    open_numbered(alloc, false, text)
}

/// The entries of a text of version 1 or 2, by its first line, and what stands before them, or the first fault there.
pub fn open_any<'a>(alloc: Global, text: &'a [u8]) -> Result<Entries<'a>, CertError>
    ensures { Opens result (certificate_in text.now) }
{
    match open_one(alloc, text) {
        Ok(entries) => Ok(entries),
        Err(CertError::Refused(CertFault::OtherVersion)) => open_two(alloc, text),
        Err(error) => Err(error),
    }
}

/// The entries of a text of version 1, 2 or 4, by its first line, and what stands before them, or the first fault there. A certificate of
/// version 4 is wide.
pub fn open_wide<'a>(alloc: Global, text: &'a [u8]) -> Result<Entries<'a>, CertError>
    ensures { Opens result (certificate_any text.now) }
{
    match open_any(alloc, text) {
        Ok(entries) => Ok(entries),
        Err(CertError::Refused(CertFault::OtherVersion)) => open_numbered(alloc, true, text),
        Err(error) => Err(error),
    }
}

/// The certificate of a text of version 1, or its first fault. The text is gone through once.
pub fn read_one(alloc: Global, text: &[u8]) -> Result<Certificate, CertError>
    ensures { Says result (certificate_of text.now) }
{
    match open_one(alloc, text) {
        Ok(entries) => entries.gather(),
        Err(error) => Err(error),
    }
}

/// The certificate of a text of version 2, or its first fault. The text is gone through once.
pub fn read(alloc: Global, text: &[u8]) -> Result<Certificate, CertError>
    ensures { Says result (certificate_of_two text.now) }
{
    match open_two(alloc, text) {
        Ok(entries) => entries.gather(),
        Err(error) => Err(error),
    }
}

/// The certificate of a text of version 1 or 2, by its first line, or its first fault.
pub fn read_any(alloc: Global, text: &[u8]) -> Result<Certificate, CertError>
    ensures { Says result (certificate_in text.now) }
{
    match open_any(alloc, text) {
        Ok(entries) => entries.gather(),
        Err(error) => Err(error),
    }
}

/// The certificate of a text of version 1, 2 or 4, by its first line, or its first fault. One of version 4 is wide.
pub fn read_wide(alloc: Global, text: &[u8]) -> Result<Certificate, CertError>
    ensures { Says result (certificate_any text.now) }
{
    match open_wide(alloc, text) {
        Ok(entries) => entries.gather(),
        Err(error) => Err(error),
    }
}
