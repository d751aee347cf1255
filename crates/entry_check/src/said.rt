//! What a certificate says of a kernel beside its entries.

use certificate_notes::Names;
use obligations::Notes;

/// Notes of places and loops, and all that lemmas may name.
#[derive(Drop)]
pub struct Said<'a> {
    pub notes: &'a Notes,
    pub names: Names<'a>,
}
