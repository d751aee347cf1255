//! Why there is no certificate.

use crate::missing::Missing;
use crate::rounds::SettlingError;
use std::alloc::AllocError;
use std::fmt;
use thiserror::Error;
use walk::FindError;

/// Something stays unshown in the best attempt, or guesses have no text, or the walk of a kernel's places comes to no end that can be
/// listed, or there are too many workers or none.
#[derive(Drop, Error)]
pub enum SearchError {
    #[error("60")]
    NotShown(Vec<Missing>),
    #[error("60")]
    Unsaid,
    #[error("{0}")]
    Walk(FindError),
    #[error("70")]
    Workers,
}

/// As `Display`: what is not shown is told by its number alone.
impl fmt::Debug for SearchError {
    fn fmt<W: fmt::Write>(&self, f: &mut fmt::Formatter<W>) -> fmt::Result {
        fmt::Display::fmt(self, f)
    }
}

impl From<FindError> for SearchError {
    fn from(e: FindError) -> SearchError {
        SearchError::Walk(e)
    }
}

impl From<AllocError> for SearchError {
    fn from(e: AllocError) -> SearchError {
        SearchError::Walk(FindError::from(e))
    }
}

impl From<SettlingError> for SearchError {
    fn from(e: SettlingError) -> SearchError {
        match e {
            SettlingError::Unsaid => SearchError::Unsaid,
            SettlingError::Walk(error) => SearchError::Walk(error),
            SettlingError::Workers => SearchError::Workers,
        }
    }
}

/// The reasons for which there is no table of supports: a loop with a barrier can miss it, told by the loop's number;
/// guesses have no text, or are more than 512; or the walk of a kernel's places comes to no end that can be listed.
#[derive(Debug, Drop, Error)]
pub enum TableError {
    #[error("55 {0}")]
    Missed(u32),
    #[error("50")]
    Unsaid,
    #[error("{0}")]
    Walk(FindError),
}

impl From<FindError> for TableError {
    fn from(e: FindError) -> TableError {
        TableError::Walk(e)
    }
}

impl From<AllocError> for TableError {
    fn from(e: AllocError) -> TableError {
        TableError::Walk(FindError::from(e))
    }
}

impl From<SettlingError> for TableError {
    fn from(e: SettlingError) -> TableError {
        match e {
            SettlingError::Unsaid | SettlingError::Workers => TableError::Unsaid,
            SettlingError::Walk(error) => TableError::Walk(error),
        }
    }
}
