//! Section: Answers. Promises what `check` promises, with a certificate that was found; stands on `cert_check` and
//! `proof_search`.
//!
//! Kernels, proved: a certificate is looked for, and what is found is checked as any other.
#![tactic(auto)]

mod verifying;

pub use proof_search::{Effort, Progress, Unwatched, VerifyError, Watcher};
pub use verifying::{Verified, verify, verify_watched};
