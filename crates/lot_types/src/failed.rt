//! Faults of the outside.

use thiserror::Error;

/// A folder, a sink or an outlet did not do what it was asked to.
#[derive(Clone, Copy, Debug, PartialEq, Eq, Error)]
#[error("failed")]
pub struct Failed;
