//! Stretches of time.

use crate::Time;

/// The times from `from`, which is one of them, to `to`, which is none of them. Without `from` there is no first one,
/// and without `to` no last one.
#[derive(Clone, Copy)]
pub struct Span {
    pub from: Option<Time>,
    pub to: Option<Time>,
}
