//! How long the lists of a document are at most.

/// The greatest number of items of a list that has no smaller limit of its own: keyframes, vertices, the numbers of a
/// gradient, items of a shape layer and dashes. It is this project's own.
pub const MAX_LIST_ITEMS: usize = 65_536;
