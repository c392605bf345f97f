use lot_json::Number;

/// What is asked for on the documents that the arguments name.
#[derive(Clone, Copy)]
pub enum Task {
    /// Whether the one document is accepted.
    Check,
    /// The frame of the one document at this time, in frames.
    Frame(Number),
}
