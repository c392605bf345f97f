//! Track mattes.

/// How another layer decides what is visible of this one, after the Lottie Specification 1.0, "Matte Mode".
#[derive(Clone, Copy)]
pub enum Matte {
    /// No layer does.
    No,
    /// This layer is visible where the other one is opaque.
    Alpha,
    /// This layer is visible where the other one is transparent.
    AlphaInv,
    /// This layer is visible where the other one is bright.
    Luma,
    /// This layer is visible where the other one is dark.
    LumaInv,
}
