//! Colors of a document.

use crate::Fx;

/// An sRGB color without opacity: its red, green and blue in millionths, where 0 is none and 10^6 all. An evaluated
/// color may lie outside, and is limited where it becomes an [`Rgb`](crate::Rgb).
#[derive(Clone, Copy)]
pub struct Color {
    pub r: Fx,
    pub g: Fx,
    pub b: Fx,
}
