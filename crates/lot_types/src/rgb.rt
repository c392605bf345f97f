//! Colors of a frame.

/// An sRGB color of eight bits a component, without opacity.
#[derive(Clone, Copy)]
pub struct Rgb {
    pub r: u8,
    pub g: u8,
    pub b: u8,
}
