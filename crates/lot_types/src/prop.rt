//! Properties of a document.

use crate::{Duplicate, Fx, Keys, Memory, Point};

/// The value of a property over time.
#[derive(Drop)]
pub enum Track<T> {
    /// One value at all times.
    Still(T),
    /// Values at the times of keyframes.
    Moving(Keys<T>),
}

/// A property of a document, after the Lottie Specification 1.0, "Properties".
#[derive(Drop)]
pub enum Prop<T> {
    /// A value of its own.
    Own(Track<T>),
    /// The value of the slot of this number, from 0.
    Slot(u32),
}

/// A position, in millionths of a pixel, after the Lottie Specification 1.0, "Split Position".
#[derive(Drop)]
pub enum Position {
    /// One property for both coordinates.
    Whole(Prop<Point>),
    /// A property for `x` and one for `y`.
    Split(Prop<Fx>, Prop<Fx>),
}

impl<T: Duplicate> Duplicate for Track<T> {
    fn copy(&self) -> Result<Track<T>, Memory> {
        match self {
            Track::Still(value) => Ok(Track::Still(value.copy()?)),
            Track::Moving(keys) => Ok(Track::Moving(keys.copy()?)),
        }
    }
}

impl<T: Duplicate> Duplicate for Prop<T> {
    fn copy(&self) -> Result<Prop<T>, Memory> {
        match self {
            Prop::Own(track) => Ok(Prop::Own(track.copy()?)),
            Prop::Slot(slot) => Ok(Prop::Slot(*slot)),
        }
    }
}

impl Duplicate for Position {
    fn copy(&self) -> Result<Position, Memory> {
        match self {
            Position::Whole(p) => Ok(Position::Whole(p.copy()?)),
            Position::Split(x, y) => Ok(Position::Split(x.copy()?, y.copy()?)),
        }
    }
}
