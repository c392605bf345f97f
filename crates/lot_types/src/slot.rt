//! Slots, from which properties take their values.

use crate::{Bezier, Color, Duplicate, Fx, Gradient, Memory, Name, Point, Text, Track};

/// Which kind of value a slot has.
#[derive(Clone, Copy)]
pub enum SlotKind {
    /// No property uses the slot.
    Unused,
    Scalar,
    Vector,
    Color,
    Bezier,
    /// A gradient of this number of stops.
    Gradient(u32),
}

/// The value of a slot.
#[derive(Drop)]
pub enum SlotValue {
    /// No property uses the slot, so its value is not read.
    Unused,
    Scalar(Track<Fx>),
    Vector(Track<Point>),
    Color(Track<Color>),
    Bezier(Track<Bezier>),
    Gradient(Track<Gradient>),
}

impl Duplicate for SlotValue {
    fn copy(&self) -> Result<SlotValue, Memory> {
        match self {
            SlotValue::Unused => Ok(SlotValue::Unused),
            SlotValue::Scalar(track) => Ok(SlotValue::Scalar(track.copy()?)),
            SlotValue::Vector(track) => Ok(SlotValue::Vector(track.copy()?)),
            SlotValue::Color(track) => Ok(SlotValue::Color(track.copy()?)),
            SlotValue::Bezier(track) => Ok(SlotValue::Bezier(track.copy()?)),
            SlotValue::Gradient(track) => Ok(SlotValue::Gradient(track.copy()?)),
        }
    }
}

/// A slot of a document, after the Lottie Specification 1.0, "Slots".
#[derive(Drop)]
pub struct Slot {
    pub name: Name,
    pub value: SlotValue,
    /// How many properties use it. A number above the last value of the type is kept as that value.
    pub uses: u32,
}

impl Duplicate for Slot {
    fn copy(&self) -> Result<Slot, Memory> {
        Ok(Slot {
            name: self.name.copy()?,
            value: self.value.copy()?,
            uses: self.uses,
        })
    }
}

/// A property that takes its value from a slot.
#[derive(Drop)]
pub struct Use {
    /// The number of the slot, from 0.
    pub slot: u32,
    /// The kind of the property.
    pub kind: SlotKind,
    /// The JSON pointer to the slot's name in the property.
    pub pointer: Text,
}

impl Duplicate for Use {
    fn copy(&self) -> Result<Use, Memory> {
        Ok(Use {
            slot: self.slot,
            kind: self.kind,
            pointer: self.pointer.copy()?,
        })
    }
}
