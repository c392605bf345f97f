//! Faults of documents.

ghost use Rattle.std.specs.Prelude.{◌≡◌};
ghost use Rattle.lot_types.specs.FaultName.{fault_name};

use crate::Text;

/// What is wrong at a place of a document, of a value that is set in a slot, or of a property that is read by itself.
#[derive(Clone, Copy, Debug, PartialEq, Eq)]
pub enum FaultCode {
    /// A member that must be there is absent, as `ks` of a layer. The place is where it would be.
    Missing,
    /// The value is of another JSON kind, as a text in place of a number.
    Kind,
    /// A number is out of its range, as a width of 0.
    Range,
    /// A text or a whole number is none of those that are allowed, as the line cap 4.
    Value,
    /// A list has a wrong number of items, as a vector of one number.
    Count,
    /// The time of a keyframe falls, or the end of the animation is not above its start.
    Order,
    /// A feature of the Lottie Specification that this player leaves out, as an expression.
    Unsupported,
    /// A parent or a matte names no layer of the composition.
    NoLayer,
    /// Parents, mattes or compositions form a cycle.
    Cycle,
    /// A layer shows an asset that is not there.
    NoAsset,
    /// An earlier asset has the same name.
    Twice,
    /// Two properties of different kinds use one slot.
    SlotKind,
    /// A property names a slot that is not there, and has no value of its own.
    NoValue,
    /// The document is above a limit of this player, as 65,536 layers.
    TooMany,
}

impl FaultCode {
    /// The name that the program prints.
    pub fn name(self) -> &'static str
        ensures { result.now ≡ fault_name self }
    {
        match self {
            FaultCode::Missing => "Missing",
            FaultCode::Kind => "Kind",
            FaultCode::Range => "Range",
            FaultCode::Value => "Value",
            FaultCode::Count => "Count",
            FaultCode::Order => "Order",
            FaultCode::Unsupported => "Unsupported",
            FaultCode::NoLayer => "NoLayer",
            FaultCode::Cycle => "Cycle",
            FaultCode::NoAsset => "NoAsset",
            FaultCode::Twice => "Twice",
            FaultCode::SlotKind => "SlotKind",
            FaultCode::NoValue => "NoValue",
            FaultCode::TooMany => "TooMany",
        }
    }
}

/// A fault of a document: what is wrong, and where, as a JSON pointer.
#[derive(Debug, Drop)]
pub struct Fault {
    pub code: FaultCode,
    pub pointer: Text,
}
