//! Readers of the values, properties and transforms of a Lottie document. Each answers the value, or the first fault in
//! the order of the table of members, which is not the order of the text.
//!
//! A table of members is read row by row: [`Members::needed`], [`Members::optional`], [`Members::maybe`] and
//! [`Members::unbuilt`] read one member each, by the [`Reader`] of its kind of value.
#![tactic(auto, using(crate::proofs::Faults::first_of_prefix))]

mod bezier;
mod color;
mod faultless;
mod flag;
mod gradient;
mod handle;
mod keyframe;
mod list;
mod members;
mod moment;
mod number;
mod object;
mod position;
mod property;
mod property_rows;
mod reader;
mod scalar;
mod single_property;
mod slot_name;
mod slot_names;
mod text;
mod track;
mod transform;
mod value_kind;
mod value_or_first;
mod vector;
mod whole;

pub use bezier::BezierValue;
pub use color::ColorValue;
pub use faultless::faultless_property_has_value;
pub use flag::{Flag, Unset};
pub use gradient::GradientValue;
pub use list::ListOf;
pub use members::{Members, Rows};
pub use moment::Moment;
pub use number::NumberValue;
pub use object::Object;
pub use position::PositionOf;
pub use property::{Property, TrackOf};
pub use property_rows::{needed_property, scalar_or};
pub use reader::{Reader, refusal_at};
pub use scalar::ScalarValue;
pub use single_property::{read_bezier, read_color, read_gradient, read_scalar, read_vector};
pub use slot_name::SlotName;
pub use slot_names::SlotNames;
pub use text::TextValue;
pub use track::Absence;
pub use transform::{TransformOf, hundred_per_cent, read_transform};
pub use value_kind::ValueKind;
pub use value_or_first::ValueOrFirst;
pub use vector::VectorValue;
pub use whole::{Choice, Whole};
