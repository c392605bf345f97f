use crate::Json;
use lot_types::{Seq, Text};

/// An array or an object whose closing bracket was not read yet.
#[derive(Drop)]
pub(crate) enum Container {
    /// An array with the items that were read.
    Array(Seq<Json>),
    /// An object with the members that were read, and the name of the member that is being read.
    Object(Seq<(Text, Json)>, Text),
}
