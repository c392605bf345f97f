//! The reader of assets.
ghost use Rattle.lot_doc.specs.Feature.{asset_rows};

use lot_read::{Members, Rows, refusal_at};
use lot_types::{FaultCode, Refusal};

/// The members of an asset. None is supported yet: the fault is [`FaultCode::Unsupported`] at the asset.
#[derive(Clone, Copy)]
pub struct AssetRows;

impl Rows for AssetRows {
    type Value = ();

    ghost rows = { λ _. asset_rows };

    #[tactic(auto, unfolding(crate::specs::Feature::asset_rows, lot_read::specs::Members::fixed_in))]
    fn read_rows(&self, members: &mut Members) -> Result<(), Refusal> {
        Err(refusal_at(FaultCode::Unsupported, members.at))
    }
}
