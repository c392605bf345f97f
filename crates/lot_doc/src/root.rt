//! The reader of the members of a whole animation.
ghost use Rattle.std.specs.Prelude.{◌≡◌, [], ◌∷◌, IfOk};
ghost use Rattle.lot_read.specs.SlotNames.{names_in};
ghost use Rattle.lot_doc.specs.Root.{size_rows, resource_rows, comp_of_layers, root_rows};
ghost use Rattle.lot_read.specs.Members.{RowGives, SameMembers};

use crate::asset::AssetRows;
use crate::layer::LayerRows;
use crate::running_time::{RunningTime, read_running_time};
use lot_read::{ListOf, Members, NumberValue, Object, Rows, SlotNames};
use lot_types::{Comp, Doc, Fx, Layer, Memory, Refusal, Seq};
use std::alloc::Global;

/// The greatest number of layers of a composition.
const MAX_LAYERS: usize = 4096;

/// The greatest number of assets.
const MAX_ASSETS: usize = 1024;

const ASSETS: ListOf<Object<AssetRows>> = ListOf {
    max: MAX_ASSETS,
    item: Object { rows: AssetRows },
};

/// Reads the members of the whole animation: its size, which is not below 0, its frames a second, above 0, its time,
/// and its layers. More than 1,024 assets or 4,096 layers are [`lot_types::FaultCode::TooMany`] at their list. Slots
/// are not built yet.
#[derive(Clone, Copy)]
pub struct RootRows<'a> {
    /// The names of the slots of the document.
    pub names: &'a SlotNames,
}

impl<'a> Rows for RootRows<'a> {
    type Value = Doc;

    ghost rows = { λ r. root_rows (names_in r.names.now) };

    #[tactic(auto, using(lot_read::proofs::Faults::first_of_prefix), unfolding(crate::specs::Root::root_rows))]
    fn read_rows(&self, members: &mut Members) -> Result<Doc, Refusal> {
        let layers = ListOf {
            max: MAX_LAYERS,
            item: Object {
                rows: LayerRows { names: self.names },
            },
        };
        let alloc = members.at.allocator();
        let Size { w, h } = read_size(members)?;
        let fr = members.needed("fr", &NumberValue::AboveZero)?;
        let RunningTime { ip, op } = read_running_time(members)?;
        read_resources(members)?;
        let layers = members.needed("layers", &layers)?;
        let comps = main_comp_of(layers, alloc)?;
        Ok(Doc {
            w,
            h,
            fr,
            ip,
            op,
            slots: Seq::new(alloc),
            comps,
        })
    }
}

/// The width and the height of the animation, in pixels.
#[derive(Clone, Copy)]
struct Size {
    w: Fx,
    h: Fx,
}

/// Reads the size of the animation.
#[tactic(auto, using(lot_read::proofs::Faults::first_of_prefix), unfolding(crate::specs::Root::size_rows))]
fn read_size(members: &mut Members) -> Result<Size, Refusal>
    ensures gives { RowGives result members.old members.new size_rows }
    ensures same { SameMembers members.old members.new }
{
    let w = members.needed("w", &NumberValue::NotBelowZero)?;
    let h = members.needed("h", &NumberValue::NotBelowZero)?;
    Ok(Size { w, h })
}

/// Reads what layers may name: slots, which are not built yet, and assets, of which none is supported.
#[tactic(auto, using(lot_read::proofs::Faults::first_of_prefix), unfolding(crate::specs::Root::resource_rows))]
fn read_resources(members: &mut Members) -> Result<(), Refusal>
    ensures gives { RowGives result members.old members.new resource_rows }
    ensures same { SameMembers members.old members.new }
{
    members.unbuilt("slots")?;
    let none = Seq::new(members.at.allocator());
    members.optional("assets", &ASSETS, none)?;
    Ok(())
}

/// The main composition, with these layers, as the only one. Want of memory is the one refusal.
fn main_comp_of(layers: Seq<Layer>, alloc: Global) -> Result<Seq<Comp>, Memory>
    ensures { IfOk result (λ comps. comps ≡ comp_of_layers layers ∷ []) }
{
    let mut comps = Seq::new(alloc);
    comps.push(Comp { id: None, layers })?;
    Ok(comps)
}
