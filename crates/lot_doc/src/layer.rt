//! The reader of layers.
ghost use Rattle.std.specs.Prelude.{◌≡◌, IfOk, IfErr, Ok, Err};
ghost use Rattle.lot_read.specs.Members.{RowGives, SameMembers};
ghost use Rattle.lot_read.specs.SlotNames.{names_in};
ghost use Rattle.lot_doc.specs.Layer.{link_rows, matte_rows, header_rows, solid_rows, shape_rows, type_rows, kind_rows, content_rows, layer_rows, typed_layer_rows};

use crate::color::ColorText;
use crate::feature::refuse_left_out;
use crate::item::ItemOf;
use crate::layer_type::{LayerType, LayerTypeValue};
use lot_read::{Flag, ListOf, Members, Moment, NumberValue, Object, Rows, SlotNames, TransformOf};
use lot_types::{Fx, Layer, LayerKind, MAX_LIST_ITEMS, Matte, Refusal, Seq, Time, Transform};

/// Reads the members of a layer by its type. After a fault of the type nothing more of the layer is read.
#[derive(Clone, Copy)]
pub struct LayerRows<'a> {
    /// The names of the slots of the document.
    pub names: &'a SlotNames,
}

impl<'a> Rows for LayerRows<'a> {
    type Value = Layer;

    ghost rows = { λ l. typed_layer_rows (names_in l.names.now) };

    #[tactic(auto, using(lot_read::proofs::Faults::first_of_prefix), unfolding(crate::specs::Layer::typed_layer_rows))]
    fn read_rows(&self, members: &mut Members) -> Result<Layer, Refusal> {
        let ty = members.needed("ty", &LayerTypeValue)?;
        read_layer(self.names, ty, members)
    }
}

/// The number of a layer, and that of its parent.
#[derive(Clone, Copy)]
struct Links {
    ind: Option<Fx>,
    parent: Option<Fx>,
}

/// The members of a layer before its transform.
#[derive(Clone, Copy)]
struct Header {
    hidden: bool,
    ind: Option<Fx>,
    parent: Option<Fx>,
    ip: Time,
    op: Time,
}

/// The members of a layer from its transform on.
#[derive(Drop)]
struct Content {
    ks: Transform,
    kind: LayerKind,
}

/// Reads the members of a layer of this type after the type.
#[tactic(auto, using(lot_read::proofs::Faults::first_of_prefix), unfolding(crate::specs::Layer::layer_rows))]
fn read_layer(names: &SlotNames, ty: LayerType, members: &mut Members) -> Result<Layer, Refusal>
    ensures gives { RowGives result members.old members.new (layer_rows (names_in names.now) ty) }
    ensures same { SameMembers members.old members.new }
{
    let header = read_header(members)?;
    let content = read_content(names, ty, members)?;
    Ok(Layer {
        kind: content.kind,
        ip: header.ip,
        op: header.op,
        hidden: header.hidden,
        td: false,
        ind: header.ind,
        parent: header.parent,
        matte: Matte::No,
        tp: None,
        ks: content.ks,
        masks: Seq::new(members.at.allocator()),
    })
}

/// Reads what is left out, the flag `hd`, which is false where it is absent, the numbers `ind` and `parent`, and from
/// `ip` to `op` when the layer is visible. Mattes are not built yet.
#[tactic(auto, using(lot_read::proofs::Faults::first_of_prefix), unfolding(crate::specs::Layer::header_rows))]
fn read_header(members: &mut Members) -> Result<Header, Refusal>
    ensures gives { RowGives result members.old members.new header_rows }
    ensures same { SameMembers members.old members.new }
{
    refuse_left_out(members)?;
    let hidden = members.optional("hd", &Flag, false)?;
    let Links { ind, parent } = read_links(members)?;
    let ip = members.needed("ip", &Moment)?;
    let op = members.needed("op", &Moment)?;
    refuse_mattes(members)?;
    Ok(Header {
        hidden,
        ind,
        parent,
        ip,
        op,
    })
}

/// Reads the number `ind` of a layer, and that of its parent.
#[tactic(auto, using(lot_read::proofs::Faults::first_of_prefix), unfolding(crate::specs::Layer::link_rows))]
fn read_links(members: &mut Members) -> Result<Links, Refusal>
    ensures gives { RowGives result members.old members.new link_rows }
    ensures same { SameMembers members.old members.new }
{
    let ind = members.maybe("ind", &NumberValue::Any)?;
    let parent = members.maybe("parent", &NumberValue::Any)?;
    Ok(Links { ind, parent })
}

/// Refuses mattes, which are not built yet.
#[tactic(auto, using(lot_read::proofs::Faults::first_of_prefix), unfolding(crate::specs::Layer::matte_rows))]
fn refuse_mattes(members: &mut Members) -> Result<(), Refusal>
    ensures gives { RowGives result members.old members.new matte_rows }
    ensures same { SameMembers members.old members.new }
{
    members.unbuilt("td")?;
    members.unbuilt("tt")?;
    members.unbuilt("tp")?;
    Ok(())
}

/// Reads the transform of a layer, and what the layer shows.
#[tactic(auto, using(lot_read::proofs::Faults::first_of_prefix), unfolding(crate::specs::Layer::content_rows))]
fn read_content(names: &SlotNames, ty: LayerType, members: &mut Members) -> Result<Content, Refusal>
    ensures gives { RowGives result members.old members.new (content_rows (names_in names.now) ty) }
    ensures same { SameMembers members.old members.new }
{
    let transform = Object {
        rows: TransformOf { names },
    };
    let ks = members.needed("ks", &transform)?;
    let kind = read_kind(names, ty, members);
    let (ks, kind) = both(ks, kind)?;
    Ok(Content { ks, kind })
}

/// A value and what was read after it, or the refusal of that.
fn both<A: Drop, B: Drop>(first: A, second: Result<B, Refusal>) -> Result<(A, B), Refusal>
    ensures ok { IfOk result (λ pair. (pair.0 ≡ first) × (second ≡ Ok pair.1)) }
    ensures err { IfErr result (λ e. second ≡ Err e) }
{
    match second {
        Ok(b) => Ok((first, b)),
        Err(e) => Err(e),
    }
}

/// Reads what a layer of this type shows. Masks are not built yet.
#[tactic(auto, using(lot_read::proofs::Faults::first_of_prefix), unfolding(crate::specs::Layer::kind_rows))]
fn read_kind(names: &SlotNames, ty: LayerType, members: &mut Members) -> Result<LayerKind, Refusal>
    ensures gives { RowGives result members.old members.new (kind_rows (names_in names.now) ty) }
    ensures same { SameMembers members.old members.new }
{
    members.unbuilt("masksProperties")?;
    read_type(names, ty, members)
}

/// Reads the members that layers of this type alone have.
#[tactic(auto, unfolding(crate::specs::Layer::type_rows))]
fn read_type(names: &SlotNames, ty: LayerType, members: &mut Members) -> Result<LayerKind, Refusal>
    ensures gives { RowGives result members.old members.new (type_rows (names_in names.now) ty) }
    ensures same { SameMembers members.old members.new }
{
    match ty {
        LayerType::Solid => read_solid(members),
        LayerType::Null => Ok(LayerKind::Null),
        LayerType::Shape => read_shape(names, members),
    }
}

/// Reads the items of a shape layer.
#[tactic(auto, using(lot_read::proofs::Faults::first_of_prefix), unfolding(crate::specs::Layer::shape_rows))]
fn read_shape(names: &SlotNames, members: &mut Members) -> Result<LayerKind, Refusal>
    ensures gives { RowGives result members.old members.new (shape_rows (names_in names.now)) }
    ensures same { SameMembers members.old members.new }
{
    let items = ListOf {
        max: MAX_LIST_ITEMS,
        item: ItemOf { names },
    };
    let items = members.needed("shapes", &items)?;
    Ok(LayerKind::Shape(items))
}

/// Reads the size and the color of a solid layer.
#[tactic(auto, using(lot_read::proofs::Faults::first_of_prefix), unfolding(crate::specs::Layer::solid_rows))]
fn read_solid(members: &mut Members) -> Result<LayerKind, Refusal>
    ensures gives { RowGives result members.old members.new solid_rows }
    ensures same { SameMembers members.old members.new }
{
    let w = members.needed("sw", &NumberValue::NotBelowZero)?;
    let h = members.needed("sh", &NumberValue::NotBelowZero)?;
    let rgb = members.needed("sc", &ColorText)?;
    Ok(LayerKind::Solid { w, h, rgb })
}
