//! The reader of the items of shape layers.
ghost use Rattle.std.specs.Prelude.{◌≡◌, ◌≢◌, ℕ, suc, ◌<◌, ◌≤◌, [], ◌∷◌, codes};
ghost use Rattle.std.specs.List.{All};
ghost use Rattle.lot_json.specs.declared.tree.json.Json.{size-Json};
ghost use Rattle.lot_json.specs.declared.tree.json.JsonMembers.{out-JsonMembers, size-JsonMembers};
ghost use Rattle.lot_types.specs.declared.fault.FaultCode.TheVariants as code;
ghost use Rattle.lot_types.specs.Refusals.{Fails};
ghost use Rattle.lot_read.specs.Findings.{Reader as ItemReader, fault, under, item as place_of_item};
ghost use Rattle.lot_read.specs.Lists.{each, list};
ghost use Rattle.lot_types.specs.Limits.{max_list_items};
ghost use Rattle.lot_read.specs.Members.{RowGives, SameMembers};
ghost use Rattle.lot_read.specs.Outcome.{Gives};
ghost use Rattle.lot_read.specs.Rows.{needed, object};
ghost use Rattle.lot_read.specs.SlotNames.{names_in};
ghost use Rattle.lot_doc.specs.declared.item_type.ItemType.TheVariants as type;
ghost use Rattle.lot_doc.specs.ItemHead.{item_type, head_rows};
ghost use Rattle.lot_doc.specs.Item.{transform_item_rows, group_rows, typed_rows, item_rows, item_within, shape_item};

use crate::ellipse::read_ellipse;
use crate::fill::read_fill;
use crate::gradient::{read_gradient_fill, read_gradient_stroke};
use crate::item_head::read_head;
use crate::item_type::{ItemType, ItemTypeValue};
use crate::path::read_path;
use crate::polystar::read_polystar;
use crate::rectangle::read_rectangle;
use crate::stroke::read_stroke;
use crate::trim::read_trim;
use lot_json::{Json, JsonMembers, Pointer};
use lot_read::{Members, Reader, Rows, SlotNames, TransformOf, refusal_at};
use lot_types::{FaultCode, Item, MAX_LIST_ITEMS, Refusal, Seq, Use};

/// Reads an item of a shape layer by its type. After a fault of the type nothing more of the item is read. The items of
/// a group are read by recursion, as deep as a tree of JSON has levels.
#[derive(Clone, Copy)]
pub(crate) struct ItemOf<'a> {
    /// The names of the slots of the document.
    pub names: &'a SlotNames,
}

impl<'a> Reader for ItemOf<'a> {
    type Value = Item;

    ghost gives = { λ i. shape_item (names_in i.names.now) };

    #[tactic(auto, unfolding(crate::specs::Item::shape_item))]
    fn read(&self, at: &mut Pointer, v: &Json, uses: &mut Seq<Use>) -> Result<Item, Refusal> {
        read_item(v, self.names, at, uses)
    }
}

/// Reads an item.
#[cycle(item)]
fn read_item(
    v: &Json,
    names: &SlotNames,
    at: &mut Pointer,
    uses: &mut Seq<Use>,
) -> Result<Item, Refusal>
    ensures gives { (n : ℕ) → size-Json v.now < n →
        Gives result uses.old uses.new (item_within (names_in names.now) n at.old v.now) }
    ensures at { at.new ≡ at.old }
{
    read_level(v, names, at, uses)
}

/// Reads an item whose inner items have one level less.
#[cycle(item)]
#[tactic(auto, using(lot_read::proofs::Faults::first_of_prefix), unfolding(lot_read::specs::Rows::object))]
fn read_level(
    v: &Json,
    names: &SlotNames,
    at: &mut Pointer,
    uses: &mut Seq<Use>,
) -> Result<Item, Refusal>
    ensures gives { (n : ℕ) → size-Json v.now < suc n → Gives result uses.old uses.new
        (object (item_rows (names_in names.now) (item_within (names_in names.now) n)) at.old v.now) }
    ensures at { at.new ≡ at.old }
{
    match v {
        Json::Members(m) => read_members(m, names, at, uses),
        _ => Err(refusal_at(FaultCode::Kind, at)),
    }
}

/// Reads the members of an item.
#[cycle(item)]
#[tactic(auto, using(lot_read::proofs::Faults::first_of_prefix), unfolding(crate::specs::Item::item_rows, lot_read::specs::Members::fixed_in))]
fn read_members(
    m: &JsonMembers,
    names: &SlotNames,
    at: &mut Pointer,
    uses: &mut Seq<Use>,
) -> Result<Item, Refusal>
    ensures gives { (n : ℕ) → size-JsonMembers m.now ≤ n → Gives result uses.old uses.new
        (item_rows (names_in names.now) (item_within (names_in names.now) n) at.old
        (out-JsonMembers m.now).pairs) }
    ensures at { at.new ≡ at.old }
{
    let ty = read_type(m, at, uses)?;
    read_typed(m, ty, names, at, uses)
}

/// Reads the type of an item.
#[tactic(auto, unfolding(lot_read::specs::Members::fixed_in))]
fn read_type(m: &JsonMembers, at: &mut Pointer, uses: &mut Seq<Use>) -> Result<ItemType, Refusal>
    ensures gives { Gives result uses.old uses.new
        (needed (codes "ty") item_type at.old (out-JsonMembers m.now).pairs) }
    ensures at { at.new ≡ at.old }
{
    let mut members = Members {
        at,
        members: m,
        uses,
    };
    members.needed("ty", &ItemTypeValue)
}

/// Reads the members of an item of this type.
#[cycle(item)]
#[tactic(auto, unfolding(crate::specs::Item::typed_rows))]
fn read_typed(
    m: &JsonMembers,
    ty: ItemType,
    names: &SlotNames,
    at: &mut Pointer,
    uses: &mut Seq<Use>,
) -> Result<Item, Refusal>
    ensures gives { (n : ℕ) → size-JsonMembers m.now ≤ n → Gives result uses.old uses.new
        (typed_rows (names_in names.now) (item_within (names_in names.now) n) ty at.old
        (out-JsonMembers m.now).pairs) }
    ensures at { at.new ≡ at.old }
{
    match ty {
        ItemType::Group => read_group(m, names, at, uses),
        _ => read_single(m, ty, names, at, uses),
    }
}

/// Reads the members of an item of this type, which is no group.
#[tactic(auto, unfolding(lot_read::specs::Members::fixed_in))]
fn read_single(
    m: &JsonMembers,
    ty: ItemType,
    names: &SlotNames,
    at: &mut Pointer,
    uses: &mut Seq<Use>,
) -> Result<Item, Refusal>
    requires { ty ≢ type.Group }
    ensures gives { (inner : ItemReader Item) → Gives result uses.old uses.new
        (typed_rows (names_in names.now) inner ty at.old (out-JsonMembers m.now).pairs) }
    ensures at { at.new ≡ at.old }
{
    let mut members = Members {
        at,
        members: m,
        uses,
    };
    read_rows(ty, names, &mut members)
}

/// Reads the rows of this type, which is no group.
#[tactic(auto, unfolding(crate::specs::Item::typed_rows))]
fn read_rows(ty: ItemType, names: &SlotNames, members: &mut Members) -> Result<Item, Refusal>
    requires { ty ≢ type.Group }
    ensures gives { (inner : ItemReader Item) → RowGives result members.old members.new
        (typed_rows (names_in names.now) inner ty) }
    ensures same { SameMembers members.old members.new }
{
    match ty {
        ItemType::Rectangle => read_rectangle(names, members),
        ItemType::Ellipse => read_ellipse(names, members),
        ItemType::Polystar => read_polystar(names, members),
        ItemType::Path => read_path(names, members),
        ItemType::Fill => read_fill(names, members),
        ItemType::Stroke => read_stroke(names, members),
        ItemType::GradientFill => read_gradient_fill(names, members),
        ItemType::GradientStroke => read_gradient_stroke(names, members),
        ItemType::Trim => read_trim(names, members),
        ItemType::Transform => read_transform_item(names, members),
        ItemType::Group => unreachable!(),
    }
}

/// Reads a transform, whose members stand in the item itself.
#[tactic(auto, using(lot_read::proofs::Faults::first_of_prefix), unfolding(crate::specs::Item::transform_item_rows))]
fn read_transform_item(names: &SlotNames, members: &mut Members) -> Result<Item, Refusal>
    ensures gives { RowGives result members.old members.new
        (transform_item_rows (names_in names.now)) }
    ensures same { SameMembers members.old members.new }
{
    let hidden = read_head(members)?;
    let ks = TransformOf { names }.read_rows(members)?;
    Ok(Item::Place { hidden, ks })
}

/// Reads a group: its items `it`.
#[cycle(item)]
#[tactic(auto, using(lot_read::proofs::Faults::first_of_prefix), unfolding(crate::specs::Item::group_rows))]
fn read_group(
    m: &JsonMembers,
    names: &SlotNames,
    at: &mut Pointer,
    uses: &mut Seq<Use>,
) -> Result<Item, Refusal>
    ensures gives { (n : ℕ) → size-JsonMembers m.now ≤ n → Gives result uses.old uses.new
        (group_rows (item_within (names_in names.now) n) at.old (out-JsonMembers m.now).pairs) }
    ensures at { at.new ≡ at.old }
{
    let hidden = read_group_head(m, at, uses)?;
    let it = read_list_of_group(m, names, at, uses)?;
    Ok(Item::Group { hidden, it })
}

/// Reads what a group has as all items have.
#[tactic(auto, unfolding(lot_read::specs::Members::fixed_in))]
fn read_group_head(m: &JsonMembers, at: &mut Pointer, uses: &mut Seq<Use>) -> Result<bool, Refusal>
    ensures gives { Gives result uses.old uses.new
        (head_rows at.old (out-JsonMembers m.now).pairs) }
    ensures at { at.new ≡ at.old }
{
    let mut members = Members {
        at,
        members: m,
        uses,
    };
    read_head(&mut members)
}

/// Reads the list of a group, which has to be there.
#[cycle(item)]
#[tactic(auto, unfolding(lot_read::specs::Rows::needed))]
fn read_list_of_group(
    m: &JsonMembers,
    names: &SlotNames,
    at: &mut Pointer,
    uses: &mut Seq<Use>,
) -> Result<Seq<Item>, Refusal>
    ensures gives { (n : ℕ) → size-JsonMembers m.now ≤ n → Gives result uses.old uses.new
        (needed (codes "it") (list max_list_items (item_within (names_in names.now) n)) at.old
        (out-JsonMembers m.now).pairs) }
    ensures at { at.new ≡ at.old }
{
    match m.get("it") {
        Some(v) => {
            at.push_name("it".as_bytes())?;
            let read = read_list(v, names, at, uses);
            at.pop();
            read
        }
        None => Err(refusal_without_list(m, at, uses)),
    }
}

/// The refusal of a group without a list.
#[tactic(auto, unfolding(lot_read::specs::Members::fixed_in))]
fn refusal_without_list(m: &JsonMembers, at: &mut Pointer, uses: &mut Seq<Use>) -> Refusal
    ensures fails { Fails result (fault code.Missing (under at.old (codes "it")) ∷ []) }
    ensures at { at.new ≡ at.old }
{
    let mut members = Members {
        at,
        members: m,
        uses,
    };
    members.refusal_at(FaultCode::Missing, "it")
}

/// Reads a whole list of items, as [`lot_read::ListOf`] does.
#[cycle(item)]
#[tactic(auto, using(lot_read::proofs::Faults::first_of_prefix), unfolding(lot_read::specs::Lists::list))]
fn read_list(
    v: &Json,
    names: &SlotNames,
    at: &mut Pointer,
    uses: &mut Seq<Use>,
) -> Result<Seq<Item>, Refusal>
    ensures gives { (n : ℕ) → size-Json v.now < n → Gives result uses.old uses.new
        (list max_list_items (item_within (names_in names.now) n) at.old v.now) }
    ensures at { at.new ≡ at.old }
{
    match v {
        Json::Items(items) => {
            if MAX_LIST_ITEMS < items.items().len() {
                return Err(refusal_at(FaultCode::TooMany, at));
            }
            read_each(items.items(), names, at, uses)
        }
        _ => Err(refusal_at(FaultCode::Kind, at)),
    }
}

/// Reads the items in order.
#[cycle(item)]
#[tactic(auto, using(lot_read::proofs::Faults::first_of_prefix), unfolding(lot_read::specs::Lists::each))]
fn read_each(
    items: &[Json],
    names: &SlotNames,
    at: &mut Pointer,
    uses: &mut Seq<Use>,
) -> Result<Seq<Item>, Refusal>
    ensures gives { (n : ℕ) → All (λ j. size-Json j < n) items.now → Gives result uses.old uses.new
        (each (item_within (names_in names.now) n) at.old 0 items.now) }
    ensures at { at.new ≡ at.old }
{
    let mut made = Seq::new(at.allocator());
    for (i, v) in items.iter().enumerate() {
        let x = read_item_at(v, i as u64, names, at, uses)?;
        made.push(x)?;
    }
    Ok(made)
}

/// Reads the item of this index.
#[cycle(item)]
fn read_item_at(
    v: &Json,
    i: u64,
    names: &SlotNames,
    at: &mut Pointer,
    uses: &mut Seq<Use>,
) -> Result<Item, Refusal>
    ensures gives { (n : ℕ) → size-Json v.now < n → Gives result uses.old uses.new
        (item_within (names_in names.now) n (place_of_item at.old i) v.now) }
    ensures at { at.new ≡ at.old }
{
    at.push_index(i)?;
    let read = read_item(v, names, at, uses);
    at.pop();
    read
}
