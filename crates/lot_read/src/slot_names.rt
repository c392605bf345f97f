//! The names of the slots of a document.
ghost use Rattle.std.specs.Prelude.{◌≡◌, ◌≤◌, ℕ, List, [], not, length, IfOk, option_copied};
ghost use Rattle.std.specs.List.{All};
ghost use Rattle.indexmap.specs.IndexMap.{index_map_len};
ghost use Rattle.lot_json.specs.Lookup.{is_null};
ghost use Rattle.lot_json.specs.declared.tree.json.JsonMembers.{out-JsonMembers};
ghost use Rattle.lot_read.specs.SlotNames.{max_slots, names_of, names_in, IsSlotOf, slot_value, value_at as value_in, is_there as there_in, among, place_of};
ghost use Rattle.lot_read.specs.NameTable.{seen, marked_names};

use indexmap::IndexMap;
use lot_json::{Json, JsonMembers};
use lot_types::{Memory, Text};
use std::alloc::Global;
use std::marker::Model;

/// The last pair of a name.
#[derive(Clone, Copy)]
struct LastPair {
    /// Its index among the pairs.
    index: usize,
    /// Its value is there: it is not `null`.
    is_there: bool,
}

/// The names of the slots of a document. The number of a slot is the place of its name: names are in the order in
/// which they first come, and one whose last value is `null` has no place. A look-up, by a name or by a number, takes
/// constant time and no memory.
#[derive(Drop)]
pub struct SlotNames {
    names: IndexMap<Vec<u8>, LastPair>,
}

impl Model for SlotNames {
    ghost use Rattle.std.specs.Prelude.{◌≤◌, List};
    ghost use Rattle.indexmap.specs.IndexMap.{index_map_len};
    ghost use Rattle.lot_read.specs.SlotNames.{NamedPair, max_slots};
    ghost use Rattle.lot_read.specs.NameTable.{slots_in};

    ghost Value = { List NamedPair };

    ghost view = { λ s. slots_in s.names.entries };

    ghost invariant = { λ s. index_map_len s.names ≤ max_slots };
}

impl SlotNames {
    /// The names of no slots. It takes no memory.
    pub fn none(alloc: Global) -> SlotNames
        ensures { result ≡ [] }
    {
        SlotNames {
            names: IndexMap::new(alloc),
        }
    }

    /// The names of the members of an object that are there. It has at most 65,536 pairs, repeated names and `null`
    /// counted.
    #[tactic(auto, unfolding(crate::specs::SlotNames::names_of))]
    pub fn of(alloc: Global, slots: &JsonMembers) -> Result<SlotNames, Memory>
        requires { length (out-JsonMembers slots.now).pairs ≤ max_slots }
        ensures names { IfOk result (λ s. names_in s ≡ names_of (out-JsonMembers slots.now).pairs) }
        ensures slots { IfOk result (λ s. All (IsSlotOf (out-JsonMembers slots.now).pairs) s) }
        ensures there { IfOk result (λ s. (name : List ℕ) →
            among name (names_in s) ≡ there_in (out-JsonMembers slots.now).pairs name) }
    {
        let mut names = walk(alloc, slots.pairs())?;
        names.retain(
            |_name: &Vec<u8>, last: &mut LastPair| -> bool
                ensures { (result ≡ last.old.is_there) × (last.new ≡ last.old) }
            { last.is_there },
        );
        Ok(SlotNames { names })
    }

    /// The number of the slot of this name.
    pub fn find(&self, name: &[u8]) -> Option<u32>
        ensures { result ≡ place_of name.now (names_in self.now) }
    {
        let place = self.names.get_index_of(name)?;
        Some(place as u32)
    }

    /// How many slots there are.
    pub fn len(&self) -> usize
        ensures { result ≡ length self.now }
    {
        self.names.len()
    }

    /// Returns a reference to the value of the slot of this number, by the index of its pair: no name is looked up.
    /// `slots` are the members whose names these are. `None` exactly where there are not as many slots.
    pub fn value_of<'m>(&self, slot: u32, slots: &'m JsonMembers) -> Option<&'m Json>
        requires slots { All (IsSlotOf (out-JsonMembers slots.now).pairs) self.now }
        ensures { option_copied result
            ≡ slot_value (out-JsonMembers slots.now).pairs self.now slot }
    {
        let (_, last) = self.names.get_index(slot as usize)?;
        value_at(slots.pairs(), last.index)
    }
}

/// Returns a reference to the value of the pair of this index.
fn value_at(pairs: &[(Text, Json)], index: usize) -> Option<&Json>
    ensures { option_copied result ≡ value_in pairs.now index }
{
    match pairs.get(index) {
        Some(pair) => Some(&pair.1),
        None => None,
    }
}

/// The names of the pairs, each with its last pair.
fn walk(alloc: Global, pairs: &[(Text, Json)]) -> Result<IndexMap<Vec<u8>, LastPair>, Memory>
    ensures names { IfOk result (λ m. seen m.entries ≡ marked_names pairs.now) }
    ensures len { IfOk result (λ m. index_map_len m ≤ length pairs.now) }
{
    let mut names = IndexMap::new(alloc);
    for (index, p) in pairs.iter().enumerate() {
        let name = Vec::from_slice(alloc, p.0.as_str().as_bytes())?;
        let last = LastPair {
            index,
            is_there: is_there(&p.1),
        };
        names.insert(name, last)?;
    }
    Ok(names)
}

/// Whether a value is there: `null` is absent.
fn is_there(v: &Json) -> bool
    ensures { result ≡ not (is_null v.now) }
{
    match v {
        Json::Null => false,
        _ => true,
    }
}
