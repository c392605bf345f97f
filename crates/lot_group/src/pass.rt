//! The pass over the items of a shape layer.
ghost use Rattle.std.specs.Prelude.{◌≡◌, ℕ, ℤ, ◌≤◌, List, [], ◌∷◌, ◌++◌, map, length, take, drop, reverse, Some, OnOk, IfOk};
ghost use Rattle.lot_geom.specs.Matrix.{identity as identity_in, matrix_product};
ghost use Rattle.lot_group.specs.Outlines.{outlines_of};
ghost use Rattle.lot_group.specs.Painting.{paintings_of};
ghost use Rattle.lot_group.specs.Pass.{present_painting, maps_of, placed};
ghost use Rattle.lot_group.specs.Product.{map_product};
ghost use Rattle.lot_group.specs.Trim.{trimmed_by};
ghost use Rattle.lot_types.specs.declared.matrix.Matrix.{Matrix as TheMatrix};
ghost use Rattle.lot_types.specs.Items.{AreItemsOf};

use crate::group::{Placement, placement_of};
use crate::product::{multiply_each, product_from_last};
use crate::trim::{cut_at, trimmed};
use lot_geom::identity;
use lot_outline::contours;
use lot_prop::Evaluator;
use lot_trim::TrimCut;
use lot_types::{Collected, Doc, Fx, Item, Matrix, Memory, Outline, Painted, Seq, Time};
use std::alloc::Global;

/// What is collected up to here, and where the pass is: the place of the list that is visited, and the matrices and
/// the opacities of the groups that are open, the outermost first.
#[derive(Drop)]
pub(crate) struct Pass {
    alloc: Global,
    outlines: Vec<Outline>,
    /// For each outline, the product of the matrices of those groups that held it and are closed.
    maps: Vec<Matrix>,
    styles: Vec<Painted>,
    place: Vec<u32>,
    matrices: Vec<Matrix>,
    opacities: Vec<Fx>,
}

impl Pass {
    /// Nothing is collected yet. It takes no memory.
    pub(crate) fn new(alloc: Global) -> Pass
        ensures outlines { result.outlines.items ≡ [] }
        ensures maps { result.maps.items ≡ [] }
        ensures styles { result.styles.items ≡ [] }
        ensures place { result.place.items ≡ [] }
        ensures matrices { result.matrices.items ≡ [] }
        ensures opacities { result.opacities.items ≡ [] }
    {
        Pass {
            alloc,
            outlines: Vec::new(alloc),
            maps: Vec::new(alloc),
            styles: Vec::new(alloc),
            place: Vec::new(alloc),
            matrices: Vec::new(alloc),
            opacities: Vec::new(alloc),
        }
    }

    /// What is collected.
    pub(crate) fn into_collected(self) -> Collected
        ensures leaves { result.leaves ≡ self.outlines.items }
        ensures styles { result.styles ≡ self.styles.items }
    {
        Collected {
            leaves: Seq::of_vec(self.outlines),
            styles: Seq::of_vec(self.styles),
        }
    }

    /// Collects the leaves and the styles of a list, after those that are collected. Want of memory is the one refusal;
    /// what is collected is then a part of it.
    pub(crate) fn visit(&mut self, d: &Doc, items: &[Item], t: Time) -> Result<(), Memory>
        requires { AreItemsOf d.now items.now }
        ensures outlines { OnOk result (map Some self.new.outlines.items ≡
            map Some self.old.outlines.items ++ outlines_of d.now t items.now) }
        ensures maps { OnOk result (map Some self.new.maps.items ≡
            map Some self.old.maps.items ++ maps_of d.now t items.now) }
        ensures styles { OnOk result (map present_painting self.new.styles.items ≡
            map present_painting self.old.styles.items ++ map (placed record {
              place = self.old.place.items;
              matrices = self.old.matrices.items;
              opacities = self.old.opacities.items;
            } (length self.old.outlines.items)) (paintings_of d.now t items.now)) }
        ensures place { OnOk result (self.new.place.items ≡ self.old.place.items) }
        ensures matrices { OnOk result (self.new.matrices.items ≡ self.old.matrices.items) }
        ensures opacities { OnOk result (self.new.opacities.items ≡ self.old.opacities.items) }
    {
        let from = self.outlines.len();
        let first = self.maps.len();
        for (k, item) in items.iter().enumerate() {
            if item.is_hidden() {
                continue;
            }
            match item {
                Item::Rect { .. } | Item::Ellipse { .. } | Item::Star { .. } | Item::Path { .. } =>
                    {
                        let outline = contours(self.alloc, &Evaluator, d, item, t)?;
                        self.add_leaf(outline)?;
                    }
                Item::Group { it, .. } => {
                    let first = self.maps.len();
                    let placement = placement_of(d, it.items(), t);
                    self.open_group(k as u32, &placement)?;
                    self.visit(d, it.items(), t)?;
                    self.close_group(first, &placement.matrix);
                }
                Item::Fill { .. }
                | Item::Stroke { .. }
                | Item::GradientFill { .. }
                | Item::GradientStroke { .. } => {
                    self.add_style(from, first, k as u32)?;
                }
                Item::Trim { s, e, o, m, .. } => {
                    let cut = cut_at(d, s, e, o, t);
                    self.trim(from, *m, cut)?;
                }
                Item::Place { .. } => {}
            }
        }
        Ok(())
    }

    /// Adds a leaf of the list that is visited. Want of memory is the one refusal.
    fn add_leaf(&mut self, outline: Outline) -> Result<(), Memory>
        ensures outlines { OnOk result (self.new.outlines.items ≡
            self.old.outlines.items ++ outline ∷ []) }
        ensures maps { OnOk result (self.new.maps.items ≡ self.old.maps.items ++ identity_in ∷ []) }
        ensures styles { self.new.styles.items ≡ self.old.styles.items }
        ensures place { self.new.place.items ≡ self.old.place.items }
        ensures matrices { self.new.matrices.items ≡ self.old.matrices.items }
        ensures opacities { self.new.opacities.items ≡ self.old.opacities.items }
    {
        self.outlines.push(outline)?;
        self.maps.push(identity())?;
        Ok(())
    }

    /// Opens the group at `k` of the list that is visited. Want of memory is the one refusal.
    fn open_group(&mut self, k: u32, placement: &Placement) -> Result<(), Memory>
        ensures outlines { self.new.outlines.items ≡ self.old.outlines.items }
        ensures maps { self.new.maps.items ≡ self.old.maps.items }
        ensures styles { self.new.styles.items ≡ self.old.styles.items }
        ensures place { OnOk result (self.new.place.items ≡ self.old.place.items ++ k ∷ []) }
        ensures matrices { OnOk result (self.new.matrices.items ≡
            self.old.matrices.items ++ placement.now.matrix ∷ []) }
        ensures opacities { OnOk result (self.new.opacities.items ≡
            self.old.opacities.items ++ placement.now.opacity ∷ []) }
    {
        self.place.push(k)?;
        self.matrices.push(placement.matrix)?;
        self.opacities.push(placement.opacity)?;
        Ok(())
    }

    /// Closes the innermost group: `m` becomes the last factor of the maps of its leaves, which begin at `first`.
    fn close_group(&mut self, first: usize, m: &Matrix)
        requires { first ≤ length self.old.maps.items }
        ensures outlines { self.new.outlines.items ≡ self.old.outlines.items }
        ensures maps { self.new.maps.items ≡ take first self.old.maps.items
            ++ map (λ a. matrix_product a m.now) (drop first self.old.maps.items) }
        ensures styles { self.new.styles.items ≡ self.old.styles.items }
        ensures place { (p : List ℕ) (k : ℕ) →
            self.old.place.items ≡ p ++ k ∷ [] → self.new.place.items ≡ p }
        ensures matrices { (ms : List TheMatrix) (n : TheMatrix) →
            self.old.matrices.items ≡ ms ++ n ∷ [] → self.new.matrices.items ≡ ms }
        ensures opacities { (os : List ℤ) (o : ℤ) →
            self.old.opacities.items ≡ os ++ o ∷ [] → self.new.opacities.items ≡ os }
    {
        multiply_each(&mut self.maps[first..], m);
        self.place.pop();
        self.matrices.pop();
        self.opacities.pop();
    }

    /// Adds the style at `k` of the list that is visited. It paints the leaves of that list up to here: the outlines
    /// from `from` on, with the maps from `first` on. Want of memory is the one refusal.
    fn add_style(&mut self, from: usize, first: usize, k: u32) -> Result<(), Memory>
        requires { first ≤ length self.old.maps.items }
        ensures outlines { self.new.outlines.items ≡ self.old.outlines.items }
        ensures maps { self.new.maps.items ≡ self.old.maps.items }
        ensures styles { OnOk result (map present_painting self.new.styles.items ≡
            map present_painting self.old.styles.items ++ record {
              place = self.old.place.items ++ k ∷ [];
              from = from;
              to = length self.old.outlines.items;
              matrix = map_product (map Some (reverse self.old.matrices.items));
              groups = map Some (reverse self.old.opacities.items);
              maps = map Some (drop first self.old.maps.items);
            } ∷ []) }
        ensures place { self.new.place.items ≡ self.old.place.items }
        ensures matrices { self.new.matrices.items ≡ self.old.matrices.items }
        ensures opacities { self.new.opacities.items ≡ self.old.opacities.items }
    {
        let place = self.place_of(k)?;
        let groups = self.groups()?;
        let maps = Vec::from_slice(self.alloc, &self.maps[first..])?;
        self.styles.push(Painted {
            place,
            from,
            to: self.outlines.len(),
            matrix: product_from_last(&self.matrices),
            groups,
            maps: Seq::of_vec(maps),
        })?;
        Ok(())
    }

    /// Trims the outlines from `from` on, those of the list that is visited. Want of memory is the one refusal.
    fn trim(&mut self, from: usize, mode: u8, cut: TrimCut) -> Result<(), Memory>
        requires { from ≤ length self.old.outlines.items }
        ensures outlines { OnOk result (self.new.outlines.items ≡ take from self.old.outlines.items
            ++ trimmed_by mode cut (drop from self.old.outlines.items)) }
        ensures maps { self.new.maps.items ≡ self.old.maps.items }
        ensures styles { self.new.styles.items ≡ self.old.styles.items }
        ensures place { self.new.place.items ≡ self.old.place.items }
        ensures matrices { self.new.matrices.items ≡ self.old.matrices.items }
        ensures opacities { self.new.opacities.items ≡ self.old.opacities.items }
    {
        let untrimmed = Seq::of_vec(self.outlines.split_off(from)?);
        let made = trimmed(self.alloc, &untrimmed, mode, cut)?;
        self.outlines.append(&mut made.into_vec())?;
        Ok(())
    }

    /// The place of the item at `k` of the list that is visited.
    fn place_of(&self, k: u32) -> Result<Seq<u32>, Memory>
        ensures { IfOk result (λ place. place ≡ self.now.place.items ++ k ∷ []) }
    {
        let mut place = Vec::from_slice(self.alloc, &self.place)?;
        place.push(k)?;
        Ok(Seq::of_vec(place))
    }

    /// The opacities of the open groups, from the innermost outwards.
    fn groups(&self) -> Result<Seq<Fx>, Memory>
        ensures { IfOk result (λ groups. groups ≡ reverse self.now.opacities.items) }
    {
        let groups = self.opacities.iter().rev().copied().collect(self.alloc)?;
        Ok(Seq::of_vec(groups))
    }
}
