//! Laws of the definitions, each the contract of a function that does nothing.

ghost use Rattle.std.specs.Prelude.{◌≡◌, ◌↔◌, ℕ, suc, List, [], true, length, Some, None};
ghost use Rattle.lot_types.specs.declared.layer.Layer.{Layer};
ghost use Rattle.lot_refs.specs.Links.{Links, after, comes_back, ComesBack};
ghost use Rattle.lot_refs.specs.Parents.{parents};
ghost use Rattle.lot_refs.specs.RefFaults.{comp_faults};

/// A place is among its own ancestors exactly where some number of steps, one or more, leads back to it.
#[tactic(auto, using(crate::proofs::Chains::circles_law))]
pub fn a_circle_comes_back()
    ensures { (links : Links) (l : ℕ) → (comes_back links l ≡ true) ↔ ComesBack links l }
{}

/// Each chain of parents ends in a composition whose parents have no fault, within as many steps as there are layers.
#[tactic(auto, using(crate::proofs::Faultless::a_chain_ends))]
pub fn a_faultless_chain_ends()
    ensures { (c : ℕ) (layers : List Layer) → comp_faults c layers ≡ [] →
        (l : ℕ) → after (parents layers) (suc (length layers)) (Some l) ≡ None }
{}
