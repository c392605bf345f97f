//! That each tree without faults has a value.
ghost use Rattle.std.specs.Prelude.{ℕ};
ghost use Rattle.lot_types.specs.declared.slot.SlotKind.TheVariants as slot_kind;
ghost use Rattle.lot_read.specs.Bezier.{bezier};
ghost use Rattle.lot_read.specs.Color.{color};
ghost use Rattle.lot_read.specs.Gradient.{gradient};
ghost use Rattle.lot_read.specs.Number.{scalar};
ghost use Rattle.lot_read.specs.Position.{position};
ghost use Rattle.lot_read.specs.Property.{property};
ghost use Rattle.lot_read.specs.SlotNames.{Names};
ghost use Rattle.lot_read.specs.Sound.{ReadsSoundly};
ghost use Rattle.lot_read.specs.Transform.{transform};
ghost use Rattle.lot_read.specs.Vector.{vector};

/// A property of any kind of values, and a transform, has a value where it has no fault, whatever slots there are. It
/// does nothing: its clauses are laws of the definitions alone.
pub fn faultless_property_has_value()
    ensures scalar { (names : Names) → ReadsSoundly (property slot_kind.Scalar names scalar) }
    ensures vector { (names : Names) → ReadsSoundly (property slot_kind.Vector names vector) }
    ensures color { (names : Names) → ReadsSoundly (property slot_kind.Color names color) }
    ensures bezier { (names : Names) → ReadsSoundly (property slot_kind.Bezier names bezier) }
    ensures gradient { (names : Names) (stops : ℕ) →
        ReadsSoundly (property (slot_kind.Gradient stops) names (gradient stops)) }
    ensures position { (names : Names) → ReadsSoundly (position names) }
    ensures transform { (names : Names) → ReadsSoundly (transform names) }
{}
