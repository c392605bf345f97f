//! What holds of the text of each frame, and how the calls of a writer make it. The functions do nothing: their clauses
//! are laws of the definitions alone.
ghost use Rattle.std.specs.Prelude.{◌≡◌, ℤ};
ghost use Rattle.lot_types.specs.declared.piece.Piece.{Piece};
ghost use Rattle.lot_types.specs.Frame.{Frame};
ghost use Rattle.lot_svg.specs.Layer.{items};
ghost use Rattle.lot_svg.specs.Identifiers.{IsOrdered};
ghost use Rattle.lot_svg.specs.Svg.{svg_text};
ghost use Rattle.lot_svg.specs.Written.{unwritten, begin, write, finish};

/// The identifiers of each finished frame are 1, 2, 3 and so on in the order in which their definitions open. Each
/// definition ends after it opened, and each reference comes after the end of its definition.
pub fn identifiers_open_in_order()
    ensures { (f : Frame Piece) → IsOrdered 1 (items (λ p. p) f 1) }
{}

/// The calls for a finished frame, between the begin and the end, give the text of the frame.
pub fn calls_give_the_text()
    ensures { (w h : ℤ) (f : Frame Piece)
        → finish (write (λ p. p) f (begin w h unwritten)) ≡ svg_text w h (λ p. p) f }
{}
