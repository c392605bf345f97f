//! Products of matrices.
ghost use Rattle.std.specs.Prelude.{◌≡◌, map, reverse, Some};
ghost use Rattle.lot_geom.specs.Matrix.{matrix_product};
ghost use Rattle.lot_group.specs.Product.{map_product, HasRange, IsKept};
ghost use Rattle.lot_types.specs.declared.matrix.Matrix.{Matrix as TheMatrix};

use lot_geom::{identity, then};
use lot_types::Matrix;

/// The product of matrices from the last to the first: the last maps first. That of none is the identity, and that of
/// one is this matrix.
pub(crate) fn product_from_last(factors: &[Matrix]) -> Matrix
    ensures value { map_product (map Some (reverse factors.now)) ≡ Some result }
    ensures one { (m : TheMatrix) → HasRange m → IsKept m }
{
    let mut product = identity();
    let mut i = factors.len();
    while i > 0 {
        i -= 1;
        product = then(product, factors[i]);
    }
    product
}

/// Makes `m` the last factor of each of the matrices.
pub(crate) fn multiply_each(matrices: &mut [Matrix], m: &Matrix)
    ensures { matrices.new ≡ map (λ a. matrix_product a m.now) matrices.old }
{
    for a in matrices.iter_mut() {
        *a = then(*a, *m);
    }
}
