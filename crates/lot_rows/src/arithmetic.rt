//! Roots, products, and the sines of angles, where no frame shows them.
use lot_num::{cos_fx, isqrt, mul_fx, sin_fx, tan_fx};
use std::test::Fail;

/// Whole numbers, and their roots rounded down.
const ROOTS: [(u128, u64); 6] = [
    (0, 0),
    (8, 2),
    (9, 3),
    (10_000_000_000_000, 3_162_277),
    (800_000_000_000_000_000_000_000_000, 28_284_271_247_461),
    (
        170_141_183_460_469_231_731_687_303_715_884_105_727,
        13_043_817_825_332_782_212,
    ),
];

/// Factors in millionths, and their product, limited to ten million.
const PRODUCTS: [(i64, i64, i64); 4] = [
    (1_500_000, -1_000_001, -1_500_002),
    (1, 500_000, 1),
    (i64::MIN, i64::MIN, 10_000_000_000_000),
    (i64::MAX, i64::MIN, -10_000_000_000_000),
];

#[test]
fn roots_are_rounded_down(rt: HostRuntime) -> Result<(), Fail> {
    for (x, root) in ROOTS {
        assert_eq!(rt; isqrt(x), root);
    }
    Ok(())
}

#[test]
fn products_are_rounded_and_limited(rt: HostRuntime) -> Result<(), Fail> {
    for (a, b, product) in PRODUCTS {
        assert_eq!(rt; mul_fx(a, b), product);
    }
    Ok(())
}

#[test]
fn angles_have_the_values_of_the_polynomials(rt: HostRuntime) -> Result<(), Fail> {
    assert_eq!(rt; sin_fx(30_000_000), 500_000);
    assert_eq!(rt; sin_fx(90_000_000), 1_000_000);
    assert_eq!(rt; cos_fx(180_000_000), -1_000_000);
    assert_eq!(rt; tan_fx(90_000_000), 10_000_000_000_000);
    assert_eq!(rt; tan_fx(270_000_000), -10_000_000_000_000);
    Ok(())
}
