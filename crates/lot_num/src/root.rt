//! The integer square root.

ghost use Rattle.std.specs.Prelude.{◌≡◌, ◌+◌, ◌*◌, ◌^◌, ◌<◌, ◌≤◌};
ghost use Rattle.lot_num.specs.Root.{root};

/// The greatest whole number whose square is not above `x`: the root of 8 is 2.
///
/// `x` is below 2^127.
pub fn isqrt(x: u128) -> u64
    requires small { x < 2 ^ 127 }
    ensures value { result ≡ root x }
    ensures square { result * result ≤ x }
    ensures next_square { x < (result + 1) * (result + 1) }
{
    if x == 0 {
        return 0;
    }
    // The root has half as many binary digits as x, rounded up.
    let mut low: u128 = 1 << (x.ilog2() / 2);
    let mut high = 2 * low;
    while low + 1 < high {
        let middle = (low + high) / 2;
        if middle * middle <= x {
            low = middle;
        } else {
            high = middle;
        }
    }
    low as u64
}
