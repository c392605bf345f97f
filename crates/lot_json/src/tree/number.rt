use lot_types::Fx;

/// The number of a number token, in millionths by its exact value.
#[derive(Clone, Copy)]
pub enum Number {
    /// Its millionths, rounded to the nearest, a half away from zero.
    Micro(Fx),
    /// A number whose magnitude, rounded likewise, is above ten million.
    Beyond,
}
