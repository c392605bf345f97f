//! The keyframe that is in force at a time.
ghost use Rattle.std.specs.Prelude.{◌≡◌};
ghost use Rattle.lot_prop.specs.Found.{IsFound, IsCount};

use lot_types::{Keys, Time};

/// Where a time is among the keyframes of a property.
#[derive(Clone, Copy)]
pub enum Found {
    /// The value is that of the keyframe at this index.
    Held(usize),
    /// The value lies between those of the keyframe at this index and the next.
    Between(usize),
}

impl Found {
    /// Finds a time among keyframes, by halving.
    pub fn of<T>(keys: &Keys<T>, t: Time) -> Found
        ensures { IsFound keys.now t result }
    {
        let items = keys.items();
        let count = count_until(keys, t);
        if count == 0 {
            return Found::Held(0);
        }
        let k = count - 1;
        if count == items.len() {
            return Found::Held(k);
        }
        if items[k].hold {
            return Found::Held(k);
        }
        Found::Between(k)
    }
}

/// The number of keyframes whose time is not above a time.
fn count_until<T>(keys: &Keys<T>, t: Time) -> usize
    ensures { IsCount keys.now t result }
{
    keys.items().partition_point(|key| key.t.get() <= t.get())
}
