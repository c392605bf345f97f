//! The keyframes of a property.

ghost use Rattle.std.specs.Prelude.{◌≡◌, ◌<◌, ◌↔◌, [], length, ◌∷◌, ◌++◌, Some, IsSome, IfSome, IfOk, OnOk, OnErr, IsTrue};
ghost use Rattle.lot_types.specs.Keyframes.{IsTimeline, EndsBy, last_of};
ghost use Rattle.lot_types.specs.Limits.{max_list_items};

use crate::{Duplicate, Key, MAX_LIST_ITEMS, Memory, Seq};
use std::alloc::Global;
use std::marker::Model;

/// The keyframes of a property: at least one and at most [`MAX_LIST_ITEMS`], and the time of each is at most the time
/// of the next. Contracts see them as a list.
///
/// Their order is that of the Lottie Specification 1.0, "Keyframes". That two of them may have one time is this
/// project's own.
#[derive(Drop)]
pub struct Keys<T> {
    keys: Seq<Key<T>>,
}

impl<T> Model for Keys<T> {
    ghost use Rattle.std.specs.Prelude.{List};
    ghost use Rattle.lot_types.specs.declared.key.Key.{Key};
    ghost use Rattle.lot_types.specs.Keyframes.{IsTimeline};

    ghost Value = { List (Key T) };

    ghost view = { λ it. it.keys };

    ghost invariant = { λ it. IsTimeline it.keys };
}

impl<T: Drop> Keys<T> {
    /// The keyframes of a list. `None` exactly where it is empty or too long, or the time of a keyframe is below that
    /// of the one before it.
    pub fn of(keys: Seq<Key<T>>) -> Option<Keys<T>>
        ensures some { IsSome result ↔ IsTimeline keys }
        ensures value { IfSome result (λ made. made ≡ keys) }
    {
        if is_timeline(keys.items()) {
            Some(Keys { keys })
        } else {
            None
        }
    }

    /// One keyframe. Want of memory is the one refusal; the keyframe is then dropped.
    pub fn first(alloc: Global, key: Key<T>) -> Result<Keys<T>, Memory>
        ensures { IfOk result (λ made. made ≡ key ∷ []) }
    {
        let mut keys = Seq::new(alloc);
        keys.push(key)?;
        Ok(Keys { keys })
    }

    /// Puts a keyframe at the end, whose time is at least that of the last one. There must be room for it below
    /// [`MAX_LIST_ITEMS`]. Want of memory is the one refusal; the keyframes are then unchanged, and the new one is
    /// dropped.
    pub fn push(&mut self, key: Key<T>) -> Result<(), Memory>
        requires room { length self.old < max_list_items }
        requires in_order { EndsBy self.old key.t }
        ensures ok { OnOk result (self.new ≡ self.old ++ key ∷ []) }
        ensures err { OnErr result (self.new ≡ self.old) }
    {
        self.keys.push(key)?;
        Ok(())
    }
}

impl<T> Keys<T> {
    /// The keyframes in order.
    pub fn items(&self) -> &[Key<T>]
        ensures value { result.now ≡ self.now }
        ensures timeline { IsTimeline self.now }
    {
        self.keys.items()
    }

    /// The last keyframe.
    pub fn last(&self) -> &Key<T>
        ensures { last_of self.now ≡ Some result.now }
    {
        let keys = self.keys.items();
        &keys[keys.len() - 1]
    }
}

// Whether there is a keyframe and there are not too many, and no time is below the one before it.
fn is_timeline<T>(keys: &[Key<T>]) -> bool
    ensures { IsTrue result ↔ IsTimeline keys.now }
{
    let mut k = 1;
    while k < keys.len() {
        if keys[k].t.get() < keys[k - 1].t.get() {
            return false;
        }
        k += 1;
    }
    !keys.is_empty() && keys.len() <= MAX_LIST_ITEMS
}

impl<T: Duplicate> Duplicate for Keys<T> {
    fn copy(&self) -> Result<Keys<T>, Memory> {
        let keys = self.keys.copy()?;
        Ok(Keys { keys })
    }
}
