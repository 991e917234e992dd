//! A list over a borrowed slice.

ghost use Rattle.std.specs.Prelude.{◌≡◌, [], length, Some};

use super::lists::ArrayLike;
use dwarf_base::copy_of;
use std::marker::Model;

/// A list over a slice that its caller lends. Its capacity is the length of the slice, so it is chosen at run time.
/// Nothing is allocated or set to zero.
///
/// A popped item stays in its slot until another item overwrites it. So in Rust a popped reader isn't dropped: one that
/// has an `Arc` still counts as its owner. There, `Evaluation::restart` overwrites all slots if readers need to be
/// dropped. When an evaluation ends, the slots keep their items until the owner of the slice drops or overwrites them.
#[derive(Drop)]
pub struct SliceVec<'a, T> {
    slots: &'a mut [T],
    len: usize,
}

impl<'a, T> Model for SliceVec<'a, T> {
    ghost use Rattle.std.specs.Prelude.{◌≤◌, length, take};
    ghost use Rattle.dwarf_eval.specs.Lists.{Lent};

    ghost Value = { Lent T };

    ghost view = { λ v. record { items = take v.len v.slots.now; capacity = length v.slots.now } };

    ghost invariant = { λ v. v.len ≤ length v.slots.now };
}

impl<'a, T> SliceVec<'a, T> {
    /// An empty list over these slots.
    pub fn new(slots: &'a mut [T]) -> Self
        ensures items { result.items ≡ [] }
        ensures capacity { result.capacity ≡ length slots.old }
    {
        SliceVec { slots, len: 0 }
    }
}

impl<'a, T: Copy> ArrayLike for SliceVec<'a, T> {
    type Item = T;

    ghost items = { λ v. v.items };

    ghost limit = { λ v. Some v.capacity };

    #[inline(always)]
    fn as_slice(&self) -> &[T] {
        &self.slots[..self.len]
    }

    #[inline(always)]
    fn pop(&mut self) -> Option<T> {
        self.len = self.len.checked_sub(1)?;
        Some(copy_of(&self.slots[self.len]))
    }

    #[inline(always)]
    fn push(&mut self, item: T) -> Result<(), T> {
        if self.len == self.slots.len() {
            return Err(item);
        }
        self.slots[self.len] = item;
        self.len += 1;
        Ok(())
    }
}
