ghost use Rattle.std.specs.Prelude.{◌≡◌, ℕ, List, [], ◌∷◌, ◌++◌, Option, length, slice_get, option_to_list, OnOk, OnErr, IfErr, IfNone};
ghost use Rattle.dwarf_eval.specs.Lists.{HasRoom, MayRefuse};
ghost use Rattle.dwarf_meaning.specs.Stores.{IsWithin};

use dwarf_base::copy_of;

/// A list that may have a limit. No call changes the limit.
pub trait ArrayLike: Drop {
    /// The type of its items.
    type Item: Copy;

    // The items in order.
    ghost items: { Self → List Self.Item };

    // The most items that it can hold, if it has a limit.
    ghost limit: { Self → Option ℕ };

    /// How many items there are, never more than the limit.
    #[inline(always)]
    fn len(&self) -> usize
        ensures value { result ≡ length (items self.now) }
        ensures within { IsWithin (limit self.now) (length (items self.now)) }
    {
        self.as_slice().len()
    }

    /// The item at an index, or `None` after the last one.
    #[inline(always)]
    fn get(&self, index: usize) -> Option<Self::Item>
        ensures { result ≡ slice_get (items self.now) index }
    {
        Some(copy_of(self.as_slice().get(index)?))
    }

    /// The items.
    fn as_slice(&self) -> &[Self::Item]
        ensures items { result.now ≡ items self.now }
        ensures within { IsWithin (limit self.now) (length (items self.now)) };

    /// Takes the last item, or gives `None` if there is none.
    fn pop(&mut self) -> Option<Self::Item>
        ensures items { items self.old ≡ items self.new ++ option_to_list result }
        ensures empty { IfNone result (items self.old ≡ []) }
        ensures limit { limit self.new ≡ limit self.old };

    /// Adds an item at the end. If it can't, it hands the item back and leaves the list as it was. A list with a limit
    /// refuses an item exactly if it is at the limit, and a list without one only if memory was refused.
    fn push(&mut self, item: Self::Item) -> Result<(), Self::Item>
        ensures ok { OnOk result (items self.new ≡ items self.old ++ item ∷ []) }
        ensures err { OnErr result (items self.new ≡ items self.old) }
        ensures returned { IfErr result (λ back. back ≡ item) }
        ensures room { OnOk result (HasRoom (limit self.old) (length (items self.old))) }
        ensures full { OnErr result (MayRefuse (limit self.old) (length (items self.old))) }
        ensures limit { limit self.new ≡ limit self.old };
}
