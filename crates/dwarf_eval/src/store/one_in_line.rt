ghost use Rattle.std.specs.Prelude.{◌≡◌, ◌++◌, length, true, false, None, IfSome, IfOk, IfErr};
ghost use Rattle.dwarf_eval.specs.Lists.{MayRefuse, at_least_one, one_of};

use super::lists::ArrayLike;
use std::marker::Model;

/// A list that keeps a single item inline, and moves it to another list when a second item comes. Most expressions have
/// one piece, so if the other list is on the heap, they allocate nothing for it. The limit is the other list's, or 1 if
/// that is 0.
#[derive(Drop)]
pub struct OneInLine<T: Copy, L: ArrayLike<Item = T>> {
    // The single item. If there are more items, all of them are in the other list.
    one: Option<[T; 1]>,
    more: L,
}

impl<T: Copy, L: ArrayLike<Item = T>> Model for OneInLine<T, L> {
    ghost use Rattle.std.specs.Prelude.{◌≡◌, ◌++◌, [], IfSome, length};
    ghost use Rattle.dwarf_eval.specs.Lists.{Limited, at_least_one, one_of};

    ghost Value = { Limited T };

    ghost view = { λ v. record {
      items = one_of v.one ++ L.items v.more;
      limit = at_least_one (L.limit v.more);
    } };

    ghost invariant = { λ v. IfSome v.one (λ xs. (length xs ≡ 1) × (L.items v.more ≡ [])) };
}

impl<T: Copy, L: ArrayLike<Item = T>> OneInLine<T, L> {
    /// A list with the items of `more`.
    #[inline(always)]
    pub fn new(more: L) -> Self
        ensures items { result.items ≡ L.items more }
        ensures limit { result.limit ≡ at_least_one (L.limit more) }
    {
        OneInLine { one: None, more }
    }

    /// The other list, with all items. If it refuses the single item, this list is handed back.
    #[inline]
    pub fn into_list(mut self) -> Result<L, Self>
        ensures ok { IfOk result (λ list. L.items list ≡ self.items) }
        ensures limit { IfOk result (λ list. at_least_one (L.limit list) ≡ self.limit) }
        ensures err { IfErr result (λ back. back ≡ self) }
    {
        if !spill(&mut self.one, &mut self.more) {
            return Err(self);
        }
        Ok(self.more)
    }
}

impl<T: Copy, L: ArrayLike<Item = T>> ArrayLike for OneInLine<T, L> {
    type Item = T;

    ghost items = { λ v. v.items };

    ghost limit = { λ v. v.limit };

    #[inline(always)]
    fn as_slice(&self) -> &[T] {
        match &self.one {
            Some(one) => &one[..],
            None => self.more.as_slice(),
        }
    }

    #[inline(always)]
    fn pop(&mut self) -> Option<T> {
        if let Some(one) = self.one.take() {
            let [item] = one;
            return Some(item);
        }
        self.more.pop()
    }

    #[inline(always)]
    fn push(&mut self, item: T) -> Result<(), T> {
        if self.one.is_some() {
            if !spill(&mut self.one, &mut self.more) {
                return Err(item);
            }
        } else if self.more.len() == 0 {
            self.one = Some([item]);
            return Ok(());
        }
        self.more.push(item)
    }
}

/// Moves the single item to the other list; `false` if that refuses it. The next item isn't passed in, since it would
/// have to be written to memory for the call.
#[cold]
#[inline(never)]
fn spill<T: Copy, L: ArrayLike<Item = T>>(one: &mut Option<[T; 1]>, more: &mut L) -> bool
    requires { IfSome one.old (λ xs. length xs ≡ 1) }
    ensures ok { result ≡ true
        → L.items more.new ≡ L.items more.old ++ one_of one.old }
    ensures moved { result ≡ true → one.new ≡ None }
    ensures err { result ≡ false → (L.items more.new ≡ L.items more.old) × (one.new ≡ one.old) }
    ensures full { result ≡ false
        → MayRefuse (L.limit more.old) (length (L.items more.old)) }
    ensures limit { L.limit more.new ≡ L.limit more.old }
{
    if let Some(only) = one.take() {
        let [item] = only;
        if let Err(item) = more.push(item) {
            *one = Some([item]);
            return false;
        }
    }
    true
}
