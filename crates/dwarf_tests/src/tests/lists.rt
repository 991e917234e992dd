//! Lists without a limit: a list that refuses one push, and tests of the lists on the heap.

ghost use Rattle.std.specs.Prelude.{◌≡◌, [], None};

use crate::tests::allocators::{NEVER, RefusesGrowth};
use dwarf_base::Reader;
use dwarf_eval::op::Piece;
use dwarf_eval::store::{ArrayLike, EvaluationStorage, OneInLine};
use dwarf_value::Value;
use std::alloc::{Allocator, Global};
use std::process::Abort;

/// A list without a limit that refuses one push.
#[derive(Drop)]
pub(crate) struct RefusesOne<T> {
    items: Vec<T>,
    // How many pushes are left before the refused one.
    before: u64,
}

impl<T> RefusesOne<T> {
    /// A new list that refuses one push, after this many others.
    pub(crate) fn new(alloc: Global, before: u64) -> Self
        ensures { result.items.items ≡ [] }
    {
        RefusesOne {
            items: Vec::new(alloc),
            before,
        }
    }
}

impl<T: Copy> ArrayLike for RefusesOne<T> {
    type Item = T;

    ghost items = { λ list. list.items.items };

    ghost limit = { λ _. None };

    fn as_slice(&self) -> &[T] {
        self.items.as_slice()
    }

    fn pop(&mut self) -> Option<T> {
        self.items.pop()
    }

    fn push(&mut self, item: T) -> Result<(), T> {
        if self.before == 0 {
            self.before = NEVER;
            return Err(item);
        }
        self.before -= 1;
        self.items.push(item).map_err(|failed| failed.value)
    }
}

pub(crate) struct ListsOfTests;

impl<R: Reader + Copy> EvaluationStorage<R> for ListsOfTests {
    type Stack = RefusesOne<Value>;

    type ExpressionStack = RefusesOne<(R, R)>;

    type Result = RefusesOne<Piece<R>>;
}

// Pushes 5,000 items. If a growth is refused, that item is handed back. After the list is emptied, it takes as many
// items without growing.
fn expect_list<L: ArrayLike<Item = u64>>(
    rt: &impl Abort,
    list: &mut L,
    memory: &RefusesGrowth<Global>,
) {
    let mut refused = false;
    for item in 0..5_000 {
        if list.push(item).is_err() {
            assert!(rt; !refused && memory.has_refused());
            refused = true;
            assert!(rt; list.push(item).is_ok());
        }
    }
    assert!(rt; refused == memory.has_refused());
    let growths = memory.left();
    for _ in 0..5_000 {
        assert!(rt; list.pop().is_some());
    }
    for item in 0..5_000 {
        assert!(rt; list.push(item).is_ok());
    }
    assert!(rt; memory.left() == growths);
}

// Each growth of a list on the heap is refused in turn.
#[test]
fn lists_on_the_heap(rt: HostRuntime) {
    let mut refused = 0;
    for before in 0..20 {
        let memory = RefusesGrowth::new(rt.alloc(), before);
        expect_list(&rt, &mut Vec::new(&memory), &memory);
        if memory.has_refused() {
            refused = before;
        }
        let memory = RefusesGrowth::new(rt.alloc(), before);
        expect_list(&rt, &mut OneInLine::new(Vec::new(&memory)), &memory);
    }
    assert!(rt; 8 < refused && refused < 18);
}

// A single item allocates nothing until the list is handed over. If that allocation is refused, the item is kept.
#[test]
fn one_item_in_line(rt: HostRuntime) {
    let memory = RefusesGrowth::new(rt.alloc(), 0);
    let mut list = OneInLine::new(Vec::new(&memory));
    assert!(rt; list.push(7u64).is_ok() && !memory.has_refused());
    expect_handed_over(&rt, list, &memory);
}

fn expect_handed_over<A: Allocator>(
    rt: &impl Abort,
    list: OneInLine<u64, Vec<u64, A>>,
    memory: &RefusesGrowth<Global>,
) {
    match list.into_list() {
        Ok(_) => assert!(rt; false),
        Err(list) => {
            assert!(rt; memory.has_refused() && list.as_slice() == [7].as_slice());
            match list.into_list() {
                Ok(items) => assert!(rt; items.as_slice() == [7].as_slice()),
                Err(_) => assert!(rt; false),
            }
        }
    }
}
