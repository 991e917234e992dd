//! A count for contracts, which has no bytes in a program.

ghost use Rattle.std.specs.Prelude.{◌≡◌, ◌+◌, ℕ};

use std::marker::{Model, PhantomData};

/// A count that only contracts see; in a program it has no bytes.
///
/// `new` starts at 0, and only `tick` raises it.
#[derive(Drop)]
pub(crate) struct Ticks {
    marker: PhantomData<()>,
    pub ghost count: { ℕ },
}

impl Model for Ticks {
    ghost use base.Fml.{ftrue};

    ghost also_owns = { λ _. ftrue };
}

impl Ticks {
    /// A count of 0.
    pub(crate) fn new() -> Self
        ensures { result.count ≡ 0 }
    {
        Ticks {
            marker: PhantomData,
        }
    }

    /// Counts one more.
    #[inline]
    pub(crate) fn tick(&mut self)
        ensures { self.new.count ≡ self.old.count + 1 }
    {}
}
