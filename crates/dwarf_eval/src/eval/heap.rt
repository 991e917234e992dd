//! Evaluations with their lists on the heap.

ghost use Rattle.std.specs.Prelude.{◌≡◌, None, map};
ghost use Rattle.dwarf_eval.specs.Evaluation.{IsAddressSize, IsComplete, fresh_state};
ghost use Rattle.dwarf_meaning.specs.Stores.{setup_of};
ghost use Rattle.dwarf_op.specs.Views.{piece_of};

use crate::eval::evaluation::Evaluation;
use crate::op::{Expression, Piece};
use crate::store::StoreOnHeap;
use dwarf_base::{Encoding, Reader};
use std::alloc::Allocator;

impl<R: Reader + Copy> Expression<R> {
    /// A fresh evaluation of the expression, on the heap. It allocates nothing yet.
    ///
    /// The encoding's address size has to be from 1 to 8 bytes.
    pub fn evaluation<A: Allocator + Copy>(
        self,
        alloc: A,
        encoding: Encoding,
    ) -> Evaluation<R, StoreOnHeap<A>>
        requires { IsAddressSize encoding.address_size }
        ensures { result ≡ fresh_state (setup_of encoding R.Offset.BITS None None None)
            (R.text self.0) }
    {
        Evaluation::new(alloc, self.0, encoding)
    }
}

impl<R: Reader + Copy, A: Allocator + Copy> Evaluation<R, StoreOnHeap<A>> {
    /// A fresh evaluation of `bytecode`, on the heap. It allocates nothing yet.
    ///
    /// The encoding's address size has to be from 1 to 8 bytes.
    pub fn new(alloc: A, bytecode: R, encoding: Encoding) -> Self
        requires { IsAddressSize encoding.address_size }
        ensures { result ≡ fresh_state (setup_of encoding R.Offset.BITS None None None)
            (R.text bytecode) }
    {
        Evaluation::new_in(
            bytecode,
            encoding,
            Vec::new(alloc),
            Vec::new(alloc),
            Vec::new(alloc),
        )
    }

    /// The pieces of a complete evaluation.
    pub fn result(self) -> Vec<Piece<R>, A>
        requires { IsComplete self.status }
        ensures { map (piece_of R.text R.Offset.number) result.items
            ≡ self.store.pieces }
    {
        self.into_pieces()
    }
}
