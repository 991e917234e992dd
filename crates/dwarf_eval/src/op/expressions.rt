//! An expression, and the iterator over its operations.

ghost use Rattle.std.specs.Prelude.{◌≡◌, ◌-◌, length};
ghost use Rattle.std.specs.Iterator.{item_count};
ghost use Rattle.dwarf_base.specs.Reads.{IsRestOf, IsSuffix};
ghost use Rattle.dwarf_meaning.specs.Decoding.{operation_at};
ghost use Rattle.dwarf_eval.specs.Iteration.{unread_of, encoding_of, items_left, GivesFirst, GivesNext, GivesItem};
ghost use Rattle.dwarf_op.specs.Views.{operation_of};

use dwarf_base::{Encoding, Reader, Result};
use dwarf_op::Operation;

/// The bytes of an expression (DWARF 5, section 2.5).
#[derive(Clone, Copy, Debug, PartialEq, Eq, Hash)]
pub struct Expression<R>(pub R);

impl<R: Reader + Copy> Expression<R> {
    /// Its operations, in order.
    #[inline]
    pub fn operations(self, encoding: Encoding) -> OperationIter<R>
        ensures input { unread_of result ≡ self.0 }
        ensures encoding { encoding_of result ≡ encoding }
    {
        OperationIter {
            input: self.0,
            encoding,
        }
    }
}

/// An iterator over the operations of an expression. A malformed operation is the last.
#[derive(Clone, Copy, Debug)]
pub struct OperationIter<R> {
    input: R,
    encoding: Encoding,
}

impl<R: Reader + Copy> OperationIter<R> {
    /// The next operation, or `None` at the end.
    ///
    /// The errors are those of [`Operation::parse`]. After an error the iterator is at its end.
    #[inline]
    pub fn next(&mut self) -> Result<Option<Operation<R>>>
        ensures value { GivesNext (operation_of R.text R.Offset.number) result
            (R.text (unread_of self.new)).bytes (R.text (unread_of self.old)).bytes
            (operation_at (encoding_of self.old) R.Offset.BITS
            (R.text (unread_of self.old))) }
        ensures left { IsRestOf (R.text (unread_of self.new)) (R.text (unread_of self.old)) }
        ensures encoding { encoding_of self.new ≡ encoding_of self.old }
        ensures items { GivesItem (operation_of R.text R.Offset.number) result
            (items_left R.text R.Offset.BITS self.new)
            (items_left R.text R.Offset.BITS self.old) }
    {
        if self.input.is_empty() {
            return Ok(None);
        }
        match Operation::parse(&mut self.input, self.encoding) {
            Ok(operation) => Ok(Some(operation)),
            Err(error) => {
                self.input.empty();
                Err(error)
            }
        }
    }

    /// The offset of the iterator in the expression. Its bytes have to be a suffix of the expression.
    ///
    /// This is the length of the operations so far; after an error, it is the length of the expression.
    #[inline]
    pub fn offset_from(&self, expression: &Expression<R>) -> R::Offset
        requires { IsSuffix (R.text (unread_of self.now)).bytes (R.text expression.now.0).bytes }
        ensures { R.Offset.number result
            ≡ length (R.text expression.now.0).bytes - length (R.text (unread_of self.now)).bytes }
    {
        self.input.offset_from(&expression.0)
    }
}

impl<R: Reader + Copy> Iterator for OperationIter<R> {
    type Item = Result<Operation<R>>;

    ghost next_gives = { GivesFirst R.text R.Offset.BITS (operation_of R.text R.Offset.number) };

    ghost remaining = { item_count (items_left R.text R.Offset.BITS) };

    /// The next operation, or the error in its place. `None` at the end and after an error.
    #[inline]
    fn next(&mut self) -> Option<Result<Operation<R>>> {
        OperationIter::next(self).transpose()
    }
}
