//! What the tests of evaluations share.

ghost use Rattle.std.specs.Prelude.{◌≡◌, [], None};
ghost use Rattle.dwarf_meaning.specs.Rest.{Start};

use dwarf_base::{Encoding, EndianSlice, Error, Format, Reader, RunTimeEndian};
use dwarf_eval::eval::Evaluation;
use dwarf_eval::op::EvaluationResult;
use dwarf_eval::store::{ArrayLike, EvaluationStorage};
use dwarf_replay::{Answer, Replayed, Step, replay};
use std::alloc::Allocator;

pub(crate) type Bytes<'a> = EndianSlice<'a, RunTimeEndian>;

/// Addresses of 4 bytes and the 32-bit format.
pub(crate) const SMALL: Encoding = Encoding {
    address_size: 4,
    format: Format::Dwarf32,
    version: 4,
};

/// The result of a call that is complete.
pub(crate) const COMPLETE: Answer<Bytes<'static>> = Answer(Ok(EvaluationResult::Complete));

/// The result of a call in which a list refused an item.
pub(crate) const FULL: Answer<Bytes<'static>> = Answer(Err(Error::StackFull));

/// The bytes, in little-endian order.
pub(crate) fn little(text: &[u8]) -> Bytes<'_> {
    EndianSlice::new(text, RunTimeEndian::Little)
}

/// Replays the steps. It has no contract, since the tests look at its result.
pub(crate) fn replayed<R: Reader + Copy, S: EvaluationStorage<R>, L: ArrayLike<Item = Answer<R>>>(
    eval: &mut Evaluation<R, S>,
    steps: &[Step<R>],
    answers: &mut L,
) -> Replayed<R>
    requires fresh { eval.old.status ≡ Start None }
    requires empty { L.items answers.old ≡ [] }
{
    replay(eval, steps, answers)
}

/// Replays the steps on the heap.
pub(crate) fn replayed_on_heap<R: Reader + Copy, A: Allocator + Copy, B: Allocator>(
    lists: A,
    text: R,
    steps: &[Step<R>],
    answers: &mut Vec<Answer<R>, B>,
) -> Replayed<R>
    requires { answers.old.items ≡ [] }
{
    replayed(&mut Evaluation::new(lists, text, SMALL), steps, answers)
}
