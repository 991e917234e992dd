//! A test of calls after a replay.

ghost use Rattle.std.specs.Prelude.{◌≡◌, None};
ghost use Rattle.dwarf_meaning.specs.Rest.{Start};

use crate::tests::evaluation::{SMALL, little, replayed};
use dwarf_base::Reader;
use dwarf_eval::eval::{Evaluation, Status, WaitingKind};
use dwarf_eval::op::{EvaluationResult, Location, Piece};
use dwarf_eval::store::{EvaluationStorage, StoreOnHeap};
use dwarf_replay::{Replayed, Step};
use dwarf_value::Value::Generic;
use std::alloc::Global;
use std::process::Abort;

// Expects settings from before a replay to hold, and a step that isn't allowed to change nothing.
fn expect_misplaced<R: Reader + Copy, S: EvaluationStorage<R>>(
    rt: &impl Abort,
    alloc: Global,
    eval: &mut Evaluation<R, S>,
    steps: &[Step<R>],
)
    requires { eval.old.status ≡ Start None }
{
    eval.set_object_address(0x7000);
    let end = replayed(eval, steps, &mut Vec::new(alloc));
    assert!(rt; matches!(end, Replayed::Misplaced(1)));
}

// Expects a request for the address of the frame, and answers it.
fn expect_goes_on<R: Reader + Copy, S: EvaluationStorage<R>>(
    rt: &impl Abort,
    eval: &mut Evaluation<R, S>,
) {
    assert!(rt; eval.status() == Status::Waiting(WaitingKind::CallFrameCfa));
    let end = eval.resume_with_call_frame_cfa(1);
    assert!(rt; matches!(end, Ok(EvaluationResult::Complete)));
    assert!(rt; eval.status() == Status::Complete);
    assert!(rt; eval.value_result() == Some(Generic(0x7000)));
}

// Expects the pieces to be handed over.
fn expect_piece<R: Reader + Copy>(rt: &impl Abort, eval: Evaluation<R, StoreOnHeap<Global>>) {
    assert!(rt; eval.status() == Status::Complete);
    let pieces = eval.result();
    assert!(rt;
        matches!(
            pieces.as_slice(),
            [Piece {
                size_in_bits: None,
                location: Location::Address { address: 0x7000 },
                ..
            }]
        )
    );
}

#[test]
fn misplaced(rt: HostRuntime) {
    let mut eval = Evaluation::new(rt.alloc(), little(&[0x9c, 0x97]), SMALL);
    let steps = [Step::Evaluate, Step::FrameBase(0)];
    expect_misplaced(&rt, rt.alloc(), &mut eval, &steps);
    expect_goes_on(&rt, &mut eval);
    expect_piece(&rt, eval);
}
