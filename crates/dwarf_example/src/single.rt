//! Evaluations of few calls, without a loop.

ghost use Rattle.dwarf_expr.specs.Evaluation.{IsAddressSize};

use dwarf_expr::base::{Encoding, Reader, Result};
use dwarf_expr::eval::{Evaluation, WaitingKind};
use dwarf_expr::op::{EvaluationResult, Expression, Piece};
use dwarf_expr::replay::{Step, Stepped, take_step};
use dwarf_expr::store::EvaluationStorage;
use dwarf_expr::value::Value;
use std::alloc::Allocator;

/// Where a member of an object is, by its `DW_AT_data_member_location`. `None` if the expression asks for something.
pub fn member_address<R: Reader + Copy, A: Allocator + Copy>(
    alloc: A,
    bytes: R,
    encoding: Encoding,
    object: u64,
) -> Result<Option<Value>>
    requires { IsAddressSize encoding.address_size }
{
    let mut evaluation = Expression(bytes).evaluation(alloc, encoding);
    evaluation.set_initial_value(object);
    evaluation.set_object_address(object);
    match evaluation.evaluate()? {
        EvaluationResult::Complete => Ok(evaluation.value_result()),
        _ => Ok(None),
    }
}

/// The pieces of a variable. `None` unless the expression asks for the frame base, and for nothing else.
pub fn local_pieces<R: Reader + Copy, A: Allocator + Copy>(
    alloc: A,
    bytes: R,
    encoding: Encoding,
    frame_base: u64,
) -> Result<Option<Vec<Piece<R>, A>>>
    requires { IsAddressSize encoding.address_size }
{
    let mut evaluation = Evaluation::new(alloc, bytes, encoding);
    let _request = evaluation.evaluate()?;
    if !evaluation.is_open_for(WaitingKind::FrameBase) {
        return Ok(None);
    }
    match evaluation.resume_with_frame_base(frame_base)? {
        EvaluationResult::Complete => Ok(Some(evaluation.result())),
        _ => Ok(None),
    }
}

/// Takes a step, and returns whether it was in turn.
pub fn is_taken<R: Reader + Copy, S: EvaluationStorage<R>>(
    evaluation: &mut Evaluation<R, S>,
    step: Step<R>,
) -> bool {
    !matches!(take_step(evaluation, step), Stepped::Misplaced)
}
