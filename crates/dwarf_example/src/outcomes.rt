//! Evaluations whose outcome is proved.

ghost use Rattle.std.specs.Prelude.{◌≡◌, ◌+◌, ◌-◌, ◌≤◌, ◌<◌, [], ◌∷◌, None};
ghost use Rattle.dwarf_expr.specs.Value.TheVariants.{Generic};
ghost use Rattle.dwarf_expr.specs.WaitingKind.TheVariants.{FrameBase};
ghost use Rattle.dwarf_expr.specs.EndianSlice.{slice_text};
ghost use Rattle.dwarf_expr.specs.Locations.{HoldsValue};
ghost use Rattle.dwarf_expr.specs.Meaning.{CompleteOutcome, RequestOutcome, whole_piece};
ghost use Rattle.dwarf_expr.specs.Outcomes.{GivesOutcome};
ghost use Rattle.dwarf_expr.specs.Requests.{NumberAnswer, RequiresFrameBase};
ghost use Rattle.dwarf_expr.specs.RowWords.{dwarf4, inputs_of, open_at, text, unset, value_at};

use crate::meanings::{below_frame_base, literal, three, with_frame_base};
use crate::{Bytes, ENCODING};
use dwarf_expr::base::Result;
use dwarf_expr::eval::Evaluation;
use dwarf_expr::op::EvaluationResult;
use dwarf_expr::outcomes::step_outcome;
use dwarf_expr::replay::Step;
use dwarf_expr::store::EvaluationStorage;

/// Evaluates `DW_OP_lit3`, `DW_OP_stack_value`: the variable isn't in memory, and has the value 3.
pub fn evaluate_three<'a, S: EvaluationStorage<Bytes<'a>>>(
    evaluation: &mut Evaluation<Bytes<'a>, S>,
) -> Result<EvaluationResult<Bytes<'a>>>
    ensures { GivesOutcome slice_text (λ x. x) dwarf4 (text (0x33 ∷ 0x9f ∷ [])) unset []
        (CompleteOutcome (whole_piece (HoldsValue (Generic 3)) ∷ []) None) result evaluation.new }
{
    let bytes = three();
    evaluation.restart(bytes, ENCODING);
    let replied = evaluation.evaluate();
    step_outcome(evaluation, &replied, bytes, ENCODING, Step::Evaluate);
    replied
}

/// Evaluates `DW_OP_fbreg -16` as far as the frame base, which it asks for.
pub fn ask_frame_base<'a, S: EvaluationStorage<Bytes<'a>>>(
    evaluation: &mut Evaluation<Bytes<'a>, S>,
) -> Result<EvaluationResult<Bytes<'a>>>
    ensures { GivesOutcome slice_text (λ x. x) dwarf4 (text (0x91 ∷ 0x70 ∷ [])) unset []
        (RequestOutcome RequiresFrameBase (open_at (0x91 ∷ 0x70 ∷ []) 2 ∷ [])) result evaluation.new }
{
    let bytes = below_frame_base();
    evaluation.restart(bytes, ENCODING);
    let replied = evaluation.evaluate();
    step_outcome(evaluation, &replied, bytes, ENCODING, Step::Evaluate);
    replied
}

/// Evaluates `DW_OP_fbreg -16`: the variable is 16 bytes below the frame base.
pub fn find_local<'a, S: EvaluationStorage<Bytes<'a>>>(
    evaluation: &mut Evaluation<Bytes<'a>, S>,
    frame_base: u32,
) -> Result<EvaluationResult<Bytes<'a>>>
    requires { 16 ≤ frame_base }
    ensures { GivesOutcome slice_text (λ x. x) dwarf4 (text (0x91 ∷ 0x70 ∷ [])) unset
        (inputs_of unset (NumberAnswer FrameBase frame_base ∷ []))
        (value_at (frame_base - 16) (frame_base - 16)) result evaluation.new }
{
    let address = u64::from(frame_base);
    with_frame_base(frame_base);
    ask_frame_base(evaluation)?;
    let replied = evaluation.resume_with_frame_base(address);
    step_outcome(
        evaluation,
        &replied,
        below_frame_base(),
        ENCODING,
        Step::FrameBase(address),
    );
    replied
}

/// Evaluates `DW_OP_lit0` to `DW_OP_lit31`: the variable is at the address that the opcode names.
pub fn evaluate_literal<'a, S: EvaluationStorage<Bytes<'a>>>(
    evaluation: &mut Evaluation<Bytes<'a>, S>,
    bytes: Bytes<'a>,
    number: u8,
) -> Result<EvaluationResult<Bytes<'a>>>
    requires range { number < 32 }
    requires opcode { slice_text bytes ≡ text ((0x30 + number) ∷ []) }
    ensures { GivesOutcome slice_text (λ x. x) dwarf4 (text ((0x30 + number) ∷ [])) unset []
        (value_at number number) result evaluation.new }
{
    literal(number);
    evaluation.restart(bytes, ENCODING);
    let replied = evaluation.evaluate();
    step_outcome(evaluation, &replied, bytes, ENCODING, Step::Evaluate);
    replied
}
