//! Bytes, and what they mean: the prover computes it.
#![tactic(auto, using(dwarf_expr::proofs::Computing::few_turns), unfolding(dwarf_base::specs::Leb::sleb_at, dwarf_value::specs::Values::integer_of, dwarf_value::specs::Values::word_integer, dwarf_meaning::specs::Acts::act, dwarf_meaning::specs::Acts::on_top, dwarf_meaning::specs::Acts::use_of, dwarf_meaning::specs::Decoding::operation_at, dwarf_meaning::specs::Kinds::is_same_kind, dwarf_meaning::specs::Meaning::meaning, dwarf_meaning::specs::Opcodes::row_of, dwarf_meaning::specs::Run::most_operations, dwarf_meaning::specs::Run::run_for, dwarf_meaning::specs::Stores::push_piece, dwarf_meaning::specs::Stores::push_value))]

ghost use Rattle.std.specs.Prelude.{◌≡◌, ◌+◌, ◌-◌, ◌≤◌, ◌<◌, [], ◌∷◌, None};
ghost use Rattle.dwarf_expr.specs.Value.TheVariants.{Generic};
ghost use Rattle.dwarf_expr.specs.WaitingKind.TheVariants.{FrameBase};
ghost use Rattle.dwarf_expr.specs.EndianSlice.{slice_text};
ghost use Rattle.dwarf_expr.specs.Locations.{HoldsValue};
ghost use Rattle.dwarf_expr.specs.Meaning.{CompleteOutcome, RequestOutcome, meaning, whole_piece};
ghost use Rattle.dwarf_expr.specs.Refusals.{Never};
ghost use Rattle.dwarf_expr.specs.Requests.{NumberAnswer, RequiresFrameBase};
ghost use Rattle.dwarf_expr.specs.RowWords.{dwarf4, inputs_of, open_at, text, unset, value_at};

use crate::Bytes;
use dwarf_expr::base::{EndianSlice, RunTimeEndian};

/// `DW_OP_lit3`, `DW_OP_stack_value`: the variable isn't in memory, and has the value 3.
pub fn three<'a>() -> Bytes<'a>
    ensures spells { slice_text result ≡ text (0x33 ∷ 0x9f ∷ []) }
    ensures means { meaning dwarf4 Never (text (0x33 ∷ 0x9f ∷ [])) unset []
        ≡ CompleteOutcome (whole_piece (HoldsValue (Generic 3)) ∷ []) None }
{
    EndianSlice::new(&[0x33, 0x9f], RunTimeEndian::Little)
}

/// `DW_OP_fbreg -16`: the variable is 16 bytes below the frame base, which is asked for.
pub fn below_frame_base<'a>() -> Bytes<'a>
    ensures spells { slice_text result ≡ text (0x91 ∷ 0x70 ∷ []) }
    ensures asks { meaning dwarf4 Never (text (0x91 ∷ 0x70 ∷ [])) unset []
        ≡ RequestOutcome RequiresFrameBase (open_at (0x91 ∷ 0x70 ∷ []) 2 ∷ []) }
{
    EndianSlice::new(&[0x91, 0x70], RunTimeEndian::Little)
}

/// A law: what `DW_OP_fbreg -16` gives for a frame base.
pub fn with_frame_base(frame_base: u32)
    requires { 16 ≤ frame_base }
    ensures { meaning dwarf4 Never (text (0x91 ∷ 0x70 ∷ [])) unset
        (inputs_of unset (NumberAnswer FrameBase frame_base ∷ [])) ≡ value_at (frame_base - 16) (frame_base - 16) }
{}

/// A law: what `DW_OP_lit0` to `DW_OP_lit31` give.
#[tactic(auto, using(dwarf_expr::proofs::Computing::few_turns, dwarf_expr::proofs::Computing::literal_row), unfolding(dwarf_value::specs::Values::integer_of, dwarf_value::specs::Values::word_integer, dwarf_meaning::specs::Acts::act, dwarf_meaning::specs::Acts::on_top, dwarf_meaning::specs::Acts::use_of, dwarf_meaning::specs::Decoding::operation_at, dwarf_meaning::specs::Kinds::is_same_kind, dwarf_meaning::specs::Meaning::meaning, dwarf_meaning::specs::Run::most_operations, dwarf_meaning::specs::Run::run_for, dwarf_meaning::specs::Stores::push_piece, dwarf_meaning::specs::Stores::push_value))]
pub fn literal(number: u8)
    requires { number < 32 }
    ensures { meaning dwarf4 Never (text ((0x30 + number) ∷ [])) unset [] ≡ value_at number number }
{}
