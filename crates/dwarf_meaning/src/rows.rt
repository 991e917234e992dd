#![tactic(auto, using(crate::proofs::Turns::few_turns), unfolding(dwarf_base::specs::Leb::uleb_at, dwarf_base::specs::Leb::sleb_at, dwarf_base::specs::Reads::fixed_at, dwarf_value::specs::Values::type_of, dwarf_value::specs::Values::bit_size_of, dwarf_value::specs::Values::is_signed, dwarf_value::specs::Values::is_same, dwarf_value::specs::Values::word_integer, dwarf_value::specs::Values::integer_of, dwarf_value::specs::Values::value_of, crate::specs::Acts::on_top, crate::specs::Acts::on_result, crate::specs::Acts::act, crate::specs::Acts::use_of, crate::specs::Kinds::is_same_kind, crate::specs::Decoding::operation_at, crate::specs::Opcodes::row_of, crate::specs::Stores::push_value, crate::specs::Stores::push_piece, crate::specs::Stores::push_caller, crate::specs::Run::most_operations, crate::specs::Run::run_for, crate::specs::Meaning::meaning))]

ghost use Rattle.std.specs.Prelude.{◌≡◌, [], ◌∷◌, Some, pos, negsuc};
ghost use Rattle.dwarf_base.specs.declared.errors.Error.TheVariants.{NotEnoughStackItems, BadBranchTarget, TooManyIterations, InvalidPiece, InvalidExpressionTerminator, StackFull};
ghost use Rattle.dwarf_value.specs.declared.types.Value.TheVariants.{Generic};
ghost use Rattle.dwarf_meaning.specs.Operations.{UnitRef};
ghost use Rattle.dwarf_meaning.specs.Locations.{InRegister, AtAddress};
ghost use Rattle.dwarf_meaning.specs.Stores.{Store, Goes, FaultNext, branch, branch_target};
ghost use Rattle.dwarf_meaning.specs.declared.kinds.WaitingKind.TheVariants as kind;
ghost use Rattle.dwarf_meaning.specs.Requests.{RequiresCallFrameCfa, RequiresAtLocation, RequiresRelocatedAddress, ValueAnswer, NumberAnswer};
ghost use Rattle.dwarf_meaning.specs.Refusals.{Never, After};
ghost use Rattle.dwarf_meaning.specs.Meaning.{RequestOutcome, FaultOutcome, meaning};
ghost use Rattle.dwarf_meaning.specs.RowWords.{text, no_limits, with_limits, dwarf4, at_most, unset, inputs_of, callee, open_at, word_at, value_at, pieces_only};

/// Worked rows: the outcomes of single expressions, computed from the definitions, with nothing assumed.
///
/// It does nothing. Each clause of its contract gives the bytes of a text, the settings, the answers and the outcome: a
/// request with the open texts and places, a fault, or pieces and perhaps a value.
pub fn worked_rows()
    ensures sum { meaning dwarf4 Never (text (0x33 ∷ 0x35 ∷ 0x22 ∷ [])) unset [] ≡ value_at 8 8 }
    ensures nothing { meaning dwarf4 Never (text []) unset [] ≡ FaultOutcome NotEnoughStackItems }
    ensures initial_value { meaning dwarf4 Never (text [])
        (record unset { initial_value = Some 0x100000005 }) [] ≡ value_at 0x100000005 5 }
    ensures branch_of_zero_up_to_the_address { meaning dwarf4 Never
        (text (0x28 ∷ 0x04 ∷ 0x00 ∷ 0x31 ∷ 0x2f ∷ 0x01 ∷ 0x00 ∷ 0x32 ∷ []))
        (record unset { initial_value = Some 0x100000000 }) [] ≡ value_at 1 1 }
    ensures branch_of_nothing { (s : Store) → branch 5 (branch_target dwarf4 0 (pos 0)) s ≡ Goes 0 s }
    ensures branch_before_the_start { (s : Store) → branch 5 (branch_target dwarf4 0 (negsuc 0)) s
        ≡ FaultNext (BadBranchTarget 18446744073709551615) }
    ensures branch_to_the_end { (s : Store) → branch 5 (branch_target dwarf4 0 (pos 5)) s ≡ Goes 5 s }
    ensures branch_back { (s : Store) → branch 5 (branch_target dwarf4 3 (negsuc 1)) s ≡ Goes 1 s }
    ensures branch_ahead { (s : Store) → branch 5 (branch_target dwarf4 2 (pos 2)) s ≡ Goes 4 s }
    ensures value_after_piece { meaning dwarf4 Never (text (0x31 ∷ 0x93 ∷ 0x04 ∷ 0x31 ∷ [])) unset []
        ≡ FaultOutcome InvalidPiece }
    ensures endless_loop { meaning dwarf4 Never (text (0x2f ∷ 0xfd ∷ 0xff ∷ [])) (at_most 3) []
        ≡ FaultOutcome TooManyIterations }
    ensures call_asks { meaning dwarf4 Never (text (0x98 ∷ 0x05 ∷ 0x00 ∷ 0x93 ∷ 0x04 ∷ []))
        (at_most 2) []
        ≡ RequestOutcome (RequiresAtLocation (UnitRef 5))
        (open_at (0x98 ∷ 0x05 ∷ 0x00 ∷ 0x93 ∷ 0x04 ∷ []) 3 ∷ []) }
    ensures call_gives_location { meaning dwarf4 Never (text (0x98 ∷ 0x05 ∷ 0x00 ∷ 0x93 ∷ 0x04 ∷ []))
        (at_most 2) (inputs_of (at_most 2) (callee (0x50 ∷ []) ∷ []))
        ≡ pieces_only (word_at (InRegister 0) ∷ []) }
    ensures call_asks_at_maximum { meaning dwarf4 Never
        (text (0x98 ∷ 0x05 ∷ 0x00 ∷ 0x93 ∷ 0x04 ∷ [])) (at_most 1) []
        ≡ RequestOutcome (RequiresAtLocation (UnitRef 5))
        (open_at (0x98 ∷ 0x05 ∷ 0x00 ∷ 0x93 ∷ 0x04 ∷ []) 3 ∷ []) }
    ensures callee_past_maximum { meaning dwarf4 Never (text (0x98 ∷ 0x05 ∷ 0x00 ∷ 0x93 ∷ 0x04 ∷ []))
        (at_most 1) (inputs_of (at_most 1) (callee (0x50 ∷ []) ∷ []))
        ≡ FaultOutcome TooManyIterations }
    ensures call_of_nothing { meaning dwarf4 Never (text (0x31 ∷ 0x98 ∷ 0x05 ∷ 0x00 ∷ [])) unset
        (inputs_of unset (callee [] ∷ [])) ≡ value_at 1 1 }
    ensures callee_shares_stack { meaning dwarf4 Never (text (0x31 ∷ 0x98 ∷ 0x05 ∷ 0x00 ∷ [])) unset
        (inputs_of unset (callee (0x12 ∷ 0x22 ∷ []) ∷ [])) ≡ value_at 2 2 }
    ensures callee_skips_to_its_end { meaning dwarf4 Never (text (0x98 ∷ 0x05 ∷ 0x00 ∷ 0x33 ∷ []))
        unset (inputs_of unset (callee (0x2f ∷ 0x00 ∷ 0x00 ∷ []) ∷ [])) ≡ value_at 3 3 }
    ensures callee_skips_past_its_end { meaning dwarf4 Never (text (0x98 ∷ 0x05 ∷ 0x00 ∷ 0x33 ∷ []))
        unset (inputs_of unset (callee (0x2f ∷ 0x01 ∷ 0x00 ∷ []) ∷ []))
        ≡ FaultOutcome (BadBranchTarget 4) }
    ensures callee_ends_in_location { meaning dwarf4 Never (text (0x98 ∷ 0x05 ∷ 0x00 ∷ 0x31 ∷ []))
        unset (inputs_of unset (callee (0x50 ∷ []) ∷ []))
        ≡ FaultOutcome (InvalidExpressionTerminator 3) }
    ensures four_calls_of_itself { meaning (with_limits (record no_limits { callers = Some 4 }))
        Never (text (0x98 ∷ 0x01 ∷ 0x00 ∷ [])) unset
        (inputs_of unset
        (callee (0x98 ∷ 0x01 ∷ 0x00 ∷ []) ∷ callee (0x98 ∷ 0x01 ∷ 0x00 ∷ []) ∷ callee
        (0x98 ∷ 0x01 ∷ 0x00 ∷ []) ∷ callee (0x98 ∷ 0x01 ∷ 0x00 ∷ []) ∷ []))
        ≡ RequestOutcome (RequiresAtLocation (UnitRef 1))
        (open_at (0x98 ∷ 0x01 ∷ 0x00 ∷ []) 3 ∷ open_at (0x98 ∷ 0x01 ∷ 0x00 ∷ []) 3 ∷ open_at
        (0x98 ∷ 0x01 ∷ 0x00 ∷ []) 3 ∷ open_at (0x98 ∷ 0x01 ∷ 0x00 ∷ []) 3 ∷ open_at
        (0x98 ∷ 0x01 ∷ 0x00 ∷ []) 3 ∷ []) }
    ensures five_calls_of_itself { meaning (with_limits (record no_limits { callers = Some 4 }))
        Never (text (0x98 ∷ 0x01 ∷ 0x00 ∷ [])) unset
        (inputs_of unset
        (callee (0x98 ∷ 0x01 ∷ 0x00 ∷ []) ∷ callee (0x98 ∷ 0x01 ∷ 0x00 ∷ []) ∷ callee
        (0x98 ∷ 0x01 ∷ 0x00 ∷ []) ∷ callee (0x98 ∷ 0x01 ∷ 0x00 ∷ []) ∷ callee
        (0x98 ∷ 0x01 ∷ 0x00 ∷ []) ∷ [])) ≡ FaultOutcome StackFull }
    ensures literal_after_location { meaning dwarf4 Never (text (0x50 ∷ 0x31 ∷ [])) unset []
        ≡ FaultOutcome (InvalidExpressionTerminator 1) }
    ensures longer_literal_after_location { meaning dwarf4 Never (text (0x50 ∷ 0x08 ∷ 0x07 ∷ []))
        unset [] ≡ FaultOutcome (InvalidExpressionTerminator 2) }
    ensures address_asks { meaning dwarf4 Never
        (text (0x31 ∷ 0x93 ∷ 0x04 ∷ 0x03 ∷ 0x10 ∷ 0x00 ∷ 0x00 ∷ 0x00 ∷ [])) unset []
        ≡ RequestOutcome (RequiresRelocatedAddress 0x10)
        (open_at (0x31 ∷ 0x93 ∷ 0x04 ∷ 0x03 ∷ 0x10 ∷ 0x00 ∷ 0x00 ∷ 0x00 ∷ []) 8 ∷ []) }
    ensures address_after_piece { meaning dwarf4 Never
        (text (0x31 ∷ 0x93 ∷ 0x04 ∷ 0x03 ∷ 0x10 ∷ 0x00 ∷ 0x00 ∷ 0x00 ∷ [])) unset
        (inputs_of unset (NumberAnswer kind.RelocatedAddress 0x10 ∷ []))
        ≡ FaultOutcome InvalidPiece }
    ensures frame_address_after_piece { meaning dwarf4 Never (text (0x31 ∷ 0x93 ∷ 0x04 ∷ 0x9c ∷ []))
        unset (inputs_of unset (NumberAnswer kind.CallFrameCfa 1 ∷ []))
        ≡ FaultOutcome InvalidPiece }
    ensures call_of_nothing_after_piece { meaning dwarf4 Never
        (text (0x31 ∷ 0x93 ∷ 0x04 ∷ 0x98 ∷ 0x05 ∷ 0x00 ∷ [])) unset
        (inputs_of unset (callee [] ∷ []))
        ≡ pieces_only (word_at (AtAddress 1) ∷ []) }
    ensures call_of_nop_after_piece { meaning dwarf4 Never
        (text (0x31 ∷ 0x93 ∷ 0x04 ∷ 0x98 ∷ 0x05 ∷ 0x00 ∷ [])) unset
        (inputs_of unset (callee (0x96 ∷ []) ∷ [])) ≡ FaultOutcome InvalidPiece }
    ensures called_frame_address_after_piece { meaning dwarf4 Never
        (text (0x31 ∷ 0x93 ∷ 0x04 ∷ 0x98 ∷ 0x05 ∷ 0x00 ∷ [])) unset
        (inputs_of unset (callee (0x9c ∷ []) ∷ NumberAnswer kind.CallFrameCfa 1 ∷ []))
        ≡ FaultOutcome InvalidPiece }
    ensures call_of_nothing_last { meaning dwarf4 Never
        (text (0x31 ∷ 0x93 ∷ 0x04 ∷ 0x9c ∷ 0x98 ∷ 0x05 ∷ 0x00 ∷ [])) unset
        (inputs_of unset (NumberAnswer kind.CallFrameCfa 1 ∷ callee [] ∷ [])) ≡ pieces_only
        (word_at (AtAddress 1) ∷ []) }
    ensures piece_last { meaning dwarf4 Never (text (0x31 ∷ 0x93 ∷ 0x04 ∷ 0x9c ∷ 0x93 ∷ 0x04 ∷ []))
        unset (inputs_of unset (NumberAnswer kind.CallFrameCfa 2 ∷ []))
        ≡ pieces_only (word_at (AtAddress 1) ∷ word_at (AtAddress 2) ∷ []) }
    ensures frame_address { meaning dwarf4 Never (text (0x9c ∷ [])) unset
        (inputs_of unset (NumberAnswer kind.CallFrameCfa 1 ∷ [])) ≡ value_at 1 1 }
    ensures register_offset { meaning dwarf4 Never (text (0x70 ∷ 0x7f ∷ [])) unset
        (inputs_of unset (ValueAnswer kind.Register (Generic 0) ∷ []))
        ≡ value_at 0xffffffff 0xffffffff }
    ensures register_offset_of_high_bits { meaning dwarf4 Never (text (0x70 ∷ 0x7f ∷ [])) unset
        (inputs_of unset (ValueAnswer kind.Register (Generic 0x500000000) ∷ []))
        ≡ value_at 0xffffffff 0xffffffff }
    ensures two_values_of_two { meaning (with_limits (record no_limits { values = Some 2 })) Never
        (text (0x31 ∷ 0x32 ∷ [])) unset [] ≡ value_at 2 2 }
    ensures three_values_of_two { meaning (with_limits (record no_limits { values = Some 2 })) Never
        (text (0x31 ∷ 0x32 ∷ 0x33 ∷ [])) unset [] ≡ FaultOutcome StackFull }
    ensures second_push_refused { meaning dwarf4 (After 0 1) (text (0x31 ∷ 0x32 ∷ [])) unset []
        ≡ FaultOutcome StackFull }
    ensures piece_refused { meaning dwarf4 (After 0 1) (text (0x31 ∷ [])) unset []
        ≡ FaultOutcome StackFull }
    ensures later_push_refused { meaning dwarf4 (After 0 2) (text (0x31 ∷ [])) unset []
        ≡ value_at 1 1 }
    ensures asks_before_refusal { meaning dwarf4 (After 1 0) (text (0x31 ∷ 0x9c ∷ [])) unset []
        ≡ RequestOutcome RequiresCallFrameCfa (open_at (0x31 ∷ 0x9c ∷ []) 2 ∷ []) }
    ensures answer_refused { meaning dwarf4 (After 1 0) (text (0x31 ∷ 0x9c ∷ [])) unset
        (inputs_of unset (NumberAnswer kind.CallFrameCfa 1 ∷ [])) ≡ FaultOutcome StackFull }
    ensures answer_of_another_kind { meaning dwarf4 Never (text (0x9c ∷ [])) unset
        (inputs_of unset (NumberAnswer kind.RelocatedAddress 1 ∷ []))
        ≡ RequestOutcome RequiresCallFrameCfa (open_at (0x9c ∷ []) 1 ∷ []) }
{}
