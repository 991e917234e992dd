//! Worked rows of the two laws over whole evaluations, and why the laws have their premises.

#![tactic(auto, using(dwarf_meaning::proofs::Turns::few_turns, crate::proofs::Premises::stands_in, crate::proofs::Premises::agree_alike, crate::proofs::Premises::end_ended, crate::proofs::Premises::agreeing_steps), unfolding(dwarf_base::specs::Leb::uleb_at, dwarf_base::specs::Leb::sleb_at, dwarf_base::specs::Reads::fixed_at, dwarf_value::specs::Values::type_of, dwarf_value::specs::Values::bit_size_of, dwarf_value::specs::Values::is_signed, dwarf_value::specs::Values::is_same, dwarf_value::specs::Values::word_integer, dwarf_value::specs::Values::integer_of, dwarf_value::specs::Values::value_of, dwarf_meaning::specs::Acts::on_top, dwarf_meaning::specs::Acts::on_result, dwarf_meaning::specs::Acts::act, dwarf_meaning::specs::Acts::use_of, dwarf_meaning::specs::Kinds::is_same_kind, dwarf_meaning::specs::Decoding::operation_at, dwarf_meaning::specs::Opcodes::row_of, dwarf_meaning::specs::Splitting::items_at, dwarf_meaning::specs::Stores::push_value, dwarf_meaning::specs::Stores::push_piece, dwarf_meaning::specs::Stores::push_caller, dwarf_meaning::specs::Run::most_operations, dwarf_meaning::specs::Run::run_for, dwarf_meaning::specs::Meaning::meaning))]

ghost use Rattle.std.specs.Prelude.{[], ◌∷◌, Some, None, true, false};
ghost use Rattle.dwarf_base.specs.declared.errors.Error.TheVariants.{StackFull, TooManyIterations, NotEnoughStackItems, InvalidPushObjectAddress, InvalidPiece, BadBranchTarget};
ghost use Rattle.dwarf_value.specs.declared.types.Value.TheVariants.{Generic, U8, U16, U32, U64};
ghost use Rattle.dwarf_value.specs.declared.types.ValueType.TheVariants as value_type;
ghost use Rattle.dwarf_meaning.specs.Operations.{UnitRef};
ghost use Rattle.dwarf_meaning.specs.Locations.{InRegister, AtAddress, HoldsValue};
ghost use Rattle.dwarf_meaning.specs.declared.kinds.WaitingKind.TheVariants as kind;
ghost use Rattle.dwarf_meaning.specs.Requests.{RequiresMemory, RequiresRegister, RequiresWasmLocal, RequiresWasmGlobal, RequiresWasmStack, RequiresFrameBase, RequiresTls, RequiresCallFrameCfa, RequiresAtLocation, RequiresEntryValue, RequiresParameterRef, RequiresRelocatedAddress, RequiresIndexedAddress, RequiresBaseType, ValueAnswer, NumberAnswer, LocationAnswer, BaseTypeAnswer};
ghost use Rattle.dwarf_meaning.specs.Refusals.{Never, After};
ghost use Rattle.dwarf_meaning.specs.Meaning.{RequestOutcome, FaultOutcome, CompleteOutcome, whole_piece};
ghost use Rattle.dwarf_meaning.specs.Steps.{InitialValue, ObjectAddress, RequestReply, CompleteReply, FaultReply};
ghost use Rattle.dwarf_meaning.specs.RowWords.{text, no_limits, with_limits, dwarf4, at_most, unset, inputs_of, callee, open_at, word_at, value_at, pieces_only};
ghost use Rattle.dwarf_laws.specs.LawRows.{started_steps, ComeAlike, call_site, IsWorked, Disagree, EndUnlike};

/// Worked rows of `high_bits`: two runs of one text whose answers differ only above the 32 bits of an address.
///
/// It does nothing. Each clause of its contract gives the limits, the bytes of the text, and the agreeing steps of both
/// runs; then the replies, which are the same for both, and the outcome of each.
pub fn twin_rows()
    ensures frame_address { ComeAlike dwarf4 (0x9c ∷ [])
        (started_steps (NumberAnswer kind.CallFrameCfa 0x10 ∷ []))
        (started_steps (NumberAnswer kind.CallFrameCfa 0x100000010 ∷ []))
        (RequestReply RequiresCallFrameCfa ∷ CompleteReply ∷ [])
        (value_at 0x10 0x10) (value_at 0x100000010 0x10) }
    ensures register { ComeAlike dwarf4 (0x70 ∷ 0x00 ∷ [])
        (started_steps (ValueAnswer kind.Register (Generic 5) ∷ []))
        (started_steps (ValueAnswer kind.Register (Generic 0x700000005) ∷ []))
        (RequestReply (RequiresRegister 0 0) ∷ CompleteReply ∷ []) (value_at 5 5) (value_at 5 5) }
    ensures frame_base { ComeAlike dwarf4 (0x91 ∷ 0x00 ∷ [])
        (started_steps (NumberAnswer kind.FrameBase 0x10 ∷ []))
        (started_steps (NumberAnswer kind.FrameBase 0x100000010 ∷ []))
        (RequestReply RequiresFrameBase ∷ CompleteReply ∷ [])
        (value_at 0x10 0x10) (value_at 0x100000010 0x10) }
    ensures tls { ComeAlike dwarf4 (0x35 ∷ 0x9b ∷ [])
        (started_steps (NumberAnswer kind.Tls 0x10 ∷ [])) (started_steps (NumberAnswer kind.Tls 0x100000010 ∷ []))
        (RequestReply (RequiresTls 5) ∷ CompleteReply ∷ [])
        (value_at 0x10 0x10) (value_at 0x100000010 0x10) }
    ensures parameter { ComeAlike dwarf4 (0xfa ∷ 0x05 ∷ 0x00 ∷ 0x00 ∷ 0x00 ∷ [])
        (started_steps (NumberAnswer kind.ParameterRef 0x10 ∷ []))
        (started_steps (NumberAnswer kind.ParameterRef 0x100000010 ∷ []))
        (RequestReply (RequiresParameterRef 5) ∷ CompleteReply ∷ [])
        (value_at 0x10 0x10) (value_at 0x100000010 0x10) }
    ensures relocated_address { ComeAlike dwarf4 (0x03 ∷ 0x05 ∷ 0x00 ∷ 0x00 ∷ 0x00 ∷ [])
        (started_steps (NumberAnswer kind.RelocatedAddress 0x10 ∷ []))
        (started_steps (NumberAnswer kind.RelocatedAddress 0x100000010 ∷ []))
        (RequestReply (RequiresRelocatedAddress 5) ∷ CompleteReply ∷ [])
        (value_at 0x10 0x10) (value_at 0x100000010 0x10) }
    ensures indexed_address { ComeAlike dwarf4 (0xa1 ∷ 0x05 ∷ [])
        (started_steps (NumberAnswer kind.IndexedAddress 0x10 ∷ []))
        (started_steps (NumberAnswer kind.IndexedAddress 0x100000010 ∷ []))
        (RequestReply (RequiresIndexedAddress 5 true) ∷ CompleteReply ∷ [])
        (value_at 0x10 0x10) (value_at 0x100000010 0x10) }
    ensures indexed_constant { ComeAlike dwarf4 (0xa2 ∷ 0x05 ∷ [])
        (started_steps (NumberAnswer kind.IndexedAddress 0x10 ∷ []))
        (started_steps (NumberAnswer kind.IndexedAddress 0x100000010 ∷ []))
        (RequestReply (RequiresIndexedAddress 5 false) ∷ CompleteReply ∷ [])
        (value_at 0x10 0x10) (value_at 0x100000010 0x10) }
    ensures wasm_local { ComeAlike dwarf4 (0xed ∷ 0x00 ∷ 0x05 ∷ [])
        (started_steps (ValueAnswer kind.WasmValue (Generic 0x10) ∷ []))
        (started_steps (ValueAnswer kind.WasmValue (Generic 0x100000010) ∷ []))
        (RequestReply (RequiresWasmLocal 5) ∷ CompleteReply ∷ [])
        (value_at 0x10 0x10) (value_at 0x100000010 0x10) }
    ensures wasm_global { ComeAlike dwarf4 (0xed ∷ 0x01 ∷ 0x05 ∷ [])
        (started_steps (ValueAnswer kind.WasmValue (Generic 0x10) ∷ []))
        (started_steps (ValueAnswer kind.WasmValue (Generic 0x100000010) ∷ []))
        (RequestReply (RequiresWasmGlobal 5) ∷ CompleteReply ∷ [])
        (value_at 0x10 0x10) (value_at 0x100000010 0x10) }
    ensures wasm_stack { ComeAlike dwarf4 (0xed ∷ 0x02 ∷ 0x05 ∷ [])
        (started_steps (ValueAnswer kind.WasmValue (Generic 0x10) ∷ []))
        (started_steps (ValueAnswer kind.WasmValue (Generic 0x100000010) ∷ []))
        (RequestReply (RequiresWasmStack 5) ∷ CompleteReply ∷ [])
        (value_at 0x10 0x10) (value_at 0x100000010 0x10) }
    ensures entry_value { ComeAlike dwarf4 (0xa3 ∷ 0x01 ∷ 0x9c ∷ [])
        (started_steps (ValueAnswer kind.EntryValue (Generic 0x10) ∷ []))
        (started_steps (ValueAnswer kind.EntryValue (Generic 0x100000010) ∷ []))
        (RequestReply (RequiresEntryValue (text (0x9c ∷ []))) ∷ CompleteReply ∷ [])
        (value_at 0x10 0x10) (value_at 0x100000010 0x10) }
    ensures memory { ComeAlike dwarf4 (0x9c ∷ 0x06 ∷ [])
        (started_steps (NumberAnswer kind.CallFrameCfa 0x10 ∷ ValueAnswer kind.Memory (Generic 0x10) ∷ []))
        (started_steps (NumberAnswer kind.CallFrameCfa 0x100000010
        ∷ ValueAnswer kind.Memory (Generic 0x100000010) ∷ []))
        (RequestReply RequiresCallFrameCfa ∷ RequestReply
        (RequiresMemory 0x10 4 None 0) ∷ CompleteReply ∷ [])
        (value_at 0x10 0x10) (value_at 0x100000010 0x10) }
    ensures called_text { ComeAlike dwarf4 (0x98 ∷ 0x05 ∷ 0x00 ∷ [])
        (started_steps (callee (0x9c ∷ []) ∷ NumberAnswer kind.CallFrameCfa 0x10 ∷ []))
        (started_steps (callee (0x9c ∷ []) ∷ NumberAnswer kind.CallFrameCfa 0x100000010 ∷ []))
        (RequestReply (RequiresAtLocation (UnitRef 5)) ∷ RequestReply
        RequiresCallFrameCfa ∷ CompleteReply ∷ [])
        (value_at 0x10 0x10) (value_at 0x100000010 0x10) }
    ensures value_of_a_piece { ComeAlike dwarf4 (0x9c ∷ 0x9f ∷ [])
        (started_steps (NumberAnswer kind.CallFrameCfa 0x10 ∷ []))
        (started_steps (NumberAnswer kind.CallFrameCfa 0x100000010 ∷ []))
        (RequestReply RequiresCallFrameCfa ∷ CompleteReply ∷ [])
        (pieces_only (whole_piece (HoldsValue (Generic 0x10)) ∷ []))
        (pieces_only (whole_piece (HoldsValue (Generic 0x100000010)) ∷ [])) }
    ensures shift { ComeAlike dwarf4 (0x9c ∷ 0x12 ∷ 0x24 ∷ [])
        (started_steps (NumberAnswer kind.CallFrameCfa 1 ∷ []))
        (started_steps (NumberAnswer kind.CallFrameCfa 0x100000001 ∷ []))
        (RequestReply RequiresCallFrameCfa ∷ CompleteReply ∷ []) (value_at 2 2) (value_at 2 2) }
    ensures branch { ComeAlike dwarf4 (0x31 ∷ 0x9c ∷ 0x28 ∷ 0x01 ∷ 0x00 ∷ 0x33 ∷ [])
        (started_steps (NumberAnswer kind.CallFrameCfa 0 ∷ []))
        (started_steps (NumberAnswer kind.CallFrameCfa 0x100000000 ∷ []))
        (RequestReply RequiresCallFrameCfa ∷ CompleteReply ∷ []) (value_at 3 3) (value_at 3 3) }
    ensures reinterpreted { ComeAlike dwarf4 (0x9c ∷ 0xa9 ∷ 0x09 ∷ [])
        (started_steps (NumberAnswer kind.CallFrameCfa 0x10 ∷ BaseTypeAnswer value_type.U32 ∷ []))
        (started_steps (NumberAnswer kind.CallFrameCfa 0x100000010 ∷ BaseTypeAnswer value_type.U32 ∷ []))
        (RequestReply RequiresCallFrameCfa ∷ RequestReply (RequiresBaseType 9) ∷ CompleteReply ∷ [])
        (CompleteOutcome (whole_piece (AtAddress 0x10) ∷ []) (Some (U32 0x10)))
        (CompleteOutcome (whole_piece (AtAddress 0x10) ∷ []) (Some (U32 0x10))) }
    ensures converted { ComeAlike dwarf4 (0x9c ∷ 0xa8 ∷ 0x09 ∷ [])
        (started_steps (NumberAnswer kind.CallFrameCfa 0x10 ∷ BaseTypeAnswer value_type.U64 ∷ []))
        (started_steps (NumberAnswer kind.CallFrameCfa 0x100000010 ∷ BaseTypeAnswer value_type.U64 ∷ []))
        (RequestReply RequiresCallFrameCfa ∷ RequestReply (RequiresBaseType 9) ∷ CompleteReply ∷ [])
        (CompleteOutcome (whole_piece (AtAddress 0x10) ∷ []) (Some (U64 0x10)))
        (CompleteOutcome (whole_piece (AtAddress 0x10) ∷ []) (Some (U64 0x10))) }
    ensures full_stack { ComeAlike (with_limits (record no_limits { values = Some 1 }))
        (0x9c ∷ 0x31 ∷ [])
        (started_steps (NumberAnswer kind.CallFrameCfa 0x10 ∷ []))
        (started_steps (NumberAnswer kind.CallFrameCfa 0x100000010 ∷ []))
        (RequestReply RequiresCallFrameCfa ∷ FaultReply StackFull ∷ []) (FaultOutcome StackFull)
        (FaultOutcome StackFull) }
    ensures object_address { ComeAlike dwarf4 (0x97 ∷ [])
        (ObjectAddress 0x10 ∷ started_steps []) (ObjectAddress 0x100000010 ∷ started_steps [])
        (CompleteReply ∷ []) (value_at 0x10 0x10) (value_at 0x100000010 0x10) }
    ensures initial_value { ComeAlike dwarf4 []
        (InitialValue 0x10 ∷ started_steps []) (InitialValue 0x100000010 ∷ started_steps [])
        (CompleteReply ∷ []) (value_at 0x10 0x10) (value_at 0x100000010 0x10) }
{}

/// Worked rows of `inlining`: calls, and the texts that answer them.
///
/// It does nothing. Each clause of its contract gives the bytes before and after a call, and the bytes that answer it;
/// the other answers before and after the call; the requests before and after the call; and the outcomes of the outer
/// text and of the inlined text. It states that every premise of the law holds.
pub fn called_rows()
    ensures sum { IsWorked (call_site (0x31 ∷ []) (0x22 ∷ []) (0x32 ∷ []))
        [] []
        [] [] (value_at 3 3) }
    ensures location { IsWorked (call_site [] (0x93 ∷ 0x04 ∷ []) (0x50 ∷ []))
        [] []
        [] [] (pieces_only (word_at (InRegister 0) ∷ [])) }
    ensures asks { IsWorked (call_site [] (0x9c ∷ 0x22 ∷ []) (0x9c ∷ []))
        [] (inputs_of unset
        (NumberAnswer kind.CallFrameCfa 1 ∷ NumberAnswer kind.CallFrameCfa 2 ∷ []))
        [] (RequiresCallFrameCfa ∷ RequiresCallFrameCfa ∷ []) (value_at 3 3) }
    ensures branches { IsWorked
        (call_site (0x31 ∷ []) (0x22 ∷ []) (0x32 ∷ 0x2f ∷ 0x01 ∷ 0x00 ∷ 0xff ∷ []))
        [] []
        [] [] (value_at 3 3) }
    ensures asked_before { IsWorked (call_site (0x9c ∷ []) (0x9c ∷ 0x22 ∷ []) (0x32 ∷ 0x22 ∷ []))
        (inputs_of unset (NumberAnswer kind.CallFrameCfa 1 ∷ []))
        (inputs_of unset (NumberAnswer kind.CallFrameCfa 2 ∷ []))
        (RequiresCallFrameCfa ∷ []) (RequiresCallFrameCfa ∷ []) (value_at 5 5) }
{}

/// Why `high_bits` has its premises: for each, the smallest two runs that break it, and their outcomes, which disagree.
///
/// It does nothing. Each clause of its contract gives the limits and the refusal of each run, the bytes of the text,
/// the settings and the answers of each run, and the outcome of each.
pub fn premises_of_high_bits()
    ensures limits_differ { Disagree dwarf4 (with_limits (record no_limits { values = Some 0 }))
        Never Never (0x31 ∷ []) unset unset
        [] [] (value_at 1 1) (FaultOutcome StackFull) }
    ensures refusals_differ { Disagree dwarf4 dwarf4 Never (After 0 0) (0x31 ∷ []) unset unset
        [] [] (value_at 1 1) (FaultOutcome StackFull) }
    ensures maxima_differ { Disagree dwarf4 dwarf4 Never Never (0x31 ∷ []) (at_most 1) (at_most 0)
        [] [] (value_at 1 1) (FaultOutcome TooManyIterations) }
    ensures one_initial_value { Disagree dwarf4 dwarf4 Never Never []
        (record unset { initial_value = Some 0 }) unset
        [] [] (value_at 0 0) (FaultOutcome NotEnoughStackItems) }
    ensures one_object_address { Disagree dwarf4 dwarf4 Never Never (0x97 ∷ [])
        (record unset { settings = record unset.settings { object_address = Some 0 } }) unset
        [] [] (value_at 0 0) (FaultOutcome InvalidPushObjectAddress) }
    ensures numbers_differ { Disagree dwarf4 dwarf4 Never Never (0x9c ∷ []) unset unset
        (inputs_of unset (NumberAnswer kind.CallFrameCfa 0 ∷ []))
        (inputs_of unset (NumberAnswer kind.CallFrameCfa 1 ∷ []))
        (value_at 0 0) (value_at 1 1) }
    ensures types_of_values_differ { Disagree dwarf4 dwarf4 Never Never (0x70 ∷ 0x00 ∷ []) unset
        unset
        (inputs_of unset (ValueAnswer kind.Register (U8 0) ∷ []))
        (inputs_of unset (ValueAnswer kind.Register (U16 0) ∷ []))
        (CompleteOutcome (whole_piece (AtAddress 0) ∷ []) (Some (U8 0)))
        (CompleteOutcome (whole_piece (AtAddress 0) ∷ []) (Some (U16 0))) }
    ensures typed_values_differ_above { Disagree dwarf4 dwarf4 Never Never (0x70 ∷ 0x00 ∷ []) unset
        unset
        (inputs_of unset (ValueAnswer kind.Register (U64 0) ∷ []))
        (inputs_of unset (ValueAnswer kind.Register (U64 0x100000000) ∷ []))
        (CompleteOutcome (whole_piece (AtAddress 0) ∷ []) (Some (U64 0)))
        (CompleteOutcome (whole_piece (AtAddress 0x100000000) ∷ []) (Some (U64 0x100000000))) }
    ensures texts_differ { Disagree dwarf4 dwarf4 Never Never (0x98 ∷ 0x05 ∷ 0x00 ∷ []) unset unset
        (inputs_of unset (callee (0x30 ∷ []) ∷ [])) (inputs_of unset (callee (0x31 ∷ []) ∷ []))
        (value_at 0 0) (value_at 1 1) }
    ensures types_differ { Disagree dwarf4 dwarf4 Never Never (0x30 ∷ 0xa8 ∷ 0x05 ∷ []) unset unset
        (inputs_of unset (BaseTypeAnswer value_type.U8 ∷ []))
        (inputs_of unset (BaseTypeAnswer value_type.U16 ∷ []))
        (CompleteOutcome (whole_piece (AtAddress 0) ∷ []) (Some (U8 0)))
        (CompleteOutcome (whole_piece (AtAddress 0) ∷ []) (Some (U16 0))) }
{}

/// Why `inlining` has its premises: for each, the smallest call that breaks it, and whose inlined text ends
/// differently.
///
/// It does nothing. Each clause of its contract gives the limits, the bytes of the outer and of the inlined text, the
/// settings, the answers to each text, and the outcome of each.
pub fn premises_of_inlining()
    ensures callers_have_a_limit { EndUnlike (with_limits (record no_limits { callers = Some 0 }))
        (0x98 ∷ 0x05 ∷ 0x00 ∷ []) (0x31 ∷ [])
        unset (inputs_of unset (callee (0x31 ∷ []) ∷ [])) [] (FaultOutcome StackFull)
        (value_at 1 1) }
    ensures outer_text_branches { EndUnlike dwarf4 (0x98 ∷ 0x05 ∷ 0x00 ∷ 0x2f ∷ 0xfa ∷ 0xff ∷ [])
        (0x31 ∷ 0x2f ∷ 0xfa ∷ 0xff ∷ [])
        unset (inputs_of unset (callee (0x31 ∷ []) ∷ [])) []
        (RequestOutcome (RequiresAtLocation (UnitRef 5))
        (open_at (0x98 ∷ 0x05 ∷ 0x00 ∷ 0x2f ∷ 0xfa ∷ 0xff ∷ []) 3 ∷ []))
        (FaultOutcome (BadBranchTarget 0xfffffffffffffffe)) }
    ensures callee_is_empty { EndUnlike dwarf4 (0x31 ∷ 0x93 ∷ 0x04 ∷ 0x31 ∷ 0x98 ∷ 0x05 ∷ 0x00 ∷ [])
        (0x31 ∷ 0x93 ∷ 0x04 ∷ 0x31 ∷ [])
        unset (inputs_of unset (callee [] ∷ [])) [] (pieces_only (word_at (AtAddress 1) ∷ []))
        (FaultOutcome InvalidPiece) }
    ensures callee_in_the_other_order { EndUnlike dwarf4 (0x98 ∷ 0x05 ∷ 0x00 ∷ [])
        (0x0a ∷ 0x01 ∷ 0x02 ∷ [])
        unset
        (inputs_of unset
        (LocationAnswer (record { bytes = 0x0a ∷ 0x01 ∷ 0x02 ∷ []; is_big = true }) ∷ [])) []
        (value_at 258 258) (value_at 513 513) }
    ensures offsets_are_narrow { EndUnlike (record dwarf4 { offset_bits = 2 })
        (0x31 ∷ 0x98 ∷ 0x01 ∷ 0x00 ∷ [])
        (0x31 ∷ 0x2f ∷ 0x00 ∷ 0x00 ∷ [])
        (at_most 3)
        (inputs_of (at_most 3) (callee (0x2f ∷ 0x00 ∷ 0x00 ∷ []) ∷ [])) [] (value_at 1 1)
        (FaultOutcome TooManyIterations) }
    ensures call_is_not_reached { EndUnlike dwarf4 (0x9c ∷ 0x98 ∷ 0x05 ∷ 0x00 ∷ []) (0x9c ∷ 0x31 ∷ [])
        unset (inputs_of unset (callee (0x31 ∷ []) ∷ NumberAnswer kind.CallFrameCfa 0 ∷ []))
        (inputs_of unset (NumberAnswer kind.CallFrameCfa 0 ∷ []))
        (RequestOutcome RequiresCallFrameCfa (open_at (0x9c ∷ 0x98 ∷ 0x05 ∷ 0x00 ∷ []) 1 ∷ []))
        (value_at 1 1) }
    ensures maximum_is_set_at_the_answer { EndUnlike dwarf4 (0x98 ∷ 0x05 ∷ 0x00 ∷ [])
        (0x31 ∷ 0x96 ∷ [])
        (at_most 1) (inputs_of (at_most 3) (callee (0x31 ∷ 0x96 ∷ []) ∷ [])) []
        (value_at 1 1) (FaultOutcome TooManyIterations) }
    ensures object_is_set_at_the_answer { EndUnlike dwarf4 (0x98 ∷ 0x05 ∷ 0x00 ∷ []) (0x97 ∷ [])
        unset (inputs_of
        (record unset { settings = record unset.settings { object_address = Some 7 } })
        (callee (0x97 ∷ []) ∷ [])) []
        (value_at 7 7)
        (FaultOutcome InvalidPushObjectAddress) }
    ensures outer_run_meets_a_fault { EndUnlike dwarf4 (0x98 ∷ 0x05 ∷ 0x00 ∷ []) (0x31 ∷ [])
        (at_most 1) (inputs_of (at_most 1) (callee (0x31 ∷ []) ∷ [])) []
        (FaultOutcome TooManyIterations) (value_at 1 1) }
{}
