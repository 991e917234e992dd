//! Worked rows that show how tight the bounds are.

ghost use Rattle.std.specs.Prelude.{◌≡◌, ◌<◌, [], ◌∷◌, None, Some, length};
ghost use Rattle.dwarf_value.specs.declared.types.Value.TheVariants.{Generic};
ghost use Rattle.dwarf_meaning.specs.Locations.{AtAddress, InRegister};
ghost use Rattle.dwarf_meaning.specs.Bounds.{DecodesOnce, IsUnspent, Spends, calls_left};
ghost use Rattle.dwarf_base.specs.Reads.{Text};
ghost use Rattle.dwarf_meaning.specs.Inputs.{fresh_state};
ghost use Rattle.dwarf_meaning.specs.Refusals.{After, MayPick};
ghost use Rattle.dwarf_meaning.specs.Rest.{Start};
ghost use Rattle.dwarf_meaning.specs.Stores.{Setup};
ghost use Rattle.dwarf_meaning.specs.RunLaws.{CountsWithin, ListsWithin, turns_left};
ghost use Rattle.dwarf_meaning.specs.DecodeLaws.{AreBytes};
ghost use Rattle.dwarf_meaning.specs.RowWords.{no_limits, open_at, dwarf4};
ghost use Rattle.dwarf_laws.specs.Inlining.{CallSite, inlined_text, IsInlinable};
ghost use Rattle.dwarf_laws.specs.LawRows.{IsTight, byte_at, course_over, in_fault, with_waiting, sample};

/// Worked rows of the bounds on lists and decodings.
///
/// It does nothing. Each clause of its contract gives a state after one operation for which a bound holds, and a state
/// for which it doesn't, with one value, caller or decoding more or less.
pub fn tight_bounds()
    ensures values { IsTight (sample 1 1 (Generic 5 ∷ []) [] [])
        (sample 1 1 (Generic 5 ∷ Generic 6 ∷ []) [] []) }
    ensures callers { IsTight (sample 1 1 [] (open_at [] 0 ∷ []) [])
        (sample 1 1 [] (open_at [] 0 ∷ open_at [] 0 ∷ []) []) }
    ensures pieces { IsTight (sample 1 2 [] [] (byte_at (InRegister 0) ∷ []))
        (sample 1 2 [] [] (byte_at (InRegister 0) ∷ byte_at (InRegister 0) ∷ [])) }
    ensures decodings { IsTight (sample 1 2 [] [] (byte_at (InRegister 0) ∷ []))
        (sample 1 3 [] [] (byte_at (InRegister 0) ∷ [])) }
    ensures each { IsTight (sample 1 2 [] [] (byte_at (InRegister 0) ∷ []))
        (sample 1 1 [] [] (byte_at (InRegister 0) ∷ [])) }
    ensures no_other { IsTight (sample 1 1 (Generic 5 ∷ []) [] [])
        (sample 1 2 (Generic 5 ∷ []) [] []) }
{}

/// Worked rows of the other bounds: on decodings at a fault and at a location, on callers and decodings alone, on
/// calls, turns, counts and limits, on what may be refused, and on the length of an inlined text.
///
/// It does nothing. Each clause of its contract gives a case for which a bound just holds, or one for which it just
/// doesn't.
#[tactic(auto, unfolding(dwarf_meaning::specs::Run::most_operations))]
pub fn bound_rows()
    ensures fault { DecodesOnce (in_fault (sample 1 2 [] [] [])) }
    ensures fault_decoded_twice { DecodesOnce (in_fault (sample 1 3 [] [] [])) → ⊥ }
    ensures location { DecodesOnce (with_waiting (InRegister 0) (sample 1 1 [] [] [])) }
    ensures location_at_an_address { DecodesOnce
        (with_waiting (AtAddress 0) (sample 1 1 [] [] [])) → ⊥ }
    ensures piece_at_an_address { DecodesOnce
        (sample 1 2 [] [] (byte_at (AtAddress 0) ∷ [])) → ⊥ }
    ensures one_item_more { Spends 1 (sample 0 0 [] [] [])
        (sample 1 1 (Generic 5 ∷ Generic 6 ∷ []) [] []) }
    ensures one_caller_more { Spends 1 (sample 0 0 [] [] [])
        (sample 1 1 [] (open_at [] 0 ∷ open_at [] 0 ∷ []) []) → ⊥ }
    ensures two_decodings { Spends 0 (sample 0 1 [] [] []) (sample 1 3 [] [] []) }
    ensures three_decodings { Spends 0 (sample 0 1 [] [] []) (sample 1 4 [] [] []) → ⊥ }
    ensures unspent { (setup : Setup) (text : Text) → IsUnspent (fresh_state setup text) }
    ensures initial_value_is_due { IsUnspent
        (record (sample 0 0 [] [] []) { status = Start (Some 1) }) → ⊥ }
    ensures all_calls { calls_left (sample 0 0 [] [] []) ≡ 4294967296 }
    ensures last_call { calls_left (sample 4294967295 0 [] [] []) ≡ 1 }
    ensures no_call_after_a_fault { calls_left (in_fault (sample 0 0 [] [] [])) ≡ 0 }
    ensures last_turns { turns_left
        (with_waiting (InRegister 0) (sample 4294967294 0 [] [] [])).store ≡ 3 }
    ensures counts_up_to_the_bound { CountsWithin 3 1
        (course_over (open_at [] 0 ∷ open_at [] 0 ∷ [])) }
    ensures counts_past_the_bound { CountsWithin 3 1
        (course_over (open_at [] 0 ∷ open_at [] 0 ∷ open_at [] 0 ∷ [])) → ⊥ }
    ensures values_at_the_limit { ListsWithin (record no_limits { values = Some 1 })
        (sample 1 1 (Generic 5 ∷ []) [] []).store }
    ensures values_past_the_limit { ListsWithin (record no_limits { values = Some 1 })
        (sample 1 1 (Generic 5 ∷ Generic 6 ∷ []) [] []).store → ⊥ }
    ensures pieces_at_the_limit { ListsWithin (record no_limits { pieces = Some 1 })
        (sample 1 1 [] [] (byte_at (AtAddress 1) ∷ [])).store }
    ensures pieces_past_the_limit { ListsWithin (record no_limits { pieces = Some 0 })
        (sample 1 1 [] [] (byte_at (AtAddress 1) ∷ [])).store → ⊥ }
    ensures refusal_without_a_limit { MayPick
        (record { values = Some 1; callers = Some 1; pieces = None }) (After 0 0) }
    ensures refusal_within_limits { MayPick
        (record { values = Some 1; callers = Some 1; pieces = Some 1 }) (After 0 0) → ⊥ }
    ensures longest_inlined_text { (site : CallSite) → 0 < length site.callee → AreBytes site.callee
        → length (inlined_text site).bytes ≡ 4294934527
        → IsInlinable (record dwarf4 { offset_bits = 32 }) site }
    ensures text_one_byte_longer { (site : CallSite) → length (inlined_text site).bytes ≡ 4294934528
        → IsInlinable (record dwarf4 { offset_bits = 32 }) site → ⊥ }
{}
