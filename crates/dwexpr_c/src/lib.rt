//! DWARF expressions, decoded and evaluated, for callers in C. `include/dwexpr.h` declares what is exported.
//!
//! No call allocates memory or calls back. `dwexpr_decode` and the calls on values and types keep no state; the calls
//! `dwexpr_evaluation_..` keep an evaluation in the caller's memory.
#![tactic(auto)]

mod answer_kinds;
mod answers;
mod computing;
mod decoding;
mod encodings;
mod evaluations;
mod faults;
mod memory;
mod operations;
mod outcomes;
mod piece_kinds;
mod pieces;
mod places;
mod requests;
mod settings;
mod texts;
mod types;
mod values;

use crate::answers::DwexprAnswer;
use crate::encodings::DwexprEncoding;
use crate::memory::DwexprEvaluation;
use crate::operations::DwexprOperation;
use crate::outcomes::DwexprOutcome;
use crate::pieces::DwexprPiece;
use crate::settings::DwexprSettings;
use crate::texts::DwexprText;
use crate::values::DwexprValue;

// The sizes that `include/dwexpr.h` asserts of the same structs, on a machine with words of 64 bits.
const _: () = prove!(size_of::<DwexprEncoding>() == 4);

const _: () = prove!(size_of::<DwexprOperation>() == 88);

const _: () = prove!(size_of::<DwexprText>() == 16);

const _: () = prove!(size_of::<DwexprAnswer>() == 24);

const _: () = prove!(size_of::<DwexprSettings>() == 24);

const _: () = prove!(size_of::<DwexprOutcome>() == 96);

const _: () = prove!(size_of::<DwexprPiece>() == 72);

const _: () = prove!(size_of::<DwexprEvaluation>() == 8);

const _: () = prove!(size_of::<DwexprValue>() == 16);
