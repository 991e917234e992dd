//! Laws over two evaluations of DWARF expressions.
#![tactic(auto)]

mod bounds;
mod rows;

ghost use Rattle.std.specs.Prelude.{ℕ};
ghost use Rattle.dwarf_meaning.specs.Steps.{empty_log};
ghost use Rattle.dwarf_meaning.specs.Agreement.{AgreeingLogs};
ghost use Rattle.dwarf_laws.specs.Inlining.{Inlining};
ghost use Rattle.dwarf_laws.specs.TwoRuns.{TwoRuns};

pub use bounds::{bound_rows, tight_bounds};
pub use rows::{called_rows, premises_of_high_bits, premises_of_inlining, twin_rows};

/// Bits above the address size change no request, fault, branch or address.
///
/// It does nothing. Its contract states the law for two evaluations that go on after agreeing logs. It also states that
/// empty logs agree, so the law covers evaluations from their beginning.
pub fn high_bits()
    ensures onwards { TwoRuns }
    ensures from_the_beginning { (bits : ℕ) → AgreeingLogs bits empty_log empty_log }
{}

/// A called text may be written in place of its call.
///
/// It does nothing. Its contract states the law.
pub fn inlining()
    ensures { Inlining }
{}
