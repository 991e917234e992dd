//! An evaluation in the caller's memory.

ghost use Rattle.std.specs.Prelude.{◌≡◌, Option, None, Some};
ghost use Rattle.dwexpr_c.specs.declared.memory.Held.{Held};
ghost use Rattle.dwexpr_c.specs.Held.{IsUnstarted};

use crate::places::Placed;
use arrayvec::ArrayVec;
use dwarf_base::{Encoding, Format, Reader, RunTimeEndian};
use dwarf_eval::eval::Evaluation;
use dwarf_eval::store::EvaluationStorage;
use dwarf_op::Piece;
use dwarf_value::Value;
use std::marker::Model;

/// Lists of fixed capacities, so that nothing is allocated.
pub(crate) struct Fixed;

impl<R: Reader + Copy + Default> EvaluationStorage<R> for Fixed {
    type Stack = ArrayVec<Value, 64>;

    type ExpressionStack = ArrayVec<(R, R), 16>;

    type Result = ArrayVec<Piece<R>, 32>;
}

/// An evaluation, and the byte order of its texts.
#[derive(Drop)]
pub struct Held<'a> {
    pub(crate) evaluation: Evaluation<Placed<'a>, Fixed>,
    pub(crate) order: RunTimeEndian,
}

/// An evaluation of no bytes, for the time before the first start.
pub(crate) fn fresh_held<'a>() -> Held<'a>
    ensures { IsUnstarted result }
{
    let order = RunTimeEndian::Little;
    let encoding = Encoding {
        address_size: 8,
        format: Format::Dwarf32,
        version: 5,
    };
    Held {
        evaluation: Evaluation::new_in(
            Placed::new(&[], order, 0),
            encoding,
            ArrayVec::new(),
            ArrayVec::new(),
            ArrayVec::new(),
        ),
        order,
    }
}

/// The caller's memory for an evaluation.
#[repr(C)]
#[derive(Drop)]
pub struct DwexprMemory {
    byte: u8,
}

/// A caller's handle of an evaluation: the address of its memory. The field `held` exists only for contracts.
#[repr(C)]
#[derive(Drop)]
pub struct DwexprEvaluation {
    memory: *mut DwexprMemory,
    pub ghost held: { Option Held },
}

impl Model for DwexprEvaluation {
    ghost use Rattle.dwexpr_c.specs.Owned.{owned_at};

    ghost also_owns = { λ h. owned_at h.memory h.held };
}

impl DwexprEvaluation {
    ghost use Rattle.std.specs.Borrow.{Lends, sem};
    ghost use Rattle.dwexpr_c.specs.Held.{IsBegun};
    ghost use Rattle.dwexpr_c.specs.Owned.{held_row};
    ghost use Rattle.dwexpr_c.specs.contracts.memory.DwexprEvaluation.{the_row};

    /// The evaluation.
    pub(crate) fn get(&mut self) -> &mut Held<'static>
        requires { IsBegun self.old.held }
        ensures* writes_back { sem 𝓛
            (Lends the_row held_row self.entry result (λ w. record self.old { held = Some w })) }
        ensures held { self.old.held ≡ Some result.now }
    {
        unsafe { &mut *(self.memory as *mut Held<'static>) }
    }

    /// Writes an evaluation to the memory.
    pub(crate) fn fill(&mut self, held: Held<'static>)
        requires { self.old.held ≡ None }
        ensures { self.new.held ≡ Some held.entry }
    {
        unsafe { (self.memory as *mut Held<'static>).write(held) };
    }
}
