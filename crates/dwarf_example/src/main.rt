//! Evaluates expressions on the heap, over lent slices and in a storage of its own, in three loops such as users write.
#![tactic(auto)]

ghost use Rattle.dwarf_expr.specs.Evaluation.{IsClosed};

mod listing;
mod meanings;
mod outcomes;
mod registers;
mod replays;
mod requests;
mod single;
mod storage;

use crate::listing::{first_number, first_operation};
use crate::outcomes::{evaluate_literal, evaluate_three, find_local};
use crate::registers::{complete_with_registers, complete_with_zeros};
use crate::replays::replay_bounded;
use crate::requests::{Process, complete, count_requests};
use crate::single::{is_taken, local_pieces, member_address};
use crate::storage::PieceInLine;
use dwarf_expr::base::{
    DebugAddrIndex, Encoding, EndianSlice, Error, Format, Reader, Register, Result, RunTimeEndian,
    UnitOffset,
};
use dwarf_expr::eval::Evaluation;
use dwarf_expr::op::{DieReference, Expression, Piece};
use dwarf_expr::replay::Step;
use dwarf_expr::store::{EvaluationStorage, OneInLine, SliceVec, StoreInSlices};
use dwarf_expr::value::{Value, ValueType};
use std::io;
use std::process::ExitCode;

type Bytes<'a> = EndianSlice<'a, RunTimeEndian>;

const ENCODING: Encoding = Encoding {
    address_size: 4,
    format: Format::Dwarf32,
    version: 4,
};

/// A stopped process, in one function.
#[derive(Clone, Copy)]
struct Stopped<'a> {
    registers: [u64; 2],
    frame_base: u64,
    cfa: u64,
    /// The expression of every called entry.
    called: Bytes<'a>,
}

impl<'a> Process<Bytes<'a>> for Stopped<'a> {
    /// In memory each byte is 7. In an address space each value is the space's number.
    fn memory(&self, _address: u64, size: u8, space: Option<u64>) -> Result<Value> {
        match (space, size) {
            (Some(number), _) => Ok(Value::Generic(number)),
            (None, 1) => Ok(Value::U8(0x07)),
            (None, 2) => Ok(Value::U16(0x0707)),
            (None, _) => Ok(Value::Generic(0x0707_0707)),
        }
    }

    fn register(&self, register: Register, _base_type: UnitOffset<usize>) -> Result<Value> {
        match self.registers.get(usize::from(register.0)) {
            Some(value) => Ok(Value::Generic(*value)),
            None => Err(Error::UnsupportedRegister(u64::from(register.0))),
        }
    }

    fn wasm_value(&self, index: u32) -> Result<Value> {
        Ok(Value::U32(index))
    }

    fn frame_base(&self) -> Result<u64> {
        Ok(self.frame_base)
    }

    fn call_frame_cfa(&self) -> Result<u64> {
        Ok(self.cfa)
    }

    fn thread_local(&self, offset: u64) -> Result<u64> {
        Ok(offset)
    }

    fn expression_at(&self, _entry: DieReference<usize>) -> Result<Bytes<'a>> {
        Ok(self.called)
    }

    fn entry_value(&self, _expression: Expression<Bytes<'a>>) -> Result<Value> {
        Ok(Value::Generic(0))
    }

    fn parameter(&self, _entry: UnitOffset<usize>) -> Result<u64> {
        Ok(0)
    }

    fn relocated(&self, address: u64) -> Result<u64> {
        Ok(address)
    }

    fn indexed_address(&self, _index: DebugAddrIndex<usize>, _relocate: bool) -> Result<u64> {
        Ok(0)
    }

    fn base_type(&self, _entry: UnitOffset<usize>) -> Result<ValueType> {
        Ok(ValueType::Generic)
    }
}

/// Prints the result of an evaluation that a debugger's loop completes.
fn show_complete<'a, S: EvaluationStorage<Bytes<'a>>>(
    rt: &HostRuntime,
    lists: &str,
    evaluation: &mut Evaluation<Bytes<'a>, S>,
    process: &Stopped<'a>,
) -> io::Result<()>
    requires { IsClosed evaluation.old.status }
{
    match complete(evaluation, process) {
        Ok(()) => println!(rt;
            "{lists}: {:?} {:?}",
            evaluation.value_result(),
            evaluation.as_result()
        ),
        Err(error) => println!(rt; "{lists}: {error:?}"),
    }
}

/// Prints the result for one expression, on the heap.
fn show_on_heap<'a>(rt: &HostRuntime, bytes: Bytes<'a>, process: &Stopped<'a>) -> io::Result<()> {
    let mut evaluation = Evaluation::new(rt.alloc(), bytes, ENCODING);
    show_complete(rt, "heap", &mut evaluation, process)
}

/// Prints the result for one expression, on the heap, where a single piece takes no memory.
fn show_in_line<'a>(rt: &HostRuntime, bytes: Bytes<'a>, process: &Stopped<'a>) -> io::Result<()> {
    let mut evaluation: Evaluation<Bytes<'a>, PieceInLine> = Evaluation::new_in(
        bytes,
        ENCODING,
        Vec::new(rt.alloc()),
        Vec::new(rt.alloc()),
        OneInLine::new(Vec::new(rt.alloc())),
    );
    show_complete(rt, "in line", &mut evaluation, process)
}

/// Prints the result for each expression, from a new evaluation over the same slices. None of these evaluations
/// allocates, or sets a list to zero.
fn show_lent<'a>(
    rt: &HostRuntime,
    expressions: &[&'a [u8]],
    process: &Stopped<'a>,
) -> io::Result<()> {
    let nothing = EndianSlice::new(&[], RunTimeEndian::Little);
    let mut values = [Value::default(); 8];
    let mut callers = [(nothing, nothing); 4];
    let mut pieces = [Piece::default(); 4];
    for expression in expressions {
        let mut evaluation: Evaluation<Bytes<'a>, StoreInSlices<'_>> = Evaluation::new_in(
            EndianSlice::new(expression, RunTimeEndian::Little),
            ENCODING,
            SliceVec::new(&mut values),
            SliceVec::new(&mut callers),
            SliceVec::new(&mut pieces),
        );
        show_complete(rt, "lent", &mut evaluation, process)?;
    }
    Ok(())
}

/// Prints the result for each expression. One evaluation is restarted for all of them, so only the first few allocate.
fn show_restarted<'a>(
    rt: &HostRuntime,
    expressions: &[&'a [u8]],
    process: &Stopped<'a>,
) -> io::Result<()> {
    let nothing = EndianSlice::new(&[], RunTimeEndian::Little);
    let mut evaluation = Evaluation::new(rt.alloc(), nothing, ENCODING);
    for expression in expressions {
        let bytes = EndianSlice::new(expression, RunTimeEndian::Little);
        evaluation.restart(bytes, ENCODING);
        show_complete(rt, "restarted", &mut evaluation, process)?;
    }
    Ok(())
}

/// Prints whether registers alone complete the expression, with at most `step` more operations after each.
fn show_registers<'a>(
    rt: &HostRuntime,
    bytes: Bytes<'a>,
    process: &Stopped<'a>,
    step: u32,
) -> io::Result<()> {
    let mut evaluation = Evaluation::new(rt.alloc(), bytes, ENCODING);
    match complete_with_registers(&mut evaluation, &process.registers, step) {
        Ok(complete) => println!(rt; "registers alone, in steps of {step}: {complete}"),
        Err(error) => println!(rt; "registers alone, in steps of {step}: {error:?}"),
    }
}

/// Prints whether 0 in every register completes the expression.
fn show_zeros(rt: &HostRuntime, bytes: Bytes<'_>) -> io::Result<()> {
    let mut evaluation = Evaluation::new(rt.alloc(), bytes, ENCODING);
    match complete_with_zeros(&mut evaluation) {
        Ok(complete) => println!(rt; "zeros alone: {complete}"),
        Err(error) => println!(rt; "zeros alone: {error:?}"),
    }
}

/// Prints how many requests the expression makes.
fn show_requests(rt: &HostRuntime, bytes: Bytes<'_>) -> io::Result<()> {
    let mut evaluation = Evaluation::new(rt.alloc(), bytes, ENCODING);
    let nothing = EndianSlice::new(&[], RunTimeEndian::Little);
    match count_requests(&mut evaluation, nothing) {
        Ok(asked) => println!(rt; "asked: {asked}"),
        Err(error) => println!(rt; "asked: {error:?}"),
    }
}

/// Prints the result of each call of a replay, for which all answers are known in advance.
fn show_replayed<'a>(
    rt: &HostRuntime,
    bytes: Bytes<'a>,
    steps: &[Step<Bytes<'a>>],
) -> io::Result<()> {
    let mut evaluation = Evaluation::new(rt.alloc(), bytes, ENCODING);
    let mut answers = Vec::new(rt.alloc());
    let replayed = replay_bounded(&mut evaluation, 100_000, steps, &mut answers);
    println!(rt; "replayed: {replayed:?} {:?}", answers.as_slice())
}

/// Prints what is decoded of an expression, and what evaluations of few calls give.
fn show_single<'a>(rt: &HostRuntime, bytes: Bytes<'a>, process: &Stopped<'a>) -> io::Result<()> {
    let mut evaluation = Evaluation::new(rt.alloc(), bytes, ENCODING);
    println!(rt;
        "decoded: {:?} {:?}",
        first_operation(bytes, ENCODING),
        first_number(bytes, ENCODING)
    )?;
    println!(rt;
        "single: {:?} {:?} {}",
        member_address(rt.alloc(), bytes, ENCODING, process.frame_base),
        local_pieces(rt.alloc(), bytes, ENCODING, process.frame_base),
        is_taken(&mut evaluation, Step::Evaluate)
    )
}

/// Prints the replies whose outcomes are proved.
fn show_outcomes(rt: &HostRuntime) -> io::Result<()> {
    let five = EndianSlice::new(&[0x35], RunTimeEndian::Little);
    let mut evaluation = Evaluation::new(rt.alloc(), five, ENCODING);
    println!(rt;
        "outcomes: {:?} {:?} {:?}",
        evaluate_three(&mut evaluation),
        find_local(&mut evaluation, 0x3000),
        evaluate_literal(&mut evaluation, five, 5)
    )
}

/// Prints the outcome of some expressions.
fn show_all(rt: &HostRuntime) -> io::Result<()> {
    let process = Stopped {
        registers: [0x1000, 0x2000],
        frame_base: 0x3000,
        cfa: 0x4000,
        // DW_OP_lit3
        called: EndianSlice::new(&[0x33], RunTimeEndian::Little),
    };
    let expressions: [&[u8]; 5] = [
        // DW_OP_fbreg -16
        &[0x91, 0x70],
        // DW_OP_breg0 -1, DW_OP_breg1 1, DW_OP_plus, DW_OP_piece 4
        &[0x70, 0x7f, 0x71, 0x01, 0x22, 0x93, 0x04],
        // DW_OP_call2 5, DW_OP_call_frame_cfa, DW_OP_plus, DW_OP_deref
        &[0x98, 0x05, 0x00, 0x9c, 0x22, 0x06],
        // DW_OP_breg0 0, DW_OP_breg1 0, DW_OP_breg0 0, DW_OP_plus
        &[0x70, 0x00, 0x71, 0x00, 0x70, 0x00, 0x22],
        // DW_OP_lit5, DW_OP_lit1, DW_OP_xderef_size 1
        &[0x35, 0x31, 0x95, 0x01],
    ];
    for expression in expressions {
        let bytes = EndianSlice::new(expression, RunTimeEndian::Little);
        show_on_heap(rt, bytes, &process)?;
        show_in_line(rt, bytes, &process)?;
        show_registers(rt, bytes, &process, 1)?;
        show_registers(rt, bytes, &process, 2)?;
        show_zeros(rt, bytes)?;
        show_requests(rt, bytes)?;
    }
    show_single(
        rt,
        EndianSlice::new(expressions[0], RunTimeEndian::Little),
        &process,
    )?;
    show_outcomes(rt)?;
    show_restarted(rt, &expressions, &process)?;
    show_lent(rt, &expressions, &process)?;
    show_replayed(
        rt,
        EndianSlice::new(expressions[0], RunTimeEndian::Little),
        &[Step::Evaluate, Step::FrameBase(0x3000)],
    )
}

fn main(rt: HostRuntime) -> ExitCode {
    match show_all(&rt) {
        Ok(()) => ExitCode::SUCCESS,
        Err(_) => ExitCode::FAILURE,
    }
}
