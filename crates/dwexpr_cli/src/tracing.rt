//! The trace of an evaluation: its operations in their order, and the stack after each.
//!
//! An evaluation doesn't show its stack. So each operation that was done is added to a text without branches and calls.
//! That text is evaluated by the same steps, with operations after it that pop all values into pieces. It isn't proved
//! what a trace prints, but that it ends and has no undefined behaviour.

ghost use Rattle.dwarf_eval.specs.Evaluation.{IsAddressSize};

use crate::lines::{print_fault, print_reply};
use crate::opcodes::put_operation;
use crate::words::DecodingContext;
use crate::writing::{Bytes, put_bytes, put_digits, put_text, put_value};
use dwarf_base::constants::{DW_OP_drop, DW_OP_nop, DW_OP_piece, DW_OP_stack_value};
use dwarf_base::{EndianSlice, Error, Reader, ReaderOffset};
use dwarf_eval::eval::{Evaluation, Status};
use dwarf_eval::op::{Location, Operation, Piece};
use dwarf_eval::store::StoreOnHeap;
use dwarf_replay::{Answer, Step, Stepped, take_step};
use dwarf_value::Value;
use std::alloc::Allocator;
use std::io;
use std::io::Write;

/// How the fields of a line are set apart.
#[derive(Clone, Copy, Debug, PartialEq, Eq)]
pub enum Layout {
    /// By a tab.
    Tabs,
    /// By blanks, up to the column of the next field.
    Columns,
}

/// Where the fields after the first begin.
const BYTES_COLUMN: usize = 8;

const OPERATION_COLUMN: usize = 24;

const STACK_COLUMN: usize = 56;

/// A line of fields, whose length so far is known.
#[derive(Drop)]
struct Fields<'a, W> {
    output: &'a mut W,
    layout: Layout,
    written: usize,
}

impl<W: Write> Write for Fields<'_, W> {
    fn write(&mut self, buf: &[u8]) -> io::Result<usize> {
        let taken = self.output.write(buf)?;
        self.written = self.written.saturating_add(taken);
        Ok(taken)
    }

    fn flush(&mut self) -> io::Result<()> {
        self.output.flush()
    }
}

impl<W: Write> Fields<'_, W> {
    /// Ends the line.
    fn end_line(&mut self) -> io::Result<()> {
        put_text(self, "\n")?;
        self.written = 0;
        Ok(())
    }

    /// Begins the next field, at this column.
    fn next(&mut self, column: usize) -> io::Result<()> {
        if self.layout == Layout::Tabs {
            return put_text(self, "\t");
        }
        put_text(self, " ")?;
        for _ in self.written..column {
            put_text(self, " ")?;
        }
        Ok(())
    }
}

/// A text that runs, and where it stands.
#[derive(Clone, Copy)]
pub(crate) struct Frame<'a> {
    /// The line of the input that gave the text; 0 for the expression.
    line: usize,
    text: Bytes<'a>,
    rest: Bytes<'a>,
}

impl<'a> Frame<'a> {
    /// The beginning of a text.
    fn new(line: usize, text: Bytes<'a>) -> Self {
        Frame {
            line,
            text,
            rest: text,
        }
    }

    /// What runs after a branch, at this distance from the rest. `None` if it leaves the text.
    fn target(&self, rest: Bytes<'a>, distance: i16) -> Option<Bytes<'a>> {
        let place = self.text.len().saturating_sub(rest.len());
        let mut target = self.text;
        target
            .skip(place.wrapping_add(usize::from_i16(distance)))
            .ok()?;
        Some(target)
    }

    /// What runs after an operation, when this number is on top of the stack. `None` if a branch leaves the text.
    fn next(
        &self,
        operation: Operation<Bytes<'a>>,
        rest: Bytes<'a>,
        top: u64,
    ) -> Option<Bytes<'a>> {
        match operation {
            Operation::Skip { target } => self.target(rest, target),
            Operation::Bra { target } if top != 0 => self.target(rest, target),
            _ => Some(rest),
        }
    }

    /// The bytes up to the rest.
    fn bytes_before(&self, rest: Bytes<'a>) -> &'a [u8] {
        let length = self.rest.len().saturating_sub(rest.len());
        self.rest.slice().get(..length).unwrap_or(&[])
    }

    /// Writes the place: how many bytes of the text come before it, after the text's line if it was called.
    pub(crate) fn put_place<W: Write>(&self, output: &mut W) -> io::Result<()> {
        if self.line > 0 {
            put_digits(output, 10, self.line as u64)?;
            put_text(output, ":")?;
        }
        put_digits(
            output,
            10,
            self.text.len().saturating_sub(self.rest.len()) as u64,
        )
    }
}

/// The innermost text that isn't at its end.
fn running<'a, A: Allocator>(frames: &mut Vec<Frame<'a>, A>) -> Option<Frame<'a>> {
    while let Some(frame) = frames.pop() {
        if !frame.rest.is_empty() {
            return Some(frame);
        }
    }
    None
}

/// Memory was refused.
#[derive(Clone, Copy)]
pub(crate) struct NoMemory;

fn push<T: Drop, A: Allocator>(list: &mut Vec<T, A>, item: T) -> Result<(), NoMemory> {
    list.push(item).map_err(|_| NoMemory)
}

fn push_all<A: Allocator>(list: &mut Vec<u8, A>, bytes: &[u8]) -> Result<(), NoMemory> {
    for byte in bytes {
        push(list, *byte)?;
    }
    Ok(())
}

/// An evaluation of the operations that were done, and of those after them.
#[derive(Drop)]
struct Rerun<'d, 'a, A: Allocator + Copy> {
    evaluation: Evaluation<Bytes<'d>, StoreOnHeap<A>>,
    /// The maximum of operations that was in force at its end.
    maximum: u32,
    /// The last text that was called.
    called: Option<Frame<'a>>,
}

/// Evaluates the bytes by the steps, up to the end, a fault, or a request that no step answers. A call runs no text,
/// and no maximum counts.
fn evaluate_again<'d, 'a: 'd, A: Allocator + Copy>(
    alloc: A,
    bytes: &'d [u8],
    context: DecodingContext,
    steps: &[Step<Bytes<'a>>],
) -> Rerun<'d, 'a, A>
    requires { IsAddressSize context.encoding.address_size }
{
    let text = EndianSlice::new(bytes, context.order);
    let mut evaluation: Evaluation<_, StoreOnHeap<A>> = Evaluation::new(
        alloc,
        text,
        context.encoding,
    );
    let mut maximum = u32::MAX;
    let mut called = None;
    let mut line: usize = 0;
    for step in steps {
        line = line.saturating_add(1);
        let step = match *step {
            Step::MaxIterations(value) => {
                maximum = value;
                continue;
            }
            Step::AtLocation(callee) => {
                called = Some(Frame::new(line, callee));
                Step::AtLocation(EndianSlice::new(&[], context.order))
            }
            step => step,
        };
        if take_step(&mut evaluation, step) == Stepped::Misplaced {
            break;
        }
        if matches!(evaluation.status(), Status::Complete | Status::Failed(_)) {
            break;
        }
    }
    Rerun {
        evaluation,
        maximum,
        called,
    }
}

/// Where an evaluation stands after some operations.
#[derive(Clone, Copy)]
struct Standing<'a> {
    /// How many values are on the stack.
    values: usize,
    /// The number on top, cut to the size of an address; 0 if the stack is empty.
    top: u64,
    /// The most operations that may be counted.
    maximum: u32,
    /// The last text that was called.
    called: Option<Frame<'a>>,
}

/// How many pieces after the first ones are at an address, and the first address; 0 if there is none.
fn addresses_in(pieces: &[Piece<Bytes<'_>>], before: usize) -> (usize, u64) {
    let mut count: usize = 0;
    let mut first = 0;
    for piece in pieces.iter().skip(before) {
        if let Location::Address { address } = piece.location {
            if count == 0 {
                first = address;
            }
            count = count.saturating_add(1);
        }
    }
    (count, first)
}

/// The values in the pieces after the first ones.
fn values_in<A: Allocator>(
    alloc: A,
    pieces: &[Piece<Bytes<'_>>],
    before: usize,
) -> Result<Vec<Value, A>, NoMemory> {
    let mut values = Vec::new(alloc);
    for piece in pieces.iter().skip(before) {
        if let Location::Value { value } = piece.location {
            push(&mut values, value)?;
        }
    }
    Ok(values)
}

/// The operations that were done, and what came of them.
#[derive(Drop)]
struct Done<'a, A: Allocator> {
    /// Their bytes, without branches and calls.
    bytes: Vec<u8, A>,
    /// How many of them are counted: all but the pieces of locations.
    counted: u32,
    /// How many of them end a piece.
    pieces: usize,
    /// Whether the last one gives a location, whose piece comes next.
    has_location: bool,
    standing: Standing<'a>,
    /// The stack, top first.
    values: Vec<Value, A>,
}

impl<'a, A: Allocator + Copy> Done<'a, A> {
    /// No operation.
    fn new(alloc: A) -> Self {
        Done {
            bytes: Vec::new(alloc),
            counted: 0,
            pieces: 0,
            has_location: false,
            standing: Standing {
                values: 0,
                top: 0,
                maximum: u32::MAX,
                called: None,
            },
            values: Vec::new(alloc),
        }
    }

    /// Whether no more operation is counted.
    fn is_at_maximum(&self) -> bool {
        !self.has_location && self.counted >= self.standing.maximum
    }

    /// Adds an operation, which these bytes spell.
    fn add(&mut self, operation: Operation<Bytes<'_>>, spelling: &[u8]) -> Result<(), NoMemory> {
        match operation {
            Operation::Skip { .. } => push(&mut self.bytes, DW_OP_nop.0)?,
            Operation::Bra { .. } => push(&mut self.bytes, DW_OP_drop.0)?,
            _ => push_all(&mut self.bytes, spelling)?,
        }
        if !self.has_location {
            self.counted = self.counted.saturating_add(1);
        }
        if let Operation::Piece { .. } = operation {
            self.pieces = self.pieces.saturating_add(1);
        }
        self.has_location = matches!(
            operation,
            Operation::Register { .. }
                | Operation::ImplicitValue { .. }
                | Operation::ImplicitPointer { .. }
                | Operation::StackValue
        );
        Ok(())
    }

    /// Adds operations that make pieces: one of the location, if there is one, and then one of each value.
    fn add_pieces(&mut self, of_value: &[u8], values: usize) -> Result<(), NoMemory> {
        if self.has_location {
            push_all(&mut self.bytes, &[DW_OP_piece.0, 1])?;
        }
        for _ in 0..values {
            push_all(&mut self.bytes, of_value)?;
        }
        Ok(())
    }

    /// How many pieces come before those of values.
    fn pieces_before(&self) -> usize {
        self.pieces.saturating_add(usize::from(self.has_location))
    }

    /// Where the evaluation stands, by pieces at all values: there is none at a value that isn't there. `None` if an
    /// operation isn't done, since its request is open, or it met a fault.
    fn standing_in(
        &self,
        alloc: A,
        context: DecodingContext,
        steps: &[Step<Bytes<'a>>],
    ) -> Result<Option<Standing<'a>>, NoMemory>
        requires { IsAddressSize context.encoding.address_size }
    {
        let rerun = evaluate_again(alloc, self.bytes.as_slice(), context, steps);
        match rerun.evaluation.status() {
            Status::Complete => {
                let (values, top) = addresses_in(
                    rerun.evaluation.as_result(),
                    self.pieces_before(),
                );
                Ok(Some(Standing {
                    values,
                    top,
                    maximum: rerun.maximum,
                    called: rerun.called,
                }))
            }
            Status::Failed(Error::StackFull) => Err(NoMemory),
            _ => Ok(None),
        }
    }

    /// The values on the stack, by pieces that have them.
    fn values_in(
        &self,
        alloc: A,
        context: DecodingContext,
        steps: &[Step<Bytes<'a>>],
    ) -> Result<Vec<Value, A>, NoMemory>
        requires { IsAddressSize context.encoding.address_size }
    {
        let rerun = evaluate_again(alloc, self.bytes.as_slice(), context, steps);
        match rerun.evaluation.status() {
            Status::Complete => values_in(
                alloc,
                rerun.evaluation.as_result(),
                self.pieces_before(),
            ),
            _ => Err(NoMemory),
        }
    }

    /// Finds where the evaluation stands. `false` if an operation isn't done.
    fn observe(
        &mut self,
        alloc: A,
        context: DecodingContext,
        steps: &[Step<Bytes<'a>>],
    ) -> Result<bool, NoMemory>
        requires { IsAddressSize context.encoding.address_size }
    {
        let length = self.bytes.len();
        // An operation pushes one value at most, and an empty piece shows that no more follows.
        let most = self.values.len().saturating_add(2);
        self.add_pieces(&[DW_OP_piece.0, 1], most)?;
        let Some(standing) = self.standing_in(alloc, context, steps)? else {
            return Ok(false);
        };
        self.standing = standing;
        self.bytes.truncate(length);
        self.values.clear();
        if standing.values > 0 {
            self.add_pieces(&[DW_OP_stack_value.0, DW_OP_piece.0, 1], standing.values)?;
            self.values = self.values_in(alloc, context, steps)?;
            self.bytes.truncate(length);
        }
        Ok(true)
    }
}

/// Why a trace ends early.
#[derive(Drop)]
pub(crate) enum Halt {
    /// Memory was refused.
    NoMemory,
    /// A line couldn't be written.
    Unwritten(io::Error),
}

impl From<NoMemory> for Halt {
    fn from(_: NoMemory) -> Self {
        Halt::NoMemory
    }
}

impl From<io::Error> for Halt {
    fn from(error: io::Error) -> Self {
        Halt::Unwritten(error)
    }
}

/// Writes a stack, whose top comes first, with the top last.
fn put_stack<W: Write>(output: &mut W, values: &[Value]) -> io::Result<()> {
    let Some((bottom, above)) = values.split_last() else {
        return put_text(output, "-");
    };
    put_value(output, *bottom)?;
    for value in above.iter().rev() {
        put_text(output, " ")?;
        put_value(output, *value)?;
    }
    Ok(())
}

/// Prints the line of an operation: its place, its bytes, its name with the operands, and the stack if it is done.
fn print_operation<W: Write>(
    fields: &mut Fields<'_, W>,
    frame: &Frame<'_>,
    bytes: Bytes<'_>,
    operation: Operation<Bytes<'_>>,
    stack: Option<&[Value]>,
) -> io::Result<()> {
    frame.put_place(fields)?;
    fields.next(BYTES_COLUMN)?;
    put_bytes(fields, bytes)?;
    fields.next(OPERATION_COLUMN)?;
    let opcode = bytes.slice().first().copied().unwrap_or(0);
    put_operation(fields, opcode, operation)?;
    if let Some(values) = stack {
        fields.next(STACK_COLUMN)?;
        put_stack(fields, values)?;
    }
    fields.end_line()
}

/// The text that runs, those that wait for its end, and what was done.
#[derive(Drop)]
struct Trace<'a, A: Allocator + Copy> {
    frame: Frame<'a>,
    callers: Vec<Frame<'a>, A>,
    done: Done<'a, A>,
}

impl<'a, A: Allocator + Copy> Trace<'a, A> {
    /// Enters the text that was called last.
    fn enter(&mut self) -> Result<(), NoMemory> {
        push(&mut self.callers, self.frame)?;
        if let Some(called) = self.done.standing.called {
            self.frame = called;
        }
        Ok(())
    }

    /// Does the next operation, and prints it. `false` if it isn't done.
    fn do_operation<W: Write>(
        &mut self,
        alloc: A,
        context: DecodingContext,
        steps: &[Step<Bytes<'a>>],
        fields: &mut Fields<'_, W>,
    ) -> Result<bool, Halt>
        requires { IsAddressSize context.encoding.address_size }
    {
        let frame = self.frame;
        let mut rest = frame.rest;
        let Ok(operation) = Operation::parse(&mut rest, context.encoding) else {
            return Ok(false);
        };
        let next = frame.next(operation, rest, self.done.standing.top);
        let bytes = frame.bytes_before(rest);
        self.done.add(operation, bytes)?;
        let is_done = self.done.observe(alloc, context, steps)?;
        let next = next.filter(|_| is_done);
        print_operation(
            fields,
            &frame,
            EndianSlice::new(bytes, context.order),
            operation,
            next.is_some().then_some(self.done.values.as_slice()),
        )?;
        let Some(next) = next else {
            return Ok(false);
        };
        self.frame.rest = next;
        if let Operation::Call { .. } = operation {
            self.enter()?;
        }
        Ok(true)
    }
}

/// Prints each operation and the stack after it, up to the end, an open request or a fault. The last operation has no
/// stack if it isn't done. Returns where the evaluation stands then.
pub(crate) fn print_done<'a, A: Allocator + Copy, W: Write>(
    alloc: A,
    bytes: &'a [u8],
    context: DecodingContext,
    steps: &[Step<Bytes<'a>>],
    layout: Layout,
    output: &mut W,
) -> Result<Frame<'a>, Halt>
    requires { IsAddressSize context.encoding.address_size }
{
    let frame = Frame::new(0, EndianSlice::new(bytes, context.order));
    let mut end = frame;
    end.rest.empty();
    let mut trace = Trace {
        frame,
        callers: Vec::new(alloc),
        done: Done::new(alloc),
    };
    if !trace.done.observe(alloc, context, steps)? {
        return Ok(frame);
    }
    let mut fields = Fields {
        output,
        layout,
        written: 0,
    };
    for _ in 0..u64::MAX {
        if trace.frame.rest.is_empty() {
            let Some(caller) = running(&mut trace.callers) else {
                return Ok(end);
            };
            trace.frame = caller;
        }
        if trace.done.is_at_maximum() || !trace.do_operation(alloc, context, steps, &mut fields)? {
            break;
        }
    }
    Ok(trace.frame)
}

/// Prints the last reply of an evaluation that stands there: a request, completion, or a fault after its place.
pub(crate) fn print_last_reply<W: Write>(
    output: &mut W,
    layout: Layout,
    frame: Frame<'_>,
    reply: Answer<Bytes<'_>>,
) -> io::Result<()> {
    match reply.0 {
        Ok(_) => print_reply(output, reply),
        Err(error) => {
            let mut fields = Fields {
                output,
                layout,
                written: 0,
            };
            frame.put_place(&mut fields)?;
            fields.next(BYTES_COLUMN)?;
            print_fault(&mut fields, error)
        }
    }
}
