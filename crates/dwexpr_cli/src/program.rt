//! The program: from words and input to output and status.

ghost use Rattle.dwarf_eval.specs.Evaluation.{IsAddressSize};
ghost use Rattle.std.specs.IoError.{error_kind};
ghost use Rattle.std.specs.Prelude.{◌≡◌, ◌<◌, ◌≤◌, ◌-◌, ◌^◌, IfOk, length, map, None, string_bytes};
ghost use Rattle.std.specs.Result.{result_unwrap_or};
ghost use Rattle.dwarf_base.specs.EndianSlice.{slice_text};
ghost use Rattle.dwarf_base.specs.ByteOrder.{is_big_of};
ghost use Rattle.dwarf_op.specs.Views.{piece_of};
ghost use Rattle.dwarf_replay.specs.Replays.{replies_in, steps_of};
ghost use Rattle.dwarf_meaning.specs.Steps.{empty_log};
ghost use Rattle.dwarf_meaning.specs.Stores.{setup_of};
ghost use Rattle.dwexpr_cli.specs.Evaluates.{EvaluatesSteps, EvaluatesLines};
ghost use Rattle.dwexpr_cli.specs.inner.Readings.{bad_invocation, bad_steps, unread_input};
ghost use Rattle.dwexpr_cli.specs.Words.{extra_in};
ghost use Rattle.dwexpr_cli.specs.Lines.{piece_lines, reply_lines};
ghost use Rattle.dwexpr_cli.specs.Program.{EndsFor, EvaluatesInput, Exits};
ghost use Rattle.dwexpr_cli.specs.inner.Outputs.{
  without_words,
  HasLine,
  ending_of,
  state_ending,
  Prints,
  WritesEnding,
};
ghost use Rattle.dwexpr_cli.specs.Endings.{Ending, complete_ending};

use crate::endings::{DONE, FAILED, bad_step, bad_words, misplaced_step, no_memory};
use crate::explaining::Output;
use crate::help::{print_help, print_version};
use crate::hexadecimal::InputFault;
use crate::input::{line_at, read_all};
use crate::lines::{print_piece, print_reply, print_value_line};
use crate::listing::print_operations;
use crate::steps::{BadLine, BadStep, steps_in};
use crate::tracing::{Frame, Halt, Layout, print_done, print_last_reply};
use crate::words::{BadWords, Command, DecodingContext, Extra, extra_of, invocation_of, traced_of};
use crate::writing::Bytes;
use dwarf_base::EndianSlice;
use dwarf_eval::eval::{Evaluation, Status};
use dwarf_eval::op::Piece;
use dwarf_eval::store::{EvaluationStorage, StoreOnHeap};
use dwarf_replay::{Answer, Replayed, Step, replay};
use dwarf_value::Value;
use std::alloc::Allocator;
use std::io;
use std::io::{ErrorKind, Read, Write};

/// Prints the result of each call of the evaluation.
fn print_replies<W: Write>(output: &mut W, answers: &[Answer<Bytes<'_>>]) -> io::Result<()>
    ensures { Prints (W.contents output.old) (W.contents output.new)
        (reply_lines (replies_in slice_text (λ x. x) answers.now)) result }
{
    for answer in answers {
        print_reply(output, *answer)?;
    }
    Ok(())
}

fn print_pieces<W: Write>(output: &mut W, pieces: &[Piece<Bytes<'_>>]) -> io::Result<()>
    ensures { Prints (W.contents output.old) (W.contents output.new)
        (piece_lines (map (piece_of slice_text (λ x. x)) pieces.now)) result }
{
    for piece in pieces {
        print_piece(output, *piece)?;
    }
    Ok(())
}

/// Prints the pieces and the value of a complete evaluation.
fn print_complete<W: Write>(
    output: &mut W,
    value: Option<Value>,
    pieces: &[Piece<Bytes<'_>>],
) -> io::Result<u8>
    ensures { WritesEnding (W.contents output.old) (W.contents output.new)
        (complete_ending (map (piece_of slice_text (λ x. x)) pieces.now) value) result }
{
    print_pieces(output, pieces)?;
    print_value_line(output, value)?;
    Ok(DONE)
}

/// Prints the pieces and the value, if the evaluation is complete.
fn print_outcome<'a, S: EvaluationStorage<Bytes<'a>>, W: Write>(
    output: &mut W,
    evaluation: &Evaluation<Bytes<'a>, S>,
) -> io::Result<u8>
    ensures { WritesEnding (W.contents output.old) (W.contents output.new)
        (state_ending evaluation.now evaluation.now.status) result }
{
    match evaluation.status() {
        Status::Complete => print_complete(
            output,
            evaluation.value_result(),
            evaluation.as_result(),
        ),
        Status::Failed(_) => Ok(FAILED),
        Status::Start { .. } | Status::Waiting(_) => Ok(DONE),
    }
}

/// Prints what follows the answers. If a step isn't allowed, it explains which line that step is.
fn print_end<A: Allocator + Copy, W: Output>(
    output: &mut W,
    evaluation: &Evaluation<Bytes<'_>, StoreOnHeap<A>>,
    replayed: Replayed<Bytes<'_>>,
    lines: &[u8],
) -> io::Result<u8>
    requires { HasLine replayed }
    ensures { WritesEnding (W.contents output.old) (W.contents output.new)
        (ending_of evaluation.now replayed.entry) result }
{
    match replayed {
        Replayed::Done => print_outcome(output, evaluation),
        Replayed::Misplaced(index) => {
            let printed = misplaced_step(output, index);
            output.complain(BadLine {
                number: index + 1,
                text: line_at(lines, index),
                fault: BadStep::Misplaced(evaluation.status()),
            });
            printed
        }
        Replayed::NoRoom { .. } => no_memory(output),
    }
}

/// Evaluates the bytes by the steps, which `lines` spell. Prints each answer, and then the pieces and the value.
fn evaluate<'a, A: Allocator + Copy, W: Output>(
    alloc: A,
    bytes: &'a [u8],
    context: DecodingContext,
    steps: &[Step<Bytes<'a>>],
    lines: &[u8],
    output: &mut W,
) -> io::Result<u8>
    requires address_size { IsAddressSize context.encoding.address_size }
    requires few { length steps.now < 2 ^ 63 }
    ensures { (ending : Ending)
        × EvaluatesSteps (setup_of context.encoding 64 None None None)
        (record { bytes = bytes.now; is_big = is_big_of context.order }) empty_log
        (steps_of slice_text steps.now) ending
        × WritesEnding (W.contents output.old) (W.contents output.new) ending result }
{
    let text = EndianSlice::new(bytes, context.order);
    let mut evaluation: Evaluation<_, StoreOnHeap<A>> = Evaluation::new(
        alloc,
        text,
        context.encoding,
    );
    let mut answers = Vec::new(alloc);
    let replayed = replay(&mut evaluation, steps, &mut answers);
    print_replies(output, answers.as_slice())?;
    print_end(output, &evaluation, replayed, lines)
}

/// Prints why the lines aren't steps, and explains which line is bad.
fn refuse_lines<W: Output>(output: &mut W, fault: InputFault<BadLine<'_>>) -> io::Result<u8>
    ensures { WritesEnding (W.contents output.old) (W.contents output.new)
        (bad_steps fault.entry) result }
{
    match fault {
        InputFault::Bad(line) => {
            let printed = bad_step(output, line.number);
            output.complain(line);
            printed
        }
        InputFault::NoMemory => no_memory(output),
    }
}

/// Reads the lines as steps, and evaluates the bytes by them.
fn run_lines<'a, A: Allocator + Copy + 'a, W: Output>(
    alloc: A,
    bytes: &'a [u8],
    context: DecodingContext,
    lines: &[u8],
    output: &mut W,
) -> io::Result<u8>
    requires { IsAddressSize context.encoding.address_size }
    ensures { (ending : Ending)
        × EvaluatesLines context.encoding
        (record { bytes = bytes.now; is_big = is_big_of context.order }) lines.now ending
        × WritesEnding (W.contents output.old) (W.contents output.new) ending result }
{
    match steps_in(alloc, context.order, lines) {
        Ok(steps) => evaluate(alloc, bytes, context, steps.as_slice(), lines, output),
        Err(fault) => refuse_lines(output, fault),
    }
}

/// Explains a failed read, or prints that memory for the input was refused.
fn refuse_input<W: Output>(output: &mut W, fault: InputFault<io::Error>) -> io::Result<u8>
    ensures { WritesEnding (W.contents output.old) (W.contents output.new) (unread_input fault)
        result }
{
    match fault {
        InputFault::Bad(error) => {
            output.complain(format_args!("standard input can't be read: {error}"));
            Ok(FAILED)
        }
        InputFault::NoMemory => no_memory(output),
    }
}

/// Reads the input, and evaluates the bytes by its steps.
fn run_eval<A: Allocator + Copy, I: Read + Drop, W: Output>(
    alloc: A,
    bytes: &[u8],
    context: DecodingContext,
    reader: I,
    output: &mut W,
) -> io::Result<u8>
    requires { IsAddressSize context.encoding.address_size }
    ensures { (ending : Ending)
        × EvaluatesInput context.encoding
        (record { bytes = bytes.now; is_big = is_big_of context.order }) (I.remaining reader) ending
        × WritesEnding (W.contents output.old) (W.contents output.new) ending result }
{
    match read_all(alloc, reader) {
        Ok(lines) => run_lines(alloc, bytes, context, lines.as_slice(), output),
        Err(fault) => refuse_input(output, fault),
    }
}

/// Prints that the words are wrong, and explains which one, or prints that memory was refused.
fn refuse_invocation<W: Output>(output: &mut W, fault: InputFault<BadWords<'_>>) -> io::Result<u8>
    ensures { WritesEnding (W.contents output.old) (W.contents output.new) (bad_invocation fault.entry)
        result }
{
    match fault {
        InputFault::Bad(words) => {
            let printed = bad_words(output);
            output.complain(words);
            printed
        }
        InputFault::NoMemory => no_memory(output),
    }
}

/// Checks the words, and does what they ask for.
fn run_words<A: Allocator + Copy, I: Read + Drop, W: Output>(
    alloc: A,
    words: &[String<A>],
    input: I,
    output: &mut W,
) -> io::Result<u8>
    ensures { (ending : Ending)
        × EndsFor (map string_bytes words.now) (I.remaining input) ending
        × WritesEnding (W.contents output.old) (W.contents output.new) ending result }
{
    match invocation_of(alloc, words) {
        Ok(asked) => match asked.command {
            Command::Ops => print_operations(output, asked.bytes.as_slice(), asked.context),
            Command::Eval => {
                run_eval(alloc, asked.bytes.as_slice(), asked.context, input, output)
            }
        },
        Err(fault) => refuse_invocation(output, fault),
    }
}

/// Evaluates the bytes by the steps, which `lines` spell, and prints how that ends: the last reply, and then the pieces
/// and the value.
fn print_verdict<'a, A: Allocator + Copy, W: Output>(
    alloc: A,
    bytes: &'a [u8],
    context: DecodingContext,
    steps: &[Step<Bytes<'a>>],
    lines: &[u8],
    layout: Layout,
    frame: Frame<'a>,
    output: &mut W,
) -> io::Result<u8>
    requires address_size { IsAddressSize context.encoding.address_size }
    requires few { length steps.now < 2 ^ 63 }
    ensures { IfOk result (λ status. status ≤ 2) }
{
    let text = EndianSlice::new(bytes, context.order);
    let mut evaluation: Evaluation<_, StoreOnHeap<A>> = Evaluation::new(
        alloc,
        text,
        context.encoding,
    );
    let mut answers = Vec::new(alloc);
    let replayed = replay(&mut evaluation, steps, &mut answers);
    if let Some(reply) = answers.last() {
        print_last_reply(output, layout, frame, *reply)?;
    }
    print_end(output, &evaluation, replayed, lines)
}

/// Traces the evaluation of the bytes by the steps, which `lines` spell.
fn trace<'a, A: Allocator + Copy, W: Output>(
    alloc: A,
    bytes: &'a [u8],
    context: DecodingContext,
    steps: &[Step<Bytes<'a>>],
    lines: &[u8],
    layout: Layout,
    output: &mut W,
) -> io::Result<u8>
    requires address_size { IsAddressSize context.encoding.address_size }
    requires few { length steps.now < 2 ^ 63 }
    ensures { IfOk result (λ status. status ≤ 2) }
{
    match print_done(alloc, bytes, context, steps, layout, output) {
        Ok(frame) => print_verdict(alloc, bytes, context, steps, lines, layout, frame, output),
        Err(Halt::NoMemory) => no_memory(output),
        Err(Halt::Unwritten(error)) => Err(error),
    }
}

/// Reads the lines as steps, and traces the evaluation of the bytes by them.
fn trace_lines<'a, A: Allocator + Copy + 'a, W: Output>(
    alloc: A,
    bytes: &'a [u8],
    context: DecodingContext,
    lines: &[u8],
    layout: Layout,
    output: &mut W,
) -> io::Result<u8>
    requires { IsAddressSize context.encoding.address_size }
    ensures { IfOk result (λ status. status ≤ 2) }
{
    match steps_in(alloc, context.order, lines) {
        Ok(steps) => trace(
            alloc,
            bytes,
            context,
            steps.as_slice(),
            lines,
            layout,
            output,
        ),
        Err(fault) => refuse_lines(output, fault),
    }
}

/// Reads the input, and traces the evaluation of the bytes by its steps.
fn run_trace<A: Allocator + Copy, I: Read + Drop, W: Output>(
    alloc: A,
    words: &[String<A>],
    reader: I,
    layout: Layout,
    output: &mut W,
) -> io::Result<u8>
    ensures { IfOk result (λ status. status ≤ 2) }
{
    let asked = match traced_of(alloc, words) {
        Ok(asked) => asked,
        Err(fault) => return refuse_invocation(output, fault),
    };
    match read_all(alloc, reader) {
        Ok(lines) => trace_lines(
            alloc,
            asked.bytes.as_slice(),
            asked.context,
            lines.as_slice(),
            layout,
            output,
        ),
        Err(fault) => refuse_input(output, fault),
    }
}

/// The exit status. Explains a failed write.
fn status_of<W: Output>(printed: io::Result<u8>, output: &mut W) -> u8
    ensures status { result ≡ result_unwrap_or printed 1 }
    ensures nothing { W.contents output.new ≡ W.contents output.old }
{
    if let Err(error) = &printed {
        output.complain(format_args!("standard output can't be written: {error}"));
    }
    printed.unwrap_or(FAILED)
}

/// Prints why there are no words.
fn refuse_words<W: Write>(kind: ErrorKind, output: &mut W) -> io::Result<u8>
    ensures { WritesEnding (W.contents output.old) (W.contents output.new) (without_words kind)
        result }
{
    match kind {
        ErrorKind::InvalidData => bad_words(output),
        _ => no_memory(output),
    }
}

/// Prints why there are no words, and returns the status: a word isn't UTF-8, or memory for them was refused.
pub fn run_without_words<W: Output>(error: io::Error, output: &mut W) -> u8
    ensures { Exits (W.contents output.old) (W.contents output.new)
        (without_words (error_kind error)) result }
{
    let printed = refuse_words(error.kind(), output);
    output.complain(format_args!("the words can't be read: {error}"));
    status_of(printed, output)
}

/// Runs `ops` or `eval` on the words after the program's name, and returns the exit status. Other words are bad.
///
/// `ops ADDR OFFSET VERSION ORDER HEX` lists the operations in the bytes HEX: the place, the bytes and the name of
/// each, or the place and the fault if there is one. `eval ADDR OFFSET VERSION ORDER HEX` evaluates the bytes HEX by
/// the steps that the lines of `input` spell. It reads and checks all lines first, and then does their steps in order.
/// It prints a line for each answer and, if the evaluation is complete at the end, its pieces and its value.
///
/// The status is 1 if the evaluation or the decoding failed, a read or a write failed, or memory was refused. It is 2
/// if the words or a line are bad, or a step isn't allowed where it stands. Otherwise it is 0. `output` also gets an
/// explanation of which word or line is wrong, or which read or write failed. Any borrowed writer can be the output:
/// `&mut &mut writer`.
pub fn run<A: Allocator + Copy, I: Read + Drop, W: Output>(
    alloc: A,
    words: &[String<A>],
    input: I,
    output: &mut W,
) -> u8
    ensures { (ending : Ending)
        × EndsFor (map string_bytes words.now) (I.remaining input) ending
        × Exits (W.contents output.old) (W.contents output.new) ending result }
{
    let printed = run_words(alloc, words, input, output);
    status_of(printed, output)
}

/// Runs the program on the words after its name, and returns its exit status.
///
/// `--help` and `--version` print how the program is used, and its version. `trace` takes the words and the steps of
/// `eval`. It prints each operation that is done, and the stack after it, and ends with the last lines of `eval` and
/// its status. What it prints isn't proved. All other words are for [`run`].
pub fn run_program<A: Allocator + Copy, I: Read + Drop, W: Output>(
    alloc: A,
    words: &[String<A>],
    input: I,
    layout: Layout,
    output: &mut W,
) -> u8
    ensures { extra_in (map string_bytes words.now) ≡ None → (ending : Ending)
        × EndsFor (map string_bytes words.now) (I.remaining input) ending
        × Exits (W.contents output.old) (W.contents output.new) ending result }
{
    let Some(extra) = extra_of(words) else {
        return run(alloc, words, input, output);
    };
    let printed = match extra {
        Extra::Help => print_help(output),
        Extra::Version => print_version(output),
        Extra::Trace => run_trace(alloc, words, input, layout, output),
    };
    status_of(printed, output)
}
