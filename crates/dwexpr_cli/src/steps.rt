//! Steps, as lines spell them.

ghost use Rattle.std.specs.Prelude.{◌≡◌, option_and_then};
ghost use Rattle.std.specs.Result.{result_ok};
ghost use Rattle.dwarf_base.specs.EndianSlice.{slice_text};
ghost use Rattle.dwarf_base.specs.ByteOrder.{is_big_of};
ghost use Rattle.dwarf_replay.specs.Stepping.{step_of};
ghost use Rattle.dwexpr_cli.specs.StepLines as spec;
ghost use Rattle.dwexpr_cli.specs.inner.Readings.{ReadsInput, ReadsSteps};
ghost use Rattle.dwexpr_cli.specs.StepLines.{below, lines_in, number_in, value_in};

use crate::hexadecimal::{InputFault, bytes_or};
use crate::input::first_line;
use crate::numbers::number_of;
use crate::values::{type_of, value_of};
use crate::writing::Bytes;
use dwarf_base::{EndianSlice, RunTimeEndian};
use dwarf_eval::eval::{Status, WaitingKind};
use dwarf_replay::Step;
use dwarf_value::Value;
use std::alloc::Allocator;

/// What is wrong with a line.
#[derive(Clone, Copy)]
pub(crate) enum BadStep {
    /// It isn't UTF-8, or doesn't begin with the name of a step.
    Unknown,
    /// It is `evaluate` with a word after it.
    NotAlone,
    /// Its word is no number.
    Number,
    /// Its word is no number of 32 bits.
    Maximum,
    /// Its word is no value.
    Value,
    /// Its word spells no bytes.
    Bytes,
    /// Its word is no type.
    Type,
    /// Its step isn't allowed where the evaluation stands.
    Misplaced(Status),
}

/// The number that a word spells.
fn number(word: &str) -> Result<u64, BadStep>
    ensures { result_ok result ≡ number_in word.now }
{
    number_of(word).ok_or(BadStep::Number)
}

/// The maximum that a word spells.
fn maximum(word: &str) -> Result<u32, BadStep>
    ensures { result_ok result ≡ option_and_then (below 32) (number_in word.now) }
{
    match number_of(word) {
        Some(number) => u32::try_from(number).map_err(|_| BadStep::Maximum),
        None => Err(BadStep::Maximum),
    }
}

/// The value that a word spells.
fn value(word: &str) -> Result<Value, BadStep>
    ensures { result_ok result ≡ value_in word.now }
{
    value_of(word).ok_or(BadStep::Value)
}

/// The name of each answer, the form of its word, and the kind of request that it is for.
pub(crate) const ANSWERS: [(&str, &str, WaitingKind); 12] = [
    ("memory", "V", WaitingKind::Memory),
    ("register", "V", WaitingKind::Register),
    ("wasm", "V", WaitingKind::WasmValue),
    ("entry", "V", WaitingKind::EntryValue),
    ("frame", "N", WaitingKind::FrameBase),
    ("tls", "N", WaitingKind::Tls),
    ("cfa", "N", WaitingKind::CallFrameCfa),
    ("parameter", "N", WaitingKind::ParameterRef),
    ("relocated", "N", WaitingKind::RelocatedAddress),
    ("indexed", "N", WaitingKind::IndexedAddress),
    ("location", "HEX", WaitingKind::AtLocation),
    ("type", "T", WaitingKind::BaseType),
];

/// The kind of request that an answer of this name is for.
fn kind_of(name: &str) -> Option<WaitingKind>
    ensures { result ≡ spec.answer_kind_in name.now }
{
    for (known, _, kind) in &ANSWERS {
        if name == *known {
            return Some(*kind);
        }
    }
    None
}

/// The answer of this kind with this word. A text gets this byte order, and is kept until the program ends.
fn answer<'t, A: Allocator + 't>(
    alloc: A,
    order: RunTimeEndian,
    kind: WaitingKind,
    word: &str,
) -> Result<Step<Bytes<'t>>, InputFault<BadStep>>
    ensures { ReadsInput (step_of slice_text) (spec.answer_step_in (is_big_of order) kind word.now) result }
{
    match kind {
        WaitingKind::Memory => Ok(Step::Memory(value(word)?)),
        WaitingKind::Register => Ok(Step::Register(value(word)?)),
        WaitingKind::WasmValue => Ok(Step::WasmValue(value(word)?)),
        WaitingKind::EntryValue => Ok(Step::EntryValue(value(word)?)),
        WaitingKind::FrameBase => Ok(Step::FrameBase(number(word)?)),
        WaitingKind::Tls => Ok(Step::Tls(number(word)?)),
        WaitingKind::CallFrameCfa => Ok(Step::CallFrameCfa(number(word)?)),
        WaitingKind::ParameterRef => Ok(Step::ParameterRef(number(word)?)),
        WaitingKind::RelocatedAddress => Ok(Step::RelocatedAddress(number(word)?)),
        WaitingKind::IndexedAddress => Ok(Step::IndexedAddress(number(word)?)),
        WaitingKind::AtLocation => {
            let bytes = bytes_or(alloc, word, BadStep::Bytes)?.leak();
            Ok(Step::AtLocation(EndianSlice::new(bytes, order)))
        }
        WaitingKind::BaseType => Ok(Step::BaseType(type_of(word).ok_or(BadStep::Type)?)),
    }
}

/// The step with this name and word.
fn named_step<'t, A: Allocator + 't>(
    alloc: A,
    order: RunTimeEndian,
    name: &str,
    word: &str,
) -> Result<Step<Bytes<'t>>, InputFault<BadStep>>
    ensures { ReadsInput (step_of slice_text) (spec.named_step_in (is_big_of order) name.now word.now)
        result }
{
    match name {
        "evaluate" => Err(InputFault::Bad(BadStep::NotAlone)),
        "initial" => Ok(Step::InitialValue(number(word)?)),
        "object" => Ok(Step::ObjectAddress(number(word)?)),
        "max" => Ok(Step::MaxIterations(maximum(word)?)),
        _ => answer(alloc, order, kind_of(name).ok_or(BadStep::Unknown)?, word),
    }
}

/// The step that a text spells: its words are separated by one space.
fn text_step<'t, A: Allocator + 't>(
    alloc: A,
    order: RunTimeEndian,
    text: &str,
) -> Result<Step<Bytes<'t>>, InputFault<BadStep>>
    ensures { ReadsInput (step_of slice_text) (spec.text_step_in (is_big_of order) text.now) result }
{
    if text == "evaluate" {
        return Ok(Step::Evaluate);
    }
    match text.split_once(' ') {
        Some((name, word)) => named_step(alloc, order, name, word),
        // No step has an empty word, so this gives the fault of the missing word.
        None => Err(InputFault::Bad(match named_step(alloc, order, text, "") {
            Err(InputFault::Bad(fault)) => fault,
            _ => BadStep::Unknown,
        })),
    }
}

/// The step that a line spells.
fn step_in<'t, A: Allocator + 't>(
    alloc: A,
    order: RunTimeEndian,
    line: &[u8],
) -> Result<Step<Bytes<'t>>, InputFault<BadStep>>
    ensures { ReadsInput (step_of slice_text) (spec.step_in (is_big_of order) line.now) result }
{
    match str::from_utf8(line) {
        Ok(text) => text_step(alloc, order, text),
        Err(_) => Err(InputFault::Bad(BadStep::Unknown)),
    }
}

/// A line that spells no step, or one that isn't allowed.
#[derive(Clone, Copy)]
pub(crate) struct BadLine<'a> {
    /// The number of the line, from 1.
    pub(crate) number: usize,
    pub(crate) text: &'a [u8],
    pub(crate) fault: BadStep,
}

/// The steps that the lines of the input spell. Their texts get this byte order. The first line that is no step, or for
/// which memory is refused, decides the fault.
pub(crate) fn steps_in<'i, 't, A: Allocator + Copy + 't>(
    alloc: A,
    order: RunTimeEndian,
    input: &'i [u8],
) -> Result<Vec<Step<Bytes<'t>>, A>, InputFault<BadLine<'i>>>
    ensures { ReadsSteps (step_of slice_text)
        (spec.steps_in (is_big_of order) (lines_in input.now)) result }
{
    let mut steps = Vec::new(alloc);
    let mut left = input;
    while !left.is_empty() {
        let line = first_line(left);
        let step = match step_in(alloc, order, line.text) {
            Ok(step) => step,
            Err(InputFault::Bad(fault)) => {
                return Err(InputFault::Bad(BadLine {
                    number: steps.len().saturating_add(1),
                    text: line.text,
                    fault,
                }));
            }
            Err(InputFault::NoMemory) => return Err(InputFault::NoMemory),
        };
        match steps.push(step) {
            Ok(()) => left = line.rest,
            Err(_) => return Err(InputFault::NoMemory),
        }
    }
    Ok(steps)
}
