//! Evaluates in lists of fixed capacity and on the heap.

ghost use Rattle.dwarf_eval.specs.Evaluation.{IsAddressSize};
ghost use Rattle.std.specs.Prelude.{◌≡◌, ◌≤◌, [], None};
ghost use Rattle.dwarf_meaning.specs.Rest.{Start};

use crate::lines::{push_line, push_results, reply_line};
use crate::vectors::Vector;
use crate::words::{Bytes, encoding_in, read, type_in, value_in};
use arrayvec::ArrayVec;
use dwarf_base::{Encoding, Reader, RunTimeEndian};
use dwarf_eval::eval::Evaluation;
use dwarf_eval::op::{Expression, Piece};
use dwarf_eval::store::{ArrayLike, EvaluationStorage, OneInLine, SliceVec, StoreInSlices};
use dwarf_replay::{Answer, Replayed, Step, replay};
use dwarf_value::Value;
use std::alloc::{AllocError, Global};

// More values, callers, pieces and replies than any vector has.
const MANY: usize = 16;

// Storage in arrays of fixed capacities.
struct Arrays<const STACK: usize, const CALLERS: usize, const PIECES: usize>;

impl<
    R: Reader + Copy + Default,
    const STACK: usize,
    const CALLERS: usize,
    const PIECES: usize,
> EvaluationStorage<R> for Arrays<STACK, CALLERS, PIECES> {
    type Stack = ArrayVec<Value, STACK>;

    type ExpressionStack = ArrayVec<(R, R), CALLERS>;

    type Result = ArrayVec<Piece<R>, PIECES>;
}

// Storage on the heap; the list of pieces keeps a single piece inline.
struct PieceInLine;

impl<R: Reader + Copy> EvaluationStorage<R> for PieceInLine {
    type Stack = Vec<Value>;

    type ExpressionStack = Vec<(R, R)>;

    type Result = OneInLine<Piece<R>, Vec<Piece<R>>>;
}

// An evaluation to do, and what it has to give.
#[derive(Clone, Copy)]
struct Case<'a> {
    text: Bytes<'a>,
    encoding: Encoding,
    // The capacities of the lists of values, callers, pieces and replies.
    capacities: [usize; 4],
    steps: &'a [Step<Bytes<'a>>],
    output: &'a str,
    status: Option<&'a str>,
}

fn step_in(alloc: Global, line: &str, order: RunTimeEndian) -> Option<Step<Bytes<'static>>> {
    let (name, word) = line.split_once(' ').unwrap_or((line, ""));
    Some(match name {
        "initial" => Step::InitialValue(word.parse().ok()?),
        "object" => Step::ObjectAddress(word.parse().ok()?),
        "max" => Step::MaxIterations(word.parse().ok()?),
        "evaluate" => Step::Evaluate,
        "memory" => Step::Memory(value_in(word)?),
        "register" => Step::Register(value_in(word)?),
        "wasm" => Step::WasmValue(value_in(word)?),
        "entry" => Step::EntryValue(value_in(word)?),
        "frame" => Step::FrameBase(word.parse().ok()?),
        "tls" => Step::Tls(word.parse().ok()?),
        "cfa" => Step::CallFrameCfa(word.parse().ok()?),
        "parameter" => Step::ParameterRef(word.parse().ok()?),
        "relocated" => Step::RelocatedAddress(word.parse().ok()?),
        "indexed" => Step::IndexedAddress(word.parse().ok()?),
        "location" => Step::AtLocation(read(alloc, word, order)?),
        "type" => Step::BaseType(type_in(word)?),
        _ => return None,
    })
}

fn steps_in(alloc: Global, input: &str, order: RunTimeEndian) -> Option<Vec<Step<Bytes<'static>>>> {
    let mut steps = Vec::new(alloc);
    for line in input.split("\\n") {
        if !line.is_empty() {
            steps.push(step_in(alloc, line, order)?).ok()?;
        }
    }
    Some(steps)
}

// The lines that the end of a replay adds.
fn push_end(said: &mut String, alloc: Global, end: Replayed<Bytes<'_>>) -> Result<(), AllocError> {
    match end {
        Replayed::Done => Ok(()),
        Replayed::Misplaced(index) => {
            let number = index.saturating_add(1);
            push_line(said, format!(in alloc; "misplaced {number}")?.as_str())
        }
        Replayed::NoRoom { index, answer } => {
            let number = index.saturating_add(1);
            push_line(said, format!(in alloc; "no room {number}")?.as_str())?;
            push_line(said, reply_line(alloc, answer)?.as_str())
        }
    }
}

// Replays the steps of the case, and tells whether the lines and the status are the case's.
fn is_replayed<'a, S: EvaluationStorage<Bytes<'a>>, L: ArrayLike<Item = Answer<Bytes<'a>>>>(
    alloc: Global,
    eval: &mut Evaluation<Bytes<'a>, S>,
    mut replies: L,
    case: &Case<'a>,
) -> Result<bool, AllocError>
    requires fresh { eval.old.status ≡ Start None }
    requires empty { L.items replies ≡ [] }
{
    let end = replay(eval, case.steps, &mut replies);
    let mut said = String::new(alloc);
    for reply in replies.as_slice() {
        push_line(&mut said, reply_line(alloc, *reply)?.as_str())?;
    }
    push_end(&mut said, alloc, end)?;
    push_results(&mut said, alloc, eval)?;
    let status = eval.status();
    let shown = format!(in alloc; "{status:?}")?;
    let is_its_status = match case.status {
        Some(wanted) => wanted == shown.as_str(),
        None => true,
    };
    Ok(is_its_status && said.as_str() == case.output)
}

// Runs the case over arrays of these capacities.
fn is_right_over<
    'a,
    const STACK: usize,
    const CALLERS: usize,
    const PIECES: usize,
    const REPLIES: usize,
>(alloc: Global, case: &Case<'a>) -> Result<bool, AllocError>
    requires address_size { IsAddressSize case.now.encoding.address_size }
    requires stack { STACK ≤ 16 }
    requires callers { CALLERS ≤ 16 }
    requires pieces { PIECES ≤ 16 }
    requires replies { REPLIES ≤ 16 }
{
    let mut eval: Evaluation<Bytes<'a>, Arrays<STACK, CALLERS, PIECES>> = Evaluation::new_in(
        case.text,
        case.encoding,
        ArrayVec::new(),
        ArrayVec::new(),
        ArrayVec::new(),
    );
    is_replayed(
        alloc,
        &mut eval,
        ArrayVec::<Answer<Bytes<'a>>, REPLIES>::new(),
        case,
    )
}

// Runs the case over arrays. Capacities are constants, so each set of them has a branch.
fn is_right_in_arrays(alloc: Global, case: &Case<'_>) -> Result<bool, AllocError>
    requires { IsAddressSize case.now.encoding.address_size }
{
    match case.capacities {
        [0, 1, 2, MANY] => is_right_over::<0, 1, 2, MANY>(alloc, case),
        [0, MANY, MANY, MANY] => is_right_over::<0, MANY, MANY, MANY>(alloc, case),
        [1, 0, 2, MANY] => is_right_over::<1, 0, 2, MANY>(alloc, case),
        [1, 1, 0, MANY] => is_right_over::<1, 1, 0, MANY>(alloc, case),
        [1, 1, 1, MANY] => is_right_over::<1, 1, 1, MANY>(alloc, case),
        [1, 1, 2, MANY] => is_right_over::<1, 1, 2, MANY>(alloc, case),
        [1, MANY, MANY, MANY] => is_right_over::<1, MANY, MANY, MANY>(alloc, case),
        [2, MANY, MANY, MANY] => is_right_over::<2, MANY, MANY, MANY>(alloc, case),
        [3, MANY, MANY, MANY] => is_right_over::<3, MANY, MANY, MANY>(alloc, case),
        [MANY, 0, MANY, MANY] => is_right_over::<MANY, 0, MANY, MANY>(alloc, case),
        [MANY, 4, MANY, MANY] => is_right_over::<MANY, 4, MANY, MANY>(alloc, case),
        [MANY, MANY, 0, MANY] => is_right_over::<MANY, MANY, 0, MANY>(alloc, case),
        [MANY, MANY, 1, MANY] => is_right_over::<MANY, MANY, 1, MANY>(alloc, case),
        [MANY, MANY, MANY, 0] => is_right_over::<MANY, MANY, MANY, 0>(alloc, case),
        [MANY, MANY, MANY, 1] => is_right_over::<MANY, MANY, MANY, 1>(alloc, case),
        [MANY, MANY, MANY, MANY] => is_right_over::<MANY, MANY, MANY, MANY>(alloc, case),
        _ => Ok(false),
    }
}

// Runs the case over prefixes of slices, and once more after a restart.
fn is_right_in_slices<'a>(alloc: Global, case: &Case<'a>) -> Result<bool, AllocError>
    requires { IsAddressSize case.now.encoding.address_size }
{
    let empty = Bytes::default();
    let mut values = [Value::Generic(0); MANY];
    let mut callers: [(Bytes<'a>, Bytes<'a>); MANY] = [(empty, empty); MANY];
    let mut pieces: [Piece<Bytes<'a>>; MANY] = [Piece::default(); MANY];
    let mut replies: [Answer<Bytes<'a>>; MANY] = [Answer::default(); MANY];
    let [stack, depth, room, answers] = case.capacities;
    if stack > MANY || depth > MANY || room > MANY || answers > MANY {
        return Ok(false);
    }
    let mut eval: Evaluation<Bytes<'a>, StoreInSlices<'_>> = Evaluation::new_in(
        case.text,
        case.encoding,
        SliceVec::new(&mut values[..stack]),
        SliceVec::new(&mut callers[..depth]),
        SliceVec::new(&mut pieces[..room]),
    );
    let first = is_replayed(
        alloc,
        &mut eval,
        SliceVec::new(&mut replies[..answers]),
        case,
    )?;
    eval.restart(case.text, case.encoding);
    let again = is_replayed(
        alloc,
        &mut eval,
        SliceVec::new(&mut replies[..answers]),
        case,
    )?;
    Ok(first && again)
}

// Runs the case on the heap, and with storage in which a single piece takes no memory.
fn is_right_on_heap<'a>(alloc: Global, case: &Case<'a>) -> Result<bool, AllocError>
    requires { IsAddressSize case.now.encoding.address_size }
{
    let mut eval = Expression(case.text).evaluation(alloc, case.encoding);
    let first = is_replayed(alloc, &mut eval, Vec::new(alloc), case)?;
    let mut eval: Evaluation<Bytes<'a>, PieceInLine> = Evaluation::new_in(
        case.text,
        case.encoding,
        Vec::new(alloc),
        Vec::new(alloc),
        OneInLine::new(Vec::new(alloc)),
    );
    let again = is_replayed(alloc, &mut eval, Vec::new(alloc), case)?;
    Ok(first && again)
}

// The capacities that a vector names, as `2, null, null`.
fn capacities_in(limits: &str) -> [usize; 4] {
    let mut capacities = [MANY; 4];
    for (capacity, limit) in capacities.iter_mut().zip(limits.split(", ")) {
        *capacity = limit.parse().unwrap_or(MANY);
    }
    capacities
}

/// Whether an evaluation gives the vector's lines and status, in lists of each kind.
pub(crate) fn is_right(alloc: Global, vector: Vector<'_>) -> Option<bool> {
    let (encoding, order) = encoding_in(vector)?;
    if encoding.address_size == 0 || encoding.address_size > 8 {
        return None;
    }
    let steps = steps_in(alloc, vector.get("input")?, order)?;
    let case = Case {
        text: read(alloc, vector.get("bytes")?, order)?,
        encoding,
        capacities: capacities_in(vector.get("limits")?),
        steps: &steps,
        output: vector.get("output")?,
        status: vector.get("status"),
    };
    let is_ample = case.capacities == [MANY; 4];
    Some(
        is_right_in_arrays(alloc, &case).ok()?
            && is_right_in_slices(alloc, &case).ok()?
            && (!is_ample || is_right_on_heap(alloc, &case).ok()?),
    )
}
