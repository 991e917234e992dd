//! Tests that refuse each push of an evaluation in turn, and each growth of its lists and of the list of answers.

ghost use Rattle.dwarf_eval.specs.Evaluation.{IsAddressSize};
ghost use Rattle.std.specs.Prelude.{◌≡◌, ◌<◌, [], None};
ghost use Rattle.dwarf_meaning.specs.Rest.{Start};

use crate::tests::allocators::{NEVER, RefusesGrowth};
use crate::tests::evaluation::{Bytes, COMPLETE, FULL, SMALL, little, replayed, replayed_on_heap};
use crate::tests::lists::{ListsOfTests, RefusesOne};
use dwarf_base::{Encoding, Error, Format, Reader, UnitOffset};
use dwarf_eval::eval::{Evaluation, Status};
use dwarf_eval::op::{DieReference, EvaluationResult, Expression};
use dwarf_eval::store::{ArrayLike, EvaluationStorage};
use dwarf_replay::{Answer, Replayed, Step};
use dwarf_value::Value::{self, Generic};
use dwarf_value::ValueType;
use std::alloc::{AllocError, Allocator, Global};
use std::process::Abort;

// A value, the frame's address, a piece in a register, and a call of this same text. The calls nest; the innermost text
// ends with the piece.
static TURN: &[u8] = &[0x31, 0x9c, 0x50, 0x93, 0x01, 0x98, 0x01, 0x00];

const TURNS: u64 = 60;

// A call of this text.
const AGAIN: &[u8] = &[0x98, 0x01, 0x00];

// The number of lists: the values, the callers, the pieces and the answers.
const LISTS: usize = 4;

// Forty ones, and their sum.
const SUM: &[u8] = &[
    0x31, 0x31, 0x31, 0x31, 0x31, 0x31, 0x31, 0x31, 0x31, 0x31, 0x31, 0x31, 0x31, 0x31, 0x31, 0x31,
    0x31, 0x31, 0x31, 0x31, 0x31, 0x31, 0x31, 0x31, 0x31, 0x31, 0x31, 0x31, 0x31, 0x31, 0x31, 0x31,
    0x31, 0x31, 0x31, 0x31, 0x31, 0x31, 0x31, 0x31, 0x22, 0x22, 0x22, 0x22, 0x22, 0x22, 0x22, 0x22,
    0x22, 0x22, 0x22, 0x22, 0x22, 0x22, 0x22, 0x22, 0x22, 0x22, 0x22, 0x22, 0x22, 0x22, 0x22, 0x22,
    0x22, 0x22, 0x22, 0x22, 0x22, 0x22, 0x22, 0x22, 0x22, 0x22, 0x22, 0x22, 0x22, 0x22, 0x22,
];

// Twenty pieces, each in a register.
const REGISTERS: &[u8] = &[
    0x50, 0x93, 0x01, 0x50, 0x93, 0x01, 0x50, 0x93, 0x01, 0x50, 0x93, 0x01, 0x50, 0x93, 0x01, 0x50,
    0x93, 0x01, 0x50, 0x93, 0x01, 0x50, 0x93, 0x01, 0x50, 0x93, 0x01, 0x50, 0x93, 0x01, 0x50, 0x93,
    0x01, 0x50, 0x93, 0x01, 0x50, 0x93, 0x01, 0x50, 0x93, 0x01, 0x50, 0x93, 0x01, 0x50, 0x93, 0x01,
    0x50, 0x93, 0x01, 0x50, 0x93, 0x01, 0x50, 0x93, 0x01, 0x50, 0x93, 0x01,
];

// A text, the steps, their answers with ample memory, the value, and how often each list is pushed to. After the steps
// `evaluate` gives `Complete` twice more, and no answer is allowed.
#[derive(Drop)]
struct Case {
    text: &'static [u8],
    steps: Vec<Step<Bytes<'static>>>,
    replies: Vec<Answer<Bytes<'static>>>,
    value: Option<Value>,
    pushes: [u64; LISTS],
}

// The request for the expression at offset 1.
const WANTS_CALLEE: Answer<Bytes<'static>> = Answer(Ok(EvaluationResult::RequiresAtLocation(
    DieReference::UnitRef(UnitOffset(1)),
)));

// Adds all calls that are allowed after a fault.
fn push_later(steps: &mut Vec<Step<Bytes<'static>>>) -> Result<(), AllocError> {
    steps.extend_from_slice(&[
        Step::Evaluate,
        Step::Evaluate,
        Step::Memory(Generic(0)),
        Step::Register(Generic(0)),
        Step::WasmValue(Generic(0)),
        Step::EntryValue(Generic(0)),
        Step::FrameBase(0),
        Step::Tls(0),
        Step::CallFrameCfa(0),
        Step::ParameterRef(0),
        Step::RelocatedAddress(0),
        Step::IndexedAddress(0),
        Step::AtLocation(little(&[])),
        Step::BaseType(ValueType::U8),
        Step::Evaluate,
    ])
}

// Nested calls of `TURN`. Every second frame address has bits above the address size.
fn nested_turns(alloc: Global) -> Result<Case, AllocError> {
    let cfa = Answer(Ok(EvaluationResult::RequiresCallFrameCfa));
    let mut steps = Vec::new(alloc);
    let mut replies = Vec::new(alloc);
    steps.push(Step::Evaluate)?;
    for turn in 1..=TURNS {
        let address = if turn % 2 == 0 { 0x10 } else { 0x1_0000_0010 };
        let next: &'static [u8] = if turn < TURNS { TURN } else { &[0x93, 0x01] };
        steps.extend_from_slice(&[Step::CallFrameCfa(address), Step::AtLocation(little(next))])?;
        replies.extend_from_slice(&[cfa, WANTS_CALLEE])?;
    }
    push_later(&mut steps)?;
    replies.extend_from_slice(&[COMPLETE; 3])?;
    Ok(Case {
        text: TURN,
        steps,
        replies,
        value: None,
        pushes: [2 * TURNS, TURNS, TURNS + 1, 2 * TURNS + 3],
    })
}

// The text, the callees in order, the value, and how often each list is pushed to.
type Calls = (
    &'static [u8],
    &'static [&'static [u8]],
    Option<Value>,
    [u64; LISTS],
);

static CALLS: [Calls; 4] = [
    (&[0x31], &[], Some(Generic(1)), [1, 0, 1, 3]),
    (SUM, &[], Some(Generic(40)), [79, 0, 1, 3]),
    (REGISTERS, &[], None, [0, 0, 20, 3]),
    (
        AGAIN,
        &[
            AGAIN,
            AGAIN,
            AGAIN,
            AGAIN,
            AGAIN,
            AGAIN,
            AGAIN,
            AGAIN,
            AGAIN,
            &[0x31],
        ],
        Some(Generic(1)),
        [1, 10, 1, 13],
    ),
];

fn calls(alloc: Global, row: Calls) -> Result<Case, AllocError> {
    let (text, callees, value, pushes) = row;
    let mut steps = Vec::new(alloc);
    let mut replies = Vec::new(alloc);
    steps.push(Step::Evaluate)?;
    for callee in callees {
        steps.push(Step::AtLocation(little(*callee)))?;
        replies.push(WANTS_CALLEE)?;
    }
    push_later(&mut steps)?;
    replies.extend_from_slice(&[COMPLETE; 3])?;
    Ok(Case {
        text,
        steps,
        replies,
        value,
        pushes,
    })
}

// Expects the answers of a replay in which one push or growth may be refused. Up to the refusal they are those of a
// replay with ample memory; from then on each call gives the fault.
fn expect_answers(
    rt: &impl Abort,
    case: &Case,
    answers: &[Answer<Bytes<'static>>],
    end: Replayed<Bytes<'static>>,
) {
    let replies = case.replies.as_slice();
    let mut known = 0;
    for (index, answer) in answers.iter().enumerate() {
        if *answer != FULL {
            assert!(rt; known == index && replies.get(index) == Some(answer));
            known = index.saturating_add(1);
        }
    }
    let is_full = known < answers.len();
    match end {
        Replayed::Done => assert!(rt; is_full && answers.len() == case.steps.len()),
        Replayed::NoRoom { index, answer } => {
            assert!(rt; !is_full && index == known && replies.get(known) == Some(&answer));
        }
        Replayed::Misplaced(index) => {
            assert!(rt; !is_full && index == known && known == replies.len());
        }
    }
}

// A fresh evaluation over lists that refuse one push, after this many others.
fn evaluation<'a>(
    alloc: Global,
    text: &'a [u8],
    encoding: Encoding,
    befores: [u64; LISTS],
) -> Evaluation<Bytes<'a>, ListsOfTests>
    requires { IsAddressSize encoding.address_size }
    ensures { result.status ≡ Start None }
{
    Evaluation::new_in(
        little(text),
        encoding,
        RefusesOne::new(alloc, befores[0]),
        RefusesOne::new(alloc, befores[1]),
        RefusesOne::new(alloc, befores[2]),
    )
}

// Expects the evaluation to be complete with the case's value and number of pieces, or to have met a refusal.
fn expect_end<R: Reader + Copy, S: EvaluationStorage<R>>(
    rt: &impl Abort,
    eval: &Evaluation<R, S>,
    case: &Case,
    is_refused: bool,
) {
    let status = eval.status();
    if matches!(status, Status::Complete) {
        assert!(rt; eval.value_result() == case.value);
        assert!(rt; eval.as_result().len() as u64 == case.pushes[2]);
    } else {
        assert!(rt; is_refused && status == Status::Failed(Error::StackFull));
    }
}

// Replays the case. The list at this index refuses one push, after this many others, if there is one.
fn expect_push(rt: &impl Abort, alloc: Global, case: &Case, list: usize, before: u64)
    requires { list < 4 }
{
    let mut befores = [NEVER; LISTS];
    befores[list] = before;
    let mut eval = evaluation(alloc, case.text, SMALL, befores);
    let mut answers = RefusesOne::new(alloc, befores[3]);
    let end = replayed(&mut eval, &case.steps, &mut answers);
    expect_answers(rt, case, answers.as_slice(), end);
    let pushes = case.pushes[list];
    match end {
        Replayed::Misplaced(_) => {
            assert!(rt; before == pushes);
            expect_end(rt, &eval, case, false);
        }
        Replayed::NoRoom { index, .. } => assert!(rt; list == 3 && index as u64 == before),
        Replayed::Done => {
            assert!(rt; list < 3 && before < pushes);
            expect_end(rt, &eval, case, true);
        }
    }
}

// Each push to each list is refused in turn.
fn expect_pushes(rt: &impl Abort, alloc: Global, case: &Case) {
    for list in 0..LISTS {
        for before in 0..=case.pushes[list] {
            expect_push(rt, alloc, case, list, before);
        }
    }
}

#[test]
fn refused_pushes(rt: HostRuntime) -> Result<(), AllocError> {
    let alloc = rt.alloc();
    expect_pushes(&rt, alloc, &nested_turns(alloc)?);
    for row in &CALLS {
        expect_pushes(&rt, alloc, &calls(alloc, *row)?);
    }
    Ok(())
}

// Replays the case on the heap. Its allocators may refuse a growth of the lists or of the answers.
fn expect_growth<A: Allocator + Copy, B: Allocator>(
    rt: &impl Abort,
    lists: A,
    memory: B,
    case: &Case,
) -> Replayed<Bytes<'static>> {
    let mut answers = Vec::new(memory);
    let end = replayed_on_heap(lists, little(case.text), &case.steps, &mut answers);
    expect_answers(rt, case, answers.as_slice(), end);
    end
}

// Refuses each growth of the lists on the heap in turn, and each growth of the answers. No growth may follow a refused
// one.
fn expect_growths(rt: &impl Abort, alloc: Global, case: &Case) {
    for before in 0..40 {
        let lists = RefusesGrowth::new(alloc, before);
        let end = expect_growth(rt, &lists, alloc, case);
        assert!(rt; lists.has_refused_last() == matches!(end, Replayed::Done));
        let memory = RefusesGrowth::new(alloc, before);
        let end = expect_growth(rt, alloc, &memory, case);
        assert!(rt; memory.has_refused_last() == matches!(end, Replayed::NoRoom { .. }));
    }
}

#[test]
fn refused_growths(rt: HostRuntime) -> Result<(), AllocError> {
    let alloc = rt.alloc();
    expect_growths(&rt, alloc, &nested_turns(alloc)?);
    for row in &CALLS {
        expect_growths(&rt, alloc, &calls(alloc, *row)?);
    }
    Ok(())
}

// Expects the first push after a restart to be refused, which shows that the restart pushed nothing.
fn expect_first_push<R: Reader + Copy, S: EvaluationStorage<R>>(
    rt: &impl Abort,
    mut eval: Evaluation<R, S>,
    text: R,
    encoding: Encoding,
)
    requires { IsAddressSize encoding.address_size }
{
    eval.restart(text, encoding);
    eval.set_initial_value(1);
    assert!(rt; matches!(eval.evaluate(), Err(Error::StackFull)));
}

// The same on the heap: each allocator refuses the first growth.
fn expect_first_growth<A: Allocator + Copy>(
    rt: &impl Abort,
    first: A,
    second: A,
    text: Bytes<'_>,
    encoding: Encoding,
)
    requires { IsAddressSize encoding.address_size }
{
    let eval = Evaluation::new(first, text, encoding);
    expect_first_push(rt, eval, text, encoding);
    let eval = Expression(text).evaluation(second, encoding);
    expect_first_push(rt, eval, text, encoding);
}

// Expects that making and restarting an evaluation allocates nothing.
fn expect_beginning(rt: &impl Abort, alloc: Global, text: &[u8], encoding: Encoding) {
    assert!(rt; 0 < encoding.address_size && encoding.address_size <= 8);
    let eval = evaluation(alloc, text, encoding, [0; LISTS]);
    expect_first_push(rt, eval, little(text), encoding);
    let first = RefusesGrowth::new(alloc, 0);
    let second = RefusesGrowth::new(alloc, 0);
    expect_first_growth(rt, &first, &second, little(text), encoding);
}

#[test]
fn beginnings(rt: HostRuntime) {
    for address_size in 1..9 {
        for format in [Format::Dwarf32, Format::Dwarf64] {
            for version in 2..6 {
                let encoding = Encoding {
                    address_size,
                    format,
                    version,
                };
                expect_beginning(&rt, rt.alloc(), &[], encoding);
                expect_beginning(&rt, rt.alloc(), &[0x96], encoding);
            }
        }
    }
}
