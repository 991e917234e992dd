//! Tests that every short expression ends.

use crate::tests::evaluation::{Bytes, SMALL, little};
use dwarf_eval::eval::{Evaluation, Status, WaitingKind};
use dwarf_replay::{Step, take_step};
use dwarf_value::Value::Generic;
use dwarf_value::ValueType;
use std::alloc::Global;
use std::process::Abort;

// An answer of this kind: the generic value 0, the number 0, a text that does nothing, or a type.
fn answer_of(kind: WaitingKind) -> Step<Bytes<'static>> {
    match kind {
        WaitingKind::Memory => Step::Memory(Generic(0)),
        WaitingKind::Register => Step::Register(Generic(0)),
        WaitingKind::WasmValue => Step::WasmValue(Generic(0)),
        WaitingKind::EntryValue => Step::EntryValue(Generic(0)),
        WaitingKind::FrameBase => Step::FrameBase(0),
        WaitingKind::Tls => Step::Tls(0),
        WaitingKind::CallFrameCfa => Step::CallFrameCfa(0),
        WaitingKind::ParameterRef => Step::ParameterRef(0),
        WaitingKind::RelocatedAddress => Step::RelocatedAddress(0),
        WaitingKind::IndexedAddress => Step::IndexedAddress(0),
        WaitingKind::AtLocation => Step::AtLocation(little(&[0x96])),
        WaitingKind::BaseType => Step::BaseType(ValueType::U8),
    }
}

// Expects an evaluation of at most 16 operations to end after at most 16 answers.
fn expect_end(rt: &impl Abort, alloc: Global, text: &[u8]) {
    let mut evaluation = Evaluation::new(alloc, little(text), SMALL);
    evaluation.set_max_iterations(16);
    take_step(&mut evaluation, Step::Evaluate);
    for _ in 0..16 {
        if let Status::Waiting(kind) = evaluation.status() {
            take_step(&mut evaluation, answer_of(kind));
        }
    }
    assert!(rt; matches!(evaluation.status(), Status::Complete | Status::Failed(_)));
}

#[test]
fn every_text_of_at_most_two_bytes_ends(rt: HostRuntime) {
    let alloc = rt.alloc();
    expect_end(&rt, alloc, &[]);
    for first in 0..=255 {
        expect_end(&rt, alloc, &[first]);
        for second in 0..=255 {
            expect_end(&rt, alloc, &[first, second]);
        }
    }
}
