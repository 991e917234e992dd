//! Tests that each byte of a decoded operation is read once, and that no other byte is read.

use crate::tests::evaluation::{SMALL, little, replayed_on_heap};
use crate::tests::readers::Watched;
use dwarf_base::Reader;
use dwarf_eval::op::{Expression, Operation};
use dwarf_replay::Step;
use std::alloc::{AllocError, Global};
use std::cell::Cell;
use std::process::Abort;

// An operation with this opcode, each byte of whose operands is 01. No operation has the opcode 01.
fn text_of(opcode: u8) -> [u8; 10] {
    [opcode, 1, 1, 1, 1, 1, 1, 1, 1, 1]
}

// Expects the iterator to read the bytes of the first operation, or only the opcode if it is unknown.
fn expect_item(rt: &impl Abort, text: &[u8]) {
    let read = Cell::new(0);
    let expression = Expression(Watched::new(text, &read));
    let mut operations = expression.operations(SMALL);
    let is_unknown = operations.next().is_err();
    let place = if is_unknown {
        1
    } else {
        operations.offset_from(&expression)
    };
    assert!(rt; read.get() == place as u64);
}

// Expects the iterator to read each byte of an expression once.
fn expect_items(rt: &impl Abort, text: &[u8]) {
    let read = Cell::new(0);
    for item in Expression(Watched::new(text, &read)).operations(SMALL) {
        assert!(rt; item.is_ok());
    }
    assert!(rt; read.get() == text.len() as u64);
}

#[test]
fn iterator_reads_each_byte_once(rt: HostRuntime) {
    for opcode in 0..=255 {
        let text = text_of(opcode);
        expect_item(&rt, &text);
    }
    // A LEB128 number of one to ten bytes.
    for opcode in [0x10, 0x11] {
        let mut text = [0x80; 12];
        text[0] = opcode;
        for last in 1..11 {
            text[last] = 0;
            expect_item(&rt, &text);
            text[last] = 0x80;
        }
    }
    expect_items(&rt, LOOP);
}

// How many bytes an operation of the opcode has, and whether it gives a location, which waits for its piece.
fn measured(opcode: u8) -> (usize, bool) {
    let text = text_of(opcode);
    let mut rest = little(&text);
    let is_location = matches!(
        Operation::parse(&mut rest, SMALL),
        Ok(
            Operation::Register { .. }
                | Operation::ImplicitValue { .. }
                | Operation::StackValue
                | Operation::ImplicitPointer { .. }
        )
    );
    (text.len().saturating_sub(rest.len()), is_location)
}

// Evaluates three literals and an operation with this opcode, which is the last one that the maximum allows. If it
// gives a location, the operation after it is read too.
fn expect_evaluation(rt: &impl Abort, alloc: Global, opcode: u8) {
    let text = [0x31, 0x31, 0x31, opcode, 1, 1, 1, 1, 1, 1, 1, 1, 1];
    let read = Cell::new(0);
    let steps = [Step::MaxIterations(4), Step::Evaluate];
    let bytes = Watched::new(&text, &read);
    replayed_on_heap(alloc, bytes, &steps, &mut Vec::new(alloc));
    let (length, is_location) = measured(opcode);
    let after = u64::from(is_location);
    assert!(rt;
        read.get() == (length as u64).saturating_add(3 + after),
        "{opcode}"
    );
}

#[test]
fn evaluation_reads_each_byte_once(rt: HostRuntime) {
    for opcode in 0..=255 {
        expect_evaluation(&rt, rt.alloc(), opcode);
    }
}

// A loop of thirty turns: a register and its piece, a call, a frame address and its piece, and a branch.
static LOOP: &[u8] = &[
    0x08, 30, // const1u 30
    0x50, 0x93, 0x04, // reg0, piece 4
    0x98, 0x05, 0x00, // call2 5
    0x9c, 0x93, 0x04, // call_frame_cfa, piece 4
    0x31, 0x1c, 0x12, // lit1, minus, dup
    0x28, 0xf1, 0xff, // bra -15
    0x93, 0x04, // piece 4
];

// The steps that run the loop to its end. The maximum is exactly its 302 operations.
fn turns<R: Copy>(alloc: Global, callee: R) -> Result<Vec<Step<R>>, AllocError> {
    let mut steps = Vec::new(alloc);
    steps.push(Step::MaxIterations(302))?;
    steps.push(Step::Evaluate)?;
    for _ in 0..30 {
        steps.push(Step::AtLocation(callee))?;
        steps.push(Step::CallFrameCfa(1))?;
    }
    Ok(steps)
}

// Each turn reads 17 bytes.
fn expect_loop(rt: &impl Abort, alloc: Global) -> Result<(), AllocError> {
    let read = Cell::new(0);
    let callee = Watched::new(&[0x31, 0x13], &read); // lit1, drop
    let text = Watched::new(LOOP, &read);
    replayed_on_heap(alloc, text, &turns(alloc, callee)?, &mut Vec::new(alloc));
    assert!(rt; read.get() == 4 + 30 * 17);
    Ok(())
}

#[test]
fn loop_reads_each_byte_once(rt: HostRuntime) -> Result<(), AllocError> {
    expect_loop(&rt, rt.alloc())
}
