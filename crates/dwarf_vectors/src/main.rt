//! Makes the calls that the vectors of `tests/vectors` say. It reads their files on standard input, prints each vector
//! that isn't as it says, and then how many are. The status is 1 if one isn't.
#![tactic(auto)]

mod calls;
mod decoding;
mod evaluating;
mod lines;
mod short;
mod vectors;
mod words;

use crate::vectors::Vector;
use std::alloc::Global;
use std::io;
use std::io::{BufRead, BufReader};
use std::process::ExitCode;

/// Whether a vector is as it says; `None` if it lacks a member, or if memory is refused.
fn is_right(alloc: Global, vector: Vector<'_>) -> Option<bool> {
    if vector.get("call").is_some() {
        calls::is_right(alloc, vector)
    } else if vector.get("limits").is_some() {
        evaluating::is_right(alloc, vector)
    } else if vector.get("in").is_some() {
        decoding::is_right(alloc, vector)
    } else {
        calls::is_value_right(alloc, vector)
    }
}

fn main(rt: HostRuntime) -> io::Result<ExitCode> {
    let mut passed = 0u64;
    let mut failed = 0u64;
    for line in BufReader::new(rt.alloc(), rt.reader())?.lines(rt.alloc()) {
        let line = line?;
        if line.as_str().starts_with('{') {
            if is_right(rt.alloc(), Vector(line.as_str())) == Some(true) {
                passed = passed.saturating_add(1);
            } else {
                failed = failed.saturating_add(1);
                println!(rt; "FAILED {line}")?;
            }
        }
    }
    println!(rt; "{passed} passed, {failed} failed")?;
    Ok(ExitCode::from(u8::from(failed > 0)))
}
