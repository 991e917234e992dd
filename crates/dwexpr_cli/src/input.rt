//! The input, and its lines.

ghost use Rattle.std.specs.Prelude.{◌≡◌, ◌==◌, ◌<◌, IfOk, IfSome, length};
ghost use Rattle.std.specs.List.{position};
ghost use Rattle.std.specs.Str.Lines.{strip_carriage_return};
ghost use Rattle.dwexpr_cli.specs.StepLines as spec;

use crate::hexadecimal::InputFault;
use std::alloc::Allocator;
use std::io;
use std::io::Read;

/// A reader that remembers whether its last read failed.
#[derive(Drop)]
pub(crate) struct WatchedReader<I> {
    pub(crate) reader: I,
    pub(crate) failed: bool,
}

impl<I: Read> Read for WatchedReader<I> {
    ghost remaining = { λ watched. I.remaining watched.reader };

    fn read(&mut self, buf: &mut [u8]) -> io::Result<usize> {
        let read = self.reader.read(buf);
        self.failed = read.is_err();
        read
    }
}

/// Reads the whole input. Both a failed read and a list that can't grow may report a lack of memory. The reader knows
/// which it was.
pub(crate) fn read_all<A: Allocator, I: Read + Drop>(
    alloc: A,
    reader: I,
) -> Result<Vec<u8, A>, InputFault<io::Error>>
    ensures { IfOk result (λ input. IfSome (I.remaining reader) (λ bytes. input.items ≡ bytes)) }
{
    let mut input = Vec::new(alloc);
    let mut watched = WatchedReader {
        reader,
        failed: false,
    };
    match watched.read_to_end(&mut input) {
        Ok(_) => Ok(input),
        Err(error) if watched.failed => Err(InputFault::Bad(error)),
        Err(_) => Err(InputFault::NoMemory),
    }
}

/// A line of the input, and the rest of the input.
#[derive(Clone, Copy)]
pub(crate) struct Line<'a> {
    /// The line, without its end.
    pub(crate) text: &'a [u8],
    /// The rest of the input.
    pub(crate) rest: &'a [u8],
}

/// The text without its carriage return, if it ends with one.
fn without_return(text: &[u8]) -> &[u8]
    ensures { result.now ≡ strip_carriage_return text.now }
{
    match text {
        [front @ .., b'\r'] => front,
        _ => text,
    }
}

/// The index of the first line feed.
fn line_feed_in(input: &[u8]) -> Option<usize>
    ensures { result ≡ position (λ byte. byte == 10) input.now }
{
    input.iter().position(|byte| *byte == b'\n')
}

/// The first line: up to a line feed, or the whole input if there is none.
pub(crate) fn first_line(input: &[u8]) -> Line<'_>
    requires { 0 < length input.now }
    ensures line { (result.text.now, result.rest.now) ≡ spec.first_line input.now }
    ensures less { length result.rest.now < length input.now }
{
    match line_feed_in(input) {
        Some(end) => Line {
            text: without_return(&input[..end]),
            rest: &input[end + 1..],
        },
        None => Line {
            text: input,
            rest: &[],
        },
    }
}

/// The line at an index, or no bytes if there is none.
pub(crate) fn line_at(input: &[u8], index: usize) -> &[u8] {
    let line = input.split(|byte| *byte == b'\n').nth(index);
    without_return(line.unwrap_or(&[]))
}
