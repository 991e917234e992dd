//! What the program writes to standard error.

// No contract covers what the program writes to standard error. A failed write there is ignored.
ghost use Rattle.std.specs.Prelude.{◌≡◌};

use crate::steps::{ANSWERS, BadLine, BadStep};
use crate::words::BadWords;
use dwarf_eval::eval::Status;
use std::fmt::{Display, Formatter};
use std::io::Write;
use std::{fmt, io};

/// A writer of the program's lines that can also explain what is wrong.
pub trait Output: Write {
    /// Explains why a word or a line is bad, or which read or write failed. The explanation isn't part of the lines. By
    /// default it is dropped.
    fn complain<D: Display + Drop>(&mut self, complaint: D)
        ensures { Self.contents self.new ≡ Self.contents self.old }
    {
        let _ = complaint;
    }
}

/// A borrowed writer is an output that drops explanations.
impl<W: Write> Output for &mut W {}

/// A writer of the lines, and a writer of explanations.
#[derive(Drop)]
pub struct Terminal<O, E> {
    /// Takes the lines.
    pub output: O,
    /// Takes the explanations.
    pub errors: E,
}

impl<O: Write, E: Write> Write for Terminal<O, E> {
    ghost contents = { λ terminal. O.contents terminal.output };

    fn write(&mut self, buf: &[u8]) -> io::Result<usize> {
        self.output.write(buf)
    }

    fn flush(&mut self) -> io::Result<()> {
        self.output.flush()
    }
}

impl<O: Write, E: Write> Output for Terminal<O, E> {
    fn complain<D: Display + Drop>(&mut self, complaint: D) {
        let _ = writeln!(self.errors, "dwexpr: {complaint}");
    }
}

/// The most bytes of a word or a line that are shown.
const SHOWN: usize = 60;

/// A word or a line, quoted in an explanation.
#[derive(Clone, Copy)]
struct Shown<'a>(&'a [u8]);

impl Display for Shown<'_> {
    fn fmt<W: fmt::Write>(&self, f: &mut Formatter<W>) -> fmt::Result {
        let front = self.0.get(..SHOWN).unwrap_or(self.0);
        let more = if self.0.len() > SHOWN { ".." } else { "" };
        write!(f, "\"{}{more}\"", front.escape_ascii())
    }
}

impl Display for BadWords<'_> {
    fn fmt<W: fmt::Write>(&self, f: &mut Formatter<W>) -> fmt::Result {
        let (number, word, expected) = match *self {
            BadWords::Count(count) => {
                let expected = "6, eval, trace or ops and ADDR OFFSET VERSION ORDER HEX";
                return write!(f, "{count} words: expected {expected}");
            }
            BadWords::Command(word) => (1, word, "eval, trace or ops"),
            BadWords::AddressSize(word) => (2, word, "the size of an address in bytes, 1 to 8"),
            BadWords::OffsetSize(word) => (3, word, "the size of an offset in bytes, 4 or 8"),
            BadWords::Version(word) => (4, word, "the version of DWARF, 2 to 5"),
            BadWords::Order(word) => (5, word, "the byte order, le or be"),
            BadWords::Bytes(word) => (6, word, "pairs of hexadecimal digits, or - for no bytes"),
        };
        let shown = Shown(word.as_bytes());
        write!(f, "word {number}, {shown}: expected {expected}")
    }
}

impl Display for BadLine<'_> {
    fn fmt<W: fmt::Write>(&self, f: &mut Formatter<W>) -> fmt::Result {
        let (number, shown, fault) = (self.number, Shown(self.text), self.fault);
        write!(f, "line {number}, {shown}: expected {fault}")
    }
}

/// Says what the line should be.
impl Display for BadStep {
    fn fmt<W: fmt::Write>(&self, f: &mut Formatter<W>) -> fmt::Result {
        let expected = match *self {
            BadStep::Unknown => "evaluate, initial N, object N, max N or an answer",
            BadStep::NotAlone => "evaluate alone",
            BadStep::Number => "a number after the name and one space, as 16 or 0x10",
            BadStep::Maximum => "a number below 4294967296 after the name and one space",
            BadStep::Value => "a value after the name and one space, as generic:0x10 or i8:-1",
            BadStep::Bytes => {
                "pairs of hexadecimal digits after the name and one space, or - for no bytes"
            }
            BadStep::Type => {
                "generic, i8, u8, i16, u16, i32, u32, i64 or u64 after the name and one space"
            }
            BadStep::Misplaced(status) => match status {
                Status::Start { initial: false } => "evaluate, initial N, object N or max N",
                Status::Start { initial: true } | Status::Complete => "evaluate, object N or max N",
                Status::Failed(_) => "evaluate, object N, max N or an answer",
                Status::Waiting(kind) => {
                    for (name, form, asked) in &ANSWERS {
                        if *asked == kind {
                            return write!(f, "{name} {form}, object N or max N");
                        }
                    }
                    "object N or max N"
                }
            },
        };
        f.write_str(expected)
    }
}
