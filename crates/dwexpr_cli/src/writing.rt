//! Writes the words of a line.

ghost use Rattle.std.specs.Prelude.{◌≡◌, ◌<◌, ◌≤◌, ◌++◌, false, drop, map, decimal};
ghost use Rattle.std.specs.Fmt.{digit_glyph, digits, signed_decimal};
ghost use Rattle.dwarf_base.specs.EndianSlice.{slice_bytes};
ghost use Rattle.dwexpr_cli.specs.Writing.{bytes_word, ending, line, value_word};
ghost use Rattle.dwexpr_cli.specs.inner.Outputs.{Prints, word_text};

use dwarf_base::{EndianSlice, Reader, RunTimeEndian};
use dwarf_value::Value;
use std::io;
use std::io::{ErrorKind, Write};

/// Bytes in the byte order that the words ask for.
pub(crate) type Bytes<'a> = EndianSlice<'a, RunTimeEndian>;

/// Writes the bytes. `write!` wouldn't do: after a failed write, its contract doesn't say what was written.
fn put<W: Write>(output: &mut W, bytes: &[u8]) -> io::Result<()>
    ensures { Prints (W.contents output.old) (W.contents output.new) bytes.now result }
{
    let mut left = bytes;
    for _ in 0..u64::MAX {
        if left.is_empty() {
            return Ok(());
        }
        match output.write(left) {
            Ok(0) => return Err(io::Error::from(ErrorKind::WriteZero)),
            Ok(taken) => left = &left[taken..],
            Err(error) => {
                if error.kind() != ErrorKind::Interrupted {
                    return Err(error);
                }
            }
        }
    }
    Err(io::Error::from(ErrorKind::Interrupted))
}

pub(crate) fn put_text<W: Write>(output: &mut W, text: &str) -> io::Result<()>
    ensures { Prints (W.contents output.old) (W.contents output.new) text.now result }
{
    put(output, text.as_bytes())
}

/// A digit of a base up to 16, in lower case.
fn digit(number: u64) -> u8
    requires { number < 16 }
    ensures { result ≡ digit_glyph false number }
{
    if number < 10 {
        b'0' + number as u8
    } else {
        b'a' - 10 + number as u8
    }
}

/// Writes the digits of the number to the end of the buffer, and returns the index of the first one.
#[inline]
fn place_digits(buffer: &mut [u8; 64], base: u64, number: u64) -> usize
    requires least { 2 ≤ base }
    requires most { base ≤ 16 }
    ensures inside { result ≤ 64 }
    ensures digits { drop result buffer.new ≡ digits base false number }
{
    let mut start = 64;
    let mut left = number;
    while start > 0 {
        start -= 1;
        buffer[start] = digit(left % base);
        left /= base;
        if left == 0 {
            break;
        }
    }
    start
}

pub(crate) fn put_digits<W: Write>(output: &mut W, base: u64, number: u64) -> io::Result<()>
    requires least { 2 ≤ base }
    requires most { base ≤ 16 }
    ensures { Prints (W.contents output.old) (W.contents output.new) (digits base false number)
        result }
{
    let mut buffer = [0; 64];
    let start = place_digits(&mut buffer, base, number);
    put(output, &buffer[start..])
}

/// Writes the prefix, and the number in lower case digits of this base.
pub(crate) fn put_number<W: Write>(
    output: &mut W,
    prefix: &str,
    base: u64,
    number: u64,
) -> io::Result<()>
    requires least { 2 ≤ base }
    requires most { base ≤ 16 }
    ensures { Prints (W.contents output.old) (W.contents output.new)
        (prefix.now ++ digits base false number) result }
{
    put_text(output, prefix)?;
    put_digits(output, base, number)
}

/// Writes the prefix, a minus sign if the number is negative, and decimal digits.
pub(crate) fn put_integer<W: Write>(output: &mut W, prefix: &str, number: i64) -> io::Result<()>
    ensures { Prints (W.contents output.old) (W.contents output.new)
        (prefix.now ++ signed_decimal number) result }
{
    put_text(output, prefix)?;
    if number < 0 {
        put_number(output, "-", 10, number.unsigned_abs())
    } else {
        put_digits(output, 10, number.unsigned_abs())
    }
}

pub(crate) fn put_value<W: Write>(output: &mut W, value: Value) -> io::Result<()>
    ensures { Prints (W.contents output.old) (W.contents output.new) (value_word value) result }
{
    match value {
        Value::Generic(content) => put_number(output, "generic:0x", 16, content),
        Value::I8(number) => put_integer(output, "i8:", i64::from(number)),
        Value::U8(number) => put_number(output, "u8:", 10, u64::from(number)),
        Value::I16(number) => put_integer(output, "i16:", i64::from(number)),
        Value::U16(number) => put_number(output, "u16:", 10, u64::from(number)),
        Value::I32(number) => put_integer(output, "i32:", i64::from(number)),
        Value::U32(number) => put_number(output, "u32:", 10, u64::from(number)),
        Value::I64(number) => put_integer(output, "i64:", number),
        Value::U64(number) => put_number(output, "u64:", 10, number),
    }
}

/// Writes two lower case digits per byte, or `-` for no bytes.
pub(crate) fn put_bytes<W: Write>(output: &mut W, bytes: Bytes<'_>) -> io::Result<()>
    ensures { Prints (W.contents output.old) (W.contents output.new)
        (bytes_word (slice_bytes bytes.entry)) result }
{
    if bytes.is_empty() {
        return put_text(output, "-");
    }
    for byte in bytes.slice() {
        let (high, low) = (u64::from(byte / 16), u64::from(byte % 16));
        put(output, &[digit(high), digit(low)])?;
    }
    Ok(())
}

/// A word of a line.
#[derive(Clone, Copy)]
pub(crate) enum Word<'a> {
    /// The name itself.
    Name(&'static str),
    /// In decimal.
    Number(u64),
    /// In decimal, after a minus sign if it is negative.
    Integer(i64),
    /// In hexadecimal, after `0x`.
    Hexadecimal(u64),
    /// Its type, a colon and its content.
    Value(Value),
    /// In hexadecimal, two digits per byte.
    Bytes(Bytes<'a>),
}

pub(crate) fn put_word<W: Write>(output: &mut W, word: Word<'_>) -> io::Result<()>
    ensures { Prints (W.contents output.old) (W.contents output.new) (word_text word.entry) result }
{
    match word {
        Word::Name(name) => put_text(output, name),
        Word::Number(number) => put_digits(output, 10, number),
        Word::Integer(number) => put_integer(output, "", number),
        Word::Hexadecimal(number) => put_number(output, "0x", 16, number),
        Word::Value(value) => put_value(output, value),
        Word::Bytes(bytes) => put_bytes(output, bytes),
    }
}

/// Writes the rest of a line: a blank before each word, and a line feed.
fn put_ending<W: Write>(output: &mut W, words: &[Word<'_>]) -> io::Result<()>
    ensures { Prints (W.contents output.old) (W.contents output.new)
        (ending (map word_text words.now)) result }
{
    for word in words {
        put_text(output, " ")?;
        put_word(output, *word)?;
    }
    put_text(output, "\n")
}

/// Writes a line: the first word, a blank before each further word, and a line feed.
pub(crate) fn put_line<W: Write>(output: &mut W, first: &str, words: &[Word<'_>]) -> io::Result<()>
    ensures { Prints (W.contents output.old) (W.contents output.new)
        (line first.now (map word_text words.now)) result }
{
    put_text(output, first)?;
    put_ending(output, words)
}

/// Writes a line whose first word is a number.
pub(crate) fn put_numbered_line<W: Write>(
    output: &mut W,
    first: u64,
    words: &[Word<'_>],
) -> io::Result<()>
    ensures { Prints (W.contents output.old) (W.contents output.new)
        (line (decimal first) (map word_text words.now)) result }
{
    put_digits(output, 10, first)?;
    put_ending(output, words)
}
