//! The program's words.

ghost use Rattle.dwarf_eval.specs.Evaluation.{IsAddressSize};
ghost use Rattle.std.specs.Prelude.{◌≡◌, ◌<◌, ◌≤◌, IfErr, IfOk, None, map, string_bytes};
ghost use Rattle.std.specs.Result.{result_ok};
ghost use Rattle.dwexpr_cli.specs.Words.{address_size_in, command_in, extra_in, named_extra_in, format_in, invocation_in, order_in, decoding_context_in, version_in};
ghost use Rattle.dwexpr_cli.specs.inner.Readings.{ReadsInput, asked_by, texts_of};

use crate::hexadecimal::{InputFault, bytes_or};
use dwarf_base::{Encoding, Format, RunTimeEndian};
use std::alloc::Allocator;

/// What is wrong with the words.
#[derive(Clone, Copy)]
pub(crate) enum BadWords<'a> {
    /// There are this many, instead of six.
    Count(usize),
    /// The first one is no command.
    Command(&'a str),
    /// The second one is no size for an address.
    AddressSize(&'a str),
    /// The third one is no size for an offset.
    OffsetSize(&'a str),
    /// The fourth one is no version.
    Version(&'a str),
    /// The fifth one is no byte order.
    Order(&'a str),
    /// The sixth one spells no bytes.
    Bytes(&'a str),
}

/// The six words.
#[derive(Clone, Copy)]
struct Words<'a> {
    command: &'a str,
    address_size: &'a str,
    offset_size: &'a str,
    version: &'a str,
    order: &'a str,
    bytes: &'a str,
}

/// The words, if there are six.
fn six_words<A: Allocator>(words: &[String<A>]) -> Result<Words<'_>, BadWords<'_>>
    ensures six { IfOk result (λ six. map string_bytes words.now ≡ texts_of six) }
    ensures other { IfErr result (λ _. invocation_in (map string_bytes words.now) ≡ None) }
{
    let [command, address_size, offset_size, version, order, bytes] = words else {
        return Err(BadWords::Count(words.len()));
    };
    Ok(Words {
        command: command.as_str(),
        address_size: address_size.as_str(),
        offset_size: offset_size.as_str(),
        version: version.as_str(),
        order: order.as_str(),
        bytes: bytes.as_str(),
    })
}

/// What to do with the bytes.
#[derive(Clone, Copy, Debug, PartialEq, Eq)]
pub(crate) enum Command {
    /// List their operations.
    Ops,
    /// Evaluate them.
    Eval,
}

/// The command that the first word spells.
fn command_of(word: &str) -> Result<Command, BadWords<'_>>
    ensures { result_ok result ≡ command_in word.now }
{
    match word {
        "ops" => Ok(Command::Ops),
        "eval" => Ok(Command::Eval),
        _ => Err(BadWords::Command(word)),
    }
}

/// What the program does besides its commands.
#[derive(Clone, Copy, Debug, PartialEq, Eq)]
pub(crate) enum Extra {
    /// Print how it is used.
    Help,
    /// Print its version.
    Version,
    /// Trace an evaluation.
    Trace,
}

/// What a first word asks for besides the commands.
fn named_extra(word: &str) -> Option<Extra>
    ensures { result ≡ named_extra_in word.now }
{
    match word {
        "-h" | "--help" => Some(Extra::Help),
        "-V" | "--version" => Some(Extra::Version),
        "trace" => Some(Extra::Trace),
        _ => None,
    }
}

/// What the first word asks for besides the commands.
pub(crate) fn extra_of<A: Allocator>(words: &[String<A>]) -> Option<Extra>
    ensures { result ≡ extra_in (map string_bytes words.now) }
{
    match words.first() {
        Some(word) => named_extra(word.as_str()),
        None => None,
    }
}

/// How the bytes of an expression are read: the size of an address, the format, the version and the byte order.
#[derive(Clone, Copy, Debug, PartialEq, Eq)]
pub(crate) struct DecodingContext {
    pub(crate) encoding: Encoding,
    pub(crate) order: RunTimeEndian,
}

/// The size of an address, in bytes: `1` to `8`.
fn address_size(word: &str) -> Result<u8, BadWords<'_>>
    ensures exact { result_ok result ≡ address_size_in word.now }
    ensures size { IfOk result (λ size. (0 < size) × (size ≤ 8)) }
{
    match word {
        "1" => Ok(1),
        "2" => Ok(2),
        "3" => Ok(3),
        "4" => Ok(4),
        "5" => Ok(5),
        "6" => Ok(6),
        "7" => Ok(7),
        "8" => Ok(8),
        _ => Err(BadWords::AddressSize(word)),
    }
}

/// The format, by the size of an offset in bytes.
fn format(word: &str) -> Result<Format, BadWords<'_>>
    ensures { result_ok result ≡ format_in word.now }
{
    match word {
        "4" => Ok(Format::Dwarf32),
        "8" => Ok(Format::Dwarf64),
        _ => Err(BadWords::OffsetSize(word)),
    }
}

/// The version of DWARF: `2` to `5`.
fn version(word: &str) -> Result<u16, BadWords<'_>>
    ensures { result_ok result ≡ version_in word.now }
{
    match word {
        "2" => Ok(2),
        "3" => Ok(3),
        "4" => Ok(4),
        "5" => Ok(5),
        _ => Err(BadWords::Version(word)),
    }
}

/// The byte order: `le` or `be`.
fn order(word: &str) -> Result<RunTimeEndian, BadWords<'_>>
    ensures { result_ok result ≡ order_in word.now }
{
    match word {
        "le" => Ok(RunTimeEndian::Little),
        "be" => Ok(RunTimeEndian::Big),
        _ => Err(BadWords::Order(word)),
    }
}

/// How the bytes are read, from the four words that say it.
fn decoding_context_of(words: Words<'_>) -> Result<DecodingContext, BadWords<'_>>
    ensures exact { result_ok result ≡ decoding_context_in words.entry.address_size.now
        words.entry.offset_size.now words.entry.version.now words.entry.order.now }
    ensures sizes { IfOk result
        (λ context. IsAddressSize context.encoding.address_size) }
{
    let address_size = address_size(words.address_size)?;
    let format = format(words.offset_size)?;
    let version = version(words.version)?;
    let order = order(words.order)?;
    Ok(DecodingContext {
        encoding: Encoding {
            address_size,
            format,
            version,
        },
        order,
    })
}

/// What the words ask for.
#[derive(Drop)]
pub(crate) struct Invocation<A: Allocator> {
    pub(crate) command: Command,
    pub(crate) context: DecodingContext,
    pub(crate) bytes: Vec<u8, A>,
}

/// What the words ask for. Memory is allocated only for the bytes, and only if all words are good.
pub(crate) fn invocation_of<A: Allocator>(
    alloc: A,
    words: &[String<A>],
) -> Result<Invocation<A>, InputFault<BadWords<'_>>>
    ensures exact { ReadsInput asked_by (invocation_in (map string_bytes words.now)) result }
    ensures sizes { IfOk result (λ asked.
        IsAddressSize asked.context.encoding.address_size) }
{
    let words = six_words(words)?;
    let command = command_of(words.command)?;
    let context = decoding_context_of(words)?;
    let bytes = bytes_or(alloc, words.bytes, BadWords::Bytes(words.bytes))?;
    Ok(Invocation {
        command,
        context,
        bytes,
    })
}

/// An expression, and how its bytes are read.
#[derive(Drop)]
pub(crate) struct Expression<A: Allocator> {
    pub(crate) context: DecodingContext,
    pub(crate) bytes: Vec<u8, A>,
}

/// The expression that the words after `trace` spell.
pub(crate) fn traced_of<A: Allocator>(
    alloc: A,
    words: &[String<A>],
) -> Result<Expression<A>, InputFault<BadWords<'_>>>
    ensures { IfOk result (λ asked. IsAddressSize asked.context.encoding.address_size) }
{
    let words = six_words(words)?;
    let context = decoding_context_of(words)?;
    let bytes = bytes_or(alloc, words.bytes, BadWords::Bytes(words.bytes))?;
    Ok(Expression { context, bytes })
}
