//! Bytes from pairs of hexadecimal digits.

ghost use Rattle.std.specs.Prelude.{◌≡◌, ◌%◌, ◌↔◌, IfErr, IfOk, IsSome, IsTrue, None, Some, [], ◌∷◌, length};
ghost use Rattle.std.specs.List.{AllPass};
ghost use Rattle.hex.specs.Hex.{is_hex_digit};
ghost use Rattle.dwexpr_cli.specs.Words.{bytes_in};
ghost use Rattle.dwexpr_cli.specs.declared.hexadecimal.InputFault.TheVariants as input;
ghost use Rattle.dwexpr_cli.specs.inner.Readings.{ReadsInput};

use hex::FromHexError;
use std::alloc::Allocator;

/// Why a word gave no bytes.
#[derive(Clone, Copy, Debug, PartialEq, Eq)]
pub enum HexFault {
    /// The word is neither `-` nor an even number of hexadecimal digits.
    Bad,
    /// Memory for the bytes was refused.
    NoMemory,
}

/// Whether the word is an even number of hexadecimal digits, of either case.
fn is_hexadecimal(word: &[u8]) -> bool
    ensures { IsTrue result ↔ ((length word.now % 2 ≡ 0) × AllPass is_hex_digit word.now) }
{
    word.len() % 2 == 0 && word.iter().all(|byte| byte.is_ascii_hexdigit())
}

/// The bytes of a word of hexadecimal digits, of either case; `-` stands for no bytes. The word is checked before
/// memory is allocated, so only a good word can give `NoMemory`.
pub fn bytes_of<A: Allocator>(alloc: A, word: &str) -> Result<Vec<u8, A>, HexFault>
    ensures ok { IfOk result (λ bytes. bytes_in word.now ≡ Some bytes.items) }
    ensures bad { result ≡ Err HexFault.Bad → bytes_in word.now ≡ None }
    ensures no_memory { result ≡ Err HexFault.NoMemory → IsSome (bytes_in word.now) }
    ensures none { word.now ≡ 45 ∷ [] → IfErr result (λ fault. ⊥) }
    ensures empty { word.now ≡ [] → result ≡ Err HexFault.Bad }
{
    if word == "-" {
        return Ok(Vec::new(alloc));
    }
    if word.is_empty() {
        return Err(HexFault::Bad);
    }
    if !is_hexadecimal(word.as_bytes()) {
        return Err(HexFault::Bad);
    }
    match hex::decode(alloc, word) {
        Ok(bytes) => Ok(bytes),
        Err(FromHexError::OutOfMemory) => Err(HexFault::NoMemory),
        Err(_) => Err(HexFault::Bad),
    }
}

/// Why words or lines weren't read.
#[derive(Clone, Copy)]
pub(crate) enum InputFault<B> {
    /// They are bad, for this reason.
    Bad(B),
    /// Memory for them was refused.
    NoMemory,
}

impl<B> From<B> for InputFault<B> {
    ghost from_gives = { λ bad fault. fault ≡ input.Bad bad };

    fn from(bad: B) -> Self {
        InputFault::Bad(bad)
    }
}

/// The bytes of a word, or `bad` if the word isn't hexadecimal digits or `-`.
pub(crate) fn bytes_or<A: Allocator, B: Drop>(
    alloc: A,
    word: &str,
    bad: B,
) -> Result<Vec<u8, A>, InputFault<B>>
    ensures { ReadsInput (λ bytes. bytes.items) (bytes_in word.now) result }
{
    match bytes_of(alloc, word) {
        Ok(bytes) => Ok(bytes),
        Err(HexFault::Bad) => Err(InputFault::Bad(bad)),
        Err(HexFault::NoMemory) => Err(InputFault::NoMemory),
    }
}
