//! Readers: bytes that are read from the front, as numbers, blocks and offsets (DWARF 5, sections 7.4 and 7.6).

ghost use Rattle.std.specs.Prelude.{◌≡◌, [], length, ◌-◌, ◌^◌, ◌<◌, ◌==◌, IfOk, IsTrue, pos, neg_ℤ, ◌≤ℤ◌, ◌<ℤ◌};
ghost use Rattle.dwarf_base.specs.Leb.{uleb_at, uleb_u32_at, sleb_at, leb_from, sign_extension, unsigned_leb, signed_leb};
ghost use Rattle.dwarf_base.specs.Reads.{Reads, Text, IsSuffix, u8_at, split_at, skip_at, fixed_at, signed_at, address_at, format_at, is_fixed_size};

use crate::common::Format;
use crate::errors::{Error, Result};
use crate::offsets::ReaderOffset;

/// Bytes in a byte order, read from the front.
///
/// The result of a read depends only on the bytes that it takes, the byte order and its arguments; only the identifier
/// in `UnexpectedEof` is unspecified. After an `Ok` the reader has the bytes after those that were taken; after an
/// `Err` it has some suffix of its bytes. No call allocates.
pub trait Reader {
    /// The integer that counts its bytes.
    type Offset: ReaderOffset;

    // The bytes that are left to read, and their order.
    ghost text: { Self → Text };

    /// How many bytes are left.
    fn len(&self) -> Self::Offset
        ensures { Self.Offset.number result ≡ length (text self.now).bytes };

    /// Whether no byte is left.
    fn is_empty(&self) -> bool
        ensures { result ≡ (length (text self.now).bytes == 0) };

    /// Drops all bytes.
    fn empty(&mut self)
        ensures bytes { (text self.new).bytes ≡ [] }
        ensures order { (text self.new).is_big ≡ (text self.old).is_big };

    /// The offset of these bytes in `base`. They have to be a suffix of its bytes.
    fn offset_from(&self, base: &Self) -> Self::Offset
        requires { IsSuffix (text self.now).bytes (text base.now).bytes }
        ensures { Self.Offset.number result
            ≡ length (text base.now).bytes - length (text self.now).bytes };

    /// Drops the first `len` bytes. `UnexpectedEof` if there are fewer.
    fn skip(&mut self, len: Self::Offset) -> Result<()>
        ensures { Reads (λ x. x) (text self.old) (text self.new) result
            (skip_at (Self.Offset.number len) (text self.old).bytes) };

    /// Takes the first `len` bytes, in the same byte order. `UnexpectedEof` if there are fewer.
    fn split(&mut self, len: Self::Offset) -> Result<Self>
        ensures reads { Reads (λ front. (text front).bytes) (text self.old) (text self.new)
            result (split_at (Self.Offset.number len) (text self.old).bytes) }
        ensures front_order { IfOk result (λ front. (text front).is_big ≡ (text self.old).is_big) };

    /// Reads an unsigned number of `n` bytes, which are 1, 2, 4 or 8. `UnexpectedEof` if there are fewer.
    fn read_fixed(&mut self, n: u8) -> Result<u64>
        requires { IsTrue (is_fixed_size n) }
        ensures reads { Reads (λ x. x) (text self.old) (text self.new) result
            (fixed_at (text self.old).is_big n (text self.old).bytes) }
        ensures fits { IfOk result (λ number. number < 256 ^ n) };

    /// Reads one byte. `UnexpectedEof` if there is none.
    #[inline]
    #[tactic(auto, using(crate::proofs::FixedNumbers::fixed_one))]
    final fn read_u8(&mut self) -> Result<u8>
        ensures { Reads (λ x. x) (text self.old) (text self.new) result
            (u8_at (text self.old).bytes) }
    {
        let number = self.read_fixed(1)?;
        Ok(number as u8)
    }

    /// Reads an unsigned number of 2 bytes. `UnexpectedEof` if there are fewer.
    #[inline]
    final fn read_u16(&mut self) -> Result<u16>
        ensures { Reads (λ x. x) (text self.old) (text self.new) result
            (fixed_at (text self.old).is_big 2 (text self.old).bytes) }
    {
        let number = self.read_fixed(2)?;
        Ok(number as u16)
    }

    /// Reads an unsigned number of 4 bytes. `UnexpectedEof` if there are fewer.
    #[inline]
    final fn read_u32(&mut self) -> Result<u32>
        ensures { Reads (λ x. x) (text self.old) (text self.new) result
            (fixed_at (text self.old).is_big 4 (text self.old).bytes) }
    {
        let number = self.read_fixed(4)?;
        Ok(number as u32)
    }

    /// Reads an unsigned number of 8 bytes. `UnexpectedEof` if there are fewer.
    #[inline]
    final fn read_u64(&mut self) -> Result<u64>
        ensures { Reads (λ x. x) (text self.old) (text self.new) result
            (fixed_at (text self.old).is_big 8 (text self.old).bytes) }
    {
        self.read_fixed(8)
    }

    /// Reads a signed number of 1 byte, in two's complement. `UnexpectedEof` if there is none.
    #[inline]
    final fn read_i8(&mut self) -> Result<i8>
        ensures { Reads (λ x. x) (text self.old) (text self.new) result
            (signed_at (text self.old).is_big 1 (text self.old).bytes) }
    {
        let number = self.read_fixed(1)?;
        Ok((number as u8).cast_signed())
    }

    /// Reads a signed number of 2 bytes, in two's complement. `UnexpectedEof` if there are fewer.
    #[inline]
    final fn read_i16(&mut self) -> Result<i16>
        ensures { Reads (λ x. x) (text self.old) (text self.new) result
            (signed_at (text self.old).is_big 2 (text self.old).bytes) }
    {
        let number = self.read_u16()?;
        Ok(number.cast_signed())
    }

    /// Reads a signed number of 4 bytes, in two's complement. `UnexpectedEof` if there are fewer.
    #[inline]
    final fn read_i32(&mut self) -> Result<i32>
        ensures { Reads (λ x. x) (text self.old) (text self.new) result
            (signed_at (text self.old).is_big 4 (text self.old).bytes) }
    {
        let number = self.read_u32()?;
        Ok(number.cast_signed())
    }

    /// Reads a signed number of 8 bytes, in two's complement. `UnexpectedEof` if there are fewer.
    #[inline]
    final fn read_i64(&mut self) -> Result<i64>
        ensures { Reads (λ x. x) (text self.old) (text self.new) result
            (signed_at (text self.old).is_big 8 (text self.old).bytes) }
    {
        let number = self.read_u64()?;
        Ok(number.cast_signed())
    }

    /// Reads an address of `size` bytes (DWARF 5, section 7.5.1). If `size` isn't 1, 2, 4 or 8, it reads no byte and
    /// gives `UnsupportedAddressSize`. `UnexpectedEof` if there are fewer bytes.
    #[inline]
    final fn read_address(&mut self, size: u8) -> Result<u64>
        ensures { Reads (λ x. x) (text self.old) (text self.new) result
            (address_at (text self.old).is_big size (text self.old).bytes) }
    {
        if !matches!(size, 1 | 2 | 4 | 8) {
            return Err(Error::UnsupportedAddressSize(size));
        }
        self.read_fixed(size)
    }

    /// Reads an offset, of 4 bytes in the 32-bit format and 8 in the 64-bit one (DWARF 5, section 7.4).
    /// `UnexpectedEof` if there are fewer bytes, then `UnsupportedOffset` if it doesn't fit.
    #[inline]
    final fn read_offset(&mut self, format: Format) -> Result<Self::Offset>
        ensures { Reads Self.Offset.number (text self.old) (text self.new) result
            (format_at (text self.old).is_big format Self.Offset.BITS (text self.old).bytes) }
    {
        let number = match format {
            Format::Dwarf32 => self.read_fixed(4)?,
            Format::Dwarf64 => self.read_fixed(8)?,
        };
        Self::Offset::from_u64(number)
    }

    /// Reads an unsigned LEB128 number (DWARF 5, section 7.6). `BadUnsignedLeb128` if its tenth byte is neither `00`
    /// nor `01`. Padding is allowed: nine bytes `80` and a `00` are zero. `UnexpectedEof` if the bytes end earlier.
    #[inline(always)]
    final fn read_uleb128(&mut self) -> Result<u64>
    where
        Self: Copy,
        ensures { Reads (λ x. x) (text self.old) (text self.new) result
            (uleb_at (text self.old).bytes) }
    {
        let first = self.read_u8()?;
        if first < 128 {
            return Ok(u64::from(first));
        }
        // The rest is read from a copy, so that the compiler can keep the reader itself in registers. This saves 0.05
        // of gimli's time or more to evaluate libc and libm in Rust.
        let mut copy = copy_of(self);
        let number = rest_of_uleb128(&mut copy, u64::from(first % 128));
        *self = copy;
        number
    }

    /// Reads an unsigned LEB128 number of 32 bits. It fails as `read_uleb128` does, and with `BadUnsignedLeb128` if the
    /// number is above 4294967295.
    #[inline]
    final fn read_uleb128_u32(&mut self) -> Result<u32>
    where
        Self: Copy,
        ensures { Reads (λ x. x) (text self.old) (text self.new) result
            (uleb_u32_at (text self.old).bytes) }
    {
        let number = self.read_uleb128()?;
        u32::try_from(number).map_err(|_| Error::BadUnsignedLeb128)
    }

    /// Reads a signed LEB128 number (DWARF 5, section 7.6). `BadSignedLeb128` if its tenth byte is neither
    /// `00` nor `7f`. `UnexpectedEof` if the bytes end earlier.
    #[inline(always)]
    final fn read_sleb128(&mut self) -> Result<i64>
    where
        Self: Copy,
        ensures { Reads (λ x. x) (text self.old) (text self.new) result
            (sleb_at (text self.old).bytes) }
    {
        let first = self.read_u8()?;
        if first < 128 {
            return Ok(last_byte(first));
        }
        // From a copy, as in `read_uleb128`.
        let mut copy = copy_of(self);
        let number = rest_of_sleb128(&mut copy, u64::from(first % 128));
        *self = copy;
        number
    }
}

/// Copies a value. Readers are copied by this function alone.
#[inline]
pub fn copy_of<T: Copy>(it: &T) -> T
    ensures { result ≡ it.now }
{
    *it
}

// The seven low bits of a signed number's last byte, as an integer in two's complement.
#[inline]
fn last_byte(byte: u8) -> i64
    requires { byte < 128 }
    ensures value { result ≡ sign_extension byte 1 byte }
    ensures least { neg_ℤ (pos 64) ≤ℤ result }
    ensures most { result <ℤ pos 64 }
{
    i64::from((byte + 64) % 128) - 64
}

// Reads the rest of an unsigned number; `low` has the bits of its first byte.
#[inline(never)]
fn rest_of_uleb128<R: Reader>(reader: &mut R, low: u64) -> Result<u64>
    requires { low < 128 }
    ensures { Reads (λ x. x) (R.text reader.old) (R.text reader.new) result
        (leb_from unsigned_leb 1 low (R.text reader.old).bytes) }
{
    let mut number = low;
    for place in 1..9u32 {
        let byte = reader.read_u8()?;
        let bits = u64::from(byte % 128) << (7 * place);
        number += bits;
        if byte < 128 {
            return Ok(number);
        }
    }
    let tenth = reader.read_u8()?;
    if tenth < 2 {
        Ok(number + (u64::from(tenth) << 63))
    } else {
        Err(Error::BadUnsignedLeb128)
    }
}

// Like `rest_of_uleb128`, for a signed number.
#[inline(never)]
fn rest_of_sleb128<R: Reader>(reader: &mut R, low: u64) -> Result<i64>
    requires { low < 128 }
    ensures { Reads (λ x. x) (R.text reader.old) (R.text reader.new) result
        (leb_from signed_leb 1 low (R.text reader.old).bytes) }
{
    let mut number = low;
    for place in 1..9u32 {
        let byte = reader.read_u8()?;
        let bits = u64::from(byte % 128) << (7 * place);
        number += bits;
        if byte < 64 {
            return Ok(number.cast_signed());
        }
        if byte < 128 {
            let whole = 128u64 << (7 * place);
            return Ok(-(whole - number).cast_signed());
        }
    }
    match reader.read_u8()? {
        0 => Ok(number.cast_signed()),
        127 => Ok(i64::MIN + number.cast_signed()),
        _ => Err(Error::BadSignedLeb128),
    }
}
