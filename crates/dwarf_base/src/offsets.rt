//! Offsets: the integers by which readers count bytes.

ghost use Rattle.std.specs.Prelude.{◌≡◌, ℕ, ◌+◌, ◌%◌, ◌^◌, ◌<◌, ◌≤◌};
ghost use Rattle.dwarf_base.specs.Faults.{Returns};
ghost use Rattle.dwarf_base.specs.Numbers.{residue, offset_of};

use crate::errors::{Error, Result};
use std::fmt::Debug;

/// An integer that counts the bytes of a reader.
pub trait ReaderOffset: Debug + Copy + Eq {
    ghost BITS: { ℕ };

    // The offset as a number.
    ghost number: { Self → ℕ };

    /// How many bits it has.
    const BITS: u32;

    /// The same number.
    #[inline]
    final fn from_u8(offset: u8) -> Self
        ensures { number result ≡ offset }
    {
        Self::from_u32(u32::from(offset))
    }

    /// The same number.
    #[inline]
    final fn from_u16(offset: u16) -> Self
        ensures { number result ≡ offset }
    {
        Self::from_u32(u32::from(offset))
    }

    /// The number modulo 2^`BITS`.
    fn from_i16(offset: i16) -> Self
        ensures { number result ≡ residue BITS offset };

    /// The same number.
    fn from_u32(offset: u32) -> Self
        ensures { number result ≡ offset };

    /// The same number; `UnsupportedOffset` exactly if it doesn't fit.
    fn from_u64(offset: u64) -> Result<Self>
        ensures { Returns number result (offset_of BITS offset) };

    /// The same number.
    fn into_u64(self) -> u64
        ensures value { result ≡ number self }
        ensures fits { number self < 2 ^ BITS }
        ensures low { 32 ≤ BITS }
        ensures high { BITS ≤ 64 };

    /// The sum modulo 2^`BITS`.
    fn wrapping_add(self, other: Self) -> Self
        ensures { number result ≡ (number self + number other) % 2 ^ BITS };
}

impl ReaderOffset for u32 {
    ghost BITS = { 32 };

    ghost number = { λ x. x };

    const BITS: u32 = 32;

    #[inline]
    fn from_i16(offset: i16) -> Self {
        i32::from(offset).cast_unsigned()
    }

    #[inline]
    fn from_u32(offset: u32) -> Self {
        offset
    }

    #[inline]
    fn from_u64(offset: u64) -> Result<Self> {
        u32::try_from(offset).map_err(|_| Error::UnsupportedOffset)
    }

    #[inline]
    fn into_u64(self) -> u64 {
        u64::from(self)
    }

    #[inline]
    fn wrapping_add(self, other: Self) -> Self {
        u32::wrapping_add(self, other)
    }
}

impl ReaderOffset for u64 {
    ghost BITS = { 64 };

    ghost number = { λ x. x };

    const BITS: u32 = 64;

    #[inline]
    fn from_i16(offset: i16) -> Self {
        i64::from(offset).cast_unsigned()
    }

    #[inline]
    fn from_u32(offset: u32) -> Self {
        u64::from(offset)
    }

    #[inline]
    fn from_u64(offset: u64) -> Result<Self> {
        Ok(offset)
    }

    #[inline]
    fn into_u64(self) -> u64 {
        self
    }

    #[inline]
    fn wrapping_add(self, other: Self) -> Self {
        u64::wrapping_add(self, other)
    }
}

impl ReaderOffset for usize {
    ghost BITS = { 64 };

    ghost number = { λ x. x };

    const BITS: u32 = usize::BITS;

    #[inline]
    fn from_i16(offset: i16) -> Self {
        isize::from(offset).cast_unsigned()
    }

    #[inline]
    fn from_u32(offset: u32) -> Self {
        offset as usize
    }

    #[inline]
    fn from_u64(offset: u64) -> Result<Self> {
        usize::try_from(offset).map_err(|_| Error::UnsupportedOffset)
    }

    #[inline]
    fn into_u64(self) -> u64 {
        self as u64
    }

    #[inline]
    fn wrapping_add(self, other: Self) -> Self {
        usize::wrapping_add(self, other)
    }
}
