//! A reader over a slice of bytes.

ghost use Rattle.std.specs.Prelude.{◌≡◌, ◌<◌, ◌^◌, [], IfOk, OnErr, IsTrue};
ghost use Rattle.dwarf_base.specs.EndianSlice.{slice_bytes, slice_order, text_of};
ghost use Rattle.dwarf_base.specs.Reads.{Gives, IsSuffix, Reads, split_at, skip_at, fixed_at, is_fixed_size};

use crate::byte_order::Endianity;
use crate::common::ReaderOffsetId;
use crate::errors::{Error, Result};
use crate::reading::Reader;

/// The bytes of a slice, in a byte order.
///
/// Two are equal if their bytes and their byte orders are equal. A `skip`, `split` or `read_fixed` that fails leaves
/// the reader as it was.
#[derive(Clone, Copy, Debug, Default, PartialEq, Eq, Hash)]
pub struct EndianSlice<'input, E> {
    slice: &'input [u8],
    endian: E,
}

impl<'input, E: Endianity> EndianSlice<'input, E> {
    /// A reader over the bytes of `slice`, in the byte order `endian`.
    #[inline]
    pub fn new(slice: &'input [u8], endian: E) -> Self
        ensures bytes { slice_bytes result ≡ slice.now }
        ensures order { slice_order result ≡ endian }
    {
        EndianSlice { slice, endian }
    }

    /// The bytes that are left to read.
    #[inline]
    pub fn slice(&self) -> &'input [u8]
        ensures { result.now ≡ slice_bytes self.now }
    {
        self.slice
    }

    /// The byte order.
    #[inline]
    pub fn endian(&self) -> E
        ensures { result ≡ slice_order self.now }
    {
        self.endian
    }

    // Identifies the place where a read goes past the end. Its value is unspecified, and nothing depends on it.
    #[inline]
    fn offset_id(&self) -> ReaderOffsetId {
        ReaderOffsetId(0)
    }

    // Takes the first `N` bytes.
    #[inline]
    fn take_front<const N: usize>(&mut self) -> Result<[u8; N]>
        ensures value { Gives (λ front. front) result self.new.slice.now
            (split_at N self.old.slice.now) }
        ensures kept { OnErr result (self.new ≡ self.old) }
        ensures rest { IsSuffix self.new.slice.now self.old.slice.now }
        ensures order { self.new.endian ≡ self.old.endian }
    {
        let Some((front, rest)) = self.slice.split_first_chunk::<N>() else {
            return Err(Error::UnexpectedEof(self.offset_id()));
        };
        self.slice = rest;
        Ok(*front)
    }
}

impl<'input, E: Endianity> Reader for EndianSlice<'input, E> {
    type Offset = usize;

    ghost text = { text_of E.is_big };

    #[inline]
    fn len(&self) -> usize {
        self.slice.len()
    }

    #[inline]
    fn is_empty(&self) -> bool {
        self.slice.is_empty()
    }

    #[inline]
    fn empty(&mut self) {
        self.slice = &[];
    }

    #[inline]
    fn offset_from(&self, base: &Self) -> usize {
        base.slice.len() - self.slice.len()
    }

    #[inline]
    fn skip(&mut self, len: usize) -> Result<()>
        ensures reads { Reads (λ x. x) (text_of E.is_big self.old) (text_of E.is_big self.new) result
            (skip_at len (slice_bytes self.old)) }
        ensures kept { OnErr result (self.new ≡ self.old) }
    {
        self.split(len)?;
        Ok(())
    }

    #[inline]
    fn split(&mut self, len: usize) -> Result<Self>
        ensures reads { Reads slice_bytes (text_of E.is_big self.old) (text_of E.is_big self.new) result
            (split_at len (slice_bytes self.old)) }
        ensures front_order { IfOk result (λ front. E.is_big (slice_order front)
            ≡ E.is_big (slice_order self.old)) }
        ensures kept { OnErr result (self.new ≡ self.old) }
    {
        if self.slice.len() < len {
            return Err(Error::UnexpectedEof(self.offset_id()));
        }
        let (front, rest) = self.slice.split_at(len);
        self.slice = rest;
        Ok(EndianSlice {
            slice: front,
            endian: self.endian,
        })
    }

    #[inline]
    #[tactic(auto, using(crate::proofs::FixedNumbers::fixed_numbers), unfolding(crate::specs::Reads::fixed_at))]
    fn read_fixed(&mut self, n: u8) -> Result<u64>
        requires { IsTrue (is_fixed_size n) }
        ensures reads { Reads (λ x. x) (text_of E.is_big self.old) (text_of E.is_big self.new) result
            (fixed_at (E.is_big (slice_order self.old)) n (slice_bytes self.old)) }
        ensures fits { IfOk result (λ number. number < 256 ^ n) }
        ensures kept { OnErr result (self.new ≡ self.old) }
    {
        match (n, self.endian.is_big_endian()) {
            (1, _) => Ok(u64::from(u8::from_le_bytes(self.take_front()?))),
            (2, true) => Ok(u64::from(u16::from_be_bytes(self.take_front()?))),
            (2, false) => Ok(u64::from(u16::from_le_bytes(self.take_front()?))),
            (4, true) => Ok(u64::from(u32::from_be_bytes(self.take_front()?))),
            (4, false) => Ok(u64::from(u32::from_le_bytes(self.take_front()?))),
            (_, true) => Ok(u64::from_be_bytes(self.take_front()?)),
            (_, false) => Ok(u64::from_le_bytes(self.take_front()?)),
        }
    }
}
