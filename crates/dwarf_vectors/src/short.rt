//! A reader whose offsets have 32 bits.

ghost use Rattle.std.specs.Prelude.{length, ◌<◌, ◌^◌, false};
ghost use Rattle.dwarf_base.specs.EndianSlice.{slice_bytes};

use dwarf_base::{EndianSlice, LittleEndian, Reader, Result};

/// A reader of little-endian bytes whose offsets have 32 bits.
#[derive(Clone, Copy, Debug)]
pub(crate) struct ShortSlice<'a> {
    slice: EndianSlice<'a, LittleEndian>,
    ghost fits: { length (slice_bytes slice) < 2 ^ 32 },
}

impl<'a> ShortSlice<'a> {
    /// A reader of these bytes, if offsets of 32 bits reach them.
    pub(crate) fn new(bytes: &'a [u8]) -> Option<Self> {
        if bytes.len() > u32::MAX as usize {
            return None;
        }
        let slice = EndianSlice::new(bytes, LittleEndian);
        Some(ShortSlice { slice })
    }
}

impl<'a> Reader for ShortSlice<'a> {
    type Offset = u32;

    ghost text = { λ r. record { bytes = slice_bytes r.slice; is_big = false } };

    fn len(&self) -> u32 {
        self.slice.len() as u32
    }

    fn is_empty(&self) -> bool {
        self.slice.is_empty()
    }

    fn empty(&mut self) {
        self.slice.empty();
    }

    fn offset_from(&self, base: &Self) -> u32 {
        self.slice.offset_from(&base.slice) as u32
    }

    fn skip(&mut self, len: u32) -> Result<()> {
        self.slice.skip(len as usize)
    }

    fn split(&mut self, len: u32) -> Result<Self> {
        let slice = self.slice.split(len as usize)?;
        Ok(ShortSlice { slice })
    }

    fn read_fixed(&mut self, n: u8) -> Result<u64> {
        self.slice.read_fixed(n)
    }
}
